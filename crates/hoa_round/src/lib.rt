// Reading what was written gives the same (docs/RULES.md, "The Hanoi format", the writer): theorems over the writer and the reader, in proofs/.
// No function of its own.
#![tactic(auto)]
