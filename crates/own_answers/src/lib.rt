// What the checker says of our own answers (docs/RULES.md, "An answer that is checked"): theorems over the judge, the printer and the checker together, in
// proofs/. No function of its own.
#![tactic(auto)]
