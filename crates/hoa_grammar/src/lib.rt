// The Hanoi format as a grammar, apart from the reader, and that the reader reads exactly its texts (docs/RULES.md, "The Hanoi format"). No code:
// the grammar is in specs/, the theorems in proofs/.
#![tactic(auto)]
