// What is written of a table in the Hanoi format (docs/RULES.md, "The Hanoi format", the writer), for `hoa_writer` and those who go by it: definitions in specs/, lemmas in
// proofs/. No function of its own.
#![tactic(auto)]
