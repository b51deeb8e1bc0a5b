// The job text reader (docs/RULES.md, "The job text and the printed answer").
// Relies on the crate `table` for the condition and the finding, and on `job_values` for the values. What a text says is in specs/Job.antt.
#![tactic(auto)]

mod line;
pub mod reader;
