// The values of the job text, each read from the left in the line where it stands; where a value is not of its form, the first byte that cannot go on
// (docs/RULES.md, "The job text and the printed answer"). Serves the crate `job_text`; `part` and `number` serve `answer_check` too. Relies on the crates `digits` and `table`.
#![tactic(auto)]

pub mod field;
pub mod number;
pub mod part;
pub mod value;
