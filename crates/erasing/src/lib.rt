// Judge and divide, level by level (docs/RULES.md, "How a component is judged"), for the crates `hunting` and `judging`. Relies on the crates `sentencing`, `dividing` and
// `marks`. What its functions ask and promise is in specs/inner/.
#![tactic(auto)]

pub mod judgement;
