// The hunt (docs/RULES.md, "How a component is judged"), for the crate `judging`: the hunt for a part that holds an accepted lasso, pair by pair for Rabin.
// Relies on the crates `erasing`, `sentencing`, `dividing` and `marks`. What its functions ask and promise is in specs/inner/.
#![tactic(auto)]

pub mod hunt;
