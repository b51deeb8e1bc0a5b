// The search for the next leg of the lasso, for the crates `tying`, `choosing` and `judging`. Relies on the crates `tracing`, `dividing` and `marks`.
// What its functions ask and promise is in specs/inner/.
#![tactic(auto)]

pub mod search;
