// The choice of the lasso's knot, for the crate `judging`. Relies on the crates `tying`, `searching`, `tracing`, `dividing` and `marks`.
// What its functions ask and promise is in specs/inner/.
#![tactic(auto)]

pub mod choice;
