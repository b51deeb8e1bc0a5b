// One token of a formula of the Hanoi format, for the crate `hoa_formula`: the turn of its reader, and the needs that are counted. Relies on the crate `hoa_standard`.
// What the functions ask and promise is in specs/inner/.
#![tactic(auto)]

pub mod needs;
pub mod step;
