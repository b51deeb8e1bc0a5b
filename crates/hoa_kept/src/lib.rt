// The edges that the rows of a text of the Hanoi format keep, for the crate `hoa_rows`: held in the text's order, and copied by states. Relies on nothing.
// Sorted.antt in specs/ says what the order by states is; what the functions ask and promise is in specs/inner/.
#![tactic(auto)]

pub mod copied;
pub mod held;
