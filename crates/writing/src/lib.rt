// What a writer of a text gives: its length, or the number and the place of the first cause to refuse. Relies on the crate `table` for rows 1 to 7.
// Which refusal comes first, and what the lent buffer holds, is in specs/Writing.antt.
#![tactic(auto)]
