// The numbers of the one-mark translation (docs/RULES.md, "One-mark translation"), for the crates `lifting` and `one_mark`: levels and climbs, loops and edge counts. Relies
// on `table` for the rows. What the translated table is stands in specs/ (Climb, Place, Source, Translated), what the functions ask in specs/inner.antt.
#![tactic(auto)]

pub mod levels;
pub mod stops;
