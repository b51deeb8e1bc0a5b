// The steps of a judgement (docs/RULES.md, "How a component is judged"), for the crates `erasing`, `hunting`, `stamping` and `judging`: what a union of marks says
// of its part, whether a part turns, and how deep the erasing went. Relies on the crates `dividing` and `marks`. What its functions ask and promise is in specs/inner/.
#![tactic(auto)]

pub mod depth;
pub mod sentence;
pub mod turning;
