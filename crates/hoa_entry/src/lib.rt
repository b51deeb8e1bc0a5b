// One row and one edge of a text of the Hanoi format, for the crate `hoa_rows`. Relies on the crates `hoa_step`, `hoa_label`, `hoa_tokens` and `marks`.
// Sig.antt and Rows.antt in specs/ say which tokens are admitted in the rows of a text, and what they say; what the functions promise is in specs/inner/.
#![tactic(auto)]

pub mod edge;
pub mod row;
pub mod sig;
pub mod token;

// What the rows of a text are held against: n, if it was given, the start, the number of propositions and of marks.
#[derive(Clone, Copy)]
pub struct Limits {
    pub states: Option<u32>,
    pub start: u32,
    pub props: u32,
    pub marks: u32,
}

// What a token is where the rows stand: `State:`, `[`, an INT, `--END--`, `{`, a STRING, `&`, or a fault.
#[derive(Clone, Copy)]
pub enum Entry {
    Row,
    Edge,
    Bare,
    Close,
    Sig,
    Text,
    Join,
    Wrong(u32),
}
