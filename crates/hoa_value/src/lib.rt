// The values of the header's items in a text of the Hanoi format, for the crate `hoa_head`. Relies on the crates `hoa_step`, `hoa_formula`, `hoa_tokens` and `table`.
// Head.antt and Heading.antt in specs/ say which tokens are admitted in a header, and what they say; what the functions ask and promise is in specs/inner/.
#![tactic(auto)]

pub mod formed;
pub mod hint;
pub mod names;
pub mod token;
pub mod value;

use hoa_tokens::Header;
use table::Acceptance;

// What was read of the header so far: the numbers of States:, Start:, AP: and Acceptance:, whether acc-name:, tool: and name: came, and the condition.
#[derive(Clone, Copy)]
pub struct Head {
    pub states: Option<u32>,
    pub start: Option<u32>,
    pub props: Option<u32>,
    pub marks: Option<u32>,
    pub hint: bool,
    pub tool: bool,
    pub name: bool,
    pub condition: Acceptance,
    pub needs: [u32; 8],
}

// What a token is where the header stands: the header of an item, `--BODY--`, a WORD, an INT, a STRING, `&`, or a fault.
#[derive(Clone, Copy)]
pub enum Piece {
    Item(Header),
    Body,
    Word,
    Int,
    Text,
    Join,
    Wrong(u32),
}
