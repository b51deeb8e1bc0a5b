// The tokens of the Hanoi format (docs/RULES.md, "The Hanoi format"): what stands at a place of a text. Relies on nothing.
// What the tokens of a text are is in specs/.
#![tactic(auto)]

mod bytes;
mod front;
mod gap;
mod name;
mod number;
mod string;

ghost use Rattle.hoa_tokens.specs.Stream.{TokenAt};

use crate::front::front;
use crate::gap::skip;

// A word; what the grammar asks for by name is told apart.
#[derive(Clone, Copy)]
pub enum Word {
    True,
    False,
    V1,
    Inf,
    Fin,
    Other,
}

// A header; of the names that the grammar does not know, those that begin with a capital letter are told apart.
#[derive(Clone, Copy)]
pub enum Header {
    Hoa,
    States,
    Start,
    Ap,
    Alias,
    Acceptance,
    AccName,
    Tool,
    Name,
    Properties,
    State,
    Capital,
    Lower,
}

// A mark of one byte.
#[derive(Clone, Copy)]
pub enum Sign {
    ParenLeft,
    ParenRight,
    BracketLeft,
    BracketRight,
    BraceLeft,
    BraceRight,
    And,
    Or,
    Not,
}

// What a token is. The bytes of a string are those of the text between its quotes.
#[derive(Clone, Copy)]
pub enum Kind {
    Int(u32),
    Word(Word),
    Header(Header),
    Quoted,
    Alias,
    Sign(Sign),
    Body,
    End,
    Abort,
    Finish,
    Bad,
}

// A token of a text: its first byte, the byte behind its last one, and what it is.
#[derive(Clone, Copy)]
pub struct Found {
    pub first: usize,
    pub next: usize,
    pub kind: Kind,
}

// The token at which a text is refused: the number of the fault, and its first byte.
#[derive(Clone, Copy)]
pub struct BadToken {
    pub number: u32,
    pub place: usize,
}

// The first token of the text from `at` on.
pub fn token_at(text: &[u8], at: usize) -> Found
    ensures { TokenAt text.now at result }
{
    match skip(text, at) {
        Ok(i) => front(text, i),
        Err(i) => Found {
            first: i,
            next: text.len(),
            kind: Kind::Bad,
        },
    }
}
