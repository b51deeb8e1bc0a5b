// What the readers of the Hanoi format's header and rows share: an INT and a STRING where one is wanted
// (docs/RULES.md, "The Hanoi format"). Relies on the crate `hoa_tokens`.
#![tactic(auto)]

ghost use Rattle.std.specs.Prelude.{◌≡◌};
ghost use Rattle.hoa_step.specs.Wanted.{IntReads, TextReads};
ghost use Rattle.hoa_step.specs.inner.Kinds.{int_kind, text_kind};

use hoa_tokens::{BadToken, Kind, token_at};

// An INT with its place and the byte behind it.
#[derive(Clone, Copy)]
pub struct IntAt {
    pub value: u32,
    pub place: usize,
    pub next: usize,
}

// The value of a token where an INT is wanted, or the number of the fault; `--ABORT--` is 41.
fn int_kind(kind: Kind) -> Result<u32, u32>
    ensures { result ≡ int_kind kind }
{
    match kind {
        Kind::Int(value) => Ok(value),
        Kind::Abort => Err(41),
        _ => Err(40),
    }
}

// Whether a token is a STRING, or the number of the fault; `--ABORT--` is 41.
fn text_kind(kind: Kind) -> Result<(), u32>
    ensures { result ≡ text_kind kind }
{
    match kind {
        Kind::Quoted => Ok(()),
        Kind::Abort => Err(41),
        _ => Err(40),
    }
}

// The first token from `at` on, where an INT is wanted, or its refusal.
pub fn read_int(text: &[u8], at: usize) -> Result<IntAt, BadToken>
    ensures { IntReads text.now at result }
{
    let found = token_at(text, at);
    match int_kind(found.kind) {
        Ok(value) => Ok(IntAt {
            value,
            place: found.first,
            next: found.next,
        }),
        Err(number) => Err(BadToken {
            number,
            place: found.first,
        }),
    }
}

// The byte behind the first token from `at` on, where a STRING is wanted, or its refusal.
pub fn read_text(text: &[u8], at: usize) -> Result<usize, BadToken>
    ensures { TextReads text.now at result }
{
    let found = token_at(text, at);
    match text_kind(found.kind) {
        Ok(()) => Ok(found.next),
        Err(number) => Err(BadToken {
            number,
            place: found.first,
        }),
    }
}
