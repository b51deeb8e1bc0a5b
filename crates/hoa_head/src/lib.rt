// The header of a text of the Hanoi format (docs/RULES.md, "The Hanoi format"). Relies on the crates `hoa_value`, `hoa_tokens` and `table`.
// Which tokens are admitted, and what they say, is in hoa_value/specs/; what comes back is in specs/.
#![tactic(auto)]

mod item;

ghost use Rattle.std.specs.Prelude.{◌≡◌, ◌≤◌, length};
ghost use Rattle.hoa_value.specs.Head.{blank};
ghost use Rattle.hoa_head.specs.Headed.{Headed};
ghost use Rattle.hoa_head.specs.inner.Openings.{opening_kind, version_kind, OpeningRead};
ghost use Rattle.hoa_head.specs.inner.Turns.{ItemsRead};

use crate::item::{HeadTurn, read_item};
use hoa_tokens::{BadToken, Header, Kind, Word, token_at};
use hoa_value::Head;
use table::Acceptance;

// A header, and the byte behind what was read of it.
#[derive(Clone, Copy)]
pub struct HeadRead {
    pub head: Head,
    pub next: usize,
}

// The fault of a token where `HOA:` is wanted.
fn opening_fault(kind: Kind) -> Option<u32>
    ensures { result ≡ opening_kind kind }
{
    match kind {
        Kind::Header(Header::Hoa) => None,
        _ => Some(40),
    }
}

// The fault of a token where `v1` is wanted.
fn version_fault(kind: Kind) -> Option<u32>
    ensures { result ≡ version_kind kind }
{
    match kind {
        Kind::Word(Word::V1) => None,
        Kind::Word(_) | Kind::Abort => Some(41),
        _ => Some(40),
    }
}

// `HOA: v1`, and the byte behind it.
fn read_opening(text: &[u8]) -> Result<usize, BadToken>
    ensures { OpeningRead text.now result }
{
    let opener = token_at(text, 0);
    if let Some(number) = opening_fault(opener.kind) {
        return Err(BadToken {
            number,
            place: opener.first,
        });
    }
    let version = token_at(text, opener.next);
    if let Some(number) = version_fault(version.kind) {
        return Err(BadToken {
            number,
            place: version.first,
        });
    }
    Ok(version.next)
}

// The header before its first item.
fn blank_head() -> Head
    ensures { result ≡ blank }
{
    Head {
        states: None,
        start: None,
        props: None,
        marks: None,
        hint: false,
        tool: false,
        name: false,
        condition: Acceptance::Buchi(0),
        needs: [0; 8],
    }
}

// The items from `at` on, up to `--BODY--`.
fn read_items(text: &[u8], at: usize) -> Result<HeadRead, BadToken>
    requires { at ≤ length text.now }
    ensures { ItemsRead text.now at result }
{
    let mut read = HeadRead {
        head: blank_head(),
        next: at,
    };
    loop {
        match read_item(text, read.next, read.head)? {
            HeadTurn::Go(further) => read = further,
            HeadTurn::Done(whole) => return Ok(whole),
        }
    }
}

// The header of a text, up to `--BODY--`, and the byte behind it; or the token at fault.
pub fn read_head(text: &[u8]) -> Result<HeadRead, BadToken>
    ensures { Headed text.now result }
{
    let next = read_opening(text)?;
    read_items(text, next)
}
