// What a token is where the rows stand. Relies on the crate `hoa_tokens`.
ghost use Rattle.std.specs.Prelude.{◌≡◌, List, ℕ};
ghost use Rattle.hoa_tokens.specs.Stream.{token_of};
ghost use Rattle.hoa_entry.specs.Rows.{entry_header, entry_sign, entry_of};
ghost use Rattle.hoa_entry.specs.inner.Reads.{EntryHere};

use crate::Entry;
use hoa_tokens::{Header, Kind, Sign, token_at};

// What the first token from a place on is, its first byte and the byte behind it.
#[derive(Clone, Copy)]
pub struct EntryAt {
    pub entry: Entry,
    pub place: usize,
    pub next: usize,
}

// What a header is.
fn entry_header(header: Header) -> Entry
    ensures { result ≡ entry_header header }
{
    match header {
        Header::State => Entry::Row,
        _ => Entry::Wrong(40),
    }
}

// What a mark is.
fn entry_sign(sign: Sign) -> Entry
    ensures { result ≡ entry_sign sign }
{
    match sign {
        Sign::BracketLeft => Entry::Edge,
        Sign::BraceLeft => Entry::Sig,
        Sign::And => Entry::Join,
        _ => Entry::Wrong(40),
    }
}

// What a token is.
#[tactic(auto, unfolding(crate::specs::Rows::entry_of))]
fn entry_of(kind: Kind) -> Entry
    ensures { (text : List ℕ) (p q : ℕ) → result ≡ entry_of (token_of text p q kind) }
{
    match kind {
        Kind::Header(header) => entry_header(header),
        Kind::Sign(sign) => entry_sign(sign),
        Kind::Int(_) => Entry::Bare,
        Kind::Quoted => Entry::Text,
        Kind::End => Entry::Close,
        Kind::Abort => Entry::Wrong(41),
        _ => Entry::Wrong(40),
    }
}

// What stands at a place of the text.
pub fn entry_at(text: &[u8], at: usize) -> EntryAt
    ensures { EntryHere text.now at result }
{
    let found = token_at(text, at);
    EntryAt {
        entry: entry_of(found.kind),
        place: found.first,
        next: found.next,
    }
}
