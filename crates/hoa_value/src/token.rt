// What a token is where the header stands, and whether it belongs to what stands before it. Relies on the crate `hoa_tokens`.
ghost use Rattle.std.specs.Prelude.{◌≡◌};
ghost use Rattle.hoa_value.specs.Heading.{piece_header, piece_sign};
ghost use Rattle.hoa_value.specs.inner.Pieces.{piece_kind, misplaced_token, is_join, is_text, is_word, is_hint, Spotted};

use crate::Piece;
use hoa_tokens::{BadToken, Header, Kind, Sign, token_at};

// The first token from a place on: what it is, its first byte and the byte behind it.
#[derive(Clone, Copy)]
pub struct Spot {
    pub piece: Piece,
    pub first: usize,
    pub next: usize,
}

// The header of an item; `HOA:` and `State:` are none.
fn piece_header(header: Header) -> Piece
    ensures { result ≡ piece_header header }
{
    match header {
        Header::Hoa | Header::State => Piece::Wrong(40),
        _ => Piece::Item(header),
    }
}

// Of the marks the header has only `&`.
fn piece_sign(sign: Sign) -> Piece
    ensures { result ≡ piece_sign sign }
{
    match sign {
        Sign::And => Piece::Join,
        _ => Piece::Wrong(40),
    }
}

// What a token is where the header stands.
fn piece_of(kind: Kind) -> Piece
    ensures { result ≡ piece_kind kind }
{
    match kind {
        Kind::Header(header) => piece_header(header),
        Kind::Sign(sign) => piece_sign(sign),
        Kind::Body => Piece::Body,
        Kind::Word(_) => Piece::Word,
        Kind::Int(_) => Piece::Int,
        Kind::Quoted => Piece::Text,
        Kind::Abort => Piece::Wrong(41),
        Kind::Alias | Kind::End | Kind::Finish | Kind::Bad => Piece::Wrong(40),
    }
}

// The first token from `at` on.
pub fn look(text: &[u8], at: usize) -> Spot
    ensures { Spotted text.now at result }
{
    let found = token_at(text, at);
    Spot {
        piece: piece_of(found.kind),
        first: found.first,
        next: found.next,
    }
}

// The refusal of a token that may not stand here: this number for an item and `--BODY--`, which may stand behind what came before.
pub(crate) fn misplaced(spot: Spot, item: u32) -> BadToken
    ensures { result ≡ misplaced_token item spot }
{
    let number = match spot.piece {
        Piece::Item(_) | Piece::Body => item,
        Piece::Wrong(number) => number,
        _ => 40,
    };
    BadToken {
        number,
        place: spot.first,
    }
}

// Whether the token is `&`.
pub(crate) fn is_join(piece: Piece) -> bool
    ensures { result ≡ is_join piece }
{
    matches!(piece, Piece::Join)
}

// Whether the token is a STRING.
pub(crate) fn is_text(piece: Piece) -> bool
    ensures { result ≡ is_text piece }
{
    matches!(piece, Piece::Text)
}

// Whether the token is a WORD.
pub(crate) fn is_word(piece: Piece) -> bool
    ensures { result ≡ is_word piece }
{
    matches!(piece, Piece::Word)
}

// Whether the token is passed over: a WORD, and an INT or a STRING if so said.
pub(crate) fn is_hint(piece: Piece, ints: bool, texts: bool) -> bool
    ensures { result ≡ is_hint ints texts piece }
{
    match piece {
        Piece::Word => true,
        Piece::Int => ints,
        Piece::Text => texts,
        _ => false,
    }
}
