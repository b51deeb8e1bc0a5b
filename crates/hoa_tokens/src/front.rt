// The token at a place where neither a blank nor a comment stands. Relies on `bytes`, `name`, `number` and `string`.
ghost use Rattle.std.specs.Prelude.{◌<◌, length, drop};
ghost use Rattle.hoa_tokens.specs.Token.{fixed as fixed_token, sign_of, single as single_token, front as front_token};
ghost use Rattle.hoa_tokens.specs.inner.Reads.{Reads, Says};

use crate::bytes::{is_digit, is_letter};
use crate::name::{alias, named};
use crate::number::number;
use crate::string::string;
use crate::{Found, Kind, Sign};

// `--BODY--`, `--END--` or `--ABORT--` at `at`, or a byte that begins none.
fn fixed(text: &[u8], at: usize) -> Found
    requires { at < length text.now }
    ensures { Reads text.now at result (fixed_token (drop at text.now)) }
{
    let rest = &text[at..];
    let (kind, size) = if rest.starts_with(b"--BODY--") {
        (Kind::Body, 8)
    } else if rest.starts_with(b"--END--") {
        (Kind::End, 7)
    } else if rest.starts_with(b"--ABORT--") {
        (Kind::Abort, 9)
    } else {
        (Kind::Bad, 1)
    };
    Found {
        first: at,
        next: at + size,
        kind,
    }
}

// A mark of one byte, or a byte that begins no token.
#[tactic(auto, unfolding(crate::specs::Token::sign_of))]
fn single(byte: u8) -> Kind
    ensures { Says result (single_token (sign_of byte)).token }
{
    match byte {
        b'(' => Kind::Sign(Sign::ParenLeft),
        b')' => Kind::Sign(Sign::ParenRight),
        b'[' => Kind::Sign(Sign::BracketLeft),
        b']' => Kind::Sign(Sign::BracketRight),
        b'{' => Kind::Sign(Sign::BraceLeft),
        b'}' => Kind::Sign(Sign::BraceRight),
        b'&' => Kind::Sign(Sign::And),
        b'|' => Kind::Sign(Sign::Or),
        b'!' => Kind::Sign(Sign::Not),
        _ => Kind::Bad,
    }
}

// The token at `at`.
pub(crate) fn front(text: &[u8], at: usize) -> Found
    ensures { Reads text.now at result (front_token (drop at text.now)) }
{
    if text.len() <= at {
        return Found {
            first: at,
            next: at,
            kind: Kind::Finish,
        };
    }
    match text[at] {
        byte if is_digit(byte) => number(text, at),
        byte if is_letter(byte) => named(text, at),
        b'"' => string(text, at),
        b'@' => alias(text, at),
        b'-' => fixed(text, at),
        byte => Found {
            first: at,
            next: at + 1,
            kind: single(byte),
        },
    }
}
