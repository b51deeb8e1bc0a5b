// Words, headers and the names of aliases. Relies on `bytes`.
ghost use Rattle.std.specs.Prelude.{◌≡◌, map, ◌+◌, ◌≤◌, ◌<◌, eqb, length, drop, get_or};
ghost use Rattle.std.specs.List.{prefix_len};
ghost use Rattle.hoa_tokens.specs.Bytes.{is_name};
ghost use Rattle.hoa_tokens.specs.Token.{among, word_of, unknown as unknown_header, header_of, named as named_token, at as at_token};
ghost use Rattle.hoa_tokens.specs.inner.Reads.{lent_key, Reads};

use crate::bytes::{is_capital, is_name};
use crate::{Found, Header, Kind, Word};

// What the first key that is the name stands for, or `other`.
#[tactic(auto, using(crate::proofs::Runs::among_found, crate::proofs::Runs::among_other, crate::proofs::Runs::begins_whole, crate::proofs::Runs::from_whole))]
fn among<T: Copy>(name: &[u8], keys: &[(&[u8], T)], other: T) -> T
    ensures { result ≡ among name.now (map lent_key keys.now) other }
{
    for (key, value) in keys {
        if name == *key {
            return *value;
        }
    }
    other
}

// The words that the grammar asks for by name.
const WORDS: [(&[u8], Word); 5] = [
    (b"t", Word::True),
    (b"f", Word::False),
    (b"v1", Word::V1),
    (b"Inf", Word::Inf),
    (b"Fin", Word::Fin),
];

// The headers that the grammar knows, without their `:`.
const HEADERS: [(&[u8], Header); 11] = [
    (b"HOA", Header::Hoa),
    (b"States", Header::States),
    (b"Start", Header::Start),
    (b"AP", Header::Ap),
    (b"Acceptance", Header::Acceptance),
    (b"State", Header::State),
    (b"acc-name", Header::AccName),
    (b"tool", Header::Tool),
    (b"name", Header::Name),
    (b"properties", Header::Properties),
    (b"Alias", Header::Alias),
];

// The word with this text.
#[tactic(auto, unfolding(crate::specs::Token::word_of, crate::specs::Bytes::bytes))]
fn word_of(name: &[u8]) -> Word
    ensures { result ≡ word_of name.now }
{
    among(name, &WORDS, Word::Other)
}

// A header that the grammar does not know.
#[tactic(auto, unfolding(crate::specs::Bytes::is_capital))]
fn unknown(name: &[u8]) -> Header
    ensures { result ≡ unknown_header name.now }
{
    match name {
        [first, ..] if is_capital(*first) => Header::Capital,
        _ => Header::Lower,
    }
}

// The header with this text, its `:` left out.
#[tactic(auto, unfolding(crate::specs::Token::header_of, crate::specs::Token::further_header, crate::specs::Bytes::bytes))]
fn header_of(name: &[u8]) -> Header
    ensures { result ≡ header_of name.now }
{
    among(name, &HEADERS, unknown(name))
}

// How many bytes with which a word may go on stand in front.
fn name_size(text: &[u8]) -> usize
    ensures { result ≡ prefix_len is_name text.now }
{
    text.iter().take_while(|byte| is_name(**byte)).count()
}

// Whether a `:` stands at `at`.
fn has_colon(text: &[u8], at: usize) -> bool
    ensures { result ≡ eqb (get_or text.now at 0) 58 }
{
    at < text.len() && text[at] == b':'
}

// The word or header at `at`.
pub(crate) fn named(text: &[u8], at: usize) -> Found
    requires { at ≤ length text.now }
    ensures { Reads text.now at result (named_token (drop at text.now)) }
{
    let next = at + name_size(&text[at..]);
    let name = &text[at..next];
    if has_colon(text, next) {
        Found {
            first: at,
            next: next + 1,
            kind: Kind::Header(header_of(name)),
        }
    } else {
        Found {
            first: at,
            next,
            kind: Kind::Word(word_of(name)),
        }
    }
}

// The name of an alias, whose `@` stands at `at`.
pub(crate) fn alias(text: &[u8], at: usize) -> Found
    requires { at < length text.now }
    ensures { Reads text.now at result (at_token (drop (at + 1) text.now)) }
{
    let size = name_size(&text[at + 1..]);
    let kind = if size == 0 { Kind::Bad } else { Kind::Alias };
    Found {
        first: at,
        next: at + 1 + size,
        kind,
    }
}
