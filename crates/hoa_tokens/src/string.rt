// Strings. Relies on nothing.
ghost use Rattle.std.specs.Prelude.{◌+◌, ◌<◌, length, drop};
ghost use Rattle.hoa_tokens.specs.Token.{quoted, closed};
ghost use Rattle.hoa_tokens.specs.inner.Reads.{Reads, Unquoted, Past, QuoteAt};

use crate::{Found, Kind};

// The place behind the byte at `at`, which is no quote; `\` takes the next byte along.
fn past(text: &[u8], at: usize) -> usize
    requires { Unquoted text.now at }
    ensures { Past text.now at result }
{
    if text[at] != b'\\' {
        return at + 1;
    }
    if text.len() - at == 1 {
        return at + 1;
    }
    at + 2
}

// The place of the closing quote from `at` on, if there is one.
fn quote_from(text: &[u8], at: usize) -> Option<usize>
    ensures { QuoteAt text.now at result }
{
    let mut i = at;
    while i < text.len() {
        if text[i] == b'"' {
            return Some(i);
        }
        i = past(text, i);
    }
    None
}

// The string whose quote stands at `at`.
pub(crate) fn string(text: &[u8], at: usize) -> Found
    requires { at < length text.now }
    ensures { Reads text.now at result (closed (drop (at + 1) text.now) (quoted (drop (at + 1) text.now))) }
{
    match quote_from(text, at + 1) {
        Some(i) => Found {
            first: at,
            next: i + 1,
            kind: Kind::Quoted,
        },
        None => Found {
            first: at,
            next: text.len(),
            kind: Kind::Bad,
        },
    }
}
