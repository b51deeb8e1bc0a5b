// A row's number, name and sig. Relies on `token` and `sig`, and on the crate `hoa_step`.
ghost use Rattle.std.specs.Prelude.{◌≡◌};
ghost use Rattle.hoa_step.specs.Given.{not_below};
ghost use Rattle.hoa_entry.specs.inner.Reads.{LabelledAt, NumberAt, NameAt, RowSigAt, RowAt};

use crate::sig::{SigRead, read_sig};
use crate::token::entry_at;
use crate::{Entry, Limits};
use hoa_step::{IntAt, read_int};
use hoa_tokens::BadToken;

// How many states there are at most.
pub(crate) const MOST_STATES: u32 = 256;

// A row's number, and the byte behind it.
#[derive(Clone, Copy)]
pub struct NumberRead {
    pub number: u32,
    pub next: usize,
}

// A row with its number and its sig, and the byte behind it.
#[derive(Clone, Copy)]
pub struct RowRead {
    pub number: u32,
    pub sig: u32,
    pub next: usize,
}

// Whether n was given and x is not below it.
pub(crate) fn not_below(x: u32, states: Option<u32>) -> bool
    ensures { result ≡ not_below x states }
{
    states.is_some_and(|n| n <= x)
}

// The number of a token that is no INT, behind `State:`; `[` is a label.
fn number_fault(text: &[u8], at: usize, number: u32) -> u32
    ensures { LabelledAt text.now at number result }
{
    match entry_at(text, at).entry {
        Entry::Edge => 41,
        _ => number,
    }
}

// The number of a row, behind its `State:`, or its refusal.
fn read_number(
    text: &[u8],
    at: usize,
    states: Option<u32>,
    firsts: &[usize; 256],
) -> Result<NumberRead, BadToken>
    ensures { NumberAt states text.now at firsts.now result }
{
    let IntAt { value, place, next } = match read_int(text, at) {
        Ok(int) => int,
        Err(bad) => {
            return Err(BadToken {
                number: number_fault(text, at, bad.number),
                ..bad
            });
        }
    };
    if not_below(value, states) {
        return Err(BadToken { number: 41, place });
    }
    if MOST_STATES <= value {
        return Err(BadToken { number: 42, place });
    }
    if firsts[value as usize] != 0 {
        return Err(BadToken { number: 41, place });
    }
    Ok(NumberRead {
        number: value,
        next,
    })
}

// The place behind a row's name, or the same place if it has none.
fn skip_name(text: &[u8], at: usize) -> usize
    ensures { NameAt text.now at result }
{
    let here = entry_at(text, at);
    match here.entry {
        Entry::Text => here.next,
        _ => at,
    }
}

// The marks of a row's sig, or none and the same place if it has none.
fn read_row_sig(text: &[u8], at: usize, c: u32) -> Result<SigRead, BadToken>
    ensures { RowSigAt text.now at c result }
{
    let here = entry_at(text, at);
    match here.entry {
        Entry::Sig => read_sig(text, here.next, c, 0),
        _ => Ok(SigRead { marks: 0, next: at }),
    }
}

// A row behind its `State:`, up to its edges, or its refusal.
pub fn read_row(
    text: &[u8],
    at: usize,
    limits: Limits,
    firsts: &[usize; 256],
) -> Result<RowRead, BadToken>
    ensures { RowAt limits text.now at firsts.now result }
{
    let row = read_number(text, at, limits.states, firsts)?;
    let named = skip_name(text, row.next);
    let sig = read_row_sig(text, named, limits.marks)?;
    Ok(RowRead {
        number: row.number,
        sig: sig.marks,
        next: sig.next,
    })
}
