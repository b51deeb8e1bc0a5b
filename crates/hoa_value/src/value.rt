// The INTs of States: and Start:. Relies on `token`, and on the crate `hoa_step`.
ghost use Rattle.std.specs.Prelude.{◌≡◌, ◌≤◌, length};
ghost use Rattle.hoa_step.specs.Given.{not_below, not_above};
ghost use Rattle.hoa_value.specs.Heading.{start_more, items};
ghost use Rattle.hoa_value.specs.inner.Values.{states_fault, start_fault, StatesRead, StartRead, Passes};

use crate::token::{is_join, look};
use hoa_step::{IntAt, read_int};
use hoa_tokens::BadToken;

const MOST_JOB_STATES: u32 = 256;

// A number and the byte behind it.
#[derive(Clone, Copy)]
pub struct Counted {
    pub value: u32,
    pub next: usize,
}

// Whether a number was given, and `n` is not above it.
fn not_above(n: u32, given: Option<u32>) -> bool
    ensures { result ≡ not_above n given }
{
    given.is_some_and(|s| n <= s)
}

// Whether a number was given, and `s` is not below it.
fn not_below(s: u32, given: Option<u32>) -> bool
    ensures { result ≡ not_below s given }
{
    given.is_some_and(|n| n <= s)
}

// The fault of the INT of States:, where Start: gave this.
fn states_fault(n: u32, start: Option<u32>) -> Option<u32>
    ensures { result ≡ states_fault n start }
{
    if n == 0 || not_above(n, start) {
        Some(41)
    } else if MOST_JOB_STATES < n {
        Some(42)
    } else {
        None
    }
}

// The fault of the INT of Start:, where States: gave this.
fn start_fault(s: u32, states: Option<u32>) -> Option<u32>
    ensures { result ≡ start_fault s states }
{
    if not_below(s, states) {
        Some(41)
    } else if MOST_JOB_STATES <= s {
        Some(42)
    } else {
        None
    }
}

// The INT of States:.
pub fn read_states(text: &[u8], at: usize, start: Option<u32>) -> Result<Counted, BadToken>
    requires { at ≤ length text.now }
    ensures { StatesRead text.now at start result }
{
    let IntAt { value, place, next } = read_int(text, at)?;
    if let Some(number) = states_fault(value, start) {
        return Err(BadToken { number, place });
    }
    Ok(Counted { value, next })
}

// Behind the INT of Start: stands no `&`.
fn not_joined(text: &[u8], at: usize) -> Result<usize, BadToken>
    requires { at ≤ length text.now }
    ensures { Passes text.now at start_more items result }
{
    let spot = look(text, at);
    if is_join(spot.piece) {
        return Err(BadToken {
            number: 41,
            place: spot.first,
        });
    }
    Ok(at)
}

// The INT of Start:.
pub fn read_start(text: &[u8], at: usize, states: Option<u32>) -> Result<Counted, BadToken>
    requires { at ≤ length text.now }
    ensures { StartRead text.now at states result }
{
    let IntAt { value, place, next } = read_int(text, at)?;
    if let Some(number) = start_fault(value, states) {
        return Err(BadToken { number, place });
    }
    let next = not_joined(text, next)?;
    Ok(Counted { value, next })
}
