// The rows token by token. Relies on the crates `hoa_entry`, `hoa_kept` and `hoa_tokens`.
ghost use Rattle.std.specs.Prelude.{◌≡◌, List, ℕ};
ghost use Rattle.hoa_tokens.specs.Stream.{token_of};
ghost use Rattle.hoa_step.specs.Given.{not_below};
ghost use Rattle.hoa_rows.specs.Lent.{rows_end};
ghost use Rattle.hoa_kept.specs.inner.Held.{Room, none_yet};
ghost use Rattle.hoa_rows.specs.inner.Turns.{ends_wrong, admitted_of, closing_fault, CloseAt, RowTaken, EdgeTaken, Turned, Ended};

use hoa_entry::edge::read_edge;
use hoa_entry::row::read_row;
use hoa_entry::token::entry_at;
use hoa_entry::{Entry, Limits};
use hoa_kept::held::{RowsSoFar, begin_row, keep_edge};
use hoa_tokens::{BadToken, Header, Kind, token_at};

// What may begin: a row, an edge, or the end.
#[derive(Clone, Copy)]
pub(crate) enum Admitted {
    Row,
    Edge,
    Close,
}

// Whether `--END--` comes too early or a number is too large.
fn wrong_end(states: Option<u32>, rows: &RowsSoFar) -> bool
    ensures { result ≡ ends_wrong states rows.now }
{
    match states {
        None => rows.count <= rows.largest as usize,
        Some(n) => rows.count < n as usize,
    }
}

// Whether n was given and there are n rows so far.
fn full_rows(states: Option<u32>, rows: &RowsSoFar) -> bool
    ensures { result ≡ not_below rows.now.count states }
{
    states.is_some_and(|n| n as usize <= rows.count)
}

// What may begin where the rows stand so, or the number of the fault.
fn what_begins(entry: Entry, states: Option<u32>, rows: &RowsSoFar) -> Result<Admitted, u32>
    ensures { result ≡ admitted_of states rows.now entry }
{
    match entry {
        Entry::Row if full_rows(states, rows) => Err(41),
        Entry::Row => Ok(Admitted::Row),
        Entry::Edge if rows.count == 0 => Err(40),
        Entry::Edge => Ok(Admitted::Edge),
        Entry::Bare if rows.count == 0 => Err(40),
        Entry::Bare => Err(41),
        Entry::Close if wrong_end(states, rows) => Err(41),
        Entry::Close => Ok(Admitted::Close),
        Entry::Sig | Entry::Text | Entry::Join => Err(40),
        Entry::Wrong(number) => Err(number),
    }
}

// The number of a token behind `--END--`; none for the text's end.
fn closing_fault(kind: Kind) -> Option<u32>
    ensures { (text : List ℕ) (p q : ℕ) → result ≡ closing_fault (token_of text p q kind) }
{
    match kind {
        Kind::Finish => None,
        Kind::Header(Header::Hoa) => Some(41),
        _ => Some(40),
    }
}

// What stands behind `--END--`: the text's end, or a token that is refused.
fn read_end(text: &[u8], at: usize) -> Result<(), BadToken>
    ensures { CloseAt text.now at result }
{
    let found = token_at(text, at);
    match closing_fault(found.kind) {
        None => Ok(()),
        Some(number) => Err(BadToken {
            number,
            place: found.first,
        }),
    }
}

// A row behind its `State:`, up to its edges: the place behind it, or its refusal.
fn take_row(text: &[u8], at: usize, limits: Limits, rows: &mut RowsSoFar) -> Result<usize, BadToken>
    requires { Room rows.old at }
    ensures { RowTaken limits text.now at rows.old rows.new result }
{
    let row = read_row(text, at, limits, &rows.firsts)?;
    begin_row(rows, row.number, row.sig);
    Ok(row.next)
}

// An edge behind its `[`: the place behind it, or its refusal.
fn take_edge(
    text: &[u8],
    at: usize,
    limits: Limits,
    rows: &mut RowsSoFar,
) -> Result<usize, BadToken>
    requires { Room rows.old at }
    ensures { EdgeTaken limits text.now at rows.old rows.new result }
{
    let edge = read_edge(text, at, limits, rows.sig, rows.kept)?;
    keep_edge(rows, edge.set, edge.to, edge.marks);
    Ok(edge.next)
}

// A row or an edge, with the place behind it; none where the rows end here; or the refusal.
fn read_entry(
    text: &[u8],
    at: usize,
    limits: Limits,
    rows: &mut RowsSoFar,
) -> Result<Option<usize>, BadToken>
    requires { Room rows.old at }
    ensures { Turned limits text.now at rows.old rows.new result }
{
    let here = entry_at(text, at);
    match what_begins(here.entry, limits.states, rows) {
        Ok(Admitted::Row) => Ok(Some(take_row(text, here.next, limits, rows)?)),
        Ok(Admitted::Edge) => Ok(Some(take_edge(text, here.next, limits, rows)?)),
        Ok(Admitted::Close) => {
            read_end(text, here.next)?;
            Ok(None)
        }
        Err(number) => Err(BadToken {
            number,
            place: here.place,
        }),
    }
}

// The rows up to the text's end, or the first refusal.
pub(crate) fn read_entries(
    text: &[u8],
    at: usize,
    limits: Limits,
    rows: &mut RowsSoFar,
) -> Result<(), BadToken>
    requires { rows.old ≡ none_yet limits.start }
    ensures { Ended (rows_end limits text.now at) rows.new result }
{
    let mut place = at;
    while let Some(next) = read_entry(text, place, limits, rows)? {
        place = next;
    }
    Ok(())
}
