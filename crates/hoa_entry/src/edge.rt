// An edge: its label, target and sig. Relies on `token`, `row` and `sig`, and on the crates `hoa_label` and `hoa_step`.
ghost use Rattle.hoa_entry.specs.inner.Reads.{TargetAt, EdgeSigAt, ToAt, EdgeAt};

use crate::row::{MOST_STATES, not_below};
use crate::sig::{SigRead, read_sig};
use crate::token::entry_at;
use crate::{Entry, Limits};
use hoa_label::read_label;
use hoa_step::{IntAt, read_int};
use hoa_tokens::BadToken;

// How many edges are kept at most.
const MOST_EDGES: usize = 512;

// A target, and the byte behind it.
#[derive(Clone, Copy)]
pub struct TargetRead {
    pub to: u32,
    pub next: usize,
}

// An edge with its set of valuations, target and marks, and the byte behind it.
#[derive(Clone, Copy)]
pub struct EdgeRead {
    pub set: u64,
    pub to: u32,
    pub marks: u32,
    pub next: usize,
}

// The target of an edge, or its refusal.
fn read_target(text: &[u8], at: usize, states: Option<u32>) -> Result<TargetRead, BadToken>
    ensures { TargetAt states text.now at result }
{
    let IntAt { value, place, next } = read_int(text, at)?;
    if not_below(value, states) {
        return Err(BadToken { number: 41, place });
    }
    if MOST_STATES <= value {
        return Err(BadToken { number: 42, place });
    }
    Ok(TargetRead { to: value, next })
}

// The marks of an edge, whose row has the marks `before`; `&` behind the target is refused.
fn read_edge_sig(text: &[u8], at: usize, c: u32, before: u32) -> Result<SigRead, BadToken>
    ensures { EdgeSigAt text.now at c before result }
{
    let here = entry_at(text, at);
    match here.entry {
        Entry::Join => Err(BadToken {
            number: 41,
            place: here.place,
        }),
        Entry::Sig => read_sig(text, here.next, c, before),
        _ => Ok(SigRead {
            marks: before,
            next: at,
        }),
    }
}

// An edge with this set of valuations, behind its label, or its refusal.
fn read_to(
    text: &[u8],
    at: usize,
    limits: Limits,
    before: u32,
    set: u64,
) -> Result<EdgeRead, BadToken>
    ensures { ToAt limits text.now at before set result }
{
    let target = read_target(text, at, limits.states)?;
    let sig = read_edge_sig(text, target.next, limits.marks, before)?;
    Ok(EdgeRead {
        set,
        to: target.to,
        marks: sig.marks,
        next: sig.next,
    })
}

// An edge behind its `[`, where so many edges are kept and the row has the marks `before`, or its refusal.
pub fn read_edge(
    text: &[u8],
    at: usize,
    limits: Limits,
    before: u32,
    kept: usize,
) -> Result<EdgeRead, BadToken>
    ensures { EdgeAt limits text.now at before kept result }
{
    let label = read_label(text, at, limits.props)?;
    if 0 < label.set && MOST_EDGES <= kept {
        return Err(BadToken {
            number: 42,
            place: label.next - 1,
        });
    }
    read_to(text, label.next, limits, before, label.set)
}
