// The reader of the job text: line by line, the first fault deciding. Relies on `line`.
// The edges are read into arrays of the reader's own and handed over at the end, so that a refusal changes no lent cell.
ghost use Rattle.std.specs.Prelude.{◌≡◌, ◌≤◌, ◌+◌};
ghost use Rattle.job_text.specs.Value.{most_count, condition};
ghost use Rattle.job_text.specs.Job.{count_lines, state_lines, head_lines, end_lines, most_job_edges};
ghost use Rattle.job_text.specs.Given.{from_line};
ghost use Rattle.job_text.specs.Reading.{HeadAt, Blank, EdgesAt, EndedAt, BodyAt, LinesAt, refused_reading, Read};

use crate::line::{
    Fault, LineStart, edge_line, end_line, form_line, kind_line, missing, need_line, number_line,
};
use job_values::field::MOST_NUMBER;
use job_values::value::{Form, Kind};
use table::{Acceptance, Refusal};

// The program's limits; rows 20 and 23.
const MOST_BYTES: usize = 12288;

const MOST_JOB_STATES: u32 = 256;

const MOST_JOB_EDGES: u32 = 512;

// What a job text says: nothing found, and the job; or the number and the place of its first fault with the column, and zeros with Büchi 0.
#[derive(Clone, Copy)]
pub struct Reading {
    pub finding: Result<(), Refusal>,
    pub column: u32,
    pub states: u32,
    pub start: u32,
    pub condition: Acceptance,
    pub needs: [u32; 8],
    pub edges: u32,
}

// What the lines before the edges say.
#[derive(Clone, Copy)]
pub(crate) struct Head {
    pub states: u32,
    pub start: u32,
    pub kind: Kind,
    pub count: u32,
    pub needs: [u32; 8],
    pub edges: u32,
}

// The largest count of a kind.
fn most_count(kind: Kind) -> u32
    ensures { result ≡ most_count kind }
{
    match kind {
        Kind::Buchi => 32,
        Kind::Streett => 16,
        Kind::Rabin => 8,
    }
}

// The lines from the count to the number of edges.
fn read_counts(
    text: &[u8],
    first: LineStart,
    states: u32,
    start: u32,
    kind: Kind,
) -> Result<(Head, LineStart), Fault>
    requires { first.line ≤ 5 }
    ensures { HeadAt text.now (count_lines states start kind) first result }
{
    let (count, next) = number_line(text, first, b"count=", most_count(kind))?;
    let (needs, next) = need_line(text, next, kind, count)?;
    let (edges, next) = number_line(text, next, b"edges=", MOST_JOB_EDGES)?;
    let head = Head {
        states,
        start,
        kind,
        count,
        needs,
        edges,
    };
    Ok((head, next))
}

// The lines from the states to the number of edges.
fn read_states(text: &[u8], first: LineStart, form: Form) -> Result<(Head, LineStart), Fault>
    requires { first.line ≤ 2 }
    ensures { HeadAt text.now (state_lines form) first result }
{
    let (states, next) = number_line(text, first, b"states=", MOST_JOB_STATES)?;
    let (start, next) = number_line(text, next, b"start=", MOST_NUMBER)?;
    let (kind, next) = kind_line(text, next, form)?;
    read_counts(text, next, states, start, kind)
}

// The lines before the edges.
fn read_head(text: &[u8], first: LineStart) -> Result<(Head, LineStart), Fault>
    requires { first.line ≤ 1 }
    ensures { HeadAt text.now head_lines first result }
{
    let (form, next) = form_line(text, first)?;
    read_states(text, next, form)
}

// `edges` edge lines, into the three arrays.
fn read_edges(
    text: &[u8],
    first: LineStart,
    edges: u32,
    from: &mut [u32; 512],
    to: &mut [u32; 512],
    marks: &mut [u32; 512],
) -> Result<LineStart, Fault>
    requires early { first.line ≤ 8 }
    requires few { edges ≤ most_job_edges }
    requires blank { Blank from.old to.old marks.old }
    ensures { EdgesAt text.now first edges from.new to.new marks.new result }
{
    let mut next = first;
    for i in 0..edges as usize {
        let (edge, after) = edge_line(text, next)?;
        from[i] = edge.from;
        to[i] = edge.to;
        marks[i] = edge.marks;
        next = after;
    }
    Ok(next)
}

// The end line and nothing after it.
fn read_end(text: &[u8], start: LineStart) -> Result<(), Fault>
    requires { start.line ≤ 8 + most_job_edges }
    ensures { EndedAt text.now (from_line text.now start end_lines) result }
{
    let ((), next) = end_line(text, start)?;
    if next.at < text.len() {
        return Err(missing(next.line));
    }
    Ok(())
}

// The edge lines and what follows them.
fn read_body(
    text: &[u8],
    first: LineStart,
    edges: u32,
    from: &mut [u32; 512],
    to: &mut [u32; 512],
    marks: &mut [u32; 512],
) -> Result<(), Fault>
    requires early { first.line ≤ 8 }
    requires few { edges ≤ most_job_edges }
    requires blank { Blank from.old to.old marks.old }
    ensures { BodyAt text.now first edges from.new to.new marks.new result }
{
    let next = read_edges(text, first, edges, from, to, marks)?;
    read_end(text, next)
}

// All lines: what they say before the edges, and the edges in the three arrays.
fn read_lines(
    text: &[u8],
    from: &mut [u32; 512],
    to: &mut [u32; 512],
    marks: &mut [u32; 512],
) -> Result<Head, Fault>
    requires { Blank from.old to.old marks.old }
    ensures { LinesAt text.now from.new to.new marks.new result }
{
    let (head, next) = read_head(text, LineStart { at: 0, line: 1 })?;
    read_body(text, next, head.edges, from, to, marks)?;
    Ok(head)
}

fn refused(number: u32, place: u32, column: u32) -> Reading
    ensures { result ≡ refused_reading number place column }
{
    Reading {
        finding: Err(Refusal { number, place }),
        column,
        states: 0,
        start: 0,
        condition: Acceptance::Buchi(0),
        needs: [0; 8],
        edges: 0,
    }
}

fn condition_of(kind: Kind, count: u32) -> Acceptance
    ensures { result ≡ condition kind count }
{
    match kind {
        Kind::Buchi => Acceptance::Buchi(count),
        Kind::Streett => Acceptance::Streett(count),
        Kind::Rabin => Acceptance::Rabin(count),
    }
}

// The job that a text says, its edges in the three lent tables with zeros after them; or its first fault, and the tables as they were. The column is that of
// the sentence about right lines (specs/Job.antt, `Column`).
pub fn read(
    text: &[u8],
    from: &mut [u32; 512],
    to: &mut [u32; 512],
    marks: &mut [u32; 512],
) -> Reading
    ensures { Read text.now from.old to.old marks.old from.new to.new marks.new result }
{
    if MOST_BYTES < text.len() {
        return refused(20, 0, 0);
    }
    let mut froms = [0u32; 512];
    let mut tos = [0u32; 512];
    let mut sets = [0u32; 512];
    match read_lines(text, &mut froms, &mut tos, &mut sets) {
        Err(fault) => refused(fault.number, fault.line, fault.column as u32),
        Ok(head) => {
            *from = froms;
            *to = tos;
            *marks = sets;
            let needs = head.needs;
            Reading {
                finding: Ok(()),
                column: 0,
                states: head.states,
                start: head.start,
                condition: condition_of(head.kind, head.count),
                needs,
                edges: head.edges,
            }
        }
    }
}
