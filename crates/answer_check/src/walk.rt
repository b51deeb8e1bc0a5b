// Walking a list of edges from its bytes, edge by edge, up to its end or to the first edge that leads nowhere. The first `stop` at a state looks through the
// from states once; from then on the walk waits there. Relies on `answer_form` for the edges and on `marks` for their union.
ghost use Rattle.std.specs.Prelude.{◌≡◌};
ghost use Rattle.table.specs.Table.{waiting};
ghost use Rattle.table.specs.inner.Looks.{Even};
ghost use Rattle.job_text.specs.Text.{fields};
ghost use Rattle.answer_form.specs.Given.{steps, list_given};
ghost use Rattle.answer_check.specs.inner.{outset, LeftBy, WaitSays, GoSays, WalkSays};

use answer_form::{WAITING, read_step};
use job_values::part::{alike, find};

const COMMA: u8 = 44;

// Where a walk has come: its state, the marks on the way, and whether it was seen to wait there.
#[derive(Clone, Copy)]
pub(crate) struct Place {
    pub state: u32,
    pub union: u32,
    pub waits: bool,
}

// A whole list walked: the place at its end and the number of its edges.
#[derive(Clone, Copy)]
pub(crate) struct Walked {
    pub place: Place,
    pub count: usize,
}

// Where a walk from a state begins.
pub(crate) fn set_out(state: u32) -> Place
    ensures { result ≡ outset state }
{
    Place {
        state,
        union: 0,
        waits: false,
    }
}

// Whether some edge leaves the state.
fn leaves(from: &[u32], state: u32) -> bool
    ensures { LeftBy from.now state result }
{
    from.contains(&state)
}

// A waiting edge; none where an edge leaves.
fn wait(place: Place, from: &[u32]) -> Option<Place>
    ensures { WaitSays from.now place result }
{
    if !place.waits && leaves(from, place.state) {
        return None;
    }
    Some(Place {
        waits: true,
        ..place
    })
}

// An edge of the table; none where it does not leave from here.
fn take_edge(place: Place, edge: u32, from: &[u32], to: &[u32], marks: &[u32]) -> Option<Place>
    requires even { Even from.now to.now marks.now }
    requires fact { edge ≡ waiting → ⊥ }
    ensures { GoSays from.now to.now marks.now place edge result }
{
    let e = edge as usize;
    if from.len() <= e || from[e] != place.state {
        return None;
    }
    Some(Place {
        state: to[e],
        union: marks::join(place.union, marks[e]),
        waits: false,
    })
}

// One edge further, if there is such a step.
fn go(place: Place, edge: u32, from: &[u32], to: &[u32], marks: &[u32]) -> Option<Place>
    requires { Even from.now to.now marks.now }
    ensures { GoSays from.now to.now marks.now place edge result }
{
    if edge == WAITING {
        return wait(place, from);
    }
    take_edge(place, edge, from, to, marks)
}

// A list of at least one edge, walked from a place; or the position at which it breaks.
fn walk_edges(
    list: &[u8],
    begin: Place,
    from: &[u32],
    to: &[u32],
    marks: &[u32],
) -> Result<Walked, usize>
    requires { Even from.now to.now marks.now }
    ensures { WalkSays (steps (fields list.now)) begin from.now to.now marks.now result }
{
    let mut place = begin;
    let mut at = 0;
    let mut position = 0;
    while at <= list.len() {
        let end = find(list, at, COMMA);
        // the list is one of edges, so this is never none
        let edge = read_step(&list[at..end]).ok_or(position)?;
        place = go(place, edge, from, to, marks).ok_or(position)?;
        at = end + 1;
        position += 1;
    }
    Ok(Walked {
        place,
        count: position,
    })
}

// A list, walked from a place; or the position at which it breaks.
pub(crate) fn walk(
    list: &[u8],
    begin: Place,
    from: &[u32],
    to: &[u32],
    marks: &[u32],
) -> Result<Walked, usize>
    requires { Even from.now to.now marks.now }
    ensures { WalkSays (list_given list.now) begin from.now to.now marks.now result }
{
    if alike(list, b"-") {
        return Ok(Walked {
            place: begin,
            count: 0,
        });
    }
    walk_edges(list, begin, from, to, marks)
}
