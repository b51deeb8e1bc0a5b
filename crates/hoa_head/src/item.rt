// The items of the header, one after the other. Relies on the crate `hoa_value`.
ghost use Rattle.std.specs.Prelude.{◌≡◌, ◌≤◌, length};
ghost use Rattle.hoa_value.specs.Heading.{states_int, start_int, props_int, marks_int, acc_name, tool_text, name_text, hints};
ghost use Rattle.hoa_value.specs.Head.{with_acc_name, with_tool, with_name};
ghost use Rattle.hoa_head.specs.inner.Turns.{second, body_turn, Turned, Opened, ItemTurned};

use crate::HeadRead;
use hoa_tokens::{BadToken, Header};
use hoa_value::formed::{Formed, read_marks};
use hoa_value::hint::{pass_hints, read_acc_name, read_name, read_tool};
use hoa_value::names::read_props;
use hoa_value::token::{Spot, look};
use hoa_value::value::{Counted, read_start, read_states};
use hoa_value::{Head, Piece};

// The header so far and where the next item may begin, or the whole header and the byte behind `--BODY--`.
#[derive(Clone, Copy)]
pub(crate) enum HeadTurn {
    Go(HeadRead),
    Done(HeadRead),
}

// Whether an item came before that may come once.
fn is_second(head: Head, header: Header) -> bool
    ensures { result ≡ second head header }
{
    match header {
        Header::States => head.states.is_some(),
        Header::Start => head.start.is_some(),
        Header::Ap => head.props.is_some(),
        Header::Acceptance => head.marks.is_some(),
        Header::AccName => head.hint,
        Header::Tool => head.tool,
        Header::Name => head.name,
        _ => false,
    }
}

// `States: n`.
fn take_states(text: &[u8], at: usize, head: Head) -> Result<HeadRead, BadToken>
    requires { at ≤ length text.now }
    ensures { Turned text.now at (states_int head) result }
{
    let Counted { value, next } = read_states(text, at, head.start)?;
    let head = Head {
        states: Some(value),
        ..head
    };
    Ok(HeadRead { head, next })
}

// `Start: s`.
fn take_start(text: &[u8], at: usize, head: Head) -> Result<HeadRead, BadToken>
    requires { at ≤ length text.now }
    ensures { Turned text.now at (start_int head) result }
{
    let Counted { value, next } = read_start(text, at, head.states)?;
    let head = Head {
        start: Some(value),
        ..head
    };
    Ok(HeadRead { head, next })
}

// `AP: a` with its names.
fn take_props(text: &[u8], at: usize, head: Head) -> Result<HeadRead, BadToken>
    requires { at ≤ length text.now }
    ensures { Turned text.now at (props_int head) result }
{
    let Counted { value, next } = read_props(text, at)?;
    let head = Head {
        props: Some(value),
        ..head
    };
    Ok(HeadRead { head, next })
}

// `Acceptance: c` with its formula.
fn take_marks(text: &[u8], at: usize, head: Head) -> Result<HeadRead, BadToken>
    requires { at ≤ length text.now }
    ensures { Turned text.now at (marks_int head) result }
{
    let Formed {
        marks,
        condition,
        needs,
        next,
    } = read_marks(text, at)?;
    let head = Head {
        marks: Some(marks),
        condition,
        needs,
        ..head
    };
    Ok(HeadRead { head, next })
}

// `acc-name:`.
fn take_acc_name(text: &[u8], at: usize, head: Head) -> Result<HeadRead, BadToken>
    requires { at ≤ length text.now }
    ensures { Turned text.now at (acc_name (with_acc_name head)) result }
{
    let next = read_acc_name(text, at)?;
    let head = Head { hint: true, ..head };
    Ok(HeadRead { head, next })
}

// `tool:`.
fn take_tool(text: &[u8], at: usize, head: Head) -> Result<HeadRead, BadToken>
    requires { at ≤ length text.now }
    ensures { Turned text.now at (tool_text (with_tool head)) result }
{
    let next = read_tool(text, at)?;
    let head = Head { tool: true, ..head };
    Ok(HeadRead { head, next })
}

// `name:`.
fn take_name(text: &[u8], at: usize, head: Head) -> Result<HeadRead, BadToken>
    requires { at ≤ length text.now }
    ensures { Turned text.now at (name_text (with_name head)) result }
{
    let next = read_name(text, at)?;
    let head = Head { name: true, ..head };
    Ok(HeadRead { head, next })
}

// What is passed over; nothing is refused there.
fn take_hints(text: &[u8], at: usize, ints: bool, texts: bool, head: Head) -> HeadRead
    requires { at ≤ length text.now }
    ensures { Turned text.now at (hints ints texts head) (Ok result) }
{
    let next = pass_hints(text, at, ints, texts);
    HeadRead { head, next }
}

// `--BODY--` at `place`: Start: and Acceptance: have come.
fn end_head(place: usize, next: usize, head: Head) -> Result<HeadRead, BadToken>
    ensures { result ≡ body_turn place next head }
{
    if head.start.is_none() || head.marks.is_none() {
        return Err(BadToken { number: 41, place });
    }
    Ok(HeadRead { head, next })
}

// What stands behind the header of an item, which stands at `place`.
fn open_item(
    text: &[u8],
    place: usize,
    next: usize,
    header: Header,
    head: Head,
) -> Result<HeadRead, BadToken>
    requires { (place ≤ length text.now) × (next ≤ length text.now) }
    ensures { Opened text.now place next head header result }
{
    if is_second(head, header) {
        return Err(BadToken { number: 41, place });
    }
    match header {
        Header::States => take_states(text, next, head),
        Header::Start => take_start(text, next, head),
        Header::Ap => take_props(text, next, head),
        Header::Acceptance => take_marks(text, next, head),
        Header::AccName => take_acc_name(text, next, head),
        Header::Tool => take_tool(text, next, head),
        Header::Name => take_name(text, next, head),
        Header::Properties => Ok(take_hints(text, next, false, false, head)),
        Header::Lower => Ok(take_hints(text, next, true, true, head)),
        Header::Alias | Header::Capital => Err(BadToken { number: 41, place }),
        Header::Hoa | Header::State => Err(BadToken { number: 40, place }),
    }
}

// An item, or `--BODY--`.
pub(crate) fn read_item(text: &[u8], at: usize, head: Head) -> Result<HeadTurn, BadToken>
    requires { at ≤ length text.now }
    ensures { ItemTurned text.now at head result }
{
    let Spot {
        piece,
        first: place,
        next,
    } = look(text, at);
    match piece {
        Piece::Item(header) => Ok(HeadTurn::Go(open_item(text, place, next, header, head)?)),
        Piece::Body => Ok(HeadTurn::Done(end_head(place, next, head)?)),
        Piece::Wrong(number) => Err(BadToken { number, place }),
        _ => Err(BadToken { number: 40, place }),
    }
}
