// The printer of answers: eight lines into a lent buffer (docs/RULES.md, "The job text and the printed answer"). Relies on the crate `table` for the
// verdict and on `puts` for bytes and numbers. What is printed is in specs/Printed.antt.
#![tactic(auto)]

ghost use Rattle.std.specs.Prelude.{◌≡◌, ◌+◌, ◌*◌, ◌^◌, ◌<◌, min, length, cond};
ghost use Rattle.table.specs.Verdict.{number_of, place_of, prefix_of, cycle_of};
ghost use Rattle.puts.specs.Put.{decimal, Put, PutFew};
ghost use Rattle.job_text.specs.Value.{dash};
ghost use Rattle.answer_text.specs.Printed.{step_text, further_text, list_text, shown, verdict=, pair=, verdict_word, is_rabin, pair_text, head_text, top_text, bottom_text, answer_text, refused_text, Prints};

use puts::{clear, put, put_held, put_number, put_word};
use table::{Acceptance, Answer, Refusal, Verdict};

// The number of a waiting edge. crates/table/specs/Table.antt has the same number, as `waiting`.
const WAITING: u32 = 65535;

// An edge's number, or `stop` for a waiting edge.
fn put_step(out: &mut [u8], at: usize, edge: u32) -> usize
    requires { at < 2 ^ 59 }
    ensures { PutFew out.old out.new at (step_text edge) result 10 }
{
    if edge == WAITING {
        return put_word(out, at, b"stop");
    }
    put_number(out, at, edge)
}

// Edges, a comma before each.
fn put_more(out: &mut [u8], at: usize, cells: &[u32]) -> usize
    requires { at + 11 * length cells.now < 2 ^ 58 }
    ensures { Put out.old out.new at (further_text cells.now) result }
{
    let mut next = at;
    for cell in cells {
        let digits = put(out, next, b',');
        next = put_step(out, digits, *cell);
    }
    next
}

// Edges with commas between; `-` where there is none.
fn put_list(out: &mut [u8], at: usize, cells: &[u32]) -> usize
    requires { at + 11 * length cells.now < 2 ^ 57 }
    ensures { Put out.old out.new at (list_text cells.now) result }
{
    match cells {
        [] => put(out, at, b'-'),
        [first, rest @ ..] => {
            let next = put_step(out, at, *first);
            put_more(out, next, rest)
        }
    }
}

// A line with a list.
fn put_listed(out: &mut [u8], at: usize, key: &[u8], cells: &[u32]) -> usize
    requires { at + length key.now + 11 * length cells.now < 2 ^ 56 }
    ensures { PutFew out.old out.new at (shown key.now (list_text cells.now)) result (length key.now + 11 * length cells.now + 2) }
{
    let value = put_word(out, at, key);
    let end = put_list(out, value, cells);
    put(out, end, b'\n')
}

// The verdict's line.
fn put_verdict(out: &mut [u8], verdict: Verdict) -> usize
    ensures { PutFew out.old out.new 0 (shown verdict= (verdict_word verdict)) result 16 }
{
    match verdict {
        Verdict::Run { .. } => put_word(out, 0, b"verdict=run\n"),
        Verdict::Empty => put_word(out, 0, b"verdict=empty\n"),
        Verdict::Refused { .. } => put_word(out, 0, b"verdict=refused\n"),
    }
}

// Whether the condition is of the kind rabin.
pub fn is_rabin(condition: Acceptance) -> bool
    ensures { result ≡ is_rabin condition }
{
    matches!(condition, Acceptance::Rabin(_))
}

// The pair's line: a number for a Rabin run, else `-`.
fn put_pair(out: &mut [u8], at: usize, verdict: Verdict, condition: Acceptance) -> usize
    requires { at < 2 ^ 50 }
    ensures { PutFew out.old out.new at (shown pair= (pair_text verdict condition)) result 16 }
{
    match verdict {
        Verdict::Run { pair, .. } if is_rabin(condition) => put_held(
            out, at, b"pair=", pair, b'\n',
        ),
        _ => put_word(out, at, b"pair=-\n"),
    }
}

// The number of a refusal, else 0.
fn number_of(verdict: Verdict) -> u32
    ensures { result ≡ number_of verdict }
{
    match verdict {
        Verdict::Refused { number, .. } => number,
        _ => 0,
    }
}

// Its place, else 0.
fn place_of(verdict: Verdict) -> u32
    ensures { result ≡ place_of verdict }
{
    match verdict {
        Verdict::Refused { place, .. } => place,
        _ => 0,
    }
}

// The length of a run's prefix, else 0.
fn prefix_of(verdict: Verdict) -> u32
    ensures { result ≡ prefix_of verdict }
{
    match verdict {
        Verdict::Run { prefix, .. } => prefix,
        _ => 0,
    }
}

// The length of its cycle, else 0.
fn cycle_of(verdict: Verdict) -> u32
    ensures { result ≡ cycle_of verdict }
{
    match verdict {
        Verdict::Run { cycle, .. } => cycle,
        _ => 0,
    }
}

// The verdict's, the code's, the place's and the column's lines.
fn put_head(out: &mut [u8], verdict: Verdict, column: u32) -> usize
    ensures { PutFew out.old out.new 0 (head_text verdict column) result 70 }
{
    let code = put_verdict(out, verdict);
    let place = put_held(out, code, b"code=", number_of(verdict), b'\n');
    let told = put_held(out, place, b"place=", place_of(verdict), b'\n');
    put_held(out, told, b"column=", column, b'\n')
}

// Those, the pair's and the depth's lines.
fn put_top(
    out: &mut [u8],
    verdict: Verdict,
    column: u32,
    depth: u32,
    condition: Acceptance,
) -> usize
    ensures { PutFew out.old out.new 0 (top_text verdict column depth condition) result 120 }
{
    let pair = put_head(out, verdict, column);
    let deep = put_pair(out, pair, verdict, condition);
    put_held(out, deep, b"depth=", depth, b'\n')
}

// The prefix's and the cycle's lines.
fn put_bottom(out: &mut [u8], at: usize, prefix: &[u32], cycle: &[u32]) -> usize
    requires { at + 11 * length prefix.now + 11 * length cycle.now < 2 ^ 40 }
    ensures { Put out.old out.new at (bottom_text prefix.now cycle.now) result }
{
    let next = put_listed(out, at, b"prefix=", prefix);
    put_listed(out, next, b"cycle=", cycle)
}

// The eight lines.
fn put_answer(
    out: &mut [u8],
    verdict: Verdict,
    column: u32,
    depth: u32,
    condition: Acceptance,
    room: &[u32],
) -> usize
    ensures { Put out.old out.new 0 (answer_text verdict column depth condition room.now) result }
{
    let knot = room.len().min(prefix_of(verdict) as usize);
    let end = knot + (room.len() - knot).min(cycle_of(verdict) as usize);
    let lists = put_top(out, verdict, column, depth, condition);
    put_bottom(out, lists, &room[0..knot], &room[knot..end])
}

// The answer's lines with this column and zeros after them, if the buffer is long enough for them; else row 11, and the buffer as it was.
fn print_told(
    answer: Answer,
    column: u32,
    condition: Acceptance,
    room: &[u32],
    out: &mut [u8],
) -> Result<usize, Refusal>
    ensures { Prints (answer_text answer.verdict column answer.depth condition room.now) out.old out.new result }
{
    let verdict = answer.verdict;
    let depth = answer.depth;
    let length = put_answer(&mut out[0..0], verdict, column, depth, condition, room);
    if out.len() < length {
        return Err(Refusal {
            number: 11,
            place: 0,
        });
    }
    put_answer(out, verdict, column, depth, condition, room);
    clear(out, length);
    Ok(length)
}

// The printed answer of the judge, with column 0, and zeros after it, if the buffer is long enough for it; else row 11, and the buffer as it was.
pub fn print(
    answer: Answer,
    condition: Acceptance,
    room: &[u32],
    out: &mut [u8],
) -> Result<usize, Refusal>
    ensures { Prints (answer_text answer.verdict 0 answer.depth condition room.now) out.old out.new result }
{
    print_told(answer, 0, condition, room, out)
}

// The eight lines of a refusal and zeros after them, in the same way.
pub fn print_refused(number: u32, place: u32, column: u32, out: &mut [u8]) -> Result<usize, Refusal>
    ensures { Prints (refused_text number place column) out.old out.new result }
{
    let refused = Answer {
        verdict: Verdict::Refused { number, place },
        depth: 0,
    };
    print_told(refused, column, Acceptance::Buchi(0), &[], out)
}
