// From bytes to bytes: a job and an answer on one input, and what checking the answer gives (docs/RULES.md, "An answer that is checked"). Checks by `answer_check`,
// prints by `puts`. Where the job ends is in specs/Split.antt, what is printed in specs/Replied.antt.
#![tactic(auto)]

ghost use Rattle.std.specs.Prelude.{◌+◌, ◌≤◌, ◌<◌, ◌^◌};
ghost use Rattle.puts.specs.Put.{PutFew};
ghost use Rattle.check_text.specs.Replied.{top_text, fault_lines, checked_text, CheckReplied};
ghost use Rattle.check_text.specs.inner.{JobEnds, HeardTo, Slight};

use answer_check::{Checked, Fault, check_answer};
use job_values::part::{alike, find};
use puts::{clear, put_held, put_word};

// The longest answer text that is checked.
pub const MOST_ANSWER: usize = 65536;

// No printed result is longer.
pub const MOST_CHECKED: usize = 128;

const NEWLINE: u8 = 10;

// How many bytes of the input are the job's: to the newline of the first line that is exactly `end=job`.
#[tactic(auto, using(crate::proofs::Splits::no_line_yet, crate::proofs::Splits::no_more_lines, crate::proofs::Splits::broken_line, crate::proofs::Splits::end_here, crate::proofs::Splits::other_line))]
fn job_size(input: &[u8]) -> usize
    ensures { JobEnds input.now result }
{
    let mut at = 0;
    while at < input.len() {
        let end = find(input, at, NEWLINE);
        if input.len() <= end {
            return input.len();
        }
        if alike(&input[at..end], b"end=job") {
            return end + 1;
        }
        at = end + 1;
    }
    input.len()
}

// A refusal's first four lines.
fn put_refused(out: &mut [u8], number: u32, place: u32, column: u32) -> usize
    ensures { PutFew out.old out.new 0 (top_text (Checked.Refused number place column)) result 70 }
{
    let next = put_held(out, 0, b"verdict=refused\ncode=", number, b'\n');
    let told = put_held(out, next, b"place=", place, b'\n');
    put_held(out, told, b"column=", column, b'\n')
}

// The first four lines.
#[tactic(auto, unfolding(crate::specs::Replied::top_text, puts::specs::Put::decimal_in))]
fn put_top(out: &mut [u8], checked: Checked) -> usize
    ensures { PutFew out.old out.new 0 (top_text checked) result 70 }
{
    match checked {
        Checked::Accepted => put_word(out, 0, b"verdict=accepted\ncode=0\nplace=0\ncolumn=0\n"),
        Checked::Rejected { .. } => put_word(
            out,
            0,
            b"verdict=rejected\ncode=0\nplace=0\ncolumn=0\n",
        ),
        Checked::Refused {
            number,
            place,
            column,
        } => put_refused(out, number, place, column),
    }
}

// The lines of a fault.
#[tactic(auto, unfolding(crate::specs::Replied::fault_lines))]
fn put_fault(out: &mut [u8], at: usize, fault: Fault, position: u32) -> usize
    requires { at < 2 ^ 20 }
    ensures { PutFew out.old out.new at (fault_lines (Checked.Rejected fault position)) result 40 }
{
    match fault {
        Fault::Prefix => put_held(out, at, b"fault=prefix\nposition=", position, b'\n'),
        Fault::Empty => put_held(out, at, b"fault=empty\nposition=", position, b'\n'),
        Fault::Cycle => put_held(out, at, b"fault=cycle\nposition=", position, b'\n'),
        Fault::Condition => put_held(out, at, b"fault=condition\nposition=", position, b'\n'),
    }
}

// The last two lines.
#[tactic(auto, unfolding(crate::specs::Replied::fault_lines))]
fn put_bottom(out: &mut [u8], at: usize, checked: Checked) -> usize
    requires at_bound { at < 2 ^ 20 }
    requires slight { Slight checked }
    ensures { PutFew out.old out.new at (fault_lines checked) result 40 }
{
    match checked {
        Checked::Rejected { fault, position } => put_fault(out, at, fault, position as u32),
        _ => put_word(out, at, b"fault=-\nposition=-\n"),
    }
}

// The six lines.
fn put_checked(out: &mut [u8], checked: Checked) -> usize
    requires { Slight checked }
    ensures { PutFew out.old out.new 0 (checked_text checked) result 110 }
{
    let faults = put_top(out, checked);
    put_bottom(out, faults, checked)
}

// Where the answer text ends that is checked: one that is too long is taken for an empty one.
fn heard_to(size: usize, all: usize) -> usize
    requires { size ≤ all }
    ensures { HeardTo size all result }
{
    if MOST_ANSWER < all - size { size } else { all }
}

// The printed result for an input and zeros after it, in `out`; gives its length. For every input.
pub fn check_text(input: &[u8], out: &mut [u8; MOST_CHECKED]) -> usize
    ensures { CheckReplied input.now out.new result }
{
    let size = job_size(input);
    let end = heard_to(size, input.len());
    let checked = check_answer(&input[0..size], &input[size..end]);
    let length = put_checked(out, checked);
    clear(out, length);
    length
}
