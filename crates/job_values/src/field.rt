// Numbers, mark sets and words, each read from the left up to the byte that ends it; where one is not of its form, the first byte that cannot go on.
// Relies on the crate `digits`.
ghost use Rattle.std.specs.Prelude.{◌≡◌, ◌+◌};
ghost use Rattle.std.proofs.Math.Option.{none};
ghost use Rattle.digits.specs.Digit.{digit};
ghost use Rattle.job_values.specs.Bytes.{newline};
ghost use Rattle.job_values.specs.Number.{number, hex_word};
ghost use Rattle.table.specs.Row.{part};
ghost use Rattle.job_values.specs.inner.Field.{Within, FieldAt, RunAt, agree};

use digits::{digit_value, hex_value};

// The largest number of the job text.
pub const MOST_NUMBER: u32 = 65535;

// A value, and the place behind the bytes that were read.
#[derive(Clone, Copy)]
pub struct Run {
    pub value: u32,
    pub next: usize,
}

// The longest run of bytes that can begin a number.
fn number_run(text: &[u8], at: usize, end: usize) -> Run
    requires { Within text.now at end }
    ensures { RunAt text.now at end result }
{
    if text[at] == b'0' {
        return Run {
            value: 0,
            next: at + 1,
        };
    }
    let mut value: u32 = 0;
    for i in at..end {
        let Some(d) = digit_value(text[i]) else {
            return Run { value, next: i };
        };
        let more = value * 10 + d;
        if MOST_NUMBER < more {
            return Run { value, next: i };
        }
        value = more;
    }
    Run { value, next: end }
}

// A number, ended by the byte `stop`, and the place behind that; or the place of the first byte that cannot go on.
pub fn number_field(text: &[u8], at: usize, end: usize, stop: u8) -> Result<Run, usize>
    requires within { Within text.now at end }
    requires stop_value { digit stop ≡ none }
    ensures { FieldAt stop number text.now at end result }
{
    let run = number_run(text, at, end);
    if run.next == at || text[run.next] != stop {
        return Err(run.next);
    }
    Ok(Run {
        next: run.next + 1,
        ..run
    })
}

// A set of marks, ended by the newline byte; the places as those of a number.
pub fn marks_field(text: &[u8], at: usize, end: usize) -> Result<Run, usize>
    requires { Within text.now at end }
    ensures { FieldAt newline hex_word text.now at end result }
{
    let last = at + 8;
    let mut value: u32 = 0;
    for i in at..last {
        let d = hex_value(text[i]).ok_or(i)?;
        value = value * 16 + d;
    }
    if last < end {
        return Err(last);
    }
    Ok(Run {
        value,
        next: last + 1,
    })
}

// How far a word stands from `at` on: the place of the first byte that is another one, the line's end or the place behind the word.
#[tactic(auto, using(crate::proofs::Words::word_steps))]
pub fn word_run(text: &[u8], at: usize, end: usize, word: &[u8]) -> usize
    requires { Within text.now at end }
    ensures { result ≡ at + agree (part at end text.now) word.now }
{
    for (i, byte) in word.iter().enumerate() {
        let here = at + i;
        if end <= here || text[here] != *byte {
            return here;
        }
    }
    at + word.len()
}
