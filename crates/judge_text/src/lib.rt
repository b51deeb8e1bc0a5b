// From bytes to bytes: a job text in, the printed answer out, for every byte string (docs/RULES.md, "The job text and the printed answer"). Reads by
// `job_text`, judges by `judging`, prints by `answer_text`. What a text is answered is in specs/Replied.antt. The same for a text of the Hanoi format, read by
// `hoa`: specs/HoaReplied.antt.
#![tactic(auto)]

ghost use Rattle.std.specs.Prelude.{◌≤◌, length};
ghost use Rattle.answer_text.specs.Printed.{answer_text, refused_text, most_printed};
ghost use Rattle.table.specs.Table.{lent};
ghost use Rattle.job_text.specs.Job.{most_job_states, most_job_edges};
ghost use Rattle.judge_text.specs.Replied.{Holds, Replied};
ghost use Rattle.judge_text.specs.HoaReplied.{HoaReplied};
ghost use Rattle.judge_text.specs.inner.{Judged};

use answer_text::{print, print_refused};
use hoa::{HoaFinding, read_hoa};
use job_text::reader::read;
use table::{Acceptance, Answer};

// No printed answer is longer: at most 8,703 edges, numbers of three digits or `stop`, with their commas, and what stands around them.
pub const MOST_PRINTED: usize = 43635;

// The longest text of the Hanoi format that is judged.
pub const MOST_HOA: usize = 1048576;

// What the judge is lent: enough for 256 states, 512 edges and 32 marks.
const LENT_ROOM: usize = 8703;

const LENT_SCRATCH: usize = 4160;

// Prints an answer that fits.
fn show(answer: Answer, condition: Acceptance, room: &[u32], out: &mut [u8; MOST_PRINTED]) -> usize
    requires { length (answer_text answer.verdict 0 answer.depth condition room.now) ≤ most_printed }
    ensures { Holds (answer_text answer.verdict 0 answer.depth condition room.now) out.new result }
{
    match print(answer, condition, room, out) {
        Ok(length) => length,
        // never: it fits
        Err(_) => 0,
    }
}

// Prints what the reader refuses.
fn show_refused(number: u32, place: u32, column: u32, out: &mut [u8; MOST_PRINTED]) -> usize
    ensures { Holds (refused_text number place column) out.new result }
{
    match print_refused(number, place, column, out) {
        Ok(length) => length,
        // never: it fits
        Err(_) => 0,
    }
}

// Judges a table within a job's limits and prints the answer.
fn answer_job(
    states: u32,
    start: u32,
    from: &[u32],
    to: &[u32],
    marks: &[u32],
    condition: Acceptance,
    needs: [u32; 8],
    out: &mut [u8; MOST_PRINTED],
) -> usize
    requires states_le_most_job_states { states ≤ most_job_states }
    requires from_len_bound { length from.now ≤ most_job_edges }
    ensures { Judged (lent states start from.now to.now marks.now) condition needs out.new result }
{
    let mut room = [0u32; LENT_ROOM];
    let mut scratch = [0u32; LENT_SCRATCH];
    let answer = judging::judge(
        states,
        start,
        from,
        to,
        marks,
        condition,
        needs,
        &mut room,
        &mut scratch,
    );
    show(answer, condition, &room, out)
}

// The printed answer to a text and zeros after it, in `out`; gives its length. For every text: what the reader refuses is told, what it reads is judged.
pub fn judge_text(text: &[u8], out: &mut [u8; MOST_PRINTED]) -> usize
    ensures { Replied text.now out.new result }
{
    let mut from = [0u32; 512];
    let mut to = [0u32; 512];
    let mut marks = [0u32; 512];
    let job = read(text, &mut from, &mut to, &mut marks);
    if let Err(cause) = job.finding {
        return show_refused(cause.number, cause.place, job.column, out);
    }
    let m = job.edges as usize;
    answer_job(
        job.states,
        job.start,
        &from[0..m],
        &to[0..m],
        &marks[0..m],
        job.condition,
        job.needs,
        out,
    )
}

// The printed answer to a text of the Hanoi format and zeros after it, in `out`; gives its length. For every text: one that is too long or that the reader
// refuses is told, what is read is judged.
pub fn judge_hoa(text: &[u8], out: &mut [u8; MOST_PRINTED]) -> usize
    ensures { HoaReplied text.now out.new result }
{
    if MOST_HOA < text.len() {
        return show_refused(42, 1048576, 0, out);
    }
    let mut from = [0u32; 512];
    let mut to = [0u32; 512];
    let mut marks = [0u32; 512];
    let hoa = read_hoa(text, &mut from, &mut to, &mut marks);
    if let HoaFinding::Refused { number, place } = hoa.finding {
        return show_refused(number, place as u32, 0, out);
    }
    let m = hoa.edges as usize;
    answer_job(
        hoa.states,
        hoa.start,
        &from[0..m],
        &to[0..m],
        &marks[0..m],
        hoa.condition,
        hoa.needs,
        out,
    )
}
