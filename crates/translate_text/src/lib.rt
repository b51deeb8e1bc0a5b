// From a job text to the translated job text, bytes to bytes, for every byte string (docs/RULES.md, "One-mark translation" and "The job text and the
// printed answer", the writer). Reads by `job_text`, translates by `one_mark`, writes by `job_writer`, prints a refusal by `answer_text`. What a text is
// translated into is in specs/Turned.antt.
#![tactic(auto)]

ghost use Rattle.table.specs.Table.{lent};
ghost use Rattle.answer_text.specs.Printed.{refused_text};
ghost use Rattle.writing.specs.Writing.{Stands};
ghost use Rattle.job_writer.specs.Writing.{most_bytes};
ghost use Rattle.translate_text.specs.Turned.{turned_table, Turned};
ghost use Rattle.translate_text.specs.inner.{written_table};

use answer_text::print_refused;
use job_text::reader::read;
use job_writer::write_job;
use one_mark::translate;
use table::Acceptance;

// No text that is written is longer: 256 states, 512 edges.
pub const MOST_WRITTEN: usize = 11336;

// What the translation is lent: enough for every table that is not too large to be made.
const MOST_MADE: usize = 32768;

// Prints a refusal's lines in place of the text.
fn tell_refused(number: u32, place: u32, column: u32, out: &mut [u8; MOST_WRITTEN]) -> usize
    ensures { Stands most_bytes (refused_text number place column) out.new result }
{
    match print_refused(number, place, column, out) {
        Ok(length) => length,
        // never: they fit
        Err(_) => 0,
    }
}

// Writes a table, or tells what the writer refuses.
fn write_made(
    n: u32,
    start: u32,
    from: &[u32],
    to: &[u32],
    marks: &[u32],
    out: &mut [u8; MOST_WRITTEN],
) -> usize
    ensures { Stands most_bytes (written_table (lent n start from.now to.now marks.now)) out.new result }
{
    match write_job(n, start, from, to, marks, out) {
        Ok(length) => length,
        Err(cause) => tell_refused(cause.number, cause.place, 0, out),
    }
}

// Translates a table with k marks and writes what comes out, or tells what refuses it.
fn translate_table(
    n: u32,
    start: u32,
    from: &[u32],
    to: &[u32],
    marks: &[u32],
    k: u32,
    out: &mut [u8; MOST_WRITTEN],
) -> usize
    ensures { Stands most_bytes (turned_table (lent n start from.now to.now marks.now) k) out.new result }
{
    let mut leaves = [0u32; MOST_MADE];
    let mut arrives = [0u32; MOST_MADE];
    let mut bears = [0u32; MOST_MADE];
    match translate(
        n,
        start,
        from,
        to,
        marks,
        k,
        &mut leaves,
        &mut arrives,
        &mut bears,
    ) {
        Err(cause) => tell_refused(cause.number, cause.place, 0, out),
        Ok(made) => {
            let m = made.edges as usize;
            write_made(
                made.states,
                made.start,
                &leaves[0..m],
                &arrives[0..m],
                &bears[0..m],
                out,
            )
        }
    }
}

// The job text of the translated table, or the printed refusal, and zeros after it, in `out`; gives its length. For every text.
pub fn translate_text(text: &[u8], out: &mut [u8; MOST_WRITTEN]) -> usize
    ensures { Turned text.now out.new result }
{
    let mut from = [0u32; 512];
    let mut to = [0u32; 512];
    let mut marks = [0u32; 512];
    let job = read(text, &mut from, &mut to, &mut marks);
    if let Err(cause) = job.finding {
        return tell_refused(cause.number, cause.place, job.column, out);
    }
    let m = job.edges as usize;
    match job.condition {
        Acceptance::Buchi(k) => translate_table(
            job.states,
            job.start,
            &from[0..m],
            &to[0..m],
            &marks[0..m],
            k,
            out,
        ),
        Acceptance::Streett(_) => tell_refused(4, 0, 0, out),
        Acceptance::Rabin(_) => tell_refused(4, 0, 0, out),
    }
}
