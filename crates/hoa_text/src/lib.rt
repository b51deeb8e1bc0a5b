// From a job text to a text of the Hanoi format, bytes to bytes, for every byte string (docs/RULES.md, "The Hanoi format", the writer). Reads by
// `job_text`, writes by `hoa_writer`, prints a refusal by `answer_text`. What a text is turned into is in specs/Turned.antt.
#![tactic(auto)]

ghost use Rattle.answer_text.specs.Printed.{refused_text};
ghost use Rattle.hoa_text.specs.Turned.{Stands, Turned};

use answer_text::print_refused;
use hoa_writer::write_hoa;
use job_text::reader::read;

// No text that is written is longer: 256 states, 512 edges, 32 marks.
pub const MOST_WRITTEN: usize = hoa_writer::MOST_BYTES;

// Prints a refusal's lines in place of the text.
fn tell_refused(number: u32, place: u32, column: u32, out: &mut [u8; MOST_WRITTEN]) -> usize
    ensures { Stands (refused_text number place column) out.new result }
{
    match print_refused(number, place, column, out) {
        Ok(length) => length,
        // never: they fit
        Err(_) => 0,
    }
}

// The Hanoi format's text of a job, or the printed refusal, and zeros after it, in `out`; gives its length. For every text: what the reader or rows 1 to 7
// refuse is told, all else is written.
pub fn job_to_hoa(text: &[u8], out: &mut [u8; MOST_WRITTEN]) -> usize
    ensures { Turned text.now out.new result }
{
    let mut from = [0u32; 512];
    let mut to = [0u32; 512];
    let mut marks = [0u32; 512];
    let job = read(text, &mut from, &mut to, &mut marks);
    if let Err(cause) = job.finding {
        return tell_refused(cause.number, cause.place, job.column, out);
    }
    let m = job.edges as usize;
    let written = write_hoa(
        job.states,
        job.start,
        &from[0..m],
        &to[0..m],
        &marks[0..m],
        job.condition,
        job.needs,
        out,
    );
    match written {
        Ok(length) => length,
        Err(cause) => tell_refused(cause.number, cause.place, 0, out),
    }
}
