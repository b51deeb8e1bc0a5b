// The C face of the job text's writer (docs/RULES.md, "The job text and the printed answer", the writer), with its answer in plain numbers
// (`face`). It takes any input; relies on `job_writer` for all that it says.
ghost use Rattle.table.specs.Table.{lent};
ghost use Rattle.mukhadero.specs.Hoa.{JobTells};

use face::hanoi::{TextNumbers, text_numbers};
use job_writer::write_job;
use marks::Marks;

// Writes a table read as Büchi 1 as a job text.
#[unsafe(no_mangle)]
pub extern "C" fn mukhadero_write_job(
    n: u32,
    start: u32,
    from: &[u32],
    to: &[u32],
    marks: &[Marks],
    out: &mut [u8],
) -> TextNumbers
    ensures { JobTells (lent n start from.now to.now marks.now) out.old out.new result }
{
    let written = write_job(n, start, from, to, marks, out);
    text_numbers(written)
}
