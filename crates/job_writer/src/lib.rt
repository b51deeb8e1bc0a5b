// The writer of job texts (docs/RULES.md, "The job text and the printed answer", the writer): a table read as Büchi 1, which is what the translation
// makes, as a job text in a lent buffer. Relies on the crate `table` for rows 1 to 7, on `job_put_edges` for the edge lines and on `puts` for words and numbers. What is written is in
// specs/Written.antt, what the writer gives for every input in specs/Writing.antt; reading the text gives the table back: specs/Back.antt.
#![tactic(auto)]

ghost use Rattle.std.specs.Prelude.{◌≡◌, [], Ok};
ghost use Rattle.table.specs.Table.{lent};
ghost use Rattle.table.specs.Refusal.{refused, refusal};
ghost use Rattle.puts.specs.Put.{Put, PutFew};
ghost use Rattle.job_writer.specs.Written.{head_text, job_text};
ghost use Rattle.job_writer.specs.Writing.{large, Writes};
ghost use Rattle.job_put_edges.specs.inner.{Passed};

use job_put_edges::put_edges;
use puts::{clear, put_held, put_word};
use table::{Acceptance, Refusal};

// The largest tables that are written: the job text's limits.
const MOST_STATES: u32 = 256;

const MOST_EDGES: usize = 512;

// An output of this many bytes is long enough for every text.
pub const MOST_BYTES: usize = 11336;

// The lines before the edges.
fn put_head(out: &mut [u8], n: u32, start: u32, m: u32) -> usize
    ensures { PutFew out.old out.new 0 (head_text n start m) result 100 }
{
    let starts = put_held(out, 0, b"form=2\nstates=", n, b'\n');
    let kinds = put_held(out, starts, b"start=", start, b'\n');
    put_held(out, kinds, b"kind=buchi\ncount=1\nneed=-\nedges=", m, b'\n')
}

// The text of a table that rows 1 to 7 and the limits let pass.
fn put_text(out: &mut [u8], n: u32, start: u32, from: &[u32], to: &[u32], marks: &[u32]) -> usize
    requires { Passed from.now to.now marks.now }
    ensures { Put out.old out.new 0 (job_text (lent n start from.now to.now marks.now)) result }
{
    let begin = put_head(out, n, start, from.len() as u32);
    let end = put_edges(out, begin, from, to, marks);
    put_word(out, end, b"end=job\n")
}

// Row 23: whether a table is too large for a job.
fn too_large(n: u32, m: usize) -> bool
    ensures { result ≡ large n m }
{
    MOST_STATES < n || MOST_EDGES < m
}

// A refusal that is no edge's.
fn refused(number: u32) -> Result<usize, Refusal>
    ensures { result ≡ refused number 0 }
{
    Err(Refusal { number, place: 0 })
}

// The text of a table that rows 1 to 7 pass, and zeros behind it, if the table is not too large and the output long enough.
fn write_sound(
    n: u32,
    start: u32,
    from: &[u32],
    to: &[u32],
    marks: &[u32],
    out: &mut [u8],
) -> Result<usize, Refusal>
    requires { refusal (lent n start from.now to.now marks.now) (Acceptance.Buchi 1) [] ≡ Ok tt }
    ensures { Writes (lent n start from.now to.now marks.now) out.old out.new result }
{
    if too_large(n, from.len()) {
        return refused(23);
    }
    let length = put_text(&mut out[..0], n, start, from, to, marks);
    if out.len() < length {
        return refused(11);
    }
    put_text(out, n, start, from, to, marks);
    clear(out, length);
    Ok(length)
}

// The job text of a table read as Büchi 1, and zeros behind it; or the first cause to refuse, and the output as it was.
pub fn write_job(
    n: u32,
    start: u32,
    from: &[u32],
    to: &[u32],
    marks: &[u32],
    out: &mut [u8],
) -> Result<usize, Refusal>
    ensures { Writes (lent n start from.now to.now marks.now) out.old out.new result }
{
    table::check(n, start, from, to, marks, Acceptance::Buchi(1), [0; 8])?;
    write_sound(n, start, from, to, marks, out)
}
