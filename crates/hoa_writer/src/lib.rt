// The writer of the Hanoi format (docs/RULES.md, "The Hanoi format"): a table and its condition as a text in a lent buffer.
// Relies on the crate `table` for rows 1 to 7, on `hoa_put_formula` and `hoa_put_rows` for the lines and on `puts` for bytes and numbers. What is written is in
// hoa_written/specs/Written.antt, what the writer gives for every input in hoa_written/specs/Writing.antt.
#![tactic(auto)]

ghost use Rattle.std.specs.Prelude.{◌≡◌, false, ◌≤◌, Ok};
ghost use Rattle.table.specs.Table.{lent};
ghost use Rattle.table.specs.Refusal.{refused, refusal, wrong_condition};
ghost use Rattle.puts.specs.Put.{Put, PutFew};
ghost use Rattle.hoa_written.specs.Written.{hoa_text, head_text};
ghost use Rattle.hoa_written.specs.Writing.{Writes, most_written};
ghost use Rattle.hoa_put_rows.specs.inner.{Passed};

use table::{Acceptance, Refusal};

// The largest tables that are written.
pub const MOST_STATES: u32 = 256;

pub const MOST_EDGES: usize = 512;

// An output of this many bytes is long enough for every text. hoa_written/specs/Writing.antt has the same number, as `most_bytes`.
pub const MOST_BYTES: usize = 52205;

// The lines before the condition's.
fn put_head(out: &mut [u8], n: u32, start: u32) -> usize
    ensures { PutFew out.old out.new 0 (head_text n start) result 60 }
{
    let starts = puts::put_held(out, 0, b"HOA: v1\nStates: ", n, b'\n');
    let names = puts::put_held(out, starts, b"Start: ", start, b'\n');
    puts::put_word(out, names, b"AP: 0\n")
}

// The text of a table and a condition that rows 1 to 7 and the limits let pass.
fn put_text(
    out: &mut [u8],
    n: u32,
    start: u32,
    from: &[u32],
    to: &[u32],
    marks: &[u32],
    condition: Acceptance,
    needs: [u32; 8],
) -> usize
    requires n_le_most_written { n ≤ most_written }
    requires passed { Passed from.now to.now marks.now }
    requires needs_value { wrong_condition condition needs ≡ false }
    ensures { Put out.old out.new 0 (hoa_text (lent n start from.now to.now marks.now) condition needs) result }
{
    let accepts = put_head(out, n, start);
    let begin = hoa_put_formula::put_acceptance(out, accepts, condition, needs);
    let rows = puts::put_word(out, begin, b"--BODY--\n");
    let end = hoa_put_rows::put_rows(out, rows, n, from, to, marks);
    puts::put_word(out, end, b"--END--\n")
}

// A refusal that is no edge's.
fn refused(number: u32) -> Result<usize, Refusal>
    ensures { result ≡ refused number 0 }
{
    Err(Refusal { number, place: 0 })
}

// The text of a table that rows 1 to 7 pass, and zeros behind it, if the table is not too large and the output long enough.
fn write_sound(
    n: u32,
    start: u32,
    from: &[u32],
    to: &[u32],
    marks: &[u32],
    condition: Acceptance,
    needs: [u32; 8],
    out: &mut [u8],
) -> Result<usize, Refusal>
    requires { refusal (lent n start from.now to.now marks.now) condition needs ≡ Ok tt }
    ensures { Writes (lent n start from.now to.now marks.now) condition needs out.old out.new result }
{
    if MOST_STATES < n || MOST_EDGES < from.len() {
        return refused(42);
    }
    let length = put_text(&mut out[0..0], n, start, from, to, marks, condition, needs);
    if out.len() < length {
        return refused(11);
    }
    put_text(out, n, start, from, to, marks, condition, needs);
    puts::clear(out, length);
    Ok(length)
}

// The text of a table and its condition, and zeros behind it; or the first cause to refuse, and the output as it was.
pub fn write_hoa(
    n: u32,
    start: u32,
    from: &[u32],
    to: &[u32],
    marks: &[u32],
    condition: Acceptance,
    needs: [u32; 8],
    out: &mut [u8],
) -> Result<usize, Refusal>
    ensures { Writes (lent n start from.now to.now marks.now) condition needs out.old out.new result }
{
    table::check(n, start, from, to, marks, condition, needs)?;
    write_sound(n, start, from, to, marks, condition, needs, out)
}
