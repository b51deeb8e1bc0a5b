// The C face of the Hanoi format (docs/RULES.md, "The Hanoi format"): the proved reader and the proved writer under C names, with their answers in
// plain numbers (`face`). Each function takes any input; relies on `hoa` and `hoa_writer` for all that it says.
ghost use Rattle.table.specs.Table.{lent};
ghost use Rattle.mukhadero.specs.Numbers.{no_needs};
ghost use Rattle.mukhadero.specs.Hoa.{ReadTells, WriteTells};

use face::hanoi::{HoaNumbers, TextNumbers, hoa_numbers, text_numbers};
use hoa::read_hoa;
use hoa_writer::write_hoa;
use marks::Marks;
use table::Acceptance;

// Reads a text into three lent tables.
#[unsafe(no_mangle)]
pub extern "C" fn mukhadero_read_hoa(
    text: &[u8],
    from: &mut [u32],
    to: &mut [u32],
    marks: &mut [Marks],
) -> HoaNumbers
    ensures { ReadTells text.now from.old to.old marks.old result
        from.new to.new marks.new }
{
    let hoa = read_hoa(text, from, to, marks);
    hoa_numbers(hoa)
}

// Writes a table under Büchi k.
#[unsafe(no_mangle)]
pub extern "C" fn mukhadero_write_hoa_buchi(
    n: u32,
    start: u32,
    from: &[u32],
    to: &[u32],
    marks: &[Marks],
    k: u32,
    out: &mut [u8],
) -> TextNumbers
    ensures { WriteTells (lent n start from.now to.now marks.now) (Acceptance.Buchi k) no_needs
        out.old out.new result }
{
    let written = write_hoa(n, start, from, to, marks, Acceptance::Buchi(k), [0; 8], out);
    text_numbers(written)
}

// Writes a table under Streett p.
#[unsafe(no_mangle)]
pub extern "C" fn mukhadero_write_hoa_streett(
    n: u32,
    start: u32,
    from: &[u32],
    to: &[u32],
    marks: &[Marks],
    p: u32,
    out: &mut [u8],
) -> TextNumbers
    ensures { WriteTells (lent n start from.now to.now marks.now) (Acceptance.Streett p) no_needs
        out.old out.new result }
{
    let written = write_hoa(
        n,
        start,
        from,
        to,
        marks,
        Acceptance::Streett(p),
        [0; 8],
        out,
    );
    text_numbers(written)
}

// Writes a table under Rabin p with these needs.
#[unsafe(no_mangle)]
pub extern "C" fn mukhadero_write_hoa_rabin(
    n: u32,
    start: u32,
    from: &[u32],
    to: &[u32],
    marks: &[Marks],
    p: u32,
    needs: &[u32; 8],
    out: &mut [u8],
) -> TextNumbers
    ensures { WriteTells (lent n start from.now to.now marks.now) (Acceptance.Rabin p) needs.now
        out.old out.new result }
{
    let dealt = *needs;
    let written = write_hoa(n, start, from, to, marks, Acceptance::Rabin(p), dealt, out);
    text_numbers(written)
}
