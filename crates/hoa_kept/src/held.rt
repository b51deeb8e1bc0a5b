// The rows so far, and what a row and an edge add to them. Relies on nothing.
ghost use Rattle.std.specs.Prelude.{◌≡◌};
ghost use Rattle.hoa_kept.specs.inner.Held.{RowRoom, EdgeRoom, none_yet, row_begun, rows_with};

// The rows so far: how many, the last one's number and marks, how many edges are kept, and the largest of the start, the rows' numbers and the
// targets. Then the kept edges' targets and marks, in the text's order, and for each state one more than its first edge's index (0: it has no row
// yet) and the index behind its last one.
#[derive(Clone, Copy)]
pub struct RowsSoFar {
    pub count: usize,
    pub row: usize,
    pub sig: u32,
    pub kept: usize,
    pub largest: u32,
    pub tos: [u32; 512],
    pub sets: [u32; 512],
    pub firsts: [usize; 256],
    pub ends: [usize; 256],
}

// No rows yet.
pub fn no_rows(start: u32) -> RowsSoFar
    ensures { result ≡ none_yet start }
{
    RowsSoFar {
        count: 0,
        row: 0,
        sig: 0,
        kept: 0,
        largest: start,
        tos: [0; 512],
        sets: [0; 512],
        firsts: [0; 256],
        ends: [0; 256],
    }
}

// A row begins, with its number and sig.
pub fn begin_row(rows: &mut RowsSoFar, number: u32, sig: u32)
    requires { RowRoom rows.old number }
    ensures { rows.new ≡ row_begun rows.old number sig }
{
    let q = number as usize;
    rows.firsts[q] = rows.kept + 1;
    rows.ends[q] = rows.kept;
    rows.count += 1;
    rows.row = q;
    rows.sig = sig;
    rows.largest = rows.largest.max(number);
}

// An edge of the last row: it is kept if a valuation satisfies its label.
pub fn keep_edge(rows: &mut RowsSoFar, set: u64, to: u32, marks: u32)
    requires { EdgeRoom rows.old set }
    ensures { rows.new ≡ rows_with rows.old set to marks }
{
    rows.largest = rows.largest.max(to);
    if set == 0 {
        return;
    }
    rows.tos[rows.kept] = to;
    rows.sets[rows.kept] = marks;
    rows.kept += 1;
    rows.ends[rows.row] = rows.kept;
}
