// The states and their edges in a text in the Hanoi format, for the crate `hoa_writer`. The edges of a table that rows 1 to 7 pass are sorted, so each state's row begins where
// the last one ended, and one walk finds them all. Relies on the crate `table` for the row of a state, on `marks` for sets of marks and on `puts` for bytes and numbers. What is
// written is in hoa_written/specs/Written.antt.
#![tactic(auto)]

ghost use Rattle.std.specs.Prelude.{◌≡◌, ◌+◌, ◌*◌, ◌^◌, ◌≤◌, ◌<◌, length};
ghost use Rattle.puts.specs.Put.{PutFew};
ghost use Rattle.hoa_written.specs.Written.{mark_text, marks_text, sig_text, edge_text, rows_text};
ghost use Rattle.hoa_put_rows.specs.inner.{Passed, edges_text, state_text};

use puts::{put, put_held, put_number, put_word};

// One mark of a set, if it has it, behind those below it.
fn put_mark(out: &mut [u8], at: usize, set: u32, mark: u32) -> usize
    requires at_bound { at < 2 ^ 50 }
    requires mark_bound { mark < 32 }
    ensures { PutFew out.old out.new at (mark_text set mark) result 11 }
{
    if !marks::has_mark(set, mark) {
        return at;
    }
    if set % (1 << mark) == 0 {
        return put_number(out, at, mark);
    }
    let digits = put(out, at, b' ');
    put_number(out, digits, mark)
}

// The marks of a set, ascending.
fn put_marks(out: &mut [u8], at: usize, set: u32) -> usize
    requires { at < 2 ^ 49 }
    ensures { PutFew out.old out.new at (marks_text set) result 352 }
{
    let mut next = at;
    for mark in 0..32 {
        next = put_mark(out, next, set, mark);
    }
    next
}

// The marks that an edge bears, if it bears one.
fn put_sig(out: &mut [u8], at: usize, set: u32) -> usize
    requires { at < 2 ^ 48 }
    ensures { PutFew out.old out.new at (sig_text set) result 355 }
{
    if set == 0 {
        return at;
    }
    let begin = put_word(out, at, b" {");
    let end = put_marks(out, begin, set);
    put(out, end, b'}')
}

// The line of an edge.
fn put_edge(out: &mut [u8], at: usize, to: u32, set: u32) -> usize
    requires { at < 2 ^ 47 }
    ensures { PutFew out.old out.new at (edge_text to set) result 400 }
{
    let target = put_word(out, at, b"[t] ");
    let sig = put_number(out, target, to);
    let end = put_sig(out, sig, set);
    put(out, end, b'\n')
}

// The lines of a row's edges.
fn put_edges(out: &mut [u8], at: usize, to: &[u32], marks: &[u32]) -> usize
    requires to_bound { at + 400 * length to.now < 2 ^ 46 }
    requires to_len { length to.now ≡ length marks.now }
    ensures { PutFew out.old out.new at (edges_text to.now marks.now) result (400 * length to.now) }
{
    let mut next = at;
    for (target, set) in to.iter().zip(marks) {
        next = put_edge(out, next, *target, *set);
    }
    next
}

// A state's line and those of its edges.
fn put_row(out: &mut [u8], at: usize, state: u32, to: &[u32], marks: &[u32]) -> usize
    requires to_bound { at + 400 * length to.now < 2 ^ 45 }
    requires to_len { length to.now ≡ length marks.now }
    ensures { PutFew out.old out.new at (state_text state to.now marks.now) result (20 + 400 * length to.now) }
{
    let next = put_held(out, at, b"State: ", state, b'\n');
    put_edges(out, next, to, marks)
}

// The lines of n states; the row of each begins where the row before it ended.
pub fn put_rows(out: &mut [u8], at: usize, n: u32, from: &[u32], to: &[u32], marks: &[u32]) -> usize
    requires at_bound { at < 2 ^ 20 }
    requires n_bound { n ≤ 256 }
    requires passed { Passed from.now to.now marks.now }
    ensures { PutFew out.old out.new at (rows_text from.now to.now marks.now n) result 209920 }
{
    let mut next = at;
    let mut e = 0;
    for state in 0..n {
        let end = e + table::row::run(&from[e..], state);
        next = put_row(out, next, state, &to[e..end], &marks[e..end]);
        e = end;
    }
    next
}
