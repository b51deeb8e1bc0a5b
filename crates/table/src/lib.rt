// What a table is, and rows 1 to 7 of docs/RULES.md: one exact check of a lent table, and the rows of a table.
// Relies on the crate `marks`. The meaning of tables, walks, lassos and conditions is in specs/.
#![tactic(auto)]

mod condition;
mod edges;
pub mod row;

ghost use Rattle.std.specs.Prelude.{◌≡◌, cond};
ghost use Rattle.table.specs.Table.{lent};
ghost use Rattle.table.specs.Refusal.{refused, refusal, used, wrong_condition};

pub const MOST_STATES: u32 = 4096;

pub const MOST_EDGES: usize = 32768;

// The condition: one of three cases with its number. Rabin's eight needs stand beside it.
#[derive(Clone, Copy)]
pub enum Acceptance {
    // each of the marks 0..k-1
    Buchi(u32),
    // p pairs: mark 2i asks for mark 2i + 1
    Streett(u32),
    // p pairs, each with one forbidden mark and as many needed marks as its need says
    Rabin(u32),
}

// The first cause to refuse: the number of its row and its place.
#[derive(Clone, Copy)]
pub struct Refusal {
    pub number: u32,
    pub place: u32,
}

// What the judge says: a run with the lengths of its prefix and cycle and, for Rabin, the pair (0 for other kinds);
// that there is none; or why it refuses, with number and place.
#[derive(Clone, Copy)]
pub enum Verdict {
    Run { prefix: u32, cycle: u32, pair: u32 },
    Empty,
    Refused { number: u32, place: u32 },
}

// The judge's answer: the verdict and, for an empty Streett verdict, how deep the erasing went (0 for others).
#[derive(Clone, Copy)]
pub struct Answer {
    pub verdict: Verdict,
    pub depth: u32,
}

// A refusal that is no edge's.
fn refused(number: u32) -> Result<(), Refusal>
    ensures { result ≡ refused number 0 }
{
    Err(Refusal { number, place: 0 })
}

// Rows 1 to 7: the number and place of the first cause in the stated order, or that there is none. Where the compiler leaves it a
// call of its own, a refusal by rows 1 to 4 takes up to seven tenths more instructions.
#[inline(always)]
pub fn check(
    n: u32,
    start: u32,
    from: &[u32],
    to: &[u32],
    marks: &[u32],
    condition: Acceptance,
    needs: [u32; 8],
) -> Result<(), Refusal>
    ensures { result ≡ refusal (lent n start from.now to.now marks.now) condition needs }
{
    if n == 0 || MOST_STATES < n {
        return refused(1);
    }
    if from.len() != to.len() || from.len() != marks.len() || MOST_EDGES < from.len() {
        return refused(2);
    }
    if n <= start {
        return refused(3);
    }
    if condition::wrong_condition(condition, needs) {
        return refused(4);
    }
    let used = condition::used_marks(condition, needs);
    edges::check_edges(n, from, to, marks, used)
}

// How many marks a condition uses; 0 for one that row 4 refuses.
pub fn marks_used(condition: Acceptance, needs: [u32; 8]) -> u32
    ensures { result ≡ cond (wrong_condition condition needs) 0 (used condition needs) }
{
    if condition::wrong_condition(condition, needs) {
        return 0;
    }
    condition::used_marks(condition, needs)
}
