// Rows 5 to 7. A sound table is passed by one look over all edges, which stops nowhere; only where that shows a fault are
// the edges gone through one by one for the first. The start plays no part in these rows: the contracts speak of the
// table with start 0.
ghost use Rattle.std.specs.Prelude.{◌≡◌, true, ◌≤◌, length, Ok};
ghost use Rattle.table.specs.Table.{Table, lent};
ghost use Rattle.table.specs.Refusal.{refused, edge_refusal, most_edges};
ghost use Rattle.table.specs.inner.Looks.{Even, Above, Shows};

use crate::Refusal;

// What a look over all edges shows: how many arrive above a state, the state that the last one leaves, the union of their marks,
// and how many from states are below the one before.
#[derive(Clone, Copy)]
struct Look {
    astray: u32,
    last: u32,
    union: u32,
    falls: u32,
}

// 1 if the first of two numbers is above the second, else 0.
fn above(a: u32, b: u32) -> u32
    ensures { Above a b result }
{
    u32::from(b < a)
}

// A look over all edges. Those that arrive above a state are counted, as counting takes fewer instructions than the highest end.
fn look_over(top: u32, from: &[u32], to: &[u32], marks: &[u32]) -> Look
    requires { Even from.now to.now marks.now }
    ensures { Shows top from.now to.now marks.now (length from.now) result.astray result.last result.union result.falls }
{
    let mut astray: u32 = 0;
    let mut last: u32 = 0;
    let mut union: u32 = 0;
    let mut falls: u32 = 0;
    for e in 0..from.len() {
        let leaves = from[e];
        astray += above(to[e], top);
        union = marks::join(union, marks[e]);
        falls += above(last, leaves);
        last = leaves;
    }
    Look {
        astray,
        last,
        union,
        falls,
    }
}

// Whether a look over all edges shows that none is faulty.
fn all_sound(n: u32, from: &[u32], to: &[u32], marks: &[u32], used: u32) -> bool
    requires { let t = lent n 0 from.now to.now marks.now in Even t.from t.to t.marks }
    ensures { let t = lent n 0 from.now to.now marks.now in result ≡ true → edge_refusal t used 0 t.edges ≡ Ok tt }
{
    if n == 0 {
        return false;
    }
    let look = look_over(n - 1, from, to, marks);
    look.falls == 0
        && look.astray == 0
        && look.last < n
        && marks::covers(marks::first_marks(used), look.union)
}

// A refusal at an edge.
fn refused_at(number: u32, e: usize) -> Result<(), Refusal>
    requires { e ≤ most_edges }
    ensures { result ≡ refused number e }
{
    Err(Refusal {
        number,
        place: e as u32,
    })
}

// The first faulty edge decides, and 5, 6, 7 in that order within it.
fn first_fault(n: u32, from: &[u32], to: &[u32], marks: &[u32], used: u32) -> Result<(), Refusal>
    requires { let t = lent n 0 from.now to.now marks.now in Even t.from t.to t.marks }
    ensures { let t = lent n 0 from.now to.now marks.now in result ≡ edge_refusal t used 0 t.edges }
{
    let allowed = marks::first_marks(used);
    let mut before: u32 = 0;
    for e in 0..from.len() {
        let leaves = from[e];
        if n <= leaves || n <= to[e] {
            return refused_at(5, e);
        }
        if leaves < before {
            return refused_at(6, e);
        }
        if !marks::covers(allowed, marks[e]) {
            return refused_at(7, e);
        }
        before = leaves;
    }
    Ok(())
}

// Rows 5 to 7.
pub(crate) fn check_edges(
    n: u32,
    from: &[u32],
    to: &[u32],
    marks: &[u32],
    used: u32,
) -> Result<(), Refusal>
    requires { let t = lent n 0 from.now to.now marks.now in Even t.from t.to t.marks }
    ensures { let t = lent n 0 from.now to.now marks.now in result ≡ edge_refusal t used 0 t.edges }
{
    if all_sound(n, from, to, marks, used) {
        Ok(())
    } else {
        first_fault(n, from, to, marks, used)
    }
}
