// The one-mark translation (docs/RULES.md, "One-mark translation"): a table with k marks, read as Büchi k, becomes one with one mark, read as
// Büchi 1, whose accepted lassos lie over those of the first. With k = 0 each stop state gets a marked loop; else its copies wait as it does.
// Relies on `table` for rows 1 to 7, on `climbing` for counts and numbers and for what the translated table is (climbing/specs/), on `lifting` for the writing.
#![tactic(auto)]

ghost use Rattle.std.specs.Prelude.{◌≡◌, ◌++◌, ◌-◌, ◌≤◌, length, replicate, take};
ghost use Rattle.table.specs.Table.{lent};
ghost use Rattle.climbing.specs.Translated.{translated};
ghost use Rattle.table.specs.Refusal.{refused};
ghost use Rattle.one_mark.specs.Outcome.{Outcome, answer, large, short};
ghost use Rattle.one_mark.specs.inner.{Ready, Filled};

use climbing::levels::{Shape, level_count, number_of};
use climbing::stops::source_count;
use lifting::lift_table;
use marks::Marks;
use table::{Acceptance, MOST_EDGES, MOST_STATES, Refusal};

// A translated table: both counts and the new start.
#[derive(Clone, Copy)]
pub struct Translation {
    pub states: u32,
    pub edges: u32,
    pub start: u32,
}

// Row 10: whether a table to be made is too large.
fn too_large(states: u32, edges: usize) -> bool
    ensures { result ≡ large states edges }
{
    MOST_STATES < states || MOST_EDGES < edges
}

// Row 11: whether one of three outputs, of the lengths `a`, `b` and `c`, is too short for the edges.
fn too_short(edges: usize, a: usize, b: usize, c: usize) -> bool
    ensures { result ≡ short edges a b c }
{
    a < edges || b < edges || c < edges
}

// A refusal of row 10 or 11.
fn refused(number: u32) -> Result<Translation, Refusal>
    ensures { result ≡ refused number 0 }
{
    Err(Refusal { number, place: 0 })
}

// The lengths of the three lent outputs.
#[derive(Clone, Copy)]
struct Lengths {
    leaves: usize,
    arrives: usize,
    bears: usize,
}

// What the translation will answer, with lent outputs of these lengths.
fn foresee(
    n: u32,
    start: u32,
    from: &[u32],
    to: &[u32],
    marks: &[Marks],
    k: u32,
    lengths: Lengths,
) -> Result<Translation, Refusal>
    ensures { result ≡ answer (lent n start from.now to.now marks.now) k
        lengths.leaves lengths.arrives lengths.bears }
{
    table::check(n, start, from, to, marks, Acceptance::Buchi(k), [0; 8])?;
    let levels = level_count(k);
    let states = n * levels;
    let edges = source_count(n, from, k) * (levels as usize);
    if too_large(states, edges) {
        return refused(10);
    }
    if too_short(edges, lengths.leaves, lengths.arrives, lengths.bears) {
        return refused(11);
    }
    let shape = Shape {
        states: n,
        k,
        levels,
    };
    let first = number_of(start, 0, shape);
    let count = edges as u32;
    Ok(Translation {
        states,
        edges: count,
        start: first,
    })
}

// Zeros from place `at` to the end.
fn clear(out: &mut [u32], at: usize)
    requires { at ≤ length out.old }
    ensures { out.new ≡ take at out.old ++ replicate (length out.old - at) 0 }
{
    out[at..].fill(0);
}

// Writes the translated edges, then zeros.
fn fill(
    shape: Shape,
    from: &[u32],
    to: &[u32],
    marks: &[Marks],
    edges: usize,
    leaves: &mut [u32],
    arrives: &mut [u32],
    bears: &mut [Marks],
)
    requires { Ready shape.states shape.k shape.levels edges from.now to.now marks.now leaves.old arrives.old bears.old }
    ensures { Filled (translated (lent shape.states 0 from.now to.now marks.now) shape.k)
        leaves.old arrives.old bears.old leaves.new arrives.new bears.new }
{
    lift_table(shape, from, to, marks, leaves, arrives, bears);
    clear(leaves, edges);
    clear(arrives, edges);
    clear(bears, edges);
}

// Translates a lent table with k marks into the three lent outputs: where each translated edge leaves, where it arrives, what it bears.
pub fn translate(
    n: u32,
    start: u32,
    from: &[u32],
    to: &[u32],
    marks: &[Marks],
    k: u32,
    leaves: &mut [u32],
    arrives: &mut [u32],
    bears: &mut [Marks],
) -> Result<Translation, Refusal>
    ensures { Outcome (lent n start from.now to.now marks.now) k
        leaves.old arrives.old bears.old result leaves.new arrives.new bears.new }
{
    let lengths = Lengths {
        leaves: leaves.len(),
        arrives: arrives.len(),
        bears: bears.len(),
    };
    let made = foresee(n, start, from, to, marks, k, lengths)?;
    let levels = level_count(k);
    let shape = Shape {
        states: n,
        k,
        levels,
    };
    let m = made.edges as usize;
    fill(shape, from, to, marks, m, leaves, arrives, bears);
    Ok(made)
}
