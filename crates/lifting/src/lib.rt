// Writes the translated edges, for the crate `one_mark`: the levels of a row, then what stands for a state, then the whole table. Relies on `climbing` for levels, climbs
// and loops, and on `table` for the rows. What the three outputs hold is in climbing/specs/Translated.antt, what each function asks in specs/inner.antt.
#![tactic(auto)]

ghost use Rattle.std.specs.Prelude.{◌≡◌, [], ◌∷◌, ◌+◌, ◌*◌, ◌<◌, length};
ghost use Rattle.table.specs.Table.{lent};
ghost use Rattle.table.specs.Refusal.{Proper};
ghost use Rattle.climbing.specs.Source.{source};
ghost use Rattle.climbing.specs.inner.{Ladder};
ghost use Rattle.lifting.specs.inner.{Wrote, Room, RowAsked, LevelWritten, RowWritten, or_loop, StateWritten, StatesWritten};

use climbing::levels::{Shape, land, number_of};
use climbing::stops::loops;
use marks::Marks;
use table::row::run;

// A state at a level.
#[derive(Clone, Copy)]
struct Rung {
    state: u32,
    level: u32,
}

// Writes the edges of a state's row, taken at one level, from place `at` on; answers with the place behind them.
fn lift_level(
    rung: Rung,
    shape: Shape,
    to: &[u32],
    marks: &[Marks],
    at: usize,
    leaves: &mut [u32],
    arrives: &mut [u32],
    bears: &mut [Marks],
) -> usize
    requires ladder { Ladder shape.states shape.k shape.levels }
    requires level_lt_levels { rung.level < shape.levels }
    requires row_asked { RowAsked shape.states rung.state to.now marks.now }
    requires room { Room at (length to.now) leaves.old arrives.old bears.old }
    ensures value { result ≡ at + length to.now }
    ensures level_written { LevelWritten shape.k rung.state rung.level at to.now marks.now
        leaves.old arrives.old bears.old leaves.new arrives.new bears.new }
{
    let k = shape.k;
    let leaving = number_of(rung.state, rung.level, shape);
    for i in 0..to.len() {
        let landing = land(marks[i], rung.level, k);
        let arriving = number_of(to[i], landing.level, shape);
        leaves[at + i] = leaving;
        arrives[at + i] = arriving;
        bears[at + i] = landing.marks;
    }
    at + to.len()
}

// Writes the edges of a state's row, level by level, from place `at` on; answers with the place behind them.
fn lift_row(
    state: u32,
    shape: Shape,
    to: &[u32],
    marks: &[Marks],
    at: usize,
    leaves: &mut [u32],
    arrives: &mut [u32],
    bears: &mut [Marks],
) -> usize
    requires ladder { Ladder shape.states shape.k shape.levels }
    requires row_asked { RowAsked shape.states state to.now marks.now }
    requires room { Room at (shape.levels * length to.now) leaves.old arrives.old bears.old }
    ensures value { result ≡ at + shape.levels * length to.now }
    ensures row_written { RowWritten shape.k state shape.levels at to.now marks.now
        leaves.old arrives.old bears.old leaves.new arrives.new bears.new }
{
    let mut next = at;
    for level in 0..shape.levels {
        let rung = Rung { state, level };
        next = lift_level(rung, shape, to, marks, next, leaves, arrives, bears);
    }
    next
}

// Writes the marked loop of a stop state at place `at`: with k = 0 it is the state's only edge.
fn write_loop(state: u32, at: usize, leaves: &mut [u32], arrives: &mut [u32], bears: &mut [Marks])
    requires { Room at 1 leaves.old arrives.old bears.old }
    ensures { Wrote at (state ∷ []) (state ∷ []) (1 ∷ [])
        leaves.old arrives.old bears.old leaves.new arrives.new bears.new }
{
    leaves[at] = state;
    arrives[at] = state;
    bears[at] = 1;
}

// Writes what stands for a state from place `at` on: the edges of its row, or with k = 0 the loop of a stop state; answers with the place behind.
fn lift_state(
    state: u32,
    shape: Shape,
    to: &[u32],
    marks: &[Marks],
    at: usize,
    leaves: &mut [u32],
    arrives: &mut [u32],
    bears: &mut [Marks],
) -> usize
    requires ladder { Ladder shape.states shape.k shape.levels }
    requires row_asked { RowAsked shape.states state to.now marks.now }
    requires room { Room at (shape.levels * length (or_loop shape.k to.now state to.now)) leaves.old arrives.old bears.old }
    ensures value { result ≡ at + shape.levels * length (or_loop shape.k to.now state to.now) }
    ensures state_written { StateWritten shape.k state shape.levels at to.now marks.now
        leaves.old arrives.old bears.old leaves.new arrives.new bears.new }
{
    if loops(shape.k, to.len()) == 0 {
        return lift_row(state, shape, to, marks, at, leaves, arrives, bears);
    }
    write_loop(state, at, leaves, arrives, bears);
    at + 1
}

// Writes all translated edges, state by state.
pub fn lift_table(
    shape: Shape,
    from: &[u32],
    to: &[u32],
    marks: &[Marks],
    leaves: &mut [u32],
    arrives: &mut [u32],
    bears: &mut [Marks],
)
    requires ladder { Ladder shape.states shape.k shape.levels }
    requires proper { Proper (lent shape.states 0 from.now to.now marks.now) }
    requires room { Room 0 ((source (lent shape.states 0 from.now to.now marks.now) shape.k).edges * shape.levels) leaves.old arrives.old bears.old }
    ensures { StatesWritten (source (lent shape.states 0 from.now to.now marks.now) shape.k) shape.k shape.states
        leaves.old arrives.old bears.old leaves.new arrives.new bears.new }
{
    let mut first = 0;
    let mut place = 0;
    for state in 0..shape.states {
        let end = first + run(&from[first..], state);
        let ends = &to[first..end];
        let sets = &marks[first..end];
        place = lift_state(state, shape, ends, sets, place, leaves, arrives, bears);
        first = end;
    }
}
