// The loops that are written with k = 0: one for each stop state, a state with an empty row. Relies on `table` for the rows.
ghost use Rattle.std.specs.Prelude.{◌≡◌, [], ◌+◌, ◌-◌};
ghost use Rattle.table.specs.Table.{lent};
ghost use Rattle.climbing.specs.Source.{stops, source};
ghost use Rattle.climbing.specs.inner.{Rising};

use table::row::run;

// How many loops stand for a state whose row has so many edges: one if it is a stop state and k is 0.
pub fn loops(k: u32, row: usize) -> usize
    ensures { result ≡ 1 - (k + row) }
{
    usize::from(k == 0 && row == 0)
}

// How many of the n states are stop states.
#[tactic(auto, using(crate::proofs::Runs::run_next, crate::proofs::Runs::stops_next, crate::proofs::StopStates::stops_most))]
fn stop_count(n: u32, from: &[u32]) -> usize
    requires { Rising from.now }
    ensures { result ≡ stops from.now n }
{
    let mut first = 0;
    let mut count = 0;
    for state in 0..n {
        let row = run(&from[first..], state);
        count += loops(0, row);
        first += row;
    }
    count
}

// How many edges the table has that is lifted: with k = 0 each stop state has a loop.
#[tactic(auto, using(crate::proofs::StopStates::stops_most))]
pub fn source_count(n: u32, from: &[u32], k: u32) -> usize
    requires { Rising from.now }
    ensures { result ≡ (source (lent n 0 from.now [] []) k).edges }
{
    if k == 0 {
        return from.len() + stop_count(n, from);
    }
    from.len()
}
