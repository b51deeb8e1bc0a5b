// The rows of a table. In a table that was not refused the row of a state is one unbroken run of edges, and the next
// state's row begins where it ends (proofs/Rows.antt).
ghost use Rattle.std.specs.Prelude.{◌≡◌};
ghost use Rattle.table.specs.Row.{run};

// How many edges at the front of a part of the from table leave the state.
pub fn run(part: &[u32], state: u32) -> usize
    ensures { result ≡ run state part.now }
{
    for (i, leaves) in part.iter().enumerate() {
        if *leaves != state {
            return i;
        }
    }
    part.len()
}
