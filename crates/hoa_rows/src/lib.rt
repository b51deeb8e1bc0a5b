// The rows of a text of the Hanoi format (docs/RULES.md, "The Hanoi format"). Relies on the crates `hoa_entry`, `hoa_kept` and `hoa_tokens`.
// One pass over the tokens keeps the edges in the text's order; they are handed over by states at the end, so that a refusal changes no lent cell.
// Which tokens are admitted, and what they say, is in hoa_entry/specs/; what comes back is in specs/.
#![tactic(auto)]

mod handed;
mod reader;

ghost use Rattle.hoa_rows.specs.Lent.{RowsInto};

use crate::handed::hand_over;
use crate::reader::read_entries;
use hoa_entry::Limits;
use hoa_kept::held::no_rows;
use hoa_tokens::BadToken;

// What rows that are read give: how many states and edges.
#[derive(Clone, Copy)]
pub struct RowsRead {
    pub states: u32,
    pub edges: u32,
}

// The rows behind `--BODY--` at a place of the text, their edges by states in the three lent tables with zeros after them; or the refusal, and the
// tables as they were. Tables that are too short are refused with 11 at place 0.
pub fn read_rows(
    text: &[u8],
    at: usize,
    limits: Limits,
    from: &mut [u32],
    to: &mut [u32],
    marks: &mut [u32],
) -> Result<RowsRead, BadToken>
    ensures { RowsInto limits text.now at from.old to.old marks.old from.new to.new marks.new result }
{
    let mut rows = no_rows(limits.start);
    read_entries(text, at, limits, &mut rows)?;
    hand_over(&rows, from, to, marks)
}
