// The kept edges by states in the lent tables, or tables that are too short. Relies on the crate `hoa_kept`.
ghost use Rattle.std.specs.Prelude.{◌≡◌, ◌&&◌, leb};
ghost use Rattle.hoa_rows.specs.inner.Handed.{Handing, Handed};

use crate::RowsRead;
use hoa_kept::copied::copy_rows;
use hoa_kept::held::RowsSoFar;
use hoa_tokens::BadToken;

// Whether tables of these lengths hold so many edges.
fn enough(m: usize, from: usize, to: usize, marks: usize) -> bool
    ensures { result ≡ (leb m from && (leb m to && leb m marks)) }
{
    m <= from && m <= to && m <= marks
}

// The kept edges by states in the lent tables, with zeros after them; or the refusal of tables that are too short, as they were.
pub(crate) fn hand_over(
    rows: &RowsSoFar,
    from: &mut [u32],
    to: &mut [u32],
    marks: &mut [u32],
) -> Result<RowsRead, BadToken>
    requires { Handing rows.now }
    ensures { Handed rows.now from.old to.old marks.old from.new to.new marks.new result }
{
    let kept = rows.kept;
    if !enough(kept, from.len(), to.len(), marks.len()) {
        return Err(BadToken {
            number: 11,
            place: 0,
        });
    }
    copy_rows(rows, from, to, marks);
    from[kept..].fill(0);
    to[kept..].fill(0);
    marks[kept..].fill(0);
    Ok(RowsRead {
        states: rows.count as u32,
        edges: kept as u32,
    })
}
