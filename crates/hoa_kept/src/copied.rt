// The kept edges by states, into the lent tables. Relies on `held`.
ghost use Rattle.hoa_kept.specs.inner.Copied.{Fitting, RowsCopied};

use crate::held::RowsSoFar;

// The kept edges, state by state.
pub fn copy_rows(rows: &RowsSoFar, from: &mut [u32], to: &mut [u32], marks: &mut [u32])
    requires { Fitting rows.now.count rows.now.firsts rows.now.ends rows.now.tos rows.now.sets from.old to.old marks.old }
    ensures { RowsCopied rows.now.count rows.now.firsts rows.now.ends rows.now.tos rows.now.sets from.new to.new marks.new }
{
    let mut m = 0;
    for q in 0..rows.count {
        let first = rows.firsts[q].saturating_sub(1);
        let end = rows.ends[q];
        let next = m + (end - first);
        from[m..next].fill(q as u32);
        to[m..next].copy_from_slice(&rows.tos[first..end]);
        marks[m..next].copy_from_slice(&rows.sets[first..end]);
        m = next;
    }
}
