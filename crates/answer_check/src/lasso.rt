// A lasso named by the bytes of its two lists: closed, with the marks on its cycle, or its first fault. Relies on `walk`.
ghost use Rattle.std.specs.Prelude.{◌≡◌};
ghost use Rattle.std.proofs.Math.Option.{some};
ghost use Rattle.table.specs.inner.Looks.{Even};
ghost use Rattle.answer_form.specs.Given.{list_given};
ghost use Rattle.answer_check.specs.inner.{Lies, afresh, Through, Named, KnotSays, TurnedSays};

use crate::Fault;
use crate::walk::{Place, set_out, walk};

// The first fault of a lasso and its position.
#[derive(Clone, Copy)]
pub(crate) struct Flaw {
    pub fault: Fault,
    pub position: usize,
}

// The marks on the cycle, by where its walk from the knot arrives; or what is wrong with it.
fn closed(knot: Place, end: Place, count: usize) -> Result<u32, Flaw>
    ensures { (g : Named) → KnotSays g knot → Through g.table (afresh knot) g.cycle end count → TurnedSays g result }
{
    if count == 0 {
        return Err(Flaw {
            fault: Fault::Empty,
            position: 0,
        });
    }
    if end.state != knot.state {
        return Err(Flaw {
            fault: Fault::Cycle,
            position: count,
        });
    }
    Ok(end.union)
}

// The cycle, walked from the knot; marks before it do not count.
fn turn(cycle: &[u8], knot: Place, from: &[u32], to: &[u32], marks: &[u32]) -> Result<u32, Flaw>
    requires { Even from.now to.now marks.now }
    ensures { (g : Named) → Lies g.table from.now to.now marks.now → KnotSays g knot → list_given cycle.now ≡ some g.cycle → TurnedSays g result }
{
    let begin = Place { union: 0, ..knot };
    match walk(cycle, begin, from, to, marks) {
        Ok(walked) => closed(knot, walked.place, walked.count),
        Err(position) => Err(Flaw {
            fault: Fault::Cycle,
            position,
        }),
    }
}

// The prefix, walked from the start, and then the cycle: the marks on a closed one, or the first fault.
pub(crate) fn check_lasso(
    prefix: &[u8],
    cycle: &[u8],
    start: u32,
    from: &[u32],
    to: &[u32],
    marks: &[u32],
) -> Result<u32, Flaw>
    requires { Even from.now to.now marks.now }
    ensures { (g : Named) → Lies g.table from.now to.now marks.now → g.table.start ≡ start → list_given prefix.now ≡ some g.prefix → list_given cycle.now ≡ some g.cycle → TurnedSays g result }
{
    match walk(prefix, set_out(start), from, to, marks) {
        Ok(walked) => turn(cycle, walked.place, from, to, marks),
        Err(position) => Err(Flaw {
            fault: Fault::Prefix,
            position,
        }),
    }
}
