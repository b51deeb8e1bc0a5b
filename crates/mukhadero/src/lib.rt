// The C face, as include/mukhadero.h declares it: the proved judge and the proved translation under C names, with their answers in plain numbers (`face`).
// Each function takes any input; relies on `judging` and `one_mark` for all that it says. The Hanoi format is in `hanoi`, the job text in `job`.
// The judges differ in the kind alone, and so do the writers in `hanoi`: C calls each kind by a name of its own, and each is one call of what serves all kinds.
#![tactic(auto)]

mod hanoi;
mod job;

ghost use Rattle.std.specs.Prelude.{◌≡◌};
ghost use Rattle.table.specs.Table.{lent};
ghost use Rattle.mukhadero.specs.Numbers.{JudgeTells, no_needs, TranslationTells};

use face::{AnswerNumbers, TableNumbers, answer_numbers, table_numbers};
use judging::judge;
use marks::Marks;
use one_mark::translate;
use table::Acceptance;

// 2.0.0: 10,000 for the major number, 100 for the minor, 1 for the patch; as MUKHADERO_VERSION of the header
const VERSION: u32 = 20000;

// The version of this archive.
#[unsafe(no_mangle)]
pub extern "C" fn mukhadero_version() -> u32
    ensures { result ≡ 20000 }
{
    VERSION
}

// Judges a table under Büchi k.
#[unsafe(no_mangle)]
pub extern "C" fn mukhadero_judge_buchi(
    n: u32,
    start: u32,
    from: &[u32],
    to: &[u32],
    marks: &[Marks],
    k: u32,
    room: &mut [u32],
    scratch: &mut [u32],
) -> AnswerNumbers
    ensures { JudgeTells (lent n start from.now to.now marks.now) (Acceptance.Buchi k) no_needs
        room.old room.new scratch.old scratch.new result }
{
    let answer = judge(
        n,
        start,
        from,
        to,
        marks,
        Acceptance::Buchi(k),
        [0; 8],
        room,
        scratch,
    );
    answer_numbers(answer)
}

// Judges a table under Streett p.
#[unsafe(no_mangle)]
pub extern "C" fn mukhadero_judge_streett(
    n: u32,
    start: u32,
    from: &[u32],
    to: &[u32],
    marks: &[Marks],
    p: u32,
    room: &mut [u32],
    scratch: &mut [u32],
) -> AnswerNumbers
    ensures { JudgeTells (lent n start from.now to.now marks.now) (Acceptance.Streett p) no_needs
        room.old room.new scratch.old scratch.new result }
{
    let answer = judge(
        n,
        start,
        from,
        to,
        marks,
        Acceptance::Streett(p),
        [0; 8],
        room,
        scratch,
    );
    answer_numbers(answer)
}

// Judges a table under Rabin p with these needs.
#[unsafe(no_mangle)]
pub extern "C" fn mukhadero_judge_rabin(
    n: u32,
    start: u32,
    from: &[u32],
    to: &[u32],
    marks: &[Marks],
    p: u32,
    needs: &[u32; 8],
    room: &mut [u32],
    scratch: &mut [u32],
) -> AnswerNumbers
    ensures { JudgeTells (lent n start from.now to.now marks.now) (Acceptance.Rabin p) needs.now
        room.old room.new scratch.old scratch.new result }
{
    let dealt = *needs;
    let answer = judge(
        n,
        start,
        from,
        to,
        marks,
        Acceptance::Rabin(p),
        dealt,
        room,
        scratch,
    );
    answer_numbers(answer)
}

// Translates a table with k marks into three lent outputs, to be read as Büchi 1.
#[unsafe(no_mangle)]
pub extern "C" fn mukhadero_one_mark(
    n: u32,
    start: u32,
    from: &[u32],
    to: &[u32],
    marks: &[Marks],
    k: u32,
    leaves: &mut [u32],
    arrives: &mut [u32],
    bears: &mut [Marks],
) -> TableNumbers
    ensures { TranslationTells (lent n start from.now to.now marks.now) k
        leaves.old arrives.old bears.old result leaves.new arrives.new bears.new }
{
    let answer = translate(n, start, from, to, marks, k, leaves, arrives, bears);
    table_numbers(answer)
}
