// Whether the marks on a cycle meet a condition, for Rabin with the pair that is named. Relies on `marks`.
ghost use Rattle.std.specs.Prelude.{◌≡◌, true, false, ◌↔◌, ℕ, ◌+◌, ◌*◌, ◌≤◌, ◌<◌};
ghost use Rattle.marks.specs.Mark.{Has, width};
ghost use Rattle.table.specs.declared.Acceptance.TheVariants as acceptance;
ghost use Rattle.table.specs.Condition.{dealt};
ghost use Rattle.table.specs.Refusal.{most_streett, most_rabin, wrong_condition};
ghost use Rattle.answer_check.specs.Fault.{Meets};

use marks::{covers, first_marks, has_mark};
use table::Acceptance;

// Streett, one pair: if its left mark is there, so is its right mark.
fn answers(union: u32, i: u32) -> bool
    requires { i < most_streett }
    ensures { (result ≡ true) ↔ (Has (2 * i) union → Has (2 * i + 1) union) }
{
    !has_mark(union, 2 * i) || has_mark(union, 2 * i + 1)
}

// Streett: each pair.
fn meets_streett(union: u32, p: u32) -> bool
    requires { p ≤ most_streett }
    ensures { (result ≡ true) ↔ ((i : ℕ) → i < p → Has (2 * i) union → Has (2 * i + 1) union) }
{
    for i in 0..p {
        if !answers(union, i) {
            return false;
        }
    }
    true
}

// How many marks are dealt out before the pair: its forbidden mark.
#[tactic(auto, using(crate::proofs::Conditions::dealt_next, crate::proofs::Conditions::dealt_within))]
fn forbidden(pair: u32, needs: [u32; 8]) -> u32
    requires pair_le_most_rabin { pair ≤ most_rabin }
    requires pair_bound { dealt needs pair ≤ width }
    ensures { result ≡ dealt needs pair }
{
    let mut mark: u32 = 0;
    for need in &needs[..pair as usize] {
        mark += 1 + *need;
    }
    mark
}

// Whether so many marks from the first on are all there.
fn all_there(union: u32, first: u32, count: u32) -> bool
    requires { first + count ≤ width }
    ensures { (result ≡ true) ↔ ((j : ℕ) → j < count → Has (first + j) union) }
{
    for j in 0..count {
        if !has_mark(union, first + j) {
            return false;
        }
    }
    true
}

// Rabin: the named pair is one of the condition's, its forbidden mark is not there, and its needed marks are.
#[tactic(auto, using(crate::proofs::Conditions::dealt_up, crate::proofs::Conditions::dealt_few, crate::proofs::Conditions::dealt_within))]
fn meets_pair(union: u32, p: u32, needs: [u32; 8], pair: u32) -> bool
    requires { wrong_condition (acceptance.Rabin p) needs ≡ false }
    ensures { (result ≡ true) ↔ Meets (acceptance.Rabin p) needs union pair }
{
    if p <= pair {
        return false;
    }
    let mark = forbidden(pair, needs);
    !has_mark(union, mark) && all_there(union, mark + 1, needs[pair as usize])
}

// Whether the marks meet the condition.
pub(crate) fn meets(union: u32, condition: Acceptance, needs: [u32; 8], pair: u32) -> bool
    requires { wrong_condition condition needs ≡ false }
    ensures { (result ≡ true) ↔ Meets condition needs union pair }
{
    match condition {
        Acceptance::Buchi(k) => covers(union, first_marks(k)),
        Acceptance::Streett(p) => meets_streett(union, p),
        Acceptance::Rabin(p) => meets_pair(union, p, needs, pair),
    }
}
