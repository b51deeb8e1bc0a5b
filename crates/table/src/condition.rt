// Row 4, and how many marks a condition uses.
ghost use Rattle.std.specs.Prelude.{◌≡◌, true, false, ◌≤◌, drop};
ghost use Rattle.table.specs.Condition.{dealt};
ghost use Rattle.table.specs.Refusal.{some_need, used, wrong_condition, most_rabin};

use crate::Acceptance;
use marks::WIDTH;

const MOST_STREETT: u32 = 16;

const MOST_RABIN: u32 = 8;

// Whether a need from pair p on is not 0.
fn some_need(p: u32, needs: [u32; 8]) -> bool
    requires { p ≤ most_rabin }
    ensures { result ≡ some_need (drop p needs) }
{
    needs.iter().skip(p as usize).any(|need| 0 < *need)
}

// How many marks are dealt out before pair p.
fn dealt_before(p: u32, needs: [u32; 8]) -> u64
    requires { p ≤ most_rabin }
    ensures { result ≡ dealt needs p }
{
    let mut sum: u64 = 0;
    for need in &needs[..p as usize] {
        sum += 1 + u64::from(*need);
    }
    sum
}

// Row 4 for Rabin.
fn wrong_rabin(p: u32, needs: [u32; 8]) -> bool
    ensures { result ≡ wrong_condition (Acceptance.Rabin p) needs }
{
    MOST_RABIN < p || some_need(p, needs) || u64::from(WIDTH) < dealt_before(p, needs)
}

// Row 4.
pub(crate) fn wrong_condition(condition: Acceptance, needs: [u32; 8]) -> bool
    ensures { result ≡ wrong_condition condition needs }
{
    match condition {
        Acceptance::Buchi(k) => WIDTH < k,
        Acceptance::Streett(p) => MOST_STREETT < p,
        Acceptance::Rabin(p) => wrong_rabin(p, needs),
    }
}

// How many marks a condition that row 4 lets pass uses.
pub(crate) fn used_marks(condition: Acceptance, needs: [u32; 8]) -> u32
    requires { wrong_condition condition needs ≡ false }
    ensures { result ≡ used condition needs }
{
    match condition {
        Acceptance::Buchi(k) => k,
        Acceptance::Streett(p) => 2 * p,
        Acceptance::Rabin(p) => dealt_before(p, needs) as u32,
    }
}
