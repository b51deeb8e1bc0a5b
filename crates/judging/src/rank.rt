// r of docs/RULES.md: how many marks a cycle may have to be led past.
ghost use Rattle.std.specs.Prelude.{◌≡◌};
ghost use Rattle.hunting.specs.Rank.{largest, rank};

use sentencing::depth::larger;
use table::Acceptance;

// The largest of the eight needs.
fn largest_need(needs: [u32; 8]) -> u32
    ensures { result ≡ largest needs }
{
    let mut most: u32 = 0;
    for need in needs {
        most = larger(most, need);
    }
    most
}

// k for Büchi, p for Streett, the largest need for Rabin.
pub(crate) fn rank_of(condition: Acceptance, needs: [u32; 8]) -> u32
    ensures { result ≡ rank condition needs }
{
    match condition {
        Acceptance::Buchi(k) => k,
        Acceptance::Streett(p) => p,
        Acceptance::Rabin(_p) => largest_need(needs),
    }
}
