// The needs of a Rabin formula's pairs, counted while its tokens are read. Relies on `step` and on the crate `hoa_standard`.
ghost use Rattle.std.specs.Prelude.{◌≡◌, ◌<◌};
ghost use Rattle.hoa_turn.specs.inner.Counts.{Room, Bounded, needed_to, begun_to, counted_to};

use crate::step::{Stage, opens_pair};
use hoa_standard::{Ahead, Piece};

// How many pairs have begun, and the number of Inf in each.
#[derive(Clone, Copy)]
pub struct Needs {
    pub pairs: u32,
    pub needs: [u32; 8],
}

// One Inf more in the last pair.
fn needed(n: Needs) -> Needs
    requires { Room n }
    ensures { result ≡ needed_to n }
{
    if n.pairs == 0 {
        return n;
    }
    let mut needs = n.needs;
    needs[(n.pairs - 1) as usize] += 1;
    Needs { needs, ..n }
}

// One pair more, which needs nothing yet.
fn begun(n: Needs) -> Needs
    requires { n.pairs < 8 }
    ensures { result ≡ begun_to n }
{
    Needs {
        pairs: n.pairs + 1,
        ..n
    }
}

// The needs behind a token, where the token was admitted.
pub fn counted(n: Needs, c: u32, atoms: u32, stage: Stage, p: Piece) -> Needs
    requires { Bounded n atoms stage }
    ensures { result ≡ counted_to n c atoms stage p }
{
    if c <= atoms {
        return n;
    }
    match (stage, p) {
        (Stage::Operand(a), Piece::Fin) if opens_pair(a) => begun(n),
        (Stage::Operand(Ahead::RabinInf { .. }), Piece::Inf) => needed(n),
        _ => n,
    }
}
