// The INT of AP: and its names. Relies on `token`, and on the crates `hoa_step` and `hoa_tokens`.
ghost use Rattle.std.specs.Prelude.{◌≤◌, length};
ghost use Rattle.hoa_value.specs.inner.Values.{PropsRead};
ghost use Rattle.hoa_value.specs.inner.Names.{OneName, NamesOver, NamesRead};

use crate::token::{is_text, look, misplaced};
use crate::value::Counted;
use hoa_step::{IntAt, read_int};
use hoa_tokens::BadToken;

const MOST_PROPS: u32 = 6;

// A name, which stands between quotes, and the byte behind them.
#[derive(Clone, Copy)]
struct NameRead<'a> {
    name: &'a [u8],
    next: usize,
}

// A further name, which is none of those before it; those are too few.
fn read_one<'a>(text: &'a [u8], at: usize, before: &[&[u8]]) -> Result<NameRead<'a>, BadToken>
    requires { at ≤ length text.now }
    ensures { OneName text.now before.now at result }
{
    let spot = look(text, at);
    if !is_text(spot.piece) {
        return Err(misplaced(spot, 41));
    }
    let name = &text[spot.first + 1..spot.next - 1];
    if before.contains(&name) {
        return Err(BadToken {
            number: 41,
            place: spot.first,
        });
    }
    Ok(NameRead {
        name,
        next: spot.next,
    })
}

// Behind all names stands no further one.
fn names_over(text: &[u8], at: usize) -> Result<usize, BadToken>
    requires { at ≤ length text.now }
    ensures { NamesOver text.now at result }
{
    let spot = look(text, at);
    if is_text(spot.piece) {
        return Err(BadToken {
            number: 41,
            place: spot.first,
        });
    }
    Ok(at)
}

// The `count` names, and the byte behind them.
fn read_names(text: &[u8], at: usize, count: usize) -> Result<usize, BadToken>
    requires { (count ≤ 6) × (at ≤ length text.now) }
    ensures { NamesRead text.now at count result }
{
    let mut names: [&[u8]; 6] = [b""; 6];
    let mut next = at;
    for i in 0..count {
        let read = read_one(text, next, &names[..i])?;
        names[i] = read.name;
        next = read.next;
    }
    names_over(text, next)
}

// The INT of AP: and its names.
pub fn read_props(text: &[u8], at: usize) -> Result<Counted, BadToken>
    requires { at ≤ length text.now }
    ensures { PropsRead text.now at result }
{
    let IntAt { value, place, next } = read_int(text, at)?;
    if MOST_PROPS < value {
        return Err(BadToken { number: 42, place });
    }
    let next = read_names(text, next, value as usize)?;
    Ok(Counted { value, next })
}
