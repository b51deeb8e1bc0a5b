// The INT of Acceptance: and its formula. Relies on `token`, and on the crates `hoa_step` and `hoa_formula`.
ghost use Rattle.std.specs.Prelude.{◌≤◌, length};
ghost use Rattle.hoa_value.specs.inner.Values.{MarksRead};

use crate::token::{look, misplaced};
use hoa_formula::{FormulaRead, read_formula};
use hoa_step::{IntAt, read_int};
use hoa_tokens::BadToken;
use table::Acceptance;

const MOST_MARKS: u32 = 32;

// The number of marks, the condition with its needs, and the byte behind the formula.
#[derive(Clone, Copy)]
pub struct Formed {
    pub marks: u32,
    pub condition: Acceptance,
    pub needs: [u32; 8],
    pub next: usize,
}

// The INT of Acceptance: and its formula.
pub fn read_marks(text: &[u8], at: usize) -> Result<Formed, BadToken>
    requires { at ≤ length text.now }
    ensures { MarksRead text.now at result }
{
    let IntAt {
        value: marks,
        place,
        next: formula_at,
    } = read_int(text, at)?;
    if MOST_MARKS < marks {
        return Err(BadToken { number: 42, place });
    }
    match read_formula(text, formula_at, marks)? {
        FormulaRead::Standard {
            condition,
            needs,
            next,
        } => Ok(Formed {
            marks,
            condition,
            needs,
            next,
        }),
        FormulaRead::Short { next } => Err(misplaced(look(text, next), 41)),
    }
}
