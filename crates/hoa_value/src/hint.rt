// What is passed over: the words of acc-name:, properties: and unknown items, the STRINGs of tool: and name:. Relies on `token`, and on the crate `hoa_step`.
ghost use Rattle.std.specs.Prelude.{◌≤◌, length};
ghost use Rattle.hoa_value.specs.Heading.{items, acc_name, tool_text, name_text};
ghost use Rattle.hoa_value.specs.inner.Values.{Passes, HintsPassed};

use crate::token::{is_hint, is_text, is_word, look, misplaced};
use hoa_step::read_text;
use hoa_tokens::BadToken;

// The words from `at` on, and INTs and STRINGs too if so said: the place behind them.
pub fn pass_hints(text: &[u8], at: usize, ints: bool, texts: bool) -> usize
    requires { at ≤ length text.now }
    ensures { HintsPassed text.now at ints texts result }
{
    let mut next = at;
    loop {
        let spot = look(text, next);
        if !is_hint(spot.piece, ints, texts) {
            return next;
        }
        next = spot.next;
    }
}

// The WORD of acc-name:, then words and INTs: the byte behind them.
pub fn read_acc_name(text: &[u8], at: usize) -> Result<usize, BadToken>
    requires { at ≤ length text.now }
    ensures { Passes text.now at acc_name items result }
{
    let spot = look(text, at);
    if is_word(spot.piece) {
        Ok(pass_hints(text, spot.next, true, false))
    } else {
        Err(misplaced(spot, 40))
    }
}

// The STRING of name:, and the byte behind it.
#[tactic(auto, using(crate::proofs::Passing::name_passed))]
pub fn read_name(text: &[u8], at: usize) -> Result<usize, BadToken>
    requires { at ≤ length text.now }
    ensures { Passes text.now at name_text items result }
{
    read_text(text, at)
}

// The STRING of tool:, and perhaps a second one: the byte behind them.
pub fn read_tool(text: &[u8], at: usize) -> Result<usize, BadToken>
    requires { at ≤ length text.now }
    ensures { Passes text.now at tool_text items result }
{
    let next = read_text(text, at)?;
    let spot = look(text, next);
    if is_text(spot.piece) {
        Ok(spot.next)
    } else {
        Ok(next)
    }
}
