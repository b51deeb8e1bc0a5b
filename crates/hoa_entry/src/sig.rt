// Signatures: the marks between `{` and `}`. Relies on `token` and on the crate `hoa_tokens`.
ghost use Rattle.std.specs.Prelude.{◌≡◌, List, ℕ};
ghost use Rattle.hoa_tokens.specs.Stream.{token_of};
ghost use Rattle.hoa_entry.specs.Sig.{with_mark, sig_sign, sig_step};
ghost use Rattle.hoa_entry.specs.inner.Reads.{sig_step_of, SigAt};

use hoa_tokens::{BadToken, Kind, Sign, token_at};

// What a token does in a sig: more marks, the sig's marks, or a fault.
#[derive(Clone, Copy)]
pub enum SigTurn {
    Go(u32),
    Shut(u32),
    Wrong(u32),
}

// The marks of a sig, and the byte behind it.
#[derive(Clone, Copy)]
pub struct SigRead {
    pub marks: u32,
    pub next: usize,
}

// The marks, and mark i.
fn with_mark(marks: u32, i: u32) -> u32
    ensures { result ≡ with_mark marks i }
{
    if i < 32 { marks | (1 << i) } else { marks }
}

// What a mark of one byte does in a sig.
fn sig_sign(sign: Sign, marks: u32) -> SigTurn
    ensures { sig_step_of result ≡ sig_sign marks sign }
{
    match sign {
        Sign::BraceRight => SigTurn::Shut(marks),
        _ => SigTurn::Wrong(40),
    }
}

// What a token does in a sig, behind these marks.
#[tactic(auto, unfolding(crate::specs::Sig::sig_step))]
fn sig_token(kind: Kind, c: u32, marks: u32) -> SigTurn
    ensures { (text : List ℕ) (p q : ℕ) → sig_step_of result ≡ sig_step c marks (token_of text p q kind) }
{
    match kind {
        Kind::Int(i) if i < c => SigTurn::Go(with_mark(marks, i)),
        Kind::Sign(sign) => sig_sign(sign, marks),
        Kind::Int(_) | Kind::Abort => SigTurn::Wrong(41),
        _ => SigTurn::Wrong(40),
    }
}

// The marks of a sig, behind its `{`, with those that were there before it, or its refusal.
pub(crate) fn read_sig(text: &[u8], at: usize, c: u32, before: u32) -> Result<SigRead, BadToken>
    ensures { SigAt text.now at c before result }
{
    let mut marks = before;
    let mut place = at;
    loop {
        let found = token_at(text, place);
        match sig_token(found.kind, c, marks) {
            SigTurn::Go(more) => {
                marks = more;
                place = found.next;
            }
            SigTurn::Shut(marks) => {
                return Ok(SigRead {
                    marks,
                    next: found.next,
                });
            }
            SigTurn::Wrong(number) => {
                return Err(BadToken {
                    number,
                    place: found.first,
                });
            }
        }
    }
}
