// What stands between tokens: blanks and comments, which nest. Relies on `bytes`.
ghost use Rattle.std.specs.Prelude.{◌≡◌};
ghost use Rattle.hoa_tokens.specs.inner.Reads.{gap_from, ahead_gap, Inside, Spotted, CommentAt, HopAt};

use crate::bytes::is_blank;

// A place in a comment, and how many comments are open there.
#[derive(Clone, Copy)]
struct Spot {
    at: usize,
    depth: usize,
}

// The place behind what stands at `at` in a comment, and how many comments are open there. Most bytes are neither `/` nor `*`, so one look tells.
fn inside(text: &[u8], at: usize, depth: usize) -> Spot
    requires { Inside text.now at depth }
    ensures { Spotted text.now at depth result }
{
    let rest = &text[at..];
    if text[at] == b'/' && rest.starts_with(b"/*") {
        Spot {
            at: at + 2,
            depth: depth + 1,
        }
    } else if text[at] == b'*' && rest.starts_with(b"*/") {
        Spot {
            at: at + 2,
            depth: depth - 1,
        }
    } else {
        Spot { at: at + 1, depth }
    }
}

// The end of the comment whose `/*` stands before `at`, if it ends.
fn comment_end(text: &[u8], at: usize) -> Option<usize>
    ensures { CommentAt text.now at result }
{
    let mut depth = 1;
    let mut i = at;
    while 0 < depth {
        if text.len() <= i {
            return None;
        }
        let spot = inside(text, i, depth);
        i = spot.at;
        depth = spot.depth;
    }
    Some(i)
}

// The place behind the blank or the comment at `at`, if one stands there, or that of a comment that is never closed.
fn pass(text: &[u8], at: usize) -> Result<Option<usize>, usize>
    ensures { HopAt text.now at result }
{
    if text.len() <= at {
        return Ok(None);
    }
    if is_blank(text[at]) {
        return Ok(Some(at + 1));
    }
    if text[at] != b'/' || !text[at..].starts_with(b"/*") {
        return Ok(None);
    }
    match comment_end(text, at + 2) {
        Some(next) => Ok(Some(next)),
        None => Err(at),
    }
}

// The end of the blanks and comments from `at` on, or the outermost comment that is never closed.
pub(crate) fn skip(text: &[u8], at: usize) -> Result<usize, usize>
    ensures { gap_from text.now at 0 ≡ ahead_gap result }
{
    let mut i = at;
    while let Some(next) = pass(text, i)? {
        i = next;
    }
    Ok(i)
}
