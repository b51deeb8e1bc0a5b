// Standard input as a text, and what the programs that read it share. Each hands the text on to a function on bytes, and writes what that makes of it.
#![tactic(auto)]

ghost use Rattle.std.specs.Prelude.{◌≡◌, ◌≤◌, ◌<◌, ◌^◌, ℕ, List, length};
ghost use Rattle.text_input.specs.Input.{Reads, Within};
ghost use Rattle.text_input.specs.Served.{Served, Wrote};

use std::io;
use std::io::{ErrorKind, Read, Write};
use std::process::ExitCode;

#[cfg(test)]
mod tests;

// Reads until the text is full or the input ends: how many bytes were read, or why a read failed.
pub fn read_input<R: Read>(from: &mut R, text: &mut [u8]) -> io::Result<usize>
    ensures within { Within (length text.old) result }
    ensures bytes { Reads (R.remaining from.old) (R.remaining from.new) result text.new }
{
    let mut at: usize = 0;
    while at < text.len() {
        let count = from.read(&mut text[at..])?;
        if count == 0 {
            break;
        }
        at += count;
    }
    Ok(at)
}

// Says in a line on standard error what failed and why; the status of a program that did not do its work.
pub fn fail(rt: &impl Eprint, what: &str, reason: io::Error) -> ExitCode
    ensures { result ≡ ExitCode.FAILURE }
{
    let _ = eprintln!(rt; "{what}: {reason}");
    ExitCode::FAILURE
}

// The most bytes that an array may have.
const MOST_ARRAY: usize = isize::MAX as usize;

// What a program writes for a text that it reads: a reply to every text, of at most ROOM bytes.
pub trait Program<const ROOM: usize> {
    // Whether the reply to a text may be what stands at the beginning of a buffer, up to a size.
    ghost Reply: { List ℕ → List ℕ → ℕ → Type 0 };

    // What is told where the text cannot be read ..
    const UNREAD: &'static str;

    // .. and where the reply cannot be written.
    const UNWRITTEN: &'static str;

    fn reply(text: &[u8], out: &mut [u8; ROOM]) -> usize
        ensures within { result ≤ ROOM }
        ensures says { Reply text.now out.new result };
}

// Reads a text of at most MOST bytes and writes the program's reply to it; what fails is told, and gives a status that is not 0. Sizes that no array may
// have are a failure too, told before anything is read.
pub fn serve<P: Program<ROOM>, const MOST: usize, const ROOM: usize, E: Eprint, R: Read, W: Write>(
    rt: &E,
    input: &mut R,
    output: &mut W,
) -> ExitCode
    ensures { result ≡ ExitCode.SUCCESS → Served MOST P.Reply (R.remaining input.old) (R.remaining input.new)
        (W.contents output.old) (W.contents output.new) }
{
    if MOST_ARRAY < MOST || MOST_ARRAY < ROOM {
        return fail(rt, P::UNREAD, ErrorKind::OutOfMemory.into());
    }
    let mut text = [0u8; MOST];
    match read_input(input, &mut text) {
        Ok(count) => write_reply::<P, ROOM, E, W>(rt, output, &text[..count]),
        Err(reason) => fail(rt, P::UNREAD, reason),
    }
}

// Writes the program's reply to a text.
fn write_reply<P: Program<ROOM>, const ROOM: usize, E: Eprint, W: Write>(
    rt: &E,
    output: &mut W,
    text: &[u8],
) -> ExitCode
    requires { ROOM < 2 ^ 63 }
    ensures { result ≡ ExitCode.SUCCESS → Wrote (P.Reply text.now) (W.contents output.old) (W.contents output.new) }
{
    let mut reply = [0u8; ROOM];
    let size = P::reply(text, &mut reply);
    match output.write_all(&reply[..size]) {
        Ok(()) => ExitCode::SUCCESS,
        Err(reason) => fail(rt, P::UNWRITTEN, reason),
    }
}

// As `Program`, of a program that tells both its sizes: a reply of at most ROOM bytes to every text, of which it reads at most MOST bytes.
pub trait SizedProgram<const MOST: usize, const ROOM: usize> {
    // An array may have so many bytes.
    ghost sizes: { (MOST < 2 ^ 63) × (ROOM < 2 ^ 63) };

    // Whether the reply to a text may be what stands at the beginning of a buffer, up to a size.
    ghost Reply: { List ℕ → List ℕ → ℕ → Type 0 };

    // What is told where the text cannot be read ..
    const UNREAD: &'static str;

    // .. and where the reply cannot be written.
    const UNWRITTEN: &'static str;

    fn reply(text: &[u8], out: &mut [u8; ROOM]) -> usize
        ensures within { result ≤ ROOM }
        ensures says { Reply text.now out.new result };
}

// As `serve`, for a program whose own law says that an array may have its sizes, so that none is looked at.
pub fn serve_sized<
    P: SizedProgram<MOST, ROOM>,
    const MOST: usize,
    const ROOM: usize,
    E: Eprint,
    R: Read,
    W: Write,
>(rt: &E, input: &mut R, output: &mut W) -> ExitCode
    ensures { result ≡ ExitCode.SUCCESS → Served MOST P.Reply (R.remaining input.old) (R.remaining input.new)
        (W.contents output.old) (W.contents output.new) }
{
    let mut text = [0u8; MOST];
    match read_input(input, &mut text) {
        Ok(count) => answer::<P, MOST, ROOM, E, W>(rt, output, &text[..count]),
        Err(reason) => fail(rt, P::UNREAD, reason),
    }
}

// Writes the program's reply to a text.
fn answer<P: SizedProgram<MOST, ROOM>, const MOST: usize, const ROOM: usize, E: Eprint, W: Write>(
    rt: &E,
    output: &mut W,
    text: &[u8],
) -> ExitCode
    ensures { result ≡ ExitCode.SUCCESS → Wrote (P.Reply text.now) (W.contents output.old) (W.contents output.new) }
{
    let mut out = [0u8; ROOM];
    let size = P::reply(text, &mut out);
    match output.write_all(&out[..size]) {
        Ok(()) => ExitCode::SUCCESS,
        Err(reason) => fail(rt, P::UNWRITTEN, reason),
    }
}
