// The program check_answer: reads a job text with an answer behind it from standard input and writes what checking the answer gives to standard output. It only reads,
// calls `check_text` and writes: what is printed for an input is promised there, and by `serve` that just this is written for what was read. A read or a write that fails
// is told on standard error, and the program ends with a status that is not 0; an input that could not be read gets no answer.
#![tactic(auto)]

ghost use Rattle.std.proofs.Common.{arith};
ghost use Rattle.std.specs.Prelude.{◌≡◌};
ghost use Rattle.check_text.specs.Replied.{CheckReplied};
ghost use Rattle.text_input.specs.Served.{Served};

use check_text::{MOST_CHECKED, check_text};
use std::io::{Read, Write};
use std::process::ExitCode;
use text_input::SizedProgram;

// One byte more than the longest job (12,288) and the longest answer text (65,536) have together: with so many, whatever follows changes nothing
// (crates/check_text/proofs/Settled.antt).
const MOST_READ: usize = 77825;

// A job text with an answer behind it, checked.
struct CheckAnswer;

impl SizedProgram<MOST_READ, MOST_CHECKED> for CheckAnswer {
    ghost sizes = { (omega arith, omega arith) };

    ghost Reply = { CheckReplied };

    const UNREAD: &'static str = "check_answer: the input could not be read";

    const UNWRITTEN: &'static str = "check_answer: the result could not be written";

    fn reply(text: &[u8], out: &mut [u8; MOST_CHECKED]) -> usize {
        check_text(text, out)
    }
}

// Reads the input and answers what was read.
fn serve<R: Read, W: Write>(rt: &impl Eprint, input: &mut R, output: &mut W) -> ExitCode
    ensures { result ≡ ExitCode.SUCCESS → Served MOST_READ CheckReplied (R.remaining input.old) (R.remaining input.new)
        (W.contents output.old) (W.contents output.new) }
{
    text_input::serve_sized::<CheckAnswer, MOST_READ, MOST_CHECKED, _, R, W>(rt, input, output)
}

fn main(rt: HostRuntime) -> ExitCode {
    serve(&rt, &mut rt.stdin(), &mut rt.stdout())
}
