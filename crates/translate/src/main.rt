// The program translate: reads a job text of the kind buchi from standard input and writes the translated job text to standard output, or the printed
// refusal. It only reads, calls `translate_text` and writes: what comes back for a text is promised there, and by `serve` that just this is written for what
// was read. A read or a write that fails is told on standard error, and the program ends with a status that is not 0.
#![tactic(auto)]

ghost use Rattle.std.proofs.Common.{arith};
ghost use Rattle.std.specs.Prelude.{◌≡◌};
ghost use Rattle.translate_text.specs.Turned.{Turned};
ghost use Rattle.text_input.specs.Served.{Served};

use std::io::{Read, Write};
use std::process::ExitCode;
use text_input::SizedProgram;
use translate_text::{MOST_WRITTEN, translate_text};

// One byte more than a text may have: with so many it is refused whatever follows, and nothing more is read.
const MOST_READ: usize = 12289;

// A job text, translated.
struct Translate;

impl SizedProgram<MOST_READ, MOST_WRITTEN> for Translate {
    ghost sizes = { (omega arith, omega arith) };

    ghost Reply = { Turned };

    const UNREAD: &'static str = "translate: the job could not be read";

    const UNWRITTEN: &'static str = "translate: the text could not be written";

    fn reply(text: &[u8], out: &mut [u8; MOST_WRITTEN]) -> usize {
        translate_text(text, out)
    }
}

// Reads the input and answers what was read.
fn serve<R: Read, W: Write>(rt: &impl Eprint, input: &mut R, output: &mut W) -> ExitCode
    ensures { result ≡ ExitCode.SUCCESS → Served MOST_READ Turned (R.remaining input.old) (R.remaining input.new)
        (W.contents output.old) (W.contents output.new) }
{
    text_input::serve_sized::<Translate, MOST_READ, MOST_WRITTEN, _, R, W>(rt, input, output)
}

fn main(rt: HostRuntime) -> ExitCode {
    serve(&rt, &mut rt.stdin(), &mut rt.stdout())
}
