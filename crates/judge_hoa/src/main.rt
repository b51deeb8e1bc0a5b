// The program judge_hoa: reads a text of the Hanoi format from standard input and writes its printed answer to standard output. It only reads, calls
// `judge_text` and writes: what is printed for a text is promised there, and by `serve` that just this is written for what was read. A read or a write that
// fails is told on standard error, and the program ends with a status that is not 0; a text that could not be read gets no answer.
#![tactic(auto)]

ghost use Rattle.std.proofs.Common.{arith};
ghost use Rattle.std.specs.Prelude.{◌≡◌};
ghost use Rattle.judge_text.specs.HoaReplied.{HoaReplied};
ghost use Rattle.text_input.specs.Served.{Served};

use judge_text::{MOST_PRINTED, judge_hoa};
use std::io::{Read, Write};
use std::process::ExitCode;
use text_input::SizedProgram;

// One byte more than a text may have: with so many it is refused whatever follows, and nothing more is read.
const MOST_READ: usize = 1048577;

// A text of the Hanoi format, judged.
struct JudgeHoa;

impl SizedProgram<MOST_READ, MOST_PRINTED> for JudgeHoa {
    ghost sizes = { (omega arith, omega arith) };

    ghost Reply = { HoaReplied };

    const UNREAD: &'static str = "judge_hoa: the text could not be read";

    const UNWRITTEN: &'static str = "judge_hoa: the answer could not be written";

    fn reply(text: &[u8], out: &mut [u8; MOST_PRINTED]) -> usize {
        judge_hoa(text, out)
    }
}

// Reads the input and answers what was read.
fn serve<R: Read, W: Write>(rt: &impl Eprint, input: &mut R, output: &mut W) -> ExitCode
    ensures { result ≡ ExitCode.SUCCESS → Served MOST_READ HoaReplied (R.remaining input.old) (R.remaining input.new)
        (W.contents output.old) (W.contents output.new) }
{
    text_input::serve_sized::<JudgeHoa, MOST_READ, MOST_PRINTED, _, R, W>(rt, input, output)
}

fn main(rt: HostRuntime) -> ExitCode {
    serve(&rt, &mut rt.stdin(), &mut rt.stdout())
}
