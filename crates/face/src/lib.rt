// What the C face tells, in plain numbers: the structs of include/mukhadero.h, and the numbers of a judge's answer and of the translation's. Those of the
// Hanoi format and of the writers are in `hanoi`. Each function takes any input; docs/PROOFS.md cites them by their names, so they are no `From`.
#![tactic(auto)]

pub mod hanoi;

ghost use Rattle.std.specs.Prelude.{◌≡◌};
ghost use Rattle.face.specs.Numbers.{answer_numbers, table_numbers};

use one_mark::Translation;
use table::{Answer, Refusal, Verdict};

const REFUSED: u32 = 0;

const EMPTY: u32 = 1;

const RUN: u32 = 2;

pub(crate) const ANSWERED: u32 = 0;

// `mukhadero_answer`: a field that has no meaning for the verdict is 0.
#[repr(C)]
#[derive(Clone, Copy, Default)]
pub struct AnswerNumbers {
    pub verdict: u32,
    pub number: u32,
    pub place: u32,
    pub pair: u32,
    // edges of the prefix
    pub prefix: u32,
    // edges of the cycle
    pub cycle: u32,
    // how deep the erasing went
    pub depth: u32,
}

// `mukhadero_table`: all but number and place are 0 if it was refused.
#[repr(C)]
#[derive(Clone, Copy, Default)]
pub struct TableNumbers {
    pub number: u32,
    pub place: u32,
    pub states: u32,
    pub edges: u32,
    pub start: u32,
}

// A judge's answer in plain numbers.
pub fn answer_numbers(answer: Answer) -> AnswerNumbers
    ensures { result ≡ answer_numbers answer }
{
    let depth = answer.depth;
    let none = AnswerNumbers {
        depth,
        ..AnswerNumbers::default()
    };
    match answer.verdict {
        Verdict::Run {
            prefix,
            cycle,
            pair,
        } => AnswerNumbers {
            verdict: RUN,
            pair,
            prefix,
            cycle,
            ..none
        },
        Verdict::Empty => AnswerNumbers {
            verdict: EMPTY,
            ..none
        },
        Verdict::Refused { number, place } => AnswerNumbers {
            verdict: REFUSED,
            number,
            place,
            ..none
        },
    }
}

// The translation's answer in plain numbers.
pub fn table_numbers(answer: Result<Translation, Refusal>) -> TableNumbers
    ensures { result ≡ table_numbers answer }
{
    let none = TableNumbers::default();
    match answer {
        Ok(made) => TableNumbers {
            number: ANSWERED,
            states: made.states,
            edges: made.edges,
            start: made.start,
            ..none
        },
        Err(cause) => TableNumbers {
            number: cause.number,
            place: cause.place,
            ..none
        },
    }
}
