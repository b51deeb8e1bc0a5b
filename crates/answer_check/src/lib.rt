// The checker of answers (docs/RULES.md, "An answer that is checked"): whether an answer text names an accepted lasso of a job's table, and if not, the first
// fault. Nothing is searched and nothing stored: the answer's bytes are read once for their form and once along the edges. Relies on `job_text` for the job, on
// `table` for rows 1 to 7 and on `answer_form` for the form. What is well formed is in answer_form's specs/Form.antt, what the faults are in specs/Fault.antt, the
// whole promise in specs/Checking.antt.
#![tactic(auto)]

mod condition;
mod lasso;
mod walk;

ghost use Rattle.std.specs.Prelude.{◌≡◌, false};
ghost use Rattle.table.specs.Table.{Table, lent};
ghost use Rattle.table.specs.Refusal.{refusal, wrong_condition};
ghost use Rattle.table.specs.inner.Looks.{Even};
ghost use Rattle.answer_check.specs.Fault.{Judged};
ghost use Rattle.answer_check.specs.Checking.{Told, ByCause, Checks};
ghost use Rattle.answer_check.specs.inner.{Named, Lies, TurnedSays};

use crate::condition::meets;
use crate::lasso::{Flaw, check_lasso};
use answer_form::{Form, read_answer};
use answer_text::is_rabin;
use job_text::reader::read;
use table::Acceptance;

// What is wrong with a run: its prefix breaks, its cycle is empty, its cycle breaks or does not close, or the condition is not met.
#[derive(Clone, Copy)]
pub enum Fault {
    Prefix,
    Empty,
    Cycle,
    Condition,
}

// What checking gives: the answer is accepted; or its first fault, with its position; or number, place and column of a refusal.
#[derive(Clone, Copy)]
pub enum Checked {
    Accepted,
    Rejected {
        fault: Fault,
        position: usize,
    },
    Refused {
        number: u32,
        place: u32,
        column: u32,
    },
}

// What becomes of a run, by its lasso and the condition.
fn conclude(turned: Result<u32, Flaw>, condition: Acceptance, needs: [u32; 8], pair: u32) -> Checked
    requires { wrong_condition condition needs ≡ false }
    ensures { (g : Named) → TurnedSays g turned → Judged g.table condition needs pair g.prefix g.cycle result }
{
    match turned {
        Err(Flaw { fault, position }) => Checked::Rejected { fault, position },
        Ok(union) if meets(union, condition, needs, pair) => Checked::Accepted,
        Ok(_) => Checked::Rejected {
            fault: Fault::Condition,
            position: 0,
        },
    }
}

// What an answer text is told for a table that rows 1 to 7 let pass.
fn check_sound(
    answer: &[u8],
    start: u32,
    from: &[u32],
    to: &[u32],
    marks: &[u32],
    condition: Acceptance,
    needs: [u32; 8],
) -> Checked
    requires even { Even from.now to.now marks.now }
    requires needs_value { wrong_condition condition needs ≡ false }
    ensures { (t : Table) → Lies t from.now to.now marks.now → t.start ≡ start → Told t condition needs answer.now result }
{
    match read_answer(answer, is_rabin(condition)) {
        None => Checked::Refused {
            number: 50,
            place: 0,
            column: 0,
        },
        Some(Form::NoRun) => Checked::Refused {
            number: 51,
            place: 0,
            column: 0,
        },
        Some(
            Form::Run {
                pair,
                prefix,
                middle,
                cycle,
                last,
            },
        ) => {
            let turned = check_lasso(
                &answer[prefix..middle],
                &answer[cycle..last],
                start,
                from,
                to,
                marks,
            );
            conclude(turned, condition, needs, pair)
        }
    }
}

// What an answer text is told for a table: rows 1 to 7 first.
fn check_table(
    states: u32,
    start: u32,
    from: &[u32],
    to: &[u32],
    marks: &[u32],
    condition: Acceptance,
    needs: [u32; 8],
    answer: &[u8],
) -> Checked
    ensures { ByCause (refusal (lent states start from.now to.now marks.now) condition needs) (lent states start from.now to.now marks.now) condition needs answer.now result }
{
    match table::check(states, start, from, to, marks, condition, needs) {
        Err(cause) => Checked::Refused {
            number: cause.number,
            place: cause.place,
            column: 0,
        },
        Ok(()) => check_sound(answer, start, from, to, marks, condition, needs),
    }
}

// Whether the answer text names an accepted lasso of the table that the job text says. For every two texts: what the job's reader and rows 1 to 7 refuse is told
// first, then 50 and 51, then the first fault.
pub fn check_answer(job: &[u8], answer: &[u8]) -> Checked
    ensures { Checks job.now answer.now result }
{
    let mut from = [0u32; 512];
    let mut to = [0u32; 512];
    let mut marks = [0u32; 512];
    let read = read(job, &mut from, &mut to, &mut marks);
    if let Err(cause) = read.finding {
        return Checked::Refused {
            number: cause.number,
            place: cause.place,
            column: read.column,
        };
    }
    let m = read.edges as usize;
    let condition = read.condition;
    let needs = read.needs;
    check_table(
        read.states,
        read.start,
        &from[0..m],
        &to[0..m],
        &marks[0..m],
        condition,
        needs,
        answer,
    )
}
