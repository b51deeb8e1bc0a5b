// The reader of answer texts, the inverse of the printer: whether a text is one that an answer of ours prints, and where a run's lists stand in it. Nothing is
// stored. Relies on `job_values` for numbers and for searching bytes. Which texts are ours is in specs/Form.antt, what the reader gives in
// specs/Given.antt. It serves `answer_check`.
#![tactic(auto)]

ghost use Rattle.std.specs.Prelude.{◌≡◌, false, ◌≤◌, length, drop};
ghost use Rattle.job_text.specs.Value.{number};
ghost use Rattle.job_values.specs.Given.{number_given};
ghost use Rattle.job_text.specs.Text.{fields};
ghost use Rattle.answer_form.specs.Given.{starts_with, ValueAt, step, steps, list_given, is_some, pair_given, ValuesAt, RunForm, where_given, refused_given, empty_given, no_run, FormOf};

use job_values::number::read_number;
use job_values::part::{alike, find};

const NEWLINE: u8 = 10;

const COMMA: u8 = 44;

// The number of a waiting edge. crates/table/specs/Table.antt has the same number, as `waiting`.
pub const WAITING: u32 = 65535;

// Where a value ends, and where what follows the word behind it begins.
#[derive(Clone, Copy)]
pub(crate) struct Value {
    pub end: usize,
    pub next: usize,
}

// Where a run's pair ends, where its prefix begins and ends, and where its cycle does.
#[derive(Clone, Copy)]
pub(crate) struct RunValues {
    pub pair: usize,
    pub prefix: usize,
    pub middle: usize,
    pub cycle: usize,
    pub last: usize,
}

// What an answer of ours is: one that is no run, or a run with its pair and where its prefix begins and ends, and its cycle.
#[derive(Clone, Copy)]
pub enum Form {
    NoRun,
    Run {
        pair: u32,
        prefix: usize,
        middle: usize,
        cycle: usize,
        last: usize,
    },
}

// Whether the word stands at `at`.
#[tactic(auto, using(crate::proofs::Forms::starts_same))]
fn starts(text: &[u8], at: usize, word: &[u8]) -> bool
    requires { at ≤ length text.now }
    ensures { result ≡ starts_with word.now (drop at text.now) }
{
    text[at..].starts_with(word)
}

// The value at `at`, up to the newline byte, if the word follows it.
#[tactic(auto, using(crate::proofs::Forms::value_missing, crate::proofs::Forms::value_found, crate::proofs::Forms::starts_fits))]
fn value_then(text: &[u8], at: usize, word: &[u8]) -> Option<Value>
    requires { at ≤ length text.now }
    ensures { ValueAt text.now at word.now result }
{
    let end = find(text, at, NEWLINE);
    if !starts(text, end, word) {
        return None;
    }
    let next = end + word.len();
    Some(Value { end, next })
}

// An edge's number, or `stop` for a waiting edge.
#[tactic(auto, using(std::proofs::lemmas::Bool::Decides::nat_tests), unfolding(crate::specs::Given::step))]
pub fn read_step(bytes: &[u8]) -> Option<u32>
    ensures { number_given result ≡ step bytes.now }
{
    if alike(bytes, b"stop") {
        return Some(WAITING);
    }
    read_number(bytes).filter(|edge| *edge != WAITING)
}

// Whether the bytes are a number.
fn is_number(bytes: &[u8]) -> bool
    ensures { result ≡ is_some (number bytes.now) }
{
    read_number(bytes).is_some()
}

// Whether the bytes are an edge.
fn is_step(bytes: &[u8]) -> bool
    ensures { result ≡ is_some (step bytes.now) }
{
    read_step(bytes).is_some()
}

// Whether the bytes are edges with commas between.
#[tactic(auto, using(crate::proofs::Forms::decides_all, crate::proofs::Forms::decides_next, crate::proofs::Forms::decides_no, crate::proofs::Forms::decides_yes))]
fn all_steps(bytes: &[u8]) -> bool
    ensures { result ≡ is_some (steps (fields bytes.now)) }
{
    let mut at = 0;
    while at <= bytes.len() {
        let end = find(bytes, at, COMMA);
        if !is_step(&bytes[at..end]) {
            return false;
        }
        at = end + 1;
    }
    true
}

// Whether the bytes are a list: `-`, or edges with commas between.
#[tactic(auto, unfolding(crate::specs::Given::list_given))]
fn is_list(bytes: &[u8]) -> bool
    ensures { result ≡ is_some (list_given bytes.now) }
{
    alike(bytes, b"-") || all_steps(bytes)
}

// A pair: a number exactly for Rabin.
#[tactic(auto, unfolding(crate::specs::Given::pair_given))]
fn read_pair(bytes: &[u8], rabin: bool) -> Option<u32>
    ensures { number_given result ≡ pair_given rabin bytes.now }
{
    if rabin {
        return read_number(bytes);
    }
    if alike(bytes, b"-") {
        return Some(0);
    }
    None
}

// The values of a run from its pair on, if nothing follows the last.
#[tactic(auto, using(crate::proofs::Forms::no_pair_value, crate::proofs::Forms::no_prefix_value, crate::proofs::Forms::no_cycle_value, crate::proofs::Forms::more_behind, crate::proofs::Forms::all_values), unfolding(puts::specs::Put::decimal_in))]
fn run_values(text: &[u8], at: usize) -> Option<RunValues>
    requires { at ≤ length text.now }
    ensures { ValuesAt text.now at result }
{
    let pair = value_then(text, at, b"\ndepth=0\nprefix=")?;
    let first = value_then(text, pair.next, b"\ncycle=")?;
    let second = value_then(text, first.next, b"\n")?;
    if second.next != text.len() {
        return None;
    }
    Some(RunValues {
        pair: pair.end,
        prefix: pair.next,
        middle: first.end,
        cycle: first.next,
        last: second.end,
    })
}

// A run's text from its pair on.
#[tactic(auto, using(crate::proofs::Reading::run_missing, crate::proofs::Reading::pair_wrong, crate::proofs::Reading::prefix_wrong, crate::proofs::Reading::cycle_wrong, crate::proofs::Reading::run_whole))]
fn read_run(text: &[u8], at: usize, rabin: bool) -> Option<Form>
    requires { at ≤ length text.now }
    ensures { RunForm rabin text.now at result }
{
    let RunValues {
        pair: end,
        prefix,
        middle,
        cycle,
        last,
    } = run_values(text, at)?;
    let pair = read_pair(&text[at..end], rabin)?;
    if !is_list(&text[prefix..middle]) || !is_list(&text[cycle..last]) {
        return None;
    }
    Some(Form::Run {
        pair,
        prefix,
        middle,
        cycle,
        last,
    })
}

// Whether the text from `at` on is a refusal's from its place on.
#[tactic(auto, using(crate::proofs::Forms::no_place, crate::proofs::Forms::no_column, crate::proofs::Forms::where_behind, crate::proofs::Forms::wrong_place_lem, crate::proofs::Forms::right_place), unfolding(puts::specs::Put::decimal_in))]
fn is_where(text: &[u8], at: usize) -> bool
    requires { at ≤ length text.now }
    ensures { result ≡ is_some (where_given (drop at text.now)) }
{
    let Some(place) = value_then(text, at, b"\ncolumn=") else {
        return false;
    };
    let Some(column) = value_then(text, place.next, b"\npair=-\ndepth=0\nprefix=-\ncycle=-\n")
    else {
        return false;
    };
    column.next == text.len()
        && is_number(&text[at..place.end])
        && is_number(&text[place.next..column.end])
}

// Whether the text from `at` on is a refusal's from its number on.
#[tactic(auto, using(crate::proofs::Forms::no_number, crate::proofs::Forms::wrong_number, crate::proofs::Forms::right_number))]
fn is_refusal(text: &[u8], at: usize) -> bool
    requires { at ≤ length text.now }
    ensures { result ≡ is_some (refused_given (drop at text.now)) }
{
    let Some(number) = value_then(text, at, b"\nplace=") else {
        return false;
    };
    is_number(&text[at..number.end]) && is_where(text, number.next)
}

// Whether the text from `at` on is an empty verdict's from its depth on.
#[tactic(auto, using(crate::proofs::Forms::no_depth_lem, crate::proofs::Forms::depth_behind, crate::proofs::Forms::right_depth))]
fn is_empty(text: &[u8], at: usize) -> bool
    requires { at ≤ length text.now }
    ensures { result ≡ is_some (empty_given (drop at text.now)) }
{
    let Some(depth) = value_then(text, at, b"\nprefix=-\ncycle=-\n") else {
        return false;
    };
    depth.next == text.len() && is_number(&text[at..depth.end])
}

// An answer that is no run, if it is one of ours.
fn no_run(ours: bool) -> Option<Form>
    ensures { result ≡ no_run ours }
{
    ours.then_some(Form::NoRun)
}

// What an answer text is; none where no answer of ours prints as it.
#[tactic(auto, using(crate::proofs::Reading::answer_empty, crate::proofs::Reading::answer_run, crate::proofs::Reading::answer_none, crate::proofs::Reading::answer_refused), unfolding(puts::specs::Put::decimal_in))]
pub fn read_answer(text: &[u8], rabin: bool) -> Option<Form>
    ensures { FormOf rabin text.now result }
{
    if starts(
        text,
        0,
        b"verdict=empty\ncode=0\nplace=0\ncolumn=0\npair=-\ndepth=",
    ) {
        return no_run(is_empty(text, 51));
    }
    if starts(text, 0, b"verdict=run\ncode=0\nplace=0\ncolumn=0\npair=") {
        return read_run(text, 41, rabin);
    }
    if starts(text, 0, b"verdict=refused\ncode=") {
        return no_run(is_refusal(text, 21));
    }
    None
}
