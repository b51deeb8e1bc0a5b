// The values of the job text. `at` is where a value begins, `end` where its line's newline byte stands. Relies on `field`.
// The `usize` of an `Err` is the place of the first byte that cannot go on.
ghost use Rattle.std.specs.Prelude.{◌≡◌, ◌≤◌, ◌<◌};
ghost use Rattle.table.specs.Refusal.{most_rabin};
ghost use Rattle.job_values.specs.Bytes.{fields};
ghost use Rattle.job_values.specs.Value.{usual_kind, listed, eight, has_needs, needs, most_count};
ghost use Rattle.job_values.specs.inner.Field.{Within};
ghost use Rattle.job_values.specs.inner.Told.{EdgeAt, WordAt, FormAt, EndAt, KindAt, ListAt};

use crate::field::{marks_field, number_field, word_run};
use crate::part::alike;

const COMMA: u8 = b',';

const NEWLINE: u8 = b'\n';

// The form of a job text: it says which kind is meant where the kind line is left out.
#[derive(Clone, Copy)]
pub enum Form {
    One,
    Two,
}

// The kind of a condition.
#[derive(Clone, Copy)]
pub enum Kind {
    Buchi,
    Streett,
    Rabin,
}

// What an edge line says.
#[derive(Clone, Copy)]
pub struct Edge {
    pub from: u32,
    pub to: u32,
    pub marks: u32,
}

// An edge: from, to and marks, with commas between.
pub fn read_edge(text: &[u8], at: usize, end: usize) -> Result<Edge, usize>
    requires { Within text.now at end }
    ensures { EdgeAt text.now at end result }
{
    let from = number_field(text, at, end, COMMA)?;
    let to = number_field(text, from.next, end, COMMA)?;
    let marks = marks_field(text, to.next, end)?;
    Ok(Edge {
        from: from.value,
        to: to.value,
        marks: marks.value,
    })
}

// A value that must be one word.
fn read_word(text: &[u8], at: usize, end: usize, word: &[u8]) -> Result<(), usize>
    requires { Within text.now at end }
    ensures { WordAt text.now at end word.now result }
{
    if alike(&text[at..end], word) {
        return Ok(());
    }
    Err(word_run(text, at, end, word))
}

// The form's number; a text of form 1 has no line for it.
pub fn read_form(text: &[u8], at: usize, end: usize) -> Result<Form, usize>
    requires { Within text.now at end }
    ensures { FormAt text.now at end result }
{
    read_word(text, at, end, b"2")?;
    Ok(Form::Two)
}

// The end's word.
pub fn read_end(text: &[u8], at: usize, end: usize) -> Result<(), usize>
    requires { Within text.now at end }
    ensures { EndAt text.now at end result }
{
    read_word(text, at, end, b"job")
}

// The kind's word; where it is none of the three, the word that it agrees with furthest tells the place.
pub fn read_kind(text: &[u8], at: usize, end: usize) -> Result<Kind, usize>
    requires { Within text.now at end }
    ensures { KindAt text.now at end result }
{
    let Err(no_buchi) = read_word(text, at, end, b"buchi") else {
        return Ok(Kind::Buchi);
    };
    let Err(no_streett) = read_word(text, at, end, b"streett") else {
        return Ok(Kind::Streett);
    };
    let Err(no_rabin) = read_word(text, at, end, b"rabin") else {
        return Ok(Kind::Rabin);
    };
    Err(no_buchi.max(no_streett).max(no_rabin))
}

// What a missing kind line means.
pub fn usual_kind(form: Form) -> Kind
    ensures { result ≡ usual_kind form }
{
    match form {
        Form::One => Kind::Buchi,
        Form::Two => Kind::Streett,
    }
}

// Exactly `count` numbers with commas between, and zeros after them.
fn list_needs(text: &[u8], at: usize, end: usize, count: u32) -> Result<[u32; 8], usize>
    requires within { Within text.now at end }
    requires count_nonzero { (0 < count) × (count ≤ most_rabin) }
    ensures { ListAt (λ bs. eight (listed count (fields bs))) text.now at end result }
{
    let last = (count - 1) as usize;
    let mut needs = [0u32; 8];
    let mut next = at;
    for i in 0..last {
        let need = number_field(text, next, end, COMMA)?;
        needs[i] = need.value;
        next = need.next;
    }
    let need = number_field(text, next, end, NEWLINE)?;
    needs[last] = need.value;
    Ok(needs)
}

// Whether a need line of this kind and count holds numbers.
#[tactic(auto, using(std::proofs::lemmas::Bool::Decides::nat_tests))]
fn has_needs(kind: Kind, count: u32) -> bool
    ensures { result ≡ has_needs kind count }
{
    matches!(kind, Kind::Rabin) && 0 < count
}

// The needs: `-`, or for rabin with a count above 0 that many numbers.
pub fn read_needs(
    text: &[u8],
    at: usize,
    end: usize,
    kind: Kind,
    count: u32,
) -> Result<[u32; 8], usize>
    requires within { Within text.now at end }
    requires count_bound { count ≤ most_count kind }
    ensures { ListAt (needs kind count) text.now at end result }
{
    if has_needs(kind, count) {
        return list_needs(text, at, end, count);
    }
    read_word(text, at, end, b"-")?;
    Ok([0; 8])
}
