// The lines of the job text: each is found by its key at a place of the text, and its value is read. A fault carries its line and its column. Relies on the
// crate `job_values`.
ghost use Rattle.std.specs.Prelude.{◌≡◌, suc, ◌+◌, ◌-◌, ◌≤◌, ◌<◌, length, IfOk, IfErr};
ghost use Rattle.job_values.specs.inner.Told.{edge_in_words};
ghost use Rattle.job_text.specs.Value.{number, edge, needs, end, most_count};
ghost use Rattle.job_text.specs.Job.{next, asked, above, unlimited, need=, edge=, end=, form_line, kind_line};
ghost use Rattle.job_text.specs.Given.{SpanAt, fault_at, AskedAt, line_says, from_line, SaidAs, ReadAt};

use job_values::field::number_field;
use job_values::part::find;
use job_values::value::{
    Edge, Form, Kind, read_edge, read_end, read_form, read_kind, read_needs, usual_kind,
};

const NEWLINE: u8 = b'\n';

// Rows 21 to 23.
const MISSING: u32 = 21;

const MALFORMED: u32 = 22;

const ABOVE: u32 = 23;

// Where a line begins, and its number, counted from 1.
#[derive(Clone, Copy)]
pub(crate) struct LineStart {
    pub at: usize,
    pub line: u32,
}

// Where a line's value stands: from the key to the newline byte.
#[derive(Clone, Copy)]
pub(crate) struct Span {
    pub from: usize,
    pub end: usize,
}

// What is wrong with a text, and where: the row, the line and the column, both counted from 1.
#[derive(Clone, Copy)]
pub(crate) struct Fault {
    pub number: u32,
    pub line: u32,
    pub column: usize,
}

// The line at `at`, if it is there and has this key.
pub(crate) fn find_line(text: &[u8], at: usize, key: &[u8]) -> Option<Span>
    ensures { SpanAt text.now at key.now result }
{
    let end = find(text, at, NEWLINE);
    if end < text.len() && text[at..end].starts_with(key) {
        let from = at + key.len();
        return Some(Span { from, end });
    }
    None
}

// A line that is missing, at its first byte.
pub(crate) fn missing(line: u32) -> Fault
    ensures { result ≡ fault_at 21 line 1 }
{
    Fault {
        number: MISSING,
        line,
        column: 1,
    }
}

// A fault of a line, at the byte `place` of the text.
fn fault_at(text: &[u8], number: u32, start: LineStart, place: usize) -> Fault
    requires { (start.at ≤ place) × (place < length text.now) }
    ensures { result ≡ fault_at number start.line (suc (place - start.at)) }
{
    Fault {
        number,
        line: start.line,
        column: place - start.at + 1,
    }
}

// The line that must be there with this key, or that it is missing.
fn ask_line(text: &[u8], start: LineStart, key: &[u8]) -> Result<Span, Fault>
    ensures { AskedAt text.now start key.now result }
{
    match find_line(text, start.at, key) {
        Some(span) => Ok(span),
        None => Err(missing(start.line)),
    }
}

// What was read behind the key, and where the next line begins; or that the value is malformed where it could not be read on.
fn line_says<T>(
    text: &[u8],
    start: LineStart,
    span: Span,
    read: Result<T, usize>,
) -> Result<(T, LineStart), Fault>
    requires early { start.line < 65536 }
    requires inside { span.end < length text.now }
    requires lost_inside { IfErr read (λ place. (start.at ≤ place) × (place < length text.now)) }
    ensures { result ≡ line_says start span read }
{
    match read {
        Ok(value) => {
            let next = LineStart {
                at: span.end + 1,
                line: start.line + 1,
            };
            Ok((value, next))
        }
        Err(place) => Err(fault_at(text, MALFORMED, start, place)),
    }
}

// A line with a number of at most `most`.
pub(crate) fn number_line(
    text: &[u8],
    start: LineStart,
    key: &[u8],
    most: u32,
) -> Result<(u32, LineStart), Fault>
    requires { start.line < 65536 }
    ensures read { ReadAt text.now (next (asked key.now number (above most))) start result }
    ensures one_on { IfOk result (λ r. r.1.line ≡ start.line + 1) }
{
    let span = ask_line(text, start, key)?;
    let field = number_field(text, span.from, span.end, NEWLINE);
    let (run, next) = line_says(text, start, span, field)?;
    if most < run.value {
        return Err(fault_at(text, ABOVE, start, span.from));
    }
    Ok((run.value, next))
}

// The form's line, which may be left out: the first one.
#[tactic(auto, using(crate::proofs::Lines::form_read))]
pub(crate) fn form_line(text: &[u8], start: LineStart) -> Result<(Form, LineStart), Fault>
    requires { start.line < 65536 }
    ensures read { ReadAt text.now form_line start result }
    ensures one_on { IfOk result (λ r. r.1.line ≤ start.line + 1) }
{
    let Some(span) = find_line(text, start.at, b"form=") else {
        return Ok((Form::One, start));
    };
    line_says(text, start, span, read_form(text, span.from, span.end))
}

// The kind line, which may be left out.
pub(crate) fn kind_line(
    text: &[u8],
    start: LineStart,
    form: Form,
) -> Result<(Kind, LineStart), Fault>
    requires { start.line < 65536 }
    ensures read { ReadAt text.now (kind_line form) start result }
    ensures one_on { IfOk result (λ r. r.1.line ≤ start.line + 1) }
{
    let Some(span) = find_line(text, start.at, b"kind=") else {
        return Ok((usual_kind(form), start));
    };
    line_says(text, start, span, read_kind(text, span.from, span.end))
}

// The need line.
pub(crate) fn need_line(
    text: &[u8],
    start: LineStart,
    kind: Kind,
    count: u32,
) -> Result<([u32; 8], LineStart), Fault>
    requires early { start.line < 65536 }
    requires count_bound { count ≤ most_count kind }
    ensures read { ReadAt text.now (next (asked need= (needs kind count) unlimited)) start result }
    ensures one_on { IfOk result (λ r. r.1.line ≡ start.line + 1) }
{
    let span = ask_line(text, start, b"need=")?;
    line_says(
        text,
        start,
        span,
        read_needs(text, span.from, span.end, kind, count),
    )
}

// An edge line.
pub(crate) fn edge_line(text: &[u8], start: LineStart) -> Result<(Edge, LineStart), Fault>
    requires { start.line < 65536 }
    ensures read { SaidAs edge_in_words text.now (from_line text.now start (next (asked edge= edge unlimited))) result }
    ensures one_on { IfOk result (λ r. r.1.line ≡ start.line + 1) }
{
    let span = ask_line(text, start, b"edge=")?;
    line_says(text, start, span, read_edge(text, span.from, span.end))
}

// The end line.
pub(crate) fn end_line(text: &[u8], start: LineStart) -> Result<((), LineStart), Fault>
    requires { start.line < 65536 }
    ensures read { ReadAt text.now (next (asked end= end unlimited)) start result }
    ensures one_on { IfOk result (λ r. r.1.line ≡ start.line + 1) }
{
    let span = ask_line(text, start, b"end=")?;
    line_says(text, start, span, read_end(text, span.from, span.end))
}
