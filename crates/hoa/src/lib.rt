// Reads a text of the Hanoi format into lent tables (docs/RULES.md, "The Hanoi format"): the header by `hoa_head`, the rows by `hoa_rows`.
// What each text says is in specs/.
#![tactic(auto)]

ghost use Rattle.std.specs.Prelude.{◌≡◌};
ghost use Rattle.hoa.specs.Reading.{limits_of};
ghost use Rattle.hoa.specs.Returned.{refused_hoa, ReadInto};
ghost use Rattle.hoa.specs.inner.{hoa_given};

use hoa_entry::Limits;
use hoa_head::{HeadRead, read_head};
use hoa_rows::read_rows;
use hoa_tokens::BadToken;
use hoa_value::Head;
use table::Acceptance;

// Whether the text is read, or why not, with number and place. No `Result`: it is a field of `Hoa`, beside fields that a refusal has too.
#[derive(Clone, Copy)]
pub enum HoaFinding {
    Read,
    Refused { number: u32, place: usize },
}

// What reading a text gives. Where it is refused the numbers are 0, and the condition is Büchi 0: the C interface hands out each field of every text
// (`mukhadero_read_hoa`), so this is no `Result`.
#[derive(Clone, Copy)]
pub struct Hoa {
    pub finding: HoaFinding,
    pub states: u32,
    pub start: u32,
    pub condition: Acceptance,
    pub needs: [u32; 8],
    pub edges: u32,
}

// A text that is refused.
fn refused(bad: BadToken) -> Hoa
    ensures { result ≡ refused_hoa bad.number bad.place }
{
    let BadToken { number, place } = bad;
    Hoa {
        finding: HoaFinding::Refused { number, place },
        states: 0,
        start: 0,
        condition: Acceptance::Buchi(0),
        needs: [0; 8],
        edges: 0,
    }
}

// What the header says of the rows; 0 for a number that was not given.
fn limits_of(head: Head) -> Limits
    ensures { result ≡ limits_of head }
{
    Limits {
        states: head.states,
        start: head.start.unwrap_or(0),
        props: head.props.unwrap_or(0),
        marks: head.marks.unwrap_or(0),
    }
}

// The header of a text and the rows behind it, in the three lent tables; or the refusal, and the tables as they were.
fn read_whole(
    text: &[u8],
    from: &mut [u32],
    to: &mut [u32],
    marks: &mut [u32],
) -> Result<Hoa, BadToken>
    ensures { ReadInto text.now from.old to.old marks.old from.new to.new marks.new (hoa_given result) }
{
    let HeadRead { head, next } = read_head(text)?;
    let rows = read_rows(text, next, limits_of(head), from, to, marks)?;
    let needs = head.needs;
    Ok(Hoa {
        finding: HoaFinding::Read,
        states: rows.states,
        start: head.start.unwrap_or(0),
        condition: head.condition,
        needs,
        edges: rows.edges,
    })
}

// What a text says, its edges in the three lent tables with zeros after them; or its refusal, and the tables as they were.
pub fn read_hoa(text: &[u8], from: &mut [u32], to: &mut [u32], marks: &mut [u32]) -> Hoa
    ensures { ReadInto text.now from.old to.old marks.old from.new to.new marks.new result }
{
    match read_whole(text, from, to, marks) {
        Ok(hoa) => hoa,
        Err(bad) => refused(bad),
    }
}
