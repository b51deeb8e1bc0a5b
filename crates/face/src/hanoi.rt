// The numbers of what the reader of the Hanoi format and the writers give.
ghost use Rattle.std.specs.Prelude.{◌≡◌};
ghost use Rattle.face.specs.Hoa.{acceptance_kind, acceptance_count, finding_number, finding_place, hoa_numbers, text_numbers};

use crate::ANSWERED;
use hoa::{Hoa, HoaFinding};
use table::{Acceptance, Refusal};

const BUCHI: u32 = 0;

const STREETT: u32 = 1;

const RABIN: u32 = 2;

// `mukhadero_hoa`: all but number and place are 0 if it was refused.
#[repr(C)]
#[derive(Clone, Copy)]
pub struct HoaNumbers {
    pub number: u32,
    pub kind: u32,
    pub place: u64,
    pub states: u32,
    pub start: u32,
    pub edges: u32,
    // marks of a Büchi condition, pairs of the others
    pub count: u32,
    pub needs: [u32; 8],
}

// `mukhadero_text`: the length is 0 if it was refused.
#[repr(C)]
#[derive(Clone, Copy, Default)]
pub struct TextNumbers {
    pub number: u32,
    pub place: u32,
    pub length: u64,
}

// The kind of a condition as a number.
fn acceptance_kind(condition: Acceptance) -> u32
    ensures { result ≡ acceptance_kind condition }
{
    match condition {
        Acceptance::Buchi(_) => BUCHI,
        Acceptance::Streett(_) => STREETT,
        Acceptance::Rabin(_) => RABIN,
    }
}

// How many marks or pairs a condition has.
fn acceptance_count(condition: Acceptance) -> u32
    ensures { result ≡ acceptance_count condition }
{
    match condition {
        Acceptance::Buchi(count) | Acceptance::Streett(count) | Acceptance::Rabin(count) => count,
    }
}

// The number of a finding, 0 where the text is read ..
fn finding_number(finding: HoaFinding) -> u32
    ensures { result ≡ finding_number finding }
{
    match finding {
        HoaFinding::Read => ANSWERED,
        HoaFinding::Refused { number, .. } => number,
    }
}

// .. and the place.
fn finding_place(finding: HoaFinding) -> usize
    ensures { result ≡ finding_place finding }
{
    match finding {
        HoaFinding::Read => 0,
        HoaFinding::Refused { place, .. } => place,
    }
}

// What reading gives, in plain numbers.
pub fn hoa_numbers(hoa: Hoa) -> HoaNumbers
    ensures { result ≡ hoa_numbers hoa }
{
    // an array goes through a variable: a field's value can't be stored straight
    let needs = hoa.needs;
    HoaNumbers {
        number: finding_number(hoa.finding),
        kind: acceptance_kind(hoa.condition),
        place: finding_place(hoa.finding) as u64,
        states: hoa.states,
        start: hoa.start,
        edges: hoa.edges,
        count: acceptance_count(hoa.condition),
        needs,
    }
}

// What writing gives, in plain numbers.
pub fn text_numbers(written: Result<usize, Refusal>) -> TextNumbers
    ensures { result ≡ text_numbers written }
{
    let none = TextNumbers::default();
    match written {
        Ok(length) => TextNumbers {
            number: ANSWERED,
            length: length as u64,
            ..none
        },
        Err(cause) => TextNumbers {
            number: cause.number,
            place: cause.place,
            ..none
        },
    }
}
