// Runs the job text reader over stored texts and prints what each says, a line each. Standard input has, for each text, its length as a decimal
// number and a newline, and then its bytes (tools/job_vectors.py writes both files from docs/RULES.md alone).
#![tactic(auto)]

use job_text::reader::read;
use std::io;
use std::io::Read;
use table::Acceptance;
use text_input::read_input;

// The longest text that is stored.
const MOST_STORED: usize = 24576;

fn print_condition(rt: &impl Print, condition: Acceptance) -> io::Result<()> {
    match condition {
        Acceptance::Buchi(k) => print!(rt; " buchi {k}"),
        Acceptance::Streett(p) => print!(rt; " streett {p}"),
        Acceptance::Rabin(p) => print!(rt; " rabin {p}"),
    }
}

fn print_needs(rt: &impl Print, needs: [u32; 8]) -> io::Result<()> {
    print!(rt; " {}", needs[0])?;
    for need in &needs[1..] {
        print!(rt; ",{need}")?;
    }
    Ok(())
}

// 31 times h and one cell more, as far as a word goes.
fn with_cell(h: u32, cell: u32) -> u32 {
    h.wrapping_mul(31).wrapping_add(cell)
}

// A sum over the cells of the first m edges, so that a line tells whether each was read right.
fn checksum(from: &[u32], to: &[u32], marks: &[u32], m: usize) -> u32 {
    let mut h: u32 = 0;
    for ((from, to), marks) in from.iter().zip(to).zip(marks).take(m) {
        h = with_cell(with_cell(with_cell(h, *from), *to), *marks);
    }
    h
}

// What a text says.
fn print_reading(rt: &impl Print, text: &[u8]) -> io::Result<()> {
    let mut from = [0u32; 512];
    let mut to = [0u32; 512];
    let mut marks = [0u32; 512];
    let job = read(text, &mut from, &mut to, &mut marks);
    if let Err(cause) = job.finding {
        return println!(rt; "refused {} {} {}", cause.number, cause.place, job.column);
    }
    print!(rt; "job {} {}", job.states, job.start)?;
    print_condition(rt, job.condition)?;
    print_needs(rt, job.needs)?;
    let edges = job.edges;
    println!(rt; " {edges} {}", checksum(&from, &to, &marks, edges as usize))
}

// The next text's length; none at the end of the input.
fn next_length<R: Read>(input: &mut R) -> io::Result<Option<usize>> {
    let mut byte = [0u8; 1];
    let mut length: usize = 0;
    for _ in 0..7 {
        if input.read(&mut byte)? == 0 {
            return Ok(None);
        }
        if byte[0] == b'\n' {
            return Ok(Some(length));
        }
        length = (length * 10 + usize::from(byte[0]) % 16) % 10000000;
    }
    Ok(None)
}

// The next bytes of the input, as many as `length` says, at the front of the buffer; how many there were.
fn fill<R: Read>(input: &mut R, text: &mut [u8], length: usize) -> io::Result<usize> {
    if text.len() < length {
        return Ok(0);
    }
    read_input(input, &mut text[0..length])
}

// One text.
fn one_text(rt: &HostRuntime, length: usize) -> io::Result<()> {
    let mut text = [0u8; MOST_STORED];
    let got = fill(&mut rt.stdin(), &mut text, length)?;
    if got != length {
        return println!(rt; "cut off");
    }
    if length <= MOST_STORED {
        print_reading(rt, &text[0..length])?;
    }
    Ok(())
}

fn main(rt: HostRuntime) -> io::Result<()> {
    for _ in 0..100000 {
        match next_length(&mut rt.stdin())? {
            Some(length) => one_text(&rt, length)?,
            None => return Ok(()),
        }
    }
    Ok(())
}
