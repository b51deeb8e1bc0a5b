// The edge lines of a job text, for the crate `job_writer`: two states and eight hex digits. Relies on `puts` for words and numbers. What is written is in specs/Edges.antt, what
// the functions ask in specs/inner.antt.
#![tactic(auto)]

ghost use Rattle.std.specs.Prelude.{◌≡◌, ◌^◌, ◌<◌, length};
ghost use Rattle.puts.specs.Put.{PutFew};
ghost use Rattle.job_put_edges.specs.Edges.{hex_byte, hex_text, edge_text, edges_text};
ghost use Rattle.job_put_edges.specs.inner.{Passed};

use puts::{put, put_held};

// The byte of a hex digit.
#[tactic(auto, unfolding(crate::specs::Edges::hex_byte))]
fn hex_byte(digit: u32) -> u8
    requires { digit < 16 }
    ensures { result ≡ hex_byte digit }
{
    let value = digit as u8;
    if value < 10 {
        b'0' + value
    } else {
        b'a' + (value - 10)
    }
}

// The eight hex digits of a set of marks, the highest first.
fn put_hex(out: &mut [u8], at: usize, set: u32) -> usize
    requires { at < 2 ^ 50 }
    ensures { PutFew out.old out.new at (hex_text set) result 8 }
{
    let mut next = at;
    for i in 0u32..8 {
        let digit = (set >> (28 - 4 * i)) % 16;
        next = put(out, next, hex_byte(digit));
    }
    next
}

// The line of an edge.
fn put_edge(out: &mut [u8], at: usize, from: u32, to: u32, set: u32) -> usize
    requires { at < 2 ^ 49 }
    ensures { PutFew out.old out.new at (edge_text from to set) result 40 }
{
    let target = put_held(out, at, b"edge=", from, b',');
    let bears = put_held(out, target, b"", to, b',');
    let end = put_hex(out, bears, set);
    put(out, end, b'\n')
}

// The lines of the edges.
#[tactic(auto, using(puts::proofs::Few::few_more))]
pub fn put_edges(out: &mut [u8], at: usize, from: &[u32], to: &[u32], marks: &[u32]) -> usize
    requires at_bound { at < 2 ^ 20 }
    requires passed { Passed from.now to.now marks.now }
    ensures { PutFew out.old out.new at (edges_text from.now to.now marks.now (length from.now)) result 20480 }
{
    let mut next = at;
    for i in 0..from.len() {
        next = put_edge(out, next, from[i], to[i], marks[i]);
    }
    next
}
