// Bytes, words and numbers into a lent buffer: what every writer of a text shares. A byte that has no room is counted and not written, so a text's
// length is known before the first byte is changed. Relies on nothing. It serves the writers alone: its functions ask for what their callers prove.
#![tactic(auto)]

ghost use Rattle.std.specs.Prelude.{◌≡◌, [], ◌∷◌, ◌++◌, ◌+◌, ◌-◌, ◌^◌, ◌≤◌, ◌<◌, length, take, replicate};
ghost use Rattle.puts.specs.Put.{decimal, held, Put, PutFew};

// One byte; it is counted where there is no room for it.
pub fn put(out: &mut [u8], at: usize, byte: u8) -> usize
    requires { at < 2 ^ 60 }
    ensures { Put out.old out.new at (byte ∷ []) result }
{
    if at < out.len() {
        out[at] = byte;
    }
    at + 1
}

// A word, byte by byte.
pub fn put_word(out: &mut [u8], at: usize, word: &[u8]) -> usize
    requires { at + length word.now < 2 ^ 60 }
    ensures { Put out.old out.new at word.now result }
{
    for (i, byte) in word.iter().enumerate() {
        put(out, at + i, *byte);
    }
    at + word.len()
}

// How many decimal digits a number has.
#[tactic(auto, using(crate::proofs::Puts::digit_counts))]
pub fn count_digits(n: u32) -> usize
    ensures { result ≡ length (decimal n) }
{
    let mut count = 1;
    let mut rest = n;
    while 10 <= rest {
        rest /= 10;
        count += 1;
    }
    count
}

// The decimal digits of a number, no leading zeros; the last one is written first.
#[tactic(auto, using(crate::proofs::Puts::digit_puts))]
pub fn put_number(out: &mut [u8], at: usize, n: u32) -> usize
    requires { at < 2 ^ 59 }
    ensures { PutFew out.old out.new at (decimal n) result 10 }
{
    let count = count_digits(n);
    let mut rest = n;
    for i in (0..count).rev() {
        put(out, at + i, b'0' + (rest % 10) as u8);
        rest /= 10;
    }
    at + count
}

// A key, a number and one byte behind it.
pub fn put_held(out: &mut [u8], at: usize, key: &[u8], n: u32, last: u8) -> usize
    requires { at + length key.now < 2 ^ 58 }
    ensures { PutFew out.old out.new at (held key.now n last) result (length key.now + 11) }
{
    let digits = put_word(out, at, key);
    let end = put_number(out, digits, n);
    put(out, end, last)
}

// Zeros from a place on.
pub fn clear(out: &mut [u8], from: usize)
    requires { from ≤ length out.old }
    ensures { out.new ≡ take from out.old ++ replicate (length out.old - from) 0 }
{
    out[from..].fill(0);
}
