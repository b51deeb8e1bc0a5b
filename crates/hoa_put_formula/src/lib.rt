// The condition's line of a text in the Hanoi format, for the crate `hoa_writer`: how many marks it uses, and its formula. Relies on the crate `table` for the number of marks
// and on `puts` for bytes and numbers. What is written is in hoa_written/specs/Written.antt.
#![tactic(auto)]

ghost use Rattle.std.specs.Prelude.{◌≡◌, false, ◌+◌, ◌*◌, ◌^◌, ◌≤◌, ◌<◌, length};
ghost use Rattle.table.specs.Condition.{dealt};
ghost use Rattle.table.specs.Refusal.{wrong_condition};
ghost use Rattle.puts.specs.Put.{PutFew};
ghost use Rattle.hoa_written.specs.Written.{further_infs, buchi_text, streett_pair, further_streett, streett_text, rabin_pair, further_rabin, rabin_text, formula, acceptance_text};

use puts::{put, put_held};
use table::Acceptance;

// `&Inf(i)` from a mark on, so many of them.
fn put_infs(out: &mut [u8], at: usize, first: u32, count: u32) -> usize
    requires at_bound { at < 2 ^ 50 }
    requires count_bound { first + count < 2 ^ 32 }
    ensures { PutFew out.old out.new at (further_infs first count) result (16 * count) }
{
    let mut next = at;
    for i in 0..count {
        next = put_held(out, next, b"&Inf(", first + i, b')');
    }
    next
}

// The formula of k marks.
fn put_buchi(out: &mut [u8], at: usize, k: u32) -> usize
    requires at_bound { at < 2 ^ 48 }
    requires k_bound { k ≤ 32 }
    ensures { PutFew out.old out.new at (buchi_text k) result 1000 }
{
    if k == 0 {
        return put(out, at, b't');
    }
    let next = put_held(out, at, b"Inf(", 0, b')');
    put_infs(out, next, 1, k - 1)
}

// One Streett pair; the key is what it has up to its first number.
fn put_streett_pair(out: &mut [u8], at: usize, key: &[u8], i: u32) -> usize
    requires at_bound { at < 2 ^ 49 }
    requires key_len_bound { length key.now ≤ 6 }
    requires i_bound { i < 16 }
    ensures { PutFew out.old out.new at (streett_pair key.now i) result 34 }
{
    let asks = put_held(out, at, key, 2 * i, b')');
    let end = put_held(out, asks, b"|Inf(", 2 * i + 1, b')');
    put(out, end, b')')
}

// The Streett pairs behind the first, so many of them.
fn put_more_streett(out: &mut [u8], at: usize, count: u32) -> usize
    requires at_bound { at < 2 ^ 48 }
    requires count_bound { count < 16 }
    ensures { PutFew out.old out.new at (further_streett count) result (34 * count) }
{
    let mut next = at;
    for i in 0..count {
        next = put_streett_pair(out, next, b"&(Fin(", i + 1);
    }
    next
}

// The formula of p Streett pairs.
fn put_streett(out: &mut [u8], at: usize, p: u32) -> usize
    requires at_bound { at < 2 ^ 47 }
    requires p_bound { p ≤ 16 }
    ensures { PutFew out.old out.new at (streett_text p) result 1000 }
{
    if p == 0 {
        return put(out, at, b't');
    }
    let next = put_streett_pair(out, at, b"(Fin(", 0);
    put_more_streett(out, next, p - 1)
}

// One Rabin pair; the key is what it has up to its first number.
fn put_rabin_pair(out: &mut [u8], at: usize, key: &[u8], forbidden: u32, need: u32) -> usize
    requires at_bound { at < 2 ^ 49 }
    requires key_len_bound { length key.now ≤ 6 }
    requires need_bound { forbidden + (1 + need) ≤ 32 }
    ensures { PutFew out.old out.new at (rabin_pair key.now forbidden need) result (18 * (1 + need)) }
{
    let asks = put_held(out, at, key, forbidden, b')');
    let end = put_infs(out, asks, forbidden + 1, need);
    put(out, end, b')')
}

// The Rabin pairs behind the first, so many of them.
fn put_more_rabin(out: &mut [u8], at: usize, count: u32, needs: [u32; 8]) -> usize
    requires at_bound { at < 2 ^ 48 }
    requires count_bound { count < 8 }
    requires count_bound_2 { dealt needs (count + 1) ≤ 32 }
    ensures { PutFew out.old out.new at (further_rabin needs count) result 600 }
{
    let mut next = at;
    let mut forbidden = 1 + needs[0];
    for need in &needs[1..count as usize + 1] {
        next = put_rabin_pair(out, next, b"|(Fin(", forbidden, *need);
        forbidden += 1 + need;
    }
    next
}

// The formula of p Rabin pairs.
fn put_rabin(out: &mut [u8], at: usize, p: u32, needs: [u32; 8]) -> usize
    requires at_bound { at < 2 ^ 47 }
    requires p_bound { p ≤ 8 }
    requires p_bound_2 { dealt needs p ≤ 32 }
    ensures { PutFew out.old out.new at (rabin_text needs p) result 1300 }
{
    if p == 0 {
        return put(out, at, b'f');
    }
    let next = put_rabin_pair(out, at, b"(Fin(", 0, needs[0]);
    put_more_rabin(out, next, p - 1, needs)
}

// The formula of a condition that row 4 lets pass.
fn put_formula(out: &mut [u8], at: usize, condition: Acceptance, needs: [u32; 8]) -> usize
    requires at_bound { at < 2 ^ 47 }
    requires needs_value { wrong_condition condition needs ≡ false }
    ensures { PutFew out.old out.new at (formula condition needs) result 1300 }
{
    match condition {
        Acceptance::Buchi(k) => put_buchi(out, at, k),
        Acceptance::Streett(p) => put_streett(out, at, p),
        Acceptance::Rabin(p) => put_rabin(out, at, p, needs),
    }
}

// The condition's line.
pub fn put_acceptance(out: &mut [u8], at: usize, condition: Acceptance, needs: [u32; 8]) -> usize
    requires at_bound { at < 2 ^ 46 }
    requires needs_value { wrong_condition condition needs ≡ false }
    ensures { PutFew out.old out.new at (acceptance_text condition needs) result 1400 }
{
    let begin = put_held(
        out,
        at,
        b"Acceptance: ",
        table::marks_used(condition, needs),
        b' ',
    );
    let end = put_formula(out, begin, condition, needs);
    put(out, end, b'\n')
}
