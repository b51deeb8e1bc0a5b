// Numbers: a run of digits and its value. Relies on `bytes`.
ghost use Rattle.std.specs.Prelude.{◌≡◌, ◌-◌, ◌≤◌, length, drop};
ghost use Rattle.std.specs.List.{prefix_len};
ghost use Rattle.hoa_tokens.specs.Bytes.{is_digit};
ghost use Rattle.hoa_tokens.specs.Token.{spelt, digits as digits_token, number as number_token};
ghost use Rattle.hoa_tokens.specs.inner.Reads.{Says, of_value, Reads};

use crate::bytes::is_digit;
use crate::{Found, Kind};

// Every number is below this.
const INT_LIMIT: u64 = 2147483648;

// How many digits stand in front.
fn digits_size(text: &[u8]) -> usize
    ensures { result ≡ prefix_len is_digit text.now }
{
    text.iter().take_while(|byte| is_digit(**byte)).count()
}

// What the byte is worth as a digit.
fn worth(byte: u8) -> u64
    ensures { result ≡ byte - 48 }
{
    u64::from(byte.saturating_sub(b'0'))
}

// The number that the digits spell, if it is below 2^31.
fn spell(digits: &[u8]) -> Kind
    ensures { Says result (of_value (spelt 0 digits.now)) }
{
    let mut value = 0;
    for digit in digits {
        value = value * 10 + worth(*digit);
        if INT_LIMIT <= value {
            return Kind::Bad;
        }
    }
    Kind::Int(value as u32)
}

// The number that the digits spell, if it is one: no leading zeros. A single digit, as most numbers are, goes its own way.
fn digits_kind(digits: &[u8]) -> Kind
    ensures { Says result (digits_token digits.now) }
{
    if digits.len() <= 1 {
        return spell(digits);
    }
    if digits[0] == b'0' {
        return Kind::Bad;
    }
    spell(digits)
}

// The number at `at`: the whole run of digits.
pub(crate) fn number(text: &[u8], at: usize) -> Found
    requires { at ≤ length text.now }
    ensures { Reads text.now at result (number_token (drop at text.now)) }
{
    let next = at + digits_size(&text[at..]);
    Found {
        first: at,
        next,
        kind: digits_kind(&text[at..next]),
    }
}
