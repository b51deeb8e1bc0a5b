// A number of the job text in bytes of its own, as an answer text has them. Relies on the crate `digits`.
ghost use Rattle.std.specs.Prelude.{◌≡◌};
ghost use Rattle.digits.specs.Digit.{digit};
ghost use Rattle.job_values.specs.Number.{spelt, at_most, most_number, leading_zero, number};
ghost use Rattle.job_values.specs.Given.{number_given};

use crate::field::MOST_NUMBER;
use digits::digit_value;

// The number that decimal digits spell, if it is not too large.
#[tactic(auto, using(std::proofs::lemmas::Bool::Decides::nat_tests, digits::proofs::Digits::digit_below, crate::proofs::Numbers::spelt_more, crate::proofs::Numbers::spelt_wrong, crate::proofs::Numbers::spelt_end, crate::proofs::Numbers::too_large))]
fn decimal(bytes: &[u8]) -> Option<u32>
    ensures { number_given result ≡ at_most most_number (spelt digit 10 0 bytes.now) }
{
    let mut value: u32 = 0;
    for byte in bytes {
        value = value * 10 + digit_value(*byte)?;
        if MOST_NUMBER < value {
            return None;
        }
    }
    Some(value)
}

// Whether there are several digits, the first of them 0.
#[tactic(auto, using(std::proofs::lemmas::Bool::Decides::nat_tests))]
fn leading_zero(bytes: &[u8]) -> bool
    ensures { result ≡ leading_zero bytes.now }
{
    1 < bytes.len() && bytes[0] == b'0'
}

// A number: decimal, no leading zeros, at most 65,535.
#[tactic(auto, using(std::proofs::lemmas::Bool::Decides::nat_tests), unfolding(crate::specs::Number::number))]
pub fn read_number(bytes: &[u8]) -> Option<u32>
    ensures { number_given result ≡ number bytes.now }
{
    if bytes.is_empty() || leading_zero(bytes) {
        return None;
    }
    decimal(bytes)
}
