// What a byte is worth as a digit (docs/RULES.md, "The job text and the printed answer"). Relies on nothing. Which bytes are digits is in specs/Digit.antt.
#![tactic(auto)]

ghost use Rattle.std.specs.Prelude.{◌≡◌};
ghost use Rattle.digits.specs.Digit.{digit, hex_digit};
ghost use Rattle.digits.specs.Given.{digit_given};

// What a decimal digit is worth.
#[tactic(auto, using(std::proofs::lemmas::Bool::Decides::nat_tests), unfolding(crate::specs::Digit::digit))]
pub fn digit_value(byte: u8) -> Option<u32>
    ensures { digit_given result ≡ digit byte }
{
    match byte {
        b'0'..=b'9' => Some(u32::from(byte - b'0')),
        _ => None,
    }
}

// What a lower-case hex digit is worth.
#[tactic(auto, using(std::proofs::lemmas::Bool::Decides::nat_tests), unfolding(crate::specs::Digit::digit, crate::specs::Digit::hex_digit))]
pub fn hex_value(byte: u8) -> Option<u32>
    ensures { digit_given result ≡ hex_digit byte }
{
    match byte {
        b'a'..=b'f' => Some(u32::from(byte - b'a' + 10)),
        _ => digit_value(byte),
    }
}
