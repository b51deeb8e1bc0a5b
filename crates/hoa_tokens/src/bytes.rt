// Bytes of a text: their classes. Relies on nothing.
ghost use Rattle.std.specs.Prelude.{◌≡◌};
ghost use Rattle.hoa_tokens.specs.Bytes.{is_digit, is_capital, is_letter, is_name, is_blank};

// Whether the byte is a digit.
#[tactic(auto, unfolding(crate::specs::Bytes::is_digit))]
pub(crate) fn is_digit(byte: u8) -> bool
    ensures { result ≡ is_digit byte }
{
    byte.is_ascii_digit()
}

// Whether the byte is a capital letter.
#[tactic(auto, unfolding(crate::specs::Bytes::is_capital))]
pub(crate) fn is_capital(byte: u8) -> bool
    ensures { result ≡ is_capital byte }
{
    byte.is_ascii_uppercase()
}

// Whether a word may begin with the byte.
#[tactic(auto, unfolding(crate::specs::Bytes::is_letter, crate::specs::Bytes::is_capital))]
pub(crate) fn is_letter(byte: u8) -> bool
    ensures { result ≡ is_letter byte }
{
    is_capital(byte) || byte == b'_' || byte.is_ascii_lowercase()
}

// Whether a word may go on with the byte.
#[tactic(auto, unfolding(crate::specs::Bytes::is_name))]
pub(crate) fn is_name(byte: u8) -> bool
    ensures { result ≡ is_name byte }
{
    is_letter(byte) || is_digit(byte) || byte == b'-'
}

// Whether the byte is a blank.
#[tactic(auto, unfolding(crate::specs::Bytes::is_blank))]
pub(crate) fn is_blank(byte: u8) -> bool
    ensures { result ≡ is_blank byte }
{
    byte == b' ' || byte == b'\t' || byte == b'\n' || byte == b'\r'
}
