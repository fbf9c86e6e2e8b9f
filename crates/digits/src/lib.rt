// Bytes as pairs of hexadecimal digits: read from a text, and written at a place of a lent one.
#![tactic(auto)]

ghost use Rattle.std.specs.Prelude.{◌≡◌, ◌+◌, ◌*◌, ◌<◌, ◌≤◌, cond, length, get_or, [], ◌∷◌};
ghost use Rattle.std.proofs.lemmas.List.Edits.{sets};
ghost use Rattle.digits.specs.Digits.{is_digit, digit_value, digit_of, byte_of, digits};

// How many values a digit has.
pub const DIGITS: u8 = 0x10;

// The byte is one of 0-9 and A-F.
#[tactic(auto, unfolding(crate::specs::Digits::between))]
pub fn is_digit(byte: u8) -> bool
    ensures { result ≡ is_digit byte }
{
    matches!(byte, b'0'..=b'9' | b'A'..=b'F')
}

// A digit's value; none where the byte is no digit.
#[tactic(auto, using(crate::proofs::Hexadecimal::inside, crate::proofs::Hexadecimal::below, crate::proofs::Hexadecimal::above))]
pub fn value_of_digit(byte: u8) -> Option<u8>
    ensures { result ≡ cond (is_digit byte) (Some (digit_value byte)) None }
{
    match byte {
        b'0'..=b'9' => Some(byte - b'0'),
        b'A'..=b'F' => Some(byte - b'A' + 10),
        _ => None,
    }
}

// A digit's value; 0 where the byte is no digit.
#[tactic(auto, unfolding(crate::specs::Digits::between))]
pub fn digit_value(byte: u8) -> u8
    ensures { result ≡ digit_value byte }
{
    value_of_digit(byte).unwrap_or(0)
}

// The digit of a value.
#[tactic(auto, unfolding(crate::specs::Digits::digit_of))]
pub fn digit_of(value: u8) -> u8
    requires { value < 16 }
    ensures { result ≡ digit_of value }
{
    if value < 10 {
        value + b'0'
    } else {
        value - 10 + b'A'
    }
}

// The byte whose two digits stand at `at`; what is no digit counts as 0.
#[tactic(auto, using(crate::proofs::Hexadecimal::a_value_below))]
pub fn byte_at(text: &[u8], at: usize) -> u8
    requires { at + 1 < length text.now }
    ensures { result ≡ byte_of (get_or text.now at 0) (get_or text.now (at + 1) 0) }
{
    digit_value(text[at]) * DIGITS + digit_value(text[at + 1])
}

// Writes the two digits of a byte at a place of the text.
pub fn put_byte(text: &mut [u8], at: usize, byte: u8)
    requires { at + 1 < length text.old }
    ensures { text.new ≡ sets text.old at (digits (byte ∷ [])) }
{
    text[at] = digit_of(byte / DIGITS);
    text[at + 1] = digit_of(byte % DIGITS);
}

// Writes the two digits of each byte, from a place of the text on.
pub fn put_bytes(text: &mut [u8], at: usize, bytes: &[u8])
    requires { at + 2 * length bytes.now ≤ length text.old }
    ensures { text.new ≡ sets text.old at (digits bytes.now) }
{
    for (i, byte) in bytes.iter().enumerate() {
        put_byte(text, at + 2 * i, *byte);
    }
}
