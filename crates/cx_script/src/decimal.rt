//! Numbers in decimal digits.

ghost use Rattle.std.specs.Prelude.{◌≡◌, ◌&&◌, ◌+◌, ◌*◌, ◌^◌, nat_lt, if◌then◌else◌};
ghost use Rattle.std.specs.Char.{is_ascii_digit, digit_value};
ghost use Rattle.cx_script.specs.Words.{word_number};

fn with_digit(number: u64, byte: u8) -> Option<u64>
    ensures { result ≡ (if is_ascii_digit byte && nat_lt (number * 10 + digit_value byte) (2 ^ 64)
        then Some (number * 10 + digit_value byte) else None) }
{
    if !byte.is_ascii_digit() {
        return None;
    }
    number.checked_mul(10)?.checked_add(u64::from(byte - b'0'))
}

/// The number that a word of decimal digits spells, or None where it has no byte or another one, or its number has more
/// than 64 bits.
pub fn number(word: &[u8]) -> Option<u64>
    ensures { result ≡ word_number word.now }
{
    if word.is_empty() {
        return None;
    }
    let mut number = 0;
    for byte in word {
        number = with_digit(number, *byte)?;
    }
    Some(number)
}
