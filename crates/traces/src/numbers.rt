//! Numbers, as words encode them.
//!
//! Leading zeros count towards the 20 digits of a number.

ghost use Rattle.std.specs.Prelude.{◌≡◌, ◌≤◌, ◌<◌, ◌^◌, length, IfSome};
ghost use Rattle.hex.specs.Hex.{hex_digit_value};
ghost use Rattle.traces.specs.Numbers.{digits_after, decimal_digit_value, number_of};

/// The most digits that a number has.
const DECIMAL_DIGITS: usize = 20;

const HEXADECIMAL_DIGITS: usize = 16;

fn decimal_digit(c: u8) -> Option<u8>
    ensures value { result ≡ decimal_digit_value c }
    ensures bound { IfSome result (λ d. d < 10) }
{
    if c.is_ascii_digit() {
        Some(c - b'0')
    } else {
        None
    }
}

fn hexadecimal_digit(c: u8) -> Option<u8>
    ensures value { result ≡ hex_digit_value c }
    ensures bound { IfSome result (λ d. d < 16) }
{
    match c {
        b'0'..=b'9' => Some(c - b'0'),
        b'a'..=b'f' => Some(c - b'a' + 10),
        b'A'..=b'F' => Some(c - b'A' + 10),
        _ => None,
    }
}

/// The number that decimal digits encode. Twenty of them may exceed a u64, so it is a u128.
#[tactic(auto, using(crate::proofs::Numerals::goes_on, crate::proofs::Numerals::fails, crate::proofs::Numerals::ends, crate::proofs::Numerals::grows))]
fn decimal(word: &[u8]) -> Option<u128>
    requires { length word.now ≤ DECIMAL_DIGITS }
    ensures { result ≡ digits_after decimal_digit_value 10 0 word.now }
{
    let mut value = 0u128;
    for c in word {
        value = 10 * value + decimal_digit(*c)? as u128;
    }
    Some(value)
}

/// The number that hexadecimal digits of either case encode.
#[tactic(auto, using(crate::proofs::Numerals::goes_on, crate::proofs::Numerals::fails, crate::proofs::Numerals::ends, crate::proofs::Numerals::grows))]
fn hexadecimal(word: &[u8]) -> Option<u128>
    requires { length word.now ≤ HEXADECIMAL_DIGITS }
    ensures { result ≡ digits_after hex_digit_value 16 0 word.now }
{
    let mut value = 0u128;
    for c in word {
        value = 16 * value + hexadecimal_digit(*c)? as u128;
    }
    Some(value)
}

/// The number that a word encodes: 1 to 20 decimal digits, or `0x` and 1 to 16 hexadecimal digits.
#[tactic(auto, unfolding(crate::specs::Numbers::number_of))]
pub fn number(word: &[u8]) -> Option<u128>
    ensures { result ≡ number_of word.now }
{
    match word {
        [b'0', b'x', digits @ ..] => {
            if digits.is_empty() || digits.len() > HEXADECIMAL_DIGITS {
                return None;
            }
            hexadecimal(digits)
        }
        _ => {
            if word.is_empty() || word.len() > DECIMAL_DIGITS {
                return None;
            }
            decimal(word)
        }
    }
}
