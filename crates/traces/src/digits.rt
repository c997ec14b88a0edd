//! Decimal digits.

ghost use Rattle.std.specs.Prelude.{◌≡◌, ◌≤◌, drop, decimal, length};

/// How many digits the greatest u64 has.
pub const MOST_DIGITS: usize = 20;

/// Writes the digits of a number at the end of `room`, and returns the index where they begin.
pub fn write_decimal(room: &mut [u8], number: u64) -> usize
    requires { length room.old ≡ MOST_DIGITS }
    ensures within { result ≤ MOST_DIGITS }
    ensures digits { drop result room.new ≡ decimal number }
{
    let mut at = MOST_DIGITS;
    let mut rest = number;
    while rest >= 10 {
        at -= 1;
        room[at] = b'0' + (rest % 10) as u8;
        rest /= 10;
    }
    at -= 1;
    room[at] = b'0' + rest as u8;
    at
}
