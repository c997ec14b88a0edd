//! Words for what a driver writes into its rings, in place of the bytes.

use std::io::{self, ErrorKind, Write};

/// The letters of a descriptor's flags: NEXT, WRITE, INDIRECT, and AVAIL and USED of a packed ring.
const LETTERS: [(char, u16); 5] = [('N', 1), ('W', 2), ('I', 4), ('A', 128), ('U', 32_768)];

/// Writes the digits of the sixteen bytes of a descriptor: `BUFFER LEN FLAGS NAME`. In a split ring the flags come before the
/// name, which is the index of the next one, in a packed ring after it, and it is the id. The buffer is that many bytes behind `base`.
pub fn write_descriptor(
    out: &mut Vec<u8>,
    words: &str,
    is_packed: bool,
    base: u64,
) -> io::Result<()> {
    let mut words = words.split(' ');
    let buffer = value(words.next().unwrap_or(""))?.wrapping_add(base);
    let len = value(words.next().unwrap_or(""))?;
    let flags = flags_of(words.next().unwrap_or(""))?;
    let name = value(words.next().unwrap_or("0"))?;
    write_number(out, buffer, 8)?;
    write_number(out, len, 4)?;
    let (third, fourth) = if is_packed {
        (name, flags as u64)
    } else {
        (flags as u64, name)
    };
    write_number(out, third, 2)?;
    write_number(out, fourth, 2)
}

/// Writes the digits of the driver area of a split ring up to its last head: `INDEX HEAD HEAD ..`, after flags of 0.
pub fn write_available(out: &mut Vec<u8>, words: &str) -> io::Result<()> {
    write_number(out, 0, 2)?;
    for word in words.split(' ') {
        write_number(out, value(word)?, 2)?;
    }
    Ok(())
}

/// Writes the digits of the lowest bytes of a number, the lowest first.
fn write_number(out: &mut Vec<u8>, number: u64, width: usize) -> io::Result<()> {
    for byte in number.to_le_bytes().iter().take(width) {
        write!(out, "{byte:02x}")?;
    }
    Ok(())
}

/// Flags by their letters, `-` for none, or as a number.
fn flags_of(word: &str) -> io::Result<u16> {
    if let Some(digits) = word.strip_prefix("0x") {
        return u16::from_str_radix(digits, 16).map_err(|_| bad_word());
    }
    let mut flags = 0;
    for letter in word.chars() {
        flags |= flag_of(letter)?;
    }
    Ok(flags)
}

fn flag_of(letter: char) -> io::Result<u16> {
    for (known, flag) in LETTERS {
        if letter == known {
            return Ok(flag);
        }
    }
    if letter == '-' {
        return Ok(0);
    }
    Err(bad_word())
}

/// The number of decimal digits, or of hexadecimal ones after `0x`.
pub fn value(word: &str) -> io::Result<u64> {
    match word.strip_prefix("0x") {
        Some(digits) => u64::from_str_radix(digits, 16).map_err(|_| bad_word()),
        None => word.parse::<u64>().map_err(|_| bad_word()),
    }
}

fn bad_word() -> io::Error {
    io::Error::from(ErrorKind::InvalidData)
}
