//! The numbers in a stream: little-endian.

ghost use Rattle.std.specs.Prelude.{◌≡◌, ◌≤◌, ◌+◌, length, nat_eq};
ghost use Rattle.guestmem.specs.Number.{number_at};
ghost use Rattle.wire.specs.Numbers.{digits};

use byteorder::{ByteOrder, LittleEndian};

/// The encoded length of a count of frames or of bytes in the body of a device.
pub const COUNT_LEN: usize = 2;

/// Encodes a count in two bytes.
pub fn count_bytes(count: u16) -> [u8; 2]
    ensures { result ≡ digits 2 count }
{
    let mut bytes = [0; COUNT_LEN];
    LittleEndian::write_u16(&mut bytes, count);
    bytes
}

/// The byte at offset `at`.
#[tactic(auto, unfolding(guestmem::specs::Number::number_at))]
pub fn u8_at(bytes: &[u8], at: usize) -> u8
    requires { at + 1 ≤ length bytes.now }
    ensures { result ≡ number_at bytes.now at 1 }
{
    bytes[at]
}

/// The little-endian number of two bytes at offset `at`.
#[tactic(auto, unfolding(guestmem::specs::Number::number_at))]
pub fn u16_at(bytes: &[u8], at: usize) -> u16
    requires { at + 2 ≤ length bytes.now }
    ensures { result ≡ number_at bytes.now at 2 }
{
    LittleEndian::read_u16(&bytes[at..])
}

/// The little-endian number of four bytes at offset `at`.
#[tactic(auto, unfolding(guestmem::specs::Number::number_at))]
pub fn u32_at(bytes: &[u8], at: usize) -> u32
    requires { at + 4 ≤ length bytes.now }
    ensures { result ≡ number_at bytes.now at 4 }
{
    LittleEndian::read_u32(&bytes[at..])
}

/// The little-endian number of eight bytes at offset `at`.
#[tactic(auto, unfolding(guestmem::specs::Number::number_at))]
pub fn u64_at(bytes: &[u8], at: usize) -> u64
    requires { at + 8 ≤ length bytes.now }
    ensures { result ≡ number_at bytes.now at 8 }
{
    LittleEndian::read_u64(&bytes[at..])
}

/// Whether the byte at offset `at` is 1.
pub fn flag_at(bytes: &[u8], at: usize) -> bool
    requires { at + 1 ≤ length bytes.now }
    ensures { result ≡ nat_eq (number_at bytes.now at 1) 1 }
{
    u8_at(bytes, at) == 1
}
