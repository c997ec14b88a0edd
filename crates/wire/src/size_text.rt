//! The size of a console in its body.

ghost use Rattle.std.specs.Prelude.{◌≡◌, ◌≤◌, length};
ghost use Rattle.wire.specs.BodyReading.{console_size_of};
ghost use Rattle.wire.specs.DeviceBody.{size_text};

use crate::numbers::u16_at;
use byteorder::{ByteOrder, LittleEndian};
use console::ConsoleSize;

/// The encoded length of a console's size.
pub const SIZE_LEN: usize = 4;

/// Encodes the size of a console: the columns, then the rows.
#[tactic(auto, unfolding(crate::specs::DeviceBody::size_text))]
pub fn size_bytes(size: &ConsoleSize) -> [u8; 4]
    ensures { result ≡ size_text size.now }
{
    let mut bytes = [0; SIZE_LEN];
    LittleEndian::write_u16(&mut bytes[0..], size.columns);
    LittleEndian::write_u16(&mut bytes[2..], size.rows);
    bytes
}

/// Decodes the size of a console from the first four bytes.
#[tactic(auto, unfolding(crate::specs::BodyReading::console_size_of))]
pub fn size_at(bytes: &[u8]) -> ConsoleSize
    requires { 4 ≤ length bytes.now }
    ensures { result ≡ console_size_of bytes.now }
{
    ConsoleSize {
        columns: u16_at(bytes, 0),
        rows: u16_at(bytes, 2),
    }
}
