//! The parts of a body that all devices have: the registers that are not per queue, and the queues with their
//! positions.

ghost use Rattle.std.specs.Prelude.{◌≡◌, ◌≤◌, ◌↔◌, IsTrue, length};
ghost use Rattle.wire.specs.DeviceBody.{common_text, queue_text};
ghost use Rattle.wire.specs.BodyReading.{common_of, queue_of, positions_of, HasFlags};

use crate::numbers::{flag_at, u8_at, u16_at, u32_at, u64_at};
use byteorder::{ByteOrder, LittleEndian};
use chains::{Position, Positions};
use mmio::{Common, Queue};

/// The encoded length of the registers that are not per queue.
pub const COMMON_LEN: usize = 26;

/// The encoded length of a queue and its positions.
pub const QUEUE_LEN: usize = 36;

/// Encodes the registers that are not per queue.
#[tactic(auto, unfolding(crate::specs::DeviceBody::common_text))]
pub fn common_bytes(common: &Common) -> [u8; 26]
    ensures { result ≡ common_text common.now }
{
    let mut bytes = [0; COMMON_LEN];
    bytes[0] = common.status;
    bytes[1] = common.interrupts;
    LittleEndian::write_u32(&mut bytes[2..], common.device_select);
    LittleEndian::write_u32(&mut bytes[6..], common.driver_select);
    LittleEndian::write_u64(&mut bytes[10..], common.features);
    LittleEndian::write_u32(&mut bytes[18..], common.queue_select);
    LittleEndian::write_u32(&mut bytes[22..], common.generation);
    bytes
}

/// Decodes the registers that are not per queue from the first 26 bytes.
#[tactic(auto, unfolding(crate::specs::BodyReading::common_of))]
pub fn common_at(bytes: &[u8]) -> Common
    requires { 26 ≤ length bytes.now }
    ensures { result ≡ common_of bytes.now }
{
    Common {
        status: u8_at(bytes, 0),
        interrupts: u8_at(bytes, 1),
        device_select: u32_at(bytes, 2),
        driver_select: u32_at(bytes, 6),
        features: u64_at(bytes, 10),
        queue_select: u32_at(bytes, 18),
        generation: u32_at(bytes, 22),
    }
}

/// Encodes a queue and its positions.
#[tactic(auto, unfolding(crate::specs::DeviceBody::queue_text))]
pub fn queue_bytes(queue: &Queue, positions: &Positions) -> [u8; 36]
    ensures { result ≡ queue_text queue.now positions.now }
{
    let mut bytes = [0; QUEUE_LEN];
    LittleEndian::write_u32(&mut bytes[0..], queue.size);
    LittleEndian::write_u64(&mut bytes[4..], queue.descriptors);
    LittleEndian::write_u64(&mut bytes[12..], queue.driver);
    LittleEndian::write_u64(&mut bytes[20..], queue.device);
    bytes[28] = queue.is_ready as u8;
    bytes[29] = queue.is_notified as u8;
    LittleEndian::write_u16(&mut bytes[30..], positions.taking.place);
    bytes[32] = positions.taking.wrap as u8;
    LittleEndian::write_u16(&mut bytes[33..], positions.used.place);
    bytes[35] = positions.used.wrap as u8;
    bytes
}

/// Decodes the queue in the first 36 bytes. Its positions follow it there: `positions_at` reads them.
#[tactic(auto, unfolding(crate::specs::BodyReading::queue_of))]
pub fn queue_at(bytes: &[u8]) -> Queue
    requires { 36 ≤ length bytes.now }
    ensures { result ≡ queue_of bytes.now }
{
    Queue {
        size: u32_at(bytes, 0),
        descriptors: u64_at(bytes, 4),
        driver: u64_at(bytes, 12),
        device: u64_at(bytes, 20),
        is_ready: flag_at(bytes, 28),
        is_notified: flag_at(bytes, 29),
    }
}

/// Decodes the positions of the queue in the first 36 bytes.
#[tactic(auto, unfolding(crate::specs::BodyReading::positions_of))]
pub fn positions_at(bytes: &[u8]) -> Positions
    requires { 36 ≤ length bytes.now }
    ensures { result ≡ positions_of bytes.now }
{
    Positions {
        taking: Position {
            place: u16_at(bytes, 30),
            wrap: flag_at(bytes, 32),
        },
        used: Position {
            place: u16_at(bytes, 33),
            wrap: flag_at(bytes, 35),
        },
    }
}

/// Whether each flag of the queue is 0 or 1.
pub fn has_flags(bytes: &[u8]) -> bool
    requires { 36 ≤ length bytes.now }
    ensures { IsTrue result ↔ HasFlags bytes.now }
{
    u8_at(bytes, 28) <= 1 && u8_at(bytes, 29) <= 1 && u8_at(bytes, 32) <= 1 && u8_at(bytes, 35) <= 1
}
