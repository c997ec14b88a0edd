//! What a block device is to its driver (VIRTIO 1.2, 5.2): its id, its queue, its features and its configuration space; and what one
//! may be made as.
//!
//! The configuration has 57 bytes (VIRTIO 1.2, 5.2.4): the capacity at 0, and at 48 the limits of WRITE_ZEROES. The fields
//! between belong to features that are not offered, and read 0, as do bytes after the 57.
//!
//! A device whose disk is outside offers SEG_MAX besides, and its limit at 12: a driver sends it large requests, since each is one call
//! of the host. Without that feature a driver like Linux sends one segment of data a request.

ghost use Rattle.std.specs.Prelude.{◌≡◌, ◌↔◌, IsTrue};
ghost use Rattle.blk.specs.Shape.{IsBlockShape, IsOutsideShape, configuration_of, features_of, outside_configuration_of, outside_features_of};

use byteorder::{ByteOrder, LittleEndian};
use guestmem::recall_bytes;

/// The device ID of a block device (VIRTIO 1.2, 5.2.1).
pub const DEVICE_ID: u32 = 2;

/// It has one queue, of requests (VIRTIO 1.2, 5.2.2).
pub const QUEUE_COUNT: u8 = 1;

/// The feature SEG_MAX: the device says how many segments of data a request may have (VIRTIO 1.2, 5.2.3).
pub const SEG_MAX: u64 = 1 << 2;

/// The feature RO: the driver may only read the disk (VIRTIO 1.2, 5.2.3).
pub const RO: u64 = 1 << 5;

/// The feature FLUSH: the driver may ask for a flush of the disk (VIRTIO 1.2, 5.2.3).
pub const FLUSH: u64 = 1 << 9;

/// The feature WRITE_ZEROES: the driver may ask for a range of sectors to be cleared (VIRTIO 1.2, 5.2.3).
pub const WRITE_ZEROES: u64 = 1 << 14;

/// The most segments of data of a request (VIRTIO 1.2, 5.2.4: seg_max): with its header and its verdict they fill the largest queue.
pub const SEGMENTS_MAX: u32 = 254;

/// The most sectors that one request may clear (VIRTIO 1.2, 5.2.4: max_write_zeroes_sectors).
pub const ZEROES_MAX: u32 = 4096;

/// The most sectors that a block device can have: as many as a number of 32 bits can say, 2 TiB in all.
pub const SECTORS_GREATEST: u64 = 4_294_967_295;

/// The most sectors of a block device whose host asks for no more: 1 GiB in all.
pub const SECTORS_MAX: u64 = 2_097_152;

/// The most sectors of a device whose disk is outside: as many as a signed 64-bit number of bytes can say.
pub const OUTSIDE_GREATEST: u64 = 1 << 54;

/// Bytes in the configuration space (VIRTIO 1.2, 5.2.4).
pub const CONFIGURATION_SIZE: usize = 57;

/// Bytes in the id of a device (VIRTIO 1.2, 5.2.6).
pub const ID_SIZE: usize = 20;

/// What a driver may ask for.
#[derive(Clone, Copy)]
pub struct Limits {
    /// How many sectors there are (VIRTIO 1.2, 5.2.4: the capacity).
    pub sectors: u64,

    /// Whether it may only read them (VIRTIO 1.2, 5.2.3: the feature RO).
    pub read_only: bool,

    /// Whether it accepted WRITE_ZEROES (VIRTIO 1.2, 5.2.3), so that it may ask for ranges to be cleared.
    pub may_clear: bool,
}

/// Whether a block device may have `sectors` sectors and this id.
pub fn is_block_shape(sectors: u64, id: &[u8; ID_SIZE]) -> bool
    ensures { IsTrue result ↔ IsBlockShape sectors id.now }
{
    recall_bytes(id);
    1 <= sectors && sectors <= SECTORS_GREATEST
}

/// Whether a device whose disk is outside may have `sectors` sectors and this id.
pub fn is_outside_shape(sectors: u64, id: &[u8; ID_SIZE]) -> bool
    ensures { IsTrue result ↔ IsOutsideShape sectors id.now }
{
    recall_bytes(id);
    1 <= sectors && sectors <= OUTSIDE_GREATEST
}

/// The features that a block device offers, beside those that every device offers (VIRTIO 1.2, 5.2.3).
pub fn features(read_only: bool) -> u64
    ensures { result ≡ features_of read_only }
{
    if read_only {
        FLUSH | WRITE_ZEROES | RO
    } else {
        FLUSH | WRITE_ZEROES
    }
}

/// The features that a device offers whose disk is outside, beside those that every device offers (VIRTIO 1.2, 5.2.3).
pub fn outside_features(read_only: bool) -> u64
    ensures { result ≡ outside_features_of read_only }
{
    features(read_only) | SEG_MAX
}

/// The configuration space of a device with `sectors` sectors (VIRTIO 1.2, 5.2.4).
#[tactic(auto, unfolding(crate::specs::Shape::configuration_of))]
pub fn configuration(sectors: u64) -> [u8; CONFIGURATION_SIZE]
    ensures { result ≡ configuration_of sectors }
{
    let mut bytes = [0; CONFIGURATION_SIZE];
    LittleEndian::write_u64(&mut bytes[0..], sectors);
    LittleEndian::write_u32(&mut bytes[48..], ZEROES_MAX);
    LittleEndian::write_u32(&mut bytes[52..], 1);
    bytes
}

/// The configuration space of a device with `sectors` sectors outside (VIRTIO 1.2, 5.2.4).
#[tactic(auto, unfolding(crate::specs::Shape::outside_configuration_of))]
pub fn outside_configuration(sectors: u64) -> [u8; CONFIGURATION_SIZE]
    ensures { result ≡ outside_configuration_of sectors }
{
    let mut bytes = [0; CONFIGURATION_SIZE];
    LittleEndian::write_u64(&mut bytes[0..], sectors);
    LittleEndian::write_u32(&mut bytes[12..], SEGMENTS_MAX);
    LittleEndian::write_u32(&mut bytes[48..], ZEROES_MAX);
    LittleEndian::write_u32(&mut bytes[52..], 1);
    bytes
}
