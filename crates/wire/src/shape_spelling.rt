//! Shapes in the header of a stream: the device ID, and what it has.

ghost use Rattle.std.specs.Prelude.{◌≡◌, MatchOption, None, Some};
ghost use Rattle.std.specs.List.{list_any};
ghost use Rattle.wire.specs.Header.{allow_late, is_late, shape_length};
ghost use Rattle.wire.specs.ShapeReading.{block_shape_of, long_net_shape_of, net_shape_of, outside_shape_of, shape_of};

use crate::numbers::{u8_at, u16_at, u64_at};
use blk::{OUTSIDE_GREATEST, SECTORS_GREATEST};
use machine::{Limits, Shape};
use net::FRAME_MAX;

/// The device ID with which the shape of a network device begins.
pub const NET_ID: u8 = 1;

/// The device ID with which the shape of a block device begins.
pub const BLOCK_ID: u8 = 2;

/// The device ID that is the shape of a console.
pub const CONSOLE_ID: u8 = 3;

/// The device ID that is the shape of an entropy device.
pub const ENTROPY_ID: u8 = 4;

/// The number with which the shape of a network device for long frames begins. Since version 3.
pub const LONG_NET_ID: u8 = 129;

/// The number with which the shape of a block device begins whose disk is outside. Since version 3.
pub const OUTSIDE_ID: u8 = 130;

/// The length of the shape of a network device, in bytes: the ID, and 6 of its MAC.
pub const NET_SHAPE: usize = 7;

/// The length of the shape of a network device for long frames, in bytes: the number, 6 of its MAC, 2 of its longest frame.
pub const LONG_NET_SHAPE: usize = 9;

/// The length of the shape of a block device, in bytes: the ID, 8 of its sectors, 1 that says whether it is read-only, 20 of its id.
pub const BLOCK_SHAPE: usize = 30;

/// The length of the shape of a block device whose disk is outside, in bytes: the number, and what the shape of a block device has.
pub const OUTSIDE_SHAPE: usize = 30;

/// The length of the shape of a console, in bytes.
pub const CONSOLE_SHAPE: usize = 1;

/// The length of the shape of an entropy device, in bytes.
pub const ENTROPY_SHAPE: usize = 1;

/// Whether the limits allow a device that no version before 3 has: a network device for long frames, or a disk outside.
#[tactic(auto, unfolding(crate::specs::Header::allow_late))]
pub(crate) fn allow_late(limits: Limits) -> bool
    ensures { result ≡ allow_late limits }
{
    limits.frame > FRAME_MAX || limits.outside > 0
}

/// The encoded length of a shape whose first byte, the number of the kind of device, is this. `None` if no kind that the limits allow
/// has this number.
pub fn shape_len(limits: Limits, number: u8) -> Option<usize>
    ensures { MatchOption result (shape_length limits number ≡ None) (λ len. shape_length limits number ≡ Some len) }
{
    match number {
        NET_ID => Some(NET_SHAPE),
        BLOCK_ID => Some(BLOCK_SHAPE),
        CONSOLE_ID => Some(CONSOLE_SHAPE),
        ENTROPY_ID => Some(ENTROPY_SHAPE),
        LONG_NET_ID if allow_late(limits) => Some(LONG_NET_SHAPE),
        OUTSIDE_ID if allow_late(limits) => Some(OUTSIDE_SHAPE),
        _ => None,
    }
}

/// Decodes the shape at the front of the bytes; returns it and the bytes after it.
#[tactic(auto, unfolding(crate::specs::ShapeReading::shape_of))]
pub fn shape_at(bytes: &[u8]) -> Option<(Shape, &[u8])>
    ensures { MatchOption result (shape_of bytes.now ≡ None) (λ x. shape_of bytes.now ≡ Some (x.0, x.1.now)) }
{
    let Some((number, rest)) = bytes.split_first() else {
        return None;
    };
    match *number {
        NET_ID => net_shape_at(rest),
        BLOCK_ID => block_shape_at(rest),
        CONSOLE_ID => Some((Shape::Console, rest)),
        ENTROPY_ID => Some((Shape::Entropy, rest)),
        LONG_NET_ID => long_net_shape_at(rest),
        OUTSIDE_ID => outside_shape_at(rest),
        _ => None,
    }
}

#[tactic(auto, unfolding(crate::specs::ShapeReading::net_shape_of))]
fn net_shape_at(bytes: &[u8]) -> Option<(Shape, &[u8])>
    ensures { MatchOption result (net_shape_of bytes.now ≡ None) (λ x. net_shape_of bytes.now ≡ Some (x.0, x.1.now)) }
{
    if bytes.len() < 6 {
        return None;
    }
    let (front, rest) = bytes.split_at(6);
    let mut mac = [0; 6];
    mac.copy_from_slice(front);
    Some((Shape::Net { mac }, rest))
}

#[tactic(auto, unfolding(crate::specs::ShapeReading::long_net_shape_of))]
fn long_net_shape_at(bytes: &[u8]) -> Option<(Shape, &[u8])>
    ensures { MatchOption result (long_net_shape_of bytes.now ≡ None) (λ x. long_net_shape_of bytes.now ≡ Some (x.0, x.1.now)) }
{
    if bytes.len() < 8 || u16_at(bytes, 6) <= FRAME_MAX {
        return None;
    }
    let longest = u16_at(bytes, 6);
    let (front, _) = bytes.split_at(6);
    let (_, rest) = bytes.split_at(8);
    let mut mac = [0; 6];
    mac.copy_from_slice(front);
    Some((Shape::LongNet { mac, longest }, rest))
}

#[tactic(auto, unfolding(crate::specs::ShapeReading::block_shape_of))]
fn block_shape_at(bytes: &[u8]) -> Option<(Shape, &[u8])>
    ensures { MatchOption result (block_shape_of bytes.now ≡ None) (λ x. block_shape_of bytes.now ≡ Some (x.0, x.1.now)) }
{
    if bytes.len() < 29 || u8_at(bytes, 8) > 1 {
        return None;
    }
    let sectors = u64_at(bytes, 0);
    if sectors == 0 || sectors > SECTORS_GREATEST {
        return None;
    }
    let read_only = u8_at(bytes, 8) == 1;
    let (_, rest) = bytes.split_at(9);
    let (front, rest) = rest.split_at(20);
    let mut id = [0; 20];
    id.copy_from_slice(front);
    Some((
        Shape::Block {
            sectors,
            read_only,
            id,
        },
        rest,
    ))
}

#[tactic(auto, unfolding(crate::specs::ShapeReading::outside_shape_of))]
fn outside_shape_at(bytes: &[u8]) -> Option<(Shape, &[u8])>
    ensures { MatchOption result (outside_shape_of bytes.now ≡ None) (λ x. outside_shape_of bytes.now ≡ Some (x.0, x.1.now)) }
{
    if bytes.len() < OUTSIDE_SHAPE - 1 || u8_at(bytes, 8) > 1 {
        return None;
    }
    let sectors = u64_at(bytes, 0);
    if sectors == 0 || sectors > OUTSIDE_GREATEST {
        return None;
    }
    let read_only = u8_at(bytes, 8) == 1;
    let (_, rest) = bytes.split_at(9);
    let (front, rest) = rest.split_at(20);
    let mut id = [0; 20];
    id.copy_from_slice(front);
    Some((
        Shape::Outside {
            sectors,
            read_only,
            id,
        },
        rest,
    ))
}

/// Whether one of these is a device that no version before 3 has.
pub(crate) fn has_late(shapes: &[Shape]) -> bool
    ensures { result ≡ list_any is_late shapes.now }
{
    shapes.iter().any(|shape| is_late(*shape))
}

/// Whether no version before 3 has such a device: one for long frames, or one whose disk is outside.
fn is_late(shape: Shape) -> bool
    ensures { result ≡ is_late shape }
{
    match shape {
        Shape::LongNet { .. } | Shape::Outside { .. } => true,
        Shape::Net { .. } | Shape::Block { .. } | Shape::Console | Shape::Entropy => false,
    }
}
