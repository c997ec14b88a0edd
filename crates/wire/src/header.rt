//! The header of a stream, as far as it has arrived.
//!
//! A header shows its version at the eighth byte and its counts at the sixteenth. An invalid shape is reported at the shape's
//! end, since only there all of it is known.

ghost use Rattle.std.specs.Prelude.{◌≡◌, ◌≤◌, ◌<◌, ◌+◌, ◌*◌, ◌==◌, ◌||◌, ◌↔◌, IsTrue, IfErr, IfOk, IfSome, MatchOption, drop, false, is_some, length, ℕ, List};
ghost use Rattle.machine.specs.Limits.{AreWithin, usual};
ghost use Rattle.wire.specs.Header.{Begins, Opening, said};
ghost use Rattle.wire.specs.HeaderFaults.{IsHeaderPart, IsRead, MayCount, OnFault, ShowsFault, limits_in};
ghost use Rattle.wire.specs.HeaderParts.{FirstShape, ReadShapes};

use crate::header_error::HeaderError;
use crate::numbers::u32_at;
use crate::shape_spelling::{allow_late, has_late, shape_at, shape_len};
use machine::{DEVICES_MAX, Limits, Shape};
use net::FRAME_MAX;
use std::alloc::{AllocError, Global};

/// "VMIG" as a little-endian number.
pub const MAGIC: u32 = 0x4749_4d56;

/// The version in which machines are written, unless they have a device that only version 3 has. It is read, too.
pub const VERSION: u32 = 2;

/// The version in which a machine is written with a network device for long frames or a disk outside: version 2 with two more rows of
/// shapes. It is read where the limits allow such a device.
pub const LATE_VERSION: u32 = 3;

/// The first version of the stream, which is read. It has no records of pages of zeros.
pub const FIRST_VERSION: u32 = 1;

/// How many bytes of the header come before the shapes.
pub const FRONT_LEN: usize = 16;

/// What the header of a stream says.
#[derive(Debug, Drop)]
pub struct Header {
    /// The version of the stream: 1 to 3.
    pub version: u32,

    /// The number of pages of RAM.
    pub pages: u32,

    /// The devices in order.
    pub shapes: Vec<Shape>,

    /// The length of the header itself, in bytes.
    pub len: usize,
}

/// Decodes the header at the beginning of the bytes. `None` if they begin with no header of a machine within the usual limits.
#[tactic(auto, using(crate::proofs::HeaderParts::none_at_fault, crate::proofs::HeaderParts::none_in_part, crate::proofs::HeaderParts::same_limits))]
pub fn decode_header(alloc: Global, bytes: &[u8]) -> Result<Option<Header>, AllocError>
    ensures found { IfOk result (λ found. MatchOption found
        ((opening : Opening) (rest : List ℕ) → AreWithin usual opening.pages opening.shapes → ¬ (Begins bytes.now opening rest))
        (λ h. (h.len ≤ length bytes.now) × Begins bytes.now (said h) (drop h.len bytes.now))) }
    ensures within { IfOk result (λ found. IfSome found (λ h. AreWithin usual h.pages h.shapes.items)) }
{
    match read_header(alloc, Limits::usual(), bytes) {
        Ok(Some(header)) => Ok(Some(header)),
        Ok(None) => Ok(None),
        Err(HeaderError::NoMemory) => Err(AllocError),
        Err(_) => Ok(None),
    }
}

/// The header at the front of the bytes, or its fault as soon as a byte shows it. A machine beyond the limits is a fault. `None` if it
/// is incomplete, with no fault so far: no more than 495 bytes are, so the first 496 of a stream tell what arrives, or its fault. What
/// takes memory is the list of at most sixteen shapes.
pub fn read_header(
    alloc: Global,
    limits: Limits,
    bytes: &[u8],
) -> Result<Option<Header>, HeaderError>
    ensures read { IfOk result (λ found. MatchOption found (IsHeaderPart limits bytes.now)
        (λ h. (h.len ≤ length bytes.now) × Begins bytes.now (said h) (drop h.len bytes.now))) }
    ensures within { IfOk result (λ found. IfSome found (λ h. AreWithin limits h.pages h.shapes.items)) }
    ensures few { IfOk result (λ found. is_some found ≡ false → length bytes.now ≤ 495) }
    ensures refused { IfErr result (λ e. OnFault e ((at : ℕ) × ShowsFault limits e bytes.now at)) }
{
    if bytes.len() < 4 {
        return Ok(None);
    }
    if u32_at(bytes, 0) != MAGIC {
        return Err(HeaderError::BadMagic);
    }
    if bytes.len() < 8 {
        return Ok(None);
    }
    let version = u32_at(bytes, 4);
    if !is_version(limits, version) {
        return Err(HeaderError::BadVersion);
    }
    if bytes.len() < FRONT_LEN {
        return Ok(None);
    }
    let pages = u32_at(bytes, 8);
    let count = u32_at(bytes, 12);
    if !may_count(limits, pages, count) {
        return Err(HeaderError::BadShape);
    }
    let (_, rest) = bytes.split_at(FRONT_LEN);
    let Some((shapes, rest)) = read_shapes(alloc, limits_in(version, limits), count, rest)? else {
        return Ok(None);
    };
    // Version 3 is that of the devices which version 2 has not: so a machine has one stream of each version that has it.
    if version == LATE_VERSION && !has_late(&shapes) {
        return Err(HeaderError::BadVersion);
    }
    let len = bytes.len() - rest.len();
    Ok(Some(Header {
        version,
        pages,
        shapes,
        len,
    }))
}

/// The shape at the front of the bytes, if it is complete, and the bytes after it. One beyond the limits is a fault.
fn first_shape(limits: Limits, bytes: &[u8]) -> Result<Option<(Shape, &[u8])>, HeaderError>
    ensures first { FirstShape limits (λ x. x.now) bytes.now result }
    ensures few { IfOk result (λ found. MatchOption found (length bytes.now < 30) (λ x. length bytes.now ≤ length x.1.now + 30)) }
{
    if let Some((shape, rest)) = shape_at(bytes) {
        if !limits.allow(shape) {
            return Err(HeaderError::BadShape);
        }
        return Ok(Some((shape, rest)));
    }
    let Some((number, _)) = bytes.split_first() else {
        return Ok(None);
    };
    let Some(len) = shape_len(limits, *number) else {
        return Err(HeaderError::BadShape);
    };
    if bytes.len() < len {
        return Ok(None);
    }
    Err(HeaderError::BadShape)
}

/// The first `count` shapes of the bytes, if they are complete, and the bytes after them.
fn read_shapes(
    alloc: Global,
    limits: Limits,
    count: u32,
    bytes: &[u8],
) -> Result<Option<(Vec<Shape>, &[u8])>, HeaderError>
    ensures read { ReadShapes limits (λ x. x.items) (λ x. x.now) count bytes.now result }
    ensures few { IfOk result (λ found. is_some found ≡ false → length bytes.now < 30 * count) }
{
    let mut shapes = Vec::new(alloc);
    let mut rest = bytes;
    for _ in 0..count {
        let Some((shape, after)) = first_shape(limits, rest)? else {
            return Ok(None);
        };
        let Ok(()) = shapes.push(shape) else {
            return Err(HeaderError::NoMemory);
        };
        rest = after;
    }
    Ok(Some((shapes, rest)))
}

/// Whether a machine may have `pages` pages and `count` devices.
fn may_count(limits: Limits, pages: u32, count: u32) -> bool
    ensures { IsTrue result ↔ MayCount limits pages count }
{
    1 <= pages && pages <= limits.pages && 1 <= count && count <= DEVICES_MAX as u32
}

/// Whether a host with these limits reads this version of the stream.
pub fn is_version(limits: Limits, version: u32) -> bool
    ensures known { IsTrue result ↔ IsRead limits version }
{
    version == FIRST_VERSION || version == VERSION || version == LATE_VERSION && allow_late(limits)
}

/// What these limits allow in a stream of this version: no device for long frames and no disk outside before version 3.
fn limits_in(version: u32, limits: Limits) -> Limits
    ensures { result ≡ limits_in version limits }
{
    if version >= LATE_VERSION {
        return limits;
    }
    Limits {
        frame: FRAME_MAX,
        outside: 0,
        ..limits
    }
}
