//! What a request asks for.
//!
//! A request to clear has one segment; any other length is IOERR, decided before its flags are. The flag to unmap gives leave,
//! and no duty: the sectors are written with zeros, one a step. So a disk needs no call of its own for it, a failed write makes
//! one sector bad, and the machine can be moved between two of them.

ghost use Rattle.std.specs.Prelude.{◌≡◌, ◌≤◌, ◌<◌, ◌+◌, ◌^◌, nat_lt};
ghost use Rattle.guestmem.specs.Number.{number_at};
ghost use Rattle.blk.specs.Task.{clear, refused, transfer, task_of};
ghost use Rattle.blk.specs.declared.request.Verdict.TheVariants.{Good};

use crate::disk::SECTOR_SIZE;
use crate::request::{
    HEADER_SIZE, Kind, SEGMENT_SIZE, TYPE_FLUSH, TYPE_GET_ID, TYPE_IN, TYPE_OUT, TYPE_WRITE_ZEROES,
    Verdict,
};
use crate::shape::{ID_SIZE, Limits, ZEROES_MAX};
use byteorder::{ByteOrder, LittleEndian};

/// What a request asks for.
#[derive(Clone, Copy, Debug, PartialEq, Eq)]
pub struct Task {
    /// What it does.
    pub kind: Kind,

    /// How it went so far.
    pub verdict: Verdict,

    /// The first sector that it moves or clears.
    pub first: u64,

    /// How many units it has.
    pub units: u32,
}

/// The flag of a segment that allows the device to unmap its sectors (VIRTIO 1.2, 5.2.6).
const UNMAP: u32 = 1;

/// A request that only reports its verdict.
fn refused(verdict: Verdict) -> Task
    ensures { result ≡ refused verdict }
{
    Task {
        kind: Kind::Refused,
        verdict,
        first: 0,
        units: 0,
    }
}

/// Whether a range of `count` sectors from `first` on ends past the last of `capacity` sectors.
fn is_past(first: u64, count: u64, capacity: u64) -> bool
    ensures { result ≡ nat_lt capacity (first + count) }
{
    first > capacity || count > capacity - first
}

/// Moves `bytes` bytes from or to the sectors from `first` on.
fn transfer(kind: Kind, first: u64, bytes: u64, capacity: u64) -> Task
    requires { bytes < 2 ^ 32 }
    ensures { result ≡ transfer kind first bytes capacity }
{
    if bytes % SECTOR_SIZE as u64 != 0 {
        return refused(Verdict::IoError);
    }
    let units = bytes / SECTOR_SIZE as u64;
    if is_past(first, units, capacity) {
        return refused(Verdict::IoError);
    }
    Task {
        kind,
        verdict: Verdict::Good,
        first,
        units: units as u32,
    }
}

/// Clears the range of sectors that this segment names, by a request with `readable` readable bytes.
#[tactic(auto, unfolding(guestmem::specs::Number::number_at))]
fn clear(segment: &[u8; SEGMENT_SIZE], readable: u64, limits: Limits) -> Task
    ensures { result ≡ clear segment.now readable limits }
{
    let first = LittleEndian::read_u64(&segment[..]);
    let count = LittleEndian::read_u32(&segment[8..]);
    let flags = LittleEndian::read_u32(&segment[12..]);
    if !limits.may_clear {
        return refused(Verdict::Unsupported);
    }
    if readable != (HEADER_SIZE + SEGMENT_SIZE) as u64 {
        return refused(Verdict::IoError);
    }
    if flags > UNMAP {
        return refused(Verdict::Unsupported);
    }
    if limits.read_only || count > ZEROES_MAX || is_past(first, count as u64, limits.sectors) {
        return refused(Verdict::IoError);
    }
    Task {
        kind: Kind::Zero,
        verdict: Verdict::Good,
        first,
        units: count,
    }
}

/// The type of a request, by its header.
#[tactic(auto, unfolding(guestmem::specs::Number::number_at))]
pub fn type_of(header: &[u8; HEADER_SIZE]) -> u32
    ensures { result ≡ number_at header.now 0 4 }
{
    LittleEndian::read_u32(&header[..])
}

/// The sector of a request, by its header.
#[tactic(auto, unfolding(guestmem::specs::Number::number_at))]
fn sector_of(header: &[u8; HEADER_SIZE]) -> u64
    ensures { result ≡ number_at header.now 8 8 }
{
    LittleEndian::read_u64(&header[8..])
}

/// What a request asks for, by its header, the segment that may follow it, the numbers of its readable and writable
/// bytes, and what its driver may ask for.
#[tactic(auto, unfolding(crate::specs::Task::task_of))]
#[inline(always)]
pub fn task_of(
    header: &[u8; HEADER_SIZE],
    segment: &[u8; SEGMENT_SIZE],
    readable: u64,
    writable: u64,
    limits: Limits,
) -> Task
    requires readable { HEADER_SIZE ≤ readable }
    requires writable { 1 ≤ writable }
    requires total { readable + writable < 2 ^ 32 }
    ensures { result ≡ task_of header.now segment.now readable writable limits }
{
    let sector = sector_of(header);
    match type_of(header) {
        TYPE_IN => transfer(Kind::In, sector, writable - 1, limits.sectors),
        TYPE_OUT if limits.read_only => refused(Verdict::IoError),
        TYPE_OUT => transfer(
            Kind::Out,
            sector,
            readable - HEADER_SIZE as u64,
            limits.sectors,
        ),
        TYPE_FLUSH => at_once(Kind::Flush),
        TYPE_GET_ID if writable - 1 < ID_SIZE as u64 => refused(Verdict::IoError),
        TYPE_GET_ID => at_once(Kind::GetId),
        TYPE_WRITE_ZEROES => clear(segment, readable, limits),
        _ => refused(Verdict::Unsupported),
    }
}

/// Is done in one unit.
fn at_once(kind: Kind) -> Task
    ensures { result ≡ record { kind = kind; verdict = Good; first = 0; units = 1 } }
{
    Task {
        kind,
        verdict: Verdict::Good,
        first: 0,
        units: 1,
    }
}
