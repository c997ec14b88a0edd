//! Writes the parts of a stream to any sink.
//!
//! A record goes out in one call, and no more are gathered. A buffer of many records would save calls of the system, but then a
//! writer would fail at a later event than the one that wrote, and a disk at a later step than the one that wrote the sector:
//! the reply that reports a failure, and its place in a history, are part of the contracts. For a page and a good sector head
//! and body go into one buffer.
//!
//! `encode_page` writes the record with the bytes, whatever they are; whoever puts a stream together by hand asks `is_zero`
//! first, as `write_page` does. A header encodes the lowest four bytes of the number of devices, so `encode_header` has no
//! condition on the length of a list; a machine has 16 at most.

ghost use Rattle.std.specs.Prelude.{◌≡◌, ◌∷◌, ◌++◌, take, ◌≤◌, ◌<◌, ◌^◌, ◌/◌, ◌%◌, ℕ, List, IsTrue, OnOk, length};
ghost use Rattle.wire.specs.DeviceBody.{body, held_text, kind_text, queues_text};
ghost use Rattle.wire.specs.Numbers.{digits};
ghost use Rattle.wire.specs.Header.{front, header, opening_of, spelled_shape, spelled_shapes, version_of};
ghost use Rattle.wire.specs.Records.{commit, page, page_record, round_end, device, zero_page, spelled_record};
ghost use Rattle.wire.specs.Sinks.{Appends, Takes};

use crate::frame_writing::{frames_len, write_frames};
use crate::header::{FRONT_LEN, LATE_VERSION, MAGIC, VERSION};
use crate::numbers::{COUNT_LEN, count_bytes};
use crate::record_head::{
    COMMIT_TAG, DEVICE_HEAD, HEAD_MAX, PAGE_HEAD, PAGE_RECORD, ROUND_END_HEAD, RecordHead,
    ZERO_PAGE_HEAD, head_bytes,
};
use crate::registers_text::{COMMON_LEN, QUEUE_LEN, common_bytes, queue_bytes};
use crate::request_writing::{requests_len, write_requests};
use crate::shape_spelling::{
    BLOCK_ID, CONSOLE_ID, ENTROPY_ID, LONG_NET_ID, NET_ID, OUTSIDE_ID, has_late,
};
use crate::sink::{Sink, SinkFault};
use crate::size_text::{SIZE_LEN, size_bytes};
use byteorder::{ByteOrder, LittleEndian};
use chains::Positions;
use console::HostBytes;
use guestmem::is_zero;
use machine::{DeviceState, Kind, Shape};
use mmio::Queue;

/// One past the greatest count of devices that the header's field can hold.
const COUNT_END: usize = 1 << 32;

/// One past the greatest length that the field of a device's record can hold.
const LEN_END: u64 = 1 << 32;

/// Writes the header of a machine of `pages` pages and these devices.
#[tactic(auto, using(crate::proofs::HeaderLemmas::front_low))]
pub fn encode_header<S: Sink>(pages: u32, shapes: &[Shape], out: &mut S) -> Result<(), SinkFault>
    ensures out { Appends (S.state out.old) (header (opening_of pages shapes.now)) result (S.state out.new) }
    ensures taken { OnOk result (Takes (S.sum out.old) (header (opening_of pages shapes.now)) (S.sum out.new)) }
{
    let count = (shapes.len() % COUNT_END) as u32;
    out.put(&front_bytes(version_of(shapes), pages, count))?;
    write_shapes(shapes, out)
}

#[tactic(auto, unfolding(crate::specs::Header::front))]
fn front_bytes(version: u32, pages: u32, count: u32) -> [u8; FRONT_LEN]
    ensures { result ≡ front version pages count }
{
    let mut bytes = [0; FRONT_LEN];
    LittleEndian::write_u32(&mut bytes, MAGIC);
    LittleEndian::write_u32(&mut bytes[4..], version);
    LittleEndian::write_u32(&mut bytes[8..], pages);
    LittleEndian::write_u32(&mut bytes[12..], count);
    bytes
}

/// The version in which a machine with these devices is written.
fn version_of(shapes: &[Shape]) -> u32
    ensures { result ≡ version_of shapes.now }
{
    if has_late(shapes) {
        return LATE_VERSION;
    }
    VERSION
}

#[tactic(auto, using(crate::proofs::Saving::text_more))]
fn write_shapes<S: Sink>(shapes: &[Shape], out: &mut S) -> Result<(), SinkFault>
    ensures out { Appends (S.state out.old) (spelled_shapes shapes.now) result (S.state out.new) }
    ensures taken { OnOk result (Takes (S.sum out.old) (spelled_shapes shapes.now) (S.sum out.new)) }
{
    for i in 0..shapes.len() {
        write_shape(shapes[i], out)?;
    }
    Ok(())
}

#[tactic(auto, unfolding(crate::specs::Header::spelled_shape))]
fn write_shape<S: Sink>(shape: Shape, out: &mut S) -> Result<(), SinkFault>
    ensures out { Appends (S.state out.old) (spelled_shape shape) result (S.state out.new) }
    ensures taken { OnOk result (Takes (S.sum out.old) (spelled_shape shape) (S.sum out.new)) }
{
    match shape {
        Shape::Net { mac } => {
            out.put(&[NET_ID])?;
            out.put(&mac)
        }
        Shape::LongNet { mac, longest } => {
            out.put(&[LONG_NET_ID])?;
            out.put(&mac)?;
            out.put(&count_bytes(longest))
        }
        Shape::Block {
            sectors,
            read_only,
            id,
        } => {
            let mut head = [BLOCK_ID, 0, 0, 0, 0, 0, 0, 0, 0, read_only as u8];
            LittleEndian::write_u64(&mut head[1..], sectors);
            out.put(&head)?;
            out.put(&id)
        }
        Shape::Outside {
            sectors,
            read_only,
            id,
        } => {
            let mut head = [OUTSIDE_ID, 0, 0, 0, 0, 0, 0, 0, 0, read_only as u8];
            LittleEndian::write_u64(&mut head[1..], sectors);
            out.put(&head)?;
            out.put(&id)
        }
        Shape::Console => out.put(&[CONSOLE_ID]),
        Shape::Entropy => out.put(&[ENTROPY_ID]),
    }
}

/// Writes the record of a page: that of a page of zeros if its bytes are all 0.
pub fn write_page<S: Sink>(number: u32, bytes: &[u8; 4096], out: &mut S) -> Result<(), SinkFault>
    ensures out { Appends (S.state out.old) (spelled_record (page_record 2 number bytes.now)) result (S.state out.new) }
    ensures taken { OnOk result (Takes (S.sum out.old) (spelled_record (page_record 2 number bytes.now)) (S.sum out.new)) }
{
    if is_zero(bytes) {
        return encode_zero_page(number, out);
    }
    encode_page(number, bytes, out)
}

/// Writes the record of a page of zeros.
#[tactic(auto, unfolding(crate::specs::Records::spelled_record))]
pub fn encode_zero_page<S: Sink>(number: u32, out: &mut S) -> Result<(), SinkFault>
    ensures out { Appends (S.state out.old) (spelled_record (zero_page number)) result (S.state out.new) }
    ensures taken { OnOk result (Takes (S.sum out.old) (spelled_record (zero_page number)) (S.sum out.new)) }
{
    let head = head_bytes(RecordHead::ZeroPage { number });
    out.put(&head[..ZERO_PAGE_HEAD])
}

/// Writes the record of a page with its bytes.
pub fn encode_page<S: Sink>(number: u32, bytes: &[u8; 4096], out: &mut S) -> Result<(), SinkFault>
    ensures out { Appends (S.state out.old) (spelled_record (page number bytes.now)) result (S.state out.new) }
    ensures taken { OnOk result (Takes (S.sum out.old) (spelled_record (page number bytes.now)) (S.sum out.new)) }
{
    out.put(&full_page_record(number, bytes))
}

/// The whole record of a page with its bytes, so that a sink is called once for it.
#[tactic(auto, unfolding(crate::specs::Records::spelled_record))]
fn full_page_record(number: u32, bytes: &[u8; 4096]) -> [u8; PAGE_RECORD]
    ensures { result ≡ spelled_record (page number bytes.now) }
{
    let head = head_bytes(RecordHead::Page { number });
    let mut record = [0; PAGE_RECORD];
    record[..PAGE_HEAD].copy_from_slice(&head[..PAGE_HEAD]);
    record[PAGE_HEAD..].copy_from_slice(bytes);
    record
}

/// Writes the record of the end of a round.
#[tactic(auto, unfolding(crate::specs::Records::spelled_record))]
pub fn encode_round<S: Sink>(number: u32, out: &mut S) -> Result<(), SinkFault>
    ensures out { Appends (S.state out.old) (spelled_record (round_end number)) result (S.state out.new) }
    ensures taken { OnOk result (Takes (S.sum out.old) (spelled_record (round_end number)) (S.sum out.new)) }
{
    let head = head_bytes(RecordHead::RoundEnd { number });
    out.put(&head[..ROUND_END_HEAD])
}

/// Writes the record of a device.
#[tactic(auto, unfolding(crate::specs::Records::spelled_record))]
pub fn encode_device<S: Sink>(number: u8, state: &DeviceState, out: &mut S) -> Result<(), SinkFault>
    ensures out { Appends (S.state out.old) (spelled_record (device number (body state.now))) result (S.state out.new) }
    ensures taken { OnOk result (Takes (S.sum out.old) (spelled_record (device number (body state.now))) (S.sum out.new)) }
{
    out.put(&device_head(number, state)[..DEVICE_HEAD])?;
    write_body(state, out)
}

/// Writes the record with which a stream ends: the digest of all bytes before it.
#[tactic(auto, unfolding(crate::specs::Records::spelled_record))]
pub fn encode_commit<S: Sink>(digest: &[u8; 32], out: &mut S) -> Result<(), SinkFault>
    ensures out { Appends (S.state out.old) (spelled_record (commit digest.now)) result (S.state out.new) }
    ensures taken { OnOk result (Takes (S.sum out.old) (spelled_record (commit digest.now)) (S.sum out.new)) }
{
    out.put(&[COMMIT_TAG])?;
    out.put(digest)
}

/// What precedes the body of a device in its record.
fn device_head(number: u8, state: &DeviceState) -> [u8; HEAD_MAX]
    ensures { take 6 result ≡ 4 ∷ (number ∷ digits 4 (length (body state.now))) }
{
    let len = body_len(state);
    head_bytes(RecordHead::Device { number, len })
}

/// The encoded length of the body of a device, modulo 2^32. The body of a sound device is shorter than 2^32 bytes.
#[tactic(auto, using(crate::proofs::Saving::length_body))]
pub(crate) fn body_len(state: &DeviceState) -> u32
    ensures { result ≡ length (body state.now) % 2 ^ 32 }
{
    let queues = state.positions().len() as u64;
    let kind = kind_len(state.kind()) as u64;
    ((COMMON_LEN as u64 + QUEUE_LEN as u64 * queues + kind) % LEN_END) as u32
}

/// The encoded length of what only its kind of a device has, modulo 2^32.
#[tactic(auto, unfolding(crate::specs::DeviceBody::size_text))]
fn kind_len(kind: &Kind) -> u32
    ensures { result ≡ length (kind_text kind.now) % 2 ^ 32 }
{
    match kind {
        Kind::Network { inbox, .. } => frames_len(inbox),
        Kind::Block(block) => requests_len(&block.requests),
        Kind::Outside(block) => requests_len(&block.requests),
        Kind::Console { held, .. } => (SIZE_LEN + COUNT_LEN + held.len()) as u32,
        Kind::Entropy(pool) => (COUNT_LEN + pool.len()) as u32,
    }
}

fn write_body<S: Sink>(state: &DeviceState, out: &mut S) -> Result<(), SinkFault>
    ensures out { Appends (S.state out.old) (body state.now) result (S.state out.new) }
    ensures taken { OnOk result (Takes (S.sum out.old) (body state.now) (S.sum out.new)) }
{
    let registers = state.registers();
    out.put(&common_bytes(&registers.common()))?;
    write_queues(registers.queues(), state.positions(), out)?;
    write_kind(state.kind(), out)
}

fn write_queues<S: Sink>(
    queues: &[Queue],
    positions: &[Positions],
    out: &mut S,
) -> Result<(), SinkFault>
    requires few { length queues.now ≤ 2 }
    requires each { length positions.now ≡ length queues.now }
    ensures out { Appends (S.state out.old) (queues_text queues.now positions.now) result (S.state out.new) }
    ensures taken { OnOk result (Takes (S.sum out.old) (queues_text queues.now positions.now) (S.sum out.new)) }
{
    match (queues, positions) {
        ([only], [its]) => out.put(&queue_bytes(only, its)),
        ([one, two], [its, others]) => {
            out.put(&queue_bytes(one, its))?;
            out.put(&queue_bytes(two, others))
        }
        _ => Ok(()),
    }
}

/// Writes what only its kind of a device has.
fn write_kind<S: Sink>(kind: &Kind, out: &mut S) -> Result<(), SinkFault>
    ensures out { Appends (S.state out.old) (kind_text kind.now) result (S.state out.new) }
    ensures taken { OnOk result (Takes (S.sum out.old) (kind_text kind.now) (S.sum out.new)) }
{
    match kind {
        Kind::Network { inbox, .. } => write_frames(inbox, out),
        Kind::Block(block) => write_requests(&block.requests, out),
        Kind::Outside(block) => write_requests(&block.requests, out),
        Kind::Console { size, held } => {
            out.put(&size_bytes(size))?;
            write_held(held, out)
        }
        Kind::Entropy(pool) => write_held(pool, out),
    }
}

/// Writes the count of the bytes that the host has put in, then these bytes.
fn write_held<S: Sink>(bytes: &HostBytes, out: &mut S) -> Result<(), SinkFault>
    ensures out { Appends (S.state out.old) (held_text bytes.now) result (S.state out.new) }
    ensures taken { OnOk result (Takes (S.sum out.old) (held_text bytes.now) (S.sum out.new)) }
{
    out.put(&count_bytes(bytes.len() as u16))?;
    let (front, back) = bytes.as_slices();
    out.put(front)?;
    out.put(back)
}
