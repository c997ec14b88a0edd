//! Requests in the body of a block device.

ghost use Rattle.std.specs.Prelude.{◌≡◌, ◌≤◌, ◌*◌, ◌+◌, IfOk, MatchOption, None, Some, length};
ghost use Rattle.blk.specs.declared.requests.TheConstants.{REQUESTS_MAX};
ghost use Rattle.wire.specs.RequestReading.{headed_by, kind_of, request_of, request_with, seg_of, segs_of, verdict_of};
ghost use Rattle.wire.specs.RequestText.{head_text, kind_number, seg_text};
ghost use Rattle.wire.specs.Several.{several};

use crate::numbers::{u8_at, u16_at, u32_at, u64_at};
use blk::{Kind, Request, Requests, Verdict};
use byteorder::{ByteOrder, LittleEndian};
use chains::{Seg, Segs};
use guestmem::NoMemory;
use std::alloc::Global;

/// The encoded length of a request before its segments.
pub const HEAD_LEN: usize = 26;

/// The encoded length of a segment.
pub const SEG_LEN: usize = 12;

/// Encodes a segment: the address, then the length.
#[tactic(auto, unfolding(crate::specs::RequestText::seg_text))]
pub fn seg_bytes(seg: &Seg) -> [u8; 12]
    ensures { result ≡ seg_text seg.now }
{
    let mut bytes = [0; SEG_LEN];
    LittleEndian::write_u64(&mut bytes[0..], seg.addr);
    LittleEndian::write_u32(&mut bytes[8..], seg.len);
    bytes
}

/// Encodes the head of a request, with these counts of readable and writable segments.
#[tactic(auto, unfolding(crate::specs::RequestText::head_text))]
pub fn head_bytes(request: &Request, readable: u16, writable: u16) -> [u8; 26]
    ensures { result ≡ head_text request.now readable writable }
{
    let mut bytes = [0; HEAD_LEN];
    LittleEndian::write_u16(&mut bytes[0..], request.id);
    LittleEndian::write_u16(&mut bytes[2..], request.slots);
    bytes[4] = kind_byte(request.kind);
    bytes[5] = request.verdict.byte();
    LittleEndian::write_u64(&mut bytes[6..], request.first);
    LittleEndian::write_u32(&mut bytes[14..], request.units);
    LittleEndian::write_u32(&mut bytes[18..], request.done);
    LittleEndian::write_u16(&mut bytes[22..], readable);
    LittleEndian::write_u16(&mut bytes[24..], writable);
    bytes
}

fn kind_byte(kind: Kind) -> u8
    ensures { result ≡ kind_number kind }
{
    match kind {
        Kind::Refused => 0,
        Kind::In => 1,
        Kind::Out => 2,
        Kind::Flush => 3,
        Kind::GetId => 4,
        Kind::Zero => 5,
    }
}

fn kind_of(number: u8) -> Kind
    ensures { result ≡ kind_of number }
{
    match number {
        0 => Kind::Refused,
        1 => Kind::In,
        2 => Kind::Out,
        3 => Kind::Flush,
        4 => Kind::GetId,
        _ => Kind::Zero,
    }
}

fn verdict_of(number: u8) -> Verdict
    ensures { result ≡ verdict_of number }
{
    match number {
        0 => Verdict::Good,
        1 => Verdict::IoError,
        _ => Verdict::Unsupported,
    }
}

#[tactic(auto, unfolding(crate::specs::RequestReading::seg_of))]
fn seg_at(bytes: &[u8]) -> Seg
    requires { 12 ≤ length bytes.now }
    ensures { result ≡ seg_of bytes.now }
{
    Seg {
        addr: u64_at(bytes, 0),
        len: u32_at(bytes, 8),
    }
}

/// Decodes the first `count` segments.
fn segs_at(alloc: Global, count: u16, bytes: &[u8]) -> Result<Segs, NoMemory>
    requires { 12 * count ≤ length bytes.now }
    ensures { IfOk result (λ segs. segs ≡ segs_of count bytes.now) }
{
    let mut segs = Segs::new(alloc);
    let mut rest = bytes;
    for _ in 0..count {
        segs.push(seg_at(rest))?;
        let (_, after) = rest.split_at(SEG_LEN);
        rest = after;
    }
    Ok(segs)
}

/// The request whose head is in the first 26 bytes, with these segments.
#[tactic(auto, unfolding(crate::specs::RequestReading::headed_by))]
fn headed_by(bytes: &[u8], readable: Segs, writable: Segs) -> Request
    requires { 26 ≤ length bytes.now }
    ensures { result ≡ headed_by bytes.now readable writable }
{
    Request {
        id: u16_at(bytes, 0),
        slots: u16_at(bytes, 2),
        kind: kind_of(u8_at(bytes, 4)),
        verdict: verdict_of(u8_at(bytes, 5)),
        first: u64_at(bytes, 6),
        units: u32_at(bytes, 14),
        done: u32_at(bytes, 18),
        readable,
        writable,
    }
}

/// The request whose head is in the first 26 of `bytes`, with `readable` and then `writable` segments at the front of
/// `rest`; and the bytes after these.
fn request_with<'a>(
    alloc: Global,
    bytes: &[u8],
    readable: u16,
    writable: u16,
    rest: &'a [u8],
) -> Result<Option<(Request, &'a [u8])>, NoMemory>
    requires { 26 ≤ length bytes.now }
    ensures { IfOk result (λ found. MatchOption found (request_with bytes.now readable writable rest.now ≡ None) (λ x. request_with bytes.now readable writable rest.now ≡ Some (x.0, x.1.now))) }
{
    if rest.len() < SEG_LEN * (readable as usize + writable as usize) {
        return Ok(None);
    }
    let (first, rest) = rest.split_at(SEG_LEN * readable as usize);
    let (second, rest) = rest.split_at(SEG_LEN * writable as usize);
    let readable = segs_at(alloc, readable, first)?;
    let writable = segs_at(alloc, writable, second)?;
    Ok(Some((headed_by(bytes, readable, writable), rest)))
}

/// Decodes the request at the front of the bytes; returns it and the bytes after it.
#[tactic(auto, unfolding(crate::specs::RequestReading::request_of))]
fn request_at(alloc: Global, bytes: &[u8]) -> Result<Option<(Request, &[u8])>, NoMemory>
    ensures { IfOk result (λ found. MatchOption found (request_of bytes.now ≡ None) (λ x. request_of bytes.now ≡ Some (x.0, x.1.now))) }
{
    if bytes.len() < HEAD_LEN || u8_at(bytes, 4) > 5 || u8_at(bytes, 5) > 2 {
        return Ok(None);
    }
    let (_, rest) = bytes.split_at(HEAD_LEN);
    request_with(alloc, bytes, u16_at(bytes, 22), u16_at(bytes, 24), rest)
}

/// Decodes the first `count` requests; returns them and the bytes after them.
#[tactic(auto, using(crate::proofs::Lists::several_go_on, crate::proofs::Lists::several_fail, crate::proofs::Lists::several_end))]
pub fn requests_at(
    alloc: Global,
    count: u8,
    bytes: &[u8],
) -> Result<Option<(Requests, &[u8])>, NoMemory>
    requires { count ≤ REQUESTS_MAX }
    ensures { IfOk result (λ found. MatchOption found (several request_of count bytes.now ≡ None) (λ x. several request_of count bytes.now ≡ Some (x.0, x.1.now))) }
{
    let mut requests = Requests::new(alloc)?;
    let mut rest = bytes;
    for _ in 0..count {
        let Some((request, after)) = request_at(alloc, rest)? else {
            return Ok(None);
        };
        requests.push(request);
        rest = after;
    }
    Ok(Some((requests, rest)))
}
