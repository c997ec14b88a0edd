//! Writes requests to a sink.

ghost use Rattle.std.specs.Prelude.{◌≡◌, ◌^◌, ◌%◌, OnOk, length};
ghost use Rattle.std.specs.List.{flat_map};
ghost use Rattle.wire.specs.RequestText.{head_text, request_text, requests_text, segs_text};
ghost use Rattle.wire.specs.Sinks.{Appends, Takes};

use crate::request_text::{HEAD_LEN, SEG_LEN, head_bytes, seg_bytes};
use crate::sink::{Sink, SinkFault};
use blk::{Request, Requests};
use chains::Seg;

/// One past the greatest count of segments that a field of a request can hold.
const SEGS_END: usize = 1 << 16;

/// One past the greatest length that the field of a device's record can hold.
const LEN_END: usize = 1 << 32;

/// Writes the count of the requests, then each request.
pub fn write_requests<S: Sink>(requests: &Requests, out: &mut S) -> Result<(), SinkFault>
    ensures out { Appends (S.state out.old) (requests_text requests.now) result (S.state out.new) }
    ensures taken { OnOk result (Takes (S.sum out.old) (requests_text requests.now) (S.sum out.new)) }
{
    out.put(&[requests.len() as u8])?;
    write_each(requests.as_slice(), out)
}

#[tactic(auto, using(crate::proofs::Saving::text_more))]
fn write_each<S: Sink>(requests: &[Request], out: &mut S) -> Result<(), SinkFault>
    ensures out { Appends (S.state out.old) (flat_map request_text requests.now) result (S.state out.new) }
    ensures taken { OnOk result (Takes (S.sum out.old) (flat_map request_text requests.now) (S.sum out.new)) }
{
    for i in 0..requests.len() {
        write_request(&requests[i], out)?;
    }
    Ok(())
}

fn write_request<S: Sink>(request: &Request, out: &mut S) -> Result<(), SinkFault>
    ensures out { Appends (S.state out.old) (request_text request.now) result (S.state out.new) }
    ensures taken { OnOk result (Takes (S.sum out.old) (request_text request.now) (S.sum out.new)) }
{
    out.put(&request_head(request))?;
    write_segs(request.readable.as_slice(), out)?;
    write_segs(request.writable.as_slice(), out)
}

/// Encodes the head of a request, with the counts of its segments.
fn request_head(request: &Request) -> [u8; 26]
    ensures { result ≡ head_text request.now (length request.now.readable) (length request.now.writable) }
{
    let readable = (request.readable.len() % SEGS_END) as u16;
    let writable = (request.writable.len() % SEGS_END) as u16;
    head_bytes(request, readable, writable)
}

#[tactic(auto, using(crate::proofs::Saving::text_more))]
fn write_segs<S: Sink>(segs: &[Seg], out: &mut S) -> Result<(), SinkFault>
    ensures out { Appends (S.state out.old) (segs_text segs.now) result (S.state out.new) }
    ensures taken { OnOk result (Takes (S.sum out.old) (segs_text segs.now) (S.sum out.new)) }
{
    for i in 0..segs.len() {
        out.put(&seg_bytes(&segs[i]))?;
    }
    Ok(())
}

/// The encoded length of the requests, with their count, modulo 2^32.
#[tactic(auto, using(crate::proofs::Saving::length_more))]
pub fn requests_len(requests: &Requests) -> u32
    ensures { result ≡ length (requests_text requests.now) % 2 ^ 32 }
{
    let list = requests.as_slice();
    let mut len = 1;
    for i in 0..list.len() {
        len = (len + request_len(&list[i])) % LEN_END;
    }
    len as u32
}

/// The encoded length of a request, modulo 2^32.
fn request_len(request: &Request) -> usize
    ensures { result ≡ length (request_text request.now) % 2 ^ 32 }
{
    let segments = request.readable.len() % LEN_END + request.writable.len() % LEN_END;
    (HEAD_LEN + SEG_LEN * segments) % LEN_END
}
