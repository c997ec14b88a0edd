//! Whether two devices are the same: all that a saved machine has of them.

use anyhow::{Result, ensure};
use blk::Request;
use chains::Segs;
use console::HostBytes;
use machine::{DeviceState, Kind};
use net::Inbox;

/// Fails unless two devices are in the same state.
pub fn are_same(one: &DeviceState, other: &DeviceState) -> Result<()> {
    ensure!(one.shape() == other.shape(), "other shapes");
    let (registers, others) = (one.registers(), other.registers());
    ensure!(registers.common() == others.common(), "other registers");
    ensure!(registers.queues() == others.queues(), "other queues");
    ensure!(one.positions() == other.positions(), "other positions");
    ensure!(is_same_kind(one.kind(), other.kind()), "other contents");
    Ok(())
}

fn is_same_kind(one: &Kind, other: &Kind) -> bool {
    match (one, other) {
        (Kind::Network { inbox: one, .. }, Kind::Network { inbox: other, .. }) => {
            have_same_frames(one, other)
        }
        (Kind::Block(one), Kind::Block(other)) => {
            are_same_requests(one.requests.as_slice(), other.requests.as_slice())
        }
        (Kind::Outside(one), Kind::Outside(other)) => {
            are_same_requests(one.requests.as_slice(), other.requests.as_slice())
        }
        (
            Kind::Console { size, held },
            Kind::Console {
                size: other,
                held: rest,
            },
        ) => size == other && have_same_bytes(held, rest),
        (Kind::Entropy(one), Kind::Entropy(other)) => have_same_bytes(one, other),
        _ => false,
    }
}

fn have_same_frames(one: &Inbox, other: &Inbox) -> bool {
    if one.len() != other.len() {
        return false;
    }
    for number in 0..one.len() {
        if one.frame(number) != other.frame(number) {
            return false;
        }
    }
    true
}

/// They may lie otherwise in their memory.
fn have_same_bytes(one: &HostBytes, other: &HostBytes) -> bool {
    if one.len() != other.len() {
        return false;
    }
    for n in 0..one.len() {
        if byte_of(one, n) != byte_of(other, n) {
            return false;
        }
    }
    true
}

/// The byte of this number, if there is one.
fn byte_of(bytes: &HostBytes, n: usize) -> Option<u8> {
    let (front, back) = bytes.as_slices();
    let byte = if n < front.len() {
        front.get(n)
    } else {
        back.get(n - front.len())
    };
    byte.map(|byte| *byte)
}

fn are_same_requests(one: &[Request], other: &[Request]) -> bool {
    if one.len() != other.len() {
        return false;
    }
    for (request, another) in one.iter().zip(other) {
        if !is_same_request(request, another) {
            return false;
        }
    }
    true
}

fn is_same_request(one: &Request, other: &Request) -> bool {
    (one.id, one.slots, one.first) == (other.id, other.slots, other.first)
        && (one.kind, one.verdict) == (other.kind, other.verdict)
        && (one.units, one.done) == (other.units, other.done)
        && are_same_segments(&one.readable, &other.readable)
        && are_same_segments(&one.writable, &other.writable)
}

fn are_same_segments(one: &Segs, other: &Segs) -> bool {
    one.as_slice() == other.as_slice()
}
