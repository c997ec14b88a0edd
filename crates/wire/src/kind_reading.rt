//! Decodes the last part of the body of a device: what only its kind has.
//!
//! A body has the length of the bytes that the host put in also where there are none. Room for frames or requests is made once
//! their number was read and found good, before they are read one by one.

ghost use Rattle.std.specs.Prelude.{◌≡◌, IfOk, MatchOption, None, Some};
ghost use Rattle.wire.specs.BodyReading.{block_in, block_kind_in, console_kind_in, entropy_kind_in, held_of, kind_in, net_kind_in, outside_kind_in};

use crate::frame_reading::frames_at;
use crate::numbers::{COUNT_LEN, u16_at};
use crate::request_text::requests_at;
use crate::size_text::{SIZE_LEN, size_at};
use blk::{Block, ID_SIZE, REQUESTS_MAX};
use console::{HOST_BYTES_MAX, HostBytes};
use guestmem::NoMemory;
use machine::{Kind, Shape};
use net::{FRAME_MAX, most_waiting};
use std::alloc::Global;

/// Decodes the last part of a body. `None` if the bytes do not encode one for this shape. Fails only if memory is refused.
pub fn kind_at(alloc: Global, shape: Shape, bytes: &[u8]) -> Result<Option<Kind>, NoMemory>
    ensures { IfOk result (λ found. MatchOption found (kind_in shape bytes.now ≡ None) (λ kind. kind_in shape bytes.now ≡ Some kind)) }
{
    match shape {
        Shape::Net { mac } => net_kind_at(alloc, mac, FRAME_MAX, bytes),
        Shape::LongNet { mac, longest } if longest > FRAME_MAX => {
            net_kind_at(alloc, mac, longest, bytes)
        }
        Shape::LongNet { .. } => Ok(None),
        Shape::Block {
            sectors,
            read_only,
            id,
        } => block_kind_at(alloc, sectors, read_only, id, bytes),
        Shape::Outside {
            sectors,
            read_only,
            id,
        } => outside_kind_at(alloc, sectors, read_only, id, bytes),
        Shape::Console => console_kind_at(alloc, bytes),
        Shape::Entropy => entropy_kind_at(alloc, bytes),
    }
}

#[tactic(auto, unfolding(crate::specs::BodyReading::net_kind_in))]
fn net_kind_at(
    alloc: Global,
    mac: [u8; 6],
    longest: u16,
    bytes: &[u8],
) -> Result<Option<Kind>, NoMemory>
    ensures { IfOk result (λ found. MatchOption found (net_kind_in mac longest bytes.now ≡ None) (λ kind. net_kind_in mac longest bytes.now ≡ Some kind)) }
{
    if bytes.len() < COUNT_LEN || u16_at(bytes, 0) as usize > most_waiting(longest) {
        return Ok(None);
    }
    let count = u16_at(bytes, 0);
    let (_, rest) = bytes.split_at(COUNT_LEN);
    let Some((inbox, after)) = frames_at(alloc, longest, count, rest)? else {
        return Ok(None);
    };
    if !after.is_empty() {
        return Ok(None);
    }
    Ok(Some(Kind::Network { mac, inbox }))
}

fn block_kind_at(
    alloc: Global,
    sectors: u64,
    read_only: bool,
    id: [u8; ID_SIZE],
    bytes: &[u8],
) -> Result<Option<Kind>, NoMemory>
    ensures { IfOk result (λ found. MatchOption found (block_kind_in sectors read_only id bytes.now ≡ None) (λ kind. block_kind_in sectors read_only id bytes.now ≡ Some kind)) }
{
    let Some(block) = block_at(alloc, sectors, read_only, id, bytes)? else {
        return Ok(None);
    };
    Ok(Some(Kind::Block(block)))
}

fn outside_kind_at(
    alloc: Global,
    sectors: u64,
    read_only: bool,
    id: [u8; ID_SIZE],
    bytes: &[u8],
) -> Result<Option<Kind>, NoMemory>
    ensures { IfOk result (λ found. MatchOption found (outside_kind_in sectors read_only id bytes.now ≡ None) (λ kind. outside_kind_in sectors read_only id bytes.now ≡ Some kind)) }
{
    let Some(block) = block_at(alloc, sectors, read_only, id, bytes)? else {
        return Ok(None);
    };
    Ok(Some(Kind::Outside(block)))
}

/// Decodes the requests of a block device, which are all of the bytes.
#[tactic(auto, unfolding(crate::specs::BodyReading::block_in))]
fn block_at(
    alloc: Global,
    sectors: u64,
    read_only: bool,
    id: [u8; ID_SIZE],
    bytes: &[u8],
) -> Result<Option<Block>, NoMemory>
    ensures { IfOk result (λ found. MatchOption found (block_in sectors read_only id bytes.now ≡ None) (λ block. block_in sectors read_only id bytes.now ≡ Some block)) }
{
    let Some((count, rest)) = bytes.split_first() else {
        return Ok(None);
    };
    if *count as usize > REQUESTS_MAX {
        return Ok(None);
    }
    let Some((requests, rest)) = requests_at(alloc, *count, rest)? else {
        return Ok(None);
    };
    if !rest.is_empty() {
        return Ok(None);
    }
    Ok(Some(Block {
        sectors,
        read_only,
        id,
        requests,
    }))
}

#[tactic(auto, unfolding(crate::specs::BodyReading::console_kind_in))]
fn console_kind_at(alloc: Global, bytes: &[u8]) -> Result<Option<Kind>, NoMemory>
    ensures { IfOk result (λ found. MatchOption found (console_kind_in bytes.now ≡ None) (λ kind. console_kind_in bytes.now ≡ Some kind)) }
{
    if bytes.len() < SIZE_LEN {
        return Ok(None);
    }
    let size = size_at(bytes);
    let (_, rest) = bytes.split_at(SIZE_LEN);
    let Some(held) = held_at(alloc, rest)? else {
        return Ok(None);
    };
    Ok(Some(Kind::Console { size, held }))
}

fn entropy_kind_at(alloc: Global, bytes: &[u8]) -> Result<Option<Kind>, NoMemory>
    ensures { IfOk result (λ found. MatchOption found (entropy_kind_in bytes.now ≡ None) (λ kind. entropy_kind_in bytes.now ≡ Some kind)) }
{
    let Some(pool) = held_at(alloc, bytes)? else {
        return Ok(None);
    };
    Ok(Some(Kind::Entropy(pool)))
}

/// Decodes a count and the bytes that the host has put in, which are all that follows it.
#[tactic(auto, unfolding(crate::specs::BodyReading::held_of))]
fn held_at(alloc: Global, bytes: &[u8]) -> Result<Option<HostBytes>, NoMemory>
    ensures { IfOk result (λ found. MatchOption found (held_of bytes.now ≡ None) (λ held. held_of bytes.now ≡ Some held)) }
{
    if bytes.len() < COUNT_LEN {
        return Ok(None);
    }
    let count = u16_at(bytes, 0) as usize;
    if count + COUNT_LEN != bytes.len() || count > HOST_BYTES_MAX {
        return Ok(None);
    }
    let (_, rest) = bytes.split_at(COUNT_LEN);
    let held = HostBytes::from_slice(alloc, rest)?;
    Ok(Some(held))
}
