//! Decodes the body of a device.
//!
//! How many queues a body has is given by the shape alone: a kind of device with more queues adds no case here. A body of a
//! device that is not sound is refused: its registers, queues, positions and bytes must keep what holds of the devices of every
//! machine.
//!
//! Version 1 was written by devices that did not offer WRITE_ZEROES. So it has no block device whose driver accepted that bit,
//! once FEATURES_OK has settled it; before, a driver may have written any bits.

ghost use Rattle.std.specs.Prelude.{◌≡◌, ◌≤◌, ◌*◌, ◌^◌, ◌↔◌, [], All, IsSomeAnd, IsTrue, false, IfOk, IfErr, length, slice_get, take};
ghost use Rattle.wire.specs.BodyReading.{HasFront, HaveFlags, positions_in, queues_in};
ghost use Rattle.wire.specs.DeviceBody.{IsBodyOf, RefusesBody, has_zeroes};
ghost use Rattle.machine.specs.QueuePositions.{HasPositions, HavePositions, is_packed_by};
ghost use Rattle.blk.specs.Block.{limits_of};
ghost use Rattle.blk.specs.Sound.{AreRequestsOf};
ghost use Rattle.machine.specs.Shapes.{made_as, queues_of, saved_device};
ghost use Rattle.machine.specs.Sound.{IsSoundDevice, IsSoundKind, IsSoundShape};
ghost use Rattle.mmio.specs.Bits.{has};
ghost use Rattle.mmio.specs.Sound.{IsSoundQueue};
ghost use Rattle.mmio.specs.declared.constants.TheConstants.{QUEUE_COUNT_MAX};

use crate::decode_error::DecodeError;
use crate::header::FIRST_VERSION;
use crate::kind_reading::kind_at;
use crate::registers_text::{COMMON_LEN, QUEUE_LEN, common_at, has_flags, positions_at, queue_at};
use blk::{Block, WRITE_ZEROES, is_block_shape, is_outside_shape};
use chains::{Position, Positions};
use console::recall_console;
use guestmem::recall_bytes;
use machine::{DeviceState, Kind, Shape, is_base, offered};
use mmio::{
    Common, FEATURES_OK, QUEUE_COUNT_MAX, Queue, RING_PACKED, is_sound_common, is_sound_queue,
};
use net::FRAME_MAX;
use std::alloc::Global;

/// Decodes the body of a device of this shape, in a stream of this version of a machine with `ram_len` bytes of RAM from the
/// guest-physical address 0 on. `BadBody` if the bytes are the body of no device of this shape that is sound there, or of one
/// that the version does not have.
pub fn decode_device(
    alloc: Global,
    version: u32,
    shape: Shape,
    ram_len: u64,
    body: &[u8],
) -> Result<DeviceState, DecodeError>
    ensures read { IfOk result (λ d. IsBodyOf version shape 0 ram_len body.now d) }
    ensures refused { IfErr result (λ e. RefusesBody version shape 0 ram_len body.now e) }
{
    decode_device_at(alloc, version, shape, 0, ram_len, body)
}

/// As `decode_device`, of a machine whose RAM begins at the guest-physical address `base`. Where no RAM of that length may begin
/// there, no device is sound.
pub fn decode_device_at(
    alloc: Global,
    version: u32,
    shape: Shape,
    base: u64,
    ram_len: u64,
    body: &[u8],
) -> Result<DeviceState, DecodeError>
    ensures read { IfOk result (λ d. IsBodyOf version shape base ram_len body.now d) }
    ensures refused { IfErr result (λ e. RefusesBody version shape base ram_len body.now e) }
{
    let count = queue_count(shape);
    if !has_front(count, body) {
        return Err(DecodeError::BadBody);
    }
    let common = common_at(body);
    if !has_device(version, shape, &common) {
        return Err(DecodeError::BadBody);
    }
    let (_, rest) = body.split_at(COMMON_LEN);
    let (queues, positions) = queues_at(count, rest);
    let (_, rest) = body.split_at(COMMON_LEN + QUEUE_LEN * count);
    let Some(kind) = kind_at(alloc, shape, rest)? else {
        return Err(DecodeError::BadBody);
    };
    let queues = &queues[..count];
    if !is_sound_device(
        base,
        ram_len,
        shape,
        &common,
        queues,
        &positions[..count],
        &kind,
    ) {
        return Err(DecodeError::BadBody);
    }
    Ok(DeviceState::restored(base, ram_len, common, queues, positions, kind))
}

/// How many queues a device of this shape has.
fn queue_count(shape: Shape) -> usize
    ensures { result ≡ queues_of shape }
{
    match shape {
        Shape::Net { .. } | Shape::LongNet { .. } => net::QUEUE_COUNT as usize,
        Shape::Block { .. } | Shape::Outside { .. } => blk::QUEUE_COUNT as usize,
        Shape::Console => console::QUEUE_COUNT as usize,
        Shape::Entropy => console::entropy::QUEUE_COUNT as usize,
    }
}

/// Whether this version has a device of this shape with these registers: version 1 has no block device whose driver accepted
/// WRITE_ZEROES.
fn has_device(version: u32, shape: Shape, common: &Common) -> bool
    ensures { IsTrue result ↔ (version ≡ 1 → has_zeroes shape common.now ≡ false) }
{
    version != FIRST_VERSION || !has_zeroes(shape, common)
}

/// Whether this is a block device whose driver accepted WRITE_ZEROES.
fn has_zeroes(shape: Shape, common: &Common) -> bool
    ensures { result ≡ has_zeroes shape common.now }
{
    match shape {
        Shape::Block { .. } | Shape::Outside { .. } => {
            common.status & FEATURES_OK == FEATURES_OK && accepts_zeroes(common)
        }
        Shape::Net { .. } | Shape::LongNet { .. } | Shape::Console | Shape::Entropy => false,
    }
}

/// Whether the driver's features have WRITE_ZEROES.
fn accepts_zeroes(common: &Common) -> bool
    ensures { result ≡ has common.now.features (2 ^ 14) }
{
    common.features & WRITE_ZEROES == WRITE_ZEROES
}

/// Whether the bytes begin with registers and `queues` queues.
fn has_front(queues: usize, body: &[u8]) -> bool
    requires some { 1 ≤ queues }
    requires few { queues ≤ QUEUE_COUNT_MAX }
    ensures { IsTrue result ↔ HasFront queues body.now }
{
    if body.len() < COMMON_LEN + QUEUE_LEN * queues {
        return false;
    }
    let (_, rest) = body.split_at(COMMON_LEN);
    have_flags(queues, rest)
}

/// Whether each flag of the first `queues` queues is 0 or 1.
fn have_flags(queues: usize, rest: &[u8]) -> bool
    requires some { 1 ≤ queues }
    requires few { queues ≤ QUEUE_COUNT_MAX }
    requires long { 36 * queues ≤ length rest.now }
    ensures { IsTrue result ↔ HaveFlags queues rest.now }
{
    if queues == 1 {
        return has_flags(rest);
    }
    let (_, after) = rest.split_at(QUEUE_LEN);
    has_flags(rest) && has_flags(after)
}

/// Decodes the first `count` queues and positions; the other array entries are unused.
#[tactic(auto, unfolding(crate::specs::BodyReading::queues_in, crate::specs::BodyReading::positions_in))]
fn queues_at(count: usize, rest: &[u8]) -> ([Queue; QUEUE_COUNT_MAX], [Positions; QUEUE_COUNT_MAX])
    requires some { 1 ≤ count }
    requires few { count ≤ QUEUE_COUNT_MAX }
    requires long { 36 * count ≤ length rest.now }
    ensures queues { take count result.0 ≡ queues_in count rest.now }
    ensures positions { take count result.1 ≡ positions_in count rest.now }
{
    let queue = queue_at(rest);
    let positions = positions_at(rest);
    if count == 1 {
        return ([queue, Queue::FIRST], [positions, Positions::FIRST]);
    }
    let (_, after) = rest.split_at(QUEUE_LEN);
    ([queue, queue_at(after)], [positions, positions_at(after)])
}

/// Whether a device of this shape may have these registers, queues, positions and this kind, in a machine with `ram_len` bytes of RAM
/// from the address `base` on. No device may where no RAM of that length may begin there.
fn is_sound_device(
    base: u64,
    ram_len: u64,
    shape: Shape,
    common: &Common,
    queues: &[Queue],
    positions: &[Positions],
    kind: &Kind,
) -> bool
    requires made { made_as kind.now ≡ shape }
    requires count { length queues.now ≡ queues_of shape }
    requires few { length queues.now ≤ QUEUE_COUNT_MAX }
    requires each { length positions.now ≡ length queues.now }
    ensures { IsTrue result ↔ IsSoundDevice base ram_len (saved_device base ram_len kind.now common.now queues.now positions.now) }
{
    is_base(base, ram_len)
        && is_sound_shape(shape)
        && is_sound_common(offered(shape), common)
        && are_sound_queues(base, ram_len, common, queues)
        && have_positions(is_packed(common), queues, positions)
        && is_sound_kind(base, ram_len, common, queues, kind)
}

/// Whether a device may be made as this.
fn is_sound_shape(shape: Shape) -> bool
    ensures { IsTrue result ↔ IsSoundShape shape }
{
    match shape {
        Shape::Net { mac } => {
            recall_bytes(mac.as_slice());
            true
        }
        Shape::LongNet { mac, longest } => {
            recall_bytes(mac.as_slice());
            longest > FRAME_MAX
        }
        Shape::Block { sectors, id, .. } => is_block_shape(sectors, &id),
        Shape::Outside { sectors, id, .. } => is_outside_shape(sectors, &id),
        Shape::Console | Shape::Entropy => true,
    }
}

/// Whether each queue is sound, with these registers and this base and length of RAM.
fn are_sound_queues(base: u64, ram_len: u64, common: &Common, queues: &[Queue]) -> bool
    ensures { IsTrue result ↔ All (IsSoundQueue base ram_len common.now) queues.now }
{
    queues
        .iter()
        .all(|queue| is_sound_queue(base, ram_len, common, queue))
}

/// Whether a device with these registers and queues may have this kind, with its state.
fn is_sound_kind(base: u64, ram_len: u64, common: &Common, queues: &[Queue], kind: &Kind) -> bool
    ensures { IsTrue result ↔ IsSoundKind ram_len (saved_device base ram_len kind.now common.now queues.now []).registers kind.now }
{
    match kind {
        Kind::Network { inbox, .. } => {
            inbox.recall();
            true
        }
        Kind::Block(block) => has_sound_requests(base, ram_len, common, queues, block),
        Kind::Outside(block) => has_sound_requests(base, ram_len, common, queues, block),
        Kind::Console { size, held } => {
            recall_console(size, held);
            true
        }
        Kind::Entropy(pool) => {
            pool.recall();
            true
        }
    }
}

/// Whether a block device with these registers and queues may have its requests outstanding.
fn has_sound_requests(
    base: u64,
    ram_len: u64,
    common: &Common,
    queues: &[Queue],
    block: &Block,
) -> bool
    ensures { IsTrue result ↔ IsSomeAnd (slice_get queues.now 0) (λ q. AreRequestsOf base ram_len (is_packed_by common.now) q (limits_of block.now common.now.features) block.now.requests) }
{
    match queues {
        [first, ..] => {
            let features = common.features;
            block.has_sound_requests(base, ram_len, is_packed(common), first, features)
        }
        [] => false,
    }
}

fn is_packed(common: &Common) -> bool
    ensures { result ≡ is_packed_by common.now }
{
    common.features & RING_PACKED == RING_PACKED
}

/// Whether each queue can have its positions.
fn have_positions(is_packed: bool, queues: &[Queue], positions: &[Positions]) -> bool
    requires few { length queues.now ≤ QUEUE_COUNT_MAX }
    requires each { length positions.now ≡ length queues.now }
    ensures { IsTrue result ↔ HavePositions is_packed queues.now positions.now }
{
    match (queues, positions) {
        ([only], [its]) => has_positions(is_packed, only, its),
        ([one, two], [its, others]) => {
            has_positions(is_packed, one, its) && has_positions(is_packed, two, others)
        }
        // There is no queue.
        _ => true,
    }
}

/// Whether a queue can have these positions.
fn has_positions(is_packed: bool, queue: &Queue, positions: &Positions) -> bool
    ensures { IsTrue result ↔ HasPositions is_packed queue.now positions.now }
{
    // Each field is read, so that it is known to fit its type.
    let Positions {
        taking: Position {
            place: taking_place,
            wrap: taking_wrap,
        },
        used: Position {
            place: used_place,
            wrap: used_wrap,
        },
    } = *positions;
    if !queue.is_ready {
        return taking_place == 0 && taking_wrap && used_place == 0 && used_wrap;
    }
    if is_packed {
        return (taking_place as u32) < queue.size && (used_place as u32) < queue.size;
    }
    taking_wrap && used_wrap
}
