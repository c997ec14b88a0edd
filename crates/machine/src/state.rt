//! The state of a device, without its disk.
//!
//! A device's state is what all devices have, positions and host bytes among it, and its kind: saving a device is saving this.
//! A queue that is not ready has the first positions; a write of QueueReady 0 sets them, and so does a reset.
//!
//! A look and an advance are made on a ring in its layout, a `SplitRing` or a `PackedRing`: `Device::step` tells them apart.

mod asking;
mod first_pick;
mod lacking;
mod outside;
mod storing;
mod unsynced;

ghost use Rattle.std.specs.Prelude.{◌≡◌, ◌≤◌, ◌<◌, ℕ, List, IfOk, length, take, if◌then◌else◌};
ghost use Rattle.guestmem.specs.Rises.{Touches};
ghost use Rattle.mmio.specs.State.{with_common};
ghost use Rattle.mmio.specs.Interrupts.{used_raised};
ghost use Rattle.machine.specs.DeviceStep.{reply_to_advance, is_advance_due};
ghost use Rattle.machine.specs.QueuePositions.{first_positions, restarted_positions};
ghost use Rattle.machine.specs.Shapes.{device_id_of, offered_of, queues_of};
ghost use Rattle.machine.specs.Stepped.{looked_registers, reply_in};

use crate::any_ring::AnyRing;
use crate::kind::{Kind, Visit};
use crate::reply::Refusal;
use crate::shape::Shape;
use crate::stepped::Stepped;
use crate::work::Work;
use blk::{Advanced, Disk, Job, Sectors};
use chains::{Positions, Ring, Served, Site, Unserved};
use console::{ConsoleSize, entropy};
use guestmem::{NoMemory, Ram, TouchLog};
use mmio::{Common, Effect, QUEUE_COUNT_MAX, Queue, Regs};
use std::alloc::Global;
use std::marker::Model;

/// The state of a device, without its disk: all that a saved machine holds of it.
#[derive(Drop)]
pub struct DeviceState {
    kind: Kind,
    registers: Regs,
    // How far the device has come in its queues, of which it has two at most.
    positions: [Positions; QUEUE_COUNT_MAX],
}

impl Model for DeviceState {
    ghost use Rattle.std.specs.Prelude.{length, take};
    ghost use Rattle.machine.specs.State.{DeviceState};

    ghost Value = { DeviceState };

    ghost view = { λ d. record { kind = d.kind; registers = d.registers; positions = take (length d.registers.queues) d.positions } };
}

impl DeviceState {
    ghost use Rattle.std.specs.Prelude.{◌≡◌, ◌≤◌, ◌<◌, ℕ, List, Bool, true, false, IfOk, None, Some, length, take};
    ghost use Rattle.guestmem.specs.Item.{MayPages};
    ghost use Rattle.guestmem.specs.Later.{IsLater};
    ghost use Rattle.guestmem.specs.Memory.{Memory};
    ghost use Rattle.chains.specs.Decoder.{Fits};
    ghost use Rattle.machine.specs.AnyRing.{ring_in, decoder_in};
    ghost use Rattle.blk.specs.Move.{MaySectors};
    ghost use Rattle.blk.specs.Sectors.{Calls, IsKept, AreWhole, Sector};
    ghost use Rattle.machine.specs.Calls.{asks_disk};
    ghost use Rattle.machine.specs.DeviceStep.{advances, advanced_at, is_outside, looks, looked_at};
    ghost use Rattle.machine.specs.DeviceWork.{IsDeviceStep};
    ghost use Rattle.machine.specs.Outcome.{is_failure};
    ghost use Rattle.machine.specs.Shapes.{first_device, made_as, saved_device, sector_count};
    ghost use Rattle.mmio.specs.RegisterWrite.{register_write};
    ghost use Rattle.machine.specs.Sound.{IsSoundDevice};
    ghost use Rattle.machine.specs.Unsynced.{HasFlushed};
    ghost use Rattle.machine.specs.Step.{ResizesDevice, register_value_of, register_set, drop_of, input_of, with_input, without_input, written_out};

    /// A new device, in a machine whose RAM has `ram_len` bytes from the address `ram_base` on. Its only error is out of memory.
    pub(crate) fn new(
        alloc: Global,
        shape: Shape,
        ram_base: u64,
        ram_len: u64,
    ) -> Result<DeviceState, NoMemory>
        ensures { IfOk result (λ d. d ≡ first_device ram_base ram_len shape) }
    {
        let kind = Kind::new(alloc, shape)?;
        Ok(DeviceState {
            kind,
            registers: Regs::new_at(
                device_id(shape),
                offered(shape),
                queue_count(shape),
                ram_base,
                ram_len,
            ),
            positions: [Positions::FIRST; QUEUE_COUNT_MAX],
        })
    }

    /// A device as it was saved, in a machine whose RAM has `ram_len` bytes from the address `ram_base` on. The caller makes sure that
    /// it is sound.
    pub fn restored(
        ram_base: u64,
        ram_len: u64,
        common: Common,
        queues: &[Queue],
        positions: [Positions; QUEUE_COUNT_MAX],
        kind: Kind,
    ) -> DeviceState
        requires { IsSoundDevice ram_base ram_len (saved_device ram_base ram_len kind common queues.now (take (length queues.now) positions)) }
        ensures { result ≡ saved_device ram_base ram_len kind common queues.now (take (length queues.now) positions) }
    {
        let shape = kind.shape();
        let mut registers = Regs::new_at(
            device_id(shape),
            offered(shape),
            queue_count(shape),
            ram_base,
            ram_len,
        );
        registers.restore(common, queues);
        DeviceState {
            kind,
            registers,
            positions,
        }
    }

    /// What the device was made as.
    pub fn shape(&self) -> Shape
        ensures { result ≡ made_as self.now.kind }
    {
        self.kind.shape()
    }

    /// Its registers.
    pub fn registers(&self) -> &Regs
        ensures { result.now ≡ self.now.registers }
    {
        &self.registers
    }

    /// How far the device has come in each of its queues.
    pub fn positions(&self) -> &[Positions]
        ensures positions { result.now ≡ self.now.positions }
        ensures each { length result.now ≡ length self.now.registers.queues }
        ensures few { length self.now.registers.queues ≤ QUEUE_COUNT_MAX }
    {
        let queues = self.registers.queues();
        &self.positions[..queues.len()]
    }

    /// Its kind, with the state that only its kind has.
    pub fn kind(&self) -> &Kind
        ensures { result.now ≡ self.now.kind }
    {
        &self.kind
    }

    pub(crate) fn read_register(&self, offset: u32, width: u8) -> u32
        ensures { result ≡ register_value_of self.now offset width }
    {
        self.kind.read(&self.registers, offset, width)
    }

    /// The driver writes a register. The result is the byte that it writes into the emergency register of a console, if
    /// it does, and the effect of the write.
    pub(crate) fn write_register(
        &mut self,
        offset: u32,
        width: u8,
        value: u32,
    ) -> (Option<u8>, Effect)
        ensures device { self.new ≡ register_set self.old offset width value }
        ensures out { result.0 ≡ written_out self.old.kind offset width value }
        ensures effect { result.1 ≡ (register_write self.old.registers offset width value).0 }
    {
        let out = self.kind.written(offset, width, value);
        let effect = self.registers.write(offset, width, value);
        let queues = self.registers.queues();
        self.positions = restarted(queues, self.positions);
        self.kind.drop_requests_of(queues);
        (out, effect)
    }

    /// Sets the size of a console.
    pub(crate) fn resize(&mut self, size: ConsoleSize) -> Result<(), Refusal>
        ensures { ResizesDevice self.old size result self.new }
    {
        self.kind.resize(size, &mut self.registers)
    }

    /// Keeps the first bytes that fit, and returns how many these are.
    pub(crate) fn input(&mut self, bytes: &[u8]) -> Result<u32, Refusal>
        ensures count { result ≡ input_of self.old.kind bytes.now }
        ensures device { self.new ≡ with_input self.old bytes.now }
    {
        self.kind.input(bytes)
    }

    /// Drops what the host has put in.
    pub(crate) fn drop_input(&mut self) -> Result<(), Refusal>
        ensures answer { result ≡ drop_of self.old.kind }
        ensures device { self.new ≡ without_input self.old }
    {
        self.kind.drop_input()
    }

    /// Looks at the next chain of a queue. The disk is not called, and nothing of it is changed.
    #[inline(always)]
    pub(crate) fn look<R: Ring, L: TouchLog>(
        &mut self,
        alloc: Global,
        pick: u8,
        ring: &mut R,
        sent: &mut Vec<u8>,
        ram: &mut Ram,
        log: &mut L,
    ) -> Stepped
        requires sound { IsSoundDevice self.old.registers.ram_base (length ram.old.bytes) self.old }
        requires looked { looked_at self.old pick ≡ Some (R.state ring.old) }
        requires fits { Fits (R.decoder ring.old) ram.old }
        requires there { pick < length self.old.registers.queues }
        requires may { MayPages L.may log.old (length ram.old.bytes) }
        ensures step { (number : ℕ) (honest : Bool) (content : List Sector) → AreWhole content → IsDeviceStep (Touches L.after log.old log.new ram.old ram.new) number honest ram.old.bytes content self.old pick (reply_in result sent.new.items) ram.new.bytes content self.new }
        ensures fine { is_failure (reply_in result sent.new.items) ≡ false }
        ensures later { IsLater ram.old ram.new }
        ensures fits { Fits (R.decoder ring.new) ram.new }
    {
        let visit = Visit {
            site: Site {
                alloc,
                base: self.registers.ram_base(),
            },
            features: self.registers.features(),
            number: pick,
        };
        let served = self.kind.serve(visit, ring, sent, ram, log);
        self.positions[pick as usize] = ring.positions();
        tell(&mut self.registers, pick, served);
        Stepped::of_served(served)
    }

    /// Advances an outstanding request by one unit, or ends it, where the disk is in the machine. Sectors are reported to the log under the
    /// number of the device.
    #[inline(always)]
    pub(crate) fn advance<R: Ring, D: Disk, L: TouchLog>(
        &mut self,
        work: Work,
        ring: &mut R,
        sectors: &mut Sectors<D>,
        ram: &mut Ram,
        log: &mut L,
    ) -> Stepped
        requires sound { IsSoundDevice self.old.registers.ram_base (length ram.old.bytes) self.old }
        requires capacity { length sectors.old.content ≡ sector_count (made_as self.old.kind) }
        requires inside { is_outside self.old.kind ≡ false }
        requires unlooked { looked_at self.old work.pick ≡ None }
        requires advanced { advanced_at self.old work.pick ≡ Some (R.state ring.old) }
        requires fits { Fits (R.decoder ring.old) ram.old }
        requires may { MayPages L.may log.old (length ram.old.bytes) }
        requires may_sectors { MaySectors L.may log.old work.dev (length sectors.old.content) }
        ensures step { (sent : List ℕ) → IsDeviceStep (Touches L.after log.old log.new ram.old ram.new) work.dev sectors.old.honest ram.old.bytes sectors.old.content self.old work.pick (reply_in result sent) ram.new.bytes sectors.new.content self.new }
        ensures kept { (sent : List ℕ) → IsKept sectors.old (is_failure (reply_in result sent)) sectors.new }
        ensures size { length sectors.new.content ≡ length sectors.old.content }
        ensures flushed { (sent : List ℕ) → HasFlushed self.old work.pick (reply_in result sent) sectors.new.is_flushed }
        ensures calls { (sent : List ℕ) → Calls D.called (asks_disk self.old work.pick (reply_in result sent)) sectors.old sectors.new }
        ensures whole { AreWhole sectors.new.content }
        ensures later { IsLater ram.old ram.new }
        ensures fits { Fits (R.decoder ring.new) ram.new }
    {
        let job = Job {
            k: work.pick as usize - 1,
            device: work.dev,
            base: self.registers.ram_base(),
        };
        let Kind::Block(block) = &mut self.kind else {
            unreachable!()
        };
        let advanced = block.advance(job, ring, sectors, ram, log);
        self.positions[0] = ring.positions();
        raise_if(&mut self.registers, is_due(advanced));
        reply_to_advance(advanced)
    }

    /// Sets `ring` to queue 0 if `pick` names an outstanding request; returns whether it does.
    #[inline(always)]
    pub(crate) fn advanced_ring(&self, alloc: Global, pick: u8, ring: &mut AnyRing) -> bool
        requires sound { (len : ℕ) × IsSoundDevice self.now.registers.ram_base len self.now }
        ensures ring { result ≡ true → advanced_at self.now pick ≡ Some (ring_in ring.new) }
        ensures none { result ≡ false → advanced_at self.now pick ≡ None }
        ensures fits { (ram : Memory) → Fits (decoder_in ring.old) ram → Fits (decoder_in ring.new) ram }
    {
        if !self.advances(pick) {
            return false;
        }
        let [queue, ..] = self.registers.queues() else {
            return false;
        };
        let features = self.registers.features();
        let base = self.registers.ram_base();
        ring.renew(Site { alloc, base }, queue, features, self.positions[0]);
        true
    }

    /// Whether a step with this pick advances an outstanding request.
    pub fn advances(&self, pick: u8) -> bool
        ensures { result ≡ advances self.now pick }
    {
        self.registers.is_running() && pick > 0 && self.kind.can_advance(pick as usize - 1)
    }

    /// Makes the ring the one that a step with this pick looks at, and says whether it looks at one.
    #[inline(always)]
    pub(crate) fn looked_ring(&self, alloc: Global, pick: u8, ring: &mut AnyRing) -> bool
        requires sound { (len : ℕ) × IsSoundDevice self.now.registers.ram_base len self.now }
        ensures ring { result ≡ true → looked_at self.now pick ≡ Some (ring_in ring.new) }
        ensures none { result ≡ false → looked_at self.now pick ≡ None }
        ensures fits { (ram : Memory) → Fits (decoder_in ring.old) ram → Fits (decoder_in ring.new) ram }
        ensures there { result ≡ true → pick < length self.now.registers.queues }
    {
        let queues = self.registers.queues();
        let number = pick as usize;
        if number >= queues.len() {
            return false;
        }
        let queue = &queues[number];
        if !self.looks(pick, queue) {
            return false;
        }
        let features = self.registers.features();
        let base = self.registers.ram_base();
        ring.renew(
            Site { alloc, base },
            queue,
            features,
            self.positions[number],
        );
        true
    }

    /// Whether the device looks at a queue of its own.
    fn looks(&self, number: u8, queue: &Queue) -> bool
        ensures { result ≡ looks self.now number queue.now }
    {
        self.registers.is_running()
            && queue.is_ready
            && queue.is_notified
            && self.kind.has_work(number)
    }
}

fn reply_to_advance(advanced: Advanced) -> Stepped
    ensures { (sent : List ℕ) → reply_in result sent ≡ reply_to_advance advanced }
{
    match advanced {
        Advanced::Idle => Stepped::Idle,
        Advanced::Moved => Stepped::Moved,
        Advanced::BadSector => Stepped::BadSector,
        Advanced::DiskFailed => Stepped::DiskFailed,
        Advanced::Completed { len, .. } => Stepped::Completed(len),
    }
}

/// Whether an interrupt is due after a request was advanced.
fn is_due(advanced: Advanced) -> bool
    ensures { result ≡ is_advance_due advanced }
{
    match advanced {
        Advanced::Completed { is_due, .. } => is_due,
        _ => false,
    }
}

/// Reports to the driver by the registers how serving a queue ended.
#[inline(always)]
fn tell(registers: &mut Regs, pick: u8, served: Result<Served, Unserved>)
    requires { pick < length registers.old.queues }
    ensures { registers.new ≡ looked_registers registers.old pick served }
{
    match served {
        Ok(served) => raise_if(registers, served.is_due),
        Err(Unserved::Empty) => registers.clear_notified(pick),
        Err(Unserved::Malformed) => registers.ask_reset(),
        Err(Unserved::NoMemory) => {}
    }
}

/// Raises the used-buffer interrupt if it is due.
#[inline(always)]
fn raise_if(registers: &mut Regs, is_due: bool)
    ensures { registers.new ≡ (if is_due then with_common registers.old (used_raised registers.old.common) else registers.old) }
{
    if is_due {
        registers.raise_used();
    }
}

/// The positions in queues whose registers were written.
fn restarted(
    queues: &[Queue],
    positions: [Positions; QUEUE_COUNT_MAX],
) -> [Positions; QUEUE_COUNT_MAX]
    requires { length queues.now ≤ QUEUE_COUNT_MAX }
    ensures { take (length queues.now) result ≡ restarted_positions queues.now (take (length queues.now) positions) }
{
    let [first, second] = positions;
    match queues {
        [] => positions,
        [only] => [restarted_one(only, first), second],
        [one, other, ..] => [restarted_one(one, first), restarted_one(other, second)],
    }
}

/// A queue that is not ready starts again at the first positions.
fn restarted_one(queue: &Queue, positions: Positions) -> Positions
    ensures { result ≡ (if queue.now.is_ready then positions else first_positions) }
{
    if queue.is_ready {
        positions
    } else {
        Positions::FIRST
    }
}

fn device_id(shape: Shape) -> u32
    ensures { result ≡ device_id_of shape }
{
    match shape {
        Shape::Net { .. } | Shape::LongNet { .. } => net::DEVICE_ID,
        Shape::Block { .. } | Shape::Outside { .. } => blk::DEVICE_ID,
        Shape::Console => console::DEVICE_ID,
        Shape::Entropy => entropy::DEVICE_ID,
    }
}

/// The feature bits that a device of this shape offers.
pub fn offered(shape: Shape) -> u64
    ensures { result ≡ offered_of shape }
{
    match shape {
        Shape::Block { read_only, .. } => COMMON_FEATURES | blk::features(read_only),
        Shape::Outside { read_only, .. } => COMMON_FEATURES | blk::outside_features(read_only),
        Shape::Net { .. } => COMMON_FEATURES | net::FEATURES,
        Shape::LongNet { .. } => COMMON_FEATURES | net::LONG_FEATURES,
        Shape::Console => COMMON_FEATURES | console::FEATURES,
        Shape::Entropy => COMMON_FEATURES,
    }
}

fn queue_count(shape: Shape) -> u8
    ensures { result ≡ queues_of shape }
{
    match shape {
        Shape::Net { .. } | Shape::LongNet { .. } => net::QUEUE_COUNT,
        Shape::Block { .. } | Shape::Outside { .. } => blk::QUEUE_COUNT,
        Shape::Console => console::QUEUE_COUNT,
        Shape::Entropy => entropy::QUEUE_COUNT,
    }
}

const COMMON_FEATURES: u64 = mmio::INDIRECT_DESC
    | mmio::EVENT_IDX
    | mmio::VERSION_1
    | mmio::RING_PACKED;
