//! Machines that are made, or were saved.
//!
//! All memory is taken before the first disk is moved. So a refusal can give disks and RAM back as they were, and no image of a
//! caller is lost by it.

ghost use Rattle.std.specs.Prelude.{◌≡◌, ◌*◌, ◌≤◌, ◌↔◌, IsTrue, length, map, All, Err, None, Some, IfOk, IfErr, IfSome};
ghost use Rattle.blk.specs.Disk.{AreSectors};
ghost use Rattle.machine.specs.Board.{ram_bytes, ram_place, ram_size};
ghost use Rattle.machine.specs.Seen.{state_of, all_calls, all_marks};
ghost use Rattle.machine.specs.Shapes.{first_device, is_beyond, made_as};
ghost use Rattle.machine.specs.First.{AreMarksOf, HasBytes, are_beyond, dealt_calls, dealt_marks, first_machine, good_marks, is_base, is_beyond_limits, is_ram_size, made_machine, make_refusal, marked_sectors, marks_in, new_refusal, saved_machine};
ghost use Rattle.machine.specs.Limits.{IsWithinLimits, usual};
ghost use Rattle.machine.specs.Sound.{IsBase, IsSound};
ghost use Rattle.machine.specs.declared.new_error.NewError.TheVariants as new_error;

use crate::board::{Board, RamOf, Unmade};
use crate::fitting::are_disks_of;
use crate::limits::Limits;
use crate::machine::room::Room;
use crate::machine::{DEVICES_MAX, Machine, MachineOver};
use crate::new_error::NewError;
use crate::shape::Shape;
use crate::state::DeviceState;
use blk::{Disk, OUTSIDE_GREATEST};
use dirtylog::BitSet;
use guestmem::{NoMemory, PAGE_SIZE, Ram, recall_bytes};
use net::LONG_FRAME_MIN;
use std::alloc::Global;

impl<D: Disk + Drop> MachineOver<D, Ram> {
    /// A new machine of `ram_pages` pages of zeros, from the guest-physical address 0 on, and devices of these shapes, whose block
    /// devices get the disks in order. All their sectors are good.
    ///
    /// `BadShape` is reported first, then `DiskMismatch`, then `NoMemory`. A refusal drops the disks.
    pub fn new(
        alloc: Global,
        ram_pages: u32,
        shapes: &[Shape],
        disks: Vec<D>,
    ) -> Result<Machine<D>, NewError>
        ensures made { IfOk result (λ m. state_of m ≡ first_machine ram_pages shapes.now (map (λ d. map Some (D.state d).sectors) disks.items)) }
        ensures marks { IfOk result (λ m. all_marks m ≡ dealt_marks shapes.now (map (λ d. marks_in (D.state d)) disks.items)) }
        ensures calls { IfOk result (λ m. all_calls m ≡ dealt_calls shapes.now (map (λ d. Some (D.calls d)) disks.items)) }
        ensures sound { IfOk result (λ m. IsSound (state_of m)) }
        ensures within { IfOk result (λ m. IsWithinLimits usual (state_of m)) }
        ensures refused { IfSome (new_refusal ram_pages shapes.now (map (λ d. length (D.state d).sectors) disks.items)) (λ error. result ≡ Err error) }
        ensures memory { new_refusal ram_pages shapes.now (map (λ d. length (D.state d).sectors) disks.items) ≡ None → IfErr result (λ error. error ≡ new_error.NoMemory) }
    {
        let ram = RamOf::Pages(ram_pages);
        match Machine::make(
            alloc,
            Board {
                limits: Limits::usual(),
                base: 0,
                ram,
                shapes,
                disks,
            },
        ) {
            Ok(machine) => Ok(machine),
            Err(unmade) => Err(unmade.reason()),
        }
    }

    /// A machine as the board says. All sectors of its disks are good.
    ///
    /// `BadShape` is reported first, also of a base or a region where RAM may not lie; then `DiskMismatch`, then `NoMemory`. A refusal
    /// gives back what was to be its RAM and its disks, as they were.
    pub fn make(alloc: Global, board: Board<D>) -> Result<Machine<D>, Unmade<D>>
        ensures made { IfOk result (λ m. state_of m ≡ made_machine board.entry.base (ram_bytes board.entry.ram) board.entry.shapes.now (map (λ d. map Some (D.state d).sectors) board.entry.disks.items)) }
        ensures place { IfOk result (λ m. m.memory.place ≡ ram_place board.entry.ram) }
        ensures marks { IfOk result (λ m. all_marks m ≡ dealt_marks board.entry.shapes.now (map (λ d. marks_in (D.state d)) board.entry.disks.items)) }
        ensures calls { IfOk result (λ m. all_calls m ≡ dealt_calls board.entry.shapes.now (map (λ d. Some (D.calls d)) board.entry.disks.items)) }
        ensures sound { IfOk result (λ m. IsSound (state_of m)) }
        ensures within { IfOk result (λ m. IsWithinLimits board.entry.limits (state_of m)) }
        ensures disks { IfErr result (λ unmade. unmade.disks.items ≡ board.entry.disks.items) }
        ensures ram { IfErr result (λ unmade. unmade.ram ≡ board.entry.ram) }
        ensures refused { IfSome (make_refusal board.entry.limits board.entry.base (ram_size board.entry.ram) board.entry.shapes.now (map (λ d. length (D.state d).sectors) board.entry.disks.items)) (λ error. result ≡ Err (record { error = error; ram = board.entry.ram; disks = board.entry.disks })) }
        ensures memory { make_refusal board.entry.limits board.entry.base (ram_size board.entry.ram) board.entry.shapes.now (map (λ d. length (D.state d).sectors) board.entry.disks.items) ≡ None → IfErr result (λ unmade. unmade.error ≡ new_error.NoMemory) }
    {
        let Board {
            limits,
            base,
            ram,
            shapes,
            disks,
        } = board;
        if let Some(error) = refusal(limits, base, ram.len(), shapes, disks.as_slice()) {
            return Err(Unmade { error, ram, disks });
        }
        // All memory is got before the first disk is moved out of its list.
        let Ok(parts) = first_parts(alloc, base, ram.len(), shapes, disks.as_slice()) else {
            let error = NewError::NoMemory;
            return Err(Unmade { error, ram, disks });
        };
        match ram.into_ram(alloc) {
            Ok(ram) => {
                ram.recall();
                let Parts {
                    room,
                    shapes,
                    states,
                    bad,
                } = parts;
                Ok(Machine::restore_in(room, ram, shapes, states, disks, bad))
            }
            Err(ram) => {
                let error = NewError::NoMemory;
                Err(Unmade { error, ram, disks })
            }
        }
    }

    /// A machine as it was saved, whose block devices get the disks in order, and their marks of bad sectors. The caller
    /// makes sure that it is sound. Its only error is out of memory.
    pub fn restore(
        alloc: Global,
        ram: Ram,
        shapes: Vec<Shape>,
        states: Vec<DeviceState>,
        disks: Vec<D>,
        bad: Vec<BitSet>,
    ) -> Result<Machine<D>, NoMemory>
        requires sound { IsSound (saved_machine ram.bytes states.items (marked_sectors (map D.state disks.items) bad.items)) }
        requires shapes { shapes.items ≡ map (λ d. made_as d.kind) states.items }
        requires bad { AreMarksOf (map D.state disks.items) bad.items }
        ensures restored { IfOk result (λ m. state_of m ≡ saved_machine ram.bytes states.items (marked_sectors (map D.state disks.items) bad.items)) }
        ensures marks { IfOk result (λ m. all_marks m ≡ dealt_marks shapes.items (map (λ d. marks_in (D.state d)) disks.items)) }
        ensures calls { IfOk result (λ m. all_calls m ≡ dealt_calls shapes.items (map (λ d. Some (D.calls d)) disks.items)) }
        ensures sound { IfOk result (λ m. IsSound (state_of m)) }
        ensures place { IfOk result (λ m. m.memory.place ≡ ram.place) }
    {
        let room = Room::new(alloc, states.len(), bad.len())?;
        Ok(Machine::restore_in(room, ram, shapes, states, disks, bad))
    }

    /// As `restore`, in memory that `room` holds already: it allocates nothing and cannot fail.
    pub fn restore_in(
        room: Room<D>,
        ram: Ram,
        shapes: Vec<Shape>,
        states: Vec<DeviceState>,
        disks: Vec<D>,
        bad: Vec<BitSet>,
    ) -> Machine<D>
        requires sound { IsSound (saved_machine ram.bytes states.items (marked_sectors (map D.state disks.items) bad.items)) }
        requires shapes { shapes.items ≡ map (λ d. made_as d.kind) states.items }
        requires bad { AreMarksOf (map D.state disks.items) bad.items }
        requires devices { room.devices ≡ length states.items }
        requires disks { length bad.items ≤ room.disks }
        ensures restored { state_of result ≡ saved_machine ram.bytes states.items (marked_sectors (map D.state disks.items) bad.items) }
        ensures marks { all_marks result ≡ dealt_marks shapes.items (map (λ d. marks_in (D.state d)) disks.items) }
        ensures calls { all_calls result ≡ dealt_calls shapes.items (map (λ d. Some (D.calls d)) disks.items) }
        ensures sound { IsSound (state_of result) }
        ensures place { result.memory.place ≡ ram.place }
    {
        let (alloc, devices, rings) = room.filled(states, disks, bad);
        MachineOver {
            alloc,
            ram,
            shapes,
            devices,
            rings,
        }
    }
}

/// Why no machine is made within these limits whose RAM has this many bytes from `base` on, of these devices and these disks, if
/// there is a reason.
fn refusal<D: Disk>(
    limits: Limits,
    base: u64,
    bytes: u64,
    shapes: &[Shape],
    disks: &[D],
) -> Option<NewError>
    ensures { result ≡ make_refusal limits base bytes shapes.now (map (λ d. length (D.state d).sectors) disks.now) }
{
    if is_beyond_limits(limits, base, bytes, shapes) {
        return Some(NewError::BadShape);
    }
    if !are_disks_of(shapes, disks) {
        return Some(NewError::DiskMismatch);
    }
    None
}

fn is_beyond_limits(limits: Limits, base: u64, bytes: u64, shapes: &[Shape]) -> bool
    ensures { result ≡ is_beyond_limits limits base bytes shapes.now }
{
    !is_base(base, bytes)
        || !is_ram_size(limits, bytes)
        || shapes.is_empty()
        || shapes.len() > DEVICES_MAX
        || are_beyond(limits, shapes)
}

/// Whether RAM of this many bytes may begin at a guest-physical address: a multiple of a page, with no byte past the last address.
pub fn is_base(base: u64, bytes: u64) -> bool
    ensures value { result ≡ is_base base bytes }
    ensures facts { IsTrue result ↔ IsBase base bytes }
{
    // The address of the last byte, and no sum that may be 2^64.
    base % PAGE_SIZE as u64 == 0 && (bytes == 0 || bytes - 1 <= u64::MAX - base)
}

fn is_ram_size(limits: Limits, bytes: u64) -> bool
    ensures { result ≡ is_ram_size limits bytes }
{
    bytes % PAGE_SIZE as u64 == 0 && bytes != 0 && bytes <= PAGE_SIZE as u64 * limits.pages as u64
}

/// What a new machine needs beside its RAM and its disks.
#[derive(Drop)]
struct Parts<D: Disk> {
    room: Room<D>,
    shapes: Vec<Shape>,
    states: Vec<DeviceState>,
    bad: Vec<BitSet>,
}

/// The parts of a new machine for these disks, whose RAM has `bytes` bytes from `base` on. Its only error is out of memory.
fn first_parts<D: Disk + Drop>(
    alloc: Global,
    base: u64,
    bytes: u64,
    shapes: &[Shape],
    disks: &[D],
) -> Result<Parts<D>, NoMemory>
    ensures shapes { IfOk result (λ parts. parts.shapes.items ≡ shapes.now) }
    ensures states { IfOk result (λ parts. parts.states.items ≡ map (first_device base bytes) shapes.now) }
    ensures good { IfOk result (λ parts. parts.bad.items ≡ good_marks (map D.state disks.now)) }
    ensures room { IfOk result (λ parts. parts.room ≡ record { devices = length parts.states.items; disks = length parts.bad.items }) }
    ensures whole { IfOk result (λ _. All (λ d. AreSectors (D.state d).sectors) disks.now) }
    ensures bytes { IfOk result (λ _. All HasBytes shapes.now) }
{
    recall_all(shapes);
    let states = new_states(alloc, shapes, base, bytes)?;
    let bad = good_marks(alloc, disks)?;
    let shapes = Vec::from_slice(alloc, shapes)?;
    let room = Room::new(alloc, states.len(), bad.len())?;
    Ok(Parts {
        room,
        shapes,
        states,
        bad,
    })
}

/// Marks for each disk, by which none of its sectors is bad. It also states for proofs that the sectors are whole.
fn good_marks<D: Disk>(alloc: Global, disks: &[D]) -> Result<Vec<BitSet>, NoMemory>
    ensures good { IfOk result (λ bad. bad.items ≡ good_marks (map D.state disks.now)) }
    ensures whole { IfOk result (λ _. All (λ d. AreSectors (D.state d).sectors) disks.now) }
{
    let mut bad = Vec::with_capacity(alloc, disks.len())?;
    for disk in disks {
        bad.push_reserved(BitSet::new(alloc, disk.sectors())?);
    }
    Ok(bad)
}

fn new_states(
    alloc: Global,
    shapes: &[Shape],
    ram_base: u64,
    ram_len: u64,
) -> Result<Vec<DeviceState>, NoMemory>
    ensures { IfOk result (λ states. states.items ≡ map (first_device ram_base ram_len) shapes.now) }
{
    let mut states = Vec::with_capacity(alloc, shapes.len())?;
    for shape in shapes {
        let state = DeviceState::new(alloc, *shape, ram_base, ram_len)?;
        states.push_reserved(state);
    }
    Ok(states)
}

/// Whether a device is beyond its limits.
fn are_beyond(limits: Limits, shapes: &[Shape]) -> bool
    ensures { result ≡ are_beyond limits shapes.now }
{
    shapes.iter().any(|shape| is_beyond(limits, *shape))
}

fn is_beyond(limits: Limits, shape: Shape) -> bool
    ensures { result ≡ is_beyond limits shape }
{
    match shape {
        Shape::Block { sectors, .. } => sectors == 0 || sectors > limits.sectors as u64,
        Shape::Outside { sectors, .. } => {
            sectors == 0 || sectors > OUTSIDE_GREATEST || sectors > limits.outside
        }
        Shape::LongNet { longest, .. } => longest < LONG_FRAME_MIN || longest > limits.frame,
        Shape::Net { .. } | Shape::Console | Shape::Entropy => false,
    }
}

/// States for proofs that the MACs of network devices are 6 bytes each, and the ids of block devices 20 (see the page
/// of `guestmem`).
fn recall_all(shapes: &[Shape])
    ensures { All HasBytes shapes.now }
{
    for shape in shapes {
        recall_one(*shape);
    }
}

fn recall_one(shape: Shape)
    ensures { HasBytes shape }
{
    match shape {
        Shape::Net { mac } | Shape::LongNet { mac, .. } => recall_bytes(mac.as_slice()),
        Shape::Block { id, .. } | Shape::Outside { id, .. } => recall_bytes(id.as_slice()),
        Shape::Console | Shape::Entropy => {}
    }
}
