//! A machine: RAM and devices, to which one event after another is applied.

mod apply;
mod bad_sectors;
mod calls;
mod direct;
mod getters;
mod lending;
mod making;
mod next_work;
mod outside;
mod room;
mod working;

use crate::any_ring::AnyRing;
use crate::device::Device;
use crate::guest_ram::GuestRam;
use crate::shape::Shape;
use blk::Disk;
use guestmem::{ParkedRam, Ram};
pub use making::is_base;
pub use room::Room;
use std::alloc::Global;
use std::marker::Model;

/// The most devices that a machine can have.
pub const DEVICES_MAX: usize = 16;

/// A machine: its RAM, here or lent, and its devices in order, each with its disk.
#[derive(Drop)]
pub struct MachineOver<D: Disk, M: GuestRam> {
    alloc: Global,
    ram: M,
    shapes: Vec<Shape>,
    devices: Vec<Device<D>>,
    // Two for each device: a step makes the ring of its queue out of one, in place, with what it keeps of descriptors. They keep nothing
    // while RAM is lent, since no version shows what the guest writes meanwhile.
    rings: Vec<AnyRing>,
}

/// A machine whose RAM is here.
pub type Machine<D> = MachineOver<D, Ram>;

/// A machine whose RAM is lent: all of it but the bytes of its RAM. What needs none of them can be done to it.
pub type Parked<D> = MachineOver<D, ParkedRam>;

impl<D: Disk, M: GuestRam> Model for MachineOver<D, M> {
    ghost use Rattle.machine.specs.Seen.{SeenOver};

    ghost Value = { SeenOver M };

    ghost use Rattle.std.specs.Prelude.{length};
    ghost use Rattle.machine.specs.Held.{IsHeld};
    ghost use Rattle.machine.specs.Known.{Whatever};
    ghost use Rattle.machine.specs.Rings.{AreRings};

    ghost view = { λ m. record { memory = m.ram; devices = m.devices.items } };

    ghost invariant = { λ m. Whatever (M.known m.ram) (λ ram. IsHeld m.shapes.items (record { memory = ram; devices = m.devices.items }) × AreRings m.rings.items ram (length m.devices.items)) };
}
