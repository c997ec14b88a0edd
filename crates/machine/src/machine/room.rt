//! The memory that a machine needs beside what it is made of.
//!
//! `Room` is for whoever must not fail late: a receiver takes it when a stream's header is whole.

ghost use Rattle.std.specs.Prelude.{◌≡◌, ◌≤◌, [], IfOk, length, map, vec_capacity};
ghost use Rattle.machine.specs.First.{AreMarksOf, counted, marked, seen_devices};
ghost use Rattle.machine.specs.Rings.{AreNewRings};

use crate::any_ring::AnyRing;
use crate::device::Device;
use crate::fitting::disk_size;
use crate::state::DeviceState;
use blk::{Disk, Sectors};
use dirtylog::BitSet;
use guestmem::NoMemory;
use std::alloc::Global;
use std::marker::Model;

/// The memory that a machine needs beside its RAM, the states of its devices and the marks of its disks. Who has it can make the
/// machine with no further memory, when all of these are there.
#[derive(Drop)]
pub struct Room<D: Disk> {
    alloc: Global,
    device_count: usize,
    disk_count: usize,
    // Empty lists, of which one has room for each disk, and the other for each device.
    sectors: Vec<Sectors<D>>,
    devices: Vec<Device<D>>,
    // Two for each device.
    rings: Vec<AnyRing>,
}

impl<D: Disk> Model for Room<D> {
    ghost use Rattle.std.specs.Prelude.{vec_capacity};
    ghost use Rattle.machine.specs.Room.{HasRoom, RoomSeen};
    ghost use Rattle.machine.specs.Rings.{AreNewRings};

    ghost Value = { RoomSeen };

    ghost view = { λ r. record { devices = r.device_count; disks = r.disk_count } };

    ghost invariant = { λ r. HasRoom r.disk_count r.sectors.items (vec_capacity r.sectors) × HasRoom r.device_count r.devices.items (vec_capacity r.devices) × AreNewRings r.rings.items r.device_count };
}

impl<D: Disk + Drop> Room<D> {
    /// Allocates for a machine with `devices` devices and `disks` disks. Its only error is out of memory.
    pub fn new(alloc: Global, devices: usize, disks: usize) -> Result<Room<D>, NoMemory>
        ensures { IfOk result (λ room. room ≡ record { devices = devices; disks = disks }) }
    {
        Ok(Room {
            alloc,
            device_count: devices,
            disk_count: disks,
            sectors: Vec::with_capacity(alloc, disks)?,
            devices: Vec::with_capacity(alloc, devices)?,
            rings: new_rings(alloc, devices)?,
        })
    }

    /// The devices of these states, with their disks and the marks of bad sectors, and the rings for them.
    pub(super) fn filled(
        self,
        states: Vec<DeviceState>,
        disks: Vec<D>,
        bad: Vec<BitSet>,
    ) -> (Global, Vec<Device<D>>, Vec<AnyRing>)
        requires devices { self.devices ≡ length states.items }
        requires disks { length bad.items ≤ self.disks }
        requires bad { AreMarksOf (map D.state disks.items) bad.items }
        ensures devices { result.1.items ≡ seen_devices states.items (counted (map D.calls disks.items) (marked (map D.state disks.items) bad.items)) }
        ensures rings { AreNewRings result.2.items (length states.items) }
    {
        let sectors = all_marked(disks, bad, self.sectors);
        (
            self.alloc,
            with_sectors(states, sectors, self.devices),
            self.rings,
        )
    }
}

/// Two rings for each of `count` devices. Its only error is out of memory.
fn new_rings(alloc: Global, count: usize) -> Result<Vec<AnyRing>, NoMemory>
    ensures { IfOk result (λ rings. AreNewRings rings.items count) }
{
    let mut rings = Vec::new(alloc);
    for _device in 0..count {
        rings.push(AnyRing::new(alloc))?;
        rings.push(AnyRing::new(alloc))?;
    }
    Ok(rings)
}

/// The disks with these marks of bad sectors, in a list that has room for them.
fn all_marked<D: Disk + Drop>(
    disks: Vec<D>,
    bad: Vec<BitSet>,
    mut all: Vec<Sectors<D>>,
) -> Vec<Sectors<D>>
    requires bad { AreMarksOf (map D.state disks.items) bad.items }
    requires none { all.items ≡ [] }
    requires room { length bad.items ≤ vec_capacity all }
    ensures { result.items ≡ counted (map D.calls disks.items) (marked (map D.state disks.items) bad.items) }
{
    let mut bad = bad.into_iter();
    for disk in disks {
        let Some(marks) = bad.next() else {
            break;
        };
        all.push_reserved(Sectors::with_marks(disk, marks));
    }
    all
}

/// The devices, of which those with a disk get the next of these, in a list that has room for them.
fn with_sectors<D: Disk + Drop>(
    states: Vec<DeviceState>,
    sectors: Vec<Sectors<D>>,
    mut devices: Vec<Device<D>>,
) -> Vec<Device<D>>
    requires none { devices.items ≡ [] }
    requires room { length states.items ≤ vec_capacity devices }
    ensures { result.items ≡ seen_devices states.items sectors.items }
{
    let mut sectors = sectors.into_iter();
    for state in states {
        let disk = match disk_size(state.shape()) {
            Some(_) => sectors.next(),
            None => None,
        };
        devices.push_reserved(Device::new(state, disk));
    }
    devices
}
