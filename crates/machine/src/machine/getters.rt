//! What a machine is.

ghost use Rattle.std.specs.Prelude.{◌≡◌, ◌<◌, ◌≤◌, ◌==◌, ◌↔◌, IsTrue, count_by, if◌then◌else◌, length, map, Some, slice_get};
ghost use Rattle.blk.specs.Sectors.{is_bad};
ghost use Rattle.guestmem.specs.Item.{sector};
ghost use Rattle.machine.specs.Applied.{Tells};
ghost use Rattle.machine.specs.EffectLaws.{HasItem, HasSectorsOf};
ghost use Rattle.machine.specs.Seen.{state_of};
ghost use Rattle.machine.specs.Lines.{lines_of};
ghost use Rattle.machine.specs.Shapes.{made_as};
ghost use Rattle.machine.specs.Sound.{IsSound};
ghost use Rattle.machine.specs.State.{base_of};
ghost use Rattle.machine.specs.Step.{disk_of};
ghost use Rattle.machine.specs.declared.machine.TheConstants.{DEVICES_MAX};

use crate::device::Device;
use crate::machine::MachineOver;
use crate::shape::Shape;
use crate::state::DeviceState;
use blk::{Disk, DiskFault, Fetched};
use guestmem::Ram;

impl<D: Disk> MachineOver<D, Ram> {
    /// How many sectors of a device's disk are bad. It takes constant time.
    pub fn bad_sectors(&self, dev: u8) -> u64
        requires { dev < length (state_of self.now).devices }
        ensures { result ≡ count_by is_bad (disk_of (state_of self.now) dev) }
    {
        self.devices[dev as usize].bad_count()
    }

    /// Whether a device has a disk with a sector of this number.
    pub fn has_sector(&self, dev: u8, n: u64) -> bool
        ensures { IsTrue result ↔ HasItem (state_of self.now) (sector dev n) }
    {
        match self.shapes().get(dev as usize) {
            Some(shape) => n < shape.sectors(),
            None => false,
        }
    }

    /// The devices, in order, each with its disk. The RAM is dropped.
    pub fn into_devices(self) -> Vec<Device<D>>
        ensures { result.items ≡ self.devices }
    {
        self.devices
    }

    /// The RAM, whose bytes are numbered from 0.
    pub fn ram(&self) -> &Ram
        ensures { result.now ≡ self.now.memory }
    {
        &self.ram
    }
}

/// The result of a read of a sector, by what its disk returned.
pub(crate) fn found(fetched: Fetched) -> Result<bool, DiskFault>
    ensures { Tells fetched result }
{
    match fetched {
        Fetched::Read => Ok(true),
        Fetched::Bad => Ok(false),
        Fetched::Failed => Err(DiskFault),
    }
}

/// The guest-physical address at which RAM begins, as the registers of these devices know it.
#[inline(always)]
pub(crate) fn base_of<D: Disk>(devices: &[Device<D>]) -> u64
    ensures { result ≡ base_of (map (λ d. d.state) devices.now) }
{
    match devices {
        [] => 0,
        [first, ..] => first.state().registers().ram_base(),
    }
}

/// The interrupt lines of these devices.
pub(crate) fn lines_of<D: Disk>(devices: &[Device<D>]) -> u16
    requires { length devices.now ≤ DEVICES_MAX }
    ensures { result ≡ lines_of (map (λ d. d.state) devices.now) }
{
    let mut lines = 0u32;
    let mut line = 1u32;
    for device in devices {
        lines += raised(device.state(), line);
        line *= 2;
    }
    lines as u16
}

/// The bit of a device, where it has an interrupt.
fn raised(device: &DeviceState, line: u32) -> u32
    ensures { result ≡ (if device.now.registers.common.interrupts == 0 then 0 else line) }
{
    match device.registers().common().interrupts {
        0 => 0,
        _ => line,
    }
}
