//! How long the stream of a saved machine is.
//!
//! Since version 2 the length depends on RAM, as pages of zeros have a short record. So each page is looked at.

ghost use Rattle.std.specs.Prelude.{◌≡◌, ◌<◌, ◌≤◌, length, map};
ghost use Rattle.machine.specs.Seen.{state_of};
ghost use Rattle.machine.specs.Layout.{pages_of};
ghost use Rattle.machine.specs.Sound.{AreSoundDevices};
ghost use Rattle.machine.specs.declared.machine.TheConstants.{DEVICES_MAX};
ghost use Rattle.wire.specs.Stream.{device_texts, records_below, texts, whole};
ghost use Rattle.sender.specs.Items.{disk_text, sectors_text};

use crate::numbering::{page_count, sector_count};
use machine::{Device, Disk, Machine};
use wire::{
    BAD_SECTOR_RECORD, COMMIT_RECORD, GOOD_SECTOR_RECORD, device_len, header_len, page_len,
};

/// The length in bytes of the stream that `save` writes of a machine. It makes none of it: it takes no memory and calls no disk. It
/// looks at each page once, since a page of zeros has a short record.
pub fn saved_len<D: Disk>(machine: &Machine<D>) -> u64
    ensures { result ≡ length (whole (state_of machine.now)) }
{
    let shapes = machine.shapes();
    let parts = pages_len(machine) + sectors_len(machine) + devices_len(machine.devices());
    header_len(shapes) + parts + COMMIT_RECORD as u64
}

/// The length of the records of all pages.
fn pages_len<D: Disk>(machine: &Machine<D>) -> u64
    ensures len { result ≡ length (texts (records_below (state_of machine.now) (pages_of (state_of machine.now)))) }
    ensures short { result ≤ 17613660876795 }
{
    let ram = machine.ram();
    ram.recall();
    let mut len = 0;
    for number in 0..page_count(machine) {
        len += page_len(ram.page(number));
    }
    len
}

/// The length of the records of all sectors.
fn sectors_len<D: Disk>(machine: &Machine<D>) -> u64
    ensures len { result ≡ length (sectors_text (state_of machine.now)) }
    ensures short { result ≤ 35665408417680 }
{
    let mut len = 0;
    for dev in 0..machine.shapes().len() as u8 {
        len += disk_len(machine, dev);
    }
    len
}

/// The length of the records of the sectors of a device's disk.
fn disk_len<D: Disk>(machine: &Machine<D>, dev: u8) -> u64
    requires { dev < length (state_of machine.now).devices }
    ensures len { result ≡ length (disk_text (state_of machine.now) dev) }
    ensures short { result ≤ 2229088026105 }
{
    let bad = machine.bad_sectors(dev);
    let good = sector_count(machine, dev) - bad;
    GOOD_SECTOR_RECORD as u64 * good + BAD_SECTOR_RECORD as u64 * bad
}

/// The length of the records of all devices of a machine.
pub(crate) fn devices_len<D: Disk>(devices: &[Device<D>]) -> u64
    requires few { length devices.now ≤ DEVICES_MAX }
    requires sound { AreSoundDevices (map (λ d. d.state) devices.now) }
    ensures len { result ≡ length (device_texts 0 (map (λ d. d.state) devices.now)) }
    ensures short { result ≤ 2097248 }
{
    let mut len = 0;
    for device in devices {
        len += device_len(device.state());
    }
    len
}
