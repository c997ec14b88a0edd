//! Sectors that go out.

ghost use Rattle.std.specs.Prelude.{◌≡◌, slice_get, None};
ghost use Rattle.machine.specs.Seen.{state_of};
ghost use Rattle.machine.specs.Shapes.{disk_size_of};
ghost use Rattle.c_handle.specs.Sectors.{ReadsKept, ReadsOut, disk_refusal, sector_refusal, sector_refusal_of};
ghost use Rattle.c_handle.specs.Kept.{Still};

use crate::kept::{Kept, by_state};
use c_machine::status::{
    BAD_SECTOR, DISK_FAILED, DONE, LENT, NO_DEVICE, NO_MACHINE, NO_SECTOR, SENDING, WRONG_KIND,
};
use machine::{Disk, Machine, SECTOR_SIZE, Shape};

/// Reads a sector into the buffer, unless the machine is being sent.
pub fn read_sector(kept: &mut Kept, dev: u8, sector: u64, buf: &mut [u8; SECTOR_SIZE]) -> u32
    ensures reads { ReadsKept kept.old.state dev sector result buf.old buf.new kept.new.state }
    ensures kind { kept.new ≡ record kept.old { state = kept.new.state } }
{
    if let Some(status) = sector_refusal(kept, dev, sector) {
        return status;
    }
    by_state!(&mut kept.held;
        still(machine) => read_out(machine, dev, sector, buf),
        moving(_) => SENDING,
    )
}

/// Why `vmig_sector_read` is refused, if it is.
fn sector_refusal(kept: &Kept, dev: u8, sector: u64) -> Option<u32>
    ensures { result ≡ sector_refusal kept.now.state dev sector }
{
    by_state!(&kept.held;
        still(machine) => device_refusal(machine, dev, sector),
        moving(_) => Some(SENDING),
        lent(_) => Some(LENT),
        arriving(_) => Some(NO_MACHINE),
    )
}

fn device_refusal<D: Disk>(machine: &Machine<D>, dev: u8, sector: u64) -> Option<u32>
    ensures { result ≡ sector_refusal_of (slice_get (state_of machine.now).devices dev) sector }
{
    if dev as usize >= machine.shapes().len() {
        return Some(NO_DEVICE);
    }
    disk_refusal(machine.state(dev).shape(), sector)
}

fn disk_refusal(shape: Shape, sector: u64) -> Option<u32>
    ensures { result ≡ disk_refusal (disk_size_of shape) sector }
{
    let Shape::Block { sectors, .. } = shape else {
        return Some(WRONG_KIND);
    };
    if sector >= sectors {
        return Some(NO_SECTOR);
    }
    None
}

/// Reads the sector, and copies its bytes to the buffer if it is good.
fn read_out<D: Disk>(
    machine: &mut Machine<D>,
    dev: u8,
    sector: u64,
    buf: &mut [u8; SECTOR_SIZE],
) -> u32
    requires { sector_refusal (Still machine.old) dev sector ≡ None }
    ensures { ReadsOut machine.old dev sector result buf.old buf.new machine.new }
{
    let _shapes = machine.shapes();
    let mut bytes = [0; SECTOR_SIZE];
    match machine.read_sector(dev, sector, &mut bytes) {
        Ok(true) => {
            *buf = bytes;
            DONE
        }
        Ok(false) => BAD_SECTOR,
        Err(_) => DISK_FAILED,
    }
}
