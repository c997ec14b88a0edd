//! Events, applied to the contents of a handle. Bytes are taken from the caller's slice, without a copy before.
//!
//! Events that do not access RAM are applied while it is lent too: a host serves register accesses while the guest's processors run.

ghost use Rattle.std.specs.Prelude.{◌≡◌, length};
ghost use Rattle.machine.specs.declared.event.Event.TheVariants as events;
ghost use Rattle.c_handle.specs.Dropping.{WritesReg};
ghost use Rattle.c_handle.specs.Kept.{FitsLog};
ghost use Rattle.sender.specs.declared.event.LiveEvent.TheVariants.{Guest};
ghost use Rattle.c_handle.specs.Told.{IsServed, IsServedLent, IsServedWrite, IsToldLent, IsWritten, ReadsKept, Tells, TellsOr, TellsSo, WritesKept, lines_in};
ghost use Rattle.c_handle.specs.declared.serving.TheConstants.{NO_BYTE};

use crate::dropping::drops_out;
use crate::kept::{Kept, by_state};
use crate::logging;
use crate::logging::live_written;
use crate::stepping::reply_status;
use c_machine::status::{CALLS_OUT, DONE, answer_status, done_status, written_status};
use guestmem::Ram;
use machine::{Disk, Machine, PageLog, Parked};
use sender::{LiveOver, LiveParked};
use wire::Digesting;

/// The number of no byte.
const NO_BYTE: u32 = 256;

/// The driver reads a register.
#[tactic(auto, using(crate::proofs::ByState::each_still, crate::proofs::ByState::each_moving, crate::proofs::ByState::each_still_lent, crate::proofs::ByState::each_moving_lent, crate::proofs::ByKept::told, crate::proofs::ByKept::served, crate::proofs::ByKept::few_told, crate::proofs::SamePages::applied, crate::proofs::SamePages::served, crate::proofs::ServedPages::told_lent_so, crate::proofs::ServedPages::served_lent_so))]
pub fn read_register(kept: &mut Kept, dev: u8, off: u32, width: u8, value: &mut u32) -> u32
    ensures told { Tells kept.old.state (events.RegRead dev off width) result value.new value.old kept.new.state }
    ensures kind { kept.new ≡ record kept.old { state = kept.new.state } }
{
    by_state!(&mut kept.held;
        still(machine) => answer_status(machine.read_register(dev, off, width), value),
        moving(live) => {
            live.recall();
            reply_status(live.read_register(dev, off, width), value)
        },
        still_lent(parked) => read_lent(parked, dev, off, width, value),
        moving_lent(live) => read_moving_lent(live, dev, off, width, value),
    )
}

/// So it does while RAM is lent.
fn read_lent<D: Disk>(parked: &Parked<D>, dev: u8, off: u32, width: u8, value: &mut u32) -> u32
    ensures { IsToldLent parked.now (events.RegRead dev off width) result value.new value.old parked.now }
{
    answer_status(parked.read_register(dev, off, width), value)
}

/// And of a machine that is being migrated.
fn read_moving_lent<D: Disk, W: Digesting>(
    live: &LiveParked<D, W>,
    dev: u8,
    off: u32,
    width: u8,
    value: &mut u32,
) -> u32
    ensures { IsServedLent live.now (events.RegRead dev off width) result value.new value.old live.now }
{
    live.machine().recall();
    reply_status(live.read_register(dev, off, width), value)
}

/// The driver writes a register. `byte` becomes the byte that comes out by it, or 256, where none does. A write that would drop a request whose
/// call is out is not made.
pub fn write_register(
    kept: &mut Kept,
    dev: u8,
    off: u32,
    width: u8,
    value: u32,
    byte: &mut u32,
) -> u32
    ensures writes { WritesReg kept.old dev off width value result byte.new byte.old kept.new.state }
    ensures kind { kept.new ≡ record kept.old { state = kept.new.state } }
{
    if drops_out(kept, dev, off, width, value) {
        return CALLS_OUT;
    }
    let mut number = NO_BYTE;
    let status = written(kept, dev, off, width, value, &mut number);
    if status == DONE {
        *byte = number;
    }
    status
}

/// As above, whatever is out; `out` becomes the byte, and stays where none comes out.
#[tactic(auto, using(crate::proofs::ByState::each_still, crate::proofs::ByState::each_moving, crate::proofs::ByState::each_still_lent, crate::proofs::ByState::each_moving_lent, crate::proofs::ByKept::told, crate::proofs::ByKept::served, crate::proofs::ByKept::few_told, crate::proofs::SamePages::applied, crate::proofs::SamePages::served, crate::proofs::ServedPages::told_lent_so, crate::proofs::ServedPages::served_lent_so))]
pub(crate) fn written(
    kept: &mut Kept,
    dev: u8,
    off: u32,
    width: u8,
    value: u32,
    out: &mut u32,
) -> u32
    ensures told { Tells kept.old.state (events.RegWrite dev off width value) result out.new out.old kept.new.state }
    ensures kind { kept.new ≡ record kept.old { state = kept.new.state } }
{
    by_state!(&mut kept.held;
        still(machine) => written_status(machine.write_register(dev, off, width, value), out),
        moving(live) => {
            live.recall();
            reply_status(live.write_register(dev, off, width, value), out)
        },
        still_lent(parked) => write_lent(parked, dev, off, width, value, out),
        moving_lent(live) => write_moving_lent(live, dev, off, width, value, out),
    )
}

/// So it is while RAM is lent.
fn write_lent<D: Disk>(
    parked: &mut Parked<D>,
    dev: u8,
    off: u32,
    width: u8,
    value: u32,
    out: &mut u32,
) -> u32
    ensures { IsToldLent parked.old (events.RegWrite dev off width value) result out.new out.old parked.new }
{
    written_status(parked.write_register(dev, off, width, value), out)
}

/// And of a machine that is being migrated.
fn write_moving_lent<D: Disk, W: Digesting>(
    live: &mut LiveParked<D, W>,
    dev: u8,
    off: u32,
    width: u8,
    value: u32,
    out: &mut u32,
) -> u32
    ensures { IsServedLent live.old (events.RegWrite dev off width value) result out.new out.old live.new }
{
    live.machine().recall();
    reply_status(live.write_register(dev, off, width, value), out)
}

/// The guest reads RAM. It takes no memory, also for a machine that is being migrated.
pub fn read_ram(kept: &Kept, addr: u64, buf: &mut [u8]) -> u32
    ensures { ReadsKept kept.now.state addr result buf.old buf.new }
{
    by_state!(&kept.held;
        still(machine) => done_status(machine.read_ram(addr, buf)),
        moving(live) => done_status(live.machine().read_ram(addr, buf)),
    )
}

/// The interrupt lines.
pub fn lines(kept: &Kept) -> u16
    ensures { result ≡ lines_in kept.now.state }
{
    by_state!(&kept.held;
        still(machine) => machine.lines(),
        moving(live) => live.machine().lines(),
        lent(loan) => loan.parked().lines(),
        arriving(_) => 0,
    )
}

/// The guest writes RAM.
#[tactic(auto, using(crate::proofs::ByState::by_still, crate::proofs::ByState::by_moving))]
pub fn write_ram(kept: &mut Kept, addr: u64, bytes: &[u8]) -> u32
    ensures written { WritesKept kept.old.state kept.old.written addr bytes.now result kept.new.state kept.new.written }
    ensures kind { kept.new ≡ record kept.old { state = kept.new.state; written = kept.new.written } }
{
    let Kept { held, output, .. } = kept;
    by_state!(held;
        still(machine) => write_still(machine, addr, bytes, &mut output.written),
        moving(live) => write_moving(live, addr, bytes, &mut output.written),
    )
}

#[tactic(auto, using(crate::proofs::PageLogs::may_all, crate::proofs::ByKept::written_still))]
fn write_still<D: Disk>(
    machine: &mut Machine<D>,
    addr: u64,
    bytes: &[u8],
    log: &mut Option<PageLog>,
) -> u32
    requires { FitsLog log.old (length machine.old.memory.bytes) }
    ensures written { IsWritten machine.old log.old addr bytes.now result machine.new log.new }
    ensures fits { FitsLog log.new (length machine.new.memory.bytes) }
{
    let _shapes = machine.shapes();
    done_status(logging::written(machine, addr, bytes, log))
}

#[tactic(auto, using(crate::proofs::PageLogs::may_all, crate::proofs::ByKept::written, crate::proofs::ByKept::few_logged))]
fn write_moving<D: Disk, W: Digesting>(
    live: &mut LiveOver<D, W, Ram>,
    addr: u64,
    bytes: &[u8],
    log: &mut Option<PageLog>,
) -> u32
    requires { FitsLog log.old (length live.old.machine.memory.bytes) }
    ensures written { IsServedWrite live.old log.old addr bytes.now result live.new log.new }
    ensures fits { FitsLog log.new (length live.new.machine.memory.bytes) }
{
    live.recall();
    reply_status(live_written(live, addr, bytes, log), &mut 0)
}

/// The host puts bytes in. `count` becomes how many of them were kept.
pub fn input(kept: &mut Kept, dev: u8, bytes: &[u8], count: &mut usize) -> u32
    ensures told { TellsOr 0 kept.old.state (events.Input dev bytes.now) result count.new count.old kept.new.state }
    ensures kind { kept.new ≡ record kept.old { state = kept.new.state } }
{
    let mut number = 0;
    let status = put_in(kept, dev, bytes, &mut number);
    if status == DONE {
        *count = number as usize;
    }
    status
}

#[tactic(auto, using(crate::proofs::ByState::each_still, crate::proofs::ByState::each_moving, crate::proofs::ByState::each_still_lent, crate::proofs::ByState::each_moving_lent, crate::proofs::ByKept::told, crate::proofs::ByKept::served, crate::proofs::ByKept::few_told, crate::proofs::SamePages::applied, crate::proofs::SamePages::served, crate::proofs::ServedPages::told_lent_so, crate::proofs::ServedPages::served_lent_so))]
fn put_in(kept: &mut Kept, dev: u8, bytes: &[u8], accepted: &mut u32) -> u32
    ensures told { Tells kept.old.state (events.Input dev bytes.now) result accepted.new accepted.old kept.new.state }
    ensures kind { kept.new ≡ record kept.old { state = kept.new.state } }
{
    by_state!(&mut kept.held;
        still(machine) => answer_status(machine.input(dev, bytes), accepted),
        moving(live) => {
            live.recall();
            reply_status(live.input(dev, bytes), accepted)
        },
        still_lent(parked) => input_lent(parked, dev, bytes, accepted),
        moving_lent(live) => input_moving_lent(live, dev, bytes, accepted),
    )
}

/// So it is while RAM is lent.
fn input_lent<D: Disk>(parked: &mut Parked<D>, dev: u8, bytes: &[u8], accepted: &mut u32) -> u32
    ensures { IsToldLent parked.old (events.Input dev bytes.now) result accepted.new accepted.old parked.new }
{
    answer_status(parked.input(dev, bytes), accepted)
}

/// And of a machine that is being migrated.
fn input_moving_lent<D: Disk, W: Digesting>(
    live: &mut LiveParked<D, W>,
    dev: u8,
    bytes: &[u8],
    accepted: &mut u32,
) -> u32
    ensures { IsServedLent live.old (events.Input dev bytes.now) result accepted.new accepted.old live.new }
{
    live.machine().recall();
    reply_status(live.input(dev, bytes), accepted)
}

/// The host sets the size of a console.
#[tactic(auto, using(crate::proofs::ByState::each_still, crate::proofs::ByState::each_moving, crate::proofs::ByState::each_still_lent, crate::proofs::ByState::each_moving_lent, crate::proofs::ByKept::told_so, crate::proofs::SamePages::applied, crate::proofs::ServedPages::served_so, crate::proofs::ServedPages::told_lent_so, crate::proofs::ServedPages::served_lent_so))]
pub fn resize(kept: &mut Kept, dev: u8, cols: u16, rows: u16) -> u32
    ensures told { TellsSo kept.old.state (events.Resize dev cols rows) result kept.new.state }
    ensures kind { kept.new ≡ record kept.old { state = kept.new.state } }
{
    by_state!(&mut kept.held;
        still(machine) => done_status(machine.resize(dev, cols, rows)),
        moving(live) => resize_moving(live, dev, cols, rows),
        still_lent(parked) => resize_lent(parked, dev, cols, rows),
        moving_lent(live) => resize_moving_lent(live, dev, cols, rows),
    )
}

/// As above, for a machine that is being migrated.
#[tactic(auto, using(crate::proofs::ByKept::resized, crate::proofs::ByKept::few_told))]
fn resize_moving<D: Disk, W: Digesting>(
    live: &mut LiveOver<D, W, Ram>,
    dev: u8,
    cols: u16,
    rows: u16,
) -> u32
    ensures { IsServed live.old (Guest (events.Resize dev cols rows)) result 0 0 live.new }
{
    live.recall();
    reply_status(live.resize(dev, cols, rows), &mut 0)
}

/// So it is while its RAM is lent.
#[tactic(auto, using(crate::proofs::ByParked::resized))]
fn resize_moving_lent<D: Disk, W: Digesting>(
    live: &mut LiveParked<D, W>,
    dev: u8,
    cols: u16,
    rows: u16,
) -> u32
    ensures { IsServedLent live.old (events.Resize dev cols rows) result 0 0 live.new }
{
    live.machine().recall();
    reply_status(live.resize(dev, cols, rows), &mut 0)
}

/// So it is of a machine that is not being migrated.
fn resize_lent<D: Disk>(parked: &mut Parked<D>, dev: u8, cols: u16, rows: u16) -> u32
    ensures { IsToldLent parked.old (events.Resize dev cols rows) result 0 0 parked.new }
{
    done_status(parked.resize(dev, cols, rows))
}

/// The host drops what it put in and the guest has not taken.
#[tactic(auto, using(crate::proofs::ByState::each_still, crate::proofs::ByState::each_moving, crate::proofs::ByState::each_still_lent, crate::proofs::ByState::each_moving_lent, crate::proofs::ByKept::told_so, crate::proofs::SamePages::applied, crate::proofs::ServedPages::served_so, crate::proofs::ServedPages::told_lent_so, crate::proofs::ServedPages::served_lent_so))]
pub fn drop_input(kept: &mut Kept, dev: u8) -> u32
    ensures told { TellsSo kept.old.state (events.Drop dev) result kept.new.state }
    ensures kind { kept.new ≡ record kept.old { state = kept.new.state } }
{
    by_state!(&mut kept.held;
        still(machine) => done_status(machine.drop_input(dev)),
        moving(live) => drop_moving(live, dev),
        still_lent(parked) => drop_lent(parked, dev),
        moving_lent(live) => drop_moving_lent(live, dev),
    )
}

/// As above, for a machine that is being migrated.
#[tactic(auto, using(crate::proofs::ByKept::dropped, crate::proofs::ByKept::few_told))]
fn drop_moving<D: Disk, W: Digesting>(live: &mut LiveOver<D, W, Ram>, dev: u8) -> u32
    ensures { IsServed live.old (Guest (events.Drop dev)) result 0 0 live.new }
{
    live.recall();
    reply_status(live.drop_input(dev), &mut 0)
}

/// So it is while its RAM is lent.
#[tactic(auto, using(crate::proofs::ByParked::dropped))]
fn drop_moving_lent<D: Disk, W: Digesting>(live: &mut LiveParked<D, W>, dev: u8) -> u32
    ensures { IsServedLent live.old (events.Drop dev) result 0 0 live.new }
{
    live.machine().recall();
    reply_status(live.drop_input(dev), &mut 0)
}

/// So it is of a machine that is not being migrated.
fn drop_lent<D: Disk>(parked: &mut Parked<D>, dev: u8) -> u32
    ensures { IsToldLent parked.old (events.Drop dev) result 0 0 parked.new }
{
    done_status(parked.drop_input(dev))
}
