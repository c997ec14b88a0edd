//! Which step of a handle's machine has something to do, and whether the disk has to be durable before it; and whether a disk outside is to be asked
//! for something where no step has.
//!
//! What has to be durable is asked for before the step: a step keeps its meaning, and a host whose `msync` fails has done nothing yet. Of a
//! flush it is the step that makes it, and not the one that ends it, since that one can still fail; all writes that ended before are in
//! the image then. Of a lost disk nothing is asked for any more: a flush fails in any case, and the end of a write that the driver takes
//! for durable is passed over.

ghost use Rattle.std.specs.Prelude.{◌≡◌, IfSome, None, false, slice_index_or};
ghost use Rattle.c_handle.specs.CallsOut.{HasNoCall, IsCallNext};
ghost use Rattle.c_handle.specs.NextWork.{FindsNext, FindsUnless, FindsWork, asked_in, work_status};

use crate::devices::Devices;
use crate::kept::{Kept, by_state};
use crate::mirror::has_stopped;
use blk::SyncOwed;
use c_machine::status::{CALL, IDLE, STOPPED, SYNC, WORK};
use machine::Work;

/// Finds the next step with something to do after the one that the numbers name, and makes them name it; or, where no step has, the device whose disk
/// is to be asked for something. It takes no memory.
pub fn next(kept: &Kept, dev: &mut u8, pick: &mut u8) -> u32
    ensures { FindsNext kept.now result dev.new dev.old pick.new pick.old }
{
    let status = next_step(kept, dev, pick);
    if status != IDLE {
        return status;
    }
    match next_call(kept) {
        Some(asking) => {
            *dev = asking;
            CALL
        }
        None => IDLE,
    }
}

/// The device whose disk is to be asked for something, if any is.
fn next_call(kept: &Kept) -> Option<u8>
    ensures some { IfSome result (λ dev. IsCallNext kept.now.calls (asked_in kept.now.state) dev) }
    ensures none { result ≡ None → HasNoCall kept.now.calls (asked_in kept.now.state) }
{
    by_state!(&kept.held;
        still(machine) => kept.calls.next_device(machine),
        moving(live) => kept.calls.next_device(live.machine()),
        still_lent(parked) => kept.calls.next_device(parked),
        moving_lent(live) => kept.calls.next_device(live.machine()),
        arriving(_) => None,
    )
}

/// Finds the next step with something to do after the one that the numbers name, and makes them name it.
pub(crate) fn next_step(kept: &Kept, dev: &mut u8, pick: &mut u8) -> u32
    ensures { FindsWork kept.now result dev.new dev.old pick.new pick.old }
{
    let lost = kept.lost();
    by_state!(&kept.held;
        still(machine) => found_status(false, machine, lost, dev, pick),
        moving(live) => found_status(has_stopped(live.phase()), live.machine(), lost, dev, pick),
        still_lent(parked) => found_status(false, parked, lost, dev, pick),
        moving_lent(live) => found_status(has_stopped(live.phase()), live.machine(), lost, dev, pick),
    )
}

/// The status of the next step with something to do, and its numbers. Where there is none, they stay. A machine that was stopped makes no
/// steps.
fn found_status<M: Devices>(
    stopped: bool,
    machine: &M,
    lost: &[bool],
    dev: &mut u8,
    pick: &mut u8,
) -> u32
    ensures { FindsUnless stopped lost.now (M.states machine.now) result dev.new dev.old pick.new pick.old }
{
    if stopped {
        return STOPPED;
    }
    let last = Work {
        dev: *dev,
        pick: *pick,
    };
    match machine.next_step(last, lost) {
        Some(work) => {
            *dev = work.dev;
            *pick = work.pick;
            work_status(machine, lost, work)
        }
        None => IDLE,
    }
}

/// Whether the disk has to be durable before a step.
fn work_status<M: Devices>(machine: &M, lost: &[bool], work: Work) -> u32
    ensures { result ≡ work_status lost.now (M.states machine.now) work }
{
    let Work { dev, pick } = work;
    if is_lost(lost, dev) {
        return WORK;
    }
    let Some(device) = machine.device(dev) else {
        return WORK;
    };
    match device.must_sync(pick) {
        SyncOwed::Nothing => WORK,
        SyncOwed::Flush | SyncOwed::EndOfWrite => SYNC,
    }
}

fn is_lost(lost: &[bool], dev: u8) -> bool
    ensures { result ≡ slice_index_or lost.now dev false }
{
    match lost.get(dev as usize) {
        Some(lost) => *lost,
        None => false,
    }
}
