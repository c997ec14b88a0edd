//! When what a guest wrote to a disk could not be made durable: the disk is lost.
//!
//! A failed sync is for good, and the handle remembers it for the device: the system reports it once, so a host that called `msync` again
//! would get a success, and so would its guest. It is no part of the machine: the files of a target are others.
//!
//! So each later flush of that disk is made as one that failed (`Machine::fail_flush`). The end of a write without FLUSH is idle: its
//! sectors are in the image, and no unit is left that could fail. So the guest reads no success; its host ends it, or moves it.
//!
//! The call answers alike for disks in memory of the library: a host that keeps such a disk elsewhere too can use it.
//!
//! It is the call for a disk outside too, whose storage may have lost what it answered. What follows there is in `outside`: an answer that would say
//! that something is durable counts as a failure.

ghost use Rattle.std.specs.Prelude.{◌≡◌, None};
ghost use Rattle.machine.specs.Seen.{state_of};
ghost use Rattle.c_handle.specs.Durable.{FailsKept, FailsSync, FailsUnless, Loses, disk_refusal_unless, kind_refusal, loss_refusal, owed_lost, owed_of, owed_unless};
ghost use Rattle.c_handle.specs.Mirror.{is_closed};

use crate::devices::Devices;
use crate::kept::{Kept, by_state};
use crate::mirror::has_stopped;
use crate::status::mig_status;
use blk::SyncOwed;
use c_machine::status::{DISK_FAILED, DONE, IDLE, NO_DEVICE, NO_MACHINE, STOPPED, WRONG_KIND};
use guestmem::Ram;
use machine::{Disk, Kind, Machine};
use sender::LiveOver;
use wire::Digesting;

/// What a step of the machine of a handle owes and does not get, since the disk is lost.
pub(crate) fn owed_lost(kept: &Kept, dev: u8, pick: u8) -> SyncOwed
    ensures { result ≡ owed_lost kept.now dev pick }
{
    if !kept.is_lost(dev) {
        return SyncOwed::Nothing;
    }
    by_state!(&kept.held;
        still(machine) => owed(machine, dev, pick),
        moving(live) => owed_live(live, dev, pick),
        lent(_) => SyncOwed::Nothing,
        arriving(_) => SyncOwed::Nothing,
    )
}

fn owed<D: Disk>(machine: &Machine<D>, dev: u8, pick: u8) -> SyncOwed
    ensures { result ≡ owed_of (state_of machine.now) dev pick }
{
    if dev as usize >= machine.shapes().len() {
        return SyncOwed::Nothing;
    }
    machine.state(dev).must_sync(pick)
}

/// As above, for a machine that is being migrated. One that was stopped makes no steps.
fn owed_live<D: Disk, W: Digesting>(live: &LiveOver<D, W, Ram>, dev: u8, pick: u8) -> SyncOwed
    ensures { result ≡ owed_unless (is_closed live.now.phase) (state_of live.now.machine) dev pick }
{
    if has_stopped(live.phase()) {
        return SyncOwed::Nothing;
    }
    owed(live.machine(), dev, pick)
}

/// The disk of a device could not be brought to its file, or is on storage that may have lost what it answered: it is lost from now on.
#[tactic(auto, using(crate::proofs::Failing::lost, crate::proofs::Failing::not_lost))]
pub fn lose_kept(kept: &mut Kept, dev: u8) -> u32
    ensures { Loses kept.old dev result kept.new }
{
    if let Some(status) = loss_refusal(kept, dev) {
        return status;
    }
    kept.lose(dev);
    DONE
}

/// Why no disk is lost, if none is.
fn loss_refusal(kept: &Kept, dev: u8) -> Option<u32>
    ensures { result ≡ loss_refusal kept.now.state dev }
{
    by_state!(&kept.held;
        still(machine) => disk_refusal(false, machine, dev),
        moving(live) => disk_refusal(has_stopped(live.phase()), live.machine(), dev),
        still_lent(parked) => disk_refusal(false, parked, dev),
        moving_lent(live) => disk_refusal(has_stopped(live.phase()), live.machine(), dev),
        arriving(_) => Some(NO_MACHINE),
    )
}

/// As above, of a machine that was stopped or not.
fn disk_refusal<M: Devices>(stopped: bool, machine: &M, dev: u8) -> Option<u32>
    ensures { result ≡ disk_refusal_unless stopped (M.states machine.now) dev }
{
    if stopped {
        return Some(STOPPED);
    }
    match machine.device(dev) {
        Some(device) => kind_refusal(device.kind()),
        None => Some(NO_DEVICE),
    }
}

fn kind_refusal(kind: &Kind) -> Option<u32>
    ensures { result ≡ kind_refusal kind.now }
{
    match kind {
        Kind::Block(_) | Kind::Outside(_) => None,
        Kind::Network { .. } | Kind::Console { .. } | Kind::Entropy { .. } => Some(WRONG_KIND),
    }
}

/// In place of a step that makes a flush, of the machine of a handle: makes it as a step whose disk failed.
#[tactic(auto, using(crate::proofs::ByState::by_still, crate::proofs::ByState::by_moving, crate::proofs::SamePages::failed, crate::proofs::SamePages::failed_moving))]
pub(crate) fn fail_kept(kept: &mut Kept, dev: u8, pick: u8) -> u32
    ensures fails { FailsKept kept.old.state dev pick result kept.new.state }
    ensures kind { kept.new ≡ record kept.old { state = kept.new.state } }
{
    by_state!(&mut kept.held;
        still(machine) => fail_flush(machine, dev, pick),
        moving(live) => fail_live_flush(live, dev, pick),
    )
}

#[tactic(auto, using(crate::proofs::Failing::failed, crate::proofs::Failing::not_failed))]
fn fail_flush<D: Disk>(machine: &mut Machine<D>, dev: u8, pick: u8) -> u32
    ensures { FailsSync machine.old dev pick result machine.new }
{
    if machine.fail_flush(dev, pick) {
        return DISK_FAILED;
    }
    IDLE
}

/// As above, for a machine that is being migrated.
#[tactic(auto, using(crate::proofs::Failing::live_failed, crate::proofs::Failing::live_not_failed, crate::proofs::Failing::live_refused))]
fn fail_live_flush<D: Disk, W: Digesting>(live: &mut LiveOver<D, W, Ram>, dev: u8, pick: u8) -> u32
    ensures { FailsUnless (is_closed live.old.phase) live.old dev pick result live.new }
{
    live.recall();
    match live.fail_flush(dev, pick) {
        Ok(true) => DISK_FAILED,
        Ok(false) => IDLE,
        Err(error) => mig_status(error),
    }
}
