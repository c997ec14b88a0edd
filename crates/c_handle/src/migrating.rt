//! The calls of a migration, applied to the contents of a handle.

ghost use Rattle.std.specs.Prelude.{◌≡◌, IfErr, IfOk, Some, [], drop, false, take, true};
ghost use Rattle.dirtylog.specs.Members.{HasNone};
ghost use Rattle.disk_calls.specs.Calls.{is_any_out};
ghost use Rattle.sender.specs.Calls.{ended_reply};
ghost use Rattle.sender.specs.LiveState.{HasPlaces};
ghost use Rattle.sender.specs.HereOrLent.{IsStopBytesOver};
ghost use Rattle.wire.specs.Sinks.{Covers, over_writer};
ghost use Rattle.wire.specs.Telling.{is_owed};
ghost use Rattle.c_handle.specs.Digest.{BeginsAs, TellsIf, TellsKept, told_begun};
ghost use Rattle.c_handle.specs.Mirror.{is_closed};
ghost use Rattle.c_handle.specs.Migrated.{AbortsKept, AreTold, BeginsKept, EndsKept, HasBegun, HasEnded, HasStopped, HasTaken, IsAnswered, IsLeft, IsLeftLent, IsMostByStop, LeavesKept, SendsKept, SendsSome, SendsUpTo, StopsKept, StopsUnless, TakesKept, send_refusal, told_aborted};
ghost use Rattle.c_handle.specs.SendStatus.{live_status};
ghost use Rattle.c_handle.specs.Kept.{are_mapped, are_told, held_state, state_in, telling_of, told_in};
ghost use Rattle.c_handle.specs.Kept as states;

use crate::arrival::Arrival;
use crate::kept::{Contents, Held, Kept, by_state, turned};
use crate::lent_sending::{round_status_lent, some_status_lent};
use crate::mirror::has_stopped;
use crate::status::mig_status;
use c_machine::TOLD;
use c_machine::status::{
    CALLS_OUT, DONE, LENT, NO_MACHINE, NO_MEMORY, NOT_ASKED, NOT_KNOWN, NOT_SENDING, ROUND_DONE,
    ROUND_OPEN, SEND_FAILED, STOPPED,
};
use guestmem::Ram;
use machine::{Disk, GuestRam, Machine};
use sender::{End, Left, LiveOver, LiveParked, LiveTold, LiveWaiting, MigError, Phase, Stopped};
use std::alloc::Global;
use std::mem;
use wire::{Digesting, Waiting};

/// What is still to be sent.
#[derive(Clone, Copy)]
#[repr(C)]
pub struct SendLeft {
    /// How many pages are due in this round.
    pub due_pages: u64,

    /// How many sectors are due in this round.
    pub due_sectors: u64,

    /// How many pages were written since they were sent, or since the round began.
    pub dirty_pages: u64,

    /// How many sectors were.
    pub dirty_sectors: u64,

    /// The most bytes that a stop would still write.
    pub stop_bytes: u64,

    /// Zeros, reserved for later versions.
    pub reserved: [u64; 3],
}

/// Begins the migration of a machine that is not being migrated.
#[tactic(auto, using(crate::proofs::Telling::begins, crate::proofs::Telling::as_before))]
pub fn begin(alloc: Global, kept: &mut Kept) -> u32
    ensures begins { BeginsKept kept.old.state result kept.new.state }
    ensures kind { kept.new ≡ record kept.old { state = kept.new.state } }
{
    begin_as(alloc, kept, 0)
}

/// As `begin`, by flags: `TOLD`, where the host tells the digest, or none.
#[tactic(auto, using(crate::proofs::SamePages::begun, crate::proofs::Telling::plain))]
pub fn begin_as(alloc: Global, kept: &mut Kept, flags: u32) -> u32
    ensures begins { BeginsAs flags kept.old.state result kept.new.state }
    ensures kind { kept.new ≡ record kept.old { state = kept.new.state; told = told_begun flags kept.old.told kept.old.state kept.new.state } }
    ensures plain { flags ≡ 0 → kept.new.told ≡ kept.old.told }
{
    let (next, status) = begun(alloc, flags, taken_out(&mut kept.held));
    drop(mem::replace(&mut kept.held, next));
    status
}

/// Takes what is held out while it is turned into something else. The stand-in takes no memory.
pub(crate) fn taken_out(held: &mut Held) -> Held
    ensures { result ≡ held.old }
{
    mem::replace(held, Held::Arriving(Arrival::failed()))
}

fn begun(alloc: Global, flags: u32, old: Held) -> (Held, u32)
    ensures begins { BeginsAs flags (held_state old) result.1 (held_state result.0) }
    ensures kind { are_mapped result.0 ≡ are_mapped old }
    ensures told { are_told result.0 ≡ told_begun flags (are_told old) (held_state old) (held_state result.0) }
    ensures telling { telling_of result.0 ≡ telling_of old }
{
    turned!(old; contents => begun_in(alloc, flags, contents))
}

fn begun_in<D: Disk>(alloc: Global, flags: u32, old: Contents<D>) -> (Contents<D>, u32)
    ensures begins { BeginsAs flags (state_in old) result.1 (state_in result.0) }
    ensures told { told_in result.0 ≡ told_begun flags (told_in old) (state_in old) (state_in result.0) }
{
    match old {
        Contents::Still(machine) => begun_as(alloc, flags, machine),
        Contents::Moving(live) => {
            let (live, status) = begun_again(live);
            (Contents::Moving(live), status)
        }
        Contents::Told(live) => {
            let (live, status) = begun_again(live);
            (Contents::Told(live), status)
        }
        Contents::Lent(loan) => (Contents::Lent(loan), LENT),
    }
}

/// Begins the migration of a machine, if its flags are known.
fn begun_as<D: Disk>(alloc: Global, flags: u32, machine: Machine<D>) -> (Contents<D>, u32)
    ensures begins { BeginsAs flags (states.Still machine) result.1 (state_in result.0) }
    ensures told { told_in result.0 ≡ told_begun flags false (states.Still machine) (state_in result.0) }
{
    if flags == TOLD {
        return match begun_told(alloc, machine) {
            Ok(live) => (Contents::Told(live), DONE),
            Err(machine) => (Contents::Still(machine), NO_MEMORY),
        };
    }
    if flags != 0 {
        return (Contents::Still(machine), NOT_KNOWN);
    }
    match begun_of(alloc, machine) {
        Ok(live) => (Contents::Moving(live), DONE),
        Err(machine) => (Contents::Still(machine), NO_MEMORY),
    }
}

/// Begins the migration of a machine. If memory is refused, gives the machine back as it was.
fn begun_of<D: Disk>(alloc: Global, machine: Machine<D>) -> Result<LiveWaiting<D>, Machine<D>>
    ensures begun { IfOk result (λ live. HasBegun machine 0 live) }
    ensures same { IfErr result (λ left. left ≡ machine) }
{
    match LiveWaiting::new(alloc, machine, Waiting::new(alloc)) {
        Ok(live) => first_begun(live),
        Err((_, machine, _waiting)) => Err(machine),
    }
}

/// As above, of one whose host tells the digest.
fn begun_told<D: Disk>(alloc: Global, machine: Machine<D>) -> Result<LiveTold<D>, Machine<D>>
    ensures begun { IfOk result (λ live. HasBegun machine 0 live) }
    ensures same { IfErr result (λ left. left ≡ machine) }
{
    match LiveTold::new(alloc, machine) {
        Ok(live) => first_begun(live),
        Err((_, machine)) => Err(machine),
    }
}

/// The first call of a migration.
#[tactic(auto, using(crate::proofs::Migration::not_begun))]
fn first_begun<D: Disk, W: Digesting + Drop>(
    live: LiveOver<D, W, Ram>,
) -> Result<LiveOver<D, W, Ram>, Machine<D>>
    requires fresh { live.phase ≡ Phase.Fresh }
    requires empty { HasNone live.due × HasNone live.dirty }
    requires digest { Covers live.digest [] }
    requires places { HasPlaces live }
    requires out { live.out ≡ over_writer (Some []) 0 false }
    ensures begun { IfOk result (λ l. HasBegun live.machine 0 l) }
    ensures same { IfErr result (λ left. left ≡ live.machine) }
{
    let mut live = live;
    live.recall();
    match live.begin() {
        Ok(_) => Ok(live),
        Err(_) => Err(live.abort()),
    }
}

/// A call to begin for a machine that is already being migrated.
#[tactic(auto, using(crate::proofs::Migration::begun_again))]
fn begun_again<D: Disk, W: Digesting>(live: LiveOver<D, W, Ram>) -> (LiveOver<D, W, Ram>, u32)
    ensures { IsAnswered live result.1 result.0 }
{
    let mut live = live;
    live.recall();
    match live.begin() {
        Ok(_) => (live, DONE),
        Err(error) => (live, mig_status(error)),
    }
}

/// Sends at most `most` items that are due.
#[tactic(auto, using(crate::proofs::ByState::each_still, crate::proofs::ByState::each_moving, crate::proofs::ByState::each_still_lent, crate::proofs::ByState::each_moving_lent, crate::proofs::SamePages::sent, crate::proofs::SamePages::sent_lent))]
pub fn send_some(kept: &mut Kept, most: u32) -> u32
    ensures sends { SendsKept kept.old.state most result kept.new.state }
    ensures kind { kept.new ≡ record kept.old { state = kept.new.state } }
{
    by_state!(&mut kept.held;
        still(_) => NOT_SENDING,
        moving(live) => some_status(live, most),
        still_lent(_) => NOT_SENDING,
        moving_lent(live) => some_status_lent(live, most),
    )
}

/// Sends the least due item, at most `most` times, while there is one.
#[tactic(auto, using(crate::proofs::Migration::some_refused, crate::proofs::Migration::some_sent))]
fn some_status<D: Disk, W: Digesting>(live: &mut LiveOver<D, W, Ram>, most: u32) -> u32
    ensures { SendsSome live.old most result live.new }
{
    if let Some(status) = send_refusal(live.phase()) {
        return status;
    }
    send_up_to(live, most)
}

#[tactic(auto, using(crate::proofs::Migration::none_left, crate::proofs::Migration::one_sent, crate::proofs::Migration::one_refused, crate::proofs::Migration::all_sent, crate::proofs::Migration::none_at_end))]
fn send_up_to<D: Disk, W: Digesting>(live: &mut LiveOver<D, W, Ram>, most: u32) -> u32
    ensures { SendsUpTo most live.old result live.new }
{
    let mut left = most;
    while left > 0 {
        if live.remaining().due == 0 {
            return ROUND_DONE;
        }
        live.recall();
        if let Err(error) = live.copy() {
            return mig_status(error);
        }
        left -= 1;
    }
    if live.remaining().due == 0 {
        return ROUND_DONE;
    }
    DONE
}

/// Why nothing is sent in this phase, if so.
pub(crate) fn send_refusal(phase: Phase) -> Option<u32>
    ensures { result ≡ send_refusal phase }
{
    match phase {
        Phase::Open(_) => None,
        Phase::Fresh => Some(NOT_SENDING),
        Phase::Stopped => Some(STOPPED),
        Phase::Failed => Some(SEND_FAILED),
    }
}

/// Ends a round.
#[tactic(auto, using(crate::proofs::ByState::each_still, crate::proofs::ByState::each_moving, crate::proofs::ByState::each_still_lent, crate::proofs::ByState::each_moving_lent, crate::proofs::SamePages::ended, crate::proofs::SamePages::ended_lent))]
pub fn send_round(kept: &mut Kept) -> u32
    ensures ends { EndsKept kept.old.state result kept.new.state }
    ensures kind { kept.new ≡ record kept.old { state = kept.new.state } }
{
    by_state!(&mut kept.held;
        still(_) => NOT_SENDING,
        moving(live) => round_status(live),
        still_lent(_) => NOT_SENDING,
        moving_lent(live) => round_status_lent(live),
    )
}

fn round_status<D: Disk, W: Digesting>(live: &mut LiveOver<D, W, Ram>) -> u32
    ensures { HasEnded live.old result live.new }
{
    live.recall();
    ended_status(live.end_round())
}

/// What the end of a round came to, whether RAM is here or lent.
pub(crate) fn ended_status(ended: Result<End, MigError>) -> u32
    ensures { result ≡ live_status (ended_reply ended) }
{
    match ended {
        Ok(End::Begun(_)) => DONE,
        Ok(End::RoundOpen) => ROUND_OPEN,
        Err(error) => mig_status(error),
    }
}

/// Sends what is left, and closes the stream, unless a call of a disk outside is out: a write of this host's storage would come after one of the
/// target's.
#[tactic(auto, using(crate::proofs::ByState::by_still, crate::proofs::ByState::by_moving, crate::proofs::SamePages::stopped))]
pub fn stop(kept: &mut Kept, pages: &mut u64, sectors: &mut u64) -> u32
    ensures stops { StopsKept (is_any_out kept.old.calls) kept.old.state result pages.new pages.old sectors.new sectors.old kept.new.state }
    ensures kind { kept.new ≡ record kept.old { state = kept.new.state } }
{
    let out = kept.calls.is_any_out();
    by_state!(&mut kept.held;
        still(_) => NOT_SENDING,
        moving(live) => stop_unless(out, live, pages, sectors),
    )
}

fn stop_unless<D: Disk, W: Digesting>(
    out: bool,
    live: &mut LiveOver<D, W, Ram>,
    pages: &mut u64,
    sectors: &mut u64,
) -> u32
    ensures { StopsUnless out live.old result pages.new pages.old sectors.new sectors.old live.new }
{
    if out {
        return CALLS_OUT;
    }
    stop_status(live, pages, sectors)
}

#[tactic(auto, using(crate::proofs::Migration::stopped))]
fn stop_status<D: Disk, W: Digesting>(
    live: &mut LiveOver<D, W, Ram>,
    pages: &mut u64,
    sectors: &mut u64,
) -> u32
    ensures { HasStopped live.old result pages.new pages.old sectors.new sectors.old live.new }
{
    live.recall();
    match live.stop() {
        Ok(
            Stopped {
                pages: sent,
                sectors: also,
            },
        ) => {
            *pages = sent;
            *sectors = also;
            DONE
        }
        Err(error) => mig_status(error),
    }
}

/// Ends the migration of a machine.
#[tactic(auto, using(crate::proofs::SamePages::aborted))]
pub fn abort(kept: &mut Kept) -> u32
    ensures aborts { AbortsKept kept.old.state result kept.new.state }
    ensures kind { kept.new ≡ record kept.old { state = kept.new.state; told = told_aborted kept.old.told kept.old.state kept.new.state } }
{
    let (next, status) = aborted(taken_out(&mut kept.held));
    drop(mem::replace(&mut kept.held, next));
    status
}

fn aborted(old: Held) -> (Held, u32)
    ensures aborts { AbortsKept (held_state old) result.1 (held_state result.0) }
    ensures kind { are_mapped result.0 ≡ are_mapped old }
    ensures told { are_told result.0 ≡ told_aborted (are_told old) (held_state old) (held_state result.0) }
    ensures telling { telling_of result.0 ≡ telling_of old }
{
    turned!(old; contents => aborted_in(contents))
}

fn aborted_in<D: Disk>(old: Contents<D>) -> (Contents<D>, u32)
    ensures aborts { AbortsKept (state_in old) result.1 (state_in result.0) }
    ensures told { told_in result.0 ≡ told_aborted (told_in old) (state_in old) (state_in result.0) }
{
    match old {
        Contents::Still(machine) => (Contents::Still(machine), NOT_SENDING),
        Contents::Moving(live) => (Contents::Still(live.abort()), DONE),
        Contents::Told(live) => (Contents::Still(live.abort()), DONE),
        Contents::Lent(loan) => (Contents::Lent(loan), LENT),
    }
}

/// What is still to be sent.
pub fn left(kept: &Kept, left: &mut SendLeft) -> u32
    ensures { LeavesKept kept.now.state result left.new left.old }
{
    by_state!(&kept.held;
        still(_) => NOT_SENDING,
        moving(live) => tell_left(live, left),
        still_lent(_) => NOT_SENDING,
        moving_lent(live) => tell_left_lent(live, left),
    )
}

fn tell_left<D: Disk, W: Digesting>(live: &LiveOver<D, W, Ram>, left: &mut SendLeft) -> u32
    ensures { IsLeft live.now result left.new }
{
    let items = live.left();
    left_status(items, most_by_stop(live), left)
}

/// As above, while its RAM is lent.
fn tell_left_lent<D: Disk, W: Digesting>(live: &LiveParked<D, W>, left: &mut SendLeft) -> u32
    ensures { IsLeftLent live.now result left.new }
{
    let items = live.left();
    left_status(items, most_by_stop(live), left)
}

/// The most bytes that a stop would still write: none where it was made. The same whether its RAM is here or lent.
fn most_by_stop<D: Disk, W: Digesting, M: GuestRam>(live: &LiveOver<D, W, M>) -> u64
    ensures { IsMostByStop (is_closed live.now.phase) (IsStopBytesOver M.known live.now) result }
{
    if has_stopped(live.phase()) {
        return 0;
    }
    live.most_by_stop()
}

/// The struct of these counts, and of the most bytes that a stop would write.
fn left_status(items: Left, stop_bytes: u64, left: &mut SendLeft) -> u32
    ensures { AreTold items stop_bytes result left.new }
{
    *left = SendLeft {
        due_pages: items.due_pages,
        due_sectors: items.due_sectors,
        dirty_pages: items.dirty_pages,
        dirty_sectors: items.dirty_sectors,
        stop_bytes,
        reserved: [0; 3],
    };
    DONE
}

/// Takes the first of the bytes that wait into the front of the buffer.
#[tactic(auto, using(crate::proofs::Migration::still_takes, crate::proofs::Migration::moving_takes, crate::proofs::Migration::lent_takes, crate::proofs::SamePages::taken, crate::proofs::SamePages::taken_lent))]
pub fn take(kept: &mut Kept, buf: &mut [u8], got: &mut usize) -> u32
    ensures takes { TakesKept kept.old.told kept.old.state result got.new got.old buf.old buf.new kept.new.state }
    ensures kind { kept.new ≡ record kept.old { state = kept.new.state } }
{
    by_state!(&mut kept.held;
        still(_) => NOT_SENDING,
        moving(live) => take_status(live, buf, got),
        told(live) => take_told(live, buf, got),
        lent(loan) => loan.take(buf, got),
        arriving(_) => NO_MACHINE,
    )
}

fn take_status<D: Disk>(live: &mut LiveWaiting<D>, buf: &mut [u8], got: &mut usize) -> u32
    ensures { HasTaken false live.old result got.new buf.old buf.new live.new }
{
    *got = live.take(buf);
    DONE
}

/// As above, where the host tells the digest.
fn take_told<D: Disk>(live: &mut LiveTold<D>, buf: &mut [u8], got: &mut usize) -> u32
    ensures { HasTaken true live.old result got.new buf.old buf.new live.new }
{
    let taken = live.take(buf);
    *got = taken;
    DONE
}

/// The host tells the digest of all that it took, if the record that closes the stream waits for it. Nobody compares it here.
#[tactic(auto, using(crate::proofs::ByState::by_still, crate::proofs::Telling::tells, crate::proofs::Telling::tells_not, crate::proofs::SamePages::told))]
pub fn tell(kept: &mut Kept, digest: &[u8; 32]) -> u32
    ensures tells { TellsKept kept.old.told digest.now kept.old.state result kept.new.state }
    ensures kind { kept.new ≡ record kept.old { state = kept.new.state } }
{
    by_state!(&mut kept.held;
        still(_) => NOT_SENDING,
        moving(_) => NOT_ASKED,
        told(live) => tell_status(live, digest),
        lent(_) => LENT,
        arriving(_) => NO_MACHINE,
    )
}

#[tactic(auto, using(crate::proofs::Telling::asked, crate::proofs::Telling::not_asked))]
fn tell_status<D: Disk>(live: &mut LiveTold<D>, digest: &[u8; 32]) -> u32
    ensures { TellsIf (is_owed live.old.digest) digest.now live.old result live.new }
{
    if !live.owes() {
        return NOT_ASKED;
    }
    live.tell_on_trust(digest);
    DONE
}
