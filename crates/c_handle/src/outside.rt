//! Calls of disks outside, handed out to C and answered by it.
//!
//! The library calls nobody, so C asks, does what it gets in its own time, and answers by a number. What is out lies beside the machine
//! (`calls_out`). An answer is the machine's event, at the pick of the request that asked; the bytes of a read are taken from the caller's slice.
//! While RAM is lent each answer is taken that puts no bytes into it.
//!
//! Of a disk that is lost (`syncing`) no answer says that something is durable: that of a flush, or of a durable write or clearing, counts as a
//! failure, also of a call that was out when the disk was lost. Calls are asked for as ever, so no request ends but by an answer.

ghost use Rattle.std.specs.Prelude.{◌≡◌, ◌≤◌, ◌<◌, ◌*◌, ◌/◌, ◌^◌, ◌-◌, ℕ, None, IfErr, IfOk, false, length, min, slice_get, true};
ghost use Rattle.disk_calls.specs.Calls.{without};
ghost use Rattle.machine.specs.Seen.{state_of};
ghost use Rattle.machine.specs.declared.event.DiskAnswer.TheVariants as answers;
ghost use Rattle.machine.specs.declared.machine.TheConstants.{DEVICES_MAX};
ghost use Rattle.c_handle.specs.DiskCalls.{HandsFrom, HandsUnless, IsAllowed, IsAskedFor, IsOut, MeetsParked, MeetsStill, answer_in, answers_call, asker_lent, asker_of, counted, counts_in, done_as, done_with, filled_with, fits_done, is_durable, is_part, puts_bytes, told_call, what_of};
ghost use Rattle.c_handle.specs.Kept.{FitsLog, is_lost, loan_of, loan_told};
ghost use Rattle.c_handle.specs.Outside.{AnswersKept, HandsKept, Meets, MeetsLent, MeetsLiveParked, MeetsMoving, Unfound, counted_answer, devices_of, is_lent, unfit};
ghost use Rattle.c_handle.specs.Resetting.{loan_refusal, state_refusal};

use crate::calls_out::CallsOut;
use crate::devices::Devices;
use crate::kept::{Kept, by_state};
use crate::loan::Loan;
use crate::logging::{gave, live_gave};
use crate::resetting::{state_refusal, stop_refusal};
use blk::{DiskCall, SECTOR_SIZE, What};
use c_machine::status::{CALL, DONE, IDLE, LENT, NOT_OUT, TOO_LONG, TOO_SMALL};
use disk_calls::{Handed, Place, counts};
use guestmem::Ram;
use machine::{Disk, Machine, OutsideCall, PageLog, Parked};
use sender::{LiveOver, LiveParked};
use wire::Digesting;

/// A call of a disk outside: what its host is to do. It names no memory.
#[derive(Clone, Copy)]
#[repr(C)]
pub struct Call {
    /// It names the call until it is answered. No other call of this handle's machine has it.
    pub number: u64,

    /// The first sector; 0 of a flush.
    pub first: u64,

    /// How many sectors, of 512 bytes each; 0 of a flush.
    pub count: u32,

    /// The device.
    pub dev: u8,

    /// 1 to read, 2 to write, 3 to clear, 4 to flush.
    pub what: u8,

    /// Of a write, or a clearing, whether it has to be durable before it is answered, 1 or 0.
    pub durable: u8,

    /// Zero, reserved for later versions.
    pub zero: u8,

    /// Zeros, reserved for later versions.
    pub reserved: [u64; 2],
}

/// Hands out the next call. Of a write its bytes go to the front of the buffer. It takes no memory.
#[tactic(auto, using(crate::proofs::HandedCalls::hands_still, crate::proofs::HandedCalls::hands_moving))]
pub fn hand_call(kept: &mut Kept, call: &mut Call, buf: &mut [u8]) -> u32
    ensures hands { HandsKept kept.old.state kept.old.calls result call.new call.old buf.old buf.new kept.new.calls }
    ensures kind { kept.new ≡ record kept.old { calls = kept.new.calls } }
{
    by_state!(&kept.held;
        still(machine) => hand_unless(None, machine, &mut kept.calls, call, buf),
        moving(live) => {
            let stopped = stop_refusal(live.phase());
            hand_unless(stopped, live.machine(), &mut kept.calls, call, buf)
        },
    )
}

/// As above, of a machine, unless it was stopped.
fn hand_unless<D: Disk>(
    stopped: Option<u32>,
    machine: &Machine<D>,
    calls: &mut CallsOut,
    call: &mut Call,
    buf: &mut [u8],
) -> u32
    ensures { HandsUnless stopped (state_of machine.now) calls.old result call.new call.old buf.old buf.new calls.new }
{
    if let Some(status) = stopped {
        return status;
    }
    if buf.len() < SECTOR_SIZE {
        return TOO_SMALL;
    }
    hand_from(machine, calls, call, buf)
}

fn hand_from<D: Disk>(
    machine: &Machine<D>,
    calls: &mut CallsOut,
    call: &mut Call,
    buf: &mut [u8],
) -> u32
    requires { 512 ≤ length buf.old }
    ensures { HandsFrom (state_of machine.now) calls.old result call.new call.old buf.old buf.new calls.new }
{
    let Some(handed) = calls.next(machine, most_for(buf.len())) else {
        return IDLE;
    };
    *call = tell_call(machine, handed, buf);
    CALL
}

/// How many sectors a buffer of this size has room for.
fn most_for(len: usize) -> u32
    ensures { result ≡ min (len / 512) (2 ^ 32 - 1) }
{
    (len / SECTOR_SIZE).min(u32::MAX as usize) as u32
}

/// The call as C gets it. Its bytes, if it writes some, are put into the buffer.
fn tell_call<D: Disk>(machine: &Machine<D>, handed: Handed, buf: &mut [u8]) -> Call
    requires there { handed.dev < DEVICES_MAX }
    requires asked { IsAskedFor (state_of machine.now) handed }
    requires room { 512 * handed.call.count ≤ length buf.old }
    ensures call { result ≡ told_call (state_of machine.now) handed }
    ensures buf { buf.new ≡ filled_with (state_of machine.now) handed buf.old }
    ensures allowed { IsAllowed (state_of machine.now) handed }
{
    let Handed {
        number,
        dev,
        k,
        call,
    } = handed;
    let _shapes = machine.shapes();
    let (dev, pick) = (dev as u8, k as u8 + 1);
    let bytes = SECTOR_SIZE * call.count as usize;
    let _written = machine.written_bytes(dev, pick, &mut buf[..bytes]);
    let asked = machine.disk_call(dev, pick);
    Call {
        number,
        first: call.first,
        count: counted(call),
        dev,
        what: what_of(call.what),
        durable: is_durable(asked),
        zero: 0,
        reserved: [0; 2],
    }
}

/// How many sectors C is told that a call has: none of a flush.
pub(crate) fn counted(call: DiskCall) -> u32
    ensures { result ≡ counted call.what call.count }
{
    match call.what {
        What::Read | What::Write | What::Clear => call.count,
        What::Flush => 0,
    }
}

/// The number of what a call asks for.
pub(crate) fn what_of(what: What) -> u8
    ensures { result ≡ what_of what }
{
    match what {
        What::Read => 1,
        What::Write => 2,
        What::Clear => 3,
        What::Flush => 4,
    }
}

/// Whether what a request asks for has to be durable before it is answered.
fn is_durable(asked: Option<OutsideCall>) -> u8
    ensures { result ≡ is_durable asked }
{
    match asked {
        Some(asked) => asked.durable as u8,
        None => 0,
    }
}

/// The answer of a host's disk.
#[derive(Clone, Copy)]
pub(crate) enum Given<'a> {
    /// These bytes.
    Bytes(&'a [u8]),

    /// That it did this many sectors, or one flush.
    Units(u32),

    /// That it failed.
    Nothing,
}

/// The host's disk did this many sectors of a call, and gave these bytes of them. It takes no memory.
#[tactic(auto, using(crate::proofs::HandedCalls::answered_as, crate::proofs::HandedCalls::misfit, crate::proofs::HandedCalls::unfound, crate::proofs::HandedCalls::fits_as_counted))]
pub fn answer_done(kept: &mut Kept, number: u64, count: u32, bytes: &[u8]) -> u32
    ensures answers { AnswersKept kept.old number (fits_done count bytes.now) (done_with count bytes.now) result kept.new.state kept.new.written kept.new.calls }
    ensures kind { kept.new ≡ record kept.old { state = kept.new.state; written = kept.new.written; calls = kept.new.calls } }
{
    let place = match place_of(kept, number) {
        Ok(place) => place,
        Err(status) => return status,
    };
    let DiskCall {
        what,
        count: all,
        ..
    } = place.call;
    let given = done_as(what, count, bytes);
    let fits = answers_call(what, all, count, bytes.len());
    if let Some(status) = unfit(kept, given, fits) {
        return status;
    }
    let counted = as_counted(kept, place, given);
    hand_in(kept, place, counted);
    DONE
}

/// The host's disk failed at a call. It takes no memory.
#[tactic(auto, using(crate::proofs::HandedCalls::failed_as, crate::proofs::HandedCalls::unfound, crate::proofs::HandedCalls::failure_fits))]
pub fn answer_failed(kept: &mut Kept, number: u64) -> u32
    ensures answers { AnswersKept kept.old number (λ call. true) (λ call. answers.Failed) result kept.new.state kept.new.written kept.new.calls }
    ensures kind { kept.new ≡ record kept.old { state = kept.new.state; written = kept.new.written; calls = kept.new.calls } }
{
    let place = match place_of(kept, number) {
        Ok(place) => place,
        Err(status) => return status,
    };
    hand_in(kept, place, Given::Nothing);
    DONE
}

/// Where the call with this number is, or the status that says why it is not answered.
#[tactic(auto, using(crate::proofs::HandedCalls::refused_by))]
fn place_of(kept: &Kept, number: u64) -> Result<Place, u32>
    ensures found { IfOk result (λ place. (state_refusal kept.now.state ≡ None) × IsOut kept.now.calls number place × (place.dev < DEVICES_MAX)) }
    ensures refused { IfErr result (λ status. Unfound (state_refusal kept.now.state) kept.now.calls number status) }
{
    if let Some(status) = state_refusal(kept) {
        return Err(status);
    }
    match kept.calls.find(number) {
        Some(place) => Ok(place),
        None => Err(NOT_OUT),
    }
}

/// Why this is not taken as the answer of a call, whether or not it fits it, if so.
fn unfit(kept: &Kept, given: Given<'_>, fits: bool) -> Option<u32>
    ensures { result ≡ unfit kept.now.state (answer_in given.entry) fits }
{
    if is_lent(kept) && puts_bytes(given) {
        return Some(LENT);
    }
    if !fits {
        return Some(TOO_LONG);
    }
    None
}

fn is_lent(kept: &Kept) -> bool
    ensures { result ≡ is_lent kept.now.state }
{
    by_state!(&kept.held; still(_) => false, moving(_) => false, lent(_) => true, arriving(_) => false)
}

/// Whether an answer puts bytes into RAM.
fn puts_bytes(given: Given<'_>) -> bool
    ensures { result ≡ puts_bytes (answer_in given.entry) }
{
    match given {
        Given::Bytes(_) => true,
        Given::Units(_) | Given::Nothing => false,
    }
}

/// An answer as it counts: of a disk that is lost one that would say that something is durable is a failure.
fn as_counted<'a>(kept: &Kept, place: Place, given: Given<'a>) -> Given<'a>
    requires { place.dev < DEVICES_MAX }
    ensures { answer_in result ≡ counted_answer kept.now place (answer_in given.entry) }
{
    if counts_kept(kept, place) {
        return given;
    }
    Given::Nothing
}

/// Whether it counts that a call was done.
fn counts_kept(kept: &Kept, place: Place) -> bool
    requires { place.dev < DEVICES_MAX }
    ensures { result ≡ counts_in (is_lost kept.now place.dev) (slice_get (devices_of kept.now.state) place.dev) place.call }
{
    let lost = kept.is_lost(place.dev as u8);
    by_state!(&kept.held;
        still(machine) => counts_of(machine, lost, place),
        moving(live) => counts_of(live.machine(), lost, place),
        still_lent(parked) => counts_of(parked, lost, place),
        moving_lent(live) => counts_of(live.machine(), lost, place),
        arriving(_) => true,
    )
}

fn counts_of<M: Devices>(machine: &M, lost: bool, place: Place) -> bool
    requires { place.dev < DEVICES_MAX }
    ensures { result ≡ counts_in lost (slice_get (M.states machine.now) place.dev) place.call }
{
    match machine.device(place.dev as u8) {
        Some(device) => counts(lost, &device.call_with_durability(place.call)),
        None => true,
    }
}

/// Whether this many sectors and bytes are an answer to a call of `all` sectors.
fn answers_call(what: What, all: u32, count: u32, bytes: usize) -> bool
    ensures { result ≡ answers_call what all count bytes }
{
    match what {
        What::Read => is_part(count, all) && bytes == SECTOR_SIZE * count as usize,
        What::Write | What::Clear => is_part(count, all) && bytes == 0,
        What::Flush => count == 0 && bytes == 0,
    }
}

fn is_part(count: u32, all: u32) -> bool
    ensures { result ≡ is_part count all }
{
    count > 0 && count <= all
}

/// The answer that this much of a call was done. A flush is one unit.
fn done_as(what: What, count: u32, bytes: &[u8]) -> Given<'_>
    ensures { answer_in result ≡ done_as what count bytes.now }
{
    match what {
        What::Read => Given::Bytes(bytes),
        What::Write | What::Clear => Given::Units(count),
        What::Flush => Given::Units(1),
    }
}

/// Hands the answer of a call to the request that asked for it, if it still waits, and takes the call out.
#[tactic(auto, using(crate::proofs::HandedCalls::meets_still, crate::proofs::HandedCalls::meets_moving, crate::proofs::HandedCalls::meets_lent, crate::proofs::HandedCalls::puts_none, crate::proofs::HandedCalls::goes_lent, crate::proofs::SamePages::met_lent))]
fn hand_in(kept: &mut Kept, place: Place, given: Given<'_>)
    requires goes { state_refusal kept.old.state ≡ None }
    requires fits { unfit kept.old.state (answer_in given) true ≡ None }
    requires out { (number : ℕ) × IsOut kept.old.calls number place }
    requires there { place.dev < DEVICES_MAX }
    ensures meets { Meets place (answer_in given.entry) kept.old.state kept.old.written kept.new.state kept.new.written }
    ensures calls { kept.new.calls ≡ without kept.old.calls place.dev place.i }
    ensures kind { kept.new ≡ record kept.old { state = kept.new.state; written = kept.new.written; calls = kept.new.calls } }
{
    let Kept {
        held,
        calls,
        output,
        ..
    } = kept;
    by_state!(held;
        still(machine) => {
            let asker = calls.asker(&*machine, place);
            meet_still(machine, place, asker, given, &mut output.written)
        },
        moving(live) => {
            let asker = calls.asker(live.machine(), place);
            meet_moving(live, place, asker, given, &mut output.written)
        },
        lent(loan) => meet_lent(loan, place, calls, given),
        arriving(_) => unreachable!(),
    );
    calls.remove(place);
}

/// Hands an answer to a request, by its place from 0, if there is one.
fn meet_still<D: Disk>(
    machine: &mut Machine<D>,
    place: Place,
    asker: Option<usize>,
    given: Given<'_>,
    log: &mut Option<PageLog>,
)
    requires fits { FitsLog log.old (length machine.old.memory.bytes) }
    requires there { place.dev < DEVICES_MAX }
    requires asked { asker ≡ asker_of (state_of machine.old) place }
    ensures meets { MeetsStill asker (answer_in given.entry) machine.old log.old place.dev machine.new log.new }
    ensures fits { FitsLog log.new (length machine.new.memory.bytes) }
{
    let Some(k) = asker else {
        return;
    };
    let _shapes = machine.shapes();
    let (dev, pick) = (place.dev as u8, k as u8 + 1);
    match given {
        Given::Bytes(bytes) => {
            let _gave = gave(machine, dev, pick, bytes, log);
        }
        Given::Units(count) => {
            let _did = machine.disk_did(dev, pick, count);
        }
        Given::Nothing => {
            let _failed = machine.disk_failed(dev, pick);
        }
    }
}

/// As above, for a machine that is being migrated.
fn meet_moving<D: Disk, W: Digesting>(
    live: &mut LiveOver<D, W, Ram>,
    place: Place,
    asker: Option<usize>,
    given: Given<'_>,
    log: &mut Option<PageLog>,
)
    requires fits { FitsLog log.old (length live.old.machine.memory.bytes) }
    requires there { place.dev < DEVICES_MAX }
    requires asked { asker ≡ asker_of (state_of live.old.machine) place }
    ensures meets { MeetsMoving asker (answer_in given.entry) live.old log.old place.dev live.new log.new }
    ensures fits { FitsLog log.new (length live.new.machine.memory.bytes) }
{
    let Some(k) = asker else {
        return;
    };
    live.recall();
    let (dev, pick) = (place.dev as u8, k as u8 + 1);
    match given {
        Given::Bytes(bytes) => {
            let _gave = live_gave(live, dev, pick, bytes, log);
        }
        Given::Units(count) => {
            let _did = live.disk_did(dev, pick, count);
        }
        Given::Nothing => {
            let _failed = live.disk_failed(dev, pick);
        }
    }
}

/// Hands an answer that puts no bytes into RAM to a machine whose RAM is lent.
fn meet_lent<D: Disk>(loan: &mut Loan<D>, place: Place, calls: &CallsOut, given: Given<'_>)
    requires none { puts_bytes (answer_in given) ≡ false }
    requires goes { loan_refusal (loan_of loan.old) ≡ None }
    requires there { place.dev < DEVICES_MAX }
    ensures meets { MeetsLent place (answer_in given.entry) (loan_of loan.old) (loan_of loan.new) }
    ensures told { loan_told loan.new ≡ loan_told loan.old }
{
    match loan {
        Loan::Still(parked) => {
            let asker = calls.asker(&*parked, place);
            meet_parked(parked, place, asker, given)
        }
        Loan::Moving(live) => {
            let asker = calls.asker(live.machine(), place);
            meet_live_parked(live, place, asker, given)
        }
        Loan::Told(live) => {
            let asker = calls.asker(live.machine(), place);
            meet_live_parked(live, place, asker, given)
        }
    }
}

fn meet_parked<D: Disk>(
    parked: &mut Parked<D>,
    place: Place,
    asker: Option<usize>,
    given: Given<'_>,
)
    requires none { puts_bytes (answer_in given) ≡ false }
    requires there { place.dev < DEVICES_MAX }
    requires asked { asker ≡ asker_lent parked.old place }
    ensures { MeetsParked asker (answer_in given.entry) parked.old place.dev parked.new }
{
    let Some(k) = asker else {
        return;
    };
    parked.recall();
    let (dev, pick) = (place.dev as u8, k as u8 + 1);
    match given {
        Given::Bytes(_) => unreachable!(),
        Given::Units(count) => {
            let _did = parked.disk_did(dev, pick, count);
        }
        Given::Nothing => {
            let _failed = parked.disk_failed(dev, pick);
        }
    }
}

/// As above, for a machine that is being migrated.
fn meet_live_parked<D: Disk, W: Digesting>(
    lent: &mut LiveParked<D, W>,
    place: Place,
    asker: Option<usize>,
    given: Given<'_>,
)
    requires none { puts_bytes (answer_in given) ≡ false }
    requires there { place.dev < DEVICES_MAX }
    requires asked { asker ≡ asker_lent lent.old.machine place }
    ensures { MeetsLiveParked asker (answer_in given.entry) lent.old place.dev lent.new }
{
    let Some(k) = asker else {
        return;
    };
    lent.machine().recall();
    let (dev, pick) = (place.dev as u8, k as u8 + 1);
    match given {
        Given::Bytes(_) => unreachable!(),
        Given::Units(count) => {
            let _did = lent.disk_did(dev, pick, count);
        }
        Given::Nothing => {
            let _failed = lent.disk_failed(dev, pick);
        }
    }
}
