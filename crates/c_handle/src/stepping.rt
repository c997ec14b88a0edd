//! Steps of devices, and what they send.
//!
//! A step that may send more than the caller's buffer holds is not done: a message of the guest would be lost otherwise. The
//! bound is of the device's kind, and not of the message at hand, which is not looked at twice.

ghost use Rattle.std.specs.Prelude.{◌≡◌, ◌≤◌, ◌++◌, IfOk, length, drop, nat_lt};
ghost use Rattle.machine.specs.Stepped.{reply_in};
ghost use Rattle.sender.specs.Calls.{guest_reply};
ghost use Rattle.c_handle.specs.Durable.{owed_lost};
ghost use Rattle.c_handle.specs.Kept.{FitsLog};
ghost use Rattle.c_handle.specs.SendStatus.{live_status};
ghost use Rattle.c_machine.specs.Status.{status_of};
ghost use Rattle.c_handle.specs.Stepped.{LiveSteps, Steps, StepsKept, StepsOwing, most_by, most_sent_by, sent_in};
ghost use Rattle.c_handle.specs.Told.{live_number};
ghost use Rattle.c_machine.specs.Status.{number_of};

use crate::kept::{Kept, by_state};
use crate::logging::{Output, live_stepped, stepped};
use crate::mirror::has_stopped;
use crate::status::mig_status;
use crate::syncing::{fail_kept, owed_lost};
use blk::SyncOwed;
use c_machine::SENT_MAX;
use c_machine::status::{IDLE, STOPPED, TOO_SMALL, status_of, step_status};
use guestmem::Ram;
use machine::{Disk, Kind, Machine, Reply, Stepped};
use sender::{LiveOver, MigError};
use wire::Digesting;

/// A device of a handle's machine does one piece of its work, if the buffer holds all that it may send. Where its disk is lost, a flush
/// fails, and the step that would end a write that the driver then takes for durable is idle.
#[tactic(auto, using(crate::proofs::Owing::owes_nothing, crate::proofs::Owing::owes_flush, crate::proofs::Owing::owes_end))]
pub fn step_kept(kept: &mut Kept, dev: u8, pick: u8, buf: &mut [u8], number: &mut u32) -> u32
    ensures steps { StepsOwing (owed_lost kept.old dev pick) kept.old.state kept.old.written dev pick result number.new number.old buf.old buf.new kept.new.state kept.new.written }
    ensures kind { kept.new ≡ record kept.old { state = kept.new.state; written = kept.new.written } }
{
    match owed_lost(kept, dev, pick) {
        SyncOwed::Nothing => step_in(kept, dev, pick, buf, number),
        SyncOwed::Flush => fail_kept(kept, dev, pick),
        SyncOwed::EndOfWrite => IDLE,
    }
}

/// A device does one piece of its work, whether its disk is lost or not.
#[tactic(auto, using(crate::proofs::ByState::by_still, crate::proofs::ByState::by_moving))]
fn step_in(kept: &mut Kept, dev: u8, pick: u8, buf: &mut [u8], number: &mut u32) -> u32
    ensures steps { StepsKept kept.old.state kept.old.written dev pick result number.new number.old buf.old buf.new kept.new.state kept.new.written }
    ensures kind { kept.new ≡ record kept.old { state = kept.new.state; written = kept.new.written } }
{
    let Kept { held, output, .. } = kept;
    by_state!(held;
        still(machine) => machine_step_status(machine, dev, pick, output, buf, number),
        moving(live) => live_step_status(live, dev, pick, output, buf, number),
    )
}

/// As above, for a machine that is being migrated.
#[tactic(auto, using(crate::proofs::PageLogs::may_all, crate::proofs::ByKept::live_stepped, crate::proofs::ByKept::live_not_stepped))]
fn live_step_status<D: Disk, W: Digesting>(
    live: &mut LiveOver<D, W, Ram>,
    dev: u8,
    pick: u8,
    output: &mut Output,
    buf: &mut [u8],
    number: &mut u32,
) -> u32
    requires { FitsLog output.old.written (length live.old.machine.memory.bytes) }
    ensures fits { FitsLog output.new.written (length live.new.machine.memory.bytes) }
    ensures steps { LiveSteps live.old output.old.written dev pick result number.new number.old buf.old buf.new live.new output.new.written }
{
    if has_stopped(live.phase()) {
        return STOPPED;
    }
    if is_too_small(buf, live.machine(), dev, pick) {
        return TOO_SMALL;
    }
    live.recall();
    match live_stepped(live, dev, pick, output) {
        Ok(stepped) => tell_step(stepped, output.sent.as_slice(), buf, number),
        Err(error) => mig_status(error),
    }
}

/// A device does one piece of its work, if the buffer holds all that it may send.
#[tactic(auto, using(crate::proofs::PageLogs::may_all, crate::proofs::Sending::not_stepped))]
fn machine_step_status<D: Disk>(
    machine: &mut Machine<D>,
    dev: u8,
    pick: u8,
    output: &mut Output,
    buf: &mut [u8],
    number: &mut u32,
) -> u32
    requires { FitsLog output.old.written (length machine.old.memory.bytes) }
    ensures fits { FitsLog output.new.written (length machine.new.memory.bytes) }
    ensures steps { Steps machine.old output.old.written dev pick result number.new number.old buf.old buf.new machine.new output.new.written }
{
    if is_too_small(buf, machine, dev, pick) {
        return TOO_SMALL;
    }
    let _shapes = machine.shapes();
    let stepped = stepped(machine, dev, pick, output);
    tell_step(stepped, output.sent.as_slice(), buf, number)
}

/// What C gets for a step that left these bytes in the buffer of messages.
fn tell_step(stepped: Stepped, sent: &[u8], buf: &mut [u8], number: &mut u32) -> u32
    requires room { length (sent_in (reply_in stepped sent.now)) ≤ length buf.old }
    requires few { length (sent_in (reply_in stepped sent.now)) ≤ 65536 }
    ensures status { result ≡ status_of (reply_in stepped sent.now) }
    ensures number { number.new ≡ number_of (reply_in stepped sent.now) number.old }
    ensures sent { buf.new ≡ sent_in (reply_in stepped sent.now) ++ drop (length (sent_in (reply_in stepped sent.now))) buf.old }
{
    hand_out(stepped, sent, buf);
    *number = step_number(stepped, sent, *number);
    step_status(stepped)
}

/// Whether a step may send more than the buffer holds. Most hosts hand in a buffer that holds what any device may send, and then
/// nothing of the machine is looked at.
#[tactic(auto, using(crate::proofs::Sending::never_small))]
fn is_too_small<D: Disk>(buf: &[u8], machine: &Machine<D>, dev: u8, pick: u8) -> bool
    ensures { result ≡ nat_lt (length buf.now) (most_sent_by machine.now dev pick) }
{
    let _shapes = machine.shapes();
    buf.len() < SENT_MAX && buf.len() < room_for(machine, dev, pick)
}

/// The most bytes that a step may send.
fn room_for<D: Disk>(machine: &Machine<D>, dev: u8, pick: u8) -> usize
    ensures { result ≡ most_sent_by machine.now dev pick }
{
    if dev as usize >= machine.shapes().len() {
        return 0;
    }
    most_sent(machine.state(dev).kind(), pick)
}

fn most_sent(kind: &Kind, pick: u8) -> usize
    ensures { result ≡ most_by kind.now pick }
{
    match kind {
        Kind::Network { inbox, .. } if pick == 1 => inbox.longest() as usize,
        Kind::Console { .. } if pick == 1 => SENT_MAX,
        _ => 0,
    }
}

/// Copies the message of a step to the front of the buffer, if it sent one.
fn hand_out(stepped: Stepped, sent: &[u8], buf: &mut [u8])
    requires { length (sent_in (reply_in stepped sent.now)) ≤ length buf.old }
    ensures { buf.new ≡ sent_in (reply_in stepped sent.now) ++ drop (length (sent_in (reply_in stepped sent.now))) buf.old }
{
    if let Stepped::Sent = stepped {
        buf[..sent.len()].copy_from_slice(sent);
    }
}

/// The number of an answer to a step that has one, else `before`.
fn step_number(stepped: Stepped, sent: &[u8], before: u32) -> u32
    requires { length (sent_in (reply_in stepped sent.now)) ≤ 65536 }
    ensures { result ≡ number_of (reply_in stepped sent.now) before }
{
    match stepped {
        Stepped::Completed(len) => len,
        Stepped::Sent => sent.len() as u32,
        _ => before,
    }
}

/// The status of an answer of a machine that is being migrated, and its number if it has one.
pub(crate) fn reply_status(answer: Result<Reply, MigError>, number: &mut u32) -> u32
    requires { IfOk answer (λ reply. length (sent_in reply) ≤ 65536) }
    ensures status { result ≡ live_status (guest_reply answer) }
    ensures number { number.new ≡ live_number (guest_reply answer) number.old }
{
    match answer {
        Ok(reply) => {
            *number = number_of(&reply, *number);
            status_of(&reply)
        }
        Err(error) => mig_status(error),
    }
}

/// The number of a reply that has one, else `before`.
fn number_of(reply: &Reply, before: u32) -> u32
    requires { length (sent_in reply.now) ≤ 65536 }
    ensures { result ≡ number_of reply.now before }
{
    match reply {
        Reply::Value(value) => *value,
        Reply::OutByte(byte) => *byte as u32,
        Reply::Completed(len) => *len,
        Reply::Sent(bytes) => bytes.as_slice().len() as u32,
        Reply::Accepted(count) => *count,
        _ => before,
    }
}
