//! Steps, writes and answers of disks outside with a log of the pages that they write, where the caller asks for one.
//!
//! Without one the calls without a log are made, which cost nothing for it.

ghost use Rattle.std.specs.Prelude.{◌≡◌, IfOk, length};
ghost use Rattle.blk.specs.Outside.{Gave};
ghost use Rattle.guestmem.specs.Maybe.{after_if, may_if};
ghost use Rattle.machine.specs.Applied.{IsAppliedLogged, MayItems};
ghost use Rattle.machine.specs.Direct.{done_reply};
ghost use Rattle.machine.specs.Outside.{disk_reply};
ghost use Rattle.machine.specs.PageLog.{may_note, noted};
ghost use Rattle.machine.specs.Seen.{state_of};
ghost use Rattle.machine.specs.Stepped.{reply_in};
ghost use Rattle.machine.specs.declared.event.DiskAnswer.TheVariants as answers;
ghost use Rattle.machine.specs.declared.event.Event.TheVariants as events;
ghost use Rattle.sender.specs.Calls.{guest_reply, stepped_result};
ghost use Rattle.sender.specs.LiveState.{now};
ghost use Rattle.sender.specs.Logged.{ServesLogged};
ghost use Rattle.c_handle.specs.Kept.{FitsLog, first_log};

use c_machine::asks_log;
use guestmem::{NoMemory, Ram};
use machine::{Disk, Machine, PageLog, Refusal, Reply, Stepped};
use sender::{LiveOver, MigError};
use std::alloc::Global;
use wire::Digesting;

/// What steps give out: the bytes of the last message that was sent, and the pages that were written.
#[derive(Drop)]
pub(crate) struct Output {
    // Kept, so that the next message takes no memory.
    pub(crate) sent: Vec<u8>,
    // Those that were not handed out yet, where the caller asks for them.
    pub(crate) written: Option<PageLog>,
}

impl Output {
    ghost use Rattle.std.specs.Prelude.{◌≡◌, None};

    /// Of steps that were not made yet.
    pub(crate) fn new(alloc: Global, written: Option<PageLog>) -> Output
        ensures { result.written ≡ written }
    {
        Output {
            sent: Vec::new(alloc),
            written,
        }
    }
}

/// The log that these flags ask for, with a place for each of `pages` pages.
#[tactic(auto, using(crate::proofs::PageLogs::asked, crate::proofs::PageLogs::unasked))]
pub(crate) fn log_for(alloc: Global, flags: u32, places: u32) -> Result<Option<PageLog>, NoMemory>
    ensures { IfOk result (λ log. log ≡ first_log flags places) }
{
    if !asks_log(flags) {
        return Ok(None);
    }
    let log = PageLog::new(alloc, places)?;
    Ok(Some(log))
}

/// A step of a device, told to the log.
pub(crate) fn stepped<D: Disk>(
    machine: &mut Machine<D>,
    dev: u8,
    pick: u8,
    output: &mut Output,
) -> Stepped
    requires fits { FitsLog output.old.written (length machine.old.memory.bytes) }
    requires may { MayItems (may_if may_note) output.old.written (state_of machine.old) }
    ensures fits { FitsLog output.new.written (length machine.new.memory.bytes) }
    ensures logged { IsAppliedLogged (after_if noted) machine.old output.old.written (events.Step dev pick) (reply_in result output.new.sent.items) machine.new output.new.written }
{
    let Output { sent, written } = output;
    if let None = written {
        return machine.step_into(dev, pick, sent);
    }
    machine.step_into_logged(dev, pick, sent, written)
}

/// As above, for a machine that is being migrated.
pub(crate) fn live_stepped<D: Disk, W: Digesting>(
    live: &mut LiveOver<D, W, Ram>,
    dev: u8,
    pick: u8,
    output: &mut Output,
) -> Result<Stepped, MigError>
    requires fits { FitsLog output.old.written (length live.old.machine.memory.bytes) }
    requires may { MayItems (may_if may_note) output.old.written (now live.old) }
    ensures fits { FitsLog output.new.written (length live.new.machine.memory.bytes) }
    ensures logged { ServesLogged (after_if noted) live.old output.old.written (events.Step dev pick) (guest_reply (stepped_result result output.new.sent.items)) live.new output.new.written }
{
    let Output { sent, written } = output;
    if let None = written {
        return live.step_into(dev, pick, sent);
    }
    live.step_into_logged(dev, pick, sent, written)
}

/// A write of RAM, told to the log.
pub(crate) fn written<D: Disk>(
    machine: &mut Machine<D>,
    addr: u64,
    bytes: &[u8],
    log: &mut Option<PageLog>,
) -> Result<(), Refusal>
    requires fits { FitsLog log.old (length machine.old.memory.bytes) }
    requires may { MayItems (may_if may_note) log.old (state_of machine.old) }
    ensures fits { FitsLog log.new (length machine.new.memory.bytes) }
    ensures logged { IsAppliedLogged (after_if noted) machine.old log.old (events.MemWrite addr bytes.now) (done_reply result) machine.new log.new }
{
    if let None = log {
        return machine.write_ram(addr, bytes);
    }
    machine.write_ram_logged(addr, bytes, log)
}

/// Bytes of a disk outside, of which the pages that they are written into are told to the log.
pub(crate) fn gave<D: Disk>(
    machine: &mut Machine<D>,
    dev: u8,
    pick: u8,
    bytes: &[u8],
    log: &mut Option<PageLog>,
) -> Result<bool, Refusal>
    requires fits { FitsLog log.old (length machine.old.memory.bytes) }
    requires may { MayItems (may_if may_note) log.old (state_of machine.old) }
    ensures fits { FitsLog log.new (length machine.new.memory.bytes) }
    ensures logged { IsAppliedLogged (after_if noted) machine.old log.old (events.Disk dev pick (answers.Gave bytes.now)) (disk_reply (Gave bytes.now) result) machine.new log.new }
{
    if let None = log {
        return machine.disk_gave(dev, pick, bytes);
    }
    machine.disk_gave_logged(dev, pick, bytes, log)
}

/// As above, for a machine that is being migrated.
pub(crate) fn live_gave<D: Disk, W: Digesting>(
    live: &mut LiveOver<D, W, Ram>,
    dev: u8,
    pick: u8,
    bytes: &[u8],
    log: &mut Option<PageLog>,
) -> Result<Reply, MigError>
    requires fits { FitsLog log.old (length live.old.machine.memory.bytes) }
    requires may { MayItems (may_if may_note) log.old (now live.old) }
    ensures fits { FitsLog log.new (length live.new.machine.memory.bytes) }
    ensures logged { ServesLogged (after_if noted) live.old log.old (events.Disk dev pick (answers.Gave bytes.now)) (guest_reply result) live.new log.new }
{
    if let None = log {
        return live.disk_gave(dev, pick, bytes);
    }
    live.disk_gave_logged(dev, pick, bytes, log)
}

/// As `written`, for a machine that is being migrated.
pub(crate) fn live_written<D: Disk, W: Digesting>(
    live: &mut LiveOver<D, W, Ram>,
    addr: u64,
    bytes: &[u8],
    log: &mut Option<PageLog>,
) -> Result<Reply, MigError>
    requires fits { FitsLog log.old (length live.old.machine.memory.bytes) }
    requires may { MayItems (may_if may_note) log.old (now live.old) }
    ensures fits { FitsLog log.new (length live.new.machine.memory.bytes) }
    ensures logged { ServesLogged (after_if noted) live.old log.old (events.MemWrite addr bytes.now) (guest_reply result) live.new log.new }
{
    if let None = log {
        return live.write_ram(addr, bytes);
    }
    live.write_ram_logged(addr, bytes, log)
}
