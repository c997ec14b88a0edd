//! A machine that is migrated while it runs.
//!
//! `into_parts` and `serve` stand beside the calls of a migration: a host wants its writer back, and may have its events as a list. What needs no
//! byte of RAM is in `calls`.
//!
//! A stop goes over its two sets side by side, and searches each on only from the member that it has just sent: a search of
//! both from each item on would go over the rest of a set that has one late member for each item of the other.

mod calls;
mod told;

ghost use Rattle.std.specs.Prelude.{◌≡◌, ◌≢◌, ◌<◌, ◌^◌, ◌-◌, ◌+◌, IfOk, IfErr, None, Some, [], length, min};
ghost use Rattle.guestmem.specs.Lent.{AreBelow};
ghost use Rattle.dirtylog.specs.Members.{HasNone, IsLeastFrom};
ghost use Rattle.machine.specs.declared.event.Event.TheVariants as events;
ghost use Rattle.machine.specs.Stepped.{reply_in};
ghost use Rattle.machine.specs.Layout.{item_at, layout_of, size_of};
ghost use Rattle.wire.specs.Sinks.{Covers};
ghost use Rattle.sender.specs.LiveState.{HasPlaces, now};
ghost use Rattle.sender.specs.Calls.{Serves, begun_reply, copied_reply, guest_reply, stepped_result, stopped_reply};
ghost use Rattle.sender.specs.Marks.{live_marked};
ghost use Rattle.sender.specs.Parked.{IsLiveParked};
ghost use Rattle.sender.specs.Reads.{HasLiveCalled, ReadsItem, SendCalls};
ghost use Rattle.sender.specs.Uncalled.{CallsNone};
ghost use Rattle.sender.specs.Stopping.{ClosesStream, HasNoneUpTo, IsLive, SendsAll, SendsItem, lesser, one_more, phase_after};

use crate::dirty::{Dirty, Logs};
use crate::event::{CopyAnswer, End, Item, LiveEvent, LiveReply, Stopped};
use crate::mig_error::MigError;
use crate::numbering::{number_items, page_count};
use crate::phase::Phase;
use crate::saving::{send_item, write_devices, write_seal};
use dirtylog::BitSet;
use guestmem::{Both, ParkedRam, Ram};
use machine::{Disk, Event, GuestRam, Machine, MachineOver, Reply, Stepped};
use region::Region;
use std::alloc::{AllocError, Global};
use std::marker::Model;
use wire::{Digesting, Eager, Sink, Told, Waiting, encode_header};

/// A machine, its RAM here or lent, the stream that is written of it, and what is still to be sent. The writer digests what it takes, when it will,
/// or is told the digest.
#[derive(Drop)]
pub struct LiveOver<D: Disk, W: Digesting, M: GuestRam> {
    pub(crate) machine: MachineOver<D, M>,
    pub(crate) writer: W,
    pub(crate) phase: Phase,
    pub(crate) due: BitSet,
    // No item below this number is due. The search for the next one starts here.
    pub(crate) at: u64,
    // The dirty items, and the log of a caller's while a call tells it too.
    pub(crate) logs: Logs,
}

/// One whose writer is any sink. What is written is digested at once.
pub type Live<D, W> = LiveOver<D, Eager<W>, Ram>;

/// One whose bytes wait in memory until they are taken, and are digested no sooner than they must.
pub type LiveWaiting<D> = LiveOver<D, Waiting, Ram>;

/// One whose bytes wait in memory until they are taken, and whose digest is told by whoever takes them.
pub type LiveTold<D> = LiveOver<D, Told, Ram>;

/// One whose RAM is lent. What needs none of its bytes can be done to it, and what was written can be taken. Its sectors are sent as ever, and its
/// pages with bytes that the caller copied out of the RAM.
pub type LiveParked<D, W> = LiveOver<D, W, ParkedRam>;

impl<D: Disk, W: Digesting, M: GuestRam> Model for LiveOver<D, W, M> {
    ghost use Rattle.sender.specs.LiveState.{LiveSeenOver};

    ghost Value = { LiveSeenOver M };

    ghost use Rattle.sender.specs.HereOrLent.{IsLiveOver};

    ghost view = { λ l. record { machine = l.machine; phase = l.phase; due = l.due; dirty = l.logs.first.set; digest = W.sum l.writer; out = W.state l.writer } };

    ghost invariant = { λ l. IsLiveOver (M.known l.machine.memory) l.machine.devices l.phase l.due l.logs.first.set l.logs.first.firsts.items l.at };
}

impl<D: Disk, W: Sink> LiveOver<D, Eager<W>, Ram> {
    /// A machine of which nothing is sent yet. Fails only if memory is refused.
    pub fn new(
        alloc: Global,
        machine: Machine<D>,
        writer: W,
    ) -> Result<Live<D, W>, (AllocError, Machine<D>, W)>
        ensures machine { IfOk result (λ l. l.machine ≡ machine) }
        ensures fresh { IfOk result (λ l. l.phase ≡ Phase.Fresh) }
        ensures empty { IfOk result (λ l. HasNone l.due × HasNone l.dirty) }
        ensures digest { IfOk result (λ l. Covers l.digest []) }
        ensures places { IfOk result (λ l. HasPlaces l) }
        ensures out { IfOk result (λ l. l.out ≡ W.state writer) }
        ensures err { IfErr result (λ e. (e.1 ≡ machine) × (e.2 ≡ writer)) }
    {
        let Ok((due, dirty)) = make_room(alloc, &machine) else {
            return Err((AllocError, machine, writer));
        };
        Ok(LiveOver::fresh(machine, Eager::new(writer), due, dirty))
    }

    /// The machine and the writer, as they are.
    pub fn into_parts(self) -> (Machine<D>, W)
        ensures machine { result.0 ≡ self.machine }
        ensures out { W.state result.1 ≡ self.out }
    {
        let (machine, writer) = self.parts();
        (machine, writer.into_inner())
    }
}

impl<D: Disk> LiveOver<D, Waiting, Ram> {
    /// A machine of which nothing is sent yet. Fails only if memory is refused.
    pub fn new(
        alloc: Global,
        machine: Machine<D>,
        writer: Waiting,
    ) -> Result<LiveWaiting<D>, (AllocError, Machine<D>, Waiting)>
        ensures machine { IfOk result (λ l. l.machine ≡ machine) }
        ensures fresh { IfOk result (λ l. l.phase ≡ Phase.Fresh) }
        ensures empty { IfOk result (λ l. HasNone l.due × HasNone l.dirty) }
        ensures digest { IfOk result (λ l. Covers l.digest []) }
        ensures places { IfOk result (λ l. HasPlaces l) }
        ensures out { IfOk result (λ l. l.out ≡ writer.out) }
        ensures err { IfErr result (λ e. (e.1 ≡ machine) × (e.2 ≡ writer)) }
    {
        let Ok((due, dirty)) = make_room(alloc, &machine) else {
            return Err((AllocError, machine, writer));
        };
        let mut writer = writer;
        writer.begin();
        Ok(LiveOver::fresh(machine, writer, due, dirty))
    }

    /// The machine and the writer, as they are.
    pub fn into_parts(self) -> (Machine<D>, Waiting)
        ensures machine { result.0 ≡ self.machine }
        ensures out { result.1.out ≡ self.out }
    {
        self.parts()
    }
}

impl<D: Disk, W: Digesting> LiveOver<D, W, Ram> {
    /// A machine of which nothing is sent yet, with the sets that `make_room` made for it. The writer has begun its digest.
    fn fresh(machine: Machine<D>, writer: W, due: BitSet, dirty: Dirty) -> LiveOver<D, W, Ram>
        requires empty { HasNone due × HasNone dirty.set }
        requires live { IsLive machine Phase.Fresh due dirty.set dirty.firsts.items 0 }
        ensures empty { HasNone result.due × HasNone result.dirty }
        ensures live { result ≡ record { machine = machine; phase = Phase.Fresh; due = due; dirty = dirty.set; digest = W.sum writer; out = W.state writer } }
        ensures places { HasPlaces result }
    {
        let live = LiveOver {
            machine,
            writer,
            phase: Phase::Fresh,
            due,
            at: 0,
            logs: Both {
                first: dirty,
                second: None,
            },
        };
        live.recall();
        live
    }

    /// The machine as it is.
    pub fn abort(self) -> Machine<D>
    where
        W: Drop,
        ensures { result ≡ self.machine }
    {
        let (machine, _writer) = self.parts();
        machine
    }

    /// The machine and the writer, as they are.
    fn parts(self) -> (Machine<D>, W)
        ensures machine { result.0 ≡ self.machine }
        ensures out { W.state result.1 ≡ self.out }
    {
        let LiveOver {
            machine,
            writer,
            phase: _,
            due: _,
            at: _,
            logs: _,
        } = self;
        (machine, writer)
    }

    /// For proofs: the sets have an index for each item (see the page of `guestmem`).
    pub fn recall(&self)
        ensures { HasPlaces self.now }
    {
        let _due = &self.due;
    }

    /// Lends the RAM of the machine, if it lies in memory of the caller. Takes no memory; its time does not depend on the size of RAM.
    pub fn lend(self) -> Result<(Region, LiveParked<D, W>), LiveOver<D, W, Ram>>
        ensures lent { IfOk result (λ r. IsLiveParked self r.0 r.1) }
        ensures own { IfErr result (λ _. self.machine.memory.place ≡ None) }
        ensures same { IfErr result (λ l. l ≡ self) }
    {
        self.machine.ram().recall();
        let LiveOver {
            machine,
            writer,
            phase,
            due,
            at,
            logs,
        } = self;
        match machine.lend() {
            Ok((region, machine)) => {
                let lent = LiveOver {
                    machine,
                    writer,
                    phase,
                    due,
                    at,
                    logs,
                };
                Ok((region, lent))
            }
            Err(machine) => Err(LiveOver {
                machine,
                writer,
                phase,
                due,
                at,
                logs,
            }),
        }
    }

    /// Names pages that the caller wrote while the RAM was lent, and did not name when it gave the RAM back: they are dirty. Each page
    /// that was written is named by the return or by a mark before the next end of a round and before the stop; the history goes
    /// on by a write of each page with the bytes that lie there (`laws::marks_catch_up`). No byte is read or written.
    pub fn mark(&mut self, pages: &[u32])
        requires { AreBelow (length self.old.machine.memory.versions) pages.now }
        ensures { self.new ≡ live_marked self.old pages.now }
    {
        self.machine.mark(pages, &mut self.logs.first);
    }

    /// Applies the guest's event, and marks as dirty what it writes.
    #[tactic(auto, using(crate::proofs::Living::guest_refused))]
    pub fn apply(&mut self, event: &Event) -> Result<Reply, MigError>
        ensures served { Serves self.old (LiveEvent.Guest event.now) (guest_reply result) self.new }
        ensures calls { HasLiveCalled D.called self.old (LiveEvent.Guest event.now) (guest_reply result) self.new }
    {
        self.running()?;
        Ok(self.machine.apply_logged(event, &mut self.logs.first))
    }

    /// A device does one piece of its work, which the pick names. As `apply` of that event; the bytes of a message go into the buffer,
    /// which is cut or grows to them, and where none is sent it may hold anything.
    #[tactic(auto, using(crate::proofs::Living::guest_refused))]
    pub fn step_into(&mut self, dev: u8, pick: u8, sent: &mut Vec<u8>) -> Result<Stepped, MigError>
        ensures served { Serves self.old (LiveEvent.Guest (events.Step dev pick)) (guest_reply (stepped_result result sent.new.items)) self.new }
        ensures calls { HasLiveCalled D.called self.old (LiveEvent.Guest (events.Step dev pick)) (guest_reply (stepped_result result sent.new.items)) self.new }
    {
        self.running()?;
        Ok(self.stepped(dev, pick, sent))
    }

    /// As above, of a machine that is not stopped.
    #[inline(always)]
    pub(crate) fn stepped(&mut self, dev: u8, pick: u8, sent: &mut Vec<u8>) -> Stepped
        requires running { self.old.phase ≢ Phase.Stopped }
        ensures served { Serves self.old (LiveEvent.Guest (events.Step dev pick)) (LiveReply.Guest (reply_in result sent.new.items)) self.new }
        ensures calls { HasLiveCalled D.called self.old (LiveEvent.Guest (events.Step dev pick)) (LiveReply.Guest (reply_in result sent.new.items)) self.new }
        ensures phase { self.new.phase ≡ self.old.phase }
    {
        self.machine
            .step_into_logged(dev, pick, sent, &mut self.logs.first)
    }

    /// The guest writes bytes into RAM from address `addr` on. As `apply` of that event, whose bytes need not be
    /// copied.
    #[tactic(auto, using(crate::proofs::Living::guest_refused))]
    pub fn write_ram(&mut self, addr: u64, bytes: &[u8]) -> Result<Reply, MigError>
        ensures served { Serves self.old (LiveEvent.Guest (events.MemWrite addr bytes.now)) (guest_reply result) self.new }
        ensures calls { HasLiveCalled D.called self.old (LiveEvent.Guest (events.MemWrite addr bytes.now)) (guest_reply result) self.new }
    {
        self.running()?;
        let answer = self
            .machine
            .write_ram_logged(addr, bytes, &mut self.logs.first);
        Ok(Reply::from_done(answer))
    }

    /// Begins: the header is written, and every item is due.
    pub fn begin(&mut self) -> Result<u32, MigError>
        ensures served { Serves self.old LiveEvent.Begin (begun_reply result) self.new }
        ensures calls { HasLiveCalled D.called self.old LiveEvent.Begin (begun_reply result) self.new }
    {
        if let Some(error) = self.refusal(&LiveEvent::Begin) {
            return Err(error);
        }
        let pages = page_count(&self.machine);
        if let Err(_) = encode_header(pages as u32, self.machine.shapes(), &mut self.writer) {
            self.phase = Phase::Failed;
            return Err(MigError::StreamFailed);
        }
        self.due.fill();
        self.at = 0;
        self.logs.first.set.clear();
        self.phase = Phase::Open(1);
        Ok(1)
    }

    /// Sends the item with this number.
    fn send(&mut self, number: u64) -> Result<Item, MigError>
        requires { number < size_of (layout_of (now self.old)) }
        ensures sent { SendsItem self.old number result self.new }
        ensures calls { ReadsItem D.called self.old.machine (item_at (layout_of (now self.old)) number) self.new.machine }
    {
        let item = self.item(number);
        if let Err(error) = send_item(&mut self.machine, item, &mut self.writer) {
            self.phase = phase_after(self.phase, error);
            return Err(error);
        }
        self.due.remove(number);
        self.logs.first.set.remove(number);
        Ok(item)
    }

    /// Sends the least due item.
    #[tactic(auto, using(crate::proofs::Living::going, crate::proofs::Stopping::due_below, crate::proofs::Stopping::served_copy, crate::proofs::Stopping::served_done, crate::proofs::Stopping::copy_failed, crate::proofs::ItemReads::copied_called, crate::proofs::ItemReads::copy_failed_called, crate::proofs::ItemReads::done_called))]
    pub fn copy(&mut self) -> Result<CopyAnswer, MigError>
        ensures served { Serves self.old LiveEvent.Copy (copied_reply result) self.new }
        ensures calls { HasLiveCalled D.called self.old LiveEvent.Copy (copied_reply result) self.new }
    {
        if let Some(error) = self.refusal(&LiveEvent::Copy) {
            return Err(error);
        }
        let Some(number) = self.due.first_from(self.at) else {
            return Ok(CopyAnswer::RoundDone);
        };
        let item = self.send(number)?;
        self.at = number + 1;
        Ok(CopyAnswer::Copied(item))
    }

    /// Sends all items of the two sets. A set is searched again only once the member that was found in it is sent, so all searches
    /// together go over each set once.
    fn send_all(&mut self) -> Result<Stopped, MigError>
        ensures sent { SendsAll self.old result self.new }
        ensures calls { SendCalls D.called self.old result self.new }
    {
        self.recall();
        let pages = page_count(&self.machine);
        let mut sent = Stopped {
            pages: 0,
            sectors: 0,
        };
        let mut due = self.due.first_from(0);
        let mut dirty = self.logs.first.set.first_from(0);
        'items: while let Some(number) = lesser(due, dirty) {
            if let Err(error) = self.send(number) {
                return Err(error);
            }
            sent = counted(sent, number < pages);
            due = next_past(&self.due, number, due);
            dirty = next_past(&self.logs.first.set, number, dirty);
        }
        Ok(sent)
    }

    /// Closes the stream.
    fn close(&mut self) -> Result<(), MigError>
        ensures closed { ClosesStream self.old result self.new }
        ensures calls { CallsNone self.old.machine self.new.machine }
    {
        if let Err(_) = write_devices(&self.machine, &mut self.writer) {
            self.phase = Phase::Failed;
            return Err(MigError::StreamFailed);
        }
        if let Err(_) = write_seal(&mut self.writer) {
            self.phase = Phase::Failed;
            return Err(MigError::StreamFailed);
        }
        self.phase = Phase::Stopped;
        Ok(())
    }

    /// Sends what is left, and closes the stream.
    #[tactic(auto, using(crate::proofs::Living::going, crate::proofs::Stopping::stops, crate::proofs::Stopping::stop_short, crate::proofs::Stopping::stop_failed, crate::proofs::ItemReads::stop_called, crate::proofs::ItemReads::stop_short_called, crate::proofs::ItemReads::stop_failed_called))]
    pub fn stop(&mut self) -> Result<Stopped, MigError>
        ensures served { Serves self.old LiveEvent.Stop (stopped_reply result) self.new }
        ensures calls { HasLiveCalled D.called self.old LiveEvent.Stop (stopped_reply result) self.new }
    {
        if let Some(error) = self.refusal(&LiveEvent::Stop) {
            return Err(error);
        }
        let sent = self.send_all()?;
        self.close()?;
        Ok(sent)
    }

    /// Serves any live event.
    pub fn serve(&mut self, event: &LiveEvent) -> LiveReply
        ensures served { Serves self.old event.now result self.new }
        ensures calls { HasLiveCalled D.called self.old event.now result self.new }
    {
        match event {
            LiveEvent::Guest(event) => match self.apply(event) {
                Ok(reply) => return LiveReply::Guest(reply),
                Err(error) => return LiveReply::Mig(error),
            },
            LiveEvent::Begin => match self.begin() {
                Ok(round) => return LiveReply::Begun(round),
                Err(error) => return LiveReply::Mig(error),
            },
            LiveEvent::Copy => match self.copy() {
                Ok(CopyAnswer::Copied(item)) => return LiveReply::Copied(item),
                Ok(CopyAnswer::RoundDone) => return LiveReply::RoundDone,
                Err(error) => return LiveReply::Mig(error),
            },
            LiveEvent::EndRound => match self.end_round() {
                Ok(End::Begun(round)) => return LiveReply::Begun(round),
                Ok(End::RoundOpen) => return LiveReply::RoundOpen,
                Err(error) => return LiveReply::Mig(error),
            },
            LiveEvent::Stop => match self.stop() {
                Ok(Stopped { pages, sectors }) => return LiveReply::Stopped { pages, sectors },
                Err(error) => return LiveReply::Mig(error),
            },
        }
    }
}

/// Room for the sets of a machine of which nothing is sent yet. Fails only if memory is refused.
fn make_room<D: Disk>(alloc: Global, machine: &Machine<D>) -> Result<(BitSet, Dirty), AllocError>
    ensures empty { IfOk result (λ r. HasNone r.0 × HasNone r.1.set) }
    ensures live { IfOk result (λ r. IsLive machine.now Phase.Fresh r.0 r.1.set r.1.firsts.items 0) }
{
    let _shapes = machine.shapes();
    let (firsts, size) = number_items(alloc, machine)?;
    let due = BitSet::new(alloc, size)?;
    let set = BitSet::new(alloc, size)?;
    Ok((due, Dirty { set, firsts }))
}

/// The phase after sending an item failed with `error`.
pub(crate) fn phase_after(phase: Phase, error: MigError) -> Phase
    ensures { result ≡ phase_after phase error }
{
    match error {
        MigError::StreamFailed => Phase::Failed,
        _ => phase,
    }
}

/// The lesser of two numbers, of which each may be missing.
fn lesser(a: Option<u64>, b: Option<u64>) -> Option<u64>
    ensures { result ≡ lesser a b }
{
    match (a, b) {
        (Some(a), Some(b)) => Some(a.min(b)),
        (None, found) | (found, None) => found,
    }
}

/// The least member of a set that has none up to `number`: the one that was found, unless it was this number.
fn next_past(set: &BitSet, number: u64, found: Option<u64>) -> Option<u64>
    requires inside { number < length set.now }
    requires passed { HasNoneUpTo set.now number }
    requires found { found ≢ Some number → IsLeastFrom set.now 0 found }
    ensures { IsLeastFrom set.now 0 result }
{
    if found == Some(number) {
        set.first_from(number)
    } else {
        found
    }
}

/// Counts one more item sent.
fn counted(sent: Stopped, is_page: bool) -> Stopped
    requires pages { sent.pages < 2 ^ 64 - 1 }
    requires sectors { sent.sectors < 2 ^ 64 - 1 }
    ensures { result ≡ one_more sent is_page }
{
    if is_page {
        Stopped {
            pages: sent.pages + 1,
            sectors: sent.sectors,
        }
    } else {
        Stopped {
            pages: sent.pages,
            sectors: sent.sectors + 1,
        }
    }
}
