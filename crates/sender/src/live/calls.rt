//! The calls that need no byte of RAM, of a machine that is being migrated, its RAM here or lent. `remaining`, `left`, `most_by_stop` and `machine` stand
//! beside them: a host chooses when to stop, and reads the lines of a machine that is migrated.
//!
//! Nothing that they do is to be sent but with the devices, by the stop. So they make no item dirty, and a migration that failed to write
//! still answers them.

ghost use Rattle.std.specs.Prelude.{◌≡◌, ◌≢◌, ◌+◌, ◌*◌, ◌<◌, ◌≤◌, ◌^◌, ◌++◌, IfErr, OnOk, Some, [], drop, false, length, min, take, true};
ghost use Rattle.dirtylog.specs.Members.{member_count};
ghost use Rattle.guestmem.specs.Memory.{Memory};
ghost use Rattle.machine.specs.EffectLaws.{HasItem};
ghost use Rattle.machine.specs.Known.{Whatever};
ghost use Rattle.machine.specs.Layout.{item_at, size_of};
ghost use Rattle.machine.specs.Over.{CallsOver, calls_in};
ghost use Rattle.machine.specs.Seen.{state_of, with_ram};
ghost use Rattle.machine.specs.declared.event.DiskAnswer.TheVariants as answers;
ghost use Rattle.machine.specs.declared.event.Event.TheVariants as events;
ghost use Rattle.wire.specs.Sinks.{Takes, over_writer};
ghost use Rattle.sender.specs.Calls.{ended_reply, guest_reply};
ghost use Rattle.sender.specs.HereOrLent.{EndsOver, FlushesLiveOver, GuestCallsOver, IsStopBytesOver, LeavesMachine, LeavesRest, SaysWhether, ServesOver, TriesFlushOver, layout_over, pages_in};
ghost use Rattle.sender.specs.LiveState.{item_of, live_with, refusal_for};
ghost use Rattle.sender.specs.SectorsLent.{IsNextDue};
ghost use Rattle.sender.specs.Unsynced.{FlushesLiveDisk};

use crate::event::{End, Item, Left, LiveEvent, NextDue, Remaining};
use crate::left::{left_of, most_bytes};
use crate::live::LiveOver;
use crate::measuring::devices_len;
use crate::mig_error::MigError;
use crate::numbering::item_in;
use crate::phase::Phase;
use machine::{Disk, DiskFault, GuestRam, MachineOver, Reply};
use wire::{Digesting, Eager, Sink, Waiting, encode_round};

/// The last round that the record of a round's end can number. It can't be ended.
const LAST_ROUND: u32 = u32::MAX;

impl<D: Disk, W: Digesting, M: GuestRam> LiveOver<D, W, M> {
    /// The machine, to be read: its registers, its RAM, its interrupt lines.
    pub fn machine(&self) -> &MachineOver<D, M>
        ensures { result.now ≡ self.now.machine }
    {
        &self.machine
    }

    /// How far its migration has come.
    pub fn phase(&self) -> Phase
        ensures { result ≡ self.now.phase }
    {
        self.phase
    }

    /// How many items are due, and how many are dirty. It takes constant time.
    pub fn remaining(&self) -> Remaining
        ensures due { result.due ≡ member_count self.now.due }
        ensures dirty { result.dirty ≡ member_count self.now.dirty }
    {
        Remaining {
            due: self.due.count(),
            dirty: self.logs.first.set.count(),
        }
    }

    /// What `remaining` counts, with pages and sectors apart. It looks at the place of each page in both sets.
    pub fn left(&self) -> Left
        ensures due_pages { result.due_pages ≡ member_count (take (pages_in (M.known self.now.machine.memory)) self.now.due) }
        ensures due_sectors { result.due_sectors ≡ member_count (drop (pages_in (M.known self.now.machine.memory)) self.now.due) }
        ensures dirty_pages { result.dirty_pages ≡ member_count (take (pages_in (M.known self.now.machine.memory)) self.now.dirty) }
        ensures dirty_sectors { result.dirty_sectors ≡ member_count (drop (pages_in (M.known self.now.machine.memory)) self.now.dirty) }
        ensures few_pages { result.due_pages + result.dirty_pages ≤ 2 * pages_in (M.known self.now.machine.memory) }
        ensures pages_fit { result.due_pages + result.dirty_pages ≤ 8589934590 }
        ensures few_sectors { result.due_sectors + result.dirty_sectors < 2 ^ 38 }
    {
        let pages = self.page_count();
        left_of(&self.due, &self.logs.first.set, pages)
    }

    /// The most bytes that a stop would write, if no further page were dirty: as if no page were of zeros, no sector bad, and no item both due and
    /// dirty. It looks at the place of each page in both sets.
    pub fn most_by_stop(&self) -> u64
        ensures { IsStopBytesOver M.known self.now result }
    {
        let _shapes = self.machine.shapes();
        let items = self.left();
        most_bytes(items, devices_len(self.machine.devices()))
    }

    /// What is sent next, by `copy`; while RAM is lent a page by `copy_page` and a sector by `copy_sector`.
    pub fn next_item(&self) -> NextDue
        ensures { IsNextDue (pages_in (M.known self.now.machine.memory)) self.now.due result }
    {
        let pages = self.page_count();
        match self.due.first_from(self.at) {
            Some(number) if number < pages => NextDue::Page(number as u32),
            Some(_) => NextDue::Sector,
            None => NextDue::Nothing,
        }
    }

    /// How many pages its RAM has. They are numbered before all sectors, so it is the number of the first one of the first device.
    fn page_count(&self) -> u64
        ensures count { result ≡ pages_in (M.known self.now.machine.memory) }
        ensures few { result ≤ 4294967295 }
        ensures inside { (result ≤ length self.now.due) × (result ≤ length self.now.dirty) }
        ensures few_items { (length self.now.due ≤ 73014444015) × (length self.now.dirty ≤ 73014444015) }
    {
        let _shapes = self.machine.shapes();
        self.logs.first.firsts[0]
    }

    /// The item with this number.
    pub(crate) fn item(&self, number: u64) -> Item
        requires { number < size_of (layout_over (M.known self.now.machine.memory) self.now.machine.devices) }
        ensures item { item_of result ≡ item_at (layout_over (M.known self.now.machine.memory) self.now.machine.devices) number }
        ensures there { Whatever (M.known self.now.machine.memory) (λ m. HasItem (state_of (with_ram self.now.machine m)) (item_of result)) }
    {
        let pages = self.page_count();
        item_in(pages, self.machine.shapes(), number)
    }

    /// Which phase refuses this event.
    pub(crate) fn refusal(&self, event: &LiveEvent) -> Option<MigError>
        ensures { result ≡ refusal_for self.now.phase event.now }
    {
        match (self.phase, event) {
            (Phase::Failed, LiveEvent::Guest(_)) => None,
            (Phase::Failed, _) => Some(MigError::StreamFailed),
            (Phase::Stopped, _) => Some(MigError::AlreadyStopped),
            (Phase::Fresh, LiveEvent::Guest(_)) => None,
            (Phase::Fresh, LiveEvent::Begin) => None,
            (Phase::Fresh, _) => Some(MigError::NotBegun),
            (Phase::Open(_), LiveEvent::Begin) => Some(MigError::AlreadyBegun),
            (Phase::Open(round), LiveEvent::EndRound) => {
                if round == LAST_ROUND {
                    Some(MigError::RoundsEnded)
                } else {
                    None
                }
            }
            (Phase::Open(_), _) => None,
        }
    }

    /// Whether the guest still runs: a stop that closed the stream has paused it.
    pub(crate) fn running(&self) -> Result<(), MigError>
        ensures open { OnOk result (self.now.phase ≢ Phase.Stopped) }
        ensures closed { IfErr result (λ e. (e ≡ MigError.AlreadyStopped) × (self.now.phase ≡ Phase.Stopped)) }
    {
        if let Phase::Stopped = self.phase {
            return Err(MigError::AlreadyStopped);
        }
        Ok(())
    }

    /// The driver reads a register. As `apply` of that event.
    #[tactic(auto, using(crate::proofs::HereOrLent::refused_over, crate::proofs::HereOrLent::refused_calls, crate::proofs::HereOrLent::refused_leaves))]
    pub fn read_register(&self, dev: u8, offset: u32, width: u8) -> Result<Reply, MigError>
        ensures served { ServesOver M.known self.now (events.RegRead dev offset width) (guest_reply result) self.now }
        ensures calls { GuestCallsOver M.known D.called self.now (events.RegRead dev offset width) (guest_reply result) self.now }
        ensures rest { LeavesRest self.now result self.now }
    {
        self.running()?;
        let answer = self.machine.read_register(dev, offset, width);
        Ok(Reply::from_value(answer))
    }

    /// The driver writes a register. As `apply` of that event.
    #[tactic(auto, using(crate::proofs::HereOrLent::refused_over, crate::proofs::HereOrLent::refused_calls, crate::proofs::HereOrLent::refused_leaves))]
    pub fn write_register(
        &mut self,
        dev: u8,
        offset: u32,
        width: u8,
        value: u32,
    ) -> Result<Reply, MigError>
        ensures served { ServesOver M.known self.old (events.RegWrite dev offset width value) (guest_reply result) self.new }
        ensures calls { GuestCallsOver M.known D.called self.old (events.RegWrite dev offset width value) (guest_reply result) self.new }
        ensures rest { LeavesRest self.old result self.new }
    {
        self.running()?;
        let answer = self.machine.write_register(dev, offset, width, value);
        Ok(Reply::from_written(answer))
    }

    /// The host sets the size of a console, in characters. As `apply` of that event.
    #[tactic(auto, using(crate::proofs::HereOrLent::refused_over, crate::proofs::HereOrLent::refused_calls, crate::proofs::HereOrLent::refused_leaves))]
    pub fn resize(&mut self, dev: u8, cols: u16, rows: u16) -> Result<Reply, MigError>
        ensures served { ServesOver M.known self.old (events.Resize dev cols rows) (guest_reply result) self.new }
        ensures calls { GuestCallsOver M.known D.called self.old (events.Resize dev cols rows) (guest_reply result) self.new }
        ensures rest { LeavesRest self.old result self.new }
    {
        self.running()?;
        let answer = self.machine.resize(dev, cols, rows);
        Ok(Reply::from_done(answer))
    }

    /// The host puts bytes in. As `apply` of that event, whose bytes need not be copied.
    #[tactic(auto, using(crate::proofs::HereOrLent::refused_over, crate::proofs::HereOrLent::refused_calls, crate::proofs::HereOrLent::refused_leaves))]
    pub fn input(&mut self, dev: u8, bytes: &[u8]) -> Result<Reply, MigError>
        ensures served { ServesOver M.known self.old (events.Input dev bytes.now) (guest_reply result) self.new }
        ensures calls { GuestCallsOver M.known D.called self.old (events.Input dev bytes.now) (guest_reply result) self.new }
        ensures rest { LeavesRest self.old result self.new }
    {
        self.running()?;
        let answer = self.machine.input(dev, bytes);
        Ok(Reply::from_accepted(answer))
    }

    /// The host drops what it has put in and the guest has not yet taken. As `apply` of that event.
    #[tactic(auto, using(crate::proofs::HereOrLent::refused_over, crate::proofs::HereOrLent::refused_calls, crate::proofs::HereOrLent::refused_leaves))]
    pub fn drop_input(&mut self, dev: u8) -> Result<Reply, MigError>
        ensures served { ServesOver M.known self.old (events.Drop dev) (guest_reply result) self.new }
        ensures calls { GuestCallsOver M.known D.called self.old (events.Drop dev) (guest_reply result) self.new }
        ensures rest { LeavesRest self.old result self.new }
    {
        self.running()?;
        let answer = self.machine.drop_input(dev);
        Ok(Reply::from_done(answer))
    }

    /// A disk outside did this many sectors of a write or of a clearing, or a flush, which is one (`Machine::disk_did`). As `apply` of that event.
    #[tactic(auto, using(crate::proofs::HereOrLent::refused_over, crate::proofs::HereOrLent::refused_calls, crate::proofs::HereOrLent::refused_leaves))]
    pub fn disk_did(&mut self, dev: u8, pick: u8, count: u32) -> Result<Reply, MigError>
        ensures served { ServesOver M.known self.old (events.Disk dev pick (answers.Did count)) (guest_reply result) self.new }
        ensures calls { GuestCallsOver M.known D.called self.old (events.Disk dev pick (answers.Did count)) (guest_reply result) self.new }
        ensures rest { LeavesRest self.old result self.new }
    {
        self.running()?;
        let answer = self.machine.disk_did(dev, pick, count);
        Ok(Reply::from_moved(answer))
    }

    /// A disk outside failed: the request that the pick names ends with an error (`Machine::disk_failed`). As `apply` of that event.
    #[tactic(auto, using(crate::proofs::HereOrLent::refused_over, crate::proofs::HereOrLent::refused_calls, crate::proofs::HereOrLent::refused_leaves))]
    pub fn disk_failed(&mut self, dev: u8, pick: u8) -> Result<Reply, MigError>
        ensures served { ServesOver M.known self.old (events.Disk dev pick answers.Failed) (guest_reply result) self.new }
        ensures calls { GuestCallsOver M.known D.called self.old (events.Disk dev pick answers.Failed) (guest_reply result) self.new }
        ensures rest { LeavesRest self.old result self.new }
    {
        self.running()?;
        let answer = self.machine.disk_failed(dev, pick);
        Ok(Reply::from_failed(answer))
    }

    /// Flushes the disk of a device once, if it has one, in each phase (`Machine::flush_disk`). The machine and its migration stay as they
    /// are.
    pub fn flush_disk(&mut self, dev: u8) -> Result<(), DiskFault>
        ensures flushed { FlushesLiveOver M.known self.old dev result self.new }
        ensures whatever { (m : Memory) → FlushesLiveDisk (live_with self.old m) dev result (live_with self.new m) }
        ensures rest { self.new ≡ record self.old { machine = self.new.machine } }
        ensures calls { CallsOver D.called true dev self.old.machine self.new.machine }
    {
        self.machine.flush_disk(dev)
    }

    /// In place of a step that flushes a disk: makes it as a step whose disk failed, and calls no disk (`Machine::fail_flush`). The
    /// result says whether the step with this pick flushes; if not, nothing has changed.
    #[tactic(auto, using(crate::proofs::HereOrLent::flush_refused_over, crate::proofs::HereOrLent::refused_leaves))]
    pub fn fail_flush(&mut self, dev: u8, pick: u8) -> Result<bool, MigError>
        ensures tried { TriesFlushOver M.known self.old dev pick result self.new }
        ensures calls { calls_in self.new.machine ≡ calls_in self.old.machine }
        ensures rest { LeavesRest self.old result self.new }
        ensures says { SaysWhether self.old dev pick result self.new }
    {
        self.running()?;
        Ok(self.machine.fail_flush(dev, pick))
    }

    /// Ends a round: the dirty items become due. It reads no byte of RAM. What the guest writes while RAM is lent counts as written at the return,
    /// after the end of the round; so no page may be missing that was written before the loan.
    #[tactic(auto, using(machine::proofs::Known::between_same))]
    pub fn end_round(&mut self) -> Result<End, MigError>
        ensures served { EndsOver M.known self.old (ended_reply result) self.new }
        ensures calls { calls_in self.new.machine ≡ calls_in self.old.machine }
        ensures rest { LeavesMachine self.old self.new }
    {
        if let Some(error) = self.refusal(&LiveEvent::EndRound) {
            return Err(error);
        }
        let Phase::Open(round) = self.phase else {
            return Err(MigError::NotBegun);
        };
        if !self.due.is_empty() {
            return Ok(End::RoundOpen);
        }
        if let Err(_) = encode_round(round, &mut self.writer) {
            self.phase = Phase::Failed;
            return Err(MigError::StreamFailed);
        }
        self.logs.first.set.swap_out(&mut self.due);
        self.at = 0;
        self.phase = Phase::Open(round + 1);
        Ok(End::Begun(round + 1))
    }
}

impl<D: Disk, W: Sink, M: GuestRam> LiveOver<D, Eager<W>, M> {
    /// Replaces the writer, and returns the old one. All else stays the same. No call depends on what a writer holds
    /// (`laws::calls_ignore_what_was_taken`), so a caller may take that out between two calls.
    pub fn replace_writer(&mut self, writer: W) -> W
        ensures out { W.state result ≡ self.old.out }
        ensures rest { self.new ≡ record self.old { out = W.state writer } }
    {
        self.writer.replace(writer)
    }
}

impl<D: Disk, M: GuestRam> LiveOver<D, Waiting, M> {
    /// Takes the first of the bytes that wait, as `Waiting::take` does. No call depends on what the writer holds
    /// (`laws::calls_ignore_what_was_taken`), so bytes may be taken between two calls.
    pub fn take(&mut self, buf: &mut [u8]) -> usize
        ensures count { result ≡ min (length buf.old) (length self.old.out.held) }
        ensures taken { buf.new ≡ take result self.old.out.held ++ drop result buf.old }
        ensures left { self.new ≡ record self.old { out = over_writer (Some (drop result self.old.out.held)) 0 false; digest = self.new.digest } }
        ensures digest { Takes self.old.digest [] self.new.digest }
    {
        self.writer.take(buf)
    }
}
