//! The contents of a handle.
//!
//! One handle for all states: C has one thing to keep and to free, and what does not fit the state is reported by a status. A
//! second handle for a machine whose RAM is lent would allocate memory at each loan, so a call at each exit of a guest could
//! run out of memory; and the proofs over raw pointers would be needed twice.
//!
//! In whose memory the disks are is a type: `Contents` is a machine over disks of one type, so each of its states is written once, and `Held`
//! says which disks they are. What is seen of a machine has the sectors of its disks, and not where they lie, so with one type for both a
//! `vmig_release` that gave no image back would meet its clause. What arrives is beside them: it has no disks before its header is whole.
//!
//! `by_state` has the states once: a call names two or three answers in place of nine cases. It is a macro, and no function of a generic type
//! that each call would have beside its own, with a contract that says the same.

ghost use Rattle.c_handle.specs.Kept.{admission_of, places_for, unasked};
ghost use Rattle.c_machine.specs.Made.{asks_large};
ghost use Rattle.std.specs.Prelude.{◌≡◌, false};

use crate::admission::Admission;
use crate::arrival::Arrival;
use crate::calls_out::CallsOut;
use crate::loan::Loan;
use crate::logging::Output;
use crate::told_feeding::Telling;
use c_machine::{asks_large, limits_for};
use guestmem::{PAGE_SIZE, PAGES_MAX};
use machine::{DEVICES_MAX, Disk, Machine, MemDisk, PageLog};
use mapped_disk::MappedDisk;
use receiver::Told;
use sender::{LiveTold, LiveWaiting};
use std::alloc::Global;
use std::marker::Model;
use std::mem;

/// A machine over disks of one type, in its state.
#[derive(Drop)]
pub enum Contents<D: Disk> {
    /// It is not being migrated: no stream is written.
    Still(Machine<D>),

    /// It is being migrated while it runs. The bytes written for it wait until C takes them.
    Moving(LiveWaiting<D>),

    /// It is being migrated too, and its host tells the digest of what it takes: the library digests nothing.
    Told(LiveTold<D>),

    /// Its RAM is lent to the caller.
    Lent(Loan<D>),
}

/// A machine, by where its disks lie, or one that arrives.
#[derive(Drop)]
pub enum Held {
    /// Its disks lie in memory of the library.
    Own(Contents<MemDisk>),

    /// Its disks lie in memory of the caller.
    Mapped(Contents<MappedDisk>),

    /// It arrives, or was refused: it is no machine yet.
    Arriving(Arrival),

    /// It arrives too, and its host tells the digest of the stream, of which this is known.
    ToldArriving(Arrival<Told>, Telling),
}

/// The same for a machine over any disks; and what is done where one arrives. The arm of most calls is the last here and below, since LLVM
/// tests for it first then: it saves five instructions a step.
macro_rules! on_disks {
    ($held:expr; $contents:ident => $call:expr, arriving($arrival:pat) => $arriving:expr $(,)?) => {
        $crate::kept::on_disks!($held; $contents => $call, arriving($arrival) => $arriving, told_arriving($arrival, _) => $arriving)
    };
    (
        $held:expr;
        $contents:ident => $call:expr,
        arriving($arrival:pat) => $arriving:expr,
        told_arriving($told:pat, $telling:pat) => $told_arriving:expr $(,)?
    ) => {
        match $held {
            $crate::kept::Held::ToldArriving($told, $telling) => $told_arriving,
            $crate::kept::Held::Arriving($arrival) => $arriving,
            $crate::kept::Held::Mapped($contents) => $call,
            $crate::kept::Held::Own($contents) => $call,
        }
    };
}

/// What a call answers in each state: of a machine that is not being migrated, and of one that is, whatever its disks, and whoever makes the
/// digest unless that is said apart; of one whose RAM is lent, which is a status if nothing else is said, and has two answers for a call that
/// needs no RAM; and where one arrives, which is none yet.
macro_rules! by_state {
    ($held:expr; still($machine:pat) => $still:expr, moving($live:pat) => $moving:expr $(,)?) => {
        $crate::kept::by_state!($held; still($machine) => $still, moving($live) => $moving, lent(_) => c_machine::status::LENT)
    };
    (
        $held:expr;
        still($machine:pat) => $still:expr,
        moving($live:pat) => $moving:expr,
        still_lent($parked:pat) => $still_lent:expr,
        moving_lent($live_parked:pat) => $moving_lent:expr $(,)?
    ) => {
        $crate::kept::by_state!($held;
            still($machine) => $still,
            moving($live) => $moving,
            still_lent($parked) => $still_lent,
            moving_lent($live_parked) => $moving_lent,
            arriving(_) => c_machine::status::NO_MACHINE,
        )
    };
    (
        $held:expr;
        still($machine:pat) => $still:expr,
        moving($live:pat) => $moving:expr,
        still_lent($parked:pat) => $still_lent:expr,
        moving_lent($live_parked:pat) => $moving_lent:expr,
        arriving($arrival:pat) => $arriving:expr $(,)?
    ) => {
        $crate::kept::by_state!($held;
            still($machine) => $still,
            moving($live) => $moving,
            lent(loan) => match loan {
                $crate::loan::Loan::Still($parked) => $still_lent,
                $crate::loan::Loan::Moving($live_parked) => $moving_lent,
                $crate::loan::Loan::Told($live_parked) => $moving_lent,
            },
            arriving($arrival) => $arriving,
        )
    };
    ($held:expr; still($machine:pat) => $still:expr, moving($live:pat) => $moving:expr, lent($loan:pat) => $lent:expr $(,)?) => {
        $crate::kept::by_state!($held; still($machine) => $still, moving($live) => $moving, lent($loan) => $lent, arriving(_) => c_machine::status::NO_MACHINE)
    };
    (
        $held:expr;
        still($machine:pat) => $still:expr,
        moving($live:pat) => $moving:expr,
        lent($loan:pat) => $lent:expr,
        arriving($arrival:pat) => $arriving:expr $(,)?
    ) => {
        $crate::kept::by_state!($held;
            still($machine) => $still,
            moving($live) => $moving,
            told($live) => $moving,
            lent($loan) => $lent,
            arriving($arrival) => $arriving,
        )
    };
    (
        $held:expr;
        still($machine:pat) => $still:expr,
        moving($live:pat) => $moving:expr,
        told($live_told:pat) => $told:expr,
        lent($loan:pat) => $lent:expr,
        arriving($arrival:pat) => $arriving:expr $(,)?
    ) => {
        $crate::kept::by_state!($held;
            still($machine) => $still,
            moving($live) => $moving,
            told($live_told) => $told,
            lent($loan) => $lent,
            arriving($arrival) => $arriving,
            told_arriving($arrival, _) => $arriving,
        )
    };
    (
        $held:expr;
        still($machine:pat) => $still:expr,
        moving($live:pat) => $moving:expr,
        lent($loan:pat) => $lent:expr,
        arriving($arrival:pat) => $arriving:expr,
        told_arriving($told_arrival:pat, $telling:pat) => $told_arriving:expr $(,)?
    ) => {
        $crate::kept::by_state!($held;
            still($machine) => $still,
            moving($live) => $moving,
            told($live) => $moving,
            lent($loan) => $lent,
            arriving($arrival) => $arriving,
            told_arriving($told_arrival, $telling) => $told_arriving,
        )
    };
    (
        $held:expr;
        still($machine:pat) => $still:expr,
        moving($live:pat) => $moving:expr,
        told($live_told:pat) => $told:expr,
        lent($loan:pat) => $lent:expr,
        arriving($arrival:pat) => $arriving:expr,
        told_arriving($told_arrival:pat, $telling:pat) => $told_arriving:expr $(,)?
    ) => {
        $crate::kept::on_disks!($held;
            contents => match contents {
                $crate::kept::Contents::Lent($loan) => $lent,
                $crate::kept::Contents::Told($live_told) => $told,
                $crate::kept::Contents::Moving($live) => $moving,
                $crate::kept::Contents::Still($machine) => $still,
            },
            arriving($arrival) => $arriving,
            told_arriving($told_arrival, $telling) => $told_arriving,
        )
    };
}

/// The state that a machine is turned into, with a status; where one arrives it stays, and there is no machine.
macro_rules! turned {
    ($held:expr; $contents:ident => $call:expr) => {
        match $held {
            $crate::kept::Held::Own($contents) => {
                let (next, status) = $call;
                ($crate::kept::Held::Own(next), status)
            }
            $crate::kept::Held::Mapped($contents) => {
                let (next, status) = $call;
                ($crate::kept::Held::Mapped(next), status)
            }
            $crate::kept::Held::Arriving(arrival) => {
                ($crate::kept::Held::Arriving(arrival), c_machine::status::NO_MACHINE)
            }
            $crate::kept::Held::ToldArriving(arrival, telling) => {
                ($crate::kept::Held::ToldArriving(arrival, telling), c_machine::status::NO_MACHINE)
            }
        }
    };
}

pub(crate) use by_state;
pub(crate) use on_disks;
pub(crate) use turned;

/// What its flags asked for.
#[derive(Clone, Copy)]
pub struct Asked {
    /// Whether the machine may be as large as can be.
    pub large: bool,

    /// For how many pages its log, if it has one, has a place: as many as the machine has, or may have where it arrives, and no fewer than
    /// the usual limits allow.
    pub places: u32,
}

impl Asked {
    /// By these flags, of a machine whose RAM has this many bytes, or no more where it arrives.
    pub(crate) fn by(flags: u32, bytes: u64) -> Asked
        ensures large { result.large ≡ asks_large flags }
        ensures places { result.places ≡ places_for flags bytes }
    {
        Asked {
            large: asks_large(flags),
            places: places_for(flags, bytes),
        }
    }

    /// Nothing.
    pub(crate) fn nothing() -> Asked
        ensures large { result.large ≡ false }
        ensures places { result.places ≡ 0 }
    {
        Asked {
            large: false,
            places: 0,
        }
    }
}

/// That of a machine of which no stream arrives.
pub(crate) fn unasked(alloc: Global) -> Admission
    ensures { admission_of result ≡ unasked }
{
    Admission::Granted(0, Vec::new(alloc))
}

fn places_for(flags: u32, bytes: u64) -> u32
    ensures { result ≡ places_for flags bytes }
{
    let pages = (bytes / PAGE_SIZE as u64).min(limits_for(flags).pages as u64);
    (pages as u32).max(PAGES_MAX)
}

/// The contents of a handle. Contracts see which state they are in, whether the disks are the caller's memory, whether a stream is let in and
/// how much of it was taken, which disks were lost, which calls of disks outside are out, what was asked for, and which pages are to be handed
/// out.
///
/// The calls that are out lie beside the machine, so they outlive each change of its state: it may be sent and aborted, and lend its RAM, while a
/// host's storage is at work.
///
/// A log of pages has a place for each page of the machine (`FitsLog`): no call changes how many pages a machine has.
#[derive(Drop)]
pub struct Kept {
    pub(crate) held: Held,
    // What steps give out.
    pub(crate) output: Output,
    // The numbers of the pages that were named last by a bitmap: kept for the same reason.
    pub(crate) named: Vec<u32>,
    // Of what arrives: whether its stream is let in.
    pub(crate) admission: Admission,
    // Of what arrives: how many bytes of its stream were taken.
    pub(crate) fed: u64,
    // For each device, whether its disk was lost: it could not be brought to its file, and will not be.
    lost: [bool; DEVICES_MAX],
    // Which calls of disks outside were handed out and are not answered.
    pub(crate) calls: CallsOut,
    pub(crate) asked: Asked,
}

impl Model for Kept {
    ghost use Rattle.c_handle.specs.Kept.{FitsLog, KeptSeen, admission_of, held_state, kept_with, ram_in};

    ghost Value = { KeptSeen };

    ghost view = { λ k. record (kept_with k.held (admission_of k.admission) k.fed k.lost) { calls = k.calls; written = k.output.written; large = k.asked.large; places = k.asked.places } };

    ghost invariant = { λ k. FitsLog k.output.written (ram_in k.asked.places (held_state k.held)) };
}

impl Kept {
    ghost use Rattle.std.specs.Prelude.{◌≡◌, ◌≤◌, length, slice_set, true};
    ghost use Rattle.machine.specs.declared.machine.TheConstants.{DEVICES_MAX};
    ghost use Rattle.c_handle.specs.Kept.{FitsLog, held_state, is_lost, kept_with, none_lost, ram_in};

    /// Room for a machine, with room for these calls. It takes no memory.
    pub(crate) fn empty(alloc: Global, calls: CallsOut) -> Kept
        ensures calls { result.calls ≡ calls }
        ensures fed { result.fed ≡ 0 }
        ensures lost { result.lost ≡ none_lost }
    {
        Kept {
            held: Held::Arriving(Arrival::failed()),
            output: Output::new(alloc, None),
            named: Vec::new(alloc),
            admission: unasked(alloc),
            fed: 0,
            lost: [false; DEVICES_MAX],
            calls,
            asked: Asked::nothing(),
        }
    }

    /// Puts a machine into it, or one that will arrive. It takes no memory.
    pub(crate) fn fill(
        &mut self,
        held: Held,
        admission: Admission,
        written: Option<PageLog>,
        asked: Asked,
    )
        requires { FitsLog written (ram_in asked.places (held_state held)) }
        ensures { self.new ≡ record (kept_with held (admission_of admission) self.old.fed self.old.lost) { calls = self.old.calls; written = written; large = asked.large; places = asked.places } }
    {
        drop(mem::replace(&mut self.held, held));
        drop(mem::replace(&mut self.admission, admission));
        drop(mem::replace(&mut self.output.written, written));
        self.asked = asked;
    }

    /// For each device, whether its disk was lost.
    pub(crate) fn lost(&self) -> &[bool]
        ensures lost { result.now ≡ self.now.lost }
        ensures few { length result.now ≤ DEVICES_MAX }
    {
        &self.lost
    }

    /// Whether the disk of a device was lost.
    pub(crate) fn is_lost(&self, dev: u8) -> bool
        ensures { result ≡ is_lost self.now dev }
    {
        match self.lost.get(dev as usize) {
            Some(lost) => *lost,
            None => false,
        }
    }

    /// The disk of a device is lost from now on.
    pub(crate) fn lose(&mut self, dev: u8)
        ensures { self.new ≡ record self.old { lost = slice_set self.old.lost dev true } }
    {
        let at = dev as usize;
        if at < self.lost.len() {
            self.lost[at] = true;
        }
    }
}
