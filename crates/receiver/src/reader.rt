//! All of a receiver but its buffer.
//!
//! The buffer stands apart, since the bytes that are worked off may lie in it. It is reserved once, for the longest record, with the
//! first piece that is not empty. Where nothing is held, whole records are taken from where the caller has them; after bytes that are
//! held, the next bytes are copied first.
//!
//! All memory that the machine needs is taken with the header, before a record behind it is looked at.

ghost use Rattle.std.specs.Prelude.{◌≡◌, ◌≤◌, drop, length};
ghost use Rattle.std.specs.Vec.{vec_capacity};
ghost use Rattle.receiver.specs.Receiving.{place_aside};

use crate::heading::read_heading_within;
use crate::intake::{Intake, work_off};
use crate::opening::{check_fit, new_intake};
use crate::ram_terms::RamTerms;
use crate::recv_error::RecvError;
use crate::stage::Stage;
use crate::summing::{Own, Summing, Told};
use crate::waiting::{lacking_of, next_len};
use guestmem::ArrivingRam;
use machine::{Disk, Room};
use std::alloc::Global;
use std::marker::Model;
use std::mem;
use wire::RECORD_MAX;

/// What was worked off of a stream, and where it went.
#[derive(Drop)]
pub struct Reader<D: Disk, S: Summing = Own> {
    pub alloc: Global,

    /// What the host says of the machine.
    pub ram: RamTerms,
    pub disks: Vec<D>,

    /// The RAM that stands aside: that which was given, until the header is read, and any after a refusal.
    pub aside: Option<ArrivingRam>,

    /// The memory that the machine will need, once the header was read.
    pub room: Option<Room<D>>,

    /// The digest of the bytes that were worked off, until that which ends the stream was read.
    pub digest: S,
    pub stage: Stage,
}

impl<D: Disk, S: Summing> Model for Reader<D, S> {
    ghost use Rattle.std.specs.Prelude.{map};
    ghost use Rattle.receiver.specs.Reading.{IsReader};
    ghost use Rattle.receiver.specs.Receiving.{ReaderSeen};

    ghost Value = { ReaderSeen };

    ghost view = { λ r. record { ram = r.ram; disks = map D.state r.disks.items; aside = r.aside; room = r.room; digest = S.seen r.digest; stage = r.stage } };

    ghost invariant = { λ r. IsReader r.ram (map D.state r.disks.items) r.aside r.room r.stage };
}

impl<D: Disk + Drop, S: Summing> Reader<D, S> {
    ghost use Rattle.std.specs.Prelude.{◌≡◌, ◌≤◌, ◌<◌, ◌+◌, ◌↔◌, IfOk, IsTrue, length, map};
    ghost use Rattle.std.specs.Vec.{vec_capacity};
    ghost use Rattle.receiver.specs.Closing.{MayEnd, ended_at};
    ghost use Rattle.receiver.specs.Reading.{StandsAside, IsFirst, Looks, ReadsHeader, TakesBytes, TakesPiece};
    ghost use Rattle.receiver.specs.Receiving.{has_ended, has_failed, length_aside, ram_len_in, reads_in, rounds_in};
    ghost use Rattle.receiver.specs.Waiting.{LacksBytes};

    /// A reader that has read nothing. It takes no memory.
    pub fn new(
        alloc: Global,
        disks: Vec<D>,
        ram: RamTerms,
        aside: Option<ArrivingRam>,
    ) -> Reader<D, S>
        requires { ram.len ≡ length_aside aside }
        ensures { IsFirst ram (map D.state disks.items) aside result }
    {
        Reader {
            alloc,
            ram,
            disks,
            aside,
            room: None,
            digest: S::none(),
            stage: Stage::Head,
        }
    }

    /// Whether the stream was refused.
    pub fn has_failed(&self) -> bool
        ensures { result ≡ has_failed self.now.stage }
    {
        self.stage.has_failed()
    }

    /// Whether the header was read, and nothing was refused.
    pub fn reads(&self) -> bool
        ensures { result ≡ reads_in self.now.stage }
    {
        self.stage.reads()
    }

    /// Whether the whole stream was read.
    pub fn has_ended(&self) -> bool
        ensures { result ≡ has_ended self.now.stage }
    {
        self.stage.has_ended()
    }

    /// Whether the digest may come: each item is named and each device has arrived.
    pub fn may_end(&self) -> bool
        ensures { IsTrue result ↔ MayEnd self.now.stage }
    {
        self.stage.may_end()
    }

    /// The digest was read.
    pub fn end(&mut self)
        ensures { self.new ≡ record self.old { stage = ended_at self.old.stage } }
    {
        self.stage.end();
    }

    /// How many rounds ended.
    pub fn rounds(&self) -> u32
        ensures { result ≡ rounds_in self.now.stage }
    {
        self.stage.rounds()
    }

    /// How many bytes the RAM of the machine has, once its header was read.
    pub fn ram_len(&self) -> Option<u64>
        ensures { result ≡ ram_len_in self.now.stage }
    {
        self.stage.ram_len()
    }

    /// The guest-physical address at which the machine's RAM is to begin.
    pub fn base(&self) -> u64
        ensures { result ≡ self.now.ram.base }
    {
        self.ram.base
    }

    /// How many disks it has.
    pub fn disk_count(&self) -> usize
        ensures { result ≡ length self.now.disks }
    {
        self.disks.len()
    }

    /// How many bytes the record at the front of the held bytes lacks (`lacking_of`).
    fn lacking(&self, held: &[u8]) -> usize
        ensures lacks { 0 < result → LacksBytes self.now.stage held.now result }
    {
        lacking_of(&self.stage, held)
    }

    /// How many bytes to take next, of `len` (`next_len`).
    fn next_len(&self, held: &[u8], len: usize) -> usize
        requires some { 0 < len }
        requires few { length held.now ≤ 131077 }
        ensures some { 0 < result }
        ensures within { result ≤ len }
        ensures fits { 0 < length held.now → length held.now + result ≤ 131078 }
    {
        next_len(&self.stage, held, len)
    }

    /// Takes no more: the RAM stands aside.
    pub fn fail(&mut self)
        ensures { StandsAside self.old self.new }
    {
        match mem::replace(&mut self.stage, Stage::Failed) {
            Stage::Records(intake) => give_up(intake, &mut self.aside),
            Stage::Head | Stage::Failed => {}
        }
    }

    /// Reads the header, if that was not done and it is complete; returns how many bytes it has, and else 0. A refusal leaves what there is
    /// as it was.
    fn open(&mut self, bytes: &[u8]) -> Result<usize, RecvError>
        ensures { ReadsHeader self.old bytes.now result self.new }
    {
        if !self.stage.is_head() {
            return Ok(0);
        }
        let Some(heading) = read_heading_within(self.alloc, self.ram.limits, bytes)? else {
            return Ok(0);
        };
        if let Err(error) = check_fit(self.ram, &self.disks, &heading) {
            return Err(error);
        }
        let Ok(room) = Room::new(self.alloc, heading.shapes.len(), self.disks.len()) else {
            return Err(RecvError::NoMemory);
        };
        let len = heading.len;
        let Ok(intake) = new_intake(self.alloc, self.ram, &mut self.aside, &self.disks, heading)
        else {
            return Err(RecvError::NoMemory);
        };
        let (header, _) = bytes.split_at(len);
        self.digest.add(header);
        drop(mem::replace(&mut self.room, Some(room)));
        drop(mem::replace(&mut self.stage, Stage::Records(intake)));
        Ok(len)
    }

    /// Takes what is complete at the front of the bytes, which follow those that were worked off; returns how many bytes it has.
    fn look(&mut self, bytes: &[u8]) -> Result<usize, RecvError>
        ensures { Looks self.old bytes.now result self.new }
    {
        let start = match self.open(bytes) {
            Ok(start) => start,
            Err(error) => {
                self.fail();
                return Err(error);
            }
        };
        let (_, rest) = bytes.split_at(start);
        match &mut self.stage {
            Stage::Records(intake) => {
                match work_off(intake, &mut self.disks, &mut self.digest, rest) {
                    Ok(at) => Ok(start + at),
                    Err(error) => {
                        self.fail();
                        Err(error)
                    }
                }
            }
            Stage::Head => Ok(0),
            Stage::Failed => Err(RecvError::AlreadyFailed),
        }
    }

    /// Takes bytes that fit into the buffer, or any number if nothing is held. Those of complete records are not copied into it where
    /// nothing is held.
    fn take_next(&mut self, held: &mut Vec<u8>, bytes: &[u8]) -> Result<(), RecvError>
        requires room { 131078 ≤ vec_capacity held.old }
        requires fits { 0 < length held.old.items → length held.old.items + length bytes.now ≤ 131078 }
        ensures takes { TakesBytes self.old held.old.items bytes.now result self.new held.new.items }
        ensures capacity { vec_capacity held.old ≤ vec_capacity held.new }
    {
        if held.is_empty() {
            let count = self.look(bytes)?;
            let (_, rest) = bytes.split_at(count);
            held.extend_from_slice(rest).unwrap();
            return Ok(());
        }
        held.extend_from_slice(bytes).unwrap();
        let count = self.look(held)?;
        drop_front(held, count);
        Ok(())
    }

    /// Takes a piece that may complete the header or a record; returns how many bytes the record at the front of what is then held lacks. It
    /// stands apart, so that one of few bytes within a body, which is only held, costs little.
    #[inline(never)]
    pub fn take_piece(&mut self, held: &mut Vec<u8>, piece: &[u8]) -> Result<usize, RecvError>
        requires few { length held.old.items ≤ 131077 }
        ensures pieces { TakesPiece self.old held.old.items (vec_capacity held.old) piece.now result self.new held.new.items (vec_capacity held.new) }
        ensures lacks { IfOk result (λ count. 0 < count → LacksBytes self.new.stage held.new.items count) }
    {
        if self.has_failed() {
            return Err(RecvError::AlreadyFailed);
        }
        if piece.is_empty() {
            return Ok(0);
        }
        let room = RECORD_MAX - held.len();
        if held.reserve_exact(room).is_err() {
            self.fail();
            return Err(RecvError::NoMemory);
        }
        let mut rest = piece;
        while !rest.is_empty() {
            let (bytes, after) = rest.split_at(self.next_len(held, rest.len()));
            if let Err(error) = self.take_next(held, bytes) {
                return Err(error);
            }
            rest = after;
        }
        Ok(self.lacking(held))
    }
}

impl<D: Disk + Drop> Reader<D> {
    ghost use Rattle.receiver.specs.Sums.{IsOwn};

    /// For proofs: it digests.
    pub fn recall(&self)
        ensures { IsOwn self.now.digest }
    {
        let _digest = &self.digest;
    }
}

impl<D: Disk + Drop> Reader<D, Told> {
    ghost use Rattle.receiver.specs.Sums.{IsTold};

    /// For proofs: whoever feeds it digests.
    pub fn recall_told(&self)
        ensures { IsTold self.now.digest }
    {
        let _digest = &self.digest;
    }
}

/// Gives up what was taken in: its RAM stands aside.
fn give_up(intake: Intake, aside: &mut Option<ArrivingRam>)
    ensures { place_aside aside.new ≡ intake.ram.place }
{
    let Intake {
        alloc: _,
        terms: _,
        shapes: _,
        ram,
        named: _,
        firsts: _,
        bad: _,
        rounds: _,
        devices: _,
        ended: _,
    } = intake;
    *aside = Some(ram);
}

/// Removes bytes from the front.
fn drop_front(bytes: &mut Vec<u8>, count: usize)
    requires { count ≤ length bytes.old.items }
    ensures items { bytes.new.items ≡ drop count bytes.old.items }
    ensures capacity { vec_capacity bytes.new ≡ vec_capacity bytes.old }
{
    if count == 0 {
        return;
    }
    let rest = bytes.len() - count;
    bytes.as_mut_slice().copy_within(count.., 0);
    bytes.truncate(rest);
}
