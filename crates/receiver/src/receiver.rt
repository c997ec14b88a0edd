//! A receiver that is fed a stream in pieces.
//!
//! A receiver keeps only the bytes that it has not used. Its contract speaks of all bytes that were fed, by a relation and not
//! by a function: that there are bytes of which those before the held ones have its digest and were taken in. So no caller can
//! ask a receiver for bytes, and each clause is for all bytes that it was fed.
//!
//! It is given a RAM and not a region: whoever has the region makes the RAM, and is refused memory there, with the region back.
//! What the host says of it (`RamTerms`) is a parameter of all faults, as the sizes of the disks are.

ghost use Rattle.std.specs.Prelude.{◌≡◌, ◌∷◌, ◌<◌, ◌≤◌, ◌+◌, List, ℕ, false, length, map, true};
ghost use Rattle.wire.specs.RecordHeads.{BeginsHead, body_len, spelled_head};
ghost use Rattle.wire.specs.declared.record_head.RecordHead.{RecordHead};
ghost use Rattle.receiver.specs.Sums.{NotFive};
ghost use Rattle.receiver.specs.Disks.{disk_marks_of, sizes_of};
ghost use Rattle.receiver.specs.Receiving.{place_aside};

use crate::closing::{compare, recall};
use crate::intake::Intake;
use crate::opening::recall_disks;
use crate::ram_terms::RamTerms;
use crate::reader::Reader;
use crate::recv_error::RecvError;
use crate::stage::Stage;
use crate::summing::{Own, Summing, Told};
use crate::terms::Terms;
use guestmem::{ArrivingRam, Ram};
use machine::{Disk, Machine};
use std::alloc::Global;
use std::marker::Model;
use wire::{COMMIT_TAG, FoundHead, read_head};

/// What came of a piece that was fed to a receiver whose digest is told.
#[derive(Clone, Copy, Debug, Drop, PartialEq, Eq)]
pub struct Fed {
    /// How many of its bytes were taken.
    pub used: usize,

    /// Whether the others begin, or go on, with the record that closes the stream.
    pub is_due: bool,
}

/// A receiver that is fed a stream of a machine in any pieces. It knows the guest-physical address at which the machine's RAM begins,
/// which no stream tells.
#[derive(Drop)]
pub struct Receiver<D: Disk, S: Summing = Own> {
    reader: Reader<D, S>,
    held: Vec<u8>,

    /// How many bytes the record at the front of `held` still lacks, if its head is held (`lacking_of`).
    lacking: usize,
}

impl<D: Disk, S: Summing> Model for Receiver<D, S> {
    ghost use Rattle.std.specs.Vec.{vec_capacity};
    ghost use Rattle.receiver.specs.Receiving.{IsReceiver, Received, received_with};

    ghost Value = { Received };

    ghost view = { λ r. received_with r.reader r.held.items };

    ghost invariant = { λ r. IsReceiver r.reader r.held.items (vec_capacity r.held) r.lacking };
}

impl<D: Disk + Drop> Receiver<D> {
    ghost use Rattle.std.specs.Prelude.{◌≡◌, None, Some};
    ghost use Rattle.receiver.specs.Calls.{Feeds, IsNew};
    ghost use Rattle.receiver.specs.Opened.{given_at, ram_at, told_by};

    /// A receiver that was fed nothing, with these disks, of a machine whose RAM begins at the address 0, within the usual limits. It
    /// takes no memory.
    pub fn new(alloc: Global, disks: Vec<D>) -> Receiver<D>
        ensures { IsNew D.state disks.items (ram_at 0) None result }
    {
        Receiver::new_at(alloc, disks, 0)
    }

    /// As `new`, of a machine whose RAM begins at the guest-physical address `base`. Where no RAM of the stream's length may begin
    /// there, since it is no multiple of a page or the last byte would have no address, each device of a stream is a bad one.
    pub fn new_at(alloc: Global, disks: Vec<D>, base: u64) -> Receiver<D>
        ensures { IsNew D.state disks.items (ram_at base) None result }
    {
        Receiver::with_terms(alloc, disks, None, Terms::usual_at(base))
    }

    /// As `new`, with the RAM that the machine is to have: its pages are written straight into it. Its bytes may be anything. The
    /// stream of a machine of another number of pages is refused with `ShapeMismatch`, before a page is written.
    pub fn new_in(alloc: Global, disks: Vec<D>, ram: Ram) -> Receiver<D>
        ensures { IsNew D.state disks.items (given_at 0 ram.bytes) (Some ram) result }
    {
        Receiver::new_in_at(alloc, disks, ram, 0)
    }

    /// As `new_in`, of a machine whose RAM begins at the guest-physical address `base` (see `new_at`).
    pub fn new_in_at(alloc: Global, disks: Vec<D>, ram: Ram, base: u64) -> Receiver<D>
        ensures { IsNew D.state disks.items (given_at base ram.bytes) (Some ram) result }
    {
        Receiver::with_terms(alloc, disks, Some(ram), Terms::usual_at(base))
    }

    /// A receiver that was fed nothing, with these disks, and the RAM that the machine is to have, if the host has one (see `new_in`), of a
    /// machine as these terms say. It takes no memory.
    pub fn with_terms(alloc: Global, disks: Vec<D>, ram: Option<Ram>, terms: Terms) -> Receiver<D>
        ensures { IsNew D.state disks.items (told_by terms ram) ram result }
    {
        Receiver::made(alloc, disks, ram, terms)
    }

    /// Takes the next piece. The good sectors in it are written to the disks. `DiskFailed` is returned exactly if a
    /// disk failed. After the header `NoMemory` is returned only with the last byte of a device's record. Before a header for these
    /// disks and this RAM is whole, and where memory for what it says is refused, no disk is written, and no page of the RAM.
    pub fn feed(&mut self, piece: &[u8]) -> Result<(), RecvError>
        ensures { Feeds self.old piece.now result self.new }
    {
        self.reader.recall();
        self.feed_clear(piece)
    }
}

impl<D: Disk + Drop, S: Summing> Receiver<D, S> {
    ghost use Rattle.std.specs.Prelude.{◌≡◌, ◌++◌, ◌<◌, ◌+◌, ℕ, List, ◌≤◌, IfSome, None, OnOk, length, map, take, true, false};
    ghost use Rattle.receiver.specs.Calls.{Feeds, Finishes, FinishesOrBack, IsDue, IsNew};
    ghost use Rattle.receiver.specs.Disks.{sizes_of};
    ghost use Rattle.receiver.specs.Opened.{given_at, ram_at, told_by};
    ghost use Rattle.receiver.specs.Sums.{IsClear, SaysOn};
    ghost use Rattle.receiver.specs.Receiving.{HasBeenFed, HasRounds, IsGivenUp, IsPastHead, IsTaken, IsWholeFor, has_ended, length_aside, ram_len_in};

    /// As `with_terms`, whoever digests.
    fn made(alloc: Global, disks: Vec<D>, ram: Option<Ram>, terms: Terms) -> Receiver<D, S>
        ensures { IsNew D.state disks.items (told_by terms ram) ram result }
    {
        let Terms { base, limits } = terms;
        match ram {
            None => Receiver::reading(
                alloc,
                disks,
                RamTerms {
                    base,
                    len: None,
                    limits,
                },
                None,
            ),
            Some(ram) => {
                let len = Some(ram.len());
                Receiver::reading(
                    alloc,
                    disks,
                    RamTerms { base, len, limits },
                    Some(ArrivingRam::over(ram)),
                )
            }
        }
    }

    /// As `with_terms`, where the RAM stands aside.
    fn reading(
        alloc: Global,
        disks: Vec<D>,
        ram: RamTerms,
        aside: Option<ArrivingRam>,
    ) -> Receiver<D, S>
        requires { ram.len ≡ length_aside aside }
        ensures { IsNew D.state disks.items ram aside result }
    {
        Receiver {
            reader: Reader::new(alloc, disks, ram, aside),
            held: Vec::new(alloc),
            lacking: 0,
        }
    }

    /// The guest-physical address at which the machine's RAM is to begin.
    pub fn base(&self) -> u64
        ensures { result ≡ self.now.ram.base }
    {
        self.reader.base()
    }

    /// Takes the next piece, in which the digest comes only where it can be compared.
    fn feed_clear(&mut self, piece: &[u8]) -> Result<(), RecvError>
        requires clear { (b : List ℕ) → IsTaken self.old.ram self.old.disks self.old.digest b self.old.held self.old.stage → IsClear self.old.digest self.old.ram self.old.sizes (b ++ piece.now) }
        ensures feeds { Feeds self.old piece.now result self.new }
        ensures says { OnOk result (SaysOn self.old.digest self.new.digest) }
        ensures shorter { OnOk result (length self.new.held ≤ length self.old.held + length piece.now) }
    {
        if piece.len() < self.lacking {
            self.held.extend_from_slice(piece).unwrap();
            self.lacking -= piece.len();
            return Ok(());
        }
        self.lacking = 0;
        match self.reader.take_piece(&mut self.held, piece) {
            Ok(lacking) => {
                self.lacking = lacking;
                Ok(())
            }
            Err(error) => {
                self.held.clear();
                Err(error)
            }
        }
    }

    /// How many of the bytes that come next can be taken before the record of the digest begins: none only where it does.
    fn clear_len(&self, rest: &[u8]) -> usize
        requires some { 0 < length rest.now }
        requires goes_on { has_ended self.now.stage ≡ false }
        ensures within { result ≤ length rest.now }
        ensures clear { 0 < result → (b : List ℕ) → IsTaken self.now.ram self.now.disks self.now.digest b self.now.held self.now.stage → IsClear self.now.digest self.now.ram self.now.sizes (b ++ take result rest.now) }
        ensures due { result ≡ 0 → IsDue self.now rest.now }
    {
        if !self.reader.reads() {
            return 1;
        }
        if begins_digest(&self.held) {
            return 0;
        }
        if 0 < self.lacking {
            return self.lacking.min(rest.len());
        }
        if !self.held.is_empty() {
            return 1;
        }
        record_len(rest).min(rest.len())
    }

    /// Takes no more.
    fn give_up(&mut self)
        ensures { IsGivenUp self.old self.new }
    {
        self.reader.fail();
        self.held.clear();
        self.lacking = 0;
    }

    /// The number of bytes that are held: those that were fed since the end of the last whole header or record.
    pub fn held(&self) -> u64
        ensures held { result ≡ length self.now.held }
        ensures few { result ≤ 131077 }
        ensures failed { self.now.failed ≡ true → result ≡ 0 }
    {
        self.held.len() as u64
    }

    /// How many rounds ended in what was read.
    pub fn rounds(&self) -> u32
        ensures failed { self.now.failed ≡ true → result ≡ 0 }
        ensures rounds { (b : List ℕ) → HasBeenFed self.now b → HasRounds self.now.ram self.now.sizes b result }
    {
        self.reader.rounds()
    }

    /// Whether the whole stream was fed: the digest, its last record, was read, and nothing was refused. From then on any further
    /// byte is refused (`Trailing`), and `finish` returns the machine.
    pub fn is_whole(&self) -> bool
        ensures whole { result ≡ true → (b : List ℕ) → HasBeenFed self.now b → IsWholeFor self.now.ram self.now.sizes b }
        ensures lacking { result ≡ false → (b : List ℕ) → HasBeenFed self.now b → ¬ (IsWholeFor self.now.ram self.now.sizes b) }
        ensures failed { self.now.failed ≡ true → result ≡ false }
    {
        self.reader.has_ended()
    }

    /// The machine whose stream was fed. A refusal drops the disks, and the RAM.
    ///
    /// An `Ok` says of any disks that the bytes are a whole stream for them: a header for these disks, whole good records that
    /// name every item and have every device, the digest of all of them, and nothing more. RAM, the devices and which sectors are
    /// bad are then those of the machine that was sent; what the good sectors hold is, where the disks are honest. It takes no
    /// memory, and `Truncated` is never returned for a whole stream (see `is_whole`).
    ///
    /// It flushes no disk, so what was written to the disks may not be durable yet. A host finishes, brings each disk to its
    /// storage (`Machine::flush_disk`), also the folder of a file that it made, and only then tells the source that all is there.
    /// Where that fails the machine does not run here, and the source continues.
    pub fn finish(self) -> Result<Machine<D>, RecvError>
        ensures { Finishes self result }
    {
        match self.finish_or_back() {
            Ok(machine) => Ok(machine),
            Err((error, receiver)) => {
                drop(receiver);
                Err(error)
            }
        }
    }

    /// As `finish`, but a refusal gives a receiver back that takes no more, with the disks and the RAM.
    pub fn finish_or_back(self) -> Result<Machine<D>, (RecvError, Receiver<D, S>)>
        ensures { FinishesOrBack self result }
    {
        let Receiver {
            reader,
            held,
            lacking: _,
        } = self;
        drop(held);
        let Reader {
            alloc,
            ram: terms,
            disks,
            aside,
            room,
            digest,
            stage,
        } = reader;
        drop(digest);
        recall_disks(&disks);
        match stage {
            Stage::Records(intake) => {
                if !intake.ended {
                    return Err((
                        RecvError::Truncated,
                        given_up(alloc, terms, disks, Some(intake.ram)),
                    ));
                }
                let Intake {
                    alloc: _,
                    terms: _,
                    shapes,
                    ram,
                    named: _,
                    firsts: _,
                    bad,
                    rounds: _,
                    devices,
                    ended: _,
                } = intake;
                ram.recall();
                let ram = ram.into_ram();
                let room = room.unwrap();
                Ok(Machine::restore_in(room, ram, shapes, devices, disks, bad))
            }
            Stage::Failed => Err((
                RecvError::AlreadyFailed,
                given_up(alloc, terms, disks, aside),
            )),
            Stage::Head => Err((RecvError::Truncated, given_up(alloc, terms, disks, aside))),
        }
    }

    /// How many bytes the RAM has of the machine that arrives, and that `finish` returns. None until the header was read, and after a
    /// refusal.
    pub fn ram_len(&self) -> Option<u64>
        ensures { result ≡ ram_len_in self.now.stage }
    {
        self.reader.ram_len()
    }

    /// How many disks it has.
    pub fn disk_count(&self) -> usize
        ensures { result ≡ length self.now.sizes }
    {
        self.reader.disk_count()
    }

    /// The disks. What they hold of a stream that is not whole is some of its sectors.
    pub fn into_disks(self) -> Vec<D>
        ensures disks { map D.state result.items ≡ self.disks }
        ensures sizes { sizes_of D.state result.items ≡ self.sizes }
    {
        let (disks, _) = self.into_parts();
        disks
    }

    /// The disks, and the RAM that it was given or has taken for itself. What it holds of a stream that is not whole is some of its
    /// pages; until the header is whole, what it held.
    pub fn into_parts(self) -> (Vec<D>, Option<Ram>)
        ensures disks { map D.state result.0.items ≡ self.disks }
        ensures sizes { sizes_of D.state result.0.items ≡ self.sizes }
        ensures ram { IfSome result.1 (λ ram. ram.place ≡ self.place) }
        ensures none { result.1 ≡ None → self.place ≡ None }
        ensures aside { ¬ (IsPastHead self.stage) → result.1 ≡ self.aside }
    {
        let Receiver {
            mut reader,
            held,
            lacking: _,
        } = self;
        drop(held);
        reader.fail();
        let Reader {
            alloc: _,
            ram: _,
            disks,
            aside,
            room,
            digest,
            stage,
        } = reader;
        drop(digest);
        drop(room);
        drop(stage);
        match aside {
            Some(ram) => (disks, Some(ram.into_ram())),
            None => (disks, None),
        }
    }
}

impl<D: Disk + Drop> Receiver<D, Told> {
    ghost use Rattle.std.specs.Prelude.{◌≡◌, ◌++◌, ◌↔◌, IsTrue, OnOk, length, take};
    ghost use Rattle.sha2.specs.Sha256.{sha256};
    ghost use Rattle.guestmem.specs.Number.{IsBytes};
    ghost use Rattle.receiver.specs.Closing.{ClosesOnTrust, Finds};
    ghost use Rattle.receiver.specs.Calls.{Feeds, FeedsSome, IsDue, IsNew};
    ghost use Rattle.receiver.specs.Opened.{told_by};
    ghost use Rattle.receiver.specs.Receiving.{HasBeenFed, has_ended};
    ghost use Rattle.receiver.specs.Sums.{past_of};

    /// As `with_terms`, of a receiver that digests nothing: whoever feeds it does, and tells the digest where it is due (`close`).
    pub fn told(alloc: Global, disks: Vec<D>, ram: Option<Ram>, terms: Terms) -> Receiver<D, Told>
        ensures { IsNew D.state disks.items (told_by terms ram) ram result }
    {
        Receiver::made(alloc, disks, ram, terms)
    }

    /// Takes the next piece as far as the record that closes the stream, of which it takes nothing. A fault is told as by `feed`.
    pub fn feed_some(&mut self, piece: &[u8]) -> Result<Fed, RecvError>
        ensures { FeedsSome self.old piece.now result self.new }
    {
        if self.reader.has_failed() {
            return Err(RecvError::AlreadyFailed);
        }
        let mut used = 0;
        while used < piece.len() {
            let (_, rest) = piece.split_at(used);
            if self.reader.has_ended() {
                self.give_up();
                return Err(RecvError::Trailing);
            }
            let count = self.clear_len(rest);
            if count == 0 {
                self.reader.recall_told();
                return Ok(Fed { used, is_due: true });
            }
            let (bytes, _) = rest.split_at(count);
            if let Err(error) = self.feed_clear(bytes) {
                return Err(error);
            }
            used += count;
        }
        self.reader.recall_told();
        Ok(Fed {
            used,
            is_due: false,
        })
    }

    /// For proofs: which bytes were fed, until the stream is whole. So whoever fed them knows that it has the digest that `close` asks for.
    pub fn recall_bytes(&self)
        ensures { has_ended self.now.stage ≡ false → (b : List ℕ) → HasBeenFed self.now b → b ≡ past_of self.now.digest ++ self.now.held }
    {
        self.reader.recall_told();
    }

    /// Whether the record that closes the stream has begun, or begins with these bytes: then they are for `close`, and `feed_some` takes none
    /// of them.
    pub fn is_due(&self, rest: &[u8]) -> bool
        ensures { IsTrue result ↔ IsDue self.now rest.now }
    {
        if !self.reader.reads() || self.reader.has_ended() {
            return false;
        }
        if self.held.is_empty() {
            return begins_digest(rest);
        }
        begins_digest(&self.held)
    }

    /// Takes the record that closes the stream, or the next bytes of it, with the digest of all bytes that were fed but for those that are
    /// held. A record that comes in parts is closed by as many calls, each with the same digest. Another digest than the record's is
    /// `BadDigest`.
    pub fn close(&mut self, digest: &[u8; 32], rest: &[u8]) -> Result<(), RecvError>
        requires due { IsDue self.old rest.now }
        requires digest { digest.now ≡ sha256 (past_of self.old.digest) }
        ensures { Feeds self.old rest.now result self.new }
    {
        self.close_on_trust(digest, rest)
    }

    /// As `close`, for a caller who cannot prove whose digest it is. It is compared with that of the record, and with no other: whoever tells
    /// the record's own has the stream accepted, whatever it is. Of the bytes of such a stream nothing is promised.
    pub fn close_on_trust(&mut self, digest: &[u8; 32], rest: &[u8]) -> Result<(), RecvError>
        requires due { IsDue self.old rest.now }
        ensures { ClosesOnTrust self.old digest.now rest.now result self.new }
    {
        self.reader.recall_told();
        recall(rest);
        let closes = match self.find_end(digest, rest) {
            Ok(closes) => closes,
            Err(error) => {
                self.give_up();
                return Err(error);
            }
        };
        self.lacking = 0;
        if closes {
            self.held.clear();
            self.reader.end();
            return Ok(());
        }
        self.held.extend_from_slice(rest).unwrap();
        Ok(())
    }

    /// Whether the record that closes the stream is whole with these bytes; or why it is refused.
    fn find_end(&self, digest: &[u8; 32], rest: &[u8]) -> Result<bool, RecvError>
        requires due { IsDue self.now rest.now }
        ensures bytes { IsBytes self.now.held }
        ensures finds { Finds self.now.stage digest.now (self.now.held ++ rest.now) result }
    {
        recall(&self.held);
        if !self.reader.may_end() {
            return Err(RecvError::Missing);
        }
        compare(&self.held, rest, digest)
    }
}

/// How many bytes the record has with which these begin, as far as its head is whole, and else one; none for that of the digest.
fn record_len(rest: &[u8]) -> usize
    requires { 0 < length rest.now }
    ensures due { result ≡ 0 → (more : List ℕ) × (rest.now ≡ 5 ∷ more) }
    ensures other { 0 < result → NotFive rest.now }
    ensures within { 1 < result → (head : RecordHead) × BeginsHead rest.now head × (result ≤ length (spelled_head head) + body_len head) }
{
    if begins_digest(rest) {
        return 0;
    }
    match read_head(rest) {
        FoundHead::Whole(head) => head.head_len() + head.body_len(),
        _ => 1,
    }
}

/// Whether the bytes begin with the record of the digest.
fn begins_digest(bytes: &[u8]) -> bool
    ensures begins { result ≡ true → (more : List ℕ) × (bytes.now ≡ 5 ∷ more) }
    ensures other { result ≡ false → NotFive bytes.now }
{
    match bytes.split_first() {
        Some((tag, _)) => *tag == COMMIT_TAG,
        None => false,
    }
}

/// A receiver that was refused, with these disks, and this RAM aside. It takes no memory.
fn given_up<D: Disk, S: Summing>(
    alloc: Global,
    ram: RamTerms,
    disks: Vec<D>,
    aside: Option<ArrivingRam>,
) -> Receiver<D, S>
    ensures ram { result.ram ≡ ram }
    ensures failed { result.failed ≡ true }
    ensures disks { result.disks ≡ map D.state disks.items }
    ensures sizes { result.sizes ≡ sizes_of D.state disks.items }
    ensures marks { result.marks ≡ disk_marks_of D.state disks.items }
    ensures aside { result.aside ≡ aside }
    ensures place { result.place ≡ place_aside aside }
{
    let reader = Reader {
        alloc,
        ram,
        disks,
        aside,
        room: None,
        digest: S::none(),
        stage: Stage::Failed,
    };
    Receiver {
        reader,
        held: Vec::new(alloc),
        lacking: 0,
    }
}
