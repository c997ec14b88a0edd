//! The bytes of a stream whose host tells its digest, as an arrival takes them: up to the record that closes it, and that record by itself.
//!
//! While the header is incomplete they come one by one, so that no byte after it is taken with it.

ghost use Rattle.std.specs.Prelude.{◌≡◌, ◌++◌, [], IfErr, IfOk, false, length};
ghost use Rattle.machine.specs.Shapes.{disk_sizes};
ghost use Rattle.receiver.specs.Opened.{told_by};
ghost use Rattle.receiver.specs.Receiving.{place_aside};
ghost use Rattle.c_handle.specs.Awaited.{GoesOnWith, IsComing, IsFedTo, TellsWhy, awaited_by, awaited_place, awaited_ram, is_over};
ghost use Rattle.c_handle.specs.Headed.{AreFitting, EndsHeader, HasNoHeader};
ghost use Rattle.c_handle.specs.ToldArrival.{IsBefore};
ghost use Rattle.receiver.specs.Calls.{IsDue};

use crate::arrival::{Arrival, Progress};
use c_machine::zero_disks;
use guestmem::Ram;
use machine::{MemDisk, Shape};
use mapped_disk::MappedDisk;
use receiver::{Fed, Receiver, RecvError, Terms, Told, read_heading_within};
use std::alloc::Global;
use std::mem;

impl Arrival<Told> {
    ghost use Rattle.std.specs.Prelude.{◌≡◌, ◌↔◌, ℕ, List, IfErr, IfOk, IsTrue, false, length, true};
    ghost use Rattle.sha2.specs.Sha256.{sha256};
    ghost use Rattle.c_handle.specs.Awaited.{HasCome, IsAtHead, IsClosed, IsFed, RefusesUntouched, TellsOf, is_over};
    ghost use Rattle.c_handle.specs.ToldArrival.{ClosesRight, DueAfter, IsBefore, IsDueAt, MeetsRecordAt, digested};
    ghost use Rattle.receiver.specs.Opened.{told_by};
    ghost use Rattle.receiver.specs.Receiving.{place_aside};
    ghost use Rattle.c_handle.specs.Landing.{IsAwaitedAt};
    ghost use Rattle.c_machine.specs.Mapping.{contents};

    /// As `new`, over these images.
    pub(crate) fn told_over(
        alloc: Global,
        terms: Terms,
        disks: Vec<MappedDisk>,
        ram: Option<Ram>,
    ) -> Arrival<Told>
        ensures awaited { IsAwaitedAt (told_by terms ram) (place_aside ram) (contents disks.items) result }
        ensures images { is_over result ≡ true }
    {
        Arrival {
            progress: Progress::Over(Receiver::told(alloc, disks, ram, terms)),
        }
    }

    /// Whether the record that closes the stream has begun, or begins with these bytes.
    pub(crate) fn is_due(&self, rest: &[u8]) -> bool
        ensures due { IsTrue result ↔ IsDueAt self.now rest.now }
        ensures digests { IsDueAt self.now rest.now → (b : List ℕ) → HasCome self.now b → IsBefore self.now → digested self.now ≡ b }
    {
        match &self.progress {
            Progress::Body(receiver) => {
                receiver.recall_bytes();
                receiver.is_due(rest)
            }
            Progress::Over(receiver) => {
                receiver.recall_bytes();
                receiver.is_due(rest)
            }
            Progress::Head(..) | Progress::Failed => false,
        }
    }

    /// Takes the next byte, with which that record does not begin.
    pub(crate) fn feed_byte(&mut self, alloc: Global, byte: &[u8]) -> Result<(), RecvError>
        requires one { length byte.now ≡ 1 }
        requires early { ¬ (IsDueAt self.old byte.now) }
        ensures fed { IfOk result (λ x. IsFed self.old byte.now self.new) }
        ensures refused { IfErr result (λ e. TellsOf self.old byte.now e × IsClosed self.old self.new) }
        ensures untouched { IfErr result (λ e. RefusesUntouched self.old byte.now e self.new) }
        ensures before { IfOk result (λ x. (b : List ℕ) → HasCome self.old b → IsBefore self.old → IsBefore self.new) }
        ensures disks { is_over self.new ≡ is_over self.old }
    {
        match &mut self.progress {
            Progress::Head(..) => self.feed_header(alloc, byte),
            _ => match self.feed_some(byte) {
                Ok(_) => Ok(()),
                Err(error) => Err(error),
            },
        }
    }

    fn feed_header(&mut self, alloc: Global, byte: &[u8]) -> Result<(), RecvError>
        requires one { length byte.now ≡ 1 }
        requires head { IsAtHead self.old }
        ensures fed { IfOk result (λ x. IsFed self.old byte.now self.new) }
        ensures refused { IfErr result (λ e. TellsOf self.old byte.now e × IsClosed self.old self.new) }
        ensures untouched { IfErr result (λ e. RefusesUntouched self.old byte.now e self.new) }
        ensures before { IfOk result (λ x. IsBefore self.new) }
        ensures disks { is_over self.new ≡ false }
    {
        let Progress::Head(terms, ram, held) = mem::replace(&mut self.progress, Progress::Failed)
        else {
            unreachable!()
        };
        match take_byte(alloc, terms, ram, held, byte) {
            Ok(progress) => {
                drop(mem::replace(&mut self.progress, progress));
                Ok(())
            }
            Err(error) => Err(error),
        }
    }

    /// Takes the next piece, once the header is whole, as far as the record that closes the stream.
    pub(crate) fn feed_some(&mut self, piece: &[u8]) -> Result<Fed, RecvError>
        requires { ¬ (IsAtHead self.old) }
        ensures fed { IfOk result (λ fed. DueAfter self.old piece.now fed self.new) }
        ensures refused { IfErr result (λ e. TellsOf self.old piece.now e × IsClosed self.old self.new) }
        ensures untouched { IfErr result (λ e. RefusesUntouched self.old piece.now e self.new) }
        ensures disks { is_over self.new ≡ is_over self.old }
    {
        match &mut self.progress {
            Progress::Body(receiver) => match receiver.feed_some(piece) {
                Ok(fed) => {
                    receiver.recall_bytes();
                    Ok(fed)
                }
                Err(error) => {
                    drop(mem::replace(&mut self.progress, Progress::Failed));
                    Err(error)
                }
            },
            Progress::Over(receiver) => {
                let fed = receiver.feed_some(piece);
                receiver.recall_bytes();
                fed
            }
            Progress::Head(..) => unreachable!(),
            Progress::Failed => Err(RecvError::AlreadyFailed),
        }
    }

    /// Takes the next bytes of that record, with the digest that was told. Nobody knows whose it is: it is compared with that of the record.
    pub(crate) fn close(&mut self, digest: &[u8; 32], rest: &[u8]) -> Result<(), RecvError>
        requires due { IsDueAt self.old rest.now }
        ensures meets { MeetsRecordAt self.old digest.now rest.now result }
        ensures right { digest.now ≡ sha256 (digested self.old) → ClosesRight self.old rest.now result self.new }
        ensures closed { IfErr result (λ e. IsClosed self.old self.new) }
        ensures digests { IfOk result (λ x. digested self.new ≡ digested self.old) }
        ensures disks { is_over self.new ≡ is_over self.old }
    {
        match &mut self.progress {
            Progress::Body(receiver) => match receiver.close_on_trust(digest, rest) {
                Ok(()) => Ok(()),
                Err(error) => {
                    drop(mem::replace(&mut self.progress, Progress::Failed));
                    Err(error)
                }
            },
            Progress::Over(receiver) => receiver.close_on_trust(digest, rest),
            Progress::Head(..) | Progress::Failed => unreachable!(),
        }
    }
}

/// Takes the next byte of a stream whose header is incomplete.
fn take_byte(
    alloc: Global,
    terms: Terms,
    ram: Option<Ram>,
    held: Vec<u8>,
    byte: &[u8],
) -> Result<Progress<Told>, RecvError>
    requires one { length byte.now ≡ 1 }
    requires none { HasNoHeader held.items }
    ensures coming { IfOk result (λ next. IsComing next) }
    ensures own { IfOk result (λ next. is_over (awaited_by next) ≡ false) }
    ensures ram { IfOk result (λ next. awaited_ram (awaited_by next) ≡ told_by terms ram) }
    ensures place { IfOk result (λ next. awaited_place (awaited_by next) ≡ place_aside ram) }
    ensures goes_on { IfOk result (λ next. GoesOnWith (held.items ++ byte.now) (awaited_by next)) }
    ensures before { IfOk result (λ next. IsBefore (awaited_by next)) }
    ensures refused { IfErr result (λ e. TellsWhy (told_by terms ram) (held.items ++ byte.now) e) }
{
    let mut held = held;
    if held.extend_from_slice(byte).is_err() {
        return Err(RecvError::NoMemory);
    }
    match read_heading_within(alloc, terms.limits, &held) {
        Ok(Some(header)) => match begun(alloc, terms, ram, &header.shapes, &held) {
            Ok(receiver) => Ok(Progress::Body(receiver)),
            Err(error) => Err(error),
        },
        Ok(None) => Ok(Progress::Head(terms, ram, held)),
        Err(error) => Err(error),
    }
}

/// A receiver over disks of zeros for these devices, and over the RAM that was handed in, which was fed the header.
fn begun(
    alloc: Global,
    terms: Terms,
    ram: Option<Ram>,
    shapes: &[Shape],
    header: &[u8],
) -> Result<Receiver<MemDisk, Told>, RecvError>
    requires { EndsHeader header.now }
    ensures before { IfOk result (λ r. ¬ (IsDue r [])) }
    ensures begun { IfOk result (λ r. IsFedTo (told_by terms ram) (place_aside ram) (disk_sizes shapes.now) header.now r) }
    ensures refused { AreFitting terms.limits header.now (disk_sizes shapes.now) → IfErr result (λ e. TellsWhy (told_by terms ram) header.now e) }
{
    let Ok(disks) = zero_disks(alloc, shapes) else {
        return Err(RecvError::NoMemory);
    };
    let mut receiver = Receiver::told(alloc, disks, ram, terms);
    match receiver.feed_some(header) {
        Ok(_) => Ok(receiver),
        Err(error) => Err(error),
    }
}
