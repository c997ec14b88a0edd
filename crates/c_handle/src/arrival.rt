//! A machine whose stream arrives in pieces, over disks of the library or over images of the caller.
//!
//! `Receiver` wants disks at first. So where they are the library's the first bytes wait, at most 496 of them, the longest header, and so does
//! the RAM that was handed in. The rest of a piece is fed as the caller's slice.
//!
//! Images are held in each stage: a refused end gives them back (`Receiver::finish_or_back`), as a refused piece does, so a status loses no
//! image. They then hold some of the stream's sectors: the receiver writes each as it comes. That they are of other sizes than the stream's
//! disks is reported at the header's end, by the receiver (36), before a sector or a page is written.

ghost use Rattle.std.specs.Prelude.{◌≡◌, ◌++◌, IfErr, IfOk, false, length};
ghost use Rattle.machine.specs.Shapes.{disk_sizes};
ghost use Rattle.receiver.specs.Opened.{told_by};
ghost use Rattle.receiver.specs.Receiving.{place_aside};
ghost use Rattle.c_handle.specs.ArrivalSeen.{AtBody};
ghost use Rattle.c_handle.specs.Awaited.{AreSteady, GoesOnWith, IsComing, IsFed, IsFedTo, TellsOf, TellsWhy, awaited_by, awaited_place, awaited_ram, is_over};
ghost use Rattle.c_handle.specs.Headed.{AreFitting};

use c_machine::zero_disks;
use guestmem::Ram;
use machine::{DEVICES_MAX, Machine, MemDisk, Shape};
use mapped_disk::MappedDisk;
use receiver::{Own, Receiver, RecvError, Summing, Terms, read_heading_within};
use std::alloc::Global;
use std::marker::Model;
use std::mem;
use wire::FRONT_LEN;

/// The longest shape in a header: of a block device, whose kind is followed by its sectors, whether it is read-only, and its id.
const SHAPE_MAX: usize = 1 + 8 + 1 + 20;

/// The most bytes of a header: of a machine with the most devices, all of them block devices.
const HEADER_MAX: usize = FRONT_LEN + DEVICES_MAX * SHAPE_MAX;

/// How far a machine that arrives has come.
#[derive(Drop)]
pub enum Progress<S: Summing = Own> {
    /// The header is incomplete: where RAM will begin and how large the machine may be, the RAM that was handed in, and the bytes so far.
    Head(Terms, Option<Ram>, Vec<u8>),

    /// The header was read, and the disks are of its sizes.
    Body(Receiver<MemDisk, S>),

    /// The disks are images of the caller, in each stage, also after a refusal.
    Over(Receiver<MappedDisk, S>),

    /// The stream was refused.
    Failed,
}

/// A machine that has arrived, by where its disks lie.
pub enum Arrived {
    /// In memory of the library.
    Own(Machine<MemDisk>),

    /// In memory of the caller.
    Mapped(Machine<MappedDisk>),
}

/// A machine whose stream arrives in pieces, and who digests it.
#[derive(Drop)]
pub struct Arrival<S: Summing = Own> {
    pub(crate) progress: Progress<S>,
}

impl<S: Summing> Model for Arrival<S> {
    ghost use Rattle.c_handle.specs.ArrivalSeen.{ArrivalSeen};

    ghost Value = { ArrivalSeen };

    ghost use Rattle.c_handle.specs.Awaited.{IsComing, awaited_by};

    ghost view = { λ a. awaited_by a.progress };

    ghost invariant = { λ a. IsComing a.progress };
}

impl Arrival {
    ghost use Rattle.std.specs.Prelude.{◌≡◌, IfErr, IfOk, false, true};
    ghost use Rattle.c_handle.specs.Awaited.{IsAtHead, IsClosed, IsFed, RefusesUntouched, TellsOf, is_over};
    ghost use Rattle.receiver.specs.Opened.{told_by};
    ghost use Rattle.receiver.specs.Receiving.{place_aside};
    ghost use Rattle.c_handle.specs.Landing.{IsAwaitedAt};
    ghost use Rattle.c_machine.specs.Mapping.{contents};

    /// As `new`, over these images.
    pub(crate) fn over(
        alloc: Global,
        terms: Terms,
        disks: Vec<MappedDisk>,
        ram: Option<Ram>,
    ) -> Arrival
        ensures awaited { IsAwaitedAt (told_by terms ram) (place_aside ram) (contents disks.items) result }
        ensures images { is_over result ≡ true }
    {
        Arrival {
            progress: Progress::Over(Receiver::with_terms(alloc, disks, ram, terms)),
        }
    }

    /// Takes the next piece. A receiver takes it where it lies; good sectors go to the disks as they come.
    pub(crate) fn feed(&mut self, alloc: Global, piece: &[u8]) -> Result<(), RecvError>
        ensures fed { IfOk result (λ x. IsFed self.old piece.now self.new) }
        ensures refused { IfErr result (λ e. TellsOf self.old piece.now e × IsClosed self.old self.new) }
        ensures untouched { IfErr result (λ e. RefusesUntouched self.old piece.now e self.new) }
        ensures disks { is_over self.new ≡ is_over self.old }
    {
        match &mut self.progress {
            Progress::Body(receiver) => match receiver.feed(piece) {
                Ok(()) => Ok(()),
                Err(error) => {
                    drop(mem::replace(&mut self.progress, Progress::Failed));
                    Err(error)
                }
            },
            Progress::Over(receiver) => receiver.feed(piece),
            Progress::Head(..) => self.feed_head(alloc, piece),
            Progress::Failed => Err(RecvError::AlreadyFailed),
        }
    }

    /// Takes the next piece while the header is incomplete. It is a function of its own, so that a piece after the header costs nothing more.
    #[inline(never)]
    fn feed_head(&mut self, alloc: Global, piece: &[u8]) -> Result<(), RecvError>
        requires { IsAtHead self.old }
        ensures fed { IfOk result (λ x. IsFed self.old piece.now self.new) }
        ensures refused { IfErr result (λ e. TellsOf self.old piece.now e × IsClosed self.old self.new) }
        ensures untouched { IfErr result (λ e. RefusesUntouched self.old piece.now e self.new) }
        ensures disks { is_over self.new ≡ false }
    {
        let Progress::Head(terms, ram, held) = mem::replace(&mut self.progress, Progress::Failed)
        else {
            unreachable!()
        };
        match take_head(alloc, terms, ram, held, piece) {
            Ok(progress) => {
                drop(mem::replace(&mut self.progress, progress));
                Ok(())
            }
            Err(error) => Err(error),
        }
    }
}

impl<S: Summing> Arrival<S> {
    ghost use Rattle.std.specs.Prelude.{◌≡◌, ◌↔◌, IfErr, IfOk, IsTrue, MatchOption, false, length, true};
    ghost use Rattle.c_handle.specs.Awaited.{CountsRounds, HasArrived, HasSameDisks, IsAtHead, IsClosed, TellsEnd, TellsWhole, arrived_by, are_images, awaited_base, awaited_sizes, is_over, nothing_fed, ram_coming, refused_for_good};
    ghost use Rattle.receiver.specs.Opened.{told_by};
    ghost use Rattle.receiver.specs.Receiving.{place_aside};
    ghost use Rattle.c_handle.specs.Landing.{AreDisksOf};
    ghost use Rattle.c_machine.specs.Mapping.{contents};

    /// An arrival over disks of the library that was fed nothing yet, of a machine as these terms say, with this RAM, or one in memory of
    /// the library. It takes no memory.
    #[tactic(auto, using(crate::proofs::Awaited::empty_head))]
    pub(crate) fn new(alloc: Global, terms: Terms, ram: Option<Ram>) -> Arrival<S>
        ensures { result ≡ nothing_fed (told_by terms ram) (place_aside ram) }
    {
        Arrival {
            progress: Progress::Head(terms, ram, Vec::new(alloc)),
        }
    }

    /// The arrival of a stream that was refused. It takes no memory.
    pub(crate) fn failed() -> Arrival<S>
        ensures { result ≡ refused_for_good }
    {
        Arrival {
            progress: Progress::Failed,
        }
    }

    /// Whether the header is incomplete, and the bytes so far wait for it.
    pub(crate) fn is_at_head(&self) -> bool
        ensures { IsTrue result ↔ IsAtHead self.now }
    {
        match &self.progress {
            Progress::Head(..) => true,
            _ => false,
        }
    }

    /// The number of rounds that ended in the bytes fed so far.
    #[tactic(auto, using(crate::proofs::Awaited::body_counts, crate::proofs::Awaited::over_counts))]
    pub(crate) fn rounds(&self) -> u32
        ensures { CountsRounds self.now result }
    {
        match &self.progress {
            Progress::Body(receiver) => receiver.rounds(),
            Progress::Over(receiver) => receiver.rounds(),
            Progress::Head(..) | Progress::Failed => 0,
        }
    }

    /// Whether the bytes fed so far are a whole stream.
    #[tactic(auto, using(crate::proofs::Awaited::body_whole, crate::proofs::Awaited::over_whole))]
    pub(crate) fn is_whole(&self) -> bool
        ensures { TellsWhole self.now result }
    {
        match &self.progress {
            Progress::Body(receiver) => receiver.is_whole(),
            Progress::Over(receiver) => receiver.is_whole(),
            Progress::Head(..) | Progress::Failed => false,
        }
    }

    /// How many bytes the RAM has of the machine that arrives, once its header was read.
    pub(crate) fn ram_len(&self) -> Option<u64>
        ensures { result ≡ ram_coming self.now }
    {
        match &self.progress {
            Progress::Body(receiver) => receiver.ram_len(),
            Progress::Over(receiver) => receiver.ram_len(),
            Progress::Head(..) | Progress::Failed => None,
        }
    }

    /// The guest-physical address at which RAM will begin; 0 after a refusal, but over images.
    pub(crate) fn base(&self) -> u64
        ensures { result ≡ awaited_base self.now }
    {
        match &self.progress {
            Progress::Head(terms, ..) => terms.base,
            Progress::Body(receiver) => receiver.base(),
            Progress::Over(receiver) => receiver.base(),
            Progress::Failed => 0,
        }
    }

    /// The machine whose stream was fed. A refusal gives back what holds the images, which are as they were.
    pub(crate) fn finish(self) -> Result<Arrived, (RecvError, Arrival<S>)>
        ensures arrived { IfOk result (λ m. HasArrived self (arrived_by m)) }
        ensures home { IfOk result (λ m. are_images m ≡ is_over self) }
        ensures refused { IfErr result (λ x. TellsEnd self x.0 × IsClosed self x.1) }
        ensures same { IfErr result (λ x. HasSameDisks self x.1) }
        ensures disks { IfErr result (λ x. is_over x.1 ≡ is_over self) }
    {
        let Arrival { progress } = self;
        match progress {
            Progress::Head(..) => Err((RecvError::Truncated, Arrival::failed())),
            Progress::Body(receiver) => match receiver.finish() {
                Ok(machine) => Ok(Arrived::Own(machine)),
                Err(error) => Err((error, Arrival::failed())),
            },
            Progress::Over(receiver) => match receiver.finish_or_back() {
                Ok(machine) => Ok(Arrived::Mapped(machine)),
                Err((error, receiver)) => {
                    let progress = Progress::Over(receiver);
                    Err((error, Arrival { progress }))
                }
            },
            Progress::Failed => Err((RecvError::AlreadyFailed, Arrival::failed())),
        }
    }

    /// How many images it holds.
    pub(crate) fn image_count(&self) -> usize
        ensures over { is_over self.now ≡ true → result ≡ length (awaited_sizes self.now) }
        ensures own { is_over self.now ≡ false → result ≡ 0 }
    {
        match &self.progress {
            Progress::Over(receiver) => receiver.disk_count(),
            _ => 0,
        }
    }

    /// The disks over the images, if it holds any.
    pub(crate) fn into_images(self) -> Option<Vec<MappedDisk>>
        ensures disks { MatchOption result (is_over self ≡ false) (λ disks. AreDisksOf self (contents disks.items) × (length disks.items ≡ length (awaited_sizes self))) }
    {
        let Arrival { progress } = self;
        match progress {
            Progress::Over(receiver) => Some(receiver.into_disks()),
            other => {
                drop(other);
                None
            }
        }
    }
}

/// Takes the rest of a piece after the header.
fn take_body(receiver: Receiver<MemDisk>, piece: &[u8]) -> Result<Progress, RecvError>
    requires { AreSteady receiver }
    ensures coming { IfOk result (λ next. IsComing next) }
    ensures own { IfOk result (λ next. is_over (awaited_by next) ≡ false) }
    ensures fed { IfOk result (λ next. IsFed (AtBody receiver) piece.now (awaited_by next)) }
    ensures refused { IfErr result (λ e. TellsOf (AtBody receiver) piece.now e) }
{
    let mut receiver = receiver;
    match receiver.feed(piece) {
        Ok(()) => Ok(Progress::Body(receiver)),
        Err(error) => Err(error),
    }
}

/// Takes the next piece of a stream whose header is incomplete. Of a piece that completes it, only the bytes that may belong to
/// the header are copied.
fn take_head(
    alloc: Global,
    terms: Terms,
    ram: Option<Ram>,
    held: Vec<u8>,
    piece: &[u8],
) -> Result<Progress, RecvError>
    ensures coming { IfOk result (λ next. IsComing next) }
    ensures own { IfOk result (λ next. is_over (awaited_by next) ≡ false) }
    ensures ram { IfOk result (λ next. awaited_ram (awaited_by next) ≡ told_by terms ram) }
    ensures place { IfOk result (λ next. awaited_place (awaited_by next) ≡ place_aside ram) }
    ensures goes_on { IfOk result (λ next. GoesOnWith (held.items ++ piece.now) (awaited_by next)) }
    ensures refused { IfErr result (λ e. TellsWhy (told_by terms ram) (held.items ++ piece.now) e) }
{
    let mut held = held;
    let few = piece.len().min(HEADER_MAX.saturating_sub(held.len()));
    let (front, rest) = piece.split_at(few);
    if held.extend_from_slice(front).is_err() {
        return Err(RecvError::NoMemory);
    }
    match read_heading_within(alloc, terms.limits, &held) {
        Ok(Some(header)) => match begun(alloc, terms, ram, &header.shapes, &held) {
            Ok(receiver) => take_body(receiver, rest),
            Err(error) => Err(error),
        },
        Ok(None) => Ok(Progress::Head(terms, ram, held)),
        Err(error) => Err(error),
    }
}

/// A receiver over disks of zeros for these devices, and over the RAM that was handed in, which was fed the bytes.
fn begun(
    alloc: Global,
    terms: Terms,
    ram: Option<Ram>,
    shapes: &[Shape],
    bytes: &[u8],
) -> Result<Receiver<MemDisk>, RecvError>
    ensures begun { IfOk result (λ r. IsFedTo (told_by terms ram) (place_aside ram) (disk_sizes shapes.now) bytes.now r) }
    ensures refused { AreFitting terms.limits bytes.now (disk_sizes shapes.now) → IfErr result (λ e. TellsWhy (told_by terms ram) bytes.now e) }
{
    let Ok(disks) = zero_disks(alloc, shapes) else {
        return Err(RecvError::NoMemory);
    };
    let mut receiver = Receiver::with_terms(alloc, disks, ram, terms);
    match receiver.feed(bytes) {
        Ok(()) => Ok(receiver),
        Err(error) => Err(error),
    }
}
