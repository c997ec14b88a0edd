//! What is asked of a machine that arrives: its header is compared with it before its stream is let in.
//!
//! This is checked before the receiver, and not in it. The first bytes are copied, at most 496 of them, until the header is
//! whole; `read_heading_within` reads it from the copy, while the receiver gets each piece as it comes. So all kinds of arrival have
//! the same limits, and the clause of a piece is that of the receiver once it is let in. Sectors are limited for all disks together,
//! since that is what memory is taken for. Images, and RAM of the caller, are compared by the receiver, before a byte of them is written.

ghost use Rattle.std.specs.Prelude.{◌≡◌, ◌++◌, IfErr, IfOk, None, Some};
ghost use Rattle.c_handle.specs.Admission.{AdmitsAt, are_expected, are_same_shapes, is_same_shape, is_within, stream_refusal};
ghost use Rattle.c_handle.specs.AdmissionSeen as seen;
ghost use Rattle.c_handle.specs.Kept.{admission_of};

use crate::status::stream_status;
use c_machine::status::{STREAM_FAILED, STREAM_MISMATCH, STREAM_TOO_LARGE};
use c_machine::{count_in, has_longer_frames, largest_outside};
use guestmem::PAGE_SIZE;
use machine::{Limits, Shape, is_base};
use receiver::{RecvError, read_heading_within};
use std::alloc::Global;
use std::mem;

/// The most bytes of a header: a stream's first 496 always show what arrives, or the fault of its header.
const HEADING_MAX: usize = 496;

/// The most that a machine may have that arrives, and where its RAM begins.
#[derive(Clone, Copy)]
pub struct Allowed {
    /// Of any machine: its header is read within these limits.
    pub limits: Limits,

    /// Of pages of RAM.
    pub pages: u32,

    /// Of sectors, of all its disks together.
    pub sectors: u64,

    /// Of bytes of a frame of a network device for long ones; 0 where there may be no such device.
    pub frame: u32,

    /// Of sectors of each disk outside; 0 where there may be none.
    pub outside: u64,

    /// The guest-physical address at which RAM begins.
    pub base: u64,
}

/// Whether a stream is let in.
#[derive(Drop)]
pub enum Admission {
    /// Its header is as it has to be: of a machine of these pages and devices. Where no stream arrives there are none.
    Granted(u32, Vec<Shape>),

    /// Its header is not whole: this is allowed, these devices are expected, if any, and these are the bytes so far.
    Pending(Allowed, Vec<Shape>, Vec<u8>),

    /// It was refused, first with this status.
    Denied(u32),
}

impl Admission {
    ghost use Rattle.std.specs.Prelude.{◌≡◌, ◌↔◌, IsTrue};
    ghost use Rattle.c_handle.specs.Admission.{Admits, IsPending, first_refusal};
    ghost use Rattle.c_handle.specs.AdmissionSeen as seen;
    ghost use Rattle.c_handle.specs.Kept.{admission_of};

    /// The status with which the stream was refused first, if it was.
    pub(crate) fn refusal(&self) -> Option<u32>
        ensures { result ≡ first_refusal (admission_of self.now) }
    {
        match self {
            Admission::Denied(status) => Some(*status),
            _ => None,
        }
    }

    /// Whether the header is not whole.
    pub(crate) fn is_pending(&self) -> bool
        ensures { IsTrue result ↔ IsPending (admission_of self.now) }
    {
        match self {
            Admission::Pending(..) => true,
            _ => false,
        }
    }

    /// Whether the next piece is let in; if not, the status that says why.
    pub(crate) fn ask(&mut self, alloc: Global, piece: &[u8]) -> Option<u32>
        ensures { Admits (admission_of self.old) piece.now result (admission_of self.new) }
    {
        match self {
            Admission::Granted(..) => None,
            Admission::Pending(..) => self.compare(alloc, piece),
            Admission::Denied(_) => Some(STREAM_FAILED),
        }
    }

    /// As above, while the header is not whole.
    #[inline(never)]
    fn compare(&mut self, alloc: Global, piece: &[u8]) -> Option<u32>
        requires { IsPending (admission_of self.old) }
        ensures { Admits (admission_of self.old) piece.now result (admission_of self.new) }
    {
        let Admission::Pending(allowed, expected, held) = mem::replace(
            self,
            Admission::Denied(STREAM_FAILED),
        ) else {
            unreachable!()
        };
        match compared(alloc, allowed, expected, held, piece) {
            Ok(admission) => {
                *self = admission;
                None
            }
            Err(status) => {
                *self = Admission::Denied(status);
                Some(status)
            }
        }
    }
}

/// The admission after the next piece. No more of it is copied than may belong to the header.
fn compared(
    alloc: Global,
    allowed: Allowed,
    expected: Vec<Shape>,
    held: Vec<u8>,
    piece: &[u8],
) -> Result<Admission, u32>
    ensures let_in { IfOk result (λ next. AdmitsAt allowed expected.items (held.items ++ piece.now) None (admission_of next)) }
    ensures refused { IfErr result (λ status. AdmitsAt allowed expected.items (held.items ++ piece.now) (Some status) (seen.Denied status)) }
{
    let mut held = held;
    let few = piece.len().min(HEADING_MAX.saturating_sub(held.len()));
    let (front, _rest) = piece.split_at(few);
    if held.extend_from_slice(front).is_err() {
        return Err(stream_status(RecvError::NoMemory));
    }
    match read_heading_within(alloc, allowed.limits, &held) {
        Ok(Some(header)) => match stream_refusal(allowed, &expected, header.pages, &header.shapes) {
            Some(status) => Err(status),
            None => Ok(Admission::Granted(header.pages, header.shapes)),
        },
        Ok(None) => Ok(Admission::Pending(allowed, expected, held)),
        Err(error) => Err(stream_status(error)),
    }
}

/// Why a machine of these pages and devices is not let in, if so.
fn stream_refusal(allowed: Allowed, expected: &[Shape], pages: u32, shapes: &[Shape]) -> Option<u32>
    ensures { result ≡ stream_refusal allowed expected.now pages shapes.now }
{
    if !is_within(allowed, pages, shapes) {
        return Some(STREAM_TOO_LARGE);
    }
    let bytes = PAGE_SIZE as u64 * pages as u64;
    if !are_expected(expected, shapes) || !is_base(allowed.base, bytes) {
        return Some(STREAM_MISMATCH);
    }
    None
}

/// Whether so large a machine is allowed.
#[tactic(auto, using(crate::proofs::Admissions::counted_off, crate::proofs::Admissions::too_many))]
fn is_within(allowed: Allowed, pages: u32, shapes: &[Shape]) -> bool
    ensures { result ≡ is_within allowed pages shapes.now }
{
    if pages > allowed.pages {
        return false;
    }
    if has_longer_frames(allowed.frame, shapes) || largest_outside(shapes) > allowed.outside {
        return false;
    }
    let mut left = allowed.sectors;
    for shape in shapes {
        let sectors = count_in(*shape);
        if sectors > left {
            return false;
        }
        left -= sectors;
    }
    true
}

/// Whether the devices are those that are expected. Where none is, any are.
#[tactic(auto, using(crate::proofs::Admissions::none_expected, crate::proofs::Admissions::some_expected))]
fn are_expected(expected: &[Shape], shapes: &[Shape]) -> bool
    ensures { result ≡ are_expected expected.now shapes.now }
{
    if expected.is_empty() {
        return true;
    }
    are_same_shapes(expected, shapes)
}

#[tactic(auto, using(crate::proofs::Admissions::not_as_long, crate::proofs::Admissions::other_here, crate::proofs::Admissions::same_more, crate::proofs::Admissions::all_same))]
fn are_same_shapes(one: &[Shape], other: &[Shape]) -> bool
    ensures { result ≡ are_same_shapes one.now other.now }
{
    if one.len() != other.len() {
        return false;
    }
    for at in 0..one.len() {
        if !is_same_shape(one[at], other[at]) {
            return false;
        }
    }
    true
}

fn is_same_shape(one: Shape, other: Shape) -> bool
    ensures { result ≡ is_same_shape one other }
{
    match (one, other) {
        (Shape::Net { mac }, Shape::Net { mac: other }) => mac.as_slice() == other.as_slice(),
        (
            Shape::LongNet { mac, longest },
            Shape::LongNet {
                mac: other,
                longest: its,
            },
        ) => { longest == its && mac.as_slice() == other.as_slice() }
        (
            Shape::Block {
                sectors,
                read_only,
                id,
            },
            Shape::Block {
                sectors: count,
                read_only: only,
                id: other,
            },
        ) => sectors == count && read_only == only && id.as_slice() == other.as_slice(),
        (
            Shape::Outside {
                sectors,
                read_only,
                id,
            },
            Shape::Outside {
                sectors: its,
                read_only: only,
                id: other,
            },
        ) => sectors == its && read_only == only && id.as_slice() == other.as_slice(),
        (Shape::Console, Shape::Console) => true,
        (Shape::Entropy, Shape::Entropy) => true,
        _ => false,
    }
}
