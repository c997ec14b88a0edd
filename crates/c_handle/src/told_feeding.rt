//! A stream arrives whose digest its host tells.
//!
//! It is taken in parts, each as `feed` takes a piece: byte by byte until the header is whole, and then as far as the record that closes the
//! stream. That record is taken with the digest in hand, and compared with it.

ghost use Rattle.std.specs.Prelude.{◌≡◌, ◌≤◌, IfSome, None, Some, length};
ghost use Rattle.c_handle.specs.Admission.{first_refusal};
ghost use Rattle.c_handle.specs.AdmissionSeen.{Denied};
ghost use Rattle.c_handle.specs.Arriving.{or_else, refused_before};
ghost use Rattle.c_handle.specs.Awaited.{is_over, stream_status};
ghost use Rattle.c_handle.specs.ToldArrival.{IsDueAt};
ghost use Rattle.c_handle.specs.Kept.{admission_of};
ghost use Rattle.c_handle.specs.ToldFeeding.{ClosesTold, DoesFeedSome, DoesTell, FeedsFront, FeedsSomeKept, FeedsTold, IsPast, RefusesPart, TakesPart, TellsDigest, not_due, telling_at};

use crate::admission::Admission;
use crate::arrival::Arrival;
use crate::arriving::{end_refusal, fed, taken_status};
use crate::kept::{Held, Kept, by_state};
use crate::status::stream_status;
use c_machine::status::{DIGEST_DUE, DONE, IN_USE, NOT_ASKED, WHOLE};
use receiver::{RecvError, Told};
use std::alloc::Global;

/// What is known of the digest.
#[derive(Clone, Copy)]
pub enum Telling {
    /// The record that closes the stream has not come, as far as is known.
    NotDue,

    /// It comes next.
    Due,

    /// The host told it.
    InHand([u8; 32]),
}

/// What became of a piece: its status, and how many of its bytes were taken, unless it was refused.
#[derive(Clone, Copy)]
pub struct SomeFed {
    pub status: u32,
    pub used: usize,
}

/// The next bytes of a stream arrive: all of the piece, or those before the record that closes the stream, where its host tells the digest.
pub fn feed_some(alloc: Global, kept: &mut Kept, piece: &[u8], used: &mut usize) -> u32
    ensures { DoesFeedSome kept.old piece.now result used.new used.old (Some kept.new) }
{
    let fed = fed_some(alloc, kept, piece);
    if fed.status == DONE || fed.status == WHOLE || fed.status == DIGEST_DUE {
        kept.fed = kept.fed.saturating_add(fed.used as u64);
        *used = fed.used;
    }
    fed.status
}

fn fed_some(alloc: Global, kept: &mut Kept, piece: &[u8]) -> SomeFed
    ensures feeds { FeedsSomeKept kept.old.telling kept.old.admission kept.old.state piece.now result.status result.used kept.new.admission kept.new.state kept.new.telling }
    ensures kind { kept.new ≡ record kept.old { state = kept.new.state; admission = kept.new.admission; telling = kept.new.telling } }
{
    if let Held::ToldArriving(arrival, telling) = &mut kept.held {
        return feed_told(alloc, &mut kept.admission, arrival, telling, piece);
    }
    SomeFed {
        status: fed(alloc, kept, piece),
        used: piece.len(),
    }
}

fn refused(status: u32) -> SomeFed
    ensures status { result.status ≡ status }
    ensures none { result.used ≡ 0 }
{
    SomeFed { status, used: 0 }
}

fn feed_told(
    alloc: Global,
    admission: &mut Admission,
    arrival: &mut Arrival<Told>,
    telling: &mut Telling,
    piece: &[u8],
) -> SomeFed
    ensures feeds { FeedsTold (admission_of admission.old) arrival.old telling.old piece.now result.status result.used (admission_of admission.new) arrival.new telling.new }
    ensures disks { is_over arrival.new ≡ is_over arrival.old }
{
    if let Telling::InHand(digest) = telling {
        if arrival.is_due(piece) {
            return SomeFed {
                status: close(alloc, admission, arrival, digest, piece),
                used: piece.len(),
            };
        }
    }
    let fed = feed_front(alloc, admission, arrival, piece);
    if !piece.is_empty() {
        *telling = telling_at(fed.status);
    }
    fed
}

fn telling_at(status: u32) -> Telling
    ensures { result ≡ telling_at status }
{
    if status == DIGEST_DUE {
        Telling::Due
    } else {
        Telling::NotDue
    }
}

/// Takes the record that closes the stream, or its next bytes, by the digest that was told.
fn close(
    alloc: Global,
    admission: &mut Admission,
    arrival: &mut Arrival<Told>,
    digest: &[u8; 32],
    piece: &[u8],
) -> u32
    requires due { IsDueAt arrival.old piece.now }
    ensures closes { ClosesTold (admission_of admission.old) arrival.old digest.now piece.now result (admission_of admission.new) arrival.new }
    ensures disks { is_over arrival.new ≡ is_over arrival.old }
{
    if let Some(status) = admission.ask(alloc, piece) {
        return status;
    }
    match arrival.close(digest, piece) {
        Ok(()) => taken_status(arrival.is_whole()),
        Err(error) => denied(admission, error),
    }
}

fn denied(admission: &mut Admission, error: RecvError) -> u32
    ensures status { result ≡ stream_status error }
    ensures denied { admission_of admission.new ≡ Denied result }
{
    let status = stream_status(error);
    *admission = Admission::Denied(status);
    status
}

/// Takes the bytes of a piece before that record.
fn feed_front(
    alloc: Global,
    admission: &mut Admission,
    arrival: &mut Arrival<Told>,
    piece: &[u8],
) -> SomeFed
    ensures feeds { FeedsFront (admission_of admission.old) arrival.old piece.now result.status result.used (admission_of admission.new) arrival.new }
    ensures disks { is_over arrival.new ≡ is_over arrival.old }
{
    if let Some(status) = end_refusal(admission) {
        return refused(status);
    }
    let mut used = 0;
    while used < piece.len() && (admission.is_pending() || arrival.is_at_head()) {
        let (_, rest) = piece.split_at(used);
        let (byte, _) = rest.split_at(1);
        if arrival.is_due(byte) {
            return SomeFed {
                status: DIGEST_DUE,
                used,
            };
        }
        if let Some(status) = feed_byte(alloc, admission, arrival, byte) {
            return refused(status);
        }
        used += 1;
    }
    let (_, rest) = piece.split_at(used);
    let fed = feed_rest(admission, arrival, rest);
    SomeFed {
        status: fed.status,
        used: used + fed.used,
    }
}

/// Takes a byte while the header is incomplete.
fn feed_byte(
    alloc: Global,
    admission: &mut Admission,
    arrival: &mut Arrival<Told>,
    byte: &[u8],
) -> Option<u32>
    requires one { length byte.now ≡ 1 }
    requires early { ¬ (IsDueAt arrival.old byte.now) }
    ensures taken { result ≡ None → TakesPart (admission_of admission.old) arrival.old byte.now (admission_of admission.new) arrival.new }
    ensures refused { IfSome result (λ status. RefusesPart (admission_of admission.old) arrival.old byte.now status (admission_of admission.new) arrival.new) }
    ensures disks { is_over arrival.new ≡ is_over arrival.old }
{
    if let Some(status) = admission.ask(alloc, byte) {
        return Some(status);
    }
    match arrival.feed_byte(alloc, byte) {
        Ok(()) => None,
        Err(error) => Some(denied(admission, error)),
    }
}

/// Takes what comes after the header.
fn feed_rest(admission: &mut Admission, arrival: &mut Arrival<Told>, rest: &[u8]) -> SomeFed
    requires let_in { IsPast (admission_of admission.old) arrival.old rest.now }
    ensures within { result.used ≤ length rest.now }
    ensures feeds { FeedsFront (admission_of admission.old) arrival.old rest.now result.status result.used (admission_of admission.new) arrival.new }
    ensures disks { is_over arrival.new ≡ is_over arrival.old }
{
    if arrival.is_due(rest) {
        return SomeFed {
            status: DIGEST_DUE,
            used: 0,
        };
    }
    if rest.is_empty() {
        return SomeFed {
            status: taken_status(arrival.is_whole()),
            used: 0,
        };
    }
    match arrival.feed_some(rest) {
        Ok(fed) if fed.is_due => SomeFed {
            status: DIGEST_DUE,
            used: fed.used,
        },
        Ok(fed) => SomeFed {
            status: taken_status(arrival.is_whole()),
            used: fed.used,
        },
        Err(error) => refused(denied(admission, error)),
    }
}

/// The host tells the digest of all bytes that were taken.
pub fn feed_tell(kept: &mut Kept, digest: &[u8; 32]) -> u32
    ensures { DoesTell kept.old digest.now result (Some kept.new) }
{
    let Kept {
        held,
        admission,
        ..
    } = kept;
    by_state!(held;
        still(_) => IN_USE,
        moving(_) => IN_USE,
        lent(_) => IN_USE,
        arriving(_) => match end_refusal(admission) {
            Some(status) => status,
            None => NOT_ASKED,
        },
        told_arriving(_, telling) => told(admission, telling, digest),
    )
}

fn told(admission: &Admission, telling: &mut Telling, digest: &[u8; 32]) -> u32
    ensures { TellsDigest (admission_of admission.now) telling.old digest.now result telling.new }
{
    if let Some(status) = telling_refusal(admission, *telling) {
        return status;
    }
    *telling = Telling::InHand(*digest);
    DONE
}

/// Why no digest is taken, if so: the stream was refused before, or the digest is not due.
fn telling_refusal(admission: &Admission, telling: Telling) -> Option<u32>
    ensures { result ≡ or_else (refused_before (first_refusal (admission_of admission.now))) (not_due (Some telling)) }
{
    if let Some(status) = end_refusal(admission) {
        return Some(status);
    }
    match telling {
        Telling::Due => None,
        _ => Some(NOT_ASKED),
    }
}
