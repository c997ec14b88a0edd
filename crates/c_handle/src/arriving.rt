//! The calls of an arrival, applied to the contents of a handle.
//!
//! Each refusal is for good, also one before the header is whole: a peer that sends on after it gets no second try. `vmig_finish` of a
//! stream that is not whole refuses it, as `Receiver::finish` takes the receiver. Out of memory on the way has a status of its own (47),
//! since nothing can be fed after it; 10 is reported only where nothing changed.

ghost use Rattle.std.specs.Prelude.{◌≡◌, IfErr, IfOk, None, Some, false};
ghost use Rattle.c_handle.specs.Admission.{first_refusal};
ghost use Rattle.c_handle.specs.Arriving.{Ends, Fed, FeedsKept, FeedsWithin, FinishesKept, FinishesState, IsArriving, feed_refusal, finish_refusal, has_more, outgrows, refused_before, taken_status, telling_finished};
ghost use Rattle.c_handle.specs.Awaited.{is_over, ram_coming, stream_status};
ghost use Rattle.c_handle.specs.Kept.{Arriving, admission_of, are_mapped, are_told, held_state, telling_of};
ghost use Rattle.c_machine.specs.Status.{done};

use crate::admission::Admission;
use crate::arrival::{Arrival, Arrived};
use crate::kept::{Contents, Held, Kept, by_state};
use crate::migrating::taken_out;
use crate::status::stream_status;
use c_machine::status::{DONE, IN_USE, NOT_ASKED, STREAM_FAILED, STREAM_TOO_LARGE, WHOLE};
use guestmem::PAGE_SIZE;
use receiver::{RecvError, Summing};
use std::alloc::Global;
use std::mem;

/// The next piece of a stream arrives.
pub fn feed(alloc: Global, kept: &mut Kept, piece: &[u8]) -> u32
    ensures { Fed (Some kept.old) piece.now result (Some kept.new) }
{
    if let Some(status) = feed_refusal(kept) {
        return status;
    }
    let status = fed(alloc, kept, piece);
    if status == DONE || status == WHOLE {
        kept.fed = kept.fed.saturating_add(piece.len() as u64);
    }
    status
}

/// Why the stream of a host that tells its digest is not fed by this call.
fn feed_refusal(kept: &Kept) -> Option<u32>
    ensures { result ≡ feed_refusal kept.now.telling kept.now.admission }
{
    match &kept.held {
        Held::ToldArriving(..) => Some(end_refusal(&kept.admission).unwrap_or(NOT_ASKED)),
        _ => None,
    }
}

#[tactic(auto, using(crate::proofs::Arrivals::fed, crate::proofs::SamePages::coming))]
pub(crate) fn fed(alloc: Global, kept: &mut Kept, piece: &[u8]) -> u32
    requires { kept.old.telling ≡ None }
    ensures feeds { FeedsKept kept.old.admission kept.old.state piece.now result kept.new.admission kept.new.state }
    ensures kind { kept.new ≡ record kept.old { state = kept.new.state; admission = kept.new.admission } }
{
    let Kept {
        held,
        admission,
        ..
    } = kept;
    by_state!(held;
        still(_) => IN_USE,
        moving(_) => IN_USE,
        lent(_) => IN_USE,
        arriving(arrival) => feed_arrival(alloc, admission, arrival, piece),
        told_arriving(_, _) => unreachable!(),
    )
}

#[tactic(auto, using(crate::proofs::Arrivals::was_denied, crate::proofs::Arrivals::was_fed, crate::proofs::Arrivals::was_not_fed))]
fn feed_arrival(
    alloc: Global,
    admission: &mut Admission,
    arrival: &mut Arrival,
    piece: &[u8],
) -> u32
    ensures feeds { FeedsWithin (admission_of admission.old) arrival.old piece.now result (admission_of admission.new) arrival.new }
    ensures disks { is_over arrival.new ≡ is_over arrival.old }
{
    if let Some(status) = admission.ask(alloc, piece) {
        return status;
    }
    match arrival.feed(alloc, piece) {
        Ok(()) => taken_status(arrival.is_whole()),
        Err(error) => {
            let status = stream_status(error);
            *admission = Admission::Denied(status);
            status
        }
    }
}

/// The status of a piece that was taken, by whether the stream has ended with it.
pub(crate) fn taken_status(whole: bool) -> u32
    ensures { result ≡ taken_status whole }
{
    if whole { WHOLE } else { DONE }
}

/// All pieces have arrived.
#[tactic(auto, using(crate::proofs::SamePages::arrived_fits))]
pub fn finish(kept: &mut Kept) -> u32
    ensures finishes { FinishesKept kept.old.places kept.old.admission kept.old.state result kept.new.admission kept.new.state }
    ensures kind { kept.new ≡ record kept.old { state = kept.new.state; admission = kept.new.admission; telling = kept.new.telling } }
    ensures telling { kept.new.telling ≡ telling_finished result kept.old.telling }
{
    if let Some(status) = finish_refusal(kept) {
        return status;
    }
    if outgrows(&kept.held, kept.asked.places) {
        kept.admission = Admission::Denied(STREAM_TOO_LARGE);
        return STREAM_TOO_LARGE;
    }
    let (next, status) = finished_in(taken_out(&mut kept.held));
    drop(mem::replace(&mut kept.held, next));
    if status != DONE {
        kept.admission = Admission::Denied(status);
    }
    status
}

/// Why no arrival is finished, if so: the handle has a machine, or the stream was refused before.
fn finish_refusal(kept: &Kept) -> Option<u32>
    ensures { result ≡ finish_refusal kept.now.admission kept.now.state }
{
    by_state!(&kept.held;
        still(_) => Some(IN_USE),
        moving(_) => Some(IN_USE),
        lent(_) => Some(IN_USE),
        arriving(_) => end_refusal(&kept.admission),
    )
}

/// Whether the machine that arrives has more pages than its log may have places. No such machine is let in (`laws::arrived_has_places`).
fn outgrows(held: &Held, places: u32) -> bool
    ensures { result ≡ outgrows places (held_state held.now) }
{
    match held {
        Held::Arriving(arrival) => has_more(arrival, places),
        Held::ToldArriving(arrival, _) => has_more(arrival, places),
        _ => false,
    }
}

fn has_more<S: Summing>(arrival: &Arrival<S>, places: u32) -> bool
    ensures { result ≡ has_more places (ram_coming arrival.now) }
{
    match arrival.ram_len() {
        Some(bytes) => bytes > PAGE_SIZE as u64 * places as u64,
        None => false,
    }
}

/// Why an arrival is not ended: its stream was refused before.
pub(crate) fn end_refusal(admission: &Admission) -> Option<u32>
    ensures { result ≡ refused_before (first_refusal (admission_of admission.now)) }
{
    match admission.refusal() {
        Some(_) => Some(STREAM_FAILED),
        None => None,
    }
}

/// The end of an arrival.
fn finished_in(held: Held) -> (Held, u32)
    requires { IsArriving (held_state held) }
    ensures ends { FinishesState (held_state held) result.1 (held_state result.0) }
    ensures kind { are_mapped result.0 ≡ are_mapped held }
    ensures told { are_told result.0 ≡ are_told held }
    ensures telling { telling_of result.0 ≡ telling_finished result.1 (telling_of held) }
{
    match held {
        Held::Arriving(arrival) => match finished(arrival) {
            Ok(held) => (held, DONE),
            Err((error, arrival)) => (Held::Arriving(arrival), stream_status(error)),
        },
        Held::ToldArriving(arrival, telling) => match finished(arrival) {
            Ok(held) => (held, DONE),
            Err((error, arrival)) => (Held::ToldArriving(arrival, telling), stream_status(error)),
        },
        _ => unreachable!(),
    }
}

fn finished<S: Summing>(arrival: Arrival<S>) -> Result<Held, (RecvError, Arrival<S>)>
    ensures arrived { IfOk result (λ held. Ends arrival done (held_state held)) }
    ensures kind { IfOk result (λ held. are_mapped held ≡ is_over arrival) }
    ensures told { IfOk result (λ held. (are_told held ≡ false) × (telling_of held ≡ None)) }
    ensures refused { IfErr result (λ x. Ends arrival (stream_status x.0) (Arriving x.1)) }
    ensures same { IfErr result (λ x. is_over x.1 ≡ is_over arrival) }
{
    match arrival.finish() {
        Ok(Arrived::Own(machine)) => Ok(Held::Own(Contents::Still(machine))),
        Ok(Arrived::Mapped(machine)) => Ok(Held::Mapped(Contents::Still(machine))),
        Err(refused) => Err(refused),
    }
}
