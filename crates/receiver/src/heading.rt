//! Reads the header of a stream, as far as it has arrived.

ghost use Rattle.std.specs.Prelude.{◌≡◌, ◌≤◌, IfOk, IfErr, IfSome, MatchOption, drop, false, is_some, length, ℕ, List};
ghost use Rattle.machine.specs.Limits.{AreWithin, usual};
ghost use Rattle.wire.specs.Header.{Begins, said};
ghost use Rattle.receiver.specs.Faults.{ShowsHeaderFault, WaitsHead, TellsHead};

use crate::recv_error::RecvError;
use machine::Limits;
use std::alloc::Global;
use wire::{Header, read_header};

/// The header at the front of the bytes, with at most sixteen shapes: what takes memory is the list of these. `None` if it is
/// incomplete, with no fault so far: no more than 495 bytes are, so the first 496 of a stream tell what arrives, or its fault. A machine
/// beyond the usual limits is a fault.
#[tactic(auto, using(crate::proofs::Heads::waits_usual, crate::proofs::Heads::told_usual, crate::proofs::Heads::within_usual))]
pub fn read_heading(alloc: Global, bytes: &[u8]) -> Result<Option<Header>, RecvError>
    ensures read { IfOk result (λ found. MatchOption found (WaitsHead usual bytes.now)
        (λ h. (h.len ≤ length bytes.now) × Begins bytes.now (said h) (drop h.len bytes.now))) }
    ensures within { IfOk result (λ found. IfSome found (λ h. AreWithin usual h.pages h.shapes.items)) }
    ensures few { IfOk result (λ found. is_some found ≡ false → length bytes.now ≤ 495) }
    ensures refused { IfErr result (λ e. TellsHead e (ShowsHeaderFault usual bytes.now e)) }
{
    read_heading_within(alloc, Limits::usual(), bytes)
}

/// As `read_heading`, within these limits.
#[tactic(auto, using(crate::proofs::Heads::waits_head, crate::proofs::Heads::told_head))]
pub fn read_heading_within(
    alloc: Global,
    limits: Limits,
    bytes: &[u8],
) -> Result<Option<Header>, RecvError>
    ensures read { IfOk result (λ found. MatchOption found (WaitsHead limits bytes.now)
        (λ h. (h.len ≤ length bytes.now) × Begins bytes.now (said h) (drop h.len bytes.now))) }
    ensures within { IfOk result (λ found. IfSome found (λ h. AreWithin limits h.pages h.shapes.items)) }
    ensures few { IfOk result (λ found. is_some found ≡ false → length bytes.now ≤ 495) }
    ensures refused { IfErr result (λ e. TellsHead e (ShowsHeaderFault limits bytes.now e)) }
{
    match read_header(alloc, limits, bytes) {
        Ok(Some(header)) => Ok(Some(header)),
        Ok(None) => Ok(None),
        Err(error) => Err(RecvError::from(error)),
    }
}
