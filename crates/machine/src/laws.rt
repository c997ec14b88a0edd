//! Laws over the definitions alone. These functions do nothing: their contracts are the laws.

mod beside;
mod outside;
mod pieces;
mod work;

ghost use Rattle.machine.specs.AppliedLaws.{HonestDisksGiveTheirs, AnyDiskActsAlike, RefusedChangesNothing};
ghost use Rattle.machine.specs.Calls.{OnlyStepsCall};
ghost use Rattle.machine.specs.PageLog.{NotedAreThese};
ghost use Rattle.machine.specs.Parked.{BackIsWritten, LentIsAfterReturn, MarkIsWritten, ParkedFlushFails, ParkedIsApplied, ParkedIsFlushed, ParkedIsRead, UnnamedIsWritten};
ghost use Rattle.machine.specs.Limits.{GreatestAllow, LimitsStay};
ghost use Rattle.machine.specs.EffectLaws.{UntouchedStays, TouchedExists, ShapeStays};
ghost use Rattle.machine.specs.StepLaws.{EffectsAgree, StepsAgree, RunsAgree, StepStaysWithin, StepKeepsShape, StepStaysSound, RefusalsChangeNothing, MalformedIsContained, MalformedAsksForReset};

pub use beside::{
    apart_is_open, applied_is_local, asking_is_publishing, beside_is_step, device_steps_are_local,
    effects_are_local, empty_is_closed, held_is_beside, held_stays_known, held_word_is_closed,
    stores_are_writes, storing_is_writes,
};
pub use outside::{answers_are_their_parts, asked_is_taken, waiting_is_idle};
pub use pieces::{touched_is_stale, untouched_devices_stay};
pub use work::{beside_is_once, idle_without_work, turn_is_steps, work_gets_on};

/// What an effect does not touch stays as it was.
pub fn untouched_stays()
    ensures { UntouchedStays }
{}

/// What an effect touches is a page or a sector of the machine.
pub fn touched_exists()
    ensures { TouchedExists }
{}

/// An effect keeps the size of RAM, the devices' shapes and the disks' sizes.
pub fn shape_stays()
    ensures { ShapeStays }
{}

/// A machine of the same shape is within the same limits.
pub fn limits_stay()
    ensures { LimitsStay }
{}

/// The greatest limits allow every sound machine.
pub fn greatest_allow()
    ensures { GreatestAllow }
{}

/// Effects of one event on one machine with one outcome are one effect.
pub fn effects_agree()
    ensures { EffectsAgree }
{}

/// Steps of one machine with one outcome are one step: they answer alike, and leave the same machine.
pub fn steps_agree()
    ensures { StepsAgree }
{}

/// Runs of one machine with the same outcomes are one run.
pub fn runs_agree()
    ensures { RunsAgree }
{}

/// The effect of a step of a sound machine lies within it: inside RAM, on sectors and a device that are there.
pub fn step_stays_within()
    ensures { StepStaysWithin }
{}

/// A step keeps the size of RAM, the devices' shapes and the disks' sizes.
pub fn step_keeps_shape()
    ensures { StepKeepsShape }
{}

/// A sound machine is sound after a step.
pub fn step_stays_sound()
    ensures { StepStaysSound }
{}

/// An event that is answered `Refused` or `NoMemory` changes nothing.
pub fn refusals_change_nothing()
    ensures { RefusalsChangeNothing }
{}

/// A malformed chain makes its own device ask for a reset, and changes nothing else.
pub fn malformed_is_contained()
    ensures { MalformedIsContained }
{}

/// A device asks for a reset exactly where it looks at a queue that is malformed and memory was not refused.
pub fn malformed_asks_for_reset()
    ensures { MalformedAsksForReset }
{}

/// An honest disk gives what it holds: an event that calls it has the effect of a step of the machine as it was.
pub fn honest_disks_give_theirs()
    ensures { HonestDisksGiveTheirs }
{}

/// Whatever bytes a disk gives, the reply is that of a step of the machine as it was, and so is the effect but for the bytes
/// that it writes.
pub fn any_disk_acts_alike()
    ensures { AnyDiskActsAlike }
{}

/// An event that is answered `Refused` or `NoMemory` leaves the machine as it was and writes into nothing, whatever its disks do.
pub fn refused_changes_nothing()
    ensures { RefusedChangesNothing }
{}

/// An event that is no step calls no disk.
pub fn only_steps_call()
    ensures { OnlyStepsCall }
{}

/// What is given back by a caller that keeps its word is what the guest would have written, page by page.
pub fn back_is_written()
    ensures { BackIsWritten }
{}

/// Where it names other pages, the machine is that one but for the versions of its pages, which no event reads.
pub fn unnamed_is_written()
    ensures { UnnamedIsWritten }
{}

/// A mark of pages is the guest's writes of these pages with the bytes that lie there.
pub fn mark_is_written()
    ensures { MarkIsWritten }
{}

/// An event that is applied while the RAM is lent is applied to the machine as it was lent, and its RAM is lent as before.
pub fn parked_is_applied()
    ensures { ParkedIsApplied }
{}

/// So it is with a flush of a disk.
pub fn parked_is_flushed()
    ensures { ParkedIsFlushed }
{}

/// So it is with a read of a sector.
pub fn parked_is_read()
    ensures { ParkedIsRead }
{}

/// So it is with a step whose flush fails in its place.
pub fn parked_flush_fails()
    ensures { ParkedFlushFails }
{}

/// An event that is applied while the RAM is lent is also, with its reply, that event of the machine after the return, whatever the guest
/// wrote meanwhile: made before the return or after it, it leaves the same machine.
pub fn lent_call_is_made_after_the_return()
    ensures { LentIsAfterReturn }
{}

/// A log of pages has the pages that it had and those that were written, and no other.
pub fn noted_are_these()
    ensures { NotedAreThese }
{}
