//! The command `resume`: a machine arrives from a stream, and continues.
//!
//! The trace is looked at first, its file and its lines, then the image, then the stream. A stream that is its own image is
//! refused. The image is not synced at the end.

ghost use Rattle.std.specs.Prelude.{◌≡◌, IfOk, IfErr, OnOk, None, map};
ghost use Rattle.machine.specs.First.{dealt_marks};
ghost use Rattle.machine.specs.Applied.{AreApplied};
ghost use Rattle.machine.specs.Run.{IsRun};
ghost use Rattle.machine.specs.Outcome.{outcome_of};
ghost use Rattle.machine.specs.Seen.{AreHonest, Seen, all_marks, state_of};
ghost use Rattle.receiver.specs.Disks.{AreHonestDisks, disk_marks_of, sizes_of};
ghost use Rattle.wire.specs.Stream.{shapes_in};
ghost use Rattle.vmig.specs.Output.{FailsOnFile, HasDoneFile, HasWritten, RunFails, Silently};
ghost use Rattle.vmig.specs.Resuming.{AreResumed, AreResumedOver, AreResumedOverImage, HasArrived, HasArrivedOver, TellsOfArrival, TellsOfResuming, TellsOfStreamOver};
ghost use Rattle.machine.specs.State.{MachineState};
ghost use Rattle.vmig.specs.Words.{name_in};
ghost use Rattle.vmig.specs.declared.fault.Fault.TheVariants as faults;

use crate::allowing::program_terms;
use crate::fault::Fault;
use crate::feeding::{read_front, receive_rest};
use crate::output::{open_apart, read_file, write_all};
use crate::playing::image_disks;
use machine::{Disk, Event, Machine, MemDisk, Reply};
use receiver::Receiver;
use std::io::Write;
use std::rt::Files;
use traces::parse_events;

/// What arrives: the file of a stream, the image of its disk or none, and whether its disks may be outside.
#[derive(Clone, Copy)]
pub struct Arrival<'a> {
    pub stream: &'a str,
    pub image: Option<&'a str>,
    pub outside: bool,
}

/// Receives the machine of a stream, and plays the trace in the file of this name on it.
pub fn resume_trace<'a, R: Files + AllocGlobal, O: Write>(
    rt: &R,
    arrival: Arrival<'a>,
    name: &'a str,
    out: &mut O,
) -> Result<(), Fault<'a>>
    ensures done { OnOk result (HasDoneFile (λ text. Silently (AreResumedOver arrival.entry.outside (name_in arrival.entry.image) text)) (O.contents out.old) (O.contents out.new)) }
    ensures failed { IfErr result (FailsOnFile name.entry.now (TellsOfResuming arrival.entry.outside (name_in arrival.entry.image) arrival.entry.stream.now) (λ text. Silently (AreResumedOver arrival.entry.outside (name_in arrival.entry.image) text)) (O.contents out.old) (O.contents out.new)) }
{
    let text = read_file(rt, name)?;
    resume_text(rt, arrival, text.as_slice(), out)
}

/// Receives the machine of a stream, plays events on it, and writes the line of each reply.
fn resume_text<'a, R: Files + AllocGlobal, O: Write>(
    rt: &R,
    arrival: Arrival<'a>,
    text: &[u8],
    out: &mut O,
) -> Result<(), Fault<'a>>
    ensures done { OnOk result (HasWritten (AreResumedOver arrival.entry.outside (name_in arrival.entry.image) text.now) (O.contents out.old) (O.contents out.new)) }
    ensures failed { IfErr result (RunFails (TellsOfResuming arrival.entry.outside (name_in arrival.entry.image) arrival.entry.stream.now text.now) (Silently (AreResumedOver arrival.entry.outside (name_in arrival.entry.image) text.now)) (O.contents out.old) (O.contents out.new)) }
{
    let events = parse_events(rt.alloc(), text)?;
    let replies = replies_over(rt, arrival, events.as_slice())?;
    write_all(replies.as_slice(), out)?;
    Ok(())
}

/// The replies of the machine of a stream to these events, over the image of a disk or over none.
fn replies_over<'a, R: Files + AllocGlobal>(
    rt: &R,
    arrival: Arrival<'a>,
    events: &[Event],
) -> Result<Vec<Reply>, Fault<'a>>
    ensures answered { IfOk result (λ replies. AreResumedOverImage arrival.entry.outside events.now replies.items) }
    ensures played { arrival.entry.image ≡ None → IfOk result (λ replies. AreResumed arrival.entry.outside events.now replies.items) }
    ensures failed { IfErr result (TellsOfStreamOver arrival.entry.outside (name_in arrival.entry.image) arrival.entry.stream.now) }
{
    let Some(name) = arrival.image else {
        let none: Vec<MemDisk> = Vec::new(rt.alloc());
        return replies_to(rt, arrival, events, none);
    };
    let disks = image_disks(rt, name)?;
    replies_to(rt, arrival, events, disks)
}

/// The replies of the machine of a stream, with these disks, to these events.
fn replies_to<'a, R: Files + AllocGlobal, D: Disk + Drop>(
    rt: &R,
    arrival: Arrival<'a>,
    events: &[Event],
    disks: Vec<D>,
) -> Result<Vec<Reply>, Fault<'a>>
    ensures answered { IfOk result (λ replies. AreResumedOverImage arrival.entry.outside events.now replies.items) }
    ensures played { AreHonestDisks (disk_marks_of D.state disks.items) → IfOk result (λ replies. AreResumed arrival.entry.outside events.now replies.items) }
    ensures failed { IfErr result (TellsOfArrival arrival.entry.outside arrival.entry.stream.now (sizes_of D.state disks.items) (disk_marks_of D.state disks.items)) }
{
    let machine = receive_file(rt, arrival, disks)?;
    replies_of(machine, events)
}

/// The replies of a machine to these events. It is dropped at the end.
fn replies_of<D: Disk + Drop>(
    mut machine: Machine<D>,
    events: &[Event],
) -> Result<Vec<Reply>, Fault<'static>>
    ensures applied { IfOk result (λ replies. (last : Seen) × AreApplied machine events.now replies.items last) }
    ensures run { AreHonest machine → IfOk result (λ replies. (last : MachineState) × IsRun (state_of machine) events.now (map outcome_of replies.items) replies.items last) }
    ensures memory { IfErr result (λ fault. fault ≡ faults.NoMemory) }
{
    match machine.play(events) {
        Ok(replies) => Ok(replies),
        Err(_) => Err(Fault::NoMemory),
    }
}

/// The machine of a stream, with these disks. Its bytes are received as its file is read. It is not the image, which is written
/// meanwhile.
fn receive_file<'a, R: Files + AllocGlobal, D: Disk + Drop>(
    rt: &R,
    arrival: Arrival<'a>,
    disks: Vec<D>,
) -> Result<Machine<D>, Fault<'a>>
    ensures over { IfOk result (λ m. HasArrivedOver arrival.entry.outside (state_of m)) }
    ensures arrived { AreHonestDisks (disk_marks_of D.state disks.items) → IfOk result (λ m. HasArrived arrival.entry.outside (state_of m)) }
    ensures marks { IfOk result (λ m. all_marks m ≡ dealt_marks (shapes_in (state_of m).devices) (disk_marks_of D.state disks.items)) }
    ensures failed { IfErr result (TellsOfArrival arrival.entry.outside arrival.entry.stream.now (sizes_of D.state disks.items) (disk_marks_of D.state disks.items)) }
{
    let alloc = rt.alloc();
    let name = arrival.stream;
    let mut file = open_apart(rt, name, arrival.image)?;
    let front = read_front(alloc, &mut file, name)?;
    let receiver = Receiver::with_terms(alloc, disks, None, program_terms(arrival.outside));
    let (machine, _) = receive_rest(&mut file, name, front, receiver)?;
    Ok(machine)
}
