//! The command `run`: a trace is played on a new machine.
//!
//! All replies are made before the first line is written. `begin` without a stream is reported only where no line is bad, not
//! even a later one. A stream that is asked for is made also where no line begins.
//!
//! An image is opened for reading and writing, once the trace was found good, also for a device that its driver may only read.
//! It is synced at the guest's flushes alone, and not before the end of a write of a driver without FLUSH: no guest of the
//! program outlives its host, and whoever wants the image durable syncs it.
//!
//! The lines of a run over an image are those of calls, one after another, from a fresh machine over some sectors on: no
//! contract says what a file holds. Over disks in memory the same function is proved to answer as the definition does.

ghost use Rattle.std.specs.Prelude.{◌≡◌, [], IfOk, IfErr, IfSome, OnOk, All, IsTrue, Err, None, length, map, false, Some};
ghost use Rattle.std.specs.List.{list_any};
ghost use Rattle.sender.specs.History.{is_fault};
ghost use Rattle.traces.specs.Trace.{contents_of};
ghost use Rattle.vmig.specs.Output.{FailsOnFile, HasDoneFile, HasWritten, IsOne, RunFails};
ghost use Rattle.vmig.specs.Faults.{TellsOfFile};
ghost use Rattle.vmig.specs.Playing.{AreAnswers, AreAnswersFor, AreAnswersOver, AreLinesOver, ArePlayed, AreReplies, IsOutput, MayPlay, TellsOfBegin, TellsOfSending, TellsOfText, TellsOver};
ghost use Rattle.wire.specs.Sinks.{SinkState, over_writer};
ghost use Rattle.machine.specs.First.{dealt_marks, first_machine, marks_in};
ghost use Rattle.machine.specs.Seen.{AreHonest, all_marks, state_of};
ghost use Rattle.machine.specs.declared.new_error.NewError.TheVariants as new_error;
ghost use Rattle.vmig.specs.Allowing.{trace_refusal};
ghost use Rattle.vmig.specs.declared.fault.Fault.TheVariants as faults;
ghost use Rattle.vmig.specs.Words.{name_in};

use crate::allowing::program_limits;
use crate::fault::Fault;
use crate::output::{create_apart, read_file, write_all};
use machine::{Board, Disk, FileDisk, Machine, MemDisk, NewError, RamOf, Shape};
use sender::{LiveEvent, LiveReply, MigError, Replay, replay};
use std::alloc::Global;
use std::io::Write;
use std::rt::Files;
use traces::{Trace, parse};
use wire::WriteSink;

/// Plays the trace in the file of this name on a fresh machine, over the image of a disk or over none. If the trace sends the
/// machine, its stream goes to the file of the stream.
pub fn run_trace<'a, R: Files + AllocGlobal, O: Write>(
    rt: &R,
    name: &'a str,
    image: Option<&'a str>,
    stream: Option<&'a str>,
    out: &mut O,
) -> Result<(), Fault<'a>>
    ensures done { OnOk result (HasDoneFile (AreLinesOver (name_in image.entry) (name_in stream.entry)) (O.contents out.old) (O.contents out.new)) }
    ensures failed { IfErr result (FailsOnFile name.entry.now (TellsOfText (name_in image.entry) (name_in stream.entry)) (AreLinesOver (name_in image.entry) (name_in stream.entry)) (O.contents out.old) (O.contents out.new)) }
{
    let text = read_file(rt, name)?;
    play_text(rt, name, text.as_slice(), image, stream, out)
}

/// Plays the trace of a file on a fresh machine, and writes the line of each reply.
fn play_text<'a, R: Files + AllocGlobal, O: Write>(
    rt: &R,
    name: &str,
    text: &[u8],
    image: Option<&'a str>,
    stream: Option<&'a str>,
    out: &mut O,
) -> Result<(), Fault<'a>>
    ensures done { OnOk result (HasWritten (AreLinesOver (name_in image.entry) (name_in stream.entry) text.now None) (O.contents out.old) (O.contents out.new)) }
    ensures failed { IfErr result (RunFails (TellsOfText (name_in image.entry) (name_in stream.entry) text.now) (AreLinesOver (name_in image.entry) (name_in stream.entry) text.now) (O.contents out.old) (O.contents out.new)) }
{
    let trace = parse(rt.alloc(), text)?;
    has_stream(&trace, stream)?;
    let replies = replies_over(rt, name, &trace, image, stream)?;
    write_all(replies.as_slice(), out)?;
    if has_failed(replies.as_slice()) {
        return Err(Fault::StreamOut);
    }
    Ok(())
}

/// A trace that begins to send its machine needs a stream.
fn has_stream(trace: &Trace, stream: Option<&str>) -> Result<(), Fault<'static>>
    ensures may { OnOk result (MayPlay (name_in stream.entry) (contents_of trace.now)) }
    ensures begins { IfErr result (TellsOfBegin (name_in stream.entry) (contents_of trace.now)) }
{
    if stream.is_none() && trace.begin_line != 0 {
        return Err(Fault::Line(trace.begin_line));
    }
    Ok(())
}

/// Whether some reply says that the writer failed.
fn has_failed(replies: &[LiveReply]) -> bool
    ensures { result ≡ list_any is_fault replies.now }
{
    replies.iter().any(|reply| matches!(reply, LiveReply::Mig(MigError::StreamFailed)))
}

/// The replies of a fresh machine of the trace's shape to its events, over the image of a disk or over none. The trace is that of
/// the file of this name.
fn replies_over<'a, R: Files + AllocGlobal>(
    rt: &R,
    trace_name: &str,
    trace: &Trace,
    image: Option<&'a str>,
    stream: Option<&'a str>,
) -> Result<Vec<LiveReply>, Fault<'a>>
    ensures answered { IfOk result (λ replies. AreAnswersFor (name_in image.entry) (IsOutput R.File.contents (name_in stream.entry)) (contents_of trace.now) replies.items) }
    ensures played { image.entry ≡ None → IfOk result (λ replies. AreReplies (contents_of trace.now) [] replies.items) }
    ensures failed { IfErr result (TellsOver (name_in image.entry) (name_in stream.entry) (contents_of trace.now)) }
{
    let alloc = rt.alloc();
    let Some(name) = image else {
        let none: Vec<MemDisk> = Vec::new(alloc);
        return replies_to(rt, trace, none, stream, &[trace_name]);
    };
    let disks = image_disks(rt, name)?;
    replies_to(rt, trace, disks, stream, &[trace_name, name])
}

/// The disk whose image is in the file of this name.
pub fn image_disks<'a, R: Files + AllocGlobal>(
    rt: &R,
    name: &'a str,
) -> Result<Vec<FileDisk<R::File>>, Fault<'a>>
    ensures one { IfOk result (λ disks. IsOne disks.items) }
    ensures failed { IfErr result (TellsOfFile name.entry.now) }
{
    let Ok(mut disks) = Vec::with_capacity(rt.alloc(), 1) else {
        return Err(Fault::NoMemory);
    };
    match FileDisk::open(rt, name) {
        Ok(disk) => disks.push_reserved(disk),
        Err(error) => return Err(Fault::of_file(name, error.kind())),
    }
    Ok(disks)
}

/// The replies of a fresh machine of the trace's shape, with these disks, to its events. The stream is made once the machine
/// is there, and is none of the files of `inputs`, which it would destroy.
fn replies_to<'a, R: Files + AllocGlobal, D: Disk + Drop>(
    rt: &R,
    trace: &Trace,
    disks: Vec<D>,
    stream: Option<&'a str>,
    inputs: &[&str],
) -> Result<Vec<LiveReply>, Fault<'a>>
    ensures answered { IfOk result (λ replies. (out : SinkState) × IsOutput R.File.contents (name_in stream.entry) out × AreAnswersOver (contents_of trace.now) (map (λ d. map Some (D.state d).sectors) disks.items) out replies.items) }
    ensures played { All (λ d. IsTrue (D.state d).honest) disks.items → IfOk result (λ replies. AreReplies (contents_of trace.now) (map (λ d. map Some (D.state d).sectors) disks.items) replies.items) }
    ensures failed { IfErr result (TellsOfSending (name_in stream.entry) (contents_of trace.now) (map (λ d. length (D.state d).sectors) disks.items)) }
{
    let alloc = rt.alloc();
    let machine = new_machine(alloc, trace.pages, trace.shapes.as_slice(), disks)?;
    match stream {
        Some(name) => {
            let file = create_apart(rt, name, inputs)?;
            replies_of(alloc, machine, trace.events.as_slice(), file)
        }
        None => {
            let nowhere: Vec<u8> = Vec::new(alloc);
            replies_of(alloc, machine, trace.events.as_slice(), nowhere)
        }
    }
}

/// A fresh machine of a trace, with these disks. Those that are outside may have any size.
pub fn new_machine<D: Disk + Drop>(
    alloc: Global,
    pages: u32,
    shapes: &[Shape],
    disks: Vec<D>,
) -> Result<Machine<D>, NewError>
    ensures made { IfOk result (λ m. state_of m ≡ first_machine pages shapes.now (map (λ d. map Some (D.state d).sectors) disks.items)) }
    ensures marks { IfOk result (λ m. all_marks m ≡ dealt_marks shapes.now (map (λ d. marks_in (D.state d)) disks.items)) }
    ensures refused { IfSome (trace_refusal pages shapes.now (map (λ d. length (D.state d).sectors) disks.items)) (λ error. result ≡ Err error) }
    ensures memory { trace_refusal pages shapes.now (map (λ d. length (D.state d).sectors) disks.items) ≡ None → IfErr result (λ error. error ≡ new_error.NoMemory) }
{
    let board = Board {
        limits: program_limits(true),
        base: 0,
        ram: RamOf::Pages(pages),
        shapes,
        disks,
    };
    match Machine::make(alloc, board) {
        Ok(machine) => Ok(machine),
        Err(unmade) => Err(unmade.reason()),
    }
}

/// The replies of a machine that is sent to a writer, which is dropped at the end.
fn replies_of<D: Disk + Drop, W: Write + Drop>(
    alloc: Global,
    machine: Machine<D>,
    events: &[LiveEvent],
    writer: W,
) -> Result<Vec<LiveReply>, Fault<'static>>
    ensures answered { IfOk result (λ replies. AreAnswers machine (over_writer (W.contents writer) 0 false) events.now replies.items) }
    ensures played { AreHonest machine → IfOk result (λ replies. ArePlayed (state_of machine) events.now replies.items) }
    ensures memory { IfErr result (λ fault. fault ≡ faults.NoMemory) }
{
    let Replay {
        machine: _,
        out: _,
        replies,
    } = replay(alloc, machine, events, WriteSink::new(writer));
    if replies.len() != events.len() {
        return Err(Fault::NoMemory);
    }
    Ok(replies)
}
