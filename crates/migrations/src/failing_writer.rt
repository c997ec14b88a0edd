//! Migrations to a writer that takes some bytes and then fails, for each number of bytes.

use crate::serving::{Served, Way, serve, serve_and_abort};
use anyhow::{Context, Result, ensure};
use machine::Machine;
use scenarios::{TestDisk, are_same, arrived};
use sender::{LiveEvent, LiveReply};
use std::alloc::Global;
use traces::{Trace, parse, write_reply};
use wire::{FaultWriter, WriteSink};

/// A page is copied and then touched, and the machine stops; then everything is tried again.
const TEXT: &[u8] =
    b"ram 1\nentropy\nbegin\ncopy\nmw 0x0 00\nstop\nbegin\ncopy\nround\nstop\nmw 0x1 11\n";

/// The replies, each with the number of bytes that the writer has to take for it: a header has 17 bytes, and the record of a page
/// of zeros 5. Where it takes fewer the reply is `mig 4`.
const REPLIES: [(&[u8], usize); 9] = [
    (b"begun 1\n", 17),
    (b"copied page 0\n", 22),
    (b"done\n", 0),
    (b"mig 4\n", 0),
    (b"mig 4\n", 0),
    (b"mig 4\n", 0),
    (b"mig 4\n", 0),
    (b"mig 4\n", 0),
    (b"done\n", 0),
];

const FAILED: &[u8] = b"mig 4\n";

/// A second migration, and its replies.
const AGAIN: &[u8] = b"ram 1\nentropy\nbegin\nstop\n";

const REPLIES_AGAIN: &[u8] = b"begun 1\nstopped 1 0\n";

/// The length of the first stream where the writer does not fail: a header, two pages of zeros, a device of 70 bytes and the
/// digest.
const LEN: usize = 130;

/// From the first failure on each call of the migration is refused, and the guest goes on. What the writer took is the beginning
/// of the stream. After the host gave up, a second migration of the machine arrives.
pub fn fails(alloc: Global) -> Result<()> {
    let trace = parse(alloc, TEXT)?;
    let stream = stream_of(alloc, &trace)?;
    fails_anywhere(alloc, &trace, stream.as_slice())
}

fn fails_anywhere(alloc: Global, trace: &Trace, stream: &[u8]) -> Result<()> {
    ensure!(stream.len() == LEN, "another length");
    for take in 0..LEN {
        fails_at(alloc, trace, stream, take, false).context("a part")?;
    }
    fails_at(alloc, trace, stream, LEN, true).context("the flush")
}

fn fresh_machine(alloc: Global, trace: &Trace) -> Result<Machine<TestDisk>> {
    let shapes = trace.shapes.as_slice();
    Ok(Machine::new(alloc, trace.pages, shapes, Vec::new(alloc))?)
}

/// The stream that the first stop closes.
fn stream_of(alloc: Global, trace: &Trace) -> Result<Vec<u8>> {
    let events = trace.events.as_slice().get(..4).context("no stop")?;
    let machine = fresh_machine(alloc, trace)?;
    let writer = WriteSink::new(Vec::new(alloc));
    let (_, writer) = serve(alloc, Way::Calls, machine, events, writer)?;
    Ok(writer.into_inner())
}

/// A migration to a writer that takes `take` bytes.
fn fails_at(
    alloc: Global,
    trace: &Trace,
    stream: &[u8],
    take: usize,
    flush_fails: bool,
) -> Result<()> {
    let mut place = vec![in alloc; 0; LEN]?;
    let machine = machine_after(alloc, trace, place.as_mut_slice(), take, flush_fails)?;
    begins_with(stream, place.as_slice(), take)?;
    arrives_again(alloc, machine)
}

/// Fails if the writer that takes `take` bytes did not take these of the stream.
fn begins_with(stream: &[u8], place: &[u8], take: usize) -> Result<()> {
    let taken = place.get(..take).context("no room")?;
    ensure!(stream.starts_with(taken), "other bytes after {take} bytes");
    Ok(())
}

/// The machine after the events of the trace, which are answered as a writer that takes `take` bytes into this place lets them.
fn machine_after(
    alloc: Global,
    trace: &Trace,
    place: &mut [u8],
    take: usize,
    flush_fails: bool,
) -> Result<Machine<TestDisk>> {
    let served = served_into(alloc, trace, place, take, flush_fails)?;
    are_told(alloc, served.replies.as_slice(), take)?;
    Ok(served.machine)
}

/// The machine after the events of the trace, sent to a writer that takes `take` bytes into this place.
fn served_into(
    alloc: Global,
    trace: &Trace,
    place: &mut [u8],
    take: usize,
    flush_fails: bool,
) -> Result<Served> {
    let machine = fresh_machine(alloc, trace)?;
    let writer = FaultWriter::new(WriteSink::new(place), take as u64, flush_fails);
    serve_and_abort(alloc, Way::Calls, machine, trace.events.as_slice(), writer)
}

/// Fails unless these are the replies where the writer takes `take` bytes.
fn are_told(alloc: Global, replies: &[LiveReply], take: usize) -> Result<()> {
    let told = lines_of(alloc, replies)?;
    let expected = lines_for(alloc, take)?;
    ensure!(told == expected, "other replies after {take} bytes");
    Ok(())
}

/// The replies to the events where the writer takes `take` bytes.
fn lines_for(alloc: Global, take: usize) -> Result<Vec<u8>> {
    let mut lines = Vec::new(alloc);
    for (line, needed) in REPLIES {
        let line = if take < needed { FAILED } else { line };
        lines.extend_from_slice(line)?;
    }
    Ok(lines)
}

fn lines_of(alloc: Global, replies: &[LiveReply]) -> Result<Vec<u8>> {
    let mut lines = Vec::new(alloc);
    for reply in replies {
        write_reply(reply, &mut lines)?;
    }
    Ok(lines)
}

/// A second migration of the machine, to a writer that takes all.
fn arrives_again(alloc: Global, machine: Machine<TestDisk>) -> Result<()> {
    let trace = parse(alloc, AGAIN)?;
    let mut served = served_again(alloc, machine, trace.events.as_slice())?;
    arrives_as(alloc, &mut served)
}

fn served_again(alloc: Global, machine: Machine<TestDisk>, events: &[LiveEvent]) -> Result<Served> {
    let writer = WriteSink::new(Vec::new(alloc));
    let (mut served, writer) = serve(alloc, Way::Calls, machine, events, writer)?;
    served.written = writer.into_inner();
    Ok(served)
}

fn is_told_again(alloc: Global, replies: &[LiveReply]) -> Result<()> {
    let told = lines_of(alloc, replies)?;
    ensure!(told.as_slice() == REPLIES_AGAIN, "other replies again");
    Ok(())
}

/// Fails if the replies are others, or if another machine arrives.
fn arrives_as(alloc: Global, served: &mut Served) -> Result<()> {
    is_told_again(alloc, served.replies.as_slice())?;
    let mut copy = arrived(alloc, served.written.as_slice(), 0)?;
    are_same(alloc, &mut served.machine, &mut copy)
}
