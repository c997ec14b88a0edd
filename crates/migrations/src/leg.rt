//! A part of a migration: what happens while one writer is written to.

use crate::serving::{Served, Way, serve, serve_and_abort};
use anyhow::{Context, Result};
use books::{Question, Script};
use machine::Machine;
use scenarios::{TestDisk, answer_of_machine, disks_alone, disks_of, made};
use sender::{LiveEvent, LiveReply, MigError, Remaining};
use std::alloc::Global;
use std::io::Write;
use traces::{Trace, parse};
use wire::WriteSink;

/// A part of a migration. It ends where the host gives up, or with the text.
#[derive(Drop)]
pub struct Leg {
    script: Script,
    trace: Trace,
}

impl Leg {
    /// The leg of these lines of a script.
    pub fn read(alloc: Global, lines: &str) -> Result<Leg> {
        let mut script = Script::new(alloc);
        if !lines.starts_with("ram ") {
            // A trace begins with a machine, which is there already.
            script.add("ram 1\nentropy")?;
        }
        script.add(lines)?;
        let trace = parse(alloc, script.trace())?;
        Ok(Leg { script, trace })
    }

    /// The machine that it begins with.
    pub fn machine(&self, alloc: Global) -> Result<Machine<TestDisk>> {
        let shapes = self.trace.shapes.as_slice();
        let disks = disks_of(alloc, &self.script, shapes)?;
        made(alloc, 0, self.trace.pages, shapes, disks)
    }

    /// The same machine, where it is not migrated.
    pub fn machine_alone(&self, alloc: Global) -> Result<Machine<TestDisk>> {
        let shapes = self.trace.shapes.as_slice();
        let disks = disks_alone(alloc, &self.script, shapes)?;
        made(alloc, 0, self.trace.pages, shapes, disks)
    }

    /// What happens.
    pub fn events(&self) -> &[LiveEvent] {
        self.trace.events.as_slice()
    }

    /// The lines of the replies and answers.
    pub fn lines(&self) -> &[u8] {
        self.script.replies()
    }

    /// Plays the first `count` events.
    pub fn play(
        &self,
        alloc: Global,
        way: Way,
        machine: Machine<TestDisk>,
        count: usize,
    ) -> Result<Served> {
        let events = self.events();
        let events = &events[..count.min(events.len())];
        match self.script.room() {
            Some(room) => play_in_room(alloc, way, machine, events, room),
            None => play_on(alloc, way, machine, events),
        }
    }

    /// The machine after all events.
    pub fn machine_after(
        &self,
        alloc: Global,
        way: Way,
        machine: Machine<TestDisk>,
    ) -> Result<Machine<TestDisk>> {
        let served = self.play(alloc, way, machine, self.events().len())?;
        Ok(served.machine)
    }

    /// Whether anything is asked after `events` events.
    pub fn asks(&self, events: usize) -> bool {
        self.script.questions().iter().any(|q| q.0 == events)
    }

    /// Answers what is asked after `events` events.
    pub fn answer(&self, served: &mut Served, events: usize, out: &mut Vec<u8>) -> Result<()> {
        for (asked, question) in self.script.questions() {
            if *asked == events {
                answer(served, *question, out)?;
            }
        }
        Ok(())
    }
}

/// Plays events with a writer that takes all bytes.
fn play_on(
    alloc: Global,
    way: Way,
    machine: Machine<TestDisk>,
    events: &[LiveEvent],
) -> Result<Served> {
    let writer = WriteSink::new(Vec::new(alloc));
    let (mut served, writer) = serve(alloc, way, machine, events, writer)?;
    served.written = writer.into_inner();
    Ok(served)
}

/// Plays events with a writer that takes `room` bytes: a slice fails where it is full.
fn play_in_room(
    alloc: Global,
    way: Way,
    machine: Machine<TestDisk>,
    events: &[LiveEvent],
    room: usize,
) -> Result<Served> {
    let mut place = vec![in alloc; 0; room]?;
    let writer = WriteSink::new(place.as_mut_slice());
    serve_and_abort(alloc, way, machine, events, writer)
}

fn answer(served: &mut Served, question: Question, out: &mut Vec<u8>) -> Result<()> {
    match question {
        Question::Remaining => write_remaining(served.remaining, out),
        Question::Written => write_count(served.written.len(), out),
        Question::Failed => write_failed(served.replies.last(), out),
        _ => answer_of_machine(&mut served.machine, question, out),
    }
}

fn write_remaining(remaining: Option<Remaining>, out: &mut Vec<u8>) -> Result<()> {
    let left = remaining.context("not by calls")?;
    writeln!(out, "remaining {} {}", left.due, left.dirty)?;
    Ok(())
}

fn write_count(written: usize, out: &mut Vec<u8>) -> Result<()> {
    writeln!(out, "written {written}")?;
    Ok(())
}

fn write_failed(reply: Option<&LiveReply>, out: &mut Vec<u8>) -> Result<()> {
    match reply {
        Some(LiveReply::Mig(MigError::DiskFailed { dev, sector })) => {
            writeln!(out, "failed {dev} {sector}")?;
        }
        _ => writeln!(out, "failed nowhere")?,
    }
    Ok(())
}
