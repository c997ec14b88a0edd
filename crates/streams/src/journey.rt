//! Machines that are saved, received, and continue.

use anyhow::{Context, Result, ensure};
use books::{Script, spelled};
use machine::Machine;
use scenarios::{TestDisk, arrived, play, plays_on, saved};
use std::alloc::Global;

/// A journey: where a machine comes from, the stream that it is saved as, and a script that it plays after that.
///
/// It has the lines before a line `saved as`, those up to a line `then`, and those after it. The first are a script, or, after
/// a line `rounds COUNT`, a stream in which COUNT rounds ended.
#[derive(Drop)]
pub struct Journey<'t> {
    before: &'t str,
    stream: &'t str,
    after: &'t str,
}

impl<'t> Journey<'t> {
    /// The journey of a text, if it is one.
    pub fn read(text: &'t str) -> Option<Journey<'t>> {
        let (before, rest) = text.split_once("saved as\n")?;
        let (stream, after) = rest.split_once("then\n").unwrap_or((rest, ""));
        Some(Journey {
            before,
            stream,
            after,
        })
    }

    /// The machine is saved as the stream, and the stream is received as a machine that is saved as the same bytes. Both play
    /// the script, and are saved as the same bytes once more.
    pub fn travel(&self, alloc: Global) -> Result<()> {
        let stream = spelled(alloc, self.stream)?;
        let here = self.end_of_machine(alloc, stream.as_slice())?;
        let there = self.end_of_copy(alloc, stream.as_slice())?;
        ensure!(here.as_slice() == there.as_slice(), "two ends");
        Ok(())
    }

    fn end_of_machine(&self, alloc: Global, stream: &[u8]) -> Result<Vec<u8>> {
        let mut machine = self.machine(alloc)?;
        self.end(alloc, &mut machine, stream)
    }

    fn end_of_copy(&self, alloc: Global, stream: &[u8]) -> Result<Vec<u8>> {
        let mut copy = arrived(alloc, stream, 0)?;
        self.end(alloc, &mut copy, stream)
    }

    /// The stream of a machine after it has played the script; before that, it is saved as `stream`.
    fn end(
        &self,
        alloc: Global,
        machine: &mut Machine<TestDisk>,
        stream: &[u8],
    ) -> Result<Vec<u8>> {
        is_saved_as(alloc, machine, stream)?;
        plays_on(alloc, machine, self.after)?;
        saved(alloc, machine)
    }

    fn machine(&self, alloc: Global) -> Result<Machine<TestDisk>> {
        match self.before.strip_prefix("rounds ") {
            Some(rest) => machine_of_rounds(alloc, rest),
            None => machine_of_script(alloc, self.before),
        }
    }
}

fn machine_of_rounds(alloc: Global, text: &str) -> Result<Machine<TestDisk>> {
    let (rounds, stream) = text.split_once('\n').context("no stream")?;
    let rounds = rounds.parse::<u32>()?;
    let stream = spelled(alloc, stream)?;
    arrived(alloc, stream.as_slice(), rounds)
}

fn machine_of_script(alloc: Global, text: &str) -> Result<Machine<TestDisk>> {
    let mut script = Script::new(alloc);
    script.add(text)?;
    play(alloc, &script)
}

fn is_saved_as(alloc: Global, machine: &mut Machine<TestDisk>, stream: &[u8]) -> Result<()> {
    let saved = saved(alloc, machine)?;
    ensure!(saved.as_slice() == stream, "another stream");
    Ok(())
}
