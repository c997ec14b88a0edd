//! Machines that are migrated while they run.

use crate::leg::Leg;
use crate::serving::{Served, Way};
use anyhow::{Context, Result, ensure};
use books::{Book, Scenario, spelled};
use machine::Machine;
use scenarios::{
    PIECES, TestDisk, are_lines, are_same, arrived, arrived_in_pieces, plays_on, saved,
};
use sender::{LiveEvent, LiveReply};
use std::alloc::Global;
use traces::write_reply;

/// A migration: the lines of a script among which the machine is sent. At a line `ABORT` the host gives up, and begins again
/// with a writer that fails only where a line says so.
///
/// They may be followed by a line `sent as`, with the stream that they end in; a line `then`, with events that the machine and
/// the one that arrived answer alike; or a line `counted`: then the stream is too long to be received here.
#[derive(Drop)]
pub struct Migration<'t> {
    legs: Vec<Leg>,
    stream: &'t str,
    after: &'t str,
    is_counted: bool,
}

/// Shows a scenario of a book of migrations: the replies are as its lines say, by single calls and by the list, which write the
/// same bytes. Where a stop closed the stream, the machine that is received in pieces of any size is the one that was sent, and
/// so is a machine to which the same happened without the migration. They stay the same, and in the end a save of the machine is
/// received as that machine.
pub fn show(alloc: Global, book: &Book, scenario: &Scenario) -> Result<()> {
    let text = book.text(alloc, scenario)?;
    let migration = Migration::read(alloc, text.as_str())?;
    migration.goes_through(alloc)
}

impl<'t> Migration<'t> {
    /// The migration of a text.
    fn read(alloc: Global, text: &'t str) -> Result<Migration<'t>> {
        let (text, is_counted) = match text.split_once("counted\n") {
            Some((text, _)) => (text, true),
            None => (text, false),
        };
        let (text, after) = text.split_once("then\n").unwrap_or((text, ""));
        let (text, stream) = text.split_once("sent as\n").unwrap_or((text, ""));
        let mut legs = Vec::new(alloc);
        add_legs(alloc, &mut legs, text)?;
        Ok(Migration {
            legs,
            stream,
            after,
            is_counted,
        })
    }

    /// Fails where a leg is not answered as its lines say, or if another machine arrives.
    fn goes_through(&self, alloc: Global) -> Result<()> {
        for at in 0..self.legs.len() {
            self.is_answered(alloc, at)?;
        }
        if self.is_counted {
            return Ok(());
        }
        self.arrives(alloc)
    }

    fn first(&self) -> Result<&Leg> {
        self.legs.first().context("no lines")
    }

    /// The state after `events` events of a leg.
    fn serve(&self, alloc: Global, way: Way, at: usize, events: usize) -> Result<Served> {
        let leg = self.legs.get(at).context("no such lines")?;
        let machine = self.machine_before(alloc, way, at)?;
        leg.play(alloc, way, machine, events)
    }

    /// The machine that a leg begins with.
    fn machine_before(&self, alloc: Global, way: Way, at: usize) -> Result<Machine<TestDisk>> {
        let mut machine = self.first()?.machine(alloc)?;
        for leg in self.legs.iter().take(at) {
            machine = leg.machine_after(alloc, way, machine)?;
        }
        Ok(machine)
    }

    /// Fails where a leg is not answered as its lines say, by calls and by the list.
    fn is_answered(&self, alloc: Global, at: usize) -> Result<()> {
        let mut served = self.serve(alloc, Way::Calls, at, usize::MAX)?;
        self.is_answered_as(alloc, at, &mut served)
    }

    /// Fails where a leg was not answered as its lines say, or is answered otherwise by the list.
    fn is_answered_as(&self, alloc: Global, at: usize, served: &mut Served) -> Result<()> {
        self.is_told(alloc, at, served)?;
        if self.is_counted {
            return Ok(());
        }
        let listed = self.serve(alloc, Way::List, at, usize::MAX)?;
        is_as_listed(served, &listed)
    }

    /// Fails where the replies to a leg, and what is asked among them, are not as its lines say.
    fn is_told(&self, alloc: Global, at: usize, served: &mut Served) -> Result<()> {
        let leg = self.legs.get(at).context("no such lines")?;
        let mut lines = Vec::new(alloc);
        for (events, reply) in served.replies.iter().enumerate() {
            self.answer(alloc, at, events, &mut lines)?;
            write_reply(reply, &mut lines)?;
        }
        leg.answer(served, leg.events().len(), &mut lines)?;
        are_lines(lines.as_slice(), leg.lines())
    }

    /// Answers what is asked in the middle of a leg. The machine that is asked is not migrated further.
    fn answer(&self, alloc: Global, at: usize, events: usize, out: &mut Vec<u8>) -> Result<()> {
        let leg = self.legs.get(at).context("no such lines")?;
        if !leg.asks(events) {
            return Ok(());
        }
        let mut served = self.serve(alloc, Way::Calls, at, events)?;
        leg.answer(&mut served, events, out)
    }

    /// Fails if another machine arrives.
    fn arrives(&self, alloc: Global) -> Result<()> {
        let mut served = self.serve(alloc, Way::Calls, self.last(), usize::MAX)?;
        self.arrives_as(alloc, &mut served)
    }

    fn arrives_as(&self, alloc: Global, served: &mut Served) -> Result<()> {
        let mut alone = self.machine_alone(alloc)?;
        self.agree(alloc, served, &mut alone)
    }

    fn last(&self) -> usize {
        self.legs.len().saturating_sub(1)
    }

    /// Fails if the machine is another one than it is alone and by the list, or if it arrives as another one.
    fn agree(
        &self,
        alloc: Global,
        served: &mut Served,
        alone: &mut Machine<TestDisk>,
    ) -> Result<()> {
        are_same(alloc, &mut served.machine, alone).context("alone")?;
        self.is_listed_alike(alloc, &mut served.machine)?;
        let Some(rounds) = rounds_of(served.replies.as_slice()) else {
            return Ok(());
        };
        self.is_sent_as(alloc, served.written.as_slice())?;
        pieces_arrive(alloc, served, rounds)?;
        let mut copy = arrived(alloc, served.written.as_slice(), rounds)?;
        self.go_on(alloc, &mut served.machine, &mut copy, alone)
    }

    fn is_listed_alike(&self, alloc: Global, machine: &mut Machine<TestDisk>) -> Result<()> {
        let mut listed = self.serve(alloc, Way::List, self.last(), usize::MAX)?;
        are_same(alloc, machine, &mut listed.machine).context("by the list")
    }

    fn is_sent_as(&self, alloc: Global, written: &[u8]) -> Result<()> {
        if self.stream.is_empty() {
            return Ok(());
        }
        let stream = spelled(alloc, self.stream)?;
        ensure!(stream.as_slice() == written, "sent otherwise");
        Ok(())
    }

    /// The machine after the same events without the migration.
    fn machine_alone(&self, alloc: Global) -> Result<Machine<TestDisk>> {
        let mut machine = self.first()?.machine_alone(alloc)?;
        self.play_alone(alloc, &mut machine)?;
        Ok(machine)
    }

    /// Plays the events without the migration.
    fn play_alone(&self, alloc: Global, machine: &mut Machine<TestDisk>) -> Result<()> {
        for (at, leg) in self.legs.iter().enumerate() {
            let served = self.serve(alloc, Way::Calls, at, usize::MAX)?;
            all_answered_alike(machine, leg.events(), served.replies.as_slice())?;
        }
        Ok(())
    }

    /// Plays the events that follow on the machine, on the one that arrived and on the one that was not migrated.
    fn go_on(
        &self,
        alloc: Global,
        machine: &mut Machine<TestDisk>,
        copy: &mut Machine<TestDisk>,
        alone: &mut Machine<TestDisk>,
    ) -> Result<()> {
        are_same(alloc, machine, copy).context("as it arrived")?;
        plays_on(alloc, machine, self.after).context("the source, then")?;
        plays_on(alloc, copy, self.after).context("what arrived, then")?;
        plays_on(alloc, alone, self.after).context("alone, then")?;
        are_same(alloc, machine, copy).context("what arrived, in the end")?;
        are_same(alloc, machine, alone).context("alone, in the end")?;
        is_received_as_saved(alloc, machine).context("saved, in the end")
    }
}

/// Adds the leg of each part of a text.
fn add_legs(alloc: Global, legs: &mut Vec<Leg>, text: &str) -> Result<()> {
    for lines in text.split("ABORT\n") {
        legs.push(Leg::read(alloc, lines)?)?;
    }
    Ok(())
}

fn is_as_listed(served: &Served, listed: &Served) -> Result<()> {
    ensure!(listed.replies == served.replies, "other replies");
    ensure!(listed.written == served.written, "other bytes");
    Ok(())
}

/// Fails if another machine arrives in pieces of some size.
fn pieces_arrive(alloc: Global, served: &mut Served, rounds: u32) -> Result<()> {
    for size in PIECES {
        arrives_in_pieces(alloc, served, rounds, size)?;
    }
    Ok(())
}

fn arrives_in_pieces(alloc: Global, served: &mut Served, rounds: u32, size: usize) -> Result<()> {
    let mut copy = arrived_in_pieces(alloc, served.written.as_slice(), rounds, size)?;
    are_same(alloc, &mut served.machine, &mut copy).context("in pieces")
}

/// Fails if a machine is saved as the stream of another one.
fn is_received_as_saved(alloc: Global, machine: &mut Machine<TestDisk>) -> Result<()> {
    let stream = saved(alloc, machine)?;
    let mut copy = arrived(alloc, stream.as_slice(), 0)?;
    are_same(alloc, machine, &mut copy)
}

/// Applies the events of the guest among these, which were answered.
fn all_answered_alike(
    machine: &mut Machine<TestDisk>,
    events: &[LiveEvent],
    replies: &[LiveReply],
) -> Result<()> {
    for (event, reply) in events.iter().zip(replies.iter()) {
        answers_alike(machine, event, reply)?;
    }
    Ok(())
}

/// Applies an event of the guest that was answered.
fn answers_alike(
    machine: &mut Machine<TestDisk>,
    event: &LiveEvent,
    reply: &LiveReply,
) -> Result<()> {
    if let (LiveEvent::Guest(event), LiveReply::Guest(reply)) = (event, reply) {
        ensure!(
            machine.apply(event) == *reply,
            "another reply where nothing is sent"
        );
    }
    Ok(())
}

/// How many rounds ended, where a stop closed the stream.
fn rounds_of(replies: &[LiveReply]) -> Option<u32> {
    let mut round = 0u32;
    let mut is_stopped = false;
    for reply in replies {
        match reply {
            LiveReply::Begun(number) => round = *number,
            LiveReply::Stopped { .. } => is_stopped = true,
            _ => {}
        }
    }
    if is_stopped {
        Some(round.saturating_sub(1))
    } else {
        None
    }
}
