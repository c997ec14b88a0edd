//! Live events, played.

use anyhow::{Result, bail, ensure};
use machine::Machine;
use scenarios::TestDisk;
use sender::{CopyAnswer, End, Live, LiveEvent, LiveReply, Remaining, Replay, Stopped, replay};
use std::alloc::Global;
use wire::Sink;

/// How the events of a migration are played.
#[derive(Clone, Copy, Debug, PartialEq, Eq)]
pub enum Way {
    /// By a call for each.
    Calls,

    /// As a list.
    List,
}

/// The state after the events of a migration.
#[derive(Drop)]
pub struct Served {
    /// The machine.
    pub machine: Machine<TestDisk>,

    /// The reply to each event.
    pub replies: Vec<LiveReply>,

    /// The bytes written, where the writer does not fail.
    pub written: Vec<u8>,

    /// How many items are still to be sent, where the events were played by calls.
    pub remaining: Option<Remaining>,
}

/// Plays the events in one of the ways. The bytes written stay with the writer.
pub fn serve<W: Sink + Drop>(
    alloc: Global,
    way: Way,
    machine: Machine<TestDisk>,
    events: &[LiveEvent],
    writer: W,
) -> Result<(Served, W)> {
    match way {
        Way::Calls => serve_calls(alloc, machine, events, writer),
        Way::List => serve_list(alloc, machine, events, writer),
    }
}

/// Plays the events in one of the ways. The writer is not given back.
pub fn serve_and_abort<W: Sink + Drop>(
    alloc: Global,
    way: Way,
    machine: Machine<TestDisk>,
    events: &[LiveEvent],
    writer: W,
) -> Result<Served> {
    match way {
        Way::Calls => {
            let (live, replies) = play_calls(alloc, machine, events, writer)?;
            let remaining = Some(live.remaining());
            Ok(outcome(alloc, live.abort(), replies, remaining))
        }
        Way::List => Ok(serve_list(alloc, machine, events, writer)?.0),
    }
}

fn serve_calls<W: Sink + Drop>(
    alloc: Global,
    machine: Machine<TestDisk>,
    events: &[LiveEvent],
    writer: W,
) -> Result<(Served, W)> {
    let (live, replies) = play_calls(alloc, machine, events, writer)?;
    let remaining = Some(live.remaining());
    let (machine, writer) = live.into_parts();
    Ok((outcome(alloc, machine, replies, remaining), writer))
}

/// Plays each event by a call: the replies, and the migration as it is then.
fn play_calls<W: Sink + Drop>(
    alloc: Global,
    machine: Machine<TestDisk>,
    events: &[LiveEvent],
    writer: W,
) -> Result<(Live<TestDisk, W>, Vec<LiveReply>)> {
    let mut live = live_of(alloc, machine, writer)?;
    let replies = replies_to(alloc, &mut live, events)?;
    Ok((live, replies))
}

/// A machine that can be migrated.
fn live_of<W: Sink + Drop>(
    alloc: Global,
    machine: Machine<TestDisk>,
    writer: W,
) -> Result<Live<TestDisk, W>> {
    let Ok(live) = Live::new(alloc, machine, writer) else {
        bail!("no memory");
    };
    Ok(live)
}

/// The reply of the call for each event.
fn replies_to<W: Sink>(
    alloc: Global,
    live: &mut Live<TestDisk, W>,
    events: &[LiveEvent],
) -> Result<Vec<LiveReply>> {
    let mut replies = Vec::new(alloc);
    for event in events {
        replies.push(answer(live, event))?;
    }
    Ok(replies)
}

fn outcome(
    alloc: Global,
    machine: Machine<TestDisk>,
    replies: Vec<LiveReply>,
    remaining: Option<Remaining>,
) -> Served {
    Served {
        machine,
        replies,
        written: Vec::new(alloc),
        remaining,
    }
}

fn serve_list<W: Sink + Drop>(
    alloc: Global,
    machine: Machine<TestDisk>,
    events: &[LiveEvent],
    writer: W,
) -> Result<(Served, W)> {
    let Replay {
        machine,
        out,
        replies,
    } = replay(alloc, machine, events, writer);
    ensure!(replies.len() == events.len(), "no memory");
    Ok((outcome(alloc, machine, replies, None), out))
}

/// The reply of the call for an event.
fn answer<W: Sink>(live: &mut Live<TestDisk, W>, event: &LiveEvent) -> LiveReply {
    let answered = match event {
        LiveEvent::Guest(event) => live.apply(event).map(LiveReply::Guest),
        LiveEvent::Begin => live.begin().map(LiveReply::Begun),
        LiveEvent::Copy => live.copy().map(of_copy),
        LiveEvent::EndRound => live.end_round().map(of_end),
        LiveEvent::Stop => live.stop().map(of_stop),
    };
    match answered {
        Ok(reply) => reply,
        Err(error) => LiveReply::Mig(error),
    }
}

fn of_copy(answer: CopyAnswer) -> LiveReply {
    match answer {
        CopyAnswer::Copied(item) => LiveReply::Copied(item),
        CopyAnswer::RoundDone => LiveReply::RoundDone,
    }
}

fn of_end(answer: End) -> LiveReply {
    match answer {
        End::Begun(round) => LiveReply::Begun(round),
        End::RoundOpen => LiveReply::RoundOpen,
    }
}

fn of_stop(answer: Stopped) -> LiveReply {
    let Stopped { pages, sectors } = answer;
    LiveReply::Stopped { pages, sectors }
}
