//! Machines that are migrated while their guests work.

use crate::own_sink::OwnSink;
use crate::streams::machine_of;
use anyhow::{Result, bail, ensure};
use std::alloc::Global;
use vmig::{
    CopyAnswer, End, Event, FaultWriter, Item, Left, Live, LiveEvent, LiveReply, Machine, MemDisk,
    MigError, Rehearsal, Replay, Reply, Stopped, rehearse, replay,
};

/// Makes each call of a migration.
pub fn agree(alloc: Global) -> Result<()> {
    rounds_are_made(alloc)?;
    named_page_is_sent(alloc)?;
    list_is_played(alloc)?;
    writer_fails(alloc)?;
    move_is_rehearsed(alloc)
}

/// A read of the magic value.
fn event() -> Event {
    Event::RegRead {
        dev: 0,
        off: 0,
        width: 4,
    }
}

/// A machine that can be migrated, to a sink of our own.
fn live_machine(alloc: Global) -> Result<Live<MemDisk, OwnSink>> {
    let Ok(live) = Live::new(alloc, machine_of(alloc)?, OwnSink::new(alloc)) else {
        bail!("out of memory");
    };
    Ok(live)
}

/// A round, a second one, and the stop.
fn rounds_are_made(alloc: Global) -> Result<()> {
    let mut live = live_machine(alloc)?;
    rounds_are_sent(&mut live)?;
    raises_no_line(&live.abort())
}

fn raises_no_line(machine: &Machine<MemDisk>) -> Result<()> {
    ensure!(machine.lines() == 0, "the machine");
    Ok(())
}

fn rounds_are_sent(live: &mut Live<MemDisk, OwnSink>) -> Result<()> {
    begins(live)?;
    is_left(live)?;
    round_is_sent(live)?;
    stops(live)
}

fn begins(live: &mut Live<MemDisk, OwnSink>) -> Result<()> {
    ensure!(live.copy() == Err(MigError::NotBegun), "before the begin");
    ensure!(live.begin() == Ok(1), "the begin");
    Ok(())
}

/// A stop would send a page that may not be of zeros, the device and the digest.
fn is_left(live: &Live<MemDisk, OwnSink>) -> Result<()> {
    let left = Left {
        due_pages: 1,
        due_sectors: 0,
        dirty_pages: 0,
        dirty_sectors: 0,
    };
    ensure!(live.left() == left, "what is left");
    ensure!(live.most_by_stop() == 4101 + 70 + 33, "a stop's bytes");
    Ok(())
}

fn round_is_sent(live: &mut Live<MemDisk, OwnSink>) -> Result<()> {
    ensure!(live.end_round() == Ok(End::RoundOpen), "an open round");
    page_is_copied(live)?;
    ensure!(live.copy() == Ok(CopyAnswer::RoundDone), "a round's end");
    ensure!(live.end_round() == Ok(End::Begun(2)), "a second round");
    Ok(())
}

fn page_is_copied(live: &mut Live<MemDisk, OwnSink>) -> Result<()> {
    ensure!(
        live.copy() == Ok(CopyAnswer::Copied(Item::Page(0))),
        "a copy"
    );
    Ok(())
}

/// The guest runs until the stop, which has nothing to send.
fn stops(live: &mut Live<MemDisk, OwnSink>) -> Result<()> {
    ensure!(
        live.apply(&event()) == Ok(Reply::Value(0x7472_6976)),
        "the guest"
    );
    stop_sends(live, 0)?;
    ensure!(live.begin() == Err(MigError::AlreadyStopped), "after it");
    Ok(())
}

fn stop_sends(live: &mut Live<MemDisk, OwnSink>, pages: u64) -> Result<()> {
    let stopped = Stopped { pages, sectors: 0 };
    ensure!(live.stop() == Ok(stopped), "the stop");
    Ok(())
}

/// A page that is named after it was copied is sent again, by the stop.
fn named_page_is_sent(alloc: Global) -> Result<()> {
    let mut live = live_machine(alloc)?;
    names_a_page(&mut live)
}

fn names_a_page(live: &mut Live<MemDisk, OwnSink>) -> Result<()> {
    begins(live)?;
    page_is_copied(live)?;
    page_is_named(live)?;
    stop_sends(live, 1)
}

fn page_is_named(live: &mut Live<MemDisk, OwnSink>) -> Result<()> {
    ensure!(live.remaining().dirty == 0, "nothing is dirty");
    live.machine().ram().recall();
    live.mark(&[0]);
    ensure!(live.remaining().dirty == 1, "the page that was named");
    Ok(())
}

/// A list of events, each with its reply. The stream has the page of zeros once.
fn list_is_played(alloc: Global) -> Result<()> {
    let events = Vec::from_array(alloc, [LiveEvent::Begin, LiveEvent::Stop])?;
    let Replay {
        machine: _,
        out,
        replies,
    } = replay(
        alloc,
        machine_of(alloc)?,
        events.as_slice(),
        OwnSink::new(alloc),
    );
    are_expected(replies.as_slice())?;
    is_whole(&out)
}

fn are_expected(replies: &[LiveReply]) -> Result<()> {
    let expected = [
        LiveReply::Begun(1),
        LiveReply::Stopped {
            pages: 1,
            sectors: 0,
        },
    ];
    ensure!(replies == expected.as_slice(), "the replies");
    Ok(())
}

fn is_whole(out: &OwnSink) -> Result<()> {
    ensure!(out.bytes.len() == 125 && out.is_flushed, "the stream");
    Ok(())
}

/// A writer that takes the header and no more.
fn writer_fails(alloc: Global) -> Result<()> {
    let mut live = live_to_17_bytes(alloc)?;
    stop_fails(&mut live)
}

fn live_to_17_bytes(alloc: Global) -> Result<Live<MemDisk, FaultWriter<OwnSink>>> {
    let machine = machine_of(alloc)?;
    let sink = FaultWriter::new(OwnSink::new(alloc), 17, false);
    let Ok(live) = Live::new(alloc, machine, sink) else {
        bail!("out of memory");
    };
    Ok(live)
}

fn stop_fails(live: &mut Live<MemDisk, FaultWriter<OwnSink>>) -> Result<()> {
    ensure!(live.begin() == Ok(1), "the begin");
    let Err(error) = live.stop() else {
        bail!("a stop without a writer");
    };
    ensure!(error.code() == 4, "the writer's fault");
    Ok(())
}

/// A whole move, and what the guest does after it.
fn move_is_rehearsed(alloc: Global) -> Result<()> {
    let events = [LiveEvent::Begin, LiveEvent::Stop, LiveEvent::Guest(event())];
    let events = Vec::from_array(alloc, events)?;
    moves(alloc, events.as_slice())
}

fn moves(alloc: Global, events: &[LiveEvent]) -> Result<()> {
    let machine = machine_of(alloc)?;
    let none: Vec<MemDisk> = Vec::new(alloc);
    let moved = rehearse(alloc, machine, events, none, &[1, 2]);
    let Rehearsal::Arrived {
        source: _,
        arrived: _,
        replies,
        arrived_replies,
    } = moved
    else {
        bail!("nothing arrived");
    };
    both_replied(replies.as_slice(), arrived_replies.as_slice())
}

fn both_replied(replies: &[LiveReply], arrived_replies: &[Reply]) -> Result<()> {
    ensure!(replies.len() == 3, "the source's replies");
    ensure!(
        arrived_replies == [Reply::Value(0x7472_6976)].as_slice(),
        "the replies of what arrived"
    );
    Ok(())
}
