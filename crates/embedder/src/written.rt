//! The pages that a machine writes, handed out by a log. Which they are is known from where the driver put its ring and its buffer.

use crate::own_log::OwnLog;
use crate::own_sink::OwnSink;
use anyhow::{Result, bail, ensure};
use std::alloc::Global;
use vmig::{
    Both, Event, Live, LiveEvent, Machine, MemDisk, MigError, PageLog, Reply, Shape, Stepped,
    Stopped, parse,
};

/// How many pages RAM has, and the log places.
const PAGES: u32 = 8;

/// And how many bytes.
const RAM: u64 = 32_768;

/// A driver of an entropy device asks for four bytes, and the host has put them in. The descriptor table is at 0, and the driver area at
/// 0x100: no step writes there. The device area begins at 0x3ff8: its flags, its index and the id of its first entry are the end of page 3,
/// and the length of that entry is the beginning of page 4 (VIRTIO 1.2, 2.7.8). The buffer begins at 0x5ffe, and so lies in pages 5 and 6.
const ASKED: &str = "ram 8
entropy
w 0 0x070 4 3
w 0 0x024 4 1
w 0 0x020 4 1
w 0 0x070 4 11
w 0 0x038 4 4
w 0 0x080 4 0
w 0 0x090 4 0x100
w 0 0x0a0 4 0x3ff8
w 0 0x044 4 1
w 0 0x070 4 15
mw 0x0 fe5f0000000000000400000002000000
mw 0x100 000001000000
w 0 0x050 4 0
in 0 aabbccdd
";

/// The pages that the step writes.
const STEPPED: [u32; 4] = [3, 4, 5, 6];

/// The same of a packed ring: the descriptor ring begins at 0x1000, and the used descriptor takes the place of the one that was available
/// (VIRTIO 1.2, 2.8.13). The device area, at 0x3000, is written where a queue is found empty alone.
const ASKED_PACKED: &str = "ram 8
entropy
w 0 0x070 4 3
w 0 0x024 4 1
w 0 0x020 4 5
w 0 0x070 4 11
w 0 0x038 4 4
w 0 0x080 4 0x1000
w 0 0x090 4 0x100
w 0 0x0a0 4 0x3000
w 0 0x044 4 1
w 0 0x070 4 15
mw 0x1000 fe5f0000000000000400000007008200
w 0 0x050 4 0
in 0 aabbccdd
";

/// The pages that the step writes then.
const STEPPED_PACKED: [u32; 3] = [1, 5, 6];

/// Makes each call of a log of pages.
pub fn agree(alloc: Global) -> Result<()> {
    steps_are_noted(alloc)?;
    write_to_ram_is_noted(alloc)?;
    lives_note(alloc)
}

fn write_to_ram_is_noted(alloc: Global) -> Result<()> {
    let mut machine = asked(alloc, ASKED)?;
    write_is_noted(alloc, &mut machine)
}

/// The machine whose next step gives the driver its bytes.
fn asked(alloc: Global, driver: &str) -> Result<Machine<MemDisk>> {
    let none: Vec<MemDisk> = Vec::new(alloc);
    let mut machine = Machine::new(alloc, PAGES, &[Shape::Entropy], none)?;
    ask(alloc, &mut machine, driver)?;
    Ok(machine)
}

fn ask(alloc: Global, machine: &mut Machine<MemDisk>, driver: &str) -> Result<()> {
    let trace = parse(alloc, driver.as_bytes())?;
    for event in trace.events.as_slice() {
        takes(machine, event)?;
    }
    Ok(())
}

fn takes(machine: &mut Machine<MemDisk>, event: &LiveEvent) -> Result<()> {
    let LiveEvent::Guest(event) = event else {
        bail!("an event of a migration");
    };
    let reply = machine.apply(event);
    ensure!(!matches!(reply, Reply::Refused(_)), "an event was refused");
    Ok(())
}

/// Steps, of both layouts of a ring.
fn steps_are_noted(alloc: Global) -> Result<()> {
    split_step_is_noted(alloc)?;
    packed_step_is_noted(alloc)?;
    let mut machine = asked(alloc, ASKED)?;
    step_is_noted_twice(alloc, &mut machine)
}

fn split_step_is_noted(alloc: Global) -> Result<()> {
    let mut log = log_of(alloc, ASKED)?;
    in_pieces(&mut log)
}

fn packed_step_is_noted(alloc: Global) -> Result<()> {
    let mut log = log_of(alloc, ASKED_PACKED)?;
    are_noted(&mut log, &STEPPED_PACKED)
}

/// The pages that the next step of the machine writes.
fn log_of(alloc: Global, driver: &str) -> Result<PageLog> {
    let mut machine = asked(alloc, driver)?;
    step(alloc, &mut machine)
}

/// The pages that the step writes.
fn step(alloc: Global, machine: &mut Machine<MemDisk>) -> Result<PageLog> {
    ensure!(machine.ram().len() == RAM, "RAM");
    let mut log = PageLog::new(alloc, PAGES)?;
    let mut sent = Vec::new(alloc);
    let stepped = machine.step_into_logged(0, 0, &mut sent, &mut log);
    ensure!(stepped == Stepped::Completed(4), "the step");
    Ok(log)
}

/// The pages are handed out from the least on, as many as there is room for, each once. The rest of the buffer stays as it was.
fn in_pieces(log: &mut PageLog) -> Result<()> {
    let mut out = [99; 3];
    ensure!(log.hand_out(&mut []) == 0, "no room");
    ensure!(log.hand_out(&mut out) == 3, "a full buffer");
    ensure!(out == [3, 4, 5], "the first pages");
    ensure!(log.hand_out(&mut out) == 1, "the last page");
    ensure!(out == [6, 4, 5], "the rest of the buffer");
    ensure!(log.hand_out(&mut out) == 0 && out == [6, 4, 5], "no page");
    Ok(())
}

/// Fails unless these are the pages of the log.
fn are_noted(log: &mut PageLog, expected: &[u32]) -> Result<()> {
    let mut out = [99; PAGES as usize];
    let count = log.hand_out(&mut out);
    ensure!(count == expected.len(), "the count of pages is {count}");
    ensure!(&out[..count] == expected, "the pages are {out:?}");
    Ok(())
}

/// A step, with a log of our own beside the log of pages.
fn step_is_noted_twice(alloc: Global, machine: &mut Machine<MemDisk>) -> Result<()> {
    ensure!(machine.ram().len() == RAM, "RAM");
    let mut logs = Both {
        first: PageLog::new(alloc, PAGES)?,
        second: OwnLog::EMPTY,
    };
    let step = Event::Step { dev: 0, pick: 0 };
    let reply = machine.apply_logged(&step, &mut logs);
    both_note(&reply, &mut logs)
}

fn both_note(reply: &Reply, logs: &mut Both<PageLog, OwnLog>) -> Result<()> {
    ensure!(*reply == Reply::Completed(4), "the step as an event");
    ensure!(logs.second.is_touched, "a log of our own");
    are_noted(&mut logs.first, &STEPPED)
}

/// A write of RAM, over the end of page 1.
fn write_is_noted(alloc: Global, machine: &mut Machine<MemDisk>) -> Result<()> {
    ensure!(machine.ram().len() == RAM, "RAM");
    let mut log = PageLog::new(alloc, PAGES)?;
    let bytes = [1, 2];
    let answer = machine.write_ram_logged(0x1fff, &bytes, &mut log);
    ensure!(answer.is_ok(), "a write of RAM");
    are_noted(&mut log, &[1, 2])
}

/// The machine, as it is migrated.
fn live(alloc: Global) -> Result<Live<MemDisk, OwnSink>> {
    let Ok(live) = Live::new(alloc, asked(alloc, ASKED)?, OwnSink::new(alloc)) else {
        bail!("out of memory");
    };
    Ok(live)
}

/// Machines that are being migrated, each with a log of ours beside its own.
fn lives_note(alloc: Global) -> Result<()> {
    step_of_new_live_is_noted(alloc)?;
    write_of_new_live_is_noted(alloc)?;
    let mut live = live(alloc)?;
    stopped_live_notes_nothing(alloc, &mut live)
}

fn step_of_new_live_is_noted(alloc: Global) -> Result<()> {
    let mut live = live(alloc)?;
    live_step_is_noted(alloc, &mut live)
}

fn write_of_new_live_is_noted(alloc: Global) -> Result<()> {
    let mut live = live(alloc)?;
    live_write_is_noted(alloc, &mut live)
}

fn live_step_is_noted(alloc: Global, live: &mut Live<MemDisk, OwnSink>) -> Result<()> {
    ensure!(live.machine().ram().len() == RAM, "RAM");
    let mut log = Some(PageLog::new(alloc, PAGES)?);
    let mut sent = Vec::new(alloc);
    let stepped = live.step_into_logged(0, 0, &mut sent, &mut log);
    ensure!(stepped == Ok(Stepped::Completed(4)), "a step of a Live");
    has_noted(log, &STEPPED)
}

fn has_noted(log: Option<PageLog>, expected: &[u32]) -> Result<()> {
    let Some(mut log) = log else {
        bail!("no log");
    };
    are_noted(&mut log, expected)
}

/// A write of the host. Without a log it is the same write.
fn live_write_is_noted(alloc: Global, live: &mut Live<MemDisk, OwnSink>) -> Result<()> {
    ensure!(live.machine().ram().len() == RAM, "RAM");
    let mut log = Some(PageLog::new(alloc, PAGES)?);
    let byte = [1];
    let answer = live.write_ram_logged(0x7000, &byte, &mut log);
    ensure!(answer == Ok(Reply::Done), "a write of a Live");
    let mut none = None;
    let answer = live.write_ram_logged(0x2000, &byte, &mut none);
    ensure!(answer == Ok(Reply::Done) && none.is_none(), "no log");
    has_noted(log, &[7])
}

/// What is refused writes nothing.
fn stopped_live_notes_nothing(alloc: Global, live: &mut Live<MemDisk, OwnSink>) -> Result<()> {
    stops(live)?;
    notes_nothing(alloc, live)
}

fn notes_nothing(alloc: Global, live: &mut Live<MemDisk, OwnSink>) -> Result<()> {
    ensure!(live.machine().ram().len() == RAM, "RAM");
    let mut log = Some(PageLog::new(alloc, PAGES)?);
    let step = Event::Step { dev: 0, pick: 0 };
    let answer = live.apply_logged(&step, &mut log);
    ensure!(answer == Err(MigError::AlreadyStopped), "after the stop");
    has_noted(log, &[])
}

fn stops(live: &mut Live<MemDisk, OwnSink>) -> Result<()> {
    let stopped = Stopped {
        pages: PAGES as u64,
        sectors: 0,
    };
    ensure!(live.begin() == Ok(1), "the begin");
    ensure!(live.stop() == Ok(stopped), "the stop");
    Ok(())
}
