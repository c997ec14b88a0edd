//! Scripts, played.

use crate::disks::{TestDisk, disks_of};
use crate::outside::{made, write_asked, write_given};
use crate::sectors::write_sector;
use anyhow::{Result, bail, ensure};
use books::{Book, Question, Scenario, Script};
use machine::{Event, Machine, Shape};
use sender::LiveEvent;
use std::alloc::Global;
use std::io::Write;
use std::str;
use traces::{Trace, parse, parse_events, write_guest_reply};

/// Plays a scenario of a book of scripts, on a machine whose RAM begins at the address `base`.
pub fn play_scenario(alloc: Global, book: &Book, scenario: &Scenario, base: u64) -> Result<()> {
    let script = book.script_at(alloc, scenario, base)?;
    let _machine = play(alloc, &script)?;
    Ok(())
}

/// The machine of a script after all its events, whose replies must be those of the script.
pub fn play(alloc: Global, script: &Script) -> Result<Machine<TestDisk>> {
    let Trace {
        pages,
        shapes,
        events,
        begin_line: _,
    } = parse(alloc, script.trace())?;
    let mut machine = machine_of(alloc, script, pages, shapes.as_slice())?;
    plays(alloc, &mut machine, script, events)?;
    Ok(machine)
}

/// The machine of a script as it begins.
fn machine_of(
    alloc: Global,
    script: &Script,
    pages: u32,
    shapes: &[Shape],
) -> Result<Machine<TestDisk>> {
    let disks = disks_of(alloc, script, shapes)?;
    made(alloc, script.base(), pages, shapes, disks)
}

/// Plays the events of a script, whose replies must be those of the script.
fn plays(
    alloc: Global,
    machine: &mut Machine<TestDisk>,
    script: &Script,
    events: Vec<LiveEvent>,
) -> Result<()> {
    let events = guest_events(alloc, events, script.base())?;
    agrees(alloc, machine, script, events.as_slice())
}

/// The events of a trace without a migration, for RAM that begins at the address `base`.
fn guest_events(alloc: Global, events: Vec<LiveEvent>, base: u64) -> Result<Vec<Event>> {
    let mut guest = Vec::new(alloc);
    for event in events {
        add_guest_event(&mut guest, event, base)?;
    }
    Ok(guest)
}

fn add_guest_event(guest: &mut Vec<Event>, event: LiveEvent, base: u64) -> Result<()> {
    match event {
        LiveEvent::Guest(event) => guest.push(shifted(event, base))?,
        _ => bail!("a line of a migration"),
    }
    Ok(())
}

/// An event of a RAM that begins at the address 0, where RAM begins at the address `base`. Addresses are shifted modulo 2^64.
fn shifted(event: Event, base: u64) -> Event {
    match event {
        Event::MemRead { addr, len } => Event::MemRead {
            addr: addr.wrapping_add(base),
            len,
        },
        Event::MemWrite { addr, bytes } => Event::MemWrite {
            addr: addr.wrapping_add(base),
            bytes,
        },
        other => other,
    }
}

/// Plays lines of events on a given machine. The replies must be as they say.
pub fn plays_on(alloc: Global, machine: &mut Machine<TestDisk>, lines: &str) -> Result<()> {
    let mut script = Script::new(alloc);
    script.add(lines)?;
    let events = parse_events(alloc, script.trace())?;
    agrees(alloc, machine, &script, events.as_slice())
}

fn agrees(
    alloc: Global,
    machine: &mut Machine<TestDisk>,
    script: &Script,
    events: &[Event],
) -> Result<()> {
    let replies = replies_to(alloc, machine, script, events)?;
    are_lines(replies.as_slice(), script.replies())
}

/// Fails at the first line that is not the expected one.
pub fn are_lines(lines: &[u8], expected: &[u8]) -> Result<()> {
    let told = lines.split(|byte| *byte == b'\n');
    for (line, wanted) in told.zip(expected.split(|byte| *byte == b'\n')) {
        is_line(line, wanted)?;
    }
    ensure!(lines.len() == expected.len(), "more or fewer lines");
    Ok(())
}

fn is_line(line: &[u8], wanted: &[u8]) -> Result<()> {
    if line != wanted {
        bail!(
            "{} and not {}",
            str::from_utf8(line)?,
            str::from_utf8(wanted)?
        );
    }
    Ok(())
}

fn replies_to(
    alloc: Global,
    machine: &mut Machine<TestDisk>,
    script: &Script,
    events: &[Event],
) -> Result<Vec<u8>> {
    let mut replies = Vec::new(alloc);
    answer_questions(machine, script, 0, &mut replies)?;
    for (at, event) in events.iter().enumerate() {
        write_guest_reply(&machine.apply(event), &mut replies)?;
        answer_questions(machine, script, at.saturating_add(1), &mut replies)?;
    }
    Ok(replies)
}

/// Answers what is asked after `events` events.
fn answer_questions(
    machine: &mut Machine<TestDisk>,
    script: &Script,
    events: usize,
    out: &mut Vec<u8>,
) -> Result<()> {
    for (asked, question) in script.questions() {
        if *asked == events {
            answer_of_machine(machine, *question, out)?;
        }
    }
    Ok(())
}

/// Answers what is asked of a machine.
pub fn answer_of_machine(
    machine: &mut Machine<TestDisk>,
    question: Question,
    out: &mut Vec<u8>,
) -> Result<()> {
    match question {
        Question::Lines => write_lines(machine, out),
        Question::Sector { dev, n } => write_sector(machine, dev, n, out),
        Question::Asked { dev, pick } => write_asked(machine, dev, pick, out),
        Question::Given { dev, pick } => write_given(machine, dev, pick, out),
        _ => bail!("asked of a migration alone"),
    }
}

/// Writes the interrupt lines.
fn write_lines(machine: &Machine<TestDisk>, out: &mut Vec<u8>) -> Result<()> {
    writeln!(out, "lines {}", machine.lines())?;
    Ok(())
}
