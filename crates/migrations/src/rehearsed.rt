//! Machines whose move is rehearsed.

use crate::recording_disk::{RecordingDisk, SectorWrite};
use anyhow::{Context, Result, bail, ensure};
use books::{Book, Scenario, Script, spelled};
use machine::{Disk, Machine, Reply, SECTOR_SIZE};
use rehearsal::{Rehearsal, rehearse};
use scenarios::{PIECES, TestDisk, are_lines, are_saved_alike, disks_of};
use sender::LiveReply;
use std::alloc::Global;
use traces::{Trace, parse, write_reply};

/// How many cuts a stream gets: no stream here is longer.
const CUTS: usize = 8192;

/// How many pieces of odd sizes are cut off: they are 10,000 bytes.
const ODD_CUTS: usize = 100;

/// Shows a scenario of a book of rehearsals: the lines of a script of a machine with one disk, in which the machine is sent,
/// and after a line `written` what is written to the disk of the machine that arrives, a line for each write: the sector, and
/// its bytes as `spelled` reads them.
///
/// The replies are as the lines say, both machines answer alike and are saved alike, and that disk is written to as the lines
/// say: a move that did not use the stream would write otherwise. The stream is fed whole, in pieces of one size, and in pieces
/// of 1, 3, 5 bytes and so on.
pub fn show(alloc: Global, book: &Book, scenario: &Scenario) -> Result<()> {
    let text = book.text(alloc, scenario)?;
    writes_as_told(alloc, text.as_str())
}

/// Fails if another machine arrives, or if its disk is written to otherwise than this text says.
fn writes_as_told(alloc: Global, text: &str) -> Result<()> {
    let (lines, written) = text.split_once("written\n").context("nothing is written")?;
    let mut script = Script::new(alloc);
    script.add(lines)?;
    let written = writes_of(alloc, written)?;
    is_rehearsed_in_pieces(alloc, &script, written.as_slice())
}

fn is_rehearsed_in_pieces(alloc: Global, script: &Script, written: &[SectorWrite]) -> Result<()> {
    is_rehearsed(alloc, script, &[], written)?;
    for size in PIECES {
        let cuts = vec![in alloc; size; CUTS]?;
        is_rehearsed(alloc, script, cuts.as_slice(), written).context("in pieces")?;
    }
    let cuts = odd_cuts(alloc)?;
    is_rehearsed(alloc, script, cuts.as_slice(), written).context("in odd pieces")
}

/// The writes of these lines.
fn writes_of(alloc: Global, lines: &str) -> Result<Vec<SectorWrite>> {
    let mut writes = Vec::new(alloc);
    for line in lines.lines() {
        writes.push(write_of(alloc, line)?)?;
    }
    Ok(writes)
}

/// The write of a line.
fn write_of(alloc: Global, line: &str) -> Result<SectorWrite> {
    let (sector, words) = line.split_once(' ').context("no bytes")?;
    let sector = sector.parse::<u64>()?;
    let held = spelled(alloc, words)?;
    ensure!(held.len() == SECTOR_SIZE, "{line}");
    let mut bytes = [0; SECTOR_SIZE];
    for (to, from) in bytes.iter_mut().zip(held.iter()) {
        *to = *from;
    }
    Ok(SectorWrite { sector, bytes })
}

/// The sizes 1, 3, 5 and so on.
fn odd_cuts(alloc: Global) -> Result<Vec<usize>> {
    let mut cuts = Vec::new(alloc);
    for turn in 0..ODD_CUTS {
        cuts.push(2 * turn + 1)?;
    }
    Ok(cuts)
}

fn is_rehearsed(
    alloc: Global,
    script: &Script,
    cuts: &[usize],
    written: &[SectorWrite],
) -> Result<()> {
    let trace = parse(alloc, script.trace())?;
    let mut writes = Vec::new(alloc);
    is_recorded(alloc, script, &trace, cuts, &mut writes)?;
    ensure!(writes.as_slice() == written, "other writes");
    Ok(())
}

/// Fails if another machine arrives. The writes to its disk are appended to the list.
fn is_recorded(
    alloc: Global,
    script: &Script,
    trace: &Trace,
    cuts: &[usize],
    writes: &mut Vec<SectorWrite>,
) -> Result<()> {
    let sectors = sectors_of(trace)?;
    let disks = recording_disks(alloc, sectors, writes)?;
    arrives(alloc, script, trace, disks, cuts)
}

/// The size of the one disk.
fn sectors_of(trace: &Trace) -> Result<u64> {
    for shape in &trace.shapes {
        if shape.sectors() > 0 {
            return Ok(shape.sectors());
        }
    }
    bail!("no disk")
}

/// One disk, whose writes are appended to the list.
fn recording_disks<'w>(
    alloc: Global,
    sectors: u64,
    writes: &'w mut Vec<SectorWrite>,
) -> Result<Vec<RecordingDisk<'w>>> {
    let mut disks = Vec::new(alloc);
    disks.push(RecordingDisk::new(alloc, sectors, writes)?)?;
    Ok(disks)
}

/// Fails if another machine arrives over these disks.
fn arrives<E: Disk + Drop>(
    alloc: Global,
    script: &Script,
    trace: &Trace,
    disks: Vec<E>,
    cuts: &[usize],
) -> Result<()> {
    let shapes = trace.shapes.as_slice();
    let own = disks_of(alloc, script, shapes)?;
    let machine = Machine::new(alloc, trace.pages, shapes, own)?;
    let mut moved = rehearse(alloc, machine, trace.events.as_slice(), disks, cuts);
    agrees(alloc, script, &mut moved)
}

/// Fails if a move was refused, if the replies are others than the lines say, or if the machine that arrived is another one.
fn agrees<E: Disk>(
    alloc: Global,
    script: &Script,
    moved: &mut Rehearsal<TestDisk, E>,
) -> Result<()> {
    match moved {
        Rehearsal::Arrived {
            source,
            arrived,
            replies,
            arrived_replies,
        } => {
            are_replied(
                alloc,
                script,
                replies.as_slice(),
                arrived_replies.as_slice(),
            )?;
            are_saved_alike(alloc, source, arrived)
        }
        Rehearsal::NotStopped { .. } => bail!("no stop"),
        Rehearsal::Refused { error, .. } => bail!("{error}"),
    }
}

/// Fails if the replies of the machine that was sent are others than the lines say, or those of the machine that arrived.
fn are_replied(
    alloc: Global,
    script: &Script,
    replies: &[LiveReply],
    arrived: &[Reply],
) -> Result<()> {
    are_replies_of(alloc, script, replies)?;
    answered_alike(replies, arrived)
}

fn are_replies_of(alloc: Global, script: &Script, replies: &[LiveReply]) -> Result<()> {
    let lines = lines_of(alloc, replies)?;
    are_lines(lines.as_slice(), script.replies())
}

/// The lines of replies.
fn lines_of(alloc: Global, replies: &[LiveReply]) -> Result<Vec<u8>> {
    let mut lines = Vec::new(alloc);
    for reply in replies {
        write_reply(reply, &mut lines)?;
    }
    Ok(lines)
}

/// Fails if the last replies of the machine that was sent are not those of the machine that arrived.
fn answered_alike(replies: &[LiveReply], arrived: &[Reply]) -> Result<()> {
    let before = replies
        .len()
        .checked_sub(arrived.len())
        .context("more replies")?;
    for (reply, arrived) in replies.iter().skip(before).zip(arrived) {
        match reply {
            LiveReply::Guest(reply) => ensure!(reply == arrived, "another reply"),
            _ => bail!("a reply of the migration"),
        }
    }
    Ok(())
}
