//! Recorded runs of drivers, whose machines move on the way.

use anyhow::{Context, Result, ensure};
use std::alloc::Global;
use std::{fs, str};
use vmig::execute;

/// A round ends, if it can, each time this many events are done.
const EVENTS_A_ROUND: usize = 3;

/// The first words of the replies to lines of migration.
const OF_MIGRATION: [&str; 6] = [
    "begun",
    "copied",
    "rounddone",
    "roundopen",
    "stopped",
    "mig",
];

/// Where a machine moves: before which of its events its migration begins and stops, and how many copies follow each event
/// between them.
#[derive(Clone, Copy)]
struct Move {
    begin: usize,
    stop: usize,
    copies: usize,
}

/// Moves the machine of a recorded run: `NAME MOVES COPIES` rehearses the trace NAME.trace MOVES times, with the lines of a
/// migration put in among its events, each time before other events, and COPIES copies after each event. Each time both
/// machines are equal in the end, and the guest's replies are those of NAME.replies.
pub fn move_run(rt: &HostRuntime, words: &str) -> Result<()> {
    let (name, rest) = words.split_once(' ').context("no number of moves")?;
    let (moves, copies) = rest.split_once(' ').context("no number of copies")?;
    let moves = moves.parse::<u16>()?;
    let copies = copies.parse::<usize>()?;
    let trace = read_text(rt, name, "trace")?;
    let replies = read_text(rt, name, "replies")?;
    all_moved(rt, (trace.as_str(), replies.as_str()), moves, copies)
}

fn read_text(rt: &HostRuntime, name: &str, kind: &str) -> Result<String> {
    let file = format!(in rt.alloc(); "{name}.{kind}")?;
    Ok(fs::read_to_string(rt, file.as_str())?)
}

/// Moves the machine of a trace, with its replies, as often as this.
fn all_moved(rt: &HostRuntime, run: (&str, &str), moves: u16, copies: usize) -> Result<()> {
    let (trace, replies) = run;
    let events = trace.lines().filter(|line| is_event(line)).count();
    for turn in 0..moves {
        let moved = place_of(events, turn as usize, moves as usize, copies);
        is_moved(rt, trace, replies, moved).context(turn)?;
    }
    Ok(())
}

/// The first move begins before the first event and ends after a third of them. The later ones begin later and end later, at
/// last a quarter from the beginning and one event from the end.
fn place_of(events: usize, turn: usize, moves: usize, copies: usize) -> Move {
    let last = moves.saturating_sub(1);
    let third = events / 3;
    let rest = events.saturating_sub(third).saturating_sub(1);
    Move {
        begin: part_of(events / 4, turn, last),
        stop: third.saturating_add(part_of(rest, turn, last)),
        copies,
    }
}

/// As much of a count as a turn is of the last one.
fn part_of(count: usize, turn: usize, last: usize) -> usize {
    if last == 0 {
        return 0;
    }
    count.saturating_mul(turn) / last
}

/// Whether a line of a trace is an event.
fn is_event(line: &str) -> bool {
    let (first, _) = line.split_once(' ').unwrap_or((line, ""));
    !first.is_empty()
        && !first.starts_with('#')
        && !matches!(first, "ram" | "net" | "block" | "console" | "entropy")
}

/// The trace with the lines of this move.
fn trace_of(alloc: Global, trace: &str, moved: Move) -> Result<String> {
    let mut text = String::new(alloc);
    let mut event = 0usize;
    for line in trace.lines() {
        if is_event(line) {
            add_lines(&mut text, event, moved)?;
            event = event.saturating_add(1);
        }
        text.push_str(line)?;
        text.push('\n')?;
    }
    Ok(text)
}

/// Adds the lines of migration that come before the event of this number.
fn add_lines(text: &mut String, event: usize, moved: Move) -> Result<()> {
    if event == moved.begin {
        text.push_str("begin\n")?;
    }
    if event > moved.begin && event <= moved.stop {
        for _ in 0..moved.copies {
            text.push_str("copy\n")?;
        }
        if event % EVENTS_A_ROUND == 0 {
            text.push_str("round\n")?;
        }
    }
    if event == moved.stop {
        text.push_str("stop\n")?;
    }
    Ok(())
}

fn is_moved(rt: &HostRuntime, trace: &str, replies: &str, moved: Move) -> Result<()> {
    let text = trace_of(rt.alloc(), trace, moved)?;
    fs::write(rt, "moved.trace", text.as_bytes())?;
    is_rehearsed(rt, replies)
}

fn is_rehearsed(rt: &HostRuntime, replies: &str) -> Result<()> {
    let mut out: Vec<u8> = Vec::new(rt.alloc());
    let mut err: Vec<u8> = Vec::new(rt.alloc());
    let status = execute(rt, &["rehearse", "moved.trace"], &mut out, &mut err);
    ensure!(status == 0 && err.is_empty(), "status {status}");
    has_replies(rt.alloc(), out.as_slice(), replies)
}

fn has_replies(alloc: Global, out: &[u8], replies: &str) -> Result<()> {
    let written = str::from_utf8(out)?;
    let written = written.strip_suffix("equal\n").context("not equal")?;
    let guest = guest_lines(alloc, written)?;
    ensure!(guest.as_str() == replies, "other replies");
    Ok(())
}

/// The lines that are no replies to lines of migration.
fn guest_lines(alloc: Global, written: &str) -> Result<String> {
    let mut lines = String::new(alloc);
    for line in written.lines() {
        let (first, _) = line.split_once(' ').unwrap_or((line, ""));
        if !OF_MIGRATION.contains(&first) {
            lines.push_str(line)?;
            lines.push('\n')?;
        }
    }
    Ok(lines)
}
