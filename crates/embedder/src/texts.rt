//! Texts of traces and of replies, and the program.

use anyhow::{Result, bail, ensure};
use std::alloc::Global;
use vmig::{LiveReply, Reply, TraceError, execute, parse, parse_events, write_reply};

/// A machine and one event.
const TRACE: &str = "ram 1\nentropy\nr 0 0x000 4\n";

/// Reads a trace, writes a reply, and runs the program on words that are none of its own.
pub fn agree(rt: &HostRuntime) -> Result<()> {
    let alloc = rt.alloc();
    trace_is_read(alloc)?;
    events_are_read(alloc)?;
    fault_is_told(alloc)?;
    reply_is_written(alloc)?;
    program_answers(rt)
}

fn trace_is_read(alloc: Global) -> Result<()> {
    let trace = parse(alloc, TRACE.as_bytes())?;
    ensure!(
        trace.pages == 1 && trace.shapes.len() == 1 && trace.events.len() == 1,
        "the trace"
    );
    ensure!(trace.begin_line == 0, "no line begins a migration");
    Ok(())
}

fn events_are_read(alloc: Global) -> Result<()> {
    let events = parse_events(alloc, b"r 0 0x000 4\n")?;
    ensure!(events.len() == 1, "the events");
    Ok(())
}

fn fault_is_told(alloc: Global) -> Result<()> {
    let Err(error) = parse(alloc, b"ram 1\n") else {
        bail!("a trace without a device");
    };
    ensure!(
        error == TraceError::Line(2) && error.code() == 1,
        "the line"
    );
    Ok(())
}

fn reply_is_written(alloc: Global) -> Result<()> {
    let mut line = Vec::new(alloc);
    write_reply(&LiveReply::Guest(Reply::Value(2)), &mut line)?;
    ensure!(
        line.as_slice() == b"value 0x00000002\n".as_slice(),
        "a line"
    );
    Ok(())
}

fn program_answers(rt: &HostRuntime) -> Result<()> {
    let alloc = rt.alloc();
    let (mut out, mut err) = (Vec::new(alloc), Vec::new(alloc));
    let status = execute(rt, &["play"], &mut out, &mut err);
    ensure!(status == 2 && out.is_empty(), "the status");
    ensure!(
        err.as_slice() == b"vmig: usage\n".as_slice(),
        "the line of a fault"
    );
    Ok(())
}
