//! A host that knows the library by the public calls of `vmig` alone, with a disk, a log and a sink of its own. It makes each call, in
//! the plainest form that there is, and compares what comes back with what the standard says. The first that differs ends the program.
//! The parts of a machine are called by `embedder_parts`.
#![tactic(auto)]

mod durable;
mod limits;
mod machines;
mod moves;
mod own_disk;
mod own_log;
mod own_sink;
mod streams;
mod takings;
mod telling;
mod texts;
mod written;

use anyhow::Result;
use std::io::Write;

/// Writes a line: what was compared.
fn say(rt: &HostRuntime, compared: &str) -> Result<()> {
    println!(rt; "{compared}")?;
    Ok(())
}

/// A machine, and what its disk is asked for.
fn machines_agree(rt: &HostRuntime) -> Result<()> {
    let alloc = rt.alloc();
    machines::agree(alloc)?;
    say(rt, "machines")?;
    durable::ends_after_its_flush(alloc)?;
    say(rt, "a write that ends after its flush")?;
    written::agree(alloc)?;
    say(rt, "the pages that are written")?;
    limits::agree(alloc)?;
    say(rt, "how large a machine may be")
}

/// A machine on its way to another host.
fn moves_agree(rt: &HostRuntime) -> Result<()> {
    let alloc = rt.alloc();
    streams::agree(alloc)?;
    say(rt, "streams, and a sink of our own")?;
    moves::agree(alloc)?;
    say(rt, "machines that move")?;
    takings::agree(alloc)?;
    say(rt, "a stream that is taken while it grows")
}

fn main(rt: HostRuntime) -> Result<()> {
    machines_agree(&rt)?;
    moves_agree(&rt)?;
    texts::agree(&rt)?;
    say(&rt, "texts, and the program")
}
