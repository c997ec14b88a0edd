//! A host that knows the parts of the library by their public calls alone: sets of numbers, RAM, registers and rings, with a ring and a
//! log of its own. It makes each call, in the plainest form that there is, and compares what comes back with what the standard says.
//! The first that differs ends the program.
#![tactic(auto)]

mod bits;
mod memory;
mod own_log;
mod own_ring;
mod registers;
mod rings;

use anyhow::Result;
use std::io::Write;

/// Writes a line: what was compared.
fn say(rt: &HostRuntime, compared: &str) -> Result<()> {
    println!(rt; "{compared}")?;
    Ok(())
}

fn main(rt: HostRuntime) -> Result<()> {
    let alloc = rt.alloc();
    bits::agree(alloc)?;
    say(&rt, "sets of numbers")?;
    memory::agrees(alloc)?;
    say(&rt, "RAM")?;
    registers::agree()?;
    say(&rt, "registers")?;
    rings::agree(alloc)?;
    say(&rt, "rings of both layouts, and one of our own")
}
