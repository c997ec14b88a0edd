//! A small host: the whole loop that a host writes around the library. A scripted driver takes the place of a VCPU. The machine
//! is saved while a buffer of the driver still waits, is received again, and continues there; then it moves to a third host
//! while its guest reads its disk.
//!
//! It uses `vmig` alone, beside `anyhow`: one crate is enough for a host. docs/rattle.md quotes it.
#![tactic(auto)]

mod driver;
mod host;
mod migration;

use anyhow::Result;
use driver::{
    ASK_TWICE, DISK, DISK_AREAS, ENTROPY, ENTROPY_AREAS, HANDLE_INTERRUPT, READ_SECTOR,
    WRITE_SECTOR, bring_up,
};
use host::Host;
use std::io::Write;

fn main(rt: HostRuntime) -> Result<()> {
    let mut here = Host::new(&rt)?;
    here.run(&rt, &bring_up(ENTROPY, ENTROPY_AREAS))?;
    here.run(&rt, &ASK_TWICE)?;
    here.give(&rt, ENTROPY, b"abcd")?;
    here.run(&rt, &HANDLE_INTERRUPT)?;
    here.show(&rt, 0x800)?;
    here.run(&rt, &bring_up(DISK, DISK_AREAS))?;
    here.run(&rt, &WRITE_SECTOR)?;

    let stream = here.save(&rt)?;
    println!(rt; "host: saved {} bytes, and receives them", stream.len())?;
    let mut there = Host::receive(&rt, stream.as_slice())?;
    there.give(&rt, ENTROPY, b"efgh")?;
    there.run(&rt, &HANDLE_INTERRUPT)?;
    there.show(&rt, 0x900)?;

    println!(rt; "host: moves the machine while its guest runs")?;
    let moved = there.migrate(&rt, &READ_SECTOR)?;
    moved.show(&rt, 0x900)?;
    moved.show(&rt, 0x1600)
}
