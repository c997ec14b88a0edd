//! What a disk outside of a machine is asked for, as lines of answers; and the limits of machines that may have one.

use crate::disks::TestDisk;
use anyhow::Result;
use blk::What;
use machine::{Board, Limits, Machine, OutsideCall, RamOf, Shape};
use receiver::Terms;
use std::alloc::Global;
use std::io::Write;

/// How many bytes of a write are asked for at once. No write here has more.
const MOST: usize = 4096;

/// The usual limits, with disks outside of any size.
pub fn limits() -> Limits {
    Limits {
        outside: Limits::greatest().outside,
        ..Limits::usual()
    }
}

/// A machine within these limits arrives with RAM from the address 0 on.
pub fn terms() -> Terms {
    Terms {
        base: 0,
        limits: limits(),
    }
}

/// A new machine within these limits, whose RAM begins at the address `base`.
pub fn made(
    alloc: Global,
    base: u64,
    pages: u32,
    shapes: &[Shape],
    disks: Vec<TestDisk>,
) -> Result<Machine<TestDisk>> {
    let board = Board {
        limits: limits(),
        base,
        ram: RamOf::Pages(pages),
        shapes,
        disks,
    };
    match Machine::make(alloc, board) {
        Ok(machine) => Ok(machine),
        Err(unmade) => Err(unmade.reason().into()),
    }
}

/// Writes what a request asks for.
pub fn write_asked(
    machine: &Machine<TestDisk>,
    dev: u8,
    pick: u8,
    out: &mut Vec<u8>,
) -> Result<()> {
    write!(out, "asks {dev} {pick} ")?;
    match machine.disk_call(dev, pick) {
        Some(asked) => write_call(asked, out)?,
        None => writeln!(out, "nothing")?,
    }
    Ok(())
}

fn write_call(asked: OutsideCall, out: &mut Vec<u8>) -> Result<()> {
    let (first, count) = (asked.call.first, asked.call.count);
    match word_of(asked.call.what) {
        Some(word) => write!(out, "{word} {first} {count}")?,
        None => write!(out, "flush")?,
    }
    if asked.durable {
        write!(out, " durable")?;
    }
    writeln!(out)?;
    Ok(())
}

/// The word of a call for sectors.
fn word_of(what: What) -> Option<&'static str> {
    match what {
        What::Read => Some("read"),
        What::Write => Some("write"),
        What::Clear => Some("clear"),
        What::Flush => None,
    }
}

/// Writes the bytes that a request writes.
pub fn write_given(
    machine: &Machine<TestDisk>,
    dev: u8,
    pick: u8,
    out: &mut Vec<u8>,
) -> Result<()> {
    write!(out, "gives {dev} {pick} ")?;
    let mut bytes = [0u8; MOST];
    let count = machine.written_bytes(dev, pick, &mut bytes);
    write_first(&bytes, count, out)
}

/// Writes the first of these bytes, and the end of the line.
fn write_first(bytes: &[u8], count: usize, out: &mut Vec<u8>) -> Result<()> {
    if count == 0 {
        write!(out, "-")?;
    }
    for byte in bytes.iter().take(count) {
        write!(out, "{byte:02x}")?;
    }
    writeln!(out)?;
    Ok(())
}
