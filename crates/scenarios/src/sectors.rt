//! Sectors, as lines of answers.

use crate::disks::TestDisk;
use anyhow::{Result, bail};
use machine::{Machine, SECTOR_SIZE};
use std::io::Write;

/// Writes the contents of a sector: its bytes, or that it is bad, or that its disk failed.
pub fn write_sector(
    machine: &mut Machine<TestDisk>,
    dev: u8,
    n: u64,
    out: &mut Vec<u8>,
) -> Result<()> {
    write!(out, "sector {dev} {n} ")?;
    if !machine.has_sector(dev, n) {
        bail!("no sector");
    }
    let mut bytes = [0; SECTOR_SIZE];
    match machine.read_sector(dev, n, &mut bytes) {
        Ok(true) => write_bytes(&bytes, out),
        Ok(false) => write_word("bad", out),
        Err(_) => write_word("failed", out),
    }
}

fn write_word(word: &str, out: &mut Vec<u8>) -> Result<()> {
    writeln!(out, "{word}")?;
    Ok(())
}

fn write_bytes(bytes: &[u8; SECTOR_SIZE], out: &mut Vec<u8>) -> Result<()> {
    for byte in bytes {
        write!(out, "{byte:02x}")?;
    }
    writeln!(out)?;
    Ok(())
}
