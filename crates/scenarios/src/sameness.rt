//! Whether two machines are the same.

use crate::disks::TestDisk;
use crate::sectors::write_sector;
use crate::stream::saved;
use anyhow::{Result, ensure};
use machine::{Disk, Event, Machine};
use std::alloc::Global;

/// Fails if two machines differ: in their devices, their RAM, their sectors, their interrupt lines, or in the stream that each
/// is saved as.
pub fn are_same(
    alloc: Global,
    one: &mut Machine<TestDisk>,
    other: &mut Machine<TestDisk>,
) -> Result<()> {
    ensure!(one.shapes() == other.shapes(), "other devices");
    ensure!(one.lines() == other.lines(), "other lines");
    have_same_pages(one, other)?;
    have_same_sectors(alloc, one, other)?;
    are_saved_alike(alloc, one, other)
}

fn have_same_pages(one: &mut Machine<TestDisk>, other: &mut Machine<TestDisk>) -> Result<()> {
    ensure!(one.ram().len() == other.ram().len(), "less or more RAM");
    for page in 0..one.ram().len() / 4096 {
        let read = Event::MemRead {
            addr: page * 4096,
            len: 4096,
        };
        ensure!(one.apply(&read) == other.apply(&read), "page {page}");
    }
    Ok(())
}

fn have_same_sectors(
    alloc: Global,
    one: &mut Machine<TestDisk>,
    other: &mut Machine<TestDisk>,
) -> Result<()> {
    let sectors = sectors_of(alloc, one)?;
    ensure!(sectors == sectors_of(alloc, other)?, "other sectors");
    Ok(())
}

/// Fails if two machines are saved as different streams.
pub fn are_saved_alike<D: Disk, E: Disk>(
    alloc: Global,
    one: &mut Machine<D>,
    other: &mut Machine<E>,
) -> Result<()> {
    let stream = saved(alloc, one)?;
    ensure!(stream == saved(alloc, other)?, "saved otherwise");
    Ok(())
}

/// A line for each sector of each disk.
fn sectors_of(alloc: Global, machine: &mut Machine<TestDisk>) -> Result<Vec<u8>> {
    let mut lines = Vec::new(alloc);
    for dev in 0..machine.shapes().len() {
        write_disk(machine, dev as u8, &mut lines)?;
    }
    Ok(lines)
}

fn write_disk(machine: &mut Machine<TestDisk>, dev: u8, out: &mut Vec<u8>) -> Result<()> {
    let sectors = machine
        .shapes()
        .get(dev as usize)
        .map_or(0, |shape| shape.sectors());
    for n in 0..sectors {
        write_sector(machine, dev, n, out)?;
    }
    Ok(())
}
