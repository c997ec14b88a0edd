//! The end of a guest.

use crate::bench::{Bench, are_same_devices};
use crate::host::{Host, TestDisk};
use crate::moving::arrived;
use anyhow::{Context, Result, bail, ensure};
use machine::{Machine, SECTOR_SIZE};
use region::KeptRegion;

/// How often a sector is read whose disk fails, at most.
const READS: u32 = 20;

impl Bench {
    /// Gives RAM back, stops the machine that was being sent, and compares the one that arrives, and the disks of so many devices, with the one
    /// that has its RAM. Returns the memory of the windows.
    pub fn end(self, devices: u8) -> Result<(KeptRegion, KeptRegion)> {
        let Bench {
            alloc,
            base,
            machine,
            closing,
            opening,
            ram,
            ..
        } = self;
        let mut machine = machine;
        let mut closed = back(closing, ram.as_slice())?;
        let (opened, stream) = opening.stop(ram.as_slice())?;
        let mut arrived = arrived(alloc, stream.as_slice(), base, opened.shapes())?;
        has_arrived(&arrived, ram.as_slice()).context("the machine that arrives")?;
        are_same_devices(machine.devices(), arrived.devices()).context("the machine that arrives")?;
        for dev in 0..devices {
            have_same_sectors(&mut machine, &mut closed, &mut arrived, dev)?;
        }
        Ok((window_of(closed)?, window_of(opened)?))
    }
}

/// Fails unless a machine has this RAM.
fn has_arrived(machine: &Machine<TestDisk>, bytes: &[u8]) -> Result<()> {
    let ram = machine.ram();
    ram.recall();
    for (n, page) in bytes.chunks(4096).enumerate() {
        ensure!((n as u64) < ram.len() / 4096, "less RAM");
        ensure!(ram.page(n as u64).as_slice() == page, "page {n}");
    }
    Ok(())
}

/// The machine of a host, whose RAM is back.
fn back(host: Host, ram: &[u8]) -> Result<Machine<TestDisk>> {
    let mut host = host;
    host.put(0, ram)?;
    host.into_machine()
}

fn window_of(machine: Machine<TestDisk>) -> Result<KeptRegion> {
    match machine.lend() {
        Ok((region, _parked)) => Ok(KeptRegion::of(region)),
        Err(_machine) => bail!("nothing was lent"),
    }
}

/// Fails unless the disks of a device have the same sectors in all machines.
fn have_same_sectors(
    machine: &mut Machine<TestDisk>,
    closed: &mut Machine<TestDisk>,
    arrived: &mut Machine<TestDisk>,
    dev: u8,
) -> Result<()> {
    let sectors = machine
        .shapes()
        .get(dev as usize)
        .map_or(0, |shape| shape.sectors());
    for n in 0..sectors {
        let sector = sector_of(machine, dev, n)?;
        ensure!(sector_of(closed, dev, n)? == sector, "sector {n}");
        ensure!(sector_of(arrived, dev, n)? == sector, "sector {n}");
    }
    Ok(())
}

/// The bytes of a sector, if it is good. A disk that fails is asked again.
fn sector_of(
    machine: &mut Machine<TestDisk>,
    dev: u8,
    n: u64,
) -> Result<Option<[u8; SECTOR_SIZE]>> {
    let mut bytes = [0; SECTOR_SIZE];
    for _read in 0..READS {
        ensure!(machine.has_sector(dev, n), "no sector");
        match machine.read_sector(dev, n, &mut bytes) {
            Ok(true) => return Ok(Some(bytes)),
            Ok(false) => return Ok(None),
            Err(_) => {}
        }
    }
    bail!("a disk that always fails")
}
