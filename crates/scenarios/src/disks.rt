//! The disks of the machines of scenarios.

use anyhow::Result;
use books::Script;
use machine::{Disk, FaultDisk, MemDisk, SECTOR_SIZE, Shape};
use std::alloc::Global;

/// A disk in memory, some of whose calls may fail.
pub type TestDisk = FaultDisk<MemDisk>;

/// Disks of zeros for the block devices of these shapes. None of their calls fails.
pub fn disks_for(alloc: Global, shapes: &[Shape]) -> Result<Vec<TestDisk>> {
    let script = Script::new(alloc);
    disks_of(alloc, &script, shapes)
}

/// The disks of a script's machine, which has these shapes.
pub fn disks_of(alloc: Global, script: &Script, shapes: &[Shape]) -> Result<Vec<TestDisk>> {
    disks_by(alloc, script, script.plans(), shapes)
}

/// The disks of a script's machine that is not migrated.
pub fn disks_alone(alloc: Global, script: &Script, shapes: &[Shape]) -> Result<Vec<TestDisk>> {
    disks_by(alloc, script, script.plans_alone(), shapes)
}

fn disks_by(
    alloc: Global,
    script: &Script,
    plans: &[(usize, u64)],
    shapes: &[Shape],
) -> Result<Vec<TestDisk>> {
    let mut disks = Vec::new(alloc);
    for (dev, shape) in shapes.iter().enumerate() {
        if let Shape::Block { sectors, .. } = shape {
            let is_filled = script.fills(dev);
            disks.push(disk_of(alloc, *sectors, is_filled, plans, dev)?)?;
        }
    }
    Ok(disks)
}

/// The disk of a device, whose calls fail by the plans of all devices.
fn disk_of(
    alloc: Global,
    sectors: u64,
    is_filled: bool,
    plans: &[(usize, u64)],
    dev: usize,
) -> Result<TestDisk> {
    let plan = plan_of(alloc, plans, dev)?;
    let mut disk = MemDisk::new(alloc, sectors)?;
    if is_filled {
        fill(&mut disk)?;
    }
    Ok(FaultDisk::new(disk, plan))
}

/// The calls that fail, of the disk of a device.
fn plan_of(alloc: Global, plans: &[(usize, u64)], dev: usize) -> Result<Vec<u64>> {
    let mut plan = Vec::new(alloc);
    for (planned, call) in plans {
        if *planned == dev {
            plan.push(*call)?;
        }
    }
    Ok(plan)
}

/// Fills each sector with its number modulo 256.
fn fill(disk: &mut MemDisk) -> Result<()> {
    for n in 0..disk.sectors() {
        disk.write(n, &[(n % 256) as u8; SECTOR_SIZE])?;
    }
    Ok(())
}
