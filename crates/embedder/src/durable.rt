//! What a driver that did not accept FLUSH wrote is durable before the reply that ends its write, by the loop that a host makes.

use crate::own_disk::{Called, OwnDisk};
use anyhow::{Result, bail, ensure};
use std::alloc::Global;
use vmig::{Event, LiveEvent, Machine, Reply, Shape, SyncOwed, parse};

/// A driver that accepts VERSION_1 alone writes sector 3 of a disk of 8. Its status byte is at 0x900, and begins as 9.
const WRITE: &str = "ram 1
block 8 rw 4141414141414141414141414141414141414141
w 0 0x070 4 3
w 0 0x024 4 1
w 0 0x020 4 1
w 0 0x070 4 11
w 0 0x038 4 4
w 0 0x080 4 0
w 0 0x090 4 0x100
w 0 0x0a0 4 0x200
w 0 0x044 4 1
w 0 0x070 4 15
mw 0x0 00080000000000001000000001000100000a000000000000000200000100020000090000000000000100000002000000
mw 0x800 01000000000000000300000000000000
mw 0x900 09
mw 0x100 000001000000
w 0 0x050 4 0
s 0 0
s 0 1
s 0 1
";

/// Where the disk flushes, the write ends after its flush; where that fails, the write does not end.
pub fn ends_after_its_flush(alloc: Global) -> Result<()> {
    leaves(alloc, false, 0, &[Called::Write(3), Called::Flush])?;
    leaves(alloc, true, 9, &[Called::Write(3)])
}

/// Fails unless the write leaves this status byte, and these were the calls of its disk.
fn leaves(alloc: Global, flush_fails: bool, status: u8, called: &[Called]) -> Result<()> {
    let calls = calls_of_write(alloc, flush_fails, status)?;
    ensure!(
        calls.as_slice() == called,
        "the calls of a disk whose flush fails: {flush_fails}"
    );
    Ok(())
}

/// The calls of the disk, where the write leaves this status byte.
fn calls_of_write(alloc: Global, flush_fails: bool, status: u8) -> Result<Vec<Called>> {
    let trace = parse(alloc, WRITE.as_bytes())?;
    let machine = machine_with(alloc, trace.shapes.as_slice(), flush_fails)?;
    calls_after(machine, trace.events.as_slice(), status)
}

/// A machine over a disk that keeps its calls.
fn machine_with(alloc: Global, shapes: &[Shape], flush_fails: bool) -> Result<Machine<OwnDisk>> {
    let mut disks = Vec::new(alloc);
    disks.push(OwnDisk::new(alloc, 8, flush_fails)?)?;
    Ok(Machine::new(alloc, 1, shapes, disks)?)
}

/// The calls of its disk after these events, which leave this status byte.
fn calls_after(
    mut machine: Machine<OwnDisk>,
    events: &[LiveEvent],
    status: u8,
) -> Result<Vec<Called>> {
    drive(&mut machine, events)?;
    has_status(&machine, status)?;
    calls_of(machine)
}

/// Applies the events of the trace.
fn drive(machine: &mut Machine<OwnDisk>, events: &[LiveEvent]) -> Result<()> {
    for event in events {
        serve(machine, event)?;
    }
    Ok(())
}

/// Fails unless the status byte of the write is this one.
fn has_status(machine: &Machine<OwnDisk>, expected: u8) -> Result<()> {
    let mut status = [0];
    ensure!(
        machine.read_ram(0x900, &mut status).is_ok(),
        "RAM is too short"
    );
    ensure!(status == [expected], "the status byte is not {expected}");
    Ok(())
}

/// The calls that were made of the disk, which is that of the last device.
fn calls_of(machine: Machine<OwnDisk>) -> Result<Vec<Called>> {
    let mut devices = machine.into_devices();
    let Some(device) = devices.pop() else {
        bail!("no device");
    };
    let Some(sectors) = device.into_sectors() else {
        bail!("no disk");
    };
    let (disk, _bad) = sectors.into_parts();
    Ok(disk.calls)
}

/// Applies an event. Before the end of a write that its driver takes for durable the disk is flushed; where that fails the step is not made.
fn serve(machine: &mut Machine<OwnDisk>, event: &LiveEvent) -> Result<()> {
    let LiveEvent::Guest(event) = event else {
        bail!("an event of a migration");
    };
    if let Event::Step { dev, pick } = event {
        if is_lost(machine, *dev, *pick) {
            return Ok(());
        }
    }
    let reply = machine.apply(event);
    ensure!(!matches!(reply, Reply::Refused(_)), "an event was refused");
    Ok(())
}

/// Flushes the disk before a step that needs it, and tells whether that failed.
fn is_lost(machine: &mut Machine<OwnDisk>, dev: u8, pick: u8) -> bool {
    if dev as usize >= machine.shapes().len() {
        return false;
    }
    let SyncOwed::EndOfWrite = machine.state(dev).must_sync(pick) else {
        return false;
    };
    machine.flush_disk(dev).is_err()
}
