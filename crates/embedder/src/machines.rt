//! Machines.

use crate::own_disk::OwnDisk;
use crate::own_log::OwnLog;
use anyhow::{Result, bail, ensure};
use std::alloc::Global;
use vmig::{Bytes, Event, Machine, MemDisk, NewError, Reply, Shape};

const ID: [u8; 20] = [0x41; 20];

/// Makes each call of a machine.
pub fn agree(alloc: Global) -> Result<()> {
    events_answer(alloc)?;
    refusals_have_numbers(alloc)?;
    sectors_are_read(alloc)
}

/// An entropy device tells what it is (VIRTIO 1.2, 4.2.2), and RAM what was written.
fn events_answer(alloc: Global) -> Result<()> {
    let none: Vec<MemDisk> = Vec::new(alloc);
    let mut machine = Machine::new(alloc, 1, &[Shape::Entropy], none)?;
    machine_answers(alloc, &mut machine)
}

fn machine_answers(alloc: Global, machine: &mut Machine<MemDisk>) -> Result<()> {
    magic_is_read(machine)?;
    ram_is_written(alloc, machine)?;
    list_is_played(alloc, machine)?;
    is_as_made(machine)
}

fn is_as_made(machine: &Machine<MemDisk>) -> Result<()> {
    ensure!(
        machine.lines() == 0 && machine.shapes() == [Shape::Entropy].as_slice(),
        "the machine"
    );
    Ok(())
}

/// A register tells what the device is.
fn magic_is_read(machine: &mut Machine<MemDisk>) -> Result<()> {
    let reply = machine.apply(&register(0x000));
    ensure!(reply == Reply::Value(0x7472_6976), "MagicValue");
    Ok(())
}

/// RAM takes two bytes at the end of its page, and the log hears of it.
fn ram_is_written(alloc: Global, machine: &mut Machine<MemDisk>) -> Result<()> {
    let mut log = OwnLog::EMPTY;
    let bytes = Vec::from_array(alloc, [0x68, 0x69])?;
    let write = Event::MemWrite {
        addr: 0xffe,
        bytes: Bytes::from_vec(bytes),
    };
    ensure!(
        machine.apply_logged(&write, &mut log) == Reply::Done && log.is_touched,
        "a write of RAM"
    );
    Ok(())
}

/// A list of events, each with its reply.
fn list_is_played(alloc: Global, machine: &mut Machine<MemDisk>) -> Result<()> {
    let events = events(alloc)?;
    let replies = machine.play(events.as_slice())?;
    are_expected(alloc, replies.as_slice())
}

fn events(alloc: Global) -> Result<Vec<Event>> {
    let events = [
        register(0x008),
        Event::MemRead {
            addr: 0xfff,
            len: 1,
        },
        Event::Step { dev: 0, pick: 0 },
        Event::Resize {
            dev: 0,
            cols: 80,
            rows: 25,
        },
        Event::Drop { dev: 0 },
    ];
    Ok(Vec::from_array(alloc, events)?)
}

fn are_expected(alloc: Global, replies: &[Reply]) -> Result<()> {
    let read = Vec::from_array(alloc, [0x69])?;
    let expected = [
        Reply::Value(4),
        Reply::Bytes(Bytes::from_vec(read)),
        Reply::Idle,
        Reply::Refused(vmig::Refusal::WrongKind),
        Reply::Done,
    ];
    ensure!(
        replies == expected.as_slice(),
        "the replies are {replies:?}"
    );
    Ok(())
}

/// The read of a register of device 0.
fn register(off: u32) -> Event {
    Event::RegRead {
        dev: 0,
        off,
        width: 4,
    }
}

/// Why there is no machine, by number.
fn refusals_have_numbers(alloc: Global) -> Result<()> {
    let none: Vec<MemDisk> = Vec::new(alloc);
    let refused = Machine::new(alloc, 0, &[Shape::Entropy], none);
    ensure!(code_of(refused) == 1, "no page");
    let none: Vec<MemDisk> = Vec::new(alloc);
    let block = Shape::Block {
        sectors: 8,
        read_only: false,
        id: ID,
    };
    ensure!(
        code_of(Machine::new(alloc, 1, &[block], none)) == 2,
        "no disk"
    );
    Ok(())
}

/// The number of a refusal, or 0.
fn code_of(made: Result<Machine<MemDisk>, NewError>) -> u8 {
    match made {
        Ok(_) => 0,
        Err(error) => error.code(),
    }
}

/// A sector of a machine is one of its disk.
fn sectors_are_read(alloc: Global) -> Result<()> {
    let mut machine = machine_with_disk(alloc)?;
    disk_is_read(&mut machine)
}

fn machine_with_disk(alloc: Global) -> Result<Machine<OwnDisk>> {
    let mut disks = Vec::new(alloc);
    disks.push(OwnDisk::new(alloc, 8, false)?)?;
    let block = Shape::Block {
        sectors: 8,
        read_only: false,
        id: ID,
    };
    Ok(Machine::new(alloc, 1, &[block], disks)?)
}

fn disk_is_read(machine: &mut Machine<OwnDisk>) -> Result<()> {
    sector_is_read(machine)?;
    ensure!(machine.ram().len() == 4096, "RAM");
    Ok(())
}

fn sector_is_read(machine: &mut Machine<OwnDisk>) -> Result<()> {
    let mut sector = [1; 512];
    ensure!(!machine.has_sector(0, 8), "a sector past the end");
    if !machine.has_sector(0, 7) {
        bail!("no sector");
    }
    ensure!(machine.read_sector(0, 7, &mut sector)?, "a bad sector");
    ensure!(sector == [0; 512], "a sector of zeros");
    ensure!(machine.bad_sectors(0) == 0, "no bad sector");
    Ok(())
}
