//! One guest in three machines that are made alike: one that has its RAM, and two whose RAM is lent.

use crate::draws::Draws;
use crate::host::{Host, TestDisk};
use crate::moving::Moving;
use crate::sameness::are_same;
use crate::window::{BYTES, PAGES};
use anyhow::{Result, bail, ensure};
use machine::{Board, Device, FaultDisk, Limits, Machine, MemDisk, RamOf, Reply, Shape, Work};
use region::KeptRegion;
use std::alloc::Global;

/// How many sectors each disk has.
pub const SECTORS: u64 = 8;

/// The machines, the RAM of their guest, and what is drawn for it.
#[derive(Drop)]
pub struct Bench {
    /// The allocator.
    pub alloc: Global,

    /// The address at which RAM begins.
    pub base: u64,

    /// The machine that has its RAM.
    pub machine: Machine<TestDisk>,

    /// The host that has the driver's word in its window at each step.
    pub closing: Host,

    /// The host that ends a step by the driver's word, where it can, and whose machine is being sent all along.
    pub opening: Moving,

    /// RAM as the hosts' guest has it.
    pub ram: Vec<u8>,

    /// What is drawn.
    pub draws: Draws,
}

/// What a guest begins with.
#[derive(Clone, Copy)]
pub struct Beginning<'a> {
    /// The address at which RAM begins.
    pub base: u64,

    /// The devices.
    pub shapes: &'a [Shape],

    /// The calls of each disk that fail, counted from 1.
    pub plan: &'a [u64],
}

impl Bench {
    /// The machines of a guest, with this memory for the windows.
    pub fn new(
        alloc: Global,
        beginning: &Beginning<'_>,
        windows: (KeptRegion, KeptRegion),
        draws: Draws,
    ) -> Result<Bench> {
        let (one, other) = windows;
        let disks = disks_of(alloc, beginning, 0)?;
        let machine = made(alloc, beginning, disks, RamOf::Pages(PAGES))?;
        let closing = host_of(alloc, beginning, one)?;
        let opening = Moving::of(alloc, machine_over(alloc, beginning, other, SECTORS)?)?;
        Ok(Bench {
            alloc,
            base: beginning.base,
            machine,
            closing,
            opening,
            ram: vec![in alloc; 0u8; BYTES]?,
            draws,
        })
    }

    /// The guest writes bytes from an index of RAM on, where they lie in it.
    pub fn write(&mut self, at: usize, bytes: &[u8]) -> Result<()> {
        if at > self.ram.len() || bytes.len() > self.ram.len() - at {
            return Ok(());
        }
        self.ram.as_mut_slice()[at..at + bytes.len()].copy_from_slice(bytes);
        self.opening.note(at, bytes.len());
        let addr = self.base.wrapping_add(at as u64);
        ensure!(
            self.machine.write_ram(addr, bytes).is_ok(),
            "a write of RAM"
        );
        Ok(())
    }

    /// The driver writes a register.
    pub fn write_register(&mut self, dev: u8, offset: u32, value: u32) -> Result<()> {
        let reply = self.machine.write_register(dev, offset, 4, value);
        let (closing, opening) = (&mut self.closing.parked, &mut self.opening.live);
        ensure!(
            closing.write_register(dev, offset, 4, value) == reply
                && opening.write_register(dev, offset, 4, value) == Ok(Reply::from_written(reply)),
            "the write of a register"
        );
        Ok(())
    }

    /// The driver reads a register.
    pub fn read_register(&self, dev: u8, offset: u32) -> Result<u32> {
        let reply = self.machine.read_register(dev, offset, 4);
        ensure!(
            self.closing.parked.read_register(dev, offset, 4) == reply
                && self.opening.live.read_register(dev, offset, 4) == Ok(Reply::from_value(reply)),
            "the read of a register"
        );
        match reply {
            Ok(value) => Ok(value),
            Err(_) => bail!("no device"),
        }
    }

    /// The host puts bytes in.
    pub fn input(&mut self, dev: u8, bytes: &[u8]) -> Result<()> {
        let reply = self.machine.input(dev, bytes);
        let (closing, opening) = (&mut self.closing.parked, &mut self.opening.live);
        ensure!(
            closing.input(dev, bytes) == reply
                && opening.input(dev, bytes) == Ok(Reply::from_accepted(reply)),
            "an input"
        );
        Ok(())
    }

    /// The host changes the size of a console, and drops what the guest has not taken of another device's input.
    pub fn resize(&mut self, dev: u8) -> Result<()> {
        let (cols, rows) = (self.draws.byte() as u16, self.draws.byte() as u16);
        let reply = self.machine.resize(dev, cols, rows);
        let (closing, opening) = (&mut self.closing.parked, &mut self.opening.live);
        ensure!(
            closing.resize(dev, cols, rows) == reply
                && opening.resize(dev, cols, rows) == Ok(Reply::from_done(reply)),
            "a size"
        );
        if reply.is_ok() {
            return Ok(());
        }
        let reply = self.machine.drop_input(dev);
        ensure!(
            closing.drop_input(dev) == reply
                && opening.drop_input(dev) == Ok(Reply::from_done(reply)),
            "input that is dropped"
        );
        Ok(())
    }

    /// The next step that has something to do.
    pub fn next_work(&self, last: Work) -> Result<Option<Work>> {
        let next = self.machine.next_work(last);
        ensure!(
            self.closing.parked.next_work(last) == next
                && self.opening.parked().next_work(last) == next,
            "the next work"
        );
        Ok(next)
    }

    /// Fails unless the machines are the same, and their guests have the same RAM.
    pub fn are_same(&self) -> Result<()> {
        let one = self.machine.devices();
        are_same_devices(one, self.closing.parked.devices())?;
        are_same_devices(one, self.opening.parked().devices())?;
        let ram = self.machine.ram();
        ram.recall();
        for (n, page) in self.ram.as_slice().chunks(4096).enumerate() {
            ensure!((n as u64) < ram.len() / 4096, "less RAM");
            ensure!(ram.page(n as u64).as_slice() == page, "page {n}");
        }
        Ok(())
    }
}

/// Fails unless two machines have devices in the same states.
pub fn are_same_devices(one: &[Device<TestDisk>], other: &[Device<TestDisk>]) -> Result<()> {
    ensure!(one.len() == other.len(), "more or fewer devices");
    for (device, another) in one.iter().zip(other) {
        are_same(device.state(), another.state())?;
    }
    Ok(())
}

/// The disks of the devices, of zeros. The numbers of their calls that fail are counted from `calls`.
fn disks_of(alloc: Global, beginning: &Beginning<'_>, calls: u64) -> Result<Vec<TestDisk>> {
    let mut disks = Vec::new(alloc);
    for shape in beginning.shapes {
        if let Shape::Block { sectors, .. } = shape {
            let mut plan = Vec::new(alloc);
            for call in beginning.plan {
                plan.push(call.wrapping_add(calls))?;
            }
            disks.push(FaultDisk::new(MemDisk::new(alloc, *sectors)?, plan))?;
        }
    }
    Ok(disks)
}

/// The machine with this RAM.
fn made(
    alloc: Global,
    beginning: &Beginning<'_>,
    disks: Vec<TestDisk>,
    ram: RamOf,
) -> Result<Machine<TestDisk>> {
    let board = Board {
        limits: Limits::greatest(),
        base: beginning.base,
        ram,
        shapes: beginning.shapes,
        disks,
    };
    match Machine::make(alloc, board) {
        Ok(machine) => Ok(machine),
        Err(unmade) => Err(unmade.reason().into()),
    }
}

/// The same machine over this memory, which is filled with zeros. The numbers of the calls of its disks that fail are counted from `calls`.
fn machine_over(
    alloc: Global,
    beginning: &Beginning<'_>,
    window: KeptRegion,
    calls: u64,
) -> Result<Machine<TestDisk>> {
    let mut window = window;
    ensure!(window.len() == BYTES, "the length of a window");
    window.as_mut_slice().fill(0);
    let disks = disks_of(alloc, beginning, calls)?;
    made(alloc, beginning, disks, RamOf::Region(window.into_region()))
}

/// The host of such a machine, whose RAM is lent.
pub fn host_of(alloc: Global, beginning: &Beginning<'_>, window: KeptRegion) -> Result<Host> {
    Host::of(machine_over(alloc, beginning, window, 0)?)
}
