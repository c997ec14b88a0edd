//! RAM, the machine, and where the driver and the host's thread stand.

use crate::bench::{Beginning, host_of};
use crate::host::Host;
use crate::orders::driver::{Doing, Driver};
use crate::orders::thread::{Phase, Thread};
use crate::orders::{Fault, Trial, Verdict};
use crate::window::new_window;
use anyhow::{Result, ensure};
use machine::{Asking, Event, Pieces, Serials, Shape, Stores, Work};
use mmio::USED_BUFFER;
use std::alloc::Global;

/// Where the areas of the queue are, the tables, and the buffers.
pub const DRIVER: usize = 0x100;

pub const DEVICE: usize = 0x200;

pub const TABLES: usize = 0x300;

pub const BUFFERS: usize = 0x340;

/// How many bytes of RAM are used.
const USED: usize = 0x400;

/// How many descriptors the queue has.
pub const SIZE: usize = 4;

/// The step of the device.
pub const WORK: Work = Work { dev: 0, pick: 0 };

/// The bytes that the host has put in.
const BYTES: [u8; 16] = [1, 2, 3, 4, 5, 6, 7, 8, 9, 10, 11, 12, 13, 14, 15, 16];

/// All that a run changes.
#[derive(Drop)]
pub struct World {
    /// The allocator.
    pub alloc: Global,

    /// What driver and host do.
    pub trial: Trial,

    /// The first bytes of RAM, which are all that anybody uses.
    pub ram: Vec<u8>,

    /// The machine, and the window of its host.
    pub host: Host,

    /// The pieces that lie in the window.
    pub pieces: Pieces,

    /// What the step publishes that is open.
    pub asking: Option<Asking>,

    /// What the step writes whose pieces are held.
    pub stores: Option<Stores>,

    /// How often the device was touched, as the host counts it.
    pub serials: Serials,

    /// Where the driver stands.
    pub driver: Driver,

    /// Where the thread of the host stands.
    pub thread: Thread,
}

/// The number in some bytes, up to eight.
pub fn number_in(bytes: &[u8], at: usize, count: usize) -> Result<u64> {
    ensure!(
        at <= bytes.len() && count <= bytes.len() - at && count <= 8,
        "a load outside RAM"
    );
    let mut number = [0; 8];
    number[..count].copy_from_slice(&bytes[at..at + count]);
    Ok(u64::from_le_bytes(number))
}

impl World {
    /// A machine with an entropy device, whose RAM is lent.
    pub fn new(alloc: Global, trial: Trial) -> Result<World> {
        let beginning = Beginning {
            base: 0,
            shapes: &[Shape::Entropy],
            plan: &[],
        };
        let serials = Serials::new();
        Ok(World {
            alloc,
            trial,
            ram: vec![in alloc; 0u8; USED]?,
            host: host_of(alloc, &beginning, new_window(alloc)?)?,
            pieces: Pieces::begin(alloc, WORK, &serials),
            asking: None,
            stores: None,
            serials,
            driver: Driver::first(trial),
            thread: Thread::FIRST,
        })
    }

    /// The beginning of a run: the device is set up, and has found its queue empty once.
    pub fn begin(self, trial: Trial) -> Result<World> {
        let mut world = World {
            trial,
            driver: Driver::first(trial),
            thread: Thread::FIRST,
            asking: None,
            stores: None,
            ..self
        };
        world.set_up()?;
        world.write_register(0x050, 0)?;
        for _step in 0..10 {
            if world.can_serve() {
                world = world.serve()?;
            }
        }
        ensure!(!world.can_serve(), "no rest at an empty queue");
        Ok(world)
    }

    /// One load of up to eight bytes.
    pub fn load(&self, at: usize, count: usize) -> Result<u64> {
        number_in(self.ram.as_slice(), at, count)
    }

    /// One store of the lower bytes of a number.
    pub fn store(&mut self, at: usize, number: u64, count: usize) -> Result<()> {
        let ram = self.ram.as_mut_slice();
        ensure!(
            at <= ram.len() && count <= ram.len() - at && count <= 8,
            "a store outside RAM"
        );
        ram[at..at + count].copy_from_slice(&number.to_le_bytes()[..count]);
        Ok(())
    }

    /// The driver writes a register, and the host counts it, unless it keeps its pieces for ever.
    pub fn write_register(&mut self, offset: u32, value: u32) -> Result<()> {
        if self.trial.fault != Fault::StalePieces {
            self.serials.touch_by(&Event::RegWrite {
                dev: 0,
                off: offset,
                width: 4,
                value,
            });
        }
        let reply = self.host.parked.write_register(0, offset, 4, value);
        ensure!(reply.is_ok(), "the write of a register");
        Ok(())
    }

    /// The driver resets the device, clears its memory, and sets the device up (VIRTIO 1.2, 3.1.1). It wants no interrupt yet.
    pub fn set_up(&mut self) -> Result<()> {
        self.write_register(0x070, 0)?;
        self.ram.as_mut_slice().fill(0);
        let trial = self.trial;
        let tables = if trial.has_tables { 1 << 28 } else { 0 };
        let events = if trial.has_events { 1 << 29 } else { 0 };
        let features = if trial.is_packed { 5 } else { 1 };
        for (offset, value) in [
            (0x070, 1),
            (0x070, 3),
            (0x024, 0),
            (0x020, tables | events),
            (0x024, 1),
            (0x020, features),
            (0x070, 11),
            (0x030, 0),
            (0x038, SIZE as u32),
            (0x080, 0),
            (0x084, 0),
            (0x090, DRIVER as u32),
            (0x094, 0),
            (0x0a0, DEVICE as u32),
            (0x0a4, 0),
            (0x044, 1),
            (0x070, 15),
        ] {
            self.write_register(offset, value)?;
        }
        self.ask_for_nothing()?;
        let parked = &mut self.host.parked;
        ensure!(
            parked.drop_input(0).is_ok() && parked.input(0, &BYTES).is_ok(),
            "no input"
        );
        Ok(())
    }

    /// Whether the used-buffer interrupt is raised.
    pub fn is_interrupted(&self) -> bool {
        match self.host.parked.devices().get(0) {
            Some(device) => device.state().registers().common().interrupts & USED_BUFFER != 0,
            None => false,
        }
    }

    /// How the run ended.
    pub fn verdict(&self) -> Result<Verdict> {
        let driver = self.driver;
        if driver.is_wrong {
            return Ok(Verdict::Wrong);
        }
        if driver.doing != Doing::Done || self.thread.phase != Phase::Rest {
            return Ok(Verdict::Hung);
        }
        let is_served_twice = if self.trial.is_packed {
            self.load(16 * (driver.made % SIZE) + 8, 8)? != 0
        } else {
            self.load(DEVICE + 2, 2)? != driver.made as u64
        };
        if is_served_twice || !self.have_bytes()? {
            return Ok(Verdict::Wrong);
        }
        Ok(Verdict::Fine)
    }

    /// Whether the buffers have the bytes that the host has put in, one after the other, and those from before a reset have none.
    fn have_bytes(&self) -> Result<bool> {
        let (one, other) = (self.load(BUFFERS, 8)?, self.load(BUFFERS + 16, 8)?);
        let first = 0x0403_0201;
        Ok(if self.trial.resets {
            one == 0 && other == 0x0807_0605_0403_0201
        } else if self.trial.chains == 1 {
            one == first && other == 0
        } else {
            one == first && other == 0x0c0b_0a09_0807_0605
        })
    }
}
