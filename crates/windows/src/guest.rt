//! A guest: what it does to its machine, between steps of the devices.

use crate::bench::{Beginning, Bench, SECTORS};
use crate::draws::Draws;
use crate::queue::{AREAS, Queue};
use crate::tally::Tally;
use crate::window::BYTES;
use anyhow::Result;
use machine::{Shape, Work};
use region::KeptRegion;
use std::alloc::Global;

/// How many devices each machine has: a network device, a disk, a disk outside, a console and an entropy device.
pub const DEVICES: usize = 5;

/// How many queues they have together.
const QUEUES: usize = 7;

/// The addresses at which RAM may begin: 0, 2 GiB, and as late as RAM can.
const BASES: [u64; 4] = [0, 0, 0x8000_0000, u64::MAX - BYTES as u64 + 1];

/// The devices into which a host puts bytes, and one that takes none.
const TAKING: [u8; 8] = [0, 0, 3, 3, 4, 4, 4, 1];

/// Registers that a driver writes at times when it should not.
const REGISTERS: [u32; 8] = [0x014, 0x020, 0x024, 0x030, 0x038, 0x044, 0x050, 0x070];

/// A guest in its machines.
#[derive(Drop)]
pub struct Guest {
    bench: Bench,
    queues: [Queue; QUEUES],
    last: Work,
}

/// The devices of a guest.
fn shapes_of(draws: &mut Draws) -> [Shape; DEVICES] {
    let mac = [2, 0, 0, 0, 0, 1];
    let (id, sectors) = ([b'd'; 20], SECTORS);
    let net = if draws.once_in(2) {
        Shape::Net { mac }
    } else {
        Shape::LongNet { mac, longest: 3000 }
    };
    let read_only = draws.once_in(8);
    [
        net,
        Shape::Block {
            sectors,
            read_only,
            id,
        },
        Shape::Outside {
            sectors,
            read_only,
            id,
        },
        Shape::Console,
        Shape::Entropy,
    ]
}

impl Guest {
    /// A guest of this seed, whose hosts have this memory for their windows.
    pub fn new(alloc: Global, seed: u64, windows: (KeptRegion, KeptRegion)) -> Result<Guest> {
        let mut draws = Draws::new(seed);
        let base = draws.one_of(&BASES);
        let shapes = shapes_of(&mut draws);
        let mut plan = [0; 8];
        for call in &mut plan {
            *call = 1 + draws.below(60) as u64;
        }
        let beginning = Beginning {
            base,
            shapes: &shapes,
            plan: &plan,
        };
        let bench = Bench::new(alloc, &beginning, windows, draws)?;
        let mut guest = Guest {
            bench,
            queues: [
                Queue::first(0, 0, 0),
                Queue::first(0, 1, AREAS),
                Queue::first(1, 0, 2 * AREAS),
                Queue::first(2, 0, 3 * AREAS),
                Queue::first(3, 0, 4 * AREAS),
                Queue::first(3, 1, 5 * AREAS),
                Queue::first(4, 0, 6 * AREAS),
            ],
            last: Work { dev: 0, pick: 0 },
        };
        for dev in 0..DEVICES {
            guest.set_up(dev as u8)?;
        }
        Ok(guest)
    }

    /// The guest does something, its hosts put something in or answer, and then devices make some steps.
    pub fn turn(self, tally: &mut Tally) -> Result<Guest> {
        let mut guest = self;
        guest.act()?;
        guest.act()?;
        guest.mend()?;
        let pick = 1 + guest.bench.draws.below(3) as u8;
        let bench = guest.bench.answer(Work { dev: 2, pick })?;
        let mut guest = Guest { bench, ..guest };
        for _step in 0..guest.bench.draws.below(5) {
            guest = guest.step(tally)?;
        }
        Ok(guest)
    }

    /// A step: mostly one that has something to do, if there is one.
    fn step(self, tally: &mut Tally) -> Result<Guest> {
        let mut guest = self;
        let any = Work {
            dev: guest.bench.draws.below(DEVICES as u32) as u8,
            pick: guest.bench.draws.below(4) as u8,
        };
        let is_any = guest.bench.draws.once_in(10);
        let work = match guest.bench.next_work(guest.last)? {
            _ if is_any => any,
            Some(work) => work,
            None => return Ok(guest),
        };
        let (made, bench) = guest.bench.step(work)?;
        tally.count(work, made);
        let mut guest = Guest {
            bench,
            last: work,
            ..guest
        };
        guest.note(work, made.stepped.has_published());
        Ok(guest)
    }

    /// The driver of the queue of a step learns that a chain came back.
    fn note(&mut self, work: Work, is_published: bool) {
        let number = if work.dev == 0 || work.dev == 3 {
            work.pick
        } else {
            0
        };
        for queue in &mut self.queues {
            if is_published && queue.dev == work.dev && queue.number == number {
                queue.out = queue.out.saturating_sub(1);
            }
        }
    }

    /// Something that a guest or a host does.
    fn act(&mut self) -> Result<()> {
        let dev = self.bench.draws.below(DEVICES as u32) as u8;
        match self.bench.draws.below(60) {
            0 => self.set_up(dev),
            1 => self.write_somehow(dev),
            2 | 3 => self.scribble(),
            4..=12 => self.put_in(),
            13..=20 => self.acknowledge(dev),
            _ => self.offer(),
        }
    }

    /// A driver makes a chain available, if it has room for one.
    fn offer(&mut self) -> Result<()> {
        let n = self.bench.draws.below(QUEUES as u32) as usize;
        let queue = &mut self.queues[n];
        if queue.out >= queue.size / 4 + 1 && !self.bench.draws.once_in(16) {
            return Ok(());
        }
        queue.out = queue.out.saturating_add(1);
        self.bench.offer(queue)
    }

    /// A driver writes a register when it should not.
    fn write_somehow(&mut self, dev: u8) -> Result<()> {
        let register = self.bench.draws.one_of(&REGISTERS);
        let value = self.bench.draws.below(4);
        self.bench.write_register(dev, register, value)
    }

    /// A byte of a ring is written by somebody.
    fn scribble(&mut self) -> Result<()> {
        let at = self.bench.draws.below((QUEUES * AREAS) as u32) as usize;
        let byte = self.bench.draws.byte();
        self.bench.write(at, &[byte])
    }

    /// The host puts bytes in, or changes the size of the console.
    fn put_in(&mut self) -> Result<()> {
        let dev = self.bench.draws.one_of(&TAKING);
        if self.bench.draws.once_in(16) {
            return self.bench.resize(dev);
        }
        let bytes = [self.bench.draws.byte(); 60];
        let len = 14 + self.bench.draws.below(46) as usize;
        self.bench.input(dev, &bytes[..len])
    }

    /// The driver acknowledges its interrupts.
    fn acknowledge(&mut self, dev: u8) -> Result<()> {
        let raised = self.bench.read_register(dev, 0x060)?;
        self.bench.write_register(dev, 0x064, raised)
    }

    /// The driver of a device that asks for a reset sets it up again, sooner or later. That of another one acknowledges what it is told.
    fn mend(&mut self) -> Result<()> {
        let dev = self.bench.draws.below(DEVICES as u32) as u8;
        if self.bench.read_register(dev, 0x070)? & 0x44 != 4 {
            return self.set_up(dev);
        }
        self.acknowledge(dev)
    }

    /// The driver of a device begins anew.
    fn set_up(&mut self, dev: u8) -> Result<()> {
        self.bench.set_up(dev, &mut self.queues)
    }

    /// Ends the guest: compares the disks of its machines, and the one that arrives. Returns the memory of the windows.
    pub fn end(self) -> Result<(KeptRegion, KeptRegion)> {
        self.bench.end(DEVICES as u8)
    }
}
