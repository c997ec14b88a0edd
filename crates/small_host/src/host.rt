//! The loop around a machine.

use crate::driver::Exit;
use crate::migration::migrate;
use anyhow::{Result, bail};
use std::io::Write;
use vmig::{Event, Guest, Machine, MemDisk, Reply, Shape, Turn, TurnEnd, WriteSink, receive, save};

/// Sectors of the guest's disk.
pub const SECTORS: u64 = 8;

/// The most steps of one turn. A guest can give its devices work without end, so a host makes at most this many in a row, and
/// lets its guest run between two turns.
const STEPS: u32 = 1000;

/// A machine, its interrupt lines as the guest has them, and where the last turn of its devices ended: the next one continues there.
#[derive(Drop)]
pub struct Host<G: Guest<MemDisk> + Drop> {
    guest: G,
    lines: u16,
    turn: Turn,
}

impl<G: Guest<MemDisk> + Drop> Host<G> {
    /// A host of this machine, whose guest sees no interrupt yet.
    pub fn of(guest: G) -> Host<G> {
        Host {
            guest,
            lines: 0,
            turn: Turn::new(STEPS),
        }
    }

    /// The machine.
    pub fn guest(&mut self) -> &mut G {
        &mut self.guest
    }

    /// Gives the machine back.
    pub fn into_guest(self) -> G {
        let Host {
            guest,
            lines: _,
            turn: _,
        } = self;
        guest
    }

    /// Answers each exit of the guest before the next one.
    pub fn run(&mut self, rt: &HostRuntime, exits: &[Exit]) -> Result<()> {
        for exit in exits {
            let reply = self.guest.apply(&exit.event(rt)?)?;
            match reply {
                Reply::Value(value) => println!(rt; "guest: reads {value:#x}")?,
                Reply::Done => {}
                reply => bail!("an exit was answered {reply:?}"),
            }
            self.set_lines(rt)?;
            if exit.is_kick() {
                println!(rt; "guest: kicks")?;
                self.work(rt)?;
            }
        }
        Ok(())
    }

    /// Puts bytes in, and steps the devices: a driver need not kick again for a buffer that waits.
    pub fn give(&mut self, rt: &HostRuntime, dev: u8, bytes: &[u8]) -> Result<()> {
        let kept = match self.guest.input(dev, bytes)? {
            Reply::Accepted(kept) => kept,
            reply => bail!("an input was answered {reply:?}"),
        };
        println!(rt; "host: puts in {kept} bytes")?;
        self.work(rt)
    }

    /// The devices' turn, in which the host does what its steps ask for; then the lines are read.
    pub fn work(&mut self, rt: &HostRuntime) -> Result<()> {
        let mut sent = Vec::new(rt.alloc());
        self.turn.left = STEPS;
        for _ in 0..=STEPS {
            let end = self.guest.work(&mut self.turn, &mut sent)?;
            let dev = self.turn.last.dev;
            match end {
                TurnEnd::Idle => break,
                TurnEnd::Unfinished => {
                    println!(rt; "host: the rest of the work waits for the next turn")?;
                    break;
                }
                TurnEnd::Answer(answer) => println!(rt; "device {dev}: {answer:?}")?,
                TurnEnd::SyncOwed => self.sync_and_step(rt)?,
                TurnEnd::NoMemory => bail!("no memory for a step, which changed nothing"),
            }
        }
        self.set_lines(rt)
    }

    /// Makes what the guest wrote durable, and then the step that was passed over: it ends a write of a driver without FLUSH, which takes it
    /// for durable from then on. Where the disk fails the step is not made, and the guest is ended: a later flush that succeeds would not
    /// bring it back.
    fn sync_and_step(&mut self, rt: &HostRuntime) -> Result<()> {
        let work = self.turn.last;
        println!(rt; "host: flushes disk {} before its write ends", work.dev)?;
        if self.guest.flush_disk(work.dev).is_err() {
            bail!("disk {} has lost what the guest wrote", work.dev);
        }
        let step = Event::Step {
            dev: work.dev,
            pick: work.pick,
        };
        let reply = self.guest.apply(&step)?;
        println!(rt; "device {}: {reply:?}", work.dev)?;
        Ok(())
    }

    /// Tells the guest its interrupt lines where they have changed.
    fn set_lines(&mut self, rt: &HostRuntime) -> Result<()> {
        let lines = self.guest.machine().lines();
        if lines != self.lines {
            self.lines = lines;
            println!(rt; "host: lines {lines:#04b}")?;
        }
        Ok(())
    }

    /// Shows what the guest has in a buffer.
    pub fn show(&self, rt: &HostRuntime, address: u64) -> Result<()> {
        let mut bytes = [0u8; 4];
        if self.guest.machine().read_ram(address, &mut bytes).is_err() {
            bail!("{address:#x} is not in RAM");
        }
        println!(rt; "guest: has {bytes:?} at {address:#x}")?;
        Ok(())
    }
}

impl Host<Machine<MemDisk>> {
    /// A host of a new machine: two pages of RAM, an entropy device and a disk.
    pub fn new(rt: &HostRuntime) -> Result<Host<Machine<MemDisk>>> {
        let disk = Shape::Block {
            sectors: SECTORS,
            read_only: false,
            id: *b"the small host\0\0\0\0\0\0",
        };
        let machine = Machine::new(rt.alloc(), 2, &[Shape::Entropy, disk], disks(rt)?)?;
        Ok(Host::of(machine))
    }

    /// The stream of the machine, in memory.
    pub fn save(&mut self, rt: &HostRuntime) -> Result<Vec<u8>> {
        let mut sink = WriteSink::new(Vec::new(rt.alloc()));
        save(&mut self.guest, &mut sink)?;
        Ok(sink.into_inner())
    }

    /// Continues with a machine that was saved. Kicks and interrupts came with it: before the guest continues the devices do
    /// their work, and the lines are read.
    pub fn receive(rt: &HostRuntime, stream: &[u8]) -> Result<Host<Machine<MemDisk>>> {
        let (machine, _) = receive(rt.alloc(), stream, disks(rt)?)?;
        Host::resume(rt, machine)
    }

    /// Moves the machine to another host, while its guest comes to these exits.
    pub fn migrate(self, rt: &HostRuntime, exits: &[Exit]) -> Result<Host<Machine<MemDisk>>> {
        let machine = migrate(rt, self, exits)?;
        Host::resume(rt, machine)
    }

    fn resume(rt: &HostRuntime, machine: Machine<MemDisk>) -> Result<Host<Machine<MemDisk>>> {
        let mut host = Host::of(machine);
        host.set_lines(rt)?;
        host.work(rt)?;
        Ok(host)
    }
}

/// The disk of a machine, of zeros. A stream's sectors are written over them.
pub fn disks(rt: &HostRuntime) -> Result<Vec<MemDisk>> {
    let disk = MemDisk::new(rt.alloc(), SECTORS)?;
    Ok(Vec::from_array(rt.alloc(), [disk])?)
}
