//! A stream whose bytes are taken while it grows, beside one that is written at once, and one whose digest is told.

use crate::own_sink::OwnSink;
use crate::telling::told_bytes;
use anyhow::{Result, bail, ensure};
use std::alloc::Global;
use vmig::{Live, LiveWaiting, Machine, MemDisk, Shape, Waiting, encode_round, receive};

/// The most that is taken at once: two pages and a bit.
pub const TAKE_MAX: usize = 9000;

/// Moves of machines by calls and takings that a seed draws.
pub fn agree(alloc: Global) -> Result<()> {
    for seed in 0..8 {
        move_agrees(alloc, seed)?;
    }
    Ok(())
}

/// A new machine of seven pages, a console and an entropy device.
pub fn machine_of(alloc: Global) -> Result<Machine<MemDisk>> {
    let shapes = [Shape::Console, Shape::Entropy];
    Ok(Machine::new(alloc, 7, &shapes, Vec::new(alloc))?)
}

/// The next number that a seed draws: a linear congruential generator, of whose numbers the high half is used.
pub fn next_draw(draw: u32) -> u32 {
    draw.wrapping_mul(1_664_525).wrapping_add(1_013_904_223)
}

/// A machine that is moved to a sink.
fn eager(alloc: Global) -> Result<Live<MemDisk, OwnSink>> {
    let Ok(eager) = Live::new(alloc, machine_of(alloc)?, OwnSink::new(alloc)) else {
        bail!("out of memory");
    };
    Ok(eager)
}

/// A machine that is moved to memory, which was written and taken from before.
fn lagging(alloc: Global) -> Result<LiveWaiting<MemDisk>> {
    let Ok(lagging) = LiveWaiting::new(alloc, machine_of(alloc)?, used_memory(alloc)?) else {
        bail!("out of memory");
    };
    Ok(lagging)
}

fn used_memory(alloc: Global) -> Result<Waiting> {
    let mut writer = Waiting::new(alloc);
    encode_round(1, &mut writer)?;
    let mut round = [0; 5];
    ensure!(writer.take(&mut round) == 5, "what was written before");
    Ok(writer)
}

/// One machine that is moved twice: to a sink, and to memory from which bytes are taken.
#[derive(Drop)]
struct Twins {
    eager: Live<MemDisk, OwnSink>,
    lagging: LiveWaiting<MemDisk>,
    taken: Vec<u8>,
}

impl Twins {
    /// Nothing is sent yet.
    fn new(alloc: Global) -> Result<Twins> {
        let lagging = lagging(alloc)?;
        Ok(Twins {
            eager: eager(alloc)?,
            lagging,
            taken: Vec::new(alloc),
        })
    }

    /// The same call of both.
    fn call(&mut self, draw: u32) -> Result<()> {
        let addr = (draw >> 17) as u64;
        let bytes = [1, (draw % 256) as u8];
        let is_same = match (draw >> 16) % 8 {
            0 => self.eager.end_round() == self.lagging.end_round(),
            1 | 2 => self.eager.write_ram(addr, &bytes) == self.lagging.write_ram(addr, &bytes),
            _ => self.eager.copy() == self.lagging.copy(),
        };
        ensure!(is_same, "a call of both");
        Ok(())
    }

    /// The calls that a seed draws, each followed by a taking, and all that is left.
    fn move_by(&mut self, seed: u32) -> Result<()> {
        ensure!(self.eager.begin() == self.lagging.begin(), "the begin");
        let mut draw = next_draw(seed);
        for _ in 0..60 {
            self.call(draw)?;
            draw = next_draw(draw);
            self.take(((draw >> 16) % 16384) as usize)?;
            draw = next_draw(draw);
        }
        ensure!(self.eager.stop() == self.lagging.stop(), "the stop");
        for _ in 0..60 {
            self.take(TAKE_MAX)?;
        }
        Ok(())
    }

    /// The bytes that were taken, and those that were sent.
    fn into_bytes(self) -> (Vec<u8>, Vec<u8>) {
        let Twins {
            eager,
            lagging: _,
            taken,
        } = self;
        let (_machine, sink) = eager.into_parts();
        (taken, sink.bytes)
    }

    /// Takes the first of the bytes that wait.
    fn take(&mut self, most: usize) -> Result<()> {
        let mut buf = [0; TAKE_MAX];
        let size = most.min(TAKE_MAX);
        let got = self.lagging.take(&mut buf[..size]);
        self.taken.extend_from_slice(&buf[..got])?;
        Ok(())
    }
}

/// A move of which the seed draws the calls, and how many bytes are taken after each.
fn move_agrees(alloc: Global, seed: u32) -> Result<()> {
    let twins = moved(alloc, seed)?;
    let (taken, sent) = twins.into_bytes();
    is_sent_and_arrives(alloc, taken.as_slice(), sent.as_slice())?;
    is_same(told_bytes(alloc, seed)?.as_slice(), sent.as_slice())
}

fn moved(alloc: Global, seed: u32) -> Result<Twins> {
    let mut twins = Twins::new(alloc)?;
    twins.move_by(seed)?;
    Ok(twins)
}

fn is_sent_and_arrives(alloc: Global, taken: &[u8], sent: &[u8]) -> Result<()> {
    is_same(taken, sent)?;
    machine_arrives(alloc, taken)
}

fn is_same(taken: &[u8], sent: &[u8]) -> Result<()> {
    ensure!(taken == sent, "the bytes that were taken");
    Ok(())
}

fn machine_arrives(alloc: Global, stream: &[u8]) -> Result<()> {
    let none: Vec<MemDisk> = Vec::new(alloc);
    let (machine, _rounds) = receive(alloc, stream, none)?;
    ensure!(machine.ram().len() == 28_672, "what arrived");
    Ok(())
}
