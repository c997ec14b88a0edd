//! A stream whose digest is told by whoever takes its bytes.

use crate::takings::{TAKE_MAX, machine_of, next_draw};
use anyhow::{Result, bail, ensure};
use sha2::{Digest, Sha256};
use std::alloc::Global;
use vmig::{LiveTold, Machine, MemDisk};

/// A machine that is moved to memory, and what was taken from there.
#[derive(Drop)]
struct Teller {
    live: LiveTold<MemDisk>,
    taken: Vec<u8>,
}

/// The stream of the calls that a seed draws. Before it a move of the same machine is aborted, after its stop and before its digest was told.
pub fn told_bytes(alloc: Global, seed: u32) -> Result<Vec<u8>> {
    let mut teller = Teller::new(alloc, machine_of(alloc)?)?;
    teller.stop_untold()?;
    teller.begun_anew(alloc)?.moved(seed)
}

impl Teller {
    /// Nothing is sent yet.
    fn new(alloc: Global, machine: Machine<MemDisk>) -> Result<Teller> {
        let Ok(live) = LiveTold::new(alloc, machine) else {
            bail!("out of memory");
        };
        Ok(Teller {
            live,
            taken: Vec::new(alloc),
        })
    }

    /// A move up to its stop, with some of its bytes taken.
    fn stop_untold(&mut self) -> Result<()> {
        ensure!(self.live.begin().is_ok(), "a begin");
        ensure!(self.live.copy().is_ok(), "a copy");
        ensure!(self.live.stop().is_ok(), "a stop");
        ensure!(self.live.owes(), "no digest is owed");
        self.take(TAKE_MAX)
    }

    /// The same machine, once the move was aborted.
    fn begun_anew(self, alloc: Global) -> Result<Teller> {
        Teller::new(alloc, self.live.abort())
    }

    /// All bytes of a move, of which the seed draws the calls.
    fn moved(self, seed: u32) -> Result<Vec<u8>> {
        let mut teller = self;
        teller.move_by(seed)?;
        Ok(teller.taken)
    }

    /// The calls that a seed draws, each followed by a taking, and all that is left, with the digest told.
    fn move_by(&mut self, seed: u32) -> Result<()> {
        ensure!(self.live.begin().is_ok(), "the begin");
        let mut draw = next_draw(seed);
        for _ in 0..60 {
            self.call(draw);
            draw = next_draw(draw);
            self.take(((draw >> 16) % 16384) as usize)?;
            draw = next_draw(draw);
        }
        ensure!(self.live.stop().is_ok(), "the stop");
        self.close()
    }

    /// A call. What it answers is compared by the stream.
    fn call(&mut self, draw: u32) {
        let addr = (draw >> 17) as u64;
        let bytes = [1, (draw % 256) as u8];
        match (draw >> 16) % 8 {
            0 => drop(self.live.end_round()),
            1 | 2 => drop(self.live.write_ram(addr, &bytes)),
            _ => drop(self.live.copy()),
        }
    }

    /// Takes the first of the bytes that wait.
    fn take(&mut self, most: usize) -> Result<()> {
        let mut buf = [0; TAKE_MAX];
        let size = most.min(TAKE_MAX);
        let got = self.live.take(&mut buf[..size]);
        self.taken.extend_from_slice(&buf[..got])?;
        Ok(())
    }

    /// Takes all but the record that closes the stream, tells its digest, and takes the record.
    fn close(&mut self) -> Result<()> {
        for _ in 0..60 {
            self.take(TAKE_MAX)?;
        }
        let mut hasher = Sha256::new();
        hasher.update(self.taken.as_slice());
        ensure!(self.live.owes(), "no digest is owed");
        self.live.tell_on_trust(&hasher.finalize());
        ensure!(!self.live.owes(), "the digest was told");
        self.take(TAKE_MAX)
    }
}
