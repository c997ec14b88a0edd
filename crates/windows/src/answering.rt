//! Answers of a disk outside of the machine.

use crate::bench::Bench;
use crate::host::Host;
use crate::moving::Moving;
use anyhow::{Result, ensure};
use blk::{DiskCall, What};
use machine::{Refusal, Reply, SECTOR_SIZE, Work};

/// How many sectors of a read are given at once, at most.
const MOST: usize = 4;

impl Bench {
    /// The host answers what a request of a device asks for, if it asks for something: mostly in part or whole, and seldom that it failed.
    pub fn answer(self, work: Work) -> Result<Bench> {
        let mut bench = self;
        let Some(asked) = bench.machine.disk_call(work.dev, work.pick) else {
            return Ok(bench);
        };
        if bench.draws.once_in(8) {
            bench.disk_failed(work)?;
        } else if asked.call.what == What::Read {
            bench = bench.disk_gave(work, asked.call)?;
        } else {
            bench.disk_did(work, asked.call)?;
        }
        bench.are_same()?;
        Ok(bench)
    }

    fn disk_failed(&mut self, work: Work) -> Result<()> {
        let (dev, pick) = (work.dev, work.pick);
        let answer = self.machine.disk_failed(dev, pick);
        ensure!(
            self.closing.parked.disk_failed(dev, pick) == answer
                && self.opening.live.disk_failed(dev, pick) == Ok(Reply::from_failed(answer)),
            "a call that failed"
        );
        Ok(())
    }

    fn disk_did(&mut self, work: Work, call: DiskCall) -> Result<()> {
        let (dev, pick) = (work.dev, work.pick);
        let count = 1 + self.draws.below(call.count.clamp(1, 1000));
        let answer = self.machine.disk_did(dev, pick, count);
        ensure!(
            self.closing.parked.disk_did(dev, pick, count) == answer
                && self.opening.live.disk_did(dev, pick, count) == Ok(Reply::from_moved(answer)),
            "a call that was done"
        );
        Ok(())
    }

    /// Bytes of a disk are handed in while RAM is back. It is given back with all that the guest wrote, and lent again.
    fn disk_gave(self, work: Work, call: DiskCall) -> Result<Bench> {
        let mut bench = self;
        let most = call.count.clamp(1, MOST as u32);
        let count = 1 + bench.draws.below(most) as usize;
        let value = bench.draws.byte();
        let bytes = [value; MOST * SECTOR_SIZE];
        let given = &bytes[..SECTOR_SIZE * count];
        let answer = bench.machine.disk_gave(work.dev, work.pick, given);
        let hosts = (bench.closing, bench.opening);
        let (gave, closing, opening) = gave(hosts, bench.ram.as_slice(), work, given)?;
        let mut bench = Bench {
            closing,
            opening,
            ..bench
        };
        bench.take_ram(gave == answer)?;
        Ok(bench)
    }

    /// Takes RAM over from the windows, if the hosts answered as they must.
    fn take_ram(&mut self, is_answer: bool) -> Result<()> {
        ensure!(is_answer, "bytes of a disk");
        let (ram, window) = (self.ram.as_mut_slice(), self.closing.bytes()?);
        ensure!(self.opening.bytes()? == window, "RAM after them");
        ensure!(ram.len() == window.len(), "the length of RAM");
        ram.copy_from_slice(window);
        Ok(())
    }
}

/// Both hosts hand in what a disk outside gave, while this RAM is back.
fn gave(
    hosts: (Host, Moving),
    ram: &[u8],
    work: Work,
    bytes: &[u8],
) -> Result<(Result<bool, Refusal>, Host, Moving)> {
    let (closing, opening) = hosts;
    let (answer, closing) = closing.disk_gave(ram, work, bytes)?;
    let (reply, opening) = opening.disk_gave(ram, work, bytes)?;
    ensure!(reply == Reply::from_moved(answer), "bytes of a disk");
    Ok((answer, closing, opening))
}
