//! A machine whose RAM is lent, with the window of its host.

use crate::window::{bytes_in, bytes_of, put};
use anyhow::{Result, bail, ensure};
use guestmem::NoLog;
use machine::{
    Asking, FaultDisk, Machine, MemDisk, NotMade, Parked, Piece, Pieces, Refusal, Serials, Stepped,
    Stores, Work,
};
use region::KeptRegion;

/// A disk in memory, some of whose calls fail.
pub type TestDisk = FaultDisk<MemDisk>;

/// A machine whose RAM is lent, and a window of RAM's length.
#[derive(Drop)]
pub struct Host {
    /// The machine.
    pub parked: Parked<TestDisk>,

    window: KeptRegion,
}

impl Host {
    /// Lends the RAM of a machine. The memory in which it lay is the window.
    pub fn of(machine: Machine<TestDisk>) -> Result<Host> {
        match machine.lend() {
            Ok((region, parked)) => Ok(Host {
                parked,
                window: KeptRegion::of(region),
            }),
            Err(_machine) => bail!("nothing was lent"),
        }
    }

    /// The bytes of the window.
    pub fn bytes(&self) -> Result<&[u8]> {
        bytes_of(&self.window)
    }

    /// The window, for all of its bytes to be written.
    pub fn bytes_mut(&mut self) -> Result<&mut [u8]> {
        bytes_in(&mut self.window)
    }

    /// Copies bytes into the window.
    pub fn put(&mut self, at: usize, bytes: &[u8]) -> Result<()> {
        put(&mut self.window, at, bytes)
    }

    /// The first piece that the step lacks, where these are held.
    pub fn lacks(self, work: Work, held: &[Piece]) -> Result<(Option<Piece>, Host)> {
        let Host { parked, window } = self;
        ensure!(window.len() == 4096 * parked.pages(), "the size of RAM");
        let window = window.into_region();
        let (lacking, window, parked) = parked.lacks(window, work.dev, work.pick, held);
        let window = KeptRegion::of(window);
        Ok((lacking?, Host { parked, window }))
    }

    /// What the step publishes.
    pub fn asking(self, work: Work) -> Result<(Option<Asking>, Host)> {
        let Host { parked, window } = self;
        ensure!(window.len() == 4096 * parked.pages(), "the size of RAM");
        let window = window.into_region();
        let (asking, window, parked) = parked.asking(window, work.dev, work.pick);
        let window = KeptRegion::of(window);
        Ok((asking?, Host { parked, window }))
    }

    /// What the step writes.
    pub fn storing(self, work: Work) -> Result<(Stores, Host)> {
        let Host { parked, window } = self;
        ensure!(window.len() == 4096 * parked.pages(), "the size of RAM");
        let window = window.into_region();
        let (stores, window, parked) = parked.storing(window, work.dev, work.pick);
        let window = KeptRegion::of(window);
        Ok((stores?, Host { parked, window }))
    }

    /// Makes the step over the window.
    pub fn step(self, work: Work, sent: &mut Vec<u8>) -> Result<(Stepped, Host)> {
        let Host { parked, window } = self;
        ensure!(window.len() == 4096 * parked.pages(), "the size of RAM");
        let window = window.into_region();
        let (stepped, window, parked) = parked.step_over(
            window, work.dev, work.pick, sent, &mut NoLog,
        );
        let window = KeptRegion::of(window);
        Ok((stepped, Host { parked, window }))
    }

    /// Makes the step of these pieces over the window, if they are not stale and lack none.
    pub fn step_held(
        self,
        pieces: &Pieces,
        serials: &mut Serials,
        sent: &mut Vec<u8>,
    ) -> Result<(Result<Stepped, NotMade>, Host)> {
        let Host { parked, window } = self;
        ensure!(window.len() == 4096 * parked.pages(), "the size of RAM");
        let window = window.into_region();
        let (tried, window, parked) = parked.step_held(window, pieces, serials, sent, &mut NoLog);
        let window = KeptRegion::of(window);
        Ok((tried, Host { parked, window }))
    }

    /// The machine with the window for its RAM.
    pub fn into_machine(self) -> Result<Machine<TestDisk>> {
        let Host { parked, window } = self;
        ensure!(window.len() == 4096 * parked.pages(), "the size of RAM");
        Ok(parked.give_back(window.into_region(), &[], &mut NoLog))
    }

    /// Hands in what a disk outside gave, with this RAM.
    pub fn disk_gave(
        self,
        ram: &[u8],
        work: Work,
        bytes: &[u8],
    ) -> Result<(Result<bool, Refusal>, Host)> {
        let mut host = self;
        host.put(0, ram)?;
        let mut machine = host.into_machine()?;
        let answer = machine.disk_gave(work.dev, work.pick, bytes);
        Ok((answer, Host::of(machine)?))
    }
}
