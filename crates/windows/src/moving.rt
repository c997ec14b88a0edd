//! A machine that is being sent all along, and whose RAM is lent, with the window of its host.
//!
//! All of it was sent once before the guest began. From then on the pages that steps write become dirty by themselves, and those that the guest
//! writes are named when RAM comes back. So a page that nobody told of arrives as it was.

use crate::host::TestDisk;
use crate::window::{BYTES, PAGES, bytes_in, bytes_of, put};
use anyhow::{Result, bail, ensure};
use machine::{
    Asking, FaultDisk, Limits, Machine, MemDisk, Parked, Piece, Reply, Shape, Stepped, Work,
};
use receiver::{Terms, receive_with};
use region::KeptRegion;
use sender::{CopyAnswer, LiveParked, LiveWaiting, MigError, SectorAnswer};
use std::alloc::Global;
use wire::Waiting;

/// How many items there are at most.
const ITEMS: u32 = 100;

/// How often a stop is tried, at most: it fails where a disk fails.
const STOPS: u32 = 20;

/// A machine that is being sent, whose RAM is lent, and a window of RAM's length.
#[derive(Drop)]
pub struct Moving {
    /// The machine.
    pub live: LiveParked<TestDisk, Waiting>,

    window: KeptRegion,

    // The pages that the guest wrote since RAM was lent.
    written: [bool; PAGES as usize],

    // The stream so far.
    stream: Vec<u8>,
}

/// Takes the bytes that wait.
fn take_all(live: &mut LiveWaiting<TestDisk>, stream: &mut Vec<u8>) -> Result<()> {
    let mut buf = [0; 4096];
    for _part in 0..ITEMS {
        let count = live.take(&mut buf);
        stream.extend_from_slice(&buf[..count])?;
        if count == 0 {
            return Ok(());
        }
    }
    bail!("more bytes than there are items")
}

/// Begins, and sends all items once.
fn send_all(live: &mut LiveWaiting<TestDisk>) -> Result<()> {
    live.begin()?;
    for _item in 0..ITEMS {
        if live.copy()? == CopyAnswer::RoundDone {
            return Ok(());
        }
    }
    bail!("more items than there are")
}

/// Sends the pages that are due, and no sector, so that no disk is called.
fn send_pages(live: &mut LiveWaiting<TestDisk>) -> Result<()> {
    if live.left().due_sectors == 0 {
        live.end_round()?;
    }
    for _page in 0..PAGES {
        if live.left().due_pages == 0 {
            return Ok(());
        }
        live.copy()?;
    }
    Ok(())
}

/// Sends the page that is due, with its bytes in this RAM.
fn hand_in(live: &mut LiveParked<TestDisk, Waiting>, ram: &[u8]) -> Result<()> {
    let Some(page) = live.next_due() else {
        bail!("no page is due");
    };
    let Some(bytes) = ram.chunks(4096).nth(page as usize) else {
        bail!("a page past RAM");
    };
    let Ok(bytes) = <&[u8; 4096]>::try_from(bytes) else {
        bail!("half a page");
    };
    live.copy_page(page, bytes)?;
    Ok(())
}

/// Sends all that is due while RAM is lent, which holds these bytes. A disk that fails is asked again.
fn send_lent(
    live: &mut LiveParked<TestDisk, Waiting>,
    stream: &mut Vec<u8>,
    ram: &[u8],
) -> Result<()> {
    let mut buf = [0; 8192];
    for _item in 0..ITEMS {
        match live.copy_sector() {
            Ok(SectorAnswer::Copied { .. }) | Err(MigError::DiskFailed { .. }) => {}
            Ok(SectorAnswer::PageDue(_)) => hand_in(live, ram)?,
            Ok(SectorAnswer::RoundDone) => return Ok(()),
            Err(error) => return Err(error.into()),
        }
        let count = live.take(&mut buf);
        stream.extend_from_slice(&buf[..count])?;
    }
    bail!("more items than there are")
}

/// Stops the machine, and takes the rest of its stream. A stop that failed where a disk did is tried again.
fn stop(live: &mut LiveWaiting<TestDisk>, stream: &mut Vec<u8>) -> Result<()> {
    for _stop in 0..STOPS {
        if live.stop().is_ok() {
            return take_all(live, stream);
        }
    }
    bail!("no stop")
}

/// Hands in what a disk outside gave, and sends pages.
fn answered(
    live: &mut LiveWaiting<TestDisk>,
    stream: &mut Vec<u8>,
    work: Work,
    bytes: &[u8],
) -> Result<Reply> {
    let answer = live.disk_gave(work.dev, work.pick, bytes)?;
    send_pages(live)?;
    take_all(live, stream)?;
    Ok(answer)
}

/// Names the pages that the guest wrote, but the first.
fn mark_written(live: &mut LiveWaiting<TestDisk>, written: &[bool; PAGES as usize]) -> Result<()> {
    for page in 1..PAGES {
        if written[page as usize] {
            mark(live, page)?;
        }
    }
    Ok(())
}

/// Names a page.
fn mark(live: &mut LiveWaiting<TestDisk>, page: u32) -> Result<()> {
    let ram = live.machine().ram();
    ram.recall();
    ensure!((page as u64) < ram.len() / 4096, "a page past RAM");
    live.mark(&[page]);
    Ok(())
}

impl Moving {
    /// Begins to send a machine, sends all of it once, and lends its RAM. The memory in which that lay is the window.
    pub fn of(alloc: Global, machine: Machine<TestDisk>) -> Result<Moving> {
        let Ok(mut live) = LiveWaiting::new(alloc, machine, Waiting::new(alloc)) else {
            bail!("out of memory");
        };
        send_all(&mut live)?;
        Moving::lent(live, Vec::new(alloc))
    }

    /// Lends the RAM of a machine.
    fn lent(live: LiveWaiting<TestDisk>, stream: Vec<u8>) -> Result<Moving> {
        match live.lend() {
            Ok((region, live)) => Ok(Moving {
                live,
                window: KeptRegion::of(region),
                written: [false; PAGES as usize],
                stream,
            }),
            Err(_live) => bail!("nothing was lent"),
        }
    }

    /// The machine whose RAM is lent.
    pub fn parked(&self) -> &Parked<TestDisk> {
        self.live.parked()
    }

    /// The bytes of the window.
    pub fn bytes(&self) -> Result<&[u8]> {
        bytes_of(&self.window)
    }

    /// The window, for all of its bytes to be written.
    pub fn bytes_mut(&mut self) -> Result<&mut [u8]> {
        bytes_in(&mut self.window)
    }

    /// Copies bytes into the window.
    pub fn put(&mut self, at: usize, bytes: &[u8]) -> Result<()> {
        put(&mut self.window, at, bytes)
    }

    /// The guest wrote `count` bytes of RAM from index `at`: no more than a page has.
    pub fn note(&mut self, at: usize, count: usize) {
        if count == 0 {
            return;
        }
        for page in [at / 4096, at.saturating_add(count - 1) / 4096] {
            if page < self.written.len() {
                self.written[page] = true;
            }
        }
    }

    /// The first piece that the step lacks, where these are held.
    pub fn lacks(self, work: Work, held: &[Piece]) -> Result<(Option<Piece>, Moving)> {
        let Moving {
            live,
            window,
            written,
            stream,
        } = self;
        ensure!(window.len() == 4096 * live.pages(), "the size of RAM");
        let (lacking, window, live) = live.lacks(window.into_region(), work.dev, work.pick, held);
        let window = KeptRegion::of(window);
        Ok((
            lacking?,
            Moving {
                live,
                window,
                written,
                stream,
            },
        ))
    }

    /// What the step publishes.
    pub fn asking(self, work: Work) -> Result<(Option<Asking>, Moving)> {
        let Moving {
            live,
            window,
            written,
            stream,
        } = self;
        ensure!(window.len() == 4096 * live.pages(), "the size of RAM");
        let (asking, window, live) = live.asking(window.into_region(), work.dev, work.pick);
        let window = KeptRegion::of(window);
        Ok((
            asking?,
            Moving {
                live,
                window,
                written,
                stream,
            },
        ))
    }

    /// Makes the step over the window.
    pub fn step(self, work: Work, sent: &mut Vec<u8>) -> Result<(Stepped, Moving)> {
        let Moving {
            live,
            window,
            written,
            stream,
        } = self;
        ensure!(window.len() == 4096 * live.pages(), "the size of RAM");
        let (stepped, window, live) = live.step_over(
            window.into_region(),
            work.dev,
            work.pick,
            sent,
        );
        let window = KeptRegion::of(window);
        Ok((
            stepped?,
            Moving {
                live,
                window,
                written,
                stream,
            },
        ))
    }

    /// Gives RAM back. The pages that the guest wrote are named: the first by the return, the others by a mark.
    fn back(self, ram: &[u8]) -> Result<(LiveWaiting<TestDisk>, Vec<u8>)> {
        let mut moving = self;
        moving.put(0, ram)?;
        let Moving {
            live,
            window,
            written,
            stream,
        } = moving;
        ensure!(
            live.pages() == PAGES as usize && window.len() == BYTES,
            "the size of RAM"
        );
        let window = window.into_region();
        let mut live = if written[0] {
            live.give_back(window, &[0])
        } else {
            live.give_back(window, &[])
        };
        mark_written(&mut live, &written)?;
        Ok((live, stream))
    }

    /// Hands in what a disk outside gave, with this RAM, and sends pages before it is lent again.
    pub fn disk_gave(self, ram: &[u8], work: Work, bytes: &[u8]) -> Result<(Reply, Moving)> {
        let (mut live, mut stream) = self.back(ram)?;
        let answer = answered(&mut live, &mut stream, work, bytes)?;
        Ok((answer, Moving::lent(live, stream)?))
    }

    /// Sends what is due, ends the round, and sends what is due then, all while RAM is lent. Then stops the machine, with this RAM. Returns
    /// it, and its stream.
    pub fn stop(self, ram: &[u8]) -> Result<(Machine<TestDisk>, Vec<u8>)> {
        let mut moving = self;
        send_lent(&mut moving.live, &mut moving.stream, ram)?;
        moving.live.end_round()?;
        send_lent(&mut moving.live, &mut moving.stream, ram)?;
        let (mut live, mut stream) = moving.back(ram)?;
        stop(&mut live, &mut stream)?;
        let (machine, _writer) = live.into_parts();
        Ok((machine, stream))
    }
}

/// The machine of a stream, with RAM at this address and devices of these shapes.
pub fn arrived(
    alloc: Global,
    stream: &[u8],
    base: u64,
    shapes: &[Shape],
) -> Result<Machine<TestDisk>> {
    let limits = Limits::greatest();
    let disks = empty_disks(alloc, shapes)?;
    let (machine, _rounds) = receive_with(alloc, stream, disks, Terms { base, limits })?;
    Ok(machine)
}

/// Disks of zeros for these devices, which never fail.
fn empty_disks(alloc: Global, shapes: &[Shape]) -> Result<Vec<TestDisk>> {
    let mut disks = Vec::new(alloc);
    for shape in shapes {
        if let Shape::Block { sectors, .. } = shape {
            let disk = MemDisk::new(alloc, *sectors)?;
            disks.push(FaultDisk::new(disk, Vec::new(alloc)))?;
        }
    }
    Ok(disks)
}
