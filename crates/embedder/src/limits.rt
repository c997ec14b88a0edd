//! How large a machine may be: one that is made, and what a stream announces, under the usual limits and under those of a host.

use crate::streams::{machine_of, written};
use anyhow::{Context, Result, ensure};
use std::alloc::Global;
use vmig::{
    Board, Limits, Machine, MemDisk, RamOf, Receiver, Shape, Terms, decode_header, read_heading,
    read_heading_within, receive_with,
};

/// The header of a machine of 16,385 pages and an entropy device.
const PAGES: [u8; 17] = [
    0x56, 0x4d, 0x49, 0x47, 2, 0, 0, 0, 1, 0x40, 0, 0, 1, 0, 0, 0, 4,
];

/// The header of a machine of one page and a disk of 2,097,153 sectors, with an id of zeros.
const DISK: [u8; 46] = [
    0x56, 0x4d, 0x49, 0x47, 2, 0, 0, 0, 1, 0, 0, 0, 1, 0, 0, 0, 2, 1, 0, 0x20, 0, 0, 0, 0, 0, 0, 0,
    0, 0, 0, 0, 0, 0, 0, 0, 0, 0, 0, 0, 0, 0, 0, 0, 0, 0, 0,
];

/// The byte that shows how many pages there are, and the last one of the disk's shape.
const AT_PAGES: usize = 16;

const AT_DISK: usize = 46;

/// The faults of a header (docs/stream-format.md): out of range, and other disks than those at hand.
const BAD_SHAPE: u8 = 3;

const MISMATCH: u8 = 4;

/// Makes each call that is told how large a machine may be.
pub fn agree(alloc: Global) -> Result<()> {
    machines_are_within(alloc)?;
    headers_are_within(alloc)?;
    receivers_are_within(alloc)?;
    slices_are_within(alloc)
}

fn limits_of(pages: u32, sectors: u32) -> Limits {
    Limits {
        pages,
        sectors,
        ..Limits::usual()
    }
}

/// A machine is made where it is within its board's limits, and no larger one is.
fn machines_are_within(alloc: Global) -> Result<()> {
    let (both, usual, greatest) = (limits_of(2, 3), Limits::usual(), Limits::greatest());
    is_told(refusal_of(alloc, both, 2, 3)?, 0, "as large as allowed")?;
    is_told(refusal_of(alloc, both, 3, 3)?, 1, "a page more")?;
    is_told(refusal_of(alloc, both, 2, 4)?, 1, "a sector more")?;
    let refusal = refusal_of(alloc, usual, 16_385, 1)?;
    is_told(refusal, 1, "a page more than the usual")?;
    is_told(refusal_of(alloc, greatest, 0, 1)?, 1, "no page")
}

/// Fails unless the number of a refusal, or 0, is this one.
fn is_told(refusal: u8, expected: u8, compared: &str) -> Result<()> {
    ensure!(refusal == expected, "{compared}");
    Ok(())
}

/// The number of the reason why no machine with this many pages, and a disk of this many sectors, is made; or 0.
fn refusal_of(alloc: Global, limits: Limits, pages: u32, sectors: u64) -> Result<u8> {
    let mut disks = Vec::new(alloc);
    disks.push(MemDisk::new(alloc, sectors)?)?;
    let block = Shape::Block {
        sectors,
        read_only: false,
        id: [0; 20],
    };
    Ok(code_of(alloc, limits, pages, &[block], disks))
}

fn code_of(alloc: Global, limits: Limits, pages: u32, shapes: &[Shape], disks: Vec<MemDisk>) -> u8 {
    let board = Board {
        limits,
        base: 0,
        ram: RamOf::Pages(pages),
        shapes,
        disks,
    };
    match Machine::make(alloc, board) {
        Ok(_) => 0,
        Err(unmade) => unmade.reason().code(),
    }
}

/// A header is read within limits of exactly what it announces, and refused within any less, and within the usual.
fn headers_are_within(alloc: Global) -> Result<()> {
    is_read(alloc, limits_of(16_385, 0), &PAGES)?;
    is_read(alloc, limits_of(1, 2_097_153), &DISK)?;
    is_read(alloc, Limits::greatest(), &PAGES)?;
    headers_are_refused(alloc)?;
    is_unusual(alloc, &PAGES, AT_PAGES)?;
    is_unusual(alloc, &DISK, AT_DISK)
}

fn headers_are_refused(alloc: Global) -> Result<()> {
    is_refused(alloc, limits_of(16_384, 0), &PAGES, AT_PAGES)?;
    is_refused(alloc, Limits::usual(), &PAGES, AT_PAGES)?;
    is_refused(alloc, limits_of(1, 2_097_152), &DISK, AT_DISK)?;
    is_refused(alloc, Limits::usual(), &DISK, AT_DISK)
}

/// The number of a header's fault; 0 of a whole one, and `None` where it is not whole.
fn told(alloc: Global, limits: Limits, bytes: &[u8]) -> Option<u8> {
    match read_heading_within(alloc, limits, bytes) {
        Ok(Some(_)) => Some(0),
        Ok(None) => None,
        Err(error) => Some(error.code()),
    }
}

/// Cut anywhere it waits for more, and whole it is read.
fn is_read(alloc: Global, limits: Limits, header: &[u8]) -> Result<()> {
    for len in 0..header.len() {
        let cut = header.get(..len).context("no front")?;
        ensure!(told(alloc, limits, cut).is_none(), "a cut header");
    }
    ensure!(told(alloc, limits, header) == Some(0), "a whole header");
    Ok(())
}

/// Cut before this byte it waits for more, and with it it is refused.
fn is_refused(alloc: Global, limits: Limits, header: &[u8], at: usize) -> Result<()> {
    for len in 0..header.len() + 1 {
        let cut = header.get(..len).context("no front")?;
        let wanted = if len < at { None } else { Some(BAD_SHAPE) };
        ensure!(
            told(alloc, limits, cut) == wanted,
            "a header of {len} bytes"
        );
    }
    Ok(())
}

/// The calls without limits have the usual ones.
fn is_unusual(alloc: Global, header: &[u8], at: usize) -> Result<()> {
    ensure!(
        decode_header(alloc, header)?.is_none(),
        "a header beyond the usual"
    );
    let cut = header.get(..at).context("no front")?;
    let Err(error) = read_heading(alloc, cut) else {
        anyhow::bail!("a header beyond the usual is whole");
    };
    ensure!(error.code() == BAD_SHAPE, "its fault");
    Ok(())
}

/// A receiver refuses at the same byte, whoever says the limits, and takes the same bytes within limits that allow them.
fn receivers_are_within(alloc: Global) -> Result<()> {
    let pages = Some((AT_PAGES, BAD_SHAPE));
    is_at(fault_within(alloc, 16_384, 0, &PAGES), pages, "fewer pages")?;
    is_at(fault_within(alloc, 16_385, 0, &PAGES), None, "as many")?;
    is_at(usual_fault(alloc, &PAGES), pages, "the usual pages")?;
    let disk = Some((AT_DISK, BAD_SHAPE));
    let none = Some((AT_DISK, MISMATCH));
    is_at(
        fault_within(alloc, 1, 2_097_152, &DISK),
        disk,
        "fewer sectors",
    )?;
    is_at(
        fault_within(alloc, 1, 2_097_153, &DISK),
        none,
        "as many, and no such disk",
    )?;
    is_at(usual_fault(alloc, &DISK), disk, "the usual sectors")
}

/// Fails unless a receiver's fault is this one.
fn is_at(fault: Option<(usize, u8)>, expected: Option<(usize, u8)>, compared: &str) -> Result<()> {
    ensure!(fault == expected, "{compared}");
    Ok(())
}

/// The byte that shows a receiver a fault, counted from 1, and the number of the fault.
fn fault_within(alloc: Global, pages: u32, sectors: u32, header: &[u8]) -> Option<(usize, u8)> {
    let terms = Terms {
        base: 0,
        limits: limits_of(pages, sectors),
    };
    let mut receiver: Receiver<MemDisk> = Receiver::with_terms(alloc, Vec::new(alloc), None, terms);
    fault_of(&mut receiver, header)
}

fn usual_fault(alloc: Global, header: &[u8]) -> Option<(usize, u8)> {
    let mut receiver: Receiver<MemDisk> = Receiver::new(alloc, Vec::new(alloc));
    fault_of(&mut receiver, header)
}

fn fault_of(receiver: &mut Receiver<MemDisk>, header: &[u8]) -> Option<(usize, u8)> {
    for at in 0..header.len() {
        if let Err(error) = receiver.feed(&[header[at]]) {
            return Some((at + 1, error.code()));
        }
    }
    None
}

/// A whole stream of a machine of one page, by which a host allows one page, and by which it allows none.
fn slices_are_within(alloc: Global) -> Result<()> {
    let stream = stream_of(alloc)?;
    is_told(fault_in(alloc, 1, stream.as_slice()), 0, "one page")?;
    is_told(fault_in(alloc, 0, stream.as_slice()), BAD_SHAPE, "no page")
}

fn stream_of(alloc: Global) -> Result<Vec<u8>> {
    let mut machine = machine_of(alloc)?;
    written(alloc, &mut machine)
}

/// The number of the fault of a stream, or 0.
fn fault_in(alloc: Global, pages: u32, stream: &[u8]) -> u8 {
    let terms = Terms {
        base: 0,
        limits: limits_of(pages, 0),
    };
    let none: Vec<MemDisk> = Vec::new(alloc);
    match receive_with(alloc, stream, none, terms) {
        Ok(_) => 0,
        Err(error) => error.code(),
    }
}
