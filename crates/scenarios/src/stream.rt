//! Streams of machines: how they are made and received.

use crate::disks::{TestDisk, disks_for};
use crate::outside::{limits, terms};
use anyhow::{Context, Result, ensure};
use machine::{Disk, Machine};
use receiver::{Receiver, RecvError, Terms, read_heading_within, receive_with};
use sender::save;
use std::alloc::Global;
use wire::WriteSink;

/// The sizes of the pieces in which each stream is fed as well.
pub const PIECES: [usize; 6] = [1, 2, 3, 511, 4101, 65_536];

/// The number of the refusal of every piece after a refusal.
const REFUSED_BEFORE: u8 = 16;

/// The stream that a machine is saved as.
pub fn saved<D: Disk>(alloc: Global, machine: &mut Machine<D>) -> Result<Vec<u8>> {
    let mut sink = WriteSink::new(Vec::new(alloc));
    save(machine, &mut sink)?;
    Ok(sink.into_inner())
}

/// The machine of a stream in which `rounds` rounds ended.
pub fn arrived(alloc: Global, stream: &[u8], rounds: u32) -> Result<Machine<TestDisk>> {
    let disks = disks_within(alloc, stream)?;
    let (machine, ended) = receive_with(alloc, stream, disks, terms())?;
    ensure!(ended == rounds, "{ended} rounds ended");
    Ok(machine)
}

/// Disks of zeros for the devices that the header of a stream names.
fn disks_within(alloc: Global, stream: &[u8]) -> Result<Vec<TestDisk>> {
    let header = read_heading_within(alloc, limits(), stream)?.context("no header")?;
    disks_for(alloc, header.shapes.as_slice())
}

/// The machine of a stream in which `rounds` rounds ended, received in pieces of `size` bytes.
pub fn arrived_in_pieces(
    alloc: Global,
    stream: &[u8],
    rounds: u32,
    size: usize,
) -> Result<Machine<TestDisk>> {
    let disks = disks_within(alloc, stream)?;
    let mut receiver = Receiver::with_terms(alloc, disks, None, terms());
    takes_pieces(&mut receiver, stream, rounds, size)?;
    Ok(receiver.finish()?)
}

/// Feeds a stream in which `rounds` rounds ended, in pieces of `size` bytes.
fn takes_pieces(
    receiver: &mut Receiver<TestDisk>,
    stream: &[u8],
    rounds: u32,
    size: usize,
) -> Result<()> {
    for piece in stream.chunks(size.max(1)) {
        receiver.feed(piece)?;
    }
    ensure!(receiver.rounds() == rounds, "rounds in pieces of {size}");
    Ok(())
}

/// The number of the refusal of a stream with these disks, on these terms, or 0 where it is received.
pub fn refusal_of(alloc: Global, stream: &[u8], disks: Vec<TestDisk>, terms: Terms) -> u8 {
    receive_with(alloc, stream, disks, terms)
        .err()
        .map_or(0, RecvError::code)
}

/// The number of the refusal of a stream that is fed in pieces of `size` bytes, or 0 where it is received; and how many bytes
/// were fed by then. It fails if a receiver that refused a piece does not refuse every piece after it.
pub fn refusal_in_pieces(
    alloc: Global,
    stream: &[u8],
    disks: Vec<TestDisk>,
    terms: Terms,
    size: usize,
) -> Result<(u8, usize)> {
    let mut receiver = Receiver::with_terms(alloc, disks, None, terms);
    if let Some(refused) = refusal_of_piece(&mut receiver, stream, size) {
        stays_refused(receiver)?;
        return Ok(refused);
    }
    let refusal = receiver.finish().err();
    Ok((refusal.map_or(0, RecvError::code), stream.len()))
}

/// The number of the refusal of a piece, and how many bytes were fed by then.
fn refusal_of_piece(
    receiver: &mut Receiver<TestDisk>,
    stream: &[u8],
    size: usize,
) -> Option<(u8, usize)> {
    let mut fed = 0usize;
    for piece in stream.chunks(size.max(1)) {
        fed = fed.saturating_add(piece.len());
        if let Err(error) = receiver.feed(piece) {
            return Some((error.code(), fed));
        }
    }
    None
}

/// Fails if a receiver takes anything more.
fn stays_refused(mut receiver: Receiver<TestDisk>) -> Result<()> {
    let fed = receiver.feed(&[0]).err().map_or(0, RecvError::code);
    let rounds = receiver.rounds();
    let finished = receiver.finish().err().map_or(0, RecvError::code);
    ensure!(
        (fed, rounds, finished) == (REFUSED_BEFORE, 0, REFUSED_BEFORE),
        "behind a refusal"
    );
    Ok(())
}
