//! A writer that fails at any byte of a stream.

use anyhow::{Result, ensure};
use machine::{Machine, Shape};
use scenarios::{TestDisk, saved};
use sender::{MigError, save};
use std::alloc::Global;
use std::io::BufWriter;
use wire::WriteSink;

/// The number of a writer's fault.
const WRITER_FAILED: u8 = 4;

/// The length of the stream of a machine of one page and one entropy device to which nothing has happened.
const LEN: usize = 125;

/// Tries all of these.
pub fn fails(alloc: Global) -> Result<()> {
    write_fails(alloc)?;
    flush_fails(alloc)
}

fn fresh_machine(alloc: Global) -> Result<Machine<TestDisk>> {
    Ok(Machine::new(alloc, 1, &[Shape::Entropy], Vec::new(alloc))?)
}

/// A slice is a writer that fails where it is full. Wherever that is, the failure is reported, and the slice holds a beginning
/// of the stream. The machine stays as it was: each time it is saved into one byte more, and in the end whole.
fn write_fails(alloc: Global) -> Result<()> {
    let mut machine = fresh_machine(alloc)?;
    let stream = saved(alloc, &mut machine)?;
    fails_anywhere(alloc, &mut machine, stream.as_slice())
}

fn fails_anywhere(alloc: Global, machine: &mut Machine<TestDisk>, stream: &[u8]) -> Result<()> {
    ensure!(stream.len() == LEN, "another length");
    for room in 0..LEN {
        fails_after(alloc, machine, stream, room)?;
    }
    is_saved_again(alloc, machine, stream)
}

fn fails_after(
    alloc: Global,
    machine: &mut Machine<TestDisk>,
    stream: &[u8],
    room: usize,
) -> Result<()> {
    let mut place = vec![in alloc; 0; room]?;
    let mut sink = WriteSink::new(place.as_mut_slice());
    let told = save(machine, &mut sink).err().map_or(0, MigError::code);
    ensure!(
        told == WRITER_FAILED && stream.starts_with(place.as_slice()),
        "room for {room}"
    );
    Ok(())
}

fn is_saved_again(alloc: Global, machine: &mut Machine<TestDisk>, stream: &[u8]) -> Result<()> {
    let again = saved(alloc, machine)?;
    ensure!(again.as_slice() == stream, "another stream");
    Ok(())
}

/// A writer that buffers everything fails only when it is flushed: that is reported as well.
fn flush_fails(alloc: Global) -> Result<()> {
    let mut machine = fresh_machine(alloc)?;
    ends_at_the_flush(alloc, &mut machine, LEN - 1, WRITER_FAILED)?;
    ends_at_the_flush(alloc, &mut machine, LEN, 0)
}

fn ends_at_the_flush(
    alloc: Global,
    machine: &mut Machine<TestDisk>,
    room: usize,
    code: u8,
) -> Result<()> {
    let mut place = vec![in alloc; 0; room]?;
    let held = BufWriter::with_capacity(alloc, 5000, place.as_mut_slice())?;
    let mut sink = WriteSink::new(held);
    let told = save(machine, &mut sink).err().map_or(0, MigError::code);
    ensure!(told == code, "room for {room}");
    Ok(())
}
