//! The command `check`: a stream is received over disks in memory.
//!
//! The disks have the sizes that the header gives, so a check asks for as much memory as they have, where the file is long enough to say
//! what they hold.

ghost use Rattle.std.specs.Prelude.{◌≡◌, ◌≤◌, ◌∷◌, ◌++◌, [], drop, IfOk, IfErr, IfSome, MatchOption, OnOk, OnErr, length};
ghost use Rattle.std.specs.Io.KnownBytes.{Appends};
ghost use Rattle.machine.specs.Limits.{AreWithin};
ghost use Rattle.machine.specs.Seen.{state_of};
ghost use Rattle.traces.specs.Replies.{checked_line, AppendsBeginning};
ghost use Rattle.wire.specs.Header.{Begins, said};
ghost use Rattle.vmig.specs.Allowing.{program_limits};
ghost use Rattle.vmig.specs.Checking.{BeginsNot, IsStreamLine, IsStreamMachine, TellsOfChecked, TellsOfStream, zero_disks};
ghost use Rattle.vmig.specs.Output.{FailsOnFile, HasDoneFile, Silently};

use crate::allowing::{program_limits, program_terms};
use crate::fault::Fault;
use crate::feeding::{Front, read_front, receive_rest};
use crate::output::{flush, open_file};
use crate::short_file::refuse_short;
use guestmem::{NoMemory, PAGE_SIZE};
use machine::{Limits, Machine, MemDisk, Shape};
use receiver::{Receiver, receive_with};
use std::alloc::Global;
use std::io::{Read, Write};
use std::rt::Files;
use traces::{WriteFault, write_checked};
use wire::{Header, HeaderError, read_header};

/// Checks the stream in the file of this name, of a machine whose disks may be outside or not.
pub fn check_stream<'a, R: Files + AllocGlobal, O: Write>(
    rt: &R,
    name: &'a str,
    outside: bool,
    out: &mut O,
) -> Result<(), Fault<'a>>
    ensures done { OnOk result (HasDoneFile (λ bytes. Silently (IsStreamLine outside bytes)) (O.contents out.old) (O.contents out.new)) }
    ensures failed { IfErr result (FailsOnFile name.entry.now (TellsOfStream outside) (λ bytes. Silently (IsStreamLine outside bytes)) (O.contents out.old) (O.contents out.new)) }
{
    let (machine, rounds) = receive_file(rt, name, outside)?;
    let pages = machine.ram().len() / PAGE_SIZE as u64;
    let devices = machine.shapes().len();
    write_line(pages as u32, devices as u32, rounds, out)?;
    Ok(())
}

/// The machine of the stream in the file of this name, over disks in memory, and the number of rounds that ended in it. Its
/// bytes are received as they are read.
fn receive_file<'a, R: Files + AllocGlobal>(
    rt: &R,
    name: &'a str,
    outside: bool,
) -> Result<(Machine<MemDisk>, u32), Fault<'a>>
    ensures received { IfOk result (λ x. IsStreamMachine outside (state_of x.0) x.1) }
    ensures failed { IfErr result (TellsOfChecked outside name.entry.now) }
{
    refuse_short(rt, name, outside)?;
    let alloc = rt.alloc();
    let mut file = open_file(rt, name)?;
    let front = read_front(alloc, &mut file, name)?;
    receive_in_memory(alloc, &mut file, name, front, outside)
}

/// Receives a stream over disks of zeros in memory. The file has what follows the front.
fn receive_in_memory<'a, F: Read>(
    alloc: Global,
    file: &mut F,
    name: &'a str,
    front: Front,
    outside: bool,
) -> Result<(Machine<MemDisk>, u32), Fault<'a>>
    requires { front.count ≤ length front.piece.items }
    ensures received { IfOk result (λ x. IsStreamMachine outside (state_of x.0) x.1) }
    ensures failed { IfErr result (TellsOfChecked outside name.entry.now) }
{
    match header_of(alloc, program_limits(outside), &front.piece[..front.count])? {
        Some(header) => {
            let disks = disks_of(alloc, header.shapes.as_slice())?;
            let receiver = Receiver::with_terms(alloc, disks, None, program_terms(outside));
            receive_rest(file, name, front, receiver)
        }
        None => receive_headless(alloc, &front.piece[..front.count], outside),
    }
}

/// The header at the beginning of the bytes. `None` if they begin with no header of a machine within these limits.
#[tactic(auto, using(crate::proofs::Heading::none_at_fault, crate::proofs::Heading::none_in_part))]
pub fn header_of(alloc: Global, limits: Limits, bytes: &[u8]) -> Result<Option<Header>, NoMemory>
    ensures found { IfOk result (λ found. MatchOption found (BeginsNot limits bytes.now) (λ h. (h.len ≤ length bytes.now) × Begins bytes.now (said h) (drop h.len bytes.now))) }
    ensures within { IfOk result (λ found. IfSome found (λ h. AreWithin limits h.pages h.shapes.items)) }
{
    match read_header(alloc, limits, bytes) {
        Ok(found) => Ok(found),
        Err(HeaderError::NoMemory) => Err(NoMemory),
        Err(_) => Ok(None),
    }
}

/// Refuses bytes that begin with no header, as a receiver without disks does.
fn receive_headless(
    alloc: Global,
    bytes: &[u8],
    outside: bool,
) -> Result<(Machine<MemDisk>, u32), Fault<'static>>
    requires { BeginsNot (program_limits outside) bytes.now }
    ensures received { IfOk result (λ x. IsStreamMachine outside (state_of x.0) x.1) }
    ensures failed { IfErr result (TellsOfStream outside bytes.now) }
{
    let none: Vec<MemDisk> = Vec::new(alloc);
    let received = receive_with(alloc, bytes, none, program_terms(outside))?;
    Ok(received)
}

/// Disks of zeros in memory for devices of these shapes.
pub fn disks_of(alloc: Global, shapes: &[Shape]) -> Result<Vec<MemDisk>, NoMemory>
    ensures { IfOk result (λ disks. disks.items ≡ zero_disks shapes.now) }
{
    let mut disks = Vec::new(alloc);
    for i in 0..shapes.len() {
        add_disk(alloc, shapes[i], &mut disks)?;
    }
    Ok(disks)
}

/// Adds the disk of a device, if it has one.
fn add_disk(alloc: Global, shape: Shape, disks: &mut Vec<MemDisk>) -> Result<(), NoMemory>
    ensures { OnOk result (disks.new.items ≡ disks.old.items ++ zero_disks (shape ∷ [])) }
{
    if let Shape::Block { sectors, .. } = shape {
        disks.push(MemDisk::new(alloc, sectors)?)?;
    }
    Ok(())
}

/// Writes the line of a checked stream and flushes it; on a fault, a beginning of it was written.
#[tactic(auto, using(crate::proofs::Written::flushed, crate::proofs::Written::flush_failed))]
fn write_line<O: Write>(
    pages: u32,
    devices: u32,
    rounds: u32,
    out: &mut O,
) -> Result<(), WriteFault>
    ensures ok { OnOk result (Appends (O.contents out.old) (O.contents out.new) (checked_line pages devices rounds)) }
    ensures err { OnErr result (AppendsBeginning (O.contents out.old) (O.contents out.new) (checked_line pages devices rounds)) }
{
    write_checked(out, pages, devices, rounds)?;
    flush(out)
}
