//! What a header opens: an intake of its sizes, with all the memory that the records behind it need.
//!
//! A stream of another number of pages than the RAM that was handed in is a mismatch, as one of other disks is: what was handed
//! in is not what the header says.

ghost use Rattle.std.specs.Prelude.{◌≡◌, ◌≤◌, ◌*◌, [], ℕ, List, All, None, IfErr, IfOk, OnErr, OnOk, IfSome, IsTrue, ◌↔◌, false, map, replicate, length};
ghost use Rattle.blk.specs.Disk.{AreSectors};
ghost use Rattle.guestmem.specs.declared.limits.TheConstants.{PAGE_SIZE, PAGES_GREATEST};
ghost use Rattle.wire.specs.Header.{header, Begins, IsHeader, said};
ghost use Rattle.machine.specs.Layout.{firsts_of, layout_by, size_of};
ghost use Rattle.machine.specs.Limits.{AreWithin};
ghost use Rattle.machine.specs.Shapes.{disk_sizes};
ghost use Rattle.receiver.specs.Disks.{sizes_of};
ghost use Rattle.receiver.specs.Fed.{HasRead};
ghost use Rattle.receiver.specs.Opened.{HasPages, opened};
ghost use Rattle.receiver.specs.Receiving.{length_aside, place_aside};
ghost use Rattle.receiver.specs.Standing.{IsSized};
ghost use Rattle.receiver.specs.declared.recv_error.RecvError.TheVariants as errors;

use crate::intake::{Intake, ReadTerms};
use crate::ram_terms::RamTerms;
use crate::recv_error::RecvError;
use dirtylog::BitSet;
use guestmem::{ArrivingRam, NoMemory, PAGE_SIZE};
use machine::{Disk, Shape, are_disks_of};
use std::alloc::Global;
use std::mem;
use wire::Header;

/// The item number of the first sector of each device, and the count of items.
fn number_items(alloc: Global, pages: u32, shapes: &[Shape]) -> Result<(Vec<u64>, u64), NoMemory>
    requires { (version : ℕ) × IsHeader (record { version = version; pages = pages; shapes = shapes.now }) }
    ensures { IfOk result (λ x. (x.0.items ≡ firsts_of (layout_by pages shapes.now)) × (x.1 ≡ size_of (layout_by pages shapes.now))) }
{
    let mut firsts = Vec::with_capacity(alloc, shapes.len())?;
    let mut first = pages as u64;
    for shape in shapes {
        firsts.push(first)?;
        first += shape.sectors();
    }
    Ok((firsts, first))
}

/// A mark for each sector of each disk, none of them set.
fn new_marks<D: Disk>(alloc: Global, disks: &[D]) -> Result<Vec<BitSet>, NoMemory>
    ensures { IfOk result (λ bad. bad.items ≡ map (λ n. replicate n false) (sizes_of D.state disks.now)) }
{
    let mut bad = Vec::with_capacity(alloc, disks.len())?;
    for disk in disks {
        let marks = BitSet::new(alloc, disk.sectors())?;
        bad.push(marks)?;
    }
    Ok(bad)
}

/// RAM of `pages` pages: the one that the host handed in, which has that size, or else a new one. Its only error is out of memory
/// for a new one.
fn ram_of(
    alloc: Global,
    aside: &mut Option<ArrivingRam>,
    pages: u32,
) -> Result<ArrivingRam, NoMemory>
    requires some { 1 ≤ pages }
    requires few { pages ≤ PAGES_GREATEST }
    requires fits { IfSome aside.old (λ ram. length ram.bytes ≡ PAGE_SIZE * pages) }
    ensures size { IfOk result (λ ram. length ram.bytes ≡ PAGE_SIZE * pages) }
    ensures place { IfOk result (λ ram. ram.place ≡ place_aside aside.old) }
    ensures new { IfErr result (λ e. aside.old ≡ None) }
    ensures kept { IfErr result (λ e. aside.new ≡ aside.old) }
{
    match mem::replace(aside, None) {
        None => Ok(ArrivingRam::new(alloc, pages)?),
        Some(ram) => Ok(ram),
    }
}

/// Whether the RAM that the host handed in has `pages` pages. True if it handed in none.
fn has_pages(ram: RamTerms, pages: u32) -> bool
    ensures { IsTrue result ↔ HasPages ram pages }
{
    match ram.len {
        None => true,
        Some(len) => len == pages as u64 * PAGE_SIZE as u64,
    }
}

/// For proofs: each sector of the disks has 512 bytes (see the page of `guestmem`).
pub fn recall_disks<D: Disk>(disks: &[D])
    ensures { All (λ d. AreSectors d.sectors) (map D.state disks.now) }
{
    for disk in disks {
        let _count = disk.sectors();
    }
}

/// An intake that has taken a header. An error leaves the RAM that stands aside where it is.
pub fn new_intake<D: Disk>(
    alloc: Global,
    ram: RamTerms,
    aside: &mut Option<ArrivingRam>,
    disks: &[D],
    heading: Header,
) -> Result<Intake, NoMemory>
    requires header { IsHeader (said heading) }
    requires within { AreWithin ram.limits heading.pages heading.shapes.items }
    requires given { ram.len ≡ length_aside aside.old }
    requires suits { HasPages ram heading.pages }
    requires fits { sizes_of D.state disks.now ≡ disk_sizes heading.shapes.items }
    ensures sized { IfOk result (λ i. IsSized i) }
    ensures shapes { IfOk result (λ i. i.shapes.items ≡ heading.shapes.items) }
    ensures goes_on { IfOk result (λ i. i.ended ≡ false) }
    ensures place { IfOk result (λ i. i.ram.place ≡ place_aside aside.old) }
    ensures kept { IfErr result (λ e. aside.new ≡ aside.old) }
    ensures read { IfOk result (λ i. (bytes rest : List ℕ) → Begins bytes (said heading) rest
        → HasRead (map D.state disks.now) (opened ram (said heading)) [] i (header (said heading))) }
{
    let Header {
        version,
        pages,
        shapes,
        len: _,
    } = heading;
    recall_disks(disks);
    let (firsts, count) = number_items(alloc, pages, &shapes)?;
    let bad = new_marks(alloc, disks)?;
    let named = BitSet::new(alloc, count)?;
    let devices = Vec::with_capacity(alloc, shapes.len())?;
    let memory = ram_of(alloc, aside, pages)?;
    Ok(Intake {
        alloc,
        terms: ReadTerms { version, ram },
        shapes,
        ram: memory,
        named,
        firsts,
        bad,
        rounds: 0,
        devices,
        ended: false,
    })
}

/// Checks that the disks, and the RAM that was handed in, if one was, are those of the header's machine.
pub fn check_fit<D: Disk>(ram: RamTerms, disks: &[D], heading: &Header) -> Result<(), RecvError>
    ensures fits { OnOk result (sizes_of D.state disks.now ≡ disk_sizes heading.now.shapes.items) }
    ensures suits { OnOk result (HasPages ram heading.now.pages) }
    ensures mismatch { IfErr result (λ e. e ≡ errors.ShapeMismatch) }
    ensures refused { OnErr result (¬ ((sizes_of D.state disks.now ≡ disk_sizes heading.now.shapes.items) × HasPages ram heading.now.pages)) }
{
    if are_disks_of(&heading.shapes, disks) && has_pages(ram, heading.pages) {
        return Ok(());
    }
    Err(RecvError::ShapeMismatch)
}
