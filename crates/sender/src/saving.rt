//! Saves a whole machine to a sink.
//!
//! A save asks the marks for the next bad sector, and reads every sector before it without a look at them
//! (`Machine::read_good_sector`). A copy and a stop read one item at a time by its number, and look at its mark.

ghost use Rattle.std.specs.Prelude.{◌≡◌, ◌<◌, ◌+◌, ◌++◌, ℕ, List, IfErr, IfOk, OnOk, length, true};
ghost use Rattle.guestmem.specs.Item.{page, sector};
ghost use Rattle.machine.specs.Applied.{IsGood, ReadsSector};
ghost use Rattle.machine.specs.EffectLaws.{HasItem, sector_on, sectors_on};
ghost use Rattle.machine.specs.Layout.{pages_of};
ghost use Rattle.machine.specs.NextBad.{IsNextBad};
ghost use Rattle.machine.specs.Seen.{Seen, state_of};
ghost use Rattle.wire.specs.Records.{commit, spelled_record};
ghost use Rattle.wire.specs.Sinks.{Appends, Seals, Takes};
ghost use Rattle.wire.specs.Stream.{device_texts, record_of, records_below, saved, texts, whole};
ghost use Rattle.sender.specs.LiveState.{item_of};
ghost use Rattle.sender.specs.Items.{disk_text, first_sector, front_text, sectors_text, size_on};
ghost use Rattle.sender.specs.Reads.{ReadsFrom, ReadsItem, SaveCalls};
ghost use Rattle.sender.specs.Saving.{AddsItem, NamesItem, Sends, TakesOn};

use crate::event::Item;
use crate::mig_error::MigError;
use crate::numbering::page_count;
use guestmem::recall_bytes;
use machine::{Disk, DiskFault, Machine, SECTOR_SIZE};
use wire::{
    Digesting, Eager, Nowhere, Sink, SinkFault, encode_commit, encode_device, encode_header,
    encode_sector, write_page,
};

/// The digest of what `save` writes. It takes the same records as the writer.
type Sum = Eager<Nowhere>;

/// Writes the whole stream of a machine, and flushes the writer: each page once and each sector once, in order, the
/// devices, and the digest. A bad sector is written without a call of its disk. It returns `StreamFailed` exactly if
/// the writer failed, and `DiskFailed` exactly if the disk that it names failed. The machine stays as it was. It takes
/// no memory.
#[tactic(auto, unfolding(wire::specs::Stream::whole_in))]
pub fn save<D: Disk, S: Sink>(machine: &mut Machine<D>, out: &mut S) -> Result<(), MigError>
    ensures sent { Sends machine.old (S.state out.old) (whole (state_of machine.old)) result machine.new (S.state out.new) }
    ensures flushed { OnOk result ((S.state out.new).is_flushed ≡ true) }
    ensures calls { SaveCalls D.called machine.old result machine.new }
{
    let mut sum = Eager::new(Nowhere::new());
    write_saved(machine, out, &mut sum)?;
    write_end(&sum.digest(), out)?;
    Ok(())
}

/// Writes the digest, and flushes the writer.
pub(crate) fn write_end<S: Sink>(digest: &[u8; 32], out: &mut S) -> Result<(), SinkFault>
    ensures out { Appends (S.state out.old) (spelled_record (commit digest.now)) result (S.state out.new) }
    ensures flushed { OnOk result ((S.state out.new).is_flushed ≡ true) }
{
    encode_commit(digest, out)?;
    out.flush()
}

/// Has the writer close the stream by its own digest, and flushes it.
pub(crate) fn write_seal<W: Digesting>(writer: &mut W) -> Result<(), SinkFault>
    ensures out { Seals (W.sum writer.old) (W.state writer.old) result (W.state writer.new) }
    ensures flushed { OnOk result ((W.state writer.new).is_flushed ≡ true) }
{
    writer.seal()?;
    writer.flush()
}

/// Writes all that precedes the digest.
#[tactic(auto, using(wire::proofs::Sinks::never_fails))]
fn write_saved<D: Disk, S: Sink>(
    machine: &mut Machine<D>,
    out: &mut S,
    sum: &mut Sum,
) -> Result<(), MigError>
    ensures sent { Sends machine.old (S.state out.old) (saved (state_of machine.old)) result machine.new (S.state out.new) }
    ensures taken { TakesOn machine.old (⟦<Eager<Nowhere> as Sink>⟧.sum sum.old) (saved (state_of machine.old)) result (⟦<Eager<Nowhere> as Sink>⟧.sum sum.new) }
    ensures calls { SaveCalls D.called machine.old result machine.new }
{
    write_front(machine, out)?;
    let Ok(()) = write_front(machine, sum) else {
        unreachable!()
    };
    write_disks(machine, out, sum)?;
    write_devices(machine, out)?;
    let Ok(()) = write_devices(machine, sum) else {
        unreachable!()
    };
    Ok(())
}

/// Writes the header, and the record of each page, in order.
fn write_front<D: Disk, S: Sink>(machine: &Machine<D>, out: &mut S) -> Result<(), SinkFault>
    ensures out { Appends (S.state out.old) (front_text (state_of machine.now)) result (S.state out.new) }
    ensures taken { OnOk result (Takes (S.sum out.old) (front_text (state_of machine.now)) (S.sum out.new)) }
{
    encode_header(page_count(machine) as u32, machine.shapes(), out)?;
    write_pages(machine, out)
}

/// Writes the record of each page, in order.
#[tactic(auto, using(crate::proofs::Parts::no_records, crate::proofs::Parts::page_more))]
fn write_pages<D: Disk, S: Sink>(machine: &Machine<D>, out: &mut S) -> Result<(), SinkFault>
    ensures out { Appends (S.state out.old) (texts (records_below (state_of machine.now) (pages_of (state_of machine.now)))) result (S.state out.new) }
    ensures taken { OnOk result (Takes (S.sum out.old) (texts (records_below (state_of machine.now) (pages_of (state_of machine.now)))) (S.sum out.new)) }
{
    let ram = machine.ram();
    ram.recall();
    for number in 0..page_count(machine) {
        write_page(number as u32, ram.page(number), out)?;
    }
    Ok(())
}

/// Writes the record of each sector of each disk, in order.
fn write_disks<D: Disk, S: Sink>(
    machine: &mut Machine<D>,
    out: &mut S,
    sum: &mut Sum,
) -> Result<(), MigError>
    ensures sent { Sends machine.old (S.state out.old) (sectors_text (state_of machine.old)) result machine.new (S.state out.new) }
    ensures taken { TakesOn machine.old (⟦<Eager<Nowhere> as Sink>⟧.sum sum.old) (sectors_text (state_of machine.old)) result (⟦<Eager<Nowhere> as Sink>⟧.sum sum.new) }
    ensures calls { SaveCalls D.called machine.old result machine.new }
{
    for dev in 0..machine.shapes().len() as u8 {
        write_disk(machine, dev, out, sum)?;
    }
    Ok(())
}

/// Writes the record of each sector of a device's disk, in order. The marks are asked for the next bad sector alone, so each
/// other one is read without a look at them.
fn write_disk<D: Disk, S: Sink>(
    machine: &mut Machine<D>,
    dev: u8,
    out: &mut S,
    sum: &mut Sum,
) -> Result<(), MigError>
    requires { dev < length (state_of machine.old).devices }
    ensures sent { Sends machine.old (S.state out.old) (disk_text (state_of machine.old) dev) result machine.new (S.state out.new) }
    ensures taken { TakesOn machine.old (⟦<Eager<Nowhere> as Sink>⟧.sum sum.old) (disk_text (state_of machine.old) dev) result (⟦<Eager<Nowhere> as Sink>⟧.sum sum.new) }
    ensures calls { ReadsFrom D.called machine.old (first_sector (state_of machine.old) dev) (size_on (state_of machine.old) dev) result machine.new }
{
    let mut next_bad = machine.next_bad(dev, 0);
    for number in 0..machine.shapes()[dev as usize].sectors() {
        next_bad = send_in_turn(machine, dev, number as u32, next_bad, out, sum)?;
    }
    Ok(())
}

/// Writes the record of a sector, given the next bad one from it on, and returns the next bad one after it. A bad sector is
/// written without a call of its disk.
#[tactic(auto, using(wire::proofs::Sinks::never_fails))]
fn send_in_turn<D: Disk, S: Sink>(
    machine: &mut Machine<D>,
    dev: u8,
    number: u32,
    next_bad: Option<u64>,
    out: &mut S,
    sum: &mut Sum,
) -> Result<Option<u64>, MigError>
    requires there { HasItem (state_of machine.old) (sector dev number) }
    requires next { IsNextBad (state_of machine.old) dev number next_bad }
    ensures sent { Sends machine.old (S.state out.old) (spelled_record (record_of (state_of machine.old) (sector dev number))) result machine.new (S.state out.new) }
    ensures taken { TakesOn machine.old (⟦<Eager<Nowhere> as Sink>⟧.sum sum.old) (spelled_record (record_of (state_of machine.old) (sector dev number))) result (⟦<Eager<Nowhere> as Sink>⟧.sum sum.new) }
    ensures next { IfOk result (λ next. IsNextBad (state_of machine.old) dev (number + 1) next) }
    ensures calls { ReadsItem D.called machine.old (sector dev number) machine.new }
{
    if next_bad == Some(number as u64) {
        encode_sector(dev, number, None, out)?;
        let Ok(()) = encode_sector(dev, number, None, sum) else {
            unreachable!()
        };
        return Ok(machine.next_bad(dev, number as u64 + 1));
    }
    send_good(machine, dev, number, out, sum)?;
    Ok(next_bad)
}

/// Writes the record of a sector that is not bad.
#[tactic(auto, using(wire::proofs::Sinks::never_fails, crate::proofs::ItemReads::good_read_once))]
fn send_good<D: Disk, S: Sink>(
    machine: &mut Machine<D>,
    dev: u8,
    number: u32,
    out: &mut S,
    sum: &mut Sum,
) -> Result<(), MigError>
    requires { IsGood (sector_on (sectors_on (state_of machine.old) dev) number) }
    ensures sent { Sends machine.old (S.state out.old) (spelled_record (record_of (state_of machine.old) (sector dev number))) result machine.new (S.state out.new) }
    ensures taken { TakesOn machine.old (⟦<Eager<Nowhere> as Sink>⟧.sum sum.old) (spelled_record (record_of (state_of machine.old) (sector dev number))) result (⟦<Eager<Nowhere> as Sink>⟧.sum sum.new) }
    ensures calls { ReadsItem D.called machine.old (sector dev number) machine.new }
{
    let mut bytes = [0; SECTOR_SIZE];
    if let Err(_) = machine.read_good_sector(dev, number as u64, &mut bytes) {
        return Err(MigError::DiskFailed {
            dev,
            sector: number,
        });
    }
    encode_sector(dev, number, Some(&bytes), out)?;
    let Ok(()) = encode_sector(dev, number, Some(&bytes), sum) else {
        unreachable!()
    };
    Ok(())
}

/// Writes the record of an item, as it is now.
#[tactic(auto, using(crate::proofs::SectorReads::added_page))]
pub(crate) fn send_item<D: Disk, S: Sink>(
    machine: &mut Machine<D>,
    item: Item,
    out: &mut S,
) -> Result<(), MigError>
    requires { HasItem (state_of machine.old) (item_of item) }
    ensures item { IfErr result (λ e. NamesItem (item_of item) e (S.state out.old) (S.state out.new) (S.sum out.old) (S.sum out.new)) }
    ensures sent { Sends machine.old (S.state out.old) (spelled_record (record_of (state_of machine.old) (item_of item))) result machine.new (S.state out.new) }
    ensures added { OnOk result (AddsItem machine.old (item_of item) (S.state out.old) (S.sum out.old) (S.state out.new) (S.sum out.new)) }
    ensures calls { ReadsItem D.called machine.old (item_of item) machine.new }
{
    match item {
        Item::Page(number) => {
            send_page(machine, number, out)?;
            Ok(())
        }
        Item::Sector { dev, sector } => send_sector(machine, dev, sector, out),
    }
}

/// Writes the record of a page, as it is now.
fn send_page<D: Disk, S: Sink>(
    machine: &Machine<D>,
    number: u32,
    out: &mut S,
) -> Result<(), SinkFault>
    requires { HasItem (state_of machine.now) (page number) }
    ensures out { Appends (S.state out.old) (spelled_record (record_of (state_of machine.now) (page number))) result (S.state out.new) }
    ensures taken { OnOk result (Takes (S.sum out.old) (spelled_record (record_of (state_of machine.now) (page number))) (S.sum out.new)) }
{
    let ram = machine.ram();
    ram.recall();
    write_page(number, ram.page(number as u64), out)
}

/// Writes the record of a sector, as it is now. A bad one is written without a call of the disk.
#[tactic(auto, using(crate::proofs::ItemReads::read_once))]
fn send_sector<D: Disk, S: Sink>(
    machine: &mut Machine<D>,
    dev: u8,
    number: u32,
    out: &mut S,
) -> Result<(), MigError>
    requires { HasItem (state_of machine.old) (sector dev number) }
    ensures item { IfErr result (λ e. NamesItem (sector dev number) e (S.state out.old) (S.state out.new) (S.sum out.old) (S.sum out.new)) }
    ensures sent { Sends machine.old (S.state out.old) (spelled_record (record_of (state_of machine.old) (sector dev number))) result machine.new (S.state out.new) }
    ensures added { OnOk result (AddsItem machine.old (sector dev number) (S.state out.old) (S.sum out.old) (S.state out.new) (S.sum out.new)) }
    ensures calls { ReadsItem D.called machine.old (sector dev number) machine.new }
{
    let mut bytes = [0; SECTOR_SIZE];
    let read = machine.read_sector(dev, number as u64, &mut bytes);
    write_read(dev, number, read, &bytes, out)
}

/// Writes the record of a sector, by the result of a read of it and the buffer that was read into: the read of whatever machine it was.
pub(crate) fn write_read<S: Sink>(
    dev: u8,
    number: u32,
    read: Result<bool, DiskFault>,
    bytes: &[u8; SECTOR_SIZE],
    out: &mut S,
) -> Result<(), MigError>
    ensures item { IfErr result (λ e. NamesItem (sector dev number) e (S.state out.old) (S.state out.new) (S.sum out.old) (S.sum out.new)) }
    ensures sent { (old new : Seen) → ReadsSector old dev number bytes.now read new → Sends old (S.state out.old) (spelled_record (record_of (state_of old) (sector dev number))) result new (S.state out.new) }
    ensures added { OnOk result ((old new : Seen) → ReadsSector old dev number bytes.now read new → AddsItem old (sector dev number) (S.state out.old) (S.sum out.old) (S.state out.new) (S.sum out.new)) }
{
    match read {
        Ok(true) => {
            recall_bytes(bytes.as_slice());
            encode_sector(dev, number, Some(bytes), out)?
        }
        Ok(false) => encode_sector(dev, number, None, out)?,
        Err(_) => {
            return Err(MigError::DiskFailed {
                dev,
                sector: number,
            });
        }
    }
    Ok(())
}

/// Writes the record of each device, in order.
#[tactic(auto, using(wire::proofs::Saving::no_devices, wire::proofs::Saving::device_more))]
pub(crate) fn write_devices<D: Disk, S: Sink>(
    machine: &Machine<D>,
    out: &mut S,
) -> Result<(), SinkFault>
    ensures out { Appends (S.state out.old) (device_texts 0 (state_of machine.now).devices) result (S.state out.new) }
    ensures taken { OnOk result (Takes (S.sum out.old) (device_texts 0 (state_of machine.now).devices) (S.sum out.new)) }
{
    for number in 0..machine.shapes().len() as u8 {
        encode_device(number, machine.state(number), out)?;
    }
    Ok(())
}
