//! One unit of a request.

ghost use Rattle.std.specs.Prelude.{◌≡◌, ◌≤◌, ◌<◌, ◌+◌, ◌^◌, ◌*◌, IsTrue, length, not, true};
ghost use Rattle.guestmem.specs.Item.{MayPages, sector};
ghost use Rattle.guestmem.specs.Memory.{Memory};
ghost use Rattle.chains.specs.Frame.{HasServed};
ghost use Rattle.chains.specs.Places.{places, AreSegmentsInside};
ghost use Rattle.blk.specs.Request.{is_open, next_sector};
ghost use Rattle.blk.specs.Advance.{asks};
ghost use Rattle.blk.specs.Sectors.{AreWhole, Calls, IsKept};
ghost use Rattle.blk.specs.Move.{HasMoved, MaySectors, unit_scene, move_in, move_flush, move_of, unit_bytes, write_unit, after_unit, is_disk_failed};
ghost use Rattle.blk.specs.Block.{widest};
ghost use Rattle.blk.specs.Sound.{HasSoundWork};
ghost use Rattle.blk.specs.declared.advancing.Advanced.TheVariants.{Moved};
ghost use Rattle.blk.specs.declared.request.Kind.TheVariants as kinds;
ghost use Rattle.blk.specs.declared.shape.Limits.{Limits};

use crate::advancing::{Advanced, Job};
use crate::disk::{Disk, SECTOR_SIZE};
use crate::request::{HEADER_SIZE, Kind, Request, Verdict};
use crate::sectors::{Fetched, Sectors};
use crate::shape::ID_SIZE;
use chains::{copy_in_with_base, copy_out_with_base};
use guestmem::{Ram, TouchLog, recall_bytes};

/// Reads one sector into the writable bytes of a request.
fn move_in<D: Disk, L: TouchLog>(
    job: Job,
    request: &mut Request,
    sectors: &mut Sectors<D>,
    ram: &mut Ram,
    log: &mut L,
) -> Advanced
    requires inside { AreSegmentsInside job.base (length ram.old.bytes) request.old.writable }
    requires places { SECTOR_SIZE * request.old.done + SECTOR_SIZE ≤ length (places request.old.writable) }
    requires sector { request.old.first + request.old.done < length sectors.old.content }
    requires open { request.old.done < request.old.units }
    requires small { length sectors.old.content < 2 ^ 64 }
    requires whole { AreWhole sectors.old.content }
    requires may { MayPages L.may log.old (length ram.old.bytes) }
    ensures moved { HasMoved L.after job.device (unit_scene ram.old log.old sectors.old request.old) (unit_scene ram.new log.new sectors.new request.new) (move_in job.base) result }
    ensures request { request.new ≡ after_unit request.old result }
    ensures kept { IsKept sectors.old (is_disk_failed result) sectors.new }
    ensures calls { Calls D.called (asks kinds.In result) sectors.old sectors.new }
    ensures after { HasServed L.may ram.old ram.new log.new }
{
    let n = request.next_sector();
    let mut buffer = [0; SECTOR_SIZE];
    match sectors.read(n, &mut buffer) {
        Fetched::Bad => {
            request.verdict = Verdict::IoError;
            Advanced::BadSector
        }
        Fetched::Failed => {
            request.verdict = Verdict::IoError;
            Advanced::DiskFailed
        }
        Fetched::Read => {
            recall_bytes(&buffer);
            copy_in_with_base(
                ram,
                job.base,
                request.writable.as_slice(),
                SECTOR_SIZE as u64 * request.done as u64,
                &buffer,
                log,
            );
            request.done += 1;
            Advanced::Moved
        }
    }
}

/// The readable bytes of the next unit of a request.
fn unit_bytes(base: u64, request: &Request, ram: &Ram) -> [u8; SECTOR_SIZE]
    requires inside { AreSegmentsInside base (length ram.now.bytes) request.now.readable }
    requires places { HEADER_SIZE + SECTOR_SIZE * request.now.done + SECTOR_SIZE ≤ length (places request.now.readable) }
    ensures { result ≡ unit_bytes base ram.now.bytes request.now }
{
    let mut buffer = [0; SECTOR_SIZE];
    copy_out_with_base(
        ram,
        base,
        request.readable.as_slice(),
        HEADER_SIZE as u64 + SECTOR_SIZE as u64 * request.done as u64,
        &mut buffer,
    );
    buffer
}

/// Writes these bytes into the sector of one unit.
fn write_unit<D: Disk, L: TouchLog>(
    device: u8,
    bytes: &[u8; SECTOR_SIZE],
    request: &mut Request,
    sectors: &mut Sectors<D>,
    log: &mut L,
) -> Advanced
    requires sector { request.old.first + request.old.done < length sectors.old.content }
    requires open { request.old.done < request.old.units }
    requires small { length sectors.old.content < 2 ^ 64 }
    requires whole { AreWhole sectors.old.content }
    requires may_sectors { MaySectors L.may log.old device (length sectors.old.content) }
    ensures moved { (ram : Memory) → HasMoved L.after device (unit_scene ram log.old sectors.old request.old) (unit_scene ram log.new sectors.new request.new) (λ given. write_unit bytes.now) result }
    ensures request { request.new ≡ after_unit request.old result }
    ensures kept { IsKept sectors.old (is_disk_failed result) sectors.new }
    ensures calls { Calls D.called true sectors.old sectors.new }
    ensures log { log.new ≡ L.after log.old (sector device (next_sector request.old)) }
{
    let n = request.next_sector();
    let written = sectors.write(n, bytes);
    log.sector(device, n);
    if written.is_err() {
        request.verdict = Verdict::IoError;
        return Advanced::DiskFailed;
    }
    request.done += 1;
    Advanced::Moved
}

/// Flushes the disk. A flush that is done has left the disk flushed.
fn move_flush<D: Disk>(request: &mut Request, sectors: &mut Sectors<D>) -> Advanced
    requires open { request.old.done < request.old.units }
    ensures answer { result ≡ (move_flush request.old (not (is_disk_failed result))).answer }
    ensures moved { request.new ≡ (move_flush request.old (not (is_disk_failed result))).request }
    ensures request { request.new ≡ after_unit request.old result }
    ensures kept { IsKept sectors.old (is_disk_failed result) sectors.new }
    ensures same { sectors.new.content ≡ sectors.old.content }
    ensures flushed { result ≡ Moved → IsTrue sectors.new.is_flushed }
    ensures calls { Calls D.called true sectors.old sectors.new }
{
    if sectors.flush().is_err() {
        request.verdict = Verdict::IoError;
        return Advanced::DiskFailed;
    }
    request.done += 1;
    Advanced::Moved
}

/// Does one unit of a request of a device with this id.
pub(crate) fn move_unit<D: Disk, L: TouchLog>(
    job: Job,
    id: &[u8; ID_SIZE],
    request: &mut Request,
    sectors: &mut Sectors<D>,
    ram: &mut Ram,
    log: &mut L,
) -> Advanced
    requires open { is_open request.old ≡ true }
    requires small { length sectors.old.content < 2 ^ 64 }
    requires whole { AreWhole sectors.old.content }
    requires sound { HasSoundWork (widest (length sectors.old.content)) request.old }
    requires readable { AreSegmentsInside job.base (length ram.old.bytes) request.old.readable }
    requires writable { AreSegmentsInside job.base (length ram.old.bytes) request.old.writable }
    requires may { MayPages L.may log.old (length ram.old.bytes) }
    requires may_sectors { MaySectors L.may log.old job.device (length sectors.old.content) }
    ensures moved { HasMoved L.after job.device (unit_scene ram.old log.old sectors.old request.old) (unit_scene ram.new log.new sectors.new request.new) (move_of request.old.kind job.base id.now ram.old.bytes) result }
    ensures request { request.new ≡ after_unit request.old result }
    ensures sound { (limits : Limits) → HasSoundWork limits request.old → HasSoundWork limits request.new }
    ensures kept { IsKept sectors.old (is_disk_failed result) sectors.new }
    ensures calls { Calls D.called (asks request.old.kind result) sectors.old sectors.new }
    ensures flushed { request.old.kind ≡ kinds.Flush → result ≡ Moved → IsTrue sectors.new.is_flushed }
    ensures after { HasServed L.may ram.old ram.new log.new }
{
    match request.kind {
        Kind::In => move_in(job, request, sectors, ram, log),
        Kind::Out => {
            let bytes = unit_bytes(job.base, request, ram);
            write_unit(job.device, &bytes, request, sectors, log)
        }
        Kind::Flush => move_flush(request, sectors),
        Kind::GetId => {
            copy_in_with_base(ram, job.base, request.writable.as_slice(), 0, id, log);
            request.done += 1;
            Advanced::Moved
        }
        Kind::Zero => {
            let bytes = [0; SECTOR_SIZE];
            write_unit(job.device, &bytes, request, sectors, log)
        }
        Kind::Refused => Advanced::Idle,
    }
}
