//! Records taken one by one from a stream.
//!
//! Each kind of record has one function: it looks whether the record may come and where it belongs, as far as its head tells, waits for
//! the body, and takes it. So the place of a sector is found once, where the record is whole.
//!
//! A good sector is written to its disk as its record ends, from the bytes that are held, without a copy. What was written
//! stays written where a later fault is reported: the disks may hold a part of the stream, and are dropped.

ghost use Rattle.std.specs.Prelude.{◌≡◌, ◌≢◌, ◌++◌, ◌+◌, ◌*◌, ◌≤◌, ◌<◌, ◌∷◌, ◌↔◌, [], ℕ, List, All, IsTrue, IfErr, IfOk, IfSome, OnOk, MatchOption, None, Ok, Err, false, is_some, length, map, slice_index_or, true};
ghost use Rattle.receiver.specs.Opened.{Opened};
ghost use Rattle.wire.specs.Records as records;
ghost use Rattle.sha2.specs.Sha256.{sha256};
ghost use Rattle.wire.specs.declared.record_head.RecordHead.TheVariants as heads;
ghost use Rattle.blk.specs.Disk.{DiskState};
ghost use Rattle.machine.specs.Shapes.{disk_sizes, sector_count};
ghost use Rattle.receiver.specs.Closing.{HasAll};
ghost use Rattle.receiver.specs.Disks.{sizes_of};
ghost use Rattle.receiver.specs.Faults.{IsLate, MayTag};
ghost use Rattle.receiver.specs.Fed.{Checked, HasRead, IsUpTo, TakesPart, Worked};
ghost use Rattle.receiver.specs.Receiving.{HasDevice};
ghost use Rattle.receiver.specs.Sums.{CanSay, IsClear, SaysOn, Sums};
ghost use Rattle.receiver.specs.Spots.{CallsOf, HasMarks, IsSpotIn, disks_before};
ghost use Rattle.receiver.specs.Standing.{BeginsDevice, Closes, Enters, IsDeviceHead, IsLong, IsShort, IsSized, Keeps, TakesHead};
ghost use Rattle.receiver.specs.declared.ram_terms.RamTerms.{RamTerms};
ghost use Rattle.receiver.specs.declared.recv_error.RecvError.TheVariants as errors;

use crate::ram_terms::RamTerms;
use crate::recv_error::RecvError;
use crate::summing::Summing;
use dirtylog::BitSet;
use guestmem::{ArrivingRam, PAGE_SIZE};
use machine::{DeviceState, Disk, SECTOR_SIZE, Shape};
use std::alloc::Global;
use wire::{
    BODY_MAX, COMMIT_TAG, DEVICE_TAG, DecodeError, FIRST_VERSION, FoundHead, PAGE_TAG,
    ROUND_END_TAG, RecordHead, SECTOR_TAG, ZERO_PAGE_TAG, decode_device_at, has_record, read_head,
};

/// How many bytes the digest has.
const DIGEST_LEN: usize = 32;

/// What a stream is read under: its version, and what the host says of the machine. No record changes them.
#[derive(Clone, Copy)]
pub struct ReadTerms {
    pub version: u32,
    pub ram: RamTerms,
}

/// What was read of a stream: its terms, the shapes of its devices, the pages, the marks of the bad sectors of each disk, how
/// many rounds ended, the devices that arrived so far, and whether the digest was read, which ends it. The good sectors were written
/// to the disks.
///
/// `named` has a mark for each item, in the order of their numbers, and keeps a count of those that are named. `firsts`
/// has the item number of the first sector of each device.
#[derive(Drop)]
pub struct Intake {
    pub alloc: Global,
    pub terms: ReadTerms,
    pub shapes: Vec<Shape>,
    pub ram: ArrivingRam,
    pub named: BitSet,
    pub firsts: Vec<u64>,
    pub bad: Vec<BitSet>,
    pub rounds: u32,
    pub devices: Vec<DeviceState>,
    pub ended: bool,
}

/// Where a sector is: the index of its disk among the disks, and the number of its item.
#[derive(Clone, Copy)]
struct Spot {
    disk: usize,
    item: u64,
}

/// Whether a record with this tag may come next in this version, after `devices` of `count` device records.
fn may_stand(version: u32, count: usize, devices: usize, tag: u8) -> bool
    ensures { IsTrue result ↔ MayTag version count devices tag }
{
    match tag {
        PAGE_TAG | SECTOR_TAG | ROUND_END_TAG => devices == 0,
        DEVICE_TAG => devices < count,
        COMMIT_TAG => true,
        ZERO_PAGE_TAG => version != FIRST_VERSION && devices == 0,
        _ => false,
    }
}

/// Whether this is the tag of a device or of the digest.
fn is_late(tag: u8) -> bool
    ensures { IsTrue result ↔ IsLate tag }
{
    DEVICE_TAG <= tag && tag <= COMMIT_TAG
}

/// Whether each item is named. It compares two counts, which takes constant time.
fn is_named(named: &BitSet) -> bool
    ensures { IsTrue result ↔ All (λ b. b ≡ true) named.now }
{
    named.count() == named.len()
}

/// Whether each item is named and each device has arrived, so that the digest may come.
pub fn has_all(intake: &Intake) -> bool
    ensures { IsTrue result ↔ HasAll intake.now }
{
    is_named(&intake.named) && intake.devices.len() == intake.shapes.len()
}

/// Checks that a record with this tag may come next.
fn check_tag(intake: &Intake, tag: u8) -> Result<(), RecvError>
    ensures memory { IfErr result (λ e. e ≢ errors.NoMemory) }
    ensures next { tag ≡ 4 → OnOk result (length intake.now.devices.items < length intake.now.shapes.items) }
    ensures checked { (ds : List DiskState) (front more : List ℕ) (opening : Opened) (before : List records.Record) → HasRead ds opening before intake.now front → Checked opening before tag more result }
{
    if !may_stand(
        intake.terms.version,
        intake.shapes.len(),
        intake.devices.len(),
        tag,
    ) {
        return Err(RecvError::BadTag);
    }
    if !is_late(tag) {
        return Ok(());
    }
    if !is_named(&intake.named) {
        return Err(RecvError::Missing);
    }
    if tag == DEVICE_TAG {
        return Ok(());
    }
    if intake.devices.len() != intake.shapes.len() {
        return Err(RecvError::Missing);
    }
    Ok(())
}

/// Whether there is this page.
fn has_page(intake: &Intake, number: u32) -> bool
    ensures { IsTrue result ↔ (4096 * number + 4096 ≤ length intake.now.ram.bytes) }
{
    (number as u64) < intake.ram.len() / PAGE_SIZE as u64
}

/// Takes the record of a page.
fn take_page(intake: &mut Intake, number: u32, behind: &[u8]) -> Result<bool, RecvError>
    requires sized { IsSized intake.old }
    ensures sized { IsSized intake.new }
    ensures keeps { Keeps intake.old intake.new }
    ensures short { IsShort (heads.Page number) behind.now result }
    ensures long { IsLong (heads.Page number) behind.now result }
    ensures memory { IfErr result (λ e. e ≢ errors.NoMemory) }
    ensures entered { (ds : List DiskState) → Enters ds ds intake.old intake.new (heads.Page number) behind.now result }
{
    if !has_page(intake, number) {
        return Err(RecvError::BadPage);
    }
    if behind.len() < PAGE_SIZE {
        return Ok(false);
    }
    let (bytes, _) = behind.split_at(PAGE_SIZE);
    if !has_record(intake.terms.version, RecordHead::Page { number }, bytes) {
        return Err(RecvError::BadPage);
    }
    intake.ram.recall();
    intake.ram.put_page(number as u64, bytes);
    intake.named.insert(number as u64);
    Ok(true)
}

/// Takes the record of a page of zeros.
fn take_zero_page(intake: &mut Intake, number: u32) -> Result<bool, RecvError>
    requires sized { IsSized intake.old }
    ensures sized { IsSized intake.new }
    ensures keeps { Keeps intake.old intake.new }
    ensures all { OnOk result (result ≡ Ok true) }
    ensures memory { IfErr result (λ e. e ≢ errors.NoMemory) }
    ensures entered { (ds : List DiskState) (behind : List ℕ) → Enters ds ds intake.old intake.new (heads.ZeroPage number) behind result }
{
    if !has_page(intake, number) {
        return Err(RecvError::BadPage);
    }
    intake.ram.recall();
    intake.ram.clear_page(number as u64);
    intake.named.insert(number as u64);
    Ok(true)
}

/// How many of the devices before index `place` have a disk.
fn disks_before(shapes: &[Shape], place: usize) -> usize
    requires { place ≤ length shapes.now }
    ensures { result ≡ disks_before shapes.now place }
{
    let (before, _) = shapes.split_at(place);
    before.iter().filter(|shape| shape.sectors() > 0).count()
}

/// Where the sector of a device is, if the device has it.
fn find_sector(intake: &Intake, dev: u8, number: u32) -> Option<Spot>
    requires { IsSized intake.now }
    ensures marked { IfSome result (λ spot. HasMarks intake.now number spot) }
    ensures found { MatchOption result (¬ (number < slice_index_or (map sector_count intake.now.shapes.items) dev 0))
        (λ spot. IsSpotIn intake.now dev number spot) }
{
    let place = dev as usize;
    if place >= intake.shapes.len() {
        return None;
    }
    if number as u64 >= intake.shapes[place].sectors() {
        return None;
    }
    let disk = disks_before(&intake.shapes, place);
    let _count = intake.named.len();
    let first = intake.firsts[place];
    let item = first + number as u64;
    Some(Spot { disk, item })
}

/// Takes the record of a bad sector: marks it, and calls no disk.
fn take_bad(intake: &mut Intake, dev: u8, number: u32) -> Result<bool, RecvError>
    requires sized { IsSized intake.old }
    ensures sized { IsSized intake.new }
    ensures keeps { Keeps intake.old intake.new }
    ensures all { OnOk result (result ≡ Ok true) }
    ensures memory { IfErr result (λ e. e ≢ errors.NoMemory) }
    ensures entered { (ds : List DiskState) (behind : List ℕ) → Enters ds ds intake.old intake.new (heads.Sector dev number false) behind result }
{
    let Some(spot) = find_sector(intake, dev, number) else {
        return Err(RecvError::BadSector);
    };
    intake.bad[spot.disk].insert(number as u64);
    intake.named.insert(spot.item);
    Ok(true)
}

/// Takes the record of a good sector: one call of its disk.
fn take_good<D: Disk>(
    intake: &mut Intake,
    disks: &mut [D],
    dev: u8,
    number: u32,
    behind: &[u8],
) -> Result<bool, RecvError>
    requires sized { IsSized intake.old }
    requires fits { sizes_of D.state disks.old ≡ disk_sizes intake.old.shapes.items }
    ensures sized { IsSized intake.new }
    ensures sizes { sizes_of D.state disks.new ≡ sizes_of D.state disks.old }
    ensures keeps { Keeps intake.old intake.new }
    ensures short { IsShort (heads.Sector dev number true) behind.now result }
    ensures long { IsLong (heads.Sector dev number true) behind.now result }
    ensures memory { IfErr result (λ e. e ≢ errors.NoMemory) }
    ensures calls { CallsOf D.called (heads.Sector dev number true) intake.old.shapes.items result (map D.calls disks.old) (map D.calls disks.new) }
    ensures entered { Enters (map D.state disks.old) (map D.state disks.new) intake.old intake.new (heads.Sector dev number true) behind.now result }
{
    let Some(spot) = find_sector(intake, dev, number) else {
        return Err(RecvError::BadSector);
    };
    let Some(bytes) = behind.first_chunk::<SECTOR_SIZE>() else {
        return Ok(false);
    };
    match disks[spot.disk].write(number as u64, bytes) {
        Ok(()) => {}
        Err(_) => return Err(RecvError::DiskFailed),
    }
    intake.bad[spot.disk].remove(number as u64);
    intake.named.insert(spot.item);
    Ok(true)
}

/// Takes the record of the end of a round, which is the next.
fn take_round(intake: &mut Intake, number: u32) -> Result<bool, RecvError>
    requires sized { IsSized intake.old }
    ensures sized { IsSized intake.new }
    ensures keeps { Keeps intake.old intake.new }
    ensures all { OnOk result (result ≡ Ok true) }
    ensures memory { IfErr result (λ e. e ≢ errors.NoMemory) }
    ensures entered { (ds : List DiskState) (behind : List ℕ) → Enters ds ds intake.old intake.new (heads.RoundEnd number) behind result }
{
    if number == 0 {
        return Err(RecvError::BadRound);
    }
    if number - 1 != intake.rounds {
        return Err(RecvError::BadRound);
    }
    intake.rounds = number;
    Ok(true)
}

fn nth(shapes: &[Shape], i: usize) -> Shape
    requires { i < length shapes.now }
    ensures { result ≡ slice_index_or shapes.now i result }
{
    shapes[i]
}

/// Takes the record of a device, which is the next.
fn take_device(intake: &mut Intake, number: u8, len: u32, behind: &[u8]) -> Result<bool, RecvError>
    requires sized { IsSized intake.old }
    requires next { length intake.old.devices.items < length intake.old.shapes.items }
    ensures sized { IsSized intake.new }
    ensures keeps { Keeps intake.old intake.new }
    ensures short { IsShort (heads.Device number len) behind.now result }
    ensures long { IsLong (heads.Device number len) behind.now result }
    ensures memory { result ≡ Err errors.NoMemory → len ≤ length behind.now }
    ensures entered { (ds : List DiskState) → Enters ds ds intake.old intake.new (heads.Device number len) behind.now result }
{
    if number as usize != intake.devices.len() {
        return Err(RecvError::BadDevice);
    }
    if len as usize > BODY_MAX {
        return Err(RecvError::BadDevice);
    }
    if behind.len() < len as usize {
        return Ok(false);
    }
    let (body, _) = behind.split_at(len as usize);
    let shape = nth(&intake.shapes, number as usize);
    let ram_len = intake.ram.len();
    let ReadTerms { version, ram } = intake.terms;
    match decode_device_at(intake.alloc, version, shape, ram.base, ram_len, body) {
        Ok(state) => {
            intake.devices.push_reserved(state);
            Ok(true)
        }
        Err(DecodeError::BadBody) => Err(RecvError::BadDevice),
        Err(DecodeError::NoMemory) => Err(RecvError::NoMemory),
    }
}

/// Whether the digest is that of the bytes that were taken in. Nothing is taken in after it.
fn is_digest<S: Summing>(taken: &mut S, digest: &[u8]) -> bool
    ensures is { (front : List ℕ) → Sums (S.seen taken.old) front → CanSay (S.seen taken.old) front → IsTrue result ↔ (digest.now ≡ sha256 front) }
    ensures says { SaysOn (S.seen taken.old) (S.seen taken.new) }
{
    taken.agrees(digest)
}

/// Takes the digest, which ends the stream. `taken` is the digest of all bytes before it.
fn take_digest<S: Summing>(
    intake: &mut Intake,
    taken: &mut S,
    behind: &[u8],
) -> Result<bool, RecvError>
    requires sized { IsSized intake.old }
    ensures sized { IsSized intake.new }
    ensures shapes { intake.new.shapes.items ≡ intake.old.shapes.items }
    ensures place { intake.new.ram.place ≡ intake.old.ram.place }
    ensures ended { IfOk result (λ took. took ≡ true → intake.new.ended ≡ true) }
    ensures untouched { intake.new.ended ≡ false → OnOk result (S.seen taken.new ≡ S.seen taken.old) }
    ensures says { SaysOn (S.seen taken.old) (S.seen taken.new) }
    ensures waits { result ≡ Ok false → intake.new.ended ≡ intake.old.ended }
    ensures short { IsShort heads.Commit behind.now result }
    ensures long { IsLong heads.Commit behind.now result }
    ensures memory { IfErr result (λ e. e ≢ errors.NoMemory) }
    ensures closed { (ds : List DiskState) → Closes ds intake.old intake.new (S.seen taken.old) behind.now result }
{
    if behind.len() < DIGEST_LEN {
        return Ok(false);
    }
    let (digest, _) = behind.split_at(DIGEST_LEN);
    if !is_digest(taken, digest) {
        return Err(RecvError::BadDigest);
    }
    intake.ended = true;
    Ok(true)
}

/// Takes the record of this head, if the bytes behind the head have its body. `taken` is the digest of all bytes before it.
fn take_record<D: Disk, S: Summing>(
    intake: &mut Intake,
    disks: &mut [D],
    taken: &mut S,
    head: RecordHead,
    behind: &[u8],
) -> Result<bool, RecvError>
    requires sized { IsSized intake.old }
    requires fits { sizes_of D.state disks.old ≡ disk_sizes intake.old.shapes.items }
    requires next { IsDeviceHead head → length intake.old.devices.items < length intake.old.shapes.items }
    requires goes_on { intake.old.ended ≡ false }
    ensures sized { IsSized intake.new }
    ensures sizes { sizes_of D.state disks.new ≡ sizes_of D.state disks.old }
    ensures shapes { intake.new.shapes.items ≡ intake.old.shapes.items }
    ensures place { intake.new.ram.place ≡ intake.old.ram.place }
    ensures calls { CallsOf D.called head intake.old.shapes.items result (map D.calls disks.old) (map D.calls disks.new) }
    ensures takes { TakesHead (map D.state disks.old) (map D.state disks.new) intake.old intake.new (S.seen taken.old) (S.seen taken.new) head behind.now result }
    ensures says { SaysOn (S.seen taken.old) (S.seen taken.new) }
{
    match head {
        RecordHead::Page { number } => take_page(intake, number, behind),
        RecordHead::ZeroPage { number } => take_zero_page(intake, number),
        RecordHead::Sector {
            device,
            number,
            is_good,
        } => {
            if is_good {
                return take_good(intake, disks, device, number, behind);
            }
            take_bad(intake, device, number)
        }
        RecordHead::RoundEnd { number } => take_round(intake, number),
        RecordHead::Device { number, len } => take_device(intake, number, len, behind),
        RecordHead::Commit => take_digest(intake, taken, behind),
    }
}

/// Takes the record at the front of the bytes; returns how many bytes it has, or `None` if it is incomplete. `taken` is the digest of
/// all bytes before it.
fn take_part<D: Disk, S: Summing>(
    intake: &mut Intake,
    disks: &mut [D],
    taken: &mut S,
    bytes: &[u8],
) -> Result<Option<usize>, RecvError>
    requires sized { IsSized intake.old }
    requires fits { sizes_of D.state disks.old ≡ disk_sizes intake.old.shapes.items }
    requires goes_on { intake.old.ended ≡ false }
    ensures sized { IsSized intake.new }
    ensures sizes { sizes_of D.state disks.new ≡ sizes_of D.state disks.old }
    ensures shapes { intake.new.shapes.items ≡ intake.old.shapes.items }
    ensures place { intake.new.ram.place ≡ intake.old.ram.place }
    ensures within { IfOk result (λ found. IfSome found (λ len. (0 < len) × (len ≤ length bytes.now))) }
    ensures few { IfOk result (λ found. is_some found ≡ false → length bytes.now ≤ 131077) }
    ensures untouched { intake.new.ended ≡ false → OnOk result (S.seen taken.new ≡ S.seen taken.old) }
    ensures says { SaysOn (S.seen taken.old) (S.seen taken.new) }
    ensures waits { result ≡ Ok None → intake.new.ended ≡ false }
    ensures memory { result ≡ Err errors.NoMemory → BeginsDevice bytes.now }
    ensures after { TakesPart (map D.state disks.old) (map D.state disks.new) intake.old intake.new (S.seen taken.old) bytes.now result }
{
    let Some((tag, _)) = bytes.split_first() else {
        return Ok(None);
    };
    if let Err(error) = check_tag(intake, *tag) {
        return Err(error);
    }
    let head = match read_head(bytes) {
        FoundHead::Whole(head) => head,
        FoundHead::More(_) => return Ok(None),
        FoundHead::NoSuchTag => return Err(RecvError::BadTag),
        FoundHead::NoSuchMark => return Err(RecvError::BadSector),
    };
    let len = head.head_len();
    let (_, behind) = bytes.split_at(len);
    match take_record(intake, disks, taken, head, behind) {
        Ok(true) => Ok(Some(len + head.body_len())),
        Ok(false) => Ok(None),
        Err(error) => Err(error),
    }
}

/// Takes the complete records at the front of the bytes, and their bytes into the digest of all bytes before them. Returns how
/// many bytes they have.
pub fn work_off<D: Disk, S: Summing>(
    intake: &mut Intake,
    disks: &mut [D],
    taken: &mut S,
    bytes: &[u8],
) -> Result<usize, RecvError>
    requires sized { IsSized intake.old }
    requires fits { sizes_of D.state disks.old ≡ disk_sizes intake.old.shapes.items }
    ensures sized { IsSized intake.new }
    ensures sizes { sizes_of D.state disks.new ≡ sizes_of D.state disks.old }
    ensures shapes { intake.new.shapes.items ≡ intake.old.shapes.items }
    ensures place { intake.new.ram.place ≡ intake.old.ram.place }
    ensures within { IfOk result (λ at. at ≤ length bytes.now) }
    ensures few { IfOk result (λ at. length bytes.now ≤ 131077 + at) }
    ensures says { SaysOn (S.seen taken.old) (S.seen taken.new) }
    ensures memory { (ram : RamTerms) (front : List ℕ) → IsUpTo intake.old.ended ram (map D.state disks.old) (S.seen taken.old) front intake.old
        → IsClear (S.seen taken.old) ram (sizes_of D.state disks.old) (front ++ bytes.now) → result ≡ Err errors.NoMemory → HasDevice ram (sizes_of D.state disks.old) (front ++ bytes.now) (length front) }
    ensures worked { (ram : RamTerms) (front : List ℕ) → IsUpTo intake.old.ended ram (map D.state disks.old) (S.seen taken.old) front intake.old
        → IsClear (S.seen taken.old) ram (sizes_of D.state disks.old) (front ++ bytes.now) → Worked ram (map D.state disks.old) (map D.state disks.new) intake.new (S.seen taken.new) front bytes.now result }
{
    let mut at = 0;
    while at < bytes.len() {
        if intake.ended {
            return Err(RecvError::Trailing);
        }
        let (_, rest) = bytes.split_at(at);
        let Some(len) = take_part(intake, disks, taken, rest)? else {
            return Ok(at);
        };
        let (record, _) = rest.split_at(len);
        taken.add(record);
        at += len;
    }
    Ok(at)
}
