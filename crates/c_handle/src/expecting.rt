//! Machines will arrive in a handle: within which limits and in whose memory, the caller says.
//!
//! A call before the first piece is the only way in, so nothing arrives that no limit was given for. All calls after it are those of any
//! arrival, and the call of a piece has no slots: images have one way in and one way out, `vmig_release`, in each state, also on the way and
//! after a refusal. Without images the disks are made in memory of the library, as soon as the header says their sizes.

ghost use Rattle.std.specs.Prelude.{◌≡◌, IfErr, IfOk, None, false, true};
ghost use Rattle.c_handle.specs.Expected.{Expects, IsArrivalOf, IsGiven, IsNoneOrRam, allowed_of, limits_in, terms_in};
ghost use Rattle.c_machine.specs.Expected.{IsUntaken, arrival_refusal_of, has_ram};
ghost use Rattle.c_machine.specs.Made.{has_bytes, ram_left};
ghost use Rattle.c_machine.specs.Mapping.{AreTaken, contents};
ghost use Rattle.c_handle.specs.Awaited.{nothing_fed};
ghost use Rattle.c_handle.specs.Kept.{Arriving, are_mapped, are_told, first_telling, held_state, telling_of};
ghost use Rattle.c_handle.specs.Landing.{IsAwaitedIn};
ghost use Rattle.receiver.specs.Opened.{told_by};
ghost use Rattle.receiver.specs.Receiving.{place_aside};

use crate::admission::{Admission, Allowed};
use crate::arrival::Arrival;
use crate::creating::{filled, stand_in};
use crate::handle::Handle;
use crate::kept::{Asked, Held, Kept};
use crate::logging::log_for;
use crate::told_feeding::Telling;
use c_machine::status::{DONE, IN_USE, NO_MEMORY};
use c_machine::{
    Expected, arrival_refusal, asks_told, frame_allowed, give_back, header_limits, is_none,
    mapped_disks, outside_allowed, put_back, ram_bytes, shapes_of, taken_ram,
};
use guestmem::{NoMemory, PAGES_GREATEST, Ram};
use machine::Limits;
use mapped_disk::MappedDisk;
use receiver::Terms;
use region::Slot;
use std::alloc::Global;
use std::mem;

/// Takes what the struct names, and waits for the machine.
#[tactic(auto, using(crate::proofs::Filling::used, crate::proofs::Filling::refused, crate::proofs::Filling::full, crate::proofs::Filling::done))]
pub fn arrive(alloc: Global, arrival: &mut Expected, machine: &mut Handle) -> u32
    ensures expected { Expects machine.old.machine arrival.old result arrival.new machine.new.machine }
    ensures rest { arrival.new ≡ record arrival.old { images = arrival.new.images; ram = arrival.new.ram } }
    ensures slots { arrival.new.images.ghost_name ≡ arrival.old.images.ghost_name }
{
    if machine.is_made() {
        return IN_USE;
    }
    if let Some(status) = arrival_refusal(arrival) {
        return status;
    }
    let Ok(made) = awaited(alloc, arrival) else {
        return NO_MEMORY;
    };
    mem::replace(machine, Handle::of(made)).gone();
    DONE
}

/// An arrival in a box. What it names was checked before, so its only error is out of memory: then nothing is taken.
#[tactic(auto, using(crate::proofs::PageLogs::first_fits, crate::proofs::Allowing::is_ram_of))]
pub(crate) fn awaited(alloc: Global, expected: &mut Expected) -> Result<Box<Kept>, NoMemory>
    requires { arrival_refusal_of expected.old ≡ None }
    ensures expected { IfOk result (λ k. IsArrivalOf expected.old k.value) }
    ensures ram { IfOk result (λ k. expected.new.ram ≡ ram_left (has_ram expected.old) expected.old.ram) }
    ensures taken { IfOk result (λ k. AreTaken expected.old.images.now expected.new.images.now) }
    ensures same { IfErr result (λ e. IsUntaken expected.old expected.new) }
    ensures rest { expected.new ≡ record expected.old { images = expected.new.images; ram = expected.new.ram } }
    ensures slots { expected.new.images.ghost_name ≡ expected.old.images.ghost_name }
{
    let shapes = shapes_of(alloc, expected.shapes)?;
    let admission = Admission::Pending(allowed(expected), shapes, Vec::new(alloc));
    let boxed = stand_in(alloc, expected.block, expected.calls_from)?;
    let bytes = ram_bytes(expected.most_pages, expected.ram.len());
    let asked = Asked::by(expected.flags, bytes);
    let log = log_for(alloc, expected.flags, asked.places)?;
    let terms = terms(expected);
    if is_none(expected.images) {
        let ram = ram_from(alloc, &mut expected.ram)?;
        let arrival = awaited_in(alloc, expected.flags, terms, ram);
        return Ok(filled(boxed, arrival, admission, log, asked));
    }
    let disks = mapped_disks(alloc, expected.images)?;
    match ram_from(alloc, &mut expected.ram) {
        Ok(ram) => {
            let arrival = awaited_over(alloc, expected.flags, terms, disks, ram);
            Ok(filled(boxed, arrival, admission, log, asked))
        }
        Err(_) => {
            give_back(disks, expected.images);
            Err(NoMemory)
        }
    }
}

/// An arrival over disks of the library, by whether the host tells the digest.
fn awaited_in(alloc: Global, flags: u32, terms: Terms, ram: Option<Ram>) -> Held
    ensures state { held_state result ≡ Arriving (nothing_fed (told_by terms ram) (place_aside ram)) }
    ensures kind { are_mapped result ≡ false }
    ensures telling { telling_of result ≡ first_telling flags }
    ensures told { are_told result ≡ false }
{
    if asks_told(flags) {
        return Held::ToldArriving(Arrival::new(alloc, terms, ram), Telling::NotDue);
    }
    Held::Arriving(Arrival::new(alloc, terms, ram))
}

/// As above, over these images.
fn awaited_over(
    alloc: Global,
    flags: u32,
    terms: Terms,
    disks: Vec<MappedDisk>,
    ram: Option<Ram>,
) -> Held
    ensures state { IsAwaitedIn (told_by terms ram) (place_aside ram) (contents disks.items) (held_state result) }
    ensures kind { are_mapped result ≡ true }
    ensures telling { telling_of result ≡ first_telling flags }
    ensures told { are_told result ≡ false }
{
    if asks_told(flags) {
        return Held::ToldArriving(
            Arrival::told_over(alloc, terms, disks, ram),
            Telling::NotDue,
        );
    }
    Held::Arriving(Arrival::over(alloc, terms, disks, ram))
}

/// The RAM of a machine that will arrive: in the memory of the slot, which is taken; or none, where there is none. Its only error is out of
/// memory: then the slot is as it was.
fn ram_from(alloc: Global, ram: &mut Slot) -> Result<Option<Ram>, NoMemory>
    requires { IsNoneOrRam ram.old }
    ensures given { IfOk result (λ given. IsGiven ram.old given) }
    ensures left { IfOk result (λ given. ram.new ≡ ram_left (has_bytes ram.old) ram.old) }
    ensures same { IfErr result (λ e. ram.new ≡ ram.old) }
{
    if ram.is_none() {
        return Ok(None);
    }
    match Ram::over(alloc, taken_ram(ram)) {
        Ok(memory) => Ok(Some(memory)),
        Err((_, region)) => {
            put_back(region, ram);
            Err(NoMemory)
        }
    }
}

/// What is said of the machine to whoever receives it.
fn terms(expected: &mut Expected) -> Terms
    ensures same { expected.new ≡ expected.old }
    ensures terms { result ≡ terms_in expected.old }
{
    Terms {
        base: expected.base,
        limits: limits_in(expected),
    }
}

/// The most that a machine may have that arrives. RAM and images of the caller are their own limit.
fn allowed(expected: &mut Expected) -> Allowed
    ensures same { expected.new ≡ expected.old }
    ensures allowed { result ≡ allowed_of expected.old }
{
    let limits = limits_in(expected);
    let frame = frame_allowed(expected);
    let outside = outside_allowed(expected);
    let pages = if expected.ram.is_none() {
        expected.most_pages
    } else {
        PAGES_GREATEST
    };
    let sectors = if is_none(expected.images) {
        expected.most_sectors
    } else {
        u64::MAX
    };
    Allowed {
        limits,
        pages,
        sectors,
        frame,
        outside,
        base: expected.base,
    }
}

/// The limits within which the header is read.
fn limits_in(expected: &mut Expected) -> Limits
    ensures same { expected.new ≡ expected.old }
    ensures limits { result ≡ limits_in expected.old }
{
    let outside = outside_allowed(expected);
    let frame = frame_allowed(expected);
    header_limits(expected.flags, frame, outside)
}
