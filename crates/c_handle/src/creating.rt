//! Machines are made in a handle: with what RAM and which disks, the setup says.
//!
//! Where a machine over images is refused memory, the images are as they were, as every refusal leaves what it could have
//! changed. All memory is taken before the first disk is moved, and the box of the handle is there before an image is
//! taken. Contracts see a `MappedDisk` as its image, with the pointer, so what comes back is known to be what was taken.

ghost use Rattle.std.specs.Prelude.{◌≡◌, IfErr, IfOk, None};
ghost use Rattle.c_handle.specs.Kept.{FitsLog, admission_of, first_calls, held_state, kept_with, none_lost, ram_in};
ghost use Rattle.c_handle.specs.Made.{IsMachineOf, Makes};
ghost use Rattle.c_machine.specs.Made.{IsUntaken, has_ram, ram_left, setup_refusal_of};
ghost use Rattle.c_machine.specs.Mapping.{AreTaken};

use crate::admission::Admission;
use crate::calls_out::CallsOut;
use crate::handle::Handle;
use crate::kept::{Asked, Contents, Held, Kept, unasked};
use crate::logging::log_for;
use c_machine::status::{DONE, IN_USE, NO_MEMORY};
use c_machine::{
    Setup, give_back, is_none, machine_on, mapped_disks, own_disks, ram_bytes, setup_refusal,
    shapes_of,
};
use guestmem::NoMemory;
use machine::PageLog;
use std::alloc::Global;
use std::mem;

/// Makes the machine.
#[tactic(auto, using(crate::proofs::Filling::used, crate::proofs::Filling::refused, crate::proofs::Filling::full, crate::proofs::Filling::done))]
pub fn make(alloc: Global, setup: &mut Setup, machine: &mut Handle) -> u32
    ensures made { Makes machine.old.machine setup.old result setup.new machine.new.machine }
    ensures rest { setup.new ≡ record setup.old { images = setup.new.images; ram = setup.new.ram } }
    ensures slots { setup.new.images.ghost_name ≡ setup.old.images.ghost_name }
{
    if machine.is_made() {
        return IN_USE;
    }
    if let Some(status) = setup_refusal(setup) {
        return status;
    }
    let Ok(made) = made(alloc, setup) else {
        return NO_MEMORY;
    };
    mem::replace(machine, Handle::of(made)).gone();
    DONE
}

/// The machine in a box. All was tested, so it fails only if it is out of memory: then slot and images are as they were.
#[tactic(auto, using(c_machine::proofs::MadeOf::fits, crate::proofs::PageLogs::made_fits))]
fn made(alloc: Global, setup: &mut Setup) -> Result<Box<Kept>, NoMemory>
    requires { setup_refusal_of setup.old ≡ None }
    ensures made { IfOk result (λ k. IsMachineOf setup.old k.value) }
    ensures ram { IfOk result (λ k. setup.new.ram ≡ ram_left (has_ram setup.old) setup.old.ram) }
    ensures taken { IfOk result (λ k. AreTaken setup.old.images.now setup.new.images.now) }
    ensures same { IfErr result (λ e. IsUntaken setup.old setup.new) }
    ensures rest { setup.new ≡ record setup.old { images = setup.new.images; ram = setup.new.ram } }
    ensures slots { setup.new.images.ghost_name ≡ setup.old.images.ghost_name }
{
    let shapes = shapes_of(alloc, setup.shapes)?;
    let boxed = stand_in(alloc, setup.block, setup.calls_from)?;
    let admission = unasked(alloc);
    let asked = Asked::by(setup.flags, ram_bytes(setup.pages, setup.ram.len()));
    let log = log_for(alloc, setup.flags, asked.places)?;
    let (base, pages) = (setup.base, setup.pages);
    if is_none(setup.images) {
        let disks = own_disks(alloc, &shapes, setup.contents)?;
        return match machine_on(alloc, base, pages, &mut setup.ram, &shapes, disks) {
            Ok(machine) => {
                let held = Held::Own(Contents::Still(machine));
                Ok(filled(boxed, held, admission, log, asked))
            }
            Err(_disks) => Err(NoMemory),
        };
    }
    let disks = mapped_disks(alloc, setup.images)?;
    match machine_on(alloc, base, pages, &mut setup.ram, &shapes, disks) {
        Ok(machine) => {
            let held = Held::Mapped(Contents::Still(machine));
            Ok(filled(boxed, held, admission, log, asked))
        }
        Err(disks) => {
            give_back(disks, setup.images);
            Err(NoMemory)
        }
    }
}

/// A box in which the contents of a handle will lie, with room for the calls of disks outside, over storage with such blocks, and the number of
/// the first one.
pub(crate) fn stand_in(alloc: Global, block: u32, from: u64) -> Result<Box<Kept>, NoMemory>
    ensures calls { IfOk result (λ k. k.value.calls ≡ first_calls block from) }
    ensures fed { IfOk result (λ k. k.value.fed ≡ 0) }
    ensures lost { IfOk result (λ k. k.value.lost ≡ none_lost) }
{
    let calls = CallsOut::new(alloc, block, from)?;
    let boxed = Box::new(alloc, Kept::empty(alloc, calls))?;
    Ok(boxed)
}

/// The box with these contents, and the room for calls that it had.
pub(crate) fn filled(
    boxed: Box<Kept>,
    held: Held,
    admission: Admission,
    written: Option<PageLog>,
    asked: Asked,
) -> Box<Kept>
    requires { FitsLog written (ram_in asked.places (held_state held)) }
    ensures { result.value ≡ record (kept_with held (admission_of admission) boxed.value.fed boxed.value.lost) { calls = boxed.value.calls; written = written; large = asked.large; places = asked.places } }
{
    let mut boxed = boxed;
    boxed.fill(held, admission, written, asked);
    boxed
}
