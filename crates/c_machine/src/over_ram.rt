//! RAM that lies in memory of the caller.

ghost use Rattle.std.specs.Prelude.{◌≡◌, []};
ghost use Rattle.machine.specs.Board.{ram_bytes, ram_place};
ghost use Rattle.region.specs.Empty.{empty_slot};
ghost use Rattle.region.specs.Slot.{region_of, slot_of};
ghost use Rattle.c_machine.specs.Made.{IsFreeFor, first_place, first_ram, has_bytes, is_ram, ram_left, slot_after};

use guestmem::PAGE_SIZE;
use machine::{Limits, RamOf};
use region::{Region, Slot};
use std::mem;

/// Whether `bytes` bytes are whole pages, and as many as a machine within these limits may have.
pub fn is_ram(limits: Limits, bytes: u64) -> bool
    ensures { result ≡ is_ram limits bytes }
{
    let pages = bytes / PAGE_SIZE as u64;
    bytes % PAGE_SIZE as u64 == 0 && pages != 0 && pages <= limits.pages as u64
}

/// What the RAM of a machine is made of: the memory in the slot, which is taken; or `pages` pages of zeros, where there is none.
#[tactic(auto, using(crate::proofs::MadeOf::zero_bytes, crate::proofs::MadeOf::no_place, crate::proofs::MadeOf::none_left, crate::proofs::MadeOf::own_bytes, crate::proofs::MadeOf::over_place, crate::proofs::MadeOf::all_left))]
pub fn ram_for(pages: u32, ram: &mut Slot) -> RamOf
    ensures bytes { ram_bytes result ≡ first_ram pages ram.old }
    ensures place { ram_place result ≡ first_place ram.old }
    ensures left { ram.new ≡ ram_left (has_bytes ram.old) ram.old }
    ensures free { IsFreeFor result ram.new }
    ensures back { slot_after result ram.new ≡ ram.old }
{
    if ram.is_none() {
        return RamOf::Pages(pages);
    }
    RamOf::Region(taken_ram(ram))
}

/// Puts the memory back into the slot from which it was taken for RAM, if it was.
pub fn ram_back(made_of: RamOf, ram: &mut Slot)
    requires { IsFreeFor made_of ram.old }
    ensures { ram.new ≡ slot_after made_of ram.old }
{
    if let Some(region) = made_of.into_region() {
        put_back(region, ram);
    }
}

/// What lay in the slot, which is free then.
pub fn taken_ram(ram: &mut Slot) -> Region
    ensures region { result ≡ region_of ram.old }
    ensures free { ram.new ≡ empty_slot }
{
    mem::replace(ram, Slot::none()).into_region()
}

/// Puts the memory into the slot, which is free.
pub fn put_back(region: Region, ram: &mut Slot)
    requires { ram.old.content ≡ [] }
    ensures { ram.new ≡ slot_of region }
{
    mem::replace(ram, Slot::of(region)).gone();
}
