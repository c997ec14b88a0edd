//! Numbers the items of a machine: its pages, then the sectors of each disk, in device order.

ghost use Rattle.std.specs.Prelude.{◌≡◌, ◌<◌, ◌≤◌, ◌^◌, IfOk, length};
ghost use Rattle.machine.specs.Layout.{firsts_of, item_at, layout_by, layout_of, pages_of, size_of};
ghost use Rattle.machine.specs.Seen.{state_of};
ghost use Rattle.machine.specs.Sound.{IsSound};
ghost use Rattle.machine.specs.State.{MachineState};
ghost use Rattle.sender.specs.Items.{AreShapesOf, size_on};
ghost use Rattle.sender.specs.LiveState.{item_of};

use crate::event::Item;
use guestmem::PAGE_SIZE;
use machine::{Disk, Machine, Shape};
use std::alloc::{AllocError, Global};

/// How many pages a machine has.
pub(crate) fn page_count<D: Disk>(machine: &Machine<D>) -> u64
    ensures count { result ≡ pages_of (state_of machine.now) }
    ensures few { result ≤ 4294967295 }
    ensures sound { IsSound (state_of machine.now) }
{
    let _shapes = machine.shapes();
    machine.ram().recall();
    machine.ram().len() / PAGE_SIZE as u64
}

/// How many sectors the disk of a device has.
pub(crate) fn sector_count<D: Disk>(machine: &Machine<D>, dev: u8) -> u64
    requires { dev < length (state_of machine.now).devices }
    ensures count { result ≡ size_on (state_of machine.now) dev }
    ensures few { result ≤ 4294967295 }
    ensures sound { IsSound (state_of machine.now) }
{
    machine.shapes()[dev as usize].sectors()
}

/// The item number of the first sector of each device's disk, and the count of items. Fails only if memory is refused.
pub(crate) fn number_items<D: Disk>(
    alloc: Global,
    machine: &Machine<D>,
) -> Result<(Vec<u64>, u64), AllocError>
    ensures firsts { IfOk result (λ x. x.0.items ≡ firsts_of (layout_of (state_of machine.now))) }
    ensures size { IfOk result (λ x. x.1 ≡ size_of (layout_of (state_of machine.now))) }
{
    let count = machine.shapes().len();
    let mut firsts = Vec::with_capacity(alloc, count)?;
    let mut first = page_count(machine);
    for dev in 0..count {
        firsts.push_reserved(first);
        first += sector_count(machine, dev as u8);
    }
    Ok((firsts, first))
}

/// The item with this number, of a machine of this many pages and of devices of these shapes.
pub(crate) fn item_in(pages: u64, shapes: &[Shape], number: u64) -> Item
    requires few { pages ≤ 4294967295 }
    requires some { (m : MachineState) × AreShapesOf pages shapes.now m }
    requires below { number < size_of (layout_by pages shapes.now) }
    ensures { item_of result ≡ item_at (layout_by pages shapes.now) number }
{
    if number < pages {
        return Item::Page(number as u32);
    }
    let mut first = pages;
    for dev in 0..shapes.len() {
        let size = shapes[dev].sectors();
        if number - first < size {
            return Item::Sector {
                dev: dev as u8,
                sector: (number - first) as u32,
            };
        }
        first += size;
    }
    // Every number below the count of the items was found.
    Item::Page(0)
}
