//! Machines that C asks for.

ghost use Rattle.std.specs.Prelude.{◌≡◌, map, replicate, IfErr, IfOk, Some};
ghost use Rattle.machine.specs.First.{dealt_marks, made_machine, marks_in};
ghost use Rattle.machine.specs.Seen.{all_marks, state_of};
ghost use Rattle.machine.specs.Shapes.{disk_sizes};
ghost use Rattle.machine.specs.Sound.{IsSound};
ghost use Rattle.c_machine.specs.Made.{AreOwnDisks, first_place, first_ram, fit_contents, has_bytes, ram_left};
ghost use Rattle.c_machine.specs.Making.{are_bad_shapes, are_plain, shapes_of};

use crate::device_shape::DeviceShape;
use crate::images::image_disks;
use crate::over_ram::{ram_back, ram_for};
use guestmem::NoMemory;
use machine::{Board, DEVICES_MAX, Disk, Limits, Machine, MemDisk, Shape, Unmade};
use region::Slot;
use std::alloc::Global;

/// Whether no machine within these limits can have these devices.
pub fn are_bad_shapes(limits: Limits, shapes: &[DeviceShape]) -> bool
    ensures { result ≡ are_bad_shapes limits shapes.now }
{
    shapes.is_empty() || shapes.len() > DEVICES_MAX || !are_plain(limits, shapes)
}

/// Whether there can be such devices, within these limits.
pub fn are_plain(limits: Limits, shapes: &[DeviceShape]) -> bool
    ensures { result ≡ are_plain limits shapes.now }
{
    for shape in shapes {
        if !shape.is_plain(limits) {
            return false;
        }
    }
    true
}

/// The shapes of the machine's devices.
pub fn shapes_of(alloc: Global, shapes: &[DeviceShape]) -> Result<Vec<Shape>, NoMemory>
    ensures { IfOk result (λ made. made.items ≡ shapes_of shapes.now) }
{
    let mut made = Vec::with_capacity(alloc, shapes.len())?;
    for shape in shapes {
        made.push_reserved(shape.shape());
    }
    Ok(made)
}

/// A disk of zeros for each device that has one, in their order.
pub fn zero_disks(alloc: Global, shapes: &[Shape]) -> Result<Vec<MemDisk>, NoMemory>
    ensures { IfOk result (λ disks. disks.items ≡ map (λ n. replicate n (replicate 512 0)) (disk_sizes shapes.now)) }
{
    let mut disks = Vec::new(alloc);
    for shape in shapes {
        let Shape::Block { sectors, .. } = *shape else {
            continue;
        };
        disks.push(MemDisk::new(alloc, sectors)?)?;
    }
    Ok(disks)
}

/// Disks in memory of the library: they hold the contents, one after another, or zeros where there are none.
#[tactic(auto, using(crate::proofs::MadeOf::own_zeros, crate::proofs::MadeOf::own_contents))]
pub fn own_disks(alloc: Global, shapes: &[Shape], contents: &[u8]) -> Result<Vec<MemDisk>, NoMemory>
    requires { fit_contents contents.now shapes.now }
    ensures { IfOk result (λ disks. AreOwnDisks contents.now shapes.now disks.items) }
{
    if contents.is_empty() {
        let disks = zero_disks(alloc, shapes)?;
        return Ok(disks);
    }
    let disks = image_disks(alloc, shapes, contents)?;
    Ok(disks)
}

/// A machine of these devices and disks, whose RAM is the memory in the slot, which is taken; or zeros, where there is none. Where memory is
/// refused, the slot is as it was, and the disks come back. It is as large as can be: the limits were tested by `setup_refusal`.
pub fn machine_on<D: Disk + Drop>(
    alloc: Global,
    base: u64,
    pages: u32,
    ram: &mut Slot,
    shapes: &[Shape],
    disks: Vec<D>,
) -> Result<Machine<D>, Vec<D>>
    ensures made { IfOk result (λ m. state_of m ≡ made_machine base (first_ram pages ram.old) shapes.now (map (λ d. map Some (D.state d).sectors) disks.items)) }
    ensures place { IfOk result (λ m. m.memory.place ≡ first_place ram.old) }
    ensures marks { IfOk result (λ m. all_marks m ≡ dealt_marks shapes.now (map (λ d. marks_in (D.state d)) disks.items)) }
    ensures sound { IfOk result (λ m. IsSound (state_of m)) }
    ensures ram { IfOk result (λ m. ram.new ≡ ram_left (has_bytes ram.old) ram.old) }
    ensures disks { IfErr result (λ back. back.items ≡ disks.items) }
    ensures same { IfErr result (λ back. ram.new ≡ ram.old) }
{
    let made_of = ram_for(pages, ram);
    match Machine::make(
        alloc,
        Board {
            limits: Limits::greatest(),
            base,
            ram: made_of,
            shapes,
            disks,
        },
    ) {
        Ok(machine) => Ok(machine),
        Err(unmade) => {
            let Unmade {
                error: _,
                ram: left,
                disks,
            } = unmade;
            ram_back(left, ram);
            Err(disks)
        }
    }
}
