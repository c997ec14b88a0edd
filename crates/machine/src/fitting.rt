//! Which disks fit which devices.
//!
//! Disks are assigned in order to the devices that have one. A machine reports the marks of its disks (failures, honest,
//! steady, flushed) as those of the disks that were handed in.

ghost use Rattle.std.specs.Prelude.{◌≡◌, ◌↔◌, IsTrue, length, map};
ghost use Rattle.machine.specs.First.{are_same};
ghost use Rattle.machine.specs.Shapes.{disk_size_of, disk_sizes};

use crate::shape::Shape;
use blk::Disk;

/// Whether these are the disks of these devices, in their order: each has its device's number of sectors, and no disk
/// is missing or left over.
pub fn are_disks_of<D: Disk>(shapes: &[Shape], disks: &[D]) -> bool
    ensures same { result ≡ are_same (disk_sizes shapes.now) (map (λ d. length (D.state d).sectors) disks.now) }
    ensures fit { IsTrue result ↔ (map (λ d. length d.sectors) (map D.state disks.now) ≡ disk_sizes shapes.now) }
{
    let mut rest = disks;
    for shape in shapes {
        let Some(size) = disk_size(*shape) else {
            continue;
        };
        let Some((disk, others)) = rest.split_first() else {
            return false;
        };
        if disk.sectors() != size {
            return false;
        }
        rest = others;
    }
    rest.is_empty()
}

/// How many sectors the disk of a device has, if it has one.
pub(crate) fn disk_size(shape: Shape) -> Option<u64>
    ensures { result ≡ disk_size_of shape }
{
    match shape {
        Shape::Block { sectors, .. } => Some(sectors),
        Shape::Net { .. }
        | Shape::LongNet { .. }
        | Shape::Outside { .. }
        | Shape::Console
        | Shape::Entropy => None,
    }
}
