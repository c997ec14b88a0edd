//! Disks that lie in memory of the caller.

ghost use Rattle.std.specs.Prelude.{◌≡◌, length, map, IfOk, IfErr};
ghost use Rattle.machine.specs.First.{are_same};
ghost use Rattle.machine.specs.Shapes.{disk_sizes};
ghost use Rattle.c_machine.specs.Making.{shapes_of};
ghost use Rattle.c_machine.specs.Mapping.{AreTaken, counts};

use crate::device_shape::DeviceShape;
use guestmem::NoMemory;
use machine::Shape;
use mapped_disk::{Image, MappedDisk};
use std::alloc::Global;

/// Whether the images have as many sectors as the disks of these devices, in their order.
#[tactic(auto, using(crate::proofs::MappingImages::all_counted))]
pub fn are_counted(images: &mut [Image], shapes: &[DeviceShape]) -> bool
    ensures same { images.new ≡ images.old }
    ensures counted { result ≡ are_same (disk_sizes (shapes_of shapes.now)) (counts images.old) }
{
    let mut at = 0;
    for shape in shapes {
        let Shape::Block { sectors, .. } = shape.shape() else {
            continue;
        };
        if at == images.len() || images[at].count() != sectors {
            return false;
        }
        at += 1;
    }
    at == images.len()
}

/// A disk in each image, in their order. The images are taken, if there is memory for the list of disks.
pub fn mapped_disks(alloc: Global, images: &mut [Image]) -> Result<Vec<MappedDisk>, NoMemory>
    ensures disks { IfOk result (λ disks. disks.items ≡ images.old) }
    ensures taken { IfOk result (λ disks. AreTaken images.old images.new) }
    ensures refused { IfErr result (λ e. images.new ≡ images.old) }
{
    let mut disks = Vec::with_capacity(alloc, images.len())?;
    for at in 0..images.len() {
        let image = std::mem::replace(&mut images[at], Image::none());
        disks.push_reserved(MappedDisk::new(image));
    }
    Ok(disks)
}

/// Puts the images of the disks back into the slots that they were taken from.
pub fn give_back(disks: Vec<MappedDisk>, images: &mut [Image])
    requires { AreTaken disks.items images.old }
    ensures { images.new ≡ disks.items }
{
    let mut at = 0;
    for disk in disks {
        std::mem::replace(&mut images[at], disk.into_image()).gone();
        at += 1;
    }
}
