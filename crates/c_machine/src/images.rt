//! Disks whose sectors the caller gives.

ghost use Rattle.std.specs.Prelude.{◌≡◌, ◌==◌, ◌+◌, ◌*◌, ◌<◌, ◌≤◌, take, drop, length, slice_set, IfOk};
ghost use Rattle.std.specs.List.{concat};
ghost use Rattle.blk.specs.Disk.{AreSectors};
ghost use Rattle.machine.specs.Shapes.{disk_sizes, sector_count};
ghost use Rattle.c_machine.specs.Images.{AreImages, image_size};
ghost use Rattle.c_machine.specs.Making.{shapes_of};

use crate::device_shape::DeviceShape;
use guestmem::NoMemory;
use machine::{Disk, MemDisk, SECTOR_SIZE, Shape};
use std::alloc::Global;

/// Whether `bytes` is the total size of the disks of these devices, in bytes.
#[tactic(auto, using(crate::proofs::Imaging::not_whole, crate::proofs::Imaging::whole_count))]
pub fn are_images(bytes: usize, shapes: &[DeviceShape]) -> bool
    ensures { result ≡ (bytes == image_size (shapes_of shapes.now)) }
{
    if bytes % SECTOR_SIZE != 0 {
        return false;
    }
    let mut left = (bytes / SECTOR_SIZE) as u64;
    for shape in shapes {
        let sectors = count_in(shape.shape());
        if left < sectors {
            return false;
        }
        left -= sectors;
    }
    left == 0
}

/// The number of sectors of a device's disk; 0 for a device without one.
pub fn count_in(shape: Shape) -> u64
    ensures { result ≡ sector_count shape }
{
    match shape {
        Shape::Block { sectors, .. } => sectors,
        Shape::Net { .. }
        | Shape::LongNet { .. }
        | Shape::Outside { .. }
        | Shape::Console
        | Shape::Entropy => 0,
    }
}

/// A disk for each device that has one, in their order, that hold the images one after another.
pub fn image_disks(alloc: Global, shapes: &[Shape], images: &[u8]) -> Result<Vec<MemDisk>, NoMemory>
    requires { length images.now ≡ image_size shapes.now }
    ensures { IfOk result (λ disks. AreImages images.now (disk_sizes shapes.now) disks.items) }
{
    let mut disks = Vec::new(alloc);
    let mut rest = images;
    for shape in shapes {
        let Shape::Block { sectors, .. } = *shape else {
            continue;
        };
        let (image, others) = rest.split_at(SECTOR_SIZE * sectors as usize);
        disks.push(disk_of(alloc, sectors, image)?)?;
        rest = others;
    }
    Ok(disks)
}

/// The disk that holds an image.
fn disk_of(alloc: Global, sectors: u64, image: &[u8]) -> Result<MemDisk, NoMemory>
    requires { length image.now ≡ 512 * sectors }
    ensures count { IfOk result (λ disk. length disk ≡ sectors) }
    ensures sectors { IfOk result (λ disk. AreSectors disk) }
    ensures bytes { IfOk result (λ disk. concat disk ≡ image.now) }
{
    let mut disk = MemDisk::new(alloc, sectors)?;
    for n in 0..sectors {
        put_sector(&mut disk, n, image);
    }
    let _sectors = disk.sectors();
    Ok(disk)
}

/// Writes sector `n` of the image to the disk.
fn put_sector(disk: &mut MemDisk, n: u64, image: &[u8])
    requires there { n < length disk.old }
    requires image { 512 * n + 512 ≤ length image.now }
    ensures { disk.new ≡ slice_set disk.old n (take 512 (drop (512 * n) image.now)) }
{
    let at = SECTOR_SIZE * n as usize;
    let Ok(bytes) = <&[u8; SECTOR_SIZE]>::try_from(&image[at..at + SECTOR_SIZE]) else {
        return;
    };
    let _done = disk.write(n, bytes);
}
