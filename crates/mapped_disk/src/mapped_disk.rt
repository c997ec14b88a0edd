//! A disk in memory that its caller owns.
//!
//! A disk is over a region, whose bytes are cut into sectors of 512: that a write over these bytes is the write of a sector is
//! a lemma of lists. A `Vec` or a `Box` with an allocator that frees nothing would be ordinary code, but the toolchain makes
//! neither of a pointer and a length. The disk keeps its own count of sectors, with the proof that each is 512 bytes: through a
//! `&` to a struct that owns memory nothing is read without a law of its own.
//!
//! A disk may be dropped, and an image may not: a machine that is freed drops its disks, and what makes and receives machines
//! asks for disks that may be dropped. The bytes are then the caller's, who has the address.

ghost use Rattle.std.specs.Prelude.{◌≡◌, true};

use crate::image::Image;
use blk::{Disk, DiskFault, SECTOR_SIZE};
use region::KeptRegion;
use std::marker::Model;

/// A disk over an image. It is honest and steady. A flush does nothing: what is written is in the image.
///
/// One that is dropped leaves its bytes where they are, as they are, and they are the caller's again (`KeptRegion`).
#[derive(Drop)]
pub struct MappedDisk {
    region: KeptRegion,
    count: u64,
}

impl Model for MappedDisk {
    ghost use Rattle.mapped_disk.specs.declared.image.Image.{Image};
    ghost use Rattle.mapped_disk.specs.Over.{IsOver, image_over};

    ghost Value = { Image };

    ghost view = { λ d. image_over d.region d.count };

    ghost invariant = { λ d. IsOver d.region d.count };
}

impl MappedDisk {
    /// The disk whose sectors are those of an image.
    pub fn new(image: Image) -> MappedDisk
        ensures { result ≡ image }
    {
        let (region, count) = image.into_region();
        MappedDisk {
            region: KeptRegion::of(region),
            count,
        }
    }

    /// The image, with the disk's contents.
    pub fn into_image(self) -> Image
        ensures { result ≡ self }
    {
        let MappedDisk { region, count } = self;
        Image::over(region.into_region(), count)
    }
}

impl Disk for MappedDisk {
    ghost state = { λ d. record { sectors = d.content; failures = 0; honest = true; steady = true; is_flushed = true } };

    #[tactic(auto, using(crate::proofs::Sectors::length_cut))]
    fn sectors(&self) -> u64 {
        self.count
    }

    #[tactic(auto, using(crate::proofs::Sectors::length_cut, crate::proofs::Sectors::at_cut))]
    fn read(&mut self, n: u64, buf: &mut [u8; 512]) -> Result<(), DiskFault> {
        let _all = self.region.len();
        let start = n as usize * SECTOR_SIZE;
        buf.copy_from_slice(&self.region.as_slice()[start..start + SECTOR_SIZE]);
        Ok(())
    }

    #[tactic(auto, using(crate::proofs::Sectors::length_cut, crate::proofs::Sectors::cut_put))]
    fn write(&mut self, n: u64, bytes: &[u8; 512]) -> Result<(), DiskFault> {
        let _all = self.region.len();
        let start = n as usize * SECTOR_SIZE;
        self.region.as_mut_slice()[start..start + SECTOR_SIZE].copy_from_slice(bytes);
        Ok(())
    }

    fn flush(&mut self) -> Result<(), DiskFault> {
        Ok(())
    }
}
