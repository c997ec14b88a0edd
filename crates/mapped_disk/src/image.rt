//! Sectors in the caller's memory.
//!
//! No clause lends an image's bytes: it becomes a region (`into_region`) and is made of one (`over`), which is proved by hand,
//! as it is of a slot. So bytes are lent through a pointer by `Region` alone. An image that held a region would be no struct of
//! C: what is lent through a `&` may not cross. That there is no image is shown by a count of 0 and not by a null pointer: a
//! pointer may be compared with null in a proof only if the toolchain's own heap gave it.

ghost use Rattle.std.specs.Prelude.{ℕ, List};
ghost use Rattle.mapped_disk.specs.Image.{image_owns, image_coded};

use region::Region;
use std::marker::Model;
use std::mem;

/// The sectors of a disk, in memory of the caller. All bytes 0 are an image of no sectors.
///
/// The caller promises that the address has 512 bytes for each sector, which may be read and written, and that nothing else
/// reads or writes them until it has the image back. An image cannot be dropped: it is given back, or consumed by a call of its
/// own. Its bytes are reached through the region that it becomes.
#[repr(C)]
pub struct Image {
    at: *mut u8,
    sectors: u64,
    pub ghost content: { List (List ℕ) } by { image_coded },
}

impl Model for Image {
    ghost also_owns = { λ i. image_owns i.at i.sectors i.content };
}

impl Image {
    ghost use Rattle.std.specs.Prelude.{◌≡◌, [], length};
    ghost use Rattle.blk.specs.Disk.{AreSectors};
    ghost use Rattle.mapped_disk.specs.Over.{IsOver, image_over};

    /// An image of no sectors.
    pub fn none() -> Image
        ensures { result.content ≡ [] }
    {
        Image::over(Region::none(), 0)
    }

    /// The image over a region: where it lies, and its bytes as they are.
    pub fn over(region: Region, sectors: u64) -> Image
        requires { IsOver region sectors }
        ensures { result ≡ image_over region sectors }
    {
        let (at, _) = region.into_raw_parts();
        Image { at, sectors }
    }

    /// The region of its bytes, as they are, and the number of sectors.
    pub fn into_region(self) -> (Region, u64)
        ensures same { image_over result.0 result.1 ≡ self }
        ensures over { IsOver result.0 result.1 }
    {
        let Image { at, sectors } = self;
        let region = unsafe { Region::from_raw_parts(at, sectors as usize * 512) };
        (region, sectors)
    }

    /// The number of its sectors, of 512 bytes each.
    pub fn count(&mut self) -> u64
        ensures same { self.new ≡ self.old }
        ensures count { result ≡ length self.old.content }
        ensures whole { AreSectors self.old.content }
    {
        let (region, sectors) = mem::replace(self, Image::none()).into_region();
        mem::replace(self, Image::over(region, sectors)).gone();
        sectors
    }

    /// Consumes an image of no sectors.
    pub fn gone(self)
        requires { self.content ≡ [] }
    {
        let (region, _) = self.into_region();
        region.gone();
    }
}
