//! A region that a value of its own keeps.
//!
//! The drop is written by hand, so that its clause can say that the bytes are the caller's, as they were: a drop that writes is
//! refused. The drops of everything that keeps such a region are derived.

ghost use Rattle.std.specs.Prelude.{◌≡◌, ◌<◌, length};
ghost use Rattle.std.specs.Borrow.{sem};
ghost use Rattle.region.specs.Address.{address};
ghost use Rattle.region.specs.Region.{bytes_owned};
ghost use Rattle.region.specs.Lending.{LendsKept};

use crate::region::Region;
use std::marker::Model;

/// A region of the caller's memory that another value keeps, for instance a RAM or a disk. Contracts see the region.
///
/// One that is dropped leaves its bytes where they are, as they are, and they are the caller's again.
pub struct KeptRegion {
    region: Region,
}

impl Model for KeptRegion {
    ghost use Rattle.region.specs.declared.region.Region.{Region};

    ghost Value = { Region };

    ghost view = { λ k. k.region };
}

impl KeptRegion {
    /// Keeps a region.
    pub fn of(region: Region) -> KeptRegion
        ensures { result ≡ region }
    {
        KeptRegion { region }
    }

    /// The region, which is kept no longer.
    pub fn into_region(self) -> Region
        ensures { result ≡ self }
    {
        let KeptRegion { region } = self;
        region
    }

    /// How many bytes it has.
    pub fn len(&self) -> usize
        ensures { result ≡ length self.now.content }
    {
        self.region.len()
    }

    /// Its bytes, of which there are some, to be read in place.
    #[inline(always)]
    pub fn as_slice(&self) -> &[u8]
        requires { 0 < length self.now.content }
        ensures { result.now ≡ self.now.content }
    {
        self.region.as_slice()
    }

    /// Its bytes, of which there are some, to be read and written in place.
    #[inline(always)]
    pub fn as_mut_slice(&mut self) -> &mut [u8]
        requires { 0 < length self.old.content }
        ensures* writes_back { sem 𝓛 (LendsKept self.entry result) }
        ensures value { result.now ≡ self.old.content }
    {
        self.region.as_mut_slice()
    }
}

impl Drop for KeptRegion {
    fn drop(self)
        ensures* memory { sem 𝓛 (bytes_owned (address self) (length self.content) self.content) }
    {
        let Self { region } = self;
        region.forget();
    }
}
