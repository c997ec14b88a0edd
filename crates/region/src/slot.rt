//! A region as it lies in memory of a caller in C.

ghost use Rattle.std.specs.Prelude.{ℕ, List};
ghost use Rattle.region.specs.Region.{region_owns, region_coded};

use crate::region::Region;
use std::marker::Model;
use std::mem;

/// The address of a region's bytes and how many there are, in memory of a caller in C. All bytes 0 are a slot of no bytes.
///
/// The caller promises what it promises of a `Region`. A slot cannot be dropped, and its bytes are reached through the region that it
/// becomes.
#[repr(C)]
pub struct Slot {
    pub(crate) at: *mut u8,
    pub(crate) len: usize,
    pub ghost content: { List ℕ } by { region_coded },
}

impl Model for Slot {
    ghost also_owns = { λ s. region_owns s.at s.len s.content };
}

impl Slot {
    ghost use Rattle.std.specs.Prelude.{◌≡◌, ◌<◌, ◌^◌, ◌==◌, [], length};
    ghost use Rattle.region.specs.Empty.{empty_slot};
    ghost use Rattle.region.specs.Slot.{region_of, slot_of};

    /// The slot of no bytes that is all zeros.
    pub fn none() -> Slot
        ensures { result ≡ empty_slot }
    {
        Slot::of(Region::none())
    }

    /// The slot of a region: its address, and its bytes as they are.
    pub fn of(region: Region) -> Slot
        ensures { result ≡ slot_of region }
    {
        let Region { at, len } = region;
        Slot { at, len }
    }

    /// The region that lies in it: its address, and its bytes as they are.
    pub fn into_region(self) -> Region
        ensures { result ≡ region_of self }
    {
        let Slot { at, len } = self;
        Region { at, len }
    }

    /// How many bytes it has. The slot stays as it is.
    pub fn len(&mut self) -> usize
        ensures same { self.new ≡ self.old }
        ensures count { result ≡ length self.old.content }
        ensures few { result < 2 ^ 63 }
    {
        let region = mem::replace(self, Slot::none()).into_region();
        let count = region.len();
        mem::replace(self, Slot::of(region)).gone();
        count
    }

    /// Whether it has no bytes. The slot stays as it is.
    pub fn is_none(&mut self) -> bool
        ensures same { self.new ≡ self.old }
        ensures none { result ≡ (length self.old.content == 0) }
    {
        self.len() == 0
    }

    /// Consumes a slot of no bytes.
    pub fn gone(self)
        requires { self.content ≡ [] }
    {
        self.into_region().gone();
    }
}
