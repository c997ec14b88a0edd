//! What a machine is made of, and what is left of it where none is made.
//!
//! One struct says what each call that makes a machine is told: how large it may be, where RAM begins, where its bytes come from, what the devices are, and
//! their disks. Nothing is passed beside it that has to fit it.

ghost use Rattle.std.specs.Prelude.{◌≡◌, ◌≤◌, ◌*◌, ◌%◌, IfOk, IfErr};
ghost use Rattle.guestmem.specs.declared.limits.TheConstants.{PAGE_SIZE, PAGES_GREATEST};
ghost use Rattle.machine.specs.Board.{ram_bytes, ram_place, ram_region, ram_size};

use crate::limits::Limits;
use crate::new_error::NewError;
use crate::shape::Shape;
use guestmem::{PAGE_SIZE, Ram};
use region::Region;
use std::alloc::Global;

/// What a machine is made of. Its block devices get the disks in order.
pub struct Board<'a, D> {
    /// How large it may be.
    pub limits: Limits,

    /// The guest-physical address at which RAM begins.
    pub base: u64,

    /// What its RAM is made of.
    pub ram: RamOf,

    /// What its devices are, in order.
    pub shapes: &'a [Shape],

    /// The disks of its block devices, in their order.
    pub disks: Vec<D>,
}

/// What the RAM of a machine is made of.
pub enum RamOf {
    /// This many pages of zeros, in memory of the machine's own.
    Pages(u32),

    /// The bytes of a region, as they are. They stay where they lie.
    Region(Region),
}

/// Why a machine is not made, and what was to be its RAM and its disks, as they were.
pub struct Unmade<D> {
    /// The reason.
    pub error: NewError,

    /// What its RAM was to be made of.
    pub ram: RamOf,

    /// Its disks.
    pub disks: Vec<D>,
}

impl RamOf {
    /// How many bytes the RAM has.
    pub fn len(&self) -> u64
        ensures { result ≡ ram_size self.now }
    {
        match self {
            RamOf::Pages(pages) => PAGE_SIZE as u64 * *pages as u64,
            RamOf::Region(region) => region.len() as u64,
        }
    }

    /// Makes the RAM. Its only error is out of memory, and then it is as it was.
    pub(crate) fn into_ram(self, alloc: Global) -> Result<Ram, RamOf>
        requires whole { ram_size self % PAGE_SIZE ≡ 0 }
        requires some { PAGE_SIZE ≤ ram_size self }
        requires few { ram_size self ≤ PAGE_SIZE * PAGES_GREATEST }
        ensures bytes { IfOk result (λ ram. ram.bytes ≡ ram_bytes self) }
        ensures place { IfOk result (λ ram. ram.place ≡ ram_place self) }
        ensures same { IfErr result (λ ram. ram ≡ self) }
    {
        match self {
            RamOf::Pages(pages) => match Ram::new(alloc, pages) {
                Ok(ram) => Ok(ram),
                Err(_) => Err(RamOf::Pages(pages)),
            },
            RamOf::Region(region) => match Ram::over(alloc, region) {
                Ok(ram) => Ok(ram),
                Err((_, region)) => Err(RamOf::Region(region)),
            },
        }
    }

    /// The region, if it is one.
    pub fn into_region(self) -> Option<Region>
        ensures { result ≡ ram_region self }
    {
        match self {
            RamOf::Pages(_) => None,
            RamOf::Region(region) => Some(region),
        }
    }

    /// Lets it go. The bytes of a region stay where they lie, and are the caller's again.
    pub fn gone(self) {
        match self {
            RamOf::Pages(_) => {}
            RamOf::Region(region) => region.forget(),
        }
    }
}

impl<D: Drop> Unmade<D> {
    /// Why there is no machine. The disks are dropped, and the bytes of a region stay where they lie.
    pub fn reason(self) -> NewError
        ensures { result ≡ self.error }
    {
        let Unmade {
            error,
            ram,
            disks: _,
        } = self;
        ram.gone();
        error
    }
}
