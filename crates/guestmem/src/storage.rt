//! Where the bytes of a RAM lie.
//!
//! An enum inside `Ram`, and no type parameter: an access has one branch, and nothing above is written twice or has one more
//! parameter. `place` in the model says which it is, so contracts can say when lending is refused and what it hands out.

use region::{KeptRegion, Region};
use std::marker::Model;

/// Memory of the library, or memory of the caller.
#[derive(Drop)]
pub enum Place {
    /// The library took it, and frees it.
    Own(Vec<u8>),

    /// It is the caller's.
    Callers(KeptRegion),
}

impl Place {
    ghost use Rattle.std.specs.Prelude.{◌≡◌, ◌<◌, length};
    ghost use Rattle.std.specs.Borrow.{sem};
    ghost use Rattle.guestmem.specs.Lending.{LendsPlace};
    ghost use Rattle.guestmem.specs.Storage.{stored_in};

    /// The bytes, of which there are some, to be read and written in place.
    #[inline(always)]
    fn as_mut_slice(&mut self) -> &mut [u8]
        requires { 0 < length (stored_in self.old).bytes }
        ensures* writes_back { sem 𝓛 (LendsPlace self.entry result) }
        ensures value { result.now ≡ (stored_in self.old).bytes }
    {
        match self {
            Place::Own(bytes) => bytes.as_mut_slice(),
            Place::Callers(region) => region.as_mut_slice(),
        }
    }
}

/// The bytes of a RAM, of which there is one at least, wherever they lie.
///
/// An access has one branch, by the place, and makes no copy beside the one that a write is. When it is dropped, bytes of the caller
/// stay as they are, and are the caller's again (`KeptRegion`).
#[derive(Drop)]
pub struct Storage {
    place: Place,
}

impl Model for Storage {
    ghost use Rattle.std.specs.Prelude.{◌<◌, length};
    ghost use Rattle.guestmem.specs.Storage.{Stored, stored_in};

    ghost Value = { Stored };

    ghost view = { λ s. stored_in s.place };

    ghost invariant = { λ s. 0 < length (stored_in s.place).bytes };
}

impl Storage {
    ghost use Rattle.std.specs.Prelude.{◌≡◌, ◌+◌, ◌<◌, ◌≤◌, None, Some, length, IfOk, IfErr};
    ghost use Rattle.region.specs.Address.{address};
    ghost use Rattle.guestmem.specs.Write.{put_at};

    /// The bytes of a `Vec`, in memory of the library.
    pub(crate) fn own(bytes: Vec<u8>) -> Storage
        requires { 0 < length bytes.items }
        ensures { result ≡ record { bytes = bytes.items; place = None } }
    {
        Storage {
            place: Place::Own(bytes),
        }
    }

    /// The bytes of a region, in memory of the caller.
    pub(crate) fn callers(region: Region) -> Storage
        requires { 0 < length region.content }
        ensures { result ≡ record { bytes = region.content; place = Some (address region) } }
    {
        Storage {
            place: Place::Callers(KeptRegion::of(region)),
        }
    }

    /// How many bytes there are.
    pub(crate) fn len(&self) -> usize
        ensures { result ≡ length self.now.bytes }
    {
        match &self.place {
            Place::Own(bytes) => bytes.len(),
            Place::Callers(region) => region.len(),
        }
    }

    /// The bytes, to be read in place.
    #[inline(always)]
    pub(crate) fn as_slice(&self) -> &[u8]
        ensures { result.now ≡ self.now.bytes }
    {
        match &self.place {
            Place::Own(bytes) => bytes.as_slice(),
            Place::Callers(region) => region.as_slice(),
        }
    }

    /// Writes bytes from an index on.
    #[inline(always)]
    pub(crate) fn put(&mut self, start: usize, bytes: &[u8])
        requires { start + length bytes.now ≤ length self.old.bytes }
        ensures { self.new ≡ record self.old { bytes = put_at self.old.bytes start bytes.now } }
    {
        let _all = self.len();
        self.place.as_mut_slice()[start..start + bytes.len()].copy_from_slice(bytes);
    }

    /// The region, if the bytes lie in memory of the caller.
    pub(crate) fn into_region(self) -> Result<Region, Storage>
        ensures bytes { IfOk result (λ region. region.content ≡ self.bytes) }
        ensures place { IfOk result (λ region. self.place ≡ Some (address region)) }
        ensures own { IfErr result (λ _. self.place ≡ None) }
        ensures same { IfErr result (λ storage. storage ≡ self) }
    {
        let Storage { place } = self;
        match place {
            Place::Own(bytes) => Err(Storage::own(bytes)),
            Place::Callers(region) => Ok(region.into_region()),
        }
    }
}
