//! Bytes in the caller's memory.

ghost use Rattle.std.specs.Prelude.{ℕ, List};
ghost use Rattle.region.specs.Region.{region_owns, region_lends, region_coded};

use std::marker::Model;
use std::ptr;

/// Bytes in memory of the caller.
///
/// The caller promises that the bytes lie at the address and may be read and written, and that nothing else reads or writes them
/// until it has the region back. A region cannot be dropped: it is given back, or consumed by a call of its own.
pub struct Region {
    pub(crate) at: *mut u8,
    pub(crate) len: usize,
    pub ghost content: { List ℕ } by { region_coded },
}

impl Model for Region {
    ghost also_owns = { λ r. region_owns r.at r.len r.content };

    ghost also_shares = { λ r _ κ. region_lends r.at r.len r.content κ };
}

impl Region {
    ghost use Rattle.std.specs.Prelude.{◌≡◌, ◌<◌, ◌^◌, ◌==◌, ℕ, List, [], length};
    ghost use Rattle.std.specs.Borrow.{sem};
    ghost use Rattle.region.specs.Region.{bytes_owned};
    ghost use Rattle.region.specs.Lending.{LendsBytes};
    ghost use Rattle.region.specs.Address.{address};
    ghost use Rattle.region.specs.Empty.{empty_region};

    /// The region of no bytes whose address is null.
    pub fn none() -> Region
        ensures { result ≡ empty_region }
    {
        Region {
            at: ptr::null_mut(),
            len: 0,
        }
    }

    /// The region of the `len` bytes at the address `at`. The caller gives them up. If there are none, `at` may be anything.
    pub unsafe fn from_raw_parts(at: *mut u8, len: usize) -> Region
        ghost bytes: { List ℕ }
        requires count { len ≡ length bytes }
        requires few { len < 2 ^ 63 }
        requires* memory { sem 𝓛 (bytes_owned at len bytes) }
        ensures content { result.content ≡ bytes }
        ensures address { address result ≡ at }
    {
        Region { at, len }
    }

    /// The address of its bytes, and how many there are. The caller owns the bytes from here on.
    pub fn into_raw_parts(self) -> (*mut u8, usize)
        ensures address { result.0 ≡ address self }
        ensures count { result.1 ≡ length self.content }
        ensures few { result.1 < 2 ^ 63 }
        ensures* memory { sem 𝓛 (bytes_owned result.0 result.1 self.content) }
    {
        let Region { at, len } = self;
        (at, len)
    }

    /// How many bytes it has.
    pub fn len(&self) -> usize
        ensures count { result ≡ length self.now.content }
        ensures few { result < 2 ^ 63 }
    {
        self.len
    }

    /// Whether it has no bytes.
    pub fn is_empty(&self) -> bool
        ensures { result ≡ (length self.now.content == 0) }
    {
        self.len() == 0
    }

    /// Its bytes, to be read in place. There must be some: of a region of no bytes the address may be anything.
    pub fn as_slice(&self) -> &[u8]
        requires { 0 < length self.now.content }
        ensures { result.now ≡ self.now.content }
    {
        unsafe { std::slice::from_raw_parts(self.at, self.len) }
    }

    /// Its bytes, of which there must be some, to be read and written in place. Their address and their number stay as they are.
    pub fn as_mut_slice(&mut self) -> &mut [u8]
        requires { 0 < length self.old.content }
        ensures* writes_back { sem 𝓛 (LendsBytes self.entry result) }
        ensures value { result.now ≡ self.old.content }
    {
        unsafe { std::slice::from_raw_parts_mut(self.at, self.len) }
    }

    /// Consumes a region of no bytes.
    pub fn gone(self)
        requires { self.content ≡ [] }
    {
        self.forget();
    }

    /// Consumes the region. Its bytes stay where they are, as they are, and are the caller's again.
    pub fn forget(self)
        ensures* memory { sem 𝓛 (bytes_owned (address self) (length self.content) self.content) }
    {
        let Region { at: _, len: _ } = self;
    }
}

// All that a region owns is bytes.
unsafe impl Send for Region {}
