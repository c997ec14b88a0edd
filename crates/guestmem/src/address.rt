//! What a guest-physical address means, where RAM lies from a base on.
//!
//! An address has 64 bits. So an access of no bytes may lie at the end of RAM, but not past the last address.

ghost use Rattle.std.specs.Prelude.{◌≡◌, ◌↔◌, IsTrue, None};
ghost use Rattle.guestmem.specs.Address.{IsWithin, access_refusal, is_within};

use crate::error::RamError;
use crate::limits::ACCESS_MAX;

/// Whether `count` bytes from a guest-physical address on lie inside a RAM of `len` bytes that begins at the address `base`. No bytes
/// are inside at the end of RAM too. The address 2^64 is none, and nothing wraps around to the address 0.
#[inline(always)]
pub fn is_within(base: u64, len: u64, address: u64, count: u64) -> bool
    ensures value { result ≡ is_within base len address count }
    ensures facts { IsTrue result ↔ IsWithin base len address count }
{
    address >= base && count <= len && address - base <= len - count
}

/// Why an access of `count` bytes at a guest-physical address is refused, in a RAM of `len` bytes that begins at the address `base`, if
/// it is: `TooLong` is tested first.
pub fn access_refusal(base: u64, len: u64, address: u64, count: usize) -> Option<RamError>
    ensures refusal { result ≡ access_refusal base len address count }
    ensures within { result ≡ None → IsWithin base len address count }
{
    if count > ACCESS_MAX {
        return Some(RamError::TooLong);
    }
    if !is_within(base, len, address, count as u64) {
        return Some(RamError::OutOfRam);
    }
    None
}
