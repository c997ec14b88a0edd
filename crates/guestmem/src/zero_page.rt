//! Whether a page has zeros alone.

ghost use Rattle.std.specs.Prelude.{◌≡◌, ◌≤◌, length, take};
ghost use Rattle.guestmem.specs.Zeros.{are_zeros};

use std::simd::prelude::*;

/// The bytes of one vector.
const LANES: usize = 64;

/// Whether all bytes of a page are 0. It stops at the first vector of bytes that has another.
pub fn is_zero(page: &[u8; 4096]) -> bool
    ensures { result ≡ are_zeros page.now }
{
    for block in 0..page.len() / LANES {
        let (_, rest) = page.split_at(block * LANES);
        if !begins_with_zeros(rest) {
            return false;
        }
    }
    true
}

/// Whether the first vector of these bytes is zeros.
fn begins_with_zeros(bytes: &[u8]) -> bool
    requires { 64 ≤ length bytes.now }
    ensures { result ≡ are_zeros (take 64 bytes.now) }
{
    let lanes = u8x64::from_slice(bytes);
    lanes.simd_ne(u8x64::splat(0)).to_bitmask() == 0
}
