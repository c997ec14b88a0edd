//! The fields of a line: numbers that fit, and bytes.

ghost use Rattle.std.specs.Prelude.{◌≡◌, IfOk};
ghost use Rattle.traces.specs.Numbers.{bytes_of, sized_bytes_of};
ghost use Rattle.traces.specs.Line.{read_only_field, u8_field, u16_field, u32_field, u64_field};

use crate::numbers::number;
use hex::{FromHex, FromHexError};
use machine::Bytes;
use std::alloc::{AllocError, Global};

/// The number that a word encodes, if it fits 8 bits.
pub fn number8(word: &[u8]) -> Option<u8>
    ensures { result ≡ u8_field word.now }
{
    let value = number(word)?;
    if value < 1 << 8 {
        Some(value as u8)
    } else {
        None
    }
}

/// The number that a word encodes, if it fits 16 bits.
pub fn number16(word: &[u8]) -> Option<u16>
    ensures { result ≡ u16_field word.now }
{
    let value = number(word)?;
    if value < 1 << 16 {
        Some(value as u16)
    } else {
        None
    }
}

/// The number that a word encodes, if it fits 32 bits.
pub fn number32(word: &[u8]) -> Option<u32>
    ensures { result ≡ u32_field word.now }
{
    let value = number(word)?;
    if value < 1 << 32 {
        Some(value as u32)
    } else {
        None
    }
}

/// The number that a word encodes, if it fits 64 bits.
pub fn number64(word: &[u8]) -> Option<u64>
    ensures { result ≡ u64_field word.now }
{
    let value = number(word)?;
    if value < 1 << 64 {
        Some(value as u64)
    } else {
        None
    }
}

/// The bytes that a word encodes: two hexadecimal digits for each, or `-` for none.
#[tactic(auto, unfolding(crate::specs::Numbers::bytes_of))]
pub fn bytes(alloc: Global, word: &[u8]) -> Result<Option<Bytes>, AllocError>
    ensures { IfOk result (λ bytes. bytes ≡ bytes_of word.now) }
{
    if word.is_empty() {
        return Ok(None);
    }
    if word.len() == 1 && word[0] == b'-' {
        return Ok(Some(Bytes::new(alloc)));
    }
    match hex::decode(alloc, word) {
        Ok(held) => Ok(Some(Bytes::from_vec(held))),
        Err(FromHexError::OutOfMemory) => Err(AllocError),
        Err(_) => Ok(None),
    }
}

/// The `N` bytes that a word of twice as many hexadecimal digits encodes.
pub fn sized_bytes<const N: usize>(word: &[u8]) -> Option<[u8; N]>
    ensures { result ≡ sized_bytes_of N word.now }
{
    <[u8; N]>::from_hex(word).ok()
}

/// Whether a driver may only read a device: `ro` says so, `rw` does not.
pub fn read_only(word: &[u8]) -> Option<bool>
    ensures { result ≡ read_only_field word.now }
{
    if word == b"rw".as_slice() {
        Some(false)
    } else if word == b"ro".as_slice() {
        Some(true)
    } else {
        None
    }
}
