//! The record that closes a stream, where a digest is told: it is compared with the record's own, and with no other.

ghost use Rattle.std.specs.Prelude.{◌≡◌, ◌++◌, ◌∷◌, ◌≤◌, ◌↔◌, IsTrue, length};
ghost use Rattle.guestmem.specs.Number.{IsBytes};
ghost use Rattle.receiver.specs.Closing.{Compares};

use crate::recv_error::RecvError;
use wire::{COMMIT_RECORD, COMMIT_TAG};

/// Whether these bytes, first those that are held, are all of the record of this digest. Fewer bytes wait, whatever they are. Another digest
/// is refused with its last byte, and so is a byte after the record.
pub fn compare(held: &[u8], rest: &[u8], digest: &[u8; 32]) -> Result<bool, RecvError>
    requires { length held.now ≤ 33 }
    ensures { Compares digest.now (held.now ++ rest.now) result }
{
    let lacking = COMMIT_RECORD - held.len();
    if rest.len() < lacking {
        return Ok(false);
    }
    let (last, behind) = rest.split_at(lacking);
    if !is_record(held, last, digest) {
        return Err(RecvError::BadDigest);
    }
    if !behind.is_empty() {
        return Err(RecvError::Trailing);
    }
    Ok(true)
}

/// Whether these bytes, one after the other, are the record of this digest.
fn is_record(held: &[u8], last: &[u8], digest: &[u8; 32]) -> bool
    requires { length held.now ≤ 33 }
    ensures { IsTrue result ↔ (held.now ++ last.now ≡ 5 ∷ digest.now) }
{
    let record = record_of(digest);
    let (front, back) = record.split_at(held.len());
    held == front && last == back
}

/// The record of this digest.
fn record_of(digest: &[u8; 32]) -> [u8; COMMIT_RECORD]
    ensures { result ≡ 5 ∷ digest.now }
{
    let mut record = [COMMIT_TAG; COMMIT_RECORD];
    record[1..].copy_from_slice(digest);
    record
}

/// For proofs: these are bytes.
pub fn recall(bytes: &[u8])
    ensures { IsBytes bytes.now }
{
    let _count = bytes.len();
}
