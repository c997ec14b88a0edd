//! Streams that are fed to a receiver which is told the digest.

ghost use Rattle.std.specs.Prelude.{◌≡◌, ◌∷◌, List, ℕ, false, true};
ghost use Rattle.sha2.specs.Hashers.{Holds256};
ghost use Rattle.receiver.specs.Receiving.{HasBeenFed, has_ended, reads_in};

use anyhow::{Result, ensure};
use receiver::{Receiver, RecvError, Terms, Told};
use scenarios::TestDisk;
use sha2::{Digest, Sha256};
use std::alloc::Global;
use wire::{COMMIT_RECORD, COMMIT_TAG};

/// The number of the refusal of a stream that is fed in pieces of `size` bytes to a receiver which is told the digest, or 0 where it is
/// received; and how many bytes were fed by then, but where the record that closes the stream had begun.
pub fn told_refusal(
    alloc: Global,
    stream: &[u8],
    disks: Vec<TestDisk>,
    terms: Terms,
    size: usize,
) -> Result<(u8, Option<usize>)> {
    let mut receiver = Receiver::told(alloc, disks, None, terms);
    let mut sum = Sha256::new();
    let mut fed = 0usize;
    while fed < stream.len() {
        let (_, rest) = stream.split_at(fed);
        let (piece, _) = rest.split_at(size.max(1).min(rest.len()));
        let taken = match receiver.feed_some(piece) {
            Ok(taken) => taken,
            Err(error) => return Ok((error.code(), Some(fed + piece.len()))),
        };
        let (bytes, _) = piece.split_at(taken.used);
        sum.update(bytes);
        if taken.is_due {
            let (_, closing) = rest.split_at(taken.used);
            return Ok((closed(receiver, sum, closing)?, None));
        }
        fed += piece.len();
    }
    Ok((ended(receiver), Some(stream.len())))
}

/// The number of the refusal of a stream that is fed in pieces of `size` bytes to a receiver which is told the digest on trust, or 0 where it is
/// received; and how many bytes were fed by then. The record that closes the stream comes in pieces too. Where `is_wrong` is set another
/// digest is told than that of the bytes.
pub fn trusting_refusal(
    stream: &[u8],
    receiver: Receiver<TestDisk, Told>,
    size: usize,
    is_wrong: bool,
) -> Result<(u8, usize)> {
    let mut receiver = receiver;
    match trusting_refusal_of(stream, &mut receiver, size, is_wrong) {
        Ok(Some(refused)) => Ok(refused),
        Ok(None) => Ok((ended(receiver), stream.len())),
        Err(error) => Err(error),
    }
}

/// The number of the refusal of a piece, and how many bytes were fed by then.
fn trusting_refusal_of(
    stream: &[u8],
    receiver: &mut Receiver<TestDisk, Told>,
    size: usize,
    is_wrong: bool,
) -> Result<Option<(u8, usize)>> {
    let mut sum = Sha256::new();
    let mut fed = 0usize;
    for piece in stream.chunks(size.max(1)) {
        fed = fed.saturating_add(piece.len());
        if let Err(error) = feed_on_trust(receiver, &mut sum, piece, is_wrong)? {
            return Ok(Some((error.code(), fed)));
        }
    }
    Ok(None)
}

/// Feeds a piece, and tells the digest of all that was fed before the record that closes the stream, where that is due; or another one.
fn feed_on_trust(
    receiver: &mut Receiver<TestDisk, Told>,
    sum: &mut Sha256,
    piece: &[u8],
    is_wrong: bool,
) -> Result<Result<(), RecvError>> {
    let taken = match receiver.feed_some(piece) {
        Ok(taken) => taken,
        Err(error) => return Ok(Err(error)),
    };
    let (bytes, closing) = piece.split_at(taken.used);
    sum.update(bytes);
    if !taken.is_due {
        return Ok(Ok(()));
    }
    let mut digest = sum.clone()?.finalize();
    if is_wrong {
        digest[0] ^= 0x55;
        digest[31] ^= 0xaa;
    }
    Ok(receiver.close_on_trust(&digest, closing))
}

/// The number of the refusal of a receiver at its end, or 0.
fn ended(receiver: Receiver<TestDisk, Told>) -> u8 {
    receiver.finish().err().map_or(0, RecvError::code)
}

/// Hands in the digest of what was fed, the record that closes the stream, and what follows it.
fn closed(mut receiver: Receiver<TestDisk, Told>, sum: Sha256, closing: &[u8]) -> Result<u8>
    requires reads { reads_in receiver.stage ≡ true }
    requires goes_on { has_ended receiver.stage ≡ false }
    requires summed { (b : List ℕ) × HasBeenFed receiver b × Holds256 sum b }
{
    let (record, behind) = closing.split_at(COMMIT_RECORD.min(closing.len()));
    ensure!(
        is_closing(record),
        "another record was taken for the closing one"
    );
    ensure!(
        receiver.held() == 0,
        "a part of the closing record was taken"
    );
    receiver.recall_bytes();
    let digest = sum.finalize();
    if let Err(error) = receiver.close(&digest, record) {
        return Ok(error.code());
    }
    if let Err(error) = receiver.feed_some(behind) {
        return Ok(error.code());
    }
    Ok(ended(receiver))
}

/// Whether the bytes begin with the record that closes a stream.
fn is_closing(bytes: &[u8]) -> bool
    ensures { result ≡ true → (more : List ℕ) × (bytes.now ≡ 5 ∷ more) }
{
    match bytes.split_first() {
        Some((tag, _)) => *tag == COMMIT_TAG,
        None => false,
    }
}
