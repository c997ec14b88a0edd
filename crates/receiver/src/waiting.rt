//! How much is still to come of the header, or of the record whose front is held.
//!
//! A piece within the body of the record whose front is held is only held: the head was checked when it was complete. The
//! receiver keeps how many bytes that record lacks, so the head is not read again for each piece. What reads a header and what
//! takes longer pieces are functions of their own, since a function pays at entry for the locals of all its branches.

ghost use Rattle.std.specs.Prelude.{◌<◌, ◌≤◌, ◌+◌, ℕ, length};
ghost use Rattle.receiver.specs.Waiting.{LacksBytes};

use crate::stage::Stage;
use wire::{FoundHead, HEAD_MAX, RECORD_MAX, read_head};

/// The most bytes of a header: 16, and 30 for each of sixteen devices.
const HEADER_MAX: usize = 496;

/// How many bytes the record whose front is held still lacks, if its head is held, and as many bytes as any head has; else 0.
/// Of a piece with fewer bytes nothing can be taken, and nothing refused: the head was checked when it was complete.
pub fn lacking_of(stage: &Stage, held: &[u8]) -> usize
    ensures lacks { 0 < result → LacksBytes stage.now held.now result }
    ensures most { (count : ℕ) → LacksBytes stage.now held.now count → count ≤ result }
{
    let Stage::Records(_) = stage else {
        return 0;
    };
    if held.len() < HEAD_MAX {
        return 0;
    }
    let FoundHead::Whole(head) = read_head(held) else {
        return 0;
    };
    let len = RECORD_MAX.min(head.head_len() + head.body_len());
    len.saturating_sub(held.len())
}

/// How many bytes to take next, of `len`, behind these that are held: all if none are. Before the header is read, no more than it can
/// lack; then as many as complete the record whose front is held, or one more of its head.
pub fn next_len(stage: &Stage, held: &[u8], len: usize) -> usize
    requires some { 0 < len }
    requires few { length held.now ≤ 131077 }
    ensures some { 0 < result }
    ensures within { result ≤ len }
    ensures fits { 0 < length held.now → length held.now + result ≤ 131078 }
{
    if held.is_empty() {
        return len;
    }
    let lacking = match stage {
        Stage::Head => HEADER_MAX.saturating_sub(held.len()),
        _ => lacking_of(stage, held),
    };
    len.min(lacking.max(1))
}
