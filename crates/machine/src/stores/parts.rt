//! Parts of pieces and of segments.

ghost use Rattle.std.specs.Prelude.{◌≡◌, ◌+◌, ◌-◌, ◌<◌, ◌^◌, ◌≤◌, ℕ, List, drop, length, map, min, take};
ghost use Rattle.guestmem.specs.Address.{index_of};
ghost use Rattle.chains.specs.Places.{AreSegmentsInside, places};
ghost use Rattle.machine.specs.Writing.{AreNear, IsNext, rest_from};

use chains::{Piece, Seg};

/// The first piece of `left` bytes of segments, from the byte of number `skip` on, in a RAM with this base: the bytes that lie in one
/// segment.
pub(crate) fn part_from(base: u64, segs: &[Seg], skip: u64, left: u64) -> Option<Piece>
    requires inside { (len : ℕ) × (len < 2 ^ 63) × AreSegmentsInside base len segs.now }
    requires some { 0 < left }
    ensures { IsNext (map (index_of base) (take left (drop skip (places segs.now)))) 0 result }
{
    let mut skip = skip;
    for seg in segs {
        let len = seg.len as u64;
        if skip < len {
            return Some(Piece {
                at: seg.addr - base + skip,
                count: left.min(len - skip),
            });
        }
        skip -= len;
    }
    None
}

/// The rest of the piece of these two in which the byte of number `from` lies.
pub(crate) fn rest_from(pieces: [Piece; 2], from: u64) -> Option<Piece>
    requires near { AreNear pieces }
    ensures { result ≡ rest_from pieces from }
{
    let [first, second] = pieces;
    if from < first.count {
        return Some(Piece {
            at: first.at + from,
            count: first.count - from,
        });
    }
    let from = from - first.count;
    if from < second.count {
        return Some(Piece {
            at: second.at + from,
            count: second.count - from,
        });
    }
    None
}
