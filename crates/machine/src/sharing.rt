//! Whether pieces of RAM share a byte.

ghost use Rattle.std.specs.Prelude.{◌<◌, ◌^◌, ℕ, map};
ghost use Rattle.guestmem.specs.Address.{index_of};
ghost use Rattle.chains.specs.Places.{AreSegmentsInside, addresses, places};
ghost use Rattle.machine.specs.Stored.{indexes_of};
ghost use Rattle.machine.specs.Opening.{TellsShared};

use chains::{Piece, Seg};

/// Whether two pieces share a byte.
fn meet(one: Piece, other: Piece) -> bool
    ensures { TellsShared (addresses one.at one.count) other result }
{
    if one.count == 0 || other.count == 0 {
        return false;
    }
    if one.at <= other.at {
        return other.at - one.at < one.count;
    }
    one.at - other.at < other.count
}

/// Whether a piece shares a byte with one of these.
pub(crate) fn pieces_meet(pieces: &[Piece], piece: Piece) -> bool
    ensures { TellsShared (indexes_of pieces.now) piece result }
{
    for one in pieces {
        if meet(*one, piece) {
            return true;
        }
    }
    false
}

/// Whether a piece shares a byte with one of these segments, in a RAM with this base.
pub(crate) fn segments_meet(base: u64, segs: &[Seg], piece: Piece) -> bool
    requires inside { (len : ℕ) × (len < 2 ^ 63) × AreSegmentsInside base len segs.now }
    ensures { TellsShared (map (index_of base) (places segs.now)) piece result }
{
    for seg in segs {
        let one = Piece {
            at: seg.addr - base,
            count: seg.len as u64,
        };
        if meet(one, piece) {
            return true;
        }
    }
    false
}
