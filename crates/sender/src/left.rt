//! What is left to be sent, by the two sets of a migration.

ghost use Rattle.std.specs.Prelude.{◌≡◌, ◌+◌, ◌*◌, ◌<◌, ◌≤◌, ◌^◌, drop, length, take};
ghost use Rattle.dirtylog.specs.Members.{member_count};

use crate::event::Left;
use dirtylog::BitSet;
use wire::{COMMIT_RECORD, GOOD_SECTOR_RECORD, PAGE_RECORD};

/// The counts of items in the two sets, whose first `pages` members stand for pages and the others for sectors.
pub(crate) fn left_of(due: &BitSet, dirty: &BitSet, pages: u64) -> Left
    requires due { pages ≤ length due.now }
    requires dirty { pages ≤ length dirty.now }
    ensures due_pages { result.due_pages ≡ member_count (take pages due.now) }
    ensures due_sectors { result.due_sectors ≡ member_count (drop pages due.now) }
    ensures dirty_pages { result.dirty_pages ≡ member_count (take pages dirty.now) }
    ensures dirty_sectors { result.dirty_sectors ≡ member_count (drop pages dirty.now) }
    ensures few { result.due_pages + result.dirty_pages ≤ 2 * pages }
{
    let due_pages = due.count_below(pages);
    let dirty_pages = dirty.count_below(pages);
    Left {
        due_pages,
        due_sectors: due.count() - due_pages,
        dirty_pages,
        dirty_sectors: dirty.count() - dirty_pages,
    }
}

/// The most bytes that a stop would write for these items, and for devices whose records take `devices` bytes.
pub(crate) fn most_bytes(items: Left, devices: u64) -> u64
    requires pages { items.due_pages + items.dirty_pages ≤ 8589934590 }
    requires sectors { items.due_sectors + items.dirty_sectors < 2 ^ 38 }
    requires devices { devices ≤ 2097248 }
    ensures { result ≡ 4101 * (items.due_pages + items.dirty_pages) + 519 * (items.due_sectors + items.dirty_sectors) + devices + 33 }
{
    let pages = PAGE_RECORD as u64 * (items.due_pages + items.dirty_pages);
    let sectors = GOOD_SECTOR_RECORD as u64 * (items.due_sectors + items.dirty_sectors);
    pages + sectors + devices + COMMIT_RECORD as u64
}
