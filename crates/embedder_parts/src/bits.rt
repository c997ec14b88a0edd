//! Sets of numbers.

use anyhow::{Result, ensure};
use dirtylog::BitSet;
use std::alloc::Global;

/// A number more than a word of the upper level covers.
const LEN: u64 = 4097;

/// Makes each call of a set.
pub fn agree(alloc: Global) -> Result<()> {
    let mut set = BitSet::new(alloc, LEN)?;
    ensure!(set.is_empty() && set.count() == 0, "a new set");
    ensure!(set.first_from(LEN).is_none(), "the end of a set");
    set.insert(0);
    set.insert(64);
    set.insert(4096);
    set.remove(64);
    ensure!(set.contains(4096) && !set.contains(64), "members");
    ensure!(set.first_from(1) == Some(4096), "the least member");
    ensure!(set.first_counted(1).0 == Some(4096), "the same, counted");
    ensure!(
        set.count_below(4096) == 1 && set.count_below(LEN) == 2,
        "the members below a number"
    );
    let mut other = BitSet::new(alloc, LEN)?;
    set.swap_out(&mut other);
    ensure!(set.is_empty() && other.count() == 2, "what was handed out");
    set.fill();
    ensure!(set.count() == LEN, "a full set");
    Ok(())
}
