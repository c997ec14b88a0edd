//! The set of dirty items, which records what a step writes.

use dirtylog::BitSet;
use guestmem::{Both, TouchLog};
use machine::PageLog;

/// The dirty items by their numbers, and the item number of the first sector of each device's disk.
#[derive(Drop)]
pub(crate) struct Dirty {
    pub(crate) set: BitSet,
    pub(crate) firsts: Vec<u64>,
}

/// The dirty items, and a log of the caller's that is told the same.
pub(crate) type Logs = Both<Dirty, Option<PageLog>>;

impl TouchLog for Dirty {
    ghost use Rattle.sender.specs.Dirty.{after_taking, may_stay, may_take, takes_any_order, takes_once};

    ghost may = { may_take };

    ghost after = { after_taking };

    ghost stays = { may_stay };

    ghost any_order = { takes_any_order };

    ghost once = { takes_once };

    fn page(&mut self, n: u64) {
        self.set.insert(n);
    }

    fn sector(&mut self, dev: u8, n: u64) {
        let first = self.firsts[dev as usize];
        self.set.insert(first + n);
    }
}
