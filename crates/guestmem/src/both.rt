//! Two logs in the place of one.

use crate::log::TouchLog;

/// Two logs that take in the same items: for a caller that keeps what a step writes in two ways.
#[derive(Debug, Drop)]
pub struct Both<A: TouchLog, B: TouchLog> {
    /// One of them.
    pub first: A,

    /// The other.
    pub second: B,
}

impl<A: TouchLog, B: TouchLog> TouchLog for Both<A, B> {
    ghost use Rattle.guestmem.specs.Both.{both_same};

    ghost may = { λ l i. A.may l.first i × B.may l.second i };

    ghost after = { λ l i. record { first = A.after l.first i; second = B.after l.second i } };

    ghost stays = { λ l i j h. (A.stays l.first i j h.0, B.stays l.second i j h.1) };

    ghost any_order = { λ l i j. both_same (A.any_order l.first i j) (B.any_order l.second i j) };

    ghost once = { λ l i. both_same (A.once l.first i) (B.once l.second i) };

    fn page(&mut self, n: u64) {
        self.first.page(n);
        self.second.page(n);
    }

    fn sector(&mut self, dev: u8, n: u64) {
        self.first.sector(dev, n);
        self.second.sector(dev, n);
    }
}
