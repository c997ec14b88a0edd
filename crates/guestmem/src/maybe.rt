//! A log that may be missing.

use crate::log::TouchLog;

/// Where there is no log, nothing is kept: for a caller that asks for a log at some times alone.
impl<L: TouchLog> TouchLog for Option<L> {
    ghost use Rattle.guestmem.specs.Maybe.{after_if, may_if, once_if, order_if, stays_if};

    ghost may = { may_if L.may };

    ghost after = { after_if L.after };

    ghost stays = { stays_if L.may L.after L.stays };

    ghost any_order = { order_if L.after L.any_order };

    ghost once = { once_if L.after L.once };

    fn page(&mut self, n: u64) {
        if let Some(log) = self {
            log.page(n);
        }
    }

    fn sector(&mut self, dev: u8, n: u64) {
        if let Some(log) = self {
            log.sector(dev, n);
        }
    }
}
