//! A log that remembers whether anything was written.

ghost use Rattle.std.specs.Prelude.{true, refl};

use guestmem::TouchLog;

/// Whether a page or a sector was written since it was made.
#[derive(Clone, Copy, Debug)]
pub struct OwnLog {
    pub is_touched: bool,
}

impl OwnLog {
    /// Nothing was written yet.
    pub const EMPTY: OwnLog = OwnLog { is_touched: false };
}

impl TouchLog for OwnLog {
    ghost may = { λ _ _. Unit {0} };

    ghost after = { λ log _. record log { is_touched = true } };

    ghost stays = { λ _ _ _ h. h };

    ghost any_order = { λ _ _ _. refl };

    ghost once = { λ _ _. refl };

    fn page(&mut self, _n: u64) {
        self.is_touched = true;
    }

    fn sector(&mut self, _dev: u8, _n: u64) {
        self.is_touched = true;
    }
}
