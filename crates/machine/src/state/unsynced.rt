//! What a step owes to what holds a disk, and flushes that fail in place of their step.

ghost use Rattle.std.specs.Prelude.{◌≡◌};
ghost use Rattle.machine.specs.Unsynced.{flushes, owed, with_flush_failed};

use crate::state::DeviceState;
use blk::SyncOwed;

impl DeviceState {
    /// Whether a step with this pick flushes the disk of the device.
    pub fn flushes(&self, pick: u8) -> bool
        ensures { result ≡ flushes self.now pick }
    {
        matches!(self.must_sync(pick), SyncOwed::Flush)
    }

    /// Whether what the driver wrote has to be durable before a step with this pick, and why: the step flushes the disk, or it ends a
    /// write, or a clearing, of a driver that did not accept the feature FLUSH (VIRTIO 1.2, 5.2.6.2). The step of a flush flushes by itself;
    /// for the end of such a write flush the disk before it (`Machine::flush_disk`). Where that fails the step is not made, and the guest
    /// is ended, or moved to another host.
    pub fn must_sync(&self, pick: u8) -> SyncOwed
        ensures { result ≡ owed self.now pick }
    {
        if !self.advances(pick) {
            return SyncOwed::Nothing;
        }
        let features = self.registers.features();
        self.kind.due_sync(pick as usize - 1, features)
    }

    /// Fails the flush that a step with this pick makes, if it makes one.
    pub(crate) fn fail_flush(&mut self, pick: u8) -> bool
        ensures was { result ≡ flushes self.old pick }
        ensures device { self.new ≡ with_flush_failed self.old pick }
    {
        self.advances(pick) && self.kind.fail_flush(pick as usize - 1)
    }
}
