//! When what a driver wrote has to be durable (VIRTIO 1.2, 5.2.6.2).
//!
//! No step calls `Disk::flush` for the end of a write: one more call would change the outcomes of every trace of such a driver,
//! and an end cannot fail. So a host flushes before that step, and does not make the step where that failed.

ghost use Rattle.std.specs.Prelude.{◌≡◌};
ghost use Rattle.blk.specs.Durable.{ends_write, is_flush_owed, owed_at, owed_by};
ghost use Rattle.blk.specs.Flush.{flushes, flushes_at};

use crate::block::Block;
use crate::request::{Kind, Request, Verdict};
use crate::shape::FLUSH;

/// Whether what was written to a disk has to be durable before a step, and why.
#[derive(Clone, Copy, Debug, PartialEq, Eq)]
pub enum SyncOwed {
    /// It need not be.
    Nothing,

    /// The step flushes the disk, since the driver asked for it. It flushes by itself: `Block::advance` calls the disk.
    Flush,

    /// The step ends a write, or a clearing, of a driver that did not accept the feature FLUSH. Such a driver takes it for durable from
    /// then on. No step flushes the disk for it: that is the host's part, before this step.
    EndOfWrite,
}

impl Block {
    /// Whether what was written to the disk has to be durable before the next step of the k-th outstanding request, from 0, whose driver
    /// accepted these features.
    pub fn due_sync(&self, k: usize, features: u64) -> SyncOwed
        ensures owed { result ≡ owed_at features self.now k }
        ensures flush { is_flush_owed result ≡ flushes_at self.now k }
    {
        match self.requests.as_slice().get(k) {
            Some(request) => owed_by(request, features),
            None => SyncOwed::Nothing,
        }
    }
}

fn owed_by(request: &Request, features: u64) -> SyncOwed
    ensures owed { result ≡ owed_by features request.now }
    ensures flush { is_flush_owed result ≡ flushes request.now }
{
    if request.flushes() {
        return SyncOwed::Flush;
    }
    if ends_write(request, features) {
        return SyncOwed::EndOfWrite;
    }
    SyncOwed::Nothing
}

/// Whether the next step of the request ends a write of a driver that did not accept FLUSH.
fn ends_write(request: &Request, features: u64) -> bool
    ensures { result ≡ ends_write features request.now }
{
    let Verdict::Good = request.verdict else {
        return false;
    };
    let is_write = matches!(&request.kind, Kind::Out | Kind::Zero);
    request.done == request.units && is_write && features & FLUSH != FLUSH
}
