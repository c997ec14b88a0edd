//! Disks outside that may have lost what they answered.
//!
//! Such a disk counts as one whose sync failed: from then on no flush of it, and no write or clearing that is durable, is told done, nor is
//! one that was out.

ghost use Rattle.std.specs.Prelude.{◌≡◌, ◌&&◌, not};
ghost use Rattle.disk_calls.specs.Lost.{makes_durable};

use crate::out::is_flush;
use machine::OutsideCall;

/// Whether what the storage answers to a call counts. It does not where the disk is lost and the answer would say that something is durable:
/// such a call failed.
pub fn counts(lost: bool, asked: &OutsideCall) -> bool
    ensures { result ≡ not (lost && makes_durable asked.now) }
{
    !(lost && makes_durable(asked))
}

/// Whether a call that is done says that something is durable.
fn makes_durable(asked: &OutsideCall) -> bool
    ensures { result ≡ makes_durable asked.now }
{
    is_flush(asked.call.what) || asked.durable
}
