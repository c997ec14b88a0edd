//! The answers of steps. They hold no bytes, so they are copied: a `Reply` is made of one, and of the buffer, at the end.
//!
//! A step leaves its message in a buffer of the caller (`step_into`), which is cut or grows to it. So a caller that keeps the
//! buffer takes memory only for a message that is longer than all before it. In the definitions a step has one reply, with its
//! bytes; `reply_in` puts the two together.

ghost use Rattle.std.specs.Prelude.{◌≡◌, ℕ, List};
ghost use Rattle.machine.specs.Footprint.{has_published};
ghost use Rattle.machine.specs.Stepped.{looked_reply, reply_in};

use crate::reply::{Refusal, Reply};
use chains::{Done, Served, Unserved};
use guestmem::Bytes;

/// What a machine answers to a step of a device that leaves the bytes of a message in a buffer of the caller. Each answer is that of
/// `Reply` of the same name.
#[derive(Clone, Copy, Debug, PartialEq, Eq)]
pub enum Stepped {
    /// There was nothing to do.
    Idle,

    /// A request was taken.
    Taken,

    /// A request moved by one unit.
    Moved,

    /// The request's sector was bad.
    BadSector,

    /// The disk failed.
    DiskFailed,

    /// A chain was published, with this used length.
    Completed(u32),

    /// A message was sent. Its bytes are in the buffer.
    Sent,

    /// A frame did not fit its chain, and was dropped.
    Dropped,

    /// A chain is malformed: the device asks for a reset.
    NeedsReset,

    /// Memory was refused, and nothing has changed.
    NoMemory,

    /// There is no such device, and nothing has changed.
    Refused(Refusal),
}

impl Stepped {
    /// The answer of a step at a queue, where the call at the queue ended so.
    #[inline(always)]
    pub(crate) fn of_served(served: Result<Served, Unserved>) -> Stepped
        ensures { (sent : List ℕ) → reply_in result sent ≡ looked_reply served sent }
    {
        match served {
            Ok(served) => match served.done {
                Done::Taken => Stepped::Taken,
                Done::Completed(len) => Stepped::Completed(len),
                Done::Sent => Stepped::Sent,
                Done::Dropped => Stepped::Dropped,
            },
            Err(Unserved::Empty) => Stepped::Idle,
            Err(Unserved::Malformed) => Stepped::NeedsReset,
            Err(Unserved::NoMemory) => Stepped::NoMemory,
        }
    }

    /// Whether the step published a chain. Such a step reads the driver's word about interrupts last.
    pub fn has_published(self) -> bool
        ensures { (sent : List ℕ) → result ≡ has_published (reply_in self sent) }
    {
        match self {
            Stepped::Completed(_) | Stepped::Sent => true,
            _ => false,
        }
    }

    /// The reply of the step that left these bytes in the buffer.
    pub fn reply(self, sent: Vec<u8>) -> Reply
        ensures { result ≡ reply_in self sent.items }
    {
        match self {
            Stepped::Idle => Reply::Idle,
            Stepped::Taken => Reply::Taken,
            Stepped::Moved => Reply::Moved,
            Stepped::BadSector => Reply::BadSector,
            Stepped::DiskFailed => Reply::DiskFailed,
            Stepped::Completed(len) => Reply::Completed(len),
            Stepped::Sent => Reply::Sent(Bytes::from_vec(sent)),
            Stepped::Dropped => Reply::Dropped,
            Stepped::NeedsReset => Reply::NeedsReset,
            Stepped::NoMemory => Reply::NoMemory,
            Stepped::Refused(refusal) => Reply::Refused(refusal),
        }
    }
}
