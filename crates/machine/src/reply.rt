//! What a machine answers.

ghost use Rattle.std.specs.Prelude.{◌≡◌};
ghost use Rattle.machine.specs.Refusal.{code_of};
ghost use Rattle.machine.specs.Step.{ram_refusal};

use guestmem::{Bytes, RamError};

/// Why an event was refused. A refused event changes nothing.
#[derive(Clone, Copy, Debug, PartialEq, Eq)]
pub enum Refusal {
    /// There is no device of this number.
    NoDevice,

    /// The access is outside RAM: it begins below the base or reaches past the end.
    OutOfRam,

    /// The access is of more than 4,096 bytes. This is reported before `OutOfRam`.
    TooLong,

    /// The event does not apply to this kind of device.
    WrongKind,

    /// A frame has fewer than 14 or more than 1,514 bytes.
    BadFrame,
}

impl Refusal {
    /// The number that stands for it in a reply line.
    pub fn code(self) -> u8
        ensures { result ≡ code_of self }
    {
        match self {
            Refusal::NoDevice => 1,
            Refusal::OutOfRam => 2,
            Refusal::TooLong => 3,
            Refusal::WrongKind => 4,
            Refusal::BadFrame => 5,
        }
    }
}

impl From<RamError> for Refusal {
    ghost from_gives = { λ error refusal. refusal ≡ ram_refusal error };

    fn from(error: RamError) -> Refusal {
        match error {
            RamError::OutOfRam => Refusal::OutOfRam,
            RamError::TooLong => Refusal::TooLong,
        }
    }
}

/// What a machine answers to an event.
#[derive(Debug, Drop, PartialEq, Eq)]
pub enum Reply {
    /// What a register read gave.
    Value(u32),

    /// The write is done, whether the register took or ignored it. Likewise what else leaves nothing to be told.
    Done,

    /// The byte that the driver wrote into the emergency register of a console.
    OutByte(u8),

    /// What a read of RAM gave.
    Bytes(Bytes),

    /// The step found nothing to do, or no request awaited the answer of a disk outside.
    Idle,

    /// A block device has taken a request.
    Taken,

    /// A request has moved one unit: a sector, a flush of the disk, or the id. Where its disk is outside, all that the disk answered.
    Moved,

    /// The sector that a request is to read is bad. The request ends with an error.
    BadSector,

    /// The disk failed. The request ends with an error, and a sector that was to be written is bad.
    DiskFailed,

    /// A chain was published with this used length.
    Completed(u32),

    /// A message was taken, and its chain published with length 0: a frame or text.
    Sent(Bytes),

    /// A frame did not fit into the next chain, and was dropped.
    Dropped,

    /// This many bytes of an input were kept: the first ones.
    Accepted(u32),

    /// The chain was malformed. The device asks for a reset, and nothing else has changed.
    NeedsReset,

    /// Memory was refused. Nothing has changed.
    NoMemory,

    /// The event was refused. Nothing has changed.
    Refused(Refusal),
}

impl Reply {
    ghost use Rattle.std.specs.Prelude.{◌≡◌, ℕ, List};
    ghost use Rattle.blk.specs.Outside.{Did, Failed, Gave};
    ghost use Rattle.machine.specs.Outside.{disk_reply};
    ghost use Rattle.machine.specs.Direct.{accepted_reply, done_reply, value_reply, written_result};

    /// The reply to a read of a register.
    pub fn from_value(answer: Result<u32, Refusal>) -> Reply
        ensures { result ≡ value_reply answer }
    {
        match answer {
            Ok(value) => Reply::Value(value),
            Err(refusal) => Reply::Refused(refusal),
        }
    }

    /// The reply to a write of a register: `answer` is the byte that it gives out, if any, or the refusal.
    pub fn from_written(answer: Result<Option<u8>, Refusal>) -> Reply
        ensures { result ≡ written_result answer }
    {
        match answer {
            Ok(Some(byte)) => Reply::OutByte(byte),
            Ok(None) => Reply::Done,
            Err(refusal) => Reply::Refused(refusal),
        }
    }

    /// The reply to an event that is done, or is refused.
    pub fn from_done(answer: Result<(), Refusal>) -> Reply
        ensures { result ≡ done_reply answer }
    {
        match answer {
            Ok(()) => Reply::Done,
            Err(refusal) => Reply::Refused(refusal),
        }
    }

    /// The reply to an input: `answer` is the count of bytes kept, or the refusal.
    pub fn from_accepted(answer: Result<u32, Refusal>) -> Reply
        ensures { result ≡ accepted_reply answer }
    {
        match answer {
            Ok(count) => Reply::Accepted(count),
            Err(refusal) => Reply::Refused(refusal),
        }
    }

    /// The reply to an answer of a disk outside that gave bytes or did something: whether a request awaited it, or the refusal.
    pub fn from_moved(answer: Result<bool, Refusal>) -> Reply
        ensures gave { (bytes : List ℕ) → result ≡ disk_reply (Gave bytes) answer }
        ensures did { (count : ℕ) → result ≡ disk_reply (Did count) answer }
    {
        match answer {
            Ok(true) => Reply::Moved,
            Ok(false) => Reply::Idle,
            Err(refusal) => Reply::Refused(refusal),
        }
    }

    /// The reply to an answer of a disk outside that failed: whether a request waited for it, or the refusal.
    pub fn from_failed(answer: Result<bool, Refusal>) -> Reply
        ensures { result ≡ disk_reply Failed answer }
    {
        match answer {
            Ok(true) => Reply::Done,
            Ok(false) => Reply::Idle,
            Err(refusal) => Reply::Refused(refusal),
        }
    }
}
