//! The numbers of `specs/Status`, and the statuses of answers.
//!
//! A status is one number with one meaning, and all of them are here; the machine's refusals have the numbers of their reply lines. From
//! 1 to 63 nothing has changed, so one test tells all refusals. Two kinds change something all the same: 20, after which a send has
//! failed for good, and the refusal of a stream as it arrives, after which no more of it is taken.

ghost use Rattle.std.specs.Prelude.{◌≡◌, ◌≤◌, length, List, ℕ};
ghost use Rattle.machine.specs.Direct.{value_reply, done_reply, bytes_reply, accepted_reply, written_result};
ghost use Rattle.machine.specs.Refusal.{code_of};
ghost use Rattle.machine.specs.Stepped.{reply_in};
ghost use Rattle.c_machine.specs.Status.{status_of};
ghost use Rattle.c_machine.specs.Status.{number_of};

use machine::{Refusal, Reply, Stepped};

pub const DONE: u32 = 0;

pub const NO_DEVICE: u32 = 1;

pub const OUT_OF_RAM: u32 = 2;

pub const TOO_LONG: u32 = 3;

pub const WRONG_KIND: u32 = 4;

pub const NO_SECTOR: u32 = 7;

pub const NO_MACHINE: u32 = 8;

pub const IN_USE: u32 = 9;

pub const NO_MEMORY: u32 = 10;

pub const TOO_SMALL: u32 = 11;

pub const BAD_SHAPE: u32 = 12;

pub const BAD_IMAGES: u32 = 15;

pub const NOT_SENDING: u32 = 17;

pub const SENDING: u32 = 18;

pub const SEND_FAILED: u32 = 20;

pub const STOPPED: u32 = 21;

pub const LENT: u32 = 23;

pub const NOT_LENT: u32 = 24;

pub const NOT_YOURS: u32 = 25;

pub const BAD_RAM: u32 = 26;

pub const NOT_KNOWN: u32 = 27;

pub const NOT_OUT: u32 = 28;

pub const CALLS_OUT: u32 = 29;

pub const BAD_BASE: u32 = 30;

pub const NOT_ASKED: u32 = 31;

pub const NOT_NEXT: u32 = 32;

pub const STREAM_MISMATCH: u32 = 36;

pub const STREAM_FAILED: u32 = 48;

pub const STREAM_TOO_LARGE: u32 = 49;

pub const IDLE: u32 = 65;

pub const TAKEN: u32 = 66;

pub const MOVED: u32 = 67;

pub const BAD_SECTOR: u32 = 68;

pub const DISK_FAILED: u32 = 69;

pub const COMPLETED: u32 = 70;

pub const SENT: u32 = 71;

pub const DROPPED: u32 = 72;

pub const NEEDS_RESET: u32 = 73;

pub const ROUND_DONE: u32 = 76;

pub const ROUND_OPEN: u32 = 77;

pub const WORK: u32 = 78;

pub const MORE: u32 = 79;

pub const SYNC: u32 = 80;

pub const CALL: u32 = 81;

pub const WHOLE: u32 = 82;

pub const DIGEST_DUE: u32 = 83;

pub const SECTORS: u32 = 84;

/// The status of an event that was refused.
pub fn refused(refusal: Refusal) -> u32
    ensures { result ≡ code_of refusal }
{
    refusal.code() as u32
}

/// The status of a register read or an input; on success `number` becomes the value, or the count of bytes accepted.
pub fn answer_status(answer: Result<u32, Refusal>, number: &mut u32) -> u32
    ensures value_status { result ≡ status_of (value_reply answer) }
    ensures value { number.new ≡ number_of (value_reply answer) number.old }
    ensures accepted_status { result ≡ status_of (accepted_reply answer) }
    ensures accepted { number.new ≡ number_of (accepted_reply answer) number.old }
{
    match answer {
        Ok(told) => {
            *number = told;
            DONE
        }
        Err(refusal) => refused(refusal),
    }
}

/// The status of a register write. If a byte came out, `number` becomes that byte.
pub fn written_status(answer: Result<Option<u8>, Refusal>, number: &mut u32) -> u32
    ensures status { result ≡ status_of (written_result answer) }
    ensures number { number.new ≡ number_of (written_result answer) number.old }
{
    match answer {
        Ok(Some(byte)) => {
            *number = byte as u32;
            DONE
        }
        Ok(None) => DONE,
        Err(refusal) => refused(refusal),
    }
}

/// The status of a call that returns no number.
pub fn done_status(answer: Result<(), Refusal>) -> u32
    ensures done { result ≡ status_of (done_reply answer) }
    ensures bytes { (bytes : List ℕ) → result ≡ status_of (bytes_reply answer bytes) }
{
    match answer {
        Ok(()) => DONE,
        Err(refusal) => refused(refusal),
    }
}

/// The status of an answer to a step.
pub fn step_status(stepped: Stepped) -> u32
    ensures { (sent : List ℕ) → result ≡ status_of (reply_in stepped sent) }
{
    match stepped {
        Stepped::Idle => IDLE,
        Stepped::Taken => TAKEN,
        Stepped::Moved => MOVED,
        Stepped::BadSector => BAD_SECTOR,
        Stepped::DiskFailed => DISK_FAILED,
        Stepped::Completed(_) => COMPLETED,
        Stepped::Sent => SENT,
        Stepped::Dropped => DROPPED,
        Stepped::NeedsReset => NEEDS_RESET,
        Stepped::NoMemory => NO_MEMORY,
        Stepped::Refused(refusal) => refused(refusal),
    }
}

/// The status of a reply.
pub fn status_of(reply: &Reply) -> u32
    ensures { result ≡ status_of reply.now }
{
    match reply {
        Reply::Value(_) | Reply::Done | Reply::OutByte(_) | Reply::Bytes(_) | Reply::Accepted(_) =>
            DONE,
        Reply::Idle => IDLE,
        Reply::Taken => TAKEN,
        Reply::Moved => MOVED,
        Reply::BadSector => BAD_SECTOR,
        Reply::DiskFailed => DISK_FAILED,
        Reply::Completed(_) => COMPLETED,
        Reply::Sent(_) => SENT,
        Reply::Dropped => DROPPED,
        Reply::NeedsReset => NEEDS_RESET,
        Reply::NoMemory => NO_MEMORY,
        Reply::Refused(refusal) => refused(*refusal),
    }
}
