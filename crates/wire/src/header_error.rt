//! Why the header of a stream is not read.

ghost use Rattle.wire.specs.declared.header_error.HeaderError.TheVariants as errors;
ghost use Rattle.std.specs.Prelude.{◌≡◌};

use std::alloc::AllocError;
use thiserror::Error;

/// Why the header of a stream is not read: its first fault, which is reported at the byte that shows it, or memory was refused.
#[derive(Clone, Copy, Debug, Drop, PartialEq, Eq, Error)]
pub enum HeaderError {
    /// The bytes do not begin with "VMIG". Reported at the fourth byte.
    #[error("bad magic: not a machine stream")]
    BadMagic,

    /// There is no such version, or it is 3 and the limits allow no device that only version 3 has, reported at the eighth byte; or it is
    /// 3 and the machine has no such device, reported at the end of the header.
    #[error("unsupported stream version")]
    BadVersion,

    /// There is no page, or there are more than the limits allow, or the devices are not 1 to 16, reported at the sixteenth byte; or the
    /// number of a kind of device is unknown, reported at that number; or a shape is invalid or beyond the limits, reported at the
    /// shape's end.
    #[error("invalid machine configuration")]
    BadShape,

    /// Memory was refused.
    #[error("out of memory")]
    NoMemory,
}

impl From<AllocError> for HeaderError {
    ghost from_gives = { λ _ error. error ≡ errors.NoMemory };

    fn from(_error: AllocError) -> HeaderError {
        HeaderError::NoMemory
    }
}
