//! Why the body of a device is not read.

ghost use Rattle.wire.specs.declared.decode_error.DecodeError.TheVariants as errors;
ghost use Rattle.std.specs.Prelude.{◌≡◌};

use std::alloc::AllocError;
use thiserror::Error;

/// Why the body of a device is not read.
#[derive(Clone, Copy, Debug, Drop, PartialEq, Eq, Error)]
pub enum DecodeError {
    /// The bytes are not a valid body of a device of this shape.
    #[error("invalid device body")]
    BadBody,

    /// Memory was refused.
    #[error("out of memory")]
    NoMemory,
}

impl From<AllocError> for DecodeError {
    ghost from_gives = { λ _ error. error ≡ errors.NoMemory };

    fn from(_error: AllocError) -> DecodeError {
        DecodeError::NoMemory
    }
}
