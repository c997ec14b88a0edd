//! Why a machine is not made.

ghost use Rattle.std.specs.Prelude.{◌≡◌};
ghost use Rattle.machine.specs.Refusal.{new_code_of};
ghost use Rattle.machine.specs.declared.new_error.NewError.TheVariants as new_error;

use std::alloc::AllocError;
use thiserror::Error;

/// Why a machine is not made, in the order in which it is tested.
#[derive(Clone, Copy, Debug, Drop, PartialEq, Eq, Error)]
pub enum NewError {
    /// The RAM has no page, or more than the limits allow, or the devices are not 1 to 16, or a device is beyond its limits.
    #[error("invalid machine configuration")]
    BadShape,

    /// There are more or fewer disks than block devices, or a disk is not of its device's size.
    #[error("the disks do not match the block devices")]
    DiskMismatch,

    /// Memory was refused.
    #[error("out of memory")]
    NoMemory,
}

impl NewError {
    /// The number that stands for it.
    pub fn code(self) -> u8
        ensures { result ≡ new_code_of self }
    {
        match self {
            NewError::BadShape => 1,
            NewError::DiskMismatch => 2,
            NewError::NoMemory => 3,
        }
    }
}

impl From<AllocError> for NewError {
    ghost from_gives = { λ _ error. error ≡ new_error.NoMemory };

    fn from(_error: AllocError) -> NewError {
        NewError::NoMemory
    }
}
