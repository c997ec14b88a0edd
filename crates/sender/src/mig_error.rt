//! Why a machine is not sent.

ghost use Rattle.std.specs.Prelude.{◌≡◌};
ghost use Rattle.sender.specs.MigCode.{mig_code_of};
ghost use Rattle.sender.specs.declared.mig_error.MigError.TheVariants as errors;

use thiserror::Error;
use wire::SinkFault;

/// Why a machine is not sent, or a call of its migration is refused.
#[derive(Clone, Copy, Debug, Drop, PartialEq, Eq, Error)]
pub enum MigError {
    /// The migration was not begun.
    #[error("migration not begun")]
    NotBegun,

    /// The migration was begun before.
    #[error("migration already begun")]
    AlreadyBegun,

    /// The disk of a device failed as this sector was read from it.
    #[error("disk I/O error")]
    DiskFailed {
        /// The number of the device.
        dev: u8,

        /// The number of the sector on its disk.
        sector: u32,
    },

    /// The writer failed, now or before.
    #[error("write error")]
    StreamFailed,

    /// The machine was stopped, and its stream is closed.
    #[error("machine already stopped")]
    AlreadyStopped,

    /// The round counter is exhausted: no round after this one has a number.
    #[error("round counter exhausted")]
    RoundsEnded,
}

impl MigError {
    /// The number of this error.
    pub fn code(self) -> u8
        ensures { result ≡ mig_code_of self }
    {
        match self {
            MigError::NotBegun => 1,
            MigError::AlreadyBegun => 2,
            MigError::DiskFailed { .. } => 3,
            MigError::StreamFailed => 4,
            MigError::AlreadyStopped => 5,
            MigError::RoundsEnded => 6,
        }
    }
}

impl From<SinkFault> for MigError {
    ghost from_gives = { λ _ error. error ≡ errors.StreamFailed };

    fn from(_fault: SinkFault) -> MigError {
        MigError::StreamFailed
    }
}
