//! The statuses of what is refused by a migration, or as a stream.

ghost use Rattle.std.specs.Prelude.{◌≡◌};
ghost use Rattle.c_handle.specs.Awaited.{stream_status};
ghost use Rattle.c_handle.specs.SendStatus.{mig_status};

use receiver::RecvError;
use sender::MigError;

/// The status of a migration's call that was refused.
pub(crate) fn mig_status(error: MigError) -> u32
    ensures { result ≡ mig_status error }
{
    16 + error.code() as u32
}

/// The status for a stream that is refused for good.
pub(crate) fn stream_status(error: RecvError) -> u32
    ensures { result ≡ stream_status error }
{
    32 + error.code() as u32
}
