//! Register writes that would drop a request whose call is out.
//!
//! Such a write is not made. The host's storage is at work on the call: a write of it that came after a reset would lie over what the driver wrote
//! since, and its answer could meet another request.

ghost use Rattle.std.specs.Prelude.{◌≡◌, ◌&&◌, not, slice_get};
ghost use Rattle.machine.specs.Dropping as machines;
ghost use Rattle.machine.specs.Seen.{states_of};
ghost use Rattle.c_handle.specs.Dropping.{drops_in, drops_out};
ghost use Rattle.c_handle.specs.Mirror.{is_closed};

use crate::kept::{Kept, by_state};
use crate::mirror::has_stopped;
use machine::{Disk, GuestRam};
use sender::LiveOver;
use wire::Digesting;

/// Whether a register write would drop a request of a device with a call out.
pub(crate) fn drops_out(kept: &Kept, dev: u8, off: u32, width: u8, value: u32) -> bool
    ensures { result ≡ drops_out kept.now dev off width value }
{
    kept.calls.is_out_of(dev) && drops_in(kept, dev, off, width, value)
}

/// Whether it would drop requests that may have asked something of a disk outside. A machine that was stopped takes no write.
#[inline(never)]
fn drops_in(kept: &Kept, dev: u8, off: u32, width: u8, value: u32) -> bool
    ensures { result ≡ drops_in kept.now.state dev off width value }
{
    by_state!(&kept.held;
        still(machine) => machine.drops_requests(dev, off, width, value),
        moving(live) => drops_moving(live, dev, off, width, value),
        still_lent(parked) => parked.drops_requests(dev, off, width, value),
        moving_lent(live) => drops_moving(live, dev, off, width, value),
        arriving(_) => false,
    )
}

/// As above, for a machine that is being migrated, its RAM here or lent.
fn drops_moving<D: Disk, W: Digesting, M: GuestRam>(
    live: &LiveOver<D, W, M>,
    dev: u8,
    off: u32,
    width: u8,
    value: u32,
) -> bool
    ensures { result ≡ (not (is_closed live.now.phase) && machines.drops_in (slice_get (states_of live.now.machine) dev) off width value) }
{
    !has_stopped(live.phase()) && live.machine().drops_requests(dev, off, width, value)
}
