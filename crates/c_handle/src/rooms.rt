//! How much a device still takes of what the host puts in.

ghost use Rattle.std.specs.Prelude.{◌≡◌, slice_get};
ghost use Rattle.c_handle.specs.Rooms.{IsRoomOf, RoomsKept, room_of};

use crate::devices::Devices;
use crate::kept::{Kept, by_state};
use c_machine::status::{DONE, NO_DEVICE, WRONG_KIND};
use console::HOST_BYTES_MAX;
use machine::Kind;
use net::most_waiting;

/// How many bytes an input would keep; of a network device, how many frames.
pub fn room(kept: &Kept, dev: u8, room: &mut usize) -> u32
    ensures { RoomsKept kept.now.state dev result room.new room.old }
{
    by_state!(&kept.held;
        still(machine) => room_status(machine, dev, room),
        moving(live) => room_status(live.machine(), dev, room),
        still_lent(parked) => room_status(parked, dev, room),
        moving_lent(live) => room_status(live.machine(), dev, room),
    )
}

fn room_status<M: Devices>(machine: &M, dev: u8, room: &mut usize) -> u32
    ensures { IsRoomOf (slice_get (M.states machine.now) dev) result room.new room.old }
{
    let Some(device) = machine.device(dev) else {
        return NO_DEVICE;
    };
    match room_of(device.kind()) {
        Some(count) => {
            *room = count;
            DONE
        }
        None => WRONG_KIND,
    }
}

/// How much more such a device takes, if it takes anything.
fn room_of(kind: &Kind) -> Option<usize>
    ensures { result ≡ room_of kind.now }
{
    match kind {
        Kind::Network { inbox, .. } => Some(most_waiting(inbox.longest()).saturating_sub(
            inbox.len(),
        )),
        Kind::Block(_) | Kind::Outside(_) => None,
        Kind::Console { held, .. } => Some(HOST_BYTES_MAX - held.len()),
        Kind::Entropy(pool) => Some(HOST_BYTES_MAX - pool.len()),
    }
}
