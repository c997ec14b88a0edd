//! The calls of disks outside that are out, for a host that lost the number of one, or counts those of a device.

ghost use Rattle.std.specs.Prelude.{◌≡◌, ◌<◌, slice_get};
ghost use Rattle.machine.specs.declared.machine.TheConstants.{DEVICES_MAX};
ghost use Rattle.c_handle.specs.HandedOut.{is_here};
ghost use Rattle.c_handle.specs.Listed.{AreListed, ListsKept, durable_of, listed_call};
ghost use Rattle.c_handle.specs.Outside.{devices_of};

use crate::devices::Devices;
use crate::kept::{Kept, by_state};
use crate::outside::{Call, counted, what_of};
use crate::written::is_here;
use blk::DiskCall;
use c_machine::status::{DONE, NO_MACHINE};
use disk_calls::Listed;

/// Counts the calls that are out, and lists the oldest of them from the front on, as many as there is room for. It takes no memory.
pub fn list_calls(kept: &Kept, calls: &mut [Call], count: &mut usize) -> u32
    ensures { ListsKept kept.now result calls.old calls.new count.new count.old }
{
    if !is_here(kept) {
        return NO_MACHINE;
    }
    *count = kept.calls.count() as usize;
    list_oldest(kept, calls);
    DONE
}

#[tactic(auto, using(crate::proofs::ListedCalls::none_yet, crate::proofs::ListedCalls::ends_full, crate::proofs::ListedCalls::ends_none))]
fn list_oldest(kept: &Kept, calls: &mut [Call])
    ensures { AreListed (devices_of kept.now.state) kept.now.calls calls.old calls.new }
{
    let mut number = 0;
    for at in 0..calls.len() {
        let Some(listed) = kept.calls.oldest_from(number) else {
            return;
        };
        calls[at] = listed_call(kept, listed);
        number = listed.out.number + 1;
    }
}

/// A call that is out, as it was handed out.
fn listed_call(kept: &Kept, listed: Listed) -> Call
    requires { listed.dev < DEVICES_MAX }
    ensures { result ≡ listed_call (devices_of kept.now.state) listed }
{
    let Listed { dev, out } = listed;
    let dev = dev as u8;
    Call {
        number: out.number,
        first: out.call.first,
        count: counted(out.call),
        dev,
        what: what_of(out.call.what),
        durable: durable_in(kept, dev, out.call),
        zero: 0,
        reserved: [0; 2],
    }
}

/// Whether a call of a device has to be durable before it is answered, 1 or 0.
fn durable_in(kept: &Kept, dev: u8, call: DiskCall) -> u8
    ensures { result ≡ durable_of (slice_get (devices_of kept.now.state) dev) call }
{
    by_state!(&kept.held;
        still(machine) => durable_of(machine, dev, call),
        moving(live) => durable_of(live.machine(), dev, call),
        still_lent(parked) => durable_of(parked, dev, call),
        moving_lent(live) => durable_of(live.machine(), dev, call),
        arriving(_) => 0,
    )
}

fn durable_of<M: Devices>(machine: &M, dev: u8, call: DiskCall) -> u8
    ensures { result ≡ durable_of (slice_get (M.states machine.now) dev) call }
{
    match machine.device(dev) {
        Some(device) => device.call_with_durability(call).durable as u8,
        None => 0,
    }
}
