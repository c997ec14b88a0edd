//! The guest's reboot.
//!
//! It is no event of its own: it is what each driver does when it resets its device, and what the host does that drops what it put in. So
//! a machine that is being sent is served as by these calls, and nothing is said of a reset that is not said of them.

ghost use Rattle.std.specs.Prelude.{◌≡◌, ◌<◌, ◌≤◌, None, Some, length, slice_get};
ghost use Rattle.machine.specs.declared.machine.TheConstants.{DEVICES_MAX};
ghost use Rattle.machine.specs.declared.shape.Shape.{Shape};
ghost use Rattle.c_handle.specs.Resetting.{AreDone, HasPages, ResetsKept, drops_any, has_input, reset_of, state_refusal, shapes_in, stop_refusal};

use crate::dropping::drops_out;
use crate::kept::{Kept, by_state};
use crate::mirror::has_stopped;
use crate::serving::{drop_input, written};
use c_machine::status::{CALLS_OUT, DONE, NO_MACHINE, STOPPED};
use machine::Shape;
use sender::Phase;

/// The offset of the register Status (VIRTIO 1.2, 4.2.2).
const STATUS: u32 = 0x070;

/// Resets each device in order, and drops what was put in. None is reset where that would drop a request whose call is out.
#[tactic(auto, using(crate::proofs::Resets::refused, crate::proofs::Resets::kept_out, crate::proofs::Resets::was_reset))]
pub fn reset(kept: &mut Kept) -> u32
    ensures resets { ResetsKept kept.old result kept.new.state }
    ensures kind { kept.new ≡ record kept.old { state = kept.new.state } }
{
    if let Some(status) = state_refusal(kept) {
        return status;
    }
    if drops_any(kept) {
        return CALLS_OUT;
    }
    for dev in 0..device_count(kept) {
        reset_device(kept, dev as u8);
    }
    DONE
}

/// Whether the reset of a device would drop a request whose call is out.
#[tactic(auto, using(crate::proofs::Resets::drops_here, crate::proofs::Resets::drops_not_yet, crate::proofs::Resets::drops_none))]
fn drops_any(kept: &Kept) -> bool
    ensures { result ≡ drops_any kept.now }
{
    for dev in 0..device_count(kept) {
        if drops_out(kept, dev as u8, STATUS, 4, 0) {
            return true;
        }
    }
    false
}

/// Why no device is reset and no call of a disk is answered, by the state, if so.
pub(crate) fn state_refusal(kept: &Kept) -> Option<u32>
    ensures { result ≡ state_refusal kept.now.state }
{
    by_state!(&kept.held;
        still(_) => None,
        moving(live) => stop_refusal(live.phase()),
        still_lent(_) => None,
        moving_lent(live) => stop_refusal(live.phase()),
        arriving(_) => Some(NO_MACHINE),
    )
}

/// That a machine was stopped refuses the call, if it was.
pub(crate) fn stop_refusal(phase: Phase) -> Option<u32>
    ensures { result ≡ stop_refusal phase }
{
    if has_stopped(phase) {
        return Some(STOPPED);
    }
    None
}

/// How many devices the machine has.
fn device_count(kept: &Kept) -> usize
    ensures count { result ≡ length (shapes_in kept.now.state) }
    ensures few { result ≤ DEVICES_MAX }
    ensures pages { HasPages kept.now.state }
{
    by_state!(&kept.held;
        still(machine) => machine.shapes().len(),
        moving(live) => live.machine().shapes().len(),
        still_lent(parked) => {
            parked.recall();
            parked.shapes().len()
        },
        moving_lent(live) => {
            live.machine().recall();
            live.machine().shapes().len()
        },
        arriving(_) => 0,
    )
}

/// What a device was made as.
#[tactic(auto, using(crate::proofs::Resets::shape_still, crate::proofs::Resets::shape_moving, crate::proofs::Resets::shape_still_lent, crate::proofs::Resets::shape_moving_lent))]
fn shape_of(kept: &Kept, dev: u8) -> Shape
    requires { dev < length (shapes_in kept.now.state) }
    ensures { slice_get (shapes_in kept.now.state) dev ≡ Some result }
{
    by_state!(&kept.held;
        still(machine) => machine.state(dev).shape(),
        moving(live) => live.machine().state(dev).shape(),
        still_lent(parked) => parked.state(dev).shape(),
        moving_lent(live) => live.machine().state(dev).shape(),
        arriving(_) => unreachable!(),
    )
}

fn reset_device(kept: &mut Kept, dev: u8)
    requires there { dev < length (shapes_in kept.old.state) }
    requires going { state_refusal kept.old.state ≡ None }
    requires pages { HasPages kept.old.state }
    ensures done { (shape : Shape) → slice_get (shapes_in kept.old.state) dev ≡ Some shape → AreDone kept.old.state (reset_of dev shape) kept.new.state }
    ensures shapes { shapes_in kept.new.state ≡ shapes_in kept.old.state }
    ensures going { state_refusal kept.new.state ≡ None }
    ensures pages { HasPages kept.new.state }
    ensures kind { kept.new ≡ record kept.old { state = kept.new.state } }
{
    let shape = shape_of(kept, dev);
    let _wrote = written(kept, dev, STATUS, 4, 0, &mut 0);
    if has_input(shape) {
        let _dropped = drop_input(kept, dev);
    }
}

/// Whether the host puts something into such a device.
fn has_input(shape: Shape) -> bool
    ensures { result ≡ has_input shape }
{
    !matches!(shape, Shape::Block { .. } | Shape::Outside { .. })
}
