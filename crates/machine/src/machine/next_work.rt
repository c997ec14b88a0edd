//! Which step of a device has something to do.
//!
//! The loop of a host is this one call. It reads no RAM, so a queue that is notified is named although it may be empty; the
//! step then clears the flag. In turn are all picks of a device, then the next device, from the step after the last one made:
//! so nobody is left out, and the caller keeps two bytes.

ghost use Rattle.std.specs.Prelude.{◌≡◌, ◌+◌, ◌-◌, ◌*◌, ◌<◌, ◌≤◌, Bool, true, false, None, IfSome, length, map, slice_index_or};
ghost use Rattle.std.specs.List.{find};
ghost use Rattle.machine.specs.NextWork.{HaveNoWork, NoneCanWork, can_work_at, has_work_at, in_turn_after, next_from, next_work, next_work_with_lost};
ghost use Rattle.machine.specs.Seen.{state_of};
ghost use Rattle.machine.specs.Sound.{AreSoundDevices};
ghost use Rattle.machine.specs.declared.machine.TheConstants.{DEVICES_MAX};
ghost use Rattle.machine.specs.declared.work.Work.{Work};

use crate::device::Device;
use crate::machine::Machine;
use crate::work::Work;
use blk::Disk;

/// The first step in turn after the last one that has something to do and may be made, of the devices of a machine.
pub(super) fn next_in_turn<D: Disk>(
    devices: &[Device<D>],
    last: Work,
    lost: &[bool],
) -> Option<Work>
    requires some { 1 ≤ length devices.now }
    requires few { length devices.now ≤ DEVICES_MAX }
    requires sound { AreSoundDevices (map (λ d. d.state) devices.now) }
    ensures { result ≡ next_work_with_lost (map (λ d. d.state) devices.now) lost.now last }
{
    let count = devices.len();
    let (first, pick) = first_in_turn(last, count);
    let mut from = pick;
    // Once around, and then the first device once more, for its picks up to the last one.
    for turn in first..first + count + 1 {
        let dev = device_in_turn(turn, count);
        let device = &devices[dev as usize];
        if let Some(pick) = device.state().first_pick(from, is_lost(lost, dev)) {
            return Some(Work { dev, pick });
        }
        from = 0;
    }
    None
}

/// The device and the pick with which the search begins: the step after the last one, or the first of all.
fn first_in_turn(last: Work, devices: usize) -> (usize, u8)
    requires { devices ≤ DEVICES_MAX }
    ensures there { 0 < devices → result.0 < devices }
    ensures low { result.0 ≤ devices }
    ensures order { (p : Work → Bool) → find p (in_turn_after last devices) ≡ next_from p devices (256 * result.0 + result.1) }
{
    let first = 256 * last.dev as usize + last.pick as usize + 1;
    if first >= 256 * devices {
        return (0, 0);
    }
    (first / 256, (first % 256) as u8)
}

/// The device of a turn: after the last device comes the first one.
fn device_in_turn(turn: usize, devices: usize) -> u8
    requires turn { turn < 2 * devices }
    requires few { devices ≤ DEVICES_MAX }
    ensures there { result < devices }
    ensures before { turn < devices → result ≡ turn }
    ensures around { devices ≤ turn → result ≡ turn - devices }
{
    if turn < devices {
        turn as u8
    } else {
        (turn - devices) as u8
    }
}

/// Whether the disk of a device is lost, by such a list.
fn is_lost(lost: &[bool], dev: u8) -> bool
    ensures { result ≡ slice_index_or lost.now dev false }
{
    match lost.get(dev as usize) {
        Some(lost) => *lost,
        None => false,
    }
}
