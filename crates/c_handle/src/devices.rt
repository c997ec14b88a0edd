//! The devices of a machine, whether its RAM is here or lent: what is asked of them needs none.

use machine::{DeviceState, Disk, GuestRam, MachineOver, Work};

/// A machine, or one whose RAM is lent.
pub(crate) trait Devices {
    ghost use Rattle.std.specs.Prelude.{◌≡◌, IfSome, List, None, Some, slice_get};
    ghost use Rattle.machine.specs.NextWork.{next_work_with_lost};
    ghost use Rattle.machine.specs.State.{DeviceState};

    /// The states of its devices.
    ghost states: { Self → List DeviceState };

    /// The state of a device, if it has one of this number.
    fn device(&self, dev: u8) -> Option<&DeviceState>
        ensures some { IfSome result (λ d. slice_get (states self.now) dev ≡ Some d.now) }
        ensures none { result ≡ None → slice_get (states self.now) dev ≡ None };

    /// The next step that has something to do, where some disks are lost.
    fn next_step(&self, last: Work, lost: &[bool]) -> Option<Work>
        ensures { result ≡ next_work_with_lost (states self.now) lost.now last };
}

impl<D: Disk, M: GuestRam> Devices for MachineOver<D, M> {
    ghost use Rattle.machine.specs.Seen.{states_of};

    ghost states = { λ m. states_of m };

    fn device(&self, dev: u8) -> Option<&DeviceState> {
        if dev as usize >= self.shapes().len() {
            return None;
        }
        Some(self.state(dev))
    }

    fn next_step(&self, last: Work, lost: &[bool]) -> Option<Work> {
        self.next_work_with_lost(last, lost)
    }
}
