//! A machine as the calls of its disks outside see it, its RAM here or lent.

ghost use Rattle.std.specs.Prelude.{◌≡◌, ◌<◌, length, map};
ghost use Rattle.machine.specs.Outside.{asking_requests};
ghost use Rattle.machine.specs.Seen.{states_of};

use crate::calls::Asks;
use blk::{Disk, Request};
use machine::{GuestRam, MachineOver};

impl<D: Disk, M: GuestRam> Asks for MachineOver<D, M> {
    ghost asked = { λ m. map asking_requests (states_of m) };

    fn devices(&self) -> usize {
        MachineOver::devices(self).len()
    }

    fn requests(&self, dev: usize) -> &[Request] {
        let _sound = self.shapes();
        MachineOver::devices(self)[dev].state().asking_requests()
    }
}
