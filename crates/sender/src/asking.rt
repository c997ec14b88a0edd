//! A machine that is being migrated as the calls of its disks outside see it, also while its RAM is lent: as its machine, in each phase.
//!
//! The requests of one that is stopped are those of its machine still. Its user does not ask for them: they are the receiver's.

ghost use Rattle.std.specs.Prelude.{◌≡◌, ◌<◌, length, map};
ghost use Rattle.machine.specs.Outside.{asking_requests};
ghost use Rattle.machine.specs.Seen.{states_of};

use crate::live::LiveOver;
use blk::Request;
use disk_calls::Asks;
use machine::{Disk, GuestRam};
use wire::Digesting;

impl<D: Disk, W: Digesting, M: GuestRam> Asks for LiveOver<D, W, M> {
    ghost asked = { λ l. map asking_requests (states_of l.machine) };

    fn devices(&self) -> usize {
        Asks::devices(&self.machine)
    }

    fn requests(&self, dev: usize) -> &[Request] {
        self.machine.requests(dev)
    }
}
