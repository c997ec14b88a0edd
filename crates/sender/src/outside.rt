//! Disks outside of a machine that is being migrated: what they answer.
//!
//! What is asked of them is asked of the machine (`LiveOver::machine`). No sector of such a disk is sent: an answer makes dirty what it writes into
//! RAM, and the requests are sent with the devices, by the stop.

ghost use Rattle.std.specs.Prelude.{◌≡◌};
ghost use Rattle.machine.specs.declared.event.DiskAnswer.TheVariants as answers;
ghost use Rattle.machine.specs.declared.event.Event.TheVariants as events;
ghost use Rattle.sender.specs.Calls.{Serves, guest_reply};
ghost use Rattle.sender.specs.Reads.{HasLiveCalled};

use crate::event::LiveEvent;
use crate::live::LiveOver;
use crate::mig_error::MigError;
use guestmem::Ram;
use machine::{Disk, Reply};
use wire::Digesting;

impl<D: Disk, W: Digesting> LiveOver<D, W, Ram> {
    /// A disk outside gave these bytes, which the request that the pick names awaits (`Machine::disk_gave`). As `apply` of that event, whose bytes
    /// need not be copied.
    #[tactic(auto, using(crate::proofs::Living::guest_refused))]
    pub fn disk_gave(&mut self, dev: u8, pick: u8, bytes: &[u8]) -> Result<Reply, MigError>
        ensures served { Serves self.old (LiveEvent.Guest (events.Disk dev pick (answers.Gave bytes.now))) (guest_reply result) self.new }
        ensures calls { HasLiveCalled D.called self.old (LiveEvent.Guest (events.Disk dev pick (answers.Gave bytes.now))) (guest_reply result) self.new }
    {
        self.running()?;
        let answer = self
            .machine
            .disk_gave_logged(dev, pick, bytes, &mut self.logs.first);
        Ok(Reply::from_moved(answer))
    }
}
