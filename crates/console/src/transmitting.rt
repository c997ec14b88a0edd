//! The step that takes text of the guest.
//!
//! Text of no bytes is sent like any other, and its chain is published.

ghost use Rattle.std.specs.Prelude.{◌≡◌, ◌≤◌};
ghost use Rattle.chains.specs.Frame.{MayLook, HasLooked};
ghost use Rattle.chains.specs.Served.{HasRun, bare_scene};
ghost use Rattle.chains.specs.Transmit.{transmit_step};
ghost use Rattle.chains.specs.declared.looking.Wanted.TheVariants.{Message};
ghost use Rattle.console.specs.Transmit.{text_form};

use chains::{MessageForm, Ring, Served, Site, Unserved};
use guestmem::{Ram, TouchLog};

/// The most bytes of text that one chain may hold.
pub(crate) const TEXT_MAX: u32 = 65_536;

/// Text has no header, and may be of no bytes (VIRTIO 1.2, 5.3.6).
const TEXT: MessageForm = MessageForm {
    header: 0,
    least: 0,
    most: TEXT_MAX,
};

/// Reads all the text of the next chain of the transmit queue, and publishes the chain. Memory may be refused for a long chain, or for
/// the text.
#[inline(always)]
pub fn transmit<R: Ring, L: TouchLog>(
    site: Site,
    ring: &mut R,
    message: &mut Vec<u8>,
    ram: &mut Ram,
    log: &mut L,
) -> Result<Served, Unserved>
    requires ready { MayLook L.may ram.old (R.state ring.old) (R.decoder ring.old) log.old }
    requires base { site.base ≡ (R.state ring.old).base }
    ensures served { HasRun L.after (bare_scene ram.old log.old (R.state ring.old)) (bare_scene ram.new log.new (R.state ring.new)) (Message text_form) (transmit_step text_form) result message.new.items }
    ensures after { HasLooked L.may ram.old ram.new (R.decoder ring.new) log.new }
{
    chains::transmit(site, ring, TEXT, message, ram, log)
}
