//! The step that takes a frame of the guest.

ghost use Rattle.std.specs.Prelude.{◌≡◌, ◌≤◌};
ghost use Rattle.chains.specs.Frame.{MayLook, HasLooked};
ghost use Rattle.chains.specs.Served.{HasRun, bare_scene};
ghost use Rattle.chains.specs.Transmit.{transmit_step};
ghost use Rattle.chains.specs.declared.looking.Wanted.TheVariants.{Message};
ghost use Rattle.net.specs.Transmit.{frame_form};

use crate::header::HEADER_SIZE;
use crate::limits::FRAME_MIN;
use chains::{MessageForm, Ring, Served, Site, Unserved};
use guestmem::{Ram, TouchLog};

/// A frame follows its header (VIRTIO 1.2, 5.1.6.2).
#[inline(always)]
fn frame_form(longest: u16) -> MessageForm
    ensures { result ≡ frame_form longest }
{
    MessageForm {
        header: HEADER_SIZE as u32,
        least: (HEADER_SIZE + FRAME_MIN) as u32,
        most: HEADER_SIZE as u32 + longest as u32,
    }
}

/// Reads the frame of the next chain of the transmit queue, whose longest has `longest` bytes, and publishes the chain. Memory may be
/// refused for a long chain, or for the frame.
#[inline(always)]
pub fn transmit<R: Ring, L: TouchLog>(
    site: Site,
    ring: &mut R,
    longest: u16,
    message: &mut Vec<u8>,
    ram: &mut Ram,
    log: &mut L,
) -> Result<Served, Unserved>
    requires ready { MayLook L.may ram.old (R.state ring.old) (R.decoder ring.old) log.old }
    requires base { site.base ≡ (R.state ring.old).base }
    ensures served { HasRun L.after (bare_scene ram.old log.old (R.state ring.old)) (bare_scene ram.new log.new (R.state ring.new)) (Message (frame_form longest)) (transmit_step (frame_form longest)) result message.new.items }
    ensures after { HasLooked L.may ram.old ram.new (R.decoder ring.new) log.new }
{
    chains::transmit(site, ring, frame_form(longest), message, ram, log)
}
