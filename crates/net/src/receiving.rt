//! The step that gives frames to the guest.

ghost use Rattle.std.specs.Prelude.{◌≡◌, ◌<◌, ℕ, List, length};
ghost use Rattle.chains.specs.Frame.{MayLook, HasLooked};
ghost use Rattle.chains.specs.Served.{HasRun, scene};
ghost use Rattle.chains.specs.declared.looking.Wanted.TheVariants.{Room};
ghost use Rattle.net.specs.Receive.{receive_step};

use crate::inbox::Inbox;
use chains::{Chain, Done, Ring, Served, Site, Unserved, Wanted, fill, look};
use guestmem::{Ram, TouchLog};

/// Gives a header, followed by the oldest frame, to the next chain, and publishes it. A frame that does not fit is dropped, and its
/// chain stays; where the chain is malformed, which one with a readable byte or without a writable one is too, the frame stays.
#[inline(never)]
pub fn receive<R: Ring, L: TouchLog>(
    site: Site,
    ring: &mut R,
    inbox: &mut Inbox,
    ram: &mut Ram,
    log: &mut L,
) -> Result<Served, Unserved>
    requires ready { MayLook L.may ram.old (R.state ring.old) (R.decoder ring.old) log.old }
    requires base { site.base ≡ (R.state ring.old).base }
    requires waiting { 0 < length inbox.old.frames }
    ensures served { (sent : List ℕ) → HasRun L.after (scene ram.old log.old (R.state ring.old) inbox.old.frames) (scene ram.new log.new (R.state ring.new) inbox.new.frames) Room receive_step result sent }
    ensures longest { inbox.new.longest ≡ inbox.old.longest }
    ensures after { HasLooked L.may ram.old ram.new (R.decoder ring.new) log.new }
{
    let mut chain = Chain::new(site.alloc);
    look(ring, Wanted::Room, &mut chain, ram, log)?;
    let frame = inbox.first_with_header();
    let len = frame.len();
    if chain.writable.total_len() < len as u64 {
        inbox.remove_first();
        return Ok(Served {
            done: Done::Dropped,
            is_due: false,
        });
    }
    let is_due = fill(ring, site.base, &chain, frame, ram, log);
    inbox.remove_first();
    Ok(Served {
        done: Done::Completed(len as u32),
        is_due,
    })
}
