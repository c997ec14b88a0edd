//! The step that gives bytes to the guest.

ghost use Rattle.std.specs.Prelude.{◌≡◌, ℕ, List};
ghost use Rattle.chains.specs.Frame.{MayLook, HasLooked};
ghost use Rattle.chains.specs.Served.{HasRun, scene};
ghost use Rattle.chains.specs.declared.looking.Wanted.TheVariants.{Room};
ghost use Rattle.console.specs.Receive.{receive_step};

use crate::host_bytes::HostBytes;
use chains::{Chain, Done, Ring, Served, Site, Unserved, Wanted, fill_in_parts, look};
use guestmem::{Ram, TouchLog};

/// Gives the first of the bytes held to the next chain, as many as it takes, and publishes it. A malformed chain stays, which one with
/// a readable byte or without a writable one is too.
#[inline(never)]
pub fn receive<R: Ring, L: TouchLog>(
    site: Site,
    ring: &mut R,
    held: &mut HostBytes,
    ram: &mut Ram,
    log: &mut L,
) -> Result<Served, Unserved>
    requires ready { MayLook L.may ram.old (R.state ring.old) (R.decoder ring.old) log.old }
    requires base { site.base ≡ (R.state ring.old).base }
    ensures served { (sent : List ℕ) → HasRun L.after (scene ram.old log.old (R.state ring.old) held.old) (scene ram.new log.new (R.state ring.new) held.new) Room receive_step result sent }
    ensures after { HasLooked L.may ram.old ram.new (R.decoder ring.new) log.new }
{
    let mut chain = Chain::new(site.alloc);
    look(ring, Wanted::Room, &mut chain, ram, log)?;
    let room = chain.writable.total_len();
    let count = room.min(held.len() as u64) as usize;
    let (front, back) = held.as_slices();
    let first = front.len().min(count);
    let (front, back) = (&front[..first], &back[..count - first]);
    let is_due = fill_in_parts(ring, site.base, &chain, front, back, ram, log);
    held.take_out(count);
    Ok(Served {
        done: Done::Completed(count as u32),
        is_due,
    })
}
