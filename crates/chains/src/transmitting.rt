//! The step that takes bytes of the guest to be sent.
//!
//! One step serves all devices that send: a network device and a console differ in how many bytes a message may have and in how
//! many of them are its header. `MessageForm` has these three numbers.

ghost use Rattle.std.specs.Prelude.{◌≡◌, ◌≤◌, ◌<◌, ◌^◌, length, OnOk};
ghost use Rattle.chains.specs.Frame.{MayLook, HasLooked};
ghost use Rattle.chains.specs.Places.{places, AreSegmentsInside};
ghost use Rattle.chains.specs.Served.{HasRun, bare_scene};
ghost use Rattle.chains.specs.Transmit.{message_of, transmit_step};
ghost use Rattle.chains.specs.declared.looking.Wanted.TheVariants.{Message};

use crate::chain::Chain;
use crate::copy::copy_out_with_base;
use crate::looking::{Wanted, look};
use crate::ring::Ring;
use crate::served::{Done, Served, Unserved};
use crate::site::Site;
use guestmem::{NoMemory, Ram, TouchLog};

/// What the readable bytes of a chain are, for a device that sends them.
#[derive(Clone, Copy, Debug, PartialEq, Eq)]
pub struct MessageForm {
    /// How many of them, at the front, are not sent.
    pub header: u32,

    /// How many there are at least.
    pub least: u32,

    /// How many there are at most.
    pub most: u32,
}

/// Reads the message of the next chain of a ring into a buffer, and publishes the chain. The buffer is cut or grows to the message,
/// and where nothing is sent it may hold anything. Memory may be refused for a long chain, or for a buffer that has to grow, and then
/// RAM, ring and log are as they were.
#[inline(never)]
pub fn transmit<R: Ring, L: TouchLog>(
    site: Site,
    ring: &mut R,
    form: MessageForm,
    message: &mut Vec<u8>,
    ram: &mut Ram,
    log: &mut L,
) -> Result<Served, Unserved>
    requires ready { MayLook L.may ram.old (R.state ring.old) (R.decoder ring.old) log.old }
    requires base { site.base ≡ (R.state ring.old).base }
    requires form { form.header ≤ form.least }
    ensures served { HasRun L.after (bare_scene ram.old log.old (R.state ring.old)) (bare_scene ram.new log.new (R.state ring.new)) (Message form) (transmit_step form) result message.new.items }
    ensures after { HasLooked L.may ram.old ram.new (R.decoder ring.new) log.new }
{
    let mut chain = Chain::new(site.alloc);
    look(ring, Wanted::Message(form), &mut chain, ram, log)?;
    read_message(form.header, &chain, message, site.base, ram)?;
    ring.take(&chain);
    let is_due = ring.publish(chain.id, chain.slots, 0, false, ram, log);
    Ok(Served {
        done: Done::Sent,
        is_due,
    })
}

/// Reads the bytes after the header, with one copy.
#[inline(always)]
fn read_message(
    header: u32,
    chain: &Chain,
    message: &mut Vec<u8>,
    base: u64,
    ram: &Ram,
) -> Result<(), NoMemory>
    requires inside { AreSegmentsInside base (length ram.now.bytes) chain.now.readable }
    requires header { header ≤ length (places chain.now.readable) }
    requires total { length (places chain.now.readable) < 2 ^ 32 }
    ensures { OnOk result (message.new.items ≡ message_of base ram.now.bytes header chain.now) }
{
    let count = chain.readable.total_len() - header as u64;
    message.resize(count as usize, 0)?;
    let segs = chain.readable.as_slice();
    copy_out_with_base(ram, base, segs, header as u64, message.as_mut_slice());
    Ok(())
}
