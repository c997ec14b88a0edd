//! The look at the next chain of a ring.
//!
//! There is one look for all devices. `Wanted` is an enum and no trait, so that there is one for each log. What a device sees
//! is what its step is defined by, so no step has a case for chains that it cannot use.

ghost use Rattle.std.specs.Prelude.{◌≡◌, length, OnOk};
ghost use Rattle.guestmem.specs.Item.{after_all};
ghost use Rattle.guestmem.specs.Rises.{Rises};
ghost use Rattle.guestmem.specs.Writes.{set_all, touched};
ghost use Rattle.chains.specs.Frame.{MayLook, HasLooked};
ghost use Rattle.chains.specs.Ring.{IsBounded};
ghost use Rattle.chains.specs.Look.{fits, LookGives, look_writes, UnlessEmpty};

use crate::chain::Chain;
use crate::next_kind::NextKind;
use crate::ring::Ring;
use crate::served::Unserved;
use crate::transmitting::MessageForm;
use guestmem::{Ram, TouchLog};

/// The chains that a device can use.
#[derive(Clone, Copy, Debug, PartialEq, Eq)]
pub enum Wanted {
    /// Those without a readable byte, and with a writable one.
    Room,

    /// Those with a message in their readable bytes.
    Message(MessageForm),

    /// Those with at least as many readable bytes as this header has, and with a writable one.
    Request(u32),
}

impl Wanted {
    /// Whether the device can use a chain.
    pub(crate) fn fits(self, chain: &Chain) -> bool
        ensures { result ≡ fits self chain.now }
    {
        let (readable, writable) = (chain.readable.total_len(), chain.writable.total_len());
        match self {
            Wanted::Room => readable == 0 && writable != 0,
            Wanted::Message(form) => readable >= form.least as u64 && readable <= form.most as u64,
            Wanted::Request(header) => readable >= header as u64 && writable != 0,
        }
    }
}

/// Looks at the next chain of a ring, and fills it in. If the ring is empty the event note is written. A chain that the device
/// cannot use is malformed, and stays. Memory is refused only at a long queue, and then nothing has changed.
#[inline(always)]
pub fn look<R: Ring, L: TouchLog>(
    ring: &mut R,
    wanted: Wanted,
    chain: &mut Chain,
    ram: &mut Ram,
    log: &mut L,
) -> Result<(), Unserved>
    requires ready { MayLook L.may ram.old (R.state ring.old) (R.decoder ring.old) log.old }
    ensures gives { LookGives wanted ram.old.bytes (R.state ring.old) result chain.new }
    ensures bounded { OnOk result (IsBounded (length ram.old.bytes) (R.state ring.old) chain.new) }
    ensures bytes { ram.new.bytes ≡ set_all ram.old.bytes (look_writes (R.state ring.old) result) }
    ensures log { log.new ≡ after_all L.after log.old (touched (look_writes (R.state ring.old) result)) }
    ensures rises { Rises (touched (look_writes (R.state ring.old) result)) ram.old ram.new }
    ensures state { R.state ring.new ≡ R.state ring.old }
    ensures after { HasLooked L.may ram.old ram.new (R.decoder ring.new) log.new }
    ensures untouched { UnlessEmpty result ((ram.new ≡ ram.old) × (log.new ≡ log.old)) }
{
    match ring.next_into(ram, chain) {
        NextKind::Empty => {
            ring.note_empty(ram, log);
            Err(Unserved::Empty)
        }
        NextKind::Malformed => Err(Unserved::Malformed),
        NextKind::Chain => {
            if !wanted.fits(chain) {
                return Err(Unserved::Malformed);
            }
            Ok(())
        }
        NextKind::NoMemory => Err(Unserved::NoMemory),
    }
}
