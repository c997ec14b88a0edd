//! Emptying what rings keep of descriptors, when a driver has written a register.
//!
//! By the definitions this changes no answer, so `forget` has a clause of its own for which places are emptied.

ghost use Rattle.std.specs.Prelude.{◌≡◌, ◌+◌, ◌*◌, ◌<◌, ◌≤◌, length};
ghost use Rattle.guestmem.specs.Memory.{Memory};
ghost use Rattle.machine.specs.Rings.{FitAll, empties, emptied_at, forgotten};
ghost use Rattle.machine.specs.declared.any_ring.AnyRing.{AnyRing};

use crate::any_ring::AnyRing;
use mmio::{Effect, QUEUE_COUNT_MAX};

/// Has the rings of a device keep no descriptor any more, by the effect of a register write: all of them at a reset, that of a queue at
/// its QueueReady 0 and QueueReady 1.
pub(crate) fn forget(rings: &mut Vec<AnyRing>, device: u8, effect: Effect)
    requires { QUEUE_COUNT_MAX * device + QUEUE_COUNT_MAX ≤ length rings.old.items }
    ensures rings { (any : AnyRing) → rings.new.items ≡ forgotten device effect any rings.old.items }
    ensures fit { (ram : Memory) → FitAll rings.old.items ram → FitAll rings.new.items ram }
    ensures each { length rings.new.items ≡ length rings.old.items }
{
    let first = QUEUE_COUNT_MAX * device as usize;
    forget_at(rings, first, empties(effect, 0));
    forget_at(rings, first + 1, empties(effect, 1));
}

/// Has all rings keep no descriptor any more: what they keep then fits every RAM.
pub(crate) fn forget_all(rings: &mut Vec<AnyRing>)
    ensures fit { (ram : Memory) → FitAll rings.new.items ram }
    ensures each { length rings.new.items ≡ length rings.old.items }
{
    for n in 0..rings.len() {
        rings[n].forget();
    }
}

/// Has one ring keep no descriptor any more, if that is to be done.
fn forget_at(rings: &mut Vec<AnyRing>, place: usize, does: bool)
    requires { place < length rings.old.items }
    ensures rings { (any : AnyRing) → rings.new.items ≡ emptied_at does place any rings.old.items }
    ensures fit { (ram : Memory) → FitAll rings.old.items ram → FitAll rings.new.items ram }
    ensures each { length rings.new.items ≡ length rings.old.items }
{
    if does {
        rings[place].forget();
    }
}

/// Whether an effect has the ring of a queue keep no descriptor any more.
fn empties(effect: Effect, queue: u8) -> bool
    ensures { result ≡ empties effect queue }
{
    match effect {
        Effect::Reset => true,
        Effect::Enabled(number) | Effect::Disabled(number) => number == queue,
        Effect::None | Effect::Notified(_) | Effect::ConfigWrite => false,
    }
}
