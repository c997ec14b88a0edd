//! A ring, by what it means.
//!
//! `next_into` is provided over `next`, so a ring needs `next`, `take`, `publish`, `note_empty`, `decoded` and `positions`
//! alone. The rings of these crates have their own `next_into`, which moves no chain.
//!
//! `publish` is told whether bytes were written, beside their count: the count is of bytes from the front, and a device may
//! write after bytes that it leaves.

ghost use Rattle.std.specs.Prelude.{◌≡◌, ◌+◌, ◌≤◌, length, IfOk, OnErr};
ghost use Rattle.guestmem.specs.Item.{after_all};
ghost use Rattle.guestmem.specs.Rises.{Rises};
ghost use Rattle.guestmem.specs.Writes.{set_all, touched};
ghost use Rattle.chains.specs.Decoder.{DecoderState, Fits};
ghost use Rattle.chains.specs.State.{RingState, HasAreas};
ghost use Rattle.chains.specs.Frame.{MayServe, HasServed};
ghost use Rattle.chains.specs.Publish.{published, event_note, is_interrupt_due, after_take, after_publish};
ghost use Rattle.chains.specs.Ring.{Answers, IsBoundedNext};
ghost use Rattle.chains.specs.LongQueue.{IsLongQueue};
ghost use Rattle.chains.specs.Gives.{Gives, GivesBounded};

use crate::chain::Chain;
use crate::next::Next;
use crate::next_kind::NextKind;
use crate::position::Positions;
use guestmem::{NoMemory, Ram, TouchLog};

/// A ring of either layout, through which a driver hands chains to a device and gets them back.
///
/// The ring itself is its positions, where its areas lie, and a `Decoder`: what it holds is in guest memory, and what the
/// decoder keeps of it is used only while it is unchanged there. The caller's conditions on RAM are that the areas are aligned
/// and lie inside it, and where the ring looks for a chain, that what it keeps fits (`Fits`): the RAM is the one that it saw
/// last, or a later state of it. A new ring keeps nothing, so every RAM fits.
pub trait Ring {
    /// The layout, the queue and the positions.
    ghost state: { Self → RingState };

    /// What it has decoded, and what it keeps of that.
    ghost decoder: { Self → DecoderState };

    /// What is at the taking position. The state of the ring stays as it was, so asking again on the same RAM gives the
    /// same answer. A chain, whatever the driver wrote, is bounded: its segments lie inside RAM. The only error is out
    /// of memory, which comes only after more than `SHORT_CHAIN_MAX` descriptors. Whatever RAM holds, it decodes at most one
    /// descriptor more than there are slots.
    fn next(&mut self, ram: &Ram) -> Result<Next, NoMemory>
        requires areas { HasAreas (length ram.now.bytes) (state self.old) }
        requires fits { Fits (decoder self.old) ram.now }
        ensures answer { IfOk result (Answers ram.now.bytes (state self.old)) }
        ensures bounded { IfOk result (IsBoundedNext (length ram.now.bytes) (state self.old)) }
        ensures memory { OnErr result (IsLongQueue ram.now.bytes (state self.old)) }
        ensures state { state self.new ≡ state self.old }
        ensures fits { Fits (decoder self.new) ram.now }
        ensures few { (decoder self.new).decoded ≤ (decoder self.old).decoded + ((state self.old).size + 1) }
        ensures rises { (decoder self.old).decoded ≤ (decoder self.new).decoded };

    /// As `next`, with the chain filled in where the caller has it. What the chain held before makes no difference; where
    /// there is no chain, it may hold anything afterwards. A ring that fills in a chain in place has a body of its own, by which no
    /// chain is moved.
    fn next_into(&mut self, ram: &Ram, chain: &mut Chain) -> NextKind
        requires areas { HasAreas (length ram.now.bytes) (state self.old) }
        requires fits { Fits (decoder self.old) ram.now }
        ensures gives { Gives ram.now.bytes (state self.old) result chain.new }
        ensures bounded { GivesBounded (length ram.now.bytes) (state self.old) result chain.new }
        ensures state { state self.new ≡ state self.old }
        ensures fits { Fits (decoder self.new) ram.now }
        ensures few { (decoder self.new).decoded ≤ (decoder self.old).decoded + ((state self.old).size + 1) }
        ensures rises { (decoder self.old).decoded ≤ (decoder self.new).decoded }
    {
        match self.next(ram) {
            Ok(Next::Empty) => NextKind::Empty,
            Ok(Next::Malformed) => NextKind::Malformed,
            Ok(Next::Chain(found)) => {
                *chain = found;
                NextKind::Chain
            }
            Err(NoMemory) => NextKind::NoMemory,
        }
    }

    /// Takes the chain that `next` found: the taking position advances.
    fn take(&mut self, chain: &Chain)
        requires slots { chain.now.slots ≤ (state self.old).size }
        ensures state { state self.new ≡ after_take (state self.old) chain.now.slots }
        ensures decoder { decoder self.new ≡ decoder self.old };

    /// Hands a chain back to the driver, with the number of bytes written into it and whether there are any. The used
    /// position advances. The result is whether an interrupt is due, by what the driver asks for once all is written.
    fn publish<L: TouchLog>(
        &mut self,
        id: u16,
        slots: u16,
        len: u32,
        wrote: bool,
        ram: &mut Ram,
        log: &mut L,
    ) -> bool
        requires ready { MayServe L.may (length ram.old.bytes) (state self.old) log.old }
        requires slots { slots ≤ (state self.old).size }
        ensures bytes { ram.new.bytes ≡ set_all ram.old.bytes (published (state self.old) id slots len wrote) }
        ensures log { log.new ≡ after_all L.after log.old (touched (published (state self.old) id slots len wrote)) }
        ensures rises { Rises (touched (published (state self.old) id slots len wrote)) ram.old ram.new }
        ensures after { HasServed L.may ram.old ram.new log.new }
        ensures state { state self.new ≡ after_publish (state self.old) slots }
        ensures decoder { decoder self.new ≡ decoder self.old }
        ensures due { result ≡ is_interrupt_due (state self.old) slots ram.new.bytes };

    /// Called on a ring found empty: writes for the driver at which chain the device wants to be notified (VIRTIO 1.2,
    /// 2.7.10 and 2.8.10). Without event indexes it writes nothing.
    fn note_empty<L: TouchLog>(&mut self, ram: &mut Ram, log: &mut L)
        requires ready { MayServe L.may (length ram.old.bytes) (state self.old) log.old }
        ensures bytes { ram.new.bytes ≡ set_all ram.old.bytes (event_note (state self.old)) }
        ensures log { log.new ≡ after_all L.after log.old (touched (event_note (state self.old))) }
        ensures rises { Rises (touched (event_note (state self.old))) ram.old ram.new }
        ensures after { HasServed L.may ram.old ram.new log.new }
        ensures state { state self.new ≡ state self.old }
        ensures decoder { decoder self.new ≡ decoder self.old };

    /// The number of descriptors, of the queue's own table and of indirect tables, that this ring has decoded from RAM since
    /// it was made. It stays at its greatest value.
    fn decoded(&self) -> u64
        ensures { result ≡ (decoder self.now).decoded };

    /// The positions.
    fn positions(&self) -> Positions
        ensures { result ≡ record { taking = (state self.now).taking; used = (state self.now).used } };
}
