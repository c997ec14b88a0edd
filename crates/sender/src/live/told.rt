//! A migration whose digest is told by whoever takes its bytes.
//!
//! The library digests nothing then. The stop closes the stream as ever, and as a writer holds the record of the digest at once; all but that
//! record can be taken. Whoever took it tells the digest, and then takes the record.

ghost use Rattle.std.specs.Prelude.{◌≡◌, ◌-◌, ◌++◌, IfErr, IfOk, Some, [], drop, false, length, min, take, true};
ghost use Rattle.dirtylog.specs.Members.{HasNone};
ghost use Rattle.wire.specs.Sinks.{Covers, over_writer};
ghost use Rattle.wire.specs.Telling.{EndsIn, EndsInstead, is_owed, out_of, owed_len};
ghost use Rattle.sender.specs.LiveState.{HasPlaces};

use crate::live::{LiveOver, LiveTold, make_room};
use crate::phase::Phase;
use guestmem::Ram;
use machine::{Disk, GuestRam, Machine};
use std::alloc::{AllocError, Global};
use wire::Told;

impl<D: Disk> LiveOver<D, Told, Ram> {
    /// A machine of which nothing is sent yet. Fails only if memory is refused.
    pub fn new(alloc: Global, machine: Machine<D>) -> Result<LiveTold<D>, (AllocError, Machine<D>)>
        ensures machine { IfOk result (λ l. l.machine ≡ machine) }
        ensures fresh { IfOk result (λ l. l.phase ≡ Phase.Fresh) }
        ensures empty { IfOk result (λ l. HasNone l.due × HasNone l.dirty) }
        ensures digest { IfOk result (λ l. Covers l.digest []) }
        ensures places { IfOk result (λ l. HasPlaces l) }
        ensures out { IfOk result (λ l. l.out ≡ over_writer (Some []) 0 false) }
        ensures err { IfErr result (λ e. e.1 ≡ machine) }
    {
        let Ok((due, dirty)) = make_room(alloc, &machine) else {
            return Err((AllocError, machine));
        };
        Ok(LiveOver::fresh(machine, Told::new(alloc), due, dirty))
    }

    /// The machine and the writer, as they are.
    pub fn into_parts(self) -> (Machine<D>, Told)
        ensures machine { result.0 ≡ self.machine }
        ensures out { out_of result.1 ≡ self.out }
    {
        self.parts()
    }
}

impl<D: Disk, M: GuestRam> LiveOver<D, Told, M> {
    /// Whether the digest is to be told: the stream was closed, and the record that closes it cannot be taken yet.
    pub fn owes(&self) -> bool
        ensures { result ≡ is_owed self.now.digest }
    {
        self.writer.owes()
    }

    /// Takes the first of the bytes that wait, as `Told::take` does: all but the record that closes the stream while its digest is owed. No
    /// call depends on what the writer holds (`laws::calls_ignore_what_was_taken`), so bytes may be taken between two calls.
    #[tactic(auto, using(wire::proofs::ToldSinks::took_count, wire::proofs::ToldSinks::took_front, wire::proofs::ToldSinks::took_left, wire::proofs::ToldSinks::took_sum))]
    pub fn take(&mut self, buf: &mut [u8]) -> usize
        ensures count { result ≡ min (length buf.old) (length self.old.out.held - owed_len (is_owed self.old.digest)) }
        ensures taken { buf.new ≡ take result self.old.out.held ++ drop result buf.old }
        ensures left { self.new ≡ record self.old { out = over_writer (Some (drop result self.old.out.held)) 0 false } }
    {
        self.writer.take(buf)
    }

    /// The digest of all bytes before the record that closes the stream: the one that this record holds. The record can be taken then; what is
    /// held stays the same. It takes no memory.
    #[tactic(auto, using(wire::proofs::ToldSinks::same_state, wire::proofs::ToldSinks::owed_digest))]
    pub fn tell(&mut self, digest: &[u8; 32])
        requires owed { is_owed self.old.digest ≡ true }
        requires digest { EndsIn self.old.out.held digest.now }
        ensures told { is_owed self.new.digest ≡ false }
        ensures rest { self.new ≡ record self.old { digest = self.new.digest } }
    {
        self.writer.tell(digest)
    }

    /// As `tell`, for a caller who cannot prove whose digest it is: nobody compares it here. The record that closes the stream has this one, and
    /// whoever receives the stream refuses a wrong one.
    #[tactic(auto, using(wire::proofs::ToldSinks::told_ends, wire::proofs::ToldSinks::told_out))]
    pub fn tell_on_trust(&mut self, digest: &[u8; 32])
        requires owed { is_owed self.old.digest ≡ true }
        ensures told { is_owed self.new.digest ≡ false }
        ensures record { EndsInstead self.old.out.held digest.now self.new.out.held }
        ensures rest { self.new ≡ record self.old { digest = self.new.digest; out = record self.old.out { held = self.new.out.held } } }
    {
        self.writer.tell_on_trust(digest)
    }
}
