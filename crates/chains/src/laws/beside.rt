//! Laws of what is read of RAM. Two RAMs of one length that agree in the bytes of these pieces give the same, whatever they hold elsewhere:
//! so a host whose guest runs may serve a queue over a copy of these bytes alone. No law asks anything of what the driver wrote.

ghost use Rattle.std.specs.Prelude.{◌≡◌, ℕ, List, drop, false, length};
ghost use Rattle.chains.specs.Footprint.{AgreeAt, AgreeOn, HoldsAt, event_piece, look_pieces, place_pieces, quiet_word};
ghost use Rattle.chains.specs.Look.{Sees};
ghost use Rattle.chains.specs.Places.{places};
ghost use Rattle.chains.specs.Publish.{after_take, is_interrupt_due};
ghost use Rattle.chains.specs.ReceiveBuffer.{give};
ghost use Rattle.chains.specs.Ring.{Answers};
ghost use Rattle.chains.specs.Served.{MayRefuse};
ghost use Rattle.chains.specs.State.{RingState};
ghost use Rattle.chains.specs.Transmit.{send};
ghost use Rattle.chains.specs.declared.chain.Chain.{Chain};
ghost use Rattle.chains.specs.declared.looking.Wanted.{Wanted};
ghost use Rattle.chains.specs.declared.next.Next.{Next};

/// What a queue of either layout answers is read in the pieces of a look, and these are the same by either RAM.
pub fn looks_are_local()
    ensures answers { (a b : List ℕ) (q : RingState) (seen : Next) → length a ≡ length b → AgreeOn a b (look_pieces a q) → Answers a q seen → Answers b q seen }
    ensures pieces { (a b : List ℕ) (q : RingState) → length a ≡ length b → AgreeOn a b (look_pieces a q) → look_pieces a q ≡ look_pieces b q }
{}

/// So is what a device sees there, and whether memory may be refused for the look.
pub fn sights_are_local()
    ensures sees { (want : Wanted) (a b : List ℕ) (q : RingState) (seen : Next) → length a ≡ length b → AgreeOn a b (look_pieces a q) → Sees want a q seen → Sees want b q seen }
    ensures refuses { (want : Wanted) (a b : List ℕ) (q : RingState) → length a ≡ length b → AgreeOn a b (look_pieces a q) → MayRefuse want a q → MayRefuse want b q }
{}

/// A message that is sent is read in the chain's readable bytes after the header. Of a chain that is given bytes none is read. Either reads
/// the driver's word about interrupts, after all that it writes.
pub fn services_are_local()
    ensures send { (header : ℕ) (a b : List ℕ) (q : RingState) (state : ℕ) (c : Chain) → length a ≡ length b → AgreeOn a b (place_pieces q.base (drop header (places c.readable))) → AgreeAt a b (event_piece (after_take q c.slots)) → send header a q state c ≡ send header b q state c }
    ensures give { (a b : List ℕ) (q : RingState) (bytes : List ℕ) (left : ℕ) (c : Chain) → length a ≡ length b → AgreeAt a b (event_piece (after_take q c.slots)) → give a q bytes left c ≡ give b q bytes left c }
{}

/// Where the driver's word is the quiet one, no interrupt is due.
pub fn quiet_word_is_quiet()
    ensures { (ram : List ℕ) (q : RingState) (slots : ℕ) → HoldsAt ram (event_piece q).at (quiet_word q) → is_interrupt_due q slots ram ≡ false }
{}
