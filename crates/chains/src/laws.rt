//! Laws of the definitions, each as a function whose contract it is. Calling one costs nothing, and gives a proof that
//! contract.

mod beside;

ghost use Rattle.std.specs.Prelude.{◌≡◌, ℕ, List, length};
ghost use Rattle.guestmem.specs.Memory.{Memory};
ghost use Rattle.guestmem.specs.Later.{IsLater};
ghost use Rattle.chains.specs.Decoder.{DecoderState, Fits};
ghost use Rattle.chains.specs.State.{RingState};
ghost use Rattle.chains.specs.Ring.{IsEmptyQueue, IsChain, Answers, IsBounded};
ghost use Rattle.chains.specs.LongQueue.{IsLongQueue};
ghost use Rattle.chains.specs.Transmit.{MayWantMemory};
ghost use Rattle.chains.specs.declared.chain.Chain.{Chain};
ghost use Rattle.chains.specs.declared.next.Next.{Next};
ghost use Rattle.chains.specs.declared.transmitting.MessageForm.{MessageForm};

pub use beside::{looks_are_local, quiet_word_is_quiet, services_are_local, sights_are_local};

/// A queue, of either layout, has at most one chain at its taking position.
pub fn one_chain()
    ensures { (ram : List ℕ) (q : RingState) (a b : Chain) → IsChain ram q a → IsChain ram q b → a ≡ b }
{}

/// A queue has one answer: empty, malformed and a chain exclude one another.
pub fn one_answer()
    ensures { (ram : List ℕ) (q : RingState) (a b : Next) → Answers ram q a → Answers ram q b → a ≡ b }
{}

/// Every chain of a queue keeps the bounds, whatever the driver wrote.
pub fn chains_are_bounded()
    ensures { (ram : List ℕ) (q : RingState) (c : Chain) → IsChain ram q c → IsBounded (length ram) q c }
{}

/// What a decoder keeps fits every later RAM. So whoever writes RAM by the calls of `Ram` may look again at once.
pub fn fits_later()
    ensures { (d : DecoderState) (old new : Memory) → Fits d old → IsLater old new → Fits d new }
{}

/// Memory is taken only at a queue that is not empty: for its next chain, and for a message in it.
pub fn memory_is_wanted_for_a_chain()
    ensures chain { (ram : List ℕ) (q : RingState) → IsLongQueue ram q → ¬ (IsEmptyQueue ram q) }
    ensures message { (ram : List ℕ) (q : RingState) (form : MessageForm) → MayWantMemory ram q form → ¬ (IsEmptyQueue ram q) }
{}
