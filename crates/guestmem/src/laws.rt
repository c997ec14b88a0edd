//! Laws of the definitions, each as a function whose contract it is. Calling one costs nothing, and gives a proof that
//! contract.

ghost use Rattle.guestmem.specs.Address.{access_refusal};
ghost use Rattle.guestmem.specs.Memory.{Memory};
ghost use Rattle.guestmem.specs.Later.{IsLater};
ghost use Rattle.guestmem.specs.Lent.{GivenBackIsWritten, MarkedIsWritten};
ghost use Rattle.guestmem.specs.Item.{Item};
ghost use Rattle.guestmem.specs.Rises.{Rises};
ghost use Rattle.guestmem.specs.Write.{refusal_of};
ghost use Rattle.std.specs.Prelude.{ℕ, List, [], ◌++◌, ◌≡◌, ◌<◌, ◌^◌};

/// In a RAM that begins at the address 0, an access is refused exactly as the access to the same indexes of its bytes.
pub fn refusals_at_zero()
    ensures { (len at count : ℕ) → at < 2 ^ 64 → access_refusal 0 len at count ≡ refusal_of len at count }
{}

/// A RAM is later than itself, and what is later than a later RAM is later. So a fact that every later RAM keeps goes
/// through any list of writes.
pub fn later_in_turn()
    ensures same { (m : Memory) → IsLater m m }
    ensures further { (old mid new : Memory) → IsLater old mid → IsLater mid new → IsLater old new }
{}

/// The versions of a RAM that stays rise in no page. If they rise in exactly the pages of a list of items, and then in exactly
/// those of another, they rise in exactly the pages of both. So what is known of each call is known of any number of calls.
pub fn rises_in_turn()
    ensures none { (m : Memory) → Rises [] m m }
    ensures further { (is js : List Item) (old mid new : Memory) → Rises is old mid → Rises js mid new → Rises (is ++ js) old new }
{}

/// A RAM that is given back with bytes that differ from those that were lent in no page but the named ones is the RAM that was lent
/// after each of these pages was written whole, one after another.
pub fn given_back_is_written()
    ensures { GivenBackIsWritten }
{}

/// A RAM whose pages were marked is the one into which each of these pages was written whole with the bytes that lie there.
pub fn marked_is_written()
    ensures { MarkedIsWritten }
{}
