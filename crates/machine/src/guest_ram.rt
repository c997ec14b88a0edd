//! The RAM of a machine: here, or lent to the caller.
//!
//! What a machine can do without a byte of its RAM is written once, over any of these. What contracts say of it is said of each RAM that
//! may be there (`specs/Known`): of the one that is here, or of whatever the guest writes meanwhile.

ghost use Rattle.std.specs.Prelude.{◌≡◌, length};
ghost use Rattle.guestmem.specs.Memory.{Memory};
ghost use Rattle.machine.specs.Known.{Here, IsSomeRam, Known, Lent, MayBe};

use guestmem::{PAGE_SIZE, ParkedRam, Ram};

/// The RAM of a guest, here or lent.
pub trait GuestRam {
    /// What is known of it.
    ghost known: { Self → Known };

    /// The number of its bytes, which are in the guest's reach wherever they are. It also states for proofs that there is such a RAM.
    fn size(&self) -> u64
        ensures some { IsSomeRam (known self.now) }
        ensures each { (m : Memory) → MayBe (known self.now) m → length m.bytes ≡ result };
}

impl GuestRam for Ram {
    ghost known = { λ m. Here m };

    fn size(&self) -> u64 {
        self.len()
    }
}

impl GuestRam for ParkedRam {
    ghost known = { λ versions. Lent versions };

    fn size(&self) -> u64 {
        self.pages() as u64 * PAGE_SIZE as u64
    }
}
