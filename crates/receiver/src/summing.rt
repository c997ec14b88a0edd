//! Who digests what a receiver works off: it does, or whoever feeds it, and tells the digest with the record that closes the stream.

ghost use Rattle.std.specs.Prelude.{◌≡◌, ◌++◌, ◌↔◌, List, ℕ, IsTrue, []};
ghost use Rattle.sha2.specs.Sha256.{sha256};
ghost use Rattle.receiver.specs.Sums.{CanSay, SaysOn, Sums};

use sha2::{Digest, Sha256};
use wire::{Added, Past};

/// What a receiver has of the digest of the bytes that it worked off.
pub trait Summing: Drop {
    ghost use Rattle.std.specs.Prelude.{◌≡◌, ◌++◌, ◌↔◌, List, ℕ, IsTrue, []};
    ghost use Rattle.sha2.specs.Sha256.{sha256};
    ghost use Rattle.receiver.specs.Sums.{CanSay, SaysOn, Summed, Sums};

    /// What it has.
    ghost seen: { Self → Summed };

    /// That of no bytes.
    fn none() -> Self
        ensures { Sums (seen result) [] };

    /// Bytes that were worked off.
    fn add(&mut self, bytes: &[u8])
        ensures sums { (front : List ℕ) → Sums (seen self.old) front → Sums (seen self.new) (front ++ bytes.now) }
        ensures says { SaysOn (seen self.old) (seen self.new) };

    /// Whether this is the digest of all of them, where that can be said. Nothing is worked off after it.
    fn agrees(&mut self, digest: &[u8]) -> bool
        ensures is { (front : List ℕ) → Sums (seen self.old) front → CanSay (seen self.old) front → IsTrue result ↔ (digest.now ≡ sha256 front) }
        ensures says { SaysOn (seen self.old) (seen self.new) };
}

/// The receiver digests.
#[derive(Drop)]
pub struct Own {
    digest: Sha256,
}

impl Summing for Own {
    ghost use Rattle.receiver.specs.Sums.{own};

    ghost seen = { λ s. own s.digest };

    #[tactic(auto, unfolding(crate::specs::Sums::Sums))]
    fn none() -> Own {
        Own {
            digest: Sha256::new(),
        }
    }

    #[tactic(auto, unfolding(crate::specs::Sums::Sums, crate::specs::Sums::CanSay))]
    fn add(&mut self, bytes: &[u8]) {
        self.digest.update(bytes);
    }

    #[tactic(auto, unfolding(crate::specs::Sums::Sums, crate::specs::Sums::CanSay))]
    fn agrees(&mut self, digest: &[u8]) -> bool {
        let sum = self.digest.finalize_reset();
        sum.as_slice() == digest
    }
}

/// Whoever feeds the receiver digests. That digest is compared where the record comes that closes the stream (`Receiver::close`), and not here.
#[derive(Drop)]
pub struct Told {
    past: Past,
}

impl Summing for Told {
    ghost use Rattle.receiver.specs.Sums.{told};

    ghost seen = { λ s. told s.past.bytes };

    #[tactic(auto, unfolding(crate::specs::Sums::Sums))]
    fn none() -> Told {
        Told { past: Past::new() }
    }

    #[tactic(auto, unfolding(crate::specs::Sums::Sums, crate::specs::Sums::CanSay))]
    fn add(&mut self, bytes: &[u8]) {
        self.past = self.past.then(&Added { bytes });
    }

    #[tactic(auto, unfolding(crate::specs::Sums::CanSay))]
    fn agrees(&mut self, _digest: &[u8]) -> bool {
        false
    }
}
