//! Bytes that were put into a sink, or worked off, and that no one has any more. They exist only in proofs.

ghost use Rattle.std.specs.Prelude.{◌≡◌, ◌++◌, List, ℕ, []};
ghost use Rattle.std.specs.Coded.{coded_list, coded_ℕ};
ghost use base.Fml.{ftrue};

use std::marker::Model;

/// Bytes that exist only in proofs.
#[derive(Drop)]
pub struct Past {
    pub ghost bytes: { List ℕ } by { coded_list coded_ℕ },
}

impl Model for Past {
    ghost also_owns = { λ _. ftrue };
}

/// Bytes that come after those of a `Past`.
#[derive(Clone, Copy, Drop)]
pub struct Added<'a> {
    pub bytes: &'a [u8],
}

impl Past {
    /// No bytes.
    pub fn new() -> Past
        ensures { result.bytes ≡ [] }
    {
        Past {}
    }

    /// These, and the piece after them.
    #[inline(always)]
    pub fn then(&self, _piece: &Added<'_>) -> Past
        ensures { result.bytes ≡ self.now.bytes ++ _piece.now.bytes.now }
    {
        Past {}
    }
}
