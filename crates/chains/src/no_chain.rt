//! Why a search found no chain.

ghost use Rattle.std.specs.Prelude.{◌≡◌};
ghost use Rattle.chains.specs.declared.no_chain.NoChain.TheVariants as why;

use guestmem::NoMemory;

/// Why a search in a queue that is not empty found no chain.
#[derive(Clone, Copy, Debug, PartialEq, Eq)]
pub enum NoChain {
    /// What is there breaks a rule of the layout.
    Malformed,

    /// Memory was refused for what is there, which is long.
    NoMemory,
}

impl From<NoMemory> for NoChain {
    ghost from_gives = { λ _ error. error ≡ why.NoMemory };

    fn from(_error: NoMemory) -> NoChain {
        NoChain::NoMemory
    }
}
