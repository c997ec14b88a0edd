//! What a ring returns of its next chain, where the chain itself is filled in.

ghost use Rattle.std.specs.Prelude.{◌≡◌};
ghost use Rattle.chains.specs.Gives.{kind_of};

use crate::no_chain::NoChain;

/// The kinds of answers of a ring about its next chain.
#[derive(Clone, Copy, Debug, PartialEq, Eq)]
pub enum NextKind {
    /// The driver has made nothing available there.
    Empty,

    /// The driver has made something available there that breaks a rule of the layout. The device asks for a reset.
    Malformed,

    /// The driver has made a chain available there, which was filled in.
    Chain,

    /// Memory was refused for what is there, which is long.
    NoMemory,
}

impl NextKind {
    /// The answer where a queue is not empty, by what a search for its chain returned.
    #[inline(always)]
    pub fn of(found: Result<(), NoChain>) -> NextKind
        ensures { result ≡ kind_of found }
    {
        match found {
            Ok(()) => NextKind::Chain,
            Err(NoChain::Malformed) => NextKind::Malformed,
            Err(NoChain::NoMemory) => NextKind::NoMemory,
        }
    }
}
