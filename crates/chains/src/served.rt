//! What a step at a queue did.
//!
//! There is one answer for the steps of all devices: what was done with the chain of the queue, or why there was none to do
//! anything with. So a step is a look with `?`, and then what its device does with a chain.

ghost use Rattle.std.specs.Prelude.{◌≡◌};
ghost use Rattle.chains.specs.declared.served.Unserved.TheVariants as why;

use guestmem::NoMemory;

/// What a step did with a chain.
#[derive(Clone, Copy, Debug, PartialEq, Eq)]
pub enum Done {
    /// The request of the chain was taken. The chain is published later.
    Taken,

    /// The chain was published, with this used length: how many bytes were written into it.
    Completed(u32),

    /// The message of the chain was read into a buffer of the caller, and the chain was published with no byte written into it.
    Sent,

    /// What the device had for the chain did not fit into it, and is gone. The chain stays.
    Dropped,
}

/// What a step at a queue did, and whether an interrupt is due.
#[derive(Clone, Copy, Debug, PartialEq, Eq)]
pub struct Served {
    /// What it did.
    pub done: Done,

    /// Whether an interrupt is due.
    pub is_due: bool,
}

/// Why a step at a queue did nothing with a chain.
#[derive(Clone, Copy, Debug, PartialEq, Eq)]
pub enum Unserved {
    /// The queue is empty, and the event note is written.
    Empty,

    /// What is there breaks a rule of the layout, or is no chain that the device can use. It stays.
    Malformed,

    /// Memory was refused, and nothing has changed.
    NoMemory,
}

impl From<NoMemory> for Unserved {
    ghost from_gives = { λ _ error. error ≡ why.NoMemory };

    fn from(_error: NoMemory) -> Unserved {
        Unserved::NoMemory
    }
}
