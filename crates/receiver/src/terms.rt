//! What a host says of the machine that it receives.

ghost use Rattle.std.specs.Prelude.{◌≡◌};
ghost use Rattle.receiver.specs.Opened.{usual_at};

use machine::Limits;

/// What a host says of a machine that arrives, and no stream tells.
#[derive(Clone, Copy, Debug, PartialEq, Eq)]
pub struct Terms {
    /// The guest-physical address at which its RAM begins.
    pub base: u64,

    /// How large it may be. The stream of a larger one is refused with `BadShape`: at the sixteenth byte for its pages, at the end of a
    /// shape for its sectors.
    pub limits: Limits,
}

impl Terms {
    /// RAM begins at the address `base`, and the limits are the usual ones.
    pub fn usual_at(base: u64) -> Terms
        ensures { result ≡ usual_at base }
    {
        Terms {
            base,
            limits: Limits::usual(),
        }
    }
}
