//! How large a machine of the program may be.
//!
//! A trace is its author's, and names its devices: `run` and `rehearse` make disks outside of any size. A stream comes from elsewhere:
//! `check` and `resume` take a machine with such a disk only where the words ask for it.

ghost use Rattle.std.specs.Prelude.{◌≡◌};
ghost use Rattle.vmig.specs.Allowing.{program_limits, program_terms};

use machine::Limits;
use receiver::Terms;

/// The usual limits, with disks outside of any size or without them.
pub fn program_limits(outside: bool) -> Limits
    ensures { result ≡ program_limits outside }
{
    let usual = Limits::usual();
    if outside {
        let greatest = Limits::greatest();
        return Limits {
            outside: greatest.outside,
            ..usual
        };
    }
    usual
}

/// What the program says of a machine that arrives: its RAM begins at the address 0.
pub fn program_terms(outside: bool) -> Terms
    ensures { result ≡ program_terms outside }
{
    Terms {
        base: 0,
        limits: program_limits(outside),
    }
}
