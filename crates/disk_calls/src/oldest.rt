//! The calls that are out in the order of their numbers.

ghost use Rattle.std.specs.Prelude.{◌≡◌};
ghost use Rattle.disk_calls.specs.Oldest.{older, older_listed};

use crate::out::Out;

/// A call that is out, and whose.
#[derive(Clone, Copy, Debug, PartialEq, Eq)]
pub struct Listed {
    /// The number of its device.
    pub dev: usize,

    /// The call, with its number.
    pub out: Out,
}

/// The older of two calls, where the second counts only from a number on.
pub(crate) fn older(oldest: Option<Out>, out: Out, number: u64) -> Option<Out>
    ensures { result ≡ older oldest out number }
{
    if out.number < number {
        return oldest;
    }
    match oldest {
        Some(kept) => {
            if out.number < kept.number {
                Some(out)
            } else {
                Some(kept)
            }
        }
        None => Some(out),
    }
}

/// The older of a call that was found before, and of one of this device.
pub(crate) fn older_listed(oldest: Option<Listed>, dev: usize, found: Option<Out>) -> Option<Listed>
    ensures { result ≡ older_listed oldest dev found }
{
    let Some(out) = found else {
        return oldest;
    };
    match oldest {
        Some(kept) => {
            if out.number < kept.out.number {
                Some(Listed { dev, out })
            } else {
                Some(kept)
            }
        }
        None => Some(Listed { dev, out }),
    }
}
