//! The device status.
//!
//! A write may add FEATURES_OK and DRIVER_OK at once. Bits are cleared by a reset alone, and only the value 0 resets: 0x100
//! does nothing.

ghost use Rattle.std.specs.Prelude.{◌≡◌};
ghost use Rattle.mmio.specs.Status.{is_accepted, status_after};

use crate::common::Common;
use crate::constants::{DRIVER_OK, FEATURES_OK, FREE_STATUS_BITS, VERSION_1};

/// Whether the device accepts these features of the driver: they lie within the offered set and hold VERSION_1.
fn is_accepted(offered: u64, features: u64) -> bool
    ensures { result ≡ is_accepted offered features }
{
    offered & features == features && features & VERSION_1 == VERSION_1
}

/// The status after a write of a value other than 0. FEATURES_OK is looked at before DRIVER_OK, which needs it.
#[tactic(auto, unfolding(crate::specs::Status::status_after))]
pub(crate) fn status_after(offered: u64, common: &Common, value: u32) -> u8
    ensures { result ≡ status_after offered common.now value }
{
    let features_ok = FEATURES_OK as u32;
    let driver_ok = DRIVER_OK as u32;
    let mut status = common.status as u32 | value & FREE_STATUS_BITS as u32;
    if value & features_ok == features_ok && is_accepted(offered, common.features) {
        status |= features_ok;
    }
    if value & driver_ok == driver_ok && status & features_ok == features_ok {
        status |= driver_ok;
    }
    status as u8
}
