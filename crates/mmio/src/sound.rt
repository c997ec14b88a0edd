//! Which registers a device may have. Whoever restores a device asks here first.

ghost use Rattle.std.specs.Prelude.{◌≡◌, ◌↔◌, IsTrue};
ghost use Rattle.mmio.specs.Sound.{IsStatus, IsSoundCommon, IsSoundQueue};

use crate::common::Common;
use crate::constants::{
    DEVICE_NEEDS_RESET, DRIVER_OK, FEATURES_OK, INTERRUPT_BITS, STATUS_BITS, VERSION_1,
};
use crate::queue::Queue;
use crate::readiness::may_be_ready;

/// Whether these bits of a status go together.
fn is_status(status: u8) -> bool
    ensures { IsTrue result ↔ IsStatus status }
{
    STATUS_BITS & status == status
        && (status & DRIVER_OK != DRIVER_OK || status & FEATURES_OK == FEATURES_OK)
        && (status & DEVICE_NEEDS_RESET != DEVICE_NEEDS_RESET || status & DRIVER_OK == DRIVER_OK)
}

/// Whether a device that offers these features may have these common registers: the bits of the status go together
/// (only bits with a meaning, DRIVER_OK only with FEATURES_OK, DEVICE_NEEDS_RESET only with DRIVER_OK), so do those of
/// the interrupt status, and with FEATURES_OK the driver's features lie within the offered set and hold VERSION_1.
pub fn is_sound_common(offered: u64, common: &Common) -> bool
    ensures { IsTrue result ↔ IsSoundCommon offered common.now }
{
    // Each field is read, since with that it is known to fit its register.
    let Common {
        status,
        interrupts,
        features,
        device_select: _device_select,
        driver_select: _driver_select,
        queue_select: _queue_select,
        generation: _generation,
    } = *common;
    is_status(status)
        && interrupts <= INTERRUPT_BITS
        && (status & FEATURES_OK != FEATURES_OK
            || offered & features == features && features & VERSION_1 == VERSION_1)
}

/// Whether a device with these common registers, where RAM has `ram_len` bytes from the guest-physical address `base` on, may have
/// this queue: only a ready queue is notified, and a ready queue is one that QueueReady would take.
pub fn is_sound_queue(base: u64, ram_len: u64, common: &Common, queue: &Queue) -> bool
    ensures { IsTrue result ↔ IsSoundQueue base ram_len common.now queue.now }
{
    // Each field is read, since with that it is known to fit its register.
    let Queue {
        size: _size,
        descriptors: _descriptors,
        driver: _driver,
        device: _device,
        is_ready,
        is_notified,
    } = *queue;
    (!is_notified || is_ready) && (!is_ready || may_be_ready(base, ram_len, common, queue))
}
