//! Laws of the counts by which pieces that are held of a step are found stale.

ghost use Rattle.machine.specs.Pieces.{TouchedIsStale};
ghost use Rattle.machine.specs.Serials.{UntouchedDevicesStay};

/// Pieces that were not stale before an event that touches their device are stale after it, and stay so, whatever is touched then.
pub fn touched_is_stale()
    ensures { TouchedIsStale }
{}

/// An event changes no device but the one that it touches.
pub fn untouched_devices_stay()
    ensures { UntouchedDevicesStay }
{}
