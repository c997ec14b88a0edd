//! A piece of work of a device.

/// A step of a device: the one that `Event::Step` asks for by these numbers.
#[derive(Clone, Copy, Debug, PartialEq, Eq)]
pub struct Work {
    /// The number of the device.
    pub dev: u8,

    /// The pick of the step.
    pub pick: u8,
}
