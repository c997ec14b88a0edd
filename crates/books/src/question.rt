//! What a script asks.

/// What a script asks of its machine between two events.
#[derive(Clone, Copy, Debug, PartialEq, Eq)]
pub enum Question {
    /// Which interrupt lines are high.
    Lines,

    /// The contents of a sector.
    Sector {
        /// The device.
        dev: u8,

        /// The sector of its disk.
        n: u64,
    },

    /// What a request asks of a disk outside.
    Asked {
        /// The device.
        dev: u8,

        /// The pick of the request.
        pick: u8,
    },

    /// The bytes that a request writes to a disk outside.
    Given {
        /// The device.
        dev: u8,

        /// The pick of the request.
        pick: u8,
    },

    /// How many items are still to be sent.
    Remaining,

    /// How many bytes were written.
    Written,

    /// At which sector the disk failed in the last call.
    Failed,
}
