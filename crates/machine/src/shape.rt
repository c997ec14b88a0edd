//! The devices that a machine can have.

ghost use Rattle.std.specs.Prelude.{◌≡◌};
ghost use Rattle.machine.specs.Shapes.{sector_count};

use blk::ID_SIZE;

/// What a device is made as. It never changes.
#[derive(Clone, Copy, Debug, PartialEq, Eq)]
pub enum Shape {
    /// A network device (VIRTIO 1.2, 5.1).
    Net {
        /// Its MAC.
        mac: [u8; 6],
    },

    /// A network device for frames longer than 1,514 bytes (VIRTIO 1.2, 5.1).
    LongNet {
        /// Its MAC.
        mac: [u8; 6],

        /// How many bytes its longest frame may have: 1,515 to as many as the limits of the machine allow.
        longest: u16,
    },

    /// A block device (VIRTIO 1.2, 5.2).
    Block {
        /// How many sectors of 512 bytes its disk has: one to as many as the limits of the machine allow.
        sectors: u64,

        /// Whether the driver may only read it.
        read_only: bool,

        /// What it answers to a driver that asks for its id.
        id: [u8; ID_SIZE],
    },

    /// A block device whose disk is outside of the machine: the host has it, and is asked (VIRTIO 1.2, 5.2).
    Outside {
        /// How many sectors of 512 bytes its disk has: one to as many as the limits of the machine allow.
        sectors: u64,

        /// Whether the driver may only read it.
        read_only: bool,

        /// What it answers to a driver that asks for its id.
        id: [u8; ID_SIZE],
    },

    /// A console (VIRTIO 1.2, 5.3).
    Console,

    /// An entropy device (VIRTIO 1.2, 5.4).
    Entropy,
}

impl Shape {
    /// How many sectors the disk of such a device has; 0 where it has none in the machine.
    pub fn sectors(self) -> u64
        ensures { result ≡ sector_count self }
    {
        match self {
            Shape::Block { sectors, .. } => sectors,
            Shape::Net { .. }
            | Shape::LongNet { .. }
            | Shape::Outside { .. }
            | Shape::Console
            | Shape::Entropy => 0,
        }
    }
}
