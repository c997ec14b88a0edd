//! What happens to a machine.

use guestmem::Bytes;

/// One thing that the guest or the host does to a machine: one atomic step.
#[derive(Debug, Drop, PartialEq, Eq)]
pub enum Event {
    /// The driver reads a register of a device, `width` bytes at the offset `off` of its window.
    RegRead {
        dev: u8,
        off: u32,
        width: u8,
    },

    /// The driver writes a register of a device, `width` bytes at the offset `off` of its window.
    RegWrite {
        dev: u8,
        off: u32,
        width: u8,
        value: u32,
    },

    /// The guest reads `len` bytes of RAM from an address on.
    MemRead {
        addr: u64,
        len: u32,
    },

    /// The guest writes bytes into RAM from an address on.
    MemWrite {
        addr: u64,
        bytes: Bytes,
    },

    /// A device does one piece of its work, which the pick names. For a block device pick 0 takes the next request of its
    /// queue (none while 8 are outstanding), and pick k, from 1 to 8, advances the k-th outstanding request in the order of
    /// taking. For an entropy device pick 0 serves the next buffer of its queue 0. For a network device and a console pick 0
    /// serves the next receive buffer, and pick 1 takes the next message to be sent. A pick that names nothing is answered `Idle`.
    Step {
        dev: u8,
        pick: u8,
    },

    /// The host puts bytes in: for an entropy device into its pool, for a console as text, for a network device one frame of
    /// 14 to 1,514 bytes. A block device takes none: that is `WrongKind`.
    Input {
        dev: u8,
        bytes: Bytes,
    },

    /// The host sets the size of a console, in characters.
    Resize {
        dev: u8,
        cols: u16,
        rows: u16,
    },

    /// The host drops what it has put in and the guest has not yet taken: the pool of an entropy device, the input of a console,
    /// the frames of a network device. A block device has none of it: that is `WrongKind`.
    Drop {
        dev: u8,
    },

    /// The host hands in what a disk outside of the machine answered. The answer is for the request that the pick names when it comes: picks
    /// move up as requests end, a reset drops requests, and the machine does not know who asked. It is `Idle`, and nothing changes, where the
    /// device does not run or that request asks for nothing of the kind, or for less. So a host answers what it was asked, once, and resets
    /// no device before (crate `disk_calls`). A device without such a disk refuses: that is `WrongKind`.
    Disk {
        dev: u8,
        pick: u8,
        answer: DiskAnswer,
    },
}

/// What a disk outside of the machine answered.
#[derive(Debug, Drop, PartialEq, Eq)]
pub enum DiskAnswer {
    /// To a read: the bytes of its sectors, whole ones, from its first sector on. Those of fewer sectors are a part of the answer.
    Gave(Bytes),

    /// To a write, to a clearing, or to a flush, which is one unit: this many units were done, from the first one on.
    Did(u32),

    /// It failed: the request ends with an error.
    Failed,
}
