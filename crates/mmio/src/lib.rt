//! The register file of a virtio MMIO device (VIRTIO 1.2, 4.2.2): what the driver sees below offset 0x100, and the
//! accesses to the configuration from there on.
//!
//! [`Regs`] holds the registers. The driver reaches them by `read` and `write`, the device by the calls that raise an interrupt,
//! report a change of the configuration or ask for a reset. A write returns its [`Effect`]: what it means beyond the registers. The
//! device has the bytes of its configuration, the positions in its rings, and all else. No call takes memory.
//!
//! The layer above may rely on these:
//! - `read` and `write` are the table of the standard, for every offset, width and value (`specs/RegisterRead.antt`,
//!   `specs/RegisterWrite.antt`). No access is refused: one that the table does not know reads 0 and is ignored.
//! - A write keeps the device the same (its number, its offer, where RAM begins and how long it is, how many queues it has), and the
//!   queue that its effect names exists (`specs/Effects.antt`).
//! - Whatever the driver writes, the registers stay sound (`specs/Sound.antt`): the bits of the status go together, with FEATURES_OK
//!   the driver's features are ones that the device offers, and a ready queue has a size and areas that suit its layout and lie
//!   wholly inside RAM. Every call keeps this; the contracts of `common`, `queues` and `queue` say it.
//! - Registers that were saved are sound exactly if `is_sound_common` and, of each queue, `is_sound_queue` say so, and
//!   `restore` then sets them as they were.
//!
//! An area's address is the guest's: RAM has the bytes from its base on, and an area below the base, or one that passes RAM's end, is
//! refused (`guestmem::is_within`). The base is given when the registers are made, and no write and no reset changes it.
//!
//! The crate trusts nothing below it but the standard library and that test.
//!
//! Its definitions are in `specs/`: `State` (what contracts see), `RegisterTable` (offsets), `RegisterRead` and `RegisterWrite` (the
//! two tables of accesses), and what they are made of: `Bits`, `Status`, `Features`, `Interrupts`, `Areas`, `QueueReady` (when a queue may
//! be made ready), `QueueRegisters` and `Configuration`; and what always holds: `Sound` and `Effects`.
#![tactic(auto)]

mod bits;
mod common;
mod configuration;
mod constants;
mod effect;
mod queue;
mod readiness;
mod register;
mod regs;
mod sound;
mod status;
mod table;

pub use common::Common;
pub use constants::{
    ACKNOWLEDGE, CONFIG, CONFIGURATION_CHANGE, DEVICE_NEEDS_RESET, DRIVER, DRIVER_OK, EVENT_IDX,
    FAILED, FEATURES_OK, INDIRECT_DESC, QUEUE_COUNT_MAX, QUEUE_SIZE_MAX, RING_PACKED, USED_BUFFER,
    VERSION_1,
};
pub use effect::Effect;
pub use queue::Queue;
pub use regs::Regs;
pub use sound::{is_sound_common, is_sound_queue};
