//! The steps that serve a console (VIRTIO 1.2, 5.3) and an entropy device (VIRTIO 1.2, 5.4), and what both keep.
//!
//! # What the layers above may rely on
//! - `receive(site, ring, held, ram, log)` is `receive_step` (`specs/Receive`) over any `Ring`: RAM, ring, bytes held, log and answer
//!   after it. It serves the receive queue of a console and the queue of an entropy device. Memory may be refused at a long queue,
//!   which leaves all four as they were.
//! - `HostBytes` holds at most 4,096 bytes that the host has put in, in room made with it.
//! - `transmit` is the step of `chains` that takes a message, with at most 65,536 bytes and no header (`specs/Transmit`).
//! - `ConsoleSize` has the bytes of the configuration; `resize` reports a size that differs by the registers, and no other
//!   (`specs/Size`).
//! - `emergency_byte` is the byte of a write to the emergency register, and `None` of every other write (`specs/Emergency`).
//!
//! Nothing is trusted here beside `circular_buffer` and the crates below.
#![tactic(auto)]

mod emergency;
pub mod entropy;
mod host_bytes;
mod receiving;
mod shape;
mod size;
mod transmitting;

pub use emergency::emergency_byte;
pub use host_bytes::{HOST_BYTES_MAX, HostBytes};
pub use receiving::receive;
pub use shape::{DEVICE_ID, FEATURES, QUEUE_COUNT, recall_console};
pub use size::ConsoleSize;
pub use transmitting::transmit;
