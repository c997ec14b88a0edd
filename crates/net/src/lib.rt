//! The steps that serve a network device (VIRTIO 1.2, 5.1), and the frames that the host has put in for it.
//!
//! # What the layers above may rely on
//! - `Inbox` is a list of frames of 14 bytes to its longest, the oldest first: at most 64 where that is 1,514, and as many of a longer
//!   one as these have bytes for (`most_waiting`). Its room is made by `new`, and no other call takes memory: a full inbox keeps nothing
//!   of a frame and returns 0.
//! - `receive(site, ring, inbox, ram, log)` is `receive_step` (`specs/Receive`) over any `Ring`, with a frame waiting: RAM, ring,
//!   frames, log and answer after it. A frame that does not fit is lost, and its chain stays; a malformed chain keeps the frame. Memory
//!   may be refused at a long queue, which leaves all four as they were.
//! - `transmit` is the step of `chains` that takes a message, with 26 bytes to 12 more than the longest frame, of which the first 12
//!   are the header (`specs/Transmit`).
//! - The caller's part: a frame waits in the inbox; a frame put in has 14 bytes to the longest, for which `is_frame_len` is the test.
//!
//! The device offers neither checksums nor segmentation nor merged buffers, so each frame has one header of 12 bytes, of which only
//! `num_buffers` is not 0 (`specs/Header`). Its configuration is its six MAC bytes (VIRTIO 1.2, 5.1.4), and no more, where its longest
//! frame has 1,514 bytes. A device for longer ones offers MTU too, and has six bytes more (`specs/Shape`).
//!
//! Nothing is trusted here beside `circular_buffer` and the crates below.
#![tactic(auto)]

mod frame;
mod header;
mod inbox;
mod limits;
mod receiving;
mod shape;
mod transmitting;

pub use frame::{is_frame_len, may_take};
pub use inbox::Inbox;
pub use limits::{FRAME_GREATEST, FRAME_MAX, INBOX_MAX, LONG_FRAME_MIN, most_waiting};
pub use receiving::receive;
pub use shape::{DEVICE_ID, FEATURES, LONG_FEATURES, QUEUE_COUNT, long_configuration};
pub use transmitting::transmit;
