//! What C names of a machine: devices, pages, disks and RAM, and the numbers of statuses.
//!
//! It is what lies below the handle of the library for C: the structs by which C asks for a machine and gets its description, and what is made of
//! them. It uses `machine`, and knows no migration and no stream, so its proof waits for neither.
//!
//! # What the layer above may rely on
//! - `setup_refusal` and `arrival_refusal` say why a struct is refused, in one order, and change nothing (`specs/Made`, `specs/Expected`).
//!   How large a machine may be its flags say (`limits_for`), and whether a header may tell of long frames and of disks outside the arrival
//!   (`header_limits`).
//! - `has_longer_frames` says whether a device is for longer frames than an arrival allows (`specs/Frames`), and `largest_outside` how many
//!   sectors its largest disk outside has (`specs/Outside`), to be compared with what the arrival allows (`frame_allowed`, `outside_allowed`).
//! - `machine_on` makes the machine over the memory in a slot, which is taken, or over zeros; where memory is refused the slot is as it was,
//!   and the disks come back. Disks lie in memory of the library (`own_disks`) or in images of the caller (`mapped_disks`), which
//!   `give_back` puts back where they lay.
//! - `Pages` names pages by a list, by a bitmap, or all of them, and `Pages::collect` makes a list of their numbers (`specs/Named`).
//! - `Description` has the pages and devices; the layer above adds what a handle has beside.
//! - A status is one number with one meaning, and all of them are in `status` (`specs/Status`).
#![tactic(auto)]

mod description;
mod device_shape;
mod frames;
mod images;
mod making;
mod mapping;
mod naming;
mod outside;
mod over_ram;
mod pages;
mod setup;
pub mod status;

pub use description::{Description, FRAME_MAX, SENT_MAX, message_of};
pub use device_shape::{DeviceShape, are_zeros};
pub use frames::has_longer_frames;
pub use images::count_in;
pub use making::{machine_on, own_disks, shapes_of, zero_disks};
pub use mapping::{give_back, mapped_disks};
pub use outside::largest_outside;
pub use over_ram::{put_back, taken_ram};
pub use pages::Pages;
pub use setup::{
    Expected, LARGE, LOG, Setup, TOLD, arrival_refusal, asks_large, asks_log, asks_told,
    block_size, frame_allowed, header_limits, is_none, limits_for, outside_allowed, ram_bytes,
    setup_refusal,
};
