//! Disks in memory that a caller owns, for instance a file that it mapped.
//!
//! # What the layers above may rely on
//! - `Image` is a pointer and a count of sectors, and owns the bytes there (`specs/Image`): contracts see it as the list of its
//!   sectors, whose concatenation is these bytes (`specs/Bytes`). It becomes a region of them and is made of one, with the same
//!   address and the same bytes (`specs/Over`); the bytes are reached through that region alone. All bytes 0 are an image of no
//!   sectors.
//! - An image cannot be dropped, and only one of no sectors is consumed (`gone`). So a function that has an image gives it
//!   back, or puts it into a disk.
//! - `MappedDisk` keeps the contract of `Disk` over an image, honest and steady; `into_image` gives the image back with the
//!   disk's contents. Nothing is copied: what is written is in the image at once, and a flush does nothing. A disk that is
//!   dropped gives back no image: its bytes are the caller's again, where they were and as they were. A clause of the drop of
//!   the region that it keeps says so (`KeptRegion`). It may go to another thread.
//! - The caller's part, which nothing checks: the bytes are at the pointer, may be read and written, and are nobody else's until the
//!   image is given back.
//!
//! It uses `region` and `blk`.
#![tactic(auto)]

mod image;
mod mapped_disk;

pub use image::Image;
pub use mapped_disk::MappedDisk;
