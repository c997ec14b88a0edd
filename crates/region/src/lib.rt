//! Bytes in memory that a caller owns, for instance pages that it mapped.
//!
//! # What the layers above may rely on
//! - `Region` is an address and a count of bytes, and owns the bytes there (`specs/Region`): contracts see it as the list of these
//!   bytes, and where they lie (`specs/Address`). `as_slice` and `as_mut_slice` lend them in place (`specs/Lending`), and no other
//!   code follows the pointer; `from_raw_parts` and `into_raw_parts` are where they come from and go to. Nothing is copied. It may
//!   go to another thread.
//! - `Slot` is the same two words in memory of a caller in C, and becomes a region and is made of one with the same address and
//!   the same bytes (`specs/Slot`). All bytes 0 are a slot of no bytes.
//! - Neither can be dropped, and only one of no bytes is consumed by `gone`. So a function that has a region or a slot gives it back,
//!   puts it into a value of its own, or says by `forget` that the bytes are the caller's again.
//! - `KeptRegion` is a region that a value keeps which can be dropped: then the bytes are the caller's again, as they are, and a clause
//!   of its drop says so.
//! - The caller's part, which nothing checks: the bytes are at the address, may be read and written, and are nobody else's until the
//!   region is given back.
//!
//! It uses nothing but std.
#![tactic(auto)]

mod kept_region;
mod region;
mod slot;

pub use kept_region::KeptRegion;
pub use region::Region;
pub use slot::Slot;
