//! Sets of numbers below a fixed length.
//!
//! A `BitSet` holds which sectors of a disk are bad, and which pages and sectors still have to be sent.
//!
//! # What the layers above may rely on
//! - Contracts see a set as the list that says of each number below its length whether it is a member (`specs/Members`). How a set
//!   keeps them is no part of that.
//! - `insert`, `remove`, `contains`, `first_from` (the least member from a number on), `count`, `count_below`, `is_empty`, `swap_out`,
//!   `fill` and `clear` are what their names say of this list. `count` and `is_empty` read one number, `count_below` one for each 64 below.
//!   `first_counted` is `first_from` with the number of words that were looked at: at most 16 and one for each 4,096 numbers, and none where the
//!   set has no members.
//! - `bit_from` is the lowest bit of a word that is set, from a place on; `first_nonzero` the first word that is not zero.
//! - All its room is made with it: only `BitSet::new` takes memory.
//! - The caller's part: numbers below the length (for `first_from` and `count_below` at most the length); for `swap_out` a set of the same length
//!   without members.
//!
//! A set is kept as one bit a number in words of 64, and as a second level with one bit for each word that is not zero
//! (`specs/Words`). A search looks at the rest of one word, and then at the second level, eight words at a time. Every word that it
//! looks at is read by `Reader::read`, which counts it: that no other function reads one is for a reader of `scan.rt` to see.
//!
//! Nothing is trusted here beside the toolchain.
#![tactic(auto)]

mod bit_set;
mod bits;
mod scan;

pub use bit_set::BitSet;
pub use scan::{bit_from, first_nonzero};
pub use std::alloc::AllocError as NoMemory;
