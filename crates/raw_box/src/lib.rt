//! A box as its address and its allocator, both accessible.
//!
//! A type that holds a box behind a raw pointer opens it by `OpenBox::open`, keeps the two fields as it likes, and makes it a
//! box again by `OpenBox::close`. Meanwhile nothing is freed or lent: an open box owns what the box owned, and its field `held`
//! is the value at the address. It uses nothing but std.
#![tactic(auto)]

mod open_box;

pub use open_box::OpenBox;
