//! Split rings (VIRTIO 1.2, 2.7): the trait `Ring` of `chains` in the split layout.
//!
//! A split queue has a table of descriptors, an area that the driver writes (its index, and the heads of the chains that it makes
//! available) and an area that the device writes (its index, and the chains that it has used). The ring keeps up to sixteen descriptors
//! of the table, and uses one only while its page has not changed since: a hostile driver can make it return nothing but what is there.
//!
//! # What the layers above may rely on
//! The contracts are those of the trait, over the definitions of `chains` (`SplitChain` and `Publish` among its specs). `new` makes
//! the ring of a ready queue under the driver's features, at the positions given, in a RAM that begins at the address 0, and `new_at`
//! in one that begins at any address. Buffers and tables are
//! named by their guest-physical addresses, and one that begins below the base is malformed, as is one that passes the end of RAM.
//!
//! Looking for a chain decodes at most one descriptor more than there are slots, whatever RAM holds: a walk stops after as many as
//! there are slots, and a table gets the room that the descriptors before the one that names it left. That is the clause `few` of
//! the trait.
//!
//! Each buffer goes into the caller's chain as its descriptor is read, by `chains::add`, with its tests. `specs/Walk` has the
//! definitions for the functions inside. Nothing is trusted here beside the crates below.
#![tactic(auto)]

mod ring;
mod slot;
mod table;
mod walk;

pub use ring::SplitRing;
