//! Packed rings (VIRTIO 1.2, 2.8): the trait `Ring` of `chains` in the packed layout.
//!
//! A packed queue has one ring of descriptors, which the driver and the device both write, and for each of them a small area that says
//! when it wants to be notified. A wrap counter separates what was written this time round from what is left of the last one. The ring
//! keeps up to sixteen of the descriptors that it has read, and uses one only while its page has not changed since: a hostile driver can
//! make it return nothing but what is there. Publishing writes into that page, so mostly it is a look repeated on the same RAM that
//! finds them.
//!
//! # What the layers above may rely on
//! The contracts are those of the trait, over the definitions of `chains` (`PackedChain` and `Publish` among its specs). `new` makes
//! the ring of a ready queue under the driver's features, at the positions given, in a RAM that begins at the address 0, and `new_at`
//! in one that begins at any address. Buffers and tables are
//! named by their guest-physical addresses, and one that begins below the base is malformed, as is one that passes the end of RAM.
//!
//! Looking for a chain decodes at most one descriptor more than there are slots, whatever RAM holds: a walk reads no slot twice, and
//! a table with more entries than slots is refused before it is read. That is the clause `few` of the trait.
//!
//! Each buffer goes into the caller's chain as its descriptor is read, by `chains::add`, with its tests. `specs/Walk` has the
//! definitions for the functions inside. Nothing is trusted here beside the crates below.
#![tactic(auto)]

mod events;
mod going_on;
mod ring;
mod table;
mod walk;

pub use ring::PackedRing;
