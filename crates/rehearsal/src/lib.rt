//! A rehearsed migration of a machine: what an embedder may try before it trusts a migration, and the promise of a
//! migration as one contract.
//!
//! `rehearse(machine, events, disks, cuts)` plays the events on a machine that is being migrated, up to and including
//! the first stop that returns Ok, feeds the stream to a receiver over the disks, in pieces of the sizes of the cuts,
//! and plays the remaining events of the guest on both machines.
//!
//! # What the layers above may rely on
//! By the variant of its result (`specs/Rehearsing`):
//! - `NotStopped` exactly if no stop returned Ok: the machine after the events, and all their replies; or, if memory
//!   was refused before the first event, the machine as it was given, and no reply.
//! - `Refused`: the machine at the stop, and the error: `ShapeMismatch` exactly if the disks do not fit, `DiskFailed`
//!   only where one of them is not steady, or `NoMemory`, and no other, whatever the disks of the machine do.
//! - `Arrived`: the disks fit. Both machines played the remaining events of the guest, the one that was migrated from
//!   the stop on, the other as it came out of the receiver over these disks. In the replies of each, a failed disk is
//!   one that is not steady. If the disks that were given are honest, the machine that arrived began with the RAM and the
//!   devices of the one at the stop. If those of the machine are honest too, it began as that one: both are runs from
//!   there, and with the same outcomes their replies are the same and they are equal.
//! - In all three the machine keeps its shape, and the replies up to the stop are those of a `replay`: its promises hold of
//!   them, over a writer in memory. With any disks each of them is the reply of its call.
//!
//! All of this holds wherever the machine's RAM begins: the receiver is told the address at which that of the machine at the stop does.
//!
//! That there is a stream between the two machines is not in the contract, which speaks of machines: a test shows it, over a disk
//! that keeps the list of its writes.
//!
//! `laws` says of a host that makes the calls itself that what arrives is the machine that it stopped, where the receiver was told where
//! its RAM begins (`specs/Moves`),
//! and of a host whose disks are `MemDisk`s that they are honest and steady for as long as its machine lives (`specs/InMemory`).
//!
//! It uses `sender` and `receiver`.
#![tactic(auto)]

pub mod laws;
mod rehearsing;

pub use rehearsing::{Rehearsal, rehearse};
