//! Chains of buffers, and the rings that they come from.
//!
//! A driver hands buffers to a device as chains of descriptors in guest memory, in one of two layouts: split rings (VIRTIO 1.2, 2.7)
//! and packed rings (VIRTIO 1.2, 2.8). A device sees neither layout. It asks a `Ring` for the next `Chain`, reads and writes the
//! bytes of the chain's segments by `copy_out` and `copy_in`, and publishes the chain.
//!
//! This crate has what both layouts share, and what each of them means. A ring of either layout is a `RingCore`, read in its way.
//!
//! # What the layers above may rely on
//! Every device relies on the contract of the trait `Ring`, which both layouts keep word for word:
//! - `next(ram)` returns Empty, Malformed or the chain **exactly** as the definition over whole descriptor lists says of the RAM
//!   handed in, whatever it holds. The state of the ring stays as it was. Every chain is bounded: its segments lie inside RAM, and
//!   are no more than slots. Its only error is out of memory, and that only at a long queue (`IsLongQueue`): one that is not empty,
//!   with more than four descriptors in a row at the taking position.
//! - `next_into(ram, chain)` is `next` with the chain filled in where the caller has it. A ring that has `next` has it too.
//! - Both decode at most one descriptor more than there are slots, whatever RAM holds. They keep some by a `Decoder`, and use a
//!   kept one only while its page has not changed. The caller's part is that what is kept fits RAM (`Fits`): every RAM fits a new
//!   ring, and every later RAM fits still (`laws::fits_later`). `decoded()` is the count.
//! - `take(chain)` advances the taking position by the chain's slots.
//! - `publish(id, slots, len, wrote, ram, log)` writes the bytes of `published` and no others; the log takes in exactly their pages,
//!   and the versions of exactly these rise; the result is whether an interrupt is due in the RAM after that.
//! - `note_empty(ram, log)` writes the event note and no other byte.
//! - The caller's part: the queue's areas are aligned and lie inside RAM (`HasAreas`), as those of every ready queue do (`mmio`),
//!   and the log may name the pages of RAM. Where RAM is written, both stand in one word, `MayServe`, and what every step leaves
//!   in another, `HasServed`: RAM that is later, and a log that may name its pages still.
//!
//! - Descriptors and segments hold guest-physical addresses as the guest wrote them. Where RAM begins is the `base` of a ring's state,
//!   and the functions that read or write bytes of a chain are told it. The areas of a queue are indexes in RAM (`specs/State`).
//!
//! And on these functions:
//! - `copy_out` and `copy_in` read and write the bytes of the concatenated segments in a RAM that begins at the address 0, from an
//!   offset on; where segments overlap the later byte wins; the log takes in exactly the pages written, and the versions of exactly
//!   these rise. `copy_out_with_base` and `copy_in_with_base` do so in a RAM that begins at any address.
//!   `copy_in_last` writes a byte to the last place of segments, with a look at the last of them alone.
//! - `fill(ring, base, chain, bytes, ram, log)` gives bytes to a chain: they go to its first writable bytes, and the chain is published
//!   with their count. `fill_in_parts` does the same with the bytes of two slices, one after the other.
//! - `look(ring, wanted, chain, ram, log)` is the look of every device: it finds the ring empty, which is noted, or malformed, or
//!   fills in a chain that the device can use, by what it has `Wanted`. A chain that it cannot use is malformed for it. So a step is
//!   `look(..)?`, and then what its device does with a chain.
//! - Each step at a queue ends in a `Result<Served, Unserved>`: what was done with the chain and whether an interrupt is due, or why
//!   nothing was done with one. One relation, `HasRun` (`specs/Served`), says it of every step: the step is the written one, by what
//!   the device sees; or memory was refused, where that may be, and RAM, ring, log and the device's state are as they were.
//! - `transmit(site, ring, form, message, ram, log)` is `transmit_step` over any `Ring`: it reads the message of the next chain, which a
//!   `MessageForm` separates from a malformed one, and publishes the chain with nothing written. Memory may be refused at a long queue,
//!   or where a message waits.
//! - `add(descriptor, base, len, chain)` adds the buffer of a descriptor to a chain that a ring gathers as it walks, with the tests of
//!   one buffer; `ended(chain)` is the last test, of all bytes together. Both layouts gather by these.
//! - `lacks_split`, `lacks_packed` and `lacks_bytes` say which piece of RAM a look, or the bytes of a chain, still lack, where only some
//!   pieces are held: for a step over a copy of what it reads, while the guest runs.
//! - The module `laws`: a queue has at most one chain, and so one answer; every chain is bounded, whatever the driver wrote; memory
//!   is taken only at a queue that is not empty; what a look and a service of a chain read, and that they read nothing else.
//!
//! A chain of at most `SHORT_CHAIN_MAX` descriptors takes no memory: `smallvec` keeps short lists of segments inline.
//!
//! # Definitions
//! - `specs/State`: what a ring means (`RingState`) and where its three areas lie (`HasAreas`);
//! - `specs/RingCore`: what a ring means by what it keeps;
//! - `specs/Places`: the addresses of the bytes of segments, in order;
//! - `specs/Descriptor`: the bytes of a descriptor as two numbers, the descriptor that they spell, and that at an entry of a table;
//! - `specs/Decoder`: what is kept of descriptors, and when it fits a RAM; `specs/RingSeen`: a ring with that;
//! - `specs/Whole`: the rules that the descriptors of a chain keep in either layout, and their segments;
//! - `specs/Held`: the segments of a chain while a ring gathers it;
//! - `specs/SplitChain` and `specs/PackedChain`: the chain at the taking position, and when there is none;
//! - `specs/Ring`: the answers of a ring, by its layout;
//! - `specs/LongQueue`: the queues at which memory may be taken;
//! - `specs/Gives`: the answers of a ring that fills in a chain;
//! - `specs/Publish`: what publishing and the event note write, and when an interrupt is due;
//! - `specs/Frame`: what is asked before every step, and what holds after it;
//! - `specs/Look`: what a device sees in a queue, by the chains that it can use;
//! - `specs/Service`: what a step at a queue returns and changes, by what its device does with a chain;
//! - `specs/Served`: that such a step was made, or was refused memory, and where it may be refused;
//! - `specs/ReceiveBuffer` and `Transmit`: what giving bytes to a chain writes, and the step that takes a message;
//! - `specs/Footprint`: which bytes of RAM a look reads, one after another, and what is known of RAM by pieces that are held of it;
//! - `proofs/PlaceLaws`, `EffectLaws`, `DecoderLaws`, `HeldLaws`, `FrameLaws`, `SplitLaws`, `PackedLaws`, `ChainLaws` and `LookLaws`: what follows,
//!   for proofs above; so do `SplitFootprint`, `PackedFootprint`, `LookFootprint`, `ServiceFootprint` and `QuietWord`.
//!
//! A chain is a relation on whole lists of descriptors: it says which list is the chain, and not how to find it. What no list meets
//! is malformed. Nothing is trusted here beside the toolchain and the crates below.
#![tactic(auto)]

mod adding;
mod chain;
mod copy;
mod decoder;
mod descriptor;
pub mod flags;
mod lacking;
pub mod laws;
mod limits;
mod looking;
mod next;
mod next_kind;
mod no_chain;
mod position;
mod receive_buffer;
mod ring;
mod ring_core;
mod segs;
mod served;
mod site;
mod transmitting;

pub use adding::{add, ended};
pub use chain::Chain;
pub use copy::{copy_in, copy_in_last, copy_in_with_base, copy_out, copy_out_with_base};
pub use decoder::Decoder;
pub use descriptor::{DESCRIPTOR_SIZE, Descriptor, is_table};
pub use lacking::{Piece, Walked, is_held, lacks_bytes, lacks_packed, lacks_split};
pub use limits::SHORT_CHAIN_MAX;
pub use looking::{Wanted, look};
pub use next::Next;
pub use next_kind::NextKind;
pub use no_chain::NoChain;
pub use position::{Position, Positions};
pub use receive_buffer::{fill, fill_in_parts};
pub use ring::Ring;
pub use ring_core::RingCore;
pub use segs::{Seg, Segs};
pub use served::{Done, Served, Unserved};
pub use site::Site;
pub use transmitting::{MessageForm, transmit};
