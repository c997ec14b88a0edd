//! SHA-256 (FIPS 180-4) for a host in C, over 112 bytes of its own.
//!
//! A host that sends more than a stream covers it by a digest, as the stream is covered by the one at its end. The calls are pure: no machine, no
//! memory, and each thread may make them over digests of its own.
//!
//! # What the layer above may rely on
//! - A digest holds a message (`specs/Holding`): after `begin` the empty one, and after each `add` its bytes more. `end` gives `sha256` of it, as
//!   the crate `sha2` defines it, and the digest begins anew.
//! - A digest is words, and nothing else: a copy of it continues by itself. No call requires anything: over words that hold no message it is safe
//!   and ends, and nothing more is said of it.
//! - The count of a message is that of the standard, modulo 2^64 bits. `sha256` says what the digest of a longer message is.
//!
//! # Why it is so
//! - The hasher of `sha2` is a struct that C cannot hold: an export takes structs whose words C sees. So the words stand here, with what is done to
//!   them, and the definitions are those of `sha2`: which message the words hold, and what its digest is.
#![tactic(auto)]

mod block;
mod digest;

pub use digest::Digest;
