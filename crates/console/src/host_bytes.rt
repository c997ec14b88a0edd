//! What the host has put in for the guest to take.

use circular_buffer::HeapCircularBuffer;
use guestmem::{NoMemory, recall_bytes};
use std::alloc::Global;
use std::marker::Model;

/// The most bytes that the host can have put in and the guest not yet taken.
pub const HOST_BYTES_MAX: usize = 4096;

/// Bytes that the host has put in and the guest has not yet taken, in their order: at most 4,096. Its room is made with
/// it, so putting bytes in and taking them out takes no memory.
#[derive(Drop)]
pub struct HostBytes {
    held: HeapCircularBuffer<u8>,
}

impl Model for HostBytes {
    ghost use Rattle.std.specs.Prelude.{ℕ, List, ◌≡◌};
    ghost use Rattle.console.specs.declared.host_bytes.TheConstants.{HOST_BYTES_MAX};

    ghost Value = { List ℕ };

    ghost view = { λ b. b.held.items };

    ghost invariant = { λ b. b.held.capacity ≡ HOST_BYTES_MAX };
}

impl HostBytes {
    ghost use Rattle.std.specs.Prelude.{◌≡◌, ◌≤◌, ◌<◌, ◌^◌, ◌-◌, ◌++◌, ◌==◌, [], length, take, drop, min, IfOk};
    ghost use Rattle.guestmem.specs.Number.{IsBytes};

    /// No bytes. Its only error is out of memory.
    pub fn new(alloc: Global) -> Result<HostBytes, NoMemory>
        ensures { IfOk result (λ b. b ≡ []) }
    {
        let held = HeapCircularBuffer::with_capacity(alloc, HOST_BYTES_MAX)?;
        Ok(HostBytes { held })
    }

    /// These bytes. Its only error is out of memory.
    pub fn from_slice(alloc: Global, bytes: &[u8]) -> Result<HostBytes, NoMemory>
        requires { length bytes.now ≤ HOST_BYTES_MAX }
        ensures { IfOk result (λ b. b ≡ bytes.now) }
    {
        let mut held = HeapCircularBuffer::with_capacity(alloc, HOST_BYTES_MAX)?;
        held.fill_from_slice(bytes);
        Ok(HostBytes { held })
    }

    /// States for proofs what holds of all bytes held (see the page of `guestmem`).
    pub fn recall(&self)
        ensures within { length self.now ≤ HOST_BYTES_MAX }
        ensures bytes { IsBytes self.now }
    {
        prove!(self.held.len() <= HOST_BYTES_MAX);
        let (front, back) = self.held.as_slices();
        recall_bytes(front);
        recall_bytes(back);
    }

    /// How many bytes there are: at most `HOST_BYTES_MAX`.
    pub fn len(&self) -> usize
        ensures len { result ≡ length self.now }
        ensures within { result ≤ HOST_BYTES_MAX }
    {
        self.held.len()
    }

    /// Whether there are none.
    pub fn is_empty(&self) -> bool
        ensures { result ≡ (length self.now == 0) }
    {
        self.held.is_empty()
    }

    /// Puts in the first of the bytes, as many as there is room for, and returns how many these are.
    pub fn put_in(&mut self, bytes: &[u8]) -> usize
        ensures count { result ≡ min (length bytes.now) (HOST_BYTES_MAX - length self.old) }
        ensures held { self.new ≡ self.old ++ take result bytes.now }
    {
        self.held.fill_from_slice(bytes)
    }

    /// Drops all of them.
    pub fn clear(&mut self)
        ensures { self.new ≡ [] }
    {
        self.held.clear();
    }

    /// The bytes, as two slices one after the other.
    pub fn as_slices(&self) -> (&[u8], &[u8])
        ensures { result.0.now ++ result.1.now ≡ self.now }
    {
        self.held.as_slices()
    }

    /// Takes out the first of the bytes.
    pub(crate) fn take_out(&mut self, count: usize)
        requires { count ≤ length self.old }
        ensures { self.new ≡ drop count self.old }
    {
        let left = self.len() - count;
        self.held.truncate_front(left);
    }
}
