//! A block device: what it was made as, and the requests that it has taken (VIRTIO 1.2, 5.2).
//!
//! With eight requests outstanding there is no room for a ninth: its chain stays in the queue. A request lives while its queue is
//! ready: a write of 0 to QueueReady drops all, like a reset. So the slots that a request gives back are always those of the ring
//! that it came from.

ghost use Rattle.std.specs.Prelude.{◌≡◌, ◌↔◌, IfOk, IsTrue};
ghost use Rattle.blk.specs.Block.{dropped_unless, first_block, has_room, limits_of};
ghost use Rattle.blk.specs.Sound.{AreRequestsOf};

use crate::requests::{REQUESTS_MAX, Requests};
use crate::shape::{ID_SIZE, Limits, WRITE_ZEROES};
use guestmem::NoMemory;
use mmio::Queue;
use std::alloc::Global;

/// A block device. Its disk is beside it, as `Sectors`.
#[derive(Drop)]
pub struct Block {
    /// How many sectors of 512 bytes its disk has (VIRTIO 1.2, 5.2.4: the capacity).
    pub sectors: u64,

    /// Whether the driver may only read it (VIRTIO 1.2, 5.2.3: the feature RO).
    pub read_only: bool,

    /// What it answers to a driver that asks for its id.
    pub id: [u8; ID_SIZE],

    /// The requests that it has taken and not yet ended, in the order of taking.
    pub requests: Requests,
}

impl Block {
    /// A new device, with no request outstanding. Its only error is out of memory.
    pub fn new(
        alloc: Global,
        sectors: u64,
        read_only: bool,
        id: [u8; ID_SIZE],
    ) -> Result<Block, NoMemory>
        ensures { IfOk result (λ block. block ≡ first_block sectors read_only id) }
    {
        Ok(Block {
            sectors,
            read_only,
            id,
            requests: Requests::new(alloc)?,
        })
    }

    /// Whether there is room for one more request. Without it the device has nothing to do at its queue.
    pub fn has_room(&self) -> bool
        ensures { result ≡ has_room self.now }
    {
        self.requests.len() < REQUESTS_MAX
    }

    /// Drops the outstanding requests, unless the queue that they came from is ready. Their chains are not published.
    pub fn drop_requests_unless(&mut self, is_ready: bool)
        ensures { self.new ≡ dropped_unless is_ready self.old }
    {
        if !is_ready {
            self.requests.clear();
        }
    }

    /// Whether it may have its requests outstanding, in a RAM of `ram_len` bytes with this base, on a queue of this layout, with a driver
    /// that accepted these features: they are not too many, each may be outstanding, and there are none unless the queue is ready.
    pub fn has_sound_requests(
        &self,
        base: u64,
        ram_len: u64,
        is_packed: bool,
        queue: &Queue,
        features: u64,
    ) -> bool
        ensures { IsTrue result ↔ AreRequestsOf base ram_len is_packed queue.now (limits_of self.now features) self.now.requests }
    {
        let limits = self.limits(features);
        self.requests.len() <= REQUESTS_MAX
            && self.requests.as_slice().iter().all(|request| request.is_sound(
                base, ram_len, is_packed, queue.size, limits,
            ))
            && (queue.is_ready || self.requests.is_empty())
    }

    /// What a driver that accepted these features may ask for.
    pub(crate) fn limits(&self, features: u64) -> Limits
        ensures { result ≡ limits_of self.now features }
    {
        Limits {
            sectors: self.sectors,
            read_only: self.read_only,
            may_clear: features & WRITE_ZEROES == WRITE_ZEROES,
        }
    }
}
