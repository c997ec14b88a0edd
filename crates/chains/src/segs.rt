//! Segments of guest memory.
//!
//! Drivers of block and network devices hand over two or three buffers for ordinary requests, and an entropy or console request
//! has one; so these steps take no memory. Four segments are 64 bytes. A list that has to grow does so in a call of its own, which
//! a step of few segments does not carry along (docs/costs.md, "A step"). A list keeps its count and its bytes in all, so nobody
//! adds them up again.

ghost use Rattle.std.specs.Prelude.{◌≡◌, ◌==◌, ◌<◌, ◌≤◌, ◌+◌, ◌^◌, [], ◌∷◌, ◌++◌, length, OnOk, OnErr, IsOk};
ghost use Rattle.chains.specs.Places.{places};

use crate::limits::SHORT_CHAIN_MAX;
use guestmem::NoMemory;
use smallvec::SmallVec;
use std::alloc::Global;
use std::marker::Model;

/// `len` bytes of guest memory, from `addr` on.
#[derive(Clone, Copy, Debug, Default, PartialEq, Eq)]
pub struct Seg {
    /// The guest-physical address of the first byte.
    pub addr: u64,

    /// The number of bytes, which may be 0.
    pub len: u32,
}

/// Segments in order. Contracts see the list of them. The first `SHORT_CHAIN_MAX` are kept inline, so serving a chain of
/// no more needs no memory.
#[derive(Drop)]
pub struct Segs {
    /// How many they are. The list could tell, but not without a look at how it is kept. It does not stand beside the total: two
    /// numbers side by side are added to as one vector, which takes longer.
    count: usize,

    list: SmallVec<Seg, SHORT_CHAIN_MAX>,

    /// The bytes of all of them.
    total: u64,
}

impl Model for Segs {
    ghost use Rattle.std.specs.Prelude.{List, ◌≡◌, ◌≤◌, ◌*◌, length};
    ghost use Rattle.chains.specs.declared.segs.Seg.{Seg};
    ghost use Rattle.chains.specs.declared.limits.TheConstants.{SHORT_CHAIN_MAX};
    ghost use Rattle.chains.specs.Places.{places};

    ghost Value = { List Seg };

    ghost view = { λ s. s.list.items };

    ghost invariant = { λ s. (SHORT_CHAIN_MAX ≤ s.list.capacity) × (s.count ≡ length s.list.items) × (s.total ≡ length (places s.list.items)) × (s.total ≤ 4294967295 * length s.list.items) };
}

impl Segs {
    /// No segments yet. Those that do not fit inline go to memory of this allocator.
    pub fn new(alloc: Global) -> Segs
        ensures { result ≡ [] }
    {
        Segs {
            count: 0,
            list: SmallVec::new(alloc),
            total: 0,
        }
    }

    /// Removes all segments. The memory stays.
    pub fn clear(&mut self)
        ensures { self.new ≡ [] }
    {
        if self.count == 0 {
            return;
        }
        self.list.clear();
        self.count = 0;
        self.total = 0;
    }

    /// Adds a segment at the end. Its only error is out of memory, and then nothing has changed. It never fails on a
    /// list of fewer than `SHORT_CHAIN_MAX`.
    #[inline(always)]
    pub fn push(&mut self, seg: Seg) -> Result<(), NoMemory>
        requires few { length self.old < 2 ^ 32 }
        ensures ok { OnOk result (self.new ≡ self.old ++ seg ∷ []) }
        ensures err { OnErr result (self.new ≡ self.old) }
        ensures short { length self.old < SHORT_CHAIN_MAX → IsOk result }
    {
        // The inline places are filled without a look at how the list is kept.
        if self.count >= SHORT_CHAIN_MAX {
            grow(&mut self.list)?;
        }
        self.list.push_reserved(seg);
        self.count += 1;
        self.total += seg.len as u64;
        Ok(())
    }

    /// The segments.
    pub fn as_slice(&self) -> &[Seg]
        ensures { result.now ≡ self.now }
    {
        self.list.as_slice()
    }

    /// The number of segments.
    pub fn len(&self) -> usize
        ensures { result ≡ length self.now }
    {
        self.count
    }

    /// The number of bytes of all segments.
    pub fn total_len(&self) -> u64
        ensures { result ≡ length (places self.now) }
    {
        self.total
    }

    /// Whether there is no segment.
    pub fn is_empty(&self) -> bool
        ensures { result ≡ (length self.now == 0) }
    {
        self.count == 0
    }
}

/// Makes room for one more segment, where there is none. Its only error is out of memory, and then nothing has changed.
#[cold]
#[inline(never)]
fn grow(list: &mut SmallVec<Seg, SHORT_CHAIN_MAX>) -> Result<(), NoMemory>
    ensures items { list.new.items ≡ list.old.items }
    ensures room { OnOk result (length list.new.items + 1 ≤ list.new.capacity) }
    ensures err { OnErr result (list.new ≡ list.old) }
    ensures capacity { list.old.capacity ≤ list.new.capacity }
{
    list.reserve(1)
}
