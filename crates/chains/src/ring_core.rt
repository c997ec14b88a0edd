//! What a ring of either layout keeps.
//!
//! A ring is the registers of its queue and its positions, whatever the layout: only the walk, what is published and the event
//! note differ. The areas are aligned and lie in RAM, which `mmio` proves of every ready queue, so no ring tests it.

ghost use Rattle.std.specs.Prelude.{◌≡◌, ◌≤◌};
ghost use Rattle.mmio.specs.Bits.{has};
ghost use Rattle.mmio.specs.declared.constants.TheConstants.{QUEUE_SIZE_MAX};
ghost use Rattle.chains.specs.State.{state_of, AreAbove, MayRing};

use crate::position::{Position, Positions};
use mmio::{EVENT_IDX, INDIRECT_DESC, Queue, RING_PACKED};
use std::alloc::Global;

/// What a ring of either layout keeps: its features, where its areas lie, and its positions.
#[derive(Drop)]
pub struct RingCore {
    /// For the chains that the ring finds.
    pub alloc: Global,

    /// The features that the driver accepted.
    pub features: u64,

    /// The guest-physical address at which RAM begins.
    pub base: u64,

    /// The number of slots.
    pub size: u16,

    /// The index in RAM of the descriptor area.
    pub descriptors: u64,

    /// The index in RAM of the driver area.
    pub driver: u64,

    /// The index in RAM of the device area.
    pub device: u64,

    /// Where the next chain is taken.
    pub taking: Position,

    /// Where the next used chain is published.
    pub used: Position,

    ghost some: { 1 ≤ size },
    ghost few: { size ≤ QUEUE_SIZE_MAX },
}

impl RingCore {
    ghost use Rattle.chains.specs.RingCore.{core_state};

    /// Of a queue at these positions, under the features that the driver accepted, in a RAM with this base. No area of the queue begins
    /// below it: a ready queue is such a one. It takes no memory.
    pub fn new(
        alloc: Global,
        queue: &Queue,
        features: u64,
        base: u64,
        positions: Positions,
    ) -> RingCore
        requires may { MayRing (state_of queue.now features base positions) }
        requires above { AreAbove base queue.now }
        ensures state { core_state (has features RING_PACKED) result ≡ state_of queue.now features base positions }
        ensures features { result.features ≡ features }
    {
        RingCore {
            alloc,
            features,
            base,
            size: queue.size as u16,
            descriptors: queue.descriptors - base,
            driver: queue.driver - base,
            device: queue.device - base,
            taking: positions.taking,
            used: positions.used,
        }
    }

    /// Whether the driver accepted indirect descriptors.
    pub fn has_indirect(&self) -> bool
        ensures { result ≡ has self.now.features INDIRECT_DESC }
    {
        self.features & INDIRECT_DESC == INDIRECT_DESC
    }

    /// Whether the driver accepted event indexes.
    pub fn has_event_index(&self) -> bool
        ensures { result ≡ has self.now.features EVENT_IDX }
    {
        self.features & EVENT_IDX == EVENT_IDX
    }

    /// Both positions.
    pub fn positions(&self) -> Positions
        ensures { result ≡ record { taking = self.now.taking; used = self.now.used } }
    {
        Positions {
            taking: self.taking,
            used: self.used,
        }
    }
}
