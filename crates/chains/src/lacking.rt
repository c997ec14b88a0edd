//! Which piece of RAM a look at a queue still lacks, where only some pieces are held.
//!
//! A host whose guest runs copies pieces of the guest's memory into the RAM that a step is made over, one by one, as they are asked for here.
//! The order is the rule: the driver's index, or the flags of a descriptor, is copied before what it hands over. These functions read what is
//! held, and nothing else, and take no memory. `None` says that the look reads no byte beside those that are held. A piece that is asked for
//! lies inside RAM and in no piece that is held: so no piece is asked for twice, and a host that copies each comes to an end.

ghost use Rattle.std.specs.Prelude.{◌≡◌, ◌+◌, ◌-◌, ◌*◌, ◌<◌, ◌≤◌, List, ℕ, IsTrue, drop, false, length, min, take, true};
ghost use Rattle.guestmem.specs.Address.{IsWithin, index_of};
ghost use Rattle.chains.specs.Footprint.{AgreeAt, KnowsPiece, chain_pieces, is_available, packed_pieces, place_pieces, slot_pieces, split_pieces, table_pieces, whole_table};
ghost use Rattle.chains.specs.Lacking.{LiesIn, LiesInNone, SlotsKnow, TellsLacking, WalkKnows};
ghost use Rattle.chains.specs.Places.{AreSegmentsInside, places};
ghost use Rattle.chains.specs.RingCore.{core_state};
ghost use Rattle.chains.specs.State.{HasAreas};

use crate::descriptor::{DESCRIPTOR_SIZE, Descriptor, decode, is_table, words_at};
use crate::ring_core::RingCore;
use crate::segs::Seg;
use guestmem::Ram;

/// A piece of RAM: `count` bytes, from an index on.
#[derive(Clone, Copy, Debug, PartialEq, Eq)]
pub struct Piece {
    /// The index in RAM of the first byte.
    pub at: u64,

    /// The number of bytes.
    pub count: u64,
}

impl Piece {
    /// Whether another piece lies in this one.
    #[tactic(auto, using(crate::proofs::Known::lies_in))]
    fn has(&self, other: Piece) -> bool
        ensures known { IsTrue result → (a b : List ℕ) → AgreeAt a b self.now → AgreeAt a b other }
        ensures outside { result ≡ false → LiesIn other self.now → ⊥ }
    {
        if other.at < self.at || self.count < other.count {
            return false;
        }
        other.at - self.at <= self.count - other.count
    }
}

/// Whether a piece lies in one of those that are held, or is empty.
#[tactic(auto, using(crate::proofs::Known::one_held, crate::proofs::Known::none_known))]
pub fn is_held(held: &[Piece], piece: Piece) -> bool
    ensures known { IsTrue result → KnowsPiece held.now piece }
    ensures some { result ≡ false → 0 < piece.count }
    ensures fresh { result ≡ false → LiesInNone piece held.now }
{
    if piece.count == 0 {
        return true;
    }
    for one in held {
        if one.has(piece) {
            return true;
        }
    }
    false
}

/// Where a walk of a list stops.
#[derive(Clone, Copy)]
pub enum Walked {
    /// It lacks this piece.
    Lacks(Piece),

    /// The list ends with this descriptor.
    Ends(Descriptor),

    /// It breaks a rule: an index lies past the table, or there are more descriptors than there is room for.
    Breaks,
}

/// Walks the list at an entry of a table over what is held. It looks at no more than `room` descriptors.
fn walk_held(held: &[Piece], ram: &Ram, table: u64, entries: u32, first: u16, room: u16) -> Walked
    requires inside { table + DESCRIPTOR_SIZE * entries ≤ length ram.now.bytes }
    ensures { WalkKnows held.now ram.now.bytes table entries room first result }
{
    ram.recall();
    let mut index = first;
    for _step in 0..room {
        if index as u32 >= entries {
            return Walked::Breaks;
        }
        let entry = Piece {
            at: table + DESCRIPTOR_SIZE * index as u64,
            count: DESCRIPTOR_SIZE,
        };
        if !is_held(held, entry) {
            return Walked::Lacks(entry);
        }
        let descriptor = decode(false, words_at(ram, entry.at));
        if !descriptor.has_next {
            return Walked::Ends(descriptor);
        }
        index = descriptor.next;
    }
    Walked::Breaks
}

/// The first piece that a look at a split queue lacks, if it lacks one.
pub fn lacks_split(core: &RingCore, ram: &Ram, held: &[Piece]) -> Option<Piece>
    requires areas { HasAreas (length ram.now.bytes) (core_state false core.now) }
    ensures { TellsLacking held.now ram.now.bytes (split_pieces ram.now.bytes (core_state false core.now)) result }
{
    ram.recall();
    let index = Piece {
        at: core.driver + 2,
        count: 2,
    };
    if !is_held(held, index) {
        return Some(index);
    }
    let available = ram.u16_at(index.at);
    if available == core.taking.place {
        return None;
    }
    if available.wrapping_sub(core.taking.place) > core.size {
        return None;
    }
    lacks_chain(core, ram, held)
}

/// The first piece that is lacking of the chain at the taking position of a split queue.
fn lacks_chain(core: &RingCore, ram: &Ram, held: &[Piece]) -> Option<Piece>
    requires areas { HasAreas (length ram.now.bytes) (core_state false core.now) }
    ensures { TellsLacking held.now ram.now.bytes (chain_pieces ram.now.bytes (core_state false core.now)) result }
{
    ram.recall();
    let slot = core.taking.place % core.size;
    let head = Piece {
        at: core.driver + 4 + 2 * slot as u64,
        count: 2,
    };
    if !is_held(held, head) {
        return Some(head);
    }
    let first = ram.u16_at(head.at);
    match walk_held(
        held,
        ram,
        core.descriptors,
        core.size as u32,
        first,
        core.size,
    ) {
        Walked::Lacks(piece) => Some(piece),
        Walked::Breaks => None,
        Walked::Ends(last) => lacks_table(core, ram, held, last),
    }
}

/// The first piece that is lacking of the table that the last descriptor of a list names, if it names one.
fn lacks_table(core: &RingCore, ram: &Ram, held: &[Piece], last: Descriptor) -> Option<Piece>
    ensures { TellsLacking held.now ram.now.bytes (table_pieces ram.now.bytes (core_state false core.now) last) result }
{
    if !last.is_indirect || !core.has_indirect() || !is_table(&last, core.base, ram) {
        return None;
    }
    let entries = last.len / DESCRIPTOR_SIZE as u32;
    match walk_held(held, ram, last.addr - core.base, entries, 0, core.size) {
        Walked::Lacks(piece) => Some(piece),
        Walked::Breaks => None,
        Walked::Ends(_) => None,
    }
}

/// Walks the descriptors in consecutive slots of a packed ring, from the taking position on, over what is held.
fn walk_slots(core: &RingCore, ram: &Ram, held: &[Piece]) -> Walked
    requires areas { HasAreas (length ram.now.bytes) (core_state true core.now) }
    requires slot { core.now.taking.place < core.now.size }
    ensures { SlotsKnow held.now ram.now.bytes core.now.descriptors core.now.size core.now.size core.now.taking.place result }
{
    ram.recall();
    let mut slot = core.taking.place;
    for _step in 0..core.size {
        let slot_entry = Piece {
            at: core.descriptors + DESCRIPTOR_SIZE * slot as u64,
            count: DESCRIPTOR_SIZE,
        };
        if !is_held(held, slot_entry) {
            return Walked::Lacks(slot_entry);
        }
        let descriptor = decode(true, words_at(ram, slot_entry.at));
        if !descriptor.has_next {
            return Walked::Ends(descriptor);
        }
        slot = (slot + 1) % core.size;
    }
    Walked::Breaks
}

/// The first piece that a look at a packed queue lacks, if it lacks one.
pub fn lacks_packed(core: &RingCore, ram: &Ram, held: &[Piece]) -> Option<Piece>
    requires areas { HasAreas (length ram.now.bytes) (core_state true core.now) }
    requires slot { core.now.taking.place < core.now.size }
    ensures { TellsLacking held.now ram.now.bytes (packed_pieces ram.now.bytes (core_state true core.now)) result }
{
    ram.recall();
    let first_entry = Piece {
        at: core.descriptors + DESCRIPTOR_SIZE * core.taking.place as u64,
        count: DESCRIPTOR_SIZE,
    };
    if !is_held(held, first_entry) {
        return Some(first_entry);
    }
    let first = decode(true, words_at(ram, first_entry.at));
    if !is_available_at(&first, core.taking.wrap) {
        return None;
    }
    lacks_slots(core, ram, held)
}

/// Whether a descriptor is available to a device with this wrap counter.
fn is_available_at(descriptor: &Descriptor, wrap: bool) -> bool
    ensures { result ≡ is_available wrap descriptor.now.avail_flag descriptor.now.used_flag }
{
    if wrap {
        descriptor.avail_flag && !descriptor.used_flag
    } else {
        !descriptor.avail_flag && descriptor.used_flag
    }
}

/// The first piece that is lacking of the chain at the taking position of a packed queue.
fn lacks_slots(core: &RingCore, ram: &Ram, held: &[Piece]) -> Option<Piece>
    requires areas { HasAreas (length ram.now.bytes) (core_state true core.now) }
    requires slot { core.now.taking.place < core.now.size }
    ensures { TellsLacking held.now ram.now.bytes (slot_pieces (whole_table ram.now.bytes (core_state true core.now)) ram.now.bytes core.now.descriptors core.now.size core.now.size core.now.taking.place) result }
{
    match walk_slots(core, ram, held) {
        Walked::Lacks(piece) => Some(piece),
        Walked::Breaks => None,
        Walked::Ends(last) => lacks_entries(core, ram, held, last),
    }
}

/// The table that the last descriptor of a packed chain names, if it is lacking. A table of more entries than there are slots is not read.
fn lacks_entries(core: &RingCore, ram: &Ram, held: &[Piece], last: Descriptor) -> Option<Piece>
    ensures { TellsLacking held.now ram.now.bytes (whole_table ram.now.bytes (core_state true core.now) last) result }
{
    if !last.is_indirect || !core.has_indirect() || !is_table(&last, core.base, ram) {
        return None;
    }
    let entries = last.len / DESCRIPTOR_SIZE as u32;
    if entries > core.size as u32 {
        return None;
    }
    let table = Piece {
        at: last.addr - core.base,
        count: DESCRIPTOR_SIZE * entries as u64,
    };
    if !is_held(held, table) {
        return Some(table);
    }
    None
}

/// The first piece that is lacking of `count` bytes of segments, from offset `skip` on, if one is. Of each segment one piece is asked for.
pub fn lacks_bytes(
    held: &[Piece],
    base: u64,
    ram: &Ram,
    segs: &[Seg],
    skip: u64,
    count: u64,
) -> Option<Piece>
    requires inside { AreSegmentsInside base (length ram.now.bytes) segs.now }
    ensures { TellsLacking held.now ram.now.bytes (place_pieces base (take count (drop skip (places segs.now)))) result }
{
    ram.recall();
    let mut skip = skip;
    let mut left = count;
    for seg in segs {
        let part = part_of(base, ram, seg, skip, left);
        if !is_held(held, part) {
            return Some(part);
        }
        skip = skip.saturating_sub(seg.len as u64);
        left -= part.count;
    }
    None
}

/// The part of a segment that lies among the `left` bytes from offset `skip` on.
fn part_of(base: u64, ram: &Ram, seg: &Seg, skip: u64, left: u64) -> Piece
    requires inside { IsWithin base (length ram.now.bytes) seg.now.addr seg.now.len }
    ensures at { result.at ≡ index_of base seg.now.addr + min skip seg.now.len }
    ensures count { result.count ≡ min left (seg.now.len - skip) }
{
    ram.recall();
    let len = seg.len as u64;
    Piece {
        at: seg.addr - base + skip.min(len),
        count: left.min(len.saturating_sub(skip)),
    }
}
