//! Reading descriptors, with those kept whose pages have not changed.
//!
//! No definition of a queue knows of what is kept: what a ring answers is a function of RAM as it is. The key of a kept
//! descriptor is its index in RAM and not that in the table, so a queue whose table has moved finds none, and no contract ties a decoder to
//! a queue. The caller's part is `Fits`, which a new decoder keeps for every RAM, and every later RAM keeps
//! (`laws::fits_later`). Entries of indirect tables are not kept: these tables change with each request.
//!
//! Every descriptor is read from RAM by `Decoder::read_words`, which counts it. So the bound of a look, one descriptor more
//! than there are slots, is a clause of the count, and a search for `words_at` shows that nothing reads past it. The sixteen
//! bytes are the same in either layout: two numbers are stored in place of nine fields.

ghost use Rattle.std.specs.Prelude.{◌≡◌, ◌+◌, ◌*◌, ◌%◌, ◌<◌, ◌≤◌, ◌&&◌, if◌then◌else◌, length, true, false};
ghost use Rattle.guestmem.specs.Memory.{Memory};
ghost use Rattle.guestmem.specs.Write.{raised};
ghost use Rattle.chains.specs.Descriptor.{descriptor_at, descriptor_in, words_of};
ghost use Rattle.chains.specs.Decoder.{Fits, HasDecoded, empty_decoder, is_kept};

use crate::descriptor::{DESCRIPTOR_SIZE, Descriptor, Words, decode, words_at};
use guestmem::{PAGE_SIZE, Ram};
use std::marker::Model;

/// How many descriptors a decoder keeps at most.
pub(crate) const KEPT_MAX: usize = 16;

/// A descriptor that was read, and what tells whether it is still so in RAM. It is kept as its bytes: a look at them gives what is
/// asked of it, where nine fields would have to be put away.
#[derive(Clone, Copy)]
pub(crate) struct Kept {
    /// The index in RAM at which it was read.
    pub(crate) index: u64,

    /// The version of its page when it was read.
    pub(crate) version: u64,

    /// What was read.
    pub(crate) words: Words,
}

/// Reads descriptors, counts those that it decodes, and keeps some of the queue's own table: descriptor i under the number i
/// mod `KEPT_MAX`. A kept one is used only where the version of its page is the same and below the greatest. An entry of an
/// indirect table is never kept.
#[derive(Drop)]
pub struct Decoder {
    decoded: u64,
    kept: [Option<Kept>; KEPT_MAX],
}

impl Model for Decoder {
    ghost use Rattle.chains.specs.Decoder.{DecoderState};

    ghost Value = { DecoderState };

    ghost view = { λ d. record { decoded = d.decoded; kept = d.kept } };
}

impl Decoder {
    /// One that has decoded no descriptor and keeps none. It takes no memory.
    pub fn new() -> Decoder
        ensures empty { result ≡ empty_decoder 0 }
        ensures fits { (ram : Memory) → Fits result ram }
    {
        Decoder {
            decoded: 0,
            kept: [None; KEPT_MAX],
        }
    }

    /// The number of descriptors decoded since it was made. It stays at its greatest value.
    pub fn decoded(&self) -> u64
        ensures { result ≡ self.now.decoded }
    {
        self.decoded
    }

    /// Keeps no descriptor any more. The count stays.
    pub fn clear(&mut self)
        ensures empty { self.new ≡ empty_decoder self.old.decoded }
        ensures fits { (ram : Memory) → Fits self.new ram }
    {
        self.kept = [None; KEPT_MAX];
    }

    /// The descriptor at an entry of a table of the layout, which lies at the index `table` in RAM. `is_own` says that the table is the queue's own, so that its
    /// descriptors may be kept; the caller's part is then that what is kept fits RAM, and that the table is aligned, so
    /// that no descriptor lies in two pages.
    #[inline(always)]
    #[tactic(auto, unfolding(crate::specs::Descriptor::descriptor_at, crate::specs::Descriptor::descriptor_in))]
    pub fn read(
        &mut self,
        ram: &Ram,
        is_packed: bool,
        table: u64,
        entry: u16,
        is_own: bool,
    ) -> Descriptor
        requires inside { table + DESCRIPTOR_SIZE * entry + DESCRIPTOR_SIZE ≤ length ram.now.bytes }
        requires aligned { is_own ≡ true → table % DESCRIPTOR_SIZE ≡ 0 }
        requires fits { Fits self.old ram.now }
        ensures descriptor { result ≡ descriptor_at is_packed ram.now.bytes table entry }
        ensures decoded { HasDecoded self.old self.new ram.now 1 }
        ensures count { self.new.decoded ≡ (if is_own && is_kept self.old ram.now (table + DESCRIPTOR_SIZE * entry) (entry % KEPT_MAX) then self.old.decoded else raised self.old.decoded) }
        ensures apart { is_own ≡ false → self.new.kept ≡ self.old.kept }
    {
        ram.recall();
        let index = table + DESCRIPTOR_SIZE * entry as u64;
        if is_own {
            self.read_own(ram, is_packed, index, entry as usize % KEPT_MAX)
        } else {
            decode(is_packed, self.read_words(ram, index))
        }
    }

    /// The descriptor of the queue's own table at an index of RAM: as it is kept under this number, or read, and then kept there.
    #[inline(always)]
    #[tactic(auto, unfolding(crate::specs::Descriptor::descriptor_in))]
    fn read_own(&mut self, ram: &Ram, is_packed: bool, index: u64, number: usize) -> Descriptor
        requires inside { index + DESCRIPTOR_SIZE ≤ length ram.now.bytes }
        requires aligned { index % DESCRIPTOR_SIZE ≡ 0 }
        requires number { number < KEPT_MAX }
        requires fits { Fits self.old ram.now }
        ensures descriptor { result ≡ descriptor_in is_packed ram.now.bytes index }
        ensures decoded { HasDecoded self.old self.new ram.now 1 }
        ensures count { self.new.decoded ≡ (if is_kept self.old ram.now index number then self.old.decoded else raised self.old.decoded) }
    {
        ram.recall();
        let version = ram.version(index / PAGE_SIZE as u64);
        if let Some(kept) = self.kept[number] {
            if kept.index == index && kept.version == version && version < u64::MAX {
                return decode(is_packed, kept.words);
            }
        }
        let words = self.read_words(ram, index);
        self.kept[number] = Some(Kept {
            index,
            version,
            words,
        });
        decode(is_packed, words)
    }

    /// Reads the bytes of a descriptor and counts it: each one that is decoded from RAM is read here.
    #[inline(always)]
    fn read_words(&mut self, ram: &Ram, index: u64) -> Words
        requires inside { index + DESCRIPTOR_SIZE ≤ length ram.now.bytes }
        ensures words { result ≡ words_of ram.now.bytes index }
        ensures count { self.new.decoded ≡ raised self.old.decoded }
        ensures kept { self.new.kept ≡ self.old.kept }
    {
        self.decoded = self.decoded.saturating_add(1);
        words_at(ram, index)
    }
}
