//! A set of numbers.

ghost use Rattle.std.specs.Prelude.{◌≡◌, ◌<◌, ◌≤◌, ◌↔◌, ◌+◌, ◌*◌, ◌/◌, ◌^◌, IsTrue, drop, length, replicate, slice_set, take, true, false, IfOk};
ghost use Rattle.dirtylog.specs.Members.{has, HasNone, IsLeastFrom, LooksThrough, member_count};
ghost use Rattle.dirtylog.specs.Words.{HasRoomFor};

use crate::bits::{
    WORD_BITS, clear_all, clear_bit, count_ones, has_bit, set_all, set_bit, unmark, zeros,
};
use crate::scan::{Reader, find_bit};
use std::alloc::{AllocError, Global};
use std::marker::Model;

/// A set of numbers below a fixed length. Contracts see for each of these numbers whether it is a member.
///
/// It is kept as one bit a number in words of 64, and as a second level with one bit for each word that is not zero, so that the
/// next member is found by looking at few words. It also keeps the count of members.
#[derive(Drop)]
pub struct BitSet {
    len: u64,
    words: Vec<u64>,
    marks: Vec<u64>,
    members: u64,
}

impl Model for BitSet {
    ghost use Rattle.std.specs.Prelude.{List, Bool};
    ghost use Rattle.dirtylog.specs.Members.{HasCount};
    ghost use Rattle.dirtylog.specs.Words.{AreLevels, flags_of};

    ghost Value = { List Bool };

    ghost view = { λ s. flags_of s.words.items s.len };

    ghost invariant = { λ s. AreLevels s.words.items s.marks.items s.len × HasCount (flags_of s.words.items s.len) s.members };
}

impl BitSet {
    /// A set without members, of the numbers below this length. Its only error is out of memory.
    pub fn new(alloc: Global, len: u64) -> Result<BitSet, AllocError>
        ensures { IfOk result (λ set. set ≡ replicate len false) }
    {
        let count = words_for(len);
        let words = zeros(alloc, count)?;
        let marks = zeros(alloc, words_for(count as u64))?;
        Ok(BitSet {
            len,
            words,
            marks,
            members: 0,
        })
    }

    /// The length: members are below it.
    pub fn len(&self) -> u64
        ensures { result ≡ length self.now }
    {
        self.len
    }

    /// Makes a number a member.
    pub fn insert(&mut self, n: u64)
        requires { n < length self.old }
        ensures { self.new ≡ slice_set self.old n true }
    {
        if self.contains(n) {
            return;
        }
        self.take_in(n);
    }

    /// Makes a number a member that is none. It is a call of its own: most that are named are members.
    #[inline(never)]
    fn take_in(&mut self, n: u64)
        requires inside { n < length self.old }
        requires out { has self.old n ≡ false }
        ensures { self.new ≡ slice_set self.old n true }
    {
        set_bit(&mut self.words, n);
        set_bit(&mut self.marks, n / WORD_BITS);
        self.members += 1;
    }

    /// Removes a number.
    pub fn remove(&mut self, n: u64)
        requires { n < length self.old }
        ensures { self.new ≡ slice_set self.old n false }
    {
        if !self.contains(n) {
            return;
        }
        clear_bit(&mut self.words, n);
        unmark(&self.words, &mut self.marks, n / WORD_BITS);
        self.members -= 1;
    }

    /// Whether a number is a member.
    pub fn contains(&self, n: u64) -> bool
        requires { n < length self.now }
        ensures { result ≡ has self.now n }
    {
        has_bit(self.words.as_slice(), n)
    }

    /// The least member that is at least this number, if there is one.
    pub fn first_from(&self, n: u64) -> Option<u64>
        requires { n ≤ length self.now }
        ensures { IsLeastFrom self.now n result }
    {
        self.first_counted(n).0
    }

    /// What `first_from` returns, and how many words of both levels were looked at.
    pub fn first_counted(&self, n: u64) -> (Option<u64>, u64)
        requires { n ≤ length self.now }
        ensures least { IsLeastFrom self.now n result.0 }
        ensures few { result.1 ≤ 16 + (length self.now + 4095) / 4096 }
        ensures through { ¬ (HasNone self.now) → n < length self.now → LooksThrough (length self.now) n result.0 result.1 }
        ensures none { HasNone self.now → result.1 ≡ 0 }
    {
        if self.is_empty() {
            return (None, 0);
        }
        if n >= self.len {
            return (None, 0);
        }
        let mut reader = Reader::new();
        let found = find_bit(self.words.as_slice(), self.marks.as_slice(), n, &mut reader);
        (found, reader.looked())
    }

    /// Whether there is no member.
    #[tactic(auto, using(crate::proofs::Counts::none_counted, crate::proofs::Counts::count_of_none))]
    pub fn is_empty(&self) -> bool
        ensures { IsTrue result ↔ HasNone self.now }
    {
        self.members == 0
    }

    /// How many members there are.
    pub fn count(&self) -> u64
        ensures { result ≡ member_count self.now }
    {
        self.members
    }

    /// How many members are below this number. It looks at each word of 64 numbers below it.
    pub fn count_below(&self, n: u64) -> u64
        requires { n ≤ length self.now }
        ensures below { result ≡ member_count (take n self.now) }
        ensures rest { member_count self.now ≡ result + member_count (drop n self.now) }
    {
        count_ones(&self.words, n)
    }

    /// Gives all members to another set of the same length, which has none. Afterwards this one has none.
    pub fn swap_out(&mut self, other: &mut BitSet)
        requires empty { HasNone other.old }
        requires length { length other.old ≡ length self.old }
        ensures given { other.new ≡ self.old }
        ensures left { self.new ≡ replicate (length self.old) false }
    {
        std::mem::swap(self, other);
    }

    /// Makes every number a member.
    pub fn fill(&mut self)
        ensures { self.new ≡ replicate (length self.old) true }
    {
        let count = self.words.len() as u64;
        set_all(&mut self.words, self.len);
        set_all(&mut self.marks, count);
        self.members = self.len;
    }

    /// Removes every member. A set that has none is left as it is, however long it is.
    pub fn clear(&mut self)
        ensures { self.new ≡ replicate (length self.old) false }
    {
        if self.count() == 0 {
            return;
        }
        clear_all(&mut self.words);
        clear_all(&mut self.marks);
        self.members = 0;
    }
}

/// The number of words that `bits` bits need.
fn words_for(bits: u64) -> usize
    ensures { HasRoomFor bits result }
{
    let whole = (bits / WORD_BITS) as usize;
    if bits % WORD_BITS == 0 {
        whole
    } else {
        whole + 1
    }
}
