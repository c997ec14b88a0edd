//! The least bit that is set, looked for in few words.

ghost use Rattle.std.specs.Prelude.{◌≡◌, ◌≢◌, ◌<◌, ◌≤◌, ◌^◌, ◌+◌, ◌-◌, ◌*◌, ◌/◌, ℕ, length, get_or, true, take, drop, MatchOption};
ghost use Rattle.dirtylog.specs.Words.{bit_in, AreLevels, AreZeroBetween, IsLeastBitFrom};
ghost use Rattle.std.specs.Int.{bit_at};

use crate::bits::WORD_BITS;
use std::simd::prelude::*;

/// Words that are looked at together.
const LANES: usize = 8;

/// Reads words, and counts them.
#[derive(Drop)]
pub(crate) struct Reader {
    looked: u64,
}

impl Reader {
    /// One that has read none.
    pub(crate) fn new() -> Reader
        ensures { result.looked ≡ 0 }
    {
        Reader { looked: 0 }
    }

    /// How many words it has read.
    pub(crate) fn looked(&self) -> u64
        ensures { result ≡ self.now.looked }
    {
        self.looked
    }

    /// `count` words from index `at` on. Every word that is looked at is read here, and counted once.
    fn read<'a>(&mut self, words: &'a [u64], at: usize, count: usize) -> &'a [u64]
        requires inside { at + count ≤ length words.now }
        requires few { self.old.looked + count < 2 ^ 64 }
        ensures words { result.now ≡ take count (drop at words.entry.now) }
        ensures counted { self.new.looked ≡ self.old.looked + count }
    {
        self.looked += count as u64;
        &words[at..at + count]
    }

    /// The word at index `at`.
    pub(crate) fn word(&mut self, words: &[u64], at: usize) -> u64
        requires inside { at < length words.now }
        requires few { self.old.looked + 1 < 2 ^ 64 }
        ensures word { result ≡ get_or words.now at 0 }
        ensures counted { self.new.looked ≡ self.old.looked + 1 }
    {
        self.read(words, at, 1)[0]
    }

    /// Whether the `LANES` words from index `at` on are zero, tested by lanes. It may return false where they are.
    fn are_zero(&mut self, words: &[u64], at: usize) -> bool
        requires inside { at + 8 ≤ length words.now }
        requires few { self.old.looked + 8 < 2 ^ 64 }
        ensures zero { result ≡ true → AreZeroBetween words.now at (at + 8) }
        ensures counted { self.new.looked ≡ self.old.looked + 8 }
    {
        let lanes = u64x8::from_slice(self.read(words, at, LANES));
        lanes.simd_ne(u64x8::splat(0)).to_bitmask() == 0
    }

    /// The index of the first word from `from` on that is not zero, or the length. It looks at no word twice, but for
    /// eight.
    fn first_nonzero(&mut self, words: &[u64], from: usize) -> usize
        requires from { from ≤ length words.now }
        requires few { self.old.looked + length words.now + 9 < 2 ^ 64 }
        ensures from { from ≤ result }
        ensures within { result ≤ length words.now }
        ensures zeros { AreZeroBetween words.now from result }
        ensures found { result < length words.now → get_or words.now result 0 ≢ 0 }
        ensures counted { self.new.looked + from ≤ self.old.looked + result + 9 }
        ensures through { self.old.looked + result ≤ self.new.looked + from }
    {
        let mut i = from;
        'lanes: while words.len() - i >= LANES {
            if !self.are_zero(words, i) {
                break;
            }
            i += LANES;
        }
        'rest: while i < words.len() {
            if self.word(words, i) != 0 {
                return i;
            }
            i += 1;
        }
        i
    }

    /// The least bit that is set, of those from `from` on: in the rest of its word, or in the first word after it that is not
    /// zero.
    pub(crate) fn least_bit(&mut self, words: &[u64], from: u64) -> Option<u64>
        requires small { 64 * length words.now < 2 ^ 64 }
        requires few { self.old.looked + length words.now + 11 < 2 ^ 64 }
        ensures least { IsLeastBitFrom words.now from result }
        ensures counted { self.new.looked ≤ self.old.looked + length words.now + 10 }
        ensures through { MatchOption result (self.old.looked + length words.now ≤ self.new.looked + from / 64) (λ n. self.old.looked + n / 64 < self.new.looked + from / 64) }
    {
        let at = (from / WORD_BITS) as usize;
        if at >= words.len() {
            return None;
        }
        if let Some(bit) = bit_from(self.word(words, at), from % WORD_BITS) {
            return Some(WORD_BITS * at as u64 + bit);
        }
        let at = self.first_nonzero(words, at + 1);
        if at == words.len() {
            return None;
        }
        let bit = lowest_bit(self.word(words, at));
        Some(WORD_BITS * at as u64 + bit)
    }
}

/// The index of the first word from `from` on that is not zero, or the length. It looks at eight words at a time.
pub fn first_nonzero(words: &[u64], from: usize) -> usize
    requires { from ≤ length words.now }
    ensures from { from ≤ result }
    ensures within { result ≤ length words.now }
    ensures zeros { AreZeroBetween words.now from result }
    ensures found { result < length words.now → get_or words.now result 0 ≢ 0 }
{
    Reader::new().first_nonzero(words, from)
}

/// The index of the lowest bit that is set.
pub(crate) fn lowest_bit(word: u64) -> u64
    requires { word ≢ 0 }
    ensures place { result < 64 }
    ensures one { bit_at word result ≡ 1 }
    ensures lowest { (k : ℕ) → k < result → bit_at word k ≡ 0 }
{
    word.trailing_zeros() as u64
}

/// The index of the lowest bit that is set, of those from `from` on.
pub fn bit_from(word: u64, from: u64) -> Option<u64>
    requires { from < 64 }
    ensures { MatchOption result ((k : ℕ) → from ≤ k → bit_at word k ≡ 0) (λ n. (from ≤ n) × (n < 64) × (bit_at word n ≡ 1) × ((k : ℕ) → from ≤ k → k < n → bit_at word k ≡ 0)) }
{
    let rest = word & u64::MAX << from;
    if rest == 0 {
        return None;
    }
    Some(lowest_bit(rest))
}

/// The least bit of words that is set, of those from `n` on: in the rest of its word, or in the next word that is marked. The
/// marks have a bit for each word that is not zero.
pub(crate) fn find_bit(words: &[u64], marks: &[u64], n: u64, reader: &mut Reader) -> Option<u64>
    requires levels { (len : ℕ) × AreLevels words.now marks.now len × (n < len) × (len < 2 ^ 64) }
    requires fresh { reader.old.looked ≡ 0 }
    ensures least { IsLeastBitFrom words.now n result }
    ensures counted { reader.new.looked ≤ length marks.now + 12 }
    ensures through { MatchOption result (length marks.now ≤ reader.new.looked + n / 4096) (λ m. m / 4096 < reader.new.looked + n / 4096) }
{
    let at = n / WORD_BITS;
    if let Some(bit) = bit_from(reader.word(words, at as usize), n % WORD_BITS) {
        return Some(WORD_BITS * at + bit);
    }
    let next = reader.least_bit(marks, at + 1)?;
    let bit = lowest_bit(reader.word(words, next as usize));
    Some(WORD_BITS * next + bit)
}
