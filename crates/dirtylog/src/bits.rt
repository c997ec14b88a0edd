//! Bits in words of 64.

ghost use Rattle.std.specs.Prelude.{◌≡◌, ◌<◌, ◌≤◌, ◌*◌, ◌%◌, ◌^◌, ◌==◌, count_ones as ones, length, replicate, get_or, IfOk};
ghost use Rattle.dirtylog.specs.Members.{member_count};
ghost use Rattle.dirtylog.specs.Words.{bit_in, flags_of, AreAll, HasRoomFor, IsUnmarked, IsWithBit};

use std::alloc::{AllocError, Global};

/// Bits in a word.
pub(crate) const WORD_BITS: u64 = 64;

/// Whether bit n is set.
pub(crate) fn has_bit(words: &[u64], n: u64) -> bool
    requires { n < 64 * length words.now }
    ensures { result ≡ (bit_in words.now n == 1) }
{
    words[(n / WORD_BITS) as usize] >> (n % WORD_BITS) & 1 == 1
}

/// How many of the lowest `count` bits of a word are set.
fn ones_below(word: u64, count: u64) -> u64
    requires some { 0 < count }
    requires few { count ≤ 64 }
    ensures { result ≡ ones (word % 2 ^ count) }
{
    (word & (u64::MAX >> (WORD_BITS - count))).count_ones() as u64
}

/// How many of the bits below bit n are set.
pub(crate) fn count_ones(words: &[u64], n: u64) -> u64
    requires { n ≤ 64 * length words.now }
    ensures { result ≡ member_count (flags_of words.now n) }
{
    let mut count = 0;
    for at in 0..n / WORD_BITS {
        count += ones_below(words[at as usize], WORD_BITS);
    }
    let rest = n % WORD_BITS;
    if rest != 0 {
        count += ones_below(words[(n / WORD_BITS) as usize], rest);
    }
    count
}

/// Sets bit n.
pub(crate) fn set_bit(words: &mut Vec<u64>, n: u64)
    requires { n < 64 * length words.old.items }
    ensures { IsWithBit words.old.items words.new.items n 1 }
{
    let at = (n / WORD_BITS) as usize;
    let word = words[at];
    words[at] = word | 1 << (n % WORD_BITS);
}

/// Clears bit n.
pub(crate) fn clear_bit(words: &mut Vec<u64>, n: u64)
    requires { n < 64 * length words.old.items }
    ensures { IsWithBit words.old.items words.new.items n 0 }
{
    let at = (n / WORD_BITS) as usize;
    let word = words[at];
    words[at] = word & !(1 << (n % WORD_BITS));
}

/// Clears the mark of a word that is zero. The marks have a bit for each word.
pub(crate) fn unmark(words: &Vec<u64>, marks: &mut Vec<u64>, at: u64)
    requires word { at < length words.now.items }
    requires mark { at < 64 * length marks.old.items }
    ensures { IsUnmarked (get_or words.now.items at 0) marks.old.items marks.new.items at }
{
    if words[at as usize] == 0 {
        clear_bit(marks, at);
    }
}

/// Words of zeros. Its only error is out of memory.
pub(crate) fn zeros(alloc: Global, count: usize) -> Result<Vec<u64>, AllocError>
    ensures { IfOk result (λ words. words.items ≡ replicate count 0) }
{
    vec![in alloc; 0u64; count]
}

/// Sets every word to this one.
fn fill(words: &mut Vec<u64>, word: u64)
    ensures { words.new.items ≡ replicate (length words.old.items) word }
{
    words.fill(word);
}

/// Sets all bits below a length. Those of the last word past it are clear.
pub(crate) fn set_all(words: &mut Vec<u64>, len: u64)
    requires { HasRoomFor len (length words.old.items) }
    ensures size { length words.new.items ≡ length words.old.items }
    ensures all { AreAll 1 words.new.items len }
{
    fill(words, u64::MAX);
    let used = len % WORD_BITS;
    if used != 0 {
        let last = words.len() - 1;
        words[last] = u64::MAX >> (WORD_BITS - used);
    }
}

/// Clears all bits.
pub(crate) fn clear_all(words: &mut Vec<u64>)
    ensures { words.new.items ≡ replicate (length words.old.items) 0 }
{
    fill(words, 0);
}
