//! The numbers of the pages that a caller names by a bitmap, or of all.
//!
//! The list is made before RAM is given back, and its memory stays with the machine for the next time; where it is refused
//! nothing changed. Bits past the last page are not looked at: a bitmap has whole words.

ghost use Rattle.std.specs.Prelude.{◌≡◌, ◌≤◌, ◌*◌, ◌<◌, ◌+◌, ◌/◌, ◌%◌, ℕ, IfOk, IsOk, length, false, true, vec_capacity};
ghost use Rattle.guestmem.specs.declared.limits.TheConstants.{PAGES_GREATEST};
ghost use Rattle.c_machine.specs.Named.{AreBelowTop, is_marked, marked, numbers_below, shifted};

use dirtylog::{bit_from, first_nonzero};
use guestmem::NoMemory;

/// The bits of a word of a bitmap.
pub const WORD_BITS: usize = 64;

/// Makes the list that of the pages that are marked. It looks at eight words at a time where they are zero, and takes one look for each
/// page, and no memory where the list has room for all pages.
pub fn collect_marked(words: &[u64], count: usize, numbers: &mut Vec<u32>) -> Result<(), NoMemory>
    requires few { count ≤ PAGES_GREATEST }
    requires room { count ≤ 64 * length words.now }
    ensures pages { IfOk result (λ x. numbers.new.items ≡ marked words.now count) }
    ensures memory { count ≤ vec_capacity numbers.old → IsOk result }
{
    numbers.clear();
    let (covering, _rest) = words.split_at(count.div_ceil(WORD_BITS));
    let mut at = first_nonzero(covering, 0);
    while at < covering.len() {
        let from = at * WORD_BITS;
        collect_from(words, from, count.min(from + WORD_BITS), numbers)?;
        at = first_nonzero(covering, at + 1);
    }
    Ok(())
}

/// Adds those of the numbers `from..until`, which have their bits in one word, that are marked.
fn collect_from(
    words: &[u64],
    from: usize,
    until: usize,
    numbers: &mut Vec<u32>,
) -> Result<(), NoMemory>
    requires so_far { numbers.old.items ≡ marked words.now from }
    requires start { from % 64 ≡ 0 }
    requires order { from ≤ until }
    requires one_word { until ≤ from + 64 }
    requires few { until ≤ PAGES_GREATEST }
    requires room { until ≤ 64 * length words.now }
    ensures pages { IfOk result (λ x. numbers.new.items ≡ marked words.now until) }
    ensures capacity { vec_capacity numbers.old ≤ vec_capacity numbers.new }
    ensures memory { until ≤ vec_capacity numbers.old → IsOk result }
{
    let mut n = next_marked(words, from, until);
    while n < until {
        numbers.push(n as u32)?;
        n = next_marked(words, n + 1, until);
    }
    Ok(())
}

/// The least number from `from` on that is marked, of those below `until`, which have their bits in one word. `until`, if none is.
fn next_marked(words: &[u64], from: usize, until: usize) -> usize
    requires order { from ≤ until }
    requires one_word { from < until → until ≤ 64 * (from / 64) + 64 }
    requires room { until ≤ 64 * length words.now }
    ensures from { from ≤ result }
    ensures until { result ≤ until }
    ensures none { (j : ℕ) → from ≤ j → j < result → is_marked words.now j ≡ false }
    ensures marked { result < until → is_marked words.now result ≡ true }
{
    if from == until {
        return until;
    }
    let bit = from % WORD_BITS;
    match bit_from(words[from / WORD_BITS], bit as u64) {
        Some(found) => until.min(from - bit + found as usize),
        None => until,
    }
}

/// Makes the list that of all pages. It takes no memory where the list has room for them.
pub fn collect_all(count: usize, numbers: &mut Vec<u32>) -> Result<(), NoMemory>
    requires { count ≤ PAGES_GREATEST }
    ensures pages { IfOk result (λ x. numbers.new.items ≡ numbers_below count) }
    ensures memory { count ≤ vec_capacity numbers.old → IsOk result }
{
    numbers.clear();
    for n in 0..count {
        numbers.push(n as u32)?;
    }
    Ok(())
}

/// Adds to each number. They are those of pages of a bitmap that begins at a later page than the first.
#[tactic(auto, using(crate::proofs::NamedPages::shifts_more, crate::proofs::NamedPages::fits, crate::proofs::NamedPages::all_shifted))]
pub fn shift(numbers: &mut Vec<u32>, first: u32)
    requires { AreBelowTop first numbers.old.items }
    ensures { numbers.new.items ≡ shifted first numbers.old.items }
{
    for at in 0..numbers.len() {
        numbers[at] += first;
    }
}
