//! Pages that a caller names.

ghost use Rattle.std.specs.Prelude.{◌≡◌};
ghost use Rattle.c_machine.specs.Named.{are_pages};

use crate::device_shape::are_zeros;
use crate::naming::{WORD_BITS, collect_all, collect_marked, shift};
use crate::status::{NOT_KNOWN, OUT_OF_RAM, TOO_SMALL};
use guestmem::NoMemory;

/// Pages of RAM: those of a list, those of a bitmap, both, or all.
#[repr(C)]
pub struct Pages<'a> {
    /// Their numbers.
    pub list: &'a [u32],

    /// Bit k of word n is page `first + 64 * n + k`.
    pub words: &'a [u64],

    /// The first page that the bitmap covers.
    pub first: u32,

    /// How many pages it covers. 0: up to RAM's end.
    pub span: u32,

    /// 1: every page.
    pub all: u32,

    /// 0.
    pub zero: u32,

    /// Zeros, until a later version asks for more by them.
    pub reserved: [u64; 2],
}

impl Pages<'_> {
    ghost use Rattle.std.specs.Prelude.{◌≡◌, ◌≤◌, ◌<◌, ◌^◌, None, IfOk};
    ghost use Rattle.guestmem.specs.declared.limits.TheConstants.{PAGES_GREATEST};
    ghost use Rattle.c_machine.specs.Named.{is_known_pages, named_pages, needs_list, of_bitmap, pages_refusal, span_of};

    /// Whether this library knows all that the struct asks for.
    pub fn is_known(&self) -> bool
        ensures { result ≡ is_known_pages self.now }
    {
        self.all <= 1 && self.zero == 0 && are_zeros(&self.reserved)
    }

    /// Why these are no pages of a RAM of `count` pages, if so.
    pub fn refusal(&self, count: usize) -> Option<u32>
        requires { count ≤ PAGES_GREATEST }
        ensures { result ≡ pages_refusal self.now count }
    {
        let span = self.span_of(count);
        if self.words.len() < span.div_ceil(WORD_BITS) && !self.words.is_empty() {
            return Some(TOO_SMALL);
        }
        if !self.words.is_empty() && self.first as usize + span > count {
            return Some(OUT_OF_RAM);
        }
        if !are_pages(count as u64, self.list) {
            return Some(OUT_OF_RAM);
        }
        None
    }

    /// How many pages the bitmap covers, of a RAM of `count` pages.
    fn span_of(&self, count: usize) -> usize
        requires { count ≤ PAGES_GREATEST }
        ensures span { result ≡ span_of self.now count }
        ensures few { result < 2 ^ 32 }
    {
        if self.span != 0 {
            return self.span as usize;
        }
        count.saturating_sub(self.first as usize)
    }

    /// Whether their numbers have to be collected: a list is there.
    pub fn needs_list(&self) -> bool
        ensures { result ≡ needs_list self.now }
    {
        self.all != 0 || !self.words.is_empty()
    }

    /// Makes the list that of the pages that are named. It takes no memory where the list has room for them.
    #[tactic(auto, using(crate::proofs::NamedPages::of_all, crate::proofs::NamedPages::of_some))]
    pub fn collect(&self, count: usize, numbers: &mut Vec<u32>) -> Result<(), NoMemory>
        requires few { count ≤ PAGES_GREATEST }
        requires fit { pages_refusal self.now count ≡ None }
        ensures { IfOk result (λ x. numbers.new.items ≡ named_pages self.now count) }
    {
        if self.all != 0 {
            collect_all(count, numbers)?;
            return Ok(());
        }
        self.collect_bitmap(count, numbers)?;
        numbers.extend_from_slice(self.list)?;
        Ok(())
    }

    /// Makes the list that of the pages of the bitmap.
    #[tactic(auto, using(crate::proofs::NamedPages::no_bits, crate::proofs::NamedPages::few, crate::proofs::NamedPages::room, crate::proofs::NamedPages::shiftable, crate::proofs::NamedPages::bits))]
    fn collect_bitmap(&self, count: usize, numbers: &mut Vec<u32>) -> Result<(), NoMemory>
        requires few { count ≤ PAGES_GREATEST }
        requires fit { pages_refusal self.now count ≡ None }
        ensures { IfOk result (λ x. numbers.new.items ≡ of_bitmap self.now count) }
    {
        if self.words.is_empty() {
            numbers.clear();
            return Ok(());
        }
        let span = self.span_of(count);
        collect_marked(self.words, span, numbers)?;
        shift(numbers, self.first);
        Ok(())
    }
}

/// Whether each number is below `count`.
fn are_pages(count: u64, pages: &[u32]) -> bool
    ensures { result ≡ are_pages count pages.now }
{
    for n in pages {
        if *n as u64 >= count {
            return false;
        }
    }
    true
}
