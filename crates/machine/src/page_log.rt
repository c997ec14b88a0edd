//! Which pages were written: a log for a host that asks.
//!
//! It hands out numbers, and no bits: a step writes into few pages, and a host that asks after each step is not to look through all.

ghost use Rattle.std.specs.Prelude.{◌≡◌, ◌<◌, ◌≤◌, ◌^◌, IfOk, IfSome, false, length, replicate};
ghost use Rattle.machine.specs.PageLog.{HandsOut, TakesLeast, may_note, may_stay_noted, noted, notes_any_order, notes_once};

use dirtylog::BitSet;
use guestmem::{NoMemory, TouchLog};
use std::alloc::Global;
use std::marker::Model;

/// The pages that were written and are not handed out yet. Contracts see for each page whether it is one of them. It takes in no sector.
#[derive(Drop)]
pub struct PageLog {
    // In a box, so that a log is moved at no cost: a `Live` takes it in for a call.
    pages: Box<BitSet>,
}

impl Model for PageLog {
    ghost use Rattle.std.specs.Prelude.{Bool, List, length, ◌^◌, ◌≤◌};

    ghost Value = { List Bool };

    ghost view = { λ l. l.pages.value };

    ghost invariant = { λ l. length l.pages.value ≤ 2 ^ 32 };
}

impl PageLog {
    /// A log for a RAM of `pages` pages, none of which was written. Its only error is out of memory.
    pub fn new(alloc: Global, pages: u32) -> Result<PageLog, NoMemory>
        ensures { IfOk result (λ log. log ≡ replicate pages false) }
    {
        let pages = BitSet::new(alloc, pages as u64)?;
        match Box::new(alloc, pages) {
            Ok(pages) => Ok(PageLog { pages }),
            Err(_) => Err(NoMemory),
        }
    }

    /// Hands out the numbers of pages, from the least on, as many as there is room for, and forgets these pages. The result is how many they
    /// are. Where there was more room, they were all. The rest of the buffer stays as it was.
    pub fn hand_out(&mut self, out: &mut [u32]) -> usize
        ensures { HandsOut self.old out.old result out.new self.new }
    {
        take_out(&mut self.pages, out)
    }
}

/// Takes members out, from the least on, as many as there is room for.
fn take_out(set: &mut BitSet, out: &mut [u32]) -> usize
    requires { length set.old ≤ 2 ^ 32 }
    ensures handed { HandsOut set.old out.old result out.new set.new }
    ensures length { length set.new ≡ length set.old }
{
    for at in 0..out.len() {
        let Some(n) = take_least(set) else {
            return at;
        };
        out[at] = n as u32;
    }
    out.len()
}

/// Takes the least member out.
fn take_least(set: &mut BitSet) -> Option<u64>
    ensures taken { TakesLeast set.old result set.new }
    ensures below { IfSome result (λ n. n < length set.old) }
    ensures length { length set.new ≡ length set.old }
{
    let Some(n) = set.first_from(0) else {
        return None;
    };
    set.remove(n);
    Some(n)
}

impl TouchLog for PageLog {
    ghost may = { may_note };

    ghost after = { noted };

    ghost stays = { may_stay_noted };

    ghost any_order = { notes_any_order };

    ghost once = { notes_once };

    fn page(&mut self, n: u64) {
        self.pages.insert(n);
    }

    fn sector(&mut self, _dev: u8, _n: u64) {}
}
