//! The pages that steps and writes of the host wrote, handed out by their numbers.

ghost use Rattle.std.specs.Prelude.{◌≡◌, ℕ};
ghost use Rattle.c_handle.specs.HandedOut.{HandsFrom, HandsIf, is_here};
ghost use Rattle.c_handle.specs.Kept.{FitsLog};

use crate::kept::{Kept, by_state};
use c_machine::status::{DONE, NO_MACHINE, NOT_KNOWN};
use machine::PageLog;

/// Hands out the numbers of pages, from the least on, as many as there is room for, and forgets these. It takes no memory.
#[tactic(auto, using(crate::proofs::PageLogs::here, crate::proofs::PageLogs::away))]
pub fn hand_out(kept: &mut Kept, pages: &mut [u32], count: &mut usize) -> u32
    ensures hands { HandsIf (is_here kept.old.state) kept.old.written result pages.old pages.new count.new count.old kept.new.written }
    ensures kind { kept.new ≡ record kept.old { written = kept.new.written } }
{
    if !is_here(kept) {
        return NO_MACHINE;
    }
    hand_from(&mut kept.output.written, pages, count)
}

/// Whether a machine is here: what arrives is none.
pub(crate) fn is_here(kept: &Kept) -> bool
    ensures { result ≡ is_here kept.now.state }
{
    by_state!(&kept.held; still(_) => true, moving(_) => true, lent(_) => true, arriving(_) => false)
}

#[tactic(auto, using(crate::proofs::PageLogs::handed, crate::proofs::PageLogs::not_handed, crate::proofs::PageLogs::still_fits))]
fn hand_from(log: &mut Option<PageLog>, pages: &mut [u32], count: &mut usize) -> u32
    ensures hands { HandsFrom log.old result pages.old pages.new count.new count.old log.new }
    ensures fits { (bytes : ℕ) → FitsLog log.old bytes → FitsLog log.new bytes }
{
    let Some(written) = log else {
        return NOT_KNOWN;
    };
    *count = written.hand_out(pages);
    DONE
}
