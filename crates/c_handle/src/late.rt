//! Pages that are named later than they were written, without a loan between.
//!
//! A host that reads a log of dirty pages once a round gives RAM back many times before, and names nothing then. What is named here is
//! written whole, with the bytes that lie there: for a machine that is being sent it is dirty, and its version rises. While RAM is lent a mark
//! makes pages dirty and raises no version: the return does.

ghost use Rattle.std.specs.Prelude.{◌≡◌, ◌≤◌, true};
ghost use Rattle.c_machine.specs.Named.{are_pages};
ghost use Rattle.c_handle.specs.HandedOut.{is_here};
ghost use Rattle.c_handle.specs.Late.{IsMarked, MarksKept, all_pages, mark_refusal};
ghost use Rattle.guestmem.specs.declared.limits.TheConstants.{PAGES_GREATEST};

use crate::kept::{Kept, by_state};
use crate::mirror::{is_stopped, page_count};
use crate::written::is_here;
use c_machine::Pages;
use c_machine::status::{DONE, NO_MACHINE, NO_MEMORY, NOT_KNOWN, STOPPED};
use guestmem::NoLog;
use std::alloc::Global;
use std::mem;

/// Names pages that were written. For a list it takes no memory, and time for its pages alone.
#[tactic(auto, using(crate::proofs::LatePages::marked_list, crate::proofs::LatePages::marked_named, crate::proofs::LatePages::mark_fit, crate::proofs::LatePages::not_marked, crate::proofs::LatePages::listed_pages, crate::proofs::LatePages::named_pages_are, crate::proofs::LatePages::mark_full, crate::proofs::LatePages::mark_here))]
pub fn mark(alloc: Global, kept: &mut Kept, pages: &Pages) -> u32
    ensures marks { MarksKept kept.old.state pages.now result kept.new.state }
    ensures kind { kept.new ≡ record kept.old { state = kept.new.state } }
{
    if let Some(status) = mark_refusal(kept, pages) {
        return status;
    }
    if !pages.needs_list() {
        mark_listed(kept, pages.list);
        return DONE;
    }
    let count = all_pages(kept);
    let mut named = mem::replace(&mut kept.named, Vec::new(alloc));
    let status = match pages.collect(count, &mut named) {
        Ok(()) => {
            mark_listed(kept, named.as_slice());
            DONE
        }
        Err(_) => NO_MEMORY,
    };
    kept.named = named;
    status
}

/// Names the pages with these numbers.
#[tactic(auto, using(crate::proofs::LatePages::pages_below_still, crate::proofs::LatePages::pages_below_moving, crate::proofs::LatePages::pages_below_lent, crate::proofs::LatePages::marked_still, crate::proofs::LatePages::marked_moving, crate::proofs::LatePages::marked_still_lent, crate::proofs::LatePages::marked_moving_lent, crate::proofs::SamePages::marked, crate::proofs::SamePages::marked_moving, crate::proofs::SamePages::marked_still_lent, crate::proofs::SamePages::marked_lent))]
fn mark_listed(kept: &mut Kept, pages: &[u32])
    requires here { is_here kept.old.state ≡ true }
    requires are { are_pages (all_pages kept.old.state) pages.now ≡ true }
    ensures marked { IsMarked kept.old.state pages.now kept.new.state }
    ensures kind { kept.new ≡ record kept.old { state = kept.new.state } }
{
    by_state!(&mut kept.held;
        still(machine) => machine.mark(pages, &mut NoLog),
        moving(live) => live.mark(pages),
        still_lent(_) => {},
        moving_lent(live) => live.mark(pages),
        arriving(_) => unreachable!(),
    )
}

/// How many pages RAM has, also while it is lent.
fn all_pages(kept: &Kept) -> usize
    ensures count { result ≡ all_pages kept.now.state }
    ensures few { result ≤ PAGES_GREATEST }
{
    by_state!(&kept.held;
        still(machine) => page_count(machine.ram()) as usize,
        moving(live) => page_count(live.machine().ram()) as usize,
        lent(loan) => loan.parked().pages(),
        arriving(_) => 0,
    )
}

/// Why no page is named, if none is.
fn mark_refusal(kept: &Kept, pages: &Pages) -> Option<u32>
    ensures { result ≡ mark_refusal kept.now.state pages.now }
{
    if !is_here(kept) {
        return Some(NO_MACHINE);
    }
    if is_stopped(kept) {
        return Some(STOPPED);
    }
    if !pages.is_known() {
        return Some(NOT_KNOWN);
    }
    pages.refusal(all_pages(kept))
}
