//! What is sent next, and pages that the host copies out of lent RAM while the guest runs, and hands in.
//!
//! The host copies, and not the library: what it reads may change under it, which no slice of Rust may. A page that changed since is named at
//! the return of RAM, as any that was written. So nothing here reads RAM.

ghost use Rattle.std.specs.Prelude.{◌≡◌, length};
ghost use Rattle.c_handle.specs.HandingIn.{AsksNext, HandsKept, HandsPage, IsTold, NextKept, here_status, page_refusal};
ghost use Rattle.c_handle.specs.Migrated.{send_refusal};
ghost use Rattle.sender.specs.HereOrLent.{pages_in};

use crate::kept::{Kept, by_state};
use crate::migrating::send_refusal;
use crate::mirror::has_stopped;
use crate::status::mig_status;
use c_machine::status::{
    DONE, NOT_LENT, NOT_NEXT, NOT_SENDING, OUT_OF_RAM, ROUND_DONE, SECTORS, STOPPED,
};
use machine::{Disk, GuestRam};
use sender::{LiveOver, LiveParked, NextDue, Phase};
use wire::Digesting;

/// What is sent next: a page by its number.
pub fn send_next(kept: &Kept, page: &mut u32) -> u32
    ensures { NextKept kept.now.state result page.new page.old }
{
    by_state!(&kept.held;
        still(_) => NOT_SENDING,
        moving(live) => next_status(live, page),
        still_lent(_) => NOT_SENDING,
        moving_lent(live) => next_status(live, page),
    )
}

/// The same whether its RAM is here or lent.
#[tactic(auto, using(crate::proofs::HandingIn::next_refused, crate::proofs::HandingIn::next_told))]
fn next_status<D: Disk, W: Digesting, M: GuestRam>(live: &LiveOver<D, W, M>, page: &mut u32) -> u32
    ensures { AsksNext (pages_in (M.known live.now.machine.memory)) live.now.phase live.now.due result page.new page.old }
{
    if let Some(status) = send_refusal(live.phase()) {
        return status;
    }
    tell_next(live.next_item(), page)
}

fn tell_next(next: NextDue, page: &mut u32) -> u32
    ensures { IsTold next result page.new page.old }
{
    match next {
        NextDue::Page(number) => {
            *page = number;
            DONE
        }
        NextDue::Sector => SECTORS,
        NextDue::Nothing => ROUND_DONE,
    }
}

/// Sends the page that is next, with bytes that the caller copied out of the RAM that it was lent.
#[tactic(auto, using(crate::proofs::ByState::each_still, crate::proofs::ByState::each_moving, crate::proofs::ByState::each_still_lent, crate::proofs::ByState::each_moving_lent, crate::proofs::SamePages::handed_in))]
pub fn send_page(kept: &mut Kept, page: u32, bytes: &[u8; 4096]) -> u32
    ensures hands { HandsKept kept.old.state page bytes.now result kept.new.state }
    ensures kind { kept.new ≡ record kept.old { state = kept.new.state } }
{
    by_state!(&mut kept.held;
        still(_) => NOT_SENDING,
        moving(live) => here_status(live.phase()),
        still_lent(_) => NOT_SENDING,
        moving_lent(live) => page_status(live, page, bytes),
    )
}

/// Why no page is taken while RAM is here.
fn here_status(phase: Phase) -> u32
    ensures { result ≡ here_status phase }
{
    if has_stopped(phase) {
        return STOPPED;
    }
    NOT_LENT
}

#[tactic(auto, using(crate::proofs::HandingIn::page_refused, crate::proofs::HandingIn::none_next, crate::proofs::HandingIn::other_next, crate::proofs::HandingIn::next_is, crate::proofs::HandingIn::next_is_inside, crate::proofs::HandingIn::handed))]
fn page_status<D: Disk, W: Digesting>(
    live: &mut LiveParked<D, W>,
    page: u32,
    bytes: &[u8; 4096],
) -> u32
    ensures { HandsPage live.old page bytes.now result live.new }
{
    if let Some(status) = page_refusal(live.phase(), live.pages(), page) {
        return status;
    }
    let Some(next) = live.next_due() else {
        return NOT_NEXT;
    };
    if next != page {
        return NOT_NEXT;
    }
    match live.copy_page(page, bytes) {
        Ok(()) => DONE,
        Err(error) => mig_status(error),
    }
}

/// Why the page with this number is not taken, whatever is sent next.
fn page_refusal(phase: Phase, pages: usize, page: u32) -> Option<u32>
    ensures { result ≡ page_refusal (send_refusal phase) pages page }
{
    if let Some(status) = send_refusal(phase) {
        return Some(status);
    }
    if page as usize >= pages {
        return Some(OUT_OF_RAM);
    }
    None
}
