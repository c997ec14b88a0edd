//! Sectors that are sent, and rounds that end, while RAM is lent: neither reads a byte of it. Pages are handed in (`handing_in`).

ghost use Rattle.c_handle.specs.Migrated.{HasEndedLent, SectorsUpTo, SendsSomeLent};

use crate::migrating::{ended_status, send_refusal};
use crate::status::mig_status;
use c_machine::status::{DONE, LENT, ROUND_DONE};
use machine::Disk;
use sender::{LiveParked, SectorAnswer};
use wire::Digesting;

/// Sends the least due item, at most `most` times, while it is a sector.
#[tactic(auto, using(crate::proofs::LentSending::some_refused, crate::proofs::LentSending::page_first, crate::proofs::LentSending::sectors_sent))]
pub(crate) fn some_status_lent<D: Disk, W: Digesting>(live: &mut LiveParked<D, W>, most: u32) -> u32
    ensures { SendsSomeLent live.old most result live.new }
{
    if let Some(status) = send_refusal(live.phase()) {
        return status;
    }
    if let Some(_) = live.next_due() {
        return LENT;
    }
    sectors_up_to(live, most)
}

#[tactic(auto, using(crate::proofs::LentSending::one_sector, crate::proofs::LentSending::page_due, crate::proofs::LentSending::none_due, crate::proofs::LentSending::sector_refused, crate::proofs::LentSending::all_sent, crate::proofs::LentSending::none_at_end))]
fn sectors_up_to<D: Disk, W: Digesting>(live: &mut LiveParked<D, W>, most: u32) -> u32
    ensures { SectorsUpTo most live.old result live.new }
{
    let mut left = most;
    while left > 0 {
        match live.copy_sector() {
            Ok(SectorAnswer::Copied { .. }) => {}
            Ok(SectorAnswer::PageDue(_)) => return DONE,
            Ok(SectorAnswer::RoundDone) => return ROUND_DONE,
            Err(error) => return mig_status(error),
        }
        left -= 1;
    }
    if live.remaining().due == 0 {
        return ROUND_DONE;
    }
    DONE
}

/// Ends a round.
pub(crate) fn round_status_lent<D: Disk, W: Digesting>(live: &mut LiveParked<D, W>) -> u32
    ensures { HasEndedLent live.old result live.new }
{
    ended_status(live.end_round())
}
