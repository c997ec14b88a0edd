//! What a handle has.
//!
//! One call answers all questions, in each state, so a host keeps no state of its own beside the handle. What C gets of a device is what it
//! was made of, in the struct that it makes machines by.

ghost use Rattle.std.specs.Prelude.{◌≡◌, ◌≤◌, length};
ghost use Rattle.machine.specs.declared.machine.TheConstants.{DEVICES_MAX};
ghost use Rattle.c_handle.specs.Described.{IsDescribed, IsToldState, flags_of, lost_bits, told_flag, number_of, sent_as, told_arriving, told_coming, told_failed, told_head, told_lent, told_machine, told_still};
ghost use Rattle.c_handle.specs.Kept.{admission_of, loan_of, telling_of};

use crate::admission::Admission;
use crate::kept::{Held, Kept, by_state};
use crate::loan::Loan;
use crate::unmapping::image_count;
use c_machine::status::SEND_FAILED;
use c_machine::{Description, LARGE, LOG, TOLD, message_of};
use guestmem::PAGE_SIZE;
use machine::{DEVICES_MAX, Disk, Machine, PageLog, Shape};
use sender::Phase;

const IS_ARRIVING: u32 = 1;

const IS_FAILED: u32 = 2;

const IS_IDLE: u32 = 3;

const IS_SENDING: u32 = 4;

const IS_SEND_FAILED: u32 = 5;

const IS_STOPPED: u32 = 6;

/// What the handle has.
pub fn describe(kept: &Kept) -> Description
    ensures { IsDescribed kept.now result }
{
    let mut told = told(kept);
    told.images = image_count(&kept.held).min(u32::MAX as usize) as u32;
    told.lost = lost_bits(kept.lost());
    told.flags = flags_of(kept.asked.large, &kept.output.written) + told_flag(&kept.held);
    told.calls_out = kept.calls.count();
    told
}

/// As above, but for its images, the disks that were lost, the calls that are out, and what was asked for.
fn told(kept: &Kept) -> Description
    ensures { IsToldState kept.now kept.now.state result }
{
    by_state!(&kept.held;
        still(machine) => told_still(machine),
        moving(live) => sent_as(told_still(live.machine()), live.phase()),
        lent(loan) => told_lent(loan),
        arriving(arrival) => told_arriving(
            &kept.admission,
            kept.fed,
            arrival.base(),
            arrival.rounds(),
            arrival.is_whole(),
        ),
    )
}

/// Describes a machine that is not being sent.
fn told_still<D: Disk>(machine: &Machine<D>) -> Description
    ensures { result ≡ told_still machine.now }
{
    let shapes = machine.shapes();
    let pages = (machine.ram().len() / PAGE_SIZE as u64) as u32;
    told_machine(machine.base(), pages, shapes)
}

/// Describes a machine with this number of pages, RAM from this base on, and devices of these shapes.
fn told_machine(base: u64, pages: u32, shapes: &[Shape]) -> Description
    requires { length shapes.now ≤ DEVICES_MAX }
    ensures { result ≡ told_machine base pages shapes.now }
{
    let mut told = Description::none().with_shapes(pages, shapes);
    told.state = IS_IDLE;
    told.base = base;
    told.message = message_of(shapes);
    told
}

/// As above, where it is being sent, and this is how far that has come.
fn sent_as(told: Description, phase: Phase) -> Description
    ensures { result ≡ sent_as told phase }
{
    let mut told = told;
    told.state = IS_SENDING;
    match phase {
        Phase::Fresh => {}
        Phase::Open(round) => told.rounds = round,
        Phase::Stopped => told.state = IS_STOPPED,
        Phase::Failed => {
            told.state = IS_SEND_FAILED;
            told.fault = SEND_FAILED;
        }
    }
    told
}

/// As above, where its RAM is lent.
#[tactic(auto, using(crate::proofs::ToldStates::lent_still, crate::proofs::ToldStates::lent_moving))]
fn told_lent<D: Disk>(loan: &Loan<D>) -> Description
    ensures { result ≡ told_lent (loan_of loan.now) }
{
    let parked = loan.parked();
    let mut told = told_machine(parked.base(), parked.pages() as u32, parked.shapes());
    told.lent = 1;
    match loan.phase() {
        Some(phase) => sent_as(told, phase),
        None => told,
    }
}

/// Describes a machine that arrives, or a stream that was refused.
fn told_arriving(
    admission: &Admission,
    fed: u64,
    base: u64,
    rounds: u32,
    whole: bool,
) -> Description
    ensures { result ≡ told_arriving (admission_of admission.now) fed base rounds whole }
{
    match admission {
        Admission::Denied(status) => told_failed(*status, fed),
        Admission::Pending(..) => told_coming(Description::none(), base, rounds, whole),
        Admission::Granted(pages, shapes) => told_coming(
            told_head(*pages, shapes),
            base,
            rounds,
            whole,
        ),
    }
}

fn told_failed(status: u32, fed: u64) -> Description
    ensures { result ≡ told_failed status fed }
{
    let mut told = Description::none();
    told.state = IS_FAILED;
    told.fault = status;
    told.fault_at = fed;
    told
}

/// What a header says.
fn told_head(pages: u32, shapes: &[Shape]) -> Description
    ensures { result ≡ told_head pages shapes.now }
{
    if shapes.len() > DEVICES_MAX {
        return Description::none();
    }
    Description::none().with_shapes(pages, shapes)
}

fn told_coming(told: Description, base: u64, rounds: u32, whole: bool) -> Description
    ensures { result ≡ told_coming told base rounds whole }
{
    let mut told = told;
    told.state = IS_ARRIVING;
    told.base = base;
    told.rounds = rounds;
    told.whole = number_of(whole);
    told
}

/// Bit d for device d, whose disk was lost.
#[tactic(auto, using(crate::proofs::ToldStates::one_bit, crate::proofs::ToldStates::no_bit))]
fn lost_bits(lost: &[bool]) -> u32
    requires { length lost.now ≤ DEVICES_MAX }
    ensures { result ≡ lost_bits lost.now }
{
    let mut at = lost.len();
    let mut bits = 0u32;
    while at > 0 {
        at -= 1;
        bits = 2 * bits + number_of(lost[at]);
    }
    bits
}

/// What was asked for when it was made, or let arrive.
fn flags_of(large: bool, written: &Option<PageLog>) -> u32
    ensures { result ≡ flags_of large written.now }
{
    let log = match written {
        Some(_) => LOG,
        None => 0,
    };
    if large { LARGE + log } else { log }
}

/// Whether its host tells the digest of the stream that arrives.
fn told_flag(held: &Held) -> u32
    ensures { result ≡ told_flag (telling_of held.now) }
{
    match held {
        Held::ToldArriving(..) => TOLD,
        _ => 0,
    }
}

fn number_of(whole: bool) -> u32
    ensures { result ≡ number_of whole }
{
    if whole { 1 } else { 0 }
}
