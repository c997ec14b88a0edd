//! RAM that is lent to the caller, in whose memory it lies, and given back.
//!
//! Where RAM is given back is not compared with where it was lent: no contract says whether two raw pointers are the same. The
//! length is compared, and the bytes that are given back are RAM from then on, wherever they lie: a host may have moved its
//! mapping. A host that gives back other bytes has written them.
//!
//! RAM in memory of the caller is the caller's again after `vmig_free` and `vmig_release`, in each state. No clause says what it
//! holds then, since no contract sees a machine that was freed; `examples/c/lent.c` tests it.

ghost use Rattle.std.specs.Prelude.{◌≡◌, ◌≤◌, ◌*◌, ℕ, [], None, IfErr, IfOk, length, true};
ghost use Rattle.guestmem.specs.Memory.{IsMemory};
ghost use Rattle.machine.specs.Parked.{IsParked};
ghost use Rattle.guestmem.specs.declared.limits.TheConstants.{PAGE_SIZE, PAGES_GREATEST};
ghost use Rattle.region.specs.Slot.{region_of};
ghost use Rattle.c_handle.specs.Kept.{are_mapped, are_told, held_state, loan_of, loan_told, parked_in, ram_in, state_in, telling_of, told_in};
ghost use Rattle.c_handle.specs.declared.kept.Contents.TheVariants as contents;
ghost use Rattle.c_handle.specs.Lent.{ComesBack, HasComeBack, IsBackWith, IsLiveLoan, IsReturnable, LendsIfOver, LendsKept, back_refusal_of, lend_refusal_in, lend_refusal_of, lent_pages, return_refusal_of};
ghost use Rattle.c_machine.specs.Named.{are_pages};

use crate::kept::{Contents, Held, Kept, by_state, turned};
use crate::loan::Loan;
use crate::migrating::taken_out;
use crate::mirror::has_stopped;
use c_machine::status::{
    BAD_RAM, DONE, LENT, NO_MACHINE, NO_MEMORY, NOT_KNOWN, NOT_LENT, NOT_YOURS, STOPPED,
};
use c_machine::{Pages, put_back, taken_ram};
use guestmem::{NoLog, PAGE_SIZE, Ram};
use machine::{Disk, Machine, Parked};
use region::{Region, Slot};
use sender::{LiveOver, LiveParked};
use std::alloc::Global;
use std::mem;
use wire::Digesting;

/// Lends the RAM of a machine: it goes into the slot, which has to be free. It takes no memory.
#[tactic(auto, using(crate::proofs::SamePages::same_ram))]
pub fn lend(kept: &mut Kept, ram: &mut Slot) -> u32
    ensures lends { LendsKept kept.old.state ram.old result ram.new kept.new.state }
    ensures kind { kept.new ≡ record kept.old { state = kept.new.state } }
{
    if let Some(status) = lend_refusal(kept, ram) {
        return status;
    }
    let (next, status) = lent(taken_out(&mut kept.held), ram);
    drop(mem::replace(&mut kept.held, next));
    status
}

/// Why no RAM is lent, apart from whose memory it lies in.
fn lend_refusal(kept: &Kept, ram: &mut Slot) -> Option<u32>
    ensures same { ram.new ≡ ram.old }
    ensures refusal { result ≡ lend_refusal_of kept.now.state (length ram.old.content) }
{
    by_state!(&kept.held;
        still(_) => slot_refusal(false, ram),
        moving(live) => slot_refusal(has_stopped(live.phase()), ram),
        lent(_) => Some(LENT),
        arriving(_) => Some(NO_MACHINE),
    )
}

/// Why the RAM of a machine, which was stopped or not, does not go into the slot.
fn slot_refusal(stopped: bool, ram: &mut Slot) -> Option<u32>
    ensures same { ram.new ≡ ram.old }
    ensures refusal { result ≡ lend_refusal_in stopped (length ram.old.content) }
{
    if stopped {
        return Some(STOPPED);
    }
    if !ram.is_none() {
        return Some(BAD_RAM);
    }
    None
}

fn lent(old: Held, ram: &mut Slot) -> (Held, u32)
    requires { lend_refusal_of (held_state old) (length ram.old.content) ≡ None }
    ensures lends { LendsIfOver (held_state old) ram.old result.1 ram.new (held_state result.0) }
    ensures ram { (places : ℕ) → ram_in places (held_state result.0) ≡ ram_in places (held_state old) }
    ensures kind { are_mapped result.0 ≡ are_mapped old }
    ensures told { are_told result.0 ≡ are_told old }
    ensures telling { telling_of result.0 ≡ telling_of old }
{
    turned!(old; contents => lent_in(contents, ram))
}

#[tactic(auto, using(crate::proofs::SamePages::lent_still, crate::proofs::SamePages::lent_moving))]
fn lent_in<D: Disk>(old: Contents<D>, ram: &mut Slot) -> (Contents<D>, u32)
    requires { lend_refusal_of (state_in old) (length ram.old.content) ≡ None }
    ensures lends { LendsIfOver (state_in old) ram.old result.1 ram.new (state_in result.0) }
    ensures ram { (places : ℕ) → ram_in places (state_in result.0) ≡ ram_in places (state_in old) }
    ensures told { told_in result.0 ≡ told_in old }
{
    match old {
        Contents::Still(machine) => match lent_still(machine) {
            Ok((region, parked)) => (lent_as(Loan::Still(parked), region, ram), DONE),
            Err(machine) => (Contents::Still(machine), NOT_YOURS),
        },
        Contents::Moving(live) => match lent_live(live) {
            Ok((region, live)) => (lent_as(Loan::Moving(live), region, ram), DONE),
            Err(live) => (Contents::Moving(live), NOT_YOURS),
        },
        Contents::Told(live) => match lent_live(live) {
            Ok((region, live)) => (lent_as(Loan::Told(live), region, ram), DONE),
            Err(live) => (Contents::Told(live), NOT_YOURS),
        },
        Contents::Lent(loan) => (Contents::Lent(loan), LENT),
    }
}

/// Lends the RAM of a machine that is not being migrated.
fn lent_still<D: Disk>(machine: Machine<D>) -> Result<(Region, Parked<D>), Machine<D>>
    ensures lent { IfOk result (λ r. IsParked machine r.0 r.1) }
    ensures sound { IfOk result (λ r. IsMemory machine.memory) }
    ensures own { IfErr result (λ m. machine.memory.place ≡ None) }
    ensures same { IfErr result (λ m. m ≡ machine) }
{
    machine.ram().recall();
    machine.lend()
}

/// Lends the RAM of a machine that is being migrated.
fn lent_live<D: Disk, W: Digesting>(
    live: LiveOver<D, W, Ram>,
) -> Result<(Region, LiveParked<D, W>), LiveOver<D, W, Ram>>
    ensures lent { IfOk result (λ r. IsLiveLoan live r.0 r.1) }
    ensures own { IfErr result (λ l. live.machine.memory.place ≡ None) }
    ensures same { IfErr result (λ l. l ≡ live) }
{
    live.recall();
    live.machine().ram().recall();
    live.lend()
}

/// Puts the RAM into the free slot.
fn lent_as<D: Disk>(loan: Loan<D>, region: Region, ram: &mut Slot) -> Contents<D>
    requires { ram.old.content ≡ [] }
    ensures contents { result ≡ contents.Lent loan }
    ensures ram { region_of ram.new ≡ region }
{
    put_back(region, ram);
    Contents::Lent(loan)
}

/// Takes the RAM back that lies in the slot, and in which these pages were written. For a list it takes no memory, and time for these pages
/// alone; for the numbers of others memory is taken, and kept for the next time.
#[tactic(auto, using(crate::proofs::Lent::returnable_list, crate::proofs::Lent::returnable_named, crate::proofs::Lent::fit_of, crate::proofs::Lent::not_back, crate::proofs::Lent::came_list, crate::proofs::Lent::came_named, crate::proofs::Lent::back_full))]
pub fn give_back(alloc: Global, kept: &mut Kept, ram: &mut Slot, pages: &Pages) -> u32
    ensures back { ComesBack kept.old.state ram.old pages.now result ram.new kept.new.state }
    ensures kind { kept.new ≡ record kept.old { state = kept.new.state } }
{
    if let Some(status) = back_refusal(kept, ram, pages) {
        return status;
    }
    if !pages.needs_list() {
        come_back(kept, ram, pages.list);
        return DONE;
    }
    let count = pages_out(kept);
    let mut named = mem::replace(&mut kept.named, Vec::new(alloc));
    let status = match pages.collect(count, &mut named) {
        Ok(()) => {
            come_back(kept, ram, named.as_slice());
            DONE
        }
        Err(_) => NO_MEMORY,
    };
    kept.named = named;
    status
}

/// Why RAM is not taken back, if so.
fn back_refusal(kept: &Kept, ram: &mut Slot, pages: &Pages) -> Option<u32>
    ensures same { ram.new ≡ ram.old }
    ensures refusal { result ≡ back_refusal_of kept.now.state (length ram.old.content) pages.now }
{
    by_state!(&kept.held;
        still(_) => Some(NOT_LENT),
        moving(_) => Some(NOT_LENT),
        lent(loan) => return_refusal(loan.parked().pages(), ram, pages),
        arriving(_) => Some(NO_MACHINE),
    )
}

/// Why what lies in the slot is not taken back as a RAM of `count` pages.
fn return_refusal(count: usize, ram: &mut Slot, pages: &Pages) -> Option<u32>
    requires { count ≤ PAGES_GREATEST }
    ensures same { ram.new ≡ ram.old }
    ensures refusal { result ≡ return_refusal_of count (length ram.old.content) pages.now }
{
    if !pages.is_known() {
        return Some(NOT_KNOWN);
    }
    if ram.len() != PAGE_SIZE * count {
        return Some(BAD_RAM);
    }
    pages.refusal(count)
}

/// How many pages the RAM has that is lent.
fn pages_out(kept: &Kept) -> usize
    ensures count { result ≡ lent_pages kept.now.state }
    ensures few { result ≤ PAGES_GREATEST }
{
    by_state!(&kept.held;
        still(_) => 0,
        moving(_) => 0,
        lent(loan) => loan.parked().pages(),
        arriving(_) => 0,
    )
}

/// The machine takes its RAM back.
#[tactic(auto, using(crate::proofs::SamePages::came_back))]
fn come_back(kept: &mut Kept, ram: &mut Slot, pages: &[u32])
    requires { IsReturnable kept.old.state (length ram.old.content) pages.now }
    ensures back { HasComeBack kept.old.state ram.old pages.now 0 ram.new kept.new.state }
    ensures kind { kept.new ≡ record kept.old { state = kept.new.state } }
{
    let next = back(taken_out(&mut kept.held), ram, pages);
    drop(mem::replace(&mut kept.held, next));
}

fn back(old: Held, ram: &mut Slot, pages: &[u32]) -> Held
    requires { IsReturnable (held_state old) (length ram.old.content) pages.now }
    ensures back { HasComeBack (held_state old) ram.old pages.now 0 ram.new (held_state result) }
    ensures kind { are_mapped result ≡ are_mapped old }
    ensures told { are_told result ≡ are_told old }
    ensures telling { telling_of result ≡ telling_of old }
{
    match old {
        Held::Own(contents) => Held::Own(back_in(contents, ram, pages)),
        Held::Mapped(contents) => Held::Mapped(back_in(contents, ram, pages)),
        Held::Arriving(_) | Held::ToldArriving(..) => unreachable!(),
    }
}

fn back_in<D: Disk>(old: Contents<D>, ram: &mut Slot, pages: &[u32]) -> Contents<D>
    requires { IsReturnable (state_in old) (length ram.old.content) pages.now }
    ensures back { HasComeBack (state_in old) ram.old pages.now 0 ram.new (state_in result) }
    ensures told { told_in result ≡ told_in old }
{
    match old {
        Contents::Lent(loan) => back_from(loan, taken_ram(ram), pages),
        _ => unreachable!(),
    }
}

fn back_from<D: Disk>(loan: Loan<D>, region: Region, pages: &[u32]) -> Contents<D>
    requires size { length region.content ≡ PAGE_SIZE * length (parked_in (loan_of loan)).memory }
    requires below { are_pages (length (parked_in (loan_of loan)).memory) pages.now ≡ true }
    ensures back { IsBackWith (loan_of loan) region pages.now (state_in result) }
    ensures told { told_in result ≡ loan_told loan }
{
    match loan {
        Loan::Still(parked) => Contents::Still(parked.give_back(region, pages, &mut NoLog)),
        Loan::Moving(live) => Contents::Moving(live.give_back(region, pages)),
        Loan::Told(live) => Contents::Told(live.give_back(region, pages)),
    }
}
