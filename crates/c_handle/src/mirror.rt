//! Whole pages of RAM, handed in and out: for a caller who keeps the guest's RAM in memory of its own.
//!
//! The pages that a step wrote are known by their versions, not by a log. One call serves for any number of steps, takes no
//! memory, and has no list that could be too small; it is the same for a machine that is being migrated, and what it leaves is
//! a promise about bytes: the caller's copy is the machine's RAM. It goes over 8 bytes a page, 128 KiB for the largest RAM. No
//! event raises the version of a page that it does not write into: so of the pages that the caller noted, below the greatest
//! version, a pull overwrites only those that a step wrote.

ghost use Rattle.std.specs.Prelude.{◌≡◌, ◌*◌, ◌<◌, ◌≤◌, length, slice_set, slice_index, if◌then◌else◌, IfErr, IfOk, false, true};
ghost use Rattle.guestmem.specs.Memory.{IsMemory};
ghost use Rattle.guestmem.specs.Page.{page_of};
ghost use Rattle.guestmem.specs.Write.{put_at};
ghost use Rattle.guestmem.specs.declared.limits.TheConstants.{PAGES_GREATEST};
ghost use Rattle.c_handle.specs.Mirror.{ArePushed, HasPulled, IsPushable, IsPushed, PullsKept, PushesKept, away_status, is_closed, is_away, is_noted, is_short, is_stopped, memory_in, push_refusal};
ghost use Rattle.c_machine.specs.Status.{done};
ghost use Rattle.c_handle.specs.Kept as states;
ghost use Rattle.c_handle.specs.Kept.{FitsLog};

use crate::kept::{Kept, by_state};
use crate::logging::{live_written, written};
use c_machine::Pages;
use c_machine::status::{DONE, LENT, NO_MACHINE, NO_MEMORY, NOT_KNOWN, STOPPED, TOO_SMALL};
use guestmem::{PAGE_SIZE, Ram};
use machine::{Disk, Machine, PageLog};
use sender::{LiveOver, Phase};
use std::alloc::Global;
use std::mem;
use wire::Digesting;

/// Copies the pages that are named from the caller's RAM into the machine's, one after another.
#[tactic(auto, using(crate::proofs::PushedPages::pushable_list, crate::proofs::PushedPages::pushable_named, crate::proofs::PushedPages::push_fit, crate::proofs::PushedPages::not_pushed, crate::proofs::PushedPages::pushed_list, crate::proofs::PushedPages::pushed_named, crate::proofs::PushedPages::push_full))]
pub fn push(alloc: Global, kept: &mut Kept, pages: &Pages, ram: &[u8], seen: &mut [u64]) -> u32
    ensures pushes { PushesKept kept.old.state kept.old.written pages.now ram.now result seen.old seen.new kept.new.state kept.new.written }
    ensures kind { kept.new ≡ record kept.old { state = kept.new.state; written = kept.new.written } }
{
    if let Some(status) = push_refusal(kept, pages, ram.len(), seen.len()) {
        return status;
    }
    if !pages.needs_list() {
        return push_listed(kept, pages.list, ram, seen);
    }
    let count = pages_in(kept);
    let mut named = mem::replace(&mut kept.named, Vec::new(alloc));
    let status = match pages.collect(count, &mut named) {
        Ok(()) => push_listed(kept, named.as_slice(), ram, seen),
        Err(_) => NO_MEMORY,
    };
    kept.named = named;
    status
}

/// Copies the pages with these numbers.
fn push_listed(kept: &mut Kept, pages: &[u32], ram: &[u8], seen: &mut [u64]) -> u32
    requires { IsPushable kept.old.state pages.now (length ram.now) (length seen.old) }
    ensures pushed { ArePushed kept.old.state kept.old.written pages.now ram.now seen.old seen.new kept.new.state kept.new.written }
    ensures done { result ≡ done }
    ensures kind { kept.new ≡ record kept.old { state = kept.new.state; written = kept.new.written } }
{
    let Kept { held, output, .. } = kept;
    by_state!(held;
        still(machine) => push_still(machine, pages, ram, seen, &mut output.written),
        moving(live) => push_moving(live, pages, ram, seen, &mut output.written),
    )
}

/// Why `vmig_push` is refused, if it is.
fn push_refusal(kept: &Kept, pages: &Pages, bytes: usize, entries: usize) -> Option<u32>
    ensures { result ≡ push_refusal kept.now.state pages.now bytes entries }
{
    let memory = match ram_of(kept) {
        Ok(memory) => memory,
        Err(status) => return Some(status),
    };
    if is_stopped(kept) {
        return Some(STOPPED);
    }
    if !pages.is_known() {
        return Some(NOT_KNOWN);
    }
    if is_short(memory, bytes, entries) {
        return Some(TOO_SMALL);
    }
    pages.refusal(page_count(memory) as usize)
}

/// How many pages the RAM of the machine has; 0 where it is away.
pub(crate) fn pages_in(kept: &Kept) -> usize
    ensures count { result ≡ length (memory_in kept.now.state).versions }
    ensures few { result ≤ PAGES_GREATEST }
{
    match ram_of(kept) {
        Ok(memory) => page_count(memory) as usize,
        Err(_) => 0,
    }
}

/// Whether the machine is one whose send was stopped.
pub(crate) fn is_stopped(kept: &Kept) -> bool
    ensures { result ≡ is_stopped kept.now.state }
{
    by_state!(&kept.held;
        still(_) => false,
        moving(live) => has_stopped(live.phase()),
        lent(_) => false,
        arriving(_) => false,
    )
}

/// Whether a send was stopped.
pub(crate) fn has_stopped(phase: Phase) -> bool
    ensures { result ≡ is_closed phase }
{
    matches!(phase, Phase::Stopped)
}

/// Whether the caller's RAM has fewer bytes than the machine's, or `seen` has fewer entries than there are pages.
fn is_short(memory: &Ram, bytes: usize, entries: usize) -> bool
    ensures { result ≡ is_short memory.now bytes entries }
{
    (bytes as u64) < memory.len() || (entries as u64) < page_count(memory)
}

pub(crate) fn page_count(memory: &Ram) -> u64
    ensures count { result ≡ length memory.now.versions }
    ensures sound { IsMemory memory.now }
{
    memory.recall();
    memory.len() / PAGE_SIZE as u64
}

/// The RAM of the machine, or the status that says why there is none here.
pub(crate) fn ram_of(kept: &Kept) -> Result<&Ram, u32>
    ensures here { IfOk result (λ ram. (is_away kept.now.state ≡ false) × (ram.now ≡ memory_in kept.now.state)) }
    ensures away { IfErr result (λ status. (is_away kept.now.state ≡ true) × (status ≡ away_status kept.now.state)) }
{
    by_state!(&kept.held;
        still(machine) => Ok(machine.ram()),
        moving(live) => Ok(live.machine().ram()),
        lent(_) => Err(LENT),
        arriving(_) => Err(NO_MACHINE),
    )
}

/// Pushes pages into a machine that is not being migrated. It takes no memory.
fn push_still<D: Disk>(
    machine: &mut Machine<D>,
    pages: &[u32],
    ram: &[u8],
    seen: &mut [u64],
    log: &mut Option<PageLog>,
) -> u32
    requires fits { FitsLog log.old (length machine.old.memory.bytes) }
    requires pushable { IsPushable (states.Still machine.old) pages.now (length ram.now) (length seen.old) }
    ensures pushed { ArePushed (states.Still machine.old) log.old pages.now ram.now seen.old seen.new (states.Still machine.new) log.new }
    ensures done { result ≡ done }
    ensures fits { FitsLog log.new (length machine.new.memory.bytes) }
{
    for n in pages {
        push_page(machine, *n, ram, seen, log);
    }
    DONE
}

#[tactic(auto, using(crate::proofs::PageLogs::may_all))]
fn push_page<D: Disk>(
    machine: &mut Machine<D>,
    n: u32,
    ram: &[u8],
    seen: &mut [u64],
    log: &mut Option<PageLog>,
)
    requires fits { FitsLog log.old (length machine.old.memory.bytes) }
    requires page { n < length machine.old.memory.versions }
    requires bytes { length machine.old.memory.bytes ≤ length ram.now }
    requires entries { length machine.old.memory.versions ≤ length seen.old }
    ensures pushed { IsPushed (states.Still machine.old) log.old n ram.now seen.old seen.new (states.Still machine.new) log.new }
    ensures bytes { length machine.new.memory.bytes ≡ length machine.old.memory.bytes }
    ensures versions { length machine.new.memory.versions ≡ length machine.old.memory.versions }
    ensures fits { FitsLog log.new (length machine.new.memory.bytes) }
{
    let _shapes = machine.shapes();
    machine.ram().recall();
    let at = PAGE_SIZE * n as usize;
    let base = machine.base();
    let _done = written(machine, base + at as u64, &ram[at..at + PAGE_SIZE], log);
    seen[n as usize] = machine.ram().version(n as u64);
}

/// As `push_still`, for a machine that is being migrated.
fn push_moving<D: Disk, W: Digesting>(
    live: &mut LiveOver<D, W, Ram>,
    pages: &[u32],
    ram: &[u8],
    seen: &mut [u64],
    log: &mut Option<PageLog>,
) -> u32
    requires fits { FitsLog log.old (length live.old.machine.memory.bytes) }
    requires pushable { IsPushable (states.Moving live.old) pages.now (length ram.now) (length seen.old) }
    ensures pushed { ArePushed (states.Moving live.old) log.old pages.now ram.now seen.old seen.new (states.Moving live.new) log.new }
    ensures done { result ≡ done }
    ensures fits { FitsLog log.new (length live.new.machine.memory.bytes) }
{
    for n in pages {
        push_live_page(live, *n, ram, seen, log);
    }
    DONE
}

#[tactic(auto, using(crate::proofs::PageLogs::may_all))]
fn push_live_page<D: Disk, W: Digesting>(
    live: &mut LiveOver<D, W, Ram>,
    n: u32,
    ram: &[u8],
    seen: &mut [u64],
    log: &mut Option<PageLog>,
)
    requires fits { FitsLog log.old (length live.old.machine.memory.bytes) }
    requires page { n < length live.old.machine.memory.versions }
    requires bytes { length live.old.machine.memory.bytes ≤ length ram.now }
    requires entries { length live.old.machine.memory.versions ≤ length seen.old }
    requires going { is_closed live.old.phase ≡ false }
    ensures pushed { IsPushed (states.Moving live.old) log.old n ram.now seen.old seen.new (states.Moving live.new) log.new }
    ensures bytes { length live.new.machine.memory.bytes ≡ length live.old.machine.memory.bytes }
    ensures versions { length live.new.machine.memory.versions ≡ length live.old.machine.memory.versions }
    ensures going { is_closed live.new.phase ≡ false }
    ensures fits { FitsLog log.new (length live.new.machine.memory.bytes) }
{
    live.recall();
    live.machine().ram().recall();
    let at = PAGE_SIZE * n as usize;
    let base = live.machine().base();
    let _done = live_written(live, base + at as u64, &ram[at..at + PAGE_SIZE], log);
    seen[n as usize] = live.machine().ram().version(n as u64);
}

/// Copies out each page whose version is not the one that the caller noted, or is the greatest.
pub fn pull(kept: &Kept, ram: &mut [u8], seen: &mut [u64], count: &mut u32) -> u32
    ensures { PullsKept kept.now.state result ram.old ram.new seen.old seen.new count.new count.old }
{
    let memory = match ram_of(kept) {
        Ok(memory) => memory,
        Err(status) => return status,
    };
    if is_short(memory, ram.len(), seen.len()) {
        return TOO_SMALL;
    }
    *count = pull_all(memory, ram, seen);
    DONE
}

fn pull_all(memory: &Ram, ram: &mut [u8], seen: &mut [u64]) -> u32
    requires { is_short memory.now (length ram.old) (length seen.old) ≡ false }
    ensures { HasPulled memory.now ram.old ram.new seen.old seen.new result }
{
    let mut count = 0;
    for n in 0..page_count(memory) {
        count += pull_page(memory, n, ram, seen);
    }
    count
}

/// Copies a page out, unless its version is the one that the caller noted, and is not the greatest. Returns how many pages were
/// copied: 1 or 0.
fn pull_page(memory: &Ram, n: u64, ram: &mut [u8], seen: &mut [u64]) -> u32
    requires page { n < length memory.now.versions }
    requires bytes { length memory.now.bytes ≤ length ram.old }
    requires entries { length memory.now.versions ≤ length seen.old }
    ensures copied { result ≡ (if is_noted memory.now seen.old n then 0 else 1) }
    ensures ram { ram.new ≡ (if is_noted memory.now seen.old n then ram.old else put_at ram.old (PAGE_SIZE * n) (page_of memory.now.bytes n)) }
    ensures seen { seen.new ≡ slice_set seen.old n (slice_index memory.now.versions n) }
{
    memory.recall();
    let version = memory.version(n);
    if seen[n as usize] == version && version < u64::MAX {
        return 0;
    }
    let at = PAGE_SIZE * n as usize;
    ram[at..at + PAGE_SIZE].copy_from_slice(memory.page(n));
    seen[n as usize] = version;
    1
}
