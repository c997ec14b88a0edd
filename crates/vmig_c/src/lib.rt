//! A machine as C sees it: `vmig.h` says the same to its reader, and what C owes.
//!
//! Here are the exports and nothing else. An export looks whether the handle has a machine, and is then a call of `c_handle`, the crate below,
//! which has the handle, what a handle has and what each call does to it. The structs and the statuses of C are those of `c_machine`.
//!
//! # What the layers above may rely on
//! - Every export is an ordinary function, and its clause is the step of the machine (`specs/Told`, `specs/Stepped`), its making
//!   (`specs/Made`) or its stream (`specs/Moving`), by the status that it returns: these files and all that a clause here names are in
//!   `c_handle`. From 1 to 63 nothing has changed, but for 20 (the writer failed) and for a stream that is refused as it arrives. `vmig_step` is
//!   not done where what it sends might not fit.
//! - On a handle without a machine a call is refused, and what it does to any other is said once for all (`specs/OnHandle`).
//! - The caller's part is C's: pointers and counts name memory as the header says.
//!
//! # Why it is so
//! - Exports call nobody back: they open no file and call no function of C. So disks lie in memory: they are honest and steady
//!   (`c_machine`, `specs/Plain`). A disk elsewhere is outside of the machine: what it is to do is asked for, and its answer is an event.
//! - A pointer whose count is 0 may be null, as C programmers write it. No contract says so, since a proof cannot compare a
//!   caller's pointer with null. The module that the compiler hands to LLVM has no attribute by which a pointer is known not to
//!   be null, and no empty slice of a caller is put into an `Option`; `tests/c/nulls.c` makes each such call.
//! - A static library exports its own functions alone, no function of a crate below, and is proved again where its archive is made. So nothing is
//!   in it that can be below.
#![tactic(auto)]

ghost use Rattle.std.specs.Prelude.{◌≡◌, ◌++◌, List, None, [], ℕ};
ghost use Rattle.c_digest.specs.Holding.{Holds};
ghost use Rattle.machine.specs.declared.event.Event.TheVariants as events;
ghost use Rattle.c_handle.specs.Announced.{Announces};
ghost use Rattle.c_handle.specs.Arriving.{Fed, Finished};
ghost use Rattle.c_handle.specs.ToldFeeding.{FedDigest, FedSome};
ghost use Rattle.c_handle.specs.Described.{Describes};
ghost use Rattle.c_handle.specs.Digest.{BegunAs, HasBeenTold};
ghost use Rattle.c_handle.specs.Dropping.{WroteReg};
ghost use Rattle.c_handle.specs.Durable.{Failed};
ghost use Rattle.c_handle.specs.Expected.{Expects};
ghost use Rattle.c_handle.specs.Sectors.{SectorRead};
ghost use Rattle.c_handle.specs.HandedOut.{HandedOut};
ghost use Rattle.c_handle.specs.HandingIn.{HandedIn, NextTold};
ghost use Rattle.c_handle.specs.Late.{Marked};
ghost use Rattle.c_handle.specs.Lent.{GivesBack, Lends};
ghost use Rattle.c_handle.specs.Listed.{ListsCalls};
ghost use Rattle.c_handle.specs.Made.{Makes};
ghost use Rattle.c_handle.specs.Migrated.{Aborted, Begun, EndedRound, HasBeenStopped, Leaves, SentSome, Taken};
ghost use Rattle.c_handle.specs.Mirror.{Pulled, Pushed};
ghost use Rattle.c_handle.specs.Moving.{Saved};
ghost use Rattle.c_handle.specs.NextWork.{FoundWork};
ghost use Rattle.c_handle.specs.Outside.{Done, FailsCall, HandsCall};
ghost use Rattle.c_handle.specs.Resetting.{Resets};
ghost use Rattle.c_handle.specs.Rooms.{Rooms};
ghost use Rattle.c_handle.specs.Stepped.{Stepped};
ghost use Rattle.c_handle.specs.Unmapping.{Releases};
ghost use Rattle.c_handle.specs.Turns.{Worked};
ghost use Rattle.c_handle.specs.Told.{Read, Told, ToldOr, ToldSo, Written, lines_told};
ghost use Rattle.c_handle.specs.Version.{version};
ghost use Rattle.sha2.specs.Sha256.{sha256};

use c_digest::Digest;
use c_handle::{
    Call, Handle, SendLeft, Turn, abort, announced, answer_done, answer_failed, arrive, begin,
    begin_as, describe, drop_input, feed, feed_some, feed_tell, finish, give_back, hand_call,
    hand_out, held_of, input, left as left_of, lend, lines, list_calls, lose_kept, make, mark,
    next, pull, push, read_ram, read_register, read_sector, release, release_refusal, reset,
    resize, room as room_in, save_kept, send_next, send_page, send_round, send_some, step_kept,
    stop, take, tell, work, write_ram, write_register,
};
use c_machine::status::{DONE, NO_MACHINE};
use c_machine::{Description, Expected, Pages, Setup};
use mapped_disk::Image;
use region::Slot;
use std::alloc::Global;

/// Calls a function with what the handle holds, as its first argument, or after an allocator. A handle that holds nothing has no machine.
macro_rules! on_kept {
    ($handle:ident; $call:ident($($argument:expr),*)) => {{
        if !$handle.is_made() {
            return NO_MACHINE;
        }
        $call($handle.get_mut() $(, $argument)*)
    }};
    ($handle:ident; $alloc:ident, $call:ident($($argument:expr),*)) => {{
        if !$handle.is_made() {
            return NO_MACHINE;
        }
        $call($alloc, $handle.get_mut() $(, $argument)*)
    }};
}

/// Version 1.1.0.
const VERSION: u32 = 1 << 16 | 1 << 8;

/// The version of the library: the major number from bit 16 on, the minor one from bit 8 on, and the patch.
#[unsafe(no_mangle)]
pub extern "C" fn vmig_version() -> u32
    ensures { result ≡ version }
{
    VERSION
}

/// Makes a machine as the setup says. RAM and images that it names are taken; where it is refused all is as it was.
#[unsafe(no_mangle)]
pub extern "C" fn vmig_make(alloc: Global, setup: &mut Setup, machine: &mut Handle) -> u32
    ensures made { Makes machine.old.machine setup.old result setup.new machine.new.machine }
    ensures rest { setup.new ≡ record setup.old { images = setup.new.images; ram = setup.new.ram } }
    ensures slots { setup.new.images.ghost_name ≡ setup.old.images.ghost_name }
{
    make(alloc, setup, machine)
}

/// Frees what there is, in each state.
#[unsafe(no_mangle)]
pub extern "C" fn vmig_free(alloc: Global, machine: &mut Handle)
    ensures { machine.new.machine ≡ None }
{
    if machine.is_made() {
        let old = std::mem::replace(machine, Handle::none(alloc));
        drop(old.into_box());
    }
}

/// Frees what there is, and its images go into the slots, which are of no sectors: those of its disks that lie in memory of the caller, in
/// the order of the devices. The slots after them stay as they are.
#[unsafe(no_mangle)]
#[tactic(auto, using(crate::proofs::ByHandle::releases_none, crate::proofs::ByHandle::releases_not, crate::proofs::ByHandle::releases_done))]
pub extern "C" fn vmig_release(alloc: Global, machine: &mut Handle, slots: &mut [Image]) -> u32
    ensures { Releases machine.old.machine slots.old slots.new result machine.new.machine }
{
    if !machine.is_made() {
        return NO_MACHINE;
    }
    if let Some(status) = release_refusal(machine.get_mut(), slots) {
        return status;
    }
    let held = held_of(machine.get_mut());
    drop(std::mem::replace(machine, Handle::none(alloc)).into_box());
    release(held, slots);
    DONE
}

/// Tells what the handle has. It takes no memory.
#[unsafe(no_mangle)]
#[tactic(auto, using(crate::proofs::Descriptions::none, crate::proofs::Descriptions::some))]
pub extern "C" fn vmig_describe(machine: &mut Handle, out: &mut Description)
    ensures described { Describes machine.old.machine out.new }
    ensures same { machine.new.machine ≡ machine.old.machine }
{
    if !machine.is_made() {
        *out = Description::none();
        return;
    }
    *out = describe(machine.get_mut());
}

/// The driver reads a register.
#[unsafe(no_mangle)]
#[tactic(auto, using(crate::proofs::OnHandle::on_none, crate::proofs::OnHandle::on_some))]
pub extern "C" fn vmig_reg_read(
    machine: &mut Handle,
    dev: u8,
    off: u32,
    width: u8,
    value: &mut u32,
) -> u32
    ensures { Told machine.old.machine (events.RegRead dev off width) result value.new value.old machine.new.machine }
{
    on_kept!(machine; read_register(dev, off, width, value))
}

/// The driver writes a register. `byte` becomes the byte that comes out by it, or 256. A write that would drop a request whose call is out is not
/// made.
#[unsafe(no_mangle)]
#[tactic(auto, using(crate::proofs::OnHandle::on_none, crate::proofs::OnHandle::on_some))]
pub extern "C" fn vmig_reg_write(
    machine: &mut Handle,
    dev: u8,
    off: u32,
    width: u8,
    value: u32,
    byte: &mut u32,
) -> u32
    ensures { WroteReg machine.old.machine dev off width value result byte.new byte.old machine.new.machine }
{
    on_kept!(machine; write_register(dev, off, width, value, byte))
}

/// The interrupt lines, one bit a device.
#[unsafe(no_mangle)]
#[tactic(auto, using(crate::proofs::ByHandle::lines_none, crate::proofs::ByHandle::lines_some))]
pub extern "C" fn vmig_lines(machine: &mut Handle) -> u32
    ensures lines { result ≡ lines_told machine.old.machine }
    ensures same { machine.new.machine ≡ machine.old.machine }
{
    if !machine.is_made() {
        return 0;
    }
    lines(machine.get_mut()) as u32
}

/// The host puts bytes in. It takes no memory.
#[unsafe(no_mangle)]
#[tactic(auto, using(crate::proofs::OnHandle::on_none, crate::proofs::OnHandle::on_some))]
pub extern "C" fn vmig_input(machine: &mut Handle, dev: u8, bytes: &[u8], kept: &mut usize) -> u32
    ensures { ToldOr 0 machine.old.machine (events.Input dev bytes.now) result kept.new kept.old machine.new.machine }
{
    on_kept!(machine; input(dev, bytes, kept))
}

/// How many bytes an input would keep; of a network device, how many frames.
#[unsafe(no_mangle)]
#[tactic(auto, using(crate::proofs::OnHandle::of_none, crate::proofs::OnHandle::of_some))]
pub extern "C" fn vmig_room(machine: &mut Handle, dev: u8, room: &mut usize) -> u32
    ensures told { Rooms machine.old.machine dev result room.new room.old }
    ensures same { machine.new.machine ≡ machine.old.machine }
{
    on_kept!(machine; room_in(dev, room))
}

/// The host sets the size of a console, in characters.
#[unsafe(no_mangle)]
#[tactic(auto, using(crate::proofs::OnHandle::on_none, crate::proofs::OnHandle::on_some))]
pub extern "C" fn vmig_resize(machine: &mut Handle, dev: u8, cols: u16, rows: u16) -> u32
    ensures { ToldSo machine.old.machine (events.Resize dev cols rows) result machine.new.machine }
{
    on_kept!(machine; resize(dev, cols, rows))
}

/// The host drops what it put in and the guest has not taken.
#[unsafe(no_mangle)]
#[tactic(auto, using(crate::proofs::OnHandle::on_none, crate::proofs::OnHandle::on_some))]
pub extern "C" fn vmig_drop(machine: &mut Handle, dev: u8) -> u32
    ensures { ToldSo machine.old.machine (events.Drop dev) result machine.new.machine }
{
    on_kept!(machine; drop_input(dev))
}

/// The guest reboots: each device is reset in order, and what was put in is dropped, unless that would drop a request whose call is out. It takes no
/// memory.
#[unsafe(no_mangle)]
#[tactic(auto, using(crate::proofs::OnHandle::on_none, crate::proofs::OnHandle::on_some))]
pub extern "C" fn vmig_reset(machine: &mut Handle) -> u32
    ensures { Resets machine.old.machine result machine.new.machine }
{
    on_kept!(machine; reset())
}

/// Finds a step that has something to do, the first in turn after the one that the two numbers name, and says whether the disk has to be
/// durable before it; or, where no step has, the device whose next call `vmig_disk_call` would hand out now. It takes no memory.
#[unsafe(no_mangle)]
#[tactic(auto, using(crate::proofs::Descriptions::found_none, crate::proofs::Descriptions::found_some))]
pub extern "C" fn vmig_next(machine: &mut Handle, dev: &mut u8, pick: &mut u8) -> u32
    ensures told { FoundWork machine.old.machine result dev.new dev.old pick.new pick.old }
    ensures same { machine.new.machine ≡ machine.old.machine }
{
    on_kept!(machine; next(dev, pick))
}

/// A device does one piece of its work. What it sends goes to the front of the buffer; a step that may send more than the buffer holds is not
/// done. Where its disk is lost, a flush fails, and the step that would end a write that the driver then takes for durable is idle.
#[unsafe(no_mangle)]
#[tactic(auto, using(crate::proofs::OnHandle::logged_none, crate::proofs::OnHandle::logged_some))]
pub extern "C" fn vmig_step(
    machine: &mut Handle,
    dev: u8,
    pick: u8,
    buf: &mut [u8],
    len: &mut u32,
) -> u32
    ensures { Stepped machine.old.machine dev pick result len.new len.old buf.old buf.new machine.new.machine }
{
    on_kept!(machine; step_kept(dev, pick, buf, len))
}

/// A turn of the devices: the steps that `vmig_next` names, one after another, as `vmig_step` makes them, until none has something to do, the
/// turn has no step left, or C has to do something. Memory that is refused to the first step is told; to a later one it is told by the next
/// call.
#[unsafe(no_mangle)]
#[tactic(auto, using(crate::proofs::OnHandle::logged_none, crate::proofs::OnHandle::logged_some))]
pub extern "C" fn vmig_work(machine: &mut Handle, turn: &mut Turn, buf: &mut [u8]) -> u32
    ensures { Worked machine.old.machine turn.old result buf.old buf.new turn.new machine.new.machine }
{
    on_kept!(machine; work(turn, buf))
}

/// The disk of a device could not be brought to its file, or is on storage that may have lost what it answered: it is lost from now on. It takes no
/// memory.
#[unsafe(no_mangle)]
#[tactic(auto, using(crate::proofs::ByHandle::failed_none, crate::proofs::ByHandle::failed_some))]
pub extern "C" fn vmig_sync_failed(machine: &mut Handle, dev: u8) -> u32
    ensures { Failed machine.old.machine dev result machine.new.machine }
{
    on_kept!(machine; lose_kept(dev))
}

/// Hands out the next call that a disk outside is to do. Of a write its bytes go to the front of the buffer. It takes no memory.
#[unsafe(no_mangle)]
#[tactic(auto, using(crate::proofs::ByHandle::hands_none, crate::proofs::ByHandle::hands_some))]
pub extern "C" fn vmig_disk_call(machine: &mut Handle, call: &mut Call, buf: &mut [u8]) -> u32
    ensures { HandsCall machine.old.machine result call.new call.old buf.old buf.new machine.new.machine }
{
    on_kept!(machine; hand_call(call, buf))
}

/// A disk outside did this many sectors of a call, from its first one on: of a read with these bytes. It takes no memory.
#[unsafe(no_mangle)]
#[tactic(auto, using(crate::proofs::ByHandle::answers_none, crate::proofs::ByHandle::answers_some))]
pub extern "C" fn vmig_disk_done(machine: &mut Handle, number: u64, count: u32, bytes: &[u8]) -> u32
    ensures { Done machine.old.machine number count bytes.now result machine.new.machine }
{
    on_kept!(machine; answer_done(number, count, bytes))
}

/// A disk outside failed at a call. It takes no memory.
#[unsafe(no_mangle)]
#[tactic(auto, using(crate::proofs::ByHandle::answers_none, crate::proofs::ByHandle::answers_some))]
pub extern "C" fn vmig_disk_failed(machine: &mut Handle, number: u64) -> u32
    ensures { FailsCall machine.old.machine number result machine.new.machine }
{
    on_kept!(machine; answer_failed(number))
}

/// Counts the calls of disks outside that are out, and lists the oldest of them, as they were handed out. It takes no memory.
#[unsafe(no_mangle)]
#[tactic(auto, using(crate::proofs::Descriptions::listed_none, crate::proofs::Descriptions::listed_some))]
pub extern "C" fn vmig_calls_out(machine: &mut Handle, calls: &mut [Call], count: &mut usize) -> u32
    ensures listed { ListsCalls machine.old.machine result calls.old calls.new count.new count.old }
    ensures same { machine.new.machine ≡ machine.old.machine }
{
    on_kept!(machine; list_calls(calls, count))
}

/// Reads a sector of a disk.
#[unsafe(no_mangle)]
#[tactic(auto, using(crate::proofs::OnHandle::on_none, crate::proofs::OnHandle::on_some))]
pub extern "C" fn vmig_sector_read(
    machine: &mut Handle,
    dev: u8,
    sector: u64,
    buf: &mut [u8; 512],
) -> u32
    ensures { SectorRead machine.old.machine dev sector result buf.old buf.new machine.new.machine }
{
    on_kept!(machine; read_sector(dev, sector, buf))
}

/// The guest reads RAM. It takes no memory, and reads also a machine that was stopped.
#[unsafe(no_mangle)]
#[tactic(auto, using(crate::proofs::OnHandle::of_none, crate::proofs::OnHandle::of_some))]
pub extern "C" fn vmig_ram_read(machine: &mut Handle, addr: u64, buf: &mut [u8]) -> u32
    ensures told { Read machine.old.machine addr result buf.old buf.new }
    ensures same { machine.new.machine ≡ machine.old.machine }
{
    on_kept!(machine; read_ram(addr, buf))
}

/// The guest writes RAM. It takes no memory.
#[unsafe(no_mangle)]
#[tactic(auto, using(crate::proofs::OnHandle::logged_none, crate::proofs::OnHandle::logged_some))]
pub extern "C" fn vmig_ram_write(machine: &mut Handle, addr: u64, bytes: &[u8]) -> u32
    ensures { Written machine.old.machine addr bytes.now result machine.new.machine }
{
    on_kept!(machine; write_ram(addr, bytes))
}

/// Lends the RAM of the machine to the caller, in whose memory it lies: it goes into the slot, which has to be free. It takes no memory,
/// and no longer for a larger RAM.
#[unsafe(no_mangle)]
#[tactic(auto, using(crate::proofs::OnHandle::on_none, crate::proofs::OnHandle::on_some))]
pub extern "C" fn vmig_lend(machine: &mut Handle, ram: &mut Slot) -> u32
    ensures { Lends machine.old.machine ram.old result ram.new machine.new.machine }
{
    on_kept!(machine; lend(ram))
}

/// Gives the RAM back that lies in the slot, and in which these pages were written. For a list of pages it takes no memory, and time for these
/// pages alone.
#[unsafe(no_mangle)]
#[tactic(auto, using(crate::proofs::OnHandle::on_none, crate::proofs::OnHandle::on_some))]
pub extern "C" fn vmig_give_back(
    alloc: Global,
    machine: &mut Handle,
    ram: &mut Slot,
    written: &Pages,
) -> u32
    ensures { GivesBack machine.old.machine ram.old written.now result ram.new machine.new.machine }
{
    on_kept!(machine; alloc, give_back(ram, written))
}

/// Names pages that were written while RAM was lent, and not named when it was given back. For a list of pages it takes no memory.
#[unsafe(no_mangle)]
#[tactic(auto, using(crate::proofs::OnHandle::on_none, crate::proofs::OnHandle::on_some))]
pub extern "C" fn vmig_mark(alloc: Global, machine: &mut Handle, written: &Pages) -> u32
    ensures { Marked machine.old.machine written.now result machine.new.machine }
{
    on_kept!(machine; alloc, mark(written))
}

/// Hands out the numbers of pages that steps and writes of the host wrote, ascending, as many as there is room for, and forgets these. It takes
/// no memory.
#[unsafe(no_mangle)]
#[tactic(auto, using(crate::proofs::ByHandle::handed_none, crate::proofs::ByHandle::handed_some))]
pub extern "C" fn vmig_written(machine: &mut Handle, pages: &mut [u32], count: &mut usize) -> u32
    ensures { HandedOut machine.old.machine result pages.old pages.new count.new count.old machine.new.machine }
{
    on_kept!(machine; hand_out(pages, count))
}

/// Copies the pages that are named from the caller's RAM into the machine's, and notes their versions. For a list of pages it takes no
/// memory.
#[unsafe(no_mangle)]
#[tactic(auto, using(crate::proofs::OnHandle::logged_none, crate::proofs::OnHandle::logged_some))]
pub extern "C" fn vmig_push(
    alloc: Global,
    machine: &mut Handle,
    written: &Pages,
    ram: &[u8],
    seen: &mut [u64],
) -> u32
    ensures { Pushed machine.old.machine written.now ram.now result seen.old seen.new machine.new.machine }
{
    on_kept!(machine; alloc, push(written, ram, seen))
}

/// Copies into the caller's RAM each page whose version is not the one that the caller noted, or is the greatest, and notes its
/// version. It takes no memory.
#[unsafe(no_mangle)]
#[tactic(auto, using(crate::proofs::OnHandle::of_none, crate::proofs::OnHandle::of_some))]
pub extern "C" fn vmig_pull(
    machine: &mut Handle,
    ram: &mut [u8],
    seen: &mut [u64],
    pulled: &mut u32,
) -> u32
    ensures told { Pulled machine.old.machine result ram.old ram.new seen.old seen.new pulled.new pulled.old }
    ensures same { machine.new.machine ≡ machine.old.machine }
{
    on_kept!(machine; pull(ram, seen, pulled))
}

/// Begins to send the machine. The bytes written for it wait until they are taken.
#[unsafe(no_mangle)]
#[tactic(auto, using(crate::proofs::OnHandle::on_none, crate::proofs::OnHandle::on_some))]
pub extern "C" fn vmig_send_begin(alloc: Global, machine: &mut Handle) -> u32
    ensures { Begun machine.old.machine result machine.new.machine }
{
    on_kept!(machine; alloc, begin())
}

/// As `vmig_send_begin`, by flags: the host tells the digest, or it does not.
#[unsafe(no_mangle)]
#[tactic(auto, using(crate::proofs::OnHandle::told_none, crate::proofs::OnHandle::told_some))]
pub extern "C" fn vmig_send_begin_as(alloc: Global, machine: &mut Handle, flags: u32) -> u32
    ensures { BegunAs machine.old.machine flags result machine.new.machine }
{
    on_kept!(machine; alloc, begin_as(flags))
}

/// Sends at most `most` items that are due.
#[unsafe(no_mangle)]
#[tactic(auto, using(crate::proofs::OnHandle::on_none, crate::proofs::OnHandle::on_some))]
pub extern "C" fn vmig_send_some(machine: &mut Handle, most: u32) -> u32
    ensures { SentSome machine.old.machine most result machine.new.machine }
{
    on_kept!(machine; send_some(most))
}

/// What is sent next: a page, by its number, or sectors. It takes no memory.
#[unsafe(no_mangle)]
#[tactic(auto, using(crate::proofs::OnHandle::of_none, crate::proofs::OnHandle::of_some))]
pub extern "C" fn vmig_send_next(machine: &mut Handle, page: &mut u32) -> u32
    ensures told { NextTold machine.old.machine result page.new page.old }
    ensures same { machine.new.machine ≡ machine.old.machine }
{
    on_kept!(machine; send_next(page))
}

/// Sends the page that is next, with bytes that the caller copied out of the RAM that it was lent.
#[unsafe(no_mangle)]
#[tactic(auto, using(crate::proofs::OnHandle::on_none, crate::proofs::OnHandle::on_some))]
pub extern "C" fn vmig_send_page(machine: &mut Handle, page: u32, bytes: &[u8; 4096]) -> u32
    ensures { HandedIn machine.old.machine page bytes.now result machine.new.machine }
{
    on_kept!(machine; send_page(page, bytes))
}

/// Ends a round: what was touched since becomes due.
#[unsafe(no_mangle)]
#[tactic(auto, using(crate::proofs::OnHandle::on_none, crate::proofs::OnHandle::on_some))]
pub extern "C" fn vmig_send_round(machine: &mut Handle) -> u32
    ensures { EndedRound machine.old.machine result machine.new.machine }
{
    on_kept!(machine; send_round())
}

/// Sends what is left, and closes the stream, unless a call of a disk outside is out.
#[unsafe(no_mangle)]
#[tactic(auto, using(crate::proofs::OnHandle::on_none, crate::proofs::OnHandle::on_some))]
pub extern "C" fn vmig_send_stop(machine: &mut Handle, pages: &mut u64, sectors: &mut u64) -> u32
    ensures { HasBeenStopped machine.old.machine result pages.new pages.old sectors.new sectors.old machine.new.machine }
{
    on_kept!(machine; stop(pages, sectors))
}

/// Ends the sending; the machine stays as it is.
#[unsafe(no_mangle)]
#[tactic(auto, using(crate::proofs::OnHandle::told_none, crate::proofs::OnHandle::told_some))]
pub extern "C" fn vmig_send_abort(machine: &mut Handle) -> u32
    ensures { Aborted machine.old.machine result machine.new.machine }
{
    on_kept!(machine; abort())
}

/// Takes the first of the bytes that wait.
#[unsafe(no_mangle)]
#[tactic(auto, using(crate::proofs::OnHandle::on_none, crate::proofs::OnHandle::on_some))]
pub extern "C" fn vmig_send_take(machine: &mut Handle, buf: &mut [u8], got: &mut usize) -> u32
    ensures { Taken machine.old.machine result got.new got.old buf.old buf.new machine.new.machine }
{
    on_kept!(machine; take(buf, got))
}

/// The host tells the digest of what it took: that of the record that closes the stream.
#[unsafe(no_mangle)]
#[tactic(auto, using(crate::proofs::OnHandle::on_none, crate::proofs::OnHandle::on_some))]
pub extern "C" fn vmig_send_tell(machine: &mut Handle, digest: &[u8; 32]) -> u32
    ensures { HasBeenTold machine.old.machine digest.now result machine.new.machine }
{
    on_kept!(machine; tell(digest))
}

/// What is still to be sent. It looks at each page's place in two sets.
#[unsafe(no_mangle)]
#[tactic(auto, using(crate::proofs::OnHandle::of_none, crate::proofs::OnHandle::of_some))]
pub extern "C" fn vmig_send_left(machine: &mut Handle, left: &mut SendLeft) -> u32
    ensures told { Leaves machine.old.machine result left.new left.old }
    ensures same { machine.new.machine ≡ machine.old.machine }
{
    on_kept!(machine; left_of(left))
}

/// Saves the machine into a buffer. `len` becomes the length of its stream in bytes, also if the buffer is too small for it.
#[unsafe(no_mangle)]
#[tactic(auto, using(crate::proofs::OnHandle::on_none, crate::proofs::OnHandle::on_some))]
pub extern "C" fn vmig_save(
    alloc: Global,
    machine: &mut Handle,
    buf: &mut [u8],
    len: &mut usize,
) -> u32
    ensures { Saved machine.old.machine result len.new len.old buf.old buf.new machine.new.machine }
{
    on_kept!(machine; alloc, save_kept(buf, len))
}

/// A machine will arrive, in the memory and within the limits that the struct says. RAM and images that it names are taken; where it is
/// refused all is as it was.
#[unsafe(no_mangle)]
pub extern "C" fn vmig_arrive(alloc: Global, arrival: &mut Expected, machine: &mut Handle) -> u32
    ensures expected { Expects machine.old.machine arrival.old result arrival.new machine.new.machine }
    ensures rest { arrival.new ≡ record arrival.old { images = arrival.new.images; ram = arrival.new.ram } }
    ensures slots { arrival.new.images.ghost_name ≡ arrival.old.images.ghost_name }
{
    arrive(alloc, arrival, machine)
}

/// Feeds the next piece of a stream.
#[unsafe(no_mangle)]
#[tactic(auto, using(crate::proofs::ArrivalCalls::fed_none, crate::proofs::ArrivalCalls::fed_some))]
pub extern "C" fn vmig_feed(alloc: Global, machine: &mut Handle, bytes: &[u8]) -> u32
    ensures { Fed machine.old.machine bytes.now result machine.new.machine }
{
    on_kept!(machine; alloc, feed(bytes))
}

/// Feeds the next piece of a stream, where the host tells its digest as far as the record that closes it.
#[unsafe(no_mangle)]
#[tactic(auto, using(crate::proofs::ArrivalCalls::some_fed_none, crate::proofs::ArrivalCalls::some_fed))]
pub extern "C" fn vmig_feed_some(
    alloc: Global,
    machine: &mut Handle,
    bytes: &[u8],
    used: &mut usize,
) -> u32
    ensures { FedSome machine.old.machine bytes.now result used.new used.old machine.new.machine }
{
    on_kept!(machine; alloc, feed_some(bytes, used))
}

/// The host tells the digest of the bytes that it fed, which is due.
#[unsafe(no_mangle)]
#[tactic(auto, using(crate::proofs::ArrivalCalls::digest_fed_none, crate::proofs::ArrivalCalls::digest_fed))]
pub extern "C" fn vmig_feed_tell(machine: &mut Handle, digest: &[u8; 32]) -> u32
    ensures { FedDigest machine.old.machine digest.now result machine.new.machine }
{
    on_kept!(machine; feed_tell(digest))
}

/// Ends an arrival after its last piece: the handle has the machine, or its stream is refused.
#[unsafe(no_mangle)]
#[tactic(auto, using(crate::proofs::ArrivalCalls::finished_none, crate::proofs::ArrivalCalls::finished_some))]
pub extern "C" fn vmig_finish(machine: &mut Handle) -> u32
    ensures { Finished machine.old.machine result machine.new.machine }
{
    on_kept!(machine; finish())
}

/// What the machine is whose stream begins with these bytes. It takes memory for sixteen shapes, for the time of the call.
#[unsafe(no_mangle)]
pub extern "C" fn vmig_stream_describe(alloc: Global, bytes: &[u8], out: &mut Description) -> u32
    ensures { Announces bytes.now result out.new out.old }
{
    announced(alloc, bytes, out)
}

/// Begins a digest: nothing was added to it.
#[unsafe(no_mangle)]
pub extern "C" fn vmig_digest_begin(digest: &mut Digest)
    ensures { Holds digest.new [] }
{
    *digest = Digest::begin();
}

/// Adds bytes to what a digest is of.
#[unsafe(no_mangle)]
pub extern "C" fn vmig_digest_add(digest: &mut Digest, bytes: &[u8])
    ensures { (message : List ℕ) → Holds digest.old message → Holds digest.new (message ++ bytes.now) }
{
    digest.add(bytes);
}

/// The SHA-256 of all that was added. The digest begins anew.
#[unsafe(no_mangle)]
pub extern "C" fn vmig_digest_end(digest: &mut Digest, out: &mut [u8; 32])
    ensures told { (message : List ℕ) → Holds digest.old message → out.new ≡ sha256 message }
    ensures begun { Holds digest.new [] }
{
    *out = digest.end();
}
