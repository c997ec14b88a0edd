//! The machine: RAM and 1 to 16 virtio devices, to which one event after another is applied.
//!
//! An `Event` is one atomic step: a register access, an access to RAM, a piece of a device's work, bytes that the host puts in, an answer of
//! a disk that is outside.
//! `Machine::apply` answers it with a `Reply`, and `Machine::play` plays a whole list. Beside them a machine is changed by a flush that
//! fails (`fail_flush`) and by RAM that is lent (`lend`) alone, and there is no thread. A machine's state is `MachineState`
//! (`specs/State`): one list of bytes, the devices, and the sectors of their disks. Versions of pages are no part of it.
//!
//! A device finds its work in rings: split ones, or packed ones where the driver accepted them. What a step may see there is
//! what the definitions of `chains` say of the RAM, so steps with equal outcomes are equal. The disk of a block device is any
//! type that keeps the contract of the trait `Disk`; or it is outside of the machine, which then has no sector of it. A machine holds two
//! rings for each device (`specs/Rings`), with the descriptors that they keep; what they keep is part of no definition, and changes no
//! answer.
//!
//! # What the layers above may rely on
//! - `apply(event)` is a step in the sense of `specs/Step`, with the outcome that its reply reports, of the machine with its
//!   sectors as the disk gave them in this step (`specs/Applied`): the reply, RAM, the devices and which sectors are bad are as
//!   its effect says, with any disk. Where no sector was written, what the sectors hold is known too; what a written sector
//!   holds, and that a disk gives what it holds, is said of honest disks. The machine is sound after it, and its RAM is a later
//!   one. The versions of exactly the pages that the effect writes into rise: every other page keeps its version. A step leaves the disks
//!   of other devices as they were; and after the step of a driver's flush, where it answered `Moved`, the disk is flushed.
//! - `apply_logged(event, log)` is the same step, and the log is then what the items of the step's effect make of it: exactly
//!   the pages and sectors that the step writes into.
//! - `PageLog` is a log for a host that asks which pages were written: `hand_out` gives their numbers, each once, ascending, and forgets them
//!   (`specs/PageLog`, `laws::noted_are_these`). It takes memory as it is made, and no more.
//! - `read_register`, `write_register`, `read_ram`, `write_ram`, `input`, `resize`, `step`, `disk_gave`, `disk_did` and `disk_failed` are the
//!   steps of their events, with no event to be made.
//! - A disk outside (`Shape::Outside`) is the host's (`specs/Outside`). A request that needs it waits: `next_work` does not name it, and its
//!   step is idle (`laws::waiting_is_idle`). `disk_call(dev, pick)` says what it asks: one sector at least, none past the last, and no change
//!   of a device that is read-only, whatever a guest or a stream did; `written_bytes` hands out what is to be written. The host does that in
//!   its own time, and hands the answer in, whole or in part, as the event `Disk`. `DeviceState::call_with_durability` says of any call
//!   whether it has to be durable before it is answered, by what the driver accepted. An answer to what is asked is taken
//!   (`laws::asked_is_taken`), another one is idle; what was given or done is its parts (`laws::answers_are_their_parts`). It takes no memory,
//!   and calls no disk: such a device has no marks, and `must_sync` owes nothing for it. `drops_requests` says which register write would
//!   drop requests that may have a call out (crate `disk_calls`).
//! - `flush_disk(dev)` is one flush of the disk of a device, beside all steps (`specs/Unsynced`): the machine stays equal, and after an Ok the
//!   disk is flushed. `DeviceState::must_sync(pick)` says whether what the driver wrote has to be durable before a step: it flushes the
//!   disk by itself; or it ends a write of a driver that did not accept the feature FLUSH, before which a host calls `flush_disk`.
//! - `fail_flush(dev, pick)` makes a step that flushes a disk as a step whose disk failed, and calls no disk (`specs/Unsynced`): for a
//!   host that could not bring the bytes of the disk to the file that holds them. The marks of the disk stay as they are, so disks
//!   that are honest and steady are so after it. Any other step it refuses, and then nothing has changed.
//! - `NoMemory` comes only for a reply that holds bytes and for a step that looks at a long queue or at a message to be sent.
//!   After it, and after `Refused`, nothing has changed.
//! - A disk's count of failures rises by one exactly where the reply is `DiskFailed` and it is that device's disk; a steady
//!   disk never fails.
//! - The calls of disks are counted (`specs/Calls`). A step calls the disk of its device once where it moves a unit of a request, clears or
//!   flushes, and not where it takes a request, ends it, finds its sector bad or gives the id. It calls no other disk, and an event that
//!   is no step calls none. `flush_disk` calls its disk once; so do `read_sector`, unless the sector is bad, and `read_good_sector`;
//!   `fail_flush` calls none. Machines that are made, restored, lent and given back have their disks with the counts that these had.
//! - `next_work(last)` names the next step that has something to do, in turn after `last` (`specs/NextWork`). Where it names
//!   none, every step of every device is idle; a step that it names is not idle, or has cleared the notified flag of its queue.
//!   It reads no RAM.
//! - `has_sector` tells whether a device has a disk with a sector of some number: one has those that its shape names, as `shapes` says.
//!   `read_sector` gives such a sector, or says that it is bad, and then makes no call of the disk. `next_bad` names the next bad
//!   sector of a disk, and `read_good_sector` reads one that is not bad, with no look at the marks.
//! - `play(events)` is a run of steps (`specs/Run`), with a reply to each: one event after another is applied. Where it is refused
//!   memory, nothing was played.
//! - `Machine::make` makes a machine of a `Board`: how large it may be (`Limits`), where RAM begins, what it is made of, what the devices
//!   are, and their disks. RAM is
//!   pages of zeros, or the bytes that lie in a `region::Region` and stay where they are; all else has first values. A refusal is the
//!   first one that holds, and gives the disks and the region back (`specs/First`). `Machine::new` makes one of zeros, at address 0.
//!   All addresses of the guest count from where RAM begins, and all devices of a machine hold the same base (`specs/Sound`).
//!   `restore` gives the machine of what was saved. Where the memory for that is to be had early, `Room::new` takes it, and
//!   `restore_in` takes no more and cannot fail. Every machine is sound (`specs/Sound`), and stays so. `lines` is the
//!   interrupt lines.
//! - `lend` gives the region to the caller, whose guest may write there, and keeps all else as a `Parked` machine (`specs/Parked`).
//!   `Parked::give_back` takes the region back with the pages that were written: their versions rise, and the log takes them in. Where no
//!   other page was written, that is what writes of these whole pages by the guest are (`laws::back_is_written`). The rings forget what
//!   they keep, so a page that was written and not named is never read as it was: then too it is what the guest's writes are, but for the
//!   versions (`laws::unnamed_is_written`). `mark` names pages later; it is the guest's writes of these pages with the bytes that lie there
//!   (`laws::mark_is_written`).
//! - A machine is written over its RAM (`MachineOver<D, M: GuestRam>`): `Machine` has it here, `Parked` has lent it. What needs no byte of RAM is
//!   written once, over both: register accesses, input, a size of a console, flushes of disks, reads of their sectors, the next work, the
//!   lines, the states of the devices, and answers of disks outside that touch no RAM (`disk_did`, `disk_failed`). Such a contract is said of
//!   each RAM that may be there (`specs/Known`, `Over`): of a `Machine` it is what stands above, and of a `Parked` machine the call is that of
//!   the machine with whatever its RAM holds meanwhile, and so of the machine as it was lent (`laws::parked_is_applied`,
//!   `parked_is_flushed`, `parked_is_read`, `parked_flush_fails`) and of the machine after the return
//!   (`laws::lent_call_is_made_after_the_return`): it makes no difference whether the guest wrote before or after. RAM accesses, bytes that a
//!   disk outside gave and what hands the machine on want the RAM back, and so do steps, but for those that are made over a window.
//! - A step may be made while the RAM is lent and the guest runs: over a window, a second memory of RAM's size into which the caller copies
//!   the pieces for which `Parked::lacks` asks. `Parked::asking` says before it which word of the driver is read last, which word is quiet
//!   meanwhile, and whether the true one asks for an interrupt; `Parked::step_over` makes the step, and `Parked::end` ends it. It is that step
//!   of the machine, whatever its RAM holds elsewhere (`laws::held_is_beside`, `beside_is_step`, `asking_is_publishing`), and reads and writes
//!   no other pieces (`laws::device_steps_are_local`, `stores_are_writes`).
//! - `Parked::storing` says before the step what it writes, by its answer: `Stores::next` hands out piece after piece, in the order in which a
//!   host stores them (`laws::storing_is_writes`). `Asking::shares` and `Stores::may_write` say whether the driver's word lies apart: then the
//!   quiet word is put into the window and the step is open (`laws::apart_is_open`). Else the word is copied as any piece, and once it is held
//!   (`Asking::is_held`) the step is closed (`laws::held_word_is_closed`). Of an empty queue `Stores::note` and `second_look` say what is stored
//!   before the step, and which piece is read again then (`laws::empty_is_closed`).
//! - `Serials` counts how often each device was touched, and `Pieces` are those that are held of a step: stale once its device was touched since
//!   they were begun (`laws::touched_is_stale`, `untouched_devices_stay`). `Parked::step_held` makes the step with them, where they are not stale
//!   and lack none. It asks for both by itself, and where the step is not made nothing has changed.
//! - `Parked::plan` names the next step of a turn that a host makes so, and `Turn::after` says whether the turn continues: it is a turn as `work` makes
//!   it (`laws::beside_is_once`).
//! - `are_disks_of` says whether disks are those of some devices, in their order.
//! - `laws`: what an effect does not touch stays, what it touches exists, the shape stays. Equal outcomes give equal effects,
//!   replies and machines, whatever a guest wrote into its rings. A step of a sound machine stays within it, keeps its shape
//!   and leaves it sound. What is refused changes nothing, whatever the disks do. A device asks for a reset exactly where it
//!   looks at a malformed queue and memory was not refused, and nothing else changes then. An honest disk gives what it holds;
//!   over any disk a step answers alike and writes into the same items as over an honest one.
//!
//! It uses `guestmem` (RAM), `mmio` (registers), the rings, `blk`, `net` and `console`, and trusts nothing else. Streams of
//! machines are in `wire`, `sender` and `receiver`; an embedder takes all of it from the crate `vmig`.
#![tactic(auto)]

mod any_ring;
mod asking;
mod board;
mod device;
mod event;
mod fitting;
mod forgetting;
mod guest_ram;
mod kind;
pub mod laws;
mod limits;
mod machine;
mod new_error;
mod outside_call;
mod page_log;
mod pieces;
mod reply;
mod serials;
mod shape;
mod sharing;
mod state;
mod stepped;
mod stores;
mod turn;
mod work;

pub use asking::Asking;
pub use blk::{Disk, DiskFault, FaultDisk, FileDisk, MemDisk, SECTOR_SIZE, SECTORS_MAX, SyncOwed};
pub use board::{Board, RamOf, Unmade};
pub use chains::Piece;
pub use device::Device;
pub use event::{DiskAnswer, Event};
pub use fitting::are_disks_of;
pub use guest_ram::GuestRam;
pub use guestmem::Bytes;
pub use kind::Kind;
pub use limits::Limits;
pub use machine::{DEVICES_MAX, Machine, MachineOver, Parked, Room, is_base};
pub use new_error::NewError;
pub use outside_call::OutsideCall;
pub use page_log::PageLog;
pub use pieces::{NotMade, Pieces};
pub use reply::{Refusal, Reply};
pub use serials::Serials;
pub use shape::Shape;
pub use state::{DeviceState, offered};
pub use stepped::Stepped;
pub use stores::Stores;
pub use turn::{Plan, Turn, TurnEnd, goes_on};
pub use work::Work;
