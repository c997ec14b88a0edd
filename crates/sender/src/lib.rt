//! Writes a machine to a stream: `save` writes it whole to any sink, and `Live` sends it in rounds while it runs.
//!
//! # What the layers above may rely on
//! - `save(machine, sink)`: an honest sink holds what it held and then the whole stream (`whole` of `wire`'s
//!   `specs/Stream`), if the disks are honest. An error is returned exactly if a count of failures rose: `StreamFailed`
//!   if the sink's did, and `DiskFailed` with the sector if a disk's did. After an Ok the sink was flushed after its last
//!   byte. The machine stays equal but for the calls of its disks: one of the disk of each good sector, in order, and after an error
//!   one for each of the first ones (`SaveCalls` of `specs/Reads`). It takes no memory of its own.
//! - `saved_len(machine)` is the length of that stream, made without it.
//! - `Live` is a machine that is migrated while it runs. Contracts see of it the machine, the phase (fresh, a round
//!   open, stopped, failed), two sets of items, *due* and *dirty*, what its digest covers, and what its writer
//!   holds. One clause, `Serves` (`specs/Calls`), says what each call does, by its reply:
//!   - a refusal by the phase changes nothing: not begun, already begun, already stopped, the round counter exhausted,
//!     and an earlier failure of the writer;
//!   - `apply` is the step of the event, and makes dirty exactly what the step writes into, whatever the disks do;
//!     `write_ram`, `input` and `disk_gave` do the same for the events with bytes, which they take as slices;
//!   - `begin` writes the header: every item is due, none is dirty;
//!   - `copy` writes the record of the least due item, a page as it is now and a sector as its disk returns it, and takes
//!     it out of both sets; `RoundDone` if none is due;
//!   - `end_round` returns `RoundOpen` while an item is due; else the end of the round is written and the dirty items
//!     become due;
//!   - `stop` writes each item of the two sets once, in order, then the devices and the digest, counts what it wrote, and
//!     flushes the writer after its last byte;
//!   - all but the events of the guest leave the machine equal but for the calls of its disks, whatever they return. `StreamFailed` is returned
//!     exactly if the writer's count rose, or the phase was failed; `DiskFailed` exactly if the disk's count rose: a
//!     copy then changes neither set, and a stop has sent the items before the sector that it names, and no other left
//!     a set.
//! - A second clause of each call, `HasLiveCalled` (`specs/Reads`), counts the calls of disks, with any disks: an event of the guest makes
//!   those of its step; `begin` and `end_round` none; a copy one of the disk of a good sector, also where that fails or the writer does,
//!   and none for a bad one or for a page; a stop one for each good sector of the two sets, in order, and no other: where a disk failed,
//!   for those up to the sector that is named, and where the writer did, for those up to some item. Where none was made, the machine is
//!   equal (`laws::uncalled_is_same`).
//! - `apply_logged`, `step_into_logged`, `write_ram_logged` and `disk_gave_logged` report to a `PageLog` of the caller's too, where there is one
//!   (`specs/Logged`): it takes in exactly the pages that become dirty. They take no memory for it.
//! - `disk_gave`, `disk_did` and `disk_failed` hand in the answer of a disk that is outside of the machine, as events of the guest. What is asked of
//!   such disks is asked of the machine (`Machine::disk_call`, `written_bytes`, `drops_requests`; while its RAM is lent `Parked::drops_requests`), and
//!   for the calls that are out (crate `disk_calls`) a `LiveOver` asks for what its machine does. No sector of such a disk is
//!   sent. A request that waits is sent with its device, by the stop, so no stop is made while a call is out.
//! - `fail_flush` makes a step that flushes a disk as one whose disk failed, and calls no disk (`specs/Unsynced`). The history
//!   continues with that step, and nothing becomes dirty: the stop sends the devices whole.
//! - `flush_disk` is one flush of the disk of a device, in each phase: the machine stays equal, and the history as it was
//!   (`laws::flush_keeps_the_history`).
//! - `LiveOver` is `Live` over any writer that closes a stream by a digest, and over RAM that is here or lent. `Live` itself is over any sink, and digests
//!   what it writes at once. Over `Waiting` it is `LiveWaiting`: `take` gives written bytes between two calls and digests them then, so
//!   a copy digests nothing, and a stop what was not taken.
//! - Over `Told` it is `LiveTold`, which digests nothing: whoever takes the bytes does, on a thread of its own say. As a writer it holds the
//!   record that closes the stream from the stop on; `take` gives all but that record until `tell` was called with its digest (`owes`).
//! - `remaining` counts both sets in constant time; `left` counts pages and sectors apart, and `most_by_stop` is the most bytes that a stop would write; `machine` lends the machine to be read; `into_parts` and `abort`
//!   return it.
//! - `lend` gives the RAM of a machine over memory of the caller to the caller, whose guest may write there, and keeps all else as a
//!   `LiveParked` (`specs/Parked`), a `LiveOver` too. `LiveParked::give_back` takes the region back with the pages that were written: they are dirty. Where the
//!   caller wrote into no other page, that is served as the guest's writes of these pages are, and the history goes on by them.
//! - What needs no byte of RAM can be done meanwhile (`specs/ParkedCalls`), in each phase in which the guest runs, after a failed writing
//!   too: register accesses, input, a size of a console, flushes of disks, and answers of disks outside that touch no RAM (`disk_did`,
//!   `disk_failed`); `remaining`, `left` and `most_by_stop` count, and bytes are taken. Each is written once, and says what it does whatever RAM
//!   holds (`specs/HereOrLent`). It is that call of the machine as it was lent
//!   (`laws::live_parked_is_served` and the two after it), and makes nothing dirty. So the history goes on by these events, and then by the
//!   writes of the pages that are named (`laws::lent_follows_the_history`). Begin, stop, abort, RAM accesses and
//!   bytes that a disk outside gave want the RAM back; so does a step, unless it is made over a window.
//! - A round continues meanwhile. `next_item` says what is sent next. `copy_page` sends a page with bytes that the caller copied out of the RAM: by
//!   the history the guest wrote the page with these bytes, and then it was copied (`specs/HandedIn`). `copy_sector` sends a sector, which is in no RAM: it
//!   is a copy of the machine with whatever RAM, and calls the disk as a copy does; where a page is due before, it sends nothing and names the page
//!   (`specs/SectorsLent`). `mark` and `end_round` read no byte of RAM either.
//! - A step may be made over a window meanwhile (`LiveParked::lacks`, `asking`, `step_over`, `end`; `specs/Beside`): in the history that is
//!   the guest's writes of the pages that it had written till then, as the step saw them, and the step (`laws::steps_over_are_beside`).
//!   Exactly the items that it writes into become dirty. `step_held` makes it with the pieces that are held of it, where they are all that it
//!   reads and not stale (`Parked::step_held`); where it is not made nothing becomes dirty.
//! - Pages may be named later (`specs/Marks`): by a further return, or by `mark`, which needs no loan. Until then the machine is *behind*
//!   its history by no more than these pages: if some of them were dirty too, all that is promised of a history would hold. Every call,
//!   loan and taking may come meanwhile, but no end of a round and no stop. A begin, which makes every item due, ends it too. A page that
//!   is never named may be missing at the receiver.
//! - `Guest` is what a host's loop does with a machine, by `Machine` and by `LiveOver`. Each of its clauses names the relation of the type
//!   (`specs/Guests`), so over a `Live` it says what becomes dirty.
//! - `replay(machine, events, out)` plays a list. By its *history* (`specs/History`, `specs/Ran`), which names no set:
//!   an item is *stale* if each sending of it, if any, was followed by a touch, and *due* if it was stale as the last
//!   round began and was not sent since. Every reply may come after those before it, the bytes added are the text of
//!   the history, and once a stop returned Ok they are a stream of the machine, and the writer is flushed. Each disk is
//!   as honest and as steady as before.
//! - `laws`: an item that is not stale is as the last record that names it says; while a round is open the due set is
//!   what is due, and the two sets together are what is stale; a history that ends in a stop is a stream; its machine
//!   is that of a run of the guest's events alone; events and replies determine all of it; no call depends on what the
//!   writer holds.
//! - Only the `new` of a `Live` and `replay` take memory. What single calls promise of bytes holds for an honest writer and any disks: of a
//!   sector goes out what its disk returned, which is its content if the disk is honest (`specs/Told`,
//!   `laws::honest_disks_tell_contents`). The history of `replay`, and the bytes of `save`, are promised for honest disks. For any it
//!   is promised that each event has a reply or none has, that nothing is changed where none has, that each reply is that of its
//!   call, that a disk that is reported as failed is not steady, and that once a stop returned Ok a stream was written, of a machine
//!   with this one's RAM and devices.
//!
//! Not proved: that `save` asks the marks of a disk once for each bad sector, not once for each sector.
//!
//! It uses `machine`, `dirtylog`, and `wire`, which encodes each record.
#![tactic(auto)]

mod asking;
mod dirty;
mod event;
mod guest;
pub mod laws;
mod left;
mod lending;
mod live;
mod logged;
mod measuring;
mod mig_error;
mod numbering;
mod outside;
mod phase;
mod played;
mod playing;
mod saving;
mod working;

pub use event::{
    CopyAnswer, End, Item, Left, LiveEvent, LiveReply, NextDue, Remaining, SectorAnswer, Stopped,
};
pub use guest::Guest;
pub use live::{Live, LiveOver, LiveParked, LiveTold, LiveWaiting};
pub use measuring::saved_len;
pub use mig_error::MigError;
pub use phase::Phase;
pub use played::Replay;
pub use playing::replay;
pub use saving::save;
