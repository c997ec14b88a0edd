//! What a handle of C has, and what each call of C does to it.
//!
//! `Handle` is the one type that C holds: a pointer, null or of a machine in a box. All raw pointers are in one file, `handle`.
//! It cannot be dropped, so a function that loses one is refused. It holds a machine that is idle, is being migrated or has lent its RAM,
//! with RAM and disks in memory of the library or of the caller, or one that arrives (`kept`). No call moves RAM or disks. The structs and
//! the statuses of C are those of the crate below, `c_machine`. The exports are in the crate above, `vmig_c`: a static library is proved again
//! where its archive is made, and this crate once.
//!
//! # What the layer above may rely on
//! - Each call's clause is the step of the machine (`specs/Told`, `specs/Stepped`), its making (`specs/Made`) or its stream
//!   (`specs/Moving`), by the status that it returns. From 1 to 63 nothing has changed, but for 20 (the writer failed) and for a stream that
//!   is refused as it arrives.
//! - What a call does to a handle, and by the state of its machine, is said once for all (`specs/OnHandle`). On a handle without a machine
//!   it is refused; on another it changes the state of the machine alone.
//! - `next` names the next step that has something to do, and says whether it makes a flush, or ends a write that the driver then
//!   takes for durable; and where no step has, the device whose next call `hand_call` would hand out now (`specs/NextWork`). After `lose_kept` the disk is lost for as long as the handle has the machine: each flush
//!   of it is made as one whose disk failed, and such a write does not end (`specs/Durable`).
//! - Every call has its clause in each state: the calls of a migration those of `Live` (`specs/Migrated`), over a writer into
//!   memory from which `take` takes; the calls of an arrival those of `Receiver` (`specs/Awaited`, `specs/Arriving`), over
//!   disks that are made as soon as the header is whole, or over images of the caller (`specs/Landing`). What arrives is no machine
//!   for the other calls.
//! - `make` makes the first machine as its struct says, of one equation (`c_machine`, `specs/Made`); `arrive` lets one arrive, within
//!   limits (`specs/Expected`). RAM and images that the struct names are taken where it is done, and nothing else is. `Admission` reads the
//!   header of what arrives: no byte that completes it is let in before it was compared with the limits (`specs/Admission`).
//! - The bytes that were taken, followed by those that wait, are what a machine that is being migrated has written, from its
//!   first call to its stop, and the machine that arrives from them is that machine: laws over these clauses (`specs/Sent`).
//! - A host may tell the digest of the stream (`begin_as`, `tell`, `specs/Digest`): all but the record that closes the stream can be taken
//!   until it does, once, after the stop. Nobody compares what it tells; where it is the digest of what was taken, the machine is sent as
//!   ever, and the laws hold of it as they stand (`laws::tellings_stay_sent`).
//! - A caller whose guest runs on hardware keeps the guest's RAM in memory of its own (`specs/Mirror`). `push` is one
//!   write of a whole page for each page that it hands in, and `pull` copies out each page whose version is not the one
//!   that the caller noted, or is the greatest. `Mirrors` says that each page whose noted version is the current one is the
//!   machine's. Whatever is applied to the machine keeps a mirror; pushed pages are mirrored; and after a pull of a mirror the
//!   caller's RAM is the machine's, byte for byte (`laws`). The caller's part is to hand in every page that its guest wrote.
//! - `release` takes a machine apart, and the slots then hold the contents of disks over images, in the order of the devices, but for
//!   bad sectors, which may hold anything (`specs/Unmapping`). That an image comes back to its address is not in the clause, since a
//!   machine is not seen with addresses; the disk has no other memory to give.
//! - `lend` lends RAM that lies in memory of the caller to it, and `give_back` takes it back with the pages that were written
//!   (`specs/Lent`). Meanwhile the handle has all of the machine but its RAM (`loan`): a call that touches no byte of it is done, with the
//!   clause that it has of any machine, whatever RAM holds meanwhile, and each other call is refused.
//! - While RAM is lent a machine is sent too. The caller copies the page that `send_next` names, and hands it in by `send_page`
//!   (`specs/HandingIn`): in the history the guest wrote it with these bytes, and then it was copied. `send_some` sends sectors, `send_round`
//!   ends rounds, and `mark` names pages with the bytes that RAM has by the history (`specs/Sent`, `laws`).
//! - `hand_call` hands out what a disk outside is to do, the next call of crate `disk_calls` over the machine's requests, and `answer_done`
//!   and `answer_failed` answer one by its number: the machine's event at the request that asked, or nothing where none waits any more
//!   (`specs/Outside`). An answer that puts no bytes into RAM is taken while it is lent too. Of a disk that is lost no answer says that something is
//!   durable. What is out lies beside the machine, in each of its states (`calls_out`), and is listed by `list_calls` (`specs/Listed`). Numbers begin
//!   where the struct says that makes the machine or lets it arrive. A register write and a reset that would drop a request whose call is out are
//!   refused (`specs/Dropping`), and so is a stop while one is. So whatever a host calls, each answer meets the request that its call was handed
//!   out for, and a call that is out stays so until it is answered (`specs/CallsMet`).
//! - `mark` names pages later than they were written: each is taken for written whole, with the bytes that lie there (`specs/Late`). By which
//!   pages a machine that is being migrated is behind its history the laws say; a round and a stop want none (`specs/Sent`).
//! - Where its struct asks for a log, a step, a write of RAM and a push are told to it, each page that they wrote into and no other, and
//!   `hand_out` hands these out from the least on, each once (`specs/HandedOut`). No other call changes it. It has a place for each
//!   page from the first, of a machine that arrives for each that is allowed: that is an invariant of what a handle has (`kept`).
//! - With the flag LARGE a machine may be as large as its stream can tell. Without it the limits are the usual ones, made or arriving: a
//!   machine beyond them is refused at the same place of its struct, or at the same byte of its stream.
//!
//! # Why it is so
//! - `Handle::get_mut` lends what the pointer names (`specs/Lending`), so a call takes what a handle has and sees no pointer. Whether it has
//!   something is asked above, once for all calls.
#![tactic(auto)]

mod admission;
mod announcing;
mod arrival;
mod arriving;
mod calls_out;
mod creating;
mod describing;
mod devices;
mod dropping;
mod expecting;
mod handing_in;
mod handle;
mod kept;
mod late;
pub mod laws;
mod lending;
mod lent_sending;
mod listing;
mod loan;
mod logging;
mod migrating;
mod mirror;
mod moving;
mod outside;
mod resetting;
mod rooms;
mod sectors;
mod serving;
mod status;
mod stepping;
mod syncing;
mod told_arrival;
mod told_feeding;
mod turning;
mod unmapping;
mod working;
mod written;

pub use announcing::announced;
pub use arriving::{feed, finish};
pub use creating::make;
pub use describing::describe;
pub use expecting::arrive;
pub use handing_in::{send_next, send_page};
pub use handle::Handle;
pub use kept::{Held, Kept};
pub use late::mark;
pub use lending::{give_back, lend};
pub use listing::list_calls;
pub use migrating::{
    SendLeft, abort, begin, begin_as, left, send_round, send_some, stop, take, tell,
};
pub use mirror::{pull, push};
pub use moving::save_kept;
pub use outside::{Call, answer_done, answer_failed, hand_call};
pub use resetting::reset;
pub use rooms::room;
pub use sectors::read_sector;
pub use serving::{
    drop_input, input, lines, read_ram, read_register, resize, write_ram, write_register,
};
pub use stepping::step_kept;
pub use syncing::lose_kept;
pub use told_feeding::{feed_some, feed_tell};
pub use turning::{Turn, work};
pub use unmapping::{held_of, release, release_refusal};
pub use working::next;
pub use written::hand_out;
