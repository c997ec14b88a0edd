//! All that an embedder needs, from one crate, and the program `vmig` as a library.
//!
//! Machines, their events and their replies are those of `machine`; `Live`, `replay`, `save` and `saved_len` are those of `sender`,
//! and `Receiver`, `receive` and `receive_at` those of `receiver`, over the sinks and records of `wire`; `rehearse` is that of `rehearsal`, and
//! `parse`, `write_reply` and what belongs to them are those of `traces`. A disk outside is asked for a `DiskCall` of `blk`, and `Calls`, of
//! `disk_calls`, knows which of them are out. RAM, its logs, and the memory of a caller in which it may lie are those of `guestmem` and
//! `region`.
//! The functions of `laws` are the laws of all of these.
//!
//! `execute` is the whole program: its words, the files that they name, what it prints and its exit status. The crate
//! `vmig_program` is `main` alone. The RAM of its machines begins at the address 0: no word of it, and no line of a trace, names another.
//!
//! What the layer above may rely on: `execute` returns 2 exactly where the words are none of the program's command lines, and 0
//! only where it wrote the lines of the replies of a machine to a trace, or the line of a stream, and nothing to standard
//! error. With every other status a fault says why, and its line was written to standard error, or, where that failed, a
//! beginning of it. Each refusal of a layer below has its fault. Nothing was written to standard output before a fault, but
//! where standard output itself failed, or where the fault comes after the whole output: of a stream that could not be written,
//! or of a rehearsal that did not end in equal machines. `rehearse` writes `equal` only of machines that answered alike and
//! have the same lines, RAM and sectors, and `differ` only where memory was refused to one of them. The contracts of files say
//! nothing of what a file holds. So its contract does not say that the trace or the stream is the one in the file, nor that the
//! new file holds what was sent of a machine. Over an image each reply is that of a call, from a machine over some sectors on, or, of
//! `resume`, from the machine that arrived on; which sectors these are is not said. The crate `calls` tests what files hold.
//!
//! The definitions are in `specs/`: `Allowing` how large the program's machines may be, `Words` its words, `Faults` for which refusal each
//! fault is, its status and its line, `Playing`, `Resuming`, `Checking` and `Comparing` what `run`, `resume`, `check` and `rehearse` write and what a fault
//! of theirs says, `Feeding` what is known of a stream whose file is read in pieces, `Output` how much of it was written, and `Run` all of it by the words. `Commands` is for the private parts
//! of `words` alone.
//!
//! It uses the crates that it re-exports, and `clap` for the words. It first checks itself that the words are one of its
//! command lines; that clap then refuses them only if it is out of memory, and finds the names in them, is proved.
#![tactic(auto)]

mod allowing;
mod checking;
mod comparing;
mod fault;
mod feeding;
pub mod laws;
mod output;
mod playing;
mod program;
mod resuming;
mod short_file;
mod words;

pub use blk::DiskCall;
pub use blk::What;
pub use dirtylog::BitSet;
pub use disk_calls::Asks;
pub use disk_calls::CALLS_MAX;
pub use disk_calls::Calls;
pub use disk_calls::Handed;
pub use disk_calls::Listed;
pub use disk_calls::Place;
pub use disk_calls::counts;
pub use guestmem::ACCESS_MAX;
pub use guestmem::Both;
pub use guestmem::NoLog;
pub use guestmem::NoMemory;
pub use guestmem::PAGE_SIZE;
pub use guestmem::PAGES_MAX;
pub use guestmem::Ram;
pub use guestmem::RamError;
pub use guestmem::TouchLog;
pub use guestmem::Touched;
pub use guestmem::is_zero;
pub use machine::Asking;
pub use machine::Board;
pub use machine::Bytes;
pub use machine::DEVICES_MAX;
pub use machine::DeviceState;
pub use machine::Disk;
pub use machine::DiskAnswer;
pub use machine::DiskFault;
pub use machine::Event;
pub use machine::FaultDisk;
pub use machine::FileDisk;
pub use machine::Kind;
pub use machine::Limits;
pub use machine::Machine;
pub use machine::MemDisk;
pub use machine::NewError;
pub use machine::NotMade;
pub use machine::OutsideCall;
pub use machine::PageLog;
pub use machine::Parked;
pub use machine::Piece;
pub use machine::Pieces;
pub use machine::Plan;
pub use machine::RamOf;
pub use machine::Refusal;
pub use machine::Reply;
pub use machine::SECTOR_SIZE;
pub use machine::SECTORS_MAX;
pub use machine::Serials;
pub use machine::Shape;
pub use machine::Stepped;
pub use machine::Stores;
pub use machine::SyncOwed;
pub use machine::Turn;
pub use machine::TurnEnd;
pub use machine::Unmade;
pub use machine::Work;
pub use machine::is_base;
pub use program::execute;
pub use receiver::Fed;
pub use receiver::Receiver;
pub use receiver::RecvError;
pub use receiver::Terms;
pub use receiver::Told;
pub use receiver::read_heading;
pub use receiver::read_heading_within;
pub use receiver::receive;
pub use receiver::receive_at;
pub use receiver::receive_with;
pub use region::Region;
pub use rehearsal::Rehearsal;
pub use rehearsal::rehearse;
pub use sender::CopyAnswer;
pub use sender::End;
pub use sender::Guest;
pub use sender::Item;
pub use sender::Left;
pub use sender::Live;
pub use sender::LiveEvent;
pub use sender::LiveParked;
pub use sender::LiveReply;
pub use sender::LiveTold;
pub use sender::LiveWaiting;
pub use sender::MigError;
pub use sender::NextDue;
pub use sender::Phase;
pub use sender::Remaining;
pub use sender::Replay;
pub use sender::SectorAnswer;
pub use sender::Stopped;
pub use sender::replay;
pub use sender::save;
pub use sender::saved_len;
pub use traces::Trace;
pub use traces::TraceError;
pub use traces::WriteFault;
pub use traces::parse;
pub use traces::parse_events;
pub use traces::write_checked;
pub use traces::write_guest_reply;
pub use traces::write_reply;
pub use wire::DecodeError;
pub use wire::FaultWriter;
pub use wire::Header;
pub use wire::Record;
pub use wire::Sink;
pub use wire::SinkFault;
pub use wire::Told as ToldWriter;
pub use wire::Waiting;
pub use wire::WriteSink;
pub use wire::decode_device;
pub use wire::decode_device_at;
pub use wire::decode_header;
pub use wire::decode_record;
pub use wire::encode_commit;
pub use wire::encode_device;
pub use wire::encode_header;
pub use wire::encode_page;
pub use wire::encode_round;
pub use wire::encode_sector;
pub use wire::encode_zero_page;
