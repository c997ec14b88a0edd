//! The text of traces and of replies: what the program `vmig` reads and writes.
//!
//! A trace is a text, one line an event: first the RAM and the devices of a machine, then what happens to it, with the
//! calls that migrate it. `parse` reads one or gives the number of its first bad line, and `write_reply` writes the
//! line of a reply. `parse_events` reads a text of the guest's events alone, for a machine that already exists.
//!
//! # What the layers above may rely on
//! - `parse` returns `Ok` with what the text says by the grammar, or the number of the first line that is not allowed
//!   where it is, or of the line that is missing after the last. So does `parse_events`, for which no line is missing.
//!   `laws` says that a text has one such result. `begin_line` is the number of the first line that begins a migration,
//!   and 0 if none does. A line takes no memory beyond what its event holds.
//! - `write_reply`, `write_guest_reply` and `write_checked` write exactly the line of a reply or of a checked stream
//!   and its LF, and after a fault a prefix of it. So do `put`, `put_line` and `put_number` with the bytes that they
//!   are given: they are for lines of the layer above. None of them takes memory.
//!
//! The definitions are in `specs/`: `Lines` and `Numbers` how a text is written, `Line` the table of a trace's lines, `Trace` a whole
//! trace, events alone, and the first bad line of each, `Replies` the line of each reply, and `Laws`. `Reading` is for the private
//! parts of `parse` and `parse_events` alone.
//!
//! It uses `machine` and `sender`, whose events and replies these are, and `hex` for bytes in texts. It trusts that a writer of std
//! reports the bytes that it took.
//!
//! A new line of the grammar gets a row in `specs/Line`, and an arm in `line.rt`, among the lines with the same number
//! of words.
#![tactic(auto)]

mod building;
mod digits;
mod events;
mod fields;
pub mod laws;
mod line;
mod lines;
mod numbers;
mod parts;
mod reading;
mod trace;
mod words;
mod writing;

pub use events::parse_events;
pub use parts::{WriteFault, put, put_line, put_number};
pub use reading::parse;
pub use trace::{Trace, TraceError};
pub use writing::{write_checked, write_guest_reply, write_reply};
