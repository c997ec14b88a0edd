//! The faults of the program: for which refusal each is, its exit status, and its line on standard error.
//!
//! Each refusal has its fault by a conversion that a clause names, so no refusal is reported as another on the way up. Where
//! standard output fails, that is the fault, whatever else was to be reported: the lines are written first. A failure of
//! standard error is reported nowhere.

ghost use Rattle.std.specs.Prelude.{◌≡◌, OnOk, OnErr};
ghost use Rattle.std.specs.Io.KnownBytes.{Appends};
ghost use Rattle.traces.specs.Replies.{AppendsBeginning};
ghost use Rattle.vmig.specs.declared.fault.Fault.TheVariants as faults;
ghost use Rattle.vmig.specs.Faults.{words_fault, file_fault, trace_fault, shape_fault, stream_fault, status_of, fault_line, TellsOfOutput};

use crate::words::WordsError;
use guestmem::NoMemory;
use machine::NewError;
use receiver::RecvError;
use std::io::{ErrorKind, Write};
use traces::{TraceError, WriteFault, put, put_line, put_number};

/// The name that stands for standard output where it fails.
const STANDARD_OUTPUT: &str = "-";

/// Why a run failed.
#[derive(Clone, Copy)]
pub enum Fault<'a> {
    /// Memory was refused outside a reply.
    NoMemory,

    /// The words are none of the program's command lines.
    Usage,

    /// The file of this name can't be opened, made or read, or is no image of a disk, or standard output failed.
    File(&'a str),

    /// The first bad line of the trace, or, where there is no stream, the first that begins to send its machine.
    Line(u64),

    /// The refusal of a machine of this shape, by its number.
    Shape(u8),

    /// The refusal of a stream, by its number.
    Stream(u8),

    /// The stream could not be written.
    StreamOut,

    /// A rehearsed move did not end in equal machines. Standard output says so.
    NotEqual,
}

impl From<NoMemory> for Fault<'_> {
    ghost from_gives = { λ _ fault. fault ≡ faults.NoMemory };

    fn from(_refusal: NoMemory) -> Self {
        Fault::NoMemory
    }
}

impl From<WordsError> for Fault<'_> {
    ghost from_gives = { λ refusal fault. fault ≡ words_fault refusal };

    fn from(refusal: WordsError) -> Self {
        match refusal {
            WordsError::Usage => Fault::Usage,
            WordsError::NoMemory => Fault::NoMemory,
        }
    }
}

impl From<TraceError> for Fault<'_> {
    ghost from_gives = { λ refusal fault. fault ≡ trace_fault refusal };

    fn from(refusal: TraceError) -> Self {
        match refusal {
            TraceError::Line(number) => Fault::Line(number),
            TraceError::NoMemory => Fault::NoMemory,
        }
    }
}

impl From<NewError> for Fault<'_> {
    ghost from_gives = { λ refusal fault. fault ≡ shape_fault refusal };

    fn from(refusal: NewError) -> Self {
        match refusal {
            NewError::NoMemory => Fault::NoMemory,
            _ => Fault::Shape(refusal.code()),
        }
    }
}

impl From<RecvError> for Fault<'_> {
    ghost from_gives = { λ refusal fault. fault ≡ stream_fault refusal };

    fn from(refusal: RecvError) -> Self {
        match refusal {
            RecvError::NoMemory => Fault::NoMemory,
            _ => Fault::Stream(refusal.code()),
        }
    }
}

/// A failure of standard output.
impl From<WriteFault> for Fault<'_> {
    ghost from_gives = { λ _ fault. TellsOfOutput fault };

    fn from(_failure: WriteFault) -> Self {
        Fault::File(STANDARD_OUTPUT)
    }
}

impl<'a> Fault<'a> {
    /// The fault for a file of this name that can't be opened, made or read.
    pub fn of_file(name: &'a str, kind: ErrorKind) -> Fault<'a>
        ensures { result ≡ file_fault name.entry kind }
    {
        match kind {
            ErrorKind::OutOfMemory => Fault::NoMemory,
            _ => Fault::File(name),
        }
    }

    /// The exit status.
    pub fn status(self) -> u8
        ensures { result ≡ status_of self.entry }
    {
        match self {
            Fault::NoMemory => 1,
            Fault::Usage => 2,
            Fault::File(_) => 3,
            Fault::Line(_) | Fault::Shape(_) => 4,
            Fault::Stream(_) | Fault::StreamOut | Fault::NotEqual => 5,
        }
    }

    /// Writes the fault's line and LF; on a fault of the writer, a beginning of them was written. `NotEqual` has no line:
    /// standard output has already said it. It takes no memory.
    pub fn write<W: Write>(self, out: &mut W) -> Result<(), WriteFault>
        ensures ok { OnOk result (Appends (W.contents out.old) (W.contents out.new) (fault_line self.entry)) }
        ensures err { OnErr result (AppendsBeginning (W.contents out.old) (W.contents out.new) (fault_line self.entry)) }
    {
        match self {
            Fault::NoMemory => put(out, b"vmig: memory\n"),
            Fault::Usage => put(out, b"vmig: usage\n"),
            Fault::File(name) => put_line(out, b"vmig: file ", name.as_bytes()),
            Fault::Line(number) => put_number(out, b"vmig: trace line ", number),
            Fault::Shape(refusal) => put_number(out, b"vmig: shape ", refusal as u64),
            Fault::Stream(refusal) => put_number(out, b"vmig: stream ", refusal as u64),
            Fault::StreamOut => put(out, b"vmig: stream out\n"),
            Fault::NotEqual => Ok(()),
        }
    }
}
