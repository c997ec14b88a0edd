//! The files that the program reads and makes, and its standard output.
//!
//! A stream is never made over what is read: where the new file is the image or the trace, also by a link or another path,
//! nothing is made. Two names are those of one file where the system says so (device and inode).

ghost use Rattle.std.specs.Prelude.{IfErr, OnOk, OnErr, flat_map};
ghost use Rattle.std.specs.Io.KnownBytes.{Appends, Keeps};
ghost use Rattle.traces.specs.Replies.{AppendsBeginning, live_reply_line, reply_line};
ghost use Rattle.vmig.specs.Faults.{TellsOfFile};

use crate::fault::Fault;
use machine::Reply;
use sender::LiveReply;
use std::fs;
use std::io::Write;
use std::os::unix::fs::MetadataExt;
use std::rt::Files;
use traces::{WriteFault, write_guest_reply, write_reply};

/// The contents of the file of this name.
pub fn read_file<'a, R: Files + AllocGlobal>(rt: &R, name: &'a str) -> Result<Vec<u8>, Fault<'a>>
    ensures { IfErr result (TellsOfFile name.entry.now) }
{
    match fs::read(rt, name) {
        Ok(bytes) => Ok(bytes),
        Err(error) => Err(Fault::of_file(name, error.kind())),
    }
}

/// The file of this name, to be read.
pub fn open_file<'a, R: Files>(rt: &R, name: &'a str) -> Result<R::File, Fault<'a>>
    ensures { IfErr result (TellsOfFile name.entry.now) }
{
    match fs::open(rt, name) {
        Ok(file) => Ok(file),
        Err(error) => Err(Fault::of_file(name, error.kind())),
    }
}

/// The file of this name, to be read, unless it is the one that is written meanwhile.
pub fn open_apart<'a, R: Files>(
    rt: &R,
    name: &'a str,
    written: Option<&str>,
) -> Result<R::File, Fault<'a>>
    ensures { IfErr result (TellsOfFile name.entry.now) }
{
    if let Some(other) = written
        && is_same_file(rt, name, other)
    {
        return Err(Fault::File(name));
    }
    open_file(rt, name)
}

/// Makes the file of this name anew.
fn create_file<'a, R: Files>(rt: &R, name: &'a str) -> Result<R::File, Fault<'a>>
    ensures { IfErr result (TellsOfFile name.entry.now) }
{
    match fs::create(rt, name) {
        Ok(file) => Ok(file),
        Err(error) => Err(Fault::of_file(name, error.kind())),
    }
}

/// Makes the file of this name anew, unless it is one of those that are read: then nothing is made.
pub fn create_apart<'a, R: Files>(
    rt: &R,
    name: &'a str,
    inputs: &[&str],
) -> Result<R::File, Fault<'a>>
    ensures { IfErr result (TellsOfFile name.entry.now) }
{
    for input in inputs {
        if is_same_file(rt, name, input) {
            return Err(Fault::File(name));
        }
    }
    create_file(rt, name)
}

/// Whether both names are names of one file that is there, also where one of them is a link.
fn is_same_file<R: Files>(rt: &R, one: &str, other: &str) -> bool {
    let (Ok(one), Ok(other)) = (fs::metadata(rt, one), fs::metadata(rt, other)) else {
        return false;
    };
    one.dev() == other.dev() && one.ino() == other.ino()
}

/// A value that is printed as a line of its own.
pub trait Line {
    ghost use Rattle.std.specs.Prelude.{ℕ, List, OnOk, OnErr};
    ghost use Rattle.std.specs.Io.KnownBytes.{Appends};
    ghost use Rattle.traces.specs.Replies.{AppendsBeginning};

    /// The line, with its LF.
    ghost line: { Self → List ℕ };

    /// Writes the line; on a fault, a beginning of it was written.
    fn write<O: Write>(&self, out: &mut O) -> Result<(), WriteFault>
        ensures ok { OnOk result (Appends (O.contents out.old) (O.contents out.new) (line self.now)) }
        ensures err { OnErr result (AppendsBeginning (O.contents out.old) (O.contents out.new) (line self.now)) };
}

impl Line for Reply {
    ghost line = { reply_line };

    fn write<O: Write>(&self, out: &mut O) -> Result<(), WriteFault> {
        write_guest_reply(self, out)
    }
}

impl Line for LiveReply {
    ghost line = { live_reply_line };

    fn write<O: Write>(&self, out: &mut O) -> Result<(), WriteFault> {
        write_reply(self, out)
    }
}

/// Writes lines, one after another; on a fault, a beginning of them was written.
pub fn write_each<L: Line, O: Write>(lines: &[L], out: &mut O) -> Result<(), WriteFault>
    ensures ok { OnOk result (Appends (O.contents out.old) (O.contents out.new) (flat_map L.line lines.now)) }
    ensures err { OnErr result (AppendsBeginning (O.contents out.old) (O.contents out.new) (flat_map L.line lines.now)) }
{
    for line in lines {
        line.write(out)?;
    }
    Ok(())
}

/// Writes lines, one after another, and flushes them; on a fault, a beginning of them was written.
#[tactic(auto, using(crate::proofs::Written::flushed, crate::proofs::Written::flush_failed))]
pub fn write_all<L: Line, O: Write>(lines: &[L], out: &mut O) -> Result<(), WriteFault>
    ensures ok { OnOk result (Appends (O.contents out.old) (O.contents out.new) (flat_map L.line lines.now)) }
    ensures err { OnErr result (AppendsBeginning (O.contents out.old) (O.contents out.new) (flat_map L.line lines.now)) }
{
    write_each(lines, out)?;
    flush(out)
}

/// Flushes standard output.
pub fn flush<O: Write>(out: &mut O) -> Result<(), WriteFault>
    ensures { Keeps (O.contents out.old) (O.contents out.new) }
{
    match out.flush() {
        Ok(()) => Ok(()),
        Err(_) => Err(WriteFault),
    }
}
