//! A writer that fails at any byte.

use anyhow::{Result, ensure};
use books::spelled;
use std::alloc::Global;
use std::io::{ErrorKind, Write};
use std::{fs, io};
use vmig::{
    Bytes, Item, LiveReply, MigError, Refusal, Reply, execute, write_guest_reply, write_reply,
};

/// Takes as many bytes as there is room for, three at a time, and then fails. It is interrupted before each write.
#[derive(Drop)]
struct Narrow {
    held: Vec<u8>,
    room: usize,
    interrupted: bool,
    flushes: bool,
}

impl Write for Narrow {
    fn write(&mut self, buf: &[u8]) -> io::Result<usize> {
        self.interrupted = !self.interrupted;
        if self.interrupted {
            return Err(io::Error::from(ErrorKind::Interrupted));
        }
        let count = buf.len().min(3).min(self.room);
        if count == 0 {
            return Err(io::Error::from(ErrorKind::StorageFull));
        }
        self.held.extend_from_slice(&buf[..count])?;
        self.room -= count;
        Ok(count)
    }

    fn flush(&mut self) -> io::Result<()> {
        if self.flushes {
            Ok(())
        } else {
            Err(io::Error::from(ErrorKind::StorageFull))
        }
    }
}

fn narrow_writer(alloc: Global, room: usize, flushes: bool) -> Narrow {
    Narrow {
        held: Vec::new(alloc),
        room,
        interrupted: false,
        flushes,
    }
}

/// The line of 20 bytes.
const MANY_BYTES: &str = "bytes e7e7e7e7e7e7e7e7e7e7e7e7e7e7e7e7e7e7e7e7\n";

/// Tries all of these.
pub fn fails(rt: &HostRuntime) -> Result<()> {
    reply_fails(rt.alloc())?;
    standard_output_fails(rt)
}

/// After a fault a beginning of the line was written, as long as the room was.
fn reply_fails(alloc: Global) -> Result<()> {
    guest_fails(alloc, Reply::Value(0x74726976), "value 0x74726976\n")?;
    guest_fails(alloc, Reply::Done, "done\n")?;
    guest_fails(alloc, Reply::NoMemory, "nomemory\n")?;
    guest_fails(alloc, Reply::Refused(Refusal::TooLong), "refused 3\n")?;
    many_bytes_fail(alloc)?;
    fails_anywhere(alloc, &LiveReply::Begun(4294967295), "begun 4294967295\n")?;
    let sector = Item::Sector {
        dev: 15,
        sector: 70,
    };
    fails_anywhere(alloc, &LiveReply::Copied(sector), "copied sector 15 70\n")?;
    let stopped = LiveReply::Stopped {
        pages: 12,
        sectors: 345,
    };
    fails_anywhere(alloc, &stopped, "stopped 12 345\n")?;
    fails_anywhere(alloc, &LiveReply::Mig(MigError::StreamFailed), "mig 4\n")
}

fn many_bytes_fail(alloc: Global) -> Result<()> {
    guest_fails(alloc, Reply::Bytes(Bytes::new(alloc)), "bytes -\n")?;
    let many = Reply::Bytes(Bytes::from_vec(vec![in alloc; 0xe7; 20]?));
    guest_fails(alloc, many, MANY_BYTES)
}

/// A reply of the guest's has the same line alone and among those of migration.
fn guest_fails(alloc: Global, reply: Reply, line: &str) -> Result<()> {
    let mut alone = narrow_writer(alloc, line.len(), true);
    ensure!(
        write_guest_reply(&reply, &mut alone).is_ok() && alone.held.as_slice() == line.as_bytes(),
        "{line}"
    );
    fails_anywhere(alloc, &LiveReply::Guest(reply), line)
}

fn fails_anywhere(alloc: Global, reply: &LiveReply, line: &str) -> Result<()> {
    for room in 0..=line.len() {
        writes_a_beginning(alloc, reply, line.as_bytes(), room)?;
    }
    Ok(())
}

fn writes_a_beginning(alloc: Global, reply: &LiveReply, line: &[u8], room: usize) -> Result<()> {
    let mut out = narrow_writer(alloc, room, true);
    let is_whole = write_reply(reply, &mut out).is_ok();
    ensure!(is_whole == (room == line.len()), "room for {room}");
    ensure!(
        Some(out.held.as_slice()) == line.get(..room),
        "room for {room}"
    );
    Ok(())
}

/// How a call ends: its exit status, and what it writes to standard error.
type End<'a> = (u8, &'a [u8]);

/// The end of a call that goes through.
const THROUGH: End<'static> = (0, b"");

/// A call of the program, what it writes to standard output, and how it ends where that takes all of it.
#[derive(Clone, Copy)]
struct Call<'a> {
    words: &'a [&'a str],
    output: &'a [u8],
    end: End<'a>,
}

/// A failure of standard output is reported as the file `-`, and what was written before is a beginning of the output.
fn standard_output_fails(rt: &HostRuntime) -> Result<()> {
    fs::write(
        rt,
        "narrow.trace",
        "ram 1\nentropy\nmr 0 0\nmr 0x1001 0\nmr 0 1\n",
    )?;
    let run = Call {
        words: &["run", "narrow.trace"],
        output: b"bytes -\nrefused 2\nbytes 00\n",
        end: THROUGH,
    };
    output_fails(rt, &run)?;
    let stream = spelled(rt.alloc(), "FRESH")?;
    fs::write(rt, "narrow.stream", stream.as_slice())?;
    let check = Call {
        words: &["check", "narrow.stream"],
        output: b"ok 1 1 0\n",
        end: THROUGH,
    };
    output_fails(rt, &check)?;
    moves_fail(rt)
}

/// As above, where a machine continues from a stream, and where its move is rehearsed.
fn moves_fail(rt: &HostRuntime) -> Result<()> {
    fs::write(rt, "narrow_rest.trace", "mr 0 1\nmr 0 0\n")?;
    let resume = Call {
        words: &["resume", "narrow.stream", "narrow_rest.trace"],
        output: b"bytes 00\nbytes -\n",
        end: THROUGH,
    };
    output_fails(rt, &resume)?;
    fs::write(
        rt,
        "narrow_moved.trace",
        "ram 1\nentropy\nbegin\nstop\nmr 0 1\n",
    )?;
    let rehearse = Call {
        words: &["rehearse", "narrow_moved.trace"],
        output: b"begun 1\nstopped 1 0\nbytes 00\nequal\n",
        end: THROUGH,
    };
    output_fails(rt, &rehearse)?;
    other_ends_fail(rt)
}

/// As above, where the call ends in a fault that is reported after its output: the fault of standard output is reported in its
/// place.
fn other_ends_fail(rt: &HostRuntime) -> Result<()> {
    fs::write(rt, "narrow_unstopped.trace", "ram 1\nentropy\nmr 0 1\n")?;
    let unstopped = Call {
        words: &["rehearse", "narrow_unstopped.trace"],
        output: b"bytes 00\nno stop\n",
        end: (5, b""),
    };
    output_fails(rt, &unstopped)?;
    fs::write(
        rt,
        "narrow_full.trace",
        "ram 1\nentropy\nbegin\nmr 0 1\nstop\n",
    )?;
    let full = Call {
        words: &["run", "narrow_full.trace", "--out", "/dev/full"],
        output: b"mig 4\nbytes 00\nmig 4\n",
        end: (5, b"vmig: stream out\n"),
    };
    output_fails(rt, &full)
}

/// It fails at each byte, and where there is room for all of them it fails as it is flushed. Then it does not fail.
fn output_fails(rt: &HostRuntime, call: &Call<'_>) -> Result<()> {
    for room in 0..=call.output.len() {
        let out = narrow_writer(rt.alloc(), room, false);
        ends_as(rt, call, out, (3, b"vmig: file -\n"))?;
    }
    let out = narrow_writer(rt.alloc(), call.output.len(), true);
    ends_as(rt, call, out, call.end)
}

fn ends_as(rt: &HostRuntime, call: &Call<'_>, mut out: Narrow, expected: End<'_>) -> Result<()> {
    let room = out.room;
    let mut err: Vec<u8> = Vec::new(rt.alloc());
    let status = execute(rt, call.words, &mut out, &mut err);
    ensure!(
        status == expected.0
            && err.as_slice() == expected.1
            && Some(out.held.as_slice()) == call.output.get(..room),
        "room for {room}"
    );
    Ok(())
}
