//! Files that fail: one that is read, at any byte, and an image that is written to.

ghost use Rattle.std.specs.Prelude.{IsErr};

use anyhow::{Result, ensure};
use books::spelled;
use std::alloc::{Allocator, Global};
use std::fs::{Metadata, OpenFile, OpenOptions};
use std::io;
use std::io::{ErrorKind, Read, Seek, SeekFrom, Write};
use std::rt::Files;
use vmig::execute;

/// A trace.
const TEXT: &[u8] = b"ram 1\nentropy\nmr 0 1\n";

/// The stream of a machine with one page and a disk of one sector.
const DISK_STREAM: &str = concat!(
    "564d4947 01000000 01000000 01000000 02 0100000000000000 00 41*20 01 00000000 00*4096 ",
    "02 00 00000000 01 aa*512 04 00 3f000000 00*58 01 0000 01 00 05 ",
    "9d4a8d1db3dafdcba47759418e428aa7e1e519094d1af665356527fca2914dd9"
);

/// Files that each hold these bytes. A read of the first of them fails once a given number of its bytes were read. Every write
/// fails.
#[derive(Drop)]
struct Failing<'r> {
    rt: &'r HostRuntime,
    files: &'r [(&'r str, &'r [u8])],
    after: usize,
    kind: ErrorKind,
}

#[derive(Drop)]
struct FailingFile<'r> {
    held: &'r [u8],
    at: usize,
    after: usize,
    kind: ErrorKind,
}

fn refused<T>() -> io::Result<T>
    ensures { IsErr result }
{
    Err(io::Error::from(ErrorKind::Unsupported))
}

impl Read for FailingFile<'_> {
    fn read(&mut self, buf: &mut [u8]) -> io::Result<usize> {
        if self.at >= self.after {
            return Err(io::Error::from(self.kind));
        }
        let (_, left) = self.held.split_at(self.at.min(self.held.len()));
        let count = buf.len().min(left.len()).min(self.after - self.at).min(5);
        for (to, from) in buf.iter_mut().zip(left.iter()).take(count) {
            *to = *from;
        }
        self.at += count;
        Ok(count)
    }
}

impl Write for FailingFile<'_> {
    fn write(&mut self, _buf: &[u8]) -> io::Result<usize> {
        refused()
    }

    fn flush(&mut self) -> io::Result<()> {
        refused()
    }
}

impl Seek for FailingFile<'_> {
    fn seek(&mut self, to: SeekFrom) -> io::Result<u64> {
        match to {
            SeekFrom::Start(at) => Ok(at),
            SeekFrom::End(_) => Ok(self.held.len() as u64),
            SeekFrom::Current(_) => refused(),
        }
    }
}

impl OpenFile for FailingFile<'_> {
    fn metadata(&self) -> io::Result<Metadata> {
        refused()
    }

    fn set_len(&self, _size: u64) -> io::Result<()> {
        refused()
    }

    fn sync_all(&self) -> io::Result<()> {
        refused()
    }

    fn sync_data(&self) -> io::Result<()> {
        refused()
    }
}

impl Alloc for Failing<'_> {
    type A = Global;

    fn alloc(&self) -> Global {
        self.rt.alloc()
    }
}

impl<'r> Files for Failing<'r> {
    type File = FailingFile<'r>;

    type Dir = FailingFile<'r>;

    fn open_file(&self, _how: &OpenOptions, path: &str) -> io::Result<FailingFile<'r>> {
        for (place, (name, held)) in self.files.iter().enumerate() {
            if *name == path {
                return Ok(FailingFile {
                    held,
                    at: 0,
                    after: if place == 0 { self.after } else { usize::MAX },
                    kind: self.kind,
                });
            }
        }
        refused()
    }

    fn open_dir(&self, _path: &str) -> io::Result<FailingFile<'r>> {
        refused()
    }

    fn metadata(&self, _path: &str) -> io::Result<Metadata> {
        refused()
    }

    fn symlink_metadata(&self, _path: &str) -> io::Result<Metadata> {
        refused()
    }

    fn copy(&self, _from: &str, _to: &str) -> io::Result<u64> {
        refused()
    }

    fn rename(&self, _from: &str, _to: &str) -> io::Result<()> {
        refused()
    }

    fn remove_file(&self, _path: &str) -> io::Result<()> {
        refused()
    }

    fn create_dir(&self, _path: &str) -> io::Result<()> {
        refused()
    }

    fn remove_dir(&self, _path: &str) -> io::Result<()> {
        refused()
    }

    fn remove_dir_all<B: Allocator>(&self, _alloc: B, _path: &str) -> io::Result<()> {
        refused()
    }
}

/// Tries all of these.
pub fn fails(rt: &HostRuntime) -> Result<()> {
    trace_fails(rt)?;
    stream_fails(rt)?;
    image_fails(rt)
}

/// A failed read is reported with the file's name, and one that was refused memory as out of memory, wherever in the file it
/// is.
fn trace_fails(rt: &HostRuntime) -> Result<()> {
    let words = ["run", "some.trace"];
    let files = [("some.trace", TEXT)];
    for after in 0..=TEXT.len() {
        both_reported(rt, &files, after, &words, b"vmig: file some.trace\n")?;
    }
    Ok(())
}

/// As above, for a stream that is fed as it is read.
fn stream_fails(rt: &HostRuntime) -> Result<()> {
    let words = ["resume", "some.stream", "no.trace"];
    let stream = spelled(rt.alloc(), "FRESH")?;
    let files = [
        ("some.stream", stream.as_slice()),
        ("no.trace", b"".as_slice()),
    ];
    for after in 0..=stream.len() {
        both_reported(rt, &files, after, &words, b"vmig: file some.stream\n")?;
    }
    Ok(())
}

/// An image that fails as a sector of a stream is written to it is a refusal of the stream.
fn image_fails(rt: &HostRuntime) -> Result<()> {
    let words = ["resume", "some.stream", "no.trace", "--disk", "some.img"];
    let stream = spelled(rt.alloc(), DISK_STREAM)?;
    let files = [
        ("some.stream", stream.as_slice()),
        ("no.trace", b"".as_slice()),
        ("some.img", [0u8; 512].as_slice()),
    ];
    let files = failing_files(rt, &files, usize::MAX, ErrorKind::PermissionDenied);
    ends_as(&files, &words, (5, b"vmig: stream 14\n"))
}

/// A read that fails after this many bytes is reported by this line, and one that was refused memory by the line
/// `vmig: memory`.
fn both_reported(
    rt: &HostRuntime,
    files: &[(&str, &[u8])],
    after: usize,
    words: &[&str],
    line: &'static [u8],
) -> Result<()> {
    ends_as(
        &failing_files(rt, files, after, ErrorKind::PermissionDenied),
        words,
        (3, line),
    )?;
    ends_as(
        &failing_files(rt, files, after, ErrorKind::OutOfMemory),
        words,
        (1, b"vmig: memory\n"),
    )
}

/// How a call ends: its exit status, and what it writes to standard error.
type End = (u8, &'static [u8]);

fn failing_files<'r>(
    rt: &'r HostRuntime,
    files: &'r [(&'r str, &'r [u8])],
    after: usize,
    kind: ErrorKind,
) -> Failing<'r> {
    Failing {
        rt,
        files,
        after,
        kind,
    }
}

fn ends_as(files: &Failing<'_>, words: &[&str], expected: End) -> Result<()> {
    let alloc = files.rt.alloc();
    let mut out: Vec<u8> = Vec::new(alloc);
    let mut err: Vec<u8> = Vec::new(alloc);
    let status = execute(files, words, &mut out, &mut err);
    ensure!(
        status == expected.0 && err.as_slice() == expected.1 && out.is_empty(),
        "after {}",
        files.after
    );
    Ok(())
}
