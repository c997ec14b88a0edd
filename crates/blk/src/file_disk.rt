//! A disk in a file.
//!
//! A disk over a file is said to be neither honest nor steady, and its sectors are zeros to every contract: what a file holds
//! is known to nobody but the file. So a proof claims nothing of the bytes that it returns, and everything else holds of it:
//! where they go, what the log gets, that requests stay sound, which sectors are bad, that each failure is counted and
//! reported.
//!
//! The system reports a lost write once, to the first sync that follows. So after one that failed each later flush fails, which
//! a disk that is not steady may. That `FileDisk::flush` goes by the part that remembers is for a reader to see: no contract
//! knows what a file holds.

ghost use Rattle.std.specs.Prelude.{◌≡◌, ◌<◌, ◌*◌, ◌^◌, ◌||◌, IfOk, false, is_ok, not, true};
ghost use Rattle.guestmem.specs.Failures.{counted};

use crate::disk::{Disk, DiskFault, SECTOR_SIZE};
use std::fs::{OpenFile, OpenOptions};
use std::io::{self, ErrorKind, Read, Seek, SeekFrom, Write};
use std::marker::Model;
use std::rt::Files;

/// A disk in a file: sector n is its bytes from `512 * n` on. It keeps no copy of them.
///
/// What a file holds between two calls is not known to a proof, so it is said to be neither honest nor steady. A call of
/// the file that fails is a failure of the disk. A flush that failed is for good: each later one fails too, and does not call the file.
#[derive(Drop)]
pub struct FileDisk<F: Drop> {
    file: F,
    count: u64,
    failures: u64,

    /// Whether the file was synchronized after its last write.
    is_flushed: bool,

    syncing: Syncing,

    /// The sector at which the file's position is, where that is known. A call that begins there needs no seek.
    next: Option<u64>,
}

/// Whether a file may still be brought to its storage.
///
/// The system tells of data that did not reach the storage once: the call that follows may succeed, and the data is lost all the same. So
/// once a call failed, none that follows is believed.
#[derive(Drop)]
struct Syncing {
    is_lost: bool,
}

impl Syncing {
    /// Brings what was written to the storage, unless that failed once.
    fn bring<F: OpenFile>(&mut self, file: &F) -> io::Result<()>
        ensures lasts { self.old.is_lost ≡ true → is_ok result ≡ false }
        ensures kept { self.new.is_lost ≡ (self.old.is_lost || not (is_ok result)) }
    {
        if self.is_lost {
            return Err(io::Error::from(ErrorKind::Other));
        }
        let outcome = file.sync_data();
        self.is_lost = outcome.is_err();
        outcome
    }
}

impl<F: Drop> Model for FileDisk<F> {
    ghost use Rattle.std.specs.Prelude.{◌*◌, ◌<◌, ◌^◌};
    ghost use Rattle.blk.specs.Disk.{DiskState};
    ghost use Rattle.blk.specs.FileDisk.{file_state};

    ghost Value = { DiskState };

    ghost view = { λ d. file_state d.count d.failures d.is_flushed };

    ghost invariant = { λ d. 512 * d.count < 2 ^ 64 };
}

impl<F: Read + Write + Seek + OpenFile + Drop> FileDisk<F> {
    /// Opens a file for reading and writing. One whose length is no multiple of 512 is refused as invalid data. The length
    /// is found by a seek to the end, which works for a block device of the host too.
    pub fn open<R: Files<File = F>>(rt: &R, path: &str) -> io::Result<FileDisk<F>>
        ensures { IfOk result (λ disk. disk.failures ≡ 0) }
    {
        let mut file = OpenOptions::new().read(true).write(true).open(rt, path)?;
        let len = file.seek(SeekFrom::End(0))?;
        if len % SECTOR_SIZE as u64 != 0 {
            return Err(io::Error::from(ErrorKind::InvalidData));
        }
        Ok(FileDisk {
            file,
            count: len / SECTOR_SIZE as u64,
            failures: 0,
            is_flushed: false,
            syncing: Syncing { is_lost: false },
            next: None,
        })
    }

    /// Counts how a read or a write of a sector went. After one that failed the file's position is not known.
    fn moved(&mut self, n: u64, outcome: io::Result<()>) -> Result<(), DiskFault>
        ensures told { is_ok result ≡ is_ok outcome }
        ensures counted { self.new ≡ record self.old { failures = counted self.old.failures result } }
    {
        self.next = if outcome.is_ok() {
            n.checked_add(1)
        } else {
            None
        };
        self.told(outcome)
    }

    /// Counts how a call of the file went.
    fn told(&mut self, outcome: io::Result<()>) -> Result<(), DiskFault>
        ensures told { is_ok result ≡ is_ok outcome }
        ensures counted { self.new ≡ record self.old { failures = counted self.old.failures result } }
    {
        if outcome.is_ok() {
            return Ok(());
        }
        self.failures = self.failures.wrapping_add(1);
        Err(DiskFault)
    }
}

/// Moves to a sector of the file, unless its position is there.
fn seek_to<F: Seek>(file: &mut F, n: u64, next: Option<u64>) -> io::Result<()>
    requires { 512 * n < 2 ^ 64 }
{
    if next == Some(n) {
        return Ok(());
    }
    let at = n * SECTOR_SIZE as u64;
    if file.seek(SeekFrom::Start(at))? == at {
        return Ok(());
    }
    Err(io::Error::from(ErrorKind::Other))
}

impl<F: Read + Write + Seek + OpenFile + Drop> Disk for FileDisk<F> {
    ghost state = { λ d. d };

    fn sectors(&self) -> u64 {
        self.count
    }

    fn read(&mut self, n: u64, buf: &mut [u8; 512]) -> Result<(), DiskFault> {
        let outcome = match seek_to(&mut self.file, n, self.next) {
            Ok(()) => self.file.read_exact(buf),
            Err(error) => Err(error),
        };
        self.moved(n, outcome)
    }

    fn write(&mut self, n: u64, bytes: &[u8; 512]) -> Result<(), DiskFault> {
        self.is_flushed = false;
        let outcome = match seek_to(&mut self.file, n, self.next) {
            Ok(()) => self.file.write_all(bytes),
            Err(error) => Err(error),
        };
        self.moved(n, outcome)
    }

    fn flush(&mut self) -> Result<(), DiskFault> {
        let outcome = self.syncing.bring(&self.file);
        self.is_flushed = outcome.is_ok();
        self.told(outcome)
    }
}
