//! A stream is fed to a receiver as its file is read.
//!
//! A stream is fed as it is read, 65,536 bytes at most at once, and no more of it is held. The first piece is filled, unless
//! the file ends: a header is shorter, so `check` knows from it which disks to make. After the first piece a fault of the
//! stream is reported before a file that can't be read further, where it comes first.

ghost use Rattle.std.specs.Prelude.{◌≡◌, ◌≤◌, ℕ, List, [], IfOk, IfErr, OnOk, length, take, true};
ghost use Rattle.machine.specs.First.{dealt_marks};
ghost use Rattle.machine.specs.Seen.{all_marks, state_of};
ghost use Rattle.receiver.specs.Disks.{AreHonestDisks};
ghost use Rattle.receiver.specs.Opened.{terms_at};
ghost use Rattle.receiver.specs.Receiving.{HasBeenFed};
ghost use Rattle.receiver.specs.declared.terms.Terms.{Terms};
ghost use Rattle.wire.specs.Stream.{shapes_in};
ghost use Rattle.vmig.specs.Faults.{TellsOfFile};
ghost use Rattle.vmig.specs.Feeding.{IsArrivedOn, IsFedOn, IsFedQuietly, IsReceivedOn, TellsOfRest};

use crate::fault::Fault;
use machine::{Disk, Machine};
use receiver::Receiver;
use std::alloc::Global;
use std::io::{ErrorKind, Read};

/// How many bytes of a stream are read at once. A header is shorter.
pub const PIECE_SIZE: usize = 65_536;

/// The front of a stream whose file is read: the first `count` bytes of a piece. The other bytes of the piece are anything.
#[derive(Drop)]
pub struct Front {
    pub piece: Vec<u8>,
    pub count: usize,
}

/// Reads the front of a file: a whole piece, unless the file ends before.
pub fn read_front<'a, F: Read>(
    alloc: Global,
    file: &mut F,
    name: &'a str,
) -> Result<Front, Fault<'a>>
    ensures within { IfOk result (λ front. front.count ≤ length front.piece.items) }
    ensures failed { IfErr result (TellsOfFile name.entry.now) }
{
    let Ok(mut piece) = vec![in alloc; 0u8; PIECE_SIZE] else {
        return Err(Fault::NoMemory);
    };
    let count = fill(file, name, piece.as_mut_slice())?;
    Ok(Front { piece, count })
}

/// Fills a piece from a file, unless the file ends before. Returns how many bytes it read.
fn fill<'a, F: Read>(file: &mut F, name: &'a str, piece: &mut [u8]) -> Result<usize, Fault<'a>>
    ensures long { length piece.new ≡ length piece.old }
    ensures within { IfOk result (λ count. count ≤ length piece.old) }
    ensures failed { IfErr result (TellsOfFile name.entry.now) }
{
    let mut count = 0;
    for _ in 0..u64::MAX {
        match file.read(&mut piece[count..]) {
            Ok(0) => return Ok(count),
            Ok(more) => count += more,
            Err(error) => {
                if error.kind() != ErrorKind::Interrupted {
                    return Err(Fault::of_file(name, error.kind()));
                }
            }
        }
    }
    Err(Fault::File(name))
}

/// Receives the machine of a stream with a receiver that was fed nothing, and tells how many rounds ended in it. The file has what
/// follows the front.
pub fn receive_rest<'a, F: Read, D: Disk + Drop>(
    file: &mut F,
    name: &'a str,
    mut front: Front,
    mut receiver: Receiver<D>,
) -> Result<(Machine<D>, u32), Fault<'a>>
    requires within { front.count ≤ length front.piece.items }
    requires fresh { HasBeenFed receiver [] }
    ensures arrived { IfOk result (λ x. (terms : Terms) → receiver.ram ≡ terms_at terms → IsArrivedOn terms (take front.count front.piece.items) (state_of x.0)) }
    ensures received { IfOk result (λ x. (terms : Terms) → receiver.ram ≡ terms_at terms → AreHonestDisks receiver.marks → IsReceivedOn terms (take front.count front.piece.items) (state_of x.0) x.1) }
    ensures marks { IfOk result (λ x. all_marks x.0 ≡ dealt_marks (shapes_in (state_of x.0).devices) receiver.marks) }
    ensures failed { IfErr result (λ fault. (terms : Terms) → receiver.ram ≡ terms_at terms → TellsOfRest name.entry.now (take front.count front.piece.items) terms receiver.sizes receiver.marks fault) }
{
    receiver.feed(&front.piece[..front.count])?;
    feed_rest(file, name, front.piece.as_mut_slice(), &mut receiver)?;
    let rounds = receiver.rounds();
    match receiver.finish() {
        Ok(machine) => Ok((machine, rounds)),
        Err(refusal) => Err(Fault::from(refusal)),
    }
}

/// Feeds the rest of a file, up to its end.
fn feed_rest<'a, F: Read, D: Disk + Drop>(
    file: &mut F,
    name: &'a str,
    piece: &mut [u8],
    receiver: &mut Receiver<D>,
) -> Result<(), Fault<'a>>
    ensures ram { receiver.new.ram ≡ receiver.old.ram }
    ensures sizes { receiver.new.sizes ≡ receiver.old.sizes }
    ensures marks { OnOk result (receiver.new.marks ≡ receiver.old.marks) }
    ensures quiet { OnOk result ((terms : Terms) (front : List ℕ) → IsFedOn terms receiver.old front → IsFedQuietly terms receiver.new front) }
    ensures failed { IfErr result (λ fault. (terms : Terms) (front : List ℕ) → IsFedOn terms receiver.old front → TellsOfRest name.entry.now front terms receiver.old.sizes receiver.old.marks fault) }
{
    for _ in 0..u64::MAX {
        if feed_piece(file, name, piece, receiver)? {
            return Ok(());
        }
    }
    Err(Fault::File(name))
}

/// Feeds the next piece of a file, and returns whether the file has ended: then the piece is empty.
fn feed_piece<'a, F: Read, D: Disk + Drop>(
    file: &mut F,
    name: &'a str,
    piece: &mut [u8],
    receiver: &mut Receiver<D>,
) -> Result<bool, Fault<'a>>
    ensures ram { receiver.new.ram ≡ receiver.old.ram }
    ensures sizes { receiver.new.sizes ≡ receiver.old.sizes }
    ensures marks { OnOk result (receiver.new.marks ≡ receiver.old.marks) }
    ensures goes_on { OnOk result ((terms : Terms) (front : List ℕ) → IsFedOn terms receiver.old front → IsFedOn terms receiver.new front) }
    ensures quiet { IfOk result (λ ended. ended ≡ true → (terms : Terms) (front : List ℕ) → IsFedOn terms receiver.old front → IsFedQuietly terms receiver.new front) }
    ensures failed { IfErr result (λ fault. (terms : Terms) (front : List ℕ) → IsFedOn terms receiver.old front → TellsOfRest name.entry.now front terms receiver.old.sizes receiver.old.marks fault) }
{
    let count = match file.read(piece) {
        Ok(count) => count,
        Err(error) => {
            if error.kind() == ErrorKind::Interrupted {
                return Ok(false);
            }
            return Err(Fault::of_file(name, error.kind()));
        }
    };
    match receiver.feed(&piece[..count]) {
        Ok(()) => Ok(count == 0),
        Err(refusal) => Err(Fault::from(refusal)),
    }
}
