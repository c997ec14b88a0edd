//! Bytes, and what a receiver reports of them.

use crate::changes::Streams;
use crate::told::{told_refusal, trusting_refusal};
use anyhow::{Context, Result, ensure};
use books::{Script, spelled};
use machine::{FaultDisk, Limits, MemDisk};
use receiver::{Receiver, RecvError, Terms, Told, read_heading_within};
use scenarios::{PIECES, TestDisk, disks_of, refusal_in_pieces, refusal_of};
use std::alloc::Global;

/// Those of `PIECES` in which a receiver is fed too that is told the digest.
const TOLD_PIECES: [usize; 2] = [1, 511];

/// Receives the stream of a line, which is followed by ` -> ` and the number of its refusal, or 0 where it is received. Fed in
/// pieces of any size, it gets the same answer. After the number there may be ` AT ` and an offset: that many bytes show the
/// refusal, and no fewer.
///
/// The disks are those of the devices that the header names. The stream may follow `NO DISK, AND`: then there is none;
/// `A DISK, AND`: then there is one more; or a line of a script about disks, as `PLAN 0 1, AND`: then they are as this line
/// says.
///
/// A line may begin with `WITHIN FRAME OUTSIDE, AND`: then the limits are the usual ones but for these: frames of this many bytes, and
/// disks outside of this many sectors.
///
/// A line may stand for many streams (`Streams`). Then the numbers are encoded like a stream, and of the offsets `PLACE*COUNT`
/// stands for COUNT equal ones.
///
/// After `HELD OF` and a stream come numbers of bytes, ` AT ` and offsets: this many bytes a receiver holds when it was fed the
/// stream up to each offset, in pieces of any size.
pub fn tells(alloc: Global, line: &str) -> Result<()> {
    let (streams, told) = line.split_once(" -> ").context("no number")?;
    if let Some(stream) = streams.strip_prefix("HELD OF ") {
        return holds(alloc, stream, told).context(line);
    }
    let (numbers, places) = told.split_once(" AT ").unwrap_or((told, ""));
    let (limits, streams) = limits_of(streams)?;
    let (disks, streams) = streams.split_once(", AND ").unwrap_or(("", streams));
    let streams = Streams::read(alloc, streams)?;
    let numbers = spelled(alloc, numbers)?;
    let places = counted(alloc, places)?;
    let refusals = Refusals {
        terms: Terms { base: 0, limits },
        disks,
        numbers: numbers.as_slice(),
        places: places.as_slice(),
    };
    refusals.tell_all(alloc, &streams, line)
}

/// The limits that a line names, and what follows them.
fn limits_of(line: &str) -> Result<(Limits, &str)> {
    let Some(rest) = line.strip_prefix("WITHIN ") else {
        return Ok((Limits::usual(), line));
    };
    let (numbers, rest) = rest.split_once(", AND ").context("no stream")?;
    let (frame, outside) = numbers.split_once(' ').context("one number")?;
    let limits = Limits {
        frame: frame.parse::<u16>()?,
        outside: outside.parse::<u64>()?,
        ..Limits::usual()
    };
    Ok((limits, rest))
}

/// Fails if a receiver holds another number of bytes of a stream.
fn holds(alloc: Global, stream: &str, told: &str) -> Result<()> {
    let streams = Streams::read(alloc, stream)?;
    let (counts, places) = told.split_once(" AT ").context("no offsets")?;
    let counts = counted(alloc, counts)?;
    let places = counted(alloc, places)?;
    holds_in_pieces(
        alloc,
        streams.whole(),
        (places.as_slice(), counts.as_slice()),
    )
}

/// Fails if a receiver that is fed the stream in pieces of some size holds, at one of these offsets, another number of bytes than the one
/// beside it.
fn holds_in_pieces(alloc: Global, stream: &[u8], expected: (&[usize], &[usize])) -> Result<()> {
    ensure!(expected.0.len() == expected.1.len(), "as many offsets");
    for size in PIECES {
        let mut receiver = receiver_of(alloc, stream)?;
        holds_at(&mut receiver, stream, expected, size)?;
    }
    Ok(())
}

/// A receiver over disks of the devices that the header of a stream names.
fn receiver_of(alloc: Global, stream: &[u8]) -> Result<Receiver<TestDisk>> {
    let disks = disks_by(alloc, Limits::usual(), "", stream)?;
    Ok(Receiver::new(alloc, disks))
}

/// Fails if a receiver that is fed the stream in pieces of `size` bytes holds, at one of these offsets, another number of bytes than the one
/// beside it.
fn holds_at(
    receiver: &mut Receiver<TestDisk>,
    stream: &[u8],
    expected: (&[usize], &[usize]),
    size: usize,
) -> Result<()> {
    let mut fed = 0usize;
    for (place, count) in expected.0.iter().zip(expected.1.iter()) {
        let part = stream.get(fed..*place).context("an offset")?;
        feed_in_pieces(receiver, part, size)?;
        let held = receiver.held();
        ensure!(
            held == *count as u64,
            "{held} of {place} in pieces of {size}"
        );
        fed = *place;
    }
    Ok(())
}

fn feed_in_pieces(receiver: &mut Receiver<TestDisk>, part: &[u8], size: usize) -> Result<()> {
    for piece in part.chunks(size.max(1)) {
        receiver.feed(piece)?;
    }
    Ok(())
}

/// Numbers in decimal, of which one may stand for many that are the same.
fn counted(alloc: Global, text: &str) -> Result<Vec<usize>> {
    let mut numbers = Vec::new(alloc);
    for word in text.split_whitespace() {
        let (number, count) = word.split_once('*').unwrap_or((word, "1"));
        let number = number.parse::<usize>()?;
        for _ in 0..count.parse::<u16>()? {
            numbers.push(number)?;
        }
    }
    Ok(numbers)
}

/// A stream that is changed at a position, and the number that is reported of it.
#[derive(Clone, Copy)]
struct Changed<'s> {
    stream: &'s [u8],
    number: u8,
    place: usize,
}

/// What is reported of streams that are received with given disks.
#[derive(Drop)]
struct Refusals<'t> {
    terms: Terms,
    disks: &'t str,
    numbers: &'t [u8],
    places: &'t [usize],
}

impl<'t> Refusals<'t> {
    /// Fails if of one of the streams another refusal is reported.
    fn tell_all(&self, alloc: Global, streams: &Streams, line: &str) -> Result<()> {
        ensure!(self.numbers.len() == streams.count(), "{line}");
        for place in 0..streams.count() {
            self.tell(alloc, streams, place).context(line)?;
        }
        Ok(())
    }

    /// Fails if another refusal is reported of the stream that is changed at this position, whole or in pieces.
    fn tell(&self, alloc: Global, streams: &Streams, place: usize) -> Result<()> {
        let stream = streams.stream(alloc, place)?;
        let number = *self.numbers.get(place).context("no number")?;
        let changed = Changed {
            stream: stream.as_slice(),
            number,
            place,
        };
        self.tell_of(alloc, streams, changed)
    }

    fn tell_of(&self, alloc: Global, streams: &Streams, changed: Changed<'_>) -> Result<()> {
        self.tell_whole(alloc, streams, changed)?;
        let told_at = self.tell_bytes(alloc, streams, changed)?;
        self.tell_in_pieces(alloc, streams, changed, told_at)
    }

    fn tell_whole(&self, alloc: Global, streams: &Streams, changed: Changed<'_>) -> Result<()> {
        let Changed {
            stream,
            number,
            place,
        } = changed;
        let disks = self.disks_beside(alloc, streams)?;
        let told = refusal_of(alloc, stream, disks, self.terms);
        ensure!(told == number, "{told} at {place}");
        Ok(())
    }

    /// The number of bytes that show the refusal, where the stream is fed byte by byte.
    fn tell_bytes(&self, alloc: Global, streams: &Streams, changed: Changed<'_>) -> Result<usize> {
        let Changed {
            stream,
            number,
            place,
        } = changed;
        let disks = self.disks_beside(alloc, streams)?;
        let (told, told_at) = refusal_in_pieces(alloc, stream, disks, self.terms, 1)?;
        ensure!(told == number, "{told} byte by byte at {place}");
        if let Some(expected) = self.places.get(place) {
            ensure!(told_at == *expected, "at byte {told_at} at {place}");
        }
        Ok(told_at)
    }

    /// Fails if the stream, fed in pieces of more bytes, gets another answer, or gets it in another piece than that of byte
    /// `told_at`. So it is of a receiver that is told the digest.
    fn tell_in_pieces(
        &self,
        alloc: Global,
        streams: &Streams,
        changed: Changed<'_>,
        told_at: usize,
    ) -> Result<()> {
        let Changed {
            stream,
            number,
            place,
        } = changed;
        for size in PIECES {
            let end = told_at.div_ceil(size).saturating_mul(size);
            let expected = (number, end.min(stream.len()));
            let disks = self.disks_beside(alloc, streams)?;
            let told = refusal_in_pieces(alloc, stream, disks, self.terms, size)?;
            ensure!(told == expected, "pieces of {size} at {place}");
            if TOLD_PIECES.contains(&size) {
                let disks = self.disks_beside(alloc, streams)?;
                let (number, fed) = told_refusal(alloc, stream, disks, self.terms, size)?;
                let told = (number, fed.unwrap_or(expected.1));
                ensure!(
                    told == expected,
                    "a told digest, pieces of {size} at {place}"
                );
                self.tell_on_trust(alloc, streams, stream, (expected, size))
                    .context(place)?;
            }
        }
        Ok(())
    }

    /// Fails if a receiver that is told the digest on trust gives another answer than `expected.0`, or accepts a stream by a wrong digest.
    fn tell_on_trust(
        &self,
        alloc: Global,
        streams: &Streams,
        stream: &[u8],
        expected: ((u8, usize), usize),
    ) -> Result<()> {
        let ((number, fed), size) = expected;
        let receiver = self.told_receiver(alloc, streams)?;
        let told = trusting_refusal(stream, receiver, size, false)?;
        ensure!(told == (number, fed), "a digest on trust, pieces of {size}");
        let receiver = self.told_receiver(alloc, streams)?;
        let (told, _) = trusting_refusal(stream, receiver, size, true)?;
        let is_compared = number == 0 || number == RecvError::Trailing.code();
        let refused = if is_compared {
            RecvError::BadDigest.code()
        } else {
            number
        };
        ensure!(told == refused, "a wrong digest on trust, pieces of {size}");
        Ok(())
    }

    fn told_receiver(&self, alloc: Global, streams: &Streams) -> Result<Receiver<TestDisk, Told>> {
        let disks = self.disks_beside(alloc, streams)?;
        Ok(Receiver::told(alloc, disks, None, self.terms))
    }

    /// The disks with which streams are received.
    fn disks_beside(&self, alloc: Global, streams: &Streams) -> Result<Vec<TestDisk>> {
        match self.disks {
            "NO DISK" => Ok(Vec::new(alloc)),
            "A DISK" => one_disk_more(alloc, self.terms.limits, streams.whole()),
            lines => disks_by(alloc, self.terms.limits, lines, streams.whole()),
        }
    }
}

/// Disks of the devices that the header of a stream names, if it is within the limits, as lines of a script say of them.
fn disks_by(alloc: Global, limits: Limits, lines: &str, stream: &[u8]) -> Result<Vec<TestDisk>> {
    let mut script = Script::new(alloc);
    script.add(lines)?;
    match read_heading_within(alloc, limits, stream) {
        Ok(Some(header)) => disks_of(alloc, &script, header.shapes.as_slice()),
        _ => Ok(Vec::new(alloc)),
    }
}

fn one_disk_more(alloc: Global, limits: Limits, stream: &[u8]) -> Result<Vec<TestDisk>> {
    let mut disks = disks_by(alloc, limits, "", stream)?;
    disks.push(FaultDisk::new(MemDisk::new(alloc, 1)?, Vec::new(alloc)))?;
    Ok(disks)
}
