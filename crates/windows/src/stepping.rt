//! A step of the machine that has its RAM, and the same step over the windows of two hosts.
//!
//! Outside of the pieces that are held, each byte of one window is the complement of that of the other. What the step wrote is stored in RAM
//! piece after piece, as the library hands them out: so a piece too many, or one too few, leaves another RAM than that of the machine.

use crate::bench::Bench;
use crate::host::Host;
use crate::moving::Moving;
use crate::window::BYTES;
use crate::word::{Word, word_in};
use anyhow::{Result, bail, ensure};
use chains::is_held;
use machine::{Asking, Piece, Stepped, Stores, Work};
use mmio::USED_BUFFER;
use std::alloc::Global;

/// How many pieces a step may ask for.
const MOST_PIECES: usize = 1000;

/// How a step went.
#[derive(Clone, Copy, Debug)]
pub struct Made {
    /// Its answer.
    pub stepped: Stepped,

    /// Whether it was open in one of the hosts, and ended there by the driver's word.
    pub is_open: bool,

    /// Whether it raised the interrupt.
    pub is_raised: bool,
}

/// What is known of a step before the hosts make it: what they hold, what the step publishes and writes, and what the machine that has its
/// RAM answered.
#[derive(Drop)]
struct Known {
    work: Work,
    held: Vec<Piece>,
    asking: Option<Asking>,
    stores: Stores,
    stepped: Stepped,
    sent: Vec<u8>,
}

impl Known {
    /// The driver's word in RAM, if the step publishes something.
    fn word_of(&self, ram: &[u8]) -> Result<Option<Word>> {
        match &self.asking {
            Some(asking) => Ok(Some(word_in(ram, asking.word())?)),
            None => Ok(None),
        }
    }

    /// The quiet word, if the step is open: the driver's word lies apart from all that is held, and from all into which the step may write.
    fn quiet(&self) -> Result<Option<Word>> {
        let Some(asking) = &self.asking else {
            return Ok(None);
        };
        let piece = asking.word();
        if asking.shares(self.held.as_slice()) || self.stores.may_write(piece) {
            return Ok(None);
        }
        let word = asking.quiet();
        ensure!(!asking.is_due(word), "the quiet word asks for an interrupt");
        Ok(Some(Word { piece, word }))
    }

    /// A host makes the step, with this word in its window.
    fn made_by(&self, alloc: Global, host: Host, word: Option<Word>) -> Result<Host> {
        let mut host = host;
        if let Some(word) = word {
            host.put(word.piece.at as usize, word.bytes())?;
        }
        let mut sent = Vec::new(alloc);
        let (stepped, host) = host.step(self.work, &mut sent)?;
        self.is_answer(stepped, &sent)?;
        Ok(host)
    }

    /// As `made_by`, of a machine that is being sent.
    fn made_moving(&self, alloc: Global, host: Moving, word: Option<Word>) -> Result<Moving> {
        let mut host = host;
        if let Some(word) = word {
            host.put(word.piece.at as usize, word.bytes())?;
        }
        let mut sent = Vec::new(alloc);
        let (stepped, host) = host.step(self.work, &mut sent)?;
        self.is_answer(stepped, &sent)?;
        Ok(host)
    }

    /// Fails unless the machine that has its RAM answered so too.
    fn is_answer(&self, stepped: Stepped, sent: &Vec<u8>) -> Result<()> {
        ensure!(stepped == self.stepped, "the answer of a step");
        if stepped == Stepped::Sent {
            ensure!(*sent == self.sent, "the bytes of a message");
        }
        Ok(())
    }
}

impl Bench {
    /// Makes the step in all machines, and compares what they answer and what they are then.
    pub fn step(self, work: Work) -> Result<(Made, Bench)> {
        let mut bench = self;
        bench.fill_windows()?;
        let (held, mut bench) = bench.copy_pieces(work)?;
        bench.write_beside(held.as_slice())?;
        let (asking, bench) = bench.asking(work)?;
        let (stores, mut bench) = bench.storing(work)?;
        bench.write_word(held.as_slice(), &asking)?;
        let was_raised = bench.is_raised(work.dev);
        let mut sent = Vec::new(bench.alloc);
        let stepped = bench.machine.step_into(work.dev, work.pick, &mut sent);
        let known = Known {
            work,
            held,
            asking,
            stores,
            stepped,
            sent,
        };
        let (is_open, mut bench) = bench.step_hosts(&known)?;
        if is_open {
            bench.end_open(&known)?;
        }
        bench.are_same()?;
        let is_raised = !was_raised && bench.is_raised(work.dev);
        let made = Made {
            stepped,
            is_open,
            is_raised,
        };
        Ok((made, bench))
    }

    /// Whether the used-buffer interrupt of a device is raised.
    fn is_raised(&self, dev: u8) -> bool {
        match self.machine.devices().get(dev as usize) {
            Some(device) => device.state().registers().common().interrupts & USED_BUFFER != 0,
            None => false,
        }
    }

    /// Fills one window with bytes of any kind, and the other with their complements.
    fn fill_windows(&mut self) -> Result<()> {
        let kind = self.draws.below(3);
        let closing = self.closing.bytes_mut()?;
        for (byte, stored) in closing.iter_mut().zip(self.ram.as_slice()) {
            *byte = match kind {
                0 => self.draws.byte(),
                1 => *stored,
                _ => 0,
            };
        }
        let opening = self.opening.bytes_mut()?;
        for (byte, other) in opening.iter_mut().zip(self.closing.bytes()?) {
            *byte = u8::MAX - *other;
        }
        Ok(())
    }

    /// Copies into both windows what the step asks for, piece by piece.
    fn copy_pieces(self, work: Work) -> Result<(Vec<Piece>, Bench)> {
        let mut bench = self;
        let mut held = Vec::new(bench.alloc);
        for _piece in 0..MOST_PIECES {
            let (lacking, next) = bench.lacks(work, held.as_slice())?;
            bench = next;
            let Some(piece) = lacking else {
                return Ok((held, bench));
            };
            ensure!(
                !is_held(held.as_slice(), piece),
                "a piece that is held is asked for"
            );
            bench.hold(piece)?;
            held.push(piece)?;
        }
        bail!("more pieces than there are")
    }

    /// The piece that both hosts lack, which hold the same.
    fn lacks(self, work: Work, held: &[Piece]) -> Result<(Option<Piece>, Bench)> {
        let bench = self;
        let (lacking, closing) = bench.closing.lacks(work, held)?;
        let (other, opening) = bench.opening.lacks(work, held)?;
        ensure!(lacking == other, "another piece is lacking");
        Ok((
            lacking,
            Bench {
                closing,
                opening,
                ..bench
            },
        ))
    }

    /// Copies a piece of RAM into both windows.
    fn hold(&mut self, piece: Piece) -> Result<()> {
        let (at, count) = (piece.at as usize, piece.count as usize);
        let len = self.ram.len();
        ensure!(at <= len && count <= len - at, "a piece outside RAM");
        let bytes = &self.ram.as_slice()[at..at + count];
        self.closing.put(at, bytes)?;
        self.opening.put(at, bytes)
    }

    /// The guest writes bytes of RAM while the hosts hold these pieces. None of these bytes is read by the step, but the driver's word may be.
    fn write_beside(&mut self, held: &[Piece]) -> Result<()> {
        for _byte in 0..self.draws.below(4) {
            let at = self.draws.below(BYTES as u32);
            let byte = Piece {
                at: at as u64,
                count: 1,
            };
            let value = self.draws.byte();
            if !is_held(held, byte) {
                self.write(at as usize, &[value])?;
            }
        }
        Ok(())
    }

    /// The driver writes its word late, once the hosts hold these pieces.
    fn write_word(&mut self, held: &[Piece], asking: &Option<Asking>) -> Result<()> {
        let Some(asking) = asking else {
            return Ok(());
        };
        let word = asking.word();
        if is_held(held, word) || !self.draws.once_in(4) {
            return Ok(());
        }
        let at = word.at.wrapping_add(self.draws.below(2) as u64);
        let value = self.draws.below(4) as u8;
        if !is_held(held, Piece { at, count: 1 }) {
            self.write(at as usize, &[value])?;
        }
        Ok(())
    }

    /// What the step publishes, as both hosts know it.
    fn asking(self, work: Work) -> Result<(Option<Asking>, Bench)> {
        let bench = self;
        let (asking, closing) = bench.closing.asking(work)?;
        let (other, opening) = bench.opening.asking(work)?;
        ensure!(
            place_and_quiet(&asking) == place_and_quiet(&other),
            "another word"
        );
        Ok((
            asking,
            Bench {
                closing,
                opening,
                ..bench
            },
        ))
    }

    /// What the step writes, as a host knows it.
    fn storing(self, work: Work) -> Result<(Stores, Bench)> {
        let bench = self;
        let (stores, closing) = bench.closing.storing(work)?;
        Ok((stores, Bench { closing, ..bench }))
    }

    /// Both hosts make the step, and store what it wrote. Returns whether it is open in one of them.
    fn step_hosts(self, known: &Known) -> Result<(bool, Bench)> {
        let bench = self;
        let alloc = bench.alloc;
        let word = known.word_of(bench.ram.as_slice())?;
        let quiet = known.quiet()?;
        let given = if quiet.is_some() { quiet } else { word };
        let closing = known.made_by(alloc, bench.closing, word)?;
        let opening = known.made_moving(alloc, bench.opening, given)?;
        let mut bench = Bench {
            closing,
            opening,
            ..bench
        };
        bench.store(known)?;
        Ok((quiet.is_some(), bench))
    }

    /// Stores in RAM what the step wrote, piece after piece.
    fn store(&mut self, known: &Known) -> Result<()> {
        let mut from = 0;
        for _piece in 0..MOST_PIECES {
            let Some(piece) = known.stores.next(known.stepped, from) else {
                return Ok(());
            };
            self.store_piece(piece)?;
            from = piece.count.wrapping_add(from);
        }
        bail!("more pieces than there are")
    }

    /// Stores a piece in RAM that both windows have.
    fn store_piece(&mut self, piece: Piece) -> Result<()> {
        let (at, count) = (piece.at as usize, piece.count as usize);
        let (closing, opening) = (self.closing.bytes()?, self.opening.bytes()?);
        let ram = self.ram.as_mut_slice();
        let len = ram.len();
        ensure!(
            at <= len && count <= len - at && len <= closing.len() && len <= opening.len(),
            "a store outside RAM"
        );
        let stored = &closing[at..at + count];
        ensure!(
            stored == &opening[at..at + count],
            "other bytes were written"
        );
        ram[at..at + count].copy_from_slice(stored);
        Ok(())
    }

    /// Ends an open step by the driver's word in RAM. The quiet word has asked for no interrupt, since it lies apart from all that was written.
    fn end_open(&mut self, known: &Known) -> Result<()> {
        let Some(asking) = &known.asking else {
            return Ok(());
        };
        if !known.stepped.has_published() {
            return Ok(());
        }
        let window = word_in(self.opening.bytes()?, asking.word())?;
        ensure!(
            !asking.is_due(window.word),
            "the quiet word asked after the step"
        );
        let word = word_in(self.ram.as_slice(), asking.word())?;
        self.opening
            .live
            .end(known.work.dev, asking.is_due(word.word));
        Ok(())
    }
}

/// Where the driver's word lies, and which one is quiet.
fn place_and_quiet(asking: &Option<Asking>) -> Option<(Piece, [u8; 4])> {
    match asking {
        Some(asking) => Some((asking.word(), asking.quiet())),
        None => None,
    }
}
