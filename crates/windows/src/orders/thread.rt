//! The thread of the host that makes the steps of the device, over a window.

use crate::orders::Fault;
use crate::orders::world::{WORK, World, number_in};
use crate::word::{Word, word_in};
use anyhow::{Result, bail, ensure};
use machine::{Asking, NotMade, Piece, Stepped};

/// What the thread does next.
#[derive(Clone, Copy, Debug, PartialEq, Eq)]
pub enum Phase {
    /// It sleeps until the device has work.
    Rest,

    /// It copies a piece into the window, or makes the step if none is lacking.
    Gather,

    /// It stores where it wants to be notified next, under the lock.
    Note,

    /// It looks once more at the queue that was empty.
    LookAgain,

    /// It makes the step that finds the queue empty.
    Close,

    /// It stores what an open step wrote.
    Store,

    /// It loads the driver's word, and ends the step.
    Word,
}

/// Where the thread stands.
#[derive(Clone, Copy, Debug)]
pub struct Thread {
    /// What it does next.
    pub phase: Phase,

    /// What the open step answered.
    stepped: Stepped,

    /// How many of the bytes that it wrote are stored.
    stored: u64,

    /// Whether the driver's word asked for an interrupt.
    is_due: bool,
}

impl Thread {
    /// The beginning.
    pub const FIRST: Thread = Thread {
        phase: Phase::Rest,
        stepped: Stepped::Idle,
        stored: 0,
        is_due: false,
    };

    /// Whether a step is made and not ended.
    pub fn is_open(&self) -> bool {
        self.phase == Phase::Store || self.phase == Phase::Word
    }
}

impl World {
    /// Whether the thread can go on.
    pub fn can_serve(&self) -> bool {
        self.thread.phase != Phase::Rest || self.host.parked.next_work(WORK).is_some()
    }

    /// A step of the thread.
    pub fn serve(self) -> Result<World> {
        let mut world = self;
        match world.thread.phase {
            Phase::Rest => world.forget(),
            Phase::Gather if world.is_stale() => world.forget(),
            Phase::Note if world.is_stale() => {
                world.forget();
                return Ok(world);
            }
            _ => {}
        }
        match world.thread.phase {
            Phase::Rest | Phase::Gather => world.gather(),
            Phase::Close => world.close(),
            Phase::Note => {
                world.note()?;
                Ok(world)
            }
            Phase::LookAgain => {
                world.look_again()?;
                Ok(world)
            }
            Phase::Store => {
                world.store_next()?;
                Ok(world)
            }
            Phase::Word => {
                world.load_word()?;
                Ok(world)
            }
        }
    }

    /// Whether the device was touched since the pieces were begun.
    fn is_stale(&self) -> bool {
        self.pieces.is_stale(&self.serials)
    }

    /// Forgets the pieces that are held, and begins again.
    fn forget(&mut self) {
        self.pieces.renew(WORK, &self.serials);
        self.thread.phase = Phase::Gather;
    }

    /// Copies the piece that is lacking into the window: one load. If none is, the step is made.
    fn gather(self) -> Result<World> {
        let world = self;
        let (lacking, host) = world.host.lacks(WORK, world.pieces.held())?;
        let mut world = World { host, ..world };
        let Some(piece) = lacking else {
            return world.settle();
        };
        let (at, count) = (piece.at as usize, piece.count as usize);
        let ram = world.ram.as_slice();
        ensure!(
            at <= ram.len() && count <= ram.len() - at,
            "a piece outside RAM"
        );
        world.host.put(at, &ram[at..at + count])?;
        world.pieces.add(piece)?;
        Ok(world)
    }

    /// Makes the step whose pieces are all held. With event indexes, a note is stored before the one that finds the queue empty.
    fn settle(self) -> Result<World> {
        let world = self;
        let (asking, host) = world.host.asking(WORK)?;
        let (stores, host) = host.storing(WORK)?;
        let is_noted = stores.second_look().is_some();
        let mut world = World {
            host,
            stores: Some(stores),
            ..world
        };
        match asking {
            Some(asking) => world.open(asking),
            None if is_noted => {
                world.thread.phase = Phase::Note;
                Ok(world)
            }
            None => world.close(),
        }
    }

    /// The first piece that a step with this answer writes.
    fn first_write(&self, stepped: Stepped) -> Result<Piece> {
        let Some(stores) = &self.stores else {
            bail!("nothing is known of the step");
        };
        match stores.next(stepped, 0) {
            Some(piece) => Ok(piece),
            None => bail!("nothing to store"),
        }
    }

    /// Stores the note that the step is going to write: that it wants to be notified of the next chain.
    fn note(&mut self) -> Result<()> {
        let piece = self.first_write(Stepped::Idle)?;
        let Some(stores) = &self.stores else {
            bail!("nothing is known of the step");
        };
        let note = u32::from_le_bytes(stores.note()) as u64;
        self.store(piece.at as usize, note, piece.count as usize)?;
        self.thread.phase = if self.trial.fault == Fault::OneLook {
            Phase::Close
        } else {
            Phase::LookAgain
        };
        Ok(())
    }

    /// Loads the piece again by which the queue is empty. If it has changed, nothing was made.
    fn look_again(&mut self) -> Result<()> {
        let Some(stores) = &self.stores else {
            bail!("nothing is known of the step");
        };
        let Some(piece) = stores.second_look() else {
            bail!("no piece is to be read again");
        };
        let (at, count) = (piece.at as usize, piece.count as usize);
        let (ram, window) = (self.ram.as_slice(), self.host.bytes()?);
        ensure!(
            at <= ram.len() && count <= ram.len() - at && ram.len() <= window.len(),
            "a piece outside RAM"
        );
        if ram[at..at + count] == window[at..at + count] {
            self.thread.phase = Phase::Close;
        } else {
            self.forget();
        }
        Ok(())
    }

    /// Makes the step of the pieces that are held. Where they are stale it is not made.
    fn make(self) -> Result<(Option<Stepped>, World)> {
        let mut world = self;
        let mut sent = Vec::new(world.alloc);
        let host = world.host;
        let (tried, host) = host.step_held(&world.pieces, &mut world.serials, &mut sent)?;
        let world = World { host, ..world };
        match tried {
            Ok(stepped) => Ok((Some(stepped), world)),
            Err(NotMade::Stale) => Ok((None, world)),
            Err(_) => bail!("a step that lacks a piece"),
        }
    }

    /// Makes the step that finds the queue empty.
    fn close(self) -> Result<World> {
        let is_noted = self.thread.phase == Phase::Close;
        let (stepped, mut world) = self.make()?;
        let Some(stepped) = stepped else {
            world.forget();
            return Ok(world);
        };
        ensure!(stepped == Stepped::Idle, "a step that is not idle");
        if is_noted {
            let piece = world.first_write(stepped)?;
            let (at, count) = (piece.at as usize, piece.count as usize);
            let written = number_in(world.host.bytes()?, at, count)?;
            ensure!(written == world.load(at, count)?, "another note");
        }
        world.thread.phase = Phase::Rest;
        Ok(world)
    }

    /// Makes a step that publishes a chain, over the quiet word.
    fn open(self, asking: Asking) -> Result<World> {
        let mut world = self;
        let piece = asking.word();
        ensure!(world.is_apart(&asking), "the word is not apart");
        let word = asking.quiet();
        world
            .host
            .put(piece.at as usize, Word { piece, word }.bytes())?;
        let (stepped, world) = world.make()?;
        let Some(stepped) = stepped else {
            bail!("a step whose pieces are stale");
        };
        ensure!(stepped.has_published(), "a step that publishes nothing");
        let mut world = World {
            asking: Some(asking),
            ..world
        };
        world.thread.stepped = stepped;
        world.thread.stored = 0;
        world.thread.is_due = false;
        world.thread.phase = if world.trial.fault == Fault::EarlyWord {
            Phase::Word
        } else {
            Phase::Store
        };
        Ok(world)
    }

    /// Whether no byte of the driver's word is held, and the step writes into none.
    fn is_apart(&self, asking: &Asking) -> bool {
        let Some(stores) = &self.stores else {
            return false;
        };
        !asking.shares(self.pieces.held()) && !stores.may_write(asking.word())
    }

    /// The next piece of what the open step wrote, if all is not stored.
    fn next_write(&self) -> Option<Piece> {
        let Some(stores) = &self.stores else {
            return None;
        };
        stores.next(self.thread.stepped, self.thread.stored)
    }

    /// Stores the next of what the step wrote: one store.
    fn store_next(&mut self) -> Result<()> {
        let Some(piece) = self.next_write() else {
            bail!("nothing to store");
        };
        let (at, count) = (piece.at as usize, piece.count as usize);
        let (ram, window) = (self.ram.as_mut_slice(), self.host.bytes()?);
        ensure!(
            at <= ram.len() && count <= ram.len() - at && ram.len() <= window.len(),
            "a store outside RAM"
        );
        ram[at..at + count].copy_from_slice(&window[at..at + count]);
        self.thread.stored = self.thread.stored.wrapping_add(piece.count);
        if self.next_write().is_some() {
            return Ok(());
        }
        if self.trial.fault == Fault::EarlyWord {
            self.end();
        } else {
            self.thread.phase = Phase::Word;
        }
        Ok(())
    }

    /// Loads the driver's word.
    fn load_word(&mut self) -> Result<()> {
        let Some(asking) = &self.asking else {
            bail!("no step is open");
        };
        let word = word_in(self.ram.as_slice(), asking.word())?;
        self.thread.is_due = asking.is_due(word.word);
        if self.trial.fault == Fault::EarlyWord {
            self.thread.phase = Phase::Store;
        } else {
            self.end();
        }
        Ok(())
    }

    /// Ends the open step.
    fn end(&mut self) {
        self.host.parked.end(0, self.thread.is_due);
        self.thread.phase = Phase::Rest;
        self.asking = None;
        self.stores = None;
    }
}
