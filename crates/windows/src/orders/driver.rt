//! The driver: it makes chains available, and waits for them.

use crate::orders::Trial;
use crate::orders::world::{BUFFERS, DEVICE, DRIVER, SIZE, TABLES, World};
use anyhow::Result;

/// Flags of descriptors (VIRTIO 1.2, 2.7.5 and 2.8.1).
const WRITE: u64 = 2;

const INDIRECT: u64 = 4;

const AVAIL: u64 = 0x80;

/// Both flags of a used descriptor.
const BOTH: u64 = 0x8080;

/// The bit of the wrap counter in an event suppression area (VIRTIO 1.2, 2.8.14), and its flags.
const WRAP: u64 = 0x8000;

const FLAGS: u64 = 0x1_0000;

/// What the driver does next.
#[derive(Clone, Copy, Debug, PartialEq, Eq)]
pub enum Doing {
    /// It stores the table of a chain.
    Fill,

    /// It stores a descriptor, but for the flags of a packed one.
    Describe,

    /// It stores an entry of the available ring.
    Enter,

    /// It stores the index of the available ring, or the flags of the descriptor.
    Show,

    /// It loads what the device wants to be notified of.
    Ask,

    /// It notifies the device.
    Kick,

    /// It resets the device.
    Reset,

    /// It sets the device up again.
    SetUp,

    /// It loads the index of the used ring, or the used descriptor.
    Look,

    /// It stores that it wants an interrupt.
    Wish,

    /// It looks once more.
    LookAgain,

    /// It sleeps until it is interrupted, and acknowledges that.
    Sleep,

    /// It loads the entry of the used ring.
    Take,

    /// All is done.
    Done,
}

/// Where the driver stands.
#[derive(Clone, Copy, Debug)]
pub struct Driver {
    /// What it does next.
    pub doing: Doing,

    /// How many chains it has made available.
    pub number: usize,

    /// How many of them since the device was set up.
    pub made: usize,

    /// How many of those came back.
    pub seen: usize,

    /// Whether it saw what it should not.
    pub is_wrong: bool,
}

impl Driver {
    /// The beginning.
    pub fn first(trial: Trial) -> Driver {
        Driver {
            doing: beginning_of_chain(trial),
            number: 0,
            made: 0,
            seen: 0,
            is_wrong: false,
        }
    }
}

fn beginning_of_chain(trial: Trial) -> Doing {
    if trial.has_tables {
        Doing::Fill
    } else {
        Doing::Describe
    }
}

/// The id of a chain: where its descriptor lies in a split queue.
fn id_of(number: usize) -> u64 {
    1 + (number % SIZE) as u64
}

/// How many bytes the buffer of a chain has: four or eight.
fn len_of(number: usize) -> u64 {
    4 + 4 * (number % 2) as u64
}

/// Where the buffer of a chain lies.
fn buffer_of(number: usize) -> u64 {
    (BUFFERS + 16 * (number % SIZE)) as u64
}

impl World {
    /// Whether the driver can go on. A register is not written while a step is open.
    pub fn can_drive(&self) -> bool {
        match self.driver.doing {
            Doing::Done => false,
            Doing::Sleep => self.is_interrupted() && !self.thread.is_open(),
            Doing::Kick | Doing::Reset | Doing::SetUp => !self.thread.is_open(),
            _ => true,
        }
    }

    /// A step of the driver.
    pub fn drive(self) -> Result<World> {
        let mut world = self;
        let doing = world.do_next()?;
        world.driver.doing = doing;
        Ok(world)
    }

    /// Does what the driver does next. Returns what it does after that.
    fn do_next(&mut self) -> Result<Doing> {
        match self.driver.doing {
            Doing::Fill => self.fill(),
            Doing::Describe => self.describe(),
            Doing::Enter => self.enter(),
            Doing::Show => self.show(),
            Doing::Ask => self.ask(),
            Doing::Kick => self.kick(),
            Doing::Reset => self.reset(),
            Doing::SetUp => self.set_up_again(),
            Doing::Look => self.look(Doing::Wish),
            Doing::Wish => self.wish(),
            Doing::LookAgain => self.look(Doing::Sleep),
            Doing::Sleep => self.acknowledge(),
            Doing::Take => self.take(),
            Doing::Done => Ok(Doing::Done),
        }
    }

    fn reset(&mut self) -> Result<Doing> {
        self.write_register(0x070, 0)?;
        Ok(Doing::SetUp)
    }

    fn fill(&mut self) -> Result<Doing> {
        let number = self.driver.number;
        let at = TABLES + 16 * (number % SIZE);
        self.store(at, buffer_of(number), 8)?;
        self.store(at + 8, len_of(number), 4)?;
        let flags = if self.trial.is_packed {
            at + 14
        } else {
            at + 12
        };
        self.store(flags, WRITE, 2)?;
        Ok(Doing::Describe)
    }

    /// Where the descriptor of the next chain lies.
    fn descriptor(&self) -> usize {
        if self.trial.is_packed {
            16 * (self.driver.made % SIZE)
        } else {
            16 * ((1 + self.driver.number % SIZE) % SIZE)
        }
    }

    /// The flags of a chain's descriptor.
    fn flags(&self) -> u64 {
        if self.trial.has_tables {
            INDIRECT
        } else {
            WRITE
        }
    }

    fn describe(&mut self) -> Result<Doing> {
        let number = self.driver.number;
        let at = self.descriptor();
        let table = (TABLES + 16 * (number % SIZE)) as u64;
        let (addr, len) = if self.trial.has_tables {
            (table, 16)
        } else {
            (buffer_of(number), len_of(number))
        };
        self.store(at, addr, 8)?;
        self.store(at.wrapping_add(8), len, 4)?;
        if self.trial.is_packed {
            self.store(at.wrapping_add(12), id_of(number), 2)?;
            return Ok(Doing::Show);
        }
        self.store(at.wrapping_add(12), self.flags(), 2)?;
        Ok(Doing::Enter)
    }

    fn enter(&mut self) -> Result<Doing> {
        let entry = DRIVER + 4 + 2 * (self.driver.made % SIZE);
        self.store(entry, id_of(self.driver.number), 2)?;
        Ok(Doing::Show)
    }

    fn show(&mut self) -> Result<Doing> {
        let made = self.driver.made.wrapping_add(1);
        if self.trial.is_packed {
            let at = self.descriptor().wrapping_add(14);
            self.store(at, self.flags() | AVAIL, 2)?;
        } else {
            self.store(DRIVER + 2, made as u64, 2)?;
        }
        self.driver.made = made;
        self.driver.number = self.driver.number.wrapping_add(1);
        Ok(Doing::Ask)
    }

    /// Whether the device wants to be notified of the chain that was made available last (VIRTIO 1.2, 2.7.10 and 2.8.14).
    fn ask(&mut self) -> Result<Doing> {
        let last = self.driver.made.wrapping_sub(1) as u64;
        let is_asked = if self.trial.is_packed {
            let word = self.load(DEVICE, 4)?;
            match word / FLAGS % 4 {
                1 => false,
                2 => word % FLAGS == WRAP | last,
                _ => true,
            }
        } else if self.trial.has_events {
            self.load(DEVICE + 4 + 8 * SIZE, 2)? == last
        } else {
            self.load(DEVICE, 2)? % 2 == 0
        };
        Ok(if is_asked {
            Doing::Kick
        } else {
            self.after_chain()
        })
    }

    fn kick(&mut self) -> Result<Doing> {
        self.write_register(0x050, 0)?;
        Ok(self.after_chain())
    }

    fn after_chain(&self) -> Doing {
        if self.trial.resets && self.driver.number == 1 {
            Doing::Reset
        } else if self.driver.number < self.trial.chains {
            beginning_of_chain(self.trial)
        } else {
            Doing::Look
        }
    }

    fn set_up_again(&mut self) -> Result<Doing> {
        self.set_up()?;
        self.driver.made = 0;
        Ok(beginning_of_chain(self.trial))
    }

    /// Looks for a chain that came back.
    fn look(&mut self, otherwise: Doing) -> Result<Doing> {
        let seen = self.driver.seen;
        if !self.trial.is_packed {
            let is_none = self.load(DEVICE + 2, 2)? == seen as u64;
            return Ok(if is_none { otherwise } else { Doing::Take });
        }
        let word = self.load(16 * (seen % SIZE) + 8, 8)?;
        let (id, flags) = (
            word / (FLAGS * FLAGS) % FLAGS,
            word / (FLAGS * FLAGS * FLAGS),
        );
        if flags & BOTH != BOTH {
            return Ok(otherwise);
        }
        Ok(self.took(id, word % (FLAGS * FLAGS)))
    }

    fn take(&mut self) -> Result<Doing> {
        let word = self.load(DEVICE + 4 + 8 * (self.driver.seen % SIZE), 8)?;
        Ok(self.took(word % (FLAGS * FLAGS), word / (FLAGS * FLAGS)))
    }

    /// A chain came back.
    fn took(&mut self, id: u64, len: u64) -> Doing {
        let number = if self.trial.resets {
            1
        } else {
            self.driver.seen
        };
        if id != id_of(number) || len != len_of(number) {
            self.driver.is_wrong = true;
            return Doing::Done;
        }
        self.driver.seen = self.driver.seen.wrapping_add(1);
        if self.driver.seen == self.driver.made {
            Doing::Done
        } else {
            Doing::Look
        }
    }

    /// Wants an interrupt at the next chain that comes back.
    fn wish(&mut self) -> Result<Doing> {
        let seen = self.driver.seen as u64;
        match (self.trial.is_packed, self.trial.has_events) {
            (true, true) => self.store(DRIVER, 2 * FLAGS | WRAP | seen, 4)?,
            (true, false) => self.store(DRIVER, 0, 4)?,
            (false, true) => self.store(DRIVER + 4 + 2 * SIZE, seen, 2)?,
            (false, false) => self.store(DRIVER, 0, 2)?,
        }
        Ok(Doing::LookAgain)
    }

    /// Wants no interrupt.
    pub fn ask_for_nothing(&mut self) -> Result<()> {
        match (self.trial.is_packed, self.trial.has_events) {
            (true, _) => self.store(DRIVER, FLAGS, 4),
            (false, true) => self.store(DRIVER + 4 + 2 * SIZE, WRAP, 2),
            (false, false) => self.store(DRIVER, 1, 2),
        }
    }

    fn acknowledge(&mut self) -> Result<Doing> {
        self.write_register(0x064, 1)?;
        Ok(Doing::Look)
    }
}
