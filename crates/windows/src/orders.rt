//! All orders of the loads and stores of a driver and of a host's thread, over one memory.
//!
//! A model of interleavings. RAM is a plain list of bytes, and each load or store of a word or of a piece is one step of a process, so memory
//! is sequentially consistent: there are no store buffers, and the fences of a driver and a host are taken for granted. What a host does under
//! the lock of its machine is one step too: a register write, or a call of the library.
//!
//! The driver of an entropy device makes one or two chains available as VIRTIO 1.2 says (2.7.13, 2.8.21), kicks if it is asked to, and sleeps
//! until it is interrupted. The thread of the host makes the steps of the device over a window. A run fails if both sleep while a chain is not
//! back, or if the driver sees another chain, another length or other bytes than are due.
//!
//! A search goes through all orders in which a process is left no more than four times while it could go on, or three times where there are
//! two chains. Hosts with a fault are searched too: the program fails where the fault is not found.

mod driver;
mod search;
mod thread;
mod world;

use crate::orders::search::search;
use crate::orders::world::World;
use anyhow::{Context, Result, ensure};
use std::alloc::Global;

/// What a host does wrong.
#[derive(Clone, Copy, Debug, PartialEq, Eq)]
pub enum Fault {
    /// Nothing.
    None,

    /// It does not look again at an empty queue, once it has stored where it wants to be notified.
    OneLook,

    /// It loads the driver's word about interrupts before it stores what the step wrote.
    EarlyWord,

    /// It keeps the pieces that it holds, whichever register is written meanwhile.
    StalePieces,
}

/// How a run ends.
#[derive(Clone, Copy, Debug, PartialEq, Eq)]
pub enum Verdict {
    /// The driver has all chains back.
    Fine,

    /// Both sleep, and a chain is not back.
    Hung,

    /// The driver saw what it should not.
    Wrong,
}

/// What driver and host do in the runs of a search.
#[derive(Clone, Copy, Debug)]
pub struct Trial {
    /// Whether the ring is packed.
    pub is_packed: bool,

    /// Whether event indexes are negotiated.
    pub has_events: bool,

    /// Whether each chain is a table of one descriptor.
    pub has_tables: bool,

    /// How many chains the driver makes available.
    pub chains: usize,

    /// Whether it resets the device after the first one, and sets it up again.
    pub resets: bool,

    /// What the host does wrong.
    pub fault: Fault,

    /// How often a process is left that could go on, at most.
    pub switches: usize,

    /// How one of the runs has to end, or all of them.
    pub verdict: Verdict,
}

/// A host without a fault, and a driver of one chain in a split ring.
const PLAIN: Trial = Trial {
    is_packed: false,
    has_events: false,
    has_tables: false,
    chains: 1,
    resets: false,
    fault: Fault::None,
    switches: 4,
    verdict: Verdict::Fine,
};

impl Trial {
    fn packed(self) -> Trial {
        Trial {
            is_packed: true,
            ..self
        }
    }

    fn with_events(self) -> Trial {
        Trial {
            has_events: true,
            ..self
        }
    }

    fn with_tables(self) -> Trial {
        Trial {
            has_tables: true,
            ..self
        }
    }

    /// With two chains, and fewer switches, since there are more steps.
    fn with_two(self) -> Trial {
        Trial {
            chains: 2,
            switches: 3,
            ..self
        }
    }

    fn with_reset(self) -> Trial {
        Trial {
            resets: true,
            ..self
        }
    }

    /// With a host that fails, which is found by a run that ends so.
    fn failing(self, fault: Fault, verdict: Verdict) -> Trial {
        Trial {
            fault,
            verdict,
            ..self
        }
    }
}

/// How many searches there are.
const SEARCHES: usize = 17;

/// What is searched.
const NAMES: [&str; SEARCHES] = [
    "split ring",
    "split ring, event indexes",
    "packed ring",
    "packed ring, event indexes",
    "split ring, two chains",
    "split ring, two chains, event indexes",
    "packed ring, two chains",
    "packed ring, two chains, event indexes",
    "split ring, tables",
    "split ring, a reset",
    "packed ring, a reset",
    "split ring, no second look",
    "packed ring, no second look",
    "split ring, the word read too early",
    "packed ring, the word read too early",
    "split ring, pieces kept over a kick",
    "split ring, pieces kept over a reset",
];

/// The trial of each search.
fn trial_of(number: usize) -> Trial {
    let (one, two) = (PLAIN, PLAIN.with_two());
    match number {
        0 => one,
        1 => one.with_events(),
        2 => one.packed(),
        3 => one.packed().with_events(),
        4 => two,
        5 => two.with_events(),
        6 => two.packed(),
        7 => two.packed().with_events(),
        8 => two.with_events().with_tables(),
        9 => two.with_reset(),
        10 => two.packed().with_events().with_reset(),
        11 => two.with_events().failing(Fault::OneLook, Verdict::Hung),
        12 => {
            let two = two.packed().with_events();
            two.failing(Fault::OneLook, Verdict::Hung)
        }
        13 => one.failing(Fault::EarlyWord, Verdict::Hung),
        14 => {
            let one = one.packed().with_events();
            one.failing(Fault::EarlyWord, Verdict::Hung)
        }
        15 => two.failing(Fault::StalePieces, Verdict::Hung),
        _ => two.with_reset().failing(Fault::StalePieces, Verdict::Wrong),
    }
}

/// What a search found.
#[derive(Clone, Copy, Debug)]
pub struct Found {
    /// What was searched.
    pub name: &'static str,

    /// How the last run ended.
    pub verdict: Verdict,

    /// How many runs there were.
    pub runs: u64,
}

/// Makes all searches, and fails unless each finds what it must.
pub fn search_orders(alloc: Global) -> Result<Vec<Found>> {
    let mut found = Vec::new(alloc);
    let mut world = World::new(alloc, PLAIN)?;
    for (number, name) in NAMES.iter().enumerate() {
        let trial = trial_of(number);
        let (verdict, runs, next) = search(world, trial).context(*name)?;
        world = next;
        ensure!(verdict == trial.verdict, "{name}: {verdict:?} after {runs}");
        found.push(Found {
            name: *name,
            verdict,
            runs,
        })?;
    }
    Ok(found)
}
