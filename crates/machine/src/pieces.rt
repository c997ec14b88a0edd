//! The pieces of RAM that a host holds of one step, which it makes beside its guest (`Parked::step_held`).
//!
//! The host copies them one by one, and meanwhile the guest and the host go on. A driver may reset the device, and use the memory of its queue
//! for something else; or it kicks the device, and the step that finds the queue empty would clear a kick that came after the index was
//! read. So pieces are stale once their device was touched since they were begun (`Serials`), and no step is made with them.
//!
//! They are of one loan: where the RAM was given back, all devices are touched (`Serials::touch_all`).

ghost use Rattle.std.specs.Prelude.{◌≡◌, [], ◌∷◌, ◌++◌, OnErr, OnOk, slice_index};
ghost use Rattle.machine.specs.Pieces.{is_stale};

use crate::serials::Serials;
use crate::work::Work;
use chains::Piece;
use guestmem::NoMemory;
use std::alloc::Global;
use std::marker::Model;

/// The pieces that are held of a step.
#[derive(Drop)]
pub struct Pieces {
    work: Work,
    serial: u64,
    held: Vec<Piece>,
}

impl Model for Pieces {
    ghost use Rattle.machine.specs.Pieces.{PiecesSeen};

    ghost Value = { PiecesSeen };

    ghost view = { λ p. record { work = p.work; serial = p.serial; held = p.held.items } };
}

/// Why a step was not made with the pieces that are held of it.
#[derive(Clone, Copy, Debug, PartialEq, Eq)]
pub enum NotMade {
    /// They are stale: its device was touched since they were begun.
    Stale,

    /// It lacks this piece.
    Lacks(Piece),

    /// Memory was refused.
    NoMemory,
}

impl Pieces {
    /// The pieces of a step, of which none is held yet. It takes no memory.
    pub fn begin(alloc: Global, work: Work, serials: &Serials) -> Pieces
        ensures { result ≡ record { work = work; serial = slice_index serials.now work.dev; held = [] } }
    {
        Pieces {
            work,
            serial: serials.of(work.dev),
            held: Vec::new(alloc),
        }
    }

    /// Forgets what is held, and begins anew, with this step.
    pub fn renew(&mut self, work: Work, serials: &Serials)
        ensures { self.new ≡ record { work = work; serial = slice_index serials.now work.dev; held = [] } }
    {
        self.work = work;
        self.serial = serials.of(work.dev);
        self.held.clear();
    }

    /// The step that they are of.
    pub fn work(&self) -> Work
        ensures { result ≡ self.now.work }
    {
        self.work
    }

    /// The pieces that are held, in the order in which they were added.
    pub fn held(&self) -> &[Piece]
        ensures { result.now ≡ self.now.held }
    {
        self.held.as_slice()
    }

    /// Adds a piece that was copied into the window. Memory may be refused, and then nothing has changed.
    pub fn add(&mut self, piece: Piece) -> Result<(), NoMemory>
        ensures added { OnOk result (self.new ≡ record self.old { held = self.old.held ++ piece ∷ [] }) }
        ensures refused { OnErr result (self.new ≡ self.old) }
    {
        match self.held.push(piece) {
            Ok(()) => Ok(()),
            Err(_) => Err(NoMemory),
        }
    }

    /// Whether they are stale.
    pub fn is_stale(&self, serials: &Serials) -> bool
        ensures { result ≡ is_stale serials.now self.now }
    {
        serials.of(self.work.dev) != self.serial || self.serial == u64::MAX
    }
}
