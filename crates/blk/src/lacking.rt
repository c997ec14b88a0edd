//! Which piece of RAM the next step of an outstanding request still lacks, where only some pieces are held (`chains`, `lacking`).

ghost use Rattle.std.specs.Prelude.{Some, length, slice_get};
ghost use Rattle.chains.specs.Lacking.{TellsLacking};
ghost use Rattle.chains.specs.Places.{AreSegmentsInside};
ghost use Rattle.blk.specs.Footprint.{advance_pieces};
ghost use Rattle.blk.specs.Outside.{AreSoundIn};

use crate::block::Block;
use crate::disk::SECTOR_SIZE;
use crate::request::{HEADER_SIZE, Kind, Request};
use chains::{Piece, lacks_bytes};
use guestmem::Ram;

impl Request {
    /// The first piece that its next step lacks, if it lacks one: of the bytes that a write writes next. No other step reads its chain.
    fn lacks(&self, base: u64, ram: &Ram, held: &[Piece]) -> Option<Piece>
        requires inside { AreSegmentsInside base (length ram.now.bytes) self.now.readable }
        ensures { TellsLacking held.now ram.now.bytes (advance_pieces base (Some self.now)) result }
    {
        if !self.is_open() {
            return None;
        }
        match self.kind {
            Kind::Out => {
                let skip = HEADER_SIZE as u64 + SECTOR_SIZE as u64 * self.done as u64;
                let segs = self.readable.as_slice();
                lacks_bytes(held, base, ram, segs, skip, SECTOR_SIZE as u64)
            }
            Kind::Refused | Kind::In | Kind::Flush | Kind::GetId | Kind::Zero => None,
        }
    }
}

impl Block {
    /// The first piece that the next step of the k-th outstanding request, from 0, lacks in a RAM with this base, if it lacks one.
    pub fn lacks(&self, k: usize, base: u64, ram: &Ram, held: &[Piece]) -> Option<Piece>
        requires sound { AreSoundIn base (length ram.now.bytes) self.now.requests }
        ensures { TellsLacking held.now ram.now.bytes (advance_pieces base (slice_get self.now.requests k)) result }
    {
        let requests = self.requests.as_slice();
        if k >= requests.len() {
            return None;
        }
        requests[k].lacks(base, ram, held)
    }
}
