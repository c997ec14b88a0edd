//! How large a machine may be, as its host says.
//!
//! Limits are tested where a machine is made, and where the header of a stream is read. After that nothing asks for them: no call
//! changes how many pages a machine has, how many sectors a disk, or how long frames may be (`laws::limits_stay`).

ghost use Rattle.std.specs.Prelude.{◌≡◌, ◌↔◌, IsTrue};
ghost use Rattle.machine.specs.Limits.{IsShapeWithin, greatest, usual};

use crate::shape::Shape;
use blk::OUTSIDE_GREATEST;
use net::{FRAME_GREATEST, FRAME_MAX};

/// The most that a machine may have.
#[derive(Clone, Copy, Debug, PartialEq, Eq)]
pub struct Limits {
    /// Pages of RAM, of 4,096 bytes each.
    pub pages: u32,

    /// Sectors of each disk, of 512 bytes each.
    pub sectors: u32,

    /// Bytes of a frame of a network device for long ones.
    pub frame: u16,

    /// Sectors of a disk outside of the machine, of 512 bytes each.
    pub outside: u64,
}

impl Limits {
    /// The limits of a host that asks for no more: 16,384 pages (64 MiB), 2,097,152 sectors of each disk (1 GiB), no device for long frames,
    /// and no disk outside.
    pub fn usual() -> Limits
        ensures { result ≡ usual }
    {
        Limits {
            pages: 16_384,
            sectors: 2_097_152,
            frame: FRAME_MAX,
            outside: 0,
        }
    }

    /// All that a machine and its stream can have: 4,294,967,295 pages (16 TiB), as many sectors of each disk (2 TiB), 65,535 bytes of a frame,
    /// and 2^54 sectors of a disk outside.
    pub fn greatest() -> Limits
        ensures { result ≡ greatest }
    {
        Limits {
            pages: 4_294_967_295,
            sectors: 4_294_967_295,
            frame: FRAME_GREATEST,
            outside: OUTSIDE_GREATEST,
        }
    }

    /// Whether they allow a device of this shape.
    pub fn allow(self, shape: Shape) -> bool
        ensures { IsTrue result ↔ IsShapeWithin self shape }
    {
        match shape {
            Shape::Block { sectors, .. } => sectors <= self.sectors as u64,
            Shape::Outside { sectors, .. } => sectors <= self.outside,
            Shape::LongNet { longest, .. } => longest <= self.frame,
            Shape::Net { .. } | Shape::Console | Shape::Entropy => true,
        }
    }
}
