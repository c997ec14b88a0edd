//! Devices as C names them.

ghost use Rattle.std.specs.Prelude.{◌≡◌, if◌then◌else◌};
ghost use Rattle.c_machine.specs.Description.{described};
ghost use Rattle.c_machine.specs.Making.{has_no_disk, has_only, is_known, is_plain, is_usual_frame, no_shape, shape_of};
ghost use Rattle.c_machine.specs.Named.{are_zeros};

use blk::OUTSIDE_GREATEST;
use machine::{Limits, Shape};

/// One past the most bytes that a frame can have.
pub(crate) const FRAME_END: u32 = 65_536;

/// The most bytes of a frame of a network device without an MTU.
const USUAL_FRAME: u32 = 1_514;

/// The fewest bytes of the longest frame of a network device with an MTU, which is 1,500 then.
const LONG_FRAME: u32 = 1_518;

/// The kind of a block device whose disk is outside: the number that the stream has for its shape.
const BLOCK_OUTSIDE: u8 = 130;

/// A device that C asks for. What its kind does not need is 0.
#[derive(Clone, Copy)]
#[repr(C)]
pub struct DeviceShape {
    /// The device type of the standard (VIRTIO 1.2, 5): 1 a network device, 2 a block device, 3 a console, 4 an entropy device; or 130, a block
    /// device whose disk is outside.
    pub kind: u8,

    /// Of a block device, of either kind: whether the driver may only read it, 1 or 0.
    pub read_only: u8,

    /// Of a network device: its MAC.
    pub mac: [u8; 6],

    /// Of a block device: its number of sectors, of 512 bytes each.
    pub sectors: u64,

    /// Of a block device: the id that it returns to a driver that asks for it.
    pub id: [u8; 20],

    /// Of a network device: how many bytes its longest frame may have, 1,514 to 65,535. 0 is 1,514.
    pub frame: u32,

    /// Zeros, until a later version asks for more by them.
    pub reserved: [u64; 2],
}

impl DeviceShape {
    /// That of no device: zeros.
    pub fn none() -> DeviceShape
        ensures { result ≡ no_shape }
    {
        DeviceShape {
            kind: 0,
            read_only: 0,
            mac: [0; 6],
            sectors: 0,
            id: [0; 20],
            frame: 0,
            reserved: [0; 2],
        }
    }

    /// What a device was made as. What its kind does not need is zeros.
    pub fn of(shape: Shape) -> DeviceShape
        ensures { result ≡ described shape }
    {
        let none = DeviceShape::none();
        match shape {
            Shape::Net { mac } => DeviceShape {
                kind: 1,
                mac,
                ..none
            },
            Shape::LongNet { mac, longest } => DeviceShape {
                kind: 1,
                mac,
                frame: longest as u32,
                ..none
            },
            Shape::Block {
                sectors,
                read_only,
                id,
            } => DeviceShape::of_disk(2, sectors, read_only, id),
            Shape::Outside {
                sectors,
                read_only,
                id,
            } => DeviceShape::of_disk(BLOCK_OUTSIDE, sectors, read_only, id),
            Shape::Console => DeviceShape { kind: 3, ..none },
            Shape::Entropy => DeviceShape { kind: 4, ..none },
        }
    }

    /// That of a device of this kind, with a disk.
    fn of_disk(kind: u8, sectors: u64, read_only: bool, id: [u8; 20]) -> DeviceShape
        ensures { result ≡ record no_shape { kind = kind; read_only = if read_only then 1 else 0; sectors = sectors; id = id } }
    {
        DeviceShape {
            kind,
            read_only: read_only as u8,
            sectors,
            id,
            ..DeviceShape::none()
        }
    }

    /// The shape of the machine's device.
    pub fn shape(self) -> Shape
        ensures { result ≡ shape_of self }
    {
        let DeviceShape {
            kind,
            read_only,
            mac,
            sectors,
            id,
            frame,
            ..
        } = self;
        let read_only = read_only != 0;
        match kind {
            1 if is_usual_frame(frame) => Shape::Net { mac },
            1 => Shape::LongNet {
                mac,
                longest: (frame % FRAME_END) as u16,
            },
            2 => Shape::Block {
                sectors,
                read_only,
                id,
            },
            3 => Shape::Console,
            BLOCK_OUTSIDE => Shape::Outside {
                sectors,
                read_only,
                id,
            },
            _ => Shape::Entropy,
        }
    }

    /// Whether there can be such a device, within these limits.
    pub fn is_plain(&self, limits: Limits) -> bool
        ensures { result ≡ is_plain limits self.now }
    {
        if !self.has_only() {
            return false;
        }
        match self.kind {
            1 => {
                is_usual_frame(self.frame)
                    || self.frame >= LONG_FRAME && self.frame <= limits.frame as u32
            }
            2 => self.sectors != 0 && self.sectors <= limits.sectors as u64,
            BLOCK_OUTSIDE => {
                self.sectors != 0
                    && self.sectors <= OUTSIDE_GREATEST
                    && self.sectors <= limits.outside
            }
            kind => is_known(kind),
        }
    }

    /// Whether what its kind does not need is 0, and what no kind needs yet.
    fn has_only(&self) -> bool
        ensures { result ≡ has_only self.now }
    {
        (self.kind == 1 || are_zero_bytes(&self.mac))
            && (self.kind == 2 || self.kind == BLOCK_OUTSIDE || self.has_no_disk())
            && self.read_only <= 1
            && (self.frame == 0 || self.kind == 1 && self.frame < FRAME_END)
            && are_zeros(&self.reserved)
    }

    /// Whether nothing is said of a disk.
    fn has_no_disk(&self) -> bool
        ensures { result ≡ has_no_disk self.now }
    {
        self.read_only == 0 && self.sectors == 0 && are_zero_bytes(&self.id)
    }
}

/// Whether a longest frame is that of a network device without an MTU: 1,514 bytes, which 0 says too.
pub(crate) fn is_usual_frame(frame: u32) -> bool
    ensures { result ≡ is_usual_frame frame }
{
    frame == 0 || frame == USUAL_FRAME
}

fn is_known(kind: u8) -> bool
    ensures { result ≡ is_known kind }
{
    kind == 1 || kind == 2 || kind == 3 || kind == 4 || kind == BLOCK_OUTSIDE
}

fn are_zero_bytes(bytes: &[u8]) -> bool
    ensures { result ≡ are_zeros bytes.now }
{
    for byte in bytes {
        if *byte != 0 {
            return false;
        }
    }
    true
}

/// Whether all words are 0.
pub fn are_zeros(words: &[u64]) -> bool
    ensures { result ≡ are_zeros words.now }
{
    for word in words {
        if *word != 0 {
            return false;
        }
    }
    true
}
