//! The description of a handle, or of a stream.

ghost use Rattle.std.specs.Prelude.{◌≡◌, ◌≤◌, ◌++◌, drop, length, map};
ghost use Rattle.machine.specs.declared.machine.TheConstants.{DEVICES_MAX};
ghost use Rattle.c_machine.specs.Description.{described, message_for, message_of, nothing_told, with_shapes};

use crate::device_shape::DeviceShape;
use machine::{DEVICES_MAX, Shape};

/// The most bytes that a step of any device may send.
pub const SENT_MAX: usize = 65_536;

/// The most bytes of a frame.
pub const FRAME_MAX: usize = 1_514;

/// What a handle has, or what a stream announces. What is not known, or not of this state, is 0.
#[derive(Clone, Copy)]
#[repr(C)]
pub struct Description {
    /// One of the states.
    pub state: u32,

    /// 1 while RAM is lent.
    pub lent: u32,

    /// The pages of RAM.
    pub pages: u32,

    /// How many devices there are.
    pub count: u32,

    /// The guest-physical address at which RAM begins.
    pub base: u64,

    /// What it was made, or let arrive, with: any of `LARGE` and `LOG`; and `TOLD` while it arrives, where its host tells the digest.
    pub flags: u32,

    /// How many calls of disks outside were handed out and are not answered.
    pub calls_out: u32,

    /// Of a machine that is being sent the round that is open; of one that arrives how many ended.
    pub rounds: u32,

    /// Of a failed arrival or send the status that was returned first.
    pub fault: u32,

    /// Of a failed arrival the bytes of the stream before the piece that was refused.
    pub fault_at: u64,

    /// How many slots a release needs.
    pub images: u32,

    /// Bit d for device d: its disk was lost.
    pub lost: u32,

    /// The size of a buffer that is enough for every step.
    pub message: u32,

    /// 1 once the stream of a machine that arrives has ended.
    pub whole: u32,

    /// Zeros, reserved for later versions.
    pub reserved: [u64; 4],

    /// What the devices were made as, in order; zeros after them.
    pub shapes: [DeviceShape; DEVICES_MAX],
}

impl Description {
    /// That of nothing: zeros.
    pub fn none() -> Description
        ensures { result ≡ nothing_told }
    {
        Description {
            state: 0,
            lent: 0,
            pages: 0,
            count: 0,
            base: 0,
            flags: 0,
            calls_out: 0,
            rounds: 0,
            fault: 0,
            fault_at: 0,
            images: 0,
            lost: 0,
            message: 0,
            whole: 0,
            reserved: [0; 4],
            shapes: [DeviceShape::none(); DEVICES_MAX],
        }
    }

    /// As it is, with these pages and devices.
    pub fn with_shapes(self, pages: u32, shapes: &[Shape]) -> Description
        requires { length shapes.now ≤ DEVICES_MAX }
        ensures { result ≡ with_shapes self pages shapes.now }
    {
        let mut told = self;
        tell_shapes(&mut told.shapes, shapes);
        told.pages = pages;
        told.count = shapes.len() as u32;
        told
    }
}

/// Tells of devices at the front of the list.
#[tactic(auto, using(crate::proofs::ToldShapes::told_more))]
fn tell_shapes(told: &mut [DeviceShape], shapes: &[Shape])
    requires { length shapes.now ≤ length told.old }
    ensures { told.new ≡ map described shapes.now ++ drop (length shapes.now) told.old }
{
    for at in 0..shapes.len() {
        told[at] = DeviceShape::of(shapes[at]);
    }
}

/// The size of a buffer that is enough for every step of such devices.
#[tactic(auto, using(crate::proofs::ToldShapes::more_most, crate::proofs::ToldShapes::all_most))]
pub fn message_of(shapes: &[Shape]) -> u32
    ensures { result ≡ message_of shapes.now }
{
    let mut most = 0;
    for shape in shapes {
        most = most.max(message_for(*shape));
    }
    most
}

fn message_for(shape: Shape) -> u32
    ensures { result ≡ message_for shape }
{
    match shape {
        Shape::Net { .. } => FRAME_MAX as u32,
        Shape::LongNet { longest, .. } => longest as u32,
        Shape::Console => SENT_MAX as u32,
        Shape::Block { .. } | Shape::Outside { .. } | Shape::Entropy => 0,
    }
}
