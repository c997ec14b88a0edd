//! How long the frames of devices are.

ghost use Rattle.std.specs.Prelude.{◌≡◌};
ghost use Rattle.c_machine.specs.Frames.{has_longer_frames, is_longer, long_frame, longest_frame};
ghost use Rattle.c_machine.specs.Making.{shapes_of};

use crate::device_shape::DeviceShape;
use machine::Shape;

/// Whether one of these network devices is for longer frames than of `most` bytes. A device of 1,514 is not asked.
pub fn has_longer_frames(most: u32, shapes: &[Shape]) -> bool
    ensures { result ≡ has_longer_frames most shapes.now }
{
    for shape in shapes {
        if is_longer(most, *shape) {
            return true;
        }
    }
    false
}

fn is_longer(most: u32, shape: Shape) -> bool
    ensures { result ≡ is_longer most shape }
{
    match shape {
        Shape::LongNet { longest, .. } => longest as u32 > most,
        Shape::Net { .. }
        | Shape::Block { .. }
        | Shape::Outside { .. }
        | Shape::Console
        | Shape::Entropy => false,
    }
}

/// The bytes of the longest frame that one of these network devices is for, if one is for long ones; else 0.
#[tactic(auto, using(crate::proofs::LongestFrames::more_named, crate::proofs::LongestFrames::all_named))]
pub(crate) fn longest_frame_of(shapes: &[DeviceShape]) -> u32
    ensures { result ≡ longest_frame (shapes_of shapes.now) }
{
    let mut most = 0;
    for shape in shapes {
        most = most.max(long_frame(shape.shape()));
    }
    most
}

/// The bytes of the longest frame of a network device for long ones; 0 of another device.
fn long_frame(shape: Shape) -> u32
    ensures { result ≡ long_frame shape }
{
    match shape {
        Shape::LongNet { longest, .. } => longest as u32,
        Shape::Net { .. }
        | Shape::Block { .. }
        | Shape::Outside { .. }
        | Shape::Console
        | Shape::Entropy => 0,
    }
}
