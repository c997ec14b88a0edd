//! How many sectors disks outside have.

ghost use Rattle.std.specs.Prelude.{◌≡◌};
ghost use Rattle.c_machine.specs.Making.{shapes_of};
ghost use Rattle.c_machine.specs.Outside.{largest_outside, sectors_outside};

use crate::device_shape::DeviceShape;
use machine::Shape;

/// The sectors of the largest disk outside of these devices; 0 where there is none.
#[tactic(auto, using(crate::proofs::LargestDisks::more_largest, crate::proofs::LargestDisks::all_largest))]
pub fn largest_outside(shapes: &[Shape]) -> u64
    ensures { result ≡ largest_outside shapes.now }
{
    let mut most = 0;
    for shape in shapes {
        most = most.max(sectors_outside(*shape));
    }
    most
}

/// As above, of devices as C names them.
#[tactic(auto, using(crate::proofs::LargestDisks::more_named, crate::proofs::LargestDisks::all_named))]
pub(crate) fn largest_outside_of(shapes: &[DeviceShape]) -> u64
    ensures { result ≡ largest_outside (shapes_of shapes.now) }
{
    let mut most = 0;
    for shape in shapes {
        most = most.max(sectors_outside(shape.shape()));
    }
    most
}

/// The sectors of a disk outside; 0 of a device without one.
fn sectors_outside(shape: Shape) -> u64
    ensures { result ≡ sectors_outside shape }
{
    match shape {
        Shape::Outside { sectors, .. } => sectors,
        Shape::Net { .. }
        | Shape::LongNet { .. }
        | Shape::Block { .. }
        | Shape::Console
        | Shape::Entropy => 0,
    }
}
