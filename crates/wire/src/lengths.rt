//! How many bytes the parts of a stream have.

ghost use Rattle.std.specs.Prelude.{◌≡◌, ◌≤◌, All, ℕ, length};
ghost use Rattle.machine.specs.Sound.{IsSoundDevice, IsSoundShape};
ghost use Rattle.wire.specs.DeviceBody.{body};
ghost use Rattle.wire.specs.Header.{Opening, header, spelled_shape};
ghost use Rattle.wire.specs.Records.{device, page_record, spelled_record};

use crate::header::FRONT_LEN;
use crate::record_head::{DEVICE_HEAD, PAGE_RECORD, ZERO_PAGE_RECORD};
use crate::shape_spelling::{
    BLOCK_SHAPE, CONSOLE_SHAPE, ENTROPY_SHAPE, LONG_NET_SHAPE, NET_SHAPE, OUTSIDE_SHAPE,
};
use crate::writing::body_len;
use guestmem::is_zero;
use machine::{DeviceState, Shape};

/// The length of the header of a machine with these devices.
pub fn header_len(shapes: &[Shape]) -> u64
    requires few { length shapes.now ≤ 16 }
    requires sound { All IsSoundShape shapes.now }
    ensures len { (opening : Opening) → opening.shapes ≡ shapes.now → result ≡ length (header opening) }
    ensures short { result ≤ 496 }
{
    let mut len = FRONT_LEN as u64;
    for i in 0..shapes.len() {
        len += spelled_len(shapes[i]);
    }
    len
}

#[tactic(auto, unfolding(crate::specs::Header::spelled_shape))]
fn spelled_len(shape: Shape) -> u64
    requires { IsSoundShape shape }
    ensures len { result ≡ length (spelled_shape shape) }
    ensures short { result ≤ 30 }
{
    match shape {
        Shape::Net { .. } => NET_SHAPE as u64,
        Shape::LongNet { .. } => LONG_NET_SHAPE as u64,
        Shape::Block { .. } => BLOCK_SHAPE as u64,
        Shape::Outside { .. } => OUTSIDE_SHAPE as u64,
        Shape::Console => CONSOLE_SHAPE as u64,
        Shape::Entropy => ENTROPY_SHAPE as u64,
    }
}

/// The length of the record of a page, as it is written: shorter if its bytes are all 0.
pub fn page_len(bytes: &[u8; 4096]) -> u64
    ensures len { (number : ℕ) → result ≡ length (spelled_record (page_record 2 number bytes.now)) }
    ensures short { result ≤ 4101 }
{
    if is_zero(bytes) {
        return ZERO_PAGE_RECORD as u64;
    }
    PAGE_RECORD as u64
}

/// The length of the record of a device.
pub fn device_len(state: &DeviceState) -> u64
    requires sound { (base : ℕ) × (ram_len : ℕ) × IsSoundDevice base ram_len state.now }
    ensures len { (number : ℕ) → result ≡ length (spelled_record (device number (body state.now))) }
    ensures short { result ≤ 131078 }
{
    DEVICE_HEAD as u64 + body_len(state) as u64
}
