//! Frames.

ghost use Rattle.std.specs.Prelude.{◌≡◌, ◌≤◌, length};
ghost use Rattle.net.specs.Frame.{fits_mtu, is_tagged, may_take};
ghost use Rattle.net.specs.Inbox.{is_frame_len};

use crate::header::{HEADER, HEADER_SIZE};
use crate::limits::{FRAME_MAX, FRAME_MIN};
use crate::shape::mtu_of;
use guestmem::NoMemory;
use std::alloc::Global;
use std::marker::Model;

/// A frame, after the header that the guest gets with it: so both are one slice. Its room is made with it, and the header is written
/// once.
#[derive(Drop)]
pub(crate) struct Frame {
    room: Vec<u8>,
}

impl Model for Frame {
    ghost use Rattle.std.specs.Prelude.{◌≡◌, ◌-◌, ◌≤◌, ◌++◌, drop};
    ghost use Rattle.std.specs.Vec.{vec_capacity};
    ghost use Rattle.net.specs.Header.{header};
    ghost use Rattle.net.specs.Kept.{Kept};
    ghost use Rattle.net.specs.declared.header.TheConstants.{HEADER_SIZE};

    ghost Value = { Kept };

    ghost view = { λ f. record { bytes = drop HEADER_SIZE f.room.items; room = vec_capacity f.room - HEADER_SIZE } };

    ghost invariant = { λ f. (HEADER_SIZE ≤ vec_capacity f.room) × (f.room.items ≡ header ++ drop HEADER_SIZE f.room.items) };
}

impl Frame {
    ghost use Rattle.std.specs.Prelude.{◌≡◌, ◌≤◌, ◌++◌, IfOk, length};
    ghost use Rattle.net.specs.Header.{header};
    ghost use Rattle.net.specs.Kept.{HasRoom};

    /// A frame of no bytes, with room for one of `longest`. Its only error is out of memory.
    pub(crate) fn new(alloc: Global, longest: u16) -> Result<Frame, NoMemory>
        ensures { IfOk result (λ frame. HasRoom longest frame) }
    {
        let mut room = Vec::with_capacity(alloc, HEADER_SIZE + longest as usize)?;
        room.extend_from_slice(&HEADER).unwrap();
        Ok(Frame { room })
    }

    /// Becomes a frame of these bytes. It takes no memory.
    pub(crate) fn fill(&mut self, bytes: &[u8])
        requires { length bytes.now ≤ self.old.room }
        ensures bytes { self.new.bytes ≡ bytes.now }
        ensures room { self.old.room ≤ self.new.room }
    {
        self.room.truncate(HEADER_SIZE);
        self.room.extend_from_slice(bytes).unwrap();
    }

    /// The bytes.
    pub(crate) fn as_slice(&self) -> &[u8]
        ensures { result.now ≡ self.now.bytes }
    {
        let (_, bytes) = self.room.as_slice().split_at(HEADER_SIZE);
        bytes
    }

    /// The header and the bytes, as the guest gets them.
    pub(crate) fn with_header(&self) -> &[u8]
        ensures { result.now ≡ header ++ self.now.bytes }
    {
        self.room.as_slice()
    }
}

/// Whether a frame of a device can have `len` bytes, where its longest has `longest`.
pub fn is_frame_len(longest: u16, len: usize) -> bool
    ensures { result ≡ is_frame_len longest len }
{
    len >= FRAME_MIN && len <= longest as usize
}

/// Whether a device takes a frame, where its longest has `longest` bytes: it has a length that a frame of the device can have, and its payload
/// is no longer than the MTU that the device offers, if it offers one (VIRTIO 1.2, 5.1.4.1).
pub fn may_take(longest: u16, frame: &[u8]) -> bool
    ensures { result ≡ may_take longest frame.now }
{
    is_frame_len(longest, frame.len()) && fits_mtu(longest, frame)
}

fn fits_mtu(longest: u16, frame: &[u8]) -> bool
    requires { FRAME_MIN ≤ length frame.now }
    ensures { result ≡ fits_mtu longest frame.now }
{
    longest <= FRAME_MAX || frame.len() <= mtu_of(longest) as usize + FRAME_MIN || is_tagged(frame)
}

/// Whether a VLAN tag follows the two addresses: 0x8100, or 0x88a8 of a service's VLAN (IEEE 802.1Q, 9.5).
fn is_tagged(frame: &[u8]) -> bool
    requires { FRAME_MIN ≤ length frame.now }
    ensures { result ≡ is_tagged frame.now }
{
    let tag = (frame[12], frame[13]);
    tag == (0x81, 0) || tag == (0x88, 0xa8)
}
