//! What the host has put in for the guest to take.
//!
//! Room for all frames that may wait is made with it, for 64 of 1,514 bytes 98 KB, and no more for longer ones, of which fewer may
//! wait: so a frame that the host puts in is never refused memory, and a step copies it once, into guest memory. A frame for which
//! there is no room is not kept, and `Accepted(0)` reports that: the oldest are not given up for it. A frame waits after its header,
//! so a guest gets both in one copy.

ghost use Rattle.std.specs.Prelude.{◌≡◌, ◌≤◌, All, IfOk, length};
ghost use Rattle.std.specs.Vec.{vec_capacity};
ghost use Rattle.net.specs.Kept.{HasRoom};

use crate::frame::Frame;
use crate::limits::{FRAME_MIN, INBOX_MAX, most_waiting};
use circular_buffer::HeapCircularBuffer;
use guestmem::{NoMemory, recall_bytes};
use std::alloc::Global;
use std::marker::Model;

/// Frames that the host has put in and the guest has not yet taken, the oldest first. Its room is made with it, so putting frames in
/// and taking them out takes no memory.
#[derive(Drop)]
pub struct Inbox {
    longest: u16,
    frames: HeapCircularBuffer<Frame>,

    /// The rooms in which no frame is.
    spare: Vec<Frame>,
}

impl Model for Inbox {
    ghost use Rattle.std.specs.Prelude.{map};
    ghost use Rattle.std.specs.Vec.{vec_capacity};
    ghost use Rattle.net.specs.Inbox.{Inbox};
    ghost use Rattle.net.specs.Kept.{AreKept, bytes_of};

    ghost Value = { Inbox };

    ghost view = { λ b. record { longest = b.longest; frames = map bytes_of b.frames.items } };

    ghost invariant = { λ b. AreKept b.longest b.frames.capacity b.frames.items b.spare.items (vec_capacity b.spare) };
}

impl Inbox {
    ghost use Rattle.std.specs.Prelude.{◌≡◌, ◌≤◌, ◌<◌, ◌==◌, ℕ, List, ◌++◌, length, drop, All, IfOk, slice_get, Some};
    ghost use Rattle.net.specs.Header.{header};
    ghost use Rattle.net.specs.Inbox.{IsFrame, kept_of, frames_with, most_waiting, no_frames};

    /// No frames, of which the longest may have `longest` bytes. Its only error is out of memory.
    pub fn new(alloc: Global, longest: u16) -> Result<Inbox, NoMemory>
        ensures { IfOk result (λ inbox. inbox ≡ no_frames longest) }
    {
        let most = most_waiting(longest);
        let frames = HeapCircularBuffer::with_capacity(alloc, most)?;
        let spare = new_rooms(alloc, longest, most)?;
        Ok(Inbox {
            longest,
            frames,
            spare,
        })
    }

    /// States for proofs what holds of all frames held (see the page of `guestmem`).
    pub fn recall(&self)
        ensures few { length self.now.frames ≤ most_waiting self.now.longest }
        ensures frames { All (IsFrame self.now.longest) self.now.frames }
    {
        prove!(self.frames.len() <= self.frames.capacity());
    }

    /// The most bytes that a frame may have.
    pub fn longest(&self) -> u16
        ensures { result ≡ self.now.longest }
    {
        self.longest
    }

    /// How many frames there are: at most `INBOX_MAX`.
    pub fn len(&self) -> usize
        ensures len { result ≡ length self.now.frames }
        ensures few { result ≤ INBOX_MAX }
    {
        self.frames.len()
    }

    /// Whether there are none.
    pub fn is_empty(&self) -> bool
        ensures { result ≡ (length self.now.frames == 0) }
    {
        self.frames.is_empty()
    }

    /// Adds a frame after the others, and returns its length. A full inbox keeps none of it, and the result is 0.
    pub fn push(&mut self, frame: &[u8]) -> usize
        requires long { FRAME_MIN ≤ length frame.now }
        requires short { length frame.now ≤ self.old.longest }
        ensures count { result ≡ kept_of self.old frame.now }
        ensures frames { self.new ≡ record self.old { frames = frames_with self.old frame.now } }
    {
        let Some(mut room) = self.spare.pop() else {
            return 0;
        };
        recall_bytes(frame);
        room.fill(frame);
        self.frames.push_back(room);
        frame.len()
    }

    /// Drops all frames.
    pub fn clear(&mut self)
        ensures { self.new ≡ no_frames self.old.longest }
    {
        for _ in 0..self.len() {
            self.remove_first();
        }
    }

    /// The bytes of the frame of this number; the oldest one has the number 0.
    pub fn frame(&self, number: usize) -> &[u8]
        requires { number < length self.now.frames }
        ensures bytes { slice_get self.now.frames number ≡ Some result.now }
        ensures frame { IsFrame self.now.longest result.now }
    {
        match self.frames.get(number) {
            Some(frame) => frame.as_slice(),
            None => &[],
        }
    }

    /// The header that the guest gets before a frame, and the oldest frame.
    pub(crate) fn first_with_header(&self) -> &[u8]
        requires { 0 < length self.now.frames }
        ensures { (frame : List ℕ) → slice_get self.now.frames 0 ≡ Some frame → result.now ≡ header ++ frame }
    {
        match self.frames.get(0) {
            Some(frame) => frame.with_header(),
            None => &[],
        }
    }

    /// Takes out the oldest frame, if there is one.
    pub(crate) fn remove_first(&mut self)
        ensures { self.new ≡ record self.old { frames = drop 1 self.old.frames } }
    {
        if let Some(frame) = self.frames.pop_front() {
            self.spare.push_reserved(frame);
        }
    }
}

/// Rooms for `count` frames. Its only error is out of memory.
fn new_rooms(alloc: Global, longest: u16, count: usize) -> Result<Vec<Frame>, NoMemory>
    ensures each { IfOk result (λ rooms. length rooms.items ≡ count) }
    ensures placed { IfOk result (λ rooms. count ≤ vec_capacity rooms) }
    ensures rooms { IfOk result (λ rooms. All (HasRoom longest) rooms.items) }
{
    let mut rooms = Vec::with_capacity(alloc, count)?;
    for _room in 0..count {
        rooms.push_reserved(Frame::new(alloc, longest)?);
    }
    Ok(rooms)
}
