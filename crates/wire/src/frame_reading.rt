//! Decodes the frames in the body of a network device.

ghost use Rattle.std.specs.Prelude.{◌≡◌, ◌≤◌, IfOk, IfSome, MatchOption, None, Some, length};
ghost use Rattle.net.specs.Inbox.{Inbox, IsFrame, most_waiting};
ghost use Rattle.wire.specs.FrameReading.{frame_of};
ghost use Rattle.wire.specs.Several.{several};

use crate::numbers::{COUNT_LEN, u16_at};
use guestmem::{NoMemory, recall_bytes};
use net::{Inbox, is_frame_len};
use std::alloc::Global;

/// Decodes the first `count` frames; returns them and the bytes after them.
#[tactic(auto, using(crate::proofs::Lists::several_go_on, crate::proofs::Lists::several_fail, crate::proofs::Lists::several_end))]
pub fn frames_at(
    alloc: Global,
    longest: u16,
    count: u16,
    bytes: &[u8],
) -> Result<Option<(Inbox, &[u8])>, NoMemory>
    requires { count ≤ most_waiting longest }
    ensures { IfOk result (λ found. MatchOption found (several (frame_of longest) count bytes.now ≡ None) (λ x. (x.0.longest ≡ longest) × (several (frame_of longest) count bytes.now ≡ Some (x.0.frames, x.1.now)))) }
{
    let mut inbox = Inbox::new(alloc, longest)?;
    let mut rest = bytes;
    for _ in 0..count {
        let Some((frame, after)) = frame_at(longest, rest) else {
            return Ok(None);
        };
        inbox.push(frame);
        rest = after;
    }
    Ok(Some((inbox, rest)))
}

/// Decodes a length and the frame that follows it; returns the frame and the bytes after it.
#[tactic(auto, unfolding(crate::specs::FrameReading::frame_of))]
fn frame_at(longest: u16, bytes: &[u8]) -> Option<(&[u8], &[u8])>
    ensures read { MatchOption result (frame_of longest bytes.now ≡ None) (λ x. frame_of longest bytes.now ≡ Some (x.0.now, x.1.now)) }
    ensures frame { IfSome result (λ x. IsFrame longest x.0.now) }
{
    if bytes.len() < COUNT_LEN || !is_frame_len(longest, u16_at(bytes, 0) as usize) {
        return None;
    }
    let len = u16_at(bytes, 0) as usize;
    let (_, rest) = bytes.split_at(COUNT_LEN);
    if rest.len() < len {
        return None;
    }
    let (frame, rest) = rest.split_at(len);
    recall_bytes(frame);
    Some((frame, rest))
}
