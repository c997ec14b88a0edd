//! Writes frames to a sink.

ghost use Rattle.std.specs.Prelude.{◌≡◌, ◌≤◌, OnOk, length};
ghost use Rattle.std.specs.List.{flat_map};
ghost use Rattle.net.specs.declared.limits.TheConstants.{FRAME_GREATEST};
ghost use Rattle.wire.specs.FrameText.{frame_text, frames_text};
ghost use Rattle.wire.specs.Sinks.{Appends, Takes};

use crate::numbers::{COUNT_LEN, count_bytes};
use crate::sink::{Sink, SinkFault};
use net::{FRAME_GREATEST, Inbox};

/// Writes the count of the frames, then each frame.
pub fn write_frames<S: Sink>(inbox: &Inbox, out: &mut S) -> Result<(), SinkFault>
    ensures out { Appends (S.state out.old) (frames_text inbox.now.frames) result (S.state out.new) }
    ensures taken { OnOk result (Takes (S.sum out.old) (frames_text inbox.now.frames) (S.sum out.new)) }
{
    out.put(&count_bytes(inbox.len() as u16))?;
    write_each(inbox, out)
}

#[tactic(auto, using(crate::proofs::Saving::text_found))]
fn write_each<S: Sink>(inbox: &Inbox, out: &mut S) -> Result<(), SinkFault>
    ensures out { Appends (S.state out.old) (flat_map frame_text inbox.now.frames) result (S.state out.new) }
    ensures taken { OnOk result (Takes (S.sum out.old) (flat_map frame_text inbox.now.frames) (S.sum out.new)) }
{
    prove!(inbox.longest() <= FRAME_GREATEST);
    for i in 0..inbox.len() {
        write_frame(inbox.frame(i), out)?;
    }
    Ok(())
}

/// Writes the length of a frame, then the frame.
#[tactic(auto, unfolding(crate::specs::FrameText::frame_text))]
fn write_frame<S: Sink>(frame: &[u8], out: &mut S) -> Result<(), SinkFault>
    requires { length frame.now ≤ FRAME_GREATEST }
    ensures out { Appends (S.state out.old) (frame_text frame.now) result (S.state out.new) }
    ensures taken { OnOk result (Takes (S.sum out.old) (frame_text frame.now) (S.sum out.new)) }
{
    out.put(&count_bytes(frame.len() as u16))?;
    out.put(frame)
}

/// The encoded length of the frames, with their count.
pub fn frames_len(inbox: &Inbox) -> u32
    ensures { result ≡ length (frames_text inbox.now.frames) }
{
    prove!(inbox.longest() <= FRAME_GREATEST);
    let mut len = COUNT_LEN;
    for i in 0..inbox.len() {
        len += COUNT_LEN + inbox.frame(i).len();
    }
    len as u32
}
