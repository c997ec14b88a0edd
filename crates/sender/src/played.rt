//! The result of playing a list of live events.

use crate::event::LiveReply;
use machine::{Disk, Machine};
use wire::Sink;

/// The result of playing a list of live events: the machine, the writer and a reply for each event.
#[derive(Drop)]
pub struct Replay<D: Disk, W: Sink> {
    /// The machine as it then is.
    pub machine: Machine<D>,

    /// The writer, with all that was written.
    pub out: W,

    /// The reply to each event. There is none if memory was refused.
    pub replies: Vec<LiveReply>,
}
