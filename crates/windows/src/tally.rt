//! How many steps of each device did what.

use crate::guest::DEVICES;
use crate::stepping::Made;
use machine::{Stepped, Work};
use std::fmt;

/// How many steps of a device did what.
#[derive(Clone, Copy, Debug)]
pub struct Counts {
    /// All steps.
    pub steps: u64,

    /// Those that published a chain.
    pub published: u64,

    /// Those that raised the interrupt.
    pub raised: u64,

    /// Those that published a chain and were open in one of the hosts.
    pub open: u64,

    /// Those that one host ended by raising the interrupt.
    pub ended: u64,
}

impl fmt::Display for Counts {
    fn fmt<W: fmt::Write>(&self, f: &mut fmt::Formatter<W>) -> fmt::Result {
        let (steps, published, raised) = (self.steps, self.published, self.raised);
        let (open, ended) = (self.open, self.ended);
        write!(
            f,
            "{steps} steps, {published} published, {raised} raised, {open} open, {ended} ended"
        )
    }
}

/// What steps answered that the guests here can bring about.
pub const ANSWERS: [&str; 9] = [
    "nothing to do",
    "a request is taken",
    "a request is moved",
    "a bad sector",
    "a disk that failed",
    "a chain is completed",
    "a message is sent",
    "a frame is dropped",
    "a reset is asked for",
];

/// The number of an answer among these. Others have none.
fn number_of(stepped: Stepped) -> usize {
    match stepped {
        Stepped::Idle => 0,
        Stepped::Taken => 1,
        Stepped::Moved => 2,
        Stepped::BadSector => 3,
        Stepped::DiskFailed => 4,
        Stepped::Completed(_) => 5,
        Stepped::Sent => 6,
        Stepped::Dropped => 7,
        Stepped::NeedsReset => 8,
        Stepped::NoMemory | Stepped::Refused(_) => ANSWERS.len(),
    }
}

/// How many steps of all devices did what.
#[derive(Clone, Copy, Debug)]
pub struct Tally {
    /// The counts of each device.
    pub devices: [Counts; DEVICES],

    /// How many steps had each of the answers.
    pub answers: [u64; ANSWERS.len()],

    /// All steps.
    pub steps: u64,
}

impl Tally {
    /// No step yet.
    pub const NONE: Tally = Tally {
        devices: [Counts {
            steps: 0,
            published: 0,
            raised: 0,
            open: 0,
            ended: 0,
        }; DEVICES],
        answers: [0; ANSWERS.len()],
        steps: 0,
    };

    /// A step went so.
    pub fn count(&mut self, work: Work, made: Made) {
        self.steps = self.steps.saturating_add(1);
        if let Some(count) = self.answers.get_mut(number_of(made.stepped)) {
            *count = count.saturating_add(1);
        }
        let Some(counts) = self.devices.get_mut(work.dev as usize) else {
            return;
        };
        let is_open = made.is_open && made.stepped.has_published();
        let ended = is_open && made.is_raised;
        counts.steps = counts.steps.saturating_add(1);
        counts.published = counts
            .published
            .saturating_add(made.stepped.has_published() as u64);
        counts.raised = counts.raised.saturating_add(made.is_raised as u64);
        counts.open = counts.open.saturating_add(is_open as u64);
        counts.ended = counts.ended.saturating_add(ended as u64);
    }
}
