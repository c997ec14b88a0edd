//! The events of a machine that is being migrated, and their replies.

use crate::mig_error::MigError;
use machine::{Event, Reply};

/// What is sent as one record.
#[derive(Clone, Copy, Debug, PartialEq, Eq)]
pub enum Item {
    /// A page of RAM, by its number.
    Page(u32),

    /// A sector of the disk of a device.
    Sector {
        /// The number of the device.
        dev: u8,

        /// The number of the sector on its disk.
        sector: u32,
    },
}

/// One event of a machine that is being migrated.
#[derive(Debug, Drop, PartialEq, Eq)]
pub enum LiveEvent {
    /// What the guest or the host does to the machine.
    Guest(Event),

    /// The migration begins.
    Begin,

    /// One item is sent.
    Copy,

    /// A round ends.
    EndRound,

    /// The machine is paused, and the rest is sent.
    Stop,
}

/// The result of a copy.
#[derive(Clone, Copy, Debug, PartialEq, Eq)]
pub enum CopyAnswer {
    /// This item was sent.
    Copied(Item),

    /// No item is due.
    RoundDone,
}

/// What is sent next, while RAM is lent.
#[derive(Clone, Copy, Debug, PartialEq, Eq)]
pub enum NextDue {
    /// This page.
    Page(u32),

    /// A sector.
    Sector,

    /// No item is due.
    Nothing,
}

/// The result of a copy of a sector, while RAM is lent.
#[derive(Clone, Copy, Debug, PartialEq, Eq)]
pub enum SectorAnswer {
    /// This sector was sent.
    Copied {
        /// The number of the device.
        dev: u8,

        /// The number of the sector on its disk.
        sector: u32,
    },

    /// This page is due before any sector. Nothing was sent.
    PageDue(u32),

    /// No item is due.
    RoundDone,
}

/// The result of the end of a round.
#[derive(Clone, Copy, Debug, PartialEq, Eq)]
pub enum End {
    /// The round of this number has begun.
    Begun(u32),

    /// An item is still due.
    RoundOpen,
}

/// The result of a stop: how many items it sent.
#[derive(Clone, Copy, Debug, PartialEq, Eq)]
pub struct Stopped {
    /// How many pages.
    pub pages: u64,

    /// How many sectors.
    pub sectors: u64,
}

/// How many items are still to be sent.
#[derive(Clone, Copy, Debug, PartialEq, Eq)]
pub struct Remaining {
    /// How many are due in this round.
    pub due: u64,

    /// How many were touched since they were sent, or since the round began.
    pub dirty: u64,
}

/// How many items of each kind are still to be sent.
#[derive(Clone, Copy, Debug, PartialEq, Eq)]
pub struct Left {
    /// How many pages are due in this round.
    pub due_pages: u64,

    /// How many sectors are due in this round.
    pub due_sectors: u64,

    /// How many pages were touched since they were sent, or since the round began.
    pub dirty_pages: u64,

    /// How many sectors were.
    pub dirty_sectors: u64,
}

/// The reply to a live event.
#[derive(Debug, Drop, PartialEq, Eq)]
pub enum LiveReply {
    /// The reply of the machine.
    Guest(Reply),

    /// The round of this number has begun.
    Begun(u32),

    /// This item was sent.
    Copied(Item),

    /// No item is due.
    RoundDone,

    /// An item is still due.
    RoundOpen,

    /// The stream is closed. The stop sent this many pages and sectors.
    Stopped {
        /// How many pages.
        pages: u64,

        /// How many sectors.
        sectors: u64,
    },

    /// The call was refused.
    Mig(MigError),
}
