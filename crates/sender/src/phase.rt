//! How far a migration has come.
//!
//! A migration that failed refuses each of its calls alike, so a host that continues to copy after a failure learns it each
//! time. One that is stopped also refuses the guest's events.

/// How far a migration has come.
#[derive(Clone, Copy, Debug, PartialEq, Eq)]
pub enum Phase {
    /// It was not begun.
    Fresh,

    /// This round is open.
    Open(u32),

    /// The stream is closed.
    Stopped,

    /// The writer failed.
    Failed,
}
