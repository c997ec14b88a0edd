//! What a trace holds, and why a text is not a trace.

ghost use Rattle.std.specs.Prelude.{◌≡◌};
ghost use Rattle.traces.specs.Trace.{trace_code_of};
ghost use Rattle.traces.specs.declared.trace.TraceError.TheVariants.{NoMemory};

use machine::Shape;
use sender::LiveEvent;
use std::alloc::{AllocError, AllocFailed};
use thiserror::Error;

/// A machine's shape, and what happens to it while it may be migrated.
#[derive(Drop)]
pub struct Trace {
    /// The pages of its RAM, of 4,096 bytes each. A trace may have any number; `Machine::new` says which it accepts.
    pub pages: u32,

    /// Its devices, 1 to 16 of them, in their order.
    pub shapes: Vec<Shape>,

    /// The events, in their order.
    pub events: Vec<LiveEvent>,

    /// The number of the line of the first `begin`, counted from 1, or 0 where there is none.
    pub begin_line: u64,
}

/// Why a text is not a trace.
#[derive(Clone, Copy, Debug, Drop, PartialEq, Eq, Error)]
pub enum TraceError {
    /// The first line that is not allowed where it is, counted from 1. If a text ends too early it is the line that is
    /// missing: one after the last.
    #[error("invalid trace: line {0}")]
    Line(u64),

    /// Memory was refused.
    #[error("out of memory")]
    NoMemory,
}

impl TraceError {
    /// The number that stands for it.
    pub fn code(self) -> u8
        ensures { result ≡ trace_code_of self }
    {
        match self {
            TraceError::Line(_) => 1,
            TraceError::NoMemory => 2,
        }
    }
}

impl From<AllocError> for TraceError {
    ghost from_gives = { λ _ e. e ≡ NoMemory };

    fn from(_error: AllocError) -> TraceError {
        TraceError::NoMemory
    }
}

impl<T: Drop> From<AllocFailed<T>> for TraceError {
    ghost from_gives = { λ _ e. e ≡ NoMemory };

    fn from(_error: AllocFailed<T>) -> TraceError {
        TraceError::NoMemory
    }
}
