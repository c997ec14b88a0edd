//! A sink that holds what it was given.

ghost use Rattle.std.specs.Prelude.{true};

use std::alloc::Global;
use vmig::{Sink, SinkFault};

/// A list of bytes. Where memory is refused it fails.
#[derive(Drop)]
pub struct OwnSink {
    pub bytes: Vec<u8>,
    pub failures: u64,
    pub is_flushed: bool,
}

impl OwnSink {
    /// An empty list.
    pub fn new(alloc: Global) -> OwnSink {
        OwnSink {
            bytes: Vec::new(alloc),
            failures: 0,
            is_flushed: false,
        }
    }
}

impl Sink for OwnSink {
    ghost state = { λ s. record { held = s.bytes.items; failures = s.failures; honest = true; is_flushed = s.is_flushed } };

    fn put(&mut self, bytes: &[u8]) -> Result<(), SinkFault> {
        self.is_flushed = false;
        if self.bytes.extend_from_slice(bytes).is_err() {
            self.failures = self.failures.wrapping_add(1);
            return Err(SinkFault);
        }
        Ok(())
    }

    fn flush(&mut self) -> Result<(), SinkFault> {
        self.is_flushed = true;
        Ok(())
    }
}
