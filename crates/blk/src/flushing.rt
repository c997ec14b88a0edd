//! Flushes that fail without a call of the disk.

ghost use Rattle.std.specs.Prelude.{◌≡◌};
ghost use Rattle.blk.specs.Flush.{flush_failed, flushes, flushes_at};

use crate::block::Block;
use crate::request::{Kind, Request, Verdict};

impl Request {
    /// Whether its next unit flushes the disk.
    pub(crate) fn flushes(&self) -> bool
        ensures { result ≡ flushes self.now }
    {
        match self.kind {
            Kind::Flush => self.is_open(),
            Kind::Refused | Kind::In | Kind::Out | Kind::GetId | Kind::Zero => false,
        }
    }
}

impl Block {
    /// Fails the k-th outstanding request, from 0, if it flushes the disk next: it is then as after a flush that the disk did not do.
    /// No disk is called. The result says whether it was such a request; if not, nothing has changed.
    pub fn fail_flush(&mut self, k: usize) -> bool
        ensures flushed { result ≡ flushes_at self.old k }
        ensures block { self.new ≡ flush_failed self.old k }
    {
        let requests = &mut self.requests.list;
        if k >= requests.len() || !requests[k].flushes() {
            return false;
        }
        requests[k].verdict = Verdict::IoError;
        true
    }
}
