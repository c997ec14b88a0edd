//! A call that is out.

ghost use Rattle.std.specs.Prelude.{◌≡◌, ◌+◌, ◌≤◌};
ghost use Rattle.disk_calls.specs.Calls.{IsWithin};
ghost use Rattle.disk_calls.specs.Overlap.{is_flush, overlap};

use blk::{DiskCall, What};

/// A call that was handed out and is not answered yet.
#[derive(Clone, Copy, Debug, PartialEq, Eq)]
pub struct Out {
    /// Its number, which no other call ever has.
    pub number: u64,

    /// What it asks for.
    pub call: DiskCall,
}

/// Whether it is a flush.
pub(crate) fn is_flush(what: What) -> bool
    ensures { result ≡ is_flush what }
{
    match what {
        What::Flush => true,
        What::Read | What::Write | What::Clear => false,
    }
}

/// Whether two calls overlap, in blocks of `size` sectors. A flush overlaps flushes alone.
pub(crate) fn overlap(size: u32, a: &DiskCall, b: &DiskCall) -> bool
    requires size { 1 ≤ size }
    requires a { IsWithin a.now }
    requires b { IsWithin b.now }
    ensures { result ≡ overlap size a.now b.now }
{
    if is_flush(a.what) {
        return is_flush(b.what);
    }
    if is_flush(b.what) {
        return false;
    }
    let size = size as u64;
    a.first / size <= last_sector(b) / size && b.first / size <= last_sector(a) / size
}

/// The last sector of a call.
fn last_sector(call: &DiskCall) -> u64
    requires { IsWithin call.now }
    ensures { result + 1 ≡ call.now.first + call.now.count }
{
    call.first + (call.count - 1) as u64
}
