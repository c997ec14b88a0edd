//! Which request the answer of a call is for.
//!
//! The kind and the first sector are enough: no place is kept, which would have to be followed as requests end, and no count is
//! compared, since an answer may come in parts.

ghost use Rattle.std.specs.Prelude.{◌≡◌, ◌<◌, length};
ghost use Rattle.blk.specs.Outside.{disk_call_at};
ghost use Rattle.disk_calls.specs.Calls.{AreWithin};
ghost use Rattle.disk_calls.specs.Handing.{asker, begins_as, code_of};

use blk::{DiskCall, Request, What};

/// The request that the answer of a call is for, by its place from 0: the first one that asks for the same to be done from the same
/// sector on.
#[tactic(auto, using(crate::proofs::Asking::asker_first, crate::proofs::Asking::asker_none))]
pub fn asker(requests: &[Request], call: &DiskCall) -> Option<usize>
    requires { AreWithin requests.now }
    ensures { result ≡ asker requests.now call.now }
{
    for k in 0..requests.len() {
        if begins_as(call, disk_call_at(requests, k)) {
            return Some(k);
        }
    }
    None
}

/// What the k-th request, from 0, asks of its disk.
fn disk_call_at(requests: &[Request], k: usize) -> Option<DiskCall>
    requires within { AreWithin requests.now }
    requires there { k < length requests.now }
    ensures { result ≡ disk_call_at requests.now k }
{
    requests[k].disk_call()
}

/// Whether what a request asks for begins as a call does.
fn begins_as(call: &DiskCall, asked: Option<DiskCall>) -> bool
    ensures { result ≡ begins_as call.now asked }
{
    match asked {
        Some(asked) => code_of(asked.what) == code_of(call.what) && asked.first == call.first,
        None => false,
    }
}

/// A number for each thing that a disk can be asked to do.
fn code_of(what: What) -> u8
    ensures { result ≡ code_of what }
{
    match what {
        What::Read => 1,
        What::Write => 2,
        What::Clear => 3,
        What::Flush => 4,
    }
}
