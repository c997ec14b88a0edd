//! The calls of one device that are out.

ghost use Rattle.std.specs.Prelude.{ℕ, ◌≡◌, ◌≢◌, ◌+◌, ◌<◌, ◌≤◌, ◌++◌, ◌∷◌, [], None, Some, false, slice_get, All, IfOk, IfSome, length, vec_capacity};
ghost use Rattle.std.specs.List.{list_any, remove};
ghost use Rattle.blk.specs.Outside.{disk_call};
ghost use Rattle.blk.specs.declared.outside.DiskCall.{DiskCall};
ghost use Rattle.disk_calls.specs.Calls.{AreWithin, IsWithin, has_out};
ghost use Rattle.disk_calls.specs.Handing.{call_at, left_overlaps, may_hand_out};
ghost use Rattle.disk_calls.specs.Oldest.{IsOldestOf};
ghost use Rattle.disk_calls.specs.Overlap.{overlap};

use crate::oldest::older;
use crate::out::{Out, overlap};
use blk::{DiskCall, Request};
use guestmem::NoMemory;
use std::alloc::Global;
use std::marker::Model;

/// The most calls of one device that can be out.
pub const CALLS_MAX: usize = 8;

/// The calls of a device that are out, in the order of handing out. Room for all is made with it.
#[derive(Drop)]
pub struct DeviceCalls {
    size: u32,
    list: Vec<Out>,
}

impl Model for DeviceCalls {
    ghost use Rattle.std.specs.Prelude.{All, length, ◌≤◌, vec_capacity};
    ghost use Rattle.disk_calls.specs.Calls.{AreApart, CallsState, IsWithin};
    ghost use Rattle.disk_calls.specs.declared.device_calls.TheConstants.{CALLS_MAX};

    ghost Value = { CallsState };

    ghost view = { λ c. record { size = c.size; outs = c.list.items } };

    ghost invariant = { λ c. (1 ≤ c.size) × (length c.list.items ≤ CALLS_MAX) × (CALLS_MAX ≤ vec_capacity c.list) × All (λ out. IsWithin out.call) c.list.items × AreApart c.size c.list.items };
}

/// A request, and the call that is handed out for it.
#[derive(Clone, Copy, Debug, PartialEq, Eq)]
pub struct Wanted {
    /// The number of the request, from 0.
    pub k: usize,

    /// The call.
    pub call: DiskCall,
}

impl DeviceCalls {
    /// No calls out, over storage with blocks of `size` sectors. Its only error is out of memory.
    pub fn new(alloc: Global, size: u32) -> Result<DeviceCalls, NoMemory>
        requires { 1 ≤ size }
        ensures { IfOk result (λ calls. calls ≡ record { size = size; outs = [] }) }
    {
        let list = Vec::with_capacity(alloc, CALLS_MAX)?;
        Ok(DeviceCalls { size, list })
    }

    /// For proofs: a block of the storage has a sector at least.
    fn recall(&self)
        ensures { 1 ≤ self.now.size }
    {
        let _size = self.size;
    }

    /// Whether a call overlaps one that is out.
    fn overlaps_out(&self, call: &DiskCall) -> bool
        requires { IsWithin call.now }
        ensures { result ≡ list_any (λ out. overlap self.now.size out.call call.now) self.now.outs }
    {
        for out in &self.list {
            if overlap(self.size, &out.call, call) {
                return true;
            }
        }
        false
    }

    /// The call of the k-th request, from 0, cut to `most` sectors, if it may be handed out.
    fn call_at(&self, requests: &[Request], k: usize, most: u32) -> Option<DiskCall>
        requires there { k < length requests.now }
        requires some { 1 ≤ most }
        requires within { AreWithin requests.now }
        ensures call { result ≡ call_at self.now.size most self.now.outs requests.now k }
        ensures within { IfSome result (λ call. IsWithin call) }
    {
        let asked = requests[k].disk_call()?;
        let call = DiskCall {
            count: asked.count.min(most),
            ..asked
        };
        if !self.may_hand_out(&requests[..k], &call) {
            return None;
        }
        Some(call)
    }

    /// Whether a call may be handed out for the request after these.
    fn may_hand_out(&self, earlier: &[Request], call: &DiskCall) -> bool
        requires earlier { AreWithin earlier.now }
        requires call { IsWithin call.now }
        ensures { result ≡ may_hand_out self.now.size self.now.outs earlier.now call.now }
    {
        self.list.len() < CALLS_MAX
            && !self.overlaps_out(call)
            && !overlaps_left(self.size, earlier, call)
    }

    /// The first request whose call, cut to `most` sectors, may be handed out, and that call.
    pub fn next(&self, requests: &[Request], most: u32) -> Option<Wanted>
        requires some { 1 ≤ most }
        requires within { AreWithin requests.now }
        ensures some { IfSome result (λ next. call_at self.now.size most self.now.outs requests.now next.k ≡ Some next.call) }
        ensures part { IfSome result (λ next. (fewer : ℕ) → 1 ≤ fewer → fewer ≤ most → (part : DiskCall) × (call_at self.now.size fewer self.now.outs requests.now next.k ≡ Some part)) }
        ensures first { IfSome result (λ next. (j : ℕ) → j < next.k → call_at self.now.size most self.now.outs requests.now j ≡ None) }
        ensures none { result ≡ None → (j : ℕ) → call_at self.now.size most self.now.outs requests.now j ≡ None }
    {
        self.recall();
        for k in 0..requests.len() {
            if let Some(call) = self.call_at(requests, k, most) {
                return Some(Wanted { k, call });
            }
        }
        None
    }

    /// Keeps a call that may be handed out as out, under this number. It takes no memory.
    pub fn hand_out(&mut self, requests: &[Request], most: u32, next: Wanted, number: u64)
        requires some { 1 ≤ most }
        requires within { AreWithin requests.now }
        requires may { call_at self.old.size most self.old.outs requests.now next.k ≡ Some next.call }
        ensures { self.new ≡ record self.old { outs = self.old.outs ++ record { number = number; call = next.call } ∷ [] } }
    {
        self.list.push_reserved(Out {
            number,
            call: next.call,
        });
    }

    /// Takes out the i-th call, from 0.
    pub fn remove(&mut self, i: usize)
        requires { i < length self.old.outs }
        ensures { self.new ≡ record self.old { outs = remove self.old.outs i } }
    {
        self.list.remove(i);
    }

    /// Where the call with this number is, if it is out: its place, from 0, and the call.
    pub fn find(&self, number: u64) -> Option<Wanted>
        ensures some { IfSome result (λ found. slice_get self.now.outs found.k ≡ Some (record { number = number; call = found.call })) }
        ensures none { result ≡ None → All (λ out. out.number ≢ number) self.now.outs }
    {
        for i in 0..self.list.len() {
            let out = self.list[i];
            if out.number == number {
                return Some(Wanted {
                    k: i,
                    call: out.call,
                });
            }
        }
        None
    }

    /// The call that is out with the least number from this one on.
    pub fn oldest_from(&self, number: u64) -> Option<Out>
        ensures some { IfSome result (λ oldest. IsOldestOf self.now.outs number oldest) }
        ensures none { result ≡ None → All (λ out. out.number < number) self.now.outs }
    {
        let mut oldest = None;
        for i in 0..self.list.len() {
            let out = self.list[i];
            oldest = older(oldest, out, number);
        }
        oldest
    }

    /// Whether a call is out.
    pub fn has_out(&self) -> bool
        ensures { result ≡ has_out self.now }
    {
        !self.list.is_empty()
    }

    /// The calls that are out.
    pub fn as_slice(&self) -> &[Out]
        ensures { result.now ≡ self.now.outs }
    {
        self.list.as_slice()
    }
}

/// Whether a call overlaps something that one of these requests has left.
fn overlaps_left(size: u32, requests: &[Request], call: &DiskCall) -> bool
    requires size { 1 ≤ size }
    requires within { AreWithin requests.now }
    requires call { IsWithin call.now }
    ensures { result ≡ list_any (λ r. left_overlaps size call.now (disk_call r)) requests.now }
{
    for request in requests {
        if let Some(left) = request.disk_call() {
            if overlap(size, &left, call) {
                return true;
            }
        }
    }
    false
}
