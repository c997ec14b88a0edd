//! The outstanding requests of a device.
//!
//! A pick is an index in this list, from 1 on, in the order of taking. When a request ends, those after it move up. So a host
//! may serve them in any order, and a recorded run says which one it served.

ghost use Rattle.std.specs.Prelude.{◌≡◌, ◌==◌, ◌≤◌, ◌<◌, ◌++◌, ◌∷◌, [], length, IfOk, vec_capacity};
ghost use Rattle.std.specs.List.{remove};

use crate::request::Request;
use guestmem::NoMemory;
use std::alloc::Global;
use std::marker::Model;

/// The most requests that can be outstanding.
pub const REQUESTS_MAX: usize = 8;

/// The outstanding requests, in the order in which they were taken. Room for all is made with it.
#[derive(Drop)]
pub struct Requests {
    pub(crate) list: Vec<Request>,
}

impl Model for Requests {
    ghost use Rattle.std.specs.Prelude.{List, length, ◌≤◌, vec_capacity};
    ghost use Rattle.blk.specs.declared.request.Request.{Request};
    ghost use Rattle.blk.specs.declared.requests.TheConstants.{REQUESTS_MAX};

    ghost Value = { List Request };

    ghost view = { λ r. r.list.items };

    ghost invariant = { λ r. (length r.list.items ≤ REQUESTS_MAX) × (REQUESTS_MAX ≤ vec_capacity r.list) };
}

impl Requests {
    /// No requests. Its only error is out of memory.
    pub fn new(alloc: Global) -> Result<Requests, NoMemory>
        ensures { IfOk result (λ requests. requests ≡ []) }
    {
        let list = Vec::with_capacity(alloc, REQUESTS_MAX)?;
        Ok(Requests { list })
    }

    /// The requests, in the order in which they were taken.
    pub fn as_slice(&self) -> &[Request]
        ensures { result.now ≡ self.now }
    {
        self.list.as_slice()
    }

    /// How many there are.
    pub fn len(&self) -> usize
        ensures len { result ≡ length self.now }
        ensures few { result ≤ REQUESTS_MAX }
    {
        self.list.len()
    }

    /// Whether there are none.
    pub fn is_empty(&self) -> bool
        ensures { result ≡ (length self.now == 0) }
    {
        self.list.is_empty()
    }

    /// Adds one at the end, where there is room. It takes no memory.
    pub fn push(&mut self, request: Request)
        requires { length self.old < REQUESTS_MAX }
        ensures { self.new ≡ self.old ++ request ∷ [] }
    {
        self.list.push_reserved(request);
    }

    /// Drops the k-th, from 0. Its chain is not published.
    pub(crate) fn remove(&mut self, k: usize)
        requires { k < length self.old }
        ensures { self.new ≡ remove self.old k }
    {
        // The last one, as most are, is dropped where it lies.
        if k == self.list.len() - 1 {
            self.list.truncate(k);
            return;
        }
        remove_amid(&mut self.list, k);
    }

    /// Drops all of them. Their chains are not published. The room for new ones stays.
    pub(crate) fn clear(&mut self)
        ensures { self.new ≡ [] }
    {
        self.list.clear();
    }
}

/// Drops a request that others follow.
#[cold]
#[inline(never)]
fn remove_amid(list: &mut Vec<Request>, k: usize)
    requires { k < length list.old.items }
    ensures items { list.new.items ≡ remove list.old.items k }
    ensures capacity { vec_capacity list.new ≡ vec_capacity list.old }
{
    drop(list.remove(k));
}
