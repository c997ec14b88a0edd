//! A handle of a machine: the one type of this crate that C holds.
//!
//! A handle is a struct of one pointer, which C zeroes and hands over by address; zero is none. So a freed handle is that of no
//! machine, and every call on it gets a status that says so.

ghost use Rattle.std.specs.Prelude.{◌≡◌, IsSome, IsNone, Some, None, is_some, Option};
ghost use Rattle.std.specs.Borrow.{sem};
ghost use Rattle.c_handle.specs.declared.kept.Kept.{Kept};
ghost use Rattle.c_handle.specs.Owned.{machine_owns, machine_coded};

use crate::kept::Kept;
use raw_box::OpenBox;
use std::alloc::Global;
use std::marker::Model;
use std::ptr;

/// A machine, or none. C keeps it where it likes and passes its address; all bytes 0 are a handle of no machine.
#[repr(C)]
pub struct Handle {
    at: *mut u8,
    alloc: Global,
    pub ghost machine: { Option Kept } by { machine_coded },
}

impl Model for Handle {
    ghost also_owns = { λ h. machine_owns h.alloc h.at h.machine };
}

impl Handle {
    ghost use Rattle.std.specs.Prelude.{◌≡◌, IsSome, IsNone, Some, None, is_some};
    ghost use Rattle.std.specs.Borrow.{sem};
    ghost use Rattle.c_handle.specs.Lending.{LendsMachine};

    /// A handle of no machine.
    pub fn none(alloc: Global) -> Handle
        ensures { result.machine ≡ None }
    {
        Handle {
            at: ptr::null_mut(),
            alloc,
        }
    }

    /// A handle of the machine in a box.
    pub(crate) fn of(machine: Box<Kept>) -> Handle
        ensures { result.machine ≡ Some machine.value }
    {
        Handle::of_open(OpenBox::open(machine))
    }

    /// The machine in a box.
    pub fn into_box(self) -> Box<Kept>
        requires { IsSome self.machine }
        ensures { Some result.value ≡ self.machine }
    {
        self.into_open().close()
    }

    fn of_open(opened: OpenBox<Kept, Global>) -> Handle
        ensures { result.machine ≡ Some opened.held }
    {
        let OpenBox { address, heap } = opened;
        Handle {
            at: address as *mut u8,
            alloc: heap,
        }
    }

    fn into_open(self) -> OpenBox<Kept, Global>
        requires { IsSome self.machine }
        ensures { Some result.held ≡ self.machine }
    {
        let Handle { at, alloc } = self;
        OpenBox {
            address: at as *mut Kept,
            heap: alloc,
        }
    }

    /// Consumes a handle of no machine.
    pub(crate) fn gone(self)
        requires { IsNone self.machine }
    {
        let Handle { at: _, alloc: _ } = self;
    }

    /// Whether there is a machine.
    pub fn is_made(&mut self) -> bool
        ensures same { self.new ≡ self.old }
        ensures made { result ≡ is_some self.old.machine }
    {
        self.at != ptr::null_mut()
    }

    /// The machine.
    pub fn get_mut(&mut self) -> &mut Kept
        requires { IsSome self.old.machine }
        ensures* writes_back { sem 𝓛 (LendsMachine self.entry result) }
        ensures value { Some result.now ≡ self.old.machine }
    {
        unsafe { &mut *(self.at as *mut Kept) }
    }
}

// All that a handle owns is its machine.
unsafe impl Send for Handle {}
