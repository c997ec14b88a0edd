//! The calls of disks outside that C was handed and has not answered.
//!
//! Room is taken for the calls of as many devices as a machine can have, where a machine is made or will arrive: how many devices arrive is not
//! known then, and no later call takes memory. A device that the machine does not have asks for nothing.

ghost use Rattle.std.specs.Prelude.{◌≡◌, ◌<◌, ◌≤◌, [], slice_index_or};
ghost use Rattle.blk.specs.declared.request.Request.{Request};
ghost use Rattle.machine.specs.declared.machine.TheConstants.{DEVICES_MAX};
ghost use Rattle.c_handle.specs.CallsOut.{of_each};

use blk::Request;
use c_machine::block_size;
use disk_calls::{Asks, Calls, Handed, Listed, Place};
use guestmem::NoMemory;
use machine::DEVICES_MAX;
use std::alloc::Global;
use std::marker::Model;

/// The calls that are out, and how many these are.
#[derive(Drop)]
pub struct CallsOut {
    calls: Calls,
    count: u32,
}

impl Model for CallsOut {
    ghost use Rattle.std.specs.Prelude.{◌≡◌, ◌≤◌, All, length};
    ghost use Rattle.disk_calls.specs.Calls.{AllCalls};
    ghost use Rattle.disk_calls.specs.declared.device_calls.TheConstants.{CALLS_MAX};
    ghost use Rattle.machine.specs.declared.machine.TheConstants.{DEVICES_MAX};
    ghost use Rattle.c_handle.specs.CallsOut.{count_out};

    ghost Value = { AllCalls };

    ghost view = { λ c. c.calls };

    ghost invariant = { λ c. (length c.calls.devices ≡ DEVICES_MAX) × All (λ s. length s.outs ≤ CALLS_MAX) c.calls.devices × (c.count ≡ count_out c.calls) };
}

/// A machine with as many devices as one can have. Those that it does not have ask for nothing.
#[derive(Drop)]
struct Whole<'a, T: Asks> {
    machine: &'a T,
}

impl<T: Asks> Asks for Whole<'_, T> {
    ghost use Rattle.c_handle.specs.CallsOut.{of_each};
    ghost use Rattle.machine.specs.declared.machine.TheConstants.{DEVICES_MAX};

    ghost asked = { λ w. of_each DEVICES_MAX (T.asked w.machine.now) };

    fn devices(&self) -> usize {
        DEVICES_MAX
    }

    fn requests(&self, dev: usize) -> &[Request] {
        if dev >= self.machine.devices() {
            return &[];
        }
        self.machine.requests(dev)
    }
}

impl CallsOut {
    ghost use Rattle.std.specs.Prelude.{◌≡◌, ◌≢◌, ◌^◌, ◌-◌, ◌<◌, ◌≤◌, ℕ, [], None, IfOk, IfSome, length, slice_index_or};
    ghost use Rattle.disk_calls.specs.Calls.{IsAt, IsHandedOut, call_of_device, is_any_out, is_out_of, without};
    ghost use Rattle.disk_calls.specs.Handing.{asker};
    ghost use Rattle.disk_calls.specs.Oldest.{IsNoneFrom, IsOldestFrom};
    ghost use Rattle.disk_calls.specs.declared.out.Out.{Out};
    ghost use Rattle.machine.specs.declared.machine.TheConstants.{DEVICES_MAX};
    ghost use Rattle.c_handle.specs.CallsOut.{HasNoCall, IsCallNext, count_out};
    ghost use Rattle.c_handle.specs.Kept.{first_calls};

    /// None, over storage with such blocks; the first will have this number. Its only error is out of memory.
    pub(crate) fn new(alloc: Global, block: u32, from: u64) -> Result<CallsOut, NoMemory>
        ensures { IfOk result (λ calls. calls ≡ first_calls block from) }
    {
        let calls = Calls::starting_at(alloc, DEVICES_MAX, block_size(block), from)?;
        Ok(CallsOut { calls, count: 0 })
    }

    /// Hands out the next call of a machine, cut to `most` sectors, if there is one that may be handed out (`Calls::next`). It takes no memory.
    pub(crate) fn next<T: Asks>(&mut self, machine: &T, most: u32) -> Option<Handed>
        requires { 1 ≤ most }
        ensures some { IfSome result (λ handed. IsHandedOut most self.old (T.asked machine.now) handed self.new) }
        ensures there { IfSome result (λ handed. handed.dev < DEVICES_MAX) }
        ensures none { result ≡ None → self.new ≡ self.old }
        ensures nothing { result ≡ None → (dev j : ℕ) → self.old.number < 2 ^ 64 - 1 → dev < length self.old.devices → call_of_device most self.old (T.asked machine.now) dev j ≡ None }
    {
        let handed = self.calls.next(&Whole { machine }, most)?;
        self.count += 1;
        Some(handed)
    }

    /// The device whose call `next` would hand out now, whatever the size of its buffer, if any waits that may be handed out.
    pub(crate) fn next_device<T: Asks>(&self, machine: &T) -> Option<u8>
        ensures some { IfSome result (λ dev. IsCallNext self.now (T.asked machine.now) dev) }
        ensures none { result ≡ None → HasNoCall self.now (T.asked machine.now) }
    {
        let dev = self.calls.next_device(&Whole { machine }, u32::MAX)?;
        Some(dev as u8)
    }

    /// The call that is out with the least number from this one on.
    pub(crate) fn oldest_from(&self, number: u64) -> Option<Listed>
        ensures some { IfSome result (λ listed. IsOldestFrom self.now number listed) }
        ensures there { IfSome result (λ listed. listed.dev < DEVICES_MAX) }
        ensures below { IfSome result (λ listed. listed.out.number < 2 ^ 64 - 1) }
        ensures none { result ≡ None → IsNoneFrom self.now number }
    {
        self.calls.oldest_from(number)
    }

    /// Where the call with this number is, if it is out.
    pub(crate) fn find(&self, number: u64) -> Option<Place>
        ensures some { IfSome result (λ place. IsAt self.now.devices place.dev place.i (record { number = number; call = place.call })) }
        ensures there { IfSome result (λ place. place.dev < DEVICES_MAX) }
        ensures none { result ≡ None → (dev i : ℕ) (out : Out) → IsAt self.now.devices dev i out → out.number ≢ number }
    {
        self.calls.find(number)
    }

    /// The request of a machine that the answer of a call is for, by its place from 0, if any is (`Calls::asker`).
    pub(crate) fn asker<T: Asks>(&self, machine: &T, place: Place) -> Option<usize>
        requires { place.dev < DEVICES_MAX }
        ensures { result ≡ asker (slice_index_or (T.asked machine.now) place.dev []) place.call }
    {
        self.calls.asker(&Whole { machine }, place)
    }

    /// Takes out a call that is answered.
    pub(crate) fn remove(&mut self, place: Place)
        requires { (number : ℕ) × IsAt self.old.devices place.dev place.i (record { number = number; call = place.call }) }
        ensures { self.new ≡ without self.old place.dev place.i }
    {
        self.calls.remove(place);
        self.count -= 1;
    }

    /// Whether a call of this device is out.
    pub(crate) fn is_out_of(&self, dev: u8) -> bool
        ensures { result ≡ is_out_of self.now dev }
    {
        self.calls.is_out_of(dev as usize)
    }

    /// Whether any call is out.
    pub(crate) fn is_any_out(&self) -> bool
        ensures { result ≡ is_any_out self.now }
    {
        self.calls.is_any_out()
    }

    /// How many calls are out.
    pub(crate) fn count(&self) -> u32
        ensures { result ≡ count_out self.now }
    {
        self.count
    }
}
