//! The calls of all devices that are out.

ghost use Rattle.std.specs.Prelude.{ℕ, ◌≡◌, ◌≢◌, ◌<◌, ◌≤◌, ◌^◌, ◌+◌, ◌-◌, ◌*◌, [], List, None, Some, IfOk, IfSome, length, replicate, slice_index_or};
ghost use Rattle.blk.specs.declared.outside.DiskCall.{DiskCall};
ghost use Rattle.blk.specs.declared.request.Request.{Request};
ghost use Rattle.disk_calls.specs.Calls.{AreWithin, IsAt, IsHandedOut, IsNext, call_of_device, in_turn, is_any_out, is_out_of, without};
ghost use Rattle.disk_calls.specs.Handing.{asker};
ghost use Rattle.disk_calls.specs.Oldest.{IsNoneFrom, IsOldestFrom};
ghost use Rattle.disk_calls.specs.Parts.{MayGoInPart};
ghost use Rattle.disk_calls.specs.declared.out.Out.{Out};

use crate::device_calls::{DeviceCalls, Wanted};
use crate::lookup::asker;
use crate::oldest::{Listed, older_listed};
use blk::{DiskCall, Request};
use guestmem::NoMemory;
use std::alloc::Global;
use std::marker::Model;

/// A machine as the calls of its disks outside see it: one that is idle, one that is sent, or one whose RAM is lent.
pub trait Asks {
    /// The outstanding requests of each device, in the order of taking: none of one that has no disk outside, or does not run.
    ghost asked: { Self → List (List Request) };

    /// How many devices there are.
    fn devices(&self) -> usize
        ensures { result ≡ length (asked self.now) };

    /// The requests of a device.
    fn requests(&self, dev: usize) -> &[Request]
        requires { dev < length (asked self.now) }
        ensures requests { result.now ≡ slice_index_or (asked self.now) dev [] }
        ensures within { AreWithin result.now };
}

/// A call that is handed out.
#[derive(Clone, Copy, Debug, PartialEq, Eq)]
pub struct Handed {
    /// Its number, which no other call ever has.
    pub number: u64,

    /// The number of its device.
    pub dev: usize,

    /// The number of the request that asks for it, from 0.
    pub k: usize,

    /// What is to be done.
    pub call: DiskCall,
}

/// Where a call that is out is kept.
#[derive(Clone, Copy, Debug, PartialEq, Eq)]
pub struct Place {
    /// The number of its device.
    pub dev: usize,

    /// Its place among the calls of that device, from 0.
    pub i: usize,

    /// What is to be done.
    pub call: DiskCall,
}

/// The calls of the disks of a machine that were handed out and are not answered.
#[derive(Drop)]
pub struct Calls {
    devices: Vec<DeviceCalls>,
    turn: usize,
    number: u64,
}

impl Model for Calls {
    ghost use Rattle.std.specs.Prelude.{length, ◌≤◌};
    ghost use Rattle.disk_calls.specs.Calls.{AllCalls, AreNumbered};

    ghost Value = { AllCalls };

    ghost view = { λ c. record { devices = c.devices.items; turn = c.turn; number = c.number } };

    ghost invariant = { λ c. (c.turn ≤ length c.devices.items) × AreNumbered (record { devices = c.devices.items; turn = c.turn; number = c.number }) };
}

/// A device, and the call that is handed out next.
struct Found {
    dev: usize,
    wanted: Wanted,
}

impl Calls {
    /// No calls out, of `devices` devices, over storage with blocks of `size` sectors. Its only error is out of memory: room for all calls
    /// is taken here.
    pub fn new(alloc: Global, devices: usize, size: u32) -> Result<Calls, NoMemory>
        requires { 1 ≤ size }
        ensures { IfOk result (λ calls. calls ≡ record { devices = replicate devices (record { size = size; outs = [] }); turn = 0; number = 0 }) }
    {
        Calls::starting_at(alloc, devices, size, 0)
    }

    /// As `new`, but the first call that is handed out has this number, and each further one a greater. Where each machine of a host begins with
    /// another number, no answer for one is taken by another.
    pub fn starting_at(
        alloc: Global,
        devices: usize,
        size: u32,
        number: u64,
    ) -> Result<Calls, NoMemory>
        requires { 1 ≤ size }
        ensures { IfOk result (λ calls. calls ≡ record { devices = replicate devices (record { size = size; outs = [] }); turn = 0; number = number }) }
    {
        let mut list = Vec::with_capacity(alloc, devices)?;
        for _ in 0..devices {
            list.push_reserved(DeviceCalls::new(alloc, size)?);
        }
        Ok(Calls {
            devices: list,
            turn: 0,
            number,
        })
    }

    /// Hands out the next call, cut to `most` sectors, if there is one that may be handed out: of the first device in turn that has one,
    /// that of its earliest request. If there is none, or the last number is used, nothing has changed. It takes no memory.
    pub fn next<T: Asks>(&mut self, machine: &T, most: u32) -> Option<Handed>
        requires some { 1 ≤ most }
        requires alike { length self.old.devices ≡ length (T.asked machine.now) }
        ensures some { IfSome result (λ handed. IsHandedOut most self.old (T.asked machine.now) handed self.new) }
        ensures none { result ≡ None → self.new ≡ self.old }
        ensures alike { length self.new.devices ≡ length self.old.devices }
        ensures nothing { result ≡ None → (dev j : ℕ) → self.old.number < 2 ^ 64 - 1 → dev < length self.old.devices → call_of_device most self.old (T.asked machine.now) dev j ≡ None }
    {
        let Found { dev, wanted } = self.next_call(machine, most)?;
        let number = self.number;
        self.devices[dev].hand_out(machine.requests(dev), most, wanted, number);
        self.turn = in_turn(dev, self.devices.len(), 1);
        self.number += 1;
        Some(Handed {
            number,
            dev,
            k: wanted.k,
            call: wanted.call,
        })
    }

    /// The device whose call `next` would hand out now. It changes nothing.
    pub fn next_device<T: Asks>(&self, machine: &T, most: u32) -> Option<usize>
        requires some { 1 ≤ most }
        requires alike { length self.now.devices ≡ length (T.asked machine.now) }
        ensures some { IfSome result (λ dev. (k : ℕ) × (call : DiskCall) × IsNext most self.now (T.asked machine.now) dev k call) }
        ensures there { IfSome result (λ dev. dev < length self.now.devices) }
        ensures part { IfSome result (λ dev. (k : ℕ) × MayGoInPart most self.now (T.asked machine.now) dev k) }
        ensures numbered { IfSome result (λ dev. self.now.number < 2 ^ 64 - 1) }
        ensures none { result ≡ None → (dev j : ℕ) → self.now.number < 2 ^ 64 - 1 → dev < length self.now.devices → call_of_device most self.now (T.asked machine.now) dev j ≡ None }
    {
        let Found { dev, wanted: _ } = self.next_call(machine, most)?;
        Some(dev)
    }

    /// Where the call with this number is, if it is out.
    pub fn find(&self, number: u64) -> Option<Place>
        ensures some { IfSome result (λ place. IsAt self.now.devices place.dev place.i (record { number = number; call = place.call })) }
        ensures there { IfSome result (λ place. place.dev < length self.now.devices) }
        ensures none { result ≡ None → (dev i : ℕ) (out : Out) → IsAt self.now.devices dev i out → out.number ≢ number }
    {
        for dev in 0..self.devices.len() {
            if let Some(found) = self.devices[dev].find(number) {
                return Some(Place {
                    dev,
                    i: found.k,
                    call: found.call,
                });
            }
        }
        None
    }

    /// The call that is out with the least number from this one on, and whose. A host that lists all of them asks again from one number further
    /// on than the last.
    pub fn oldest_from(&self, number: u64) -> Option<Listed>
        ensures some { IfSome result (λ listed. IsOldestFrom self.now number listed) }
        ensures there { IfSome result (λ listed. listed.dev < length self.now.devices) }
        ensures below { IfSome result (λ listed. listed.out.number < 2 ^ 64 - 1) }
        ensures none { result ≡ None → IsNoneFrom self.now number }
    {
        let _next = self.number;
        let mut oldest = None;
        for dev in 0..self.devices.len() {
            let found = self.devices[dev].oldest_from(number);
            oldest = older_listed(oldest, dev, found);
        }
        oldest
    }

    /// The request that the answer of a call is for, by its place from 0. `None` if no request asks for it, as where its device does not
    /// run.
    pub fn asker<T: Asks>(&self, machine: &T, place: Place) -> Option<usize>
        requires { place.dev < length (T.asked machine.now) }
        ensures { result ≡ asker (slice_index_or (T.asked machine.now) place.dev []) place.call }
    {
        asker(machine.requests(place.dev), &place.call)
    }

    /// Takes out a call that is answered.
    pub fn remove(&mut self, place: Place)
        requires { (number : ℕ) × IsAt self.old.devices place.dev place.i (record { number = number; call = place.call }) }
        ensures answered { self.new ≡ without self.old place.dev place.i }
        ensures alike { length self.new.devices ≡ length self.old.devices }
    {
        self.devices[place.dev].remove(place.i);
    }

    /// Whether a call of this device is out. While one is, no register is written so that its requests are dropped, and the machine is
    /// not reset.
    pub fn is_out_of(&self, dev: usize) -> bool
        ensures { result ≡ is_out_of self.now dev }
    {
        if dev >= self.devices.len() {
            return false;
        }
        self.devices[dev].has_out()
    }

    /// Whether any call is out. While one is, the machine is not stopped.
    pub fn is_any_out(&self) -> bool
        ensures { result ≡ is_any_out self.now }
    {
        for device in &self.devices {
            if device.has_out() {
                return true;
            }
        }
        false
    }

    /// The next call, if there is a number left for it.
    fn next_call<T: Asks>(&self, machine: &T, most: u32) -> Option<Found>
        requires some { 1 ≤ most }
        requires alike { length self.now.devices ≡ length (T.asked machine.now) }
        ensures some { IfSome result (λ found. IsNext most self.now (T.asked machine.now) found.dev found.wanted.k found.wanted.call) }
        ensures there { IfSome result (λ found. found.dev < length self.now.devices) }
        ensures part { IfSome result (λ found. MayGoInPart most self.now (T.asked machine.now) found.dev found.wanted.k) }
        ensures numbered { IfSome result (λ found. self.now.number < 2 ^ 64 - 1) }
        ensures none { result ≡ None → (dev j : ℕ) → self.now.number < 2 ^ 64 - 1 → dev < length self.now.devices → call_of_device most self.now (T.asked machine.now) dev j ≡ None }
    {
        if self.number == u64::MAX {
            return None;
        }
        self.first_in_turn(machine, most)
    }

    /// The first device in turn with a call that may be handed out.
    fn first_in_turn<T: Asks>(&self, machine: &T, most: u32) -> Option<Found>
        requires some { 1 ≤ most }
        requires alike { length self.now.devices ≡ length (T.asked machine.now) }
        ensures some { IfSome result (λ found. IsNext most self.now (T.asked machine.now) found.dev found.wanted.k found.wanted.call) }
        ensures there { IfSome result (λ found. found.dev < length self.now.devices) }
        ensures part { IfSome result (λ found. MayGoInPart most self.now (T.asked machine.now) found.dev found.wanted.k) }
        ensures none { result ≡ None → (i j : ℕ) → i < length self.now.devices → call_of_device most self.now (T.asked machine.now) (in_turn self.now.turn (length self.now.devices) i) j ≡ None }
    {
        for steps in 0..self.devices.len() {
            let dev = in_turn(self.turn, self.devices.len(), steps);
            if let Some(wanted) = self.next_of(machine, dev, most) {
                return Some(Found { dev, wanted });
            }
        }
        None
    }

    /// The first request of a device whose call may be handed out.
    fn next_of<T: Asks>(&self, machine: &T, dev: usize, most: u32) -> Option<Wanted>
        requires some { 1 ≤ most }
        requires there { dev < length self.now.devices }
        requires alike { length self.now.devices ≡ length (T.asked machine.now) }
        ensures some { IfSome result (λ next. call_of_device most self.now (T.asked machine.now) dev next.k ≡ Some next.call) }
        ensures part { IfSome result (λ next. MayGoInPart most self.now (T.asked machine.now) dev next.k) }
        ensures first { IfSome result (λ next. (j : ℕ) → j < next.k → call_of_device most self.now (T.asked machine.now) dev j ≡ None) }
        ensures none { result ≡ None → (j : ℕ) → call_of_device most self.now (T.asked machine.now) dev j ≡ None }
    {
        self.devices[dev].next(machine.requests(dev), most)
    }
}

/// The device `steps` steps after another, in a turn over `devices` devices.
fn in_turn(from: usize, devices: usize, steps: usize) -> usize
    requires from { from ≤ devices }
    requires reach { from + steps < 2 * devices }
    ensures turn { result ≡ in_turn from devices steps }
    ensures there { result < devices }
{
    let rest = devices - from;
    if steps < rest {
        from + steps
    } else {
        steps - rest
    }
}
