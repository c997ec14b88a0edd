//! The calls of disks outside of the machine: which were handed out and are not answered.
//!
//! A block device whose disk is the host's asks for what its requests need (`blk::DiskCall`). The host is handed one call after another,
//! does them when it likes, in any order, and answers each by its number. `Calls` knows which are out. It is no part of a machine, and is
//! not moved. It sees a machine through the trait `Asks`: the outstanding requests of each device, in the order of taking. A `Machine` is one,
//! also while its RAM is lent (`Parked`), and in crate `sender` one that is being sent.
//!
//! Three rules keep a guest's sectors right where a host executes calls while the guest runs:
//! 1. A call is handed out only where it overlaps none of its device that is out, and nothing that an earlier request has left: else two
//!    writes of one sector end in either order, and a read gives what was there before a write. `Calls::next` keeps it.
//! 2. A register write or a reset that would drop a request whose call is out is not made: else its write lands over what the driver
//!    wrote after the reset. `Calls::is_out_of` and `Machine::drops_requests` are the questions; its user keeps the rule.
//! 3. No stop is made while a call is out: else a write of the source lands after one of the target. `Calls::is_any_out` is the question;
//!    its user keeps the rule.
//!
//! # What the layers above may rely on
//! - `Calls::next` hands out the next call that may go out: of the first device in turn that has one, that of its earliest request
//!   (`specs/Calls`). A call may go out if fewer than 8 of its device are out, it overlaps none of them, and nothing that an earlier
//!   request has left (`specs/Handing`). Overlap is counted in blocks of the host's storage (`specs/Overlap`). It takes no memory.
//! - No two calls of a device that are out overlap, and no two have one number, whatever its user does.
//! - `Calls::asker` names the request that an answer is for: the first that asks for the same, from the same sector on. Where its user
//!   keeps rule 2 and answers each call once, each answer meets the request that its call was handed out for (`calls_are_met`, over
//!   `specs/Desk`). What it does with `Calls` are the turns of that law (`handing_is_a_turn`, `answering_is_a_turn`, over `specs/Seen`). So are
//!   the events of a machine: the law holds of machines, whatever happens to them (`machines_meet_calls`, over `specs/Machines`).
//! - Numbers begin where `Calls::starting_at` says, and no call ever has a lesser one (`numbers_stay_from`, over `specs/Numbers`): a host with
//!   several machines gives each its own, so that no answer for one is taken by another.
//! - `Calls::next_device` says which device's call `next` would hand out, and `None` only where none may be. What may be handed out whole may be
//!   in part (`whole_may_go_in_part`, over `specs/Parts`).
//! - `Calls::oldest_from` finds the call that is out with the least number from one on (`specs/Oldest`).
//! - `counts` says whether an answer counts of a disk that may have lost writes which it answered: none that would say that something is durable.
//!   A request that asks for that then ends with an error (`lost_disk_makes_nothing_durable`, over `specs/Lost`).
//! - Room for all calls is taken by `Calls::new` and `Calls::starting_at`; no other call of this crate takes memory.
//!
//! Nothing is trusted here beside the crates below.
#![tactic(auto)]

mod calls;
mod device_calls;
mod laws;
mod lookup;
mod lost;
mod machines;
mod oldest;
mod out;

pub use calls::{Asks, Calls, Handed, Place};
pub use device_calls::{CALLS_MAX, DeviceCalls, Wanted};
pub use laws::{
    answering_is_a_turn, calls_are_met, handing_is_a_turn, lost_disk_makes_nothing_durable,
    machines_meet_calls, numbers_stay_from, whole_may_go_in_part,
};
pub use lookup::asker;
pub use lost::counts;
pub use oldest::Listed;
pub use out::Out;
