//! A whole stream in one slice.

ghost use Rattle.receiver.specs.Calls.{Receives};
ghost use Rattle.receiver.specs.Opened.{usual_at};

use crate::receiver::Receiver;
use crate::recv_error::RecvError;
use crate::terms::Terms;
use machine::{Disk, Machine};
use std::alloc::Global;

/// The machine whose stream the bytes are, with these disks, and how many rounds ended in it: one feed, `rounds` and
/// `finish`. Its RAM begins at the address 0, and it is within the usual limits. A refusal drops the disks.
///
/// An `Ok` says of any disks that the bytes are a whole stream for them, and that the machine is the one that was sent, but for what
/// its good sectors hold; of honest disks that too.
pub fn receive<D: Disk + Drop>(
    alloc: Global,
    bytes: &[u8],
    disks: Vec<D>,
) -> Result<(Machine<D>, u32), RecvError>
    ensures { Receives D.state disks.items (usual_at 0) bytes.now result }
{
    receive_at(alloc, bytes, disks, 0)
}

/// As `receive`, of a machine whose RAM begins at the guest-physical address `base`.
pub fn receive_at<D: Disk + Drop>(
    alloc: Global,
    bytes: &[u8],
    disks: Vec<D>,
    base: u64,
) -> Result<(Machine<D>, u32), RecvError>
    ensures { Receives D.state disks.items (usual_at base) bytes.now result }
{
    receive_with(alloc, bytes, disks, Terms::usual_at(base))
}

/// As `receive`, of a machine as these terms say.
pub fn receive_with<D: Disk + Drop>(
    alloc: Global,
    bytes: &[u8],
    disks: Vec<D>,
    terms: Terms,
) -> Result<(Machine<D>, u32), RecvError>
    ensures { Receives D.state disks.items terms bytes.now result }
{
    let mut receiver = Receiver::with_terms(alloc, disks, None, terms);
    if let Err(error) = receiver.feed(bytes) {
        drop(receiver);
        return Err(error);
    }
    let rounds = receiver.rounds();
    match receiver.finish() {
        Ok(machine) => Ok((machine, rounds)),
        Err(error) => Err(error),
    }
}
