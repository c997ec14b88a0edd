//! Machines as bytes.
//!
//! A machine that is being sent is not saved: `Live` lends its machine to be read, and a save reads disks, which may change their count of
//! failures. A host saves before `vmig_send_begin` or after `vmig_send_abort`. The stream is measured first, so none is made that does not
//! fit, and a buffer of no bytes asks for its length.

ghost use Rattle.std.specs.Prelude.{◌≡◌, ◌≤◌, ◌++◌, IfOk, length, drop};
ghost use Rattle.machine.specs.Seen.{state_of};
ghost use Rattle.wire.specs.Stream.{whole};
ghost use Rattle.c_handle.specs.Moving.{HasSaved, IsKept, Saves, SavesKept};
ghost use Rattle.c_machine.specs.Plain.{ArePlain};

use crate::kept::{Kept, by_state};
use c_machine::status::{DONE, MORE, NO_MEMORY, SENDING};
use guestmem::NoMemory;
use machine::{Disk, Machine};
use sender::{save, saved_len};
use std::alloc::Global;
use wire::WriteSink;

/// Saves the contents of a handle, if they are a machine that is not being sent.
#[tactic(auto, using(crate::proofs::ByState::by_still, crate::proofs::ByState::by_moving, crate::proofs::SamePages::saved))]
pub fn save_kept(alloc: Global, kept: &mut Kept, buf: &mut [u8], len: &mut usize) -> u32
    ensures saves { SavesKept kept.old.state result len.new len.old buf.old buf.new kept.new.state }
    ensures kind { kept.new ≡ record kept.old { state = kept.new.state } }
{
    by_state!(&mut kept.held;
        still(machine) => save_status(alloc, machine, buf, len),
        moving(_) => SENDING,
    )
}

/// Saves a machine into a buffer. `len` becomes the length of its stream, also if the buffer is too small.
#[tactic(auto, using(crate::proofs::Streams::measured, crate::proofs::Streams::saved))]
fn save_status<D: Disk>(
    alloc: Global,
    machine: &mut Machine<D>,
    buf: &mut [u8],
    len: &mut usize,
) -> u32
    ensures { Saves machine.old result len.new len.old buf.old buf.new machine.new }
{
    let measured = saved_len(machine) as usize;
    if buf.len() < measured {
        *len = measured;
        return MORE;
    }
    put_stream(alloc, machine, buf, len)
}

/// Makes the stream of a machine, and puts it into the buffer.
#[tactic(auto, using(crate::proofs::Streams::put, crate::proofs::Streams::not_put, crate::proofs::Streams::not_made))]
fn put_stream<D: Disk>(
    alloc: Global,
    machine: &mut Machine<D>,
    buf: &mut [u8],
    len: &mut usize,
) -> u32
    ensures { HasSaved machine.old result len.new len.old buf.old buf.new machine.new }
{
    let Ok(stream) = stream_of(alloc, machine) else {
        return NO_MEMORY;
    };
    *len = stream.len();
    if buf.len() < stream.len() {
        return MORE;
    }
    put_front(&stream, buf);
    DONE
}

/// Copies the bytes to the front of the buffer, which has room for them.
fn put_front(bytes: &[u8], buf: &mut [u8])
    requires { length bytes.now ≤ length buf.old }
    ensures { buf.new ≡ bytes.now ++ drop (length bytes.now) buf.old }
{
    buf[..bytes.len()].copy_from_slice(bytes);
}

/// The stream of a machine, in memory.
#[tactic(auto, using(crate::proofs::Streams::kept))]
fn stream_of<D: Disk>(alloc: Global, machine: &mut Machine<D>) -> Result<Vec<u8>, NoMemory>
    ensures stream { IfOk result (λ bytes. ArePlain machine.old → bytes.items ≡ whole (state_of machine.old)) }
    ensures kept { IsKept machine.old machine.new }
{
    let mut sink = WriteSink::new(Vec::new(alloc));
    match save(machine, &mut sink) {
        Ok(()) => Ok(sink.into_inner()),
        Err(_) => Err(NoMemory),
    }
}
