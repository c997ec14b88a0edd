//! The step that takes a request.

ghost use Rattle.std.specs.Prelude.{◌≡◌, ◌≤◌, ◌<◌, ◌+◌, ◌^◌, ℕ, List, length, true};
ghost use Rattle.guestmem.specs.Number.{number_at};
ghost use Rattle.chains.specs.Frame.{MayLook, HasLooked};
ghost use Rattle.chains.specs.Places.{places, AreSegmentsInside};
ghost use Rattle.chains.specs.Served.{HasRun, scene};
ghost use Rattle.chains.specs.declared.looking.Wanted.TheVariants as wanted;
ghost use Rattle.blk.specs.Block.{has_room, limits_of};
ghost use Rattle.blk.specs.Sound.{AreSound};
ghost use Rattle.blk.specs.Take.{request_for, segment_of, take_step, task_for};

use crate::block::Block;
use crate::request::{HEADER_SIZE, Request, SEGMENT_SIZE, TYPE_WRITE_ZEROES};
use crate::shape::Limits;
use crate::task::{Task, task_of, type_of};
use chains::{Chain, Done, Ring, Segs, Served, Site, Unserved, Wanted, copy_out_with_base, look};
use guestmem::{Ram, TouchLog};

impl Block {
    /// Takes the next request of the queue, of a driver that accepted these features, where there is room for one: its header is read
    /// now, and its segments are kept. A chain with fewer readable bytes than a header, or with no writable one, is malformed, and stays.
    #[inline(never)]
    pub fn take<R: Ring, L: TouchLog>(
        &mut self,
        site: Site,
        features: u64,
        ring: &mut R,
        ram: &mut Ram,
        log: &mut L,
    ) -> Result<Served, Unserved>
        requires room { has_room self.old ≡ true }
        requires base { site.base ≡ (R.state ring.old).base }
        requires ready { MayLook L.may ram.old (R.state ring.old) (R.decoder ring.old) log.old }
        requires sound { AreSound (length ram.old.bytes) (R.state ring.old) (limits_of self.old features) self.old.requests }
        ensures taken { (sent : List ℕ) → HasRun L.after (scene ram.old log.old (R.state ring.old) self.old) (scene ram.new log.new (R.state ring.new) self.new) (wanted.Request HEADER_SIZE) (take_step features) result sent }
        ensures sound { AreSound (length ram.new.bytes) (R.state ring.new) (limits_of self.new features) self.new.requests }
        ensures after { HasLooked L.may ram.old ram.new (R.decoder ring.new) log.new }
    {
        // Written out, and not by `Chain::new`: so it is known to be empty where the ring empties it.
        let mut chain = Chain {
            id: 0,
            slots: 1,
            readable: Segs::new(site.alloc),
            writable: Segs::new(site.alloc),
        };
        look(
            ring,
            Wanted::Request(HEADER_SIZE as u32),
            &mut chain,
            ram,
            log,
        )?;
        let task = task_for(site.base, ram, self.limits(features), &chain);
        ring.take(&chain);
        self.requests.push(request_for(chain, task));
        Ok(Served {
            done: Done::Taken,
            is_due: false,
        })
    }
}

/// What the request of a chain asks for.
#[inline(always)]
fn task_for(base: u64, ram: &Ram, limits: Limits, chain: &Chain) -> Task
    requires inside { AreSegmentsInside base (length ram.now.bytes) chain.now.readable }
    requires header { HEADER_SIZE ≤ length (places chain.now.readable) }
    requires status { 1 ≤ length (places chain.now.writable) }
    requires total { length (places chain.now.readable) + length (places chain.now.writable) < 2 ^ 32 }
    ensures { result ≡ task_for base ram.now.bytes limits chain.now }
{
    let mut header = [0; HEADER_SIZE];
    copy_out_with_base(ram, base, chain.readable.as_slice(), 0, &mut header);
    let segment = segment_for(base, ram, &header, chain);
    task_of(
        &header,
        &segment,
        chain.readable.total_len(),
        chain.writable.total_len(),
        limits,
    )
}

/// The segment of a chain that asks for a range to be cleared, if it has one. That of another chain is not read, and nothing
/// rests on it.
fn segment_for(
    base: u64,
    ram: &Ram,
    header: &[u8; HEADER_SIZE],
    chain: &Chain,
) -> [u8; SEGMENT_SIZE]
    requires inside { AreSegmentsInside base (length ram.now.bytes) chain.now.readable }
    ensures { number_at header.now 0 4 ≡ TYPE_WRITE_ZEROES → length (places chain.now.readable) ≡ HEADER_SIZE + SEGMENT_SIZE → result ≡ segment_of base ram.now.bytes chain.now }
{
    if type_of(header) != TYPE_WRITE_ZEROES
        || chain.readable.total_len() != (HEADER_SIZE + SEGMENT_SIZE) as u64
    {
        return [0; SEGMENT_SIZE];
    }
    read_segment(base, ram, chain)
}

/// The segment of a chain that asks for a range to be cleared, and has one. It is a call of its own, which other requests do not carry
/// along.
#[inline(never)]
fn read_segment(base: u64, ram: &Ram, chain: &Chain) -> [u8; SEGMENT_SIZE]
    requires inside { AreSegmentsInside base (length ram.now.bytes) chain.now.readable }
    requires len { length (places chain.now.readable) ≡ HEADER_SIZE + SEGMENT_SIZE }
    ensures { result ≡ segment_of base ram.now.bytes chain.now }
{
    let mut segment = [0; SEGMENT_SIZE];
    copy_out_with_base(
        ram,
        base,
        chain.readable.as_slice(),
        HEADER_SIZE as u64,
        &mut segment,
    );
    segment
}

/// The request of a chain, which keeps its segments.
#[inline(always)]
fn request_for(chain: Chain, task: Task) -> Request
    ensures request { result ≡ request_for chain task }
    ensures fits { result.id < 2 ^ 16 }
{
    Request {
        id: chain.id,
        slots: chain.slots,
        kind: task.kind,
        verdict: task.verdict,
        first: task.first,
        units: task.units,
        done: 0,
        readable: chain.readable,
        writable: chain.writable,
    }
}
