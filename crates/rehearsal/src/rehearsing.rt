//! A rehearsed migration of a machine.
//!
//! Whether the disks fit is tested before anything is played, and reported only where a stop returned Ok. The receiver would
//! report the same, at the end of the header; but of a disk that fails before, no contract of a receiver says which of the two
//! it reports.
//!
//! What follows the stop is the guest's alone: events of a migration there are skipped.

ghost use Rattle.std.specs.Prelude.{◌≡◌, ◌≤◌, [], IfErr, IfOk, IfSome, length, vec_capacity};
ghost use Rattle.machine.specs.First.{dealt_marks};
ghost use Rattle.machine.specs.Seen.{all_marks, state_of};
ghost use Rattle.machine.specs.State.{base_of};
ghost use Rattle.receiver.specs.Disks.{AreHonestDisks, disk_marks_of, sizes_of};
ghost use Rattle.receiver.specs.Opened.{greatest_at};
ghost use Rattle.receiver.specs.Receiving.{RefusesSlice};
ghost use Rattle.wire.specs.Stream.{IsStream, shapes_in};
ghost use Rattle.rehearsal.specs.Rehearsing.{GoOn, HasSentStream, IsNotStopped, IsRefusedWith, IsRehearsal, is_stopped};

use machine::{Disk, Limits, Machine, Reply, are_disks_of};
use receiver::{Receiver, RecvError, Terms};
use sender::{Live, LiveEvent, LiveReply};
use std::alloc::Global;
use wire::WriteSink;

/// The result of a rehearsed migration of a machine.
#[derive(Drop)]
pub enum Rehearsal<D: Disk, E: Disk> {
    /// The machine arrived, and both machines played the remaining events of the guest.
    Arrived {
        /// The machine that was migrated.
        source: Machine<D>,

        /// The machine that arrived.
        arrived: Machine<E>,

        /// All replies of the machine that was migrated.
        replies: Vec<LiveReply>,

        /// The replies of the machine that arrived to the remaining events of the guest.
        arrived_replies: Vec<Reply>,
    },

    /// No stop returned Ok.
    NotStopped {
        /// The machine as it then is.
        source: Machine<D>,

        /// The reply to each event. There is none if memory was refused.
        replies: Vec<LiveReply>,
    },

    /// A stop returned Ok, and the stream was refused.
    Refused {
        /// The machine as it was at the stop.
        source: Machine<D>,

        /// The replies to the events up to and including the stop.
        replies: Vec<LiveReply>,

        /// Why the stream was refused.
        error: RecvError,
    },
}

/// A machine after a stop that returned Ok, its stream, and room for the replies to come.
#[derive(Drop)]
struct Sent<D: Disk> {
    source: Machine<D>,
    replies: Vec<LiveReply>,
    bytes: Vec<u8>,
    arrived_replies: Vec<Reply>,
}

/// A machine for which no stop returned Ok.
#[derive(Drop)]
struct Unsent<D: Disk> {
    source: Machine<D>,
    replies: Vec<LiveReply>,
}

/// Rehearses a migration of a machine: plays the events up to and including the first stop that returns Ok, feeds the
/// stream in pieces of the sizes of the cuts to a receiver over the disks, and plays the remaining events of the guest
/// on both machines. The other remaining events are skipped, and have no reply.
///
/// Room for the replies of both machines is made first. If memory is refused there, nothing is played: the result is
/// `NotStopped` with no reply. Memory may be refused later too. Refused to the stream, it is a reply that the writer
/// failed; refused to the receiver, after the stop, the result is `Refused` with `NoMemory`.
pub fn rehearse<D: Disk + Drop, E: Disk + Drop>(
    alloc: Global,
    machine: Machine<D>,
    events: &[LiveEvent],
    disks: Vec<E>,
    cuts: &[usize],
) -> Rehearsal<D, E>
    ensures { IsRehearsal machine events.now (sizes_of E.state disks.items) (disk_marks_of E.state disks.items) result }
{
    let fits = are_disks_of(machine.shapes(), &disks);
    let sent = match send(alloc, machine, events) {
        Ok(sent) => sent,
        Err(Unsent { source, replies }) => return Rehearsal::NotStopped { source, replies },
    };
    if !fits {
        return sent.refused(RecvError::ShapeMismatch);
    }
    match receive_in_pieces(alloc, sent.source.base(), &sent.bytes, disks, cuts) {
        Ok(arrived) => sent.go_on(arrived, events),
        Err(error) => sent.refused(error),
    }
}

impl<D: Disk + Drop> Sent<D> {
    /// The machine at the stop, if its stream is refused.
    fn refused<E: Disk>(self, error: RecvError) -> Rehearsal<D, E>
        ensures { IsRefusedWith self.source self.replies.items error result }
    {
        let Sent {
            source,
            replies,
            bytes: _,
            arrived_replies: _,
        } = self;
        Rehearsal::Refused {
            source,
            replies,
            error,
        }
    }

    /// Plays the remaining events of the guest on both machines.
    fn go_on<E: Disk>(self, mut arrived: Machine<E>, events: &[LiveEvent]) -> Rehearsal<D, E>
        requires few { length self.replies.items ≤ length events.now }
        requires room { length events.now ≤ vec_capacity self.replies }
        requires arrived_room { length events.now ≤ vec_capacity self.arrived_replies }
        requires arrived_none { self.arrived_replies.items ≡ [] }
        ensures { GoOn self.source self.replies.items arrived events.now result }
    {
        let Sent {
            mut source,
            mut replies,
            bytes: _,
            mut arrived_replies,
        } = self;
        let (_, rest) = events.split_at(replies.len());
        for event in rest {
            let LiveEvent::Guest(event) = event else {
                continue;
            };
            let reply = source.apply(event);
            replies.push_reserved(LiveReply::Guest(reply));
            let arrived_reply = arrived.apply(event);
            arrived_replies.push_reserved(arrived_reply);
        }
        Rehearsal::Arrived {
            source,
            arrived,
            replies,
            arrived_replies,
        }
    }
}

/// Plays the events up to and including the first stop that returns Ok.
fn send<D: Disk + Drop>(
    alloc: Global,
    machine: Machine<D>,
    events: &[LiveEvent],
) -> Result<Sent<D>, Unsent<D>>
    ensures sent { IfOk result (λ s. HasSentStream machine events.now s.source s.replies.items s.bytes.items) }
    ensures room { IfOk result (λ s. length events.now ≤ vec_capacity s.replies) }
    ensures arrived_room { IfOk result (λ s. length events.now ≤ vec_capacity s.arrived_replies) }
    ensures arrived_none { IfOk result (λ s. s.arrived_replies.items ≡ []) }
    ensures unsent { IfErr result (λ u. IsNotStopped machine events.now u.source u.replies.items) }
{
    let _shapes = machine.shapes();
    let mut live = match Live::new(alloc, machine, WriteSink::new(Vec::new(alloc))) {
        Ok(live) => live,
        Err((_, source, _)) => {
            return Err(Unsent {
                source,
                replies: Vec::new(alloc),
            });
        }
    };
    let Some((mut replies, arrived_replies)) = make_room(alloc, events.len()) else {
        return Err(Unsent {
            source: live.abort(),
            replies: Vec::new(alloc),
        });
    };
    let mut stopped = false;
    while !stopped && replies.len() < events.len() {
        live.recall();
        let reply = live.serve(&events[replies.len()]);
        stopped = is_stopped(&reply);
        replies.push_reserved(reply);
    }
    let (source, out) = live.into_parts();
    if stopped {
        return Ok(Sent {
            source,
            replies,
            bytes: out.into_inner(),
            arrived_replies,
        });
    }
    Err(Unsent { source, replies })
}

/// Room for `count` replies of each of the two machines.
fn make_room(alloc: Global, count: usize) -> Option<(Vec<LiveReply>, Vec<Reply>)>
    ensures none { IfSome result (λ room. room.0.items ≡ []) }
    ensures room { IfSome result (λ room. count ≤ vec_capacity room.0) }
    ensures arrived_none { IfSome result (λ room. room.1.items ≡ []) }
    ensures arrived_room { IfSome result (λ room. count ≤ vec_capacity room.1) }
{
    let Ok(replies) = Vec::with_capacity(alloc, count) else {
        return None;
    };
    let Ok(arrived_replies) = Vec::with_capacity(alloc, count) else {
        return None;
    };
    Some((replies, arrived_replies))
}

/// Whether this is the reply of a stop that returned Ok.
fn is_stopped(reply: &LiveReply) -> bool
    ensures { result ≡ is_stopped reply.now }
{
    match reply {
        LiveReply::Stopped { .. } => true,
        _ => false,
    }
}

/// The machine whose RAM begins at the address `base` and whose stream the bytes are, fed in pieces of these sizes. A cut that is greater than what is left takes
/// what is left; what the cuts leave is one piece.
fn receive_in_pieces<E: Disk + Drop>(
    alloc: Global,
    base: u64,
    bytes: &[u8],
    disks: Vec<E>,
    cuts: &[usize],
) -> Result<Machine<E>, RecvError>
    ensures received { IfOk result (λ m. AreHonestDisks (disk_marks_of E.state disks.items) → IsStream bytes.now (state_of m)) }
    ensures marks { IfOk result (λ m. all_marks m ≡ dealt_marks (shapes_in (state_of m).devices) (disk_marks_of E.state disks.items)) }
    ensures based { IfOk result (λ m. base_of (state_of m).devices ≡ base) }
    ensures refused { IfErr result (λ e. RefusesSlice (greatest_at base) (sizes_of E.state disks.items) (disk_marks_of E.state disks.items) bytes.now e) }
{
    let limits = Limits::greatest();
    let mut receiver = Receiver::with_terms(alloc, disks, None, Terms { base, limits });
    let mut rest = bytes;
    for cut in cuts {
        let (piece, others) = rest.split_at((*cut).min(rest.len()));
        receiver.feed(piece)?;
        rest = others;
    }
    receiver.feed(rest)?;
    receiver.finish()
}
