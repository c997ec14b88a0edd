//! Plays a list of live events.
//!
//! Each event has a reply or none has: none means that memory was refused before anything was played.

ghost use Rattle.std.specs.Prelude.{◌≡◌, ℕ, []};
ghost use Rattle.machine.specs.Seen.{AreHonest, all_marks, marks_at, state_of};
ghost use Rattle.sender.specs.Ran.{AllNameUnsteady, AllOrNone, HasStopped, Ran, WasServed, WroteStream};

use crate::event::LiveEvent;
use crate::live::Live;
use crate::played::Replay;
use machine::{Disk, Machine};
use std::alloc::Global;
use wire::Sink;

/// Plays the events in order on a machine that is being migrated to a writer, and returns the machine, the writer and a
/// reply for each event. It makes room for the replies first: if memory is refused, nothing is played, there is no
/// reply, and the machine, its disks and the writer are returned as they were, whatever the disks do.
///
/// The disks stay as honest and as steady as they were, so the machine that it returns may be migrated again. Once a stop returned
/// Ok, what was written is a stream of a machine with the same RAM and devices, whatever the disks do.
pub fn replay<D: Disk + Drop, W: Sink + Drop>(
    alloc: Global,
    machine: Machine<D>,
    events: &[LiveEvent],
    out: W,
) -> Replay<D, W>
    ensures each { AllOrNone events.now result.replies.items }
    ensures unplayed { result.replies.items ≡ [] → result.machine ≡ machine }
    ensures unwritten { result.replies.items ≡ [] → W.state result.out ≡ W.state out }
    ensures unsteady { AllNameUnsteady (all_marks machine) events.now result.replies.items }
    ensures honest { AreHonest machine → AreHonest result.machine }
    ensures steady { (dev : ℕ) → (marks_at (all_marks result.machine) dev).steady ≡ (marks_at (all_marks machine) dev).steady }
    ensures served { ¬ (result.replies.items ≡ []) → WasServed machine (W.state out) events.now result.replies.items result.machine (W.state result.out) }
    ensures streamed { HasStopped result.replies.items → WroteStream (W.state out) (state_of result.machine) (W.state result.out) }
    ensures ran { AreHonest machine → Ran (state_of machine) events.now result.replies.items (W.state out) (state_of result.machine) (W.state result.out) }
{
    let _shapes = machine.shapes();
    let mut live = match Live::new(alloc, machine, out) {
        Ok(live) => live,
        Err((_, machine, out)) => {
            return Replay {
                machine,
                out,
                replies: Vec::new(alloc),
            };
        }
    };
    let Ok(mut replies) = Vec::with_capacity(alloc, events.len()) else {
        let (machine, out) = live.into_parts();
        return Replay {
            machine,
            out,
            replies: Vec::new(alloc),
        };
    };
    for event in events {
        live.recall();
        let reply = live.serve(event);
        replies.push_reserved(reply);
    }
    let (machine, out) = live.into_parts();
    Replay {
        machine,
        out,
        replies,
    }
}
