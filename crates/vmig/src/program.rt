//! One run of the program, by its words.

ghost use Rattle.std.specs.Prelude.{◌≡◌, ◌≢◌, ◌↔◌, ◌≤◌, false, OnOk, IfErr, map};
ghost use Rattle.std.specs.Io.KnownBytes.{Keeps};
ghost use Rattle.traces.specs.Replies.{AppendsBeginning};
ghost use Rattle.vmig.specs.Faults.{status_of, fault_line};
ghost use Rattle.vmig.specs.Words.{is_program_line};
ghost use Rattle.vmig.specs.Run.{HasDone, HasTold, HasFailed};

use crate::checking::check_stream;
use crate::comparing::rehearse_trace;
use crate::fault::Fault;
use crate::playing::run_trace;
use crate::resuming::{Arrival, resume_trace};
use crate::words::{Request, read_words};
use std::io::Write;
use std::rt::Files;

/// Runs the program on the words after its name:
///
/// - `run TRACE [--disk IMAGE] [--out STREAM]` plays the trace in a file on a fresh machine, and writes one line a reply. The
///   bytes of the file IMAGE are the sectors of its disk, which is read and written. The stream of a migration goes to the file
///   STREAM, which is made anew before the first event.
/// - `resume STREAM TRACE [--disk IMAGE] [--outside]` receives the machine of a stream, its disk in the file IMAGE, and plays the events
///   of the trace on it. With `--outside` its disks may be outside: what these answer is in the trace.
/// - `check STREAM [--outside]` reads a stream over disks in memory, and writes `ok P D R`: the pages and devices of its machine, and the
///   number of rounds that ended in it.
/// - `rehearse TRACE` plays a trace over disks of zeros in memory, moves the machine where the trace stops it, plays the rest on
///   both machines, and writes the replies of the first, and then `equal`, `differ`, or `no stop`.
///
/// It returns the exit status, and writes its meaning to `err`: 0 nothing; 1 `vmig: memory`; 2 `vmig: usage`; 3
/// `vmig: file NAME`, where NAME is `-` for standard output, also for an image whose length is not a multiple of 512 bytes; 4
/// `vmig: trace line N` or `vmig: shape K`; 5 `vmig: stream K`, or `vmig: stream out` where the stream could not be written, or
/// nothing after `differ` and `no stop`. Faults are looked for in this order: the words, the trace, first its file and then its
/// lines, the image, the machine's shape or its stream, and then the stream that is to be made. A first `begin` with no STREAM
/// is a fault of its line, where no line is bad. `out` is flushed before the status is known.
pub fn execute<R: Files + AllocGlobal, O: Write, E: Write>(
    rt: &R,
    words: &[&str],
    out: &mut O,
    err: &mut E,
) -> u8
    ensures status { result ≤ 5 }
    ensures usage { result ≡ 2 ↔ is_program_line (map (λ word. word.now) words.now) ≡ false }
    ensures done { result ≡ 0 → HasDone (map (λ word. word.now) words.now) (O.contents out.old) (O.contents out.new) }
    ensures silent { result ≡ 0 → Keeps (E.contents err.old) (E.contents err.new) }
    ensures told { result ≢ 0 → HasTold result (HasFailed (map (λ word. word.now) words.now) (O.contents out.old) (O.contents out.new)) (E.contents err.old) (E.contents err.new) }
{
    match run(rt, words, out) {
        Ok(()) => 0,
        Err(fault) => tell(fault, err),
    }
}

/// Writes the line of a fault to standard error, and returns its exit status. A failure of standard error is ignored.
#[tactic(auto, using(crate::proofs::Written::either_begun))]
fn tell<E: Write>(fault: Fault<'_>, err: &mut E) -> u8
    ensures status { result ≡ status_of fault.entry }
    ensures line { AppendsBeginning (E.contents err.old) (E.contents err.new) (fault_line fault.entry) }
{
    let _ = fault.write(err);
    fault.status()
}

fn run<'a, R: Files + AllocGlobal, O: Write>(
    rt: &R,
    words: &'a [&'a str],
    out: &mut O,
) -> Result<(), Fault<'a>>
    ensures done { OnOk result (HasDone (map (λ word. word.now) words.entry.now) (O.contents out.old) (O.contents out.new)) }
    ensures failed { IfErr result (HasFailed (map (λ word. word.now) words.entry.now) (O.contents out.old) (O.contents out.new)) }
{
    match read_words(rt.alloc(), words)? {
        Request::Run {
            trace,
            image,
            stream,
        } => run_trace(rt, trace, image, stream, out),
        Request::Resume {
            stream,
            trace,
            image,
            outside,
        } => resume_trace(
            rt,
            Arrival {
                stream,
                image,
                outside,
            },
            trace,
            out,
        ),
        Request::Check { stream, outside } => check_stream(rt, stream, outside, out),
        Request::Rehearse { trace } => rehearse_trace(rt, trace, out),
    }
}
