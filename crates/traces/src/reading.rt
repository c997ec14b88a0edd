//! Reads a whole trace.

ghost use Rattle.std.specs.Prelude.{◌≡◌, ◌==◌, ◌&&◌, IfOk, IfErr, if◌then◌else◌};
ghost use Rattle.traces.specs.Trace.{IsTrace, contents_of, is_begin, Refuses};

use crate::building::Building;
use crate::lines::cut_line;
use crate::trace::{Trace, TraceError};
use std::alloc::Global;

/// The number of the line of the first `begin`, or 0, after one more line.
fn first_begin(so_far: u64, number: u64, line: &[u8]) -> u64
    ensures { result ≡ (if so_far == 0 && is_begin line.now then number else so_far) }
{
    if so_far == 0 && line == b"begin".as_slice() {
        number
    } else {
        so_far
    }
}

/// Reads a trace.
///
/// Lines end with LF, which the last may lack. Empty lines and lines that begin with `#` are skipped. The others are
/// one `ram PAGES`, then 1 to 16 of `net MAC`, `block SECTORS rw ID`, `outside SECTORS rw ID` (both also with `ro`), `console` and
/// `entropy`, and then events: `r DEV OFF WIDTH`, `w DEV OFF WIDTH VALUE`, `mr ADDR LEN`, `mw ADDR BYTES`, `s DEV PICK`,
/// `in DEV BYTES`, `drop DEV`, `size DEV COLS ROWS`, `disk DEV PICK gave BYTES`, `disk DEV PICK did N` and `disk DEV PICK failed` of
/// the guest and its host, and `begin`, `copy`, `round` and `stop` of migration. One space separates two words.
///
/// `Line` has the number of the first line that is not allowed where it is, or of the one that is missing after the
/// last; skipped lines count. `NoMemory` is returned only if memory was refused.
pub fn parse(alloc: Global, text: &[u8]) -> Result<Trace, TraceError>
    ensures read { IfOk result (λ trace. IsTrace text.now (contents_of trace)) }
    ensures bad { IfErr result (Refuses text.now) }
{
    let mut trace = Building::new(alloc);
    let mut rest = text;
    let mut number = 0u64;
    let mut begin_line = 0;
    while !rest.is_empty() {
        let (line, after) = cut_line(rest);
        number += 1;
        rest = after;
        if !trace.add_line(alloc, line)? {
            return Err(TraceError::Line(number));
        }
        begin_line = first_begin(begin_line, number, line);
    }
    match trace.finish(begin_line) {
        Some(trace) => Ok(trace),
        None => Err(TraceError::Line(number + 1)),
    }
}
