//! Events alone, for a machine that already exists.

ghost use Rattle.std.specs.Prelude.{◌≡◌, IfOk, IfErr, Some, None, if◌then◌else◌};
ghost use Rattle.traces.specs.Trace.{HoldsEvents, RefusesEvents};
ghost use Rattle.traces.specs.Reading.{after_event};

use crate::line::{Line, line_in};
use crate::lines::cut_line;
use crate::trace::TraceError;
use machine::Event;
use sender::LiveEvent;
use std::alloc::{AllocError, Global};

/// Reads one more line, and returns whether it is allowed there.
fn add_line(events: &mut Vec<Event>, alloc: Global, line: &[u8]) -> Result<bool, AllocError>
    ensures { IfOk result (λ good. after_event events.old.items line.now ≡ (if good then Some events.new.items else None)) }
{
    match line_in(alloc, line)? {
        Some(Line::Skip) => Ok(true),
        Some(Line::Act(LiveEvent::Guest(event))) => {
            events.push(event)?;
            Ok(true)
        }
        _ => Ok(false),
    }
}

/// Reads the guest's events of a trace that is played on a machine that already exists.
///
/// The text is as that of `parse`, with no line but the guest's events: there is no `ram`, no device and no line of
/// migration. It may have no event.
///
/// `Line` has the number of the first line that is not allowed there; skipped lines count. `NoMemory` is returned only
/// if memory was refused.
pub fn parse_events(alloc: Global, text: &[u8]) -> Result<Vec<Event>, TraceError>
    ensures read { IfOk result (λ events. HoldsEvents text.now events.items) }
    ensures bad { IfErr result (RefusesEvents text.now) }
{
    let mut events = Vec::new(alloc);
    let mut rest = text;
    let mut number = 0u64;
    while !rest.is_empty() {
        let (line, after) = cut_line(rest);
        number += 1;
        rest = after;
        if !add_line(&mut events, alloc, line)? {
            return Err(TraceError::Line(number));
        }
    }
    Ok(events)
}
