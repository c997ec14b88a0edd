//! A trace that is read line by line.
//!
//! A bad line is the first that may not be where it is: `ram 1` and then `r 0 0 4` is line 2, where a device must be. Skipped
//! lines count. An empty file is line 1. A seventeenth device is a bad line. `ram 0` and `ram 16385` are good lines, and no
//! machine.

use crate::line::{Line, line_in};
use crate::trace::Trace;
use machine::{DEVICES_MAX, Shape};
use sender::LiveEvent;
use std::alloc::{AllocError, Global};

/// What the lines so far say.
#[derive(Drop)]
pub struct Building {
    pub pages: Option<u32>,
    pub shapes: Vec<Shape>,
    pub events: Vec<LiveEvent>,
}

impl Building {
    ghost use Rattle.std.specs.Prelude.{◌≡◌, IfOk, IfSome, IsNone, Some, None, if◌then◌else◌};
    ghost use Rattle.traces.specs.Reading.{nothing, said_of, said_in, with_line, after_line, IsWhole};

    /// A trace of which no line was read yet. It takes no memory.
    pub fn new(alloc: Global) -> Building
        ensures { said_of result ≡ nothing }
    {
        Building {
            pages: None,
            shapes: Vec::new(alloc),
            events: Vec::new(alloc),
        }
    }

    /// Adds what a line says, and returns whether it is allowed there.
    fn add(&mut self, line: Line) -> Result<bool, AllocError>
        ensures { IfOk result (λ good. with_line (said_of self.old) line ≡ (if good then Some (said_of self.new) else None)) }
    {
        match line {
            Line::Skip => Ok(true),
            Line::Ram(pages) => {
                if self.pages.is_some() {
                    return Ok(false);
                }
                self.pages = Some(pages);
                Ok(true)
            }
            Line::Device(shape) => {
                if self.pages.is_none()
                    || !self.events.is_empty()
                    || self.shapes.len() >= DEVICES_MAX
                {
                    return Ok(false);
                }
                self.shapes.push(shape)?;
                Ok(true)
            }
            Line::Act(event) => {
                if self.shapes.is_empty() {
                    return Ok(false);
                }
                self.events.push(event)?;
                Ok(true)
            }
        }
    }

    /// Reads one more line, and returns whether it is allowed there.
    pub fn add_line(&mut self, alloc: Global, line: &[u8]) -> Result<bool, AllocError>
        ensures { IfOk result (λ good. after_line (said_of self.old) line.now ≡ (if good then Some (said_of self.new) else None)) }
    {
        match line_in(alloc, line)? {
            Some(said) => self.add(said),
            None => Ok(false),
        }
    }

    /// The trace, or `None` if a line of RAM or of a device is missing.
    pub fn finish(self, begin_line: u64) -> Option<Trace>
        ensures whole { IfSome result (λ trace. IsWhole (said_in trace) × (said_in trace ≡ said_of self)) }
        ensures begins { IfSome result (λ trace. trace.begin_line ≡ begin_line) }
        ensures part { IsNone result → IsWhole (said_of self) → ⊥ }
    {
        let Building {
            pages,
            shapes,
            events,
        } = self;
        let pages = pages?;
        if shapes.is_empty() {
            return None;
        }
        Some(Trace {
            pages,
            shapes,
            events,
            begin_line,
        })
    }
}
