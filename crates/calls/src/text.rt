//! Texts of several lines on one line: `|` stands for LF, `%` for CR and `^` for a tab.

use anyhow::{Context, Result, bail, ensure};
use std::alloc::Global;
use vmig::{TraceError, parse, parse_events};

/// The text that is written in this way.
pub fn text_of(alloc: Global, written: &str) -> Result<String> {
    let lines = written.replace(alloc, "|", "\n")?;
    let returned = lines.as_str().replace(alloc, "%", "\r")?;
    Ok(returned.as_str().replace(alloc, "^", "\t")?)
}

/// Reads the text before ` -> ` as a trace, whose first bad line has the number after it, or which is good if that is 0.
pub fn read_trace(alloc: Global, words: &str) -> Result<()> {
    let (text, number) = text_and_number(alloc, words)?;
    has_bad_line(parse(alloc, text.as_bytes()), number)
}

/// As above, for a text of events alone.
pub fn read_events(alloc: Global, words: &str) -> Result<()> {
    let (text, number) = text_and_number(alloc, words)?;
    has_bad_line(parse_events(alloc, text.as_bytes()), number)
}

fn text_and_number(alloc: Global, words: &str) -> Result<(String, u64)> {
    let (written, number) = words.split_once(" -> ").context("no number")?;
    Ok((text_of(alloc, written)?, number.parse::<u64>()?))
}

fn has_bad_line<T: Drop>(read: Result<T, TraceError>, number: u64) -> Result<()> {
    let line = match read {
        Ok(_) => 0,
        Err(TraceError::Line(line)) => line,
        Err(error) => bail!("{error}"),
    };
    ensure!(line == number, "{line}");
    Ok(())
}
