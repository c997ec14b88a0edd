//! Calls of the program.

use crate::moved::move_run;
use crate::text::{read_events, read_trace, text_of};
use anyhow::{Context, Result, bail, ensure};
use books::spelled;
use std::alloc::Global;
use std::fs;
use std::os::unix::fs::symlink;
use vmig::execute;

/// Carries out the lines of a scenario. `FILE NAME TEXT` writes a file, `STREAM NAME WORDS` and `IMAGE NAME WORDS` one of the
/// bytes that these words encode, `FOLDER NAME` makes a folder, and `LOCK NAME` a file that may only be read. `LINK NAME FILE`
/// gives a file one more name, and `POINT NAME FILE` makes a symbolic link to it. `CALL WORDS -> STATUS; OUT; ERR` calls the
/// program on these words; it must end so, and write these texts to standard output and standard error. `PLAY NAME` runs the
/// trace NAME.trace, whose replies must be NAME.replies, and `PLAY NAME IMAGE` does so over an image. `HOLDS NAME WORDS` finds
/// the bytes that these words encode in a file, and no others. `TRACE TEXT -> NUMBER` reads a text as a trace, whose first bad
/// line has this number, or which is one for 0, and `EVENTS TEXT -> NUMBER` as events alone. The module `text` says how a text
/// is written.
pub fn make_calls(rt: &HostRuntime, lines: &str) -> Result<()> {
    for line in lines.lines() {
        make_call(rt, line).context(line)?;
    }
    Ok(())
}

fn make_call(rt: &HostRuntime, line: &str) -> Result<()> {
    let (first, words) = line.split_once(' ').context("one word")?;
    match first {
        "FILE" => write_text(rt, words),
        "STREAM" | "IMAGE" => write_bytes(rt, words),
        "FOLDER" => make_folder(rt, words),
        "LOCK" => lock(rt, words),
        "LINK" => link(rt, words),
        "POINT" => point(rt, words),
        "HOLDS" => holds(rt, words),
        "CALL" => call(rt, words),
        "PLAY" => play(rt, words),
        "MOVE" => move_run(rt, words),
        "TRACE" => read_trace(rt.alloc(), words),
        "EVENTS" => read_events(rt.alloc(), words),
        _ => bail!("no such line"),
    }
}

fn write_text(rt: &HostRuntime, words: &str) -> Result<()> {
    let (name, text) = words.split_once(' ').unwrap_or((words, ""));
    let text = text_of(rt.alloc(), text)?;
    fs::write(rt, name, text.as_bytes())?;
    Ok(())
}

fn write_bytes(rt: &HostRuntime, words: &str) -> Result<()> {
    let (name, text) = words.split_once(' ').unwrap_or((words, ""));
    let bytes = spelled(rt.alloc(), text)?;
    fs::write(rt, name, bytes.as_slice())?;
    Ok(())
}

fn make_folder(rt: &HostRuntime, name: &str) -> Result<()> {
    fs::create_dir(rt, name)?;
    Ok(())
}

fn lock(rt: &HostRuntime, name: &str) -> Result<()> {
    let mut permissions = fs::metadata(rt, name)?.permissions();
    permissions.set_readonly(true);
    fs::set_permissions(rt, name, permissions)?;
    Ok(())
}

fn link(rt: &HostRuntime, words: &str) -> Result<()> {
    let (name, file) = words.split_once(' ').context("one name")?;
    fs::hard_link(rt, file, name)?;
    Ok(())
}

fn point(rt: &HostRuntime, words: &str) -> Result<()> {
    let (name, file) = words.split_once(' ').context("one name")?;
    symlink(rt, file, name)?;
    Ok(())
}

fn holds(rt: &HostRuntime, words: &str) -> Result<()> {
    let (name, text) = words.split_once(' ').unwrap_or((words, ""));
    let bytes = spelled(rt.alloc(), text)?;
    ensure!(
        fs::read(rt, name)?.as_slice() == bytes.as_slice(),
        "other bytes"
    );
    Ok(())
}

fn call(rt: &HostRuntime, line: &str) -> Result<()> {
    let (words, end) = line.split_once(" -> ").context("no end")?;
    let (status, written) = end.split_once("; ").unwrap_or((end, ""));
    ends_as_told(rt, words, status.parse::<u8>()?, written)
}

/// Calls the program on these words. It must end with this status, and write what the texts before and after `; ` encode.
fn ends_as_told(rt: &HostRuntime, words: &str, status: u8, written: &str) -> Result<()> {
    let (out, err) = written.split_once("; ").unwrap_or((written, ""));
    let out = text_of(rt.alloc(), out)?;
    let err = text_of(rt.alloc(), err)?;
    ends(rt, words, status, (out.as_str(), err.as_str()))
}

fn play(rt: &HostRuntime, line: &str) -> Result<()> {
    let (name, image) = line.split_once(' ').unwrap_or((line, ""));
    let replies = format!(in rt.alloc(); "{name}.replies")?;
    let out = fs::read_to_string(rt, replies.as_str())?;
    let words = if image.is_empty() {
        format!(in rt.alloc(); "run {name}.trace")?
    } else {
        format!(in rt.alloc(); "run {name}.trace --disk {image}")?
    };
    ends(rt, words.as_str(), 0, (out.as_str(), ""))
}

/// Calls the program on these words. It must end with this status, and write this to standard output and standard error.
fn ends(rt: &HostRuntime, line: &str, status: u8, written: (&str, &str)) -> Result<()> {
    let words = words_of(rt.alloc(), line)?;
    let mut out: Vec<u8> = Vec::new(rt.alloc());
    let mut err: Vec<u8> = Vec::new(rt.alloc());
    let ended = execute(rt, words.as_slice(), &mut out, &mut err);
    ensure!(
        ended == status
            && out.as_slice() == written.0.as_bytes()
            && err.as_slice() == written.1.as_bytes(),
        "another end"
    );
    Ok(())
}

fn words_of(alloc: Global, line: &str) -> Result<Vec<&str>> {
    let mut words = Vec::new(alloc);
    for word in line.split_whitespace() {
        words.push(word)?;
    }
    Ok(words)
}
