//! Reads one line of a trace: `one` reads the lines with one word, and so on to `five`.

ghost use Rattle.std.specs.Prelude.{◌≡◌, IfOk, Some};
ghost use Rattle.std.specs.List.{slice_split};
ghost use Rattle.sender.specs.declared.event.LiveEvent.TheVariants.{Guest};
ghost use Rattle.traces.specs.declared.line.Line.TheVariants.{Act};
ghost use Rattle.traces.specs.Line.{one_word, two_words, three_words, four_words, five_words, net_line, block_line, outside_line, register_read_line, register_write_line, memory_read_line, memory_write_line, step_line, input_line, resize_line, drop_line, short_answer, did_answer, gave_answer, long_answer, disk_line, words_say, line_says, is_space};

use crate::fields::{bytes, number8, number16, number32, number64, read_only, sized_bytes};
use crate::words::split_word;
use machine::{DiskAnswer, Event, Shape};
use sender::LiveEvent;
use std::alloc::{AllocError, Global};

/// What a line says.
#[derive(Drop)]
pub enum Line {
    /// Nothing: it is empty, or a comment.
    Skip,

    /// The pages of RAM.
    Ram(u32),

    /// One more device.
    Device(Shape),

    /// One more event.
    Act(LiveEvent),
}

fn guest(event: Event) -> Line
    ensures { result ≡ Act (Guest event) }
{
    Line::Act(LiveEvent::Guest(event))
}

fn one(verb: &[u8]) -> Option<Line>
    ensures { result ≡ one_word verb.now }
{
    if verb == b"console".as_slice() {
        Some(Line::Device(Shape::Console))
    } else if verb == b"entropy".as_slice() {
        Some(Line::Device(Shape::Entropy))
    } else if verb == b"begin".as_slice() {
        Some(Line::Act(LiveEvent::Begin))
    } else if verb == b"copy".as_slice() {
        Some(Line::Act(LiveEvent::Copy))
    } else if verb == b"round".as_slice() {
        Some(Line::Act(LiveEvent::EndRound))
    } else if verb == b"stop".as_slice() {
        Some(Line::Act(LiveEvent::Stop))
    } else {
        None
    }
}

fn net(a: &[u8]) -> Option<Line>
    ensures { result ≡ net_line a.now }
{
    let mac = sized_bytes(a)?;
    Some(Line::Device(Shape::Net { mac }))
}

fn drop_input(a: &[u8]) -> Option<Line>
    ensures { result ≡ drop_line a.now }
{
    let dev = number8(a)?;
    Some(guest(Event::Drop { dev }))
}

fn two(verb: &[u8], a: &[u8]) -> Option<Line>
    ensures { result ≡ two_words verb.now a.now }
{
    if verb == b"ram".as_slice() {
        let pages = number32(a)?;
        Some(Line::Ram(pages))
    } else if verb == b"net".as_slice() {
        net(a)
    } else if verb == b"drop".as_slice() {
        drop_input(a)
    } else {
        None
    }
}

fn memory_read(a: &[u8], b: &[u8]) -> Option<Line>
    ensures { result ≡ memory_read_line a.now b.now }
{
    let addr = number64(a)?;
    let len = number32(b)?;
    Some(guest(Event::MemRead { addr, len }))
}

fn memory_write(alloc: Global, a: &[u8], b: &[u8]) -> Result<Option<Line>, AllocError>
    ensures { IfOk result (λ line. line ≡ memory_write_line a.now b.now) }
{
    let Some(addr) = number64(a) else {
        return Ok(None);
    };
    let Some(bytes) = bytes(alloc, b)? else {
        return Ok(None);
    };
    Ok(Some(guest(Event::MemWrite { addr, bytes })))
}

fn step(a: &[u8], b: &[u8]) -> Option<Line>
    ensures { result ≡ step_line a.now b.now }
{
    let dev = number8(a)?;
    let pick = number8(b)?;
    Some(guest(Event::Step { dev, pick }))
}

fn input(alloc: Global, a: &[u8], b: &[u8]) -> Result<Option<Line>, AllocError>
    ensures { IfOk result (λ line. line ≡ input_line a.now b.now) }
{
    let Some(dev) = number8(a) else {
        return Ok(None);
    };
    let Some(bytes) = bytes(alloc, b)? else {
        return Ok(None);
    };
    Ok(Some(guest(Event::Input { dev, bytes })))
}

fn three(alloc: Global, verb: &[u8], a: &[u8], b: &[u8]) -> Result<Option<Line>, AllocError>
    ensures { IfOk result (λ line. line ≡ three_words verb.now a.now b.now) }
{
    if verb == b"mr".as_slice() {
        Ok(memory_read(a, b))
    } else if verb == b"mw".as_slice() {
        memory_write(alloc, a, b)
    } else if verb == b"s".as_slice() {
        Ok(step(a, b))
    } else if verb == b"in".as_slice() {
        input(alloc, a, b)
    } else {
        Ok(None)
    }
}

fn block(a: &[u8], b: &[u8], c: &[u8]) -> Option<Line>
    ensures { result ≡ block_line a.now b.now c.now }
{
    let sectors = number64(a)?;
    let read_only = read_only(b)?;
    let id = sized_bytes(c)?;
    Some(Line::Device(Shape::Block {
        sectors,
        read_only,
        id,
    }))
}

fn outside(a: &[u8], b: &[u8], c: &[u8]) -> Option<Line>
    ensures { result ≡ outside_line a.now b.now c.now }
{
    let count = number64(a)?;
    let is_read_only = read_only(b)?;
    let id = sized_bytes(c)?;
    Some(Line::Device(Shape::Outside {
        sectors: count,
        read_only: is_read_only,
        id,
    }))
}

fn register_read(a: &[u8], b: &[u8], c: &[u8]) -> Option<Line>
    ensures { result ≡ register_read_line a.now b.now c.now }
{
    let dev = number8(a)?;
    let off = number32(b)?;
    let width = number8(c)?;
    Some(guest(Event::RegRead { dev, off, width }))
}

fn resize(a: &[u8], b: &[u8], c: &[u8]) -> Option<Line>
    ensures { result ≡ resize_line a.now b.now c.now }
{
    let dev = number8(a)?;
    let cols = number16(b)?;
    let rows = number16(c)?;
    Some(guest(Event::Resize { dev, cols, rows }))
}

/// What a disk outside answered to the request that a pick names.
fn disk(a: &[u8], b: &[u8], answer: DiskAnswer) -> Option<Line>
    ensures { result ≡ disk_line a.now b.now (Some answer) }
{
    let dev = number8(a)?;
    let pick = number8(b)?;
    Some(guest(Event::Disk { dev, pick, answer }))
}

fn disk_failed(a: &[u8], b: &[u8], c: &[u8]) -> Option<Line>
    ensures { result ≡ disk_line a.now b.now (short_answer c.now) }
{
    if c != b"failed".as_slice() {
        return None;
    }
    disk(a, b, DiskAnswer::Failed)
}

fn four(verb: &[u8], a: &[u8], b: &[u8], c: &[u8]) -> Option<Line>
    ensures { result ≡ four_words verb.now a.now b.now c.now }
{
    if verb == b"block".as_slice() {
        block(a, b, c)
    } else if verb == b"outside".as_slice() {
        outside(a, b, c)
    } else if verb == b"r".as_slice() {
        register_read(a, b, c)
    } else if verb == b"size".as_slice() {
        resize(a, b, c)
    } else if verb == b"disk".as_slice() {
        disk_failed(a, b, c)
    } else {
        None
    }
}

fn register_write(a: &[u8], b: &[u8], c: &[u8], d: &[u8]) -> Option<Line>
    ensures { result ≡ register_write_line a.now b.now c.now d.now }
{
    let dev = number8(a)?;
    let off = number32(b)?;
    let width = number8(c)?;
    let value = number32(d)?;
    Some(guest(Event::RegWrite {
        dev,
        off,
        width,
        value,
    }))
}

fn did(a: &[u8]) -> Option<DiskAnswer>
    ensures { result ≡ did_answer a.now }
{
    let count = number32(a)?;
    Some(DiskAnswer::Did(count))
}

fn gave(alloc: Global, a: &[u8]) -> Result<Option<DiskAnswer>, AllocError>
    ensures { IfOk result (λ answer. answer ≡ gave_answer a.now) }
{
    match bytes(alloc, a)? {
        Some(bytes) => Ok(Some(DiskAnswer::Gave(bytes))),
        None => Ok(None),
    }
}

/// What a disk outside answered, where that is two words.
fn long_answer(alloc: Global, verb: &[u8], a: &[u8]) -> Result<Option<DiskAnswer>, AllocError>
    ensures { IfOk result (λ answer. answer ≡ long_answer verb.now a.now) }
{
    if verb == b"gave".as_slice() {
        gave(alloc, a)
    } else if verb == b"did".as_slice() {
        Ok(did(a))
    } else {
        Ok(None)
    }
}

fn disk_answered(
    alloc: Global,
    a: &[u8],
    b: &[u8],
    c: &[u8],
    d: &[u8],
) -> Result<Option<Line>, AllocError>
    ensures { IfOk result (λ line. line ≡ disk_line a.now b.now (long_answer c.now d.now)) }
{
    match long_answer(alloc, c, d)? {
        Some(answer) => Ok(disk(a, b, answer)),
        None => Ok(None),
    }
}

fn five(
    alloc: Global,
    verb: &[u8],
    a: &[u8],
    b: &[u8],
    c: &[u8],
    d: &[u8],
) -> Result<Option<Line>, AllocError>
    ensures { IfOk result (λ line. line ≡ five_words verb.now a.now b.now c.now d.now) }
{
    if verb == b"w".as_slice() {
        Ok(register_write(a, b, c, d))
    } else if verb == b"disk".as_slice() {
        disk_answered(alloc, a, b, c, d)
    } else {
        Ok(None)
    }
}

/// What a line that is not skipped says. A line has at most five words.
#[tactic(auto, using(crate::proofs::FirstWord::too_many))]
fn of_words(alloc: Global, line: &[u8]) -> Result<Option<Line>, AllocError>
    ensures { IfOk result (λ said. said ≡ words_say (slice_split is_space line.now)) }
{
    let Some((verb, rest)) = split_word(line) else {
        return Ok(one(line));
    };
    let Some((a, rest)) = split_word(rest) else {
        return Ok(two(verb, rest));
    };
    let Some((b, rest)) = split_word(rest) else {
        return three(alloc, verb, a, rest);
    };
    let Some((c, rest)) = split_word(rest) else {
        return Ok(four(verb, a, b, rest));
    };
    match split_word(rest) {
        Some(_) => Ok(None),
        None => five(alloc, verb, a, b, c, rest),
    }
}

/// What a line says, or `None` if it is not a line of a trace.
#[tactic(auto, unfolding(crate::specs::Line::line_says))]
pub fn line_in(alloc: Global, line: &[u8]) -> Result<Option<Line>, AllocError>
    ensures { IfOk result (λ said. said ≡ line_says line.now) }
{
    match line {
        [] | [b'#', ..] => Ok(Some(Line::Skip)),
        _ => of_words(alloc, line),
    }
}
