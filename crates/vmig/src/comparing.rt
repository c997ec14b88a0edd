//! The command `rehearse`: a trace whose machine is moved on the way, and then compared with the one that arrived.
//!
//! The shape is tested before a disk is made: a disk beyond the limits is `vmig: shape 1`, and not `vmig: memory`. A trace
//! without events has no stop. Where memory is refused as the machine is received, the replies were made, so they are written,
//! and `vmig: memory` is reported after them. Equal is what an embedder can see: replies, lines, RAM and every sector. That all
//! else is equal too is in the contract of `rehearsal::rehearse`.

ghost use Rattle.std.specs.Prelude.{◌≡◌, ◌<◌, ◌++◌, ◌↔◌, List, length, map, IfErr, IfOk, IsTrue, None, OnErr, OnOk, flat_map};
ghost use Rattle.std.specs.Io.KnownBytes.{Appends};
ghost use Rattle.guestmem.specs.Item.{sector};
ghost use Rattle.machine.specs.EffectLaws.{HasItem, sector_on, sectors_on};
ghost use Rattle.machine.specs.Seen.{all_marks, state_of};
ghost use Rattle.sender.specs.declared.event.LiveReply.TheVariants.{Guest};
ghost use Rattle.traces.specs.Replies.{AppendsBeginning, live_reply_line};
ghost use Rattle.traces.specs.Trace.{Contents, contents_of};
ghost use Rattle.vmig.specs.Comparing.{AreRehearsedLines, AreSteady, HasVerdict, IsFreshMachine, IsRehearsed, LookAlike, TellsOfRehearsed, TellsOfRehearsing, WerePlayed, verdict_line};
ghost use Rattle.vmig.specs.Output.{FailsOnFile, HasDoneFile, HasWritten, RunFails};

use crate::checking::disks_of;
use crate::fault::Fault;
use crate::output::{flush, read_file, write_each};
use crate::playing::new_machine;
use guestmem::{PAGE_SIZE, Ram};
use machine::{Disk, Machine, MemDisk, NewError, Reply, SECTOR_SIZE};
use receiver::RecvError;
use rehearsal::{Rehearsal, rehearse};
use sender::{LiveEvent, LiveReply};
use std::alloc::Global;
use std::io::Write;
use std::rt::Files;
use traces::{Trace, WriteFault, parse, put};

/// The outcome of a rehearsed move.
#[derive(Clone, Copy, Debug, PartialEq, Eq)]
enum Verdict {
    /// Both machines answered alike, and are alike.
    Equal,

    /// They did not answer alike, or are not alike.
    Differ,

    /// No stop closed the stream.
    NoStop,

    /// The stream was refused.
    Refused(RecvError),
}

/// Plays the trace in the file of this name on a fresh machine with disks of zeros in memory, moves it on the way to another
/// with such disks, and plays the rest on both.
pub fn rehearse_trace<'a, R: Files + AllocGlobal, O: Write>(
    rt: &R,
    name: &'a str,
    out: &mut O,
) -> Result<(), Fault<'a>>
    ensures done { OnOk result (HasDoneFile AreRehearsedLines (O.contents out.old) (O.contents out.new)) }
    ensures failed { IfErr result (FailsOnFile name.entry.now TellsOfRehearsing AreRehearsedLines (O.contents out.old) (O.contents out.new)) }
{
    let text = read_file(rt, name)?;
    rehearse_text(rt.alloc(), text.as_slice(), out)
}

fn rehearse_text<O: Write>(alloc: Global, text: &[u8], out: &mut O) -> Result<(), Fault<'static>>
    ensures done { OnOk result (HasWritten (AreRehearsedLines text.now None) (O.contents out.old) (O.contents out.new)) }
    ensures failed { IfErr result (RunFails (TellsOfRehearsing text.now) (AreRehearsedLines text.now) (O.contents out.old) (O.contents out.new)) }
{
    let trace = parse(alloc, text)?;
    let (replies, verdict) = judge(rehearsed(alloc, &trace)?);
    if !were_played(trace.events.as_slice(), replies.as_slice()) {
        return Err(Fault::NoMemory);
    }
    write_verdict(replies.as_slice(), verdict, out)?;
    match verdict {
        Verdict::Equal => Ok(()),
        Verdict::Differ | Verdict::NoStop => Err(Fault::NotEqual),
        Verdict::Refused(error) => Err(Fault::from(error)),
    }
}

/// Whether events were played. Where memory is refused before the first one, there is no reply to any.
fn were_played(events: &[LiveEvent], replies: &[LiveReply]) -> bool
    ensures { IsTrue result ↔ WerePlayed events.now replies.now }
{
    events.is_empty() || !replies.is_empty()
}

/// The rehearsal of a trace. Its stream is fed in one piece.
fn rehearsed(alloc: Global, trace: &Trace) -> Result<Rehearsal<MemDisk, MemDisk>, Fault<'static>>
    ensures done { IfOk result (IsRehearsed (contents_of trace.now)) }
    ensures failed { IfErr result (TellsOfRehearsed (contents_of trace.now)) }
{
    let machine = fresh_machine(alloc, trace)?;
    let disks = disks_of(alloc, trace.shapes.as_slice())?;
    Ok(rehearse(alloc, machine, trace.events.as_slice(), disks, &[]))
}

/// The fresh machine of a trace, over disks of zeros. Its shape is tested before a disk is made: made without disks, a machine
/// that needs some is refused because they are missing, and one beyond the limits for its limits.
fn fresh_machine(alloc: Global, trace: &Trace) -> Result<Machine<MemDisk>, Fault<'static>>
    ensures fresh { IfOk result (IsFreshMachine (contents_of trace.now)) }
    ensures failed { IfErr result (TellsOfRehearsed (contents_of trace.now)) }
{
    let shapes = trace.shapes.as_slice();
    let none: Vec<MemDisk> = Vec::new(alloc);
    match new_machine(alloc, trace.pages, shapes, none) {
        Ok(machine) => Ok(machine),
        Err(NewError::DiskMismatch) => {
            let disks = disks_of(alloc, shapes)?;
            let machine = new_machine(alloc, trace.pages, shapes, disks)?;
            Ok(machine)
        }
        Err(NewError::BadShape) => Err(Fault::from(NewError::BadShape)),
        Err(NewError::NoMemory) => Err(Fault::NoMemory),
    }
}

/// The replies of the machine that was sent, and the outcome of its move.
fn judge<D: Disk + Drop, E: Disk + Drop>(rehearsal: Rehearsal<D, E>) -> (Vec<LiveReply>, Verdict)
    ensures { (c : Contents) → IsRehearsed c rehearsal → HasVerdict c result.0.items result.1 }
{
    match rehearsal {
        Rehearsal::Arrived {
            mut source,
            mut arrived,
            replies,
            arrived_replies,
        } => {
            if !are_equal(
                &mut source,
                &mut arrived,
                replies.as_slice(),
                arrived_replies.as_slice(),
            ) {
                return (replies, Verdict::Differ);
            }
            (replies, Verdict::Equal)
        }
        Rehearsal::NotStopped { source: _, replies } => (replies, Verdict::NoStop),
        Rehearsal::Refused {
            source: _,
            replies,
            error,
        } => (replies, Verdict::Refused(error)),
    }
}

/// Whether the machine that was sent and the one that arrived answered alike, and are alike.
fn are_equal<D: Disk + Drop, E: Disk + Drop>(
    source: &mut Machine<D>,
    arrived: &mut Machine<E>,
    replies: &[LiveReply],
    arrived_replies: &[Reply],
) -> bool
    ensures { (played : List LiveReply) (rest : List Reply) → replies.now ≡ played ++ map Guest rest → length rest ≡ length arrived_replies.now → AreSteady (all_marks source.old) → AreSteady (all_marks arrived.old) → IsTrue result ↔ ((arrived_replies.now ≡ rest) × LookAlike (state_of source.old) (state_of arrived.old)) }
{
    answer_alike(replies, arrived_replies) && are_alike(source, arrived)
}

/// Whether the last replies of the machine that was sent are those of the machine that arrived.
fn answer_alike(replies: &[LiveReply], arrived: &[Reply]) -> bool
    ensures { (played : List LiveReply) (rest : List Reply) → replies.now ≡ played ++ map Guest rest → length rest ≡ length arrived.now → IsTrue result ↔ (arrived.now ≡ rest) }
{
    if replies.len() < arrived.len() {
        return false;
    }
    let (_, last) = replies.split_at(replies.len() - arrived.len());
    for i in 0..arrived.len() {
        if !is_guest_reply(&last[i], &arrived[i]) {
            return false;
        }
    }
    true
}

fn is_guest_reply(reply: &LiveReply, guest: &Reply) -> bool
    ensures { IsTrue result ↔ (reply.now ≡ Guest guest.now) }
{
    match reply {
        LiveReply::Guest(reply) => reply == guest,
        _ => false,
    }
}

/// Whether two machines have the same lines, RAM and disks. A sector that a disk fails to read is not the same.
fn are_alike<D: Disk + Drop, E: Disk + Drop>(a: &mut Machine<D>, b: &mut Machine<E>) -> bool
    ensures a { state_of a.new ≡ state_of a.old }
    ensures b { state_of b.new ≡ state_of b.old }
    ensures alike { AreSteady (all_marks a.old) → AreSteady (all_marks b.old) → IsTrue result ↔ LookAlike (state_of a.old) (state_of b.old) }
{
    a.lines() == b.lines() && has_same_ram(a.ram(), b.ram()) && have_same_disks(a, b)
}

fn has_same_ram(a: &Ram, b: &Ram) -> bool
    ensures { IsTrue result ↔ (a.now.bytes ≡ b.now.bytes) }
{
    a.recall();
    b.recall();
    if a.len() != b.len() {
        return false;
    }
    for page in 0..a.len() / PAGE_SIZE as u64 {
        if a.page(page).as_slice() != b.page(page).as_slice() {
            return false;
        }
    }
    true
}

/// Whether the disks of two machines hold the same.
fn have_same_disks<D: Disk + Drop, E: Disk + Drop>(a: &mut Machine<D>, b: &mut Machine<E>) -> bool
    ensures a { state_of a.new ≡ state_of a.old }
    ensures b { state_of b.new ≡ state_of b.old }
    ensures same { AreSteady (all_marks a.old) → AreSteady (all_marks b.old) → IsTrue result ↔ ((state_of a.old).disks ≡ (state_of b.old).disks) }
{
    let devices = a.shapes().len();
    if b.shapes().len() != devices {
        return false;
    }
    for dev in 0..devices {
        if !have_same_disk(a, b, dev as u8) {
            return false;
        }
    }
    true
}

/// Whether the disks of the devices of this number hold the same.
fn have_same_disk<D: Disk + Drop, E: Disk + Drop>(
    a: &mut Machine<D>,
    b: &mut Machine<E>,
    dev: u8,
) -> bool
    requires here { dev < length (state_of a.old).devices }
    requires there { dev < length (state_of b.old).devices }
    ensures a { state_of a.new ≡ state_of a.old }
    ensures b { state_of b.new ≡ state_of b.old }
    ensures a_marks { IsTrue result → all_marks a.new ≡ all_marks a.old }
    ensures b_marks { IsTrue result → all_marks b.new ≡ all_marks b.old }
    ensures same { AreSteady (all_marks a.old) → AreSteady (all_marks b.old) → IsTrue result ↔ (sectors_on (state_of a.old) dev ≡ sectors_on (state_of b.old) dev) }
{
    let size = a.shapes()[dev as usize].sectors();
    let other = b.shapes()[dev as usize].sectors();
    if other != size {
        return false;
    }
    for n in 0..size {
        if !have_same_sector(a, b, dev, n) {
            return false;
        }
    }
    true
}

/// Whether a sector is the same in both. One that a disk fails to read is not.
fn have_same_sector<D: Disk + Drop, E: Disk + Drop>(
    a: &mut Machine<D>,
    b: &mut Machine<E>,
    dev: u8,
    n: u64,
) -> bool
    requires here { HasItem (state_of a.old) (sector dev n) }
    requires there { HasItem (state_of b.old) (sector dev n) }
    ensures a { state_of a.new ≡ state_of a.old }
    ensures b { state_of b.new ≡ state_of b.old }
    ensures a_marks { IsTrue result → all_marks a.new ≡ all_marks a.old }
    ensures b_marks { IsTrue result → all_marks b.new ≡ all_marks b.old }
    ensures same { AreSteady (all_marks a.old) → AreSteady (all_marks b.old) → IsTrue result ↔ (sector_on (sectors_on (state_of a.old) dev) n ≡ sector_on (sectors_on (state_of b.old) dev) n) }
{
    let mut here = [0u8; SECTOR_SIZE];
    let mut there = [0u8; SECTOR_SIZE];
    let Ok(is_good) = a.read_sector(dev, n, &mut here) else {
        return false;
    };
    let Ok(is_good_there) = b.read_sector(dev, n, &mut there) else {
        return false;
    };
    if is_good_there != is_good {
        return false;
    }
    !is_good || here.as_slice() == there.as_slice()
}

/// Writes the lines of the replies and that of the verdict, and flushes them; on a fault, a beginning of them was written.
fn write_verdict<O: Write>(
    replies: &[LiveReply],
    verdict: Verdict,
    out: &mut O,
) -> Result<(), WriteFault>
    ensures ok { OnOk result (Appends (O.contents out.old) (O.contents out.new) (flat_map live_reply_line replies.now ++ verdict_line verdict)) }
    ensures err { OnErr result (AppendsBeginning (O.contents out.old) (O.contents out.new) (flat_map live_reply_line replies.now ++ verdict_line verdict)) }
{
    write_each(replies, out)?;
    put_verdict(verdict, out)?;
    flush(out)
}

/// Writes the line of the verdict, if it has one; on a fault, a beginning of it was written.
fn put_verdict<O: Write>(verdict: Verdict, out: &mut O) -> Result<(), WriteFault>
    ensures ok { OnOk result (Appends (O.contents out.old) (O.contents out.new) (verdict_line verdict)) }
    ensures err { OnErr result (AppendsBeginning (O.contents out.old) (O.contents out.new) (verdict_line verdict)) }
{
    match verdict {
        Verdict::Equal => put(out, b"equal\n"),
        Verdict::Differ => put(out, b"differ\n"),
        Verdict::NoStop => put(out, b"no stop\n"),
        Verdict::Refused(_) => Ok(()),
    }
}
