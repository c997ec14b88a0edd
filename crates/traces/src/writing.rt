//! The lines of replies.

ghost use Rattle.std.specs.Prelude.{◌++◌, OnOk, OnErr, codes};
ghost use Rattle.std.specs.Io.KnownBytes.{Appends};
ghost use Rattle.traces.specs.Replies.{reply_line, live_reply_line, copied_line, pair_line, checked_line, value_text, bytes_text, newline, AppendsBeginning};

use crate::parts::{WriteFault, put, put_both, put_number, put_plain, put_with_digits};
use machine::Reply;
use sender::{Item, LiveReply};
use std::io::Write;

/// Writes `value 0x` and eight digits.
fn put_value<W: Write>(out: &mut W, value: u32) -> Result<(), WriteFault>
    ensures ok { OnOk result (Appends (W.contents out.old) (W.contents out.new) (codes "value " ++ value_text value ++ newline)) }
    ensures err { OnErr result (AppendsBeginning (W.contents out.old) (W.contents out.new) (codes "value " ++ value_text value ++ newline)) }
{
    let mut line = *b"value 0x00000000\n";
    let number = value.to_be_bytes();
    match hex::encode_to_slice(number.as_slice(), &mut line[8..16]) {
        Ok(()) => put(out, &line),
        Err(_) => Err(WriteFault),
    }
}

/// Writes the line of a stream that was checked, and LF: `ok P D R`, with the pages and the devices of its machine and
/// how many rounds ended in it, in decimal. After a fault a prefix of that line is written. It takes no memory.
#[tactic(auto, using(crate::proofs::Known::appends_on))]
pub fn write_checked<W: Write>(
    out: &mut W,
    pages: u32,
    devices: u32,
    rounds: u32,
) -> Result<(), WriteFault>
    ensures ok { OnOk result (Appends (W.contents out.old) (W.contents out.new) (checked_line pages devices rounds)) }
    ensures err { OnErr result (AppendsBeginning (W.contents out.old) (W.contents out.new) (checked_line pages devices rounds)) }
{
    put_plain(out, b"ok ", pages as u64)?;
    put_plain(out, b" ", devices as u64)?;
    put_number(out, b" ", rounds as u64)
}

/// Writes a word and bytes, or `-` for none.
#[tactic(auto, using(crate::proofs::Known::appends_on, crate::proofs::Known::begins_first, crate::proofs::Known::begins_on))]
fn put_bytes<W: Write>(out: &mut W, word: &[u8], bytes: &[u8]) -> Result<(), WriteFault>
    ensures ok { OnOk result (Appends (W.contents out.old) (W.contents out.new) (word.now ++ bytes_text bytes.now ++ newline)) }
    ensures err { OnErr result (AppendsBeginning (W.contents out.old) (W.contents out.new) (word.now ++ bytes_text bytes.now ++ newline)) }
{
    if bytes.is_empty() {
        return put_both(out, word, b"-\n");
    }
    put_with_digits(out, word, bytes)?;
    put(out, b"\n")
}

/// Writes a word, two numbers with a space between them, and LF, or after a fault a prefix of these.
#[tactic(auto, using(crate::proofs::Known::appends_on, crate::proofs::Known::begins_first, crate::proofs::Known::begins_on))]
fn put_pair<W: Write>(out: &mut W, word: &[u8], first: u64, second: u64) -> Result<(), WriteFault>
    ensures ok { OnOk result (Appends (W.contents out.old) (W.contents out.new) (pair_line word.now first second)) }
    ensures err { OnErr result (AppendsBeginning (W.contents out.old) (W.contents out.new) (pair_line word.now first second)) }
{
    put_plain(out, word, first)?;
    put_number(out, b" ", second)
}

/// Writes the line of an item that was sent.
fn put_copied<W: Write>(out: &mut W, item: Item) -> Result<(), WriteFault>
    ensures ok { OnOk result (Appends (W.contents out.old) (W.contents out.new) (copied_line item)) }
    ensures err { OnErr result (AppendsBeginning (W.contents out.old) (W.contents out.new) (copied_line item)) }
{
    match item {
        Item::Page(number) => put_number(out, b"copied page ", number as u64),
        Item::Sector { dev, sector } => {
            put_pair(out, b"copied sector ", dev as u64, sector as u64)
        }
    }
}

/// Writes the line of a reply to the guest's events and its LF. After a fault a prefix of that line is written. It
/// takes no memory.
pub fn write_guest_reply<W: Write>(reply: &Reply, out: &mut W) -> Result<(), WriteFault>
    ensures ok { OnOk result (Appends (W.contents out.old) (W.contents out.new) (reply_line reply.now)) }
    ensures err { OnErr result (AppendsBeginning (W.contents out.old) (W.contents out.new) (reply_line reply.now)) }
{
    match reply {
        Reply::Value(value) => put_value(out, *value),
        Reply::Done => put(out, b"done\n"),
        Reply::OutByte(byte) => put_bytes(out, b"out 0x", &[*byte]),
        Reply::Bytes(bytes) => put_bytes(out, b"bytes ", bytes.as_slice()),
        Reply::Idle => put(out, b"idle\n"),
        Reply::Taken => put(out, b"taken\n"),
        Reply::Moved => put(out, b"moved\n"),
        Reply::BadSector => put(out, b"badsector\n"),
        Reply::DiskFailed => put(out, b"diskfailed\n"),
        Reply::Completed(count) => put_number(out, b"completed ", *count as u64),
        Reply::Sent(bytes) => put_bytes(out, b"sent ", bytes.as_slice()),
        Reply::Dropped => put(out, b"dropped\n"),
        Reply::Accepted(count) => put_number(out, b"accepted ", *count as u64),
        Reply::NeedsReset => put(out, b"needsreset\n"),
        Reply::NoMemory => put(out, b"nomemory\n"),
        Reply::Refused(refusal) => put_number(out, b"refused ", refusal.code() as u64),
    }
}

/// Writes the line of a reply and its LF. After a fault a prefix of that line is written. It takes no memory.
pub fn write_reply<W: Write>(reply: &LiveReply, out: &mut W) -> Result<(), WriteFault>
    ensures ok { OnOk result (Appends (W.contents out.old) (W.contents out.new) (live_reply_line reply.now)) }
    ensures err { OnErr result (AppendsBeginning (W.contents out.old) (W.contents out.new) (live_reply_line reply.now)) }
{
    match reply {
        LiveReply::Guest(reply) => write_guest_reply(reply, out),
        LiveReply::Begun(round) => put_number(out, b"begun ", *round as u64),
        LiveReply::Copied(item) => put_copied(out, *item),
        LiveReply::RoundDone => put(out, b"rounddone\n"),
        LiveReply::RoundOpen => put(out, b"roundopen\n"),
        LiveReply::Stopped { pages, sectors } => put_pair(out, b"stopped ", *pages, *sectors),
        LiveReply::Mig(error) => put_number(out, b"mig ", error.code() as u64),
    }
}
