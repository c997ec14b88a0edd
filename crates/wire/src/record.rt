//! Decodes the records of a stream.
//!
//! The version is a parameter of `decode_record`, and may be any number: one that is not 1 has the records of version 2. A
//! header of another version is refused before.

ghost use Rattle.std.specs.Prelude.{◌≡◌, ◌≤◌, ◌↔◌, IsTrue, IfSome, MatchOption, length};
ghost use Rattle.wire.specs.RecordHeads.{body_len};
ghost use Rattle.wire.specs.Records.{BeginsRecord, BeginsNoRecord, IsOf, record_with, told};

use crate::header::FIRST_VERSION;
use crate::record_head::{FoundHead, RecordHead, read_head};
use guestmem::{PAGE_SIZE, is_zero};

/// One record of a stream, as it is in the bytes.
#[derive(Clone, Copy, Debug, PartialEq, Eq)]
pub enum Record<'a> {
    /// A page of RAM: its number and its 4,096 bytes.
    Page {
        number: u32,
        bytes: &'a [u8],
    },

    /// A sector of a device's disk: its 512 bytes, or none if it is bad.
    Sector {
        device: u8,
        number: u32,
        bytes: Option<&'a [u8]>,
    },

    /// The end of a round of copying, by its number.
    RoundEnd(u32),

    /// A device: its number and its body.
    Device {
        number: u8,
        body: &'a [u8],
    },

    /// The digest of all bytes before it.
    Commit(&'a [u8]),

    /// A page of RAM whose bytes are all 0, by its number. Since version 2.
    ZeroPage(u32),
}

/// Whether this version of the stream has the record of this head and this body: since version 2 there is a record for a page of zeros,
/// and no other encoding of such a page.
pub fn has_record(version: u32, head: RecordHead, body: &[u8]) -> bool
    requires { length body.now ≡ body_len head }
    ensures { IsTrue result ↔ IsOf version (record_with head body.now) }
{
    match head {
        RecordHead::Page { .. } => match body.first_chunk::<PAGE_SIZE>() {
            Some(page) => version == FIRST_VERSION || !is_zero(page),
            None => true,
        },
        RecordHead::ZeroPage { .. } => version != FIRST_VERSION,
        _ => true,
    }
}

/// Decodes the record at the front of the bytes, in a stream of this version; returns it and its length. `None` if no whole record
/// of this version is there. It takes no memory.
pub fn decode_record(version: u32, bytes: &[u8]) -> Option<(Record<'_>, usize)>
    ensures record { MatchOption result (BeginsNoRecord version bytes.now) (λ x. BeginsRecord version bytes.now (told x.0) x.1) }
    ensures within { IfSome result (λ x. x.1 ≤ length bytes.now) }
{
    let head = match read_head(bytes) {
        FoundHead::Whole(head) => head,
        _ => return None,
    };
    let (_, behind) = bytes.split_at(head.head_len());
    if behind.len() < head.body_len() {
        return None;
    }
    let (body, _) = behind.split_at(head.body_len());
    if !has_record(version, head, body) {
        return None;
    }
    Some((record_of(head, body), head.head_len() + body.len()))
}

fn record_of(head: RecordHead, body: &[u8]) -> Record<'_>
    ensures { told result ≡ record_with head body.now }
{
    match head {
        RecordHead::Page { number } => Record::Page {
            number,
            bytes: body,
        },
        RecordHead::Sector {
            device,
            number,
            is_good: true,
        } => Record::Sector {
            device,
            number,
            bytes: Some(body),
        },
        RecordHead::Sector {
            device,
            number,
            is_good: false,
        } => Record::Sector {
            device,
            number,
            bytes: None,
        },
        RecordHead::RoundEnd { number } => Record::RoundEnd(number),
        RecordHead::Device { number, .. } => Record::Device { number, body },
        RecordHead::Commit => Record::Commit(body),
        RecordHead::ZeroPage { number } => Record::ZeroPage(number),
    }
}
