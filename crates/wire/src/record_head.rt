//! What a record is, byte by byte: a head, and the body that follows it.
//!
//! | record         | tag | fields, little-endian                        | head | body                                  |
//! |----------------|-----|----------------------------------------------|------|---------------------------------------|
//! | page           | 1   | number: 4                                    | 5    | 4,096: the page                       |
//! | good sector    | 2   | device: 1, number: 4, mark: 1, which is 1    | 7    | 512: the sector                       |
//! | bad sector     | 2   | device: 1, number: 4, mark: 1, which is 0    | 7    | none                                  |
//! | end of a round | 3   | number: 4                                    | 5    | none                                  |
//! | device         | 4   | number: 1, length of the body: 4             | 6    | 131,072 at most: as many as the field says |
//! | digest         | 5   | none                                         | 1    | 32: SHA-256 of all bytes before the tag |
//! | page of zeros  | 6   | number: 4                                    | 5    | none; since version 2                 |
//!
//! A new record is a new row here, a new variant of `RecordHead`, and an arm in each function of this file.
//!
//! `decode_record` and the receiver read heads by `read_head`, what writes takes them from `head_bytes`, and the encoding of a
//! record is defined as its head's and its body. `read_head` says how long an incomplete head will be, so a receiver that waits
//! for the rest asks for these bytes and no more, and what follows is taken from where the caller has it.

ghost use Rattle.std.specs.Prelude.{◌≡◌, ◌≤◌, ◌<◌, ◌^◌, ◌∷◌, ◌++◌, [], take, length};
ghost use Rattle.wire.specs.Numbers.{digits};
ghost use Rattle.wire.specs.RecordHeads.{ReadsHead, body_len, spelled_head};

use crate::numbers::{u8_at, u32_at};
use byteorder::{ByteOrder, LittleEndian};
use guestmem::PAGE_SIZE;
use machine::SECTOR_SIZE;

/// The tag of a page's record.
pub const PAGE_TAG: u8 = 1;

/// The tag of a sector's record.
pub const SECTOR_TAG: u8 = 2;

/// The tag of the record of the end of a round.
pub const ROUND_END_TAG: u8 = 3;

/// The tag of a device's record.
pub const DEVICE_TAG: u8 = 4;

/// The tag of the digest's record.
pub const COMMIT_TAG: u8 = 5;

/// The tag of the record of a page of zeros.
pub const ZERO_PAGE_TAG: u8 = 6;

/// The length of the head of a page, in bytes.
pub const PAGE_HEAD: usize = 5;

/// The length of the head of a sector, in bytes.
pub const SECTOR_HEAD: usize = 7;

/// The length of the head of the end of a round, in bytes.
pub const ROUND_END_HEAD: usize = 5;

/// The length of the head of a device, in bytes.
pub const DEVICE_HEAD: usize = 6;

/// The length of the head of the digest, in bytes.
pub const COMMIT_HEAD: usize = 1;

/// The length of the head of a page of zeros, in bytes.
pub const ZERO_PAGE_HEAD: usize = 5;

/// The length of the longest head, in bytes.
pub const HEAD_MAX: usize = SECTOR_HEAD;

/// The length of the digest, in bytes.
pub const DIGEST_LEN: usize = 32;

/// The length of the record of a page, in bytes.
pub const PAGE_RECORD: usize = PAGE_HEAD + PAGE_SIZE;

/// The length of the record of a good sector, in bytes.
pub const GOOD_SECTOR_RECORD: usize = SECTOR_HEAD + SECTOR_SIZE;

/// The length of the record of a bad sector, in bytes.
pub const BAD_SECTOR_RECORD: usize = SECTOR_HEAD;

/// The length of the record of a page of zeros, in bytes.
pub const ZERO_PAGE_RECORD: usize = ZERO_PAGE_HEAD;

/// The length of the record of the digest, in bytes.
pub const COMMIT_RECORD: usize = COMMIT_HEAD + DIGEST_LEN;

/// The greatest length of the body of a device, in bytes.
pub const BODY_MAX: usize = 131_072;

/// The most bytes of a record: of a device with the longest body.
pub const RECORD_MAX: usize = DEVICE_HEAD + BODY_MAX;

/// The head of a record: its tag and its fields of fixed length.
#[derive(Clone, Copy, Debug, PartialEq, Eq)]
pub enum RecordHead {
    /// Of a page of RAM.
    Page {
        number: u32,
    },

    /// Of a sector of a device's disk. A bad one has no bytes.
    Sector {
        device: u8,
        number: u32,
        is_good: bool,
    },

    /// Of the end of a round of copying.
    RoundEnd {
        number: u32,
    },

    /// Of a device, with the length of its body.
    Device {
        number: u8,
        len: u32,
    },

    /// Of the digest.
    Commit,

    /// Of a page of RAM whose bytes are all 0.
    ZeroPage {
        number: u32,
    },
}

/// What is at the front of the bytes, where a record should begin.
#[derive(Clone, Copy, Debug, PartialEq, Eq)]
pub enum FoundHead {
    /// An incomplete head, and its length as far as the bytes show.
    More(usize),

    /// A tag that no record has.
    NoSuchTag,

    /// A sector that is marked neither good nor bad.
    NoSuchMark,

    /// A head.
    Whole(RecordHead),
}

impl RecordHead {
    /// The length of the head, in bytes.
    pub fn head_len(self) -> usize
        ensures len { result ≡ length (spelled_head self) }
        ensures short { result ≤ 7 }
    {
        match self {
            RecordHead::Page { .. } => PAGE_HEAD,
            RecordHead::Sector { .. } => SECTOR_HEAD,
            RecordHead::RoundEnd { .. } => ROUND_END_HEAD,
            RecordHead::Device { .. } => DEVICE_HEAD,
            RecordHead::Commit => COMMIT_HEAD,
            RecordHead::ZeroPage { .. } => ZERO_PAGE_HEAD,
        }
    }

    /// The length of the body that follows the head, in bytes.
    pub fn body_len(self) -> usize
        ensures len { result ≡ body_len self }
        ensures short { result < 2 ^ 32 }
    {
        match self {
            RecordHead::Page { .. } => PAGE_SIZE,
            RecordHead::Sector { is_good: true, .. } => SECTOR_SIZE,
            RecordHead::Sector { is_good: false, .. } => 0,
            RecordHead::RoundEnd { .. } => 0,
            RecordHead::Device { len, .. } => len as usize,
            RecordHead::Commit => DIGEST_LEN,
            RecordHead::ZeroPage { .. } => 0,
        }
    }
}

/// Reads the head at the front of the bytes. It looks at seven of them at most.
pub fn read_head(bytes: &[u8]) -> FoundHead
    ensures { ReadsHead bytes.now result }
{
    let Some((tag, fields)) = bytes.split_first() else {
        return FoundHead::More(1);
    };
    match *tag {
        PAGE_TAG => page_head(fields),
        SECTOR_TAG => sector_head(fields),
        ROUND_END_TAG => round_head(fields),
        DEVICE_TAG => device_head(fields),
        COMMIT_TAG => FoundHead::Whole(RecordHead::Commit),
        ZERO_PAGE_TAG => zero_page_head(fields),
        _ => FoundHead::NoSuchTag,
    }
}

fn page_head(fields: &[u8]) -> FoundHead
    ensures { ReadsHead (1 ∷ fields.now) result }
{
    if fields.len() < 4 {
        return FoundHead::More(PAGE_HEAD);
    }
    let number = u32_at(fields, 0);
    FoundHead::Whole(RecordHead::Page { number })
}

fn sector_head(fields: &[u8]) -> FoundHead
    ensures { ReadsHead (2 ∷ fields.now) result }
{
    if fields.len() < 6 {
        return FoundHead::More(SECTOR_HEAD);
    }
    let device = u8_at(fields, 0);
    let number = u32_at(fields, 1);
    let mark = u8_at(fields, 5);
    if mark > 1 {
        return FoundHead::NoSuchMark;
    }
    let is_good = mark == 1;
    FoundHead::Whole(RecordHead::Sector {
        device,
        number,
        is_good,
    })
}

fn round_head(fields: &[u8]) -> FoundHead
    ensures { ReadsHead (3 ∷ fields.now) result }
{
    if fields.len() < 4 {
        return FoundHead::More(ROUND_END_HEAD);
    }
    let number = u32_at(fields, 0);
    FoundHead::Whole(RecordHead::RoundEnd { number })
}

fn device_head(fields: &[u8]) -> FoundHead
    ensures { ReadsHead (4 ∷ fields.now) result }
{
    if fields.len() < 5 {
        return FoundHead::More(DEVICE_HEAD);
    }
    let number = u8_at(fields, 0);
    let len = u32_at(fields, 1);
    FoundHead::Whole(RecordHead::Device { number, len })
}

fn zero_page_head(fields: &[u8]) -> FoundHead
    ensures { ReadsHead (6 ∷ fields.now) result }
{
    if fields.len() < 4 {
        return FoundHead::More(ZERO_PAGE_HEAD);
    }
    let number = u32_at(fields, 0);
    FoundHead::Whole(RecordHead::ZeroPage { number })
}

/// The bytes of a head, followed by zeros.
pub fn head_bytes(head: RecordHead) -> [u8; HEAD_MAX]
    ensures { take (length (spelled_head head)) result ≡ spelled_head head }
{
    match head {
        RecordHead::Page { number } => number_bytes(PAGE_TAG, number),
        RecordHead::Sector {
            device,
            number,
            is_good,
        } => pair_bytes(SECTOR_TAG, device, number, is_good as u8),
        RecordHead::RoundEnd { number } => number_bytes(ROUND_END_TAG, number),
        RecordHead::Device { number, len } => pair_bytes(DEVICE_TAG, number, len, 0),
        RecordHead::Commit => [COMMIT_TAG, 0, 0, 0, 0, 0, 0],
        RecordHead::ZeroPage { number } => number_bytes(ZERO_PAGE_TAG, number),
    }
}

fn number_bytes(tag: u8, number: u32) -> [u8; HEAD_MAX]
    ensures { result ≡ tag ∷ (digits 4 number ++ (0 ∷ (0 ∷ []))) }
{
    let mut bytes = [tag, 0, 0, 0, 0, 0, 0];
    LittleEndian::write_u32(&mut bytes[1..], number);
    bytes
}

fn pair_bytes(tag: u8, first: u8, number: u32, last: u8) -> [u8; HEAD_MAX]
    ensures { result ≡ tag ∷ (first ∷ (digits 4 number ++ (last ∷ []))) }
{
    let mut bytes = [tag, first, 0, 0, 0, 0, last];
    LittleEndian::write_u32(&mut bytes[2..], number);
    bytes
}
