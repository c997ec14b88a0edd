//! Writes the record of a sector to a sink.
//!
//! A bad sector has no bytes: what the source's disk holds there is nobody's. The record names its device by the number among
//! all devices, not among the disks.

ghost use Rattle.std.specs.Prelude.{◌≡◌, None, OnOk, Some, option_map};
ghost use Rattle.wire.specs.Records.{sector, spelled_record};
ghost use Rattle.wire.specs.Sinks.{Appends, Takes};

use crate::record_head::{GOOD_SECTOR_RECORD, RecordHead, SECTOR_HEAD, head_bytes};
use crate::sink::{Sink, SinkFault};
use machine::SECTOR_SIZE;

/// Writes the record of a sector: its 512 bytes, or none if it is bad.
pub fn encode_sector<S: Sink>(
    device: u8,
    number: u32,
    content: Option<&[u8; SECTOR_SIZE]>,
    out: &mut S,
) -> Result<(), SinkFault>
    ensures out { Appends (S.state out.old) (spelled_record (sector device number (option_map (λ b. b.now) content.entry))) result (S.state out.new) }
    ensures taken { OnOk result (Takes (S.sum out.old) (spelled_record (sector device number (option_map (λ b. b.now) content.entry))) (S.sum out.new)) }
{
    match content {
        Some(bytes) => write_sector(device, number, bytes, out),
        None => write_bad_sector(device, number, out),
    }
}

/// Writes the record of a good sector.
fn write_sector<S: Sink>(
    device: u8,
    number: u32,
    bytes: &[u8; SECTOR_SIZE],
    out: &mut S,
) -> Result<(), SinkFault>
    ensures out { Appends (S.state out.old) (spelled_record (sector device number (Some bytes.now))) result (S.state out.new) }
    ensures taken { OnOk result (Takes (S.sum out.old) (spelled_record (sector device number (Some bytes.now))) (S.sum out.new)) }
{
    out.put(&sector_record(device, number, bytes))
}

/// The whole record of a good sector, so that a sink is called once for it.
#[tactic(auto, unfolding(crate::specs::Records::spelled_record))]
fn sector_record(device: u8, number: u32, bytes: &[u8; SECTOR_SIZE]) -> [u8; GOOD_SECTOR_RECORD]
    ensures { result ≡ spelled_record (sector device number (Some bytes.now)) }
{
    let head = head_bytes(RecordHead::Sector {
        device,
        number,
        is_good: true,
    });
    let mut record = [0; GOOD_SECTOR_RECORD];
    record[..SECTOR_HEAD].copy_from_slice(&head[..SECTOR_HEAD]);
    record[SECTOR_HEAD..].copy_from_slice(bytes);
    record
}

/// Writes the record of a bad sector.
#[tactic(auto, unfolding(crate::specs::Records::spelled_record))]
fn write_bad_sector<S: Sink>(device: u8, number: u32, out: &mut S) -> Result<(), SinkFault>
    ensures out { Appends (S.state out.old) (spelled_record (sector device number None)) result (S.state out.new) }
    ensures taken { OnOk result (Takes (S.sum out.old) (spelled_record (sector device number None)) (S.sum out.new)) }
{
    let head = head_bytes(RecordHead::Sector {
        device,
        number,
        is_good: false,
    });
    out.put(&head[..SECTOR_HEAD])
}
