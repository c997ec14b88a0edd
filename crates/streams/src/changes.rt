//! Streams that differ from a given one by one change.

use anyhow::{Context, Result};
use books::spelled;
use std::alloc::Global;

/// What is changed.
#[derive(Clone, Copy, Debug, PartialEq, Eq)]
enum Change {
    Nothing,
    CutOff,
    ByteTurned,
    RecordTwice,
    RecordLeftOut,
    RecordsExchanged,
}

/// A stream, or the streams that differ from it by one change, each at another position. The text encodes the stream. After
/// `EACH BEGINNING OF` it stands for the bytes before each of its bytes, after `EACH BYTE TURNED IN` for the stream with the
/// complement of each byte. If its records are separated by ` | `, then after `EACH RECORD TWICE IN` it stands for the stream
/// with each record twice, after `EACH RECORD LEFT OUT OF` without each record, and after `EACH RECORD LATE IN` with each
/// record moved after the next one. The header counts as the first record.
#[derive(Drop)]
pub struct Streams<'t> {
    change: Change,
    text: &'t str,
    bytes: Vec<u8>,
}

impl<'t> Streams<'t> {
    /// The streams of a text.
    pub fn read(alloc: Global, text: &'t str) -> Result<Streams<'t>> {
        let (change, text) = change_of(text);
        let bytes = spelled(alloc, text)?;
        Ok(Streams {
            change,
            text,
            bytes,
        })
    }

    /// The stream that is not changed.
    pub fn whole(&self) -> &[u8] {
        self.bytes.as_slice()
    }

    /// The number of streams.
    pub fn count(&self) -> usize {
        let records = self.text.split(" | ").count();
        match self.change {
            Change::Nothing => 1,
            Change::CutOff | Change::ByteTurned => self.bytes.len(),
            Change::RecordTwice | Change::RecordLeftOut => records,
            Change::RecordsExchanged => records.saturating_sub(1),
        }
    }

    /// The stream that is changed at this position.
    pub fn stream(&self, alloc: Global, place: usize) -> Result<Vec<u8>> {
        match self.change {
            Change::Nothing => self.first(alloc, self.bytes.len()),
            Change::CutOff => self.first(alloc, place),
            Change::ByteTurned => self.turned(alloc, place),
            _ => self.with_records(alloc, place),
        }
    }

    /// The first bytes.
    fn first(&self, alloc: Global, count: usize) -> Result<Vec<u8>> {
        let mut bytes = Vec::new(alloc);
        bytes.extend_from_slice(&self.bytes[..count.min(self.bytes.len())])?;
        Ok(bytes)
    }

    fn turned(&self, alloc: Global, place: usize) -> Result<Vec<u8>> {
        let mut bytes = self.first(alloc, self.bytes.len())?;
        if let Some(byte) = bytes.get_mut(place) {
            *byte = !*byte;
        }
        Ok(bytes)
    }

    /// The stream of changed records.
    fn with_records(&self, alloc: Global, place: usize) -> Result<Vec<u8>> {
        let mut text = String::new(alloc);
        for (at, record) in self.text.split(" | ").enumerate() {
            let times = self.times(at, place);
            for _ in 0..times {
                text.push_str(record)?;
                text.push(' ')?;
            }
            if self.change == Change::RecordsExchanged && at == place.saturating_add(1) {
                let late = self.text.split(" | ").nth(place).context("no record")?;
                text.push_str(late)?;
                text.push(' ')?;
            }
        }
        spelled(alloc, text.as_str())
    }

    /// How often a record is at its position.
    fn times(&self, at: usize, place: usize) -> usize {
        if at != place {
            return 1;
        }
        match self.change {
            Change::RecordTwice => 2,
            Change::RecordLeftOut | Change::RecordsExchanged => 0,
            _ => 1,
        }
    }
}

/// The change that a text names, and the stream after it.
fn change_of(text: &str) -> (Change, &str) {
    let changes = [
        ("EACH BEGINNING OF ", Change::CutOff),
        ("EACH BYTE TURNED IN ", Change::ByteTurned),
        ("EACH RECORD TWICE IN ", Change::RecordTwice),
        ("EACH RECORD LEFT OUT OF ", Change::RecordLeftOut),
        ("EACH RECORD LATE IN ", Change::RecordsExchanged),
    ];
    for (words, change) in changes {
        if let Some(stream) = text.strip_prefix(words) {
            return (change, stream);
        }
    }
    (Change::Nothing, text)
}
