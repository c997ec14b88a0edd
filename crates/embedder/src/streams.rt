//! Streams of machines, and their parts.

use crate::own_sink::OwnSink;
use anyhow::{Context, Result, bail, ensure};
use std::alloc::Global;
use vmig::{
    Machine, MemDisk, Receiver, Record, Shape, Sink, WriteSink, decode_device, decode_header,
    decode_record, encode_commit, encode_device, encode_header, encode_page, encode_round,
    encode_sector, encode_zero_page, receive, save,
};

/// The stream of a machine of one page of zeros and an entropy device, up to its device's record: the header, and a page of zeros.
const FRONT: [u8; 22] = [
    0x56, 0x4d, 0x49, 0x47, 2, 0, 0, 0, 1, 0, 0, 0, 1, 0, 0, 0, 4, 6, 0, 0, 0, 0,
];

/// The length of that stream: 22 bytes, the device's record of 6 and 64, and the digest's of 33.
const LEN: usize = 125;

/// Where the body of the device is.
const BODY: usize = 28;

/// Makes each call of a stream.
pub fn agree(alloc: Global) -> Result<()> {
    parts_are_encoded(alloc)?;
    let stream = stream_of(alloc)?;
    ensure!(stream.len() == LEN, "the length is {}", stream.len());
    ensure!(stream.starts_with(&FRONT), "the front of the stream");
    parts_are_read(alloc, stream.as_slice())?;
    machine_arrives(alloc, stream.as_slice())?;
    cut_is_refused(alloc, stream.as_slice())?;
    pieces_arrive(alloc, stream.as_slice())
}

/// A new machine of one page and an entropy device.
pub fn machine_of(alloc: Global) -> Result<Machine<MemDisk>> {
    Ok(Machine::new(alloc, 1, &[Shape::Entropy], Vec::new(alloc))?)
}

/// The whole stream of such a machine, by a sink of our own and by one over a writer.
fn stream_of(alloc: Global) -> Result<Vec<u8>> {
    let mut machine = machine_of(alloc)?;
    saved_twice(alloc, &mut machine)
}

fn saved_twice(alloc: Global, machine: &mut Machine<MemDisk>) -> Result<Vec<u8>> {
    let stream = saved(alloc, machine)?;
    let other = written(alloc, machine)?;
    ensure!(
        other.as_slice() == stream.as_slice(),
        "two streams of one machine"
    );
    Ok(stream)
}

/// The stream that a sink of our own holds.
fn saved(alloc: Global, machine: &mut Machine<MemDisk>) -> Result<Vec<u8>> {
    let mut sink = OwnSink::new(alloc);
    save(machine, &mut sink)?;
    ensure!(
        sink.is_flushed && sink.failures == 0,
        "the end of the stream"
    );
    Ok(sink.bytes)
}

/// The stream that a writer gets.
pub fn written(alloc: Global, machine: &mut Machine<MemDisk>) -> Result<Vec<u8>> {
    let mut sink = WriteSink::new(Vec::new(alloc));
    save(machine, &mut sink)?;
    Ok(sink.into_inner())
}

/// The parts of a stream, each in its own bytes.
fn parts_are_encoded(alloc: Global) -> Result<()> {
    let mut sink = OwnSink::new(alloc);
    front_is_encoded(&mut sink)?;
    round_is_encoded(&mut sink)?;
    bad_sector_is_encoded(&mut sink)?;
    rest_is_encoded(&mut sink)
}

fn front_is_encoded(sink: &mut OwnSink) -> Result<()> {
    encode_header(1, &[Shape::Entropy], sink)?;
    encode_zero_page(0, sink)?;
    ensure!(sink.bytes.as_slice() == FRONT.as_slice(), "the front");
    Ok(())
}

fn round_is_encoded(sink: &mut OwnSink) -> Result<()> {
    sink.bytes.clear();
    encode_round(1, sink)?;
    ensure!(
        sink.bytes.as_slice() == [3, 1, 0, 0, 0].as_slice(),
        "a round"
    );
    Ok(())
}

fn bad_sector_is_encoded(sink: &mut OwnSink) -> Result<()> {
    sink.bytes.clear();
    encode_sector(0, 2, None, sink)?;
    ensure!(
        sink.bytes.as_slice() == [2, 0, 2, 0, 0, 0, 0].as_slice(),
        "a bad sector"
    );
    Ok(())
}

fn rest_is_encoded(sink: &mut OwnSink) -> Result<()> {
    sink.bytes.clear();
    encode_page(0, &[1; 4096], sink)?;
    ensure!(sink.bytes.len() == 4101, "a page");
    encode_commit(&[7; 32], sink)?;
    ensure!(sink.bytes.len() == 4134, "a digest");
    sink.flush()?;
    Ok(())
}

/// What the bytes say.
fn parts_are_read(alloc: Global, stream: &[u8]) -> Result<()> {
    header_is_read(alloc, stream)?;
    page_is_read(stream.get(17..).context("no page")?)?;
    let body = body_of(stream.get(22..).context("no device")?)?;
    device_is_read(alloc, body, stream.get(22..92).context("no record")?)
}

fn header_is_read(alloc: Global, stream: &[u8]) -> Result<()> {
    let header = decode_header(alloc, stream)?.context("no header")?;
    ensure!(
        header.version == 2 && header.pages == 1 && header.len == 17,
        "the header"
    );
    ensure!(
        header.shapes.as_slice() == [Shape::Entropy].as_slice(),
        "the devices"
    );
    Ok(())
}

fn page_is_read(records: &[u8]) -> Result<()> {
    let (record, len) = decode_record(2, records).context("no record")?;
    ensure!(record == Record::ZeroPage(0) && len == 5, "the page");
    Ok(())
}

/// The body of the device, of which the records begin with that of the device.
fn body_of(records: &[u8]) -> Result<&[u8]> {
    let (record, len) = decode_record(2, records).context("no record")?;
    let Record::Device { number, body } = record else {
        bail!("no device");
    };
    ensure!(number == 0 && len == 70 && body.len() == 64, "the device");
    Ok(body)
}

/// The device is read, and is encoded as the same record.
fn device_is_read(alloc: Global, body: &[u8], record: &[u8]) -> Result<()> {
    let device = decode_device(alloc, 2, Shape::Entropy, 4096, body)?;
    let mut sink = OwnSink::new(alloc);
    encode_device(0, &device, &mut sink)?;
    ensure!(sink.bytes.as_slice() == record, "the device again");
    Ok(())
}

/// The machine arrives.
fn machine_arrives(alloc: Global, stream: &[u8]) -> Result<()> {
    let (machine, rounds) = receive(alloc, stream, no_disks(alloc))?;
    ensure!(rounds == 0 && machine.ram().len() == 4096, "what arrived");
    Ok(())
}

/// A stream without its last byte is refused.
fn cut_is_refused(alloc: Global, stream: &[u8]) -> Result<()> {
    let cut = stream.get(..LEN - 1).context("no beginning")?;
    ensure!(
        refusal_of(alloc, cut) == 13,
        "a stream without its last byte"
    );
    Ok(())
}

fn no_disks(alloc: Global) -> Vec<MemDisk> {
    Vec::new(alloc)
}

/// The number of a stream's refusal, or 0.
fn refusal_of(alloc: Global, stream: &[u8]) -> u8 {
    match receive(alloc, stream, no_disks(alloc)) {
        Ok(_) => 0,
        Err(error) => error.code(),
    }
}

/// The machine arrives in two pieces.
fn pieces_arrive(alloc: Global, stream: &[u8]) -> Result<()> {
    let mut receiver = Receiver::new(alloc, no_disks(alloc));
    takes_pieces(&mut receiver, stream)?;
    finishes(receiver)
}

fn finishes(receiver: Receiver<MemDisk>) -> Result<()> {
    let _machine = receiver.finish()?;
    Ok(())
}

fn takes_pieces(receiver: &mut Receiver<MemDisk>, stream: &[u8]) -> Result<()> {
    receiver.feed(stream.get(..BODY).context("no front")?)?;
    ensure!(
        receiver.held() == 6 && receiver.rounds() == 0,
        "what is held"
    );
    receiver.feed(stream.get(BODY..).context("no rest")?)?;
    Ok(())
}
