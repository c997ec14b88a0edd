//! The loop of a host that moves its guest to another host while it runs.

use crate::driver::{DISK, Exit};
use crate::host::{Host, disks};
use anyhow::{Result, bail};
use std::io::Write;
use vmig::{CopyAnswer, Live, Machine, MemDisk, Receiver, WriteSink};

/// A machine that is being migrated, and the bytes written for it.
type Moving = Live<MemDisk, WriteSink<Vec<u8>>>;

/// With at most this many dirty items the guest is paused, and the rest is sent.
const FEW: u64 = 1;

/// After this many rounds it is paused however many there are: a guest may write faster than its pages are sent.
const ROUNDS: u32 = 8;

/// The bytes of the stream that are sent at a time.
const PIECE: usize = 1000;

/// Migrates the machine, and gives the one that arrives. Its guest runs meanwhile, and is served as before: after each of its
/// exits one item is sent.
pub fn migrate(
    rt: &HostRuntime,
    host: Host<Machine<MemDisk>>,
    exits: &[Exit],
) -> Result<Machine<MemDisk>> {
    let sink = WriteSink::new(Vec::new(rt.alloc()));
    let Ok(live) = Live::new(rt.alloc(), host.into_guest(), sink) else {
        bail!("no memory to send the machine");
    };
    let stream = sent(rt, Host::of(live), exits)?;
    arrive(rt, stream.as_slice())
}

/// Sends the machine, and gives its stream. From then on this machine must not continue: the other one does.
fn sent(rt: &HostRuntime, mut host: Host<Moving>, exits: &[Exit]) -> Result<Vec<u8>> {
    send(rt, &mut host, exits)?;
    let (_stopped_machine, sink) = host.into_guest().into_parts();
    Ok(sink.into_inner())
}

/// Sends the machine while its guest comes to these exits, until few items are left, and stops it for the rest.
fn send(rt: &HostRuntime, host: &mut Host<Moving>, exits: &[Exit]) -> Result<()> {
    host.guest().begin()?;
    for exit in exits {
        host.run(rt, &[*exit])?;
        let _sent = host.guest().copy()?;
    }
    send_rounds(host.guest())?;
    let stopped = host.guest().stop()?;
    println!(rt;
        "host: paused the guest, and sent {} pages and {} sectors then",
        stopped.pages, stopped.sectors
    )?;
    Ok(())
}

/// Sends round after round, until few items are dirty.
fn send_rounds(live: &mut Moving) -> Result<()> {
    for _ in 0..ROUNDS {
        send_due(live)?;
        if live.remaining().dirty <= FEW {
            break;
        }
        let _begun = live.end_round()?;
    }
    Ok(())
}

/// Sends what is due. A host whose guest runs lets it run between two copies.
fn send_due(live: &mut Moving) -> Result<()> {
    for _ in 0..live.remaining().due {
        if let CopyAnswer::RoundDone = live.copy()? {
            break;
        }
    }
    Ok(())
}

/// Receives the machine of a stream over disks of the same sizes. What arrived is made durable before it runs here: its guest may have been
/// told of a flush long ago.
fn arrive(rt: &HostRuntime, stream: &[u8]) -> Result<Machine<MemDisk>> {
    let mut receiver = Receiver::new(rt.alloc(), disks(rt)?);
    feed(&mut receiver, stream)?;
    let mut machine = receiver.finish()?;
    make_durable(&mut machine)?;
    Ok(machine)
}

/// Feeds a stream in pieces.
fn feed(receiver: &mut Receiver<MemDisk>, stream: &[u8]) -> Result<()> {
    for piece in stream.chunks(PIECE) {
        receiver.feed(piece)?;
    }
    if !receiver.is_whole() {
        bail!("the stream is cut off");
    }
    Ok(())
}

fn make_durable(machine: &mut Machine<MemDisk>) -> Result<()> {
    if machine.flush_disk(DISK).is_err() {
        bail!("what arrived did not reach its disk: the machine continues where it came from");
    }
    Ok(())
}
