//! The block device (VIRTIO 1.2, 5.2): its disk, its outstanding requests, and the steps that serve them.
//!
//! `Block` is a device: how many sectors its disk has, whether a driver may only read it, its id, and its outstanding requests.
//! `Block::take` takes the next chain of a ring of either layout as a `Request`. It reads the header of the request then, and keeps the
//! segments of the chain, with the addresses as the guest wrote them: they are never read again, whatever the driver writes later.
//! `Block::advance` advances an outstanding request by one unit, or reports its verdict and publishes its chain. What both read and
//! write lies at the index in RAM of such an address, by the base of the ring.
//!
//! The disk is any type that keeps the contract of the trait `Disk` (`specs/Disk`): `MemDisk` in memory, `FileDisk` in a file,
//! and `FaultDisk`, which fails by a plan. `Sectors` is a disk and the marks of those of its sectors that are bad: a write that
//! fails leaves any bytes, and its sector is bad until a write succeeds. Contracts see one list of sectors, each with its bytes
//! or bad (`specs/Sectors`).
//!
//! A driver that accepted the feature WRITE_ZEROES may ask for a range of sectors to be cleared: a request of the kind `Zero`,
//! of one segment, which writes zeros a sector at a time.
//!
//! # What the layers above may rely on
//! - `Block::take(site, features, ring, ram, log)` is `take_step` (`specs/Take`) over any `Ring`, where `Block::has_room`: a ninth request
//!   is not taken. Memory is refused only at a long queue, and then all is as it was.
//! - `Block::advance(job, ring, sectors, ram, log)` is `advance_step` (`specs/Advance`), with any disk: the answer, RAM, the ring, the
//!   device, the log and which sectors are bad are those of the step with the sectors as the disk gave them in it. Where no sector was
//!   written the sectors are known too. What a written sector holds, and that a disk gives what it holds, is said of honest disks.
//!   It takes no memory.
//! - It calls the disk once where it reads, writes, clears or flushes, and not where the sector is bad, for the id, nor where the request
//!   ends (`asks_at`): no body that calls it twice keeps the clause. Taking calls no disk.
//! - The count of failures rises by one exactly where the answer is `DiskFailed`, and a steady disk never fails. Requests stay
//!   sound and sectors whole, whatever the disk does.
//! - `Block::drop_requests_unless(is_ready)` drops the requests, as a reset does, unless their queue is ready.
//! - `Block::due_sync(k, features)` says whether what was written has to be durable before the next step of a request: that step
//!   makes a flush, or it ends a write of a driver that did not accept the feature FLUSH (`specs/Durable`). `advance` flushes the disk
//!   for the first, and never for the second, which is the host's part.
//! - `Block::fail_flush(k)` makes an outstanding flush as one whose disk failed, and calls no disk (`specs/Flush`): for a host that
//!   could not bring the bytes of the disk to the file that holds them.
//! - A disk may be outside of the machine, where the host asks `Request::disk_call` what a request wants and answers it: `Block::disk_gave`,
//!   `disk_did` and `disk_failed` are `answer_step` (`specs/Outside`), and say whether the request awaited the answer. They call no disk and
//!   take no memory. `Block::written_bytes` hands out what a write will write. `Block::advance_outside` advances a request that does not wait
//!   for its disk. A run of sectors is its parts (`specs/Parts`), and outside is inside (`specs/Inside`): laws of `src/laws.rt`.
//! - `Block::lacks` says which piece of RAM the next step of a request still lacks, where only some pieces are held (`specs/Footprint`).
//! - `Block::has_sound_requests` tests what every outstanding request keeps in a RAM with this base, for requests that come from
//!   elsewhere.
//! - `Disk::sectors` is called where a disk comes in, and once with each write.
//! - `Sectors::next_bad` names the least bad sector from one on, and `Sectors::read_good` reads one that is not bad, with no look
//!   at the marks.
//!
//! Other definitions: `specs/Task` (what a request asks for, by its header and the segment that may follow it), `specs/Move`
//! (one unit of a request), `specs/Sound` (what every outstanding request keeps), `specs/Block`, `specs/Shape` (the features that a
//! device offers, and its configuration space), `specs/Request`, `specs/FaultDisk` and `specs/FileDisk`. Nothing is trusted here
//! beside `byteorder` and the crates below; and what a file holds between two calls is not known to any contract.
#![tactic(auto)]

mod advancing;
mod block;
mod disk;
mod durable;
mod fault_disk;
mod file_disk;
mod flushing;
mod lacking;
mod laws;
mod mem_disk;
mod moving;
mod outside;
mod request;
mod requests;
mod sectors;
mod shape;
mod sound;
mod taking;
mod task;

pub use advancing::{Advanced, Job};
pub use block::Block;
pub use disk::{Disk, DiskFault, SECTOR_SIZE};
pub use durable::SyncOwed;
pub use fault_disk::FaultDisk;
pub use file_disk::FileDisk;
pub use laws::{
    answers_leave_sound, bytes_are_their_parts, outside_is_inside, units_are_their_parts,
};
pub use mem_disk::MemDisk;
pub use outside::{DiskCall, What};
pub use request::{Kind, Request, Verdict};
pub use requests::{REQUESTS_MAX, Requests};
pub use sectors::{Fetched, Sectors};
pub use shape::{
    CONFIGURATION_SIZE, DEVICE_ID, FLUSH, ID_SIZE, OUTSIDE_GREATEST, QUEUE_COUNT, RO,
    SECTORS_GREATEST, SECTORS_MAX, SEG_MAX, WRITE_ZEROES, configuration, features, is_block_shape,
    is_outside_shape, outside_configuration, outside_features,
};
