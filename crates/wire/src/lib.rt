//! Whole machines as bytes: how each part of a stream is encoded and read, and which bytes are a stream of which machine.
//!
//! A stream is a header, the pages, the sectors and the ends of rounds in any order, each device once, and the digest
//! of all that comes before it. `specs/Stream` says which bytes are a stream of which machine; it uses `specs/Header`,
//! `specs/Records` and `specs/DeviceBody` (how each part is encoded; requests and frames in `specs/RequestText` and
//! `specs/FrameText`), and the machine's own `Sound` (which machines there are). Addresses stand in a stream as the guest wrote them,
//! and the address at which RAM begins does not: who reads a device names it. How parts are decoded is defined
//! separately (`specs/ShapeReading`, `specs/BodyReading`, `specs/RequestReading`, `specs/FrameReading`), and is proved to be the inverse
//! of the encoding.
//!
//! # What the layers above may rely on
//! - Each `encode_` function adds the encoding of its part to an honest sink, and where the sink digests, its digest covers the
//!   same bytes; each `decode_` function succeeds exactly on an encoding at the front, and `decode_device` on a body that is all of
//!   the bytes, of a device that is sound in a RAM from 0 on and that the version has, out of memory aside; `decode_device_at`
//!   names another address at which RAM begins.
//! - `read_header` tells a header as far as it has come: a header, its fault at the byte that shows it (`specs/HeaderFaults`), or that it is
//!   not whole. To `decode_header` a fault is no header.
//! - The trait `Sink`: the bytes held, a count of failures modulo 2^64, whether it is honest, and whether it is
//!   flushed: it is if the last call was a flush that succeeded (`specs/Sinks`). A page and a good sector go to it in
//!   one call each.
//! - A `Digesting` sink closes a stream by the record of the digest of what was put into it. `Eager` makes one of any sink, and digests each
//!   byte as it is put. `Waiting` keeps its bytes until they are taken, and digests them then, at the latest when the digest is asked for.
//!   `Told` keeps its bytes too, and digests nothing: whoever takes them tells the digest, and the record can be taken then.
//! - Three versions of the stream are read. A machine is written in version 3 if it has a network device for long frames or a disk outside,
//!   and else in version 2. Version 3 has two more shapes than version 2, those of such devices: it is read only where the limits allow one,
//!   and is no version of a machine that has none. A disk outside has no sector in a stream. Version 1 has another encoding of a page of zeros, and no block device whose driver accepted
//!   WRITE_ZEROES, so no request to clear sectors. They differ in nothing else. A page has one encoding in each.
//! - `laws`: no encoding of a record is a prefix of another's; a stream has one machine of each base, one number of rounds and one version;
//!   a sound machine has a stream in each version that has its devices, and the whole stream of it is one; what was taken from a `Told`, in its
//!   order, and what it holds are what was put.
//!
//! It uses `machine`, whose devices and shapes these are. The digest is `sha2`'s, whose contract says that it is the one of
//! FIPS 180-4.
#![tactic(auto)]

mod decode_error;
mod device_reading;
mod digesting;
mod fault_writer;
mod frame_reading;
mod frame_writing;
mod header;
mod header_error;
mod kind_reading;
pub mod laws;
mod lengths;
mod numbers;
mod past;
mod record;
mod record_head;
mod registers_text;
mod request_text;
mod request_writing;
mod sector_writing;
mod shape_spelling;
mod sink;
mod size_text;
mod telling;
mod waiting;
mod writing;

pub use decode_error::DecodeError;
pub use device_reading::{decode_device, decode_device_at};
pub use digesting::{Digesting, Eager, Nowhere};
pub use fault_writer::FaultWriter;
pub use header::{
    FIRST_VERSION, FRONT_LEN, Header, LATE_VERSION, MAGIC, VERSION, decode_header, is_version,
    read_header,
};
pub use header_error::HeaderError;
pub use lengths::{device_len, header_len, page_len};
pub use numbers::{u8_at, u32_at};
pub use past::{Added, Past};
pub use record::{Record, decode_record, has_record};
pub use record_head::{
    BAD_SECTOR_RECORD, BODY_MAX, COMMIT_RECORD, COMMIT_TAG, DEVICE_TAG, FoundHead,
    GOOD_SECTOR_RECORD, HEAD_MAX, PAGE_RECORD, PAGE_TAG, RECORD_MAX, ROUND_END_TAG, RecordHead,
    SECTOR_TAG, ZERO_PAGE_TAG, read_head,
};
pub use sector_writing::encode_sector;
pub use shape_spelling::{shape_at, shape_len};
pub use sink::{Sink, SinkFault, WriteSink};
pub use telling::Told;
pub use waiting::Waiting;
pub use writing::{
    encode_commit, encode_device, encode_header, encode_page, encode_round, encode_zero_page,
    write_page,
};
