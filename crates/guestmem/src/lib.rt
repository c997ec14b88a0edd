//! Guest memory: one flat list of bytes, whose writes are reported page by page.
//!
//! A `Ram` is 1 to 4,294,967,295 pages of 4,096 bytes. Code above reads and writes it by the indexes of its bytes, from 0 up; pages occur only
//! as `index / 4096`, where a write is reported. Which index a guest-physical address means is in `specs/Address` (`index_of`):
//!
//! - each page has a version, which rises by one at every write into it and stays at the greatest `u64` once there, so that a cache
//!   can tell whether what it read is still current;
//! - whoever follows a migration hands a `TouchLog` to the code that writes, and gets every page and sector that was written.
//!   `NoLog` is for everybody else, and keeps nothing.
//!
//! # What the layers above may rely on
//! - `Ram::read` and `Ram::write` return `TooLong` (more than 4,096 bytes), then `OutOfRam`, by `refusal_of` alone. A refusal changes
//!   nothing, the caller's buffer neither. Else a read gives the bytes, and RAM after a write is `written`.
//! - `write` returns the pages that it went into. `get` and `put` are a read and a write of any length that the caller knows to lie
//!   inside RAM; `put` names each page that it touches to a `TouchLog`, which is then what the items make of it.
//! - Every write makes one copy and takes no memory.
//! - RAM after a write is a *later* one (`specs/Later`): no version fell, and a byte whose page has kept its version, unless that is
//!   the greatest, is what it was. By `later_in_turn` this holds through any list of writes. Every call above that writes RAM says
//!   it, up to `apply`.
//! - The versions rise in exactly the pages that are written (`specs/Rises`): a page that was not written keeps its version. By
//!   `rises_in_turn` this holds through any list of writes, and every call above says it of the items that it touched.
//! - The caller's part: page numbers below the number of pages; for `get` and `put`, bytes inside RAM.
//!
//! The contracts speak of the record `Memory` (`specs/Memory`: the bytes in order, the versions, and where the
//! bytes lie) and of the bytes of a page (`specs/Page`), of the little-endian number from an index on (`specs/Number`), of writes and
//! lists of writes (`specs/Write`, `specs/Writes`), of one RAM that is another one later (`specs/Later`, and the module `laws`), of
//! versions that rise (`specs/Rises`) and of the items that a log takes in (`specs/Item`, `specs/Among`). Nothing is trusted here
//! beside the toolchain, `byteorder` and, where RAM is in memory of a caller, what the caller promised of its region.
//!
//! # RAM in memory of a caller
//! The bytes of a RAM lie in memory of the library (`Ram::new`), or are those of a `region::Region` (`Ram::over`), which are read and
//! written in place. Every call is the same over both, and none moves the bytes: `place` in `Memory` says where they lie, and a
//! later RAM has them where the earlier one had. A RAM that is dropped drops the region that it keeps, whose bytes are then as they
//! were and the caller's again (`KeptRegion`).
//!
//! `Ram::lend` hands the region out, with all that was written so far, and keeps the versions as a `ParkedRam` (`specs/Lent`).
//! `ParkedRam::give_back` makes a RAM of them and of a region of the same length, whatever the caller wrote. The caller names the
//! pages that it wrote: their versions rise, and the log takes them in. If it wrote into no others and gives the same memory back, the
//! RAM is what the guest would have made of it by writing each of these pages whole (`given_back_is_written`). A page that was written
//! and not named keeps its version, so a cache or a migration may miss what was written, until `Ram::mark` names it: that is a write of
//! the page with the bytes that lie there (`marked_is_written`). None of these calls reads a byte of RAM or writes one; naming takes time
//! for the named pages alone.
//!
//! # What a guest-physical address means
//! A `Ram` numbers its bytes from 0, and so do pages, items and logs. A guest may have its RAM at another address: then an address of
//! the guest means the byte that is as far behind the first one as the address is behind RAM's base (`specs/Address`). The crates
//! above name that definition wherever they hold addresses as the guest wrote them; `is_within` is its test, and `access_refusal` says why an
//! access is refused.
//!
//! Logs are told of items by the trait `TouchLog`. `NoLog` keeps none, `Both` is two logs that take in the same items, and an `Option` of a log
//! keeps nothing where there is none.
//!
//! `is_zero` tells whether a page has zeros alone (`specs/Zeros`).
//!
//! An `ArrivingRam` is a RAM whose pages come one by one, as from a stream (`specs/Arriving`). `new` takes memory for it, and then a
//! page is written only when that page comes or a later one does (`specs/Fresh`), and where none came it reads as zeros. `over` puts
//! the pages into a RAM that is given. `into_ram` makes it a `Ram`. Its versions stay as they are: nobody can have read of it before.
//!
//! `Bytes` are bytes of any number that are handed on as one value: what was read, or what is to be written.
//!
//! A habit of these crates: a method `recall` changes nothing and returns nothing. Its contract is what every value of its type
//! keeps, of which a proof outside of the type knows nothing until the method is called. So a call of `recall` is a note to the
//! checker, and the lines after it rely on what it says.
#![tactic(auto)]

mod address;
mod arriving;
mod both;
mod bytes;
mod error;
mod fresh;
pub mod laws;
mod limits;
mod log;
mod maybe;
mod parked;
mod ram;
mod storage;
mod touched;
mod zero_page;

pub use address::{access_refusal, is_within};
pub use arriving::ArrivingRam;
pub use both::Both;
pub use bytes::Bytes;
pub use error::RamError;
pub use limits::{ACCESS_MAX, PAGE_SIZE, PAGES_GREATEST, PAGES_MAX};
pub use log::{NoLog, TouchLog};
pub use parked::ParkedRam;
pub use ram::{Ram, recall_bytes};
pub use std::alloc::AllocError as NoMemory;
pub use touched::Touched;
pub use zero_page::is_zero;
