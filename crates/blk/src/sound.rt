//! Whether requests that are given to a device may be outstanding.

ghost use Rattle.std.specs.Prelude.{◌≡◌, ◌≤◌, ◌<◌, ◌+◌, ◌^◌, ◌↔◌, IsTrue, length, true, false};
ghost use Rattle.std.specs.Bool.{MatchBool};
ghost use Rattle.chains.specs.Places.{places, AreSegmentsInside};
ghost use Rattle.blk.specs.Request.{is_good};
ghost use Rattle.blk.specs.Sound.{HasSoundWork, IsSoundRequest, IsSoundWork, MayEnd};

use crate::disk::SECTOR_SIZE;
use crate::request::{HEADER_SIZE, Kind, Request, SEGMENT_SIZE, Verdict};
use crate::shape::{ID_SIZE, Limits, ZEROES_MAX};
use chains::Seg;
use guestmem::is_within;

impl Request {
    /// Whether it may be outstanding, in a RAM of `ram_len` bytes with this base, on a ring of this layout with `size` slots,
    /// where the driver may ask for this.
    pub(crate) fn is_sound(
        &self,
        base: u64,
        ram_len: u64,
        is_packed: bool,
        size: u32,
        limits: Limits,
    ) -> bool
        ensures { IsTrue result ↔ IsSoundRequest base ram_len is_packed size limits self.now }
    {
        self.is_of_ring(is_packed, size)
            && self.has_segments(base, ram_len, size)
            && self.has_sound_bytes(limits)
    }

    /// Whether a ring can have its chain.
    fn is_of_ring(&self, is_packed: bool, size: u32) -> bool
        ensures { IsTrue result ↔ ((1 ≤ self.now.slots) × (self.now.slots ≤ size) × (self.now.id < 2 ^ 16) × MatchBool is_packed (Unit {0}) ((self.now.slots ≡ 1) × (self.now.id < size))) }
    {
        // The id is read in any case, since with that it is known to fit its 16 bits.
        let id = self.id;
        1 <= self.slots
            && self.slots as u32 <= size
            && (is_packed || (self.slots == 1 && (id as u32) < size))
    }

    /// Whether its segments are not too many, and lie inside a RAM of `ram_len` bytes with this base.
    fn has_segments(&self, base: u64, ram_len: u64, size: u32) -> bool
        ensures { IsTrue result ↔ ((length self.now.readable + length self.now.writable ≤ size) × AreSegmentsInside base ram_len self.now.readable × AreSegmentsInside base ram_len self.now.writable) }
    {
        let (readable, writable) = (self.readable.as_slice(), self.writable.as_slice());
        let size = size as usize;
        readable.len() <= size
            && writable.len() <= size - readable.len()
            && are_inside(readable, base, ram_len)
            && are_inside(writable, base, ram_len)
    }

    /// Whether its bytes are not too many, have room for its header and its verdict, and fit its kind.
    fn has_sound_bytes(&self, limits: Limits) -> bool
        ensures { IsTrue result ↔ ((length (places self.now.readable) + length (places self.now.writable) < 2 ^ 32) × (HEADER_SIZE ≤ length (places self.now.readable)) × (1 ≤ length (places self.now.writable)) × HasSoundWork limits self.now) }
    {
        let readable = self.readable.total_len();
        let writable = self.writable.total_len();
        let most = 1 << 32;
        readable < most
            && writable < most - readable
            && readable >= HEADER_SIZE as u64
            && writable >= 1
            && self.is_sound_work(readable, writable, limits)
    }

    /// Whether what it keeps fits its kind, for `readable` readable and `writable` writable bytes.
    fn is_sound_work(&self, readable: u64, writable: u64, limits: Limits) -> bool
        ensures { IsTrue result ↔ IsSoundWork self.now.kind readable writable limits self.now.verdict self.now.first self.now.units self.now.done }
    {
        let (units, may_end) = (self.units as u64, self.may_end());
        match self.kind {
            Kind::Refused => {
                !self.is_good() && self.first == 0 && self.units == 0 && self.done == 0
            }
            Kind::In => may_end
                && SECTOR_SIZE as u64 * units + 1 == writable
                && self.is_within(limits.sectors),
            Kind::Out => {
                may_end
                    && SECTOR_SIZE as u64 * units + HEADER_SIZE as u64 == readable
                    && self.is_within(limits.sectors)
                    && !limits.read_only
            }
            Kind::Flush => may_end && self.units == 1 && self.first == 0,
            Kind::GetId => {
                self.is_good()
                    && self.done <= self.units
                    && self.units == 1
                    && self.first == 0
                    && writable > ID_SIZE as u64
            }
            Kind::Zero => may_end && self.is_sound_range(readable, limits),
        }
    }

    /// Whether it names sectors that a request with `readable` readable bytes may clear.
    fn is_sound_range(&self, readable: u64, limits: Limits) -> bool
        ensures { IsTrue result ↔ ((HEADER_SIZE + SEGMENT_SIZE ≡ readable) × (self.now.units ≤ ZEROES_MAX) × (self.now.first + self.now.units ≤ limits.sectors) × (limits.read_only ≡ false) × (limits.may_clear ≡ true)) }
    {
        readable == (HEADER_SIZE + SEGMENT_SIZE) as u64
            && self.units <= ZEROES_MAX
            && self.is_within(limits.sectors)
            && !limits.read_only
            && limits.may_clear
    }

    /// Whether its verdict fits what is done of it.
    fn may_end(&self) -> bool
        ensures { IsTrue result ↔ MayEnd self.now.verdict self.now.done self.now.units }
    {
        match self.verdict {
            Verdict::Good => self.done <= self.units,
            Verdict::IoError => self.done < self.units,
            Verdict::Unsupported => false,
        }
    }

    /// Whether it met no error so far.
    fn is_good(&self) -> bool
        ensures { result ≡ is_good self.now.verdict }
    {
        match self.verdict {
            Verdict::Good => true,
            Verdict::IoError | Verdict::Unsupported => false,
        }
    }

    /// Whether its sectors are sectors of a disk of `capacity` sectors.
    fn is_within(&self, capacity: u64) -> bool
        ensures { IsTrue result ↔ (self.now.first + self.now.units ≤ capacity) }
    {
        let units = self.units as u64;
        units <= capacity && self.first <= capacity - units
    }
}

fn are_inside(segs: &[Seg], base: u64, ram_len: u64) -> bool
    ensures { IsTrue result ↔ AreSegmentsInside base ram_len segs.now }
{
    segs.iter()
        .all(|seg| is_within(base, ram_len, seg.addr, seg.len as u64))
}
