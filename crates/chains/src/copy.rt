//! The bytes of segments.
//!
//! A copy that lies in the first segment, wherever in it, is one copy without a loop.

ghost use Rattle.std.specs.Prelude.{ℕ, ◌≡◌, ◌∷◌, [], ◌+◌, ◌*◌, ◌<◌, ◌≤◌, ◌^◌, IsTrue, length, take, drop, slice_index_or};
ghost use Rattle.guestmem.specs.Item.{after_all, MayPages};
ghost use Rattle.guestmem.specs.Rises.{Rises};
ghost use Rattle.guestmem.specs.Writes.{byte_writes, set_all, touched};
ghost use Rattle.chains.specs.Frame.{HasServed};
ghost use Rattle.chains.specs.Places.{places, last_place, read_places, place_writes, AreSegmentsInside};
ghost use Rattle.chains.specs.declared.segs.Seg.{Seg};

use crate::segs::Seg;
use guestmem::{Ram, TouchLog};

/// Fills the buffer with the bytes of the concatenated segments, from offset `at` on. The segments lie inside RAM, which begins at
/// the guest-physical address 0, and have at least `at + buf.len()` bytes. It takes no memory.
#[inline(always)]
pub fn copy_out(ram: &Ram, segs: &[Seg], at: u64, buf: &mut [u8])
    requires inside { AreSegmentsInside 0 (length ram.now.bytes) segs.now }
    requires room { at + length buf.old ≤ length (places segs.now) }
    ensures { buf.new ≡ take (length buf.old) (drop at (read_places 0 ram.now.bytes (places segs.now))) }
{
    copy_out_with_base(ram, 0, segs, at, buf);
}

/// As `copy_out`, where RAM begins at the guest-physical address `base`.
#[inline(always)]
pub fn copy_out_with_base(ram: &Ram, base: u64, segs: &[Seg], at: u64, buf: &mut [u8])
    requires inside { AreSegmentsInside base (length ram.now.bytes) segs.now }
    requires room { at + length buf.old ≤ length (places segs.now) }
    ensures { buf.new ≡ take (length buf.old) (drop at (read_places base ram.now.bytes (places segs.now))) }
{
    ram.recall();
    // Most messages lie in one segment.
    if holds(segs, at, buf.len()) {
        ram.get(segs[0].addr - base + at, buf);
        return;
    }
    copy_out_of_many(ram, base, segs, at, buf);
}

/// As `copy_out_with_base`, segment by segment.
fn copy_out_of_many(ram: &Ram, base: u64, segs: &[Seg], at: u64, buf: &mut [u8])
    requires inside { AreSegmentsInside base (length ram.now.bytes) segs.now }
    requires room { at + length buf.old ≤ length (places segs.now) }
    ensures { buf.new ≡ take (length buf.old) (drop at (read_places base ram.now.bytes (places segs.now))) }
{
    ram.recall();
    let mut skip = at;
    let mut filled = 0;
    for seg in segs {
        let len = seg.len as u64;
        if skip >= len {
            skip -= len;
            continue;
        }
        let count = (buf.len() - filled).min((len - skip) as usize);
        ram.get(seg.addr - base + skip, &mut buf[filled..filled + count]);
        filled += count;
        skip = 0;
    }
}

/// Writes `bytes` at offset `at` of the concatenated segments. Where segments overlap the later byte wins. The pages of
/// these bytes are reported to the log. The segments lie inside RAM, which begins at the guest-physical address 0, and have at least
/// `at + bytes.len()` bytes. It takes no memory.
#[inline(always)]
pub fn copy_in<L: TouchLog>(ram: &mut Ram, segs: &[Seg], at: u64, bytes: &[u8], log: &mut L)
    requires inside { AreSegmentsInside 0 (length ram.old.bytes) segs.now }
    requires room { at + length bytes.now ≤ length (places segs.now) }
    requires may { MayPages L.may log.old (length ram.old.bytes) }
    ensures bytes { ram.new.bytes ≡ set_all ram.old.bytes (place_writes 0 (take (length bytes.now) (drop at (places segs.now))) bytes.now) }
    ensures log { log.new ≡ after_all L.after log.old (touched (place_writes 0 (take (length bytes.now) (drop at (places segs.now))) bytes.now)) }
    ensures rises { Rises (touched (place_writes 0 (take (length bytes.now) (drop at (places segs.now))) bytes.now)) ram.old ram.new }
    ensures after { HasServed L.may ram.old ram.new log.new }
{
    copy_in_with_base(ram, 0, segs, at, bytes, log);
}

/// As `copy_in`, where RAM begins at the guest-physical address `base`.
#[inline(always)]
pub fn copy_in_with_base<L: TouchLog>(
    ram: &mut Ram,
    base: u64,
    segs: &[Seg],
    at: u64,
    bytes: &[u8],
    log: &mut L,
)
    requires inside { AreSegmentsInside base (length ram.old.bytes) segs.now }
    requires room { at + length bytes.now ≤ length (places segs.now) }
    requires may { MayPages L.may log.old (length ram.old.bytes) }
    ensures bytes { ram.new.bytes ≡ set_all ram.old.bytes (place_writes base (take (length bytes.now) (drop at (places segs.now))) bytes.now) }
    ensures log { log.new ≡ after_all L.after log.old (touched (place_writes base (take (length bytes.now) (drop at (places segs.now))) bytes.now)) }
    ensures rises { Rises (touched (place_writes base (take (length bytes.now) (drop at (places segs.now))) bytes.now)) ram.old ram.new }
    ensures after { HasServed L.may ram.old ram.new log.new }
{
    ram.recall();
    // Most messages lie in one segment.
    if holds(segs, at, bytes.len()) {
        ram.put(segs[0].addr - base + at, bytes, log);
        return;
    }
    let mut skip = at;
    let mut rest = bytes;
    for seg in segs {
        let len = seg.len as u64;
        if skip >= len {
            skip -= len;
            continue;
        }
        let count = rest.len().min((len - skip) as usize);
        let (front, back) = rest.split_at(count);
        ram.put(seg.addr - base + skip, front, log);
        rest = back;
        skip = 0;
    }
}

/// Writes a byte to the last place of the segments, as `copy_in_with_base` does. Its page is reported to the log. The segments lie
/// inside RAM, and have a byte. It looks at no segment but the last one with a byte, and at empty ones after it. It takes no memory.
#[inline(always)]
pub fn copy_in_last<L: TouchLog>(ram: &mut Ram, base: u64, segs: &[Seg], byte: u8, log: &mut L)
    requires inside { AreSegmentsInside base (length ram.old.bytes) segs.now }
    requires some { 1 ≤ length (places segs.now) }
    requires may { MayPages L.may log.old (length ram.old.bytes) }
    ensures bytes { ram.new.bytes ≡ set_all ram.old.bytes (place_writes base (last_place segs.now) (byte ∷ [])) }
    ensures log { log.new ≡ after_all L.after log.old (touched (place_writes base (last_place segs.now) (byte ∷ []))) }
    ensures rises { Rises (touched (place_writes base (last_place segs.now) (byte ∷ []))) ram.old ram.new }
    ensures after { HasServed L.may ram.old ram.new log.new }
{
    ram.put_in_page(last_byte(ram, base, segs), &[byte], log);
}

/// Where in RAM the last byte of segments that have one is.
#[inline(always)]
fn last_byte(ram: &Ram, base: u64, segs: &[Seg]) -> u64
    requires inside { AreSegmentsInside base (length ram.now.bytes) segs.now }
    requires some { 1 ≤ length (places segs.now) }
    ensures inside { result < length ram.now.bytes }
    ensures last { (byte : ℕ) → place_writes base (last_place segs.now) (byte ∷ []) ≡ byte_writes result (byte ∷ []) }
{
    ram.recall();
    let mut left = segs.len();
    while left > 0 {
        left -= 1;
        let seg = segs[left];
        if seg.len > 0 {
            return seg.addr - base + (seg.len as u64 - 1);
        }
    }
    0
}

/// Whether `count` bytes from offset `at` on lie in the first segment.
#[inline(always)]
fn holds(segs: &[Seg], at: u64, count: usize) -> bool
    ensures some { IsTrue result → 0 < length segs.now }
    ensures fits { IsTrue result → (d : Seg) → at + count ≤ (slice_index_or segs.now 0 d).len }
{
    if segs.is_empty() {
        return false;
    }
    let len = segs[0].len as u64;
    at <= len && count as u64 <= len - at
}
