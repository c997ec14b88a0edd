//! Bits of numbers, and the halves of a number of 64 bits.

ghost use Rattle.std.specs.Prelude.{◌≡◌};
ghost use Rattle.mmio.specs.Bits.{half_of, with_half};

/// The 32 bits that a selector names: 0 the low ones, 1 the high ones, and none otherwise.
pub(crate) fn half_of(number: u64, select: u32) -> u32
    ensures { result ≡ half_of number select }
{
    match select {
        0 => (number % (1 << 32)) as u32,
        1 => (number / (1 << 32)) as u32,
        _ => 0,
    }
}

/// The number with the 32 bits changed that a selector names: 0 the low ones, 1 the high ones, and none otherwise.
pub(crate) fn with_half(number: u64, select: u32, value: u32) -> u64
    ensures { result ≡ with_half number select value }
{
    match select {
        0 => number / (1 << 32) * (1 << 32) + value as u64,
        1 => value as u64 * (1 << 32) + number % (1 << 32),
        _ => number,
    }
}
