//! Accesses to the configuration of the device.

ghost use Rattle.std.specs.Prelude.{◌≡◌, ◌<◌, slice_index_or};
ghost use Rattle.mmio.specs.Configuration.{configuration_value, configuration_effect, is_whole};

use crate::effect::Effect;

/// Whether an access of `width` bytes at an offset of the configuration is one of 1, 2 or 4 bytes, aligned to its
/// width.
fn is_whole(at: u32, width: u8) -> bool
    ensures { result ≡ is_whole at width }
{
    match width {
        1 => true,
        2 | 4 => at % width as u32 == 0,
        _ => false,
    }
}

/// The byte at an offset of the configuration; past the end it is 0.
fn byte_at(config: &[u8], at: usize) -> u32
    ensures value { result ≡ slice_index_or config.now at 0 }
    ensures fits { result < 256 }
{
    match config.get(at) {
        Some(byte) => *byte as u32,
        None => 0,
    }
}

/// What a read of the configuration gives; the offset `at` counts from its first byte.
pub(crate) fn configuration_value(config: &[u8], at: u32, width: u8) -> u32
    ensures { result ≡ configuration_value config.now at width }
{
    if !is_whole(at, width) {
        return 0;
    }
    let at = at as usize;
    let low = byte_at(config, at);
    if width == 1 {
        return low;
    }
    let low = low + 256 * byte_at(config, at + 1);
    if width == 2 {
        return low;
    }
    low + 65_536 * (byte_at(config, at + 2) + 256 * byte_at(config, at + 3))
}

/// What a write to the configuration means; the offset `at` counts from its first byte.
pub(crate) fn configuration_effect(at: u32, width: u8) -> Effect
    ensures { result ≡ configuration_effect at width }
{
    if is_whole(at, width) {
        Effect::ConfigWrite
    } else {
        Effect::None
    }
}
