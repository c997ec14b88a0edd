//! Memory for windows.

ghost use Rattle.std.specs.Prelude.{◌≡◌, length};

use anyhow::{Result, ensure};
use raw_box::OpenBox;
use region::{KeptRegion, Region};
use std::alloc::{AllocError, Global};

/// How many pages the RAM of each machine has.
pub const PAGES: u32 = 6;

/// How many bytes that is.
pub const BYTES: usize = 24_576;

/// Memory of the size of RAM, of zeros. It is never freed.
pub fn new_window(alloc: Global) -> Result<KeptRegion, AllocError> {
    let bytes = Box::new(alloc, [0u8; BYTES])?;
    Ok(KeptRegion::of(region_of(OpenBox::open(bytes))))
}

/// The bytes of a window.
pub fn bytes_of(window: &KeptRegion) -> Result<&[u8]> {
    ensure!(window.len() == BYTES, "the length of a window");
    Ok(window.as_slice())
}

/// The bytes of a window, for all of them to be written.
pub fn bytes_in(window: &mut KeptRegion) -> Result<&mut [u8]> {
    ensure!(window.len() == BYTES, "the length of a window");
    Ok(window.as_mut_slice())
}

/// Copies bytes into a window.
pub fn put(window: &mut KeptRegion, at: usize, bytes: &[u8]) -> Result<()> {
    let window = bytes_in(window)?;
    ensure!(
        at <= window.len() && bytes.len() <= window.len() - at,
        "past the end of a window"
    );
    window[at..at + bytes.len()].copy_from_slice(bytes);
    Ok(())
}

/// The bytes of an open box.
fn region_of(opened: OpenBox<[u8; BYTES], Global>) -> Region
    requires { length opened.held ≡ BYTES }
    ensures { result.content ≡ opened.held }
{
    let OpenBox { address, heap: _ } = opened;
    unsafe { Region::from_raw_parts(address as *mut u8, BYTES) }
}
