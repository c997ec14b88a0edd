//! How C asks for a machine: for one that is made, and for one that arrives.
//!
//! RAM and disks each come from the library or from the caller, and disks may be given contents: a call for each mixture would
//! be six, with more for each later wish. A struct has a version and reserved words, and its size never changes: a library that does
//! not know what a word asks for refuses (27), and a program that was built with an older header leaves it 0.
//!
//! What the struct names is in it: the call takes a `&mut` to a struct that holds slices and a slot, and its clause says what
//! is left of each. Nothing is passed beside it that has to fit it.
//!
//! A field with nothing in it asks for nothing: contents of no bytes are zeros, and no images are disks of the library, also
//! where the machine has disks. So a host whose list of images is empty by mistake gets disks of zeros. Contents beside images
//! are refused, and pages beside RAM of the caller unless they are as many: each would say the same thing twice.
//!
//! How large a machine may be is asked for by a flag, and no number: a host that names none gets the usual limits, whatever it hands in. A disk
//! outside takes no memory, so a flag says nothing of it: a setup asks for it by its shape, and an arrival allows it by a number or by its shapes.

ghost use Rattle.std.specs.Prelude.{◌≡◌, ◌≤◌, ◌==◌, length};
ghost use Rattle.c_machine.specs.Expected.{are_other_images, are_unfit_shapes, arrival_refusal_of, frame_allowed, header_limits, is_known_arrival, is_unfit_ram, outside_allowed};
ghost use Rattle.c_machine.specs.Made.{are_known, are_known_arriving, are_other_disks, arrival_limits, asks_large, asks_log, asks_told, block_size, is_bad_ram, is_known_frame, is_known_setup, limits_for, ram_bytes, setup_refusal_of};

use crate::description::FRAME_MAX;
use crate::device_shape::{DeviceShape, FRAME_END, are_zeros, is_usual_frame};
use crate::frames::longest_frame_of;
use crate::images::are_images;
use crate::making::{are_bad_shapes, are_plain};
use crate::mapping::are_counted;
use crate::outside::largest_outside_of;
use crate::over_ram::is_ram;
use crate::status::{BAD_BASE, BAD_IMAGES, BAD_RAM, BAD_SHAPE, NOT_KNOWN};
use guestmem::PAGE_SIZE;
use machine::{DEVICES_MAX, Limits, is_base};
use mapped_disk::Image;
use region::Slot;

/// The version of both structs that this library knows.
const KNOWN: u32 = 1;

/// The flag that allows a machine as large as its stream can tell.
pub const LARGE: u32 = 1;

/// The flag that asks for a log of the pages that calls write.
pub const LOG: u32 = 2;

/// A flag: the host tells the digest of the stream, and the library digests nothing.
pub const TOLD: u32 = 4;

/// How a machine is made.
#[repr(C)]
pub struct Setup<'a, 'i> {
    /// The version of this struct.
    pub version: u32,

    /// The pages of RAM. Where RAM is memory of the caller, as many as that has, or 0.
    pub pages: u32,

    /// The devices, in order.
    pub shapes: &'a [DeviceShape],

    /// The sectors of the disks, one after another, in the order of the devices. Where there are none, and no images, they are zeros.
    pub contents: &'a [u8],

    /// The images in which the disks lie, in the order of the devices. Where there are none the disks lie in memory of the library.
    pub images: &'i mut [Image],

    /// The memory that RAM is, with the bytes that are there. Where it has no bytes, RAM is zeros in memory of the library.
    pub ram: Slot,

    /// The guest-physical address at which RAM begins.
    pub base: u64,

    /// What else is asked for: any of `LARGE` and `LOG`.
    pub flags: u32,

    /// How many sectors the largest block has of the storage of its disks outside. 0 is 1.
    pub block: u32,

    /// The number of the first call of its disks outside.
    pub calls_from: u64,

    /// Zeros, until a later version asks for more by them.
    pub reserved: [u64; 3],
}

/// How a machine arrives.
#[repr(C)]
pub struct Expected<'a, 'i> {
    /// The version of this struct.
    pub version: u32,

    /// The most pages that its RAM may have, in memory of the library. 0 where RAM is memory of the caller.
    pub most_pages: u32,

    /// The most sectors that all its disks together may have, in memory of the library.
    pub most_sectors: u64,

    /// What its devices are, in order. Where there are none, any are let in.
    pub shapes: &'a [DeviceShape],

    /// The images that its disks will lie in, in the order of the devices. Where there are none, its disks will lie in memory of the
    /// library.
    pub images: &'i mut [Image],

    /// The memory that its RAM will be. Where it has no bytes, RAM will be memory of the library.
    pub ram: Slot,

    /// The guest-physical address at which RAM begins.
    pub base: u64,

    /// What else is asked for: any of `LARGE`, `LOG` and `TOLD`.
    pub flags: u32,

    /// The most bytes that a frame of its network devices may have, 1,514 to 65,535, more than 1,514 with `LARGE`. 0 are 1,514, and those that
    /// `shapes` name.
    pub frame: u32,

    /// The most sectors that each of its disks outside may have. 0: it may have none but those that `shapes` name.
    pub most_outside: u64,

    /// How many sectors the largest block has of the storage of its disks outside. 0 is 1.
    pub block: u32,

    /// 0.
    pub zero: u32,

    /// The number of the first call of its disks outside.
    pub calls_from: u64,

    /// Zeros, until a later version asks for more by them.
    pub reserved: [u64; 1],
}

/// Why no machine is made, apart from memory being refused, if so.
pub fn setup_refusal(setup: &mut Setup) -> Option<u32>
    ensures same { setup.new ≡ setup.old }
    ensures refusal { result ≡ setup_refusal_of setup.old }
{
    if !is_known_setup(setup) {
        return Some(NOT_KNOWN);
    }
    let limits = limits_for(setup.flags);
    let bytes = setup.ram.len();
    if is_bad_ram(limits, setup.pages, bytes) {
        return Some(BAD_RAM);
    }
    if are_bad_shapes(limits, setup.shapes) {
        return Some(BAD_SHAPE);
    }
    if !is_base(setup.base, ram_bytes(setup.pages, bytes)) {
        return Some(BAD_BASE);
    }
    if are_other_disks(setup) {
        return Some(BAD_IMAGES);
    }
    None
}

/// Whether this library knows all that the struct asks for.
fn is_known_setup(setup: &mut Setup) -> bool
    ensures same { setup.new ≡ setup.old }
    ensures known { result ≡ is_known_setup setup.old }
{
    setup.version == KNOWN && are_known(setup.flags) && are_zeros(&setup.reserved)
}

/// Whether the flags ask for what this library knows.
fn are_known(flags: u32) -> bool
    ensures { result ≡ are_known flags }
{
    flags <= LARGE + LOG
}

/// As above, of a machine that arrives.
fn are_known_arriving(flags: u32) -> bool
    ensures { result ≡ are_known_arriving flags }
{
    flags < 2 * TOLD
}

/// Whether the flags ask for a machine as large as can be.
pub fn asks_large(flags: u32) -> bool
    ensures { result ≡ asks_large flags }
{
    flags % 2 == LARGE
}

/// Whether the flags ask for a log of the pages that calls write.
pub fn asks_log(flags: u32) -> bool
    ensures { result ≡ asks_log flags }
{
    flags / LOG % 2 == 1
}

/// Whether the flags ask that the host tells the digest of the stream that arrives.
pub fn asks_told(flags: u32) -> bool
    ensures { result ≡ asks_told flags }
{
    flags / TOLD % 2 == 1
}

/// The limits of a machine that is made, or let arrive, with these flags. A disk outside is as large as can be: it takes no memory.
pub fn limits_for(flags: u32) -> Limits
    ensures { result ≡ limits_for flags }
{
    let greatest = Limits::greatest();
    if asks_large(flags) {
        return greatest;
    }
    Limits {
        outside: greatest.outside,
        ..Limits::usual()
    }
}

/// The limits of the devices that an arrival names: those of its flags, and frames of any length where it names a longest one.
pub fn arrival_limits(flags: u32, frame: u32) -> Limits
    ensures { result ≡ arrival_limits flags frame }
{
    let frames = if frame == 0 {
        Limits::usual()
    } else {
        Limits::greatest()
    };
    Limits {
        frame: frames.frame,
        ..limits_for(flags)
    }
}

/// The limits within which the header of a machine is read that arrives: those of its flags. What version 3 alone can tell, long frames and disks
/// outside, may be of any size, where the arrival allows some of it: that it is more than the arrival allows shows once the header is whole.
pub fn header_limits(flags: u32, frame: u32, outside: u64) -> Limits
    ensures { result ≡ header_limits flags frame outside }
{
    let late = if frame == 0 && outside == 0 {
        Limits::usual()
    } else {
        Limits::greatest()
    };
    Limits {
        frame: late.frame,
        outside: late.outside,
        ..limits_for(flags)
    }
}

/// How many sectors a disk outside may have at most that arrives: as many as the arrival allows, or one of the devices has that it names.
pub fn outside_allowed(expected: &mut Expected) -> u64
    ensures same { expected.new ≡ expected.old }
    ensures most { result ≡ outside_allowed expected.old }
{
    expected
        .most_outside
        .max(largest_outside_of(expected.shapes))
}

/// How many bytes a frame of a network device for long ones may have at most that arrives: as many as the arrival allows, or one of the devices is for
/// that it names. 0 where there may be no such device.
pub fn frame_allowed(expected: &mut Expected) -> u32
    ensures same { expected.new ≡ expected.old }
    ensures most { result ≡ frame_allowed expected.old }
{
    if !asks_large(expected.flags) {
        return 0;
    }
    let named = longest_frame_of(expected.shapes);
    if is_usual_frame(expected.frame) {
        return named;
    }
    named.max(expected.frame)
}

/// The sectors of a block of the storage of disks outside: 0 is 1.
pub fn block_size(block: u32) -> u32
    ensures size { result ≡ block_size block }
    ensures some { 1 ≤ result }
{
    block.max(1)
}

/// Whether `pages` pages, or `bytes` bytes of the caller, where there are any, are no RAM; or both are there and differ.
fn is_bad_ram(limits: Limits, pages: u32, bytes: usize) -> bool
    ensures { result ≡ is_bad_ram limits pages bytes }
{
    if !is_ram(limits, ram_bytes(pages, bytes)) {
        return true;
    }
    bytes != 0 && pages != 0 && PAGE_SIZE * pages as usize != bytes
}

/// The bytes of RAM: those of the caller's memory, or of `pages` pages, where there is none.
pub fn ram_bytes(pages: u32, bytes: usize) -> u64
    ensures { result ≡ ram_bytes pages bytes }
{
    if bytes != 0 {
        return bytes as u64;
    }
    PAGE_SIZE as u64 * pages as u64
}

/// Whether there are both contents and images, or those that there are do not fit the disks.
fn are_other_disks(setup: &mut Setup) -> bool
    ensures same { setup.new ≡ setup.old }
    ensures other { result ≡ are_other_disks setup.old }
{
    if is_none(setup.images) {
        return !setup.contents.is_empty() && !are_images(setup.contents.len(), setup.shapes);
    }
    !setup.contents.is_empty() || !are_counted(setup.images, setup.shapes)
}

/// Why no machine will arrive, apart from memory being refused, if so.
pub fn arrival_refusal(expected: &mut Expected) -> Option<u32>
    ensures same { expected.new ≡ expected.old }
    ensures refusal { result ≡ arrival_refusal_of expected.old }
{
    if !is_known_arrival(expected) {
        return Some(NOT_KNOWN);
    }
    let limits = arrival_limits(expected.flags, frame_allowed(expected));
    let bytes = expected.ram.len();
    if is_unfit_ram(limits, expected.most_pages, bytes) {
        return Some(BAD_RAM);
    }
    if are_unfit_shapes(limits, expected.shapes) {
        return Some(BAD_SHAPE);
    }
    if !is_base(expected.base, bytes as u64) {
        return Some(BAD_BASE);
    }
    if are_other_images(expected) {
        return Some(BAD_IMAGES);
    }
    None
}

/// Whether this library knows all that the struct asks for.
fn is_known_arrival(expected: &mut Expected) -> bool
    ensures same { expected.new ≡ expected.old }
    ensures known { result ≡ is_known_arrival expected.old }
{
    expected.version == KNOWN
        && are_known_arriving(expected.flags)
        && is_known_frame(expected.flags, expected.frame)
        && expected.zero == 0
        && are_zeros(&expected.reserved)
}

/// Whether an arrival with these flags may name such a longest frame: none, or one that a device can have.
fn is_known_frame(flags: u32, frame: u32) -> bool
    ensures { result ≡ is_known_frame flags frame }
{
    is_usual_frame(frame) || asks_large(flags) && frame > FRAME_MAX as u32 && frame < FRAME_END
}

/// Whether `bytes` bytes of the caller, where there are any, are no RAM, or pages are allowed beside them.
fn is_unfit_ram(limits: Limits, most_pages: u32, bytes: usize) -> bool
    ensures { result ≡ is_unfit_ram limits most_pages bytes }
{
    bytes != 0 && (most_pages != 0 || !is_ram(limits, bytes as u64))
}

/// Whether no machine within these limits has these devices. That there are none says nothing.
fn are_unfit_shapes(limits: Limits, shapes: &[DeviceShape]) -> bool
    ensures { result ≡ are_unfit_shapes limits shapes.now }
{
    shapes.len() > DEVICES_MAX || !are_plain(limits, shapes)
}

/// Whether there are images and devices, and the images are not those of their disks.
fn are_other_images(expected: &mut Expected) -> bool
    ensures same { expected.new ≡ expected.old }
    ensures other { result ≡ are_other_images expected.old }
{
    if is_none(expected.images) || expected.shapes.is_empty() {
        return false;
    }
    !are_counted(expected.images, expected.shapes)
}

/// Whether there is no image.
pub fn is_none(images: &mut [Image]) -> bool
    ensures same { images.new ≡ images.old }
    ensures none { result ≡ (length images.old == 0) }
{
    images.is_empty()
}
