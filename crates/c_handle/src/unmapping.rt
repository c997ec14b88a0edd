//! Images that the caller gets back.
//!
//! A machine whose disks are in memory of the library has none to give back: its slots stay as they are, and it is freed all the same.

ghost use Rattle.std.specs.Prelude.{◌≡◌, None, length, true};
ghost use Rattle.machine.specs.Shapes.{disk_sizes};
ghost use Rattle.c_handle.specs.Awaited.{is_over};
ghost use Rattle.c_handle.specs.Kept as states;
ghost use Rattle.c_handle.specs.Kept.{are_mapped, held_state, kept_of, state_in};
ghost use Rattle.c_machine.specs.Mapping.{counts};
ghost use Rattle.c_machine.specs.Named.{are_zeros};
ghost use Rattle.c_handle.specs.Unmapping.{AreHandedBack, HasReleasedFrom, HasUnmapped, disk_in, disks_in, held_by, images_of, release_refusal_in, release_refusal_of, slots_refusal};

use crate::arrival::Arrival;
use crate::kept::{Contents, Held, Kept, by_state};
use crate::migrating::taken_out;
use c_machine::give_back;
use c_machine::status::{BAD_IMAGES, LENT, TOO_SMALL};
use machine::{Device, Disk, Machine, Shape};
use mapped_disk::{Image, MappedDisk};
use receiver::Summing;

/// Why `vmig_release` is refused, if it is.
pub fn release_refusal(kept: &Kept, images: &mut [Image]) -> Option<u32>
    ensures same { images.new ≡ images.old }
    ensures refusal { result ≡ release_refusal_of kept.now images.old }
{
    let refusal = slots_refusal(image_count(&kept.held), images);
    by_state!(&kept.held;
        still(_) => refusal,
        moving(_) => refusal,
        lent(_) => Some(LENT),
        arriving(_) => refusal,
    )
}

/// How many images are given back by a release.
#[tactic(auto, using(crate::proofs::Handing::counted_arriving))]
pub(crate) fn image_count(held: &Held) -> usize
    ensures { result ≡ images_of (are_mapped held.now) (held_state held.now) }
{
    match held {
        Held::Own(_) => 0,
        Held::Mapped(contents) => disk_count(contents),
        Held::Arriving(arrival) => arrival.image_count(),
        Held::ToldArriving(arrival, _) => arrival.image_count(),
    }
}

/// How many devices of a machine have a disk.
#[tactic(auto, using(crate::proofs::Handing::counted, crate::proofs::Handing::counted_parked))]
fn disk_count<D: Disk>(contents: &Contents<D>) -> usize
    ensures { result ≡ images_of true (state_in contents.now) }
{
    match contents {
        Contents::Still(machine) => count_disks(machine.shapes()),
        Contents::Moving(live) => count_disks(live.machine().shapes()),
        Contents::Told(live) => count_disks(live.machine().shapes()),
        Contents::Lent(loan) => count_disks(loan.parked().shapes()),
    }
}

/// Why these slots cannot take the images of `disks` disks, if they cannot.
fn slots_refusal(disks: usize, images: &mut [Image]) -> Option<u32>
    ensures same { images.new ≡ images.old }
    ensures refusal { result ≡ slots_refusal disks images.old }
{
    if !are_none(images) {
        return Some(BAD_IMAGES);
    }
    if images.len() < disks {
        return Some(TOO_SMALL);
    }
    None
}

/// Whether no image has a sector.
fn are_none(images: &mut [Image]) -> bool
    ensures same { images.new ≡ images.old }
    ensures none { result ≡ are_zeros (counts images.old) }
{
    for at in 0..images.len() {
        if images[at].count() != 0 {
            return false;
        }
    }
    true
}

fn count_disks(shapes: &[Shape]) -> usize
    ensures { result ≡ length (disk_sizes shapes.now) }
{
    let mut count = 0;
    for shape in shapes {
        if let Shape::Block { .. } = *shape {
            count += 1;
        }
    }
    count
}

/// Takes what there is out of a handle that is freed next.
pub fn held_of(kept: &mut Kept) -> Held
    ensures state { held_state result ≡ kept.old.state }
    ensures kind { are_mapped result ≡ kept.old.is_mapped }
{
    // Its log goes with it.
    kept.output.written = None;
    taken_out(&mut kept.held)
}

/// Frees what there is, and puts its images into the slots.
pub fn release(held: Held, images: &mut [Image])
    requires { release_refusal_of (kept_of held) images.old ≡ None }
    ensures { HasReleasedFrom (are_mapped held) (held_state held) images.old images.new }
{
    match held {
        Held::Own(contents) => drop(contents),
        Held::Mapped(contents) => release_mapped(contents, images),
        Held::Arriving(arrival) => give_up(arrival, images),
        Held::ToldArriving(arrival, _) => give_up(arrival, images),
    }
}

fn release_mapped(contents: Contents<MappedDisk>, images: &mut [Image])
    requires { release_refusal_in (state_in contents) (slots_refusal (images_of true (state_in contents)) images.old) ≡ None }
    ensures { HasReleasedFrom true (state_in contents) images.old images.new }
{
    match contents {
        Contents::Still(machine) => hand_back(machine, images),
        Contents::Moving(live) => hand_back(live.abort(), images),
        Contents::Told(live) => hand_back(live.abort(), images),
        Contents::Lent(_) => unreachable!(),
    }
}

fn hand_back(machine: Machine<MappedDisk>, images: &mut [Image])
    requires { slots_refusal (length (disks_in machine.devices)) images.old ≡ None }
    ensures { HasUnmapped machine images.old images.new }
{
    let mut at = 0;
    for device in machine.into_devices() {
        let Some(image) = image_of(device) else {
            continue;
        };
        std::mem::replace(&mut images[at], image).gone();
        at += 1;
    }
}

/// Ends an arrival, and puts its images into the slots, if it has any.
#[tactic(auto, using(crate::proofs::Landings::none_given_up))]
fn give_up<S: Summing>(arrival: Arrival<S>, images: &mut [Image])
    requires { slots_refusal (images_of (is_over arrival) (states.Arriving arrival)) images.old ≡ None }
    ensures { HasReleasedFrom (is_over arrival) (states.Arriving arrival) images.old images.new }
{
    if let Some(disks) = arrival.into_images() {
        let count = disks.len();
        give_back(disks, &mut images[..count]);
    }
}

/// The image of a device's disk, if it has one.
fn image_of(device: Device<MappedDisk>) -> Option<Image>
    ensures { AreHandedBack (disk_in device) (held_by result) }
{
    let Shape::Block { .. } = device.state().shape() else {
        return None;
    };
    match device.into_sectors() {
        Some(sectors) => {
            let (disk, _bad) = sectors.into_parts();
            Some(disk.into_image())
        }
        None => Some(Image::none()),
    }
}
