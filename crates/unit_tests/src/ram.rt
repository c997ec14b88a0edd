//! Versions near the greatest one, and pages that come, into new memory and into a RAM that is given.

use guestmem::{ArrivingRam, Ram, Touched};
use std::process::Abort;
use std::test::Fail;

/// The version of a page, if there is such a page.
fn version_of(ram: &Ram, page: u64) -> Option<u64> {
    ram.recall();
    if page < ram.len() / 4096 {
        return Some(ram.version(page));
    }
    None
}

/// Pages begin at the version that was asked for. A write raises that of its page alone, and the greatest one stays.
fn greatest_version_stays(rt: &impl Abort, ram: &mut Ram) {
    assert_eq!(rt; ram.len(), 8192);
    assert_eq!(rt; version_of(ram, 0), Some(u64::MAX - 1));
    assert_eq!(rt; version_of(ram, 1), Some(u64::MAX - 1));
    for _write in 0..2 {
        assert_eq!(rt; ram.write(4095, &[7]), Ok(Touched::Pages(0, 0)));
        assert_eq!(rt; version_of(ram, 0), Some(u64::MAX));
        assert_eq!(rt; version_of(ram, 1), Some(u64::MAX - 1));
    }
    assert_eq!(rt; version_of(ram, 2), None);
}

#[test]
fn versions_near_the_greatest(rt: HostRuntime) -> Result<(), Fail> {
    let mut ram = Ram::with_version(rt.alloc(), 2, u64::MAX - 1)?;
    greatest_version_stays(&rt, &mut ram);
    Ok(())
}

/// The first byte of a page, if there is such a page.
fn first_byte(ram: &Ram, page: u64) -> Option<u8> {
    ram.recall();
    if page < ram.len() / 4096 {
        return Some(ram.page(page)[0]);
    }
    None
}

/// Fills a page with a byte, if there is such a page.
fn put_page_of(arriving: &mut ArrivingRam, page: u64, byte: u8) {
    arriving.recall();
    if page < arriving.len() / 4096 {
        arriving.put_page(page, &[byte; 4096]);
    }
}

/// Clears a page, if there is such a page.
fn clear_page_of(arriving: &mut ArrivingRam, page: u64) {
    arriving.recall();
    if page < arriving.len() / 4096 {
        arriving.clear_page(page);
    }
}

/// Pages come out of order, and one of them is cleared after it came. A page that did not come has zeros.
fn pages_arrive(rt: &impl Abort, arriving: ArrivingRam) {
    let mut arriving = arriving;
    put_page_of(&mut arriving, 0, 7);
    put_page_of(&mut arriving, 3, 9);
    put_page_of(&mut arriving, 1, 6);
    clear_page_of(&mut arriving, 0);
    clear_page_of(&mut arriving, 4);
    let ram = arriving.into_ram();
    assert_eq!(rt; ram.len(), 5 * 4096);
    assert_eq!(rt; first_byte(&ram, 0), Some(0));
    assert_eq!(rt; first_byte(&ram, 1), Some(6));
    assert_eq!(rt; first_byte(&ram, 2), Some(0));
    assert_eq!(rt; first_byte(&ram, 3), Some(9));
    assert_eq!(rt; first_byte(&ram, 4), Some(0));
    assert_eq!(rt; version_of(&ram, 3), Some(0));
}

#[test]
fn pages_out_of_order(rt: HostRuntime) -> Result<(), Fail> {
    let arriving = ArrivingRam::new(rt.alloc(), 5)?;
    pages_arrive(&rt, arriving);
    Ok(())
}

/// Pages come into a RAM that is given. One that does not come is as it was, and so are the versions.
fn pages_come_into(rt: &impl Abort, ram: Ram) {
    let mut arriving = ArrivingRam::over(ram);
    clear_page_of(&mut arriving, 0);
    put_page_of(&mut arriving, 1, 6);
    let ram = arriving.into_ram();
    assert_eq!(rt; ram.len(), 3 * 4096);
    assert_eq!(rt; first_byte(&ram, 0), Some(0));
    assert_eq!(rt; first_byte(&ram, 1), Some(6));
    assert_eq!(rt; first_byte(&ram, 2), Some(9));
    assert_eq!(rt; version_of(&ram, 1), Some(0));
    assert_eq!(rt; version_of(&ram, 2), Some(1));
}

#[test]
fn pages_into_a_given_ram(rt: HostRuntime) -> Result<(), Fail> {
    let mut ram = Ram::new(rt.alloc(), 3)?;
    assert_eq!(rt; ram.write(0, &[7]), Ok(Touched::Pages(0, 0)));
    assert_eq!(rt; ram.write(8192, &[9]), Ok(Touched::Pages(2, 2)));
    pages_come_into(&rt, ram);
    Ok(())
}
