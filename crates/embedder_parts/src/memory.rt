//! RAM.

use crate::own_log::OwnLog;
use anyhow::{Result, bail, ensure};
use guestmem::{Both, Ram, RamError, Touched, is_zero};
use std::alloc::Global;

/// The first version of the pages of a RAM that is told one.
const START: u64 = u64::MAX - 1;

/// Makes each call of a RAM.
pub fn agrees(alloc: Global) -> Result<()> {
    let mut ram = Ram::new(alloc, 2)?;
    ensure!(ram.len() == 8192, "the length");
    takes_bytes(&mut ram)?;
    refuses(&mut ram)?;
    pages_agree(&ram)?;
    named_page_is_told(Ram::new(alloc, 2)?)?;
    versions_agree(Ram::with_version(alloc, 1, START)?)
}

/// Two bytes across two pages are read as they were written.
fn takes_bytes(ram: &mut Ram) -> Result<()> {
    ensure!(
        ram.write(4095, &[0x11, 0x22]) == Ok(Touched::Pages(0, 1)),
        "a write across two pages"
    );
    ensure!(ram.write(8192, &[]) == Ok(Touched::NoPage), "no bytes");
    let mut bytes = [0; 2];
    ensure!(
        ram.read(4095, &mut bytes).is_ok() && bytes == [0x11, 0x22],
        "the bytes"
    );
    Ok(())
}

/// A write past the end, and one that is too long.
fn refuses(ram: &mut Ram) -> Result<()> {
    ensure!(
        code_of(ram.write(8191, &[0, 0])) == 1,
        "a write past the end"
    );
    ensure!(code_of(ram.write(0, &[0; 4097])) == 2, "a write too long");
    Ok(())
}

/// The number of a refusal, or 0.
fn code_of(written: Result<Touched, RamError>) -> u8 {
    match written {
        Ok(_) => 0,
        Err(error) => error.code(),
    }
}

/// The first page ends with what was written, and so neither page is one of zeros.
fn pages_agree(ram: &Ram) -> Result<()> {
    ram.recall();
    if ram.len() != 8192 {
        bail!("another length");
    }
    ensure!(ram.page(0)[4095] == 0x11, "the first page");
    ensure!(!is_zero(ram.page(0)) && !is_zero(ram.page(1)), "zeros");
    ensure!(is_zero(&[0; 4096]), "a page of zeros");
    Ok(())
}

/// A page that is named has a later version, and both logs take it in.
fn named_page_is_told(mut ram: Ram) -> Result<()> {
    ram.recall();
    if ram.len() != 8192 {
        bail!("another length");
    }
    ensure!(ram.version(1) == 0, "the first version");
    let mut log = Both {
        first: OwnLog::EMPTY,
        second: OwnLog::EMPTY,
    };
    ram.mark(&[1], &mut log);
    ensure!(log.first.is_touched && log.second.is_touched, "the logs");
    ram.recall();
    ensure!(ram.version(1) == 1, "the version");
    Ok(())
}

/// A version rises by one at a write, and stays at the greatest.
fn versions_agree(mut ram: Ram) -> Result<()> {
    ram.recall();
    ensure!(ram.version(0) == START, "the first version");
    for _write in 0..2 {
        ensure!(ram.write(0, &[1]).is_ok(), "a write");
        ram.recall();
        ensure!(ram.version(0) == u64::MAX, "the greatest version");
    }
    Ok(())
}
