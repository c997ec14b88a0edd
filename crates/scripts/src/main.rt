//! Carries out the books of scripts that it is given: machines and what happens to them. Then it tries each value of the flags of a
//! descriptor. It writes the name of each scenario that passes; the first that does not ends the program.
#![tactic(auto)]

mod flags;
mod plain_ring;

use anyhow::{Context, Result};
use books::Book;
use scenarios::play_scenario;
use std::io::Write;
use std::{env, fs};

/// Shows the scenarios of the book in this file. Behind an `@` stands the address at which RAM begins, where that is not 0, by
/// its hexadecimal digits.
fn show_book(rt: &HostRuntime, word: &str) -> Result<()> {
    let (file, digits) = word.split_once('@').unwrap_or((word, "0"));
    let base = u64::from_str_radix(digits, 16)?;
    let text = fs::read_to_string(rt, file)?;
    let book = Book::read(rt.alloc(), text.as_str())?;
    show_scenarios(rt, word, &book, base)
}

fn show_scenarios(rt: &HostRuntime, word: &str, book: &Book, base: u64) -> Result<()> {
    for scenario in book.scenarios() {
        play_scenario(rt.alloc(), book, scenario, base).context(scenario.name())?;
        println!(rt; "{word}: {}", scenario.name())?;
    }
    Ok(())
}

fn main(rt: HostRuntime) -> Result<()> {
    for file in env::args(&rt)?.skip(1) {
        show_book(&rt, file.as_str())?;
    }
    flags::agree(rt.alloc())?;
    println!(rt; "each value of the flags of a descriptor")?;
    Ok(())
}
