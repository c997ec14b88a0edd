//! Carries out the books that it is given: machines that are migrated while they run (`migrated`), and machines whose move is
//! rehearsed (`rehearsed`), by the folder that a book is in. Then it migrates to writers that fail at any byte. It writes the
//! name of each scenario that passes; the first that does not ends the program.
#![tactic(auto)]

mod failing_writer;
mod leg;
mod migration;
mod recording_disk;
mod rehearsed;
mod serving;

use anyhow::{Context, Result, bail};
use books::{Book, Scenario};
use std::io::Write;
use std::{env, fs};

fn show(rt: &HostRuntime, folder: &str, book: &Book, scenario: &Scenario) -> Result<()> {
    match folder {
        "migrated" => migration::show(rt.alloc(), book, scenario),
        "rehearsed" => rehearsed::show(rt.alloc(), book, scenario),
        _ => bail!("no such books"),
    }
}

/// Shows the scenarios of the book in this file.
fn show_book(rt: &HostRuntime, file: &str) -> Result<()> {
    let (folder, _) = file.split_once('/').context("a book is in a folder")?;
    let text = fs::read_to_string(rt, file)?;
    let book = Book::read(rt.alloc(), text.as_str())?;
    show_scenarios(rt, file, folder, &book)
}

fn show_scenarios(rt: &HostRuntime, file: &str, folder: &str, book: &Book) -> Result<()> {
    for scenario in book.scenarios() {
        show(rt, folder, book, scenario).context(scenario.name())?;
        println!(rt; "{file}: {}", scenario.name())?;
    }
    Ok(())
}

fn main(rt: HostRuntime) -> Result<()> {
    for file in env::args(&rt)?.skip(1) {
        show_book(&rt, file.as_str())?;
    }
    failing_writer::fails(rt.alloc())?;
    println!(rt; "a migration whose writer fails at any byte")?;
    Ok(())
}
