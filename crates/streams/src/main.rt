//! Carries out the books of streams that it is given: machines that are saved (`journey`), and streams that are refused
//! (`refusal`). Then it saves to writers that fail at any byte. It writes the name of each scenario that passes; the first that
//! does not ends the program.
#![tactic(auto)]

mod changes;
mod failing_sink;
mod journey;
mod refusal;
mod told;

use crate::journey::Journey;
use crate::refusal::tells;
use anyhow::{Context, Result};
use books::Book;
use std::alloc::Global;
use std::io::Write;
use std::{env, fs};

/// Lines with a line `saved as` are a journey; those of every other scenario are streams and what a receiver reports of them.
fn show(alloc: Global, lines: &str) -> Result<()> {
    if let Some(journey) = Journey::read(lines) {
        return journey.travel(alloc);
    }
    for line in lines.lines() {
        tells(alloc, line)?;
    }
    Ok(())
}

/// Shows the scenarios of the book in this file.
fn show_book(rt: &HostRuntime, file: &str) -> Result<()> {
    let text = fs::read_to_string(rt, file)?;
    let book = Book::read(rt.alloc(), text.as_str())?;
    show_scenarios(rt, file, &book)
}

fn show_scenarios(rt: &HostRuntime, file: &str, book: &Book) -> Result<()> {
    for scenario in book.scenarios() {
        show(rt.alloc(), scenario.lines()).context(scenario.name())?;
        println!(rt; "{file}: {}", scenario.name())?;
    }
    Ok(())
}

fn main(rt: HostRuntime) -> Result<()> {
    for file in env::args(&rt)?.skip(1) {
        show_book(&rt, file.as_str())?;
    }
    failing_sink::fails(rt.alloc())?;
    println!(rt; "a writer that fails at any byte")?;
    Ok(())
}
