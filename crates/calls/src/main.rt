//! Calls the program as the given books say, and then with files and writers that fail, and writes the name of each scenario
//! that passes. The first that does not ends the program.
#![tactic(auto)]

mod call;
mod failing_file;
mod moved;
mod narrow;
mod text;

use anyhow::{Context, Result};
use books::Book;
use std::io::Write;
use std::{env, fs};

/// Makes the calls of the book in this file.
fn call_book(rt: &HostRuntime, file: &str) -> Result<()> {
    let text = fs::read_to_string(rt, file)?;
    let book = Book::read(rt.alloc(), text.as_str())?;
    call_scenarios(rt, file, &book)
}

fn call_scenarios(rt: &HostRuntime, file: &str, book: &Book) -> Result<()> {
    for scenario in book.scenarios() {
        call::make_calls(rt, scenario.lines()).context(scenario.name())?;
        println!(rt; "{file}: {}", scenario.name())?;
    }
    Ok(())
}

fn main(rt: HostRuntime) -> Result<()> {
    for file in env::args(&rt)?.skip(1) {
        call_book(&rt, file.as_str())?;
    }
    failing_file::fails(&rt)?;
    println!(rt; "a file that fails at any byte")?;
    narrow::fails(&rt)?;
    println!(rt; "standard output that fails at any byte")?;
    Ok(())
}
