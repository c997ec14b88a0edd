//! The program `vmig`: it hands its words, standard output and standard error to the library, and ends with the status that the
//! library returns.
#![tactic(auto)]

use std::io::{BufWriter, ErrorKind, Write};
use std::process::ExitCode;
use std::{env, io};

/// The words after the program's name.
fn words_of(rt: &HostRuntime) -> io::Result<Vec<String>> {
    let mut words = Vec::new(rt.alloc());
    for word in env::args(rt)?.skip(1) {
        words.push(word)?;
    }
    Ok(words)
}

/// A word that is not UTF-8 is in no command line of the program, so words with one are read as no words at all.
fn known_words_of(rt: &HostRuntime) -> io::Result<Vec<String>> {
    match words_of(rt) {
        Err(error) if error.kind() == ErrorKind::InvalidData => Ok(Vec::new(rt.alloc())),
        words => words,
    }
}

/// Runs the program. An error means out of memory.
fn run(rt: &HostRuntime) -> io::Result<u8> {
    let owned = known_words_of(rt)?;
    let mut words: Vec<&str> = Vec::new(rt.alloc());
    for word in &owned {
        words.push(word.as_str())?;
    }
    let mut out = BufWriter::new(rt.alloc(), io::writer(rt))?;
    let mut err = rt.stderr();
    Ok(vmig::execute(rt, words.as_slice(), &mut out, &mut err))
}

fn main(rt: HostRuntime) -> ExitCode {
    match run(&rt) {
        Ok(status) => ExitCode::from(status),
        Err(_) => {
            let mut err = rt.stderr();
            let _ = writeln!(err, "vmig: memory");
            ExitCode::from(1)
        }
    }
}
