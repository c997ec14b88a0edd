//! The program's words.
//!
//! An option follows the files. No name of a file begins with `-`, so no option can be taken for a name. Words that are not
//! UTF-8 are no words of the program.

ghost use Rattle.std.specs.Prelude.{◌≡◌, map, true, false, IfOk, IfErr};
ghost use Rattle.vmig.specs.Words.{are_resume_options, are_run_options, is_check_line, is_name, is_option, is_outside_option, is_program_line, is_rehearse_line, is_resume_line, is_run_line, is_verb_and_file, named_file, Asks};
ghost use Rattle.vmig.specs.declared.words.WordsError.TheVariants.{Usage, NoMemory};
ghost use Rattle.clap.specs.Words.{app_of, kind_of, rule_of};
ghost use Rattle.vmig.specs.Commands.{check_command, file_argument, file_command, file_option, plain_option, resume_command, run_command};
ghost use Rattle.clap.specs.declared.error.kind.ErrorKind.TheVariants.{OutOfMemory};

use clap::error::ErrorKind;
use clap::{Arg, ArgAction, Command, Error};
use std::alloc::{AllocError, Global};

/// What the words ask for. Each name is that of a file.
#[derive(Clone, Copy, Debug, PartialEq, Eq)]
pub enum Request<'a> {
    /// Play the trace, over the image of a disk or over none, and write the stream of its machine, if it is sent.
    Run {
        trace: &'a str,
        image: Option<&'a str>,
        stream: Option<&'a str>,
    },

    /// Receive the stream, over the image of a disk or over none, and play the trace on its machine. `outside`: its disks may be outside.
    Resume {
        stream: &'a str,
        trace: &'a str,
        image: Option<&'a str>,
        outside: bool,
    },

    /// Check the stream. `outside`: the disks of its machine may be outside.
    Check {
        stream: &'a str,
        outside: bool,
    },

    /// Play the trace, move its machine on the way, and compare both machines.
    Rehearse {
        trace: &'a str,
    },
}

/// Why the words are no request.
#[derive(Clone, Copy, Debug, PartialEq, Eq)]
pub enum WordsError {
    /// They are none of the program's command lines.
    Usage,

    /// Memory was refused.
    NoMemory,
}

impl From<AllocError> for WordsError {
    ghost from_gives = { λ _ refusal. refusal ≡ NoMemory };

    fn from(_error: AllocError) -> WordsError {
        WordsError::NoMemory
    }
}

impl From<Error> for WordsError {
    ghost from_gives = { λ error refusal. kind_of error ≡ OutOfMemory → refusal ≡ NoMemory };

    fn from(error: Error) -> WordsError {
        match error.kind() {
            ErrorKind::OutOfMemory => WordsError::NoMemory,
            _ => WordsError::Usage,
        }
    }
}

/// Whether a word can be a file's name: an option begins with `-`.
fn is_file_name(word: &str) -> bool
    ensures { result ≡ is_name word.now }
{
    !word.starts_with('-')
}

/// Whether the words are this option and the name of a file, or none.
fn is_option(option: &str, words: &[&str]) -> bool
    ensures { result ≡ is_option option.now (map (λ word. word.now) words.now) }
{
    match words {
        [] => true,
        [word, name] => *word == option && is_file_name(name),
        _ => false,
    }
}

/// Whether the words are `--outside`, or none.
fn is_outside_option(words: &[&str]) -> bool
    ensures { result ≡ is_outside_option (map (λ word. word.now) words.now) }
{
    match words {
        [] => true,
        [word] => *word == "--outside",
        _ => false,
    }
}

/// Whether the words are the disk of a machine that arrives and `--outside`, in this order; each may be missing.
#[tactic(auto, unfolding(crate::specs::Words::are_resume_options))]
fn are_resume_options(words: &[&str]) -> bool
    ensures { result ≡ are_resume_options (map (λ word. word.now) words.now) }
{
    match words {
        [disk, image, outside @ ..] => {
            *disk == "--disk" && is_file_name(image) && is_outside_option(outside)
        }
        _ => is_outside_option(words),
    }
}

/// Whether the words are the disk of a run and its stream, in this order; each may be missing.
fn are_run_options(words: &[&str]) -> bool
    ensures { result ≡ are_run_options (map (λ word. word.now) words.now) }
{
    match words {
        [disk, image, stream @ ..] if *disk == "--disk" => {
            is_file_name(image) && is_option("--out", stream)
        }
        _ => is_option("--out", words),
    }
}

fn is_run_line(words: &[&str]) -> bool
    ensures { result ≡ is_run_line (map (λ word. word.now) words.now) }
{
    match words {
        [verb, trace, options @ ..] => {
            *verb == "run" && is_file_name(trace) && are_run_options(options)
        }
        _ => false,
    }
}

fn is_resume_line(words: &[&str]) -> bool
    ensures { result ≡ is_resume_line (map (λ word. word.now) words.now) }
{
    match words {
        [verb, stream, trace, options @ ..] => {
            *verb == "resume"
                && is_file_name(stream)
                && is_file_name(trace)
                && are_resume_options(options)
        }
        _ => false,
    }
}

fn is_check_line(words: &[&str]) -> bool
    ensures { result ≡ is_check_line (map (λ word. word.now) words.now) }
{
    match words {
        [verb, stream, options @ ..] => {
            *verb == "check" && is_file_name(stream) && is_outside_option(options)
        }
        _ => false,
    }
}

fn is_rehearse_line(words: &[&str]) -> bool
    ensures { result ≡ is_rehearse_line (map (λ word. word.now) words.now) }
{
    match words {
        [verb, trace] => *verb == "rehearse" && is_file_name(trace),
        _ => false,
    }
}

/// Reads the words that follow the program's name. Words that are none of its command lines are refused before any memory is
/// asked for, and others only if memory is refused.
pub fn read_words<'a>(alloc: Global, words: &'a [&'a str]) -> Result<Request<'a>, WordsError>
    ensures usage { is_program_line (map (λ word. word.now) words.entry.now) ≡ false → result ≡ Err Usage }
    ensures known { is_program_line (map (λ word. word.now) words.entry.now) ≡ true → IfErr result (λ refusal. refusal ≡ NoMemory) }
    ensures asks { IfOk result (Asks (map (λ word. word.now) words.entry.now)) }
{
    if is_run_line(words) {
        return read_run(alloc, words);
    }
    if is_resume_line(words) {
        return read_resume(alloc, words);
    }
    if is_check_line(words) {
        return read_check(alloc, words);
    }
    if is_rehearse_line(words) {
        let trace = read_file_word(alloc, words)?;
        return Ok(Request::Rehearse { trace });
    }
    Err(WordsError::Usage)
}

/// A file that must be given.
fn file<'a>(alloc: Global, id: &'a str) -> Arg<'a>
    ensures rule { rule_of result ≡ file_argument id.entry.now }
    ensures local { result.global ≡ false }
{
    Arg::new(alloc, id).required(true).action(ArgAction::Set)
}

/// An option with a file.
fn option<'a>(alloc: Global, name: &'a str) -> Arg<'a>
    ensures rule { rule_of result ≡ file_option name.entry.now }
    ensures local { result.global ≡ false }
{
    Arg::new(alloc, name).long(name).action(ArgAction::Set)
}

/// An option alone.
fn plain_option<'a>(alloc: Global, name: &'a str) -> Arg<'a>
    ensures rule { rule_of result ≡ plain_option name.entry.now }
    ensures local { result.global ≡ false }
{
    Arg::new(alloc, name).long(name).action(ArgAction::SetTrue)
}

/// `run` as clap knows it.
fn run_command<'a>(alloc: Global) -> Result<Command<'a>, AllocError>
    ensures { IfOk result (λ command. app_of command ≡ run_command) }
{
    let named = Command::new(alloc, "run").arg(file(alloc, "trace"))?;
    let over = named.arg(option(alloc, "disk"))?;
    let command = over.arg(option(alloc, "out"))?;
    Ok(command)
}

/// `resume` as clap knows it.
fn resume_command<'a>(alloc: Global) -> Result<Command<'a>, AllocError>
    ensures { IfOk result (λ command. app_of command ≡ resume_command) }
{
    let sent = Command::new(alloc, "resume").arg(file(alloc, "stream"))?;
    let named = sent.arg(file(alloc, "trace"))?;
    let over = named.arg(option(alloc, "disk"))?;
    let command = over.arg(plain_option(alloc, "outside"))?;
    Ok(command)
}

/// `check` as clap knows it.
fn check_command<'a>(alloc: Global) -> Result<Command<'a>, AllocError>
    ensures { IfOk result (λ command. app_of command ≡ check_command) }
{
    let named = Command::new(alloc, "check").arg(file(alloc, "stream"))?;
    let command = named.arg(plain_option(alloc, "outside"))?;
    Ok(command)
}

/// A verb and one file, as clap knows them.
fn file_command<'a>(alloc: Global) -> Result<Command<'a>, AllocError>
    ensures { IfOk result (λ command. app_of command ≡ file_command) }
{
    let command = Command::new(alloc, "vmig").arg(file(alloc, "file"))?;
    Ok(command)
}

/// Reads the words of a line of `run`.
fn read_run<'a>(alloc: Global, words: &'a [&'a str]) -> Result<Request<'a>, WordsError>
    requires { is_run_line (map (λ word. word.now) words.now) ≡ true }
    ensures memory { IfErr result (λ refusal. refusal ≡ NoMemory) }
    ensures asks { IfOk result (Asks (map (λ word. word.now) words.entry.now)) }
{
    let command = run_command(alloc)?;
    let matches = match command.try_get_matches_from(words) {
        Ok(matches) => matches,
        Err(error) => return Err(WordsError::from(error)),
    };
    match matches.get_str("trace") {
        Some(trace) => Ok(Request::Run {
            trace,
            image: matches.get_str("disk"),
            stream: matches.get_str("out"),
        }),
        None => Err(WordsError::Usage),
    }
}

/// Reads the words of a line of `resume`.
fn read_resume<'a>(alloc: Global, words: &'a [&'a str]) -> Result<Request<'a>, WordsError>
    requires { is_resume_line (map (λ word. word.now) words.now) ≡ true }
    ensures memory { IfErr result (λ refusal. refusal ≡ NoMemory) }
    ensures asks { IfOk result (Asks (map (λ word. word.now) words.entry.now)) }
{
    let command = resume_command(alloc)?;
    let matches = match command.try_get_matches_from(words) {
        Ok(matches) => matches,
        Err(error) => return Err(WordsError::from(error)),
    };
    let Some(stream) = matches.get_str("stream") else {
        return Err(WordsError::Usage);
    };
    let Some(trace) = matches.get_str("trace") else {
        return Err(WordsError::Usage);
    };
    let image = matches.get_str("disk");
    Ok(Request::Resume {
        stream,
        trace,
        image,
        outside: matches.get_flag("outside"),
    })
}

/// Reads the words of a line of `check`.
fn read_check<'a>(alloc: Global, words: &'a [&'a str]) -> Result<Request<'a>, WordsError>
    requires { is_check_line (map (λ word. word.now) words.now) ≡ true }
    ensures memory { IfErr result (λ refusal. refusal ≡ NoMemory) }
    ensures asks { IfOk result (Asks (map (λ word. word.now) words.entry.now)) }
{
    let command = check_command(alloc)?;
    let matches = match command.try_get_matches_from(words) {
        Ok(matches) => matches,
        Err(error) => return Err(WordsError::from(error)),
    };
    let Some(stream) = matches.get_str("stream") else {
        return Err(WordsError::Usage);
    };
    let outside = matches.get_flag("outside");
    Ok(Request::Check { stream, outside })
}

/// Reads the words of a line of a verb and one file.
fn read_file_word<'a>(alloc: Global, words: &'a [&'a str]) -> Result<&'a str, WordsError>
    requires { is_verb_and_file (map (λ word. word.now) words.now) ≡ true }
    ensures memory { IfErr result (λ refusal. refusal ≡ NoMemory) }
    ensures named { IfOk result (λ name. name.now ≡ named_file (map (λ word. word.now) words.entry.now)) }
{
    let command = file_command(alloc)?;
    let matches = match command.try_get_matches_from(words) {
        Ok(matches) => matches,
        Err(error) => return Err(WordsError::from(error)),
    };
    match matches.get_str("file") {
        Some(name) => Ok(name),
        None => Err(WordsError::Usage),
    }
}
