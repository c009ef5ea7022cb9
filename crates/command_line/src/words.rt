//! Reads the words of a command line.

ghost use Rattle.std.specs.Prelude.{◌≡◌, ◌↔◌, IfOk, IfErr, IsTrue, codes, map, string_bytes};
ghost use Rattle.clap.specs.Words.{found_of, kind_of, rows_of};
ghost use Rattle.command_line.specs.CommandLine.{asnc_app, octcheck_app, AreOfChecker, HasNoCheck, HasNoJob, IsAsked};
ghost use Rattle.command_line.specs.CommandLine.{IsAsncCommand, IsCheckCommand, IsCommandOf, IsFaultOf, IsNoJobOf};
ghost use Rattle.command_line.specs.CommandLine.{IsRefused, IsRefusedBy, IsRequested};

use crate::asked::{account, ber, check, der, later, list, show, unper, uper};
use crate::commands::{asnc_command, octcheck_command};
use crate::fault::WordsFault;
use crate::request::{Command, Job};
use clap::ArgMatches;
use clap::error::ErrorKind;
use source_text::on_one_line;
use std::alloc::{AllocError, Global};

/// The lines of a message up to the first empty one, joined by spaces.
fn first_paragraph(alloc: Global, message: &str) -> Result<String, AllocError> {
    let mut text = String::new(alloc);
    for line in message.lines() {
        if line.is_empty() {
            return Ok(text);
        }
        text.push_str(line.trim())?;
        text.push(' ')?;
    }
    Ok(text)
}

/// How many characters of what is wrong with words are shown: a word may be as long as a command line.
const SHOWN: usize = 200;

/// The first characters of a text. Two dots after them say that it has more.
fn shortened(alloc: Global, text: &str) -> Result<String, AllocError> {
    let mut short = String::new(alloc);
    let mut left = SHOWN;
    for c in text.chars() {
        if left == 0 {
            short.push_str(".. ")?;
            return Ok(short);
        }
        left = left.saturating_sub(1);
        short.push(c)?;
    }
    Ok(short)
}

/// A hint for a word that begins with a hyphen and a digit: it may be a value. It is empty for another message.
fn hint(message: &str) -> &'static str {
    let Some(word) = message.strip_prefix("unexpected argument '-") else {
        return "";
    };
    match word.as_bytes().first() {
        Some(octet) if octet.is_ascii_digit() => "; after --notation= a value may begin with - ",
        _ => "",
    }
}

/// What is wrong with the words of a program, on one line. `help` are the words that ask for its help, but for
/// `--help`.
fn complaint(alloc: Global, help: &str, message: &str) -> Result<String, AllocError> {
    let paragraph = first_paragraph(alloc, message)?;
    let text = paragraph.as_str();
    let line = on_one_line(alloc, text.strip_prefix("error: ").unwrap_or(text))?;
    let short = shortened(alloc, line.as_str())?;
    let hint = hint(short.as_str());
    let short = if hint.is_empty() {
        short.as_str()
    } else {
        short.trim_end()
    };
    format!(in alloc; "{short}{hint}({help} --help shows the words)")
}

/// The words that ask for the help of asnc, but for `--help`, after an error: those for a command, unless that is wrong
/// itself.
fn help_of_asnc(kind: ErrorKind) -> &'static str {
    match kind {
        ErrorKind::MissingSubcommand | ErrorKind::InvalidSubcommand => "asnc",
        _ => "asnc COMMAND",
    }
}

fn fault_of_clap(alloc: Global, help: &str, error: &clap::Error) -> Result<WordsFault, AllocError>
    ensures { IfOk result (IsFaultOf (kind_of error.now)) }
{
    match error.kind() {
        ErrorKind::OutOfMemory => Ok(WordsFault::Memory),
        ErrorKind::DisplayHelp => Ok(WordsFault::Help(error.to_string(alloc)?)),
        ErrorKind::DisplayVersion => Ok(WordsFault::Help(error.to_string(alloc)?)),
        _ => {
            let message = error.to_string(alloc)?;
            Ok(WordsFault::BadWords(complaint(alloc, help, message.as_str())?))
        }
    }
}

/// The command with this name, by what was found for it in the words.
fn command_of(alloc: Global, name: &str, found: &ArgMatches<'_>) -> Result<Command, WordsFault>
    ensures command { IfOk result (IsCommandOf name.now (rows_of (found_of found.now))) }
    ensures none { IfErr result (IsNoJobOf name.now (rows_of (found_of found.now))) }
{
    if name == "list" {
        Ok(list(alloc, found)?)
    } else if name == "ber" {
        ber(alloc, found)
    } else if name == "uper" {
        uper(alloc, found)
    } else if name == "unper" {
        unper(alloc, found)
    } else if name == "account" {
        account(alloc, found)
    } else if name == "later" {
        Ok(later(alloc, found)?)
    } else if name == "show" {
        show(alloc, found)
    } else {
        der(alloc, found)
    }
}

/// The command that the words of asnc ask for.
fn asked_of_asnc(alloc: Global, words: &[String]) -> Result<Command, WordsFault>
    ensures asked { IfOk result (IsAsncCommand (map string_bytes words.now)) }
    ensures refused { IfErr result
        (IsRefusedBy asnc_app (HasNoJob (map string_bytes words.now)) (map string_bytes words.now)) }
{
    let program = asnc_command(alloc)?;
    match program.try_get_matches_from(words) {
        Ok(matches) => match matches.subcommand() {
            Some((name, found)) => command_of(alloc, name, found),
            None => unreachable!(),
        },
        Err(error) => Err(fault_of_clap(alloc, help_of_asnc(error.kind()), &error)?),
    }
}

/// The command that the words of octcheck ask for.
fn asked_of_checker(alloc: Global, words: &[String]) -> Result<Command, WordsFault>
    ensures asked { IfOk result (IsCheckCommand (map string_bytes words.now)) }
    ensures refused { IfErr result
        (IsRefusedBy octcheck_app (HasNoCheck (map string_bytes words.now)) (map string_bytes words.now)) }
{
    let program = octcheck_command(alloc)?;
    match program.try_get_matches_from(words) {
        Ok(matches) => check(alloc, &matches),
        Err(error) => Err(fault_of_clap(alloc, "octcheck", &error)?),
    }
}

/// Whether a word is the name of octcheck.
fn is_checker(word: &str) -> bool
    ensures { IsTrue result ↔ (word.now ≡ codes "octcheck") }
{
    word == "octcheck"
}

/// Whether the words are those of octcheck.
fn are_of_checker(words: &[String]) -> bool
    ensures { IsTrue result ↔ AreOfChecker (map string_bytes words.now) }
{
    match words.first() {
        Some(program) => is_checker(program.as_str()),
        None => false,
    }
}

/// Returns the command that the words ask for. The first word is the program's name: `octcheck`, or otherwise `asnc`.
///
/// `BadWords`: the words ask for nothing that the program does, give no value or give it twice, give octets that can't
/// be read, or ask for lines beside words that exclude them. `Help`: the words ask for help or for the version.
/// `Memory`: an allocation failed.
pub fn command(alloc: Global, words: &[String]) -> Result<Command, WordsFault>
    ensures asked { IfOk result (IsAsked (map string_bytes words.now)) }
    ensures refused { IfErr result (IsRefused (map string_bytes words.now)) }
{
    if are_of_checker(words) {
        asked_of_checker(alloc, words)
    } else {
        asked_of_asnc(alloc, words)
    }
}

/// Returns the job that the words ask for: that of their [`command`]. The faults are the same.
pub fn job(alloc: Global, words: &[String]) -> Result<Job, WordsFault>
    ensures asked { IfOk result (IsRequested (map string_bytes words.now)) }
    ensures refused { IfErr result (IsRefused (map string_bytes words.now)) }
{
    Ok(command(alloc, words)?.into_job(alloc))
}
