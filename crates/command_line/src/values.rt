//! The value that a command line gives.

ghost use Rattle.std.specs.Prelude.{◌≡◌, ◌++◌, IfOk, IfErr, codes, option_map, string_bytes};
ghost use Rattle.clap.specs.Words.{first_of, found_of, rows_of};
ghost use Rattle.command_line.specs.CommandLine.{IsNoValueOf, IsValueOf};

use crate::fault::WordsFault;
use crate::request::ValueWords;
use clap::ArgMatches;
use std::alloc::{AllocError, Global};

/// What a command of asnc expects that takes lines too.
pub(crate) const VALUE_OR_LINES: &str =
    "one of --value, --notation and --lines (asnc COMMAND --help shows the words)";

/// What a command of asnc expects that takes one value.
pub(crate) const VALUE_ALONE: &str =
    "one of --value and --notation (asnc COMMAND --help shows the words)";

/// What octcheck expects.
pub(crate) const CHECKED_VALUE: &str =
    "one of --value and --notation (octcheck --help shows the words)";

/// What is wrong with words of a program that give no value, or give it twice. `expected` are the words for what is
/// expected.
fn complaint(alloc: Global, expected: &str, found: &str) -> Result<String, AllocError>
    ensures { IfOk result (λ s. string_bytes s ≡ codes "found "
        ++ (found.now ++ (codes ", expected " ++ expected.now))) }
{
    format!(in alloc; "found {found}, expected {expected}")
}

/// The text that was given for an argument, if one was.
pub(crate) fn choice_of<'a>(found: &ArgMatches<'a>, id: &str) -> Option<&'a str>
    ensures { option_map (λ s. s.now) result ≡ first_of id.now (rows_of (found_of found.now)) }
{
    found.get_str(id)
}

/// Returns the value of a name or of a notation, of which one is given.
///
/// `BadWords`: neither is given, or both are. `Memory`: an allocation failed.
fn one_of(
    alloc: Global,
    expected: &str,
    name: Option<&str>,
    notation: Option<&str>,
) -> Result<ValueWords, WordsFault>
    ensures value { IfOk result (IsValueOf (option_map (λ s. s.now) name.entry)
        (option_map (λ s. s.now) notation.entry)) }
    ensures none { IfErr result (IsNoValueOf expected.now (option_map (λ s. s.now) name.entry)
        (option_map (λ s. s.now) notation.entry)) }
{
    match name {
        Some(name) => match notation {
            Some(_) => Err(WordsFault::BadWords(complaint(alloc, expected, "both")?)),
            None => Ok(ValueWords::Named(String::from_str(alloc, name)?)),
        },
        None => match notation {
            Some(text) => Ok(ValueWords::Written(String::from_str(alloc, text)?)),
            None => Err(WordsFault::BadWords(complaint(alloc, expected, "neither")?)),
        },
    }
}

/// Returns the value that the words of a program give: by `--value` or by `--notation`. `expected` are the words for
/// what is expected.
///
/// `BadWords`: neither is given, or both are. `Memory`: an allocation failed.
pub(crate) fn value_in(
    alloc: Global,
    expected: &str,
    found: &ArgMatches<'_>,
) -> Result<ValueWords, WordsFault>
    ensures value { IfOk result (IsValueOf (first_of (codes "value") (rows_of (found_of found.now)))
        (first_of (codes "notation") (rows_of (found_of found.now)))) }
    ensures none { IfErr result (IsNoValueOf expected.now (first_of (codes "value") (rows_of (found_of found.now)))
        (first_of (codes "notation") (rows_of (found_of found.now)))) }
{
    one_of(
        alloc,
        expected,
        choice_of(found, "value"),
        choice_of(found, "notation"),
    )
}
