//! Lines of standard input in place of a value or of octets.

ghost use Rattle.std.specs.Prelude.{◌≡◌, ◌↔◌, ◌++◌, IfErr, IfOk, IfSome, IsTrue, MatchOption, None, codes, map, option_map};
ghost use Rattle.std.specs.Prelude.{string_bytes};
ghost use Rattle.clap.specs.Words.{found_of, rows_of};
ghost use Rattle.command_line.specs.CommandLine.{has_input, AreNoOctets, AsksLines, ExcludesLines, GivesNoOctets};
ghost use Rattle.command_line.specs.CommandLine.{IsExcluding, IsGivenBy, IsGivenFor};
ghost use Rattle.command_line.specs.CommandLine.{IsMixed, IsNoOctetsOrLines, IsNoValueOrLines, IsOctetsOrLines, IsSet};
ghost use Rattle.command_line.specs.CommandLine.{IsValueOrLines, NamesInput};

use crate::fault::WordsFault;
use crate::octets::read_octets;
use crate::request::{Given, ValueWords};
use crate::values::{VALUE_OR_LINES, choice_of, value_in};
use clap::ArgMatches;
use std::alloc::{AllocError, Global};

/// What is wrong with words that ask for lines beside a word that excludes them.
fn complaint(alloc: Global, word: &str) -> Result<String, AllocError>
    ensures { IfOk result (λ s. string_bytes s ≡ codes "found --lines and "
        ++ (word.now ++ codes ", expected one of them (asnc COMMAND --help shows the words)")) }
{
    format!(in alloc;
        "found --lines and {word}, expected one of them (asnc COMMAND --help shows the words)"
    )
}

/// What is wrong with words that give neither octets nor lines.
fn lacks_octets(alloc: Global) -> Result<String, AllocError>
    ensures { IfOk result (λ s. AreNoOctets None (string_bytes s)) }
{
    String::from_str(
        alloc,
        "found neither, expected one of --hex and --lines (asnc COMMAND --help shows the words)",
    )
}

/// Whether a flag is given.
fn is_set(found: &ArgMatches<'_>, id: &str) -> bool
    ensures { IsTrue result ↔ IsSet (rows_of (found_of found.now)) id.now }
{
    match choice_of(found, id) {
        Some(text) => text == "true",
        None => false,
    }
}

/// Whether a text is given for an argument.
fn is_given(found: &ArgMatches<'_>, id: &str) -> bool
    ensures { IsTrue result ↔ IsGivenFor (rows_of (found_of found.now)) id.now }
{
    choice_of(found, id).is_some()
}

/// Whether one of the names is that of standard input.
fn have_input(names: &[&str]) -> bool
    ensures { result ≡ has_input (map (λ n. n.now) names.now) }
{
    names.contains(&"-")
}

/// Whether standard input is one of the files.
fn names_input(found: &ArgMatches<'_>) -> bool
    ensures { IsTrue result ↔ NamesInput (rows_of (found_of found.now)) }
{
    match found.get_strs("FILE") {
        Some(names) => have_input(names),
        None => false,
    }
}

/// The first word that excludes lines, if there is one.
fn excluding(found: &ArgMatches<'_>) -> Option<&'static str>
    ensures excludes { MatchOption result
        (ExcludesLines (rows_of (found_of found.now)) → ⊥)
        (λ _. ExcludesLines (rows_of (found_of found.now))) }
    ensures first { IfSome result (λ word. IsExcluding (rows_of (found_of found.now)) word.now) }
{
    if is_given(found, "value") {
        Some("--value")
    } else if is_given(found, "notation") {
        Some("--notation")
    } else if is_given(found, "hex") {
        Some("--hex")
    } else if is_set(found, "raw") {
        Some("--raw")
    } else if names_input(found) {
        Some("the FILE -, which is standard input too")
    } else {
        None
    }
}

/// Returns whether the words ask for lines of standard input.
///
/// `BadWords`: they do so beside a value, octets, `--raw`, or standard input as a file of texts. `Memory`: an
/// allocation failed.
#[tactic(auto, using(crate::proofs::Said::mixed_said))]
fn are_lines(alloc: Global, found: &ArgMatches<'_>) -> Result<bool, WordsFault>
    ensures asked { IfOk result (AsksLines (rows_of (found_of found.now))) }
    ensures mixed { IfErr result (IsMixed (rows_of (found_of found.now))) }
{
    if !is_set(found, "lines") {
        return Ok(false);
    }
    match excluding(found) {
        Some(word) => Err(WordsFault::BadWords(complaint(alloc, word)?)),
        None => Ok(true),
    }
}

/// Returns the value that the words of a command that takes lines give: that of each line with `--lines`, else that of
/// `--value` or of `--notation`.
///
/// `BadWords`: the words give none of these, or more than one, or `--lines` beside another word that excludes it.
/// `Memory`: an allocation failed.
pub(crate) fn value_or_lines(
    alloc: Global,
    found: &ArgMatches<'_>,
) -> Result<ValueWords, WordsFault>
    ensures value { IfOk result (IsValueOrLines (rows_of (found_of found.now))) }
    ensures none { IfErr result (IsNoValueOrLines (rows_of (found_of found.now))) }
{
    if are_lines(alloc, found)? {
        return Ok(ValueWords::Lines);
    }
    value_in(alloc, VALUE_OR_LINES, found)
}

/// The octets that a text gives, if there is a text. `BadWords`: there is none, or it gives no octets.
fn octets_of(alloc: Global, text: Option<&str>) -> Result<Given, WordsFault>
    ensures given { IfOk result (IsGivenBy (option_map (λ s. s.now) text.entry)) }
    ensures none { IfErr result (GivesNoOctets (option_map (λ s. s.now) text.entry)) }
{
    match text {
        Some(text) => read_octets(alloc, "asnc COMMAND", text),
        None => Err(WordsFault::BadWords(lacks_octets(alloc)?)),
    }
}

/// Returns the octets that the words of a command that takes lines give: those of each line with `--lines`, else those
/// of `--hex`.
///
/// `BadWords`: the words give none of these, or octets that can't be read, or `--lines` beside another word that
/// excludes it. `Memory`: an allocation failed.
pub(crate) fn octets_or_lines(alloc: Global, found: &ArgMatches<'_>) -> Result<Given, WordsFault>
    ensures octets { IfOk result (IsOctetsOrLines (rows_of (found_of found.now))) }
    ensures none { IfErr result (IsNoOctetsOrLines (rows_of (found_of found.now))) }
{
    if are_lines(alloc, found)? {
        return Ok(Given::Lines);
    }
    octets_of(alloc, choice_of(found, "hex"))
}
