//! Each command, with what its words give.

ghost use Rattle.std.specs.Prelude.{◌≡◌, IfOk, IfErr, codes};
ghost use Rattle.clap.specs.Words.{found_of, rows_of};
ghost use Rattle.command_line.specs.CommandLine.{text_in, IsAccount, IsBer, IsCheck, IsDer, IsLater, IsList, IsNoCheckOf};
ghost use Rattle.command_line.specs.CommandLine.{IsNoOctetsOrLines, IsNotGiven, IsNoValueIn, IsNoValueOrLines, IsShow};
ghost use Rattle.command_line.specs.CommandLine.{IsUnper, IsUper, value_alone};

use crate::arguments::{files_of, flag_of, module_texts, text_of, type_and_texts, word_of};
use crate::fault::WordsFault;
use crate::lines::{octets_or_lines, value_or_lines};
use crate::octets::read_octets;
use crate::request::Command;
use crate::values::{CHECKED_VALUE, VALUE_ALONE, value_in};
use clap::ArgMatches;
use std::alloc::{AllocError, Global};

/// `der`. `BadWords`: the words give neither a value nor lines, or more than one of them.
pub(crate) fn der(alloc: Global, found: &ArgMatches<'_>) -> Result<Command, WordsFault>
    ensures command { IfOk result (IsDer (rows_of (found_of found.now))) }
    ensures none { IfErr result (IsNoValueOrLines (rows_of (found_of found.now))) }
{
    let raw = flag_of(found, "raw");
    let value = value_or_lines(alloc, found)?;
    let (ty, texts) = type_and_texts(alloc, found)?;
    Ok(Command::Der {
        ty,
        value,
        raw,
        texts,
    })
}

/// `ber`. `BadWords`: the words give neither octets nor lines, or both.
pub(crate) fn ber(alloc: Global, found: &ArgMatches<'_>) -> Result<Command, WordsFault>
    ensures command { IfOk result (IsBer (rows_of (found_of found.now))) }
    ensures none { IfErr result (IsNoOctetsOrLines (rows_of (found_of found.now))) }
{
    let strict = flag_of(found, "strict");
    let octets = octets_or_lines(alloc, found)?;
    let (ty, texts) = type_and_texts(alloc, found)?;
    Ok(Command::Ber {
        ty,
        octets,
        strict,
        texts,
    })
}

/// `uper`. `BadWords`: the words give neither a value nor lines, or more than one of them.
pub(crate) fn uper(alloc: Global, found: &ArgMatches<'_>) -> Result<Command, WordsFault>
    ensures command { IfOk result (IsUper (rows_of (found_of found.now))) }
    ensures none { IfErr result (IsNoValueOrLines (rows_of (found_of found.now))) }
{
    let raw = flag_of(found, "raw");
    let value = value_or_lines(alloc, found)?;
    let (ty, texts) = type_and_texts(alloc, found)?;
    Ok(Command::Uper {
        ty,
        value,
        raw,
        texts,
    })
}

/// `unper`. `BadWords`: the words give neither octets nor lines, or both.
pub(crate) fn unper(alloc: Global, found: &ArgMatches<'_>) -> Result<Command, WordsFault>
    ensures command { IfOk result (IsUnper (rows_of (found_of found.now))) }
    ensures none { IfErr result (IsNoOctetsOrLines (rows_of (found_of found.now))) }
{
    let octets = octets_or_lines(alloc, found)?;
    let (ty, texts) = type_and_texts(alloc, found)?;
    Ok(Command::Unper { ty, octets, texts })
}

/// `account`. `BadWords`: the words give no value, or give it twice.
pub(crate) fn account(alloc: Global, found: &ArgMatches<'_>) -> Result<Command, WordsFault>
    ensures command { IfOk result (IsAccount (rows_of (found_of found.now))) }
    ensures none { IfErr result (IsNoValueIn value_alone (rows_of (found_of found.now))) }
{
    let value = value_in(alloc, VALUE_ALONE, found)?;
    let (ty, texts) = type_and_texts(alloc, found)?;
    Ok(Command::Account { ty, value, texts })
}

/// `list`.
pub(crate) fn list(alloc: Global, found: &ArgMatches<'_>) -> Result<Command, AllocError>
    ensures { IfOk result (IsList (rows_of (found_of found.now))) }
{
    Ok(Command::List {
        texts: module_texts(alloc, found)?,
    })
}

/// `later`.
pub(crate) fn later(alloc: Global, found: &ArgMatches<'_>) -> Result<Command, AllocError>
    ensures { IfOk result (IsLater (rows_of (found_of found.now))) }
{
    let (ty, texts) = type_and_texts(alloc, found)?;
    Ok(Command::Later {
        ty,
        newer: files_of(alloc, found, "newer")?,
        texts,
    })
}

/// `show`. `BadWords`: the text of `--hex` gives no octets.
pub(crate) fn show(alloc: Global, found: &ArgMatches<'_>) -> Result<Command, WordsFault>
    ensures command { IfOk result (IsShow (rows_of (found_of found.now))) }
    ensures none { IfErr result (IsNotGiven (codes "asnc COMMAND")
        (text_in (rows_of (found_of found.now)) (codes "hex"))) }
{
    let octets = read_octets(alloc, "asnc COMMAND", word_of(found, "hex"))?;
    let (ty, texts) = type_and_texts(alloc, found)?;
    Ok(Command::Show { ty, octets, texts })
}

/// The command of `octcheck`. `BadWords`: the words give no value, or give it twice, or the text of `--hex` gives no
/// octets.
pub(crate) fn check(alloc: Global, found: &ArgMatches<'_>) -> Result<Command, WordsFault>
    ensures command { IfOk result (IsCheck (rows_of (found_of found.now))) }
    ensures none { IfErr result (IsNoCheckOf (rows_of (found_of found.now))) }
{
    let value = value_in(alloc, CHECKED_VALUE, found)?;
    let octets = read_octets(alloc, "octcheck", word_of(found, "hex"))?;
    let (ty, texts) = type_and_texts(alloc, found)?;
    Ok(Command::Check {
        ty,
        value,
        octets,
        account: text_of(alloc, found, "account")?,
        texts,
    })
}
