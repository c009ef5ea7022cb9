//! What the words of a command line give for its arguments.

ghost use Rattle.std.specs.Prelude.{◌≡◌, IfOk, map, string_bytes};
ghost use Rattle.clap.specs.Words.{found_of, rows_of};
ghost use Rattle.command_line.specs.CommandLine.{text_in, texts_in, AreTexts, IsFlag, IsTypeName};

use crate::request::ModuleTexts;
use clap::ArgMatches;
use std::alloc::{AllocError, Global};

/// The text that was given for an argument, or the empty one.
pub(crate) fn word_of<'a>(found: &ArgMatches<'a>, id: &str) -> &'a str
    ensures { result.now ≡ text_in (rows_of (found_of found.now)) id.now }
{
    found.get_str(id).unwrap_or("")
}

/// A copy of the text that was given for an argument, or an empty one.
pub(crate) fn text_of(alloc: Global, found: &ArgMatches<'_>, id: &str) -> Result<String, AllocError>
    ensures { IfOk result (λ s. string_bytes s ≡ text_in (rows_of (found_of found.now)) id.now) }
{
    String::from_str(alloc, word_of(found, id))
}

/// The names of the files that were given for an argument.
pub(crate) fn files_of(
    alloc: Global,
    found: &ArgMatches<'_>,
    id: &str,
) -> Result<Vec<String>, AllocError>
    ensures { IfOk result (λ v. map string_bytes v.items ≡ texts_in (rows_of (found_of found.now)) id.now) }
{
    match found.get_strs(id) {
        Some(names) => texts_of(alloc, names),
        None => Ok(Vec::new(alloc)),
    }
}

/// Copies of texts. `AllocError` comes only if an allocation fails.
fn texts_of(alloc: Global, texts: &[&str]) -> Result<Vec<String>, AllocError>
    ensures { IfOk result (λ v. map string_bytes v.items ≡ map (λ t. t.now) texts.now) }
{
    let mut all = Vec::new(alloc);
    for text in texts {
        all.push(String::from_str(alloc, text)?)?;
    }
    Ok(all)
}

/// Whether a flag was given.
pub(crate) fn flag_of(found: &ArgMatches<'_>, id: &str) -> bool
    ensures { IsFlag (rows_of (found_of found.now)) id.now result }
{
    found.get_flag(id)
}

/// The files with the modules' texts, and how a fault in a text is shown.
pub(crate) fn module_texts(alloc: Global, found: &ArgMatches<'_>) -> Result<ModuleTexts, AllocError>
    ensures { IfOk result (AreTexts (rows_of (found_of found.now))) }
{
    let context = flag_of(found, "context");
    Ok(ModuleTexts {
        files: files_of(alloc, found, "FILE")?,
        context,
    })
}

/// The name of a type, and the modules' texts: most commands take both.
pub(crate) fn type_and_texts(
    alloc: Global,
    found: &ArgMatches<'_>,
) -> Result<(String, ModuleTexts), AllocError>
    ensures name { IfOk result (λ p. IsTypeName (rows_of (found_of found.now)) (string_bytes p.0)) }
    ensures texts { IfOk result (λ p. AreTexts (rows_of (found_of found.now)) p.1) }
{
    Ok((text_of(alloc, found, "type")?, module_texts(alloc, found)?))
}
