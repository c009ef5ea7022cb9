//! The octets that a command line gives.

ghost use Rattle.std.specs.Prelude.{◌≡◌, ◌≢◌, ◌∷◌, IfErr, IfOk, List, MatchOption, Ok, string_bytes, ℕ};
ghost use Rattle.hex.specs.Hex.{decode_of};
ghost use Rattle.hex.specs.declared.error.FromHexError.TheVariants.{OutOfMemory};
ghost use Rattle.command_line.specs.CommandLine.{IsGiven, IsNoOctets, IsNotGiven};

use crate::fault::WordsFault;
use crate::request::Given;
use hex::FromHexError;
use source_text::shown;
use std::alloc::{AllocError, Global};

/// What is wrong with a text of a program's words that gives no octets.
fn complaint(alloc: Global, program: &str, text: &str) -> Result<String, AllocError>
    requires file { (name : List ℕ) → text.now ≡ 64 ∷ name → ⊥ }
    requires digits { (o : List ℕ) → decode_of text.now ≡ Ok o → ⊥ }
    ensures { IfOk result (λ s. IsNoOctets program.now text.now (string_bytes s)) }
{
    let quoted = shown(alloc, text)?;
    let wanted = "two hexadecimal digits for each octet, or @ and the name of a file";
    Ok(format!(in alloc;
        "found {quoted} after --hex, expected {wanted} ({program} --help shows the words)"
    )?)
}

/// The rest of a text that begins with `@`, or None if it doesn't.
fn file_name(text: &str) -> Option<&str>
    ensures { MatchOption result ((name : List ℕ) → text.now ≢ 64 ∷ name) (λ name. text.now ≡ 64 ∷ name.now) }
{
    text.strip_prefix('@')
}

/// Returns the octets that a text of a program's words gives. After an `@` the text is the name of the file that has
/// the octets; otherwise its digits are the octets, two for each.
///
/// `BadWords`: the text gives no octets. `Memory`: an allocation failed.
pub(crate) fn read_octets(alloc: Global, program: &str, text: &str) -> Result<Given, WordsFault>
    ensures given { IfOk result (IsGiven text.now) }
    ensures none { IfErr result (IsNotGiven program.now text.now) }
{
    if let Some(name) = file_name(text) {
        return Ok(Given::Path(String::from_str(alloc, name)?));
    }
    match hex::decode(alloc, text) {
        Ok(octets) => Ok(Given::Octets(octets)),
        Err(fault) => {
            if fault == FromHexError::OutOfMemory {
                return Err(WordsFault::Memory);
            }
            Err(WordsFault::BadWords(complaint(alloc, program, text)?))
        }
    }
}
