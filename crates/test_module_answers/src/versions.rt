//! Later versions of types.

use crate::linking::type_at;
use crate::words::modules_of;
use front_end::{CheckedModules, open};
use later_versions::later;
use row_format::Row;
use row_format::refusal::{Refusal, refuse};
use row_format::words::{asked, word};
use std::alloc::{AllocError, Global};

/// The program and the types of texts. The error is the words for their fault.
fn opened(alloc: Global, texts: &[Vec<u8>]) -> Result<CheckedModules, Refusal> {
    match open(alloc, texts) {
        Ok(modules) => Ok(modules),
        Err(fault) => Err(refuse(alloc, &fault)),
    }
}

/// Whether a type is a later version of another one, and the other way round.
fn both_ways(
    alloc: Global,
    first: &CheckedModules,
    name: &str,
    second: &CheckedModules,
    later_name: &str,
) -> Result<&'static str, AllocError> {
    let one = type_at(first.modules.linked(), name);
    let other = type_at(second.modules.linked(), later_name);
    let (Some(one), Some(other)) = (one, other) else {
        return Ok("no type");
    };
    let forth = later(alloc, &first.schema, one, &second.schema, other)?;
    let back = later(alloc, &second.schema, other, &first.schema, one)?;
    Ok(match (forth, back) {
        (true, true) => "yes, and back yes",
        (true, false) => "yes, and back no",
        (false, true) => "no, and back yes",
        (false, false) => "no, and back no",
    })
}

/// `later NAME TYPE [TYPE]`: whether a type of the modules named `later` is a later version of a type of the other
/// modules, and the other way round. The second name, if there is one, is that of the type in the modules named
/// `later`. If no module is named `later`, both types are in the same modules.
pub fn answer(alloc: Global, row: &Row) -> Result<String, Refusal> {
    let words = asked(alloc, row)?;
    let name = word(&words, 0);
    let later_name = match word(&words, 1) {
        "" => name,
        other => other,
    };
    let texts = modules_of(alloc, row, false)?;
    let first = opened(alloc, texts.as_slice())?;
    let later_texts = modules_of(alloc, row, true)?;
    let answer = if later_texts.is_empty() {
        both_ways(alloc, &first, name, &first, later_name)?
    } else {
        let second = opened(alloc, later_texts.as_slice())?;
        both_ways(alloc, &first, name, &second, later_name)?
    };
    Ok(String::from_str(alloc, answer)?)
}
