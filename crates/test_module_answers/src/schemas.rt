//! The schemas of accepted texts.

use crate::answers::lines;
use crate::faults::refused;
use crate::linking::type_at;
use crate::types::put_type;
use crate::words::modules_of;
use front_end::{CheckedModules, open};
use row_format::Row;
use row_format::refusal::Refusal;
use std::alloc::{AllocError, Global};

/// How many levels of types are printed.
const LEVELS: u8 = 3;

/// The line for `M.T` or `M.T.member`.
fn line(alloc: Global, front: &CheckedModules, word: &str) -> Result<String, AllocError> {
    let Some(ty) = type_at(front.modules.linked(), word) else {
        return format!(in alloc; "{word} no type");
    };
    let mut text = format!(in alloc; "{word} ")?;
    put_type(alloc, &mut text, &front.schema, ty, LEVELS)?;
    Ok(text)
}

/// How many types there are, and below that each type that the row asks for.
fn list_types(alloc: Global, row: &Row, front: &CheckedModules) -> Result<String, AllocError> {
    let count = front.schema.types().len();
    let heading = format!(in alloc; "{count} types")?;
    lines(
        alloc,
        row,
        heading.as_str(),
        |word| line(alloc, front, word),
    )
}

/// `settled NAME [TYPE ..]`: how many types the schema of the row's modules has, and below that each type that the row
/// asks for. A type is written as `Module.Type` or `Module.Type.member`, and is printed with the types in it. Otherwise
/// the answer is the fault of the modules.
pub fn answer(alloc: Global, row: &Row) -> Result<String, Refusal> {
    let texts = modules_of(alloc, row, false)?;
    match open(alloc, texts.as_slice()) {
        Ok(front) => Ok(list_types(alloc, row, &front)?),
        Err(fault) => Ok(refused(alloc, texts.as_slice(), &fault)?),
    }
}
