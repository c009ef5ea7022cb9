//! Linked modules, in words.

use crate::answers::lines;
use crate::shapes::put_shape;
use resolve::{Linked, Referent};
use row_format::Row;
use std::alloc::{AllocError, Global};

/// The written types, each in a line.
fn table(alloc: Global, linked: &Linked) -> Result<String, AllocError> {
    let mut text = String::new(alloc);
    for (number, written) in linked.types().iter().enumerate() {
        let end = if number == 0 { "" } else { "\n" };
        write!(text, "{end}type {number}: ")?;
        put_shape(&mut text, &written.shape)?;
    }
    Ok(text)
}

/// The meaning of a name of the form `Module.Name`. For the word `types` it is the table of written types.
fn line(alloc: Global, linked: &Linked, name: &str) -> Result<String, AllocError> {
    let Some((within, local)) = name.split_once('.') else {
        return table(alloc, linked);
    };
    match linked.find(within, local) {
        Some(Referent::TypeNamed(id)) => {
            let number = id.index;
            format!(in alloc; "{name} is type {number}")
        }
        Some(Referent::ValueNamed(_)) => format!(in alloc; "{name} is a value"),
        None => format!(in alloc; "{name} means nothing"),
    }
}

/// How many modules, types and values there are, and below that the meaning of each name that the row asks for.
pub fn answer(alloc: Global, row: &Row, linked: &Linked) -> Result<String, AllocError> {
    let modules = linked.headers().len();
    let types = linked.types().len();
    let values = linked.values().len();
    let counts = format!(in alloc; "linked: {modules} modules, {types} types, {values} values")?;
    lines(
        alloc,
        row,
        counts.as_str(),
        |word| line(alloc, linked, word),
    )
}
