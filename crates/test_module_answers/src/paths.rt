//! The tags of types, in words.

use crate::answers;
use crate::linking::type_at;
use crate::marks::put_tag;
use std::alloc::{AllocError, Global};
use tagging::{FormedTag, TagForm, Tagged, tags_of};

/// Adds tags with their forms, the outermost first.
fn put_path(out: &mut String, path: &[FormedTag]) -> Result<(), AllocError> {
    for formed in path {
        let form = match formed.form {
            TagForm::Implicit => " implicit",
            TagForm::Explicit => " explicit",
        };
        put_tag(out, " ", formed.tag, form)?;
    }
    Ok(())
}

/// The line for the tags of a type.
pub fn line(alloc: Global, tagged: &Tagged<'_>, name: &str) -> Result<String, AllocError> {
    let Some(ty) = type_at(tagged.linked(), name) else {
        return answers::line(alloc, name, "no type");
    };
    if !tagged.has(ty) {
        return answers::line(alloc, name, "no number of a type");
    }
    let path = tags_of(alloc, tagged, ty)?;
    let mut text = format!(in alloc; "{name}:")?;
    put_path(&mut text, path.as_slice())?;
    Ok(text)
}
