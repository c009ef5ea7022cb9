//! The names of parts of a value.

use std::alloc::{AllocError, Global};

/// The most characters of a path.
const SHOWN: usize = 60;

/// How a part is named in the value that holds it: a component or an alternative by its name, an element by its index.
/// The chosen alternative of an untagged CHOICE comes after that. A name that there isn't is empty.
#[derive(Clone, Copy)]
pub(crate) struct Label<'a> {
    pub name: &'a str,
    pub index: Option<usize>,
    pub alternative: &'a str,
}

/// The label of a component or an alternative.
pub(crate) fn named(name: &str) -> Label<'_> {
    Label {
        name,
        index: None,
        alternative: "",
    }
}

/// The label of an element.
pub(crate) fn numbered<'a>(index: usize) -> Label<'a> {
    Label {
        name: "",
        index: Some(index),
        alternative: "",
    }
}

/// Appends to a path what there is room for. Two dots say that there is more.
fn push(path: &mut String, text: &str) -> Result<(), AllocError> {
    for c in text.chars() {
        if path.len() > SHOWN {
            return Ok(());
        }
        if path.len() == SHOWN {
            path.push_str("..")?;
            return Ok(());
        }
        path.push(c)?;
    }
    Ok(())
}

/// Appends a name to a path, after a dot, unless the path is empty.
fn push_name(path: &mut String, name: &str) -> Result<(), AllocError> {
    if !path.is_empty() && !name.is_empty() {
        push(path, ".")?;
    }
    push(path, name)
}

impl<'a> Label<'a> {
    /// The label with the alternative of an untagged CHOICE after it.
    pub(crate) fn with(self, alternative: &'a str) -> Label<'a> {
        Label {
            name: self.name,
            index: self.index,
            alternative,
        }
    }

    /// Appends the label to a path, of which at most 60 characters are shown.
    pub(crate) fn push_to(self, alloc: Global, path: &mut String) -> Result<(), AllocError> {
        push_name(path, self.name)?;
        if let Some(index) = self.index {
            let number = format!(in alloc; "[{index}]")?;
            push(path, number.as_str())?;
        }
        push_name(path, self.alternative)
    }
}
