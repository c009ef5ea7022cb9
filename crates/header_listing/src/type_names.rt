//! Names of types, and tags.

ghost use Rattle.header_listing.specs.Words.{class_words, tag_words};
ghost use Rattle.std.specs.Prelude.{◌≡◌, ◌++◌, OnOk, string_bytes};

use crate::line_text::push_number;
use asn_base::schema::TypeId;
use asn_base::tag::{Class, Tag};
use resolve::Linked;
use std::alloc::AllocError;
use type_table::Shape;

/// The most characters of a name that a line shows.
pub(crate) const SHOWN: usize = 28;

/// Appends a name, of which at most so many characters are shown; two dots say that there are more.
pub(crate) fn push_cut(out: &mut String, name: &str) -> Result<(), AllocError> {
    let mut left = SHOWN;
    for c in name.chars() {
        if left == 0 {
            out.push_str("..")?;
            return Ok(());
        }
        out.push(c)?;
        left -= 1;
    }
    Ok(())
}

/// The words for a class, after the bracket of a tag.
fn class_words(class: Class) -> &'static str
    ensures { result.now ≡ class_words class }
{
    match class {
        Class::Universal => "[UNIVERSAL ",
        Class::Application => "[APPLICATION ",
        Class::Context => "[",
        Class::Private => "[PRIVATE ",
    }
}

/// Appends a tag in notation, as `[3]` or `[UNIVERSAL 16]` (X.680, 31).
pub fn push_tag(out: &mut String, tag: Tag) -> Result<(), AllocError>
    ensures { OnOk result (string_bytes out.new ≡ string_bytes out.old ++ tag_words tag) }
{
    out.push_str(class_words(tag.class))?;
    push_number(out, tag.number as usize)?;
    out.push_str("]")?;
    Ok(())
}

/// Whether a name is that of a type: it begins with a capital letter (X.680, 12.2).
fn is_of_type(name: &str) -> bool {
    match name.as_bytes().first() {
        Some(first) => first.is_ascii_uppercase(),
        None => false,
    }
}

/// The name of the assignment with this number, if it is that of a type.
fn assigned_name(linked: &Linked, number: usize) -> Option<&str> {
    if number >= linked.assignments().len() {
        return None;
    }
    let name = linked.assigned(number).name;
    if is_of_type(name) { Some(name) } else { None }
}

/// The type in this one, if this one is a tag and a type.
fn tagged(linked: &Linked, number: usize) -> Option<usize> {
    let Some(written) = linked.types().get(number) else {
        return None;
    };
    match &written.shape {
        Shape::Tagged(_, _, inner) => Some(*inner),
        _ => None,
    }
}

/// The number of the type that is named here, if this is a name.
fn referred(linked: &Linked, number: usize) -> Option<usize> {
    let Some(written) = linked.types().get(number) else {
        return None;
    };
    match &written.shape {
        Shape::Reference(named) => Some(*named),
        _ => None,
    }
}

/// The name of a type: that of its assignment, or the one that it is written by, after tags if it has any. None if it
/// has no name.
pub(crate) fn type_name(linked: &Linked, ty: TypeId) -> Option<&str> {
    if let Some(name) = assigned_name(linked, ty.index) {
        return Some(name);
    }
    let mut number = ty.index;
    for _ in 0..SHOWN {
        match tagged(linked, number) {
            Some(inner) => number = inner,
            None => break,
        }
    }
    match referred(linked, number) {
        Some(named) => assigned_name(linked, named),
        None => None,
    }
}
