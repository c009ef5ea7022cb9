//! Tags, ends of ranges and kinds of strings in few words.

use asn_base::constraint::Range;
use asn_base::range_node::Link;
use asn_base::strings::StringKind;
use asn_base::tag::{Class, Tag};
use std::alloc::AllocError;

/// Adds a tag in its notation, with a text before and after it. The class is written unless it is context-specific.
pub fn put_tag(out: &mut String, before: &str, tag: Tag, after: &str) -> Result<(), AllocError> {
    let class = match tag.class {
        Class::Universal => "UNIVERSAL ",
        Class::Application => "APPLICATION ",
        Class::Context => "",
        Class::Private => "PRIVATE ",
    };
    let number = tag.number;
    write!(out, "{before}[{class}{number}]{after}")
}

/// Adds an end, or a word for no end.
fn put_end(out: &mut String, end: Option<i128>, none: &str) -> Result<(), AllocError> {
    match end {
        Some(number) => write!(out, "{number}"),
        None => out.push_str(none),
    }
}

/// Adds the ends of a range, with a text before them and one between them.
pub fn put_range(
    out: &mut String,
    before: &str,
    range: Range,
    between: &str,
) -> Result<(), AllocError> {
    out.push_str(before)?;
    put_end(out, range.least, "MIN")?;
    out.push_str(between)?;
    put_end(out, range.greatest, "MAX")
}

/// Adds the ranges of allowed values.
pub fn put_ranges(out: &mut String, ranges: &Link) -> Result<(), AllocError> {
    match ranges {
        None => Ok(()),
        Some(node) => {
            put_ranges(out, &node.before)?;
            put_range(out, " ", node.range.range(), "..")?;
            put_ranges(out, &node.after)
        }
    }
}

/// The comma before a place, or nothing before the first one.
pub fn comma(place: usize) -> &'static str {
    if place == 0 { "" } else { ", " }
}

/// Adds what is before the members of a list or the items of an enumeration: whether it is extensible, and a brace.
pub fn put_marker(out: &mut String, is_extensible: bool) -> Result<(), AllocError> {
    out.push_str(if is_extensible { " ... {" } else { " {" })
}

/// The keyword of a string type.
pub fn string_word(kind: StringKind) -> &'static str {
    match kind {
        StringKind::Numeric => "NumericString",
        StringKind::Printable => "PrintableString",
        StringKind::Ia5 => "IA5String",
        StringKind::Visible => "VisibleString",
    }
}
