//! Types of a schema in words.
//!
//! Each type is written after all its tags, where `[1]` is a context-specific tag, and the types of members are written
//! in their places. `..` replaces a type that is too many levels down. A list or an enumeration with an extension
//! marker has `...` after its word. A member after the marker has `+` before it, and one in version brackets `+` and
//! the number of the brackets.
//!
//! For a constraint the bounds that the packed encoding uses are in parentheses, and the ranges of allowed values
//! follow. Nothing is written if all values are allowed. A DEFAULT is written as the printed value.

use crate::marks::{comma, put_marker, put_range, put_ranges, put_tag, string_word};
use asn_base::constraint::{Constraint, Range};
use asn_base::schema::{
    Addition, Alternative, Alternatives, Component, Core, Item, Items, NamedBit, Presence, Schema,
    TypeId,
};
use asn_base::tag::Tag;
use std::alloc::{AllocError, Global};
use value_text::{Fault, print};

/// Adds tags, each with a blank after it.
fn put_tags(out: &mut String, tags: &[Tag]) -> Result<(), AllocError> {
    for tag in tags {
        put_tag(out, "", *tag, " ")?;
    }
    Ok(())
}

/// Whether a constraint leaves all numbers or all sizes.
fn leaves_all(constraint: &Constraint, is_size: bool) -> bool {
    let least = if is_size { Some(0) } else { None };
    let seen = &constraint.visible;
    let allows_all = match &constraint.allowed {
        None => true,
        Some(ranges) => match ranges.root() {
            None => false,
            Some(node) => {
                let range = node.range.range();
                node.before.is_none()
                    && node.after.is_none()
                    && range.least == least
                    && range.greatest.is_none()
            }
        },
    };
    allows_all && seen.least == least && seen.greatest.is_none() && !seen.extensible
}

/// Adds the values that a constraint leaves.
fn put_constraint(
    out: &mut String,
    constraint: &Constraint,
    is_size: bool,
) -> Result<(), AllocError> {
    if leaves_all(constraint, is_size) {
        return Ok(());
    }
    let seen = &constraint.visible;
    let range = Range {
        least: seen.least,
        greatest: seen.greatest,
    };
    let before = if is_size { " SIZE (" } else { " (" };
    put_range(out, before, range, "..")?;
    out.push_str(if seen.extensible { ", ...)" } else { ")" })?;
    match &constraint.allowed {
        None => out.push_str(" all"),
        Some(ranges) => put_ranges(out, ranges.root()),
    }
}

/// Adds the characters of a string type, or their number if there are many.
fn put_codes(out: &mut String, codes: &[u8]) -> Result<(), AllocError> {
    let count = codes.len();
    match str::from_utf8(codes) {
        Ok(text) if count < 20 => write!(out, " of `{text}`"),
        _ => write!(out, " of {count} characters"),
    }
}

/// Adds items with their numbers, each after a mark. `before` is how many items are before these.
fn put_items(
    out: &mut String,
    items: &[Item],
    before: usize,
    mark: &str,
) -> Result<(), AllocError> {
    for (place, item) in items.iter().enumerate() {
        let comma = comma(before.saturating_add(place));
        let (name, number) = (item.name.as_str(), item.number);
        write!(out, "{comma}{mark}{name} {number}")?;
    }
    Ok(())
}

/// Adds the items of an enumeration.
fn put_all_items(out: &mut String, items: &Items) -> Result<(), AllocError> {
    put_marker(out, items.extensible)?;
    put_items(out, items.root.as_slice(), 0, "")?;
    put_items(out, items.additions.as_slice(), items.root.len(), "+")?;
    out.push('}')
}

/// Adds the named bits.
fn put_bits(out: &mut String, bits: &[NamedBit]) -> Result<(), AllocError> {
    out.push_str(" {")?;
    for (place, bit) in bits.iter().enumerate() {
        let (comma, name, at) = (comma(place), bit.name.as_str(), bit.place);
        write!(out, "{comma}{name} {at}")?;
    }
    out.push('}')
}

/// The keyword of a type's kind.
fn kind_of(core: &Core) -> &'static str {
    match core {
        Core::Boolean => "BOOLEAN",
        Core::Integer(_) => "INTEGER",
        Core::Enumerated(_) => "ENUMERATED",
        Core::BitString(_) | Core::NamedBits(_) => "BIT STRING",
        Core::OctetString(_) => "OCTET STRING",
        Core::Null => "NULL",
        Core::ObjectIdentifier => "OBJECT IDENTIFIER",
        Core::RelativeOid => "RELATIVE-OID",
        Core::Utf8String(_) => "UTF8String",
        Core::RestrictedString(kind, _, _) => string_word(*kind),
        Core::Sequence(_, _) => "SEQUENCE",
        Core::Set(_, _) => "SET",
        Core::SequenceOf(_, _) => "SEQUENCE OF",
        Core::SetOf(_, _) => "SET OF",
        Core::Choice(_) => "CHOICE",
    }
}

/// Adds the name of a component, with the mark of one after the extension marker.
fn put_name(out: &mut String, comma: &str, component: &Component) -> Result<(), AllocError> {
    let name = component.name.as_str();
    match &component.presence {
        Presence::Addition(
            Addition {
                group: Some(group),
                ..
            },
        ) => write!(out, "{comma}+{group} {name} "),
        Presence::Addition(_) => write!(out, "{comma}+{name} "),
        _ => write!(out, "{comma}{name} "),
    }
}

/// Where memory comes from, the schema whose types are printed, and how many levels of them are.
#[derive(Clone, Copy)]
struct Printing<'s> {
    alloc: Global,
    schema: &'s Schema,
    levels: u8,
}

/// Adds whether a component may be absent.
fn put_presence(
    printing: Printing<'_>,
    out: &mut String,
    component: &Component,
) -> Result<(), AllocError> {
    match &component.presence {
        Presence::Mandatory => Ok(()),
        Presence::Optional => out.push_str(" OPTIONAL"),
        Presence::Addition(addition) => {
            out.push_str(if addition.optional { " OPTIONAL" } else { "" })
        }
        Presence::Default(value) => {
            match print(printing.alloc, printing.schema, component.ty, value) {
                Ok(text) => write!(out, " DEFAULT {text}"),
                Err(Fault::Memory) => Err(AllocError),
                Err(Fault::NotOfType) => out.push_str(" DEFAULT of another type"),
            }
        }
    }
}

/// Adds the components of a SEQUENCE or SET.
#[cycle(printing)]
fn put_components(
    printing: Printing<'_>,
    out: &mut String,
    components: &[Component],
) -> Result<(), AllocError> {
    for place in 0..components.len() {
        let component = &components[place];
        put_name(out, comma(place), component)?;
        put_nested(printing, out, component.ty)?;
        put_presence(printing, out, component)?;
    }
    out.push('}')
}

/// Adds alternatives of a CHOICE. `before` is how many alternatives are before these.
#[cycle(printing)]
fn put_some_alternatives(
    printing: Printing<'_>,
    out: &mut String,
    alternatives: &[Alternative],
    before: usize,
) -> Result<(), AllocError> {
    for place in 0..alternatives.len() {
        let alternative = &alternatives[place];
        let mark = if before == 0 { "" } else { "+" };
        let name = alternative.name.as_str();
        write!(out, "{}{mark}{name} ", comma(before.saturating_add(place)))?;
        put_nested(printing, out, alternative.ty)?;
    }
    Ok(())
}

/// Adds all alternatives of a CHOICE.
#[cycle(printing)]
fn put_alternatives(
    printing: Printing<'_>,
    out: &mut String,
    all: &Alternatives,
) -> Result<(), AllocError> {
    put_marker(out, all.extensible)?;
    let root = all.root.as_slice();
    put_some_alternatives(printing, out, root, 0)?;
    let more = all.additions.as_slice();
    put_some_alternatives(printing, out, more, root.len())?;
    out.push('}')
}

/// Adds what follows the keyword of a type's kind.
#[cycle(printing)]
fn put_core(printing: Printing<'_>, out: &mut String, core: &Core) -> Result<(), AllocError> {
    match core {
        Core::Boolean | Core::Null | Core::ObjectIdentifier | Core::RelativeOid => Ok(()),
        Core::Integer(constraint) => put_constraint(out, constraint, false),
        Core::BitString(constraint)
        | Core::OctetString(constraint)
        | Core::Utf8String(constraint) => put_constraint(out, constraint, true),
        Core::Enumerated(items) => put_all_items(out, items),
        Core::NamedBits(bits) => put_bits(out, bits.as_slice()),
        Core::RestrictedString(_, codes, constraint) => {
            put_codes(out, codes.as_slice())?;
            put_constraint(out, constraint, true)
        }
        Core::Sequence(marker, components) | Core::Set(marker, components) => {
            put_marker(out, *marker)?;
            put_components(printing, out, components.as_slice())
        }
        Core::SequenceOf(constraint, element) | Core::SetOf(constraint, element) => {
            put_constraint(out, constraint, true)?;
            out.push(' ')?;
            put_nested(printing, out, *element)
        }
        Core::Choice(all) => put_alternatives(printing, out, all),
    }
}

/// Adds a type with its tags and with the types in it, or `..` if no more levels are printed.
#[cycle(printing)]
fn put_nested(printing: Printing<'_>, out: &mut String, ty: TypeId) -> Result<(), AllocError> {
    let Printing {
        alloc,
        schema,
        levels,
    } = printing;
    if levels == 0 || !schema.has(ty) {
        return out.push_str("..");
    }
    let resolved = schema.get(ty);
    put_tags(out, resolved.tags.as_slice())?;
    out.push_str(kind_of(&resolved.core))?;
    let nested = Printing {
        alloc,
        schema,
        levels: levels - 1,
    };
    put_core(nested, out, &resolved.core)
}

/// Adds a type with its tags and with the types in it, down to this number of levels.
pub fn put_type(
    alloc: Global,
    out: &mut String,
    schema: &Schema,
    ty: TypeId,
    levels: u8,
) -> Result<(), AllocError> {
    let printing = Printing {
        alloc,
        schema,
        levels,
    };
    put_nested(printing, out, ty)
}
