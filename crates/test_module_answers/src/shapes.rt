//! Written types in few words.

use crate::marks::{comma, put_marker, put_tag, string_word};
use std::alloc::AllocError;
use trees::{ElementsKind, Keyword, ListKind, PresenceSyntax, Simple, Standing};
use type_table::{ListMember, Shape};

fn simple(simple: &Simple) -> &'static str {
    match simple {
        Simple::Boolean => "BOOLEAN",
        Simple::Integer(_) => "INTEGER",
        Simple::BitString(_) => "BIT STRING",
        Simple::OctetString => "OCTET STRING",
        Simple::Null => "NULL",
        Simple::ObjectIdentifier => "OBJECT IDENTIFIER",
        Simple::RelativeOid => "RELATIVE-OID",
        Simple::Enumerated(_) => "ENUMERATED",
        Simple::Utf8String => "UTF8String",
        Simple::Restricted(kind) => string_word(*kind),
    }
}

fn list(kind: ListKind) -> &'static str {
    match kind {
        ListKind::Sequence => "SEQUENCE",
        ListKind::Set => "SET",
        ListKind::Choice => "CHOICE",
    }
}

fn presence(presence: &PresenceSyntax) -> &'static str {
    match presence {
        PresenceSyntax::Mandatory => "",
        PresenceSyntax::Optional => " OPTIONAL",
        PresenceSyntax::Default(_) => " DEFAULT",
    }
}

/// The keyword after a tag, between blanks.
fn keyword(keyword: Keyword) -> &'static str {
    match keyword {
        Keyword::Absent => " ",
        Keyword::Implicit => " IMPLICIT ",
        Keyword::Explicit => " EXPLICIT ",
    }
}

/// Adds what is before a member: a text, after the marker `+`, and the number of its brackets if it is in brackets.
fn put_standing(out: &mut String, before: &str, standing: Standing) -> Result<(), AllocError> {
    out.push_str(before)?;
    match standing {
        Standing::Root => Ok(()),
        Standing::Addition(None) => out.push_str("+ "),
        Standing::Addition(Some(brackets)) => write!(out, "+{brackets} "),
    }
}

/// Adds the members of a list, each with the number of its type.
fn put_members(out: &mut String, members: &[ListMember]) -> Result<(), AllocError> {
    for (place, member) in members.iter().enumerate() {
        put_standing(out, comma(place), member.standing)?;
        let name = member.name.it.as_str();
        let ty = member.ty;
        let presence = presence(&member.presence);
        write!(out, "{name} {ty}{presence}")?;
    }
    out.push('}')
}

/// Adds a written type, in which the types directly in it are written as numbers.
pub fn put_shape(out: &mut String, shape: &Shape) -> Result<(), AllocError> {
    match shape {
        Shape::Simple(plain) => out.push_str(simple(plain)),
        Shape::Reference(number) => write!(out, "reference to {number}"),
        Shape::Tagged(label, word, number) => {
            put_tag(out, "", *label, keyword(*word))?;
            write!(out, "{number}")
        }
        Shape::Members(kind, is_extensible, members) => {
            out.push_str(list(*kind))?;
            put_marker(out, *is_extensible)?;
            put_members(out, members.as_slice())
        }
        Shape::Elements(ElementsKind::SequenceOf, number) => write!(out, "SEQUENCE OF {number}"),
        Shape::Elements(ElementsKind::SetOf, number) => write!(out, "SET OF {number}"),
    }
}
