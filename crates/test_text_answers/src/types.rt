//! Syntax trees of types, in words.

use crate::constraints::put_constraints;
use crate::pieces::put_reference;
use crate::values::put_value;
use asn_base::strings::StringKind;
use asn_base::tag::{Class, Tag};
use std::alloc::AllocError;
use trees::{
    ConstraintSyntax, ElementsKind, EnumeratedItem, EnumeratedSyntax, Keyword, ListKind, Member,
    NamedBit, NamedNumber, PresenceSyntax, Simple, Standing, TypeForm, TypeSyntax,
};

/// Writes INTEGER, and the named numbers in braces if there are some.
fn put_integer(out: &mut String, numbers: &[NamedNumber]) -> Result<(), AllocError> {
    if numbers.is_empty() {
        return out.push_str("INTEGER");
    }
    let mut mark = "INTEGER{";
    for named in numbers {
        write!(out, "{mark}{} {}", named.name.it, named.number)?;
        mark = ", ";
    }
    out.push('}')
}

/// Writes BIT STRING, and the named bits in braces if there are some.
fn put_bits(out: &mut String, bits: &[NamedBit]) -> Result<(), AllocError> {
    if bits.is_empty() {
        return out.push_str("BIT STRING");
    }
    let mut mark = "BIT STRING{";
    for bit in bits {
        write!(out, "{mark}{} {}", bit.name.it, bit.place)?;
        mark = ", ";
    }
    out.push('}')
}

/// Writes items, the first after a text, and a brace.
fn put_item_list(
    out: &mut String,
    first: &str,
    items: &[EnumeratedItem],
) -> Result<(), AllocError> {
    let mut mark = first;
    for item in items {
        match item.number {
            Some(number) => write!(out, "{mark}{} {number}", item.name.it)?,
            None => write!(out, "{mark}{}", item.name.it)?,
        }
        mark = ", ";
    }
    out.push('}')
}

/// Writes the items of the root and, after the marker, the additions.
fn put_enumerated(out: &mut String, items: &EnumeratedSyntax) -> Result<(), AllocError> {
    put_item_list(out, "ENUMERATED{", &items.root)?;
    match &items.additions {
        Some(additions) if additions.is_empty() => out.push_str("...{}"),
        Some(additions) => put_item_list(out, "...{", additions),
        None => Ok(()),
    }
}

fn put_tag(out: &mut String, tag: Tag, keyword: Keyword) -> Result<(), AllocError> {
    let class = match tag.class {
        Class::Universal => "UNIVERSAL ",
        Class::Application => "APPLICATION ",
        Class::Context => "",
        Class::Private => "PRIVATE ",
    };
    let word = match keyword {
        Keyword::Absent => "",
        Keyword::Implicit => "IMPLICIT ",
        Keyword::Explicit => "EXPLICIT ",
    };
    write!(out, "[{class}{}] {word}", tag.number)
}

fn put_presence(out: &mut String, presence: &PresenceSyntax) -> Result<(), AllocError> {
    match presence {
        PresenceSyntax::Mandatory => Ok(()),
        PresenceSyntax::Optional => out.push_str(" OPTIONAL"),
        PresenceSyntax::Default(value) => {
            out.push_str(" DEFAULT ")?;
            put_value(out, value)
        }
    }
}

/// Writes a mark and the name of a member. After the marker `+` is before the name, and the number of its brackets if
/// it is in brackets.
fn put_name(
    out: &mut String,
    mark: &str,
    standing: Standing,
    name: &str,
) -> Result<(), AllocError> {
    match standing {
        Standing::Root => write!(out, "{mark}{name} "),
        Standing::Addition(None) => write!(out, "{mark}+ {name} "),
        Standing::Addition(Some(brackets)) => write!(out, "{mark}+{brackets} {name} "),
    }
}

#[cycle(put_type)]
fn put_members(out: &mut String, members: &[Member<TypeSyntax>]) -> Result<(), AllocError> {
    let mut is_first = true;
    for member in members {
        let mark = if is_first { "" } else { ", " };
        put_name(out, mark, member.standing, member.name.it.as_str())?;
        put_type(out, &member.syntax)?;
        put_presence(out, &member.presence)?;
        is_first = false;
    }
    out.push('}')
}

fn put_simple(out: &mut String, simple: &Simple) -> Result<(), AllocError> {
    let word = match simple {
        Simple::Boolean => "BOOLEAN",
        Simple::Integer(numbers) => return put_integer(out, numbers),
        Simple::BitString(bits) => return put_bits(out, bits),
        Simple::OctetString => "OCTET STRING",
        Simple::Null => "NULL",
        Simple::ObjectIdentifier => "OBJECT IDENTIFIER",
        Simple::RelativeOid => "RELATIVE-OID",
        Simple::Enumerated(items) => return put_enumerated(out, items),
        Simple::Utf8String => "UTF8String",
        Simple::Restricted(StringKind::Numeric) => "NumericString",
        Simple::Restricted(StringKind::Printable) => "PrintableString",
        Simple::Restricted(StringKind::Ia5) => "IA5String",
        Simple::Restricted(StringKind::Visible) => "VisibleString",
    };
    out.push_str(word)
}

fn word_of_list(kind: ListKind) -> &'static str {
    match kind {
        ListKind::Sequence => "SEQUENCE",
        ListKind::Set => "SET",
        ListKind::Choice => "CHOICE",
    }
}

fn word_of_elements(kind: ElementsKind) -> &'static str {
    match kind {
        ElementsKind::SequenceOf => "SEQUENCE",
        ElementsKind::SetOf => "SET",
    }
}

/// Whether there are constraints after a type. The size of a SEQUENCE OF or SET OF is before the OF.
fn is_constrained(syntax: &TypeSyntax) -> bool {
    match &syntax.form {
        TypeForm::Elements(_, _) => false,
        _ => !syntax.constraints.is_empty(),
    }
}

/// Writes what is before the members of a list, with the opening brace.
fn put_list_start(out: &mut String, kind: ListKind, marker: bool) -> Result<(), AllocError> {
    let word = word_of_list(kind);
    let dots = if marker { "..." } else { "" };
    write!(out, "{word}{dots}{{")
}

/// Writes what is before the type of the elements, with the constraints on their number.
fn put_elements_start(
    out: &mut String,
    kind: ElementsKind,
    constraints: &[ConstraintSyntax],
) -> Result<(), AllocError> {
    out.push_str(word_of_elements(kind))?;
    put_constraints(out, constraints)?;
    out.push_str(" OF ")
}

/// Writes a type, in angle brackets with its constraints if it has some.
#[cycle(put_type)]
pub fn put_type(out: &mut String, syntax: &TypeSyntax) -> Result<(), AllocError> {
    let is_constrained = is_constrained(syntax);
    if is_constrained {
        out.push('<')?;
    }
    match &syntax.form {
        TypeForm::Simple(simple) => put_simple(out, simple)?,
        TypeForm::Reference(reference) => put_reference(out, "", reference)?,
        TypeForm::List(kind, marker, members) => {
            put_list_start(out, *kind, *marker)?;
            put_members(out, members)?;
        }
        TypeForm::Elements(kind, element) => {
            put_elements_start(out, *kind, &syntax.constraints)?;
            put_type(out, element)?;
        }
        TypeForm::Tagged(tag, keyword, inner) => {
            put_tag(out, *tag, *keyword)?;
            put_type(out, inner)?;
        }
    }
    if is_constrained {
        put_constraints(out, &syntax.constraints)?;
        out.push('>')?;
    }
    Ok(())
}
