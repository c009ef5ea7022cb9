//! Routines as text.

ghost use Rattle.codec_code.specs.Listing.{class_name as class_name', field_text, form_name as form_name', head_text};
ghost use Rattle.codec_code.specs.Listing.{leaf_name as leaf_name', presence_name as presence_name', routine_text};
ghost use Rattle.codec_code.specs.Listing.{routines_text, row_name as row_name', step_line, steps_text};
ghost use Rattle.std.specs.Prelude.{◌≡◌, ◌++◌, IfOk, OnOk, decimal, string_bytes};

use crate::code::Code;
use crate::fault::Fault;
use crate::step::{Coding, Field, FieldPresence, Head, RowKind, Step};
use asn_base::schema::TypeId;
use asn_base::strings::StringKind;
use asn_base::tag::Class;
use encodings::LeafKind;
use std::alloc::{AllocError, Global};

/// Returns the routines of all types for encodings with tags, with a line for each type and one for each step.
/// `Memory`: an allocation failed.
pub fn listing(alloc: Global, code: &Code) -> Result<String, Fault>
    ensures { IfOk result (λ text. string_bytes text ≡ routines_text code.now 0 code.now) }
{
    let mut out = String::new(alloc);
    for index in 0..code.count() {
        push_routine(&mut out, code, TypeId { index })?;
    }
    Ok(out)
}

/// Appends the lines of the routine of a type: one with the type's number, and one for each step.
fn push_routine(out: &mut String, code: &Code, id: TypeId) -> Result<(), AllocError>
    ensures { OnOk result (string_bytes out.new ≡ string_bytes out.old ++ routine_text code.now id.index) }
{
    let index = id.index;
    write!(out, "type {index}\n")?;
    push_steps(out, code.steps(id, Coding::Tagged))
}

/// Appends the lines of steps, one for each. The error is that there is not enough memory.
pub fn push_steps(out: &mut String, steps: &[Step]) -> Result<(), AllocError>
    ensures { OnOk result (string_bytes out.new ≡ string_bytes out.old ++ steps_text steps.now) }
{
    for i in 0..steps.len() {
        push_step(out, steps[i])?;
        out.push_str("\n")?;
    }
    Ok(())
}

/// Appends the line of a step, without its end.
fn push_step(out: &mut String, step: Step) -> Result<(), AllocError>
    ensures { OnOk result (string_bytes out.new ≡ string_bytes out.old ++ step_line step) }
{
    match step {
        Step::Head(head) => push_head(out, head),
        Step::Leaf(kind) => {
            let name = leaf_name(kind);
            write!(out, "  Leaf {name}")
        }
        Step::Field(field) => {
            out.push_str("  Field ")?;
            push_field(out, field)
        }
        Step::SetComponent(field, rank) => {
            out.push_str("  Ranked ")?;
            push_field(out, field)?;
            write!(out, " {rank}")
        }
        Step::Each(id) => push_numbered(out, "  Each ", id.index),
        Step::EachSorted(id) => push_numbered(out, "  EachSorted ", id.index),
        Step::Pick(alternatives) => push_numbered(out, "  Pick ", alternatives),
        Step::Call(id) => push_numbered(out, "  Call ", id.index),
        Step::Rest => out.push_str("  Rest"),
        Step::End => out.push_str("  End"),
    }
}

/// Appends words and a number after them.
fn push_numbered(out: &mut String, words: &str, number: usize) -> Result<(), AllocError>
    ensures { OnOk result (string_bytes out.new ≡ string_bytes out.old ++ (words.now ++ decimal number)) }
{
    write!(out, "{words}{number}")
}

/// Appends the line of a header, without its end.
fn push_head(out: &mut String, head: Head) -> Result<(), AllocError>
    ensures { OnOk result (string_bytes out.new ≡ string_bytes out.old ++ head_text head) }
{
    let class = class_name(head.tag.class);
    let number = head.tag.number;
    let form = form_name(head.constructed);
    let row = row_name(head.row);
    write!(out, "  Head {class} {number} {form} {row}")
}

/// Appends a component: its place, its presence and the number of its type.
fn push_field(out: &mut String, field: Field) -> Result<(), AllocError>
    ensures { OnOk result (string_bytes out.new ≡ string_bytes out.old ++ field_text field) }
{
    let place = field.place;
    let need = presence_name(field.need);
    let ty = field.ty.index;
    write!(out, "{place} {need} {ty}")
}

/// The name of a tag's class.
fn class_name(class: Class) -> &'static str
    ensures { result.now ≡ class_name' class }
{
    match class {
        Class::Universal => "Universal",
        Class::Application => "Application",
        Class::Context => "Context",
        Class::Private => "Private",
    }
}

/// The name of a form: constructed or primitive.
fn form_name(constructed: bool) -> &'static str
    ensures { result.now ≡ form_name' constructed }
{
    if constructed {
        "constructed"
    } else {
        "primitive"
    }
}

/// The name of the contents that a header is before.
fn row_name(row: RowKind) -> &'static str
    ensures { result.now ≡ row_name' row }
{
    match row {
        RowKind::Leaf => "Leaf",
        RowKind::Wrap => "Wrap",
        RowKind::Sequence => "Sequence",
        RowKind::Set => "Set",
        RowKind::SequenceOf => "SequenceOf",
        RowKind::SetOf => "SetOf",
    }
}

/// The name of contents that hold no others.
fn leaf_name(kind: LeafKind) -> &'static str
    ensures { result.now ≡ leaf_name' kind }
{
    match kind {
        LeafKind::Boolean => "Boolean",
        LeafKind::Integer => "Integer",
        LeafKind::Enumerated => "Enumerated",
        LeafKind::BitString => "BitString",
        LeafKind::NamedBits => "NamedBits",
        LeafKind::OctetString => "OctetString",
        LeafKind::Null => "Null",
        LeafKind::ObjectIdentifier => "ObjectIdentifier",
        LeafKind::RelativeOid => "RelativeOid",
        LeafKind::Utf8String => "Utf8String",
        LeafKind::RestrictedString(StringKind::Numeric) => "RestrictedString(Numeric)",
        LeafKind::RestrictedString(StringKind::Printable) => "RestrictedString(Printable)",
        LeafKind::RestrictedString(StringKind::Ia5) => "RestrictedString(Ia5)",
        LeafKind::RestrictedString(StringKind::Visible) => "RestrictedString(Visible)",
    }
}

/// The name of a component's presence.
fn presence_name(need: FieldPresence) -> &'static str
    ensures { result.now ≡ presence_name' need }
{
    match need {
        FieldPresence::Mandatory => "Mandatory",
        FieldPresence::Optional => "Optional",
        FieldPresence::Default => "Default",
        FieldPresence::Addition => "Addition",
    }
}
