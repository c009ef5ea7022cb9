//! Syntax trees of values, in words.

use crate::pieces::{put_reference, put_text};
use std::alloc::AllocError;
use trees::{Named, ValueForm, ValueSyntax};

fn put_digits(out: &mut String, digits: &[u8], kind: &str) -> Result<(), AllocError> {
    out.push('\'')?;
    for digit in digits {
        write!(out, "{digit:X}")?;
    }
    write!(out, "'{kind}")
}

fn put_numbers(out: &mut String, numbers: &[u128]) -> Result<(), AllocError> {
    let mut mark = "numbers{";
    for number in numbers {
        write!(out, "{mark}{number}")?;
        mark = " ";
    }
    out.push('}')
}

#[cycle(put_value)]
fn put_items(out: &mut String, items: &[ValueSyntax]) -> Result<(), AllocError> {
    let mut is_first = true;
    for item in items {
        out.push_str(if is_first { "items{" } else { ", " })?;
        put_value(out, item)?;
        is_first = false;
    }
    out.push('}')
}

#[cycle(put_value)]
fn put_fields(out: &mut String, fields: &[Named<ValueSyntax>]) -> Result<(), AllocError> {
    let mut is_first = true;
    for field in fields {
        let mark = if is_first { "fields{" } else { ", " };
        write!(out, "{mark}{} = ", field.name.it)?;
        put_value(out, &field.value)?;
        is_first = false;
    }
    out.push('}')
}

/// Writes a value.
#[cycle(put_value)]
pub fn put_value(out: &mut String, value: &ValueSyntax) -> Result<(), AllocError> {
    match &value.form {
        ValueForm::True => out.push_str("TRUE"),
        ValueForm::False => out.push_str("FALSE"),
        ValueForm::Null => out.push_str("NULL"),
        ValueForm::Number(number) => write!(out, "{number}"),
        ValueForm::BinaryString(digits) => put_digits(out, digits, "B"),
        ValueForm::HexString(digits) => put_digits(out, digits, "H"),
        ValueForm::CharacterString(octets) => put_text(out, "", octets),
        ValueForm::Reference(reference) => put_reference(out, "", reference),
        ValueForm::Chosen(name, value) => {
            write!(out, "{name} : ")?;
            put_value(out, value)
        }
        ValueForm::Empty => out.push_str("{}"),
        ValueForm::Numbers(numbers) => put_numbers(out, numbers),
        ValueForm::Items(items) => put_items(out, items),
        ValueForm::Fields(fields) => put_fields(out, fields),
    }
}
