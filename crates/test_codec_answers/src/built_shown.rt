//! The parts of a view, in words.

use asn_base::value::Value;
use std::alloc::{AllocError, Global};
use views::{ValueRef, View};

/// A place in a message.
fn place(alloc: Global, at: Option<usize>) -> Result<String, AllocError> {
    match at {
        Some(at) => format!(in alloc; "borrowed at {at}"),
        None => String::from_str(alloc, "joined"),
    }
}

/// Writes a part that is a string.
fn part(alloc: Global, part: &ValueRef<'_, '_>, out: &mut String) -> Result<(), AllocError> {
    if let Some((octets, at)) = part.as_octets() {
        let digits = hex::encode_upper(alloc, octets)?;
        let at = place(alloc, at)?;
        write!(out, "octets {digits}, {at}\n")?;
    }
    if let Some((text, at)) = part.as_text() {
        let at = place(alloc, at)?;
        write!(out, "text {text}, {at}\n")?;
    }
    Ok(())
}

/// Writes the component with this number.
fn component(
    alloc: Global,
    whole: &ValueRef<'_, '_>,
    number: u32,
    out: &mut String,
) -> Result<(), AllocError> {
    write!(out, "component {number}: ")?;
    match whole.component(number) {
        Some(one) => part(alloc, &one, out),
        None => out.push_str("none\n"),
    }
}

/// Writes a component's value if it is a string.
fn component_value(
    alloc: Global,
    value: &Option<Value>,
    out: &mut String,
) -> Result<(), AllocError> {
    match value {
        Some(Value::Octets(octets)) => {
            let digits = hex::encode_upper(alloc, octets.as_slice())?;
            write!(out, "value octets {digits}\n")
        }
        Some(Value::Text(text)) => write!(out, "value text {text}\n"),
        Some(_) => out.push_str("another value\n"),
        None => out.push_str("absent\n"),
    }
}

/// Writes the components of a value.
fn values(alloc: Global, value: &Value, out: &mut String) -> Result<(), AllocError> {
    if let Value::Fields(values) = value {
        for value in values {
            component_value(alloc, value, out)?;
        }
    }
    Ok(())
}

/// The parts of the view of a SEQUENCE of strings, in words, and the same of its value.
pub fn all(alloc: Global, view: &View<'_>) -> Result<String, AllocError> {
    let mut out = String::new(alloc);
    let whole = view.top();
    let count = whole.count();
    write!(out, "members {count}\n")?;
    for number in 0..3 {
        component(alloc, &whole, number, &mut out)?;
    }
    let value = view.to_value(alloc)?;
    values(alloc, &value, &mut out)?;
    Ok(out)
}
