//! Small parts of answers.

use std::alloc::AllocError;
use trees::{At, Reference};

/// Writes octets: printable ones as they are, others as `\xNN`.
pub fn put_octets(out: &mut String, octets: &[u8]) -> Result<(), AllocError> {
    for octet in octets {
        if octet.is_ascii_graphic() || *octet == b' ' {
            out.push(char::from(*octet))?;
        } else {
            write!(out, "\\x{octet:02X}")?;
        }
    }
    Ok(())
}

/// Writes a mark, and a text between back quotes.
pub fn put_text(out: &mut String, mark: &str, octets: &[u8]) -> Result<(), AllocError> {
    write!(out, "{mark}`")?;
    put_octets(out, octets)?;
    out.push('`')
}

/// Writes a mark, and a name or a module's name and the name after it.
pub fn put_reference(
    out: &mut String,
    mark: &str,
    reference: &Reference,
) -> Result<(), AllocError> {
    let name = reference.name();
    match reference.module() {
        Some(module) => write!(out, "{mark}{module}.{name}"),
        None => write!(out, "{mark}{name}"),
    }
}

/// Writes names with commas between them, or `none`.
pub fn put_names(out: &mut String, names: &[At<String>]) -> Result<(), AllocError> {
    if names.is_empty() {
        return out.push_str("none");
    }
    let mut mark = "";
    for name in names {
        write!(out, "{mark}{}", name.it)?;
        mark = ", ";
    }
    Ok(())
}
