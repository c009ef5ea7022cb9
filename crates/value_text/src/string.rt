//! Texts (X.680, 12.14 and 41), added to `out`.

ghost use Rattle.std.specs.List.{list_any};
ghost use Rattle.std.specs.Prelude.{◌≡◌, IfOk};
ghost use Rattle.value_text.specs.Print.{Adds, doubled, is_line_end, quoted, string_text};

use crate::leaf::{append, append_octets};
use std::alloc::AllocError;

/// Whether a text has a character that ends a line: LF, VT, FF or CR.
fn has_line_end(octets: &[u8]) -> bool
    ensures { result ≡ list_any is_line_end octets.now }
{
    for i in 0..octets.len() {
        if octets[i] >= 10 && octets[i] <= 13 {
            return true;
        }
    }
    false
}

/// Adds the text with each quote twice.
fn append_doubled(out: &mut String, text: &str) -> Result<(), AllocError>
    ensures { IfOk result (λ _. Adds out.old out.new (doubled text.now)) }
{
    for c in text.chars() {
        if c == '"' {
            out.push('"')?;
        }
        out.push(c)?;
    }
    Ok(())
}

/// Adds the text in quotes.
fn append_quoted(out: &mut String, text: &str) -> Result<(), AllocError>
    ensures { IfOk result (λ _. Adds out.old out.new (quoted text.now)) }
{
    append(out, "\"")?;
    append_doubled(out, text)?;
    append(out, "\"")?;
    Ok(())
}

/// Adds the text in quotes, or its octets as hexadecimal digits if a line ends in it.
pub fn append_string(out: &mut String, text: &str) -> Result<(), AllocError>
    ensures { IfOk result (λ _. Adds out.old out.new (string_text text.now)) }
{
    if has_line_end(text.as_bytes()) {
        append_octets(out, text.as_bytes())?;
        return Ok(());
    }
    append_quoted(out, text)?;
    Ok(())
}
