//! The answer that a row wants: its text named `wanted`.
//!
//! Blanks and line ends don't count. If the text ends with `..`, only the beginning of the answer is compared, with
//! what is before the `..`.

ghost use Rattle.std.specs.Prelude.{◌≡◌, ◌≤◌, ◌+◌, ◌-◌, ◌^◌, min, IfOk, IsSome, None};
ghost use Rattle.rows.specs.Wanted.{dense as dense', is_as_wanted as is_as_wanted'};

use row_format::Row;
use std::alloc::{AllocError, Global};
use test_program_answers::is_wanted;

/// How many rows want an answer, and how many of these have another answer.
#[derive(Clone, Copy, Default)]
pub struct Count {
    pub compared: usize,
    pub different: usize,
}

/// The octets of a text without blanks and line ends.
fn dense(alloc: Global, text: &[u8]) -> Result<Vec<u8>, AllocError>
    ensures { IfOk result (λ v. v.items ≡ dense' text.now) }
{
    text.iter()
        .copied()
        .filter(|octet| !octet.is_ascii_whitespace())
        .collect(alloc)
}

/// Whether an answer is the wanted one.
fn is_as_wanted(alloc: Global, wanted: &[u8], answer: &str) -> Result<bool, AllocError>
    ensures { IfOk result (λ b. b ≡ is_as_wanted' wanted.now answer.now) }
{
    let wanted = dense(alloc, wanted)?;
    let answer = dense(alloc, answer.as_bytes())?;
    let octets = wanted.as_slice();
    if octets.ends_with(b"..") {
        let front = &octets[..octets.len() - 2];
        return Ok(answer.as_slice().starts_with(front));
    }
    Ok(answer == wanted)
}

/// The most octets of a line that are printed.
const SHOWN: usize = 1024;

/// The line, or of a long line its first octets and its number of octets.
fn shown(alloc: Global, line: &str) -> Result<String, AllocError> {
    match line.get(..64) {
        Some(front) if line.len() > SHOWN => {
            let count = line.len();
            format!(in alloc; "{front}.., {count} octets")
        }
        _ => String::from_str(alloc, line),
    }
}

/// Adds the lines of an answer, each with a line end. Of a long line it adds only the beginning.
pub fn push_shown(alloc: Global, lines: &mut String, answer: &str) -> Result<(), AllocError> {
    for line in answer.lines() {
        lines.push_str(shown(alloc, line)?.as_str())?;
        lines.push('\n')?;
    }
    Ok(())
}

/// The wanted answer, if the row's answer is another one. Counts the row if it wants an answer.
pub fn differs<'a>(
    alloc: Global,
    row: &'a Row,
    answer: &str,
    count: &mut Count,
) -> Result<Option<&'a str>, AllocError>
    // A different answer counts as one more, up to the greatest number that the count can have.
    ensures counted { IfOk result (λ wanted.
        IsSome wanted → count.new.different ≡ min (count.old.different + 1) (2 ^ 64 - 1)) }
    // It is one of those that are compared.
    ensures compared { IfOk result (λ wanted.
        IsSome wanted → count.new.compared ≡ min (count.old.compared + 1) (2 ^ 64 - 1)) }
    // No other row counts as different.
    ensures same { IfOk result (λ wanted. wanted ≡ None → count.new.different ≡ count.old.different) }
    ensures kept { count.old.different ≤ count.new.different }
{
    let Some(wanted) = row.texts.iter().find(|text| is_wanted(text)) else {
        return Ok(None);
    };
    count.compared = count.compared.saturating_add(1);
    if is_as_wanted(alloc, wanted.octets.as_slice(), answer)? {
        return Ok(None);
    }
    count.different = count.different.saturating_add(1);
    Ok(Some(std::str::from_utf8(wanted.octets.as_slice()).unwrap_or("no text")))
}
