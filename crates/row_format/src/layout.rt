//! Answers to rows in print.

ghost use Rattle.std.specs.Prelude.{◌≡◌, ◌++◌, IfOk, string_bytes};
ghost use Rattle.row_format.specs.Rows.{indented, margin as margin'};

use std::alloc::AllocError;

/// What is before a line of an answer: a line end and, unless the line is empty, two blanks.
fn margin(line: &str) -> &'static str
    ensures { result.now ≡ margin' line.now }
{
    if line.is_empty() { "\n" } else { "\n  " }
}

/// A text, and after it the lines of an answer, each after its margin.
pub fn with_lines(mut text: String, answer: &str) -> Result<String, AllocError>
    ensures { IfOk result (λ s. string_bytes s ≡ string_bytes text ++ indented answer.now) }
{
    for line in answer.lines() {
        text.push_str(margin(line))?;
        text.push_str(line)?;
    }
    Ok(text)
}
