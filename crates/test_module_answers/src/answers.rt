//! Answers in print.

ghost use Rattle.std.specs.Prelude.{IfOk, map, string_bytes};
ghost use Rattle.row_format.specs.Rows.{IsEntry};

use crate::words::wanted;
use row_format::Row;
use row_format::refusal::Refusal;
use row_format::words::asked;
use std::alloc::{AllocError, Global};

/// A heading, and below it a line for each word of a row that asks for something.
pub fn lines<F: Fn(&str) -> Result<String, AllocError>>(
    alloc: Global,
    row: &Row,
    heading: &str,
    line: F,
) -> Result<String, AllocError>
    requires { F.IsAlwaysCallable line }
{
    let mut text = String::from_str(alloc, heading)?;
    for word in &asked(alloc, row)? {
        let line = line(word)?;
        write!(text, "\n{line}")?;
    }
    Ok(text)
}

/// A word of a row, and what is said of it.
pub fn line(alloc: Global, word: &str, said: &str) -> Result<String, AllocError> {
    format!(in alloc; "{word}: {said}")
}

/// The words of an answer or of a fault.
fn words_of(answer: Result<String, Refusal>) -> Result<String, AllocError> {
    match answer {
        Ok(words) | Err(Refusal::Message(words)) => Ok(words),
        Err(Refusal::Memory) => Err(AllocError),
    }
}

/// The answer itself if the row wants none, or else whether it is the wanted one.
fn judged(alloc: Global, row: &Row, answer: String) -> Result<String, AllocError> {
    match wanted(row) {
        None => Ok(answer),
        Some(wanted) if answer.as_str() == wanted => String::from_str(alloc, "as wanted"),
        Some(wanted) => format!(in alloc; "wanted:\n{wanted}\nanswered:\n{answer}"),
    }
}

/// The entry of a row: its title, and below it its answer, or whether that is the wanted one.
pub fn entry(
    alloc: Global,
    row: &Row,
    answer: Result<String, Refusal>,
) -> Result<String, AllocError>
    ensures { IfOk result (λ s. IsEntry (map string_bytes row.now.words.items) (string_bytes s)) }
{
    let said = judged(alloc, row, words_of(answer)?)?;
    row.entry(alloc, said.as_str())
}
