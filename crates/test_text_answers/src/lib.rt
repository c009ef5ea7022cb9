//! Answers rows of tests by the public calls of `text`, `notation` and `syntax`. The answer for each text is one line,
//! with the syntax tree of the text or its fault. `compare` answers rows by the tokens that can come next.
//!
//! The first word of a row says what `answer` is asked for:
//!
//! - `tokens`: the tokens of the text, each with its kind, its span in octets and its spelling.
//! - `value`, `constraint`, `size`: the tree at the first token, and the place after it. `at N` begins at token N. With
//!   `open N` that many things are open already.
//! - `module`: the module that the text is.
//! - `type`, `assigned`, `body`: the module with the text as its type `T`, as the value of its `v U`, or between its
//!   BEGIN and END. The answer has the assignments. The text begins at token 6, 7 or 4.
//! - `octets`: the octets of the text.
//! - `memory`: what is printed if an allocation fails, for `lexical items` or `modules`.
//!
//! In a row with the word `brief` the word `read` replaces each tree. Octets that aren't printable ASCII are written as
//! `\xNN`.
//!
//! Trees are written in a notation in which different trees look different. `numbers{1 2}`, `items{1, 2}` and
//! `fields{a = 1, b = 2}` are values in braces. A text is between back quotes, and a doubled quote of the notation is
//! written once. `<..>` encloses a type with the constraints after it. Sizes and alphabets are `(SIZE 1..2)` and
//! ``(FROM `a`..`z`)``.
//!
//! A list or an enumeration with an extension marker has `...` after its word or after its root items. A member after
//! the marker has `+` before it, and one in version brackets `+` and the number of the brackets.
#![tactic(auto)]

mod ask;
mod comparing;
mod constraints;
mod modules;
mod pieces;
mod tokens;
mod types;
mod values;

ghost use Rattle.std.specs.Prelude.{IfOk, map, string_bytes};
ghost use Rattle.row_format.specs.Rows.{IsEntry};

use crate::ask::put_answer;
use crate::pieces::put_octets;
pub use comparing::compare;
use row_format::{Row, RowText};
use std::alloc::{AllocError, Global};

/// Writes the line for a text: the text itself or, if texts aren't lines, its name, and then the answer.
fn put_line(alloc: Global, out: &mut String, row: &Row, text: &RowText) -> Result<(), AllocError> {
    if row.has("lines") {
        put_octets(out, &text.octets)?;
    } else {
        out.push_str(text.name.as_str())?;
    }
    out.push_str(" => ")?;
    put_answer(alloc, out, row, &text.octets)?;
    out.push('\n')
}

/// The entry of a row: its title, and below it a line for each of its texts.
pub fn answer(alloc: Global, row: &Row) -> Result<String, AllocError>
    ensures { IfOk result (λ s. IsEntry (map string_bytes row.now.words.items) (string_bytes s)) }
{
    let mut lines = String::new(alloc);
    for text in &row.texts {
        put_line(alloc, &mut lines, row, text)?;
    }
    row.entry(alloc, lines.as_str())
}
