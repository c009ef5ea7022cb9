//! Answers rows of data by the public calls of some crates, each answer below the words of its row. These crates link,
//! tag and bound modules, type values, accept schemas and compare their types.
//!
//! The first word of a row is a command, and the second is the name of the row. The commands of `answer` are `link`,
//! `tags`, `bounds`, `typed`, `settled` and `later`. `measure` answers a row with the command `speed`. Each command is
//! described at its function and at the head of the files that use it.
//!
//! The texts of a row are modules, and one named `later` is a module of a second schema. In a row with the word
//! `numbered` each `#` of its texts is replaced by a number, counted from 0. A text named `wanted` is the wanted
//! answer. This crate says whether the answer is that one, and otherwise prints both. Wanted answers, and those of the
//! stored run, are written by hand from the rules, not taken from this crate.
#![tactic(auto)]

mod answers;
mod bounds;
mod faults;
mod linking;
mod links;
mod marks;
mod notations;
mod paths;
mod places;
mod schemas;
mod shapes;
mod shown;
mod speed;
mod types;
mod versions;
mod words;

ghost use Rattle.std.specs.Prelude.{IfOk, map, string_bytes};
ghost use Rattle.row_format.specs.Rows.{IsEntry};

use crate::answers::entry;
use row_format::Row;
use row_format::refusal::{Refusal, refuse};
pub use speed::measure;
use std::alloc::{AllocError, Global};

/// The answer to a row, by its command.
fn answer_of(alloc: Global, row: &Row) -> Result<String, Refusal> {
    match row.command() {
        "link" | "tags" | "bounds" | "typed" => linking::answer(alloc, row),
        "settled" => schemas::answer(alloc, row),
        "later" => versions::answer(alloc, row),
        _ => Err(refuse(alloc, &"no such command")),
    }
}

/// The entry of a row: its title, and below it its answer, or whether that is the wanted one.
pub fn answer(alloc: Global, row: &Row) -> Result<String, AllocError>
    ensures { IfOk result (λ s. IsEntry (map string_bytes row.now.words.items) (string_bytes s)) }
{
    entry(alloc, row, answer_of(alloc, row))
}
