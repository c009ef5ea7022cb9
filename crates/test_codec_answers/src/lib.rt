//! Answers rows of data by the public calls of codecs and of the crates that codecs use, each answer below the words of
//! its row.
//!
//! The first word of a row is a command, and the second is the name of the row. Each command is described at its
//! function and at the head of the file that uses it. The answers of the stored run are written by hand, or counted by
//! a second reader, not taken from this crate.
#![tactic(auto)]

mod account;
mod buffer;
mod built;
mod built_shown;
mod failing;
mod front;
mod headers;
mod leaf;
mod packed;
mod place;
mod segments;
mod sweep;
mod typed;
mod value;
mod versions;
mod view;
mod words;
mod written;

ghost use Rattle.std.specs.Prelude.{◌≡◌, IfOk, map, string_bytes};
ghost use Rattle.row_format.specs.Rows.{IsEntry};

use asn_base::schema::Schema;
use codec_code::{Code, Fault, compile};
use row_format::Row;
use row_format::refusal::{Refusal, refuse};
use std::alloc::{AllocError, Global};
use test_types::schema;

/// The answer to a row whose command is about octets or values.
fn answer_of(alloc: Global, schema: &Schema, code: &Code, row: &Row) -> Result<String, Refusal> {
    match row.command() {
        "front" => front::answer(alloc, row),
        "header" => headers::header(alloc, row),
        "octets" => headers::octets(alloc, row),
        "bits" => buffer::answer(alloc, row),
        "print" => typed::print(alloc, schema, row),
        "value" => typed::value(alloc, schema, row),
        "same" => typed::alike(alloc, schema, row),
        "later" => versions::answer(alloc, schema, row),
        "default" => typed::default(alloc, code, row),
        "listing" => typed::listing(alloc, schema),
        "der" => written::in_memory(alloc, code, row),
        "sink" => written::to_sink(alloc, code, row),
        "calls" => failing::answer(alloc, code, row),
        "uper" => packed::answer(alloc, schema, row),
        _ => answer_of_reader(alloc, schema, code, row),
    }
}

/// The answer to a row whose command is about decoded messages or views.
fn answer_of_reader(
    alloc: Global,
    schema: &Schema,
    code: &Code,
    row: &Row,
) -> Result<String, Refusal> {
    match row.command() {
        "leaf" => leaf::answer(alloc, row),
        "segments" => segments::answer(alloc, row),
        "place" => place::answer(alloc, code, row),
        "sweep" => sweep::answer(alloc, code, row),
        "view" | "read" | "read-der" => view::answer(alloc, schema, code, row),
        "built" => built::answer(alloc),
        _ => Err(refuse(alloc, &"no such command")),
    }
}

/// A copy of a schema, with the levels of its DEFAULTs.
fn copied_schema(alloc: Global, schema: &Schema) -> Result<Schema, AllocError>
    ensures { IfOk result (λ s. s ≡ schema.now) }
{
    let mut copy = schema.copy(alloc)?;
    copy.cache_default_depths(alloc)?;
    Ok(copy)
}

/// The sample types, whose values and messages the rows are about, and their routines.
pub struct Samples {
    schema: Schema,
    code: Code,
}

impl Samples {
    /// The sample types, with their routines. `AllocError` comes only if an allocation fails.
    pub fn new(alloc: Global) -> Result<Samples, AllocError>
        ensures { IfOk result (λ s. s.code ≡ s.schema) }
    {
        let schema = copied_schema(alloc, &schema(alloc)?)?;
        match compile(alloc, &schema) {
            Ok(code) => Ok(Samples { schema, code }),
            Err(Fault::Memory) => Err(AllocError),
        }
    }

    /// The entry of a row: its title, and below it the lines of its answer.
    pub fn answer(&self, alloc: Global, row: &Row) -> Result<String, AllocError>
        ensures { IfOk result (λ s. IsEntry (map string_bytes row.now.words.items) (string_bytes s)) }
    {
        let answer = match answer_of(alloc, &self.schema, &self.code, row) {
            Ok(answer) => answer,
            Err(Refusal::Message(words)) => words,
            Err(Refusal::Memory) => return Err(AllocError),
        };
        row.entry(alloc, answer.as_str())
    }
}

impl Drop for Samples {
    fn drop(self) {
        let Samples { schema: _, code: _ } = self;
    }
}
