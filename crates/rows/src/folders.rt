//! Who answers the rows of a file.

ghost use Rattle.std.specs.Prelude.{IfOk, map, string_bytes};
ghost use Rattle.row_format.specs.Rows.{IsEntry};

use row_format::Row;
use std::alloc::{AllocError, Global};
use test_codec_answers::Samples;

/// Who answers the rows of a file, by its folder.
#[derive(Clone, Copy)]
pub struct Folder<'a> {
    name: &'a str,
    samples: &'a Samples,
}

impl<'a> Folder<'a> {
    /// The folder of a file.
    pub fn of(file: &'a str, samples: &'a Samples) -> Folder<'a> {
        let (name, _) = file.split_once('/').unwrap_or(("", file));
        Folder { name, samples }
    }

    /// Whether this crate answers the rows.
    pub fn is_own(&self) -> bool {
        self.name.is_empty()
    }

    /// Whether the answer to a row of the folder takes long. A text of `expected` is parsed thousands of times.
    pub fn takes_long(&self) -> bool {
        self.name == "expected"
    }

    /// The entry of a row, from the crate that answers the folder.
    pub fn entry(&self, alloc: Global, row: &Row) -> Result<String, AllocError>
        ensures { IfOk result (λ s. IsEntry (map string_bytes row.now.words.items) (string_bytes s)) }
    {
        match self.name {
            "text" => test_text_answers::answer(alloc, row),
            "expected" => test_text_answers::compare(alloc, row),
            "modules" => test_module_answers::answer(alloc, row),
            _ => self.samples.answer(alloc, row),
        }
    }
}
