//! The rows of a file.

ghost use Rattle.std.specs.Prelude.{◌≡◌, ◌++◌, IfOk, IfErr, IsUtf8, bytes_eq, map, string_bytes};
ghost use Rattle.std.specs.List.{list_any};
ghost use Rattle.row_format.specs.Rows.{IsEntry, IsFileFault, IsTextFault, first_word, indented, title_of};

use crate::fault::RowFault;
use crate::forms::{form_of, is_among, put_texts};
use crate::layout::with_lines;
use crate::marks::{Block, blocks_of};
use std::alloc::{AllocError, Global};

/// What a row asks, and its texts.
pub struct Row {
    /// The line of the row's mark, counted from 1.
    pub line: usize,
    /// The words after the row's mark, at least one.
    pub words: Vec<String>,
    pub texts: Vec<RowText>,
}

/// A text of a row.
pub struct RowText {
    /// The words after the text's mark.
    pub name: String,
    /// The line of the text's mark, or the text's own line if each line is a text.
    pub line: usize,
    pub octets: Vec<u8>,
}

impl Row {
    /// What the row asks: its first word.
    pub fn command(&self) -> &str
        ensures { result.now ≡ first_word (map string_bytes self.now.words.items) }
    {
        match self.words.as_slice() {
            [word, ..] => word.as_str(),
            [] => "",
        }
    }

    /// Whether this word is among the row's.
    pub fn has(&self, word: &str) -> bool
        ensures { result ≡ list_any (λ w. bytes_eq (string_bytes w) word.now) self.now.words.items }
    {
        is_among(&self.words, word)
    }

    /// The words of the row, with a blank between each two.
    pub fn title(&self, alloc: Global) -> Result<String, AllocError>
        ensures { IfOk result (λ t. string_bytes t ≡ title_of (map string_bytes self.now.words.items)) }
    {
        self.words.as_slice().join(alloc, " ")
    }

    /// The row's title, and below it the lines of an answer, each after two blanks. An empty line has no blanks.
    pub fn entry(&self, alloc: Global, answer: &str) -> Result<String, AllocError>
        ensures whole { IfOk result
            (λ t. string_bytes t ≡ title_of (map string_bytes self.now.words.items) ++ indented answer.now) }
        ensures entry { IfOk result (λ t. IsEntry (map string_bytes self.now.words.items) (string_bytes t)) }
    {
        with_lines(self.title(alloc)?, answer)
    }
}

fn row_of(alloc: Global, block: Block) -> Result<Row, RowFault>
    ensures { IfErr result IsTextFault }
{
    let form = form_of(&block.words);
    let mut texts = Vec::new(alloc);
    for written in &block.texts {
        put_texts(alloc, &mut texts, form, written)?;
    }
    Ok(Row {
        line: block.line,
        words: block.words,
        texts,
    })
}

/// The rows of a file, in order.
///
/// # Errors
/// `NotUtf8` exactly if the file is not UTF-8, whatever else is wrong in it. Else the first line that is wrong, as
/// `RowFault` says.
pub fn rows(alloc: Global, file: &[u8]) -> Result<Vec<Row>, RowFault>
    ensures text { IfOk result (λ _. IsUtf8 file.now) }
    ensures fault { IfErr result (IsFileFault file.now) }
{
    let file = str::from_utf8(file).map_err(|_| RowFault::NotUtf8)?;
    let mut rows = Vec::new(alloc);
    for block in blocks_of(alloc, file)? {
        rows.push(row_of(alloc, block)?)?;
    }
    Ok(rows)
}

impl Drop for RowText {
    fn drop(self) {
        let RowText {
            name: _,
            line: _,
            octets: _,
        } = self;
    }
}

impl Drop for Row {
    fn drop(self) {
        let Row {
            line: _,
            words: _,
            texts: _,
        } = self;
    }
}
