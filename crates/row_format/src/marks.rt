//! The lines of a file, sorted by their marks.

ghost use Rattle.std.specs.Prelude.{IfErr};
ghost use Rattle.row_format.specs.Rows.{IsTextFault};

use crate::fault::RowFault;
use std::alloc::Global;

/// A row of the file, before its texts are read in their form.
#[derive(Drop)]
pub struct Block {
    pub line: usize,
    pub words: Vec<String>,
    pub texts: Vec<RawText>,
}

/// A text of the file, before it is read in its form: its lines, each with its end.
pub struct RawText {
    pub name: String,
    pub line: usize,
    pub lines: String,
}

/// What a line means by its mark.
enum Line<'t> {
    Row(&'t str),
    End,
    Text(&'t str),
    Other(&'t str),
}

/// The part of the file that a line is in.
#[derive(Clone, Copy)]
enum Section {
    Outside,
    Row,
    Text,
}

fn line_of(line: &str) -> Line<'_> {
    if let Some(words) = line.strip_prefix("=== ") {
        return Line::Row(words);
    }
    if let Some(name) = line.strip_prefix("--- ") {
        return Line::Text(name);
    }
    if line == "===" {
        Line::End
    } else {
        Line::Other(line)
    }
}

fn is_comment(line: &str) -> bool {
    line.is_empty() || line == "#" || line.starts_with("# ")
}

/// The row that begins with these words.
fn block_of(alloc: Global, words: &str, number: usize) -> Result<Block, RowFault>
    ensures { IfErr result IsTextFault }
{
    let mut found = Vec::new(alloc);
    for word in words.split_ascii_whitespace() {
        found.push(String::from_str(alloc, word)?)?;
    }
    if found.is_empty() {
        return Err(RowFault::NoRow(number));
    }
    Ok(Block {
        line: number,
        words: found,
        texts: Vec::new(alloc),
    })
}

/// Begins a text of the last row.
fn begin_text(
    alloc: Global,
    blocks: &mut Vec<Block>,
    name: &str,
    number: usize,
) -> Result<(), RowFault>
    ensures { IfErr result IsTextFault }
{
    let Some(block) = blocks.last_mut() else {
        return Err(RowFault::NoRow(number));
    };
    block.texts.push(RawText {
        name: String::from_str(alloc, name)?,
        line: number,
        lines: String::new(alloc),
    })?;
    Ok(())
}

/// Adds a line after those of the last text.
fn put_line(blocks: &mut Vec<Block>, line: &str) -> Result<(), RowFault>
    ensures { IfErr result IsTextFault }
{
    if let Some(block) = blocks.last_mut()
        && let Some(text) = block.texts.last_mut()
    {
        text.lines.push_str(line)?;
        text.lines.push('\n')?;
    }
    Ok(())
}

/// Reads a line, and returns the part of the file that the next line is in.
fn read_line(
    alloc: Global,
    blocks: &mut Vec<Block>,
    place: Section,
    line: &str,
    number: usize,
) -> Result<Section, RowFault>
    ensures { IfErr result IsTextFault }
{
    match (line_of(line), place) {
        (Line::Row(words), _) => {
            blocks.push(block_of(alloc, words, number)?)?;
            Ok(Section::Row)
        }
        (Line::End, _) => Ok(Section::Outside),
        (Line::Text(_), Section::Outside) => Err(RowFault::NoRow(number)),
        (Line::Text(name), _) => {
            begin_text(alloc, blocks, name, number)?;
            Ok(Section::Text)
        }
        (Line::Other(line), Section::Text) => {
            put_line(blocks, line)?;
            Ok(Section::Text)
        }
        (Line::Other(line), _) if is_comment(line) => Ok(place),
        (Line::Other(_), _) => Err(RowFault::NoMark(number)),
    }
}

/// The rows of a file, before their texts are read in their forms.
pub fn blocks_of(alloc: Global, file: &str) -> Result<Vec<Block>, RowFault>
    ensures { IfErr result IsTextFault }
{
    let mut blocks = Vec::new(alloc);
    let mut place = Section::Outside;
    let mut number = 0usize;
    for line in file.lines() {
        number = number.saturating_add(1);
        place = read_line(alloc, &mut blocks, place, line, number)?;
    }
    Ok(blocks)
}

impl Drop for RawText {
    fn drop(self) {
        let RawText {
            name: _,
            line: _,
            lines: _,
        } = self;
    }
}
