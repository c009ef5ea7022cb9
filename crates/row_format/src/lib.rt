//! Files of rows: what a test asks, and the texts that it asks about. `Row::entry` lays out an answer below the words
//! of its row.
//!
//! A file is read line by line.
//!
//! - `=== WORD..` begins a row. The first word says what the row asks, and any others how.
//! - `--- NAME` begins a text of that row. The lines up to the next mark are the text, without the last line end.
//! - `===` alone ends a row.
//! - A line outside a text may be empty, be `#`, or begin with `# `. It is a comment, for example on the source of the
//!   answer.
//!
//! These words of a row change how its texts are read, in this order:
//!
//! - `lines`: each line is a text of its own.
//! - `repeat`: each line is `NUMBER TEXT`, and stands for NUMBER copies of TEXT, each with a space after it. Each copy
//!   has its own number, from 0, in the place of each `#`. The copies of all lines of a text follow each other.
//! - `hex`: the text is hexadecimal octets. White space is left out.
//!
//! `words` gives the words that are left, and the octets of texts whose `#`s are numbered.
#![tactic(auto)]

mod fault;
mod forms;
mod layout;
mod marks;
pub mod refusal;
mod row;
pub mod words;

pub use fault::RowFault;
pub use row::{Row, RowText, rows};
