//! The octet at which octets stop being the text of an account.

ghost use Rattle.std.specs.Prelude.{IfOk, ◌≤◌};
ghost use Rattle.account_text.specs.Stops.{IsStop, IsStopAfter};

use crate::account_fault::AccountFault;
use crate::read::{rows, take_begin_array};
use json::{Reader, Scratch};
use std::alloc::{AllocError, Global};
use thiserror::Error;

/// The place at which octets stop being the text of an account, and what was expected there. Octets and rows are
/// counted from 0. The octet is the first one after what was read.
#[derive(Clone, Copy, Debug, PartialEq, Eq, Error)]
pub enum Stop {
    /// The octets before this one are UTF-8, and those from it on are not.
    #[error("at octet {0}: found octets that are not UTF-8, expected text in JSON")]
    NotText(usize),
    /// The text doesn't begin with the bracket of an array.
    #[error("at octet 0: found no JSON array, expected an array of rows")]
    NotArray,
    /// Rows were read, and what comes next isn't a row.
    #[error("at octet {offset}, in row {row}: found no row, expected a kind and its numbers in an array")]
    NotRow {
        /// The number of rows before it.
        row: usize,
        offset: usize,
    },
    /// More text follows the rows.
    #[error("at octet {0}: found more text after the rows, expected its end")]
    Behind(usize),
    /// The text has this number of rows, but they aren't those of one account.
    #[error("found rows that are not those of one account, {0} of them, expected after each row as many members as it says, at most 400 deep")]
    NotOne(usize),
}

/// The offset of a reader in a text of so many octets.
fn offset_within(reader: &Reader<'_>, octets: usize) -> usize
    ensures { result ≤ octets }
{
    reader.offset().min(octets)
}

/// What is wrong after all rows, of which there are so many, in a text of so many octets.
fn after_rows(reader: &mut Reader<'_>, rows: usize, octets: usize) -> Stop
    ensures { IsStopAfter octets rows reader.old result }
{
    if reader.next().is_some() {
        return Stop::Behind(offset_within(reader, octets));
    }
    Stop::NotOne(rows)
}

/// Returns the place at which octets that [`crate::from_json`] refuses stop being the text of an account. For a bad
/// number or name it is the octet after it. It is an octet of the text, or the end of it. `AllocError` comes only if an
/// allocation fails.
pub fn stop_of(alloc: Global, octets: &[u8]) -> Result<Stop, AllocError>
    ensures { IfOk result (IsStop octets.now) }
{
    let text = match str::from_utf8(octets) {
        Ok(text) => text,
        Err(fault) => return Ok(Stop::NotText(fault.valid_up_to())),
    };
    let mut scratch = Scratch::new(alloc);
    let Ok(mut reader) = Reader::new(text, &mut scratch) else {
        return Err(AllocError);
    };
    if !take_begin_array(&mut reader) {
        return Ok(Stop::NotArray);
    }
    let count = octets.len();
    let mut found = Vec::new(alloc);
    match rows(alloc, &mut reader, &mut found) {
        Ok(()) => Ok(after_rows(&mut reader, found.len(), count)),
        Err(AccountFault::Memory) => Err(AllocError),
        Err(AccountFault::NotAccount) => {
            let row = found.len();
            let offset = offset_within(&reader, count);
            Ok(Stop::NotRow { row, offset })
        }
    }
}
