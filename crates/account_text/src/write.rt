//! Writes the text of an account, one token at a time.

ghost use Rattle.std.specs.Prelude.{◌≡◌, ◌∷◌, ◌++◌, [], List, IfOk, string_bytes};
ghost use Rattle.json.specs.Token.{begin_array, end_array, string};
ghost use Rattle.octet_account.specs.Flat.{FlatRow, AreRows};
ghost use Rattle.octet_account.specs.Seen.{numbers_of, flat_row, flat};
ghost use Rattle.account_text.specs.Text.{IsAccountText, compact_text};
ghost use Rattle.account_text.specs.proving.Tokens.{number_first, numbers_first, list_first, row_first, rows_first};
ghost use Rattle.account_text.specs.proving.Tokens.{kind_name, kind_of, listed_first};
ghost use Rattle.account_text.specs.proving.Writing.{Appends};

use crate::kind::Kind;
use json::Writer;
use octet_account::account::Account;
use octet_account::row::{Numbers, Places, Row, RowLayout};
use std::alloc::{AllocError, Global};

/// Writes a number.
fn number(out: &mut Writer<Global>, number: u32) -> Result<(), AllocError>
    ensures { Appends result out.old out.new (number_first number []) }
{
    out.u64(u64::from(number))
}

/// Writes the bracket that opens a row, and the name of its kind.
fn begin(out: &mut Writer<Global>, kind: Kind) -> Result<(), AllocError>
    ensures { Appends result out.old out.new (begin_array ∷ string (kind_name kind) ∷ []) }
{
    out.begin_array()?;
    out.string(kind.name())
}

/// Writes the start of a row: the bracket, the name of its kind, and the numbers of its header.
fn header(out: &mut Writer<Global>, kind: Kind, numbers: &Numbers) -> Result<(), AllocError>
    ensures { Appends result out.old out.new
        (begin_array ∷ string (kind_name kind) ∷ numbers_first (numbers_of numbers.now) []) }
{
    begin(out, kind)?;
    number(out, numbers.identifier)?;
    number(out, numbers.size)?;
    number(out, numbers.contents)
}

/// Writes places, and the brackets around them.
fn list(out: &mut Writer<Global>, places: &[u32]) -> Result<(), AllocError>
    ensures { Appends result out.old out.new (list_first places.now []) }
{
    out.begin_array()?;
    for place in places {
        number(out, *place)?;
    }
    out.end_array()
}

/// Writes the row of a SET or SET OF, except the bracket that closes it.
fn set(
    out: &mut Writer<Global>,
    kind: Kind,
    numbers: &Numbers,
    set: &Places,
) -> Result<(), AllocError>
    ensures { Appends result out.old out.new
        (begin_array ∷ string (kind_name kind) ∷ numbers_first (numbers_of numbers.now)
        (number_first set.now.members (list_first set.now.places.items (list_first set.now.inverse.items [])))) }
{
    header(out, kind, numbers)?;
    number(out, set.members)?;
    list(out, set.places.as_slice())?;
    list(out, set.inverse.as_slice())
}

/// Writes a row, except the bracket that closes it.
fn listed(out: &mut Writer<Global>, row: &Row) -> Result<(), AllocError>
    ensures { Appends result out.old out.new
        (begin_array ∷ string (kind_name (kind_of (flat_row row.now.listed))) ∷ listed_first
        (flat_row row.now.listed) []) }
{
    match &row.listed {
        RowLayout::Leaf(numbers) => header(out, Kind::Leaf, numbers),
        RowLayout::Wrap(numbers) => header(out, Kind::Wrap, numbers),
        RowLayout::Seq(numbers, members) => {
            header(out, Kind::Seq, numbers)?;
            number(out, *members)
        }
        RowLayout::SeqOf(numbers, members) => {
            header(out, Kind::SeqOf, numbers)?;
            number(out, *members)
        }
        RowLayout::Set(numbers, places) => set(out, Kind::Set, numbers, places),
        RowLayout::SetOf(numbers, places) => set(out, Kind::SetOf, numbers, places),
        RowLayout::Absent => begin(out, Kind::Absent),
        RowLayout::Default => begin(out, Kind::Default),
    }
}

/// Writes a row.
fn row(out: &mut Writer<Global>, row: &Row) -> Result<(), AllocError>
    ensures { Appends result out.old out.new (row_first (flat_row row.now.listed) []) }
{
    listed(out, row)?;
    out.end_array()
}

/// Writes rows, one after the other.
fn rows(out: &mut Writer<Global>, rows: &[Row]) -> Result<(), AllocError>
    ensures { Appends result out.old out.new (rows_first (flat rows.now) []) }
{
    for row in rows {
        self::row(out, row)?;
    }
    Ok(())
}

/// Returns the text of an account: its rows in JSON, without white space. The time is linear in the length of the text.
/// `AllocError` comes only if an allocation fails.
pub fn to_json(alloc: Global, account: &Account) -> Result<String, AllocError>
    ensures text { IfOk result (λ s. (rs : List FlatRow) → AreRows account.now rs → string_bytes s ≡ compact_text rs) }
    ensures reads_back { IfOk result (λ s. IsAccountText (string_bytes s) account.now) }
{
    let mut out = Writer::new(Vec::new(alloc));
    out.begin_array()?;
    rows(&mut out, account.rows())?;
    out.end_array()?;
    match String::from_utf8(out.into_inner()) {
        Ok(text) => Ok(text),
        Err(_) => Err(AllocError),
    }
}
