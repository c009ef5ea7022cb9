//! Reads an account from its text, one row at a time. It keeps the rows, but no tree of the text.

ghost use Rattle.std.specs.Prelude.{◌≡◌, ◌∷◌, [], ℕ, List, MatchOption, IfOk, Err, Ok, Some, decimal, true, false};
ghost use Rattle.std.specs.List.{AllByRecursion};
ghost use Rattle.std.specs.Bool.{MatchBool};
ghost use Rattle.json.specs.Token.{Token as Token', begin_array, end_array, string};
ghost use Rattle.encodings.specs.Account.{Account as Account', Numbers as Numbers'};
ghost use Rattle.octet_account.specs.Flat.{FlatRow, IsSmall, AreSmall};
ghost use Rattle.octet_account.specs.Seen.{numbers_of, flat_row, flat};
ghost use Rattle.account_text.specs.Stops.{NoRowAfter};
ghost use Rattle.account_text.specs.Text.{IsAccountText, rows_json};
ghost use Rattle.json.specs.Json.{document};
ghost use Rattle.account_text.specs.proving.Tokens.{number_first, numbers_first, list_first, row_first, rows_first};
ghost use Rattle.account_text.specs.proving.Sets.{IsSet};
ghost use Rattle.account_text.specs.proving.Tokens.{kind_name, kind_of, listed_first, IsSmallRow};

use crate::account_fault::AccountFault;
use crate::kind::{Kind, kind_named};
use crate::stack::are_rows;
use json::{Reader, Scratch, Token};
use limits::MAX_MESSAGE;
use octet_account::account::Account;
use octet_account::row::{Numbers, Places, Row, RowLayout};
use std::alloc::Global;

/// The number of this text, or None if the text isn't a number in digits alone.
fn number_of(text: &str) -> Option<u32>
    ensures { MatchOption result ((n : ℕ) → IsSmall n → text.now ≡ decimal n → ⊥)
        (λ n. IsSmall n × (text.now ≡ decimal n)) }
{
    let Ok(number) = text.parse::<u32>() else {
        return None;
    };
    let mut buffer = itoa::Buffer::new();
    if number as usize > MAX_MESSAGE || buffer.format(number) != text {
        return None;
    }
    Some(number)
}

/// Takes a number, or returns None if the next token isn't one.
fn number(reader: &mut Reader<'_>) -> Option<u32>
    ensures { MatchOption result
        ((n : ℕ) (ts : List Token') → IsSmall n → reader.old ≡ number_first n ts → ⊥)
        (λ n. IsSmall n × (reader.old ≡ number_first n reader.new)) }
{
    match reader.next() {
        Some(Token::Number(text)) => number_of(text),
        _ => None,
    }
}

/// Takes the bracket that opens an array.
pub(crate) fn take_begin_array(reader: &mut Reader<'_>) -> bool
    ensures { MatchBool result (reader.old ≡ begin_array ∷ reader.new)
        ((ts : List Token') → reader.old ≡ begin_array ∷ ts → ⊥) }
{
    matches!(reader.next(), Some(Token::BeginArray))
}

/// Takes the three numbers of a header, or returns None.
fn numbers(reader: &mut Reader<'_>) -> Option<Numbers>
    ensures { MatchOption result
        ((z : Numbers') (ts : List Token') → AreSmall z → reader.old ≡ numbers_first z ts → ⊥)
        (λ z. AreSmall (numbers_of z) × (reader.old ≡ numbers_first (numbers_of z) reader.new)) }
{
    let identifier = number(reader)?;
    let size = number(reader)?;
    let contents = number(reader)?;
    Some(Numbers {
        identifier,
        size,
        contents,
    })
}

/// Takes numbers up to the bracket that closes their array.
fn places(alloc: Global, reader: &mut Reader<'_>) -> Result<Vec<u32>, AccountFault>
    ensures read { IfOk result (λ v. AllByRecursion IsSmall v.items
        × (reader.old ≡ list_first v.items reader.new)) }
    ensures refused { result ≡ Err AccountFault.NotAccount → (ns : List ℕ) (ts : List Token')
        → AllByRecursion IsSmall ns
        → reader.old ≡ list_first ns ts
        → ⊥ }
{
    let mut found = Vec::new(alloc);
    if !take_begin_array(reader) {
        return Err(AccountFault::NotAccount);
    }
    while !reader.take_end_array() {
        let Some(place) = number(reader) else {
            return Err(AccountFault::NotAccount);
        };
        if found.push(place).is_err() {
            return Err(AccountFault::Memory);
        }
    }
    Ok(found)
}

/// Takes the numbers of a header, and the number of its members, or returns None.
fn list(reader: &mut Reader<'_>) -> Option<(Numbers, u32)>
    ensures { MatchOption result
        ((z : Numbers') (n : ℕ) (ts : List Token') → AreSmall z → IsSmall n
        → reader.old ≡ numbers_first z (number_first n ts) → ⊥)
        (λ p. AreSmall (numbers_of p.0) × IsSmall p.1
        × (reader.old ≡ numbers_first (numbers_of p.0) (number_first p.1 reader.new))) }
{
    let numbers = numbers(reader)?;
    let members = number(reader)?;
    Some((numbers, members))
}

/// Takes the numbers of the header of a SET or SET OF, the number of its members, their places, and the inverse.
fn set(alloc: Global, reader: &mut Reader<'_>) -> Result<(Numbers, Box<Places>), AccountFault>
    ensures read { IfOk result (λ s. IsSet (numbers_of s.0) s.1.value reader.old reader.new) }
    ensures refused { result ≡ Err AccountFault.NotAccount
        → (z : Numbers') (n : ℕ) (p q : List ℕ) (ts : List Token')
        → AreSmall z → IsSmall n → AllByRecursion IsSmall p → AllByRecursion IsSmall q
        → reader.old ≡ numbers_first z (number_first n (list_first p (list_first q ts)))
        → ⊥ }
{
    let Some((numbers, members)) = list(reader) else {
        return Err(AccountFault::NotAccount);
    };
    let places = match self::places(alloc, reader) {
        Ok(found) => found,
        Err(fault) => return Err(fault),
    };
    let inverse = match self::places(alloc, reader) {
        Ok(found) => found,
        Err(fault) => return Err(fault),
    };
    match Places::of(alloc, members, places, inverse) {
        Ok(set) => Ok((numbers, set)),
        Err(_) => Err(AccountFault::Memory),
    }
}

/// Takes the items of a row of this kind, after its name.
fn listed(alloc: Global, kind: Kind, reader: &mut Reader<'_>) -> Result<RowLayout, AccountFault>
    ensures read { IfOk result (λ t. (kind_of (flat_row t) ≡ kind) × IsSmallRow (flat_row t)
        × (reader.old ≡ listed_first (flat_row t) reader.new)) }
    ensures refused { result ≡ Err AccountFault.NotAccount → (r : FlatRow) (ts : List Token')
        → kind_of r ≡ kind → IsSmallRow r
        → reader.old ≡ listed_first r ts
        → ⊥ }
{
    match kind {
        Kind::Leaf => match numbers(reader) {
            Some(numbers) => Ok(RowLayout::Leaf(numbers)),
            None => Err(AccountFault::NotAccount),
        },
        Kind::Wrap => match numbers(reader) {
            Some(numbers) => Ok(RowLayout::Wrap(numbers)),
            None => Err(AccountFault::NotAccount),
        },
        Kind::Seq => match list(reader) {
            Some((numbers, members)) => Ok(RowLayout::Seq(numbers, members)),
            None => Err(AccountFault::NotAccount),
        },
        Kind::SeqOf => match list(reader) {
            Some((numbers, members)) => Ok(RowLayout::SeqOf(numbers, members)),
            None => Err(AccountFault::NotAccount),
        },
        Kind::Set => match set(alloc, reader) {
            Ok((numbers, set)) => Ok(RowLayout::Set(numbers, set)),
            Err(fault) => Err(fault),
        },
        Kind::SetOf => match set(alloc, reader) {
            Ok((numbers, set)) => Ok(RowLayout::SetOf(numbers, set)),
            Err(fault) => Err(fault),
        },
        Kind::Absent => Ok(RowLayout::Absent),
        Kind::Default => Ok(RowLayout::Default),
    }
}

/// Takes one row.
fn row(alloc: Global, reader: &mut Reader<'_>) -> Result<Row, AccountFault>
    ensures read { IfOk result (λ r. IsSmallRow (flat_row r.listed)
        × (reader.old ≡ row_first (flat_row r.listed) reader.new)) }
    ensures refused { result ≡ Err AccountFault.NotAccount → (r : FlatRow) (ts : List Token')
        → IsSmallRow r
        → reader.old ≡ row_first r ts
        → ⊥ }
{
    if !take_begin_array(reader) {
        return Err(AccountFault::NotAccount);
    }
    let Some(kind) = take_kind(reader) else {
        return Err(AccountFault::NotAccount);
    };
    let listed = match listed(alloc, kind, reader) {
        Ok(listed) => listed,
        Err(fault) => return Err(fault),
    };
    if !reader.take_end_array() {
        return Err(AccountFault::NotAccount);
    }
    Ok(Row::of(listed))
}

/// Takes the name of a kind.
fn take_kind(reader: &mut Reader<'_>) -> Option<Kind>
    ensures { MatchOption result
        ((k : Kind) (ts : List Token') → reader.old ≡ string (kind_name k) ∷ ts → ⊥)
        (λ k. reader.old ≡ string (kind_name k) ∷ reader.new) }
{
    match reader.next() {
        Some(Token::String(name)) => kind_named(name),
        _ => None,
    }
}

/// Takes rows up to the bracket that closes their array, and adds them to the empty list. If what comes next isn't a
/// row, the list has the rows before it.
pub(crate) fn rows(
    alloc: Global,
    reader: &mut Reader<'_>,
    found: &mut Vec<Row>,
) -> Result<(), AccountFault>
    requires { found.old.items ≡ [] }
    ensures read { IfOk result (λ _. AllByRecursion IsSmallRow (flat found.new.items)
        × (reader.old ≡ rows_first (flat found.new.items) (end_array ∷ reader.new))) }
    ensures refused { result ≡ Err AccountFault.NotAccount → (rs : List FlatRow) (ts : List Token')
        → AllByRecursion IsSmallRow rs
        → reader.old ≡ rows_first rs (end_array ∷ ts)
        → ⊥ }
    ensures stops { result ≡ Err AccountFault.NotAccount → NoRowAfter (flat found.new.items) reader.old }
{
    while !reader.take_end_array() {
        let row = match row(alloc, reader) {
            Ok(row) => row,
            Err(fault) => return Err(fault),
        };
        if found.push(row).is_err() {
            return Err(AccountFault::Memory);
        }
    }
    Ok(())
}

/// Takes the rows of a whole text.
fn whole(alloc: Global, text: &str) -> Result<Vec<Row>, AccountFault>
    ensures read { IfOk result (λ v. AllByRecursion IsSmallRow (flat v.items)
        × (document text.now ≡ Some (rows_json (flat v.items)))) }
    ensures refused { result ≡ Err AccountFault.NotAccount → (rs : List FlatRow)
        → AllByRecursion IsSmallRow rs
        → document text.now ≡ Some (rows_json rs)
        → ⊥ }
{
    let mut scratch = Scratch::new(alloc);
    let Ok(mut reader) = Reader::new(text, &mut scratch) else {
        return Err(AccountFault::Memory);
    };
    if !take_begin_array(&mut reader) {
        return Err(AccountFault::NotAccount);
    }
    let mut found = Vec::new(alloc);
    match rows(alloc, &mut reader, &mut found) {
        Ok(()) => {}
        Err(fault) => return Err(fault),
    }
    if reader.next().is_some() {
        return Err(AccountFault::NotAccount);
    }
    Ok(found)
}

/// Reads the account whose rows a text has, in any spelling that JSON allows. Numbers are whole, from 0 to 16,777,216,
/// and in digits alone. `NotAccount`: the text isn't JSON, its rows aren't those of one account, there are too few or
/// too many, or they are nested deeper than 400 levels. `Memory`: an allocation failed. The time is linear in the
/// length of the text, and the function keeps the rows alone.
pub fn from_json(alloc: Global, text: &str) -> Result<Account, AccountFault>
    ensures read { IfOk result (λ a. IsAccountText text.now a) }
    ensures refused { result ≡ Err AccountFault.NotAccount → (a : Account') → IsAccountText text.now a → ⊥ }
{
    let rows = match whole(alloc, text) {
        Ok(rows) => rows,
        Err(fault) => return Err(fault),
    };
    match are_rows(alloc, rows.as_slice()) {
        Ok(true) => Ok(Account::of(rows)),
        Ok(false) => Err(AccountFault::NotAccount),
        Err(_) => Err(AccountFault::Memory),
    }
}
