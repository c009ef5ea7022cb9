//! The text of an account's rows.

use octet_account::row::{Numbers, Places, Row, RowLayout};
use std::alloc::{AllocError, Global};

/// The most rows of an account that are printed. If there are more, their number is printed.
const MOST_ROWS: usize = 12;

/// Adds numbers in brackets, with commas between them, and a text after them.
fn push_list(text: &mut String, numbers: &[u32], end: &str) -> Result<(), AllocError> {
    text.push('[')?;
    for i in 0..numbers.len() {
        let comma = if i > 0 { "," } else { "" };
        let number = numbers[i];
        write!(text, "{comma}{number}")?;
    }
    text.push_str(end)
}

/// Adds the kind of a row, how many identifier octets, length octets and contents octets its header has, and a text.
fn push_numbers(
    text: &mut String,
    kind: &str,
    numbers: Numbers,
    end: &str,
) -> Result<(), AllocError> {
    let identifier = numbers.identifier;
    let size = numbers.size;
    let contents = numbers.contents;
    write!(text, "[\"{kind}\",{identifier},{size},{contents}{end}")
}

/// Adds the same, and the members at their places.
fn push_places(
    text: &mut String,
    kind: &str,
    numbers: Numbers,
    places: &Places,
) -> Result<(), AllocError> {
    push_members(text, kind, numbers, places.members, ",")?;
    push_list(text, places.places.as_slice(), "],")?;
    push_list(text, places.inverse.as_slice(), "]]")
}

/// Adds the same, how many members there are, and a text.
fn push_members(
    text: &mut String,
    kind: &str,
    numbers: Numbers,
    members: u32,
    end: &str,
) -> Result<(), AllocError> {
    push_numbers(text, kind, numbers, ",")?;
    write!(text, "{members}{end}")
}

fn push_row(text: &mut String, row: &Row) -> Result<(), AllocError> {
    match &row.listed {
        RowLayout::Leaf(numbers) => push_numbers(text, "leaf", *numbers, "]"),
        RowLayout::Wrap(numbers) => push_numbers(text, "wrap", *numbers, "]"),
        RowLayout::Seq(numbers, members) => push_members(text, "seq", *numbers, *members, "]"),
        RowLayout::SeqOf(numbers, members) => push_members(text, "seqof", *numbers, *members, "]"),
        RowLayout::Set(numbers, places) => push_places(text, "set", *numbers, &**places),
        RowLayout::SetOf(numbers, places) => push_places(text, "setof", *numbers, &**places),
        RowLayout::Absent => text.push_str("[\"absent\"]"),
        RowLayout::Default => text.push_str("[\"default\"]"),
    }
}

/// The rows of an account, the root first. `["leaf",1,1,1]` gives how many identifier octets, length octets and
/// contents octets there are. `seq` and `seqof` also give how many members follow. `set` and `setof` give that, the
/// place of each encoded member, and for each place its member.
pub fn text_of(alloc: Global, rows: &[Row]) -> Result<String, AllocError> {
    let mut text = String::from_str(alloc, "[")?;
    for i in 0..rows.len().min(MOST_ROWS) {
        if i > 0 {
            text.push(',')?;
        }
        push_row(&mut text, &rows[i])?;
    }
    if rows.len() > MOST_ROWS {
        let count = rows.len();
        write!(text, ",.. {count} rows")?;
    }
    text.push(']')?;
    Ok(text)
}

/// The numbers of a row's header.
fn numbers_of(listed: &RowLayout) -> Option<Numbers> {
    match listed {
        RowLayout::Leaf(numbers) | RowLayout::Wrap(numbers) => Some(*numbers),
        RowLayout::Seq(numbers, _) | RowLayout::SeqOf(numbers, _) => Some(*numbers),
        RowLayout::Set(numbers, _) | RowLayout::SetOf(numbers, _) => Some(*numbers),
        RowLayout::Absent | RowLayout::Default => None,
    }
}

/// How many octets the first row gives, for its header and its contents together.
pub fn octets_of(rows: &[Row]) -> u64 {
    let Some(row) = rows.first() else {
        return 0;
    };
    match numbers_of(&row.listed) {
        Some(numbers) => {
            let header = numbers.identifier as u64 + numbers.size as u64;
            header + numbers.contents as u64
        }
        None => 0,
    }
}
