//! The ends of the members of SET and SET OF by their places. They are an index beside the rows for readers of
//! accounts.

ghost use Rattle.std.specs.Prelude.{◌≡◌, ◌<◌, length};
ghost use Rattle.octet_account.specs.Seen.{flat, flat_row};

use crate::row::{Places, Row, RowLayout};

/// How many members or rows are directly in this row.
fn rows_below(listed: &RowLayout) -> u32 {
    match listed {
        RowLayout::Leaf(_) | RowLayout::Absent | RowLayout::Default => 0,
        RowLayout::Wrap(_) => 1,
        RowLayout::Seq(_, members) | RowLayout::SeqOf(_, members) => *members,
        RowLayout::Set(_, places) | RowLayout::SetOf(_, places) => places.members,
    }
}

/// How many octets a row gives, those of its header included, or None if it has no header.
fn octet_count(listed: &RowLayout) -> Option<u32> {
    let numbers = match listed {
        RowLayout::Leaf(numbers) | RowLayout::Wrap(numbers) => numbers,
        RowLayout::Seq(numbers, _) | RowLayout::SeqOf(numbers, _) => numbers,
        RowLayout::Set(numbers, _) | RowLayout::SetOf(numbers, _) => numbers,
        RowLayout::Absent | RowLayout::Default => return None,
    };
    let header = numbers.identifier.saturating_add(numbers.size);
    Some(header.saturating_add(numbers.contents))
}

/// The row after those of the member that begins at row `at`.
fn next(rows: &[Row], at: u32) -> u32 {
    let first = at as usize;
    if first < rows.len() {
        at.saturating_add(rows[first].span)
    } else {
        at
    }
}

/// How many rows a member has whose first row this is. `after` are the rows after that one, and their spans are known.
fn span_of(listed: &RowLayout, after: &[Row]) -> u32 {
    let mut at: u32 = 0;
    for _ in 0..rows_below(listed) {
        at = next(after, at);
    }
    at.saturating_add(1)
}

/// Sets the number at a place, if the place is there.
fn put(numbers: &mut [u32], place: usize, number: u32) {
    if place < numbers.len() {
        numbers[place] = number;
    }
}

/// Sets for each place how many octets the member there has.
fn put_sizes(ends: &mut [u32], places: &[u32], members: u32, rows: &[Row]) {
    let mut at: u32 = 0;
    let mut number: usize = 0;
    for _ in 0..members {
        let first = at as usize;
        if first >= rows.len() {
            return;
        }
        if let Some(size) = octet_count(&rows[first].listed) {
            if number < places.len() {
                put(ends, places[number] as usize, size);
            }
            number = number.saturating_add(1);
        }
        at = next(rows, at);
    }
}

/// Adds to each number all numbers before it.
fn sum_up(numbers: &mut [u32]) {
    let mut sum: u32 = 0;
    for i in 0..numbers.len() {
        sum = sum.saturating_add(numbers[i]);
        numbers[i] = sum;
    }
}

/// The same members at their places, with the ends of the places. `rows` begin with the rows of the members.
fn places_with_ends(mut set: Box<Places>, rows: &[Row]) -> Box<Places>
    ensures members { result.value.members ≡ set.value.members }
    ensures places { result.value.places.items ≡ set.value.places.items }
    ensures inverse { result.value.inverse.items ≡ set.value.inverse.items }
{
    let places = &mut *set;
    put_sizes(
        places.ends.as_mut_slice(),
        places.places.as_slice(),
        places.members,
        rows,
    );
    sum_up(places.ends.as_mut_slice());
    set
}

/// The same row with its span and the ends of its places. `after` are the rows after it, which have these already.
fn row_with_ends(listed: RowLayout, after: &[Row]) -> Row
    ensures { flat_row result.listed ≡ flat_row listed }
{
    let span = span_of(&listed, after);
    let listed = match listed {
        RowLayout::Set(numbers, places) => RowLayout::Set(numbers, places_with_ends(places, after)),
        RowLayout::SetOf(numbers, places) => RowLayout::SetOf(
            numbers,
            places_with_ends(places, after),
        ),
        listed => listed,
    };
    Row { listed, span }
}

/// Whether the row has places.
#[inline(always)]
fn has_places(listed: &RowLayout) -> bool {
    match listed {
        RowLayout::Set(_, _) | RowLayout::SetOf(_, _) => true,
        RowLayout::Leaf(_) | RowLayout::Wrap(_) => false,
        RowLayout::Seq(_, _) | RowLayout::SeqOf(_, _) => false,
        RowLayout::Absent | RowLayout::Default => false,
    }
}

/// Sets the span of the row at this place. The rows after it have theirs.
fn set_span(rows: &mut [Row], at: usize)
    requires { at < length rows.old }
    ensures { flat rows.new ≡ flat rows.old }
{
    let all = &rows[..];
    let span = span_of(&all[at].listed, &all[at + 1..]);
    rows[at].span = span;
}

/// Sets the span of the row at this place and the ends of its places. The rows after it have these already.
fn set_ends(rows: &mut [Row], at: usize)
    requires { at < length rows.old }
    ensures { flat rows.new ≡ flat rows.old }
{
    if !has_places(&rows[at].listed) {
        set_span(rows, at);
        return;
    }
    let row = std::mem::replace(&mut rows[at], Row::of(RowLayout::Absent));
    let (_, after) = rows.split_at(at + 1);
    let row = row_with_ends(row.listed, after);
    rows[at] = row;
}

/// The same rows with their spans and the ends of their places. A row without members has its span already.
pub(crate) fn with_ends(mut rows: Vec<Row>) -> Vec<Row>
    ensures { flat result.items ≡ flat rows.items }
{
    for done in 0..rows.len() {
        let at = rows.len() - 1 - done;
        if rows[at].span == 0 {
            set_ends(rows.as_mut_slice(), at);
        }
    }
    rows
}
