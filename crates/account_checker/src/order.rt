//! The places of members in contents octets.

ghost use Rattle.account_checker.specs.Follows.{Checked, before, by_place, sizes};
ghost use Rattle.account_checker.specs.Parts.{AreEndsOf, AreInOrder, EndsAt, EndsFrom};
ghost use Rattle.account_checker.specs.Parts.{count_or, end_before as octets_in_front, place_in};
ghost use Rattle.account_checker.specs.declared.order.Order.TheVariants.{InOrder, Placed};
ghost use Rattle.encodings.specs.Account.{Rows};
ghost use Rattle.octet_account.specs.Flat.{FlatRow, count, member_rows};
ghost use Rattle.octet_account.specs.Seen.{flat};
ghost use Rattle.std.specs.List.{sum};
ghost use Rattle.std.specs.Prelude.{◌≡◌, ◌+◌, ◌<◌, ◌≤◌, ◌++◌, ◌↔◌, List, get_or, length};
ghost use Rattle.std.specs.Prelude.{IsTrue, MatchOption, Some, None};

use crate::checks::Checks;
use crate::places::are_places;
use crate::skipped::{after_member, first_size, size_at};
use crate::walk::{Counted, Described, has_count, offset_after};
use octet_account::row::{Numbers, Places, Row};

/// The order of members in contents octets.
#[derive(Clone, Copy)]
pub(crate) enum Order<'r> {
    /// The members are in the order of their rows.
    InOrder,
    /// Each encoded member is at its place.
    Placed(&'r Places),
}

/// The contents of a header whose row has members.
#[derive(Clone, Copy)]
pub(crate) struct Contents<'o, 'r> {
    /// How many octets the contents have by the row.
    pub size: u32,
    /// How many members the row has.
    pub members: u32,
    /// The order of the members.
    pub order: Order<'r>,
    /// The contents octets.
    pub octets: &'o [u8],
    /// The rows after that of the header.
    pub rows: &'r [Row],
}

/// The contents of a header whose row has this number of members, in the order of their rows.
pub(crate) fn in_order<'o, 'r>(
    numbers: &Numbers,
    members: u32,
    described: Described<'o, 'r>,
) -> Contents<'o, 'r>
    ensures { result
        ≡ record {
          size = numbers.now.contents;
          members = members;
          order = InOrder;
          octets = described.entry.octets;
          rows = described.entry.rows;
        } }
{
    Contents {
        size: numbers.contents,
        members,
        order: Order::InOrder,
        octets: described.octets,
        rows: described.rows,
    }
}

/// The contents of a header whose row has members at these places.
pub(crate) fn placed<'o, 'r>(
    numbers: &Numbers,
    places: &'r Places,
    described: Described<'o, 'r>,
) -> Contents<'o, 'r>
    ensures { result
        ≡ record {
          size = numbers.now.contents;
          members = places.entry.now.members;
          order = Placed places.entry;
          octets = described.entry.octets;
          rows = described.entry.rows;
        } }
{
    Contents {
        size: numbers.contents,
        members: places.members,
        order: Order::Placed(places),
        octets: described.octets,
        rows: described.rows,
    }
}

/// Whether the places are those of this number of members, if places are checked.
fn are_in_order(checks: Checks, order: Order, count: usize) -> bool
    ensures { IsTrue result ↔ AreInOrder checks order.entry count }
{
    match order {
        Order::InOrder => true,
        Order::Placed(set) => {
            if checks.places {
                are_places(count, set.places.as_slice(), set.inverse.as_slice())
            } else {
                true
            }
        }
    }
}

/// The number at this index of the list, or 0 if the list is shorter.
fn number_at(numbers: &[u32], index: usize) -> usize
    ensures { result ≡ get_or numbers.now index 0 }
{
    if index < numbers.len() {
        numbers[index] as usize
    } else {
        0
    }
}

/// How many octets the members at the first places have together. The rows begin with those of the members.
fn octets_before(rows: &[Row], members: usize, inverse: &[u32], place: usize) -> u128
    ensures { (rs : Rows) (rest : List FlatRow)
        → flat rows.now ≡ member_rows rs ++ rest
        → count rs ≡ members
        → result ≡ before (by_place (sizes rs) inverse.now) place }
{
    let mut octets: u128 = 0;
    for j in 0..inverse.len() {
        if j >= place {
            return octets;
        }
        octets = octets + size_at(rows, members, inverse[j] as usize) as u128;
    }
    octets
}

/// How many octets are before a place. `ends` has the offset at which each place ends.
fn end_before(ends: &[u32], place: usize) -> u128
    ensures is { result ≡ octets_in_front ends.now place }
    ensures few { result ≤ 18446744073709551615 }
{
    if place == 0 {
        0
    } else {
        number_at(ends, place - 1) as u128
    }
}

/// Whether the place of an encoded member ends exactly `size` octets after its start.
fn ends_at(set: &Places, number: usize, size: u64) -> bool
    ensures { IsTrue result ↔ EndsAt set.now.places.items set.now.ends.items number (Some size) }
{
    let place = number_at(set.places.as_slice(), number);
    let ends = set.ends.as_slice();
    end_before(ends, place) + size as u128 == number_at(ends, place) as u128
}

/// Whether `known` is true and the place of this member ends at its offset. A member that isn't encoded has no place.
fn still_known(known: bool, set: &Places, number: usize, size: Option<u64>) -> bool
    ensures { IsTrue result ↔ IsTrue known × EndsAt set.now.places.items set.now.ends.items number size }
{
    match size {
        Some(size) => {
            if known {
                ends_at(set, number, size)
            } else {
                false
            }
        }
        None => known,
    }
}

/// How many octets the members have by their rows, how many of them are encoded, and whether the ends of their places
/// are known.
#[derive(Clone, Copy)]
struct Measured {
    octets: u128,
    written: usize,
    known: bool,
}

/// The measures of this number of members. The rows begin with those of the members.
fn measure(rows: &[Row], members: usize, set: &Places) -> Measured
    ensures { (rs : Rows) (rest : List FlatRow)
        → flat rows.now ≡ member_rows rs ++ rest
        → count rs ≡ members
        → (result.octets ≡ sum (sizes rs))
        × (result.written ≡ length (sizes rs))
        × (IsTrue result.known → EndsFrom set.now.places.items set.now.ends.items 0 (sizes rs)) }
{
    let mut left = rows;
    let mut octets: u128 = 0;
    let mut written: usize = 0;
    let mut known = true;
    for i in 0..members {
        let size = first_size(left);
        known = still_known(known, set, written, size);
        octets = offset_after(octets, size, i);
        written = written_to(written, size, members);
        left = after_member(left);
    }
    Measured {
        octets,
        written,
        known,
    }
}

/// Whether the ends of places are known to be right, before the members at these places are checked. The result is None
/// if the check already fails: the members have another number of octets, or the places aren't those of this number of
/// members.
pub(crate) fn are_known(checks: Checks, contents: Contents<'_, '_>) -> Option<bool>
    ensures { MatchOption result
        ((rs : Rows) (rest : List FlatRow)
        → flat contents.entry.rows.now ≡ member_rows rs ++ rest
        → count rs ≡ contents.entry.members
        → Checked checks.numbers (contents.entry.size ≡ sum (sizes rs))
        → AreInOrder checks contents.entry.order (length (sizes rs))
        → ⊥)
        (λ known. IsTrue known
        → AreEndsOf (flat contents.entry.rows.now) contents.entry.members contents.entry.order) }
{
    match contents.order {
        Order::InOrder => Some(false),
        Order::Placed(set) => {
            if !checks.places {
                return Some(false);
            }
            let measured = measure(contents.rows, contents.members as usize, set);
            if !has_count(checks, contents.size, measured.octets) {
                return None;
            }
            if !are_in_order(checks, contents.order, measured.written) {
                return None;
            }
            Some(measured.known)
        }
    }
}

/// The rows after those of the members. The result is None if the members have another number of octets than the row of
/// the header gives, or the places aren't those of the encoded members.
pub(crate) fn after_members<'r>(
    checks: Checks,
    contents: Contents<'_, '_>,
    counted: Counted<'r>,
) -> Option<&'r [Row]>
    ensures { MatchOption result
        (Checked checks.numbers (contents.entry.size ≡ counted.entry.octets)
        → AreInOrder checks contents.entry.order counted.entry.written
        → ⊥)
        (λ r. Checked checks.numbers (contents.entry.size ≡ counted.entry.octets)
        × AreInOrder checks contents.entry.order counted.entry.written
        × (r.now ≡ counted.entry.rows.now)) }
{
    if has_count(checks, contents.size, counted.octets)
        && are_in_order(checks, contents.order, counted.written)
    {
        Some(counted.rows)
    } else {
        None
    }
}

/// The offset of the encoded member with this number in the contents octets, if headers are checked. In the order of
/// rows `offset` octets are before it. If the ends of places aren't known, the function looks at the rows once more.
pub(crate) fn start(
    checks: Checks,
    contents: Contents<'_, '_>,
    known: bool,
    number: usize,
    offset: u128,
) -> u128
    requires { IsTrue known → AreEndsOf (flat contents.rows.now) contents.members contents.order }
    ensures { (rs : Rows) (rest : List FlatRow)
        → flat contents.entry.rows.now ≡ member_rows rs ++ rest
        → count rs ≡ contents.entry.members
        → before (sizes rs) number ≡ offset
        → Checked checks.headers (place_in contents.entry.order (sizes rs) number ≡ result) }
{
    match contents.order {
        Order::InOrder => offset,
        Order::Placed(set) => {
            let place = number_at(set.places.as_slice(), number);
            let members = contents.members as usize;
            if !checks.headers {
                0
            } else if known {
                end_before(set.ends.as_slice(), place)
            } else {
                octets_before(contents.rows, members, set.inverse.as_slice(), place)
            }
        }
    }
}

/// How many members are encoded up to and with a member of this size, if `number` members are encoded before it.
pub(crate) fn written_to(number: usize, size: Option<u64>, members: usize) -> usize
    requires { number < members }
    ensures is { result ≡ number + count_or size }
    ensures most { result ≤ number + 1 }
{
    match size {
        Some(_) => number + 1,
        None => number,
    }
}
