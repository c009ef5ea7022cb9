//! The rows after those of a member, and the numbers of octets of members.

ghost use Rattle.account_checker.specs.Follows.{sizes};
ghost use Rattle.account_checker.specs.Parts.{Member, members_in, rows_in, size_in};
ghost use Rattle.encodings.specs.Account.{Rows};
ghost use Rattle.octet_account.specs.Flat.{FlatRow, count, member_rows};
ghost use Rattle.octet_account.specs.Seen.{flat, flat_row};
ghost use Rattle.std.specs.Prelude.{◌≡◌, ◌≤◌, ◌++◌, get_or, List};

use crate::walk::total_octets;
use octet_account::row::{Row, RowLayout};

/// How many members or rows are directly in this row.
fn rows_below(listed: &RowLayout) -> u32
    ensures is { result ≡ members_in (flat_row listed.now) }
    ensures few { result ≤ 4294967295 }
{
    match listed {
        RowLayout::Leaf(_) | RowLayout::Absent | RowLayout::Default => 0,
        RowLayout::Wrap(_) => 1,
        RowLayout::Seq(_, count) | RowLayout::SeqOf(_, count) => *count,
        RowLayout::Set(_, places) | RowLayout::SetOf(_, places) => places.members,
    }
}

/// The rows after those of the first member.
pub(crate) fn after_member(rows: &[Row]) -> &[Row]
    ensures { (m : Member) (rest : List FlatRow) → flat rows.now ≡ rows_in m ++ rest → flat result.now ≡ rest }
{
    let mut left: u128 = 1;
    for i in 0..rows.len() {
        if left == 0 {
            return &rows[i..];
        }
        left = left - 1 + rows_below(&rows[i].listed) as u128;
    }
    &[]
}

/// How many octets the first member has, or None if it isn't encoded.
pub(crate) fn first_size(rows: &[Row]) -> Option<u64>
    ensures { (m : Member) (rest : List FlatRow) → flat rows.now ≡ rows_in m ++ rest → result ≡ size_in m }
{
    let Some((row, _)) = rows.split_first() else {
        return None;
    };
    match &row.listed {
        RowLayout::Absent => None,
        RowLayout::Default => None,
        _ => total_octets(&row.listed),
    }
}

/// How many octets the encoded member with this number has, or 0 if there is no such member. The rows begin with those
/// of the members.
pub(crate) fn size_at(rows: &[Row], members: usize, number: usize) -> u64
    ensures is { (rs : Rows) (rest : List FlatRow)
        → flat rows.now ≡ member_rows rs ++ rest
        → count rs ≡ members
        → result ≡ get_or (sizes rs) number 0 }
    ensures few { result ≤ 18446744073709551615 }
{
    let mut left = rows;
    let mut wanted = number;
    for i in 0..members {
        match first_size(left) {
            Some(size) => {
                if wanted == 0 {
                    return size;
                }
                wanted = wanted - 1;
                left = after_member(left);
            }
            None => left = after_member(left),
        }
    }
    0
}
