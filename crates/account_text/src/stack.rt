//! Whether rows are those of one account.

ghost use Rattle.std.specs.List.{AllByRecursion};
ghost use Rattle.std.specs.Prelude.{◌≡◌, ◌<◌, ◌++◌, ◌∷◌, [], List, option_to_list, IfSome, None, Ok, true, false};
ghost use Rattle.encodings.specs.Account.{Account};
ghost use Rattle.octet_account.specs.Flat.{FlatRow, AreRows};
ghost use Rattle.octet_account.specs.Seen.{flat_row, flat};
ghost use Rattle.account_text.specs.proving.Stack.{AgreesWithStack, Left, root, inside_of, is_left_out as leaves_out};
ghost use Rattle.account_text.specs.proving.Tokens.{IsSmallRow};

use limits::MAX_HEADERS;
use octet_account::row::{Row, RowLayout};
use std::alloc::{AllocError, Global};

/// A header whose members are being read: the number of members that are left, and whether each must be written.
#[derive(Clone, Copy, Debug, PartialEq, Eq)]
pub(crate) struct Open {
    pub(crate) left: u32,
    pub(crate) all_written: bool,
}

/// Returns the innermost header that has members left, and closes the headers inside it.
#[tactic(auto, using(crate::proofs::Standing::closed))]
pub(crate) fn next(stack: &mut Vec<Open>) -> Option<Open>
    ensures kept { (all rs : List FlatRow) → AgreesWithStack all stack.old.items rs
        → AgreesWithStack all (stack.new.items ++ option_to_list result) rs }
    ensures some { IfSome result (λ f. 0 < f.left) }
    ensures none { result ≡ None → stack.new.items ≡ [] }
{
    while let Some(top) = stack.pop() {
        if top.left > 0 {
            return Some(top);
        }
    }
    None
}

/// The header that this row opens, if it is that of a SEQUENCE, SET, list or explicit tag.
fn inside(row: &Row) -> Option<Open>
    ensures { option_to_list result ≡ inside_of (flat_row row.now.listed) }
{
    let (left, all_written) = match &row.listed {
        RowLayout::Wrap(_) => (1, true),
        RowLayout::Seq(_, members) => (*members, false),
        RowLayout::SeqOf(_, members) => (*members, true),
        RowLayout::Set(_, places) => (places.members, false),
        RowLayout::SetOf(_, places) => (places.members, true),
        RowLayout::Leaf(_) | RowLayout::Absent | RowLayout::Default => return None,
    };
    Some(Open { left, all_written })
}

/// Whether a row is that of a component that is left out.
fn is_left_out(row: &Row) -> bool
    ensures { result ≡ leaves_out (flat_row row.now.listed) }
{
    matches!(row.listed, RowLayout::Absent | RowLayout::Default)
}

/// Takes a row as the next member of the innermost header, or returns false if it may not be there.
fn enter(stack: &mut Vec<Open>, top: Open, row: &Row) -> Result<bool, AllocError>
    requires some { 0 < top.left }
    requires small { IsSmallRow (flat_row row.now.listed) }
    ensures taken { result ≡ Ok true → (all rs : List FlatRow)
        → AgreesWithStack all (stack.old.items ++ top ∷ []) (flat_row row.now.listed ∷ rs)
        → AgreesWithStack all stack.new.items rs }
    ensures refused { result ≡ Ok false → (all rs : List FlatRow)
        → AgreesWithStack all (stack.old.items ++ top ∷ []) (flat_row row.now.listed ∷ rs)
        → Left 400 (root ∷ []) all
        → ⊥ }
{
    if stack.as_slice().len() >= MAX_HEADERS {
        return Ok(false);
    }
    if is_left_out(row) && top.all_written {
        return Ok(false);
    }
    let left = top.left - 1;
    stack.push(Open { left, ..top })?;
    if let Some(members) = inside(row) {
        stack.push(members)?;
    }
    Ok(true)
}

/// Whether rows are those of an account. The memory that the function takes grows with how deep the rows are nested.
pub(crate) fn are_rows(alloc: Global, rows: &[Row]) -> Result<bool, AllocError>
    requires { AllByRecursion IsSmallRow (flat rows.now) }
    ensures yes { result ≡ Ok true → (a : Account) × AreRows a (flat rows.now) }
    ensures no { result ≡ Ok false → (a : Account) → AreRows a (flat rows.now) → ⊥ }
{
    let mut stack = Vec::new(alloc);
    stack.push(Open {
        left: 1,
        all_written: true,
    })?;
    for row in rows {
        let Some(top) = next(&mut stack) else {
            return Ok(false);
        };
        if !enter(&mut stack, top, row)? {
            return Ok(false);
        }
    }
    Ok(next(&mut stack).is_none())
}
