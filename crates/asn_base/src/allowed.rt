//! What constraints allow (X.680, 51).

ghost use Rattle.asn_base.specs.Seen.{constraint_of, range_of};
ghost use Rattle.asn_base.specs.Typed.{IsAllowed, IsAllowedSize, IsInRange, IsInSome};
ghost use Rattle.asn_base.specs.proving.Bounding.{From};
ghost use Rattle.std.specs.Prelude.{◌<◌, ◌^◌, ◌≤ℤ◌, ◌↔◌, ℕ, IfSome, IsTrue, map};

use crate::constraint::{Constraint, Range};

/// Whether the number is at least `floor`, if there is one.
#[inline(always)]
pub(crate) fn is_from(floor: Option<i128>, number: i128) -> bool
    ensures { IsTrue result ↔ From floor number }
{
    match floor {
        Some(floor) => floor <= number,
        None => true,
    }
}

/// Whether the number is at most `greatest`, if there is one.
#[inline(always)]
fn is_up_to(greatest: Option<i128>, number: i128) -> bool
    ensures { IsTrue result ↔ IfSome greatest (λ g. number ≤ℤ g) }
{
    match greatest {
        Some(greatest) => number <= greatest,
        None => true,
    }
}

/// Whether the range has the number.
#[inline(always)]
pub(crate) fn is_in_range(range: &Range, number: i128) -> bool
    ensures { IsTrue result ↔ IsInRange number (range_of range.now) }
{
    is_from(range.least, number) && is_up_to(range.greatest, number)
}

/// Whether one of the ranges has the number.
pub(crate) fn is_in_some(ranges: &[Range], number: i128) -> bool
    ensures { IsTrue result ↔ IsInSome number (map range_of ranges.now) }
{
    for i in 0..ranges.len() {
        if is_in_range(&ranges[i], number) {
            return true;
        }
    }
    false
}

/// Whether the constraint allows the number, whichever range has it.
fn is_in_any(constraint: &Constraint, number: i128) -> bool
    ensures { IsTrue result ↔ IsAllowed (constraint_of constraint.now) number }
{
    match &constraint.allowed {
        Some(ranges) => ranges.has(number),
        None => true,
    }
}

/// Whether the constraint allows every number, or the first range that a search reads has this one. False decides
/// nothing.
#[inline(always)]
pub fn is_in_first(constraint: &Constraint, number: i128) -> bool
    ensures { IsTrue result → IsAllowed (constraint_of constraint.now) number }
{
    match &constraint.allowed {
        Some(ranges) => ranges.has_at_root(number),
        None => true,
    }
}

/// Whether the constraint allows the number. If each of its n ranges ends before the next one begins, the time grows as
/// log n.
#[inline(always)]
pub fn is_allowed(constraint: &Constraint, number: i128) -> bool
    ensures { IsTrue result ↔ IsAllowed (constraint_of constraint.now) number }
{
    is_in_first(constraint, number) || is_in_any(constraint, number)
}

/// Whether the constraint surely allows all sizes.
#[inline(always)]
pub(crate) fn allows_all_sizes(constraint: &Constraint) -> bool
    ensures { IsTrue result → (n : ℕ) → IsAllowedSize (constraint_of constraint.now) n }
{
    match &constraint.allowed {
        Some(_) => false,
        None => true,
    }
}

/// Whether the constraint allows the size: a number of elements, bits, octets or characters.
pub fn is_allowed_size(constraint: &Constraint, size: u128) -> bool
    requires { size < 2 ^ 127 }
    ensures { IsTrue result ↔ IsAllowedSize (constraint_of constraint.now) size }
{
    is_allowed(constraint, size as i128)
}
