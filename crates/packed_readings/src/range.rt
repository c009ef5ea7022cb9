//! Numbers that constraints allow (X.680, 51).

ghost use Rattle.asn_base.specs.Seen.{bounds_of, constraint_of};
ghost use Rattle.packed_encodings.specs.Computed.{is_in_root};
ghost use Rattle.packed_encodings.specs.Lengths.{IsInRootBounds};
ghost use Rattle.packed_readings.specs.Counts.{is_allowed};
ghost use Rattle.std.specs.Prelude.{◌≡◌, ◌↔◌, ◌≤ℤ◌, IfSome, IsTrue};

use asn_base::allowed;
use asn_base::constraint::{Bounds, Constraint};

#[inline(always)]
fn is_from(least: Option<i128>, number: i128) -> bool
    ensures { IsTrue result ↔ IfSome least (λ l. l ≤ℤ number) }
{
    match least {
        Some(least) => least <= number,
        None => true,
    }
}

#[inline(always)]
fn is_to(greatest: Option<i128>, number: i128) -> bool
    ensures { IsTrue result ↔ IfSome greatest (λ g. number ≤ℤ g) }
{
    match greatest {
        Some(greatest) => number <= greatest,
        None => true,
    }
}

/// Whether the number is one of the root.
#[tactic(auto, using(crate::proofs::Ranges::root_same))]
#[inline(always)]
pub(crate) fn is_in_root(bounds: &Bounds, number: i128) -> bool
    ensures { result ≡ is_in_root (bounds_of bounds.now) number }
{
    is_within(bounds, number)
}

#[inline(always)]
fn is_within(bounds: &Bounds, number: i128) -> bool
    ensures { IsTrue result ↔ IsInRootBounds (bounds_of bounds.now) number }
{
    is_from(bounds.least, number) && is_to(bounds.greatest, number)
}

/// Whether the constraint allows the number.
#[tactic(auto, using(crate::proofs::Ranges::allowed_same))]
#[inline(always)]
pub(crate) fn is_allowed(constraint: &Constraint, number: i128) -> bool
    ensures { result ≡ is_allowed (constraint_of constraint.now) number }
{
    allowed::is_allowed(constraint, number)
}
