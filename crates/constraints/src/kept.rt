//! What a resolved type has for its constraints.

ghost use Rattle.std.specs.Prelude.{ℕ, ℤ, ◌≡◌, ◌<◌, [], true, false, length, IfOk};
ghost use Rattle.asn_base.specs.declared.strings.StringKind.{StringKind};
ghost use Rattle.asn_base.specs.Seen.{constraint_of};
ghost use Rattle.trees.specs.Types.{a_restricted_string};
ghost use Rattle.type_table.specs.Table.{WrittenKind, simple};
ghost use Rattle.range_ends.specs.Ends.{IsTypeOfKind};
ghost use Rattle.constraints.specs.Constraints.{has_alphabet as has_alphabet'};
ghost use Rattle.asn_base.specs.Typed.{IsInSome};
ghost use Rattle.type_table.specs.Seen.{kind_of};
ghost use Rattle.constraints.specs.Allowed.{IsConstraintOf, IsCounted, AreCodesOf};
ghost use Rattle.constraints.specs.proving.Columns.{AreAllowed};

use crate::bounded::{Bounded, seen};
use crate::limit::Limit;
use crate::meaning::{has_alphabet, is_integer};
use asn_base::constraint::Constraint;
use asn_base::range_node::first_in;
use asn_base::range_tree::RangeTree;
use asn_base::schema::TypeId;
use ranges::law::bounds;
use std::alloc::{AllocError, Global};
use type_table::Shape;

/// Whether the first range of a limit has all numbers or sizes of a type of this shape.
fn is_unlimited(numbers: &RangeTree, shape: &Shape) -> bool
    ensures { result ≡ true → (z : ℤ) → IsCounted (kind_of shape.now) z → IsInSome z numbers.now }
{
    let Some(node) = numbers.root() else {
        return false;
    };
    let first = first_in(node);
    match (first.least, first.greatest) {
        (None, None) => true,
        (Some(least), None) => least <= 0 && !is_integer(shape),
        _ => false,
    }
}

/// The ranges of the allowed numbers, which share the memory of the limit, or None if every number or size of a type of
/// this shape is allowed.
fn allowed_ranges(limit: &Limit, shape: &Shape) -> Result<Option<RangeTree>, AllocError>
    ensures { IfOk result (AreAllowed (kind_of shape.now) limit.now) }
{
    if limit.extensible || is_unlimited(limit.numbers.tree(), shape) {
        return Ok(None);
    }
    Ok(Some(limit.numbers.tree().copy()?))
}

/// Returns what the constraints of a type allow of its numbers or sizes, in the form of a resolved type. It has the
/// ranges that are allowed, None if all are, and the bounds of the root (X.680, clauses 49 to 51; X.691, clause 10.3).
/// `AllocError` comes only if an allocation fails.
pub fn constraint(
    alloc: Global,
    bounded: &Bounded<'_>,
    ty: TypeId,
) -> Result<Constraint, AllocError>
    requires { ty.index < length bounded.now.program.types }
    ensures { (k : WrittenKind) → IsTypeOfKind bounded.now.program.types ty.index k →
        IfOk result (λ c. IsConstraintOf bounded.now.program k ty.index (constraint_of c)) }
{
    match bounded.limit(ty.index) {
        None => Ok(Constraint::any_number()),
        Some(limit) => {
            bounds();
            let allowed = match allowed_ranges(limit, bounded.shape(ty.index)) {
                Ok(allowed) => allowed,
                Err(fault) => return Err(fault),
            };
            Ok(Constraint {
                allowed,
                visible: seen(limit),
            })
        }
    }
}

/// Returns the codes of the characters that the constraints of one of the four restricted strings allow, in order, in
/// the form of a resolved type (X.691, clause 30.5). There are none for any other type. `AllocError` comes only if an
/// allocation fails.
pub fn codes(alloc: Global, bounded: &Bounded<'_>, ty: TypeId) -> Result<Vec<u8>, AllocError>
    requires { ty.index < length bounded.now.program.types }
    ensures strings { (s : StringKind) → IsTypeOfKind bounded.now.program.types ty.index
        (simple (a_restricted_string s)) →
        IfOk result (λ v. AreCodesOf bounded.now.program s ty.index v.items) }
    ensures others { (k : WrittenKind) → IsTypeOfKind bounded.now.program.types ty.index k → has_alphabet' k ≡ false →
        IfOk result (λ v. v.items ≡ []) }
{
    if !has_alphabet(bounded.shape(ty.index)) {
        return Ok(Vec::new(alloc));
    }
    match bounded.limit(ty.index) {
        None => Ok(Vec::new(alloc)),
        Some(limit) => {
            limit.codes.in_order();
            match limit.codes.list(alloc) {
                Ok(codes) => Ok(codes),
                Err(fault) => Err(fault),
            }
        }
    }
}
