//! Compares the kinds of types.

ghost use Rattle.std.specs.Prelude.{◌≡◌, ◌↔◌, IsTrue, IfOk, List, MatchOption};
ghost use Rattle.asn_base.specs.Schemas.{IsSound};
ghost use Rattle.asn_base.specs.Seen.{constraint_of, kind_of};
ghost use Rattle.asn_base.specs.Types.{Resolved, a_restricted_string};
ghost use Rattle.later_versions.specs.Differences.{KindDiffers};
ghost use Rattle.later_versions.specs.Later.{IsLaterKind};

use crate::bits::name_same;
use crate::components::other_components;
use crate::constraints::{other_numbers, other_sizes};
use crate::lists::{other_alternatives, other_items};
use crate::reason::Reason;
use asn_base::constraint::Constraint;
use asn_base::schema::{Core, Schema};
use asn_base::strings::StringKind;
use std::alloc::{AllocError, Global};

/// Whether two types of strings are the same.
fn is_same_kind(one: StringKind, other: StringKind) -> bool
    ensures { IsTrue result ↔ (one ≡ other) }
{
    one == other
}

/// Whether two alphabets are the same.
fn is_same_alphabet(codes: &[u8], others: &[u8]) -> bool
    ensures { IsTrue result ↔ (codes.now ≡ others.now) }
{
    codes == others
}

/// What differs between a restricted string of this type, alphabet and size and another kind.
fn other_string(
    alloc: Global,
    kind: StringKind,
    codes: &[u8],
    size: &Constraint,
    other: &Core,
) -> Result<Option<Reason>, AllocError>
    ensures { (s : List Resolved) → IfOk result (λ o. MatchOption o
        (IsLaterKind s (a_restricted_string kind codes.now (constraint_of size.now)) (kind_of other.now))
        (KindDiffers s (a_restricted_string kind codes.now (constraint_of size.now)) (kind_of other.now))) }
{
    match other {
        Core::RestrictedString(other_kind, other_codes, other_size) => {
            if !is_same_kind(kind, *other_kind) {
                return Ok(Some(Reason::Kind));
            }
            if !is_same_alphabet(codes, other_codes.as_slice()) {
                return Ok(Some(Reason::Alphabet));
            }
            other_sizes(alloc, size, other_size)
        }
        _ => Ok(Some(Reason::Kind)),
    }
}

/// What differs in two kinds, or None if the second kind, of the second schema, can be that of a later version of the
/// first, of the first schema. The types of members aren't looked at. `AllocError` comes only if an allocation fails.
pub(crate) fn other_kind(
    alloc: Global,
    first: &Schema,
    core: &Core,
    second: &Schema,
    other: &Core,
) -> Result<Option<Reason>, AllocError>
    requires first_sound { IsSound first.now (kind_of core.now) }
    requires second_sound { IsSound second.now (kind_of other.now) }
    ensures { IfOk result (λ o. MatchOption o
        (IsLaterKind first.now (kind_of core.now) (kind_of other.now))
        (KindDiffers first.now (kind_of core.now) (kind_of other.now))) }
{
    match (core, other) {
        (Core::Boolean, Core::Boolean) => Ok(None),
        (Core::Integer(numbers), Core::Integer(others)) => other_numbers(alloc, numbers, others),
        (Core::Enumerated(items), Core::Enumerated(others)) => Ok(other_items(items, others)),
        (Core::BitString(size), Core::BitString(later)) => other_sizes(alloc, size, later),
        (Core::NamedBits(bits), Core::NamedBits(others)) => {
            if name_same(alloc, bits.as_slice(), others.as_slice())? {
                return Ok(None);
            }
            Ok(Some(Reason::NamedBits))
        }
        (Core::OctetString(size), Core::OctetString(later)) => other_sizes(alloc, size, later),
        (Core::Null, Core::Null) => Ok(None),
        (Core::ObjectIdentifier, Core::ObjectIdentifier) => Ok(None),
        (Core::RelativeOid, Core::RelativeOid) => Ok(None),
        (Core::Utf8String(size), Core::Utf8String(later)) => other_sizes(alloc, size, later),
        (Core::RestrictedString(kind, codes, size), _) => {
            other_string(alloc, *kind, codes.as_slice(), size, other)
        }
        (Core::Sequence(marked, components), Core::Sequence(other_marked, others)) => {
            if *marked != *other_marked {
                return Ok(Some(Reason::Marker));
            }
            other_components(alloc, first, components.as_slice(), others.as_slice())
        }
        (Core::Set(marked, components), Core::Set(other_marked, others)) => {
            if *marked != *other_marked {
                return Ok(Some(Reason::Marker));
            }
            other_components(alloc, first, components.as_slice(), others.as_slice())
        }
        (Core::SequenceOf(size, _), Core::SequenceOf(later, _)) => other_sizes(alloc, size, later),
        (Core::SetOf(size, _), Core::SetOf(later, _)) => other_sizes(alloc, size, later),
        (Core::Choice(alternatives), Core::Choice(others)) => {
            Ok(other_alternatives(alternatives, others))
        }
        _ => Ok(Some(Reason::Kind)),
    }
}
