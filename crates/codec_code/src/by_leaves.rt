//! Types whose values are judged leaf by leaf.

ghost use Rattle.asn_base.specs.Decided.{IsFlat};
ghost use Rattle.asn_base.specs.Abstract.{abstract};
ghost use Rattle.asn_base.specs.Seen.{alternative_of, component_of, constraint_of, kind_of, presence_of, range_of, types_of};
ghost use Rattle.codec_code.specs.ByLeaves.{AllowsAnySome, AreMarks, AreNextMarks, HasAllFromOne, HaveAllFromOne, IsEasy, KindByLeaves};
ghost use Rattle.std.specs.List.{AllByRecursion};
ghost use Rattle.std.specs.Prelude.{◌≡◌, ◌↔◌, IfOk, IsTrue, Some, map, slice_get, true};

use asn_base::constraint::{Constraint, Range};
use asn_base::law::lemma_abstract_values;
use asn_base::range_node::Link;
use asn_base::schema::{Alternative, Component, Core, Presence, Resolved, TypeId};
use asn_base::value::Value;
use std::alloc::{AllocError, Global};

/// Whether there is a mark at this place.
#[inline(always)]
pub(crate) fn is_marked(marks: &[bool], at: usize) -> bool
    ensures { IsTrue result ↔ (slice_get marks.now at ≡ Some true) }
{
    if at < marks.len() { marks[at] } else { false }
}

/// Whether the value holds no others.
fn is_flat(value: &Value) -> bool
    ensures { IsTrue result → IsFlat (abstract value.now) }
{
    lemma_abstract_values();
    match value {
        Value::Fields(_) | Value::List(_) | Value::Alt(_, _) => false,
        Value::Bool(_) | Value::Int(_) | Value::Enum(_) | Value::Bits(_) => true,
        Value::Octets(_) | Value::Text(_) | Value::Null => true,
        Value::Oid(_) | Value::RelativeOid(_) => true,
    }
}

/// Whether a component of this presence is in no version brackets, and its DEFAULT, if it has one, holds no other
/// values.
fn is_easy(presence: &Presence) -> bool
    ensures { IsTrue result → IsEasy (presence_of presence.now) }
{
    match presence {
        Presence::Mandatory => true,
        Presence::Optional => true,
        Presence::Default(default) => is_flat(default),
        Presence::Addition(addition) => match addition.group {
            Some(_) => false,
            None => true,
        },
    }
}

/// Whether the types of the components have marks, and their presence is easy.
fn are_marked_components(marks: &[bool], components: &[Component]) -> bool
    ensures { IsTrue result
        → AllByRecursion (λ c. (slice_get marks.now c.type ≡ Some true) × IsEasy c.presence)
        (map component_of components.now) }
{
    match components.split_first() {
        Some((first, rest)) => {
            is_marked(marks, first.ty.index)
                && is_easy(&first.presence)
                && are_marked_components(marks, rest)
        }
        None => true,
    }
}

/// Whether the types of the alternatives have marks.
fn are_marked_alternatives(marks: &[bool], alternatives: &[Alternative]) -> bool
    ensures { IsTrue result
        → AllByRecursion (λ a. slice_get marks.now a.type ≡ Some true) (map alternative_of alternatives.now) }
{
    match alternatives.split_first() {
        Some((first, rest)) => {
            is_marked(marks, first.ty.index) && are_marked_alternatives(marks, rest)
        }
        None => true,
    }
}

/// Whether the range has every number from 1 on.
fn is_from_one(range: Range) -> bool
    ensures { IsTrue result → HasAllFromOne (range_of range) }
{
    match range.greatest {
        Some(_) => false,
        None => match range.least {
            Some(least) => least <= 1,
            None => true,
        },
    }
}

/// Whether the first range has every number from 1 on.
fn is_first_from_one(ranges: &[Range]) -> bool
    ensures { IsTrue result → HaveAllFromOne (map range_of ranges.now) }
{
    match ranges.split_first() {
        Some((first, _)) => is_from_one(*first),
        None => false,
    }
}

/// Whether the tree has one range at most. The function takes constant time, whatever the tree has.
fn has_one_at_most(ranges: &Link) -> bool {
    match ranges {
        Some(node) => node.before.is_none() && node.after.is_none(),
        None => true,
    }
}

/// Whether a quick test shows that the constraint allows every size except, perhaps, 0. False decides nothing: it is
/// the result for several ranges, since a list of them isn't to be copied for each type that has them. `AllocError`: an
/// allocation failed.
fn allows_any_some(alloc: Global, size: &Constraint) -> Result<bool, AllocError>
    ensures { IfOk result (λ all. all ≡ true → AllowsAnySome (constraint_of size.now)) }
{
    match &size.allowed {
        Some(ranges) => {
            if size.visible.greatest.is_some() || !has_one_at_most(ranges.root()) {
                return Ok(false);
            }
            let list = ranges.list(alloc)?;
            Ok(is_first_from_one(list.as_slice()))
        }
        None => Ok(true),
    }
}

/// Whether values of a list are judged leaf by leaf, since those of the types with marks are. False decides nothing.
fn is_list_by_leaves(
    alloc: Global,
    marks: &[bool],
    size: &Constraint,
    element: TypeId,
) -> Result<bool, AllocError>
    ensures { IfOk result (λ is. is ≡ true
        → (slice_get marks.now element.index ≡ Some true)
        × AllowsAnySome (constraint_of size.now)) }
{
    if !is_marked(marks, element.index) {
        return Ok(false);
    }
    allows_any_some(alloc, size)
}

/// Whether values of the kind are judged leaf by leaf, since those of the types with marks are. False decides nothing.
/// `AllocError`: an allocation failed.
fn is_kind_by_leaves(alloc: Global, marks: &[bool], core: &Core) -> Result<bool, AllocError>
    ensures { IfOk result (λ is. is ≡ true
        → KindByLeaves (λ t. slice_get marks.now t ≡ Some true) (kind_of core.now)) }
{
    match core {
        Core::Sequence(_, components) => Ok(are_marked_components(marks, components.as_slice())),
        Core::Set(_, components) => Ok(are_marked_components(marks, components.as_slice())),
        Core::SequenceOf(size, element) => is_list_by_leaves(alloc, marks, size, *element),
        Core::SetOf(size, element) => is_list_by_leaves(alloc, marks, size, *element),
        Core::Choice(alternatives) => {
            let root = are_marked_alternatives(marks, alternatives.root.as_slice());
            let more = are_marked_alternatives(marks, alternatives.additions.as_slice());
            Ok(root && more)
        }
        Core::Boolean | Core::Integer(_) | Core::Enumerated(_) | Core::BitString(_) => Ok(true),
        Core::NamedBits(_) | Core::OctetString(_) | Core::Null => Ok(true),
        Core::ObjectIdentifier | Core::RelativeOid => Ok(true),
        Core::Utf8String(_) | Core::RestrictedString(_, _, _) => Ok(true),
    }
}

/// The marks of types whose values have at most one level more than those of the types with marks before.
fn next_marks(alloc: Global, types: &[Resolved], before: &[bool]) -> Result<Vec<bool>, AllocError>
    ensures { IfOk result (λ marks. AreNextMarks (types_of types.now) before.now marks.items) }
{
    let mut marks = Vec::new(alloc);
    for i in 0..types.len() {
        let mark = is_kind_by_leaves(alloc, before, &types[i].core)?;
        marks.push(mark)?;
    }
    Ok(marks)
}

/// Marks of types whose values are judged leaf by leaf. `AllocError`: an allocation failed.
pub(crate) fn all_marks(alloc: Global, types: &[Resolved]) -> Result<Vec<bool>, AllocError>
    ensures { IfOk result (λ marks. AreMarks (types_of types.now) marks.items) }
{
    let mut marks = Vec::new(alloc);
    for levels in 0..64_usize {
        let next = next_marks(alloc, types, marks.as_slice())?;
        let same = next.as_slice() == marks.as_slice();
        marks = next;
        if same {
            return Ok(marks);
        }
    }
    Ok(marks)
}
