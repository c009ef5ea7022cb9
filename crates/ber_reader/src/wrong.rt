//! Which part of a decoded value isn't a value of its type, and why.

ghost use Rattle.asn_base.specs.Abstract.{AbstractValue, fields, row_of_options};
ghost use Rattle.asn_base.specs.Schemas.{components};
ghost use Rattle.asn_base.specs.Typed.{IsValue, nodes, row_nodes};
ghost use Rattle.ber_reader.specs.Judged.{FirstWrong, IsJudged, IsOwn, Extends, kind_at, parts, piece, placed};
ghost use Rattle.ber_reader.specs.Judged.{component_piece, component_pieces, element_pieces};
ghost use Rattle.decode_faults.specs.declared.read_fault.ReadFault.TheVariants.{MessageLimit, Trailing};
ghost use Rattle.std.specs.Prelude.{◌≡◌, ◌≤◌, ◌∷◌, [], Some, OnOk, option_map, slice_get};
ghost use Rattle.views.specs.Tree.{component_value, element_values, placed as in_places, value_of};

use crate::open::{OpenValue, Part};
use crate::parts::{alternative_at, component_type, element_at};
use asn_base::schema::TypeId;
use codec_code::Code;
use decode_faults::ReadFault;
use std::alloc::AllocError;
use views::law::lemma_taken_members;
use views::{MemberRefs, ValueKind, ValueRef};

/// A value that isn't one of its type, and which part of the value around it it is.
#[derive(Drop)]
pub(crate) struct Wrong<'v, 'a> {
    pub part: Part,
    pub ty: TypeId,
    pub value: ValueRef<'v, 'a>,
}

/// The value as a part, or None if it is one of the type.
fn if_wrong<'v, 'a>(
    code: &Code,
    part: Part,
    ty: TypeId,
    value: ValueRef<'v, 'a>,
) -> Option<Wrong<'v, 'a>>
    requires { nodes (value_of value) ≤ 16777216 }
    ensures { FirstWrong code.now (placed part ty.index (value_of value.entry) ∷ [])
        (option_map (λ w. placed w.part w.ty.index (value_of w.value)) result) }
{
    if code.is_shown_value(ty, &value) {
        return None;
    }
    Some(Wrong { part, ty, value })
}

/// The component at a place, or None if it is absent or a value of its type.
fn wrong_at<'v, 'a>(
    code: &Code,
    id: TypeId,
    place: usize,
    found: Option<ValueRef<'v, 'a>>,
) -> Option<Wrong<'v, 'a>>
    requires { (v : AbstractValue) → option_map value_of found ≡ Some v → nodes v ≤ 16777216 }
    ensures { FirstWrong code.now
        (component_piece place (slice_get (components (kind_at code.now id.index)) place)
        (option_map value_of found.entry))
        (option_map (λ w. placed w.part w.ty.index (value_of w.value)) result) }
{
    match found {
        Some(value) => match component_type(code, id, place) {
            Some(ty) => if_wrong(code, Part::Component(place), ty, value),
            None => None,
        },
        None => None,
    }
}

/// The first component that isn't a value of its type, in a row of `size` places.
fn wrong_field<'v, 'a>(
    code: &Code,
    id: TypeId,
    size: usize,
    members: MemberRefs<'v, 'a>,
) -> Option<Wrong<'v, 'a>>
    requires { row_nodes (row_of_options (in_places size (λ i. component_value members i))) ≤ 16777216 }
    ensures { FirstWrong code.now
        (component_pieces 0 (components (kind_at code.now id.index))
        (row_of_options (in_places size (λ i. component_value members.entry i))))
        (option_map (λ w. placed w.part w.ty.index (value_of w.value)) result) }
{
    code.lemma_invariant();
    lemma_taken_members();
    let mut left = members;
    for i in 0..size {
        if i > 65_535 {
            return None;
        }
        let found = left.take_component(i as u32);
        match wrong_at(code, id, i, found) {
            Some(wrong) => return Some(wrong),
            None => {}
        }
    }
    None
}

/// The first element that isn't a value of its type.
fn wrong_element<'v, 'a>(
    code: &Code,
    ty: TypeId,
    members: MemberRefs<'v, 'a>,
) -> Option<Wrong<'v, 'a>>
    requires { row_nodes (element_values members) ≤ 16777216 }
    ensures { FirstWrong code.now (element_pieces 0 ty.index (element_values members.entry))
        (option_map (λ w. placed w.part w.ty.index (value_of w.value)) result) }
{
    let count = members.member_count();
    let mut left = members;
    for i in 0..count {
        match left.next() {
            Some((_, value)) => match if_wrong(code, Part::Element(i), ty, value) {
                Some(wrong) => return Some(wrong),
                None => {}
            },
            None => return None,
        }
    }
    None
}

/// The first part of a value of type `id` that isn't a value of its own type.
pub(crate) fn wrong_member<'v, 'a>(
    code: &Code,
    id: TypeId,
    value: &ValueRef<'v, 'a>,
) -> Option<Wrong<'v, 'a>>
    requires { nodes (value_of value.now) ≤ 16777216 }
    ensures { FirstWrong code.now (parts (kind_at code.now id.index) (value_of value.now))
        (option_map (λ w. placed w.part w.ty.index (value_of w.value)) result) }
{
    match value.value_kind() {
        ValueKind::Fields(size, members) => wrong_field(code, id, size, members),
        ValueKind::List(members) => match element_at(code, id) {
            Some(ty) => wrong_element(code, ty, members),
            None => None,
        },
        ValueKind::Alternative(index, inner) => match alternative_at(code, id, index) {
            Some(ty) => if_wrong(code, Part::Alternative(index), ty, inner),
            None => None,
        },
        ValueKind::Bool(_) => None,
        ValueKind::Int(_) => None,
        ValueKind::Enum(_) => None,
        ValueKind::Bits(_, _) => None,
        ValueKind::Octets(_) => None,
        ValueKind::Text(_) => None,
        ValueKind::Null => None,
        ValueKind::Oid(_) => None,
        ValueKind::RelativeOid(_) => None,
    }
}

/// Why components aren't a value of the type, although each is a value of its own type. `Missing`: they are a value
/// without their additions, so a group isn't whole. `TooDeep`: otherwise, a DEFAULT has too many levels.
fn fault_of_fields(code: &Code, id: TypeId, size: usize, members: MemberRefs<'_, '_>) -> ReadFault
    requires { nodes (fields (row_of_options (in_places size (λ i. component_value members i)))) ≤ 16777216 }
    ensures limit { result ≡ MessageLimit → ⊥ }
    ensures trailing { result ≡ Trailing → ⊥ }
    ensures own { IsOwn code.now id.index
        (fields (row_of_options (in_places size (λ i. component_value members.entry i)))) result }
{
    if code.is_value_without_additions::<ValueRef<'_, '_>>(id, size, members) {
        ReadFault::Missing
    } else {
        ReadFault::TooDeep
    }
}

/// Why the value isn't one of the type, although each part of it is a value of its own type. `BadContents`: an
/// ENUMERATED lacks the number. `Missing`: a component of a group is missing, although another one is present.
/// `TooDeep`: the DEFAULT of an absent component has too many levels. `OutsideConstraint`: any other value.
fn own_fault(code: &Code, id: TypeId, value: &ValueRef<'_, '_>) -> ReadFault
    requires { nodes (value_of value.now) ≤ 16777216 }
    ensures limit { result ≡ MessageLimit → ⊥ }
    ensures trailing { result ≡ Trailing → ⊥ }
    ensures own { IsOwn code.now id.index (value_of value.now) result }
{
    match value.value_kind() {
        ValueKind::Enum(_) => ReadFault::BadContents,
        ValueKind::Fields(size, members) => fault_of_fields(code, id, size, members),
        ValueKind::Alternative(_, _) => ReadFault::TooDeep,
        ValueKind::List(_) => ReadFault::OutsideConstraint,
        ValueKind::Bool(_) => ReadFault::OutsideConstraint,
        ValueKind::Int(_) => ReadFault::OutsideConstraint,
        ValueKind::Bits(_, _) => ReadFault::OutsideConstraint,
        ValueKind::Octets(_) => ReadFault::OutsideConstraint,
        ValueKind::Text(_) => ReadFault::OutsideConstraint,
        ValueKind::Null => ReadFault::OutsideConstraint,
        ValueKind::Oid(_) => ReadFault::OutsideConstraint,
        ValueKind::RelativeOid(_) => ReadFault::OutsideConstraint,
    }
}

/// Why the value isn't one of the type: the fault of the innermost value in it that isn't one of its type. The function
/// calls itself once for each level of the value, and takes no memory.
pub(crate) fn fault_of(code: &Code, id: TypeId, value: &ValueRef<'_, '_>) -> ReadFault
    requires { nodes (value_of value.now) ≤ 16777216 }
    ensures limit { result ≡ MessageLimit → ⊥ }
    ensures trailing { result ≡ Trailing → ⊥ }
    ensures judged { (IsValue code.now id.index (value_of value.now) → ⊥)
        → IsJudged code.now id.index (value_of value.now) result }
{
    match wrong_member(code, id, value) {
        Some(wrong) => fault_of(code, wrong.ty, &wrong.value),
        None => own_fault(code, id, value),
    }
}

/// Appends the way to the innermost value that isn't one of its type. The way has each value around it with the part
/// that leads on, the outermost first. The function calls itself once for each level of the value, and copies nothing.
pub(crate) fn path_to_wrong(
    code: &Code,
    id: TypeId,
    value: &ValueRef<'_, '_>,
    path: &mut Vec<OpenValue>,
) -> Result<(), AllocError>
    requires { nodes (value_of value.now) ≤ 16777216 }
    ensures { (IsValue code.now id.index (value_of value.now) → ⊥)
        → OnOk result (Extends code.now (piece id.index (value_of value.now)) path.old.items path.new.items) }
{
    match wrong_member(code, id, value) {
        Some(wrong) => {
            path.push(OpenValue {
                ty: id,
                part: Some(wrong.part),
                read: 0,
            })?;
            path_to_wrong(code, wrong.ty, &wrong.value, path)
        }
        None => Ok(()),
    }
}
