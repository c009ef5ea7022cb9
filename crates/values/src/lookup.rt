//! Names of components and of fields, and their places.

ghost use Rattle.std.specs.Prelude.{◌≡◌, IfOk, MatchOption, Some, map, slice_get};
ghost use Rattle.names.specs.Modules.{OccursIn};
ghost use Rattle.trees.specs.Values.{member_of};
ghost use Rattle.type_table.specs.Seen.{part_of};
ghost use Rattle.value_notations.specs.Notations.{field_names, part_names};
ghost use Rattle.values.specs.Arranged.{first_place};
ghost use Rattle.values.specs.proving.Arranging.{IsUnknownAt, IsRepeatedAt};

use std::alloc::{AllocError, Global};
use trees::{Named, ValueSyntax};
use type_table::ListMember;

/// The place of the first field of a name, or None.
pub(crate) fn field_of(fields: &[Named<ValueSyntax>], name: &str) -> Option<usize>
    ensures { result ≡ first_place name.now (field_names (map member_of fields.now)) }
{
    for i in 0..fields.len() {
        if name == fields[i].name.it.as_str() {
            return Some(i);
        }
    }
    None
}

/// The place of the first component of a name, or None.
pub(crate) fn component_of(components: &[ListMember], name: &str) -> Option<usize>
    ensures { result ≡ first_place name.now (part_names (map part_of components.now)) }
{
    for i in 0..components.len() {
        if name == components[i].name.it.as_str() {
            return Some(i);
        }
    }
    None
}

/// The place of the first field whose name no component has, or None.
pub(crate) fn unknown(components: &[ListMember], fields: &[Named<ValueSyntax>]) -> Option<usize>
    ensures { IsUnknownAt (part_names (map part_of components.now)) (field_names (map member_of fields.now)) result }
{
    for i in 0..fields.len() {
        match component_of(components, fields[i].name.it.as_str()) {
            None => return Some(i),
            Some(_) => {}
        }
    }
    None
}

/// The place of the first field whose name an earlier field has, or None.
pub(crate) fn repeated(fields: &[Named<ValueSyntax>]) -> Option<usize>
    ensures { IsRepeatedAt (field_names (map member_of fields.now)) result }
{
    for i in 0..fields.len() {
        match field_of(fields, fields[i].name.it.as_str()) {
            None => return None,
            Some(first) => {
                if first < i {
                    return Some(i);
                }
            }
        }
    }
    None
}

/// For each component the place of its field, if it has one.
pub(crate) fn places(
    alloc: Global,
    components: &[ListMember],
    fields: &[Named<ValueSyntax>],
) -> Result<Vec<Option<usize>>, AllocError>
    ensures { IfOk result (λ v. v.items
        ≡ map (λ x. first_place x (field_names (map member_of fields.now))) (part_names (map part_of components.now))) }
{
    let mut places = Vec::new(alloc);
    for component in components {
        places.push(field_of(fields, component.name.it.as_str()))?;
    }
    Ok(places)
}

/// The place of the alternative of a name, counted over root and additions (X.680, clause 29.11), or None. The name is
/// compared at most with each alternative's name.
pub fn alternative(alternatives: &[ListMember], name: &str) -> Option<usize>
    ensures { MatchOption result
        (OccursIn (part_names (map part_of alternatives.now)) name.now → ⊥)
        (λ i. slice_get (part_names (map part_of alternatives.now)) i ≡ Some name.now) }
{
    component_of(alternatives, name)
}
