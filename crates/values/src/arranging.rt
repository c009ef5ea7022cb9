//! The names of fields, against those of components.

ghost use Rattle.std.specs.Prelude.{◌≡◌, MatchResult, map};
ghost use Rattle.names.specs.Modules.{AreDifferent};
ghost use Rattle.trees.specs.Values.{member_of};
ghost use Rattle.trees.specs.declared.types.ListKind.TheVariants.{Choice as choice};
ghost use Rattle.type_table.specs.Seen.{part_of};
ghost use Rattle.value_notations.specs.Notations.{field_names, part_names};
ghost use Rattle.values.specs.Arranged.{IsArranged, IsNamesFault};

use crate::lookup::{places, repeated, unknown};
use crate::order::{jumbled, missing, missing_in_group};
use std::alloc::Global;
use trees::{ListKind, Named, ValueSyntax};
use type_table::ListMember;

/// Why the names of fields are not arranged like those of components. Fields and components are counted from 0.
#[derive(Clone, Copy, Debug, PartialEq, Eq)]
pub enum NamesFault {
    /// There was not enough memory.
    Memory,
    /// No component has the name of this field.
    Unknown(usize),
    /// An earlier field has the name of this one.
    Repeated(usize),
    /// This component has no field, though it must be present, by itself or since another one of its group is.
    Missing(usize),
    /// This field of a SEQUENCE must come before the field directly before it.
    OutOfOrder(usize),
}

/// For each component the place of its field, if the names of fields in braces are arranged like those of components.
/// Fields of a SEQUENCE must be in the order of definition, those of a SET in any order, none twice, and none missing
/// (X.680, clauses 25.18, 25.19 and 27.3).
///
/// Each field's name is compared at most with each component's name and with that of each field before it. A list with
/// more fields than components has a fault among the first fields that are too many.
pub fn arranged(
    alloc: Global,
    kind: ListKind,
    components: &[ListMember],
    fields: &[Named<ValueSyntax>],
) -> Result<Vec<Option<usize>>, NamesFault>
    requires list { kind ≡ choice → ⊥ }
    requires distinct { AreDifferent (part_names (map part_of components.now)) }
    ensures { MatchResult result
        (λ v. IsArranged kind (map part_of components.now) (field_names (map member_of fields.now)) v.items)
        (IsNamesFault kind (map part_of components.now) (field_names (map member_of fields.now))) }
{
    if let Some(i) = unknown(components, fields) {
        return Err(NamesFault::Unknown(i));
    }
    if let Some(i) = repeated(fields) {
        return Err(NamesFault::Repeated(i));
    }
    let places = match places(alloc, components, fields) {
        Ok(places) => places,
        Err(_) => return Err(NamesFault::Memory),
    };
    if let Some(i) = missing(components, &places) {
        return Err(NamesFault::Missing(i));
    }
    if let Some(i) = missing_in_group(components, &places) {
        return Err(NamesFault::Missing(i));
    }
    match kind {
        ListKind::Sequence => match jumbled(components, fields) {
            Some(i) => Err(NamesFault::OutOfOrder(i)),
            None => Ok(places),
        },
        _ => Ok(places),
    }
}
