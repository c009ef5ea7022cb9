//! Names after modules' names in values, constraints and types: each must be that of a value (X.680, clause 14.6).

ghost use Rattle.std.specs.Prelude.{◌≡◌, ℕ, List, true, false, map, option_map};
ghost use Rattle.trees.specs.Constraints.{end_of, range_of, constraint_of};
ghost use Rattle.trees.specs.Values.{Name, tree_of, member_of};
ghost use Rattle.trees.specs.Types.{presence_tree};
ghost use Rattle.type_table.specs.Seen.{kind_of, part_of, type_of};
ghost use Rattle.resolve.specs.Places.{bound_places, constraint_places, end_places, field_places, presence_places, range_places, reference_place, shape_places, type_places, value_places};
ghost use Rattle.resolve.specs.Qualified.{each, qualified, qualified_end, qualified_bound, qualified_range, qualified_constraint, qualified_presence, qualified_part, qualified_kind, qualified_in};
ghost use Rattle.resolve.specs.proving.Unknown.{Answers, MeansValue, named};

use crate::linked::Linked;
use names::fault::source_location;
use names::{Assigned, NameFault};
use std::alloc::Global;
use trees::{
    ConstraintForm, ConstraintSyntax, EndSyntax, Named, PresenceSyntax, RangeSyntax, Reference,
    ValueForm, ValueSyntax,
};
use type_table::{ListMember, Shape, TypeNode};

/// Whether a name, which may be after a module's name, is that of a value.
fn is_value(linked: &Linked, within: &str, given: &Reference) -> bool
    ensures yes { result ≡ true → MeansValue linked.now.program within.now given.now }
    ensures no { result ≡ false → MeansValue linked.now.program within.now given.now → ⊥ }
{
    match linked.refers(within, given.module(), given.name()) {
        Some(Assigned::Value(_)) => true,
        Some(Assigned::Type(_)) => false,
        None => false,
    }
}

/// Checks that a name after a module's name is that of a value. Other names pass. `UnknownName`: it isn't. `Memory`: an
/// allocation failed.
fn qualified_name(
    alloc: Global,
    linked: &Linked,
    within: &str,
    given: &Reference,
) -> Result<(), NameFault>
    ensures { Answers linked.now.program within.now (named given.now) (reference_place given.now) result }
{
    match given.module() {
        None => Ok(()),
        Some(_) => {
            if is_value(linked, within, given) {
                return Ok(());
            }
            let source_location = source_location(alloc, within, given.name(), given.at)?;
            Err(NameFault::UnknownName(source_location))
        }
    }
}

/// Checks the names in a value.
#[cycle(values)]
pub(crate) fn names_in_value(
    alloc: Global,
    linked: &Linked,
    within: &str,
    value: &ValueSyntax,
) -> Result<(), NameFault>
    ensures { Answers linked.now.program within.now (qualified (tree_of value.now)) (value_places value.now) result }
{
    match &value.form {
        ValueForm::Reference(given) => qualified_name(alloc, linked, within, given),
        ValueForm::Chosen(_, inner) => names_in_value(alloc, linked, within, inner),
        ValueForm::Items(values) => names_in_items(alloc, linked, within, values),
        ValueForm::Fields(fields) => names_in_fields(alloc, linked, within, fields),
        ValueForm::True => Ok(()),
        ValueForm::False => Ok(()),
        ValueForm::Null => Ok(()),
        ValueForm::Number(_) => Ok(()),
        ValueForm::BinaryString(_) => Ok(()),
        ValueForm::HexString(_) => Ok(()),
        ValueForm::CharacterString(_) => Ok(()),
        ValueForm::Empty => Ok(()),
        ValueForm::Numbers(_) => Ok(()),
    }
}

/// Checks the names in values that follow one another.
#[cycle(values)]
fn names_in_items(
    alloc: Global,
    linked: &Linked,
    within: &str,
    values: &[ValueSyntax],
) -> Result<(), NameFault>
    ensures { Answers linked.now.program within.now
        (each qualified (map tree_of values.now)) (each value_places values.now) result }
{
    for value in values {
        names_in_value(alloc, linked, within, value)?;
    }
    Ok(())
}

/// Checks the names in values with identifiers.
#[cycle(values)]
fn names_in_fields(
    alloc: Global,
    linked: &Linked,
    within: &str,
    fields: &[Named<ValueSyntax>],
) -> Result<(), NameFault>
    ensures { Answers linked.now.program within.now
        (each (λ m. qualified m.1) (map member_of fields.now)) (each field_places fields.now) result }
{
    for field in fields {
        names_in_value(alloc, linked, within, &field.value)?;
    }
    Ok(())
}

/// Checks the name at an end of a range.
fn names_in_end(
    alloc: Global,
    linked: &Linked,
    within: &str,
    end: &EndSyntax,
) -> Result<(), NameFault>
    ensures { Answers linked.now.program within.now (qualified_end (end_of end.now)) (end_places end.now) result }
{
    match end {
        EndSyntax::Number(_) => Ok(()),
        EndSyntax::Reference(given) => qualified_name(alloc, linked, within, given),
    }
}

/// Checks the name at an end of a range, if that end is given.
fn names_in_bound(
    alloc: Global,
    linked: &Linked,
    within: &str,
    bound: &Option<Box<EndSyntax>>,
) -> Result<(), NameFault>
    ensures { Answers linked.now.program within.now
        (qualified_bound (option_map (λ e. end_of e.value) bound.now)) (bound_places bound.now) result }
{
    match bound {
        None => Ok(()),
        Some(end) => names_in_end(alloc, linked, within, end),
    }
}

/// Checks the names at the ends of a range.
fn names_in_range(
    alloc: Global,
    linked: &Linked,
    within: &str,
    range: &RangeSyntax,
) -> Result<(), NameFault>
    ensures { Answers linked.now.program within.now
        (qualified_range (range_of range.now)) (range_places range.now) result }
{
    match range {
        RangeSyntax::Single(end) => names_in_end(alloc, linked, within, end),
        RangeSyntax::Between(least, greatest) => {
            names_in_bound(alloc, linked, within, least)?;
            names_in_bound(alloc, linked, within, greatest)?;
            Ok(())
        }
    }
}

/// A notation with names, of which some may be after a module's name.
trait Naming {
    ghost Seen: { Type 0 };

    ghost view: { Self → Seen };

    ghost names: { Seen → List (Name × Name) };

    ghost places: { Self → List ℕ };

    /// Checks the names after modules' names.
    fn check(&self, alloc: Global, linked: &Linked, within: &str) -> Result<(), NameFault>
        ensures { Answers linked.now.program within.now (names (view self.now)) (places self.now) result };
}

/// Checks the names in all of these.
fn names_in_all<T: Naming>(
    alloc: Global,
    linked: &Linked,
    within: &str,
    all: &[T],
) -> Result<(), NameFault>
    ensures { Answers linked.now.program within.now (each T.names (map T.view all.now)) (each T.places all.now) result }
{
    for one in all {
        one.check(alloc, linked, within)?;
    }
    Ok(())
}

impl Naming for RangeSyntax {
    ghost use Rattle.trees.specs.Constraints.{RangeTree, range_of};
    ghost use Rattle.resolve.specs.Places.{range_places};
    ghost use Rattle.resolve.specs.Qualified.{qualified_range};

    ghost Seen = { RangeTree };

    ghost view = { range_of };

    ghost names = { qualified_range };

    ghost places = { range_places };

    fn check(&self, alloc: Global, linked: &Linked, within: &str) -> Result<(), NameFault> {
        names_in_range(alloc, linked, within, self)
    }
}

/// Checks the names in a constraint.
fn names_in_constraint(
    alloc: Global,
    linked: &Linked,
    within: &str,
    constraint: &ConstraintSyntax,
) -> Result<(), NameFault>
    ensures { Answers linked.now.program within.now
        (qualified_constraint (constraint_of constraint.now)) (constraint_places constraint.now) result }
{
    match &constraint.form {
        ConstraintForm::Values(allowed) => names_in_all(alloc, linked, within, &allowed.ranges),
        ConstraintForm::Size(sizes) => names_in_all(alloc, linked, within, &sizes.ranges),
        ConstraintForm::From(_) => Ok(()),
    }
}

impl Naming for ConstraintSyntax {
    ghost use Rattle.trees.specs.Constraints.{ConstraintTree, constraint_of};
    ghost use Rattle.resolve.specs.Places.{constraint_places};
    ghost use Rattle.resolve.specs.Qualified.{qualified_constraint};

    ghost Seen = { ConstraintTree };

    ghost view = { constraint_of };

    ghost names = { qualified_constraint };

    ghost places = { constraint_places };

    fn check(&self, alloc: Global, linked: &Linked, within: &str) -> Result<(), NameFault> {
        names_in_constraint(alloc, linked, within, self)
    }
}

/// Checks the names in a DEFAULT.
fn names_in_presence(
    alloc: Global,
    linked: &Linked,
    within: &str,
    presence: &PresenceSyntax,
) -> Result<(), NameFault>
    ensures { Answers linked.now.program within.now
        (qualified_presence (presence_tree presence.now)) (presence_places presence.now) result }
{
    match presence {
        PresenceSyntax::Mandatory => Ok(()),
        PresenceSyntax::Optional => Ok(()),
        PresenceSyntax::Default(value) => names_in_value(alloc, linked, within, value),
    }
}

impl Naming for ListMember {
    ghost use Rattle.type_table.specs.Seen.{part_of};
    ghost use Rattle.type_table.specs.Table.{Part};
    ghost use Rattle.resolve.specs.Places.{default_places};
    ghost use Rattle.resolve.specs.Qualified.{qualified_part};

    ghost Seen = { Part };

    ghost view = { part_of };

    ghost names = { qualified_part };

    ghost places = { default_places };

    fn check(&self, alloc: Global, linked: &Linked, within: &str) -> Result<(), NameFault> {
        names_in_presence(alloc, linked, within, &self.presence)
    }
}

/// Checks the names in the DEFAULTs of a type's components.
fn names_in_shape(
    alloc: Global,
    linked: &Linked,
    within: &str,
    shape: &Shape,
) -> Result<(), NameFault>
    ensures { Answers linked.now.program within.now
        (qualified_kind (kind_of shape.now)) (shape_places shape.now) result }
{
    match shape {
        Shape::Simple(_) => Ok(()),
        Shape::Reference(_) => Ok(()),
        Shape::Tagged(_, _, _) => Ok(()),
        Shape::Members(_, _, given) => names_in_all(alloc, linked, within, given),
        Shape::Elements(_, _) => Ok(()),
    }
}

/// Checks the names in the DEFAULTs and the constraints of a type.
pub(crate) fn names_in_type(
    alloc: Global,
    linked: &Linked,
    within: &str,
    written: &TypeNode,
) -> Result<(), NameFault>
    ensures { Answers linked.now.program within.now
        (qualified_in (type_of written.now)) (type_places written.now) result }
{
    names_in_shape(alloc, linked, within, &written.shape)?;
    names_in_all(alloc, linked, within, &written.constraints)?;
    Ok(())
}
