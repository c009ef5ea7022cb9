//! Names in notations and in types.

ghost use Rattle.std.specs.Prelude.{◌≡◌, ◌<◌, length, slice_get};
ghost use Rattle.range_ends.specs.Ends.{IsTypeOfKind};
ghost use Rattle.type_table.specs.Seen.{kind_of};
ghost use Rattle.value_diagnostics.specs.Diagnosed.{IsComponentName, field_name, field_place, notation_form, has_prefix, name_in_part, notation_name, parts_in};

use asn_base::schema::TypeId;
use resolve::Linked;
use trees::{ValueForm, ValueSyntax};
use type_table::Shape;

/// The name that a notation is, or the empty name.
pub(crate) fn name_in(notation: &ValueSyntax) -> &str
    ensures { result.now ≡ notation_name (notation_form notation.now) }
{
    match &notation.form {
        ValueForm::Reference(reference) => reference.name(),
        _ => "",
    }
}

/// Whether a notation is a name with the name of a module before it.
pub(crate) fn prefix_in(notation: &ValueSyntax) -> bool
    ensures { result ≡ has_prefix (notation_form notation.now) }
{
    match &notation.form {
        ValueForm::Reference(reference) => reference.module().is_some(),
        _ => false,
    }
}

/// The name of a field of a notation, and its offset; the empty name and the notation's own offset if there is no such
/// field.
pub(crate) fn field_at(notation: &ValueSyntax, field: usize) -> (&str, usize)
    ensures name { result.0.now ≡ field_name (notation_form notation.now) field }
    ensures place { result.1 ≡ field_place notation.now field }
{
    match &notation.form {
        ValueForm::Fields(fields) => match fields.get(field) {
            Some(named) => (named.name.it.as_str(), named.name.at),
            None => ("", notation.at),
        },
        _ => ("", notation.at),
    }
}

/// The name of a member of a list, or the empty name if the list has no such member.
fn part_name(shape: &Shape, part: usize) -> &str
    ensures { result.now ≡ name_in_part (slice_get (parts_in (kind_of shape.now)) part) }
{
    match shape {
        Shape::Members(_, _, parts) => match parts.get(part) {
            Some(part) => part.name.it.as_str(),
            None => "",
        },
        _ => "",
    }
}

/// The shape of a type after its references and tags.
fn core_of(linked: &Linked, ty: TypeId) -> &Shape
    requires { ty.index < length linked.now.program.types }
    ensures { IsTypeOfKind linked.now.program.types ty.index (kind_of result.now) }
{
    let core = linked.core(ty);
    &linked.types()[core.index].shape
}

/// The name of a component of the list that a type is, or the empty name if it has no such component.
pub(crate) fn component_name<'a>(linked: &'a Linked, ty: TypeId, component: usize) -> &'a str
    requires { ty.index < length linked.now.program.types }
    ensures { IsComponentName linked.now.program ty.index component result.now }
{
    part_name(core_of(linked, ty), component)
}
