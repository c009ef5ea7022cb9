//! What the form of a notation holds.

ghost use Rattle.std.specs.Prelude.{◌≡◌, IfSome, MatchOption, Some, option_map};
ghost use Rattle.trees.specs.Values.{Name, Tree, chosen, tree_of};
ghost use Rattle.value_notations.specs.Written.{chosen_at, braced_fields, braced_values};

use trees::{Named, ValueForm, ValueSyntax};

/// The values in braces, or None if the notation is no such braces.
pub(crate) fn values_in(notation: &ValueSyntax) -> Option<&[ValueSyntax]>
    ensures { option_map (λ vs. vs.now) result ≡ braced_values notation.now }
{
    match &notation.form {
        ValueForm::Empty => Some(&[]),
        ValueForm::Items(values) => Some(values.as_slice()),
        _ => None,
    }
}

/// The values in braces, each after a name.
pub(crate) fn fields_in(notation: &ValueSyntax) -> Option<&[Named<ValueSyntax>]>
    ensures { option_map (λ fs. fs.now) result ≡ braced_fields notation.now }
{
    match &notation.form {
        ValueForm::Empty => Some(&[]),
        ValueForm::Fields(fields) => Some(fields.as_slice()),
        _ => None,
    }
}

/// The name of an alternative, and its value.
pub(crate) fn chosen_in(notation: &ValueSyntax) -> Option<(&str, &ValueSyntax)>
    ensures tree { MatchOption result
        ((x : Name) (m : Tree) → tree_of notation.now ≡ chosen x m → ⊥)
        (λ c. tree_of notation.now ≡ chosen c.0.now (tree_of c.1.now)) }
    ensures text { IfSome result (λ c. chosen_at notation.now ≡ Some (c.0.now, c.1.now)) }
{
    match &notation.form {
        ValueForm::Chosen(name, value) => {
            let value: &ValueSyntax = value;
            Some((name.as_str(), value))
        }
        _ => None,
    }
}
