//! Parts of a linked program by number.

ghost use Rattle.std.specs.Prelude.{◌≡◌, ◌<◌, ◌↔◌, ℕ, length, Some, IfSome, slice_get};
ghost use Rattle.trees.specs.Names.{reference_module, reference_name};
ghost use Rattle.trees.specs.Values.{tree_of, reference as reference'};
ghost use Rattle.names.specs.Sources.{value_seen};
ghost use Rattle.resolve.specs.Program.{IsAssignment};
ghost use Rattle.range_ends.specs.Ends.{IsValueAt};
ghost use Rattle.range_ends.specs.proving.Steps.{MeansValue, RefersTo};

use names::{Assigned, ValueAt};
use resolve::Linked;
use trees::{Reference, ValueForm, ValueSyntax};

/// A value by its number.
pub(crate) fn value_at(linked: &Linked, number: usize) -> &ValueAt
    requires inside { number < length linked.now.program.values }
    ensures { slice_get linked.now.program.values number ≡ Some (value_seen result.now) }
{
    &linked.values()[number]
}

/// The module in which a value's notation is read, and the notation.
pub(crate) fn notation_at(linked: &Linked, number: usize) -> (&str, &ValueSyntax)
    requires inside { number < length linked.now.program.values }
    ensures { IsValueAt linked.now.program number result.0.now (tree_of result.1.now) }
{
    linked.lemma_whole();
    let value = value_at(linked, number);
    let home = linked.assigned(value.assignment);
    (home.module, &value.syntax)
}

/// The value that a name means in a module, or None if it means no value.
pub(crate) fn named_value(linked: &Linked, within: &str, reference: &Reference) -> Option<usize>
    ensures means { (j : ℕ) → (result ≡ Some j
        ↔ MeansValue linked.now.program within.now
        (reference' (reference_module reference.now) (reference_name reference.now)) j) }
    ensures inside { IfSome result (λ j. j < length linked.now.program.values) }
{
    linked.lemma_whole();
    match linked.refers(within, reference.module(), reference.name()) {
        Some(Assigned::Value(number)) => Some(number),
        Some(Assigned::Type(_)) => None,
        None => None,
    }
}

/// The value that the notation of a value refers to, or None if it refers to none.
pub(crate) fn referred(linked: &Linked, number: usize) -> Option<usize>
    requires inside { number < length linked.now.program.values }
    ensures refers { (j : ℕ) → (result ≡ Some j ↔ RefersTo linked.now.program number j) }
{
    let (within, notation) = notation_at(linked, number);
    match &notation.form {
        ValueForm::Reference(reference) => named_value(linked, within, reference),
        _ => None,
    }
}
