//! What a name leads to under a type.

ghost use Rattle.std.specs.Prelude.{IsUtf8, ◌≡◌, ◌<◌, ℕ, length, true, false, IfSome, Some, slice_get};
ghost use Rattle.trees.specs.Names.{reference_module, reference_name};
ghost use Rattle.trees.specs.Values.{tree_of};
ghost use Rattle.names.specs.declared.scope.Assigned.TheVariants.{Value as AValue};
ghost use Rattle.names.specs.Modules.{OccursIn};
ghost use Rattle.names.specs.Names.{Refers};
ghost use Rattle.names.specs.Sources.{value_seen};
ghost use Rattle.type_table.specs.Seen.{kind_of};
ghost use Rattle.resolve.specs.Listed.{listed_names};
ghost use Rattle.range_ends.specs.Ends.{IsValueAt};
ghost use Rattle.value_notations.specs.References.{IsNamed, own_names};
ghost use Rattle.value_notations.specs.Faults.{IsFollowFault};
ghost use Rattle.value_notations.specs.Written.{IsNotationOf};
ghost use Rattle.value_notations.specs.proving.Next.{ReportsNext};

use crate::opened::Opened;
use names::{Assigned, ValueAt};
use resolve::{Linked, NamedShape};
use trees::{Reference, Simple, ValueForm, ValueSyntax};
use type_table::Shape;

/// Why the references of a notation lead to no value.
#[derive(Clone, Copy)]
pub enum FollowFault<'a> {
    /// There was not enough memory.
    Memory,
    /// The notation is, or leads to, this name, which is read in this module and means neither something of the type
    /// nor a value (X.680, clause 13).
    NoMeaning(&'a str, &'a ValueSyntax),
    /// The notation is, or leads to, this name, which is read in this module and means the value of this number, whose
    /// notation is being read already.
    Circular(usize, &'a str, &'a ValueSyntax),
}

/// What a notation leads to.
#[derive(Clone, Copy)]
pub enum Next {
    /// The notation itself: it is no name, or one of the type's names.
    Itself,
    /// The value of this number.
    Referred(usize),
    /// Nothing, though the notation is a name.
    Nothing,
    /// The value of this number, which is being read already.
    Again(usize),
}

/// Whether a type lists a name.
fn lists(shape: &NamedShape<'_>, name: &str) -> bool
    ensures yes { result ≡ true → OccursIn (listed_names (kind_of shape.now)) name.now }
    ensures no { result ≡ false → OccursIn (listed_names (kind_of shape.now)) name.now → ⊥ }
{
    match shape.place(name) {
        Some(_) => true,
        None => false,
    }
}

/// Whether a name is that of one of the numbers or items of a type.
fn is_own(shape: &NamedShape<'_>, name: &str) -> bool
    ensures yes { result ≡ true → OccursIn (own_names (kind_of shape.now)) name.now }
    ensures no { result ≡ false → OccursIn (own_names (kind_of shape.now)) name.now → ⊥ }
{
    match shape.shape() {
        Shape::Simple(Simple::Integer(_)) => lists(shape, name),
        Shape::Simple(Simple::Enumerated(_)) => lists(shape, name),
        _ => false,
    }
}

/// Whether a name is one of the numbers or items of a type.
fn is_named(shape: &NamedShape<'_>, reference: &Reference) -> bool
    ensures yes { result ≡ true → IsNamed (kind_of shape.now)
        (reference_module reference.now) (reference_name reference.now) }
    ensures no { result ≡ false → IsNamed (kind_of shape.now)
        (reference_module reference.now) (reference_name reference.now) → ⊥ }
{
    match reference.module() {
        None => is_own(shape, reference.name()),
        Some(_) => false,
    }
}

/// The value that a name means in a module, or None if it means no value.
fn named_value(linked: &Linked, within: &str, reference: &Reference) -> Option<usize>
    ensures means { (j : ℕ) → result ≡ Some j → Refers linked.now.program.modules within.now
        (reference_module reference.now) (reference_name reference.now) (AValue j) }
    ensures none { (j : ℕ) → Refers linked.now.program.modules within.now
        (reference_module reference.now) (reference_name reference.now) (AValue j) → result ≡ Some j }
    ensures inside { IfSome result (λ j. j < length linked.now.program.values) }
{
    linked.lemma_whole();
    match linked.refers(within, reference.module(), reference.name()) {
        Some(Assigned::Value(number)) => Some(number),
        Some(Assigned::Type(_)) => None,
        None => None,
    }
}

/// What a notation leads to that is read in a module under a type of a shape (X.680, clauses 14, 17.11, 19.10 and
/// 20.8). The shape is no reference and no tag. `opened` are the values that are being read.
pub fn next_of(
    linked: &Linked,
    opened: &Opened,
    shape: &NamedShape<'_>,
    within: &str,
    notation: &ValueSyntax,
) -> Next
    ensures { ReportsNext linked.now.program (kind_of shape.now) opened.now within.now (tree_of notation.now) result }
{
    match &notation.form {
        ValueForm::Reference(reference) => {
            if is_named(shape, reference) {
                return Next::Itself;
            }
            match named_value(linked, within, reference) {
                None => Next::Nothing,
                Some(number) => {
                    if opened.holds(number) {
                        Next::Again(number)
                    } else {
                        Next::Referred(number)
                    }
                }
            }
        }
        _ => Next::Itself,
    }
}

/// A value by its number.
fn value_at(linked: &Linked, number: usize) -> &ValueAt
    requires inside { number < length linked.now.program.values }
    ensures there { slice_get linked.now.program.values number ≡ Some (value_seen result.now) }
    ensures written { slice_get linked.now.values number ≡ Some result.now }
{
    &linked.values()[number]
}

/// The module in which a value's notation is read, and the notation.
pub fn notation_at(linked: &Linked, number: usize) -> (&str, &ValueSyntax)
    requires inside { number < length linked.now.program.values }
    ensures is_so { IsValueAt linked.now.program number result.0.now (tree_of result.1.now) }
    ensures written { IsNotationOf linked.now number result.1.now }
    ensures text { IsUtf8 result.0.now }
{
    linked.lemma_whole();
    let value = value_at(linked, number);
    let home = linked.assigned(value.assignment);
    (home.module, &value.syntax)
}
