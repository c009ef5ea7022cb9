//! What texts of the form `Module.Name` name.

ghost use Rattle.std.specs.Prelude.{◌≡◌, ◌<◌, ◌↔◌, ℕ, Some, IfErr, IfOk, IfSome, MatchOption, length, slice_get};
ghost use Rattle.trees.specs.Values.{Name, tree_of};
ghost use Rattle.names.specs.declared.scope.Assigned.{Assigned as Assigned'};
ghost use Rattle.names.specs.Sources.{value_seen};
ghost use Rattle.range_ends.specs.Ends.{IsValueAt};
ghost use Rattle.resolve.specs.Program.{IsThere};
ghost use Rattle.named_values.specs.Meant.{IsNoType};
ghost use Rattle.named_values.specs.Named.{IsQualifiedName, IsQualified, IsInModule, Names, TypeNamed, ValueNamed};

use asn_base::schema::TypeId;
use messages::Fault;
use messages::front_end::Modules;
use names::{Assigned, ValueAt};
use resolve::Linked;
use std::alloc::Global;
use trees::ValueSyntax;

/// The parts of a text before and after its first dot.
fn qualified(text: &str) -> Option<(&str, &str)>
    ensures parts { MatchOption result
        ((M x : Name) → IsQualified text.now M x → ⊥)
        (λ p. IsQualified text.now p.0.now p.1.now) }
    ensures only { IfSome result (λ p. (M x : Name) → IsQualified text.now M x → (M ≡ p.0.now) × (x ≡ p.1.now)) }
{
    text.split_once('.')
}

/// What a text of the form `Module.Name` names.
fn named(linked: &Linked, text: &str) -> Option<Assigned>
    ensures is { (a : Assigned') → (result ≡ Some a ↔ IsQualifiedName linked.now.program text.now a) }
    ensures there { IfSome result (IsThere linked.now.program) }
{
    linked.lemma_whole();
    match qualified(text) {
        None => None,
        Some((within, name)) => linked.meaning(within, name),
    }
}

/// The number of the type that a text names as `Module.Type`, by the module that assigns or imports it.
pub fn type_number(modules: &Modules, name: &str) -> Option<TypeId>
    ensures within { IfSome result (λ id. id.index < length modules.now.types) }
    ensures only { IfSome result (λ id. Names modules.now name.now id.index) }
    ensures named { MatchOption result
        ((t : ℕ) → TypeNamed modules.now name.now t → ⊥)
        (λ id. TypeNamed modules.now name.now id.index) }
{
    match named(modules.linked(), name) {
        Some(Assigned::Type(index)) => Some(TypeId { index }),
        Some(Assigned::Value(_)) => None,
        None => None,
    }
}

/// Finds the type that a text names, as [`type_number`] does. `NoType`: the text names no type; the fault has the text.
/// `Memory`: an allocation failed.
pub fn named_type(alloc: Global, modules: &Modules, name: &str) -> Result<TypeId, Fault>
    ensures within { IfOk result (λ id. id.index < length modules.now.types) }
    ensures only { IfOk result (λ id. Names modules.now name.now id.index) }
    ensures refused { IfErr result (IsNoType modules.now name.now) }
{
    match type_number(modules, name) {
        Some(id) => Ok(id),
        None => Err(Fault::NoType(String::from_str(alloc, name)?)),
    }
}

/// The name of the module in the name of a type.
pub(crate) fn module_in<'a>(modules: &Modules, ty: &'a str, id: TypeId) -> &'a str
    requires { TypeNamed modules.now ty.now id.index }
    ensures { IsInModule ty.now result.now }
{
    match qualified(ty) {
        Some((within, _)) => within,
        None => unreachable!(),
    }
}

/// The number of the value that a text names as `Module.value`, by the module that assigns or imports it.
pub fn value_number(modules: &Modules, name: &str) -> Option<usize>
    ensures within { IfSome result (λ i. i < length modules.now.values) }
    ensures named { MatchOption result
        ((i : ℕ) → ValueNamed modules.now name.now i → ⊥)
        (λ i. ValueNamed modules.now name.now i) }
{
    match named(modules.linked(), name) {
        Some(Assigned::Value(number)) => Some(number),
        Some(Assigned::Type(_)) => None,
        None => None,
    }
}

/// A value by its number.
fn value_at(linked: &Linked, number: usize) -> &ValueAt
    requires { number < length linked.now.program.values }
    ensures { slice_get linked.now.program.values number ≡ Some (value_seen result.now) }
{
    &linked.values()[number]
}

/// The module in which a value's notation is read, and the notation.
pub fn notation_at(linked: &Linked, number: usize) -> (&str, &ValueSyntax)
    requires { number < length linked.now.program.values }
    ensures { IsValueAt linked.now.program number result.0.now (tree_of result.1.now) }
{
    linked.lemma_whole();
    let value = value_at(linked, number);
    let home = linked.assigned(value.assignment);
    (home.module, &value.syntax)
}
