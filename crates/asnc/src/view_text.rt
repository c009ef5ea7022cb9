//! The text of a view's value.

ghost use Rattle.asn_base.specs.Typed.{IsValue};
ghost use Rattle.std.specs.Prelude.{◌≡◌, ◌<◌, ◌↔◌, IfOk, IsErrOf, IsTrue, length, string_bytes};
ghost use Rattle.value_text.specs.Print.{print};
ghost use Rattle.views.specs.Tree.{value_of};

use asn_base::decide::is_value;
use asn_base::schema::{Schema, TypeId};
use std::alloc::{AllocError, Global};
use value_text::Fault;
use views::View;

/// The text of the value that a view shows, straight from its nodes. The function doesn't check that the value is one
/// of the type, so the view should be one of a message of that type. If the value isn't one, names that the type lacks
/// are left out. `AllocError` only if an allocation fails; no memory but that for the text is needed.
pub(crate) fn print_shown(
    alloc: Global,
    schema: &Schema,
    id: TypeId,
    view: &View<'_>,
) -> Result<String, AllocError>
    requires there { id.index < length schema.now }
    ensures { IfOk result (λ s. string_bytes s ≡ print schema.now id.index (value_of view.now)) }
{
    Ok(value_text::print_shown(alloc, schema, id, &view.top())?)
}

/// The text of the value that a view shows, under type `id`. It is the text that `value_text::print` gives for that
/// value.
///
/// - `NotOfType`: only if the value isn't one of the type.
/// - `Memory`: an allocation failed. Whether the value is one of the type is checked with a copy, which is freed before
///   the text is made.
pub(crate) fn print_view(
    alloc: Global,
    schema: &Schema,
    id: TypeId,
    view: &View<'_>,
) -> Result<String, Fault>
    // A printed value is one of the type.
    ensures value { IfOk result (λ s. IsValue schema.now id.index (value_of view.now)) }
    ensures text { IfOk result (λ s. string_bytes s ≡ print schema.now id.index (value_of view.now)) }
    // After `NotOfType` the value isn't one of the type.
    ensures not_of_type { IsErrOf result Fault.NotOfType → IsValue schema.now id.index (value_of view.now) → ⊥ }
{
    if !is_shown_value(alloc, schema, id, view)? {
        return Err(Fault::NotOfType);
    }
    Ok(print_shown(alloc, schema, id, view)?)
}

/// Whether the value that a view shows is one of the type.
fn is_shown_value(
    alloc: Global,
    schema: &Schema,
    id: TypeId,
    view: &View<'_>,
) -> Result<bool, AllocError>
    ensures { IfOk result (λ b. IsTrue b ↔ IsValue schema.now id.index (value_of view.now)) }
{
    let value = view.to_value(alloc)?;
    Ok(is_value(&value, schema, id))
}
