//! Whether a component that is there is the same as its DEFAULT (X.690, 11.5).

ghost use Rattle.asn_base.specs.Types.{Component};
ghost use Rattle.codec_code.specs.Routines.{component_in, need_of};
ghost use Rattle.codec_code.specs.Steps.{IsDefaultAt, has_default as has_default'};
ghost use Rattle.std.specs.Prelude.{◌≡◌, ◌↔◌, IfOk, IsTrue, Some as Some'};
ghost use Rattle.views.specs.Tree.{value_of};

use crate::refusal::Site;
use codec_code::{Field, FieldPresence};
use std::alloc::AllocError;
use views::ValueRef;

/// Whether a component of this presence has a DEFAULT.
#[inline(always)]
fn has_default(need: FieldPresence) -> bool
    ensures { result ≡ has_default' need }
{
    match need {
        FieldPresence::Default => true,
        FieldPresence::Mandatory => false,
        FieldPresence::Optional => false,
        FieldPresence::Addition => false,
    }
}

/// Whether the value is the same as the DEFAULT of the component that the field reads, and no additions were skipped in
/// it. The value is copied only if the component has a DEFAULT. `AllocError` if there is not enough memory for that.
pub(crate) fn is_default(
    at: Site<'_>,
    field: Field,
    part: &ValueRef<'_, '_>,
    whole: bool,
) -> Result<bool, AllocError>
    ensures { (c : Component)
        → component_in at.entry.judge.code.now at.entry.id.index field.place ≡ Some' c
        → field.need ≡ need_of c.presence
        → IfOk result (λ same.
        IsTrue same
        ↔ (IsTrue whole × IsDefaultAt at.entry.judge.code.now at.entry.id.index field.place (value_of part.now))) }
{
    if !whole || !has_default(field.need) {
        return Ok(false);
    }
    let value = part.to_value(at.judge.alloc)?;
    Ok(at.judge.code.is_default(at.id, field.place, &value))
}

/// Whether the component that the field reads surely isn't the same as its DEFAULT. False decides nothing.
#[inline(always)]
pub(crate) fn is_no_default(at: Site<'_>, field: Field, part: &ValueRef<'_, '_>) -> bool
    ensures { (c : Component)
        → component_in at.entry.judge.code.now at.entry.id.index field.place ≡ Some' c
        → field.need ≡ need_of c.presence
        → IsTrue result
        → IsDefaultAt at.entry.judge.code.now at.entry.id.index field.place (value_of part.now)
        → ⊥ }
{
    if !has_default(field.need) {
        return true;
    }
    match is_default(at, field, part, true) {
        Ok(same) => !same,
        Err(_) => false,
    }
}
