//! Whether a value is the same as a component's DEFAULT (X.690, 11.5).

ghost use Rattle.asn_base.specs.Abstract.{abstract};
ghost use Rattle.asn_base.specs.Same.{Same};
ghost use Rattle.asn_base.specs.Schemas.{HasValue};
ghost use Rattle.asn_base.specs.Seen.{component_of};
ghost use Rattle.asn_base.specs.Typed.{IsValueWithoutNodes};
ghost use Rattle.codec_code.specs.Plain.{IsPlain};
ghost use Rattle.codec_code.specs.Routines.{component_in};
ghost use Rattle.codec_code.specs.Steps.{IsDefaultAt, IsTheDefault};
ghost use Rattle.std.specs.Prelude.{◌≡◌, ◌↔◌, IfSome, IsTrue, MatchOption, None, Some};

use asn_base::decide::is_value_without_nodes;
use asn_base::law::lemma_abstract_values;
use asn_base::same::same_values;
use asn_base::schema::{Component, Presence, Schema, TypeId, components_of};
use asn_base::value::Value;

/// Whether the component at this place of the type has a DEFAULT that is the same as the value.
#[inline(always)]
#[tactic(auto, using(crate::proofs::Defaults::of_none))]
pub(crate) fn is_default_at(schema: &Schema, id: TypeId, place: usize, value: &Value) -> bool
    ensures { IsTrue result ↔ IsDefaultAt schema.now id.index place (abstract value.now) }
{
    match component_at(schema, id, place) {
        Some(component) => {
            schema.lemma_invariant();
            is_the_default(schema, component, value)
        }
        None => false,
    }
}

/// The component at this place of the type, or None if there is none.
#[inline(always)]
fn component_at(schema: &Schema, id: TypeId, place: usize) -> Option<&Component>
    ensures { MatchOption result (component_in schema.now id.index place ≡ None)
        (λ c. component_in schema.now id.index place ≡ Some (component_of c.now)) }
{
    let types = schema.types();
    if id.index >= types.len() {
        return None;
    }
    let components = components_of(&types[id.index].core);
    if place < components.len() {
        Some(&components[place])
    } else {
        None
    }
}

/// Whether the component has a DEFAULT that is the same as the value. The default is known to be a value of its type,
/// and is read only as far as the value goes.
#[inline(always)]
#[tactic(auto, using(crate::proofs::Defaults::of_default, crate::proofs::Defaults::of_mandatory, crate::proofs::Defaults::of_optional, crate::proofs::Defaults::of_addition, crate::proofs::Defaults::is_known))]
fn is_the_default(schema: &Schema, component: &Component, value: &Value) -> bool
    requires { HasValue schema.now (component_of component.now) }
    ensures { IsTrue result ↔ IsTheDefault schema.now (component_of component.now) (abstract value.now) }
{
    match &component.presence {
        Presence::Default(default) => is_the_same(schema, component.ty, value, default),
        Presence::Mandatory | Presence::Optional | Presence::Addition(_) => false,
    }
}

/// Whether two BOOLEANs or two INTEGERs are equal; None for all other values.
#[inline(always)]
fn equal_at_once(value: &Value, known: &Value) -> Option<bool>
    ensures plain { IfSome result (λ equal. IsPlain (abstract known.now)) }
    ensures equal { IfSome result (λ equal. IsTrue equal ↔ (abstract value.now ≡ abstract known.now)) }
{
    lemma_abstract_values();
    match value {
        Value::Bool(one) => match known {
            Value::Bool(other) => Some(one == other),
            _ => None,
        },
        Value::Int(one) => match known {
            Value::Int(other) => Some(one == other),
            _ => None,
        },
        _ => None,
    }
}

/// Whether a value is the same as another one that is known to be of the type, whatever their kinds. It stays a call of
/// its own: few defaults are neither BOOLEANs nor INTEGERs.
#[inline(never)]
#[tactic(auto, using(crate::proofs::Defaults::not_of_type))]
fn is_alike(schema: &Schema, id: TypeId, value: &Value, known: &Value) -> bool
    requires { IsValueWithoutNodes schema.now id.index (abstract known.now) }
    ensures { IsTrue result ↔ Same schema.now id.index (abstract value.now) (abstract known.now) }
{
    is_value_without_nodes(value, schema, id) && same_values(value, known, schema, id)
}

/// Whether a value is the same as another one that is known to be of the type.
#[inline(always)]
fn is_the_same(schema: &Schema, id: TypeId, value: &Value, known: &Value) -> bool
    requires { IsValueWithoutNodes schema.now id.index (abstract known.now) }
    ensures { IsTrue result ↔ Same schema.now id.index (abstract value.now) (abstract known.now) }
{
    match equal_at_once(value, known) {
        Some(equal) => equal,
        None => is_alike(schema, id, value, known),
    }
}
