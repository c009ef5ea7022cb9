//! Whether a value is the same as a component's DEFAULT (X.691, 19.5).

ghost use Rattle.asn_base.specs.Abstract.{abstract};
ghost use Rattle.asn_base.specs.Schemas.{HasValue};
ghost use Rattle.asn_base.specs.Seen.{component_of};
ghost use Rattle.asn_base.specs.Typed.{IsValueWithoutNodes};
ghost use Rattle.asn_base.specs.Types.{Component as Component'};
ghost use Rattle.packed_encodings.specs.Computed as computed;
ghost use Rattle.packed_encodings.specs.Computed.{kind_at};
ghost use Rattle.packed_writer.specs.proving.Values.{HasComponent};
ghost use Rattle.std.specs.Prelude.{◌≡◌, ◌<◌, Some, length, slice_get};

use asn_base::same::same_values;
use asn_base::schema::{Component, Presence, Schema, TypeId, components_of};
use asn_base::value::Value;
use packed_encodings::computing_laws;

/// Whether the component at this place of the type has a DEFAULT that the value is the same as.
pub fn is_default(schema: &Schema, id: TypeId, place: usize, value: &Value) -> bool
    requires { (c : Component') × HasComponent schema.now id.index place c
        × IsValueWithoutNodes schema.now c.type (abstract value.now) }
    ensures { (c : Component')
        → HasComponent schema.now id.index place c
        → result ≡ computed.is_default schema.now c (abstract value.now) }
{
    schema.lemma_invariant();
    is_the_default(schema, component_at(schema, id, place), value)
}

/// The component at this place of the type.
fn component_at(schema: &Schema, id: TypeId, place: usize) -> &Component
    requires { (c : Component') × HasComponent schema.now id.index place c }
    ensures is { HasComponent schema.now id.index place (component_of result.now) }
    ensures value { HasValue schema.now (component_of result.now) }
{
    let core = schema.core(id);
    &components_of(core)[place]
}

/// Whether the component has a DEFAULT that the value is the same as.
fn is_the_default(schema: &Schema, component: &Component, value: &Value) -> bool
    requires known { HasValue schema.now (component_of component.now) }
    requires value { IsValueWithoutNodes schema.now (component_of component.now).type (abstract value.now) }
    ensures { result ≡ computed.is_default schema.now (component_of component.now) (abstract value.now) }
{
    computing_laws();
    match &component.presence {
        Presence::Default(default) => same_values(value, default, schema, component.ty),
        Presence::Mandatory | Presence::Optional | Presence::Addition(_) => false,
    }
}
