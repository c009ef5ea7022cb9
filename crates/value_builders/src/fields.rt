//! Values of a SEQUENCE or SET, made component by component.

ghost use Rattle.std.specs.Prelude.{◌≡◌, ◌<◌, IfErr, IfOk, IsFalse, IsTrue, List, MatchOption, None, Some, length, map};
ghost use Rattle.std.specs.Prelude.{option_map, replicate, slice_get, slice_set};
ghost use Rattle.asn_base.specs.Abstract.{AbstractValue, abstract, fields, row_of_options};
ghost use Rattle.asn_base.specs.Seen.{component_of};
ghost use Rattle.asn_base.specs.Types.{Component as Component'};
ghost use Rattle.value_builders.specs.Building.{IsSet, begun, is_missing, missing};
ghost use Rattle.value_builders.specs.Named.{Has, components_in};
ghost use Rattle.value_builders.specs.Refused.{IsNotBegun, IsNotSet, IsUnfinished};

use crate::build_fault::BuildFault;
use crate::names::{component_place, components_of, core_of};
use asn_base::law::lemma_abstract_values;
use asn_base::schema::{Component, Presence, Schema, TypeId};
use asn_base::value::Value;
use std::alloc::{AllocError, Global};
use std::marker::Model;

/// A value of a SEQUENCE or SET while it is made. Each component is set by its name, once and in any order. What is not
/// set is absent. A call that fails drops what was set.
#[derive(Drop)]
pub struct Fields<'s> {
    alloc: Global,
    components: &'s [Component],
    values: Vec<Option<Value>>,
}

impl<'s> Model for Fields<'s> {
    ghost use Rattle.value_builders.specs.Building.{Building};
    ghost use Rattle.std.specs.Coded.{codes};
    ghost use Rattle.asn_base.specs.Codes.{abstract_value_code};

    ghost Value = { Building };

    ghost coded = { Prim.hlevel (codes, abstract_value_code) };

    ghost use Rattle.std.specs.Prelude.{◌≡◌, length, map, option_map};
    ghost use Rattle.asn_base.specs.Abstract.{abstract};
    ghost use Rattle.asn_base.specs.Seen.{component_of};

    ghost view = { λ f. record {
      components = map component_of f.components.now;
      values = map (option_map abstract) f.values.items;
    } };

    ghost invariant = { λ f. length f.values.items ≡ length f.components.now };
}

/// A row of `size` absent components.
fn absent(alloc: Global, size: usize) -> Result<Vec<Option<Value>>, AllocError>
    ensures row { IfOk result (λ vs. map (option_map abstract) vs.items ≡ replicate size None) }
    ensures size { IfOk result (λ vs. length vs.items ≡ size) }
{
    let mut values = Vec::new(alloc);
    for i in 0..size {
        values.push(None)?;
    }
    Ok(values)
}

/// Whether a component must be there and is not.
fn is_missing(component: &Component, value: &Option<Value>) -> bool
    ensures { result ≡ is_missing (component_of component.now) (option_map abstract value.now) }
{
    match value {
        Some(_) => false,
        None => match &component.presence {
            Presence::Mandatory => true,
            Presence::Optional => false,
            Presence::Default(_) => false,
            Presence::Addition(_) => false,
        },
    }
}

/// Whether nothing was set at a place.
fn is_absent_at(values: &[Option<Value>], place: usize) -> bool
    requires { place < length values.now }
    ensures absent { IsTrue result → slice_get (map (option_map abstract) values.now) place ≡ Some None }
    ensures set { IsFalse result → (v : AbstractValue)
        × (slice_get (map (option_map abstract) values.now) place ≡ Some (Some v)) }
{
    match &values[place] {
        Some(_) => false,
        None => true,
    }
}

/// Puts a value at a place.
fn put(values: &mut Vec<Option<Value>>, place: usize, value: Value)
    requires { place < length values.old.items }
    ensures values { map (option_map abstract) values.new.items
        ≡ slice_set (map (option_map abstract) values.old.items) place (Some (abstract value)) }
    ensures length { length values.new.items ≡ length values.old.items }
{
    values[place] = Some(value);
}

/// The first component that must be there and is not, or None if there is none.
fn first_missing<'s>(components: &'s [Component], values: &[Option<Value>]) -> Option<&'s Component>
    requires { length values.now ≡ length components.now }
    ensures { let name = missing (map component_of components.now) (map (option_map abstract) values.now) in
        MatchOption result (name ≡ None) (λ c. name ≡ Some (component_of c.now).name) }
{
    for i in 0..components.len() {
        if is_missing(&components[i], &values[i]) {
            return Some(&components[i]);
        }
    }
    None
}

impl<'s> Fields<'s> {
    /// Begins a value of a type, with no component set.
    ///
    /// `NoType`: the schema has no such type. `NotFields`: it is no SEQUENCE or SET. `Memory`: an allocation failed.
    pub fn of(alloc: Global, schema: &'s Schema, id: TypeId) -> Result<Self, BuildFault>
        // The type has these components, and none is set.
        ensures begun { IfOk result (λ f. (cs : List Component')
            × Has components_in schema.now id.index cs × (f ≡ begun cs)) }
        // The reason of a refusal applies.
        ensures refused { IfErr result (IsNotBegun schema.now id.index) }
    {
        let Some(core) = core_of(schema, id) else {
            return Err(BuildFault::NoType);
        };
        let Some(components) = components_of(core) else {
            return Err(BuildFault::NotFields);
        };
        let values = absent(alloc, components.len())?;
        Ok(Fields {
            alloc,
            components,
            values,
        })
    }

    /// Sets the component with a name. Whether the value is one of the component's type is decided when the whole is
    /// encoded.
    ///
    /// `NoComponent`: the type has no component with this name. `Twice`: it was set before. `Memory`: an allocation
    /// failed.
    pub fn set(mut self, name: &str, value: Value) -> Result<Self, BuildFault>
        // The component with this name, which was absent, is the value; all others are as they were.
        ensures set { IfOk result (IsSet self.entry name.now (abstract value)) }
        // The reason of a refusal applies.
        ensures refused { IfErr result (IsNotSet self.entry name.now) }
    {
        let Some(place) = component_place(self.components, name) else {
            return Err(BuildFault::NoComponent(String::from_str(self.alloc, name)?));
        };
        if !is_absent_at(self.values.as_slice(), place) {
            return Err(BuildFault::Twice(String::from_str(self.alloc, name)?));
        }
        put(&mut self.values, place, value);
        Ok(self)
    }

    /// The value: the components that were set, under their names, and no others.
    ///
    /// `Missing`: a component that is neither OPTIONAL nor has a DEFAULT was not set; it is the first one in order of
    /// definition. An addition may be absent. `Memory`: an allocation failed.
    pub fn finish(self) -> Result<Value, BuildFault>
        // The value has what was set, and nothing is missing.
        ensures fields { IfOk result (λ v. abstract v ≡ fields (row_of_options self.entry.values)) }
        ensures whole { IfOk result (λ v. missing self.entry.components self.entry.values ≡ None) }
        // The reason of a refusal applies.
        ensures refused { IfErr result (IsUnfinished self.entry) }
    {
        lemma_abstract_values();
        match first_missing(self.components, self.values.as_slice()) {
            Some(component) => Err(BuildFault::Missing(component.name.clone()?)),
            None => Ok(Value::Fields(self.values)),
        }
    }
}
