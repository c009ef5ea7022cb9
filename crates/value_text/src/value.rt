//! The text of a value.

ghost use Rattle.asn_base.specs.Abstract.{abstract, placed, row_of_options};
ghost use Rattle.asn_base.specs.Seen.{component_of};
ghost use Rattle.asn_base.specs.Typed.{IsValue};
ghost use Rattle.std.specs.List.{AllByRecursion};
ghost use Rattle.std.specs.Prelude.{◌≡◌, ◌≤◌, ◌<◌, [], IfOk, IsErrOf, length, map, string_bytes};
ghost use Rattle.value_text.specs.Print.{Adds, braced, print, print_elements, print_fields};

use crate::leaf::{
    append, append_arcs, append_bit_string, append_comma, append_number, append_octets,
    append_truth,
};
use crate::names::{alternative_at, components, item_name};
use crate::print_fault::Fault;
use crate::string::append_string;
use asn_base::decide::is_value;
use asn_base::node::{ValueKind, ValueNode};
use asn_base::schema::{Component, Core, Schema, TypeId};
use asn_base::value::Value;
use std::alloc::{AllocError, Global};

/// Adds the text of the value.
#[cycle(printing)]
fn print_node<N: ValueNode>(
    schema: &Schema,
    id: TypeId,
    node: &N,
    out: &mut String,
) -> Result<(), AllocError>
    requires { id.index < length schema.now }
    ensures { IfOk result (λ _. Adds out.old out.new (print schema.now id.index (N.value_of node.now))) }
{
    let core = schema.core(id);
    match node.kind() {
        ValueKind::Bool(truth) => append_truth(out, truth),
        ValueKind::Int(number) => append_number(out, number),
        ValueKind::Enum(number) => match item_name(core, number) {
            Some(name) => append(out, name),
            None => Ok(()),
        },
        ValueKind::Bits(unused, octets) => append_bit_string(out, octets, unused),
        ValueKind::Octets(octets) => append_octets(out, octets),
        ValueKind::Text(text) => append_string(out, text),
        ValueKind::Null => append(out, "NULL"),
        ValueKind::Oid(arcs) => append_arcs(out, arcs),
        ValueKind::RelativeOid(arcs) => append_arcs(out, arcs),
        ValueKind::Fields(size, fields) => {
            print_fields::<N>(schema, components(core), size, fields, out)
        }
        ValueKind::List(elements) => match core {
            Core::SequenceOf(_, element) => print_elements::<N>(schema, *element, elements, out),
            Core::SetOf(_, element) => print_elements::<N>(schema, *element, elements, out),
            _ => Ok(()),
        },
        ValueKind::Alternative(number, held) => match alternative_at(core, number) {
            Some(alternative) => {
                append(out, alternative.name.as_str())?;
                append(out, " : ")?;
                print_node(schema, alternative.ty, &held, out)?;
                Ok(())
            }
            None => Ok(()),
        },
    }
}

/// Adds the components that are present among the first `size` ones, each after its name, with commas between them.
#[cycle(printing)]
fn print_fields<N: ValueNode>(
    schema: &Schema,
    components: &[Component],
    size: usize,
    fields: N::Fields,
    out: &mut String,
) -> Result<(), AllocError>
    requires there { AllByRecursion (λ c. c.type < length schema.now) (map component_of components.now) }
    requires few { length components.now ≤ 320 }
    ensures { let row = row_of_options (placed size (λ i. N.part_at fields i)) in
        IfOk result
        (λ _. Adds out.old out.new (braced (print_fields schema.now (map component_of components.now) [] row))) }
{
    append(out, "{")?;
    let mut first = true;
    let mut left = fields;
    for i in 0..components.len() {
        if i < size {
            let component = &components[i];
            if let Some(node) = N::take_component(&mut left, i as u32) {
                append_comma(out, first)?;
                append(out, component.name.as_str())?;
                append(out, " ")?;
                print_node(schema, component.ty, &node, out)?;
                first = false;
            }
        }
    }
    append(out, "}")?;
    Ok(())
}

/// Adds the elements with commas between them.
#[cycle(printing)]
fn print_elements<N: ValueNode>(
    schema: &Schema,
    element: TypeId,
    elements: N::Elements,
    out: &mut String,
) -> Result<(), AllocError>
    requires { element.index < length schema.now }
    ensures { IfOk result
        (λ _. Adds out.old out.new (braced (print_elements schema.now element.index [] (N.row_of elements)))) }
{
    append(out, "{")?;
    let mut first = true;
    let mut left = elements;
    while let Some(node) = N::next_element(&mut left) {
        append_comma(out, first)?;
        print_node(schema, element, &node, out)?;
        first = false;
    }
    append(out, "}")?;
    Ok(())
}

/// The text of a value or of a part of a view, as `print` prints it, without a check that it is one of the type. If it
/// isn't one, names that the type lacks are left out. `AllocError` only if an allocation fails; no memory but that for
/// the text is needed.
pub fn print_shown<N: ValueNode>(
    alloc: Global,
    schema: &Schema,
    id: TypeId,
    node: &N,
) -> Result<String, AllocError>
    requires there { id.index < length schema.now }
    ensures { IfOk result (λ s. string_bytes s ≡ print schema.now id.index (N.value_of node.now)) }
{
    let mut out = String::new(alloc);
    print_node(schema, id, node, &mut out)?;
    Ok(out)
}

/// A value of type `id` in value notation (X.680, 18 to 29, 32, 33 and 41).
///
/// `TRUE`, `FALSE` and `NULL` are printed so, and numbers in decimal; an item of an enumeration by its identifier. Bits
/// are printed as `'01'B` and octets as `'01AF'H`. A text is in `"` with each quote twice; if it contains LF, VT, FF or
/// CR it is printed as the `'..'H` of its octets. An object identifier is `{1 2 840}`. A SEQUENCE or SET is `{a 1, b
/// TRUE}`, with the components that are present in order of definition, or `{}` if none is. Elements are `{1, 2}`, and
/// an alternative is `a : 1`. A comma is followed by one space. Only the text takes memory.
///
/// - `NotOfType`: exactly if it is no value of the type.
/// - `Memory`: it is one, and there is not enough memory.
#[tactic(auto, using(crate::proofs::Members::value_there))]
pub fn print(alloc: Global, schema: &Schema, id: TypeId, value: &Value) -> Result<String, Fault>
    // Only a value of the type is printed.
    ensures value { IfOk result (λ s. IsValue schema.now id.index (abstract value.now)) }
    ensures text { IfOk result (λ s. string_bytes s ≡ print schema.now id.index (abstract value.now)) }
    // `NotOfType` comes only if it is no value of the type, and `Memory` only if it is one.
    ensures not_of_type { IsErrOf result Fault.NotOfType → IsValue schema.now id.index (abstract value.now) → ⊥ }
    ensures memory { IsErrOf result Fault.Memory → IsValue schema.now id.index (abstract value.now) }
{
    if !is_value(value, schema, id) {
        return Err(Fault::NotOfType);
    }
    Ok(print_shown(alloc, schema, id, &value)?)
}
