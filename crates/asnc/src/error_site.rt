//! Where octets are refused, in the names of a schema.

ghost use Rattle.std.specs.Prelude.{◌≡◌, [], ℕ, IfOk, OnOk, string_bytes};
ghost use Rattle.ber_reader.specs.declared.open.Part.TheVariants.{Alternative, Component, Element};
ghost use Rattle.asnc.specs.ErrorSites.{alternative_name, component_name, path_of, with_name, with_number, with_open};
ghost use Rattle.asnc.specs.ErrorSites.{with_part, IsErrorSite};
ghost use Rattle.asnc.specs.Unpacking.{part_of, type_in, with_parts};

use asn_base::schema::{Core, Schema, TypeId};
use ber_reader::{OpenValue, Part, locate_error};
use codec_code::Code;
use std::alloc::{AllocError, Global};
use value_text::names::{alternative_at, components};

/// The identifier of a component of a type by its place.
fn component_at(schema: &Schema, id: TypeId, place: usize) -> &str
    ensures { result.now ≡ component_name schema.now id.index place }
{
    if !schema.has(id) {
        return "";
    }
    match components(schema.core(id)).get(place) {
        Some(component) => component.name.as_str(),
        None => "",
    }
}

/// The identifier of an alternative of a type by its number.
fn alternative(schema: &Schema, id: TypeId, number: usize) -> &str
    ensures { result.now ≡ alternative_name schema.now id.index number }
{
    if !schema.has(id) {
        return "";
    }
    match alternative_at(schema.core(id), number) {
        Some(alternative) => alternative.name.as_str(),
        None => "",
    }
}

/// Appends a name to a path, after a dot, unless the path is empty.
fn push_name(path: &mut String, name: &str) -> Result<(), AllocError>
    ensures { OnOk result (string_bytes path.new ≡ with_name (string_bytes path.old) name.now) }
{
    if !path.is_empty() {
        path.push('.')?;
    }
    path.push_str(name)?;
    Ok(())
}

/// Appends the number of an element to a path, in square brackets.
fn push_number(alloc: Global, path: &mut String, number: usize) -> Result<(), AllocError>
    ensures { OnOk result (string_bytes path.new ≡ with_number (string_bytes path.old) number) }
{
    let digits = number.to_string(alloc)?;
    path.push_str("[")?;
    path.push_str(digits.as_str())?;
    path.push_str("]")?;
    Ok(())
}

/// Appends a part of a value of a type to a path.
fn push_part(
    alloc: Global,
    schema: &Schema,
    id: TypeId,
    path: &mut String,
    part: Part,
) -> Result<(), AllocError>
    ensures { OnOk result (string_bytes path.new ≡ with_part schema.now id.index (string_bytes path.old) part) }
{
    match part {
        Part::Component(place) => push_name(path, component_at(schema, id, place)),
        Part::Alternative(number) => push_name(path, alternative(schema, id, number)),
        Part::Element(number) => push_number(alloc, path, number),
    }
}

/// Appends the part of an open value that was being read to a path, if there is one.
fn push_open(
    alloc: Global,
    schema: &Schema,
    path: &mut String,
    value: OpenValue,
) -> Result<(), AllocError>
    ensures { OnOk result (string_bytes path.new ≡ with_open schema.now (string_bytes path.old) value) }
{
    match value.part {
        Some(part) => push_part(alloc, schema, value.ty, path, part),
        None => Ok(()),
    }
}

/// The path of the parts of open values that were being read, the outermost first.
fn path_to(alloc: Global, schema: &Schema, values: &[OpenValue]) -> Result<String, AllocError>
    ensures { IfOk result (λ path. string_bytes path ≡ path_of schema.now values.now) }
{
    let mut path = String::new(alloc);
    for i in 0..values.len() {
        push_open(alloc, schema, &mut path, values[i])?;
    }
    Ok(path)
}

/// The type of the innermost part that was being read, or the type of the whole value if no value is open.
fn innermost_type(schema: &Schema, id: TypeId, values: &[OpenValue]) -> TypeId {
    match values.last() {
        Some(value) => match value.part {
            Some(part) => part_type(schema, value.ty, part),
            None => value.ty,
        },
        None => id,
    }
}

/// The number of headers that open values are within.
fn header_count(schema: &Schema, values: &[OpenValue]) -> usize {
    let mut count = 0usize;
    for i in 0..values.len() {
        if let Some(resolved) = schema.types().get(values[i].ty.index) {
            count = count.saturating_add(resolved.tags.len());
        }
    }
    count
}

/// The number of headers that open values are within, if none of the parts of the innermost one was being read.
fn levels_at(schema: &Schema, values: &[OpenValue]) -> Option<usize> {
    match values.last() {
        Some(value) if value.part.is_none() => Some(header_count(schema, values)),
        _ => None,
    }
}

/// Where reading stops: the offset of the octet, the path of the parts that were being read, the type of the innermost
/// of them, and the number of headers around the octet if none of the parts of that one was being read.
#[derive(Drop)]
pub(crate) struct ErrorSite {
    pub offset: usize,
    pub path: String,
    pub ty: TypeId,
    pub levels: Option<usize>,
}

/// Where reading the octets as a value of the type stops.
pub(crate) fn stop_site(
    alloc: Global,
    schema: &Schema,
    code: &Code,
    id: TypeId,
    octets: &[u8],
) -> Result<ErrorSite, AllocError>
    requires same { schema.now ≡ code.now }
    ensures { IfOk result (λ r. IsErrorSite code.now id.index octets.now r.offset (string_bytes r.path)) }
{
    let found = locate_error(alloc, code, id, octets)?;
    let path = path_to(alloc, schema, found.values.as_slice())?;
    let ty = innermost_type(schema, id, found.values.as_slice());
    let levels = levels_at(schema, found.values.as_slice());
    Ok(ErrorSite {
        offset: found.place,
        path,
        ty,
        levels,
    })
}

/// The type of a component of a type by its place; the type itself if it has no such component.
fn component_type(schema: &Schema, id: TypeId, place: usize) -> TypeId
    ensures { result.index ≡ type_in schema.now id.index (Component place) }
{
    if !schema.has(id) {
        return id;
    }
    match components(schema.core(id)).get(place) {
        Some(component) => component.ty,
        None => id,
    }
}

/// The type of an alternative of a type by its number; the type itself if it has no such alternative.
fn alternative_type(schema: &Schema, id: TypeId, number: usize) -> TypeId
    ensures { result.index ≡ type_in schema.now id.index (Alternative number) }
{
    if !schema.has(id) {
        return id;
    }
    match alternative_at(schema.core(id), number) {
        Some(alternative) => alternative.ty,
        None => id,
    }
}

/// The type of the elements of a type; the type itself if it has none.
fn element_type(schema: &Schema, id: TypeId) -> TypeId
    ensures { (i : ℕ) → result.index ≡ type_in schema.now id.index (Element i) }
{
    if !schema.has(id) {
        return id;
    }
    match schema.core(id) {
        Core::SequenceOf(_, element) => *element,
        Core::SetOf(_, element) => *element,
        _ => id,
    }
}

/// The type of a part of a value of a type.
fn part_type(schema: &Schema, id: TypeId, part: Part) -> TypeId
    ensures { result.index ≡ type_in schema.now id.index part }
{
    match part {
        Part::Component(place) => component_type(schema, id, place),
        Part::Alternative(number) => alternative_type(schema, id, number),
        Part::Element(_) => element_type(schema, id),
    }
}

/// A part of a value that bits say, as one of a value that octets say.
fn part_of(part: packed_reader::Part) -> Part
    ensures { result ≡ part_of part }
{
    match part {
        packed_reader::Part::Component(place) => Part::Component(place),
        packed_reader::Part::Alternative(number) => Part::Alternative(number),
        packed_reader::Part::Element(number) => Part::Element(number),
    }
}

/// The path of parts of a value of a type, each within the one before.
pub(crate) fn path_to_part(
    alloc: Global,
    schema: &Schema,
    id: TypeId,
    parts: &[packed_reader::Part],
) -> Result<String, AllocError>
    ensures { IfOk result (λ path. string_bytes path ≡ with_parts schema.now id.index [] parts.now) }
{
    let mut path = String::new(alloc);
    let mut ty = id;
    for i in 0..parts.len() {
        let part = part_of(parts[i]);
        push_part(alloc, schema, ty, &mut path, part)?;
        ty = part_type(schema, ty, part);
    }
    Ok(path)
}

/// The type of a part of a value of a type, by the parts that lead to it.
pub(crate) fn type_at(schema: &Schema, id: TypeId, parts: &[packed_reader::Part]) -> TypeId {
    let mut ty = id;
    for i in 0..parts.len() {
        ty = part_type(schema, ty, part_of(parts[i]));
    }
    ty
}
