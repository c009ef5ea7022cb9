//! Where and why a type is no later version of another one, in words.

ghost use Rattle.std.specs.Prelude.{◌≡◌, ◌++◌, [], IfOk, decimal, get_or, map, slice_get, string_bytes};
ghost use Rattle.asn_base.specs.Seen.{alternative_of, component_of, kind_of};
ghost use Rattle.later_versions.specs.DifferenceText.{HasText, at_path, comparison_of, difference_text, label_at as label_at'};
ghost use Rattle.later_versions.specs.DifferenceText.{label_of, name_at as name_at', names_in, with_label as with_label', with_members, words_of};

use crate::members::member_or_none;
use crate::reason::{Comparison, Difference, Explained, Reason};
use asn_base::schema::{Alternatives, Component, Core, Schema, TypeId};
use std::alloc::{AllocError, Global};

/// The most octets of a name or of a path that a text has.
const MOST_SHOWN: usize = 60;

/// The name of the component at a place, or nothing if there is none.
fn component_name(components: &[Component], place: usize) -> &str
    ensures { result.now ≡ get_or (map (λ c. c.name) (map component_of components.now)) place [] }
{
    if place < components.len() {
        return components[place].name.as_str();
    }
    ""
}

/// The name of the alternative at a place over both lists, or nothing if there is none.
fn alternative_name(alternatives: &Alternatives, place: usize) -> &str
    ensures { result.now ≡ get_or
        (map (λ a. a.name)
        (map alternative_of alternatives.now.root.items ++ map alternative_of alternatives.now.additions.items))
        place [] }
{
    let root = alternatives.root.as_slice();
    if place < root.len() {
        return root[place].name.as_str();
    }
    let additions = alternatives.additions.as_slice();
    if place - root.len() < additions.len() {
        return additions[place - root.len()].name.as_str();
    }
    ""
}

/// The name of the member at a place, or nothing if there is none or it has no name.
fn member_name(core: &Core, place: usize) -> &str
    ensures { result.now ≡ get_or (names_in (kind_of core.now)) place [] }
{
    match core {
        Core::Sequence(_, components) => component_name(components.as_slice(), place),
        Core::Set(_, components) => component_name(components.as_slice(), place),
        Core::Choice(alternatives) => alternative_name(alternatives, place),
        _ => "",
    }
}

/// The name of the member at a place of a type of the schema.
fn name_at(schema: &Schema, id: TypeId, place: usize) -> &str
    ensures { result.now ≡ name_at' schema.now id.index place }
{
    if schema.has(id) {
        return member_name(schema.core(id), place);
    }
    ""
}

/// The label of the member at a place of a type: its name, or its number in parentheses if the name has more than 60
/// octets. The label of an element is empty.
fn label_at(alloc: Global, schema: &Schema, id: TypeId, place: usize) -> Result<String, AllocError>
    ensures { IfOk result (λ s. string_bytes s ≡ label_at' schema.now id.index place) }
{
    let name = name_at(schema, id, place);
    if name.len() <= MOST_SHOWN {
        return String::from_str(alloc, name);
    }
    let digits = place.to_string(alloc)?;
    let mut label = String::from_str(alloc, "(")?;
    label.push_str(digits.as_str())?;
    label.push_str(")")?;
    Ok(label)
}

/// A path followed by a label, after a dot, unless the path is empty; of elements, which have no label, square
/// brackets.
fn with_label(alloc: Global, path: &str, label: &str) -> Result<String, AllocError>
    ensures { IfOk result (λ s. string_bytes s ≡ with_label' path.now label.now) }
{
    let mut longer = String::from_str(alloc, path)?;
    if label.is_empty() {
        longer.push_str("[]")?;
        return Ok(longer);
    }
    if !path.is_empty() {
        longer.push_str(".")?;
    }
    longer.push_str(label)?;
    Ok(longer)
}

/// The path of members' places from a type, in the labels of the schema. It ends before the first member with which it
/// would have more than 60 octets.
fn member_path(
    alloc: Global,
    schema: &Schema,
    id: TypeId,
    places: &[usize],
) -> Result<String, AllocError>
    ensures { IfOk result (λ path. string_bytes path ≡ with_members schema.now id.index [] places.now) }
{
    let mut path = String::new(alloc);
    let mut ty = id;
    for i in 0..places.len() {
        let label = label_at(alloc, schema, ty, places[i])?;
        let longer = with_label(alloc, path.as_str(), label.as_str())?;
        if longer.len() > MOST_SHOWN {
            return Ok(path);
        }
        path = longer;
        ty = member_or_none(schema, ty, places[i]);
    }
    Ok(path)
}

/// What comes in the text of a reason before the name or the number.
fn words(reason: Reason) -> &'static str
    ensures { result.now ≡ words_of reason }
{
    match reason {
        Reason::Tags => "the tags differ",
        Reason::Kind => "the types are of two kinds",
        Reason::Numbers => "other numbers are allowed",
        Reason::Alphabet => "other characters are allowed",
        Reason::Sizes => "other sizes are allowed",
        Reason::Bounds => "PER uses other bounds",
        Reason::NamedBits => "other bits are named",
        Reason::Marker => "the extension marker is in one of both alone",
        Reason::Root(_) => "the roots differ from number ",
        Reason::Addition(_) => "the additions differ from number ",
        Reason::Removed(_) => "the newer type lacks component ",
        Reason::Name(_) => "the newer type has another name for component ",
        Reason::Presence(_) => "OPTIONAL, DEFAULT or the extension marker differs at component ",
        Reason::Default(_) => "the newer type has another default of component ",
        Reason::Appended(_) => "the root of the newer type has one more component: ",
        Reason::Brackets(_) => "version brackets differ at component ",
    }
}

/// The number of a member.
fn number(alloc: Global, place: usize) -> Result<String, AllocError>
    ensures { IfOk result (λ s. string_bytes s ≡ decimal place) }
{
    let digits = place.to_string(alloc)?;
    Ok(digits)
}

/// The label of the component, or the number of the member from 0, in the text of a reason.
fn label_in_reason(
    alloc: Global,
    older: &Schema,
    newer: &Schema,
    difference: &Difference,
) -> Result<String, AllocError>
    ensures { IfOk result (λ s. string_bytes s ≡ label_of
        older.now difference.now.older.index newer.now difference.now.newer.index difference.now.reason) }
{
    match difference.reason {
        Reason::Tags => Ok(String::new(alloc)),
        Reason::Kind => Ok(String::new(alloc)),
        Reason::Numbers => Ok(String::new(alloc)),
        Reason::Alphabet => Ok(String::new(alloc)),
        Reason::Sizes => Ok(String::new(alloc)),
        Reason::Bounds => Ok(String::new(alloc)),
        Reason::NamedBits => Ok(String::new(alloc)),
        Reason::Marker => Ok(String::new(alloc)),
        Reason::Root(place) => Ok(number(alloc, place)?),
        Reason::Addition(place) => Ok(number(alloc, place)?),
        Reason::Removed(place) => Ok(label_at(alloc, older, difference.older, place)?),
        Reason::Name(place) => Ok(label_at(alloc, older, difference.older, place)?),
        Reason::Presence(place) => Ok(label_at(alloc, older, difference.older, place)?),
        Reason::Default(place) => Ok(label_at(alloc, older, difference.older, place)?),
        Reason::Appended(place) => Ok(label_at(alloc, newer, difference.newer, place)?),
        Reason::Brackets(place) => Ok(label_at(alloc, newer, difference.newer, place)?),
    }
}

/// The text of a path: nothing for an empty one.
fn at(alloc: Global, path: &str) -> Result<String, AllocError>
    ensures { IfOk result (λ s. string_bytes s ≡ at_path path.now) }
{
    if path.is_empty() {
        return Ok(String::new(alloc));
    }
    let mut text = String::from_str(alloc, "at ")?;
    text.push_str(path)?;
    text.push_str(": ")?;
    Ok(text)
}

/// The text of a difference: the path, if it isn't empty, and the reason.
fn text_of(
    alloc: Global,
    older: &Schema,
    id: TypeId,
    newer: &Schema,
    difference: &Difference,
) -> Result<String, AllocError>
    ensures { IfOk result (λ s. string_bytes s ≡ difference_text older.now id.index newer.now difference.now) }
{
    let path = member_path(alloc, older, id, difference.places.as_slice())?;
    let label = label_in_reason(alloc, older, newer, difference)?;
    let mut text = at(alloc, path.as_str())?;
    text.push_str(words(difference.reason))?;
    text.push_str(label.as_str())?;
    Ok(text)
}

/// The answer of a comparison from a type of the older schema, with its text.
pub(crate) fn explained(
    alloc: Global,
    older: &Schema,
    id: TypeId,
    newer: &Schema,
    comparison: Comparison,
) -> Result<Explained, AllocError>
    ensures is { IfOk result (λ a. comparison_of a ≡ comparison) }
    ensures text_of { IfOk result (HasText older.now id.index newer.now) }
{
    match comparison {
        Comparison::Later => Ok(Explained::Later),
        Comparison::Differs(difference) => {
            let text = text_of(alloc, older, id, newer, &difference)?;
            Ok(Explained::Differs(difference, text))
        }
    }
}
