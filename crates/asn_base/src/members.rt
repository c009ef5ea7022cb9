//! What the members of types keep: their names, how many there are, where additions are, and their types.

ghost use Rattle.asn_base.specs.Names.{AreNames};
ghost use Rattle.asn_base.specs.Rules.{AreAfterMarker, AreFew, HasFewMembers, HasMarker, HasOwnTags, additions_of, names_in, root_of};
ghost use Rattle.asn_base.specs.Schemas.{GroupsTogether, HasTag, is_addition as is_added, types_in};
ghost use Rattle.asn_base.specs.Seen.{alternative_of, component_of, item_of, kind_of, named_bit_of};
ghost use Rattle.asn_base.specs.Typed.{IsOfGroup};
ghost use Rattle.asn_base.specs.proving.Listing.{AreTogether, texts};
ghost use Rattle.std.specs.List.{AllByRecursion};
ghost use Rattle.std.specs.Prelude.{◌≡◌, ◌<◌, ◌≤◌, ◌↔◌, ◌++◌, IfOk, IsTrue, OnOk, [], false, length, map, true};

use crate::distinct::{are_different_names, are_identifiers};
use crate::graph::{own_row, row_of};
use crate::groups::group;
use crate::list::add;
use crate::schema::{Alternative, Component, Core, Item, NamedBit, Presence, TypeId, Types};
use limits::{MAX_ADDITIONS, MAX_ITEMS, MAX_MEMBERS};
use std::alloc::{AllocError, Global};

// ---- names

fn add_items<'a>(items: &'a [Item], names: &mut Vec<&'a str>) -> Result<(), AllocError>
    ensures { OnOk result (texts names.new.items
        ≡ texts names.old.items ++ map (λ i. i.name) (map item_of items.now)) }
{
    for item in items {
        add(names, item.name.as_str())?;
    }
    Ok(())
}

fn add_bits<'a>(bits: &'a [NamedBit], names: &mut Vec<&'a str>) -> Result<(), AllocError>
    ensures { OnOk result (texts names.new.items
        ≡ texts names.old.items ++ map (λ b. b.name) (map named_bit_of bits.now)) }
{
    for bit in bits {
        add(names, bit.name.as_str())?;
    }
    Ok(())
}

fn add_components<'a>(
    components: &'a [Component],
    names: &mut Vec<&'a str>,
) -> Result<(), AllocError>
    ensures { OnOk result (texts names.new.items
        ≡ texts names.old.items ++ map (λ c. c.name) (map component_of components.now)) }
{
    for component in components {
        add(names, component.name.as_str())?;
    }
    Ok(())
}

fn add_alternatives<'a>(
    alternatives: &'a [Alternative],
    names: &mut Vec<&'a str>,
) -> Result<(), AllocError>
    ensures { OnOk result (texts names.new.items
        ≡ texts names.old.items ++ map (λ a. a.name) (map alternative_of alternatives.now)) }
{
    for alternative in alternatives {
        add(names, alternative.name.as_str())?;
    }
    Ok(())
}

/// Adds the names of items, bits, components or alternatives.
fn add_names<'a>(core: &'a Core, names: &mut Vec<&'a str>) -> Result<(), AllocError>
    ensures { OnOk result (texts names.new.items ≡ texts names.old.items ++ names_in (kind_of core.now)) }
{
    match core {
        Core::Enumerated(items) => {
            add_items(items.root.as_slice(), names)?;
            add_items(items.additions.as_slice(), names)
        }
        Core::NamedBits(bits) => add_bits(bits.as_slice(), names),
        Core::Sequence(_, components) => add_components(components.as_slice(), names),
        Core::Set(_, components) => add_components(components.as_slice(), names),
        Core::Choice(alternatives) => {
            add_alternatives(alternatives.root.as_slice(), names)?;
            add_alternatives(alternatives.additions.as_slice(), names)
        }
        _ => Ok(()),
    }
}

/// The names of items, bits, components or alternatives.
fn names_of(alloc: Global, core: &Core) -> Result<Vec<&str>, AllocError>
    ensures { IfOk result (λ v. texts v.items ≡ names_in (kind_of core.now)) }
{
    let mut names = Vec::new(alloc);
    add_names(core, &mut names)?;
    Ok(names)
}

/// Whether the names in a type are distinct identifiers. `AllocError` comes only if an allocation fails.
pub(crate) fn has_names(alloc: Global, core: &Core) -> Result<bool, AllocError>
    ensures { IfOk result (λ b. IsTrue b ↔ AreNames (names_in (kind_of core.now))) }
{
    let names = names_of(alloc, core)?;
    if !are_identifiers(names.as_slice()) {
        return Ok(false);
    }
    are_different_names(alloc, names.as_slice())
}

// ---- how many there are

/// Whether a component is an addition.
pub(crate) fn is_addition(component: &Component) -> bool
    ensures { result ≡ is_added (component_of component.now) }
{
    match &component.presence {
        Presence::Addition(_) => true,
        _ => false,
    }
}

/// How many components come before the first addition.
fn root_count(components: &[Component]) -> usize
    ensures count { result ≡ length (root_of (map component_of components.now)) }
    ensures few { result ≤ length components.now }
{
    for i in 0..components.len() {
        if is_addition(&components[i]) {
            return i;
        }
    }
    components.len()
}

/// The components from the first addition on.
fn additions(components: &[Component]) -> &[Component]
    ensures { map component_of result.now ≡ additions_of (map component_of components.now) }
{
    &components[root_count(components)..]
}

/// Whether at least `least` and at most `most` are in the root, and at most 64 are additions.
fn are_few(least: usize, most: usize, root: usize, more: usize) -> bool
    ensures { IsTrue result ↔ AreFew least most root more }
{
    least <= root && root <= most && more <= MAX_ADDITIONS
}

/// Whether there are few enough components.
fn are_few_components(components: &[Component]) -> bool
    ensures { IsTrue result ↔ AreFew 0 256 (length (root_of (map component_of components.now)))
        (length (additions_of (map component_of components.now))) }
{
    are_few(
        0,
        MAX_MEMBERS,
        root_count(components),
        additions(components).len(),
    )
}

/// Whether a type has as many items, named bits, components or alternatives as it may have.
pub(crate) fn has_few_members(core: &Core) -> bool
    ensures { IsTrue result ↔ HasFewMembers (kind_of core.now) }
{
    match core {
        Core::Enumerated(items) => {
            are_few(1, MAX_ITEMS, items.root.len(), items.additions.len())
        }
        Core::NamedBits(bits) => !bits.is_empty(),
        Core::Sequence(_, components) => are_few_components(components.as_slice()),
        Core::Set(_, components) => are_few_components(components.as_slice()),
        Core::Choice(alternatives) => are_few(
            1,
            MAX_MEMBERS,
            alternatives.root.len(),
            alternatives.additions.len(),
        ),
        _ => true,
    }
}

// ---- additions

/// Whether all components are additions.
fn are_additions(components: &[Component]) -> bool
    ensures { IsTrue result ↔ AllByRecursion (λ c. is_added c ≡ true) (map component_of components.now) }
{
    for i in 0..components.len() {
        if !is_addition(&components[i]) {
            return false;
        }
    }
    true
}

/// Whether a component is in the version brackets with this number.
fn is_of_group(group_number: usize, component: &Component) -> bool
    ensures { IsTrue result ↔ IsOfGroup group_number (component_of component.now) }
{
    match group(&component.presence) {
        Some(other) => other == group_number,
        None => false,
    }
}

/// Whether none of the components is in the version brackets with this number.
fn are_of_others(group_number: usize, components: &[Component]) -> bool
    ensures { IsTrue result
        ↔ AllByRecursion (λ c. IsOfGroup group_number c → ⊥) (map component_of components.now) }
{
    for i in 0..components.len() {
        if is_of_group(group_number, &components[i]) {
            return false;
        }
    }
    true
}

/// Whether the component after this one, if it is in version brackets, is in the same ones, or no later one is.
fn goes_on_or_ends(component: &Component, later: &[Component]) -> bool
    ensures { IsTrue result ↔ AreTogether (component_of component.now) (map component_of later.now) }
{
    match group(&component.presence) {
        Some(number) => match later.first() {
            Some(next) => is_of_group(number, next) || are_of_others(number, later),
            None => true,
        },
        None => true,
    }
}

/// Whether the components in version brackets are adjacent.
fn are_adjacent(components: &[Component]) -> bool
    ensures { IsTrue result ↔ GroupsTogether (map component_of components.now) }
{
    for i in 0..components.len() {
        if !goes_on_or_ends(&components[i], &components[i + 1..]) {
            return false;
        }
    }
    true
}

/// Whether additions come last, those in version brackets adjacent, and there are none without a marker.
fn are_after_marker(extensible: bool, components: &[Component]) -> bool
    ensures { IsTrue result ↔ AreAfterMarker extensible (map component_of components.now) }
{
    let more = additions(components);
    if !are_additions(more) {
        return false;
    }
    if !are_adjacent(more) {
        return false;
    }
    extensible || more.is_empty()
}

/// Whether the additions of a type are where they may be.
pub(crate) fn has_marker(core: &Core) -> bool
    ensures { IsTrue result ↔ HasMarker (kind_of core.now) }
{
    match core {
        Core::Enumerated(items) => items.extensible || items.additions.is_empty(),
        Core::Sequence(extensible, components) => {
            are_after_marker(*extensible, components.as_slice())
        }
        Core::Set(extensible, components) => are_after_marker(*extensible, components.as_slice()),
        Core::Choice(alternatives) => alternatives.extensible || alternatives.additions.is_empty(),
        _ => true,
    }
}

// ---- types of members

/// Whether the types with these numbers are there.
fn are_there(types: &Types, row: &[usize]) -> bool
    ensures { IsTrue result ↔ AllByRecursion (λ u. u < length types.now) row.now }
{
    for i in 0..row.len() {
        if !types.has(TypeId { index: row[i] }) {
            return false;
        }
    }
    true
}

/// Whether the types that a type directly contains are there. `AllocError` comes only if an allocation fails.
pub(crate) fn has_members(alloc: Global, types: &Types, core: &Core) -> Result<bool, AllocError>
    ensures { IfOk result (λ b. IsTrue b
        ↔ AllByRecursion (λ u. u < length types.now) (types_in (kind_of core.now))) }
{
    let row = row_of(alloc, core)?;
    Ok(are_there(types, row.as_slice()))
}

/// Whether there is such a type, and it has a tag.
fn has_tag(types: &Types, id: TypeId) -> bool
    ensures { IsTrue result ↔ HasTag types.now id.index }
{
    types.has(id) && !types.get(id).tags.is_empty()
}

/// Whether the types with these numbers have tags.
fn have_tags(types: &Types, row: &[usize]) -> bool
    ensures { IsTrue result ↔ AllByRecursion (HasTag types.now) row.now }
{
    for i in 0..row.len() {
        if !has_tag(types, TypeId { index: row[i] }) {
            return false;
        }
    }
    true
}

/// Whether the components of a SET or the alternatives of a CHOICE have tags of their own. `AllocError` comes only if
/// an allocation fails.
pub(crate) fn has_own_tags(alloc: Global, types: &Types, core: &Core) -> Result<bool, AllocError>
    ensures { IfOk result (λ b. IsTrue b ↔ HasOwnTags types.now (kind_of core.now)) }
{
    let row = own_row(alloc, core)?;
    Ok(have_tags(types, row.as_slice()))
}
