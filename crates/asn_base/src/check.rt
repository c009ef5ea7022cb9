//! Whether types are a schema, or which type first breaks a rule.

ghost use Rattle.asn_base.specs.Depths.{AreKnown, AreNumbered, IsReady};
ghost use Rattle.asn_base.specs.Rules.{AllKeep, IsFirstFault, IsFirstToBreak, IsRefused, Keeps, Obeys, place_of};
ghost use Rattle.asn_base.specs.Schemas.{HasValue, IsSchema};
ghost use Rattle.asn_base.specs.Seen.{component_of, kind_of, resolved_of, types_of};
ghost use Rattle.asn_base.specs.proving.Ruling.{FirstBreak, IsByType};
ghost use Rattle.asn_base.specs.declared.rule.SchemaRule.TheVariants.{Defaults, NoCircle};
ghost use Rattle.std.specs.List.{AllByRecursion};
ghost use Rattle.std.specs.Prelude.{◌≡◌, ◌<◌, ◌↔◌, ℕ, IfErr, IfOk, IsTrue, MatchResult, Some, map, slice_get};

use crate::bounds::has_bounds;
use crate::circle::first_back;
use crate::decide::is_value_of;
use crate::depths::found;
use crate::first_tags::{are_first_tags_apart, are_runs_apart, has_order};
use crate::graph::{default_rows, part_rows};
use crate::members::{has_few_members, has_marker, has_members, has_names, has_own_tags};
use crate::numbers::{has_alphabet, has_numbers, is_tagged};
use crate::rule::{SchemaFault, SchemaRule};
use crate::schema::{Component, Core, Presence, Resolved, Schema, Types, components_of};
use std::alloc::{AllocError, Global};

/// The rule at a place in the order of rules.
fn rule_at(place: u8) -> SchemaRule
    requires { place < 15 }
    ensures { place_of result ≡ place }
{
    match place {
        0 => SchemaRule::Tagged,
        1 => SchemaRule::FewTags,
        2 => SchemaRule::Bounds,
        3 => SchemaRule::Alphabet,
        4 => SchemaRule::Count,
        5 => SchemaRule::Numbers,
        6 => SchemaRule::Names,
        7 => SchemaRule::Additions,
        8 => SchemaRule::Members,
        9 => SchemaRule::OwnTags,
        10 => SchemaRule::Order,
        11 => SchemaRule::FirstTags,
        12 => SchemaRule::RunTags,
        13 => SchemaRule::Defaults,
        _ => SchemaRule::NoCircle,
    }
}

/// Whether a type keeps a rule that is decided for one type at a time, if all types keep the rules before it.
fn obeys(
    alloc: Global,
    types: &Types,
    rule: SchemaRule,
    ty: usize,
    resolved: &Resolved,
) -> Result<bool, AllocError>
    requires before { AllKeep types.now (place_of rule) }
    requires by_type { IsByType rule }
    requires is { slice_get types.now ty ≡ Some (resolved_of resolved.now) }
    ensures { IfOk result (λ b. IsTrue b
        ↔ Obeys types.now rule ty resolved.now.tags.items (kind_of resolved.now.core.value)) }
{
    let core: &Core = &resolved.core;
    match rule {
        SchemaRule::Tagged => Ok(is_tagged(resolved)),
        SchemaRule::FewTags => Ok(resolved.tags.len() <= 6),
        SchemaRule::Bounds => has_bounds(alloc, core),
        SchemaRule::Alphabet => Ok(has_alphabet(core)),
        SchemaRule::Count => Ok(has_few_members(core)),
        SchemaRule::Numbers => has_numbers(alloc, core),
        SchemaRule::Names => has_names(alloc, core),
        SchemaRule::Additions => Ok(has_marker(core)),
        SchemaRule::Members => has_members(alloc, types, core),
        SchemaRule::OwnTags => has_own_tags(alloc, types, core),
        SchemaRule::Order => Ok(has_order(types, core)),
        SchemaRule::FirstTags => are_first_tags_apart(alloc, types, core),
        SchemaRule::RunTags => are_runs_apart(alloc, types, core),
        SchemaRule::Defaults | SchemaRule::NoCircle => Ok(true),
    }
}

/// The first type that breaks a rule that is decided for one type at a time.
fn first_disobeying(
    alloc: Global,
    types: &Types,
    rule: SchemaRule,
) -> Result<Option<usize>, AllocError>
    requires before { AllKeep types.now (place_of rule) }
    requires by_type { IsByType rule }
    ensures { IfOk result (FirstBreak types.now rule) }
{
    let list = types.types();
    for ty in 0..list.len() {
        if !obeys(alloc, types, rule, ty, &list[ty])? {
            return Ok(Some(ty));
        }
    }
    Ok(None)
}

/// Whether a component's DEFAULT, if it has one, is a value of its type.
fn has_value(types: &Types, table: &Option<Vec<Vec<u8>>>, component: &Component) -> bool
    requires known { AreKnown types.now 63 table.now }
    requires ready { IsReady types.now table.now }
    ensures { IsTrue result ↔ HasValue types.now (component_of component.now) }
{
    match &component.presence {
        Presence::Default(default) => is_value_of(default, types, table, component.ty),
        _ => true,
    }
}

/// Whether each DEFAULT is a value of its component's type.
fn are_values(types: &Types, table: &Option<Vec<Vec<u8>>>, components: &[Component]) -> bool
    requires known { AreKnown types.now 63 table.now }
    requires ready { IsReady types.now table.now }
    ensures { IsTrue result ↔ AllByRecursion (HasValue types.now) (map component_of components.now) }
{
    for i in 0..components.len() {
        if !has_value(types, table, &components[i]) {
            return false;
        }
    }
    true
}

/// The first type with a DEFAULT that is no value of its component's type, by a table of the levels of defaults.
fn first_wrong(types: &Types, table: &Option<Vec<Vec<u8>>>) -> Option<usize>
    requires known { AreKnown types.now 63 table.now }
    requires ready { IsReady types.now table.now }
    ensures { FirstBreak types.now Defaults result }
{
    let list = types.types();
    for ty in 0..list.len() {
        if !are_values(types, table, components_of(&list[ty].core)) {
            return Some(ty);
        }
    }
    None
}

/// The first type with a DEFAULT that is no value of its component's type. The levels of all defaults are found first,
/// so that no default is read again for each component that may be absent.
fn first_wrong_default(alloc: Global, types: &Types) -> Result<Option<usize>, AllocError>
    requires { AreNumbered types.now }
    ensures { IfOk result (FirstBreak types.now Defaults) }
{
    let table = found(alloc, types)?;
    Ok(first_wrong(types, &table))
}

/// The first type that a component of it with a DEFAULT leads back to.
fn first_circle(alloc: Global, types: &Types) -> Result<Option<usize>, AllocError>
    requires { AllKeep types.now (place_of NoCircle) }
    ensures { IfOk result (FirstBreak types.now NoCircle) }
{
    let parts = part_rows(alloc, types.types())?;
    let defaults = default_rows(alloc, types.types())?;
    first_back(alloc, parts.as_slice(), defaults.as_slice())
}

/// The first type that breaks a rule, if all types keep the rules before it.
fn first_to_break(
    alloc: Global,
    types: &Types,
    rule: SchemaRule,
) -> Result<Option<usize>, AllocError>
    requires { AllKeep types.now (place_of rule) }
    ensures { IfOk result (FirstBreak types.now rule) }
{
    match rule {
        SchemaRule::Defaults => first_wrong_default(alloc, types),
        SchemaRule::NoCircle => first_circle(alloc, types),
        _ => first_disobeying(alloc, types, rule),
    }
}

/// Checks the rules one after the other.
fn checked(alloc: Global, types: &Types) -> Result<(), SchemaFault>
    ensures { MatchResult result (λ _. AllKeep types.now 15) (IsFirstFault types.now) }
{
    for place in 0..15 {
        let rule = rule_at(place);
        match first_to_break(alloc, types, rule) {
            Ok(None) => {}
            Ok(Some(ty)) => return Err(SchemaFault::Broken(rule, ty)),
            Err(_) => return Err(SchemaFault::Memory),
        }
    }
    Ok(())
}

impl Schema {
    /// Returns the schema of these types, or the first rule that one of them breaks, with the number of that type. A
    /// program that makes types itself needs no proof then: it makes each type by `Resolved::of`, with its tags and its
    /// kind, in which types refer to one another by their places in the list, and it checks the list once. The schema
    /// of BOOLEAN alone is `Schema::check(alloc, vec![in alloc; truth]?)`, where `truth` is
    /// `Resolved::of(alloc, vec![in alloc; Tag::of(Class::Universal, 1)]?, Core::Boolean)?`.
    ///
    /// The rules are checked in the order of `SchemaRule`, each for all types. `Memory` comes only if an allocation
    /// fails. The time is that of sorting the names and the first tags of each type, and of reading the DEFAULTs once
    /// for each level of the deepest one.
    pub fn check(alloc: Global, types: Vec<Resolved>) -> Result<Schema, SchemaFault>
        ensures schema { IfOk result (λ s. (s ≡ types_of types.items) × IsSchema (types_of types.items)) }
        ensures refused { IfErr result (IsRefused (types_of types.items)) }
        ensures first { IfErr result (IsFirstFault (types_of types.items)) }
    {
        let kept = Types::of(types);
        match checked(alloc, &kept) {
            Ok(()) => Ok(Schema::of_kept(kept)),
            Err(fault) => Err(fault),
        }
    }
}
