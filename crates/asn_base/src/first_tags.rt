//! Whether first tags differ where they must (X.680, 25.6.1, 27.3 and 29.3). The first tags of a type are written into
//! one list of numbers, whose members must differ; the time is that of sorting them.

ghost use Rattle.asn_base.specs.Rules.{HasFirstTagsApart, HasOrder, HasOwnTags, HasRunsApart};
ghost use Rattle.asn_base.specs.Seen.{alternative_of, component_of, kind_of};
ghost use Rattle.asn_base.specs.Schemas.{HasTag, TagsAscend};
ghost use Rattle.asn_base.specs.Tags.{AllApart, RunsApart, is_mandatory as is_due};
ghost use Rattle.asn_base.specs.proving.Firsts.{AreChoicesApart, AreOwn, IsHeadBefore, alternative_heads, choice_heads, firsts, flat, heads, in_one, in_runs, key as key_of, number_of};
ghost use Rattle.std.specs.List.{AllByRecursion};
ghost use Rattle.std.specs.Prelude.{◌≡◌, ◌<◌, ◌↔◌, ◌++◌, IfOk, IsTrue, OnOk, if◌then◌else◌, map, suc};

use crate::distinct::are_different;
use crate::graph::own_row;
use crate::list::add;
use crate::order::class_place;
use crate::schema::{Alternative, Component, Core, Presence, TypeId, Types};
use crate::tag::Tag;
use std::alloc::{AllocError, Global};

/// A tag in a run as a number.
fn key(run: usize, tag: Tag) -> u128
    ensures { result ≡ key_of run tag }
{
    (run as u128) * 17_179_869_184
        + (u128::from(class_place(tag.class)) * 4_294_967_296 + tag.number as u128)
}

/// Adds the outermost tag of a type, if it has one.
fn add_head(types: &Types, run: usize, id: TypeId, keys: &mut Vec<u128>) -> Result<(), AllocError>
    ensures { OnOk result (keys.new.items ≡ keys.old.items ++ map (key_of run) (heads types.now id.index)) }
{
    if !types.has(id) {
        return Ok(());
    }
    match types.get(id).tags.first() {
        Some(tag) => add(keys, key(run, *tag)),
        None => Ok(()),
    }
}

/// Adds the outermost tags of the types of alternatives.
fn add_heads(
    types: &Types,
    run: usize,
    alternatives: &[Alternative],
    keys: &mut Vec<u128>,
) -> Result<(), AllocError>
    ensures { OnOk result (keys.new.items ≡ keys.old.items
        ++ map (key_of run) (alternative_heads types.now (map alternative_of alternatives.now))) }
{
    for i in 0..alternatives.len() {
        add_head(types, run, alternatives[i].ty, keys)?;
    }
    Ok(())
}

/// Adds the first tags of an untagged CHOICE.
fn add_choice(
    types: &Types,
    run: usize,
    core: &Core,
    keys: &mut Vec<u128>,
) -> Result<(), AllocError>
    ensures { OnOk result (keys.new.items ≡ keys.old.items
        ++ map (key_of run) (choice_heads types.now (kind_of core.now))) }
{
    match core {
        Core::Choice(alternatives) => {
            add_heads(types, run, alternatives.root.as_slice(), keys)?;
            add_heads(types, run, alternatives.additions.as_slice(), keys)?;
            Ok(())
        }
        _ => Ok(()),
    }
}

/// Adds the first tags of a type.
fn add_firsts(types: &Types, run: usize, id: TypeId, keys: &mut Vec<u128>) -> Result<(), AllocError>
    ensures { OnOk result (keys.new.items ≡ keys.old.items ++ map (key_of run) (firsts types.now id.index)) }
{
    if !types.has(id) {
        return Ok(());
    }
    let resolved = types.get(id);
    match resolved.tags.first() {
        Some(tag) => add(keys, key(run, *tag)),
        None => add_choice(types, run, &resolved.core, keys),
    }
}

/// Whether each value has the component.
fn is_mandatory(component: &Component) -> bool
    ensures { result ≡ is_due (component_of component.now) }
{
    match &component.presence {
        Presence::Mandatory => true,
        _ => false,
    }
}

/// The number of the run of the component after this one.
fn next_run(run: usize, component: &Component) -> usize
    requires { run < 9223372036854775808 }
    ensures { result ≡ if is_due (component_of component.now) then suc run else run }
{
    if is_mandatory(component) {
        return run + 1;
    }
    run
}

/// Adds the first tags of components, each in its run.
fn add_runs(types: &Types, components: &[Component], keys: &mut Vec<u128>) -> Result<(), AllocError>
    ensures { OnOk result (keys.new.items ≡ keys.old.items
        ++ flat types.now (in_runs 0 (map component_of components.now))) }
{
    let mut run = 0;
    for i in 0..components.len() {
        let component = &components[i];
        add_firsts(types, run, component.ty, keys)?;
        run = next_run(run, component);
    }
    Ok(())
}

/// Adds the first tags of the types with these numbers, all in one run.
fn add_row(types: &Types, row: &[usize], keys: &mut Vec<u128>) -> Result<(), AllocError>
    ensures { OnOk result (keys.new.items ≡ keys.old.items ++ flat types.now (in_one row.now)) }
{
    for i in 0..row.len() {
        add_firsts(types, 0, TypeId { index: row[i] }, keys)?;
    }
    Ok(())
}

/// Whether no tag is a first tag of two components of a SET, or of two alternatives. `AllocError` comes only if an
/// allocation fails.
pub(crate) fn are_first_tags_apart(
    alloc: Global,
    types: &Types,
    core: &Core,
) -> Result<bool, AllocError>
    requires own { AreOwn types.now }
    requires tags { HasOwnTags types.now (kind_of core.now) }
    ensures { IfOk result (λ b. IsTrue b ↔ HasFirstTagsApart types.now (kind_of core.now)) }
{
    let row = own_row(alloc, core)?;
    let mut keys = Vec::new(alloc);
    add_row(types, row.as_slice(), &mut keys)?;
    are_different(alloc, keys.as_slice())
}

/// Whether first tags differ in each run of components.
fn are_in_runs_apart(
    alloc: Global,
    types: &Types,
    components: &[Component],
) -> Result<bool, AllocError>
    requires own { AreOwn types.now }
    requires apart { AreChoicesApart types.now }
    ensures { IfOk result (λ b. IsTrue b ↔ RunsApart types.now (map component_of components.now)) }
{
    let mut keys = Vec::new(alloc);
    add_runs(types, components, &mut keys)?;
    are_different(alloc, keys.as_slice())
}

/// Whether first tags differ in each run of a SEQUENCE. `AllocError` comes only if an allocation fails.
pub(crate) fn are_runs_apart(alloc: Global, types: &Types, core: &Core) -> Result<bool, AllocError>
    requires own { AreOwn types.now }
    requires apart { AreChoicesApart types.now }
    ensures { IfOk result (λ b. IsTrue b ↔ HasRunsApart types.now (kind_of core.now)) }
{
    match core {
        Core::Sequence(_, components) => are_in_runs_apart(alloc, types, components.as_slice()),
        _ => Ok(true),
    }
}

/// The outermost tag of a type as a number, 0 if it has none.
fn head_number(types: &Types, id: TypeId) -> u128
    ensures { result ≡ number_of (heads types.now id.index) }
{
    if !types.has(id) {
        return 0;
    }
    match types.get(id).tags.first() {
        Some(tag) => key(0, *tag),
        None => 0,
    }
}

/// Whether the first alternative's outermost tag is before the second's in the canonical order.
fn is_before(types: &Types, first: &Alternative, second: &Alternative) -> bool
    ensures { IsTrue result ↔ IsHeadBefore types.now (alternative_of first.now) (alternative_of second.now) }
{
    head_number(types, first.ty) < head_number(types, second.ty)
}

/// Whether the alternatives are in the canonical order of their tags (X.680, 8.6).
fn are_in_order(types: &Types, alternatives: &[Alternative]) -> bool
    requires { AllByRecursion (λ a. HasTag types.now a.type) (map alternative_of alternatives.now) }
    ensures { IsTrue result ↔ TagsAscend types.now (map alternative_of alternatives.now) }
{
    let last = alternatives.len().saturating_sub(1);
    for i in 0..last {
        if !is_before(types, &alternatives[i], &alternatives[i + 1]) {
            return false;
        }
    }
    true
}

/// Whether the additions of a CHOICE are in the canonical order of their tags.
pub(crate) fn has_order(types: &Types, core: &Core) -> bool
    requires { HasOwnTags types.now (kind_of core.now) }
    ensures { IsTrue result ↔ HasOrder types.now (kind_of core.now) }
{
    match core {
        Core::Choice(alternatives) => are_in_order(types, alternatives.additions.as_slice()),
        _ => true,
    }
}
