//! Checks all types of a table for what extension markers require.

ghost use Rattle.std.specs.Prelude.{◌≡◌, ◌<◌, ℕ, Some, length, map, option_map, slice_get, IfOk, MatchOption, MatchResult};
ghost use Rattle.std.specs.Global.{Global as Global'};
ghost use Rattle.std.specs.Prelude.{Box as Box'};
ghost use Rattle.trees.specs.declared.types.EnumeratedSyntax.{EnumeratedSyntax as EnumeratedSyntax'};
ghost use Rattle.trees.specs.declared.types.Simple.TheVariants as simples;
ghost use Rattle.type_table.specs.Items.{addition_numbers};
ghost use Rattle.type_table.specs.Lists.{AreSound, IsSoundEnumeration};
ghost use Rattle.type_table.specs.Seen.{part_of, type_of, types_of, root_items, more_of};
ghost use Rattle.additions.specs.declared.check.Rule.TheVariants.{AdditionOrder as AdditionOrder'};
ghost use Rattle.additions.specs.Additions.{KeepAdditions, KeepsAt};
ghost use Rattle.additions.specs.proving.Reported.{IsFirstOf};
ghost use Rattle.additions.specs.proving.Checks.{IsListAt, KeepBefore, BreaksListFirst, AscendBefore, FallsFirst};
ghost use Rattle.additions.specs.proving.Checks.{BreaksFirst, IsItemAt, IsMemberAt, IsNamedAt};

use crate::items::items_break;
use crate::members::list_breaks;
use std::alloc::{AllocError, Global};
use tagging::Tagged;
use trees::{EnumeratedItem, EnumeratedSyntax, ListKind, Simple};
use type_table::{ListMember, Shape, TypeNode};

/// The rules that a member or an item can break.
#[derive(Clone, Copy, Debug, PartialEq)]
pub(crate) enum Rule {
    /// Additions come after the marker and end the list; the members of version brackets are adjacent.
    MarkerPlace,
    /// Additions ascend: to an enumeration by number, to a CHOICE by tag.
    AdditionOrder,
    /// An addition has no DEFAULT.
    DefaultAddition,
}

/// The rule that is broken, and the number of the member, or of the addition of an enumeration, that breaks it.
#[derive(Clone, Copy, Debug)]
pub(crate) struct Broken {
    pub rule: Rule,
    pub place: usize,
}

/// What is wrong: an allocation failed, or this type breaks the rule at this place of the text.
#[derive(Clone, Copy, Debug)]
pub(crate) enum Fault {
    Memory,
    At(Rule, usize, usize),
}

/// The enumeration that a type is, if it is one.
fn items_in(simple: &Simple) -> Option<&Box<EnumeratedSyntax>>
    ensures { MatchOption result
        ((g : Box' EnumeratedSyntax' Global') → simple.now ≡ simples.Enumerated g → ⊥)
        (λ g. simple.now ≡ simples.Enumerated g.now) }
{
    match simple {
        Simple::Enumerated(given) => Some(given),
        Simple::Boolean | Simple::Integer(_) | Simple::BitString(_) => None,
        Simple::OctetString | Simple::Null | Simple::ObjectIdentifier => None,
        Simple::RelativeOid | Simple::Utf8String | Simple::Restricted(_) => None,
    }
}

/// The place where the name of an item is written.
fn name_of_item(items: &[EnumeratedItem], number: usize) -> usize
    requires { number < length items.now }
    ensures { IsItemAt (Some items.now) number result }
{
    items[number].name.at
}

/// The place where the name of a member is written.
fn name_of_member(components: &[ListMember], number: usize) -> usize
    requires { number < length components.now }
    ensures { IsMemberAt components.now number result }
{
    components[number].name.at
}

/// The place where the name of an addition of an enumeration is written.
fn item_at(given: &EnumeratedSyntax, number: usize) -> usize
    requires { number < length (more_of given.now) }
    ensures { IsItemAt (option_map (λ is. is.items) given.now.additions) number result }
{
    match &given.additions {
        None => unreachable!(),
        Some(items) => name_of_item(items, number),
    }
}

/// The first member of a list that breaks a rule, and where its name is written.
fn in_members(
    alloc: Global,
    tagged: &Tagged<'_>,
    kind: ListKind,
    marker: bool,
    components: &[ListMember],
) -> Result<Option<(Broken, usize)>, AllocError>
    requires { (list : ℕ) × IsListAt tagged.now.program.types list kind marker (map part_of components.now) }
    ensures { IfOk result (λ o. MatchOption o
        (KeepBefore tagged.now.program.types kind marker (map part_of components.now) (length components.now))
        (λ b. BreaksListFirst tagged.now.program.types kind marker (map part_of components.now) b.0
        × IsMemberAt components.now b.0.place b.1)) }
{
    let first = list_breaks(alloc, tagged, kind, marker, components)?;
    match first {
        None => Ok(None),
        Some(broken) => {
            let at = name_of_member(components, broken.place);
            Ok(Some((broken, at)))
        }
    }
}

/// The first item of an enumeration that breaks a rule, and where its name is written.
fn in_items(alloc: Global, given: &EnumeratedSyntax) -> Result<Option<(Broken, usize)>, AllocError>
    requires { IsSoundEnumeration (root_items given.now) (more_of given.now) }
    ensures { IfOk result (λ o. MatchOption o
        (AscendBefore (addition_numbers (root_items given.now) (more_of given.now)) (length (more_of given.now)))
        (λ b. (b.0.rule ≡ AdditionOrder')
        × FallsFirst (addition_numbers (root_items given.now) (more_of given.now)) b.0.place
        × IsItemAt (option_map (λ is. is.items) given.now.additions) b.0.place b.1)) }
{
    let first = items_break(alloc, given)?;
    match first {
        None => Ok(None),
        Some(place) => {
            let rule = Rule::AdditionOrder;
            let at = item_at(given, place);
            Ok(Some((Broken { rule, place }, at)))
        }
    }
}

/// The first place of a type that breaks a rule, and where its name is written, or None if no place does.
fn type_breaks(
    alloc: Global,
    tagged: &Tagged<'_>,
    ty: usize,
    written: &TypeNode,
) -> Result<Option<(Broken, usize)>, AllocError>
    requires is { slice_get tagged.now.program.types ty ≡ Some (type_of written.now) }
    requires sound { AreSound tagged.now.program.types }
    ensures { IfOk result (λ o. MatchOption o
        ((n : ℕ) → KeepsAt tagged.now.program.types ty n)
        (λ b. BreaksFirst tagged.now.program.types ty b.0 × IsNamedAt written.now.shape b.0.place b.1)) }
{
    match &written.shape {
        Shape::Members(kind, marker, components) => {
            in_members(alloc, tagged, *kind, *marker, components)
        }
        Shape::Simple(simple) => match items_in(simple) {
            None => Ok(None),
            Some(given) => in_items(alloc, given),
        },
        Shape::Reference(_) => Ok(None),
        Shape::Tagged(_, _, _) => Ok(None),
        Shape::Elements(_, _) => Ok(None),
    }
}

/// Whether all of these types are as extension markers require; if not, the fault is the first broken rule.
fn check_all(alloc: Global, tagged: &Tagged<'_>, types: &[TypeNode]) -> Result<(), Fault>
    requires types { types_of types.now ≡ tagged.now.program.types }
    requires sound { AreSound tagged.now.program.types }
    ensures { MatchResult result
        (λ _. KeepAdditions tagged.now.program.types)
        (IsFirstOf tagged.now.program.types types.now) }
{
    for ty in 0..types.len() {
        match type_breaks(alloc, tagged, ty, &types[ty]) {
            Err(_) => return Err(Fault::Memory),
            Ok(Some((broken, at))) => return Err(Fault::At(broken.rule, ty, at)),
            Ok(None) => {}
        }
    }
    Ok(())
}

/// Whether all types are as extension markers require; if not, the fault is the first broken rule.
pub(crate) fn check(alloc: Global, tagged: &Tagged<'_>) -> Result<(), Fault>
    requires sound { AreSound tagged.now.program.types }
    ensures { MatchResult result
        (λ _. KeepAdditions tagged.now.program.types)
        (IsFirstOf tagged.now.program.types tagged.now.types) }
{
    check_all(alloc, tagged, tagged.linked().types())
}
