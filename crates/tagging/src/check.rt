//! The check of all types of a table.

ghost use Rattle.std.specs.Prelude.{ℕ, ◌≡◌, ◌<◌, ◌↔◌, List, length, map, IfErr, IfSome, MatchOption, MatchResult, Option, Some, slice_get, IsTrue};
ghost use Rattle.asn_base.specs.declared.tag.Tag.{Tag};
ghost use Rattle.trees.specs.declared.module.TagDefault.{TagDefault};
ghost use Rattle.type_table.specs.Seen.{kind_of, part_of, type_of, types_of};
ghost use Rattle.type_table.specs.Table.{Type', IsWrittenType, IsLinked, tagged};
ghost use Rattle.tagging.specs.First.{Distinct};
ghost use Rattle.tagging.specs.FirstFault.{IsListFault, IsShapeFault, IsTypeBreach, IsFirstOf, NoneInside, written_members};
ghost use Rattle.tagging.specs.proving.Heads.{IsFirstFault};
ghost use Rattle.tagging.specs.proving.Lists.{Collected, tag_lists};
ghost use Rattle.tagging.specs.Tagged.{Bears, BearTags, Breaks, IsTagged};
ghost use Rattle.tagging.specs.proving.Checks.{IsList, AreThere, HasFew, IsNumbered, Suits, SuitsAutomatic, SuitsList, SuitsTag};
ghost use Rattle.tagging.specs.proving.Checks.{IsGood, Checked, OccursAt, BearsHere, BearsAt, NoneBears};
ghost use Rattle.tagging.specs.proving.Reported.{IsImplicitFault, IsMixedFault, IsOwnFault, IsClashFault, IsInsideFault, IsBroken, as_fault};

use crate::automatic::automatic_number;
use crate::columns::Columns;
use crate::first::{FirstTagFault, first_tags, fronts};
use crate::lists::clash;
use crate::path::{Label, has_few, written_outermost};
use limits::AUTOMATIC_NUMBERS;
use std::alloc::Global;
use trees::{Keyword, ListKind, Standing, TagDefault};
use type_table::{ListMember, Shape, TypeNode};

/// A rule that a type can break.
#[derive(Clone, Copy, Debug, PartialEq)]
pub(crate) enum Rule {
    /// At most four tags are written on a type.
    Tags,
    /// The number of an automatic tag is below 2 to the 31.
    TagNumber,
    /// First tags differ where they must.
    TagClash,
    /// The word IMPLICIT comes before no untagged CHOICE.
    ImplicitChoice,
    /// SET components and alternatives have a tag.
    UntaggedChoice,
    /// A list of an AUTOMATIC module whose additions bear written tags has written tags in its root too.
    MixedAutomatic,
}

/// Why types can't be tagged: memory ran out, or this type breaks a rule, at this offset in its module's text.
#[derive(Clone, Copy, Debug, PartialEq)]
pub(crate) enum Fault {
    Memory,
    At(Rule, usize, usize),
}

fn collect(
    alloc: Global,
    columns: &Columns<'_>,
    types: &[TypeNode],
    components: &[ListMember],
) -> Result<Vec<Vec<Label>>, FirstTagFault>
    requires parts { AreThere columns.now.program.types (map part_of components.now) }
    requires types { types_of types.now ≡ columns.now.program.types }
    ensures found { MatchResult result
        (λ v. Collected columns.now.program.types (map part_of components.now) (tag_lists v.items))
        (IsFirstFault columns.now.program.types) }
    ensures first { MatchResult result
        (λ _. NoneInside columns.now.program.types types.now components.now)
        (IsInsideFault columns.now.program.types types.now components.now) }
{
    let mut lists = Vec::new(alloc);
    for place in 0..components.len() {
        let component = &components[place];
        match first_tags(alloc, columns, types, component.ty) {
            Err(fault) => return Err(fault),
            Ok(tags) => match lists.push(tags) {
                Ok(()) => {}
                Err(_) => return Err(FirstTagFault::Memory),
            },
        }
    }
    Ok(lists)
}

/// Whether a member is an addition.
fn is_addition(component: &ListMember) -> bool
    ensures { result ≡ Rattle.tagging.specs.First.is_added_member (part_of component.now).standing }
{
    match component.standing {
        Standing::Root => false,
        Standing::Addition(_) => true,
    }
}

/// Whether a member is an addition, or one of the root, as asked, and bears a tag that is written in the list.
fn bears(columns: &Columns<'_>, component: &ListMember, additions: bool) -> bool
    ensures { IsTrue result ↔ BearsHere columns.now.program.types (part_of component.now) additions }
{
    is_addition(component) == additions && columns.bears_tag(component.ty)
}

/// The first of the additions, or of the root's members, with a tag that is written in the list.
fn bearing(columns: &Columns<'_>, components: &[ListMember], additions: bool) -> Option<usize>
    ensures found { MatchOption result
        (Bears columns.now.program.types (map part_of components.now) additions → ⊥)
        (BearsAt columns.now.program.types (map part_of components.now) additions) }
    ensures first { IfSome result (NoneBears columns.now.program.types (map part_of components.now) additions) }
{
    for place in 0..components.len() {
        if bears(columns, &components[place], additions) {
            return Some(place);
        }
    }
    None
}

/// A list that is checked: its number, its kind, the tag default of its module, and its members.
#[derive(Clone, Copy)]
struct CheckedList<'a> {
    number: usize,
    kind: ListKind,
    default: TagDefault,
    members: &'a [ListMember],
}

/// Checks that a list of an AUTOMATIC module has written tags in its root if its additions bear written tags.
fn check_automatic(columns: &Columns<'_>, list: CheckedList<'_>) -> Result<(), Fault>
    requires there { IsList columns.now.program.types list.number list.kind list.default
        (map part_of list.members.now) }
    ensures found { Checked columns.now.program.types result
        (SuitsAutomatic columns.now.program.types (map part_of list.entry.members.now) list.entry.default) }
    ensures first { IfErr result
        (IsMixedFault columns.now.program.types list.entry.number list.entry.default list.entry.members.now) }
{
    match list.default {
        TagDefault::Explicit | TagDefault::Implicit => Ok(()),
        TagDefault::Automatic => match bearing(columns, list.members, true) {
            None => Ok(()),
            Some(place) => match bearing(columns, list.members, false) {
                Some(_root) => Ok(()),
                None => {
                    let at = list.members[place].name.at;
                    Err(Fault::At(Rule::MixedAutomatic, list.number, at))
                }
            },
        },
    }
}

fn bear_tags(
    alloc: Global,
    columns: &Columns<'_>,
    list: CheckedList<'_>,
) -> Result<(), FirstTagFault>
    requires parts { AreThere columns.now.program.types (map part_of list.members.now) }
    requires there { IsList columns.now.program.types list.number list.kind list.default
        (map part_of list.members.now) }
    ensures found { MatchResult result
        (λ _. BearTags columns.now.program.types list.entry.kind (map part_of list.entry.members.now))
        (IsFirstFault columns.now.program.types) }
    ensures first { IfErr result (IsOwnFault columns.now.program.types list.entry.kind list.entry.members.now) }
{
    match list.kind {
        ListKind::Sequence => Ok(()),
        _ => match fronts(alloc, columns, list.members) {
            Ok(_) => Ok(()),
            Err(fault) => Err(fault),
        },
    }
}

fn fault_of(fault: FirstTagFault) -> Fault
    ensures same { result ≡ as_fault fault }
    ensures found { (ts : List Type') → IsFirstFault ts fault → OccursAt ts result }
{
    match fault {
        FirstTagFault::Memory => Fault::Memory,
        FirstTagFault::Untagged(ty, at) => Fault::At(Rule::UntaggedChoice, ty, at),
    }
}

/// Checks that first tags differ where they must.
fn check_distinct(
    alloc: Global,
    columns: &Columns<'_>,
    types: &[TypeNode],
    list: CheckedList<'_>,
) -> Result<(), Fault>
    requires parts { AreThere columns.now.program.types (map part_of list.members.now) }
    requires there { IsList columns.now.program.types list.number list.kind list.default
        (map part_of list.members.now) }
    requires types { types_of types.now ≡ columns.now.program.types }
    ensures found { Checked columns.now.program.types result
        (Distinct columns.now.program.types list.entry.kind (map part_of list.entry.members.now)) }
    ensures first { MatchResult result
        (λ _. NoneInside columns.now.program.types types.now list.entry.members.now)
        (IsClashFault columns.now.program.types types.now list.entry.number list.entry.kind list.entry.members.now) }
{
    match collect(alloc, columns, types, list.members) {
        Err(fault) => Err(fault_of(fault)),
        Ok(firsts) => match clash(alloc, list.kind, list.members, &firsts) {
            Err(_) => Err(Fault::Memory),
            Ok(None) => Ok(()),
            Ok(Some(later)) => {
                let at = list.members[later].name.at;
                Err(Fault::At(Rule::TagClash, list.number, at))
            }
        },
    }
}

fn check_list(
    alloc: Global,
    columns: &Columns<'_>,
    types: &[TypeNode],
    list: CheckedList<'_>,
) -> Result<(), Fault>
    requires parts { AreThere columns.now.program.types (map part_of list.members.now) }
    requires there { IsList columns.now.program.types list.number list.kind list.default
        (map part_of list.members.now) }
    requires types { types_of types.now ≡ columns.now.program.types }
    ensures found { Checked columns.now.program.types result
        (SuitsList columns.now.program.types list.entry.kind (map part_of list.entry.members.now) list.entry.default) }
    ensures first { MatchResult result
        (λ _. NoneInside columns.now.program.types types.now list.entry.members.now)
        (IsListFault columns.now.program.types types.now list.entry.number list.entry.kind list.entry.default
        list.entry.members.now) }
{
    match check_automatic(columns, list) {
        Err(fault) => Err(fault),
        Ok(()) => match bear_tags(alloc, columns, list) {
            Err(fault) => Err(fault_of(fault)),
            Ok(()) => match check_distinct(alloc, columns, types, list) {
                Err(fault) => Err(fault),
                Ok(()) => Ok(()),
            },
        },
    }
}

fn check_tag(
    columns: &Columns<'_>,
    ty: usize,
    at: usize,
    keyword: Keyword,
    inner: usize,
) -> Result<(), Fault>
    requires there { inner < length columns.now.program.types }
    requires is { (t : Tag) × (d : TagDefault) × (p : Option (ℕ × ℕ)) ×
        IsWrittenType columns.now.program.types ty (tagged t keyword inner) d p }
    ensures found { Checked columns.now.program.types result (SuitsTag columns.now.program.types keyword inner) }
    ensures first { IfErr result (IsImplicitFault columns.now.program.types ty at) }
{
    match keyword {
        Keyword::Absent => Ok(()),
        Keyword::Explicit => Ok(()),
        Keyword::Implicit => match written_outermost(columns, inner) {
            Some(_) => Ok(()),
            None => Err(Fault::At(Rule::ImplicitChoice, ty, at)),
        },
    }
}

fn check_written(
    alloc: Global,
    columns: &Columns<'_>,
    types: &[TypeNode],
    ty: usize,
    written: &TypeNode,
) -> Result<(), Fault>
    requires linked { IsLinked columns.now.program.types }
    requires is { slice_get columns.now.program.types ty ≡ Some (type_of written.now) }
    requires types { types_of types.now ≡ columns.now.program.types }
    ensures found { Checked columns.now.program.types result
        (Suits columns.now.program.types (kind_of written.now.shape) written.now.default) }
    ensures first { MatchResult result
        (λ _. NoneInside columns.now.program.types types.now (written_members written.now.shape))
        (IsShapeFault columns.now.program.types types.now ty written.now.at written.now.default written.now.shape) }
{
    match &written.shape {
        Shape::Simple(_) => Ok(()),
        Shape::Reference(_) => Ok(()),
        Shape::Elements(_, _) => Ok(()),
        Shape::Tagged(_, keyword, inner) => check_tag(columns, ty, written.at, *keyword, *inner),
        Shape::Members(kind, _, components) => {
            let list = CheckedList {
                number: ty,
                kind: *kind,
                default: written.default,
                members: components,
            };
            check_list(alloc, columns, types, list)
        }
    }
}

/// The rule on numbers of tags that a type breaks, if it breaks one.
fn broken(columns: &Columns<'_>, ty: usize) -> Option<Rule>
    requires { ty < length columns.now.program.types }
    ensures found { MatchOption result
        (HasFew columns.now.program.types ty × IsNumbered columns.now.program.types ty)
        (λ r. Breaks columns.now.program.types r ty) }
    ensures first { IfSome result (λ r. IsBroken columns.now.program.types r ty) }
{
    if !has_few(columns, ty) {
        return Some(Rule::Tags);
    }
    match automatic_number(columns, ty) {
        Some(number) if number >= AUTOMATIC_NUMBERS => Some(Rule::TagNumber),
        _ => None,
    }
}

fn check_type(
    alloc: Global,
    columns: &Columns<'_>,
    types: &[TypeNode],
    ty: usize,
    written: &TypeNode,
) -> Result<(), Fault>
    requires there { ty < length columns.now.program.types }
    requires linked { IsLinked columns.now.program.types }
    requires is { slice_get columns.now.program.types ty ≡ Some (type_of written.now) }
    requires types { types_of types.now ≡ columns.now.program.types }
    ensures found { Checked columns.now.program.types result (IsGood columns.now.program.types ty) }
    ensures first { MatchResult result
        (λ _. NoneInside columns.now.program.types types.now (written_members written.now.shape))
        (IsTypeBreach columns.now.program.types types.now ty written.now) }
{
    match broken(columns, ty) {
        Some(rule) => Err(Fault::At(rule, ty, written.at)),
        None => match check_written(alloc, columns, types, ty, written) {
            Err(fault) => Err(fault),
            Ok(()) => Ok(()),
        },
    }
}

/// Checks whether all types of a table, which are written so, can be tagged; the fault is that of the first type that
/// breaks a rule.
pub(crate) fn check(alloc: Global, columns: &Columns<'_>, types: &[TypeNode]) -> Result<(), Fault>
    requires linked { IsLinked columns.now.program.types }
    requires types { types_of types.now ≡ columns.now.program.types }
    ensures found { Checked columns.now.program.types result (IsTagged columns.now.program.types) }
    ensures first { IfErr result (IsFirstOf columns.now.program.types types.now) }
{
    for ty in 0..types.len() {
        match check_type(alloc, columns, types, ty, &types[ty]) {
            Ok(()) => {}
            Err(fault) => return Err(fault),
        }
    }
    Ok(())
}
