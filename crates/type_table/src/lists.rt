//! The rules for lists in written types: names and numbers are distinct, and no limit is passed (X.680, 19.5, 19.6,
//! 20.3 to 20.6, 22.4, 25.7, 27.3 and 29.3).

ghost use Rattle.std.specs.Prelude.{ℕ, ℤ, Bool, ◌≡◌, ◌<◌, ◌≤◌, ◌+◌, ◌++◌, ◌∷◌, [], Some, IfOk, IfErr, IfSome, List, OnOk, MatchOption, MatchResult, length, map, slice_get};
ghost use Rattle.trees.specs.Values.{Name, name_at};
ghost use Rattle.trees.specs.Types.{numbered_name, bit_of, item_of, plain_of, an_integer, a_bit_string, an_enumerated};
ghost use Rattle.trees.specs.declared.types.ListKind.{ListKind as Kinds};
ghost use Rattle.names.specs.declared.fault.Limit.TheVariants as limits';
ghost use Rattle.names.specs.First.{IsTwiceAt};
ghost use Rattle.names.specs.Modules.{OccursIn, OccursTwice, AreDifferent};
ghost use Rattle.names.specs.proving.Gathering.{IsTaken, IsRepeated};
ghost use Rattle.type_table.specs.FirstInList.{Placed, IsLimitAt, ReportsSecond, ReportsPassed};
ghost use Rattle.type_table.specs.FirstInList.{IsFirstNumber, IsFirstBit, IsFirstItem, IsFirstMember, IsFirstPlain, IsFirstInList};
ghost use Rattle.type_table.specs.FirstInList.{HasFewItems, IsPassedItem, IsItemNumber, IsPastMember, all_names, all_places, item_places, member_places, members_named};
ghost use Rattle.type_table.specs.Items.{numbers_of};
ghost use Rattle.type_table.specs.Lists.{AreWithinLimit, IsSoundPlain, IsSoundKind, root_count, addition_count, in_root, in_additions};
ghost use Rattle.type_table.specs.Seen.{part_of, kind_of, root_items, after_marker, more_of};
ghost use Rattle.type_table.specs.Table.{Part, simple, members as list_of};
ghost use Rattle.type_table.specs.proving.Checks.{texts, ReportsLimit, ReportsName, IsAgain, IsNumberFault, IsKindFault};
ghost use Rattle.type_table.specs.proving.Sets.{Puts, IsSetOf};

use crate::items::{NumberFault, additions, item_numbers};
use crate::table::{ListMember, Shape};
use indexmap::IndexSet;
use limits::{MAX_ADDITIONS, MAX_ITEMS, MAX_MEMBERS};
use names::fault::source_location;
use names::{Limit, NameFault, NameHasher};
use std::alloc::{AllocError, Global};
use std::collections::BTreeSet;
use trees::{At, EnumeratedItem, EnumeratedSyntax, NamedBit, NamedNumber, Simple, Standing};

/// The fault `Twice` for a name that, or whose number, is in a list already. `Memory` only if an allocation fails.
fn twice(alloc: Global, within: &str, name: &At<String>) -> NameFault
    ensures name { ReportsName within.now (name_at name.now) result }
    ensures at { IsTwiceAt name.now.at result }
{
    match source_location(alloc, within, name.it.as_str(), name.at) {
        Ok(source_location) => NameFault::Twice(source_location),
        Err(_) => NameFault::Memory,
    }
}

/// The fault `Limit` for a limit that an assignment passes. `Memory` only if an allocation fails.
fn passed(alloc: Global, limit: Limit, within: &str, assigns: &str, at: usize) -> NameFault
    ensures limit { ReportsLimit limit within.now assigns.now result }
    ensures at { IsLimitAt at result }
{
    match source_location(alloc, within, assigns, at) {
        Ok(source_location) => NameFault::Limit(limit, source_location),
        Err(_) => NameFault::Memory,
    }
}

/// Adds a name. `Twice`: the name is there already. `Memory`: an allocation failed.
fn name_once(
    alloc: Global,
    within: &str,
    name: &At<String>,
    names: &mut IndexSet<String, NameHasher>,
) -> Result<(), NameFault>
    ensures added { OnOk result (texts names.new.keys ≡ texts names.old.keys ++ name_at name.now ∷ []) }
    ensures fresh { OnOk result (OccursIn (texts names.old.keys) (name_at name.now) → ⊥) }
    ensures fault { IfErr result (IsTaken within.now (name_at name.now) (texts names.old.keys)) }
    ensures at { IfErr result (IsTwiceAt name.now.at) }
{
    let text = name.it.as_str();
    if names.contains(text) {
        return Err(NameFault::Twice(source_location(alloc, within, text, name.at)?));
    }
    names.insert(String::from_str(alloc, text)?)?;
    Ok(())
}

/// Adds the number of a name. `Twice`: the number is there already. `Memory`: an allocation failed.
fn number_once(
    alloc: Global,
    within: &str,
    name: &At<String>,
    number: i128,
    numbers: &mut BTreeSet<i128>,
) -> Result<(), NameFault>
    ensures added { OnOk result (Puts numbers.old.keys numbers.new.keys number) }
    ensures fresh { OnOk result (OccursIn numbers.old.keys number → ⊥) }
    ensures fault { IfErr result (IsNumberFault within.now (name_at name.now) number numbers.old.keys) }
    ensures at { IfErr result (IsTwiceAt name.now.at) }
{
    if numbers.contains(&number) {
        return Err(NameFault::Twice(source_location(alloc, within, name.it.as_str(), name.at)?));
    }
    numbers.insert(number)?;
    Ok(())
}

/// Adds the place of a named bit. `Twice`: the place is there already. `Memory`: an allocation failed.
fn place_once(
    alloc: Global,
    within: &str,
    name: &At<String>,
    place: u128,
    places: &mut BTreeSet<u128>,
) -> Result<(), NameFault>
    ensures added { OnOk result (Puts places.old.keys places.new.keys place) }
    ensures fresh { OnOk result (OccursIn places.old.keys place → ⊥) }
    ensures fault { IfErr result (IsNumberFault within.now (name_at name.now) place places.old.keys) }
    ensures at { IfErr result (IsTwiceAt name.now.at) }
{
    if places.contains(&place) {
        return Err(NameFault::Twice(source_location(alloc, within, name.it.as_str(), name.at)?));
    }
    places.insert(place)?;
    Ok(())
}

/// A hasher into which the names of these numbers were put.
fn number_hasher(given: &[NamedNumber]) -> NameHasher {
    let mut hasher = NameHasher::new();
    for item in given {
        hasher.put(item.name.it.as_str());
    }
    hasher
}

/// A hasher into which the names of these bits were put.
fn bit_hasher(given: &[NamedBit]) -> NameHasher {
    let mut hasher = NameHasher::new();
    for item in given {
        hasher.put(item.name.it.as_str());
    }
    hasher
}

/// Checks that named numbers have distinct names and distinct numbers (X.680, 19.5 and 19.6).
fn named_numbers(alloc: Global, within: &str, given: &[NamedNumber]) -> Result<(), NameFault>
    ensures good { OnOk result (IsSoundPlain (an_integer (map numbered_name given.now))) }
    ensures fault { (assigns : Name) →
        IfErr result (IsKindFault within.now assigns (simple (an_integer (map numbered_name given.now)))) }
    ensures first { IfErr result (IsFirstNumber within.now given.now) }
{
    let mut names = IndexSet::with_hasher(alloc, number_hasher(given));
    let mut numbers = BTreeSet::new(alloc);
    for item in given {
        match name_once(alloc, within, &item.name, &mut names) {
            Ok(()) => {}
            Err(fault) => return Err(fault),
        }
        match number_once(alloc, within, &item.name, item.number, &mut numbers) {
            Ok(()) => {}
            Err(fault) => return Err(fault),
        }
    }
    Ok(())
}

/// Checks that named bits have distinct names and distinct places, of which none passes the limit (X.680, 22.4).
fn named_bits(
    alloc: Global,
    within: &str,
    assigns: &str,
    given: &[NamedBit],
) -> Result<(), NameFault>
    ensures good { OnOk result (IsSoundPlain (a_bit_string (map bit_of given.now))) }
    ensures fault { IfErr result
        (IsKindFault within.now assigns.now (simple (a_bit_string (map bit_of given.now)))) }
    ensures first { IfErr result (IsFirstBit within.now assigns.now given.now) }
{
    let mut names = IndexSet::with_hasher(alloc, bit_hasher(given));
    let mut places = BTreeSet::new(alloc);
    for item in given {
        match name_once(alloc, within, &item.name, &mut names) {
            Ok(()) => {}
            Err(fault) => return Err(fault),
        }
        if item.place > 65535 {
            return Err(passed(alloc, Limit::NamedBit, within, assigns, item.name.at));
        }
        match place_once(alloc, within, &item.name, item.place, &mut places) {
            Ok(()) => {}
            Err(fault) => return Err(fault),
        }
    }
    Ok(())
}

/// Checks that there are at most 1,024 root items and at most 64 additions.
fn few_items(
    alloc: Global,
    within: &str,
    assigns: &str,
    given: &EnumeratedSyntax,
) -> Result<(), NameFault>
    ensures root { OnOk result (length (root_items given.now) ≤ 1024) }
    ensures more { OnOk result (length (more_of given.now) ≤ 64) }
    ensures fault { IfErr result
        (IsKindFault within.now assigns.now (simple (an_enumerated (root_items given.now) (after_marker given.now)))) }
    ensures first { IfErr result (IsPassedItem within.now assigns.now given.now) }
{
    if given.root.len() > MAX_ITEMS {
        let place = given.root[MAX_ITEMS].name.at;
        return Err(passed(alloc, Limit::Items, within, assigns, place));
    }
    let more = additions(given);
    if more.len() > MAX_ADDITIONS {
        let place = more[MAX_ADDITIONS].name.at;
        return Err(passed(alloc, Limit::Items, within, assigns, place));
    }
    Ok(())
}

/// Adds the names of items. `Twice`: a name is there already. `Memory`: an allocation failed.
fn item_names(
    alloc: Global,
    within: &str,
    items: &[EnumeratedItem],
    names: &mut IndexSet<String, NameHasher>,
) -> Result<(), NameFault>
    requires distinct { AreDifferent (texts names.old.keys) }
    ensures added { OnOk result
        (texts names.new.keys ≡ texts names.old.keys ++ map (λ i. i.0) (map item_of items.now)) }
    ensures distinct { OnOk result (AreDifferent (texts names.new.keys)) }
    ensures fault { IfErr result
        (IsRepeated within.now (texts names.old.keys ++ map (λ i. i.0) (map item_of items.now))) }
    ensures first { (before : List Placed) →
        length before ≡ length (texts names.old.keys) →
        IfErr result (ReportsSecond within.now (before ++ item_places items.now)
        (texts names.old.keys ++ map (λ i. i.0) (map item_of items.now)) (λ i. Unit {0})) }
{
    for item in items {
        match name_once(alloc, within, &item.name, names) {
            Ok(()) => {}
            Err(fault) => return Err(fault),
        }
    }
    Ok(())
}

/// The place of a number that is also at an earlier place, or None if all numbers are distinct.
fn first_again(alloc: Global, numbers: &[i128]) -> Result<Option<usize>, AllocError>
    ensures again { IfOk result (λ o. MatchOption o
        (AreDifferent numbers.now)
        (λ i. (z : ℤ) × (slice_get numbers.now i ≡ Some z) × OccursTwice numbers.now z)) }
    ensures first { IfOk result (λ o. IfSome o (λ i. IsAgain numbers.now i)) }
{
    let mut before = BTreeSet::new(alloc);
    for i in 0..numbers.len() {
        let number = numbers[i];
        if before.contains(&number) {
            return Ok(Some(i));
        }
        before.insert(number)?;
    }
    Ok(None)
}

/// The name of the item at this place.
fn name_at_place(items: &[EnumeratedItem], number: usize) -> &At<String>
    requires { number < length items.now }
    ensures name { slice_get (map (λ i. i.0) (map item_of items.now)) number ≡ Some (name_at result.now) }
    ensures place { slice_get (item_places items.now) number ≡ Some result.now }
{
    let item = &items[number];
    &item.name
}

/// The name of the item at this place, where first the root items and then the additions are counted from 0.
fn item_name(given: &EnumeratedSyntax, number: usize) -> &At<String>
    requires { number < length (root_items given.now ++ more_of given.now) }
    ensures name { slice_get (all_names given.now) number ≡ Some (name_at result.now) }
    ensures place { slice_get (all_places given.now) number ≡ Some result.now }
{
    let count = given.root.len();
    if number < count {
        name_at_place(&given.root, number)
    } else {
        name_at_place(additions(given), number - count)
    }
}

/// Checks that the numbers of items are distinct, those that aren't written included (X.680, 20.4 to 20.6).
fn item_numbers_once(
    alloc: Global,
    within: &str,
    assigns: &str,
    given: &EnumeratedSyntax,
) -> Result<(), NameFault>
    ensures distinct { OnOk result (AreDifferent (numbers_of (root_items given.now) (more_of given.now))) }
    ensures limit { OnOk result (AreWithinLimit (numbers_of (root_items given.now) (more_of given.now))) }
    ensures fault { IfErr result
        (IsKindFault within.now assigns.now (simple (an_enumerated (root_items given.now) (after_marker given.now)))) }
    ensures first { HasFewItems given.now →
        AreDifferent (all_names given.now) →
        IfErr result (IsItemNumber within.now assigns.now given.now) }
{
    match item_numbers(alloc, given) {
        Ok(numbers) => match first_again(alloc, &numbers) {
            Ok(None) => Ok(()),
            Ok(Some(i)) => Err(twice(alloc, within, item_name(given, i))),
            Err(_) => Err(NameFault::Memory),
        },
        Err(NumberFault::Memory) => Err(NameFault::Memory),
        Err(NumberFault::TooGreat(i)) => {
            let place = name_at_place(additions(given), i).at;
            Err(passed(alloc, Limit::Integer, within, assigns, place))
        }
    }
}

/// Checks that the items of an ENUMERATED have distinct names and distinct numbers (X.680, 20.3 to 20.6).
fn enumerated(
    alloc: Global,
    within: &str,
    assigns: &str,
    given: &EnumeratedSyntax,
) -> Result<(), NameFault>
    ensures good { OnOk result (IsSoundPlain (an_enumerated (root_items given.now) (after_marker given.now))) }
    ensures fault { IfErr result
        (IsKindFault within.now assigns.now (simple (an_enumerated (root_items given.now) (after_marker given.now)))) }
    ensures first { IfErr result (IsFirstItem within.now assigns.now given.now) }
{
    match few_items(alloc, within, assigns, given) {
        Ok(()) => {}
        Err(fault) => return Err(fault),
    }
    // There are few names, so it does no harm if they collide.
    let mut names = IndexSet::with_hasher(alloc, NameHasher::new());
    match item_names(alloc, within, &given.root, &mut names) {
        Ok(()) => {}
        Err(fault) => return Err(fault),
    }
    match item_names(alloc, within, additions(given), &mut names) {
        Ok(()) => {}
        Err(fault) => return Err(fault),
    }
    match item_numbers_once(alloc, within, assigns, given) {
        Ok(()) => Ok(()),
        Err(fault) => Err(fault),
    }
}

/// How many members of the root and how many additions were counted.
#[derive(Drop)]
struct Members {
    root: usize,
    more: usize,
}

/// Counts one more member, in the root or as an addition.
fn count_member(standing: Standing, counted: &mut Members)
    requires root { counted.old.root ≤ 256 }
    requires more { counted.old.more ≤ 64 }
    ensures root { counted.new.root ≡ in_root standing + counted.old.root }
    ensures more { counted.new.more ≡ in_additions standing + counted.old.more }
{
    match standing {
        Standing::Root => counted.root += 1,
        Standing::Addition(_) => counted.more += 1,
    }
}

/// Checks that there are at most 256 members in the root and at most 64 additions, those in version brackets included.
fn few_members(
    alloc: Global,
    within: &str,
    assigns: &str,
    given: &[ListMember],
) -> Result<(), NameFault>
    ensures root { OnOk result (root_count (map part_of given.now) ≤ 256) }
    ensures more { OnOk result (addition_count (map part_of given.now) ≤ 64) }
    ensures fault { (l : Kinds) (m : Bool) →
        IfErr result (IsKindFault within.now assigns.now (list_of l m (map part_of given.now))) }
    ensures first { IfErr result (ReportsPassed limits'.Members within.now assigns.now (member_places given.now)
        (IsPastMember given.now)) }
{
    let mut counted = Members { root: 0, more: 0 };
    for component in given {
        let place = component.name.at;
        count_member(component.standing, &mut counted);
        if counted.root > MAX_MEMBERS {
            return Err(passed(alloc, Limit::Members, within, assigns, place));
        }
        if counted.more > MAX_ADDITIONS {
            return Err(passed(alloc, Limit::Members, within, assigns, place));
        }
    }
    Ok(())
}

/// Checks that the members of a list have distinct identifiers (X.680, 25.7, 27.3 and 29.3).
fn member_names(alloc: Global, within: &str, given: &[ListMember]) -> Result<(), NameFault>
    ensures distinct { OnOk result (AreDifferent (map (λ (c : Part). c.name) (map part_of given.now))) }
    ensures fault { IfErr result (IsRepeated within.now (map (λ (c : Part). c.name) (map part_of given.now))) }
    ensures first { IfErr result
        (ReportsSecond within.now (member_places given.now) (members_named given.now) (λ i. Unit {0})) }
{
    // There are few names, so it does no harm if they collide.
    let mut names = IndexSet::with_hasher(alloc, NameHasher::new());
    for component in given {
        match name_once(alloc, within, &component.name, &mut names) {
            Ok(()) => {}
            Err(fault) => return Err(fault),
        }
    }
    Ok(())
}

/// Checks that no limit on the members of a list is passed and that their identifiers are distinct.
fn list_members(
    alloc: Global,
    within: &str,
    assigns: &str,
    given: &[ListMember],
) -> Result<(), NameFault>
    ensures good { (l : Kinds) (m : Bool) → OnOk result (IsSoundKind (list_of l m (map part_of given.now))) }
    ensures fault { (l : Kinds) (m : Bool) →
        IfErr result (IsKindFault within.now assigns.now (list_of l m (map part_of given.now))) }
    ensures first { IfErr result (IsFirstMember within.now assigns.now given.now) }
{
    match few_members(alloc, within, assigns, given) {
        Ok(()) => {}
        Err(fault) => return Err(fault),
    }
    match member_names(alloc, within, given) {
        Ok(()) => Ok(()),
        Err(fault) => Err(fault),
    }
}

/// Checks the list of named numbers, named bits or items of a type that holds no other type.
fn simple_list(alloc: Global, within: &str, assigns: &str, given: &Simple) -> Result<(), NameFault>
    ensures good { OnOk result (IsSoundPlain (plain_of given.now)) }
    ensures fault { IfErr result (IsKindFault within.now assigns.now (simple (plain_of given.now))) }
    ensures first { IfErr result (IsFirstPlain within.now assigns.now given.now) }
{
    match given {
        Simple::Integer(numbers) => named_numbers(alloc, within, numbers),
        Simple::BitString(bits) => named_bits(alloc, within, assigns, bits),
        Simple::Enumerated(items) => enumerated(alloc, within, assigns, items),
        Simple::Boolean => Ok(()),
        Simple::OctetString => Ok(()),
        Simple::Null => Ok(()),
        Simple::ObjectIdentifier => Ok(()),
        Simple::RelativeOid => Ok(()),
        Simple::Utf8String => Ok(()),
        Simple::Restricted(_) => Ok(()),
    }
}

/// Checks the list of a type, if it has one. `within` is the name of the module, and `assigns` that of the assignment.
///
/// `Twice`: a name or a number is in the list twice. `Limit`: the list passes a limit. `Memory`: an allocation failed.
pub fn sound_shape(
    alloc: Global,
    within: &str,
    assigns: &str,
    shape: &Shape,
) -> Result<(), NameFault>
    ensures sound { MatchResult result
        (λ _. IsSoundKind (kind_of shape.now))
        (IsKindFault within.now assigns.now (kind_of shape.now)) }
    ensures first { IfErr result (IsFirstInList within.now assigns.now shape.now) }
{
    match shape {
        Shape::Simple(given) => simple_list(alloc, within, assigns, given),
        Shape::Members(_, _, given) => list_members(alloc, within, assigns, given),
        Shape::Reference(_) => Ok(()),
        Shape::Tagged(_, _, _) => Ok(()),
        Shape::Elements(_, _) => Ok(()),
    }
}
