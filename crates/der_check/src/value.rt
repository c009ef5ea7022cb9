//! Values, by the routines of their types.

ghost use Rattle.asn_base.specs.Abstract.{AbstractValue, Row, fields, list, row_of_options};
ghost use Rattle.asn_base.specs.Types.{Alternative, Component, Kind};
ghost use Rattle.codec_code.specs.Routines.{choice_of, id_of};
ghost use Rattle.encodings.specs.Leaves.{plain};
ghost use Rattle.encodings.specs.declared.leaf_kind.LeafKind.{LeafKind as LeafKind'};
ghost use Rattle.codec_code.specs.declared.step.Step.TheVariants.{Leaf};
ghost use Rattle.encodings.specs.Contents.{Contents};
ghost use Rattle.encodings.specs.Orders.{Ascending, AtMost};
ghost use Rattle.der_check.specs.Units.{AreUnits};
ghost use Rattle.codec_code.specs.declared.step.Step.{Step as Step'};
ghost use Rattle.encodings.specs.Encoding.{Elements, ContentsEncode, EncodesTo};
ghost use Rattle.encodings.specs.Reading.{Encodes};
ghost use Rattle.encodings.specs.Rules.{Basic, Distinguished};
ghost use Rattle.std.specs.Prelude.{◌≡◌, ◌↔◌, ◌∷◌, ◌++◌, ◌<◌, ◌≤◌, IfOk, IfSome, IsTrue, List, MatchOption, MatchResult, None, Some as Some', false, length, option_map, slice_get, ℕ};
ghost use Rattle.views.specs.Tree.{element_values, value_of};
ghost use Rattle.der_check.specs.Broken.{Breaks, ContentsBreak, MemberBreaks, PrimitiveBreaks};
ghost use Rattle.der_check.specs.declared.rule.RuleOfDer.{RuleOfDer as Rule'};
ghost use Rattle.der_check.specs.Strict.{ComesFirst, ContentsGiven, Decides, ElementsBreak, ElementsGiven, FallsAt, IsAmong, IsFound, IsRefused, Judges, MemberBy, MemberGiven, PartBreaks, PartBreaksIn, PartBy, PartGiven, SequenceBreaks, SequenceBy, SequenceGiven, SetBreaks, SetBy, SetGiven, ValueGiven, begins_ranked, components_of, element_type as element_type', form_of};

use crate::default::is_default;
use crate::fields::next_component;
use crate::heads::within_heads;
use crate::law::lemma_broken;
use crate::leaf::{is_strict_leaf, leaf_breach};
use crate::order::first_fall;
use crate::quick::quick_steps;
use crate::refusal::{Judge, NO_VALUE, Refusal, Site, at_distance, order_of, so_far, with_fall};
use crate::rule::{Breach, RuleOfDer};
use crate::sets::{do_climb, field_at, find_first};
use crate::units::{both, distance, next_encoding};
use asn_base::law::{lemma_levels_grow, lemma_sameness};
use asn_base::schema::TypeId;
use codec_code::{Code, Coding, Step};
use encodings::{der_laws, header_laws, reading_laws, schema_laws};
use limits::MAX_LEVELS;
use std::alloc::{AllocError, Global};
use views::{MemberRefs, ValueKind, ValueRef};

/// Whether the steps begin with a component of a SET.
#[inline(always)]
pub(crate) fn is_ranked(steps: &[Step]) -> bool
    ensures { result ≡ begins_ranked steps.now }
{
    match steps.split_first() {
        Some((Step::SetComponent(_, _), _)) => true,
        _ => false,
    }
}

/// The type of the elements that the steps begin with, and whether their encodings ascend.
#[inline(always)]
pub(crate) fn element_type(steps: &[Step]) -> Option<(TypeId, bool)>
    ensures { result ≡ element_type' steps.now }
{
    match steps.split_first() {
        Some((Step::Each(id), _)) => Some((*id, false)),
        Some((Step::EachSorted(id), _)) => Some((*id, true)),
        _ => None,
    }
}

/// The type of the alternative with this number.
#[inline(always)]
pub(crate) fn alternative_at(steps: &[Step], index: usize) -> Option<TypeId>
    ensures { (as' : List Alternative) (ss : List Step') (a : Alternative)
        → steps.now ≡ choice_of as' ++ ss
        → slice_get as' index ≡ Some' a
        → result ≡ Some' (id_of a.type) }
{
    let Some((_, calls)) = steps.split_first() else {
        return None;
    };
    if index >= calls.len() {
        return None;
    }
    match calls[index] {
        Step::Call(id) => Some(id),
        _ => None,
    }
}

/// Whether contents of a value that holds no others fulfil the distinguished rules.
fn strict_leaf(steps: &[Step], contents: &[u8]) -> Result<bool, Refusal>
    ensures { (k : LeafKind') (ss : List Step') (v : AbstractValue)
        → steps.now ≡ Leaf k ∷ ss
        → Contents Basic (plain k) v false contents.now
        → Judges (λ j. (j ≡ 0) × Contents Distinguished (plain k) v false contents.now)
        (PrimitiveBreaks (plain k) v contents.now) (length contents.now) result }
{
    if is_strict_leaf(steps, contents) {
        Ok(true)
    } else {
        Err(Refusal::Broken(leaf_breach(steps, contents)))
    }
}

/// The offset of the first encoding that is less than the one before it, if the encodings must ascend.
fn fall_of(sorted: bool, contents: &[u8]) -> Option<usize>
    ensures { (ys : List (List ℕ))
        → AreUnits ys contents.now
        → MatchOption result (IsTrue sorted → Ascending AtMost ys)
        (λ n. IsTrue sorted × FallsAt AtMost ys contents.now n) }
{
    if sorted { first_fall(contents) } else { None }
}

/// Whether octets that encode a value of the type by the basic rules do so by the distinguished ones, and if so,
/// whether no additions were skipped. The first broken rule if they don't.
#[cycle(strict)]
fn strict_value(
    judge: Judge<'_>,
    id: TypeId,
    levels: u8,
    part: &ValueRef<'_, '_>,
    octets: &[u8],
) -> Result<bool, Refusal>
    ensures { ValueGiven judge.entry.code.now id.index levels (value_of part.now) octets.now
        → Judges (λ j. EncodesTo judge.entry.code.now Distinguished id.index (value_of part.now) j octets.now)
        (Breaks judge.entry.code.now id.index (value_of part.now) octets.now) (length octets.now) result }
{
    judge.code.lemma_invariant();
    header_laws();
    if levels == 0 {
        return Err(Refusal::Broken(NO_VALUE));
    }
    match within_heads(judge.code.steps(id, Coding::Tagged), octets) {
        Ok((steps, contents)) => {
            let at = Site {
                judge,
                id,
                steps,
                levels: levels - 1,
            };
            match strict_contents(at, part, contents) {
                Ok(whole) => Ok(whole),
                Err(refusal) => Err(at_distance(refusal, distance(octets, contents))),
            }
        }
        Err(breach) => Err(Refusal::Broken(breach)),
    }
}

/// The same of contents, which the steps there read.
#[cycle(strict)]
fn strict_contents(at: Site<'_>, part: &ValueRef<'_, '_>, contents: &[u8]) -> Result<bool, Refusal>
    ensures { (k : Kind)
        → ContentsGiven at.entry.judge.code.now at.entry.id.index at.entry.levels at.entry.steps.now (value_of part.now)
        k contents.now
        → Judges (λ j. ContentsEncode at.entry.judge.code.now Distinguished k (value_of part.now) j (form_of k)
        contents.now) (ContentsBreak at.entry.judge.code.now k (value_of part.now) (form_of k) contents.now)
        (length contents.now) result }
{
    match part.value_kind() {
        ValueKind::Fields(size, members) => strict_fields(at, size, members, contents),
        ValueKind::List(members) => strict_list(at, members, contents),
        ValueKind::Alternative(index, inner) => match alternative_at(at.steps, index) {
            Some(ty) => strict_value(at.judge, ty, at.levels, &inner, contents),
            None => Err(Refusal::Broken(NO_VALUE)),
        },
        _ => strict_leaf(at.steps, contents),
    }
}

/// The same as `strict_value` of contents of a SEQUENCE or SET.
#[cycle(strict)]
fn strict_fields(
    at: Site<'_>,
    size: usize,
    members: MemberRefs<'_, '_>,
    contents: &[u8],
) -> Result<bool, Refusal>
    ensures { (k : Kind)
        → ContentsGiven at.entry.judge.code.now at.entry.id.index at.entry.levels at.entry.steps.now
        (fields (row_of_options (components_of size members.entry))) k contents.now
        → Judges (λ j. ContentsEncode at.entry.judge.code.now Distinguished k
        (fields (row_of_options (components_of size members.entry))) j (form_of k) contents.now)
        (ContentsBreak at.entry.judge.code.now k (fields (row_of_options (components_of size members.entry)))
        (form_of k) contents.now) (length contents.now) result }
{
    at.judge.code.lemma_invariant();
    header_laws();
    if is_ranked(at.steps) {
        strict_set(at, size, members, contents)
    } else {
        strict_sequence(at, size, members, contents)
    }
}

/// The same of components in order, and additions that the type lacks after them.
#[cycle(strict)]
fn strict_sequence(
    at: Site<'_>,
    size: usize,
    members: MemberRefs<'_, '_>,
    contents: &[u8],
) -> Result<bool, Refusal>
    ensures { (cs : List Component) (xs us : List (List ℕ))
        → SequenceGiven at.entry.judge.code.now at.entry.id.index at.entry.levels at.entry.steps.now
        (components_of size members.entry) cs xs us contents.now
        → Judges (SequenceBy at.entry.judge.code.now (components_of size members.entry) cs xs us)
        (SequenceBreaks at.entry.judge.code.now cs (row_of_options (components_of size members.entry)) xs)
        (length contents.now) result }
{
    at.judge.code.lemma_invariant();
    lemma_broken();
    let mut left = members;
    let mut rest = contents;
    let mut whole = true;
    for i in 0..size {
        let found = next_component(&mut left, i);
        let (part, following) = match strict_next(at, i, &found, rest) {
            Ok(taken) => taken,
            Err(refusal) => return Err(at_distance(refusal, distance(contents, rest))),
        };
        whole = both(whole, part);
        rest = following;
    }
    Ok(both(whole, rest.is_empty()))
}

/// The same of the component at a place, which comes first in the octets, and what follows it.
#[cycle(strict)]
fn strict_next<'o>(
    at: Site<'_>,
    place: usize,
    found: &Option<ValueRef<'_, '_>>,
    octets: &'o [u8],
) -> Result<(bool, &'o [u8]), Refusal>
    ensures { (c : Component) (x r : List ℕ)
        → PartGiven at.entry.judge.code.now at.entry.id.index at.entry.levels at.entry.steps.now
        (option_map value_of found.now) place c x
        → ComesFirst (option_map value_of found.now) x r octets.now
        → MatchResult result
        (λ p. (p.1.now ≡ r)
        × ((j : ℕ) × PartBy at.entry.judge.code.now c (option_map value_of found.now) x j × (IsTrue p.0 ↔ (j ≡ 0))))
        (λ e. (IsRefused e → (j : ℕ) → PartBy at.entry.judge.code.now c (option_map value_of found.now) x j → ⊥)
        × IsFound (PartBreaks at.entry.judge.code.now c (option_map value_of found.now) x) (length x) e) }
{
    header_laws();
    match found {
        Some(part) => match next_encoding(octets) {
            Some(next) => match strict_member(at, place, part, next.octets) {
                Ok(whole) => Ok((whole, next.rest)),
                Err(refusal) => Err(refusal),
            },
            None => Err(Refusal::Broken(NO_VALUE)),
        },
        None => Ok((true, octets)),
    }
}

/// The same of components in any order: those present must be in ascending order of their tags, and additions that the
/// type lacks may be among them. All components are judged, since the first broken rule may be in any of them.
#[cycle(strict)]
pub(crate) fn strict_set(
    at: Site<'_>,
    size: usize,
    members: MemberRefs<'_, '_>,
    contents: &[u8],
) -> Result<bool, Refusal>
    ensures { (cs : List Component) (xs zs us ys : List (List ℕ))
        → SetGiven at.entry.judge.code.now at.entry.id.index at.entry.levels at.entry.steps.now
        (components_of size members.entry) cs xs zs us ys contents.now
        → Judges (SetBy at.entry.judge.code.now (components_of size members.entry) cs xs zs us)
        (SetBreaks at.entry.judge.code.now cs (row_of_options (components_of size members.entry)) xs zs ys)
        (length contents.now) result }
{
    at.judge.code.lemma_invariant();
    lemma_broken();
    let (none_else, fall) = order_of(do_climb(at.judge.code, at.steps, contents));
    let mut breach = fall;
    let mut left = members;
    let mut whole = true;
    for i in 0..size {
        let found = next_component(&mut left, i);
        let judged = strict_known(at, i, &found, contents);
        let (all, first) = match so_far(whole, breach, judged) {
            Some(noted) => noted,
            None => return Err(Refusal::Memory),
        };
        whole = all;
        breach = first;
    }
    match breach {
        Some(breach) => Err(Refusal::Broken(breach)),
        None => Ok(both(whole, none_else)),
    }
}

/// The same of the component at a place, which is found by its tag.
#[cycle(strict)]
fn strict_known(
    at: Site<'_>,
    place: usize,
    found: &Option<ValueRef<'_, '_>>,
    contents: &[u8],
) -> Result<bool, Refusal>
    ensures { (c : Component) (x : List ℕ) (ys : List (List ℕ))
        → PartGiven at.entry.judge.code.now at.entry.id.index at.entry.levels at.entry.steps.now
        (option_map value_of found.now) place c x
        → IsAmong at.entry.judge.code.now c (option_map value_of found.now) x ys contents.now
        → Judges (PartBy at.entry.judge.code.now c (option_map value_of found.now) x)
        (PartBreaksIn at.entry.judge.code.now c (option_map value_of found.now) x ys) (length contents.now) result }
{
    match found {
        Some(part) => match field_at(at.steps, place) {
            Some(field) => match find_first(at.judge.code, field.ty, contents) {
                Some((start, octets)) => match strict_member(at, place, part, octets) {
                    Ok(whole) => Ok(whole),
                    Err(refusal) => Err(at_distance(refusal, start)),
                },
                None => Err(Refusal::Broken(NO_VALUE)),
            },
            None => Err(Refusal::Broken(NO_VALUE)),
        },
        None => Ok(true),
    }
}

/// The same of the value of the component at a place. It must not be the same as its DEFAULT, unless additions were
/// skipped within it.
#[cycle(strict)]
fn strict_member(
    at: Site<'_>,
    place: usize,
    part: &ValueRef<'_, '_>,
    octets: &[u8],
) -> Result<bool, Refusal>
    ensures { (c : Component)
        → MemberGiven at.entry.judge.code.now at.entry.id.index at.entry.levels at.entry.steps.now (value_of part.now)
        place c octets.now
        → Judges (MemberBy at.entry.judge.code.now c (value_of part.now) octets.now)
        (MemberBreaks at.entry.judge.code.now c (value_of part.now) octets.now) (length octets.now) result }
{
    at.judge.code.lemma_invariant();
    reading_laws();
    lemma_levels_grow();
    let field = match field_at(at.steps, place) {
        Some(field) => field,
        None => return Err(Refusal::Broken(NO_VALUE)),
    };
    let whole = match strict_value(at.judge, field.ty, at.levels, part, octets) {
        Ok(whole) => whole,
        Err(refusal) => return Err(refusal),
    };
    let same = match is_default(at, field, part, whole) {
        Ok(same) => same,
        Err(_) => return Err(Refusal::Memory),
    };
    if same {
        return Err(Refusal::Broken(Breach {
            rule: RuleOfDer::NoDefault,
            offset: 0,
        }));
    }
    Ok(whole)
}

/// The same as `strict_value` of contents of a SEQUENCE OF or SET OF.
#[cycle(strict)]
fn strict_list(at: Site<'_>, members: MemberRefs<'_, '_>, contents: &[u8]) -> Result<bool, Refusal>
    ensures { (k : Kind)
        → ContentsGiven at.entry.judge.code.now at.entry.id.index at.entry.levels at.entry.steps.now
        (list (element_values members.entry)) k contents.now
        → Judges (λ j. ContentsEncode at.entry.judge.code.now Distinguished k (list (element_values members.entry)) j
        (form_of k) contents.now)
        (ContentsBreak at.entry.judge.code.now k (list (element_values members.entry)) (form_of k) contents.now)
        (length contents.now) result }
{
    at.judge.code.lemma_invariant();
    header_laws();
    lemma_broken();
    let (element, sorted) = match element_type(at.steps) {
        Some(found) => found,
        None => return Err(Refusal::Broken(NO_VALUE)),
    };
    let fall = fall_of(sorted, contents);
    let judged = strict_elements(at.judge, element, at.levels, members, contents);
    match fall {
        Some(offset) => Err(with_fall(offset, judged)),
        None => judged,
    }
}

/// The same of elements, one after the other.
#[cycle(strict)]
fn strict_elements(
    judge: Judge<'_>,
    id: TypeId,
    levels: u8,
    members: MemberRefs<'_, '_>,
    contents: &[u8],
) -> Result<bool, Refusal>
    ensures { (xs : List (List ℕ))
        → ElementsGiven judge.entry.code.now id.index levels (element_values members.entry) xs contents.now
        → Judges (λ j. Elements judge.entry.code.now Distinguished id.index (element_values members.entry) j xs)
        (ElementsBreak judge.entry.code.now id.index (element_values members.entry) xs) (length contents.now) result }
{
    judge.code.lemma_invariant();
    header_laws();
    lemma_broken();
    let mut left = members;
    let mut rest = contents;
    let mut whole = true;
    while let Some((_, part)) = left.next() {
        let next = match next_encoding(rest) {
            Some(next) => next,
            None => return Err(Refusal::Broken(NO_VALUE)),
        };
        match strict_value(judge, id, levels, &part, next.octets) {
            Ok(one) => whole = both(whole, one),
            Err(refusal) => return Err(at_distance(refusal, distance(contents, rest))),
        }
        rest = next.rest;
    }
    Ok(whole)
}

/// The first rule of DER that octets break which encode the value by the basic rules, and where. The result is None
/// exactly if they encode it by the distinguished rules (X.690, 10 and 11). The value is the one that a reference into
/// a view shows. The octets may have additions that the value's type lacks.
///
/// Each header has the fewest octets, strings are primitive, TRUE has all bits set, unused bits are zeros, and named
/// bits end in a one. A SET's components ascend by their tags, and a SET OF's elements by their octets. No component is
/// the same as its DEFAULT, unless additions were skipped within it. Additions that the type lacks, and their places in
/// a SET, are not checked.
///
/// Only the value of a component that has a DEFAULT is copied, and only until it is compared. The result is
/// `AllocError` if there is not enough memory for that copy. The time grows as the number of octets times the number of
/// levels of the value.
pub fn first_broken(
    alloc: Global,
    code: &Code,
    id: TypeId,
    part: &ValueRef<'_, '_>,
    octets: &[u8],
) -> Result<Option<Breach>, AllocError>
    // None exactly if the octets encode the value by the distinguished rules too.
    ensures none { (k : ℕ)
        → Encodes code.now Basic id.index (value_of part.now) k octets.now
        → length octets.now ≤ 16777216
        → IfOk result (λ o. o ≡ None ↔ EncodesTo code.now Distinguished id.index (value_of part.now) k octets.now) }
    // The rule is broken by the encoding of this value of the type, at the offset.
    ensures broken { (k : ℕ)
        → Encodes code.now Basic id.index (value_of part.now) k octets.now
        → length octets.now ≤ 16777216
        → IfOk result (λ o. IfSome o (λ b. Breaks code.now id.index (value_of part.now) octets.now b.rule b.offset)) }
    // No rule is broken at a lower offset.
    ensures first { (k : ℕ)
        → Encodes code.now Basic id.index (value_of part.now) k octets.now
        → length octets.now ≤ 16777216
        → IfOk result (λ o. IfSome o (λ b. (r : Rule') (n : ℕ)
        → Breaks code.now id.index (value_of part.now) octets.now r n
        → b.offset ≤ n)) }
    // The offset is that of an octet.
    ensures offset { (k : ℕ)
        → Encodes code.now Basic id.index (value_of part.now) k octets.now
        → length octets.now ≤ 16777216
        → IfOk result (λ o. IfSome o (λ b. b.offset < length octets.now)) }
{
    code.lemma_invariant();
    schema_laws();
    der_laws();
    lemma_sameness();
    match strict_value(Judge { alloc, code }, id, MAX_LEVELS, part, octets) {
        Ok(_) => Ok(None),
        Err(Refusal::Broken(breach)) => Ok(Some(breach)),
        Err(Refusal::Memory) => Err(AllocError),
    }
}

/// Whether a quick test shows that octets encode the value by the distinguished rules. False decides nothing.
fn is_quickly_strict(judge: Judge<'_>, id: TypeId, part: &ValueRef<'_, '_>, octets: &[u8]) -> bool
    ensures { (k : ℕ)
        → Encodes judge.entry.code.now Basic id.index (value_of part.now) k octets.now
        → length octets.now ≤ 16777216
        → IsTrue result
        → EncodesTo judge.entry.code.now Distinguished id.index (value_of part.now) k octets.now }
{
    judge.code.lemma_invariant();
    schema_laws();
    der_laws();
    lemma_sameness();
    match quick_steps(judge, id, MAX_LEVELS, part, octets) {
        Some(_) => true,
        None => false,
    }
}

/// Whether octets that encode the value by the basic rules do so by the distinguished ones. The rest is as for
/// `first_broken`.
pub fn is_strict(
    alloc: Global,
    code: &Code,
    id: TypeId,
    part: &ValueRef<'_, '_>,
    octets: &[u8],
) -> Result<bool, AllocError>
    ensures { (k : ℕ)
        → Encodes code.now Basic id.index (value_of part.now) k octets.now
        → length octets.now ≤ 16777216
        → IfOk result (λ strict.
        IsTrue strict ↔ EncodesTo code.now Distinguished id.index (value_of part.now) k octets.now) }
{
    if is_quickly_strict(Judge { alloc, code }, id, part, octets) {
        return Ok(true);
    }
    match first_broken(alloc, code, id, part, octets)? {
        Some(_) => Ok(false),
        None => Ok(true),
    }
}
