//! A quick test of the distinguished rules. Its yes is proved, and its no decides nothing.

ghost use Rattle.asn_base.specs.Abstract.{AbstractValue, fields, list, row_of_options};
ghost use Rattle.asn_base.specs.Types.{Component, Kind};
ghost use Rattle.encodings.specs.Contents.{Contents};
ghost use Rattle.encodings.specs.Encoding.{ContentsEncode, Elements, EncodesTo};
ghost use Rattle.encodings.specs.Leaves.{plain};
ghost use Rattle.encodings.specs.Orders.{Ascending, AtMost};
ghost use Rattle.encodings.specs.Rules.{Basic, Distinguished};
ghost use Rattle.std.specs.Prelude.{◌≡◌, ◌-◌, ◌++◌, ◌≤◌, IfSome, IsTrue, List, false, length, option_map, ℕ};
ghost use Rattle.views.specs.Tree.{element_values, value_of};
ghost use Rattle.der_check.specs.Heads.{IsInside};
ghost use Rattle.der_check.specs.Strict.{ComesFirst, ContentsGiven, ElementsGiven, MemberGiven, PartBy, PartGiven, SequenceBy, SequenceGiven, ValueGiven, MemberBy, components_of, form_of};

use crate::default::is_no_default;
use crate::fields::next_component;
use crate::heads::{first_inside, form_if, unwrapped};
use crate::law::lemma_broken;
use crate::leaf::is_strict_leaf;
use crate::order::is_at_most;
use crate::refusal::{Judge, Site};
use crate::sets::field_at;
use crate::units::distance;
use crate::value::{alternative_at, element_type, is_ranked, strict_set};
use asn_base::law::lemma_levels_grow;
use asn_base::schema::TypeId;
use codec_code::{Coding, Head, Step, Summary};
use encodings::{LeafKind, header_laws};
use next_tags::short_unit;
use primitive_reader::is_distinguished;
use views::{MemberRefs, ValueKind, ValueRef};

/// Whether primitive contents of this kind, which are valid by the basic rules, surely fulfil the distinguished ones.
#[inline(always)]
fn is_quickly_distinguished(kind: LeafKind, contents: &[u8]) -> bool
    ensures { (v : AbstractValue)
        → IsTrue result
        → Contents Basic (plain kind) v false contents.now
        → Contents Distinguished (plain kind) v false contents.now }
{
    match kind {
        LeafKind::Boolean => is_distinguished(kind, contents),
        LeafKind::BitString => is_distinguished(kind, contents),
        LeafKind::NamedBits => is_distinguished(kind, contents),
        _ => true,
    }
}

/// The number of octets of the encoding of a value that holds no others, at the start of octets, if the encoding
/// fulfils the distinguished rules and its one header has two octets. None decides nothing.
#[inline(always)]
fn quick_leaf(head: Head, kind: LeafKind, octets: &[u8]) -> Option<usize>
    ensures { IfSome result (λ n. (x y r : List ℕ)
        × IsInside head x y
        × (octets.now ≡ y ++ r)
        × (n ≡ length octets.now - length r)
        × ((v : AbstractValue)
        → Contents Basic (plain kind) v false x
        → Contents Distinguished (plain kind) v false x)) }
{
    let Some((contents, rest)) = short_unit(octets, head.tag, form_if(head.constructed)) else {
        return None;
    };
    if is_quickly_distinguished(kind, contents) {
        Some(distance(octets, rest))
    } else {
        None
    }
}

/// An encoding of this many octets, and what follows it.
#[inline(always)]
fn divided(octets: &[u8], count: usize) -> (&[u8], &[u8])
    ensures { (x r : List ℕ)
        → octets.now ≡ x ++ r
        → count ≡ length x
        → (result.0.now ≡ x) × (result.1.now ≡ r) }
{
    if count <= octets.len() {
        octets.split_at(count)
    } else {
        (&[], &[])
    }
}

/// Whether the second octets aren't less than the first ones, if they must not be.
#[inline(always)]
fn is_in_order(sorted: bool, first: &[u8], second: &[u8]) -> bool
    ensures { IsTrue result → IsTrue sorted → AtMost first.now second.now }
{
    if sorted {
        is_at_most(first, second)
    } else {
        true
    }
}

/// The number of octets of the encoding of a value at the start of octets, if the encoding fulfils the distinguished
/// rules. None decides nothing.
#[cycle(quick)]
#[inline(always)]
fn quick_value(
    judge: Judge<'_>,
    id: TypeId,
    levels: u8,
    part: &ValueRef<'_, '_>,
    octets: &[u8],
) -> Option<usize>
    ensures { (x r : List ℕ)
        → ValueGiven judge.entry.code.now id.index levels (value_of part.now) x
        → octets.now ≡ x ++ r
        → length octets.now ≤ 16777216
        → IfSome result (λ n. (n ≡ length x)
        × ((j : ℕ) × EncodesTo judge.entry.code.now Distinguished id.index (value_of part.now) j x)) }
{
    judge.code.lemma_invariant();
    header_laws();
    match judge.code.summary(id) {
        Summary::Leaf(head, kind) => match quick_leaf(head, kind, octets) {
            Some(count) => Some(count),
            None => quick_steps(judge, id, levels, part, octets),
        },
        _ => quick_steps(judge, id, levels, part, octets),
    }
}

/// The same by the steps of the type.
#[cycle(quick)]
pub(crate) fn quick_steps(
    judge: Judge<'_>,
    id: TypeId,
    levels: u8,
    part: &ValueRef<'_, '_>,
    octets: &[u8],
) -> Option<usize>
    ensures { (x r : List ℕ)
        → ValueGiven judge.entry.code.now id.index levels (value_of part.now) x
        → octets.now ≡ x ++ r
        → length octets.now ≤ 16777216
        → IfSome result (λ n. (n ≡ length x)
        × ((j : ℕ) × EncodesTo judge.entry.code.now Distinguished id.index (value_of part.now) j x)) }
{
    judge.code.lemma_invariant();
    header_laws();
    if levels == 0 {
        return None;
    }
    let levels = levels - 1;
    let steps = judge.code.steps(id, Coding::Tagged);
    match steps.split_first() {
        Some((Step::Head(head), following)) => {
            let Some((inner, rest)) = first_inside(*head, octets) else {
                return None;
            };
            let Ok((steps, contents)) = unwrapped(following, inner) else {
                return None;
            };
            let at = Site {
                judge,
                id,
                steps,
                levels,
            };
            if quick_contents(at, part, contents) {
                Some(distance(octets, rest))
            } else {
                None
            }
        }
        Some((Step::Pick(_), _)) => match part.value_kind() {
            ValueKind::Alternative(index, inner) => match alternative_at(steps, index) {
                Some(ty) => quick_value(judge, ty, levels, &inner, octets),
                None => None,
            },
            _ => None,
        },
        _ => None,
    }
}

/// Whether contents fulfil the distinguished rules, which the steps there read. False decides nothing.
#[cycle(quick)]
#[inline(always)]
fn quick_contents(at: Site<'_>, part: &ValueRef<'_, '_>, contents: &[u8]) -> bool
    ensures { (k : Kind)
        → ContentsGiven at.entry.judge.code.now at.entry.id.index at.entry.levels at.entry.steps.now (value_of part.now)
        k contents.now
        → IsTrue result
        → (j : ℕ) × ContentsEncode at.entry.judge.code.now Distinguished k (value_of part.now) j (form_of k)
        contents.now }
{
    match part.value_kind() {
        ValueKind::Fields(size, members) => quick_fields(at, size, members, contents),
        ValueKind::List(members) => quick_list(at, members, contents),
        ValueKind::Alternative(index, inner) => match alternative_at(at.steps, index) {
            Some(ty) => match quick_value(at.judge, ty, at.levels, &inner, contents) {
                Some(_) => true,
                None => false,
            },
            None => false,
        },
        _ => is_strict_leaf(at.steps, contents),
    }
}

/// The same as `quick_contents` of a SEQUENCE or SET.
#[cycle(quick)]
#[inline(always)]
fn quick_fields(at: Site<'_>, size: usize, members: MemberRefs<'_, '_>, contents: &[u8]) -> bool
    ensures { (k : Kind)
        → ContentsGiven at.entry.judge.code.now at.entry.id.index at.entry.levels at.entry.steps.now
        (fields (row_of_options (components_of size members.entry))) k contents.now
        → IsTrue result
        → (j : ℕ) × ContentsEncode at.entry.judge.code.now Distinguished k
        (fields (row_of_options (components_of size members.entry))) j (form_of k) contents.now }
{
    at.judge.code.lemma_invariant();
    header_laws();
    if is_ranked(at.steps) {
        match strict_set(at, size, members, contents) {
            Ok(_) => true,
            Err(_) => false,
        }
    } else {
        quick_sequence(at, size, members, contents)
    }
}

/// The same of components in order, and additions that the type lacks after them.
#[cycle(quick)]
#[inline(always)]
fn quick_sequence(at: Site<'_>, size: usize, members: MemberRefs<'_, '_>, contents: &[u8]) -> bool
    ensures { (cs : List Component) (xs us : List (List ℕ))
        → SequenceGiven at.entry.judge.code.now at.entry.id.index at.entry.levels at.entry.steps.now
        (components_of size members.entry) cs xs us contents.now
        → IsTrue result
        → (j : ℕ) × SequenceBy at.entry.judge.code.now (components_of size members.entry) cs xs us j }
{
    at.judge.code.lemma_invariant();
    lemma_broken();
    let mut left = members;
    let mut rest = contents;
    for i in 0..size {
        let found = next_component(&mut left, i);
        match quick_next(at, i, &found, rest) {
            Some(following) => rest = following,
            None => return false,
        }
    }
    true
}

/// What follows the component at a place, which comes first in the octets, if it fulfils the distinguished rules. None
/// decides nothing.
#[cycle(quick)]
#[inline(always)]
fn quick_next<'o>(
    at: Site<'_>,
    place: usize,
    found: &Option<ValueRef<'_, '_>>,
    octets: &'o [u8],
) -> Option<&'o [u8]>
    ensures { (c : Component) (x r : List ℕ)
        → PartGiven at.entry.judge.code.now at.entry.id.index at.entry.levels at.entry.steps.now
        (option_map value_of found.now) place c x
        → ComesFirst (option_map value_of found.now) x r octets.now
        → IfSome result (λ q. (q.now ≡ r)
        × ((j : ℕ) × PartBy at.entry.judge.code.now c (option_map value_of found.now) x j)) }
{
    match found {
        Some(part) => match quick_member(at, place, part, octets) {
            Some(count) => Some(divided(octets, count).1),
            None => None,
        },
        None => Some(octets),
    }
}

/// The number of octets of a component that is there, if it does. It must not be the same as its DEFAULT.
#[cycle(quick)]
#[inline(always)]
fn quick_member(at: Site<'_>, place: usize, part: &ValueRef<'_, '_>, octets: &[u8]) -> Option<usize>
    ensures { (c : Component) (x r : List ℕ)
        → MemberGiven at.entry.judge.code.now at.entry.id.index at.entry.levels at.entry.steps.now (value_of part.now)
        place c x
        → octets.now ≡ x ++ r
        → length octets.now ≤ 16777216
        → IfSome result (λ n. (n ≡ length x)
        × ((j : ℕ) × MemberBy at.entry.judge.code.now c (value_of part.now) x j)) }
{
    at.judge.code.lemma_invariant();
    lemma_levels_grow();
    let Some(field) = field_at(at.steps, place) else {
        return None;
    };
    if !is_no_default(at, field, part) {
        return None;
    }
    quick_value(at.judge, field.ty, at.levels, part, octets)
}

/// The same as `quick_contents` of a SEQUENCE OF or SET OF.
#[cycle(quick)]
#[inline(always)]
fn quick_list(at: Site<'_>, members: MemberRefs<'_, '_>, contents: &[u8]) -> bool
    ensures { (k : Kind)
        → ContentsGiven at.entry.judge.code.now at.entry.id.index at.entry.levels at.entry.steps.now
        (list (element_values members.entry)) k contents.now
        → IsTrue result
        → (j : ℕ) × ContentsEncode at.entry.judge.code.now Distinguished k (list (element_values members.entry)) j
        (form_of k) contents.now }
{
    at.judge.code.lemma_invariant();
    header_laws();
    let Some((element, sorted)) = element_type(at.steps) else {
        return false;
    };
    quick_elements(at, element, sorted, members, contents)
}

/// The same of elements, one after the other, each of this type. Their encodings must ascend if `sorted` is true.
#[cycle(quick)]
#[inline(always)]
fn quick_elements(
    at: Site<'_>,
    id: TypeId,
    sorted: bool,
    members: MemberRefs<'_, '_>,
    contents: &[u8],
) -> bool
    ensures { (xs : List (List ℕ))
        → ElementsGiven at.entry.judge.code.now id.index at.entry.levels (element_values members.entry) xs contents.now
        → IsTrue result
        → ((j : ℕ) × Elements at.entry.judge.code.now Distinguished id.index (element_values members.entry) j xs)
        × (IsTrue sorted → Ascending AtMost xs) }
{
    at.judge.code.lemma_invariant();
    header_laws();
    lemma_broken();
    let mut left = members;
    let mut rest = contents;
    let mut last: &[u8] = &[];
    while let Some((_, part)) = left.next() {
        let count = match quick_value(at.judge, id, at.levels, &part, rest) {
            Some(count) => count,
            None => return false,
        };
        let (encoding, following) = divided(rest, count);
        if !is_in_order(sorted, last, encoding) {
            return false;
        }
        last = encoding;
        rest = following;
    }
    true
}
