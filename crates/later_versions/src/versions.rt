//! Whether a type is a later version of another one.

ghost use Rattle.std.specs.Prelude.{◌≡◌, ◌↔◌, ◌<◌, ℕ, IsTrue, IfOk, List, MatchOption, OnOk, Some, length, map, slice_get};
ghost use Rattle.asn_base.specs.Types.{Resolved};
ghost use Rattle.later_versions.specs.Differences.{AreLaterBefore, IsComparison, is_later};
ghost use Rattle.later_versions.specs.Later.{Later};
ghost use Rattle.later_versions.specs.DifferenceText.{HasText, comparison_of, says_later};
ghost use Rattle.later_versions.specs.proving.Pairs.{AreBack, AreKnown, AreLed, AreMembersNoted, ArePaths, IsFine};
ghost use Rattle.later_versions.specs.proving.Pairs.{PairDiffers, met_pair, pair_of};

use crate::kinds::other_kind;
use crate::members::member_at;
use crate::pairs::{Met, Pair, Pairs, note, places_to};
use crate::reason::{Comparison, Difference, Explained, Reason};
use crate::tags::are_same_tags;
use crate::text_of::explained;
use asn_base::schema::{Schema, TypeId};
use std::alloc::{AllocError, Global};
use std::collections::BTreeMap;

/// What differs in the types of a pair, or None if the second one can be a later version of the first, apart from the
/// types of members.
fn other_pair(
    alloc: Global,
    first: &Schema,
    second: &Schema,
    pair: Pair,
) -> Result<Option<Reason>, AllocError>
    ensures { IfOk result (λ o. MatchOption o
        (IsFine first.now second.now (pair_of pair)) (PairDiffers first.now second.now (pair_of pair))) }
{
    if !first.has(pair.first) || !second.has(pair.second) {
        return Ok(None);
    }
    let one = first.get(pair.first);
    let other = second.get(pair.second);
    if !are_same_tags(one.tags.as_slice(), other.tags.as_slice()) {
        return Ok(Some(Reason::Tags));
    }
    other_kind(alloc, first, &one.core, second, &other.core)
}

/// Appends the pairs of members at one place to the others. The pair has this number in the list. A type has at most
/// 320 members.
fn note_members(
    first: &Schema,
    second: &Schema,
    pair: Pair,
    at: usize,
    pairs: &mut Pairs,
) -> Result<(), AllocError>
    requires { AreKnown pairs.old }
    ensures known { OnOk result (AreKnown pairs.new) }
    ensures noted { OnOk result (AreMembersNoted first.now second.now at (pair_of pair) pairs.old pairs.new) }
{
    first.lemma_invariant();
    for place in 0..320 {
        match (
            member_at(first, pair.first, place),
            member_at(second, pair.second, place),
        ) {
            (Some(one), Some(other)) => note(
                pairs,
                Met {
                    pair: Pair {
                        first: one,
                        second: other,
                    },
                    from: at,
                    place,
                },
            )?,
            _ => return Ok(()),
        }
    }
    Ok(())
}

/// The difference at a pair of the list.
fn difference(
    alloc: Global,
    list: &[Met],
    at: usize,
    reason: Reason,
) -> Result<Comparison, AllocError>
    requires within { at < length list.now }
    requires back { AreBack list.now }
    ensures { IfOk result (λ answer. (s s' : List Resolved) (t t' : ℕ) (p : ℕ × ℕ) (paths : List (List ℕ))
        → ArePaths list.now paths
        → AreLed s t s' t' list.now paths
        → slice_get (map met_pair list.now) at ≡ Some p
        → PairDiffers s s' p reason
        → ((path : List ℕ) → slice_get paths at ≡ Some path → AreLaterBefore s t s' t' path)
        → IsComparison s t s' t' answer) }
{
    let places = places_to(alloc, list, at)?;
    let pair = list[at].pair;
    Ok(Comparison::Differs(Difference {
        places,
        older: pair.first,
        newer: pair.second,
        reason,
    }))
}

/// Compares a pair of types, the pairs of their members, and so on, in the order in which they are met. Each pair is
/// compared once.
fn compare_from(
    alloc: Global,
    first: &Schema,
    second: &Schema,
    start: Pair,
) -> Result<Comparison, AllocError>
    ensures { IfOk result (IsComparison first.now start.first.index second.now start.second.index) }
{
    let mut pairs = Pairs {
        list: Vec::new(alloc),
        known: BTreeMap::new(alloc),
    };
    note(
        &mut pairs,
        Met {
            pair: start,
            from: 0,
            place: 0,
        },
    )?;
    for at in 0..usize::MAX {
        if at >= pairs.list.len() {
            return Ok(Comparison::Later);
        }
        let pair = pairs.list[at].pair;
        match other_pair(alloc, first, second, pair) {
            Ok(None) => {}
            Ok(Some(reason)) => return difference(alloc, pairs.list.as_slice(), at, reason),
            Err(fault) => return Err(fault),
        }
        note_members(first, second, pair, at, &mut pairs)?;
    }
    let _count = pairs.list.len();
    Ok(Comparison::Later)
}

/// Compares a type with one of a second schema, and answers that the second is a later version of the first (X.680, 7,
/// 20, 25 and 29), or where it is none first, and why.
///
/// A later version is the same type with additions appended at extension markers, at any depth. Kinds, tags, markers,
/// names, numbers, named bits, OPTIONAL and DEFAULT are the same. So are the values that constraints allow, and the
/// bounds that the packed encoding uses. A group of additions is appended whole. In a default of the later version the
/// appended components are absent, and otherwise it is the same. The order in which root items of an enumeration and
/// named bits were written doesn't count. Each pair of types to which one list of members' places leads is compared
/// once. `AllocError` comes only if an allocation fails.
pub fn compare(
    alloc: Global,
    first: &Schema,
    ty: TypeId,
    second: &Schema,
    later_ty: TypeId,
) -> Result<Comparison, AllocError>
    // The answer is that it is a later version exactly if it is one.
    ensures later { IfOk result (λ answer. IsTrue (is_later answer)
        ↔ Later first.now ty.index second.now later_ty.index) }
    // Otherwise the places lead to two types that differ by the reason, and no places before them do.
    ensures compared { IfOk result (IsComparison first.now ty.index second.now later_ty.index) }
{
    let mut measured = first.copy(alloc)?;
    measured.cache_default_depths(alloc)?;
    let start = Pair {
        first: ty,
        second: later_ty,
    };
    compare_from(alloc, &measured, second, start)
}

/// Decides whether the second type, of the second schema, is a later version of the first, as [`compare`] does.
/// `AllocError` comes only if an allocation fails.
pub fn later(
    alloc: Global,
    first: &Schema,
    ty: TypeId,
    second: &Schema,
    later_ty: TypeId,
) -> Result<bool, AllocError>
    ensures { IfOk result (λ b. IsTrue b ↔ Later first.now ty.index second.now later_ty.index) }
{
    match compare(alloc, first, ty, second, later_ty) {
        Ok(Comparison::Later) => Ok(true),
        Ok(Comparison::Differs(_)) => Ok(false),
        Err(fault) => Err(fault),
    }
}

/// Compares two types as [`compare`] does, with a text that says where they differ first, and why. `AllocError` comes
/// only if an allocation fails.
pub fn explain(
    alloc: Global,
    first: &Schema,
    ty: TypeId,
    second: &Schema,
    later_ty: TypeId,
) -> Result<Explained, AllocError>
    // The answer is that it is a later version exactly if it is one.
    ensures later { IfOk result (λ answer. IsTrue (says_later answer)
        ↔ Later first.now ty.index second.now later_ty.index) }
    // Otherwise the places lead to two types that differ by the reason, and no places before them do.
    ensures compared { IfOk result (λ answer.
        IsComparison first.now ty.index second.now later_ty.index (comparison_of answer)) }
    // The text is that of the difference.
    ensures text_of { IfOk result (HasText first.now ty.index second.now) }
{
    let comparison = compare(alloc, first, ty, second, later_ty)?;
    explained(alloc, first, ty, second, comparison)
}
