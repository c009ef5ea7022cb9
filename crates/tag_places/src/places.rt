//! The place of a type among others, by their sorted keys.

ghost use Rattle.asn_base.specs.Order.{place_among};
ghost use Rattle.asn_base.specs.Seen.{alternative_of, component_of, types_of};
ghost use Rattle.asn_base.specs.Types.{TypeNumber};
ghost use Rattle.std.specs.List.Sorted.{IsNonDecreasing};
ghost use Rattle.std.specs.Prelude.{◌≡◌, IfOk, List, map};
ghost use Rattle.tag_places.specs.Keys.{AreSortedKeys, below};

use crate::keys::{key, sorted_keys};
use asn_base::schema::{Alternative, Component, Resolved, TypeId};
use std::alloc::{AllocError, Global};

/// How many of some keys in ascending order are below a key.
fn count_below(keys: &[u64], key: u64) -> usize
    ensures { IsNonDecreasing keys.now → result ≡ below keys.now key }
{
    keys.partition_point(|other| *other < key)
}

/// How many of the types that have these keys come before a type in the canonical order of tags. This is the place of
/// one of these types among them, from 0. For n keys the time grows as log n.
pub fn place_by(types: &[Resolved], keys: &[u64], id: TypeId) -> usize
    ensures { (us : List TypeNumber) → AreSortedKeys (types_of types.now) us keys.now
        → result ≡ place_among (types_of types.now) us id.index }
{
    count_below(keys, key(types, id, 0))
}

/// The keys of the types of components, in ascending order, for [`place_by`]. The error is that there is not enough
/// memory. For n components the time grows as n times log n.
pub fn component_keys(
    alloc: Global,
    types: &[Resolved],
    components: &[Component],
) -> Result<Vec<u64>, AllocError>
    ensures { IfOk result (λ v. AreSortedKeys (types_of types.now)
        (map (λ c. c.type) (map component_of components.now)) v.items) }
{
    let mut ids = Vec::new(alloc);
    for i in 0..components.len() {
        ids.push(components[i].ty)?;
    }
    sorted_keys(alloc, types, ids.as_slice())
}

/// The keys of the types of alternatives, in ascending order, for [`place_by`]. The error is that there is not enough
/// memory. For n alternatives the time grows as n times log n.
pub fn alternative_keys(
    alloc: Global,
    types: &[Resolved],
    alternatives: &[Alternative],
) -> Result<Vec<u64>, AllocError>
    ensures { IfOk result (λ v. AreSortedKeys (types_of types.now)
        (map (λ a. a.type) (map alternative_of alternatives.now)) v.items) }
{
    let mut ids = Vec::new(alloc);
    for i in 0..alternatives.len() {
        ids.push(alternatives[i].ty)?;
    }
    sorted_keys(alloc, types, ids.as_slice())
}
