//! Numbers that are in the order of tags.

ghost use Rattle.asn_base.specs.Order.{outermost, precedes};
ghost use Rattle.asn_base.specs.Schemas.{HasTag};
ghost use Rattle.asn_base.specs.Seen.{types_of};
ghost use Rattle.asn_base.specs.Types.{Resolved as Resolved', TypeNumber};
ghost use Rattle.std.specs.Prelude.{◌≡◌, IfOk, List, map, nat_lt};
ghost use Rattle.tag_places.specs.Keys.{AreSortedKeys, key_at, key_of, tag_key as tag_key', untagged};

use asn_base::order::class_place;
use asn_base::schema::{Resolved, TypeId};
use asn_base::tag::Tag;
use std::alloc::{AllocError, Global};

/// The key of types without tags among the members: it is above the keys of all tags.
const UNTAGGED: u64 = 1_099_511_627_776;

/// A number for a tag: it is less than that of each tag that comes later in the canonical order (X.680, 8.6).
fn tag_key(tag: Tag) -> u64
    ensures { result ≡ tag_key' tag }
{
    u64::from(class_place(tag.class)) * 4_294_967_296 + u64::from(tag.number)
}

/// The key of the outermost tag, or `none` if there is no tag.
fn first_key(tags: &[Tag], none: u64) -> u64
    ensures { result ≡ key_of none (outermost tags.now) }
{
    if tags.is_empty() {
        none
    } else {
        tag_key(tags[0])
    }
}

/// The key of a type, that of its outermost tag, or `none` if it has no tag or isn't there.
pub(crate) fn key(types: &[Resolved], id: TypeId, none: u64) -> u64
    ensures { result ≡ key_at none (types_of types.now) id.index }
{
    if id.index < types.len() {
        first_key(types[id.index].tags.as_slice(), none)
    } else {
        none
    }
}

/// The key of a type that has a tag (X.680, 8.6); a type without tags has the key 0.
pub fn tagged_key(types: &[Resolved], id: TypeId) -> u64
    ensures { result ≡ key_at 0 (types_of types.now) id.index }
{
    key(types, id, 0)
}

/// A law: a type that has a tag comes before another type in the canonical order exactly if its key is less.
#[tactic(auto, using(crate::proofs::Keyed::precedes_key))]
pub fn key_law()
    ensures { (s : List Resolved') (t u : TypeNumber)
        → HasTag s t
        → precedes s t u ≡ nat_lt (key_at 0 s t) (key_at 0 s u) }
{}

/// The keys of the types with these numbers, in their order.
fn keys(alloc: Global, types: &[Resolved], ids: &[TypeId]) -> Result<Vec<u64>, AllocError>
    ensures { IfOk result (λ v. v.items
        ≡ map (key_at untagged (types_of types.now)) (map (λ t. t.index) ids.now)) }
{
    let mut keys = Vec::new(alloc);
    for i in 0..ids.len() {
        keys.push(key(types, ids[i], UNTAGGED))?;
    }
    Ok(keys)
}

/// The keys of the types with these numbers, in ascending order.
pub(crate) fn sorted_keys(
    alloc: Global,
    types: &[Resolved],
    ids: &[TypeId],
) -> Result<Vec<u64>, AllocError>
    ensures { IfOk result (λ v. AreSortedKeys (types_of types.now) (map (λ t. t.index) ids.now) v.items) }
{
    let mut keys = keys(alloc, types, ids)?;
    keys.sort()?;
    Ok(keys)
}
