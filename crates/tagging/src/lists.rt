//! Lists whose members' tags differ.

ghost use Rattle.std.specs.Prelude.{ℕ, ◌≡◌, ◌⊎◌, ◌+◌, ◌<◌, ◌↔◌, Some, slice_get, IsTrue, IfOk, IfSome, OnOk, length, map, List, MatchOption};
ghost use Rattle.type_table.specs.Seen.{part_of};
ghost use Rattle.type_table.specs.Table.{Part, Type'};
ghost use Rattle.asn_base.specs.Tags.{class_rank};
ghost use Rattle.tagging.specs.First;
ghost use Rattle.tagging.specs.proving.Lists.{Collected, tag_lists, Passes, key_of, IsIn, HasKey, Meets, ReportsClash};
ghost use Rattle.tagging.specs.Tags.{Label as Tag};

use crate::path::Label;
use asn_base::tag::Class;
use std::alloc::{AllocError, Global};
use std::collections::BTreeSet;
use trees::{ListKind, PresenceSyntax, Standing};
use type_table::ListMember;

fn class_number(class: Class) -> u8
    ensures { result ≡ class_rank class }
{
    match class {
        Class::Universal => 0,
        Class::Application => 1,
        Class::Context => 2,
        Class::Private => 3,
    }
}

/// A tag as a key in an ordered set.
fn key(tag: Label) -> (u8, usize)
    ensures { result ≡ key_of tag }
{
    (class_number(tag.0), tag.1)
}

/// Whether a component may be absent: OPTIONAL or DEFAULT follows it, or it is an addition (X.680, clause 25.6).
fn may_be_absent(component: &ListMember) -> bool
    ensures { result ≡ Rattle.tagging.specs.First.member_can_be_absent (part_of component.now) }
{
    match (component.standing, &component.presence) {
        (Standing::Addition(_), _) => true,
        (Standing::Root, PresenceSyntax::Mandatory) => false,
        (Standing::Root, PresenceSyntax::Optional) => true,
        (Standing::Root, PresenceSyntax::Default(_)) => true,
    }
}

/// Whether the member after `member` can be the next of an encoding at a point where `member` could be: in a SEQUENCE
/// if `member` may be absent, else always.
fn passes(kind: ListKind, member: &ListMember) -> bool
    ensures { IsTrue result ↔ Passes kind (part_of member.now) }
{
    match kind {
        ListKind::Sequence => may_be_absent(member),
        _ => true,
    }
}

/// One of these tags that is in a set, if there is one.
fn met(seen: &BTreeSet<(u8, usize)>, tags: &[Label]) -> Option<(u8, usize)>
    ensures { MatchOption result
        ((k : ℕ × ℕ) → HasKey tags.now k → IsIn seen.now.keys k → ⊥)
        (λ k. HasKey tags.now k × IsIn seen.now.keys k) }
{
    for tag in tags {
        let at = key(*tag);
        if seen.contains(&at) {
            return Some(at);
        }
    }
    None
}

/// Puts tags into a set.
fn put_all(seen: &mut BTreeSet<(u8, usize)>, tags: &[Label]) -> Result<(), AllocError>
    ensures { OnOk result ((k : ℕ × ℕ) →
        IsIn seen.new.keys k ↔ (IsIn seen.old.keys k ⊎ HasKey tags.now k)) }
{
    for tag in tags {
        match seen.insert(key(*tag)) {
            Ok(_) => {}
            Err(_) => return Err(AllocError),
        }
    }
    Ok(())
}

/// The tags that the member after `member` can meet: those that `member` could meet, and the tags of `member`; none if
/// `member` must be present.
fn seen_after(
    alloc: Global,
    kind: ListKind,
    member: &ListMember,
    tags: &[Label],
    seen: BTreeSet<(u8, usize)>,
) -> Result<BTreeSet<(u8, usize)>, AllocError>
    ensures { (cs : List Part) (vs : List (List Tag)) (q : ℕ) →
        slice_get cs q ≡ Some (part_of member.now) →
        slice_get vs q ≡ Some tags.now →
        Meets kind cs vs q seen.keys →
        IfOk result (λ s. Meets kind cs vs (q + 1) s.keys) }
{
    if passes(kind, member) {
        let mut more = seen;
        put_all(&mut more, tags)?;
        return Ok(more);
    }
    Ok(BTreeSet::new(alloc))
}

/// The first member that clashes with one before it. The set holds the first tags of those earlier members that can
/// come next at the same point as the current one. Its tags are in order, so each tag is looked up once.
pub(crate) fn clash(
    alloc: Global,
    kind: ListKind,
    members: &[ListMember],
    firsts: &[Vec<Label>],
) -> Result<Option<usize>, AllocError>
    requires as_long { length firsts.now ≡ length members.now }
    ensures within { IfOk result (λ o. IfSome o (λ q. q < length members.now)) }
    ensures clash { (ts : List Type') →
        Collected ts (map part_of members.now) (tag_lists firsts.now) →
        IfOk result (ReportsClash ts kind (map part_of members.now)) }
{
    let mut seen = BTreeSet::new(alloc);
    for place in 0..members.len() {
        let tags = firsts[place].as_slice();
        match met(&seen, tags) {
            Some(_key) => return Ok(Some(place)),
            None => seen = seen_after(alloc, kind, &members[place], tags, seen)?,
        }
    }
    Ok(None)
}
