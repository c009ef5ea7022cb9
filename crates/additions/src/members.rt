//! What extension markers require of the members of a list.

ghost use Rattle.std.specs.Prelude.{◌≡◌, ◌↔◌, ◌<◌, ◌≤◌, ℕ, false, Some, List, length, map, slice_get, IsTrue, IsFalse, IfOk, MatchOption};
ghost use Rattle.type_table.specs.Seen.{part_of};
ghost use Rattle.type_table.specs.Table.{Part};
ghost use Rattle.trees.specs.declared.types.ListKind.TheVariants.{Choice};
ghost use Rattle.tagging.specs.First.{CanBeFirst, is_added_member as is_addition'};
ghost use Rattle.tagging.specs.Tags.{label};
ghost use Rattle.additions.specs.Additions.{has_default as has_default', IsAdded, IsDefaultAddition, IsInGroup, IsTogether, IsParted, IsPlaced, IsMisplaced, IsInOrder, IsTagOutOfOrder, Keeps, BreaksIn};
ghost use Rattle.additions.specs.proving.Checks.{IsListAt, IsChecked, FollowsAddition, IsSeenBefore, AreTogetherBefore, ArePlacedBefore, KeepBefore, BreaksListFirst};

use crate::check::{Broken, Rule};
use crate::order::{comes_before, first_tag, lemma_tagged_facts};
use asn_base::tag::Tag;
use std::alloc::{AllocError, Global};
use tagging::Tagged;
use trees::{ListKind, PresenceSyntax, Standing};
use type_table::ListMember;

/// The members of a list, and whether it has an extension marker.
#[derive(Clone, Copy)]
struct Members<'a> {
    kind: ListKind,
    marker: bool,
    members: &'a [ListMember],
}

/// Whether a member is an addition.
fn is_addition(component: &ListMember) -> bool
    ensures { result ≡ is_addition' (part_of component.now).standing }
{
    match component.standing {
        Standing::Root => false,
        Standing::Addition(_) => true,
    }
}

/// Whether a member has a DEFAULT.
fn has_default(component: &ListMember) -> bool
    ensures { result ≡ has_default' (part_of component.now).presence }
{
    match &component.presence {
        PresenceSyntax::Mandatory => false,
        PresenceSyntax::Optional => false,
        PresenceSyntax::Default(_) => true,
    }
}

/// Whether a member is in these version brackets of its list.
fn is_of_group(component: &ListMember, group: usize) -> bool
    ensures { IsTrue result ↔ IsInGroup group (part_of component.now) }
{
    match component.standing {
        Standing::Addition(Some(number)) => number == group,
        _ => false,
    }
}

/// The number of the version brackets that a member is in, or None if it is in none.
fn group_of(component: &ListMember) -> Option<usize>
    ensures { MatchOption result
        ((g : ℕ) → IsInGroup g (part_of component.now) → ⊥)
        (λ g. IsInGroup g (part_of component.now)) }
{
    match component.standing {
        Standing::Addition(group) => group,
        Standing::Root => None,
    }
}

/// Whether one of the first `before` members is in these version brackets.
fn is_seen(components: &[ListMember], before: usize, group: usize) -> bool
    requires { before ≤ length components.now }
    ensures { IsTrue result ↔ IsSeenBefore (map part_of components.now) before group }
{
    for place in 0..before {
        if is_of_group(&components[place], group) {
            return true;
        }
    }
    false
}

/// Whether a member is in version brackets that ended before it.
fn is_parted(components: &[ListMember], at: usize) -> bool
    requires there { at < length components.now }
    requires before { AreTogetherBefore (map part_of components.now) at }
    ensures parted { IsTrue result → IsParted (map part_of components.now) at }
    ensures together { IsFalse result → (c : Part) → slice_get (map part_of components.now) at ≡ Some c →
        IsTogether (map part_of components.now) at c }
{
    match group_of(&components[at]) {
        None => false,
        Some(group) => {
            if at == 0 {
                return false;
            }
            if is_of_group(&components[at - 1], group) {
                return false;
            }
            is_seen(components, at - 1, group)
        }
    }
}

/// Whether the member directly before this one is an addition.
fn follows_addition(components: &[ListMember], at: usize) -> bool
    requires { at < length components.now }
    ensures { IsTrue result ↔ FollowsAddition (map part_of components.now) at }
{
    if at == 0 {
        return false;
    }
    is_addition(&components[at - 1])
}

/// Whether a member is at a place that the extension marker doesn't allow.
fn is_misplaced(marker: bool, components: &[ListMember], at: usize) -> bool
    requires there { at < length components.now }
    requires before { ArePlacedBefore marker (map part_of components.now) at }
    ensures misplaced { IsTrue result → IsMisplaced marker (map part_of components.now) at }
    ensures placed { IsFalse result → (c : Part) → slice_get (map part_of components.now) at ≡ Some c →
        IsPlaced marker (map part_of components.now) at c }
{
    if !is_addition(&components[at]) {
        return follows_addition(components, at);
    }
    if !marker {
        return true;
    }
    is_parted(components, at)
}

/// The first tag of an alternative of a CHOICE.
fn tag_at(
    alloc: Global,
    tagged: &Tagged<'_>,
    components: &[ListMember],
    at: usize,
) -> Result<Tag, AllocError>
    requires there { at < length components.now }
    requires is { (n : ℕ) × IsChecked tagged.now.program.types Choice (map part_of components.now) n }
    ensures { IfOk result (λ t. (c : Part) → slice_get (map part_of components.now) at ≡ Some c →
        CanBeFirst tagged.now.program.types c.ty (label t)) }
{
    lemma_tagged_facts(tagged);
    match first_tag(alloc, tagged, components[at].ty) {
        Ok(tag) => Ok(tag),
        Err(fault) => Err(fault),
    }
}

/// Whether an alternative of a CHOICE is an addition whose tag doesn't come after those of the additions before it.
fn is_disordered(
    alloc: Global,
    tagged: &Tagged<'_>,
    components: &[ListMember],
    at: usize,
) -> Result<bool, AllocError>
    requires there { at < length components.now }
    requires is { IsChecked tagged.now.program.types Choice (map part_of components.now) at }
    ensures disordered { IfOk result (λ b.
        IsTrue b → IsTagOutOfOrder tagged.now.program.types (map part_of components.now) at) }
    ensures ordered { IfOk result (λ b. IsFalse b → (c : Part) → slice_get (map part_of components.now) at ≡ Some c →
        IsInOrder tagged.now.program.types (map part_of components.now) at c) }
{
    lemma_tagged_facts(tagged);
    if !is_addition(&components[at]) {
        return Ok(false);
    }
    if !follows_addition(components, at) {
        return Ok(false);
    }
    let earlier = tag_at(alloc, tagged, components, at - 1)?;
    let later = tag_at(alloc, tagged, components, at)?;
    Ok(!comes_before(earlier, later))
}

/// Whether a list is a CHOICE in which the addition at a place doesn't ascend.
fn breaks_order(
    alloc: Global,
    tagged: &Tagged<'_>,
    kind: ListKind,
    components: &[ListMember],
    at: usize,
) -> Result<bool, AllocError>
    requires there { at < length components.now }
    requires is { IsChecked tagged.now.program.types kind (map part_of components.now) at }
    ensures disordered { IfOk result (λ b. IsTrue b →
        (kind ≡ Choice) × IsTagOutOfOrder tagged.now.program.types (map part_of components.now) at) }
    ensures ordered { IfOk result (λ b. IsFalse b → (c : Part) → slice_get (map part_of components.now) at ≡ Some c →
        kind ≡ Choice → IsInOrder tagged.now.program.types (map part_of components.now) at c) }
{
    match kind {
        ListKind::Sequence | ListKind::Set => Ok(false),
        ListKind::Choice => is_disordered(alloc, tagged, components, at),
    }
}

/// Whether a member is an addition with a DEFAULT.
fn is_default_addition(components: &[ListMember], at: usize) -> bool
    requires { at < length components.now }
    ensures default { IsTrue result → IsDefaultAddition (map part_of components.now) at }
    ensures plain { IsFalse result → (c : Part) → slice_get (map part_of components.now) at ≡ Some c →
        IsAdded c → has_default' c.presence ≡ false }
{
    if !is_addition(&components[at]) {
        return false;
    }
    has_default(&components[at])
}

/// The rule that a member breaks, or None if it breaks none.
fn member_breaks(
    alloc: Global,
    tagged: &Tagged<'_>,
    list: Members<'_>,
    at: usize,
) -> Result<Option<Rule>, AllocError>
    requires there { at < length list.members.now }
    requires is { (i : ℕ) × IsListAt tagged.now.program.types i list.kind list.marker (map part_of list.members.now) }
    requires before { KeepBefore tagged.now.program.types list.kind list.marker (map part_of list.members.now) at }
    ensures { IfOk result (λ o. MatchOption o
        ((c : Part) → slice_get (map part_of list.entry.members.now) at ≡ Some c →
        Keeps tagged.now.program.types list.entry.kind list.entry.marker (map part_of list.entry.members.now) at c)
        (λ r. BreaksIn tagged.now.program.types r list.entry.kind list.entry.marker
        (map part_of list.entry.members.now) at)) }
{
    if is_misplaced(list.marker, list.members, at) {
        return Ok(Some(Rule::MarkerPlace));
    }
    if is_default_addition(list.members, at) {
        return Ok(Some(Rule::DefaultAddition));
    }
    let falls = breaks_order(alloc, tagged, list.kind, list.members, at)?;
    if falls {
        return Ok(Some(Rule::AdditionOrder));
    }
    Ok(None)
}

/// The first member that breaks a rule, or None if there is none.
pub(crate) fn list_breaks(
    alloc: Global,
    tagged: &Tagged<'_>,
    kind: ListKind,
    marker: bool,
    components: &[ListMember],
) -> Result<Option<Broken>, AllocError>
    requires { (list : ℕ) × IsListAt tagged.now.program.types list kind marker (map part_of components.now) }
    ensures { IfOk result (λ o. MatchOption o
        (KeepBefore tagged.now.program.types kind marker (map part_of components.now) (length components.now))
        (λ b. BreaksListFirst tagged.now.program.types kind marker (map part_of components.now) b
        × (b.place < length components.now))) }
{
    let list = Members {
        kind,
        marker,
        members: components,
    };
    for place in 0..components.len() {
        let broken = member_breaks(alloc, tagged, list, place)?;
        match broken {
            Some(rule) => return Ok(Some(Broken { rule, place })),
            None => {}
        }
    }
    Ok(None)
}
