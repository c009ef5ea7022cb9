//! The order of a SET's components, and the encoding of each.

ghost use Rattle.asn_base.specs.Types.{Component};
ghost use Rattle.codec_code.specs.Routines.{field_of};
ghost use Rattle.encodings.specs.Orders.{Ascending, InTagOrder};
ghost use Rattle.std.specs.Prelude.{◌≡◌, ◌↔◌, [], IfNone, IfSome, IsTrue, List, MatchOption, MatchResult, Some as Some', false, slice_get, true, ℕ};
ghost use Rattle.der_check.specs.Strict.{ClimbsNot, StartsFirst};
ghost use Rattle.der_check.specs.Sets.{Climbs, IsAfter, IsOfNone, IsOfOne, Parted, ReadsComponents};
ghost use Rattle.der_check.specs.Places.{IsOnly};
ghost use Rattle.der_check.specs.Units.{AreUnits};

use crate::units::{both, distance, next_encoding};
use asn_base::order::tag_before;
use asn_base::schema::TypeId;
use asn_base::tag::Tag;
use codec_code::{Code, Field, Step};
use encodings::header_laws;
use next_tags::{can_begin, field_in, find};

/// The component at this place, of those that the steps read.
#[inline(always)]
pub(crate) fn field_at(steps: &[Step], place: usize) -> Option<Field>
    ensures { (cs : List Component) (c : Component)
        → ReadsComponents cs 0 steps.now
        → slice_get cs place ≡ Some' c
        → result ≡ Some' (field_of place c) }
{
    if place < steps.len() {
        field_in(steps[place])
    } else {
        None
    }
}

/// Whether the tag can be the first one of a component that the steps read.
fn is_known(code: &Code, steps: &[Step], tag: Tag) -> bool
    ensures yes { result ≡ true → (cs : List Component) → ReadsComponents cs 0 steps.now → IsOfOne code.now tag cs }
    ensures no { result ≡ false → (cs : List Component) → ReadsComponents cs 0 steps.now → IsOfNone code.now tag cs }
{
    match find(code, steps, tag) {
        Some(_) => true,
        None => false,
    }
}

/// Whether the tag comes after the last one, if there is one.
fn is_after(last: Option<Tag>, tag: Tag) -> bool
    ensures { IsTrue result ↔ IsAfter last tag }
{
    match last {
        Some(one) => tag_before(one, tag),
        None => true,
    }
}

/// The last tag of a component's encoding, once an encoding of this tag is added, and whether that one is a
/// component's. The result is None if it is a component's, and out of order.
fn next_last(
    code: &Code,
    steps: &[Step],
    last: Option<Tag>,
    tag: Tag,
) -> Option<(Option<Tag>, bool)>
    ensures some { IfSome result (λ r. (cs : List Component)
        → ReadsComponents cs 0 steps.now
        → Climbs code.now cs tag last r.0 r.1) }
    ensures none { IfNone result ((cs : List Component)
        → ReadsComponents cs 0 steps.now
        → IsOfOne code.now tag cs × (IsAfter last tag → ⊥)) }
{
    if !is_known(code, steps, tag) {
        return Some((last, false));
    }
    if !is_after(last, tag) {
        return None;
    }
    Some((Some(tag), true))
}

/// Whether there are others among the encodings of components, if these ascend by their tags. The result is false if
/// there are. It is the offset of the first one that is out of order if they don't ascend.
pub(crate) fn do_climb(code: &Code, steps: &[Step], contents: &[u8]) -> Result<bool, usize>
    ensures { (cs : List Component) (ys zs us : List (List ℕ))
        → ReadsComponents cs 0 steps.now
        → AreUnits ys contents.now
        → Parted code.now cs ys zs us
        → MatchResult result (λ b. Ascending InTagOrder zs × (IsTrue b ↔ (us ≡ [])))
        (ClimbsNot zs ys contents.now) }
{
    header_laws();
    let mut rest = contents;
    let mut last: Option<Tag> = None;
    let mut whole = true;
    while !rest.is_empty() {
        let Some(next) = next_encoding(rest) else {
            return Err(0);
        };
        let (now, known) = match next_last(code, steps, last, next.tag) {
            Some(found) => found,
            None => return Err(distance(contents, rest)),
        };
        last = now;
        whole = both(whole, known);
        rest = next.rest;
    }
    Ok(whole)
}

/// The encoding whose tag can be the first one of the type, with its offset, or None if there is none.
pub(crate) fn find_first<'a>(
    code: &Code,
    id: TypeId,
    contents: &'a [u8],
) -> Option<(usize, &'a [u8])>
    ensures { (ys : List (List ℕ)) (x : List ℕ)
        → AreUnits ys contents.now
        → IsOnly code.now id.index ys x
        → MatchOption result ⊥ (λ r. (r.1.now ≡ x) × StartsFirst x r.0 ys) }
{
    header_laws();
    let mut rest = contents;
    while !rest.is_empty() {
        let Some(next) = next_encoding(rest) else {
            return None;
        };
        if can_begin(code, id, next.tag) {
            return Some((distance(contents, rest), next.octets));
        }
        rest = next.rest;
    }
    None
}
