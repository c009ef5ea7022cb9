//! The octets of members, which are spans of the list of octets.

ghost use Rattle.std.specs.Prelude.{◌≡◌, ◌++◌, List, OnOk, drop, take, true, ℕ};
ghost use Rattle.der_layout.specs.Tables.{span, spans};

use crate::table::{Member, with_room};
use std::alloc::{AllocError, Global};

/// The first octets, at most this number.
#[inline(always)]
fn first_of(octets: &[u8], count: usize) -> &[u8]
    ensures { result.now ≡ take count octets.now }
{
    if count < octets.len() {
        &octets[..count]
    } else {
        octets
    }
}

/// The octets without the first ones.
#[inline(always)]
pub(crate) fn rest_of(octets: &[u8], count: usize) -> &[u8]
    ensures { result.now ≡ drop count octets.now }
{
    if count < octets.len() {
        &octets[count..]
    } else {
        &[]
    }
}

/// The octets of a member.
#[inline(always)]
pub(crate) fn octets_of<'o>(octets: &'o [u8], member: &Member) -> &'o [u8]
    ensures { result.now ≡ span octets.now member.now }
{
    rest_of(first_of(octets, member.end), member.start)
}

/// Adds the octets of the members, one member after another. `AllocError` only if an allocation fails.
#[tactic(auto, using(crate::proofs::SpansOf::next_span, crate::proofs::SpansOf::no_span))]
fn push_members(octets: &[u8], members: &[Member], out: &mut Vec<u8>) -> Result<(), AllocError>
    ensures { OnOk result (out.new.items ≡ out.old.items ++ spans octets.now members.now) }
{
    for i in 0..members.len() {
        let member = members[i];
        out.extend_from_slice(octets_of(octets, &member))?;
    }
    Ok(())
}

/// Whether the members follow one another from `start` to `next` in this order.
#[tactic(auto, using(crate::proofs::InPlace::all_in_place))]
fn are_in_place(start: usize, next: usize, members: &[Member]) -> bool
    ensures { result ≡ true → (o : List ℕ) → take start o ++ (spans o members.now ++ drop next o) ≡ o }
{
    let mut at = start;
    for i in 0..members.len() {
        let member = members[i];
        if member.start != at || member.end < at {
            return false;
        }
        at = member.end;
    }
    at == next
}

/// Puts the octets of the members in this order, after the octets before `start`. What was at `next` follows them.
/// Nothing moves if they are in this order. `AllocError` only if an allocation fails.
pub(crate) fn put_members(
    alloc: Global,
    octets: &mut Vec<u8>,
    start: usize,
    next: usize,
    members: &[Member],
) -> Result<(), AllocError>
    ensures { OnOk result (octets.new.items
        ≡ take start octets.old.items ++ (spans octets.old.items members.now ++ drop next octets.old.items)) }
{
    if are_in_place(start, next, members) {
        return Ok(());
    }
    let mut arranged = with_room(alloc, octets.len().saturating_sub(start));
    push_members(octets.as_slice(), members, &mut arranged)?;
    arranged.extend_from_slice(rest_of(octets.as_slice(), next))?;
    octets.truncate(start);
    octets.extend_from_slice(arranged.as_slice())?;
    Ok(())
}
