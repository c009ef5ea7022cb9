//! The order of the members of a SET OF (X.690, 11.6) and of the components of a SET (10.3).

ghost use Rattle.std.specs.Int.Digits.{AllBelowBase};
ghost use Rattle.std.specs.Prelude.{◌≡◌, ◌+◌, ◌<◌, ◌↔◌, IfOk, IsTrue, List, OnOk, length, map, ℕ};
ghost use Rattle.codec_code.specs.Events.{by_octets, by_rank};
ghost use Rattle.der_layout.specs.Octets.{order};
ghost use Rattle.der_layout.specs.Tables.{Sorted, span};
ghost use Rattle.der_layout.specs.proving.Words.{beginnings_of, member_at, octets_after};

use crate::spans::{octets_of, rest_of};
use crate::table::{Member, with_room};
use crate::word::first_word;
use std::alloc::{AllocError, Global};
use std::cmp::Ordering;

/// How many members are sorted without a list of their beginnings.
const FEW: usize = 8;

/// A member of a list: its first eight octets as one number, and its place in the list.
#[derive(Clone, Copy)]
pub(crate) struct Beginning {
    pub word: u64,
    pub place: usize,
}

/// Sorts members of a SET OF by their octets in the list, where the shorter encoding is filled with zeros (X.690,
/// 11.6). Members with equal octets stay in their order. `AllocError` only if an allocation fails.
pub(crate) fn sort_by_octets(
    alloc: Global,
    octets: &[u8],
    members: &mut Vec<Member>,
) -> Result<(), AllocError>
    ensures { OnOk result (Sorted by_octets octets.now members.old.items members.new.items) }
{
    if members.len() <= FEW {
        return sort_few(octets, members);
    }
    *members = sorted_by_octets(alloc, octets, members.as_slice())?;
    Ok(())
}

/// Sorts the components of a SET by their ranks (X.690, 10.3). `AllocError` only if an allocation fails.
pub(crate) fn sort_by_rank(members: &mut Vec<Member>) -> Result<(), AllocError>
    ensures { (o : List ℕ) → OnOk result (Sorted by_rank o members.old.items members.new.items) }
{
    members.sort_by_key(|a| a.rank)?;
    Ok(())
}

/// Sorts a few members, each time by all their octets.
fn sort_few(octets: &[u8], members: &mut Vec<Member>) -> Result<(), AllocError>
    ensures { OnOk result (Sorted by_octets octets.now members.old.items members.new.items) }
{
    members.sort_by(|a, b| compare(octets_of(octets, a), octets_of(octets, b)))?;
    Ok(())
}

/// The members in their order. Most of them are compared by their first eight octets alone.
fn sorted_by_octets(
    alloc: Global,
    octets: &[u8],
    members: &[Member],
) -> Result<Vec<Member>, AllocError>
    ensures { IfOk result (λ s. Sorted by_octets octets.now members.now s.items) }
{
    let mut beginnings = beginnings(alloc, octets, members)?;
    beginnings.sort_by(|a, b| compare_beginnings(octets, members, a, b))?;
    let sorted = members_at(alloc, members, beginnings.as_slice())?;
    Ok(sorted)
}

/// The beginnings of the members.
#[tactic(auto, using(crate::proofs::Beginnings::next_beginning, crate::proofs::Beginnings::whole_beginnings))]
fn beginnings(
    alloc: Global,
    octets: &[u8],
    members: &[Member],
) -> Result<Vec<Beginning>, AllocError>
    ensures below { AllBelowBase 256 octets.now }
    ensures are { IfOk result (λ bs. bs.items ≡ beginnings_of octets.now members.now 0) }
{
    let mut all = with_room(alloc, members.len());
    for place in 0..members.len() {
        let member = members[place];
        let word = first_word(octets_of(octets, &member));
        all.push(Beginning { word, place })?;
    }
    Ok(all)
}

/// The member at a place.
#[inline(always)]
fn member(members: &[Member], place: usize) -> Member
    ensures { result ≡ member_at members.now place }
{
    if place < members.len() {
        members[place]
    } else {
        Member {
            rank: 0,
            number: 0,
            start: 0,
            end: 0,
        }
    }
}

/// The members in the order of their beginnings.
fn members_at(
    alloc: Global,
    members: &[Member],
    beginnings: &[Beginning],
) -> Result<Vec<Member>, AllocError>
    ensures { IfOk result (λ all. all.items ≡ map (λ b. member_at members.now b.place) beginnings.now) }
{
    let mut all = with_room(alloc, beginnings.len());
    for i in 0..beginnings.len() {
        all.push(member(members, beginnings[i].place))?;
    }
    Ok(all)
}

/// The order of two members of a list by their first eight octets, or else by all octets.
#[inline(always)]
#[tactic(auto, using(crate::proofs::Words::first_less, crate::proofs::Words::first_more, crate::proofs::Words::first_same))]
fn compare_beginnings(octets: &[u8], members: &[Member], a: &Beginning, b: &Beginning) -> Ordering
    ensures { result ≡ order (octets_after octets.now members.now a.now) (octets_after octets.now members.now b.now) }
{
    if a.word < b.word {
        return Ordering::Less;
    }
    if b.word < a.word {
        return Ordering::Greater;
    }
    compare_whole(octets, members, a.place, b.place)
}

/// The order of two members of a list by all octets.
#[inline(never)]
fn compare_whole(octets: &[u8], members: &[Member], a: usize, b: usize) -> Ordering
    ensures { result ≡ order (span octets.now (member_at members.now a)) (span octets.now (member_at members.now b)) }
{
    compare(
        octets_of(octets, &member(members, a)),
        octets_of(octets, &member(members, b)),
    )
}

/// Whether one of the two has octets.
#[inline(always)]
fn has_more(a: &[u8], b: &[u8]) -> bool
    ensures { IsTrue result ↔ 0 < length a.now + length b.now }
{
    a.len() + b.len() > 0
}

/// The order of two encodings, where the shorter one is filled with zeros. Eight octets are compared at a time.
fn compare(a: &[u8], b: &[u8]) -> Ordering
    ensures { result ≡ order a.now b.now }
{
    let mut x = a;
    let mut y = b;
    while has_more(x, y) {
        let p = first_word(x);
        let q = first_word(y);
        if p < q {
            return Ordering::Less;
        }
        if q < p {
            return Ordering::Greater;
        }
        x = rest_of(x, 8);
        y = rest_of(y, 8);
    }
    Ordering::Equal
}
