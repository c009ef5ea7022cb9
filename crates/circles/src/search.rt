//! Components with a DEFAULT whose types lead back to the lists that hold them.

ghost use Rattle.std.specs.Prelude.{ℕ, ◌≡◌, ◌<◌, ◌+◌, ◌↔◌, length, slice_get, slice_index, map, IfOk, OnOk, IsTrue, MatchOption};
ghost use Rattle.type_table.specs.Seen.{types_of, part_of};
ghost use Rattle.type_table.specs.Table.{IsClosed, HasMembers, HasElements};
ghost use Rattle.circles.specs.Circles.{IsWrittenDefaultCircle, IsFirstDefaultCircle, NoDefaultCircles};
ghost use Rattle.circles.specs.proving.Ranks.{Rise, DefaultsAbove};
ghost use Rattle.circles.specs.proving.Reach.{HasParts, AreUpTo};

use crate::ranks::{WrittenTypes, all_rise, defaults_rise};
use crate::reach::lead_to;
use asn_base::ranking::{rank_at, ranks_of};
use std::alloc::{AllocError, Global};
use type_table::{ListMember, Shape, TypeNode};

/// Whether ranks rise, and the types of a list's components with a DEFAULT have higher ranks than the list.
fn is_above(ranks: &[usize], rise: bool, list: usize, components: &[ListMember]) -> bool
    ensures { IsTrue result →
        IsTrue rise × DefaultsAbove (slice_index ranks.now list) ranks.now (map part_of components.now) }
{
    rise && defaults_rise(components, rank_at(ranks, list), ranks)
}

/// Types with their ranks, and whether these rise.
#[derive(Clone, Copy)]
struct Ranked<'a> {
    types: &'a [TypeNode],
    ranks: &'a [usize],
    rise: bool,
}

/// Whether a type is a list that its own components with a DEFAULT lead back to. If ranks rise and those components
/// have higher ones, they don't. Otherwise the function searches what they lead to for the list.
fn is_in_circle(
    alloc: Global,
    ranked: Ranked<'_>,
    list: usize,
    marks: &mut [usize],
) -> Result<bool, AllocError>
    requires parts { HasParts (types_of ranked.types.now) }
    requires ranked { IsTrue ranked.rise → Rise (types_of ranked.types.now) ranked.ranks.now }
    requires long { length marks.old ≡ length ranked.types.now }
    requires there { list < length ranked.types.now }
    requires earlier { AreUpTo list marks.old }
    ensures circle { IfOk result (λ b. IsTrue b ↔ IsWrittenDefaultCircle (types_of ranked.entry.types.now) list) }
    ensures marks { OnOk result (AreUpTo (list + 1) marks.new) }
{
    let types = ranked.types;
    match &types[list].shape {
        Shape::Members(_, _, components) => {
            if is_above(ranked.ranks, ranked.rise, list, components) {
                return Ok(false);
            }
            let back = lead_to(alloc, types, components, list, marks)?;
            Ok(back)
        }
        _ => Ok(false),
    }
}

/// The first list in a circle, or None if there is none.
fn first_circle(
    alloc: Global,
    ranked: Ranked<'_>,
    marks: &mut [usize],
) -> Result<Option<usize>, AllocError>
    requires parts { HasParts (types_of ranked.types.now) }
    requires ranked { IsTrue ranked.rise → Rise (types_of ranked.types.now) ranked.ranks.now }
    requires long { length marks.old ≡ length ranked.types.now }
    requires earlier { AreUpTo 0 marks.old }
    ensures { IfOk result
        (λ o. MatchOption o (NoDefaultCircles (types_of ranked.entry.types.now))
        (λ i. (i < length ranked.entry.types.now) × IsFirstDefaultCircle (types_of ranked.entry.types.now) i)) }
{
    for list in 0..ranked.types.len() {
        if is_in_circle(alloc, ranked, list, marks)? {
            return Ok(Some(list));
        }
    }
    Ok(None)
}

/// Returns the number of the first list in a circle, or None. The list has a component with a DEFAULT whose type leads
/// back to it (X.680, clause 25.7). Types in a circle have one rank, so only one list needs a search. `AllocError`
/// comes only if an allocation fails.
pub fn circle_of(alloc: Global, types: &[TypeNode]) -> Result<Option<usize>, AllocError>
    requires closed { IsClosed (types_of types.now) }
    requires parts { HasMembers (types_of types.now) }
    requires inner { HasElements (types_of types.now) }
    ensures { IfOk result
        (λ o. MatchOption o (NoDefaultCircles (types_of types.now))
        (λ i. (i < length types.now) × IsFirstDefaultCircle (types_of types.now) i)) }
{
    let numbers = ranks_of(alloc, &WrittenTypes(types))?;
    let ranks = numbers.as_slice();
    let rise = all_rise(types, ranks);
    let ranked = Ranked { types, ranks, rise };
    let mut marks = vec![in alloc; 0; types.len()]?;
    let circle = first_circle(alloc, ranked, &mut marks)?;
    Ok(circle)
}
