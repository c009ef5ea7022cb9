//! Tests ranks: they don't fall from a type to its parts, and rise at components with a DEFAULT.

ghost use Rattle.std.specs.Prelude.{ℕ, ◌≡◌, ◌<◌, ◌≤◌, ◌∷◌, [], Some, length, map, slice_get, slice_index, IsTrue};
ghost use Rattle.circles.specs.proving.Ranks.{parts, AreFrom, Rise, DefaultsAbove};
ghost use Rattle.circles.specs.proving.Reach.{HasDefault};
ghost use Rattle.type_table.specs.Seen.{part_of, type_of, types_of};

use crate::reach::has_default;
use asn_base::ranking::{Graph, rank_at};
use type_table::{ListMember, Shape, TypeNode};

fn only(ty: usize, number: usize) -> Option<usize>
    ensures { result ≡ slice_get (ty ∷ []) number }
{
    if number == 0 { Some(ty) } else { None }
}

fn member_type(components: &[ListMember], number: usize) -> Option<usize>
    ensures { result ≡ slice_get (map (λ c. c.ty) (map part_of components.now)) number }
{
    match components.get(number) {
        None => None,
        Some(component) => Some(component.ty),
    }
}

/// A part of a type: a type that it directly contains or refers to, by its number among the parts, or None if it has
/// fewer.
fn part(written: &TypeNode, number: usize) -> Option<usize>
    ensures { result ≡ slice_get (parts (type_of written.now).kind) number }
{
    match &written.shape {
        Shape::Simple(_) => None,
        Shape::Reference(meant) => only(*meant, number),
        Shape::Tagged(_, _, inner) => only(*inner, number),
        Shape::Members(_, _, components) => member_type(components, number),
        Shape::Elements(_, element) => only(*element, number),
    }
}

/// Written types, each of which leads to its parts.
#[derive(Clone, Copy)]
pub(crate) struct WrittenTypes<'a>(pub &'a [TypeNode]);

impl Graph for WrittenTypes<'_> {
    fn count(&self) -> usize {
        self.0.len()
    }

    fn part(&self, ty: usize, number: usize) -> Option<usize> {
        match self.0.get(ty) {
            None => None,
            Some(written) => part(written, number),
        }
    }
}

fn part_count(written: &TypeNode) -> usize
    ensures { result ≡ length (parts (type_of written.now).kind) }
{
    match &written.shape {
        Shape::Simple(_) => 0,
        Shape::Reference(_) => 1,
        Shape::Tagged(_, _, _) => 1,
        Shape::Members(_, _, components) => components.len(),
        Shape::Elements(_, _) => 1,
    }
}

/// Whether the part with this number, if there is one, has a rank of at least `rank`.
fn rises(written: &TypeNode, number: usize, rank: usize, ranks: &[usize]) -> bool
    ensures { IsTrue result →
        (j : ℕ) →
        slice_get (parts (type_of written.now).kind) number ≡ Some j →
        rank ≤ slice_index ranks.now j }
{
    match part(written, number) {
        None => true,
        Some(ty) => rank <= rank_at(ranks, ty),
    }
}

/// Whether no part of a type has a rank below `rank`.
fn parts_rise(written: &TypeNode, rank: usize, ranks: &[usize]) -> bool
    ensures { IsTrue result → AreFrom rank ranks.now (type_of written.now).kind }
{
    for number in 0..part_count(written) {
        if !rises(written, number, rank, ranks) {
            return false;
        }
    }
    true
}

/// Whether no part of any type has a lower rank than the type.
pub(crate) fn all_rise(types: &[TypeNode], ranks: &[usize]) -> bool
    ensures { IsTrue result → Rise (types_of types.now) ranks.now }
{
    for ty in 0..types.len() {
        if !parts_rise(&types[ty], rank_at(ranks, ty), ranks) {
            return false;
        }
    }
    true
}

/// Whether a component has no DEFAULT, or its type has a rank above `rank`.
fn default_rises(component: &ListMember, rank: usize, ranks: &[usize]) -> bool
    ensures { IsTrue result → HasDefault (part_of component.now) → rank < slice_index ranks.now component.now.ty }
{
    if has_default(component) {
        return rank < rank_at(ranks, component.ty);
    }
    true
}

/// Whether the type of each component with a DEFAULT has a rank above `rank`.
pub(crate) fn defaults_rise(components: &[ListMember], rank: usize, ranks: &[usize]) -> bool
    ensures { IsTrue result → DefaultsAbove rank ranks.now (map part_of components.now) }
{
    for component in components {
        if !default_rises(component, rank, ranks) {
            return false;
        }
    }
    true
}
