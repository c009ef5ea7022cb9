//! Unfolding: from a type through references and tags to its core.

ghost use Rattle.std.specs.Prelude.{◌≡◌, ℕ, ◌<◌, length, Ok, Err, IfErr, List, MatchResult, Some};
ghost use Rattle.type_table.specs.Seen.{type_of, types_of};
ghost use Rattle.type_table.specs.Faults.{IsFirstCircle};
ghost use Rattle.type_table.specs.Table.{target, walk, IsClosed, IsCircular, IsUnderlying, Type'};
ghost use Rattle.type_table.specs.proving.Cores.{AreKnown, AreCores};
ghost use Rattle.type_table.specs.proving.Notes.{IsKnown, AreUnknown};

use crate::table::{Shape, TypeNode};

/// The type that a reference or a tag leads to, or None for any other type.
pub fn next(written: &TypeNode) -> Option<usize>
    ensures { result ≡ target (type_of written.now).kind }
{
    match &written.shape {
        Shape::Reference(j) => Some(*j),
        Shape::Tagged(_, _, j) => Some(*j),
        _ => None,
    }
}

/// The core of a type. The walk ends at a type whose core is already noted. The error is a type that comes back to
/// itself.
fn core_by(types: &[TypeNode], cores: &[usize], start: usize) -> Result<usize, usize>
    requires closed { IsClosed (types_of types.now) }
    requires long { length cores.now ≡ length types.now }
    requires known { AreKnown (types_of types.now) cores.now }
    requires there { start < length types.now }
    ensures core { MatchResult result (λ c. (c < length types.now) × IsUnderlying (types_of types.now) start c)
        (λ i. (i < length types.now) × IsCircular (types_of types.now) i) }
    ensures far { IfErr result (λ i. walk (types_of types.now) (length (types_of types.now)) start ≡ Some i) }
{
    let mut at = start;
    for step in 0..types.len() {
        let known = cores[at];
        if known < types.len() {
            return Ok(known);
        }
        match next(&types[at]) {
            None => return Ok(at),
            Some(j) => at = j,
        }
    }
    Err(at)
}

/// Notes the core of a type for it and for each type on the way to the first one whose core was noted before.
fn note(types: &[TypeNode], cores: &mut [usize], start: usize, core: usize)
    requires long { length cores.old ≡ length types.now }
    requires known { AreKnown (types_of types.now) cores.old }
    requires there { start < length types.now }
    requires within { core < length types.now }
    requires core { IsUnderlying (types_of types.now) start core }
    requires closed { IsClosed (types_of types.now) }
    ensures known { AreKnown (types_of types.now) cores.new }
    ensures kept { (i : ℕ) → IsKnown (length types.now) cores.old i → IsKnown (length types.now) cores.new i }
    ensures noted { IsKnown (length types.now) cores.new start }
{
    cores[start] = core;
    let mut at = start;
    for step in 0..types.len() {
        match next(&types[at]) {
            None => return,
            Some(j) => at = j,
        }
        if cores[at] < types.len() {
            return;
        }
        cores[at] = core;
    }
}

/// Finds the core of each type. The error is a type that comes back to itself, to which the first type without a core
/// leads. No type is passed more than three times,
/// so the time depends only on the length of the table, even if its chains of references are long.
pub fn unfold_all(types: &[TypeNode], cores: &mut [usize]) -> Result<(), usize>
    requires closed { IsClosed (types_of types.now) }
    requires long { length cores.old ≡ length types.now }
    requires unknown { AreUnknown (length types.now) cores.old }
    ensures cores { MatchResult result (λ _. AreCores (types_of types.now) cores.new)
        (λ i. (i < length types.now) × IsCircular (types_of types.now) i) }
    ensures first { IfErr result (IsFirstCircle (types_of types.now)) }
{
    for i in 0..types.len() {
        match core_by(types, cores, i) {
            Ok(core) => note(types, cores, i, core),
            Err(circular) => return Err(circular),
        }
    }
    Ok(())
}

/// A type that unfolds to a core doesn't come back to itself.
pub fn not_both()
    ensures { (ts : List Type') (i c : ℕ) → IsUnderlying ts i c → IsCircular ts i → ⊥ }
{}
