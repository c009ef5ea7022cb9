//! The types of the schema.

ghost use Rattle.std.specs.Prelude.{◌≡◌, ◌++◌, ◌∷◌, [], ◌<◌, ◌≤◌, IfOk, IfSome, OnOk, length, true};
ghost use Rattle.asn_base.specs.Seen.{resolved_of, types_of};
ghost use Rattle.type_table.specs.Lists.{AreSound};
ghost use Rattle.settled.specs.additions.Additions.{KeepAdditions};
ghost use Rattle.settled.specs.Settled.{IsProgramSchema};
ghost use Rattle.extensions.specs.proving.Cores.{AreAlike};
ghost use Rattle.extensions.specs.proving.Tables.{AreEach, AreTabled, IsResolved, table_seen};

use crate::builder::Builder;
use crate::pool::Shared;
use crate::types::{resolved, shared};
use asn_base::schema::{Resolved, TypeId};
use constraints::Bounded;
use std::alloc::{AllocError, Global};

/// For each number that `Bounded::limit_number` gives, the first type with that number that is made already.
#[derive(Drop)]
struct Firsts {
    numbers: Vec<Option<usize>>,
}

impl Firsts {
    /// A table for `count` numbers, in which no type is noted. `AllocError` only if an allocation fails.
    fn none(alloc: Global, count: usize) -> Result<Self, AllocError> {
        Ok(Firsts {
            numbers: vec![in alloc; None; count]?,
        })
    }

    /// The type that is noted for this number, if there is one.
    fn first(&self, number: Option<usize>) -> Option<usize> {
        match number {
            None => None,
            Some(number) => match self.numbers.get(number) {
                None => None,
                Some(first) => *first,
            },
        }
    }

    /// Notes a type for this number, unless another type is noted for it already.
    fn note(&mut self, number: Option<usize>, ty: usize) {
        let Some(number) = number else {
            return;
        };
        if number < self.numbers.len() && self.numbers[number].is_none() {
            self.numbers[number] = Some(ty);
        }
    }
}

/// Whether two types are known to be the same after references and tags, with constraints that leave the same values.
fn are_alike(bounded: &Bounded<'_>, one: TypeId, other: TypeId) -> bool
    requires one { one.index < length bounded.now.program.types }
    requires other { other.index < length bounded.now.program.types }
    ensures { result ≡ true → AreAlike bounded.now.program one.index other.index }
{
    let linked = bounded.linked();
    let first = linked.core(one).index;
    let second = linked.core(other).index;
    if first == second {
        bounded.leave_the_same(one, other)
    } else {
        false
    }
}

/// An earlier type that is known to be the same as this one after references and tags, or None.
fn earlier(bounded: &Bounded<'_>, types: &[Resolved], firsts: &Firsts, ty: TypeId) -> Option<usize>
    requires there { ty.index < length bounded.now.program.types }
    requires few { length types.now ≤ ty.index }
    ensures made { IfSome result (λ j. j < length types.now) }
    ensures alike { IfSome result (λ j. AreAlike bounded.now.program j ty.index) }
{
    let Some(first) = firsts.first(bounded.limit_number(ty)) else {
        return None;
    };
    if first >= types.len() {
        return None;
    }
    if are_alike(bounded, TypeId { index: first }, ty) {
        Some(first)
    } else {
        None
    }
}

/// The resolved type with this number, made without the help of an earlier one.
fn new_type(
    alloc: Global,
    bounded: &Bounded<'_>,
    ty: TypeId,
    table: &[Vec<Option<Shared>>],
) -> Result<Resolved, AllocError>
    requires there { ty.index < length bounded.now.program.types }
    requires sound { AreSound bounded.now.program.types }
    requires additions { KeepAdditions bounded.now.program.types }
    requires table { AreTabled bounded.now.program (length bounded.now.program.types) (table_seen table.now) }
    ensures { IfOk result (λ r. IsResolved bounded.now.program ty.index (resolved_of r)) }
{
    let core = bounded.linked().core(ty);
    match resolved(alloc, bounded, ty, &table[core.index]) {
        Ok(one) => Ok(one),
        Err(fault) => Err(fault),
    }
}

/// The resolved type with this number. It shares what it can with an earlier type.
fn type_of(
    builder: Builder<'_, '_>,
    types: &[Resolved],
    firsts: &Firsts,
    ty: TypeId,
    table: &[Vec<Option<Shared>>],
) -> Result<Resolved, AllocError>
    requires there { ty.index < length builder.bounded.now.program.types }
    requires sound { AreSound builder.bounded.now.program.types }
    requires additions { KeepAdditions builder.bounded.now.program.types }
    requires table { AreTabled builder.bounded.now.program (length builder.bounded.now.program.types)
        (table_seen table.now) }
    requires types { AreEach (IsResolved builder.bounded.now.program) ty.index (types_of types.now) }
    ensures { IfOk result (λ r. IsResolved builder.entry.bounded.now.program ty.index (resolved_of r)) }
{
    match earlier(builder.bounded, types, firsts, ty) {
        Some(first) => match shared(builder.alloc, builder.bounded, ty, first, &types[first]) {
            Ok(one) => Ok(one),
            Err(fault) => Err(fault),
        },
        None => match new_type(builder.alloc, builder.bounded, ty, table) {
            Ok(one) => Ok(one),
            Err(fault) => Err(fault),
        },
    }
}

/// Adds a type. `AllocError` only if an allocation fails.
fn add(types: &mut Vec<Resolved>, one: Resolved) -> Result<(), AllocError>
    ensures { OnOk result (types_of types.new.items ≡ types_of types.old.items ++ resolved_of one ∷ []) }
{
    types.push(one)?;
    Ok(())
}

/// A resolved type for each written type, with the same number. Types that are the same after references and tags share
/// what they are there. `AllocError` only if an allocation fails.
pub(crate) fn all_types(
    alloc: Global,
    bounded: &Bounded<'_>,
    table: &[Vec<Option<Shared>>],
) -> Result<Vec<Resolved>, AllocError>
    requires sound { AreSound bounded.now.program.types }
    requires additions { KeepAdditions bounded.now.program.types }
    requires table { AreTabled bounded.now.program (length bounded.now.program.types) (table_seen table.now) }
    ensures { IfOk result (λ v. IsProgramSchema bounded.now.program (types_of v.items)) }
{
    let builder = Builder { alloc, bounded };
    let count = bounded.linked().types().len();
    let mut firsts = Firsts::none(alloc, count)?;
    let mut types = Vec::new(alloc);
    for index in 0..count {
        let ty = TypeId { index };
        let one = type_of(builder, &types, &firsts, ty, table)?;
        firsts.note(bounded.limit_number(ty), index);
        add(&mut types, one)?;
    }
    Ok(types)
}
