//! What the constraints of all types allow, found once.

ghost use Rattle.std.specs.Prelude.{◌≡◌, ◌<◌, ℕ, IfOk, IfErr, OnOk, Some, length, map, slice_get, option_map, MatchResult};
ghost use Rattle.type_table.specs.Seen.{kind_of, type_of, types_of};
ghost use Rattle.type_table.specs.Table.{IsLinked, target as target', next};
ghost use Rattle.range_ends.specs.Cores.{HasKind};
ghost use Rattle.range_ends.specs.Ends.{IsTypeOfKind};
ghost use Rattle.constraints.specs.proving.Reported.{IsWrittenAt, ReportsTypeFault, ReportsOne, ReportsFirstOf, AreTargets};
ghost use Rattle.constraints.specs.proving.Columns.{AreNoted, AreAllNoted, IsNoted, IsTrail, IsFault, IsStartOf, IsLimitOf, IsShared, fault_of, held, limit_noted, number_noted};

use crate::limit::{Limit, first_limit, limit_of};
use crate::meaning::{ConstraintFault, Rule};
use asn_base::schema::TypeId;
use range_ends::{Counted, RangeContext, ReferenceTable};
use resolve::{Linked, NamedShape};
use std::alloc::{AllocError, Global};
use type_table::{Shape, TypeNode};

/// What is wrong with the constraints of a type.
#[derive(Clone, Copy)]
pub(crate) enum Fault {
    /// An allocation failed.
    Memory,
    /// An end leads into a circle of values. This one, by its number, is the first that is met a second time.
    Circular(usize),
    /// The type breaks the rule, at the place.
    At(Rule, usize, usize),
}

/// The type that a reference or tag leads to, or None if the type is neither.
fn target(written: &TypeNode) -> Option<usize>
    ensures { result ≡ target' (kind_of written.now.shape) }
{
    match &written.shape {
        Shape::Reference(ty) => Some(*ty),
        Shape::Tagged(_, _, ty) => Some(*ty),
        _ => None,
    }
}

/// The types from `start` on through references and tags, up to the first for which a limit is noted.
fn trail(
    alloc: Global,
    types: &[TypeNode],
    at: &[Option<usize>],
    start: usize,
) -> Result<Vec<usize>, AllocError>
    requires linked { IsLinked (types_of types.now) }
    requires long { length at.now ≡ length types.now }
    requires there { start < length types.now }
    ensures trail { IfOk result (λ v. IsTrail (types_of types.now) at.now start v.items) }
    ensures target { IfOk result (λ v. AreTargets (types_of types.now) start v.items) }
{
    let mut all = Vec::new(alloc);
    let mut ty = start;
    for step in 0..types.len() {
        if at[ty].is_some() {
            return Ok(all);
        }
        all.push(ty)?;
        match target(&types[ty]) {
            None => return Ok(all),
            Some(next) => ty = next,
        }
    }
    Ok(all)
}

/// What [`crate::bound`] finds once for the constraints of tagged modules: for each type the number of its limit. The
/// table owns its memory and borrows no modules, so an owner of modules can keep it beside them.
/// [`crate::Bounded::with_table`] puts both together again.
pub struct BoundTable {
    pub(crate) at: Vec<Option<usize>>,
    pub(crate) limits: Vec<Limit>,
}

/// A table that is owned, or one that someone else owns.
#[derive(Drop)]
pub(crate) enum TableRef<'a> {
    Owned(BoundTable),
    Lent(&'a BoundTable),
}

impl<'a> TableRef<'a> {
    /// The table.
    pub(crate) fn get(&self) -> &BoundTable
        ensures { result.now ≡ held self.now }
    {
        match self {
            TableRef::Owned(table) => table,
            TableRef::Lent(table) => table,
        }
    }
}

/// The fault of a type whose constraints have this fault.
fn fault_at(wrong: ConstraintFault, ty: usize) -> Fault
    ensures { result ≡ fault_of wrong ty }
{
    match wrong {
        ConstraintFault::Memory => Fault::Memory,
        ConstraintFault::Circular(value) => Fault::Circular(value),
        ConstraintFault::At(rule, at) => Fault::At(rule, ty, at),
    }
}

impl BoundTable {
    /// The number of the limit of a type, or None if none is noted.
    pub(crate) fn number(&self, ty: usize) -> Option<usize>
        ensures { result ≡ number_noted self.now.at.items ty }
    {
        match self.at.get(ty) {
            None => None,
            Some(noted) => *noted,
        }
    }

    /// The limit of a type, or None if none is noted.
    pub(crate) fn limit(&self, ty: usize) -> Option<&Limit>
        ensures { option_map (λ l. l.now) result ≡ limit_noted self.now.at.items self.now.limits.items ty }
    {
        match self.at.get(ty) {
            None => None,
            Some(None) => None,
            Some(Some(number)) => self.limits.get(*number),
        }
    }
}

/// A type as it is written in a text.
pub(crate) fn written_at(linked: &Linked, ty: usize) -> &TypeNode
    requires { ty < length linked.now.program.types }
    ensures there { slice_get linked.now.program.types ty ≡ Some (type_of result.now) }
    ensures written { IsWrittenAt linked.now ty result.now }
{
    &linked.types()[ty]
}

/// The shape that a type's references and tags lead to.
pub(crate) fn core_at(linked: &Linked, ty: usize) -> &Shape
    requires { ty < length linked.now.program.types }
    ensures { IsTypeOfKind linked.now.program.types ty (kind_of result.now) }
{
    let core = linked.core(TypeId { index: ty });
    let written = written_at(linked, core.index);
    &written.shape
}

/// The number of the type that a type's references and tags lead to, and the shape of that type with the names that the
/// shape lists.
fn named_core(linked: &Linked, ty: usize) -> (usize, NamedShape<'_>)
    requires { ty < length linked.now.program.types }
    ensures kind { IsTypeOfKind linked.now.program.types ty (kind_of result.1) }
    ensures core { HasKind linked.now.program.types result.0 (kind_of result.1) }
{
    let core = linked.core(TypeId { index: ty });
    let _written = written_at(linked, core.index);
    (core.index, linked.shape(core))
}

/// What is allowed before the constraints that are written on a type.
fn start_of(
    alloc: Global,
    linked: &Linked,
    column: &BoundTable,
    ty: usize,
) -> Result<Limit, AllocError>
    requires there { ty < length linked.now.program.types }
    requires noted { AreNoted linked.now.program column.now.at.items column.now.limits.items }
    requires target { (j : ℕ) → next linked.now.program.types ty ≡ Some j → IsNoted column.now.at.items j }
    ensures { IfOk result (IsStartOf linked.now.program ty) }
{
    let written = written_at(linked, ty);
    match target(written) {
        None => match first_limit(alloc, &written.shape) {
            Ok(first) => Ok(first),
            Err(fault) => Err(fault),
        },
        Some(next) => match column.limit(next) {
            None => first_limit(alloc, &written.shape),
            Some(limit) => match limit.copy() {
                Ok(copy) => Ok(copy),
                Err(fault) => Err(fault),
            },
        },
    }
}

/// The limit of a type of linked modules. If the type is a reference or a tag, the limit of the type that it leads to
/// is noted.
fn limit_in(
    alloc: Global,
    linked: &Linked,
    scope: &ReferenceTable<'_>,
    column: &BoundTable,
    ty: usize,
) -> Result<Limit, Fault>
    requires same { linked.now ≡ scope.now }
    requires there { ty < length linked.now.program.types }
    requires noted { AreNoted linked.now.program column.now.at.items column.now.limits.items }
    requires target { (j : ℕ) → next linked.now.program.types ty ≡ Some j → IsNoted column.now.at.items j }
    ensures found { MatchResult result (IsLimitOf linked.now.program ty) (IsFault linked.now.program) }
    ensures first { IfErr result (ReportsTypeFault linked.now ty) }
{
    linked.lemma_whole();
    let start = match start_of(alloc, linked, column, ty) {
        Ok(start) => start,
        Err(_) => return Err(Fault::Memory),
    };
    start.codes.in_order();
    let (core, shape) = named_core(linked, ty);
    let home = linked.home(TypeId { index: ty });
    let written = written_at(linked, ty);
    let site = RangeContext {
        scope,
        shape: &shape,
        core,
        within: home.module,
        of: Counted::Numbers,
    };
    match limit_of(alloc, &site, start, &written.constraints, written.at) {
        Ok(limit) => Ok(limit),
        Err(wrong) => Err(fault_at(wrong, ty)),
    }
}

/// The limit of a type. If the type is a reference or a tag, the limit of the type that it leads to is noted.
fn limit_at(
    alloc: Global,
    scope: &ReferenceTable<'_>,
    column: &BoundTable,
    ty: usize,
) -> Result<Limit, Fault>
    requires there { ty < length scope.now.program.types }
    requires noted { AreNoted scope.now.program column.now.at.items column.now.limits.items }
    requires target { (j : ℕ) → next scope.now.program.types ty ≡ Some j → IsNoted column.now.at.items j }
    ensures found { MatchResult result (IsLimitOf scope.now.program ty) (IsFault scope.now.program) }
    ensures first { IfErr result (ReportsTypeFault scope.now ty) }
{
    limit_in(alloc, scope.linked(), scope, column, ty)
}

/// The type that a reference or tag without constraints leads to, or None for any other type.
fn shared(linked: &Linked, ty: usize) -> Option<usize>
    requires { ty < length linked.now.program.types }
    ensures { (j : ℕ) → result ≡ Some j → IsShared linked.now.program.types ty j }
{
    let written = written_at(linked, ty);
    if written.constraints.is_empty() {
        target(written)
    } else {
        None
    }
}

/// Notes the limit of a type. If the type is a reference or a tag, the limit of the type that it leads to is noted
/// already.
fn note(
    alloc: Global,
    scope: &ReferenceTable<'_>,
    column: &mut BoundTable,
    ty: usize,
) -> Result<(), Fault>
    requires there { ty < length scope.now.program.types }
    requires noted { AreNoted scope.now.program column.old.at.items column.old.limits.items }
    requires target { (j : ℕ) → next scope.now.program.types ty ≡ Some j → IsNoted column.old.at.items j }
    ensures noted { OnOk result (AreNoted scope.now.program column.new.at.items column.new.limits.items) }
    ensures it { OnOk result (IsNoted column.new.at.items ty) }
    ensures kept { OnOk result ((i : ℕ) → IsNoted column.old.at.items i → IsNoted column.new.at.items i) }
    ensures fault { IfErr result (IsFault scope.now.program) }
    ensures first { IfErr result (ReportsTypeFault scope.now ty) }
{
    match shared(scope.linked(), ty) {
        Some(next) => match column.number(next) {
            None => Ok(()),
            Some(number) => {
                column.at[ty] = Some(number);
                Ok(())
            }
        },
        None => {
            let limit = match limit_at(alloc, scope, column, ty) {
                Ok(limit) => limit,
                Err(fault) => return Err(fault),
            };
            let number = column.limits.len();
            match column.limits.push(limit) {
                Ok(()) => {}
                Err(_) => return Err(Fault::Memory),
            }
            column.at[ty] = Some(number);
            Ok(())
        }
    }
}

/// Notes the limits of the types of a trail, the last one first.
fn note_trail(
    alloc: Global,
    scope: &ReferenceTable<'_>,
    column: &mut BoundTable,
    start: usize,
    trail: &[usize],
) -> Result<(), Fault>
    requires noted { AreNoted scope.now.program column.old.at.items column.old.limits.items }
    requires trail { IsTrail scope.now.program.types column.old.at.items start trail.now }
    ensures noted { OnOk result (AreNoted scope.now.program column.new.at.items column.new.limits.items) }
    ensures it { OnOk result (IsNoted column.new.at.items start) }
    ensures kept { OnOk result ((i : ℕ) → IsNoted column.old.at.items i → IsNoted column.new.at.items i) }
    ensures fault { IfErr result (IsFault scope.now.program) }
    ensures first { IfErr result (ReportsOne scope.now trail.now) }
{
    for step in 0..trail.len() {
        let ty = trail[trail.len() - 1 - step];
        match note(alloc, scope, column, ty) {
            Ok(()) => {}
            Err(fault) => return Err(fault),
        }
    }
    Ok(())
}

/// A column in which no limit is noted.
fn nothing_noted(alloc: Global, count: usize) -> Result<Vec<Option<usize>>, AllocError>
    ensures { IfOk result (λ at. (length at.items ≡ count) × ((i a : ℕ) → slice_get at.items i ≡ Some (Some a) → ⊥)) }
{
    let mut at = Vec::new(alloc);
    for step in 0..count {
        at.push(None)?;
    }
    Ok(at)
}

/// The limits of all types, or the first fault of their constraints.
pub(crate) fn column_of(alloc: Global, scope: &ReferenceTable<'_>) -> Result<BoundTable, Fault>
    ensures found { MatchResult result
        (λ c. AreAllNoted scope.now.program c.at.items c.limits.items)
        (IsFault scope.now.program) }
    ensures first { IfErr result (ReportsFirstOf scope.now) }
{
    let types = scope.linked().types();
    let at = match nothing_noted(alloc, types.len()) {
        Ok(at) => at,
        Err(_) => return Err(Fault::Memory),
    };
    let mut column = BoundTable {
        at,
        limits: Vec::new(alloc),
    };
    for ty in 0..types.len() {
        let found = match trail(alloc, types, &column.at, ty) {
            Ok(found) => found,
            Err(_) => return Err(Fault::Memory),
        };
        match note_trail(alloc, scope, &mut column, ty, &found) {
            Ok(()) => {}
            Err(fault) => return Err(fault),
        }
    }
    Ok(column)
}

impl Drop for BoundTable {
    fn drop(self) {
        let BoundTable { at: _, limits: _ } = self;
    }
}
