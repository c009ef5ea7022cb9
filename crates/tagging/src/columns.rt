//! What is found once for all types: the types that their references lead to, and which lists are tagged automatically.

ghost use Rattle.std.specs.Prelude.{ℕ, ◌≡◌, ◌<◌, false, not, length, map, IfOk, MatchOption, Some, slice_get};
ghost use Rattle.std.specs.List.{list_any};
ghost use Rattle.type_table.specs.proving.Notes.{IsKnown, AreUnknown};
ghost use Rattle.type_table.specs.Seen.{kind_of, type_of, types_of};
ghost use Rattle.type_table.specs.Table.{IsUnderlying, IsLinked, reference};
ghost use Rattle.resolve.specs.Program.{IsWhole};
ghost use Rattle.tagging.specs.Tags.{bears_tag, automatic_kind, is_automatic};
ghost use Rattle.tagging.specs.Faults.{IsWrittenIn};
ghost use Rattle.tagging.specs.proving.Columns.{is_reference, Front, AreKnown, AreFronts, all_automatic, HoldsOf};

use crate::table::{TableRef, TagTable};
use asn_base::schema::TypeId;
use resolve::{Linked, QualifiedName};
use std::alloc::{AllocError, Global};
use std::marker::Model;
use trees::TagDefault;
use type_table::{ListMember, Shape, TypeNode};

/// The type that a type refers to, if it is a reference.
fn referred(written: &TypeNode) -> Option<usize>
    ensures { MatchOption result
        (is_reference (kind_of written.now.shape) ≡ false)
        (λ j. kind_of written.now.shape ≡ reference j) }
{
    match &written.shape {
        Shape::Reference(j) => Some(*j),
        _ => None,
    }
}

/// The first type, from `start` on through references, that is no reference. The search stops early at a type whose
/// front is noted already.
fn front_by(types: &[TypeNode], fronts: &[usize], start: usize) -> usize
    requires linked { IsLinked (types_of types.now) }
    requires long { length fronts.now ≡ length types.now }
    requires known { AreKnown (types_of types.now) fronts.now }
    requires there { start < length types.now }
    ensures front { Front (types_of types.now) start result }
    ensures within { result < length types.now }
{
    let mut at = start;
    for step in 0..types.len() {
        let known = fronts[at];
        if known < types.len() {
            return known;
        }
        match referred(&types[at]) {
            None => return at,
            Some(j) => at = j,
        }
    }
    at
}

/// Notes the front of a type for it and for all types that it leads to through references, up to one whose front is
/// noted already.
fn note(types: &[TypeNode], fronts: &mut [usize], start: usize, front: usize)
    requires linked { IsLinked (types_of types.now) }
    requires long { length fronts.old ≡ length types.now }
    requires known { AreKnown (types_of types.now) fronts.old }
    requires there { start < length types.now }
    requires within { front < length types.now }
    requires front { Front (types_of types.now) start front }
    ensures known { AreKnown (types_of types.now) fronts.new }
    ensures kept { (i : ℕ) → IsKnown (length types.now) fronts.old i → IsKnown (length types.now) fronts.new i }
    ensures noted { IsKnown (length types.now) fronts.new start }
{
    fronts[start] = front;
    let mut at = start;
    for step in 0..types.len() {
        match referred(&types[at]) {
            None => return,
            Some(j) => at = j,
        }
        if fronts[at] < types.len() {
            return;
        }
        fronts[at] = front;
    }
}

/// Notes the fronts of all types. No type is passed more than three times, so the time grows with the table's length
/// alone, however its references are chained.
fn note_all(types: &[TypeNode], fronts: &mut [usize])
    requires linked { IsLinked (types_of types.now) }
    requires long { length fronts.old ≡ length types.now }
    requires unknown { AreUnknown (length types.now) fronts.old }
    ensures { AreFronts (types_of types.now) fronts.new }
{
    for i in 0..types.len() {
        let front = front_by(types, fronts, i);
        note(types, fronts, i, front);
    }
}

fn fronts_of(alloc: Global, types: &[TypeNode]) -> Result<Vec<usize>, AllocError>
    requires { IsLinked (types_of types.now) }
    ensures { IfOk result (λ v. AreFronts (types_of types.now) v.items) }
{
    let count = types.len();
    let mut fronts = vec![in alloc; count; count]?;
    note_all(types, &mut fronts);
    Ok(fronts)
}

fn bears_tag_at(types: &[TypeNode], ty: usize) -> bool
    ensures { result ≡ bears_tag (slice_get (types_of types.now) ty) }
{
    match types.get(ty) {
        None => false,
        Some(written) => matches!(&written.shape, Shape::Tagged(_, _, _)),
    }
}

fn any_tagged(types: &[TypeNode], members: &[ListMember]) -> bool
    ensures { result ≡ list_any (λ c. bears_tag (slice_get (types_of types.now) c.ty)) members.now }
{
    members.iter().any(|c| bears_tag_at(types, c.ty))
}

/// Whether the members of a type are tagged automatically; false for a type that is no list.
fn numbers(types: &[TypeNode], written: &TypeNode) -> bool
    ensures { result ≡ automatic_kind (types_of types.now) (kind_of written.now.shape) written.now.default }
{
    match (&written.shape, written.default) {
        (Shape::Members(_, _, members), TagDefault::Automatic) => !any_tagged(types, members),
        _ => false,
    }
}

fn automatic_of(alloc: Global, types: &[TypeNode]) -> Result<Vec<bool>, AllocError>
    ensures { IfOk result (λ v. v.items ≡ all_automatic (types_of types.now)) }
{
    let mut automatic = Vec::new(alloc);
    for ty in 0..types.len() {
        match automatic.push(numbers(types, &types[ty])) {
            Ok(()) => {}
            Err(_) => return Err(AllocError),
        }
    }
    Ok(automatic)
}

/// Finds what is kept of the types of linked modules.
pub(crate) fn table_of(alloc: Global, linked: &Linked) -> Result<TagTable, AllocError>
    ensures { IfOk result (HoldsOf linked.now.program.types) }
{
    let types = linked.types();
    let fronts = fronts_of(alloc, types)?;
    let automatic = automatic_of(alloc, types)?;
    Ok(TagTable { fronts, automatic })
}

/// Linked modules, with what is found once for all their types.
pub(crate) struct Columns<'a> {
    linked: &'a Linked,
    table: TableRef<'a>,
}

impl<'a> Model for Columns<'a> {
    ghost use Rattle.std.specs.Coded.{codes};
    ghost use Rattle.resolve.specs.Codes.{tree_code};
    ghost use Rattle.resolve.specs.Program.{WrittenProgram};
    ghost use Rattle.trees.specs.contracts.value.ValueSyntax as value_syntax;

    ghost coded = { Prim.hlevel (codes, tree_code, value_syntax.the_row.coded) };

    ghost Value = { WrittenProgram };

    ghost view = { λ c. c.linked.now };

    ghost use Rattle.tagging.specs.proving.Columns.{HoldsOf, held};

    ghost invariant = { λ c. HoldsOf c.linked.now.program.types (held c.table) };
}

impl<'a> Columns<'a> {
    /// Linked modules with a table of theirs, which the columns own.
    pub(crate) fn owning(linked: &'a Linked, table: TagTable) -> Columns<'a>
        requires { HoldsOf linked.now.program.types table }
        ensures { result ≡ linked.now }
    {
        Columns {
            linked,
            table: TableRef::Owned(table),
        }
    }

    /// Linked modules with a table of theirs, which someone else owns.
    pub(crate) fn lent(linked: &'a Linked, table: &'a TagTable) -> Columns<'a>
        requires { HoldsOf linked.now.program.types table.now }
        ensures { result ≡ linked.now }
    {
        Columns {
            linked,
            table: TableRef::Lent(table),
        }
    }

    /// The linked modules.
    pub(crate) fn linked(&self) -> &'a Linked
        ensures value { result.now ≡ self.now }
        ensures whole { IsWhole self.now.program }
    {
        self.linked.lemma_whole();
        self.linked
    }

    /// What is true of every table of linked types.
    pub(crate) fn lemma_whole(&self)
        ensures { IsLinked self.now.program.types }
    {
        let _types = self.linked.types();
    }

    /// How many types there are.
    pub(crate) fn len(&self) -> usize
        ensures { result ≡ length self.now.program.types }
    {
        self.linked.types().len()
    }

    /// A type as it is written.
    pub(crate) fn written(&self, ty: usize) -> &TypeNode
        requires { ty < length self.now.program.types }
        ensures written { slice_get self.now.program.types ty ≡ Some (type_of result.now) }
        ensures linked { IsLinked self.now.program.types }
    {
        &self.linked.types()[ty]
    }

    /// The first type, from `ty` on through references, that is no reference.
    pub(crate) fn front(&self, ty: usize) -> usize
        requires { ty < length self.now.program.types }
        ensures front { Front self.now.program.types ty result }
        ensures there { result < length self.now.program.types }
    {
        self.table.get().fronts[ty]
    }

    /// The type after all references and tags of a type.
    pub(crate) fn core(&self, ty: usize) -> usize
        requires { ty < length self.now.program.types }
        ensures core { IsUnderlying self.now.program.types ty result }
        ensures there { result < length self.now.program.types }
    {
        self.linked.core(TypeId { index: ty }).index
    }

    /// Whether the members of a type are tagged automatically; false for a type that is no list.
    pub(crate) fn numbers(&self, list: usize) -> bool
        ensures { result ≡ is_automatic self.now.program.types (slice_get self.now.program.types list) }
    {
        match self.table.get().automatic.get(list) {
            None => false,
            Some(numbers) => *numbers,
        }
    }

    /// Whether a member's type is a tag that is written in the list.
    pub(crate) fn bears_tag(&self, ty: usize) -> bool
        ensures { result ≡ bears_tag (slice_get self.now.program.types ty) }
    {
        bears_tag_at(self.linked.types(), ty)
    }

    /// The module and the assignment in which a type is written.
    pub(crate) fn home(&self, ty: usize) -> QualifiedName<'_>
        requires { ty < length self.now.program.types }
        ensures { IsWrittenIn self.now.program ty result.module.now result.name.now }
    {
        self.linked.home(TypeId { index: ty })
    }
}

impl<'a> Drop for Columns<'a> {
    fn drop(self) {
        let Columns {
            linked: _,
            table: _,
        } = self;
    }
}
