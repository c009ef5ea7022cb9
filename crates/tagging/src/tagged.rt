//! Linked modules whose types have their tags.

ghost use Rattle.std.specs.Prelude.{ℕ, IsTrue, ◌↔◌, ◌≡◌, ◌<◌, ◌≤◌, length, List, IfErr, IfOk, IsOk, MatchResult};
ghost use Rattle.tagging.specs.Tags.{Path, path_of, Tags};
ghost use Rattle.tagging.specs.Tables.{AreTagsOf};
ghost use Rattle.tagging.specs.proving.Columns.{HoldsOf};
ghost use Rattle.tagging.specs.Tagged.{Breaks, IsTagged, HaveOneFirst};
ghost use Rattle.tagging.specs.Faults.{IsRightTagFault};
ghost use Rattle.tagging.specs.FirstFault.{IsFirstTagFault, IsFirstBreach};
ghost use Rattle.type_table.specs.Seen.{types_of};
ghost use Rattle.type_table.specs.Table.{IsLinked};
ghost use Rattle.type_table.specs.declared.table.TypeNode.{TypeNode as TypeNode'};

use crate::automatic::path_of;
use crate::check::{Fault, Rule, check};
use crate::columns::{Columns, table_of};
use crate::fault::{TagFault, fault_at};
use crate::path::TagPath;
use crate::table::TagTable;
use asn_base::schema::TypeId;
use resolve::Linked;
use std::alloc::{AllocError, Global};
use std::marker::Model;
use type_table::TypeNode;

/// Linked modules whose types have their tags as X.680 requires. First tags differ in every list where they must. Each
/// SET component and each CHOICE alternative has exactly one tag that can be first. A `Tagged` borrows the modules, so
/// the numbers of types are theirs.
pub struct Tagged<'a> {
    columns: Columns<'a>,
}

impl<'a> Model for Tagged<'a> {
    ghost use Rattle.std.specs.Coded.{codes};
    ghost use Rattle.resolve.specs.Codes.{tree_code};
    ghost use Rattle.resolve.specs.Program.{WrittenProgram};
    ghost use Rattle.trees.specs.contracts.value.ValueSyntax as value_syntax;

    ghost coded = { Prim.hlevel (codes, tree_code, value_syntax.the_row.coded) };

    ghost Value = { WrittenProgram };

    ghost view = { λ t. t.columns };

    ghost use Rattle.tagging.specs.Tagged.{IsTagged, HaveOneFirst};

    ghost invariant = { λ t. IsTagged t.columns.program.types × HaveOneFirst t.columns.program.types };
}

impl<'a> Tagged<'a> {
    /// Modules that are known to have their tags.
    fn of(columns: Columns<'a>) -> Tagged<'a>
        requires { IsTagged columns.program.types }
        ensures { result ≡ columns.entry }
    {
        columns.lemma_whole();
        Tagged { columns }
    }

    /// Linked modules and their table, as [`tag`] returns them. The call takes no memory, and a time that is the same
    /// for all modules.
    pub fn with_table(linked: &'a Linked, table: &'a TagTable) -> Tagged<'a>
        requires { AreTagsOf linked.now.program table.now }
        ensures { result ≡ linked.now }
    {
        Tagged::of(Columns::lent(linked, table))
    }

    /// Whether the number is that of one of the types.
    pub fn has(&self, ty: TypeId) -> bool
        ensures { IsTrue result ↔ ty.index < length self.now.program.types }
    {
        ty.index < self.columns.len()
    }

    /// The linked modules.
    pub fn linked(&self) -> &'a Linked
        ensures value { result.now ≡ self.now }
        ensures tagged { IsTagged self.now.program.types }
        ensures one_first { HaveOneFirst self.now.program.types }
    {
        self.columns.linked()
    }
}

/// The fault of this type, which breaks the rule, with the names of its module and of the assignment where it is
/// written.
fn named(alloc: Global, columns: &Columns<'_>, rule: Rule, ty: usize, at: usize) -> TagFault
    requires { Breaks columns.now.program.types rule ty }
    ensures is_so { IsRightTagFault columns.now.program result }
    ensures first { (ws : List TypeNode') →
        IsFirstBreach columns.now.program.types ws rule ty at →
        IsFirstTagFault columns.now.program ws result }
{
    let home = columns.home(ty);
    fault_at(alloc, rule, home.module, home.name, at)
}

/// Checks whether types, which are written so, can be tagged; the error is the first fault of them, with its names and
/// its offset.
fn checked(alloc: Global, columns: &Columns<'_>, types: &[TypeNode]) -> Result<(), TagFault>
    requires linked { IsLinked columns.now.program.types }
    requires types { types_of types.now ≡ columns.now.program.types }
    ensures found { MatchResult result (λ _. IsTagged columns.now.program.types) (IsRightTagFault columns.now.program) }
    ensures first { IfErr result (IsFirstTagFault columns.now.program types.now) }
{
    match check(alloc, columns, types) {
        Ok(()) => Ok(()),
        Err(Fault::Memory) => Err(TagFault::Memory),
        Err(Fault::At(rule, ty, at)) => Err(named(alloc, columns, rule, ty, at)),
    }
}

/// Checks whether the types of linked modules, for which the table was found, can be tagged; the error is the first
/// fault of them.
fn checked_by(
    alloc: Global,
    linked: &Linked,
    table: &TagTable,
    types: &[TypeNode],
) -> Result<(), TagFault>
    requires holds { HoldsOf linked.now.program.types table.now }
    requires types { types_of types.now ≡ linked.now.program.types }
    ensures found { MatchResult result (λ _. IsTagged linked.now.program.types) (IsRightTagFault linked.now.program) }
    ensures first { IfErr result (IsFirstTagFault linked.now.program types.now) }
{
    let columns = Columns::lent(linked, table);
    columns.lemma_whole();
    match checked(alloc, &columns, types) {
        Ok(()) => Ok(()),
        Err(fault) => Err(fault),
    }
}

/// What is found once for the types of linked modules, after they are checked (X.680, clauses 25, 27, 29 and 31).
///
/// # Errors The first fault, as [`tag`] returns it.
pub fn tag_table(alloc: Global, linked: &Linked) -> Result<TagTable, TagFault>
    ensures found { MatchResult result (AreTagsOf linked.now.program) (IsRightTagFault linked.now.program) }
    ensures written { IfErr result (IsFirstTagFault linked.now.program linked.now.types) }
{
    let types = linked.types();
    let table = match table_of(alloc, linked) {
        Ok(table) => table,
        Err(_) => return Err(TagFault::Memory),
    };
    match checked_by(alloc, linked, &table, types) {
        Ok(()) => Ok(table),
        Err(fault) => Err(fault),
    }
}

/// Linked modules with their tags (X.680, clauses 25, 27, 29 and 31).
///
/// # Errors The first fault, by the numbers of types, with its module, the name of the assignment and the offset. Each
/// type is checked for these in order: `Limit(Tags)` if more than four tags are written on it, together with those
/// after its references; `Limit(TagNumber)`; `ImplicitChoice`; `MixedAutomatic`; `UntaggedChoice`; `TagClash`.
/// `Memory`: there is not enough memory.
pub fn tag(alloc: Global, linked: &Linked) -> Result<Tagged<'_>, TagFault>
    ensures found { MatchResult result
        (λ t. (t ≡ linked.now) × IsTagged linked.now.program.types)
        (IsRightTagFault linked.now.program) }
    ensures written { IfErr result (IsFirstTagFault linked.now.program linked.now.types) }
{
    match tag_table(alloc, linked) {
        Ok(table) => Ok(Tagged::of(Columns::owning(linked, table))),
        Err(fault) => Err(fault),
    }
}

/// The tags of a type (X.680, clauses 8, 25, 27, 29 and 31): those that are written and the automatic one, the
/// outermost first, each implicit or explicit. The last is the universal tag of the type after them, which counts as
/// explicit; a CHOICE has none. An implicit tag replaces the tag after it. Up to four tags take no memory. The error,
/// possible only with more tags, is that there is not enough memory.
pub fn tags_of(alloc: Global, tagged: &Tagged<'_>, ty: TypeId) -> Result<TagPath, AllocError>
    requires { ty.index < length tagged.now.program.types }
    ensures ok { IfOk result (λ v. Tags tagged.now.program.types ty.index (path_of v.items)) }
    ensures short { (p : Path) → Tags tagged.now.program.types ty.index p → length p ≤ 4 → IsOk result }
{
    tagged.linked();
    path_of(alloc, &tagged.columns, ty.index)
}

impl<'a> Drop for Tagged<'a> {
    fn drop(self) {
        let Tagged { columns: _ } = self;
    }
}
