//! A linked program, and the values that the references of its values lead to.

ghost use Rattle.std.specs.Prelude.{◌≡◌, IfOk, length};
ghost use Rattle.range_ends.specs.proving.Steps.{AreReferred};
ghost use Rattle.range_ends.specs.proving.Far.{AreFar};
ghost use Rattle.range_ends.specs.proving.Noted.{AreRight};

use crate::far::farthest;
use crate::finder::all_found;
use crate::notes::Note;
use crate::program::referred;
use resolve::Linked;
use std::alloc::{AllocError, Global};
use std::marker::Model;

/// A linked program, and for each value the one that it refers to, and the one at the end of its references. Both are
/// found once, in a time that grows as n log n for n values. For the ends of ranges under types with named numbers it
/// is found once where long chains of references lead.
#[derive(Drop)]
pub struct ReferenceTable<'a> {
    linked: &'a Linked,
    target: Vec<Option<usize>>,
    far: Vec<usize>,
    notes: Vec<Note>,
    /// The places of the notes, in the order of their types and values.
    order: Vec<usize>,
}

/// What is known of the references of all values.
#[derive(Clone, Copy)]
pub(crate) struct Ways<'a> {
    /// The value that each value refers to.
    pub(crate) target: &'a [Option<usize>],
    /// The value at the end of the references of each value.
    pub(crate) far: &'a [usize],
    /// Where references lead in constraints on types.
    pub(crate) notes: &'a [Note],
    /// The places of the notes, in the order of their types and values.
    pub(crate) order: &'a [usize],
}

impl<'a> Model for ReferenceTable<'a> {
    ghost use Rattle.std.specs.Coded.{codes};
    ghost use Rattle.resolve.specs.Codes.{tree_code};
    ghost use Rattle.resolve.specs.Program.{WrittenProgram};
    ghost use Rattle.trees.specs.contracts.value.ValueSyntax as value_syntax;

    ghost coded = { Prim.hlevel (codes, tree_code, value_syntax.the_row.coded) };

    ghost Value = { WrittenProgram };

    ghost view = { λ s. s.linked.now };

    ghost use Rattle.std.specs.Prelude.{length};
    ghost use Rattle.range_ends.specs.proving.Steps.{AreReferred};
    ghost use Rattle.range_ends.specs.proving.Far.{AreFar};
    ghost use Rattle.range_ends.specs.proving.Noted.{AreRight};

    ghost invariant = { λ s. AreReferred s.linked.now.program s.target.items
        × AreFar s.target.items (length s.target.items) s.far.items
        × AreRight s.linked.now.program s.target.items s.notes.items };
}

/// The value that each value refers to.
fn referred_by_all(alloc: Global, linked: &Linked) -> Result<Vec<Option<usize>>, AllocError>
    ensures { IfOk result (λ v. AreReferred linked.now.program v.items) }
{
    let mut target = Vec::new(alloc);
    for number in 0..linked.values().len() {
        target.push(referred(linked, number))?;
    }
    Ok(target)
}

impl<'a> ReferenceTable<'a> {
    /// The table of a program.
    pub fn of(alloc: Global, linked: &'a Linked) -> Result<ReferenceTable<'a>, AllocError>
        ensures { IfOk result (λ s. s ≡ linked.now) }
    {
        linked.lemma_whole();
        let target = referred_by_all(alloc, linked)?;
        let far = farthest(alloc, &target)?;
        let (notes, order) = all_found(alloc, linked, &target)?;
        Ok(ReferenceTable {
            linked,
            target,
            far,
            notes,
            order,
        })
    }

    /// The program.
    pub fn linked(&self) -> &'a Linked
        ensures { result.now ≡ self.now }
    {
        self.linked
    }

    /// What is known of the references of all values.
    pub(crate) fn ways(&self) -> Ways<'_>
        ensures referred { AreReferred self.now.program result.target.now }
        ensures far { AreFar result.target.now (length result.target.now) result.far.now }
        ensures notes { AreRight self.now.program result.target.now result.notes.now }
    {
        Ways {
            target: &self.target,
            far: &self.far,
            notes: &self.notes,
            order: &self.order,
        }
    }
}
