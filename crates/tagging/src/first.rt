//! The tags that can be first.

ghost use Rattle.std.specs.Prelude.{ℕ, ◌≡◌, ◌<◌, length, map, IfErr, MatchResult, [], ◌∷◌, Some, slice_get};
ghost use Rattle.type_table.specs.Seen.{part_of, types_of};
ghost use Rattle.tagging.specs.declared.first.FirstTagFault.TheVariants.{Memory};
ghost use Rattle.tagging.specs.FirstFault.{NoneWithin, written_members};
ghost use Rattle.tagging.specs.proving.Checks.{AreThere};
ghost use Rattle.tagging.specs.proving.Reported.{IsBareFault, IsWithinFault};
ghost use Rattle.tagging.specs.proving.Heads.{Fronts, AreFirst, IsFrontFault, IsFirstFault};

use crate::automatic::head;
use crate::columns::Columns;
use crate::path::Label;
use std::alloc::Global;
use type_table::{ListMember, Shape, TypeNode};

/// Why members have no outermost tags: memory ran out, or this member, at this offset, is an untagged CHOICE.
#[derive(Clone, Copy, Debug, PartialEq)]
pub(crate) enum FirstTagFault {
    Memory,
    Untagged(usize, usize),
}

fn members(written: &TypeNode) -> &[ListMember]
    ensures { result.now ≡ written_members written.now.shape }
{
    match &written.shape {
        Shape::Members(_, _, members) => members,
        _ => &[],
    }
}

/// A type as it is written.
fn written_at(types: &[TypeNode], ty: usize) -> &TypeNode
    requires { ty < length types.now }
    ensures { slice_get types.now ty ≡ Some result.now }
{
    &types[ty]
}

fn single(alloc: Global, tag: Label) -> Result<Vec<Label>, FirstTagFault>
    ensures { MatchResult result (λ v. v.items ≡ tag ∷ []) (λ e. e ≡ Memory) }
{
    let mut tags = Vec::new(alloc);
    match tags.push(tag) {
        Ok(()) => Ok(tags),
        Err(_) => Err(FirstTagFault::Memory),
    }
}

/// The outermost tags of members. The error is the first member that is an untagged CHOICE.
pub(crate) fn fronts(
    alloc: Global,
    columns: &Columns<'_>,
    members: &[ListMember],
) -> Result<Vec<Label>, FirstTagFault>
    requires parts { AreThere columns.now.program.types (map part_of members.now) }
    ensures found { MatchResult result
        (λ v. Fronts columns.now.program.types (map part_of members.now) v.items)
        (IsFrontFault columns.now.program.types (map part_of members.now)) }
    ensures first { IfErr result (IsBareFault columns.now.program.types members.now) }
{
    let mut tags = Vec::new(alloc);
    for place in 0..members.len() {
        let member = &members[place];
        match head(columns, member.ty) {
            None => return Err(FirstTagFault::Untagged(member.ty, member.name.at)),
            Some(tag) => match tags.push(tag) {
                Ok(()) => {}
                Err(_) => return Err(FirstTagFault::Memory),
            },
        }
    }
    Ok(tags)
}

/// The tags that can be first in a type of a table whose types are written so. The error is the first alternative that
/// is an untagged CHOICE, if the type is one too.
pub(crate) fn first_tags(
    alloc: Global,
    columns: &Columns<'_>,
    types: &[TypeNode],
    ty: usize,
) -> Result<Vec<Label>, FirstTagFault>
    requires there { ty < length columns.now.program.types }
    requires types { types_of types.now ≡ columns.now.program.types }
    ensures found { MatchResult result
        (λ v. AreFirst columns.now.program.types ty v.items)
        (IsFirstFault columns.now.program.types) }
    ensures first { MatchResult result
        (λ v. NoneWithin columns.now.program.types types.now ty)
        (IsWithinFault columns.now.program.types types.now ty) }
{
    columns.lemma_whole();
    match head(columns, ty) {
        Some(tag) => single(alloc, tag),
        None => fronts(alloc, columns, members(written_at(types, columns.core(ty)))),
    }
}
