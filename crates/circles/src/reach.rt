//! Searches for the types that a type leads to, through references, tags, members and elements.

ghost use Rattle.std.specs.Prelude.{ℕ, Bool, ◌≡◌, ◌+◌, ◌<◌, ◌≤◌, ◌↔◌, length, slice_get, map, IfOk, OnOk, IsTrue};
ghost use Rattle.type_table.specs.names.Modules.{OccursIn};
ghost use Rattle.type_table.specs.Table.{Part, members};
ghost use Rattle.type_table.specs.Seen.{part_of, type_of, types_of};
ghost use Rattle.circles.specs.Circles.{IsPart};
ghost use Rattle.circles.specs.proving.Reach.{HasParts, HasDefault, IsDefaulted, DefaultPath, IsMarked, AreUpTo, Marks, MarksReached};

use std::alloc::{AllocError, Global};
use type_table::trees::{ListKind, PresenceSyntax};
use type_table::{ListMember, Shape, TypeNode};

/// Marks a type and adds it to the waiting types, unless this search has marked it before.
fn mark(
    ty: usize,
    search: usize,
    marks: &mut [usize],
    waiting: &mut Vec<usize>,
) -> Result<(), AllocError>
    requires { ty < length marks.old }
    ensures { OnOk result (Marks search (λ j. j ≡ ty) marks.old marks.new waiting.old.items waiting.new.items) }
{
    if marks[ty] == search {
        return Ok(());
    }
    waiting.push(ty)?;
    marks[ty] = search;
    Ok(())
}

/// Marks the types of all members.
fn mark_members(
    components: &[ListMember],
    search: usize,
    marks: &mut [usize],
    waiting: &mut Vec<usize>,
) -> Result<(), AllocError>
    requires { (l : ListKind) (m : Bool) (k : ℕ) →
        IsPart k (members l m (map part_of components.now)) →
        k < length marks.old }
    ensures { (l : ListKind) (m : Bool) →
        OnOk result (Marks search (λ k. IsPart k (members l m (map part_of components.now)))
        marks.old marks.new waiting.old.items waiting.new.items) }
{
    for component in components {
        mark(component.ty, search, marks, waiting)?;
    }
    Ok(())
}

/// Whether a component has a DEFAULT.
pub(crate) fn has_default(component: &ListMember) -> bool
    ensures { IsTrue result ↔ HasDefault (part_of component.now) }
{
    match &component.presence {
        PresenceSyntax::Mandatory => false,
        PresenceSyntax::Optional => false,
        PresenceSyntax::Default(_) => true,
    }
}

/// Marks the type of a component, if it has a DEFAULT.
fn mark_default(
    component: &ListMember,
    search: usize,
    marks: &mut [usize],
    waiting: &mut Vec<usize>,
) -> Result<(), AllocError>
    requires { HasDefault (part_of component.now) → component.now.ty < length marks.old }
    ensures { OnOk result (Marks search (λ j. HasDefault (part_of component.now) × (j ≡ component.now.ty))
        marks.old marks.new waiting.old.items waiting.new.items) }
{
    if !has_default(component) {
        return Ok(());
    }
    mark(component.ty, search, marks, waiting)?;
    Ok(())
}

/// Marks the types of the components with a DEFAULT.
fn mark_defaults(
    components: &[ListMember],
    search: usize,
    marks: &mut [usize],
    waiting: &mut Vec<usize>,
) -> Result<(), AllocError>
    requires { (k : ℕ) → IsDefaulted (map part_of components.now) k → k < length marks.old }
    ensures { OnOk result (Marks search (IsDefaulted (map part_of components.now))
        marks.old marks.new waiting.old.items waiting.new.items) }
{
    for component in components {
        mark_default(component, search, marks, waiting)?;
    }
    Ok(())
}

/// Marks the types that a type directly contains or refers to.
fn mark_parts(
    written: &TypeNode,
    search: usize,
    marks: &mut [usize],
    waiting: &mut Vec<usize>,
) -> Result<(), AllocError>
    requires { (k : ℕ) → IsPart k (type_of written.now).kind → k < length marks.old }
    ensures { OnOk result (Marks search (λ k. IsPart k (type_of written.now).kind)
        marks.old marks.new waiting.old.items waiting.new.items) }
{
    match &written.shape {
        Shape::Simple(_) => Ok(()),
        Shape::Reference(meant) => {
            mark(*meant, search, marks, waiting)?;
            Ok(())
        }
        Shape::Tagged(_, _, inner) => {
            mark(*inner, search, marks, waiting)?;
            Ok(())
        }
        Shape::Members(_, _, components) => {
            mark_members(components, search, marks, waiting)?;
            Ok(())
        }
        Shape::Elements(_, element) => {
            mark(*element, search, marks, waiting)?;
            Ok(())
        }
    }
}

/// Marks all types that the marked types lead to. Each type waits at most once, so the time is linear in the types that
/// are reached.
fn mark_reached(
    types: &[TypeNode],
    search: usize,
    marks: &mut [usize],
    waiting: &mut Vec<usize>,
) -> Result<(), AllocError>
    requires parts { HasParts (types_of types.now) }
    requires long { length marks.old ≡ length types.now }
    requires wait { (j : ℕ) → IsMarked search marks.old j → OccursIn waiting.old.items j }
    requires marked { (j : ℕ) → OccursIn waiting.old.items j → IsMarked search marks.old j }
    ensures { OnOk result (MarksReached (types_of types.now) search marks.old marks.new) }
{
    while let Some(at) = waiting.pop() {
        mark_parts(&types[at], search, marks, waiting)?;
    }
    Ok(())
}

/// Whether a component with a DEFAULT leads to this type. The search for type `ty` has the number `ty + 1`.
pub(crate) fn lead_to(
    alloc: Global,
    types: &[TypeNode],
    components: &[ListMember],
    ty: usize,
    marks: &mut [usize],
) -> Result<bool, AllocError>
    requires parts { HasParts (types_of types.now) }
    requires long { length marks.old ≡ length types.now }
    requires there { ty < length types.now }
    requires inside { (k : ℕ) → IsDefaulted (map part_of components.now) k → k < length types.now }
    requires earlier { AreUpTo ty marks.old }
    ensures found { IfOk result (λ b. IsTrue b ↔ DefaultPath (types_of types.now) (map part_of components.now) ty) }
    ensures marks { OnOk result (AreUpTo (ty + 1) marks.new) }
{
    let search = ty + 1;
    let mut waiting = Vec::new(alloc);
    mark_defaults(components, search, marks, &mut waiting)?;
    mark_reached(types, search, marks, &mut waiting)?;
    Ok(marks[ty] == search)
}
