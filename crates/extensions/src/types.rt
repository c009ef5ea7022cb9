//! Resolved types.

ghost use Rattle.std.specs.Prelude.{◌<◌, IfOk, length};
ghost use Rattle.asn_base.specs.Seen.{kind_of as resolved_kind, resolved_of};
ghost use Rattle.trees.specs.Values.{Name};
ghost use Rattle.type_table.specs.Lists.{AreSound};
ghost use Rattle.type_table.specs.Seen.{kind_of};
ghost use Rattle.type_table.specs.Table.{elements};
ghost use Rattle.range_ends.specs.Ends.{IsTypeOfKind};
ghost use Rattle.settled.specs.additions.Additions.{KeepAdditions};
ghost use Rattle.extensions.specs.proving.Defaults.{HasDefaults};
ghost use Rattle.extensions.specs.proving.Cores.{AreAlike, IsCoreIn, IsCoreOf, IsCoreType};
ghost use Rattle.extensions.specs.proving.Tables.{IsResolved, defaults_seen};

use crate::members::list_core;
use crate::pool::Shared;
use crate::simple::simple_core;
use crate::tags::tags;
use asn_base::schema::{Core, Resolved, TypeId};
use constraints::{Bounded, constraint};
use resolve::Linked;
use std::alloc::{AllocError, Global};
use trees::ElementsKind;
use type_table::Shape;

/// A SEQUENCE OF or SET OF.
fn elements_core(
    alloc: Global,
    bounded: &Bounded<'_>,
    ty: TypeId,
    kind: ElementsKind,
    element: usize,
) -> Result<Core, AllocError>
    requires there { ty.index < length bounded.now.program.types }
    requires is { IsTypeOfKind bounded.now.program.types ty.index (elements kind element) }
    ensures { (M : Name)
        → IfOk result (λ c. IsCoreOf bounded.now.program ty.index M (elements kind element) (resolved_kind c)) }
{
    let element = TypeId { index: element };
    match constraint(alloc, bounded, ty) {
        Ok(size) => match kind {
            ElementsKind::SequenceOf => Ok(Core::SequenceOf(size, element)),
            ElementsKind::SetOf => Ok(Core::SetOf(size, element)),
        },
        Err(fault) => Err(fault),
    }
}

/// The shape of a type after its references and tags.
fn target(linked: &Linked, ty: TypeId) -> &Shape
    requires { ty.index < length linked.now.program.types }
    ensures { IsCoreType linked.now.program ty.index (kind_of result.now) }
{
    let core = linked.core(ty);
    let _home = linked.home(core);
    &linked.types()[core.index].shape
}

/// The kind of a type in a schema.
fn core(
    alloc: Global,
    bounded: &Bounded<'_>,
    ty: TypeId,
    defaults: &[Option<Shared>],
) -> Result<Core, AllocError>
    requires there { ty.index < length bounded.now.program.types }
    requires sound { AreSound bounded.now.program.types }
    requires additions { KeepAdditions bounded.now.program.types }
    requires defaults { HasDefaults bounded.now.program ty.index (defaults_seen defaults.now) }
    ensures { IfOk result (λ c. IsCoreIn bounded.now.program ty.index (resolved_kind c)) }
{
    match target(bounded.linked(), ty) {
        Shape::Simple(simple) => simple_core(alloc, bounded, ty, simple),
        Shape::Members(kind, marker, parts) => list_core(alloc, *kind, *marker, parts, defaults),
        Shape::Elements(kind, element) => elements_core(alloc, bounded, ty, *kind, *element),
        Shape::Reference(_) => unreachable!(),
        Shape::Tagged(_, _, _) => unreachable!(),
    }
}

/// The resolved type of a written one (X.680, clauses 17 to 33, 41 and 49 to 51). It has the tags before the type's
/// contents, and the kind of the type after its references and tags, with the values that its constraints leave. Items
/// of an enumeration are in the order of their numbers, and components and alternatives in their own order.
///
/// `defaults` has the value of each component's DEFAULT, or None if the component has none. `AllocError` only if an
/// allocation fails.
pub(crate) fn resolved(
    alloc: Global,
    bounded: &Bounded<'_>,
    ty: TypeId,
    defaults: &[Option<Shared>],
) -> Result<Resolved, AllocError>
    requires there { ty.index < length bounded.now.program.types }
    requires sound { AreSound bounded.now.program.types }
    requires additions { KeepAdditions bounded.now.program.types }
    requires defaults { HasDefaults bounded.now.program ty.index (defaults_seen defaults.now) }
    ensures { IfOk result (λ r. IsResolved bounded.now.program ty.index (resolved_of r)) }
{
    let tags = match tags(alloc, bounded, ty) {
        Ok(tags) => tags,
        Err(fault) => return Err(fault),
    };
    match core(alloc, bounded, ty, defaults) {
        Ok(core) => match Resolved::of(alloc, tags, core) {
            Ok(one) => Ok(one),
            Err(fault) => Err(fault),
        },
        Err(fault) => Err(fault),
    }
}

/// The resolved type of a written one, which shares the kind of another type. Both types are the same after references
/// and tags, and their constraints leave the same values. `AllocError` only if an allocation fails.
pub(crate) fn shared(
    alloc: Global,
    bounded: &Bounded<'_>,
    ty: TypeId,
    other: usize,
    made: &Resolved,
) -> Result<Resolved, AllocError>
    requires there { ty.index < length bounded.now.program.types }
    requires alike { AreAlike bounded.now.program other ty.index }
    requires made { IsResolved bounded.now.program other (resolved_of made.now) }
    ensures { IfOk result (λ r. IsResolved bounded.now.program ty.index (resolved_of r)) }
{
    let tags = match tags(alloc, bounded, ty) {
        Ok(tags) => tags,
        Err(fault) => return Err(fault),
    };
    match made.core.clone() {
        Ok(core) => Ok(Resolved { tags, core }),
        Err(fault) => Err(fault),
    }
}
