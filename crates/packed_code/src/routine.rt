//! From a type to its steps.

ghost use Rattle.asn_base.specs.Schemas.{HasTag, IsSound};
ghost use Rattle.asn_base.specs.Seen.{bounds_of, component_of, kind_of, types_of};
ghost use Rattle.packed_code.specs.Placed.{placed_of};
ghost use Rattle.packed_code.specs.Routines.{addition_steps, integer_step, mark_if, member_steps, placed_from, rest_if};
ghost use Rattle.packed_code.specs.Routines.{root_steps, routine_of, structure};
ghost use Rattle.packed_code.specs.declared.step.PackedStep.TheVariants.{Group, Map};
ghost use Rattle.packed_encodings.specs.Orders as orders;
ghost use Rattle.std.specs.List.{AllByRecursion};
ghost use Rattle.std.specs.Prelude.{◌≡◌, ◌≤◌, ◌++◌, ◌∷◌, [], OnOk, length, map};

use crate::choice::push_choice;
use crate::field::{
    Placed, after, field, first_of, group_of, in_order, past_marker, root_of, run_of,
};
use crate::step::PackedStep;
use crate::width::{fewest, span};
use asn_base::constraint::Bounds;
use asn_base::schema::{Component, Core, Resolved};
use std::alloc::AllocError;

/// Adds the steps of a type after the steps that are there.
#[tactic(auto, unfolding(crate::specs::Routines::routine_of))]
pub(crate) fn push_routine(
    out: &mut Vec<PackedStep>,
    types: &[Resolved],
    core: &Core,
) -> Result<(), AllocError>
    requires { IsSound (types_of types.now) (kind_of core.now) }
    ensures { OnOk result (out.new.items ≡ out.old.items ++ routine_of (types_of types.now) (kind_of core.now)) }
{
    match core {
        Core::Sequence(extensible, components) => push_sequence(
            out,
            *extensible,
            components.as_slice(),
        ),
        Core::Set(extensible, components) => push_set(
            out,
            types,
            *extensible,
            components.as_slice(),
        ),
        Core::SequenceOf(_, element) => push_one(out, PackedStep::Each(*element)),
        Core::SetOf(_, element) => push_one(out, PackedStep::EachSorted(*element)),
        Core::Choice(alternatives) => push_choice(out, types, alternatives),
        Core::Boolean => push_one(out, PackedStep::Bit),
        Core::Integer(constraint) => push_one(out, integer(&constraint.visible)),
        Core::Enumerated(_) => push_one(out, PackedStep::Leaf),
        Core::BitString(_) => push_one(out, PackedStep::Leaf),
        Core::NamedBits(_) => push_one(out, PackedStep::Leaf),
        Core::OctetString(_) => push_one(out, PackedStep::Leaf),
        Core::Null => push_one(out, PackedStep::Leaf),
        Core::ObjectIdentifier => push_one(out, PackedStep::Leaf),
        Core::RelativeOid => push_one(out, PackedStep::Leaf),
        Core::Utf8String(_) => push_one(out, PackedStep::Leaf),
        Core::RestrictedString(_, _, _) => push_one(out, PackedStep::Leaf),
    }
}

fn push_one(out: &mut Vec<PackedStep>, step: PackedStep) -> Result<(), AllocError>
    ensures { OnOk result (out.new.items ≡ out.old.items ++ step ∷ []) }
{
    out.push(step)?;
    Ok(())
}

fn integer(bounds: &Bounds) -> PackedStep
    ensures { result ≡ integer_step bounds.now.extensible bounds.now.least bounds.now.greatest }
{
    if bounds.extensible {
        return PackedStep::Leaf;
    }
    match bounds.least {
        None => PackedStep::Leaf,
        Some(least) => match bounds.greatest {
            None => PackedStep::Leaf,
            Some(greatest) => PackedStep::Number(least, fewest(span(least, greatest))),
        },
    }
}

fn push_sequence(
    out: &mut Vec<PackedStep>,
    extensible: bool,
    components: &[Component],
) -> Result<(), AllocError>
    ensures { OnOk result (out.new.items ≡ out.old.items
        ++ structure extensible (orders.root_members (placed_from 0 (map component_of components.now)))
        (placed_from 0 (map component_of components.now))) }
{
    let root = root_of(*out.allocator(), components)?;
    push_root(out, extensible, root.len(), root.as_slice())?;
    push_rest(out, extensible, components)
}

fn push_set(
    out: &mut Vec<PackedStep>,
    types: &[Resolved],
    extensible: bool,
    components: &[Component],
) -> Result<(), AllocError>
    requires { AllByRecursion (λ c. HasTag (types_of types.now) c.type) (map component_of components.now) }
    ensures { OnOk result (out.new.items ≡ out.old.items
        ++ structure extensible
        (orders.canonical (types_of types.now) (orders.root_members (placed_from 0 (map component_of components.now))))
        (placed_from 0 (map component_of components.now))) }
{
    let alloc = *out.allocator();
    let root = root_of(alloc, components)?;
    let sorted = in_order(alloc, types, root.as_slice())?;
    push_root(out, extensible, root.len(), sorted.as_slice())?;
    push_rest(out, extensible, components)
}

/// Adds the components of the root, in the order in which they are encoded.
fn push_root(
    out: &mut Vec<PackedStep>,
    extensible: bool,
    count: usize,
    root: &[Placed<'_>],
) -> Result<(), AllocError>
    ensures { OnOk result (out.new.items ≡ out.old.items
        ++ (mark_if extensible count ++ (Map (length root.now) ∷ root_steps (map placed_of root.now)))) }
{
    if extensible {
        out.push(PackedStep::ExtensionBit(count))?;
    }
    out.push(PackedStep::Map(root.len()))?;
    push_fields(out, root)
}

fn push_fields(out: &mut Vec<PackedStep>, root: &[Placed<'_>]) -> Result<(), AllocError>
    ensures { OnOk result (out.new.items ≡ out.old.items ++ root_steps (map placed_of root.now)) }
{
    for i in 0..root.len() {
        out.push(PackedStep::Field(field(root[i])))?;
    }
    Ok(())
}

/// Adds the additions of an extensible type.
fn push_rest(
    out: &mut Vec<PackedStep>,
    extensible: bool,
    components: &[Component],
) -> Result<(), AllocError>
    ensures { OnOk result (out.new.items ≡ out.old.items
        ++ rest_if extensible (orders.additions (orders.past_marker
        (placed_from 0 (map component_of components.now))))) }
{
    if !extensible {
        return Ok(());
    }
    let additions = past_marker(*out.allocator(), components)?;
    out.push(PackedStep::Bitmap(count_of(additions.as_slice())))?;
    push_additions(out, additions.as_slice())?;
    push_one(out, PackedStep::Rest)
}

/// How many additions there are; the additions of one group are counted as one.
#[tactic(auto, using(crate::proofs::Runs::alone_count))]
fn count_of(additions: &[Placed<'_>]) -> usize
    ensures at_most { result ≤ length additions.now }
    ensures is { result ≡ length (orders.additions (map placed_of additions.now)) }
{
    let Some((first, following)) = first_of(additions) else {
        return 0;
    };
    match group_of(first.component) {
        None => count_of(following) + 1,
        Some(group) => {
            let others = run_of(group, following);
            let rest = after(following, others);
            count_of(rest) + 1
        }
    }
}

#[tactic(auto, using(crate::proofs::Runs::alone_steps))]
fn push_additions(out: &mut Vec<PackedStep>, additions: &[Placed<'_>]) -> Result<(), AllocError>
    ensures { OnOk result (out.new.items ≡ out.old.items
        ++ addition_steps (orders.additions (map placed_of additions.now))) }
{
    let Some((first, following)) = first_of(additions) else {
        return Ok(());
    };
    match group_of(first.component) {
        None => {
            out.push(PackedStep::Added(field(first)))?;
            push_additions(out, following)?;
            Ok(())
        }
        Some(group) => {
            let others = run_of(group, following);
            push_group(out, first, &following[..others])?;
            let rest = after(following, others);
            push_additions(out, rest)?;
            Ok(())
        }
    }
}

/// Adds a group with its members.
fn push_group(
    out: &mut Vec<PackedStep>,
    first: Placed<'_>,
    others: &[Placed<'_>],
) -> Result<(), AllocError>
    ensures { OnOk result (out.new.items ≡ out.old.items
        ++ (Group (length (placed_of first.entry ∷ map placed_of others.now))
        ∷ member_steps (placed_of first.entry ∷ map placed_of others.now))) }
{
    out.push(PackedStep::Group(others.len() + 1))?;
    out.push(PackedStep::Member(field(first)))?;
    push_members(out, others)
}

fn push_members(out: &mut Vec<PackedStep>, members: &[Placed<'_>]) -> Result<(), AllocError>
    ensures { OnOk result (out.new.items ≡ out.old.items ++ member_steps (map placed_of members.now)) }
{
    for i in 0..members.len() {
        out.push(PackedStep::Member(field(members[i])))?;
    }
    Ok(())
}
