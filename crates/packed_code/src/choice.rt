//! The alternatives of a CHOICE (X.691, 23).

ghost use Rattle.asn_base.specs.Seen.{alternative_of, types_of};
ghost use Rattle.packed_code.specs.Routines.{more_calls, root_calls};
ghost use Rattle.packed_code.specs.declared.step.PackedStep.TheVariants.{Pick};
ghost use Rattle.std.specs.Prelude.{◌≡◌, ◌+◌, ◌++◌, ◌∷◌, [], OnOk, length, map};
ghost use Rattle.tag_places.specs.Keys.{AreSortedKeys};

use crate::step::{PackedStep, RootCall};
use crate::width::width_of_place;
use asn_base::schema::{Alternative, Alternatives, Resolved};
use std::alloc::AllocError;
use tag_places::{alternative_keys, place_by};

/// Adds the choice and a step for each alternative, those of the root first.
pub(crate) fn push_choice(
    out: &mut Vec<PackedStep>,
    types: &[Resolved],
    alternatives: &Alternatives,
) -> Result<(), AllocError>
    ensures { OnOk result (out.new.items ≡ out.old.items
        ++ (Pick (length alternatives.now.root.items + length alternatives.now.additions.items)
        ∷ (root_calls (types_of types.now) alternatives.now.extensible (map alternative_of alternatives.now.root.items)
        (map alternative_of alternatives.now.root.items)
        ++ more_calls 0 (map alternative_of alternatives.now.additions.items)))) }
{
    let root = alternatives.root.as_slice();
    let additions = alternatives.additions.as_slice();
    push_pick(out, root, additions)?;
    push_root(out, types, alternatives.extensible, root)?;
    push_more(out, additions)
}

fn push_pick(
    out: &mut Vec<PackedStep>,
    root: &[Alternative],
    additions: &[Alternative],
) -> Result<(), AllocError>
    ensures { OnOk result (out.new.items ≡ out.old.items ++ Pick (length root.now + length additions.now) ∷ []) }
{
    out.push(PackedStep::Pick(root.len() + additions.len()))?;
    Ok(())
}

/// Adds a step for each alternative of the root. Their tags are sorted once.
fn push_root(
    out: &mut Vec<PackedStep>,
    types: &[Resolved],
    extensible: bool,
    root: &[Alternative],
) -> Result<(), AllocError>
    ensures { OnOk result (out.new.items ≡ out.old.items
        ++ root_calls (types_of types.now) extensible (map alternative_of root.now) (map alternative_of root.now)) }
{
    let keys = alternative_keys(*out.allocator(), types, root)?;
    push_ranked(out, types, extensible, root, keys.as_slice())
}

/// Adds a step for each alternative of the root, whose sorted keys these are.
fn push_ranked(
    out: &mut Vec<PackedStep>,
    types: &[Resolved],
    extensible: bool,
    root: &[Alternative],
    keys: &[u64],
) -> Result<(), AllocError>
    requires { AreSortedKeys (types_of types.now) (map (λ a. a.type) (map alternative_of root.now)) keys.now }
    ensures { OnOk result (out.new.items ≡ out.old.items
        ++ root_calls (types_of types.now) extensible (map alternative_of root.now) (map alternative_of root.now)) }
{
    let width = width_of_place(root.len());
    for i in 0..root.len() {
        let ty = root[i].ty;
        let rank = place_by(types, keys, ty);
        out.push(PackedStep::Root(RootCall {
            extensible,
            width,
            rank,
            ty,
        }))?;
    }
    Ok(())
}

fn push_more(out: &mut Vec<PackedStep>, additions: &[Alternative]) -> Result<(), AllocError>
    ensures { OnOk result (out.new.items ≡ out.old.items ++ more_calls 0 (map alternative_of additions.now)) }
{
    for i in 0..additions.len() {
        out.push(PackedStep::More(i, additions[i].ty))?;
    }
    Ok(())
}
