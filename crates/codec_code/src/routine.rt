//! Compiles a type to its steps.

ghost use Rattle.asn_base.specs.Seen.{alternative_of, component_of, kind_of, presence_of, resolved_of, types_of};
ghost use Rattle.codec_code.specs.Routines.{body, calls, choice_of, ends, field_of, fields_from, heads, is_constructed, need_of, ranked_from, rest_if, routine_of, row_of};
ghost use Rattle.codec_code.specs.declared.step.Step.TheVariants.{Pick};
ghost use Rattle.std.specs.Prelude.{◌≡◌, ◌+◌, ◌++◌, ◌∷◌, [], OnOk, length, map};
ghost use Rattle.tag_places.specs.Keys.{AreSortedKeys};

use crate::fault::Fault;
use crate::step::{Field, FieldPresence, Head, RowKind, Step};
use asn_base::schema::{Alternative, Alternatives, Component, Core, Presence, Resolved};
use asn_base::tag::Tag;
use encodings::LeafKind;
use tag_places::{component_keys, place_by};

/// Appends the steps of a type.
#[tactic(auto, unfolding(crate::specs::Routines::routine_of))]
pub(crate) fn push_routine(
    out: &mut Vec<Step>,
    types: &[Resolved],
    ty: &Resolved,
) -> Result<(), Fault>
    ensures { OnOk result (out.new.items ≡ out.old.items ++ routine_of (types_of types.now) (resolved_of ty.now)) }
{
    push_heads(out, ty.tags.as_slice(), row(&ty.core))?;
    push_body(out, types, &ty.core)?;
    push_ends(out, ty.tags.len())?;
    Ok(())
}

/// The kind of the row of a header before such contents.
fn row(core: &Core) -> RowKind
    ensures { result ≡ row_of (kind_of core.now) }
{
    match core {
        Core::Boolean | Core::Integer(_) | Core::Enumerated(_) | Core::BitString(_) =>
            RowKind::Leaf,
        Core::NamedBits(_) | Core::OctetString(_) | Core::Null => RowKind::Leaf,
        Core::ObjectIdentifier | Core::RelativeOid => RowKind::Leaf,
        Core::Utf8String(_) | Core::RestrictedString(_, _, _) => RowKind::Leaf,
        Core::Sequence(_, _) => RowKind::Sequence,
        Core::Set(_, _) => RowKind::Set,
        Core::SequenceOf(_, _) => RowKind::SequenceOf,
        Core::SetOf(_, _) => RowKind::SetOf,
        Core::Choice(_) => RowKind::Wrap,
    }
}

fn is_wide(row: RowKind) -> bool
    ensures { result ≡ is_constructed row }
{
    match row {
        RowKind::Leaf => false,
        RowKind::Wrap => true,
        RowKind::Sequence => true,
        RowKind::Set => true,
        RowKind::SequenceOf => true,
        RowKind::SetOf => true,
    }
}

/// Appends a header for each tag, the outermost first. All but the last are explicit.
fn push_heads(out: &mut Vec<Step>, tags: &[Tag], row: RowKind) -> Result<(), Fault>
    ensures { OnOk result (out.new.items ≡ out.old.items ++ heads tags.now row) }
{
    for i in 0..tags.len() {
        let row = if i + 1 == tags.len() {
            row
        } else {
            RowKind::Wrap
        };
        out.push(Step::Head(header(tags[i], row)))?;
    }
    Ok(())
}

fn header(tag: Tag, row: RowKind) -> Head
    ensures tag { result.tag ≡ tag }
    ensures constructed { result.constructed ≡ is_constructed row }
    ensures row { result.row ≡ row }
{
    Head {
        tag,
        constructed: is_wide(row),
        row,
    }
}

fn push_ends(out: &mut Vec<Step>, tags: usize) -> Result<(), Fault>
    ensures { OnOk result (out.new.items ≡ out.old.items ++ ends tags) }
{
    for _ in 0..tags {
        out.push(Step::End)?;
    }
    Ok(())
}

/// Appends the steps within the headers.
fn push_body(out: &mut Vec<Step>, types: &[Resolved], core: &Core) -> Result<(), Fault>
    ensures { OnOk result (out.new.items ≡ out.old.items ++ body (types_of types.now) (kind_of core.now)) }
{
    match core {
        Core::Sequence(extensible, components) => {
            push_fields(out, components.as_slice())?;
            push_rest(out, *extensible)
        }
        Core::Set(extensible, components) => {
            push_set_component(out, types, components.as_slice())?;
            push_rest(out, *extensible)
        }
        Core::SequenceOf(_, element) => push_one(out, Step::Each(*element)),
        Core::SetOf(_, element) => push_one(out, Step::EachSorted(*element)),
        Core::Choice(alternatives) => push_choice(out, alternatives),
        Core::Boolean => push_one(out, Step::Leaf(LeafKind::Boolean)),
        Core::Integer(_) => push_one(out, Step::Leaf(LeafKind::Integer)),
        Core::Enumerated(_) => push_one(out, Step::Leaf(LeafKind::Enumerated)),
        Core::BitString(_) => push_one(out, Step::Leaf(LeafKind::BitString)),
        Core::NamedBits(_) => push_one(out, Step::Leaf(LeafKind::NamedBits)),
        Core::OctetString(_) => push_one(out, Step::Leaf(LeafKind::OctetString)),
        Core::Null => push_one(out, Step::Leaf(LeafKind::Null)),
        Core::ObjectIdentifier => push_one(out, Step::Leaf(LeafKind::ObjectIdentifier)),
        Core::RelativeOid => push_one(out, Step::Leaf(LeafKind::RelativeOid)),
        Core::Utf8String(_) => push_one(out, Step::Leaf(LeafKind::Utf8String)),
        Core::RestrictedString(kind, _, _) => push_one(
            out,
            Step::Leaf(LeafKind::RestrictedString(*kind)),
        ),
    }
}

fn push_one(out: &mut Vec<Step>, step: Step) -> Result<(), Fault>
    ensures { OnOk result (out.new.items ≡ out.old.items ++ step ∷ []) }
{
    out.push(step)?;
    Ok(())
}

/// Appends the step for additions that the type lacks, if it has an extension marker.
fn push_rest(out: &mut Vec<Step>, extensible: bool) -> Result<(), Fault>
    ensures { OnOk result (out.new.items ≡ out.old.items ++ rest_if extensible) }
{
    if extensible {
        out.push(Step::Rest)?;
    }
    Ok(())
}

fn need_for(presence: &Presence) -> FieldPresence
    ensures { result ≡ need_of (presence_of presence.now) }
{
    match presence {
        Presence::Mandatory => FieldPresence::Mandatory,
        Presence::Optional => FieldPresence::Optional,
        Presence::Default(_) => FieldPresence::Default,
        Presence::Addition(_) => FieldPresence::Addition,
    }
}

fn component(place: usize, component: &Component) -> Field
    ensures { result ≡ field_of place (component_of component.now) }
{
    Field {
        place,
        need: need_for(&component.presence),
        ty: component.ty,
    }
}

/// Appends the components of a SEQUENCE.
fn push_fields(out: &mut Vec<Step>, components: &[Component]) -> Result<(), Fault>
    ensures { OnOk result (out.new.items ≡ out.old.items ++ fields_from 0 (map component_of components.now)) }
{
    for i in 0..components.len() {
        out.push(Step::Field(component(i, &components[i])))?;
    }
    Ok(())
}

/// Appends the components of a SET. Their tags are sorted once.
fn push_set_component(
    out: &mut Vec<Step>,
    types: &[Resolved],
    components: &[Component],
) -> Result<(), Fault>
    ensures { OnOk result (out.new.items ≡ out.old.items
        ++ ranked_from (types_of types.now) (map component_of components.now) 0 (map component_of components.now)) }
{
    let keys = component_keys(*out.allocator(), types, components)?;
    push_ranked(out, types, components, keys.as_slice())
}

/// Appends the components of a SET, whose sorted keys these are.
fn push_ranked(
    out: &mut Vec<Step>,
    types: &[Resolved],
    components: &[Component],
    keys: &[u64],
) -> Result<(), Fault>
    requires { AreSortedKeys (types_of types.now) (map (λ c. c.type) (map component_of components.now)) keys.now }
    ensures { OnOk result (out.new.items ≡ out.old.items
        ++ ranked_from (types_of types.now) (map component_of components.now) 0 (map component_of components.now)) }
{
    for i in 0..components.len() {
        let rank = place_by(types, keys, components[i].ty);
        out.push(Step::SetComponent(component(i, &components[i]), rank))?;
    }
    Ok(())
}

/// Appends a call for each alternative, those of the root first.
fn push_choice(out: &mut Vec<Step>, alternatives: &Alternatives) -> Result<(), Fault>
    ensures { OnOk result (out.new.items ≡ out.old.items
        ++ choice_of (map alternative_of alternatives.now.root.items
        ++ map alternative_of alternatives.now.additions.items)) }
{
    let root = alternatives.root.as_slice();
    let additions = alternatives.additions.as_slice();
    push_pick(out, root, additions)?;
    push_calls(out, root)?;
    push_calls(out, additions)
}

fn push_pick(
    out: &mut Vec<Step>,
    root: &[Alternative],
    additions: &[Alternative],
) -> Result<(), Fault>
    ensures { OnOk result (out.new.items ≡ out.old.items ++ Pick (length root.now + length additions.now) ∷ []) }
{
    out.push(Step::Pick(root.len() + additions.len()))?;
    Ok(())
}

fn push_calls(out: &mut Vec<Step>, alternatives: &[Alternative]) -> Result<(), Fault>
    ensures { OnOk result (out.new.items ≡ out.old.items ++ calls (map alternative_of alternatives.now)) }
{
    for i in 0..alternatives.len() {
        out.push(Step::Call(alternatives[i].ty))?;
    }
    Ok(())
}
