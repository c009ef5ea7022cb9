//! Whether the rows of an account follow a type and a value (X.690, 8.1 and 8.9 to 8.14).

ghost use Rattle.account_checker.specs.Follows.{Follows, InsideFollows, Under, Checked, total_octets as octets_in};
ghost use Rattle.account_checker.specs.Parts.{ChoiceFollows, WrittenAt};
ghost use Rattle.asn_base.specs.Abstract.{AbstractValue, abstract, alternative};
ghost use Rattle.asn_base.specs.Decided.{IsChosen};
ghost use Rattle.asn_base.specs.Seen.{alternative_of, kind_of};
ghost use Rattle.asn_base.specs.Typed.{ValueIn, ValueOf};
ghost use Rattle.asn_base.specs.Schemas.{IsSound};
ghost use Rattle.encodings.specs.Account.{Account, Inside, Numbers as Numbers', header};
ghost use Rattle.octet_account.specs.Flat.{FlatRow, count, rows_of};
ghost use Rattle.octet_account.specs.Seen.{flat, flat_row};
ghost use Rattle.std.specs.Prelude.{◌+◌, ◌≡◌, ◌≤◌, ◌<◌, ◌++◌, ◌∷◌, [], ℕ, List, map, MatchOption, None, Some};

use crate::components::structure;
use crate::elements::series;
use crate::header::{after_header, part};
use crate::order::{in_order, placed};
use crate::walk::{
    AfterMember, Described, Walk, after_leaf, has_octets, innermost, is_constructed, numbers_in,
    total_octets,
};
use asn_base::decide::chosen_type;
use asn_base::law::lemma_abstract_values;
use asn_base::schema::{Alternatives, Core, TypeId};
use asn_base::tag::Tag;
use asn_base::value::Value;
use encodings::header_laws;
use octet_account::row::{Row, RowLayout};

/// Whether the account follows a type and a value in the properties that are checked. The result is the rows after
/// those of the account, or None if it doesn't follow. The value is one of the type with at most this many levels. The
/// rows begin with those of an account.
#[cycle(follow)]
pub(crate) fn follows<'r>(
    walk: Walk<'_>,
    id: TypeId,
    value: &Value,
    described: Described<'_, 'r>,
) -> Option<&'r [Row]>
    requires value { ValueIn walk.schema.now walk.levels id.index (abstract value.now) }
    requires few { walk.levels ≤ 64 }
    ensures { (a : Account) (rest : List FlatRow)
        → flat described.entry.rows.now ≡ rows_of a ++ rest
        → MatchOption result
        (Follows walk.entry.schema.now walk.entry.checks id.index (abstract value.now) described.entry.octets.now a
        → ⊥)
        (λ r. Follows walk.entry.schema.now walk.entry.checks id.index (abstract value.now)
        described.entry.octets.now a
        × (flat r.now ≡ rest)) }
{
    if walk.levels == 0 || !walk.schema.has(id) {
        return None;
    }
    let resolved = walk.schema.get(id);
    let inner = Walk {
        levels: walk.levels - 1,
        ..walk
    };
    let tags = resolved.tags.as_slice();
    under(inner, tags, &resolved.core, value, described)
}

/// Whether an account follows these tags and a value of this kind.
#[cycle(follow)]
fn under<'r>(
    walk: Walk<'_>,
    tags: &[Tag],
    core: &Core,
    value: &Value,
    described: Described<'_, 'r>,
) -> Option<&'r [Row]>
    requires value { ValueOf walk.schema.now walk.levels (kind_of core.now) (abstract value.now) }
    requires few { walk.levels ≤ 64 }
    requires sound { IsSound walk.schema.now (kind_of core.now) }
    ensures { (a : Account) (rest : List FlatRow)
        → flat described.entry.rows.now ≡ rows_of a ++ rest
        → MatchOption result
        (Under walk.entry.schema.now walk.entry.checks tags.now (kind_of core.now) (abstract value.now)
        described.entry.octets.now a
        → ⊥)
        (λ r. Under walk.entry.schema.now walk.entry.checks tags.now (kind_of core.now) (abstract value.now)
        described.entry.octets.now a
        × (flat r.now ≡ rest)) }
{
    if tags.len() == 0 {
        return bare(walk, core, value, described);
    }
    let at = innermost(walk.checks, tags, described)?;
    headed(walk, at.tag, core, value, at.described)
}

/// Whether an account follows a value of this kind without a tag. The rows of a CHOICE are those of its alternative.
#[cycle(follow)]
fn bare<'r>(
    walk: Walk<'_>,
    core: &Core,
    value: &Value,
    described: Described<'_, 'r>,
) -> Option<&'r [Row]>
    requires value { ValueOf walk.schema.now walk.levels (kind_of core.now) (abstract value.now) }
    requires few { walk.levels ≤ 64 }
    ensures { (a : Account) (rest : List FlatRow)
        → flat described.entry.rows.now ≡ rows_of a ++ rest
        → MatchOption result
        (Under walk.entry.schema.now walk.entry.checks [] (kind_of core.now) (abstract value.now)
        described.entry.octets.now a
        → ⊥)
        (λ r. Under walk.entry.schema.now walk.entry.checks [] (kind_of core.now) (abstract value.now)
        described.entry.octets.now a
        × (flat r.now ≡ rest)) }
{
    match core {
        Core::Choice(alternatives) => chosen(walk, alternatives, value, described),
        _ => None,
    }
}

/// Whether an account follows one tag and a value of this kind.
#[cycle(follow)]
fn headed<'r>(
    walk: Walk<'_>,
    tag: Tag,
    core: &Core,
    value: &Value,
    described: Described<'_, 'r>,
) -> Option<&'r [Row]>
    requires value { ValueOf walk.schema.now walk.levels (kind_of core.now) (abstract value.now) }
    requires few { walk.levels ≤ 64 }
    requires sound { IsSound walk.schema.now (kind_of core.now) }
    ensures { (a : Account) (rest : List FlatRow)
        → flat described.entry.rows.now ≡ rows_of a ++ rest
        → MatchOption result
        (Under walk.entry.schema.now walk.entry.checks (tag ∷ []) (kind_of core.now) (abstract value.now)
        described.entry.octets.now a
        → ⊥)
        (λ r. Under walk.entry.schema.now walk.entry.checks (tag ∷ []) (kind_of core.now) (abstract value.now)
        described.entry.octets.now a
        × (flat r.now ≡ rest)) }
{
    header_laws();
    let (row, rows) = described.rows.split_first()?;
    let numbers = numbers_in(&row.listed)?;
    let constructed = is_constructed(core);
    let octets = after_header(walk.checks, tag, constructed, numbers, described.octets)?;
    inside(walk, core, value, &row.listed, Described { octets, rows })
}

/// Whether the rows within a header follow a value of this kind. `listed` is the row of the header. The rows after it
/// describe the contents octets.
#[cycle(follow)]
fn inside<'r>(
    walk: Walk<'_>,
    core: &Core,
    value: &Value,
    listed: &'r RowLayout,
    described: Described<'_, 'r>,
) -> Option<&'r [Row]>
    requires value { ValueOf walk.schema.now walk.levels (kind_of core.now) (abstract value.now) }
    requires few { walk.levels ≤ 64 }
    requires sound { IsSound walk.schema.now (kind_of core.now) }
    ensures { (z : Numbers') (i : Inside) (rest : List FlatRow)
        → flat_row listed.now ∷ flat described.entry.rows.now ≡ rows_of (header z i) ++ rest
        → MatchOption result
        (InsideFollows walk.entry.schema.now walk.entry.checks (kind_of core.now) (abstract value.now)
        z.contents described.entry.octets.now i
        → ⊥)
        (λ r. InsideFollows walk.entry.schema.now walk.entry.checks (kind_of core.now) (abstract value.now)
        z.contents described.entry.octets.now i
        × (flat r.now ≡ rest)) }
{
    match (core, listed) {
        (Core::Sequence(_, components), RowLayout::Seq(z, count)) => {
            let contents = in_order(z, *count, described);
            structure(walk, components.as_slice(), value, contents)
        }
        (Core::SequenceOf(_, element), RowLayout::SeqOf(z, count)) => {
            let contents = in_order(z, *count, described);
            series(walk, *element, value, contents)
        }
        (Core::Set(_, components), RowLayout::Set(z, places)) => {
            let contents = placed(z, &**places, described);
            structure(walk, components.as_slice(), value, contents)
        }
        (Core::SetOf(_, element), RowLayout::SetOf(z, places)) => {
            let contents = placed(z, &**places, described);
            series(walk, *element, value, contents)
        }
        (Core::Choice(alternatives), RowLayout::Wrap(z)) => {
            held(walk, alternatives, value, z.contents, described)
        }
        _ => after_leaf(walk.checks, core, value, listed, described),
    }
}

/// Whether the rows follow a CHOICE within a header.
#[cycle(follow)]
fn held<'r>(
    walk: Walk<'_>,
    alternatives: &Alternatives,
    value: &Value,
    contents: u32,
    described: Described<'_, 'r>,
) -> Option<&'r [Row]>
    requires value { (i : ℕ) (v : AbstractValue) → abstract value.now ≡ alternative i v
        → IsChosen walk.schema.now walk.levels
        (map alternative_of alternatives.now.root.items ++ map alternative_of alternatives.now.additions.items) i v }
    requires few { walk.levels ≤ 64 }
    ensures { (a : Account) (rest : List FlatRow)
        → flat described.entry.rows.now ≡ rows_of a ++ rest
        → MatchOption result
        (Checked walk.entry.checks.numbers (contents ≡ octets_in a)
        → ChoiceFollows walk.entry.schema.now walk.entry.checks
        (map alternative_of alternatives.now.root.items ++ map alternative_of alternatives.now.additions.items)
        (abstract value.now) described.entry.octets.now a
        → ⊥)
        (λ r. Checked walk.entry.checks.numbers (contents ≡ octets_in a)
        × ChoiceFollows walk.entry.schema.now walk.entry.checks
        (map alternative_of alternatives.now.root.items ++ map alternative_of alternatives.now.additions.items)
        (abstract value.now) described.entry.octets.now a
        × (flat r.now ≡ rest)) }
{
    if !has_octets(walk.checks, contents, described.rows) {
        return None;
    }
    chosen(walk, alternatives, value, described)
}

/// Whether the rows follow the value of an alternative.
#[cycle(follow)]
fn chosen<'r>(
    walk: Walk<'_>,
    alternatives: &Alternatives,
    value: &Value,
    described: Described<'_, 'r>,
) -> Option<&'r [Row]>
    requires value { (i : ℕ) (v : AbstractValue) → abstract value.now ≡ alternative i v
        → IsChosen walk.schema.now walk.levels
        (map alternative_of alternatives.now.root.items ++ map alternative_of alternatives.now.additions.items) i v }
    requires few { walk.levels ≤ 64 }
    ensures { (a : Account) (rest : List FlatRow)
        → flat described.entry.rows.now ≡ rows_of a ++ rest
        → MatchOption result
        (ChoiceFollows walk.entry.schema.now walk.entry.checks
        (map alternative_of alternatives.now.root.items ++ map alternative_of alternatives.now.additions.items)
        (abstract value.now) described.entry.octets.now a
        → ⊥)
        (λ r. ChoiceFollows walk.entry.schema.now walk.entry.checks
        (map alternative_of alternatives.now.root.items ++ map alternative_of alternatives.now.additions.items)
        (abstract value.now) described.entry.octets.now a
        × (flat r.now ≡ rest)) }
{
    lemma_abstract_values();
    match value {
        Value::Alt(index, inner) => {
            follows(walk, chosen_type(alternatives, *index)?, inner, described)
        }
        _ => None,
    }
}

/// Whether the rows follow a value that is encoded at a place.
#[cycle(follow)]
pub(crate) fn written<'r>(
    walk: Walk<'_>,
    id: TypeId,
    value: &Value,
    place: u128,
    described: Described<'_, 'r>,
) -> Option<AfterMember<'r>>
    requires value { ValueIn walk.schema.now walk.levels id.index (abstract value.now) }
    requires few { walk.levels ≤ 64 }
    ensures { (a : Account) (rest : List FlatRow)
        → flat described.entry.rows.now ≡ rows_of a ++ rest
        → MatchOption result
        (WrittenAt walk.entry.schema.now walk.entry.checks place id.index (abstract value.now)
        described.entry.octets.now a
        → ⊥)
        (λ r. WrittenAt walk.entry.schema.now walk.entry.checks place id.index (abstract value.now)
        described.entry.octets.now a
        × (flat r.rows.now ≡ rest)
        × (r.size ≡ Some (octets_in a))) }
{
    let rows = described.rows;
    let (row, _) = rows.split_first()?;
    let size = total_octets(&row.listed)?;
    let octets = part(walk.checks, described.octets, place, size)?;
    let following = follows(walk, id, value, Described { octets, rows })?;
    Some(AfterMember {
        rows: following,
        size: Some(size),
    })
}
