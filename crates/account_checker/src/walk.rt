//! Whether the rows of an account follow a type and a value, row by row.

ghost use Rattle.account_checker.specs.Follows.{InsideFollows, Under, Checked};
ghost use Rattle.account_checker.specs.Follows.{AreContents, HasContents, before, is_built};
ghost use Rattle.account_checker.specs.Follows.{total_octets as octets_in};
ghost use Rattle.account_checker.specs.Parts.{HasDefault, IsOuterOf};
ghost use Rattle.account_checker.specs.Parts.{MemberAt};
ghost use Rattle.account_checker.specs.Parts.{is_absent, is_default as left_out};
ghost use Rattle.account_checker.specs.Parts.{size_or};
ghost use Rattle.asn_base.specs.Abstract.{AbstractValue, abstract};
ghost use Rattle.asn_base.specs.Decided.{IsComponent};
ghost use Rattle.asn_base.specs.Seen.{component_of, kind_of};
ghost use Rattle.asn_base.specs.Typed.{ValueIn};
ghost use Rattle.asn_base.specs.Same.{IsLeaf};
ghost use Rattle.asn_base.specs.Schemas.{HasValue};
ghost use Rattle.asn_base.specs.Types.{Kind, Resolved};
ghost use Rattle.account_checker.specs.declared.checks.Checks.{Checks as Checks'};
ghost use Rattle.encodings.specs.Encoding.{IsDefault};
ghost use Rattle.encodings.specs.Header.{Octets};
ghost use Rattle.encodings.specs.Account.{Account, Inside, Numbers as Numbers', header};
ghost use Rattle.octet_account.specs.Flat.{FlatRow, count, rows_of};
ghost use Rattle.octet_account.specs.Seen.{flat, numbers_of, flat_row};
ghost use Rattle.std.specs.Prelude.{◌*◌, ◌+◌, ◌≡◌, ◌≤◌, ◌<◌, ◌++◌, ◌∷◌, ◌↔◌};
ghost use Rattle.std.specs.Prelude.{ℕ, List, length, option_map};
ghost use Rattle.std.specs.Prelude.{IsTrue, MatchOption, None, Some};

use crate::checks::Checks;
use crate::header::{after_header, part};
use crate::leaf::{are_contents, has_contents};
use asn_base::law::{lemma_abstract_values, lemma_levels_grow};
use asn_base::same::same_values;
use asn_base::schema::{Component, Core, Presence, Schema};
use asn_base::tag::Tag;
use asn_base::value::Value;
use encodings::header_laws;
use octet_account::row::{Numbers, Row, RowLayout};

/// A walk over rows: the schema of the types, the properties that are checked, and the most levels that the value has.
#[derive(Clone, Copy)]
pub(crate) struct Walk<'s> {
    pub schema: &'s Schema,
    pub checks: Checks,
    pub levels: u8,
}

/// Octets, and rows of an account that begin with those which describe the octets.
#[derive(Clone, Copy)]
pub(crate) struct Described<'o, 'r> {
    pub octets: &'o [u8],
    pub rows: &'r [Row],
}

/// The tag of the innermost header, and the octets and rows that begin with this header.
#[derive(Clone, Copy)]
pub(crate) struct At<'o, 'r> {
    pub tag: Tag,
    pub described: Described<'o, 'r>,
}

/// The rows after those of a member, and how many octets its rows give, if it is encoded.
#[derive(Clone, Copy)]
pub(crate) struct AfterMember<'r> {
    pub rows: &'r [Row],
    pub size: Option<u64>,
}

/// The rows after those of members, how many octets their rows give, and how many of them are encoded.
#[derive(Clone, Copy)]
pub(crate) struct Counted<'r> {
    pub rows: &'r [Row],
    pub octets: u128,
    pub written: usize,
}

/// The numbers of the header in a row, or None if the row has no header.
pub(crate) fn numbers_in(listed: &RowLayout) -> Option<Numbers>
    ensures { (a : Account) (following rest : List FlatRow)
        → flat_row listed.now ∷ following ≡ rows_of a ++ rest
        → MatchOption result ⊥ (λ z. (i : Inside) × (a ≡ header (numbers_of z) i)) }
{
    match listed {
        RowLayout::Leaf(numbers) | RowLayout::Wrap(numbers) => Some(*numbers),
        RowLayout::Seq(numbers, _) | RowLayout::SeqOf(numbers, _) => Some(*numbers),
        RowLayout::Set(numbers, _) | RowLayout::SetOf(numbers, _) => Some(*numbers),
        RowLayout::Absent | RowLayout::Default => None,
    }
}

/// How many octets the first row gives, those of its header included.
pub(crate) fn total_octets(listed: &RowLayout) -> Option<u64>
    ensures listed { (a : Account) (following rest : List FlatRow)
        → flat_row listed.now ∷ following ≡ rows_of a ++ rest
        → MatchOption result ⊥ (λ n. octets_in a ≡ n) }
{
    match numbers_in(listed) {
        Some(z) => Some(z.identifier as u64 + z.size as u64 + z.contents as u64),
        None => None,
    }
}

/// Whether the number of contents octets is the one that the row within the header gives, if numbers are checked.
pub(crate) fn has_octets(checks: Checks, contents: u32, rows: &[Row]) -> bool
    ensures { (a : Account) (rest : List FlatRow)
        → flat rows.now ≡ rows_of a ++ rest
        → (IsTrue result ↔ Checked checks.numbers (contents ≡ octets_in a)) }
{
    if !checks.numbers {
        return true;
    }
    let Some((row, _)) = rows.split_first() else {
        return false;
    };
    match total_octets(&row.listed) {
        Some(listed) => listed == contents as u64,
        None => false,
    }
}

/// The octets and rows within the outer headers. Each tag but the last has such a header, which holds one row.
pub(crate) fn innermost<'o, 'r>(
    checks: Checks,
    tags: &[Tag],
    described: Described<'o, 'r>,
) -> Option<At<'o, 'r>>
    ensures { (a : Account) (rest : List FlatRow)
        → flat described.entry.rows.now ≡ rows_of a ++ rest
        → 0 < length tags.now
        → MatchOption result
        ((s : List Resolved) (k : Kind) (v : AbstractValue)
        → Under s checks tags.now k v described.entry.octets.now a
        → ⊥)
        (λ r. (b : Account)
        × (flat r.described.rows.now ≡ rows_of b ++ rest)
        × IsOuterOf checks tags.now described.entry.octets.now a r.tag r.described.octets.now b) }
{
    header_laws();
    let Some((tag, inner)) = tags.split_first() else {
        return None;
    };
    if inner.len() == 0 {
        return Some(At {
            tag: *tag,
            described,
        });
    }
    let Some((row, following)) = described.rows.split_first() else {
        return None;
    };
    match &row.listed {
        RowLayout::Wrap(z) => {
            if !has_octets(checks, z.contents, following) {
                return None;
            }
            match after_header(checks, *tag, true, *z, described.octets) {
                Some(octets) => {
                    let contents = Described {
                        octets,
                        rows: following,
                    };
                    innermost(checks, inner, contents)
                }
                None => None,
            }
        }
        _ => None,
    }
}

/// Whether encodings of this kind are constructed (X.690, 8.1.2.5).
pub(crate) fn is_constructed(core: &Core) -> bool
    ensures { result ≡ is_built (kind_of core.now) }
{
    match core {
        Core::Sequence(_, _) | Core::Set(_, _) => true,
        Core::SequenceOf(_, _) | Core::SetOf(_, _) | Core::Choice(_) => true,
        _ => false,
    }
}

/// Whether members have this number of contents octets, if numbers are checked.
pub(crate) fn has_count(checks: Checks, contents: u32, octets: u128) -> bool
    ensures { IsTrue result ↔ Checked checks.numbers (contents ≡ octets) }
{
    if checks.numbers {
        contents as u128 == octets
    } else {
        true
    }
}

/// The place after a member that begins at `place`. `before` members come before it.
pub(crate) fn offset_after(place: u128, size: Option<u64>, before: usize) -> u128
    requires { place ≤ 18446744073709551615 * before }
    ensures is { result ≡ place + size_or size }
    ensures most { result ≤ place + 18446744073709551615 }
{
    match size {
        Some(count) => place + count as u128,
        None => place,
    }
}

/// Whether the component is absent and has no DEFAULT.
pub(crate) fn may_be_absent(component: &Component, value: &Option<Value>) -> bool
    ensures { (s : List Resolved) (q : Checks') (n : ℕ) (x : Octets)
        → (IsTrue result ↔ MemberAt s q n (component_of component.now) (option_map abstract value.now) x is_absent) }
{
    match value {
        Some(_) => false,
        None => match &component.presence {
            Presence::Default(_) => false,
            _ => true,
        },
    }
}

/// Whether the component has a DEFAULT and, if left-out components are checked, its value is the same as that DEFAULT.
pub(crate) fn may_be_left_out(walk: Walk<'_>, component: &Component, value: &Option<Value>) -> bool
    requires value { IsComponent walk.schema.now walk.levels (component_of component.now)
        (option_map abstract value.now) }
    requires few { walk.levels ≤ 64 }
    requires default { HasValue walk.schema.now (component_of component.now) }
    ensures { (n : ℕ) (x : Octets)
        → (IsTrue result
        ↔ MemberAt walk.entry.schema.now walk.entry.checks n (component_of component.now)
        (option_map abstract value.now) x left_out) }
{
    match value {
        Some(value) => {
            has_default(component) && (!walk.checks.omitted || is_default(walk, component, value))
        }
        None => has_default(component),
    }
}

/// Whether the component has a DEFAULT.
fn has_default(component: &Component) -> bool
    ensures { IsTrue result ↔ HasDefault (component_of component.now) }
{
    match &component.presence {
        Presence::Default(_) => true,
        _ => false,
    }
}

/// Whether the value is the same as the component's DEFAULT.
fn is_default(walk: Walk<'_>, component: &Component, value: &Value) -> bool
    requires value { ValueIn walk.schema.now walk.levels component.now.ty.index (abstract value.now) }
    requires few { walk.levels ≤ 64 }
    requires default { HasValue walk.schema.now (component_of component.now) }
    ensures { IsTrue result ↔ IsDefault walk.entry.schema.now (component_of component.now) (abstract value.now) }
{
    lemma_levels_grow();
    match &component.presence {
        Presence::Default(default) => same_values(value, default, walk.schema, component.ty),
        _ => false,
    }
}

/// Whether the value isn't the same as the component's DEFAULT, if left-out components are checked.
pub(crate) fn is_to_be_written(walk: Walk<'_>, component: &Component, value: &Value) -> bool
    requires value { ValueIn walk.schema.now walk.levels component.now.ty.index (abstract value.now) }
    requires few { walk.levels ≤ 64 }
    requires default { HasValue walk.schema.now (component_of component.now) }
    ensures { IsTrue result
        ↔ Checked walk.entry.checks.omitted
        (IsDefault walk.entry.schema.now (component_of component.now) (abstract value.now) → ⊥) }
{
    if walk.checks.omitted {
        !is_default(walk, component, value)
    } else {
        true
    }
}

/// Whether the value has this number of contents octets, if numbers are checked.
pub(crate) fn has_contents_count(checks: Checks, core: &Core, value: &Value, contents: u32) -> bool
    requires { IsLeaf (kind_of core.now) }
    ensures { (s : List Resolved)
        → (IsTrue result ↔ Checked checks.numbers (HasContents s (kind_of core.now) (abstract value.now) contents)) }
{
    if checks.numbers {
        has_contents(core, value, contents)
    } else {
        true
    }
}

/// Whether the octets are the contents of the value, if contents are checked.
pub(crate) fn is_at(checks: Checks, core: &Core, value: &Value, octets: &[u8]) -> bool
    requires { IsLeaf (kind_of core.now) }
    ensures { (s : List Resolved)
        → (IsTrue result ↔ Checked checks.contents (AreContents s (kind_of core.now) (abstract value.now) octets.now)) }
{
    if checks.contents {
        are_contents(core, value, octets)
    } else {
        true
    }
}

/// Whether the value is of a type whose values hold no other values, and its row is right: its number of contents
/// octets if numbers are checked, and the octets themselves if contents are checked.
pub(crate) fn is_leaf(
    checks: Checks,
    core: &Core,
    value: &Value,
    contents: u32,
    octets: &[u8],
) -> bool
    ensures { (s : List Resolved)
        → (IsTrue result
        ↔ IsLeaf (kind_of core.now)
        × Checked checks.numbers (HasContents s (kind_of core.now) (abstract value.now) contents)
        × Checked checks.contents (AreContents s (kind_of core.now) (abstract value.now) octets.now)) }
{
    if is_constructed(core) || !has_contents_count(checks, core, value, contents) {
        return false;
    }
    is_at(checks, core, value, octets)
}

/// The rows after that of a value without other values in it, if it is the row of a header and right.
pub(crate) fn after_leaf<'r>(
    checks: Checks,
    core: &Core,
    value: &Value,
    listed: &RowLayout,
    described: Described<'_, 'r>,
) -> Option<&'r [Row]>
    ensures { (s : List Resolved) (z : Numbers') (i : Inside) (rest : List FlatRow)
        → flat_row listed.now ∷ flat described.entry.rows.now ≡ rows_of (header z i) ++ rest
        → MatchOption result
        (IsLeaf (kind_of core.now)
        → InsideFollows s checks (kind_of core.now) (abstract value.now) z.contents described.entry.octets.now i
        → ⊥)
        (λ r. InsideFollows s checks (kind_of core.now) (abstract value.now) z.contents described.entry.octets.now i
        × (flat r.now ≡ rest)) }
{
    match listed {
        RowLayout::Leaf(z) => {
            if is_leaf(checks, core, value, z.contents, described.octets) {
                Some(described.rows)
            } else {
                None
            }
        }
        _ => None,
    }
}
