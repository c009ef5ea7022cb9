//! Whether the rows of an account follow the components of a SEQUENCE or SET (X.690, 8.9 and 8.11).

ghost use Rattle.account_checker.specs.Follows.{MembersFollow, sizes};
ghost use Rattle.account_checker.specs.Parts.{AreEndsOf, FieldsFollow, Member, MemberAt, place_in, rows_in, size_in};
ghost use Rattle.asn_base.specs.Abstract.{Row as Row', abstract, row_of_options, fields};
ghost use Rattle.asn_base.specs.Decided.{IsComponent};
ghost use Rattle.asn_base.specs.Seen.{component_of};
ghost use Rattle.asn_base.specs.Typed.{AreComponents};
ghost use Rattle.asn_base.specs.Schemas.{HasValue};
ghost use Rattle.std.specs.List.{AllByRecursion, sum};
ghost use Rattle.encodings.specs.Account.{Rows};
ghost use Rattle.octet_account.specs.Flat.{FlatRow, count, member_rows};
ghost use Rattle.octet_account.specs.Seen.{flat};
ghost use Rattle.std.specs.Prelude.{◌+◌, ◌≡◌, ◌≤◌, ◌<◌, ◌++◌, List, length, map, option_map, IsTrue, MatchOption, None};
ghost use Rattle.std.specs.Prelude.{Some};

use crate::follow::written;
use crate::order::{Contents, after_members, are_known, start, written_to};
use crate::walk::{
    AfterMember, Counted, Described, Walk, is_to_be_written, may_be_absent, may_be_left_out,
    offset_after,
};
use asn_base::law::lemma_abstract_values;
use asn_base::schema::{Component, Presence};
use asn_base::value::Value;
use octet_account::row::{Row, RowLayout};

/// Whether the rows follow the components of a SEQUENCE or SET.
#[cycle(follow)]
pub(crate) fn structure<'r>(
    walk: Walk<'_>,
    components: &[Component],
    value: &Value,
    contents: Contents<'_, 'r>,
) -> Option<&'r [Row]>
    requires value { (vs : Row') → abstract value.now ≡ fields vs
        → AreComponents walk.schema.now walk.levels (map component_of components.now) vs }
    requires few { walk.levels ≤ 64 }
    requires defaults { AllByRecursion (HasValue walk.schema.now) (map component_of components.now) }
    ensures { (rs : Rows) (rest : List FlatRow)
        → flat contents.entry.rows.now ≡ member_rows rs ++ rest
        → count rs ≡ contents.entry.members
        → MatchOption result
        (FieldsFollow walk.entry.schema.now walk.entry.checks contents.entry.order
        (map component_of components.now) (abstract value.now) contents.entry.size contents.entry.octets.now rs → ⊥)
        (λ r. FieldsFollow walk.entry.schema.now walk.entry.checks contents.entry.order
        (map component_of components.now) (abstract value.now) contents.entry.size contents.entry.octets.now rs
        × (flat r.now ≡ rest)) }
{
    lemma_abstract_values();
    let Value::Fields(items) = value else {
        return None;
    };
    let values = items.as_slice();
    if contents.members as usize != components.len() {
        return None;
    }
    if values.len() != components.len() {
        return None;
    }
    let known = are_known(walk.checks, contents)?;
    let counted = members(walk, components, values, contents, known)?;
    after_members(walk.checks, contents, counted)
}

/// Whether the rows follow the components and their values. Each component has its row or rows, one component after
/// another.
#[cycle(follow)]
fn members<'r>(
    walk: Walk<'_>,
    components: &[Component],
    values: &[Option<Value>],
    contents: Contents<'_, 'r>,
    known: bool,
) -> Option<Counted<'r>>
    requires long { length values.now ≡ length components.now }
    requires listed { contents.members ≡ length components.now }
    requires value { AreComponents walk.schema.now walk.levels (map component_of components.now)
        (row_of_options (map (option_map abstract) values.now)) }
    requires few { walk.levels ≤ 64 }
    requires defaults { AllByRecursion (HasValue walk.schema.now) (map component_of components.now) }
    requires ends { IsTrue known → AreEndsOf (flat contents.rows.now) contents.members contents.order }
    ensures { (rs : Rows) (rest : List FlatRow)
        → flat contents.entry.rows.now ≡ member_rows rs ++ rest
        → count rs ≡ contents.entry.members
        → MatchOption result
        (MembersFollow walk.entry.schema.now walk.entry.checks (place_in contents.entry.order (sizes rs))
        (map component_of components.now) (row_of_options (map (option_map abstract) values.now)) 0
        contents.entry.octets.now rs
        → ⊥)
        (λ r. MembersFollow walk.entry.schema.now walk.entry.checks (place_in contents.entry.order (sizes rs))
        (map component_of components.now) (row_of_options (map (option_map abstract) values.now)) 0
        contents.entry.octets.now rs
        × (flat r.rows.now ≡ rest)
        × (r.octets ≡ sum (sizes rs))
        × (r.written ≡ length (sizes rs))) }
{
    let mut left = contents.rows;
    let mut place: u128 = 0;
    let mut number: usize = 0;
    for i in 0..components.len() {
        let at = start(walk.checks, contents, known, number, place);
        let described = Described {
            octets: contents.octets,
            rows: left,
        };
        let passed = member(walk, &components[i], &values[i], at, described)?;
        left = passed.rows;
        place = offset_after(place, passed.size, i);
        number = written_to(number, passed.size, components.len());
    }
    Some(Counted {
        rows: left,
        octets: place,
        written: number,
    })
}

/// Whether the rows follow a component and its value. If the value is encoded, it is at this place.
#[cycle(follow)]
fn member<'r>(
    walk: Walk<'_>,
    component: &Component,
    value: &Option<Value>,
    place: u128,
    described: Described<'_, 'r>,
) -> Option<AfterMember<'r>>
    requires value { IsComponent walk.schema.now walk.levels (component_of component.now)
        (option_map abstract value.now) }
    requires few { walk.levels ≤ 64 }
    requires default { HasValue walk.schema.now (component_of component.now) }
    ensures { (m : Member) (rest : List FlatRow)
        → flat described.entry.rows.now ≡ rows_in m ++ rest
        → MatchOption result
        (MemberAt walk.entry.schema.now walk.entry.checks place (component_of component.now)
        (option_map abstract value.now) described.entry.octets.now m
        → ⊥)
        (λ r. MemberAt walk.entry.schema.now walk.entry.checks place (component_of component.now)
        (option_map abstract value.now) described.entry.octets.now m
        × (flat r.rows.now ≡ rest)
        × (r.size ≡ size_in m)) }
{
    let (row, rows) = described.rows.split_first()?;
    let left_out = AfterMember { rows, size: None };
    match (&row.listed, value) {
        (RowLayout::Absent, _) => {
            if may_be_absent(component, value) {
                Some(left_out)
            } else {
                None
            }
        }
        (RowLayout::Default, _) => {
            if may_be_left_out(walk, component, value) {
                Some(left_out)
            } else {
                None
            }
        }
        (_, Some(value)) => {
            if !is_to_be_written(walk, component, value) {
                return None;
            }
            written(walk, component.ty, value, place, described)
        }
        (_, None) => match &component.presence {
            Presence::Default(default) => {
                if walk.checks.omitted {
                    return None;
                }
                written(walk, component.ty, default, place, described)
            }
            _ => None,
        },
    }
}
