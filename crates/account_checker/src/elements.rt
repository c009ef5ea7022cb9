//! Whether the rows of an account follow the elements of a SEQUENCE OF or SET OF (X.690, 8.10 and 8.12).

ghost use Rattle.account_checker.specs.Follows.{ElementsFollow, sizes};
ghost use Rattle.account_checker.specs.Parts.{AreEndsOf, ListFollows, ElementAt, Member, place_in, rows_in, size_in};
ghost use Rattle.asn_base.specs.Abstract.{Row as Row', abstract, row_of_list, list};
ghost use Rattle.asn_base.specs.Typed.{AreElements, ValueIn};
ghost use Rattle.encodings.specs.Account.{Rows};
ghost use Rattle.octet_account.specs.Flat.{FlatRow, count, member_rows};
ghost use Rattle.octet_account.specs.Seen.{flat};
ghost use Rattle.std.specs.List.{sum};
ghost use Rattle.std.specs.Prelude.{◌+◌, ◌≡◌, ◌≤◌, ◌<◌, ◌++◌, List, length, map, IsTrue, MatchOption, None, Some};

use crate::follow::written;
use crate::order::{Contents, after_members, are_known, start, written_to};
use crate::walk::{AfterMember, Counted, Described, Walk, offset_after};
use asn_base::law::lemma_abstract_values;
use asn_base::schema::TypeId;
use asn_base::value::Value;
use octet_account::row::{Row, RowLayout};

/// Whether the rows follow the elements of a SEQUENCE OF or SET OF.
#[cycle(follow)]
pub(crate) fn series<'r>(
    walk: Walk<'_>,
    element: TypeId,
    value: &Value,
    contents: Contents<'_, 'r>,
) -> Option<&'r [Row]>
    requires value { (vs : Row') → abstract value.now ≡ list vs
        → AreElements walk.schema.now walk.levels element.index vs }
    requires few { walk.levels ≤ 64 }
    ensures { (rs : Rows) (rest : List FlatRow)
        → flat contents.entry.rows.now ≡ member_rows rs ++ rest
        → count rs ≡ contents.entry.members
        → MatchOption result
        (ListFollows walk.entry.schema.now walk.entry.checks contents.entry.order element.index
        (abstract value.now) contents.entry.size contents.entry.octets.now rs
        → ⊥)
        (λ r. ListFollows walk.entry.schema.now walk.entry.checks contents.entry.order element.index
        (abstract value.now) contents.entry.size contents.entry.octets.now rs
        × (flat r.now ≡ rest)) }
{
    lemma_abstract_values();
    let Value::List(items) = value else {
        return None;
    };
    let values = items.as_slice();
    if contents.members as usize != values.len() {
        return None;
    }
    let known = are_known(walk.checks, contents)?;
    let counted = elements(walk, element, values, contents, known)?;
    after_members(walk.checks, contents, counted)
}

/// Whether the rows follow the elements. Each element has its rows, one element after another.
#[cycle(follow)]
fn elements<'r>(
    walk: Walk<'_>,
    element: TypeId,
    values: &[Value],
    contents: Contents<'_, 'r>,
    known: bool,
) -> Option<Counted<'r>>
    requires listed { contents.members ≡ length values.now }
    requires value { AreElements walk.schema.now walk.levels element.index (row_of_list (map abstract values.now)) }
    requires few { walk.levels ≤ 64 }
    requires ends { IsTrue known → AreEndsOf (flat contents.rows.now) contents.members contents.order }
    ensures { (rs : Rows) (rest : List FlatRow)
        → flat contents.entry.rows.now ≡ member_rows rs ++ rest
        → count rs ≡ contents.entry.members
        → MatchOption result
        (ElementsFollow walk.entry.schema.now walk.entry.checks (place_in contents.entry.order (sizes rs))
        element.index (row_of_list (map abstract values.now)) 0 contents.entry.octets.now rs
        → ⊥)
        (λ r. ElementsFollow walk.entry.schema.now walk.entry.checks (place_in contents.entry.order (sizes rs))
        element.index (row_of_list (map abstract values.now)) 0 contents.entry.octets.now rs
        × (flat r.rows.now ≡ rest)
        × (r.octets ≡ sum (sizes rs))
        × (r.written ≡ length (sizes rs))) }
{
    let mut left = contents.rows;
    let mut place: u128 = 0;
    let mut number: usize = 0;
    for i in 0..values.len() {
        let at = start(walk.checks, contents, known, number, place);
        let described = Described {
            octets: contents.octets,
            rows: left,
        };
        let passed = one_element(walk, element, &values[i], at, described)?;
        left = passed.rows;
        place = offset_after(place, passed.size, i);
        number = written_to(number, passed.size, values.len());
    }
    Some(Counted {
        rows: left,
        octets: place,
        written: number,
    })
}

/// Whether the rows follow one element, which is at this place.
#[cycle(follow)]
fn one_element<'r>(
    walk: Walk<'_>,
    element: TypeId,
    value: &Value,
    place: u128,
    described: Described<'_, 'r>,
) -> Option<AfterMember<'r>>
    requires value { ValueIn walk.schema.now walk.levels element.index (abstract value.now) }
    requires few { walk.levels ≤ 64 }
    ensures { (m : Member) (rest : List FlatRow)
        → flat described.entry.rows.now ≡ rows_in m ++ rest
        → MatchOption result
        (ElementAt walk.entry.schema.now walk.entry.checks place element.index (abstract value.now)
        described.entry.octets.now m
        → ⊥)
        (λ r. ElementAt walk.entry.schema.now walk.entry.checks place element.index (abstract value.now)
        described.entry.octets.now m
        × (flat r.rows.now ≡ rest)
        × (r.size ≡ size_in m)) }
{
    let (row, _) = described.rows.split_first()?;
    match &row.listed {
        RowLayout::Absent | RowLayout::Default => None,
        _ => written(walk, element, value, place, described),
    }
}
