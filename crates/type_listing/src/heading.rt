//! The place where a type is written.

ghost use Rattle.std.specs.Prelude.{◌≡◌, ◌++◌, ◌<◌, OnOk, None, Some, codes, decimal, length, option_map, slice_get};
ghost use Rattle.std.specs.Prelude.{string_bytes};
ghost use Rattle.names.specs.Sources.{place_of};
ghost use Rattle.type_listing.specs.Listing.{home_words, member_name as member_name', member_words, place_words};
ghost use Rattle.type_listing.specs.Listing.{value_words as value_words', words_before};
ghost use Rattle.type_table.specs.Seen.{type_of, types_of};
ghost use Rattle.type_table.specs.Table.{Type'};

use asn_base::schema::TypeId;
use names::MemberIndex;
use resolve::{Linked, QualifiedName};
use source_text::shown;
use std::alloc::{AllocError, Global};
use type_table::{Shape, TypeNode};

/// The identifier of a list's member.
fn member_name(types: &[TypeNode], place: MemberIndex) -> Option<&str>
    ensures { option_map (λ name. name.now) result ≡ member_name' (types_of types.now) place.list place.number }
{
    if place.list >= types.len() {
        return None;
    }
    match &types[place.list].shape {
        Shape::Members(_, _, members) => {
            if place.number >= members.len() {
                return None;
            }
            Some(members[place.number].name.it.as_str())
        }
        _ => None,
    }
}

/// What comes before the name of an assignment: names of values begin with a small letter, and names of types with a
/// capital one (X.680, clauses 12.2 and 12.4).
fn value_words(name: &str) -> &'static str
    ensures { result.now ≡ value_words' name.now }
{
    match name.as_bytes().first() {
        Some(first) if first.is_ascii_lowercase() => "the type of ",
        _ => "",
    }
}

/// Appends the identifier of a member, of which at most 60 characters are shown, and the number of its list.
fn push_member(alloc: Global, out: &mut String, name: &str, list: usize) -> Result<(), AllocError>
    ensures { OnOk result
        (string_bytes out.new ≡ string_bytes out.old ++ member_words name.now list) }
{
    let name = shown(alloc, name)?;
    write!(out, "{name} of type {list}, ")
}

/// Appends the member that a type is, and the number of its list. The text stays as it is for a type that is no member.
fn push_place(
    alloc: Global,
    out: &mut String,
    types: &[TypeNode],
    place: Option<MemberIndex>,
) -> Result<(), AllocError>
    ensures { OnOk result
        (string_bytes out.new ≡ string_bytes out.old ++ place_words (types_of types.now) (place_of place)) }
{
    let Some(place) = place else {
        return Ok(());
    };
    match member_name(types, place) {
        Some(name) => push_member(alloc, out, name, place.list),
        None => Ok(()),
    }
}

/// The list that a type is a member of, and its place there, if it is one.
#[tactic(auto, using(crate::proofs::Listed::placed))]
fn place_at(types: &[TypeNode], id: TypeId) -> Option<MemberIndex>
    requires { id.index < length types.now }
    ensures { (n : Type') → slice_get (types_of types.now) id.index ≡ Some n → place_of result ≡ n.place }
{
    types[id.index].place
}

/// Appends the member that a type within an assignment is, if it is one, and then the word before the assignment.
fn push_within(
    alloc: Global,
    out: &mut String,
    types: &[TypeNode],
    id: TypeId,
) -> Result<(), AllocError>
    requires { id.index < length types.now }
    ensures { OnOk result ((n : Type') → slice_get (types_of types.now) id.index ≡ Some n
        → string_bytes out.new ≡ string_bytes out.old ++ (place_words (types_of types.now) n.place ++ codes "in ")) }
{
    push_place(alloc, out, types, place_at(types, id))?;
    out.push_str("in ")
}

/// Appends what comes before the assignment in which a type is written.
fn push_before(
    alloc: Global,
    out: &mut String,
    linked: &Linked,
    id: TypeId,
    name: &str,
) -> Result<(), AllocError>
    requires { id.index < length linked.now.program.types }
    ensures { OnOk result ((n : Type') → slice_get linked.now.program.types id.index ≡ Some n
        → string_bytes out.new ≡ string_bytes out.old ++ words_before linked.now.program id.index n name.now) }
{
    if id.index < linked.assignments().len() {
        return out.push_str(value_words(name));
    }
    push_within(alloc, out, linked.types(), id)
}

/// Appends the place where a type is written: the assignment, which is its home, and before it the member that the type
/// is, if it is one. At most 60 characters of a name are shown.
pub(crate) fn push_home(
    alloc: Global,
    out: &mut String,
    linked: &Linked,
    id: TypeId,
    home: QualifiedName<'_>,
) -> Result<(), AllocError>
    requires { id.index < length linked.now.program.types }
    ensures { OnOk result ((n : Type') → slice_get linked.now.program.types id.index ≡ Some n
        → string_bytes out.new ≡ string_bytes out.old
        ++ home_words linked.now.program id.index n home.entry.module.now home.entry.name.now) }
{
    push_before(alloc, out, linked, id, home.name)?;
    let module = shown(alloc, home.module)?;
    let name = shown(alloc, home.name)?;
    write!(out, "{module}.{name}")
}
