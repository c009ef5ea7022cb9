//! The places of the members of a SET or SET OF.

ghost use Rattle.std.specs.Prelude.{◌≡◌, [], IfOk, map, set};
ghost use Rattle.der_layout.specs.Rows.{numbers_in, places_by, listed};

use crate::rows::small;
use crate::table::{Member, with_room};
use std::alloc::{AllocError, Global};

/// The places of members. `places` has the place of each member, in the order of definition or of the value. `inverse`
/// has for each place the number of its member. Numbers greater than 16,777,217 are given as 16,777,217.
#[derive(Drop)]
pub(crate) struct Arrangement {
    pub places: Vec<u32>,
    pub inverse: Vec<u32>,
}

impl Arrangement {
    /// The arrangement of no members.
    #[inline(always)]
    pub(crate) fn none(alloc: Global) -> Self
        ensures places { result.places.items ≡ [] }
        ensures inverse { result.inverse.items ≡ [] }
    {
        Arrangement {
            places: Vec::new(alloc),
            inverse: Vec::new(alloc),
        }
    }
}

/// The numbers of the members, in the order of their places.
fn inverse_of(alloc: Global, members: &[Member]) -> Result<Vec<u32>, AllocError>
    ensures { IfOk result (λ q. q.items ≡ map listed (numbers_in members.now)) }
{
    let mut inverse = with_room(alloc, members.len());
    for place in 0..members.len() {
        inverse.push(small(members[place].number))?;
    }
    Ok(inverse)
}

/// Sets the place of a member, if there is such a member.
fn put_place(places: &mut Vec<u32>, number: usize, place: u32)
    ensures { places.new.items ≡ set places.old.items number place }
{
    if number < places.len() {
        places[number] = place;
    }
}

/// The place of each member, by its number.
fn places_of(alloc: Global, members: &[Member]) -> Result<Vec<u32>, AllocError>
    ensures { IfOk result (λ p. p.items ≡ map listed (places_by (numbers_in members.now))) }
{
    let mut places = Vec::from_elem(alloc, 0, members.len())?;
    for place in 0..members.len() {
        put_place(&mut places, members[place].number, small(place));
    }
    Ok(places)
}

/// The arrangement of members that are in the order of their places.
pub(crate) fn arrangement_of(alloc: Global, members: &[Member]) -> Result<Arrangement, AllocError>
    ensures places { IfOk result (λ r. r.places.items ≡ map listed (places_by (numbers_in members.now))) }
    ensures inverse { IfOk result (λ r. r.inverse.items ≡ map listed (numbers_in members.now)) }
{
    let places = places_of(alloc, members)?;
    let inverse = inverse_of(alloc, members)?;
    Ok(Arrangement { places, inverse })
}
