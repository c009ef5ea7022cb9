//! Signposts at the values of long ways: which value of the way is the next one with a name as its notation.

ghost use Rattle.std.specs.Prelude.{◌≡◌, ℕ, IfSome, List, Option, Some, map, slice_get};
ghost use Rattle.trees.specs.Types.{numbered_name};
ghost use Rattle.names.specs.Modules.{OccursIn};
ghost use Rattle.names.specs.Names.{names_of};
ghost use Rattle.type_table.specs.Seen.{kind_of};
ghost use Rattle.type_table.specs.Walks.{ArrivesAt};
ghost use Rattle.resolve.specs.Listed.{numbers_listed};
ghost use Rattle.resolve.specs.Program.{Program};
ghost use Rattle.range_ends.specs.proving.Steps.{AreReferred, next};
ghost use Rattle.range_ends.specs.proving.Keys.{key_in, texts};
ghost use Rattle.range_ends.specs.proving.Signs.{AreSigned, IsAhead, IsNearer, IsOneOf, IsShownFor};

use crate::forks::{Forks, leaf};
use crate::keys::key_of;
use resolve::NamedShape;
use trees::{NamedNumber, Simple};
use type_table::Shape;

/// A signpost at a value. Its tree leads from the number of each name to the place of the signpost at the first value
/// of the way whose notation is that name alone, or to the last one of the way if there is none.
#[derive(Clone, Copy)]
pub struct Signpost {
    /// The value.
    pub(crate) value: usize,
    /// The first fork of the tree.
    pub(crate) root: usize,
    /// How many references lead from here to the last signpost of the way.
    pub(crate) rest: usize,
}

/// The signposts at values.
#[derive(Drop)]
pub struct Signposts<'a> {
    /// Names of numbers, in order.
    pub(crate) names: Vec<&'a str>,
    /// The trees of all signposts.
    pub(crate) forks: Forks,
    /// The signposts.
    pub(crate) posts: Vec<Signpost>,
    /// The place of each value's signpost, or any number if it has none.
    pub(crate) places: Vec<usize>,
}

/// The signpost at a place, if there is one.
fn post_in(signs: &Signposts<'_>, place: usize) -> Option<Signpost>
    ensures { result ≡ slice_get signs.now.posts.items place }
{
    match signs.posts.get(place) {
        None => None,
        Some(post) => Some(*post),
    }
}

/// The signpost at a value, if there is one.
pub(crate) fn post_at(signs: &Signposts<'_>, value: usize) -> Option<Signpost>
    ensures there { IfSome result (λ post. IsOneOf signs.now post) }
    ensures value { IfSome result (λ post. post.value ≡ value) }
{
    match signs.places.get(value) {
        None => None,
        Some(place) => match post_in(signs, *place) {
            None => None,
            Some(post) => {
                if post.value == value {
                    Some(post)
                } else {
                    None
                }
            }
        },
    }
}

/// The signpost to which a signpost leads for the number of a name.
fn shown(signs: &Signposts<'_>, post: &Signpost, key: usize) -> Option<Signpost>
    ensures { (p : Program) (os : List (Option ℕ)) →
        AreSigned p os signs.now →
        IsOneOf signs.now post.now →
        IfSome result (IsAhead p os (λ x. key_in (texts signs.now.names.items) x ≡ Some key) post.now) }
{
    match leaf(&signs.forks, post.root, key) {
        None => None,
        Some(place) => post_in(signs, place),
    }
}

/// The signpost to which a signpost leads for the name of a number.
fn shown_for(signs: &Signposts<'_>, post: &Signpost, number: &NamedNumber) -> Option<Signpost>
    ensures { (p : Program) (os : List (Option ℕ)) →
        AreSigned p os signs.now →
        IsOneOf signs.now post.now →
        IfSome result (IsShownFor p os (texts signs.now.names.items) (numbered_name number.now).0 post.now) }
{
    match key_of(&signs.names, number.name.it.as_str()) {
        None => None,
        Some(key) => shown(signs, post, key),
    }
}

/// The nearer one of two signposts on a way.
fn nearer(one: Signpost, other: Signpost) -> Signpost
    ensures { IsNearer one other result }
{
    if one.rest < other.rest { other } else { one }
}

/// The signpost on the way that is nearest, of those to which a signpost leads for the names of these numbers.
fn nearest_post(signs: &Signposts<'_>, post: &Signpost, numbers: &[NamedNumber]) -> Option<Signpost>
    ensures { (p : Program) (os : List (Option ℕ)) →
        AreSigned p os signs.now →
        IsOneOf signs.now post.now →
        IfSome result (IsAhead p os (OccursIn (names_of (map numbered_name numbers.now))) post.now) }
{
    let mut nearest = match shown(signs, post, signs.names.len()) {
        None => return None,
        Some(last) => last,
    };
    for i in 0..numbers.len() {
        match shown_for(signs, post, &numbers[i]) {
            None => return None,
            Some(next) => nearest = nearer(nearest, next),
        }
    }
    Some(nearest)
}

/// The named numbers of a type.
pub(crate) fn numbers_of(shape: &Shape) -> &[NamedNumber]
    ensures { map numbered_name result.now ≡ numbers_listed (kind_of shape.now) }
{
    match shape {
        Shape::Simple(Simple::Integer(numbers)) => numbers,
        _ => &[],
    }
}

/// The signpost at the first value of a way that is a named number of the type, or at the last one of the way. None if
/// the value has no signpost.
fn leading(signs: &Signposts<'_>, shape: &NamedShape<'_>, start: usize) -> Option<Signpost>
    ensures { (p : Program) (os : List (Option ℕ)) →
        AreReferred p os →
        AreSigned p os signs.now →
        IfSome result (λ to. ArrivesAt (next p (kind_of shape.now) os) start to.value) }
{
    match post_at(signs, start) {
        None => None,
        Some(post) => {
            let written = shape.shape();
            let numbers = numbers_of(written);
            nearest_post(signs, &post, numbers)
        }
    }
}

/// The first value of a way that is a named number of the type, or the last one of the way, by the signposts; or the
/// value itself if it has no signpost.
pub(crate) fn nearest(signs: &Signposts<'_>, shape: &NamedShape<'_>, start: usize) -> usize
    ensures { (p : Program) (os : List (Option ℕ)) →
        AreReferred p os →
        AreSigned p os signs.now →
        ArrivesAt (next p (kind_of shape.now) os) start result }
{
    match leading(signs, shape, start) {
        None => start,
        Some(post) => post.value,
    }
}
