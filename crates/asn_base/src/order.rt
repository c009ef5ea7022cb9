//! The canonical order of tags (X.680, 8.6).

ghost use Rattle.asn_base.specs.Order.{outermost, precedes, tag_at, tag_precedes};
ghost use Rattle.asn_base.specs.Seen.{types_of};
ghost use Rattle.asn_base.specs.Tags.{TagBefore, class_rank};
ghost use Rattle.std.specs.Prelude.{◌≡◌, ◌↔◌, IsTrue};

use crate::schema::{Resolved, TypeId};
use crate::tag::{Class, Tag};

/// The place of a class in the order universal, application, context-specific, private, from 0 (X.680, 8.6).
pub fn class_place(class: Class) -> u8
    ensures { result ≡ class_rank class }
{
    match class {
        Class::Universal => 0,
        Class::Application => 1,
        Class::Context => 2,
        Class::Private => 3,
    }
}

/// Whether the first tag comes before the second in the canonical order: by class, and within a class by number
/// (X.680, 8.6).
#[tactic(auto, using(crate::specs::proving::Places::before_is, crate::specs::proving::Places::is_before))]
pub fn tag_before(first: Tag, second: Tag) -> bool
    ensures test { result ≡ tag_precedes first second }
    ensures order { IsTrue result ↔ TagBefore first second }
{
    let one = class_place(first.class);
    let two = class_place(second.class);
    one < two || one == two && first.number < second.number
}

/// The outermost tag of a type, or None if it has no tag.
fn outermost_of(types: &[Resolved], id: TypeId) -> Option<Tag>
    ensures { result ≡ tag_at (types_of types.now) id.index }
{
    if id.index < types.len() {
        first_of(types[id.index].tags.as_slice())
    } else {
        None
    }
}

fn first_of(tags: &[Tag]) -> Option<Tag>
    ensures { result ≡ outermost tags.now }
{
    if tags.is_empty() { None } else { Some(tags[0]) }
}

/// Whether the outermost tag of the first type comes before that of the second in the canonical order. False if one of
/// the types has no tag, or isn't there.
pub fn type_before(types: &[Resolved], first: TypeId, second: TypeId) -> bool
    ensures { result ≡ precedes (types_of types.now) first.index second.index }
{
    match outermost_of(types, first) {
        Some(one) => match outermost_of(types, second) {
            Some(two) => tag_before(one, two),
            None => false,
        },
        None => false,
    }
}
