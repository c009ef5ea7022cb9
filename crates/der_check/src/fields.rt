//! The components of a value, in order of definition.

ghost use Rattle.std.specs.Prelude.{◌≡◌, ◌<◌, ◌^◌, option_map, ℕ};
ghost use Rattle.views.specs.Tree.{component_value, value_of};

use views::law::lemma_taken_members;
use views::{MemberRefs, ValueRef};

/// The place as a number of 32 bits.
#[inline(always)]
fn number_of(place: usize) -> u32
    ensures { place < 2 ^ 32 → result ≡ place }
{
    if place < 4_294_967_296 {
        place as u32
    } else {
        0
    }
}

/// The component at this place, of the members that are left, if it is there. The components at later places are left.
#[inline(always)]
pub(crate) fn next_component<'v, 'a>(
    members: &mut MemberRefs<'v, 'a>,
    place: usize,
) -> Option<ValueRef<'v, 'a>>
    ensures found { place < 2 ^ 32 → component_value members.old place ≡ option_map value_of result }
    ensures later { place < 2 ^ 32
        → (j : ℕ)
        → place < j
        → component_value members.new j ≡ component_value members.old j }
{
    lemma_taken_members();
    members.take_component(number_of(place))
}
