//! Compares tags (X.680, 8).

ghost use Rattle.std.specs.Prelude.{◌≡◌, ◌↔◌, IsTrue};

use asn_base::tag::{Tag, same_tag};

/// Whether the tags are the same, one for one.
pub(crate) fn are_same_tags(tags: &[Tag], others: &[Tag]) -> bool
    ensures { IsTrue result ↔ (tags.now ≡ others.now) }
{
    if tags.len() != others.len() {
        return false;
    }
    for i in 0..tags.len() {
        if !same_tag(tags[i], others[i]) {
            return false;
        }
    }
    true
}
