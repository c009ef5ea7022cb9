//! The canonical order of tags (X.680, clause 8.6).

ghost use Rattle.std.specs.Prelude.{◌≡◌, ◌↔◌, ◌<◌, [], ◌∷◌, IfOk, IsTrue, MatchOption, length};
ghost use Rattle.asn_base.specs.Tags.{class_rank};
ghost use Rattle.tagging.specs.First.{CanBeFirst};
ghost use Rattle.tagging.specs.Tags.{Path, Tags, label, path_of};
ghost use Rattle.tagging.specs.Tagged.{IsTagged, HaveOneFirst};
ghost use Rattle.tagging.specs.declared.path.TagForm.{TagForm};
ghost use Rattle.type_table.specs.Table.{IsLinked};
ghost use Rattle.additions.specs.Additions.{LabelBefore};

use asn_base::schema::TypeId;
use asn_base::tag::{Class, Tag};
use std::alloc::{AllocError, Global};
use tagging::{FormedTag, Tagged, tags_of};

/// The place of a class in the order of classes: universal, application, context-specific, private.
fn rank(class: Class) -> u8
    ensures { result ≡ class_rank class }
{
    match class {
        Class::Universal => 0,
        Class::Application => 1,
        Class::Context => 2,
        Class::Private => 3,
    }
}

/// Whether a tag comes before another one in the canonical order.
pub(crate) fn comes_before(earlier: Tag, later: Tag) -> bool
    ensures { IsTrue result ↔ LabelBefore (label earlier) (label later) }
{
    rank(earlier.class) < rank(later.class)
        || (rank(earlier.class) == rank(later.class) && earlier.number < later.number)
}

/// What is known of linked modules with their tags.
pub(crate) fn lemma_tagged_facts(tagged: &Tagged<'_>)
    ensures linked { IsLinked tagged.now.program.types }
    ensures tagged { IsTagged tagged.now.program.types }
    ensures one_first { HaveOneFirst tagged.now.program.types }
{
    let linked = tagged.linked();
    let _types = linked.types();
}

/// The outermost of some tags, or None if there are none.
fn outermost(path: &[FormedTag]) -> Option<Tag>
    ensures { MatchOption result
        (path_of path.now ≡ [])
        (λ t. (f : TagForm) × (p : Path) × (path_of path.now ≡ (label t, f) ∷ p)) }
{
    match path.first() {
        Some(formed) => Some(formed.tag),
        None => None,
    }
}

/// The first tag of a type that isn't an untagged CHOICE.
pub(crate) fn first_tag(alloc: Global, tagged: &Tagged<'_>, ty: usize) -> Result<Tag, AllocError>
    requires there { ty < length tagged.now.program.types }
    requires bears { Tags tagged.now.program.types ty [] → ⊥ }
    ensures { IfOk result (λ t. CanBeFirst tagged.now.program.types ty (label t)) }
{
    let path = tags_of(alloc, tagged, TypeId { index: ty })?;
    match outermost(&path) {
        Some(tag) => Ok(tag),
        None => unreachable!(),
    }
}
