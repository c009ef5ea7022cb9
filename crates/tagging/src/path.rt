//! The tags that a type's notation has.

ghost use Rattle.std.specs.Prelude.{ℕ, ◌≡◌, ◌<◌, ◌≤◌, ◌+◌, length, Some, IfOk, IsOk, IsTrue, IsFalse};
ghost use Rattle.type_table.specs.Seen.{kind_of};
ghost use Rattle.trees.specs.Types.{plain_of, universal};
ghost use Rattle.tagging.specs.proving.Checks.{HasFew};
ghost use Rattle.tagging.specs.proving.TagStep.{ending, form_before, Outermost, Adds, IsStep};
ghost use Rattle.tagging.specs.Tagged.{IsOverfull};
ghost use Rattle.tagging.specs.Tags.{Path, tag_form, label, own, path_of, WrittenTags as HasWritten};

use crate::columns::Columns;
use asn_base::strings::StringKind;
use asn_base::tag::{Class, Tag};
use limits::MAX_TAGS;
use smallvec::SmallVec;
use std::alloc::AllocError;
use trees::{ElementsKind, Keyword, ListKind, Simple, TagDefault};
use type_table::{Shape, TypeNode};

/// Whether a tag replaces the tag after it, or comes before it (X.680, clause 31.2).
#[derive(Clone, Copy, Debug, PartialEq, Eq)]
pub enum TagForm {
    /// It replaces the tag after it.
    Implicit,
    /// It comes before the tag after it, or it is the last one.
    Explicit,
}

/// A tag with its form.
#[derive(Clone, Copy, Debug, PartialEq, Eq)]
pub struct FormedTag {
    pub tag: Tag,
    pub form: TagForm,
}

impl Default for FormedTag {
    fn default() -> FormedTag {
        FormedTag {
            tag: Tag {
                class: Class::Context,
                number: 0,
            },
            form: TagForm::Explicit,
        }
    }
}

/// Tags with their forms, the outermost first. Up to four are stored in place and take no memory.
pub type TagPath = SmallVec<FormedTag, 4>;

/// The class and the number of a tag.
pub(crate) type Label = (Class, usize);

/// What follows a type's references: the end of its tags, with the universal tag if there is one, or one more tag. That
/// tag has its keyword, its module's tag default and the type that it is written before.
#[derive(Clone, Copy)]
pub(crate) enum TagStep {
    Ends(Option<Tag>),
    Inside(Tag, Keyword, TagDefault, usize),
}

fn universal_tag(number: u8) -> Tag
    requires { 0 < number }
    ensures { label result ≡ Rattle.tagging.specs.Tags.universal_tag number }
{
    Tag {
        class: Class::Universal,
        number: number as u32,
    }
}

/// The universal tag number of a type that holds no other (X.680, clause 8, table 1).
fn universal_number(simple: &Simple) -> u8
    ensures is { result ≡ universal (plain_of simple.now) }
    ensures above { 0 < result }
{
    match simple {
        Simple::Boolean => 1,
        Simple::Integer(_) => 2,
        Simple::BitString(_) => 3,
        Simple::OctetString => 4,
        Simple::Null => 5,
        Simple::ObjectIdentifier => 6,
        Simple::Enumerated(_) => 10,
        Simple::Utf8String => 12,
        Simple::RelativeOid => 13,
        Simple::Restricted(StringKind::Numeric) => 18,
        Simple::Restricted(StringKind::Printable) => 19,
        Simple::Restricted(StringKind::Ia5) => 22,
        Simple::Restricted(StringKind::Visible) => 26,
    }
}

/// The universal tag of a type that is neither a reference nor a tag (X.680, clause 8, table 1); a CHOICE has none.
fn own_tag(written: &TypeNode) -> Option<Tag>
    ensures { (p : Path) → own (kind_of written.now.shape) ≡ Some p → p ≡ ending result }
{
    match &written.shape {
        Shape::Simple(simple) => Some(universal_tag(universal_number(simple))),
        Shape::Members(ListKind::Sequence, _, _) => Some(universal_tag(16)),
        Shape::Members(ListKind::Set, _, _) => Some(universal_tag(17)),
        Shape::Members(ListKind::Choice, _, _) => None,
        Shape::Elements(ElementsKind::SequenceOf, _) => Some(universal_tag(16)),
        Shape::Elements(ElementsKind::SetOf, _) => Some(universal_tag(17)),
        Shape::Reference(_) => None,
        Shape::Tagged(_, _, _) => None,
    }
}

/// What follows a type's references.
fn step_at(columns: &Columns<'_>, ty: usize) -> TagStep
    requires { ty < length columns.now.program.types }
    ensures { IsStep columns.now.program.types ty result }
{
    let written = columns.written(columns.front(ty));
    match &written.shape {
        Shape::Tagged(tag, keyword, j) => TagStep::Inside(*tag, *keyword, written.default, *j),
        _ => TagStep::Ends(own_tag(written)),
    }
}

fn label_of(tag: Tag) -> Label
    ensures { result ≡ label tag }
{
    (tag.class, tag.number as usize)
}

/// The outermost of the tags that a type's notation has, or None for an untagged CHOICE.
pub(crate) fn written_outermost(columns: &Columns<'_>, ty: usize) -> Option<Label>
    requires { ty < length columns.now.program.types }
    ensures { Outermost columns.now.program.types ty result }
{
    columns.lemma_whole();
    match step_at(columns, ty) {
        TagStep::Ends(None) => None,
        TagStep::Ends(Some(tag)) => Some(label_of(tag)),
        TagStep::Inside(tag, _, _, _) => Some(label_of(tag)),
    }
}

/// Whether at most four tags are written on a type, through references.
pub(crate) fn has_few(columns: &Columns<'_>, ty: usize) -> bool
    requires { ty < length columns.now.program.types }
    ensures few { IsTrue result → HasFew columns.now.program.types ty }
    ensures many { IsFalse result → IsOverfull columns.now.program.types ty }
{
    columns.lemma_whole();
    let mut at = ty;
    for passed in 0..MAX_TAGS + 1 {
        match step_at(columns, at) {
            TagStep::Ends(_) => return true,
            TagStep::Inside(_, _, _, j) => at = j,
        }
    }
    false
}

pub(crate) fn form_with(keyword: Keyword, default: TagDefault, untagged: bool) -> TagForm
    ensures { result ≡ form_before keyword default untagged }
{
    match (keyword, default) {
        (Keyword::Explicit, _) => TagForm::Explicit,
        (Keyword::Implicit, _) => TagForm::Implicit,
        (Keyword::Absent, TagDefault::Explicit) => TagForm::Explicit,
        (Keyword::Absent, _) => {
            if untagged {
                TagForm::Explicit
            } else {
                TagForm::Implicit
            }
        }
    }
}

/// The form of a tag before a type.
pub(crate) fn form_at(
    columns: &Columns<'_>,
    keyword: Keyword,
    default: TagDefault,
    inner: usize,
) -> TagForm
    requires { inner < length columns.now.program.types }
    ensures { (p : Path) → HasWritten columns.now.program.types inner p → result ≡ tag_form keyword default p }
{
    let untagged = written_outermost(columns, inner).is_none();
    form_with(keyword, default, untagged)
}

/// These tags and then those that a type's notation has, the outermost first. If there are at most four, the call takes
/// no memory.
pub(crate) fn with_written(
    before: TagPath,
    columns: &Columns<'_>,
    start: usize,
) -> Result<TagPath, AllocError>
    requires there { start < length columns.now.program.types }
    requires few { HasFew columns.now.program.types start }
    requires room { 4 ≤ before.capacity }
    ensures ok { IfOk result (λ v. Adds columns.now.program.types start (path_of before.items) (path_of v.items)) }
    ensures short { (p : Path) →
        HasWritten columns.now.program.types start p →
        length before.items + length p ≤ 4 →
        IsOk result }
{
    columns.lemma_whole();
    let mut path = before;
    let mut at = start;
    for passed in 0..MAX_TAGS + 1 {
        match step_at(columns, at) {
            TagStep::Ends(None) => return Ok(path),
            TagStep::Ends(Some(tag)) => {
                let form = TagForm::Explicit;
                path.push(FormedTag { tag, form })?;
                return Ok(path);
            }
            TagStep::Inside(tag, keyword, default, j) => {
                let form = form_at(columns, keyword, default, j);
                path.push(FormedTag { tag, form })?;
                at = j;
            }
        }
    }
    Ok(path)
}
