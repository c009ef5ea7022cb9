//! Automatic tags, and the outermost tag of a type.

ghost use Rattle.std.specs.Prelude.{ℕ, ◌≡◌, ◌<◌, ◌≤◌, length, IfOk, IsOk};
ghost use Rattle.tagging.specs.Tags.{Path, automatic, path_of, Tags};
ghost use Rattle.tagging.specs.Tagged.{IsTagged};
ghost use Rattle.tagging.specs.proving.Heads.{Head};

use crate::columns::Columns;
use crate::path::{FormedTag, Label, TagPath, form_at, with_written, written_outermost};
use asn_base::tag::{Class, Tag};
use smallvec::SmallVec;
use std::alloc::{AllocError, Global};
use trees::{Keyword, TagDefault};

/// The number of a type's automatic tag.
pub(crate) fn automatic_number(columns: &Columns<'_>, ty: usize) -> Option<usize>
    requires there { ty < length columns.now.program.types }
    ensures { result ≡ automatic columns.now.program.types ty }
{
    match columns.written(ty).place {
        None => None,
        Some(place) => {
            if columns.numbers(place.list) {
                Some(place.number)
            } else {
                None
            }
        }
    }
}

/// The outermost tag of a type.
pub(crate) fn head(columns: &Columns<'_>, ty: usize) -> Option<Label>
    requires there { ty < length columns.now.program.types }
    ensures { Head columns.now.program.types ty result }
{
    columns.lemma_whole();
    match automatic_number(columns, ty) {
        None => written_outermost(columns, ty),
        Some(number) => Some((Class::Context, number)),
    }
}

/// The tags of a type, the outermost first. If there are at most four, the call takes no memory.
pub(crate) fn path_of(
    alloc: Global,
    columns: &Columns<'_>,
    ty: usize,
) -> Result<TagPath, AllocError>
    requires there { ty < length columns.now.program.types }
    requires tagged { IsTagged columns.now.program.types }
    ensures ok { IfOk result (λ v. Tags columns.now.program.types ty (path_of v.items)) }
    ensures short { (p : Path) → Tags columns.now.program.types ty p → length p ≤ 4 → IsOk result }
{
    let mut path = SmallVec::new(alloc);
    match automatic_number(columns, ty) {
        None => with_written(path, columns, ty),
        Some(number) => {
            let form = form_at(columns, Keyword::Absent, TagDefault::Automatic, ty);
            let tag = Tag::of(Class::Context, number as u32);
            path.push_reserved(FormedTag { tag, form });
            with_written(path, columns, ty)
        }
    }
}
