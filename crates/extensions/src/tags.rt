//! The tags before the contents of a type.

ghost use Rattle.std.specs.Prelude.{◌≡◌, ◌<◌, ◌++◌, IfOk, OnOk, length, map};
ghost use Rattle.tagging.specs.Tags.{Path, Tags, label, path_of};
ghost use Rattle.settled.specs.Settled.{standing as standing'};
ghost use Rattle.extensions.specs.proving.Cores.{is_implicit, unless};

use asn_base::schema::TypeId;
use asn_base::tag::Tag;
use constraints::Bounded;
use std::alloc::{AllocError, Global};
use tagging::{FormedTag, TagForm, tags_of};

/// Whether a tag replaces the tag after it, as an implicit one does.
fn replaces(form: TagForm) -> bool
    ensures { result ≡ is_implicit form }
{
    match form {
        TagForm::Implicit => true,
        TagForm::Explicit => false,
    }
}

/// Adds a tag, unless the tag before it replaces it.
fn add(tags: &mut Vec<Tag>, replaced: bool, tag: Tag) -> Result<(), AllocError>
    ensures { OnOk result (map label tags.new.items ≡ map label tags.old.items ++ unless replaced (label tag)) }
{
    if !replaced {
        tags.push(tag)?;
    }
    Ok(())
}

/// The tags of a type that are encoded before its contents: those that no tag replaces.
fn standing(alloc: Global, path: &[FormedTag]) -> Result<Vec<Tag>, AllocError>
    ensures { IfOk result (λ v. map label v.items ≡ standing' (path_of path.now)) }
{
    let mut tags = Vec::new(alloc);
    let mut replaced = false;
    for formed in path {
        add(&mut tags, replaced, formed.tag)?;
        replaced = replaces(formed.form);
    }
    Ok(tags)
}

/// The tags before the contents of a type, the outermost first. A written tag, an automatic tag or the type's own is
/// one of these unless an implicit tag replaces it (X.680, clause 31.2.7; X.690, clause 8.14). `AllocError` only if an
/// allocation fails.
pub(crate) fn tags(alloc: Global, bounded: &Bounded<'_>, ty: TypeId) -> Result<Vec<Tag>, AllocError>
    requires { ty.index < length bounded.now.program.types }
    ensures { IfOk result (λ v. (p : Path) × Tags bounded.now.program.types ty.index p
        × (map label v.items ≡ standing' p)) }
{
    let path = tags_of(alloc, bounded.tagged(), ty)?;
    match standing(alloc, &path) {
        Ok(tags) => Ok(tags),
        Err(fault) => Err(fault),
    }
}
