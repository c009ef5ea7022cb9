//! Copies of types, which share the `core` of each type. Each fails only if an allocation fails.

ghost use Rattle.asn_base.specs.Seen.{resolved_of, types_of};
ghost use Rattle.std.specs.Prelude.{◌≡◌, IfOk};

use crate::list::add;
use crate::schema::Resolved;
use crate::tag::Tag;
use std::alloc::{AllocError, Global};

fn copied_tags(alloc: Global, tags: &[Tag]) -> Result<Vec<Tag>, AllocError>
    ensures { IfOk result (λ v. v.items ≡ tags.now) }
{
    let mut copies = Vec::new(alloc);
    copies.extend_from_slice(tags)?;
    Ok(copies)
}

fn copied_type(alloc: Global, resolved: &Resolved) -> Result<Resolved, AllocError>
    ensures { IfOk result (λ r. resolved_of r ≡ resolved_of resolved.now) }
{
    Ok(Resolved {
        tags: copied_tags(alloc, resolved.tags.as_slice())?,
        core: resolved.core.clone()?,
    })
}

/// Copies of types.
pub(crate) fn copied_types(alloc: Global, types: &[Resolved]) -> Result<Vec<Resolved>, AllocError>
    ensures { IfOk result (λ ts. types_of ts.items ≡ types_of types.now) }
{
    let mut copies = Vec::new(alloc);
    for i in 0..types.len() {
        let one = copied_type(alloc, &types[i])?;
        add(&mut copies, one)?;
    }
    Ok(copies)
}
