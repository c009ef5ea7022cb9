//! All types, one after the other.

ghost use Rattle.std.specs.Prelude.{◌≡◌, ◌++◌, ◌<◌, IfOk, OnOk, Some, length, slice_get, string_bytes};
ghost use Rattle.type_listing.specs.Listing.{IsTypeListing, type_lines};
ghost use Rattle.type_table.specs.Table.{Type'};

use crate::heading::push_home;
use crate::tags::push_tags;
use asn_base::schema::TypeId;
use codec_code::{Code, Coding, push_steps};
use resolve::{Linked, QualifiedName};
use std::alloc::{AllocError, Global};

/// Linked modules, and the routines of their types.
#[derive(Clone, Copy)]
struct Compiled<'l> {
    linked: &'l Linked,
    code: &'l Code,
}

/// Appends the lines of a type, which is written in the assignment `home`: its number and the place, its tags, and the
/// steps of its routine.
fn push_type(
    alloc: Global,
    out: &mut String,
    compiled: Compiled<'_>,
    id: TypeId,
    home: QualifiedName<'_>,
) -> Result<(), AllocError>
    requires { id.index < length compiled.linked.now.program.types }
    ensures { OnOk result ((n : Type') → slice_get compiled.entry.linked.now.program.types id.index ≡ Some n
        → string_bytes out.new ≡ string_bytes out.old
        ++ type_lines compiled.entry.linked.now.program compiled.entry.code.now id.index n home.entry.module.now
        home.entry.name.now) }
{
    let Compiled { linked, code } = compiled;
    let index = id.index;
    write!(out, "type {index}: ")?;
    push_home(alloc, out, linked, id, home)?;
    out.push_str("\n")?;
    push_tags(out, code.tags(id))?;
    push_steps(out, code.steps(id, Coding::Tagged))
}

/// Lists the types of linked modules, whose routines these are, in the order of their numbers. Each type has a line
/// with its number and the place where it is written, in which at most 60 characters of a name are shown, and a line
/// with its tags, the outermost first. A line for each step of its routine follows, as [`codec_code::push_steps`]
/// writes it. The error is that there is not enough memory.
pub fn list(alloc: Global, linked: &Linked, code: &Code) -> Result<String, AllocError>
    ensures { IfOk result (λ text. IsTypeListing linked.now.program code.now (string_bytes text)) }
{
    let mut out = String::new(alloc);
    let compiled = Compiled { linked, code };
    let types = linked.types();
    for index in 0..types.len() {
        let id = TypeId { index };
        push_type(alloc, &mut out, compiled, id, linked.home(id))?;
    }
    Ok(out)
}
