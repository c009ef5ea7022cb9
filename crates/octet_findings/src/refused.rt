//! What was found in octets that are refused.

ghost use Rattle.decode_faults.specs.declared.read_fault.ReadFault.TheVariants.{BadContents, Trailing};
ghost use Rattle.asn_base.specs.Seen.{kind_of};
ghost use Rattle.asn_base.specs.Types.{Resolved as Resolved'};
ghost use Rattle.octet_findings.specs.Contents.{FindsContents, is_enumerated};
ghost use Rattle.octet_findings.specs.Findings.{FindsRest};
ghost use Rattle.std.specs.Prelude.{◌≡◌, ◌<◌, IfOk, Some, false, length, slice_get};

use crate::allowed::of_value;
use crate::contents::of_contents;
use crate::headers::{leaf_at, part_at};
use crate::items::of_item;
use crate::words::{counted, found};
use asn_base::schema::{Core, Items, Resolved, Schema, TypeId};
use asn_base::tag::Tag;
use decode_faults::ReadFault;
use messages::Finding;
use std::alloc::{AllocError, Global};

/// How many octets are left after a value.
#[tactic(auto, using(crate::proofs::Found::rest_found))]
fn of_rest(alloc: Global, octets: &[u8], at: usize) -> Result<Option<Finding>, AllocError>
    ensures { IfOk result (FindsRest octets.now at) }
{
    let rest = counted(alloc, octets.len().saturating_sub(at), "octet")?;
    let words = format!(in alloc; "{rest} after the whole value")?;
    Ok(found(alloc, words, "the end of the message")?)
}

/// What is wrong with the contents octets of an ENUMERATED. They start at the offset if they are no number; otherwise
/// its header is there.
fn of_enumerated(
    alloc: Global,
    items: &Items,
    octets: &[u8],
    at: usize,
    tags: &[Tag],
) -> Result<Option<Finding>, AllocError> {
    let leaf = match leaf_at(octets, at) {
        Some(leaf) if tags.last() == Some(&leaf.tag) => Some(leaf),
        _ => part_at(octets, at, tags),
    };
    match leaf {
        Some(leaf) => of_item(alloc, items, leaf.octets),
        None => Ok(None),
    }
}

/// What is wrong with contents octets that are those of no value of the type.
fn of_bad_contents(
    alloc: Global,
    resolved: &Resolved,
    octets: &[u8],
    at: usize,
) -> Result<Option<Finding>, AllocError>
    ensures { is_enumerated (kind_of resolved.now.core.value) ≡ false
        → IfOk result (FindsContents (kind_of resolved.now.core.value) octets.now at) }
{
    if let Core::Enumerated(items) = &*resolved.core {
        return of_enumerated(alloc, items, octets, at, resolved.tags.as_slice());
    }
    match leaf_at(octets, at) {
        Some(contents) => Ok(of_contents(alloc, &*resolved.core, contents)?),
        None => Ok(None),
    }
}

/// Why the constraints of the type don't allow a value whose header is at the offset.
fn of_outside(
    alloc: Global,
    resolved: &Resolved,
    octets: &[u8],
    at: usize,
) -> Result<Option<Finding>, AllocError> {
    match part_at(octets, at, resolved.tags.as_slice()) {
        Some(contents) => of_value(alloc, &*resolved.core, contents),
        None => Ok(None),
    }
}

/// Where a message is refused, and why.
#[derive(Clone, Copy)]
pub struct FaultSite {
    /// The type of the part that was being read.
    pub ty: TypeId,
    /// The offset, from 0, of the octet where the fault is: at the part's header or at its contents octets.
    pub at: usize,
    /// Why the message is refused.
    pub fault: ReadFault,
}

/// Returns what was found in a message that is refused and what was expected in its place, in words. The result is None
/// if the fault says it all, or if it is `UnexpectedTag` or `Missing`, which have calls of their own. `AllocError`: an
/// allocation failed.
pub fn finding(
    alloc: Global,
    schema: &Schema,
    octets: &[u8],
    site: FaultSite,
) -> Result<Option<Finding>, AllocError>
    // Of contents octets of a type that is no ENUMERATED it says what is wrong with them.
    ensures contents { (r : Resolved')
        → slice_get schema.now site.ty.index ≡ Some r
        → is_enumerated r.kind ≡ false
        → site.fault ≡ BadContents
        → IfOk result (FindsContents r.kind octets.now site.at) }
    // Of octets after the whole value it says how many they are.
    ensures rest { site.ty.index < length schema.now
        → site.fault ≡ Trailing
        → IfOk result (FindsRest octets.now site.at) }
{
    let FaultSite { ty, at, fault } = site;
    if !schema.has(ty) {
        return Ok(None);
    }
    let resolved = schema.get(ty);
    match fault {
        ReadFault::Trailing => of_rest(alloc, octets, at),
        ReadFault::BadContents => of_bad_contents(alloc, resolved, octets, at),
        ReadFault::OutsideConstraint => of_outside(alloc, resolved, octets, at),
        _ => Ok(None),
    }
}
