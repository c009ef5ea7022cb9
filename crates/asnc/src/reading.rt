//! The value that octets encode, printed.

ghost use Rattle.std.specs.Prelude.{◌≡◌, ◌<◌, ℕ, List, Err, IfOk, IfErr, IfSome, IsSomeAnd, length, string_bytes};
ghost use Rattle.asn_base.specs.Abstract.{AbstractValue};
ghost use Rattle.asn_base.specs.Types.{Resolved};
ghost use Rattle.decode_faults.specs.declared.read_fault.ReadFault.TheVariants.{Memory as no_memory, MessageLimit};
ghost use Rattle.decode_faults.specs.declared.read_fault.ReadFault.TheVariants.{NotDer as not_strict};
ghost use Rattle.encodings.specs.Reading.{Encodes};
ghost use Rattle.encodings.specs.Rules.{Rules as Rules', Basic, Distinguished};
ghost use Rattle.asnc.specs.ErrorSites.{IsErrorSite};
ghost use Rattle.asnc.specs.Reading.{HasBrokenRule, IsNotDer, IsNotRead, IsNotReadAs, IsRead, IsReadAs, IsReadBy};
ghost use Rattle.asnc.specs.Reading.{IsReadFault, rules_of};
ghost use Rattle.broken_rules.specs.Broken.{IsViolation};

use crate::error_site::{ErrorSite, stop_site};
use crate::kit_types::{KitType, KitTypes};
use crate::view_text::print_shown;
use asn_base::schema::{Schema, TypeId};
use ber_reader::{Read, read_ber, read_der};
use broken_rules::{Encoded, Violation, broken_rule};
use codec_code::Code;
use decode_faults::ReadFault;
use judging::messages::{DecodeError, Fault, Finding};
use judging::named_values::named_type;
use octet_findings::{
    FaultSite, Site, constructed, contents_depth, depth, finding, missing, unexpected,
};
use std::alloc::{AllocError, Global};

/// The rules by which octets are read.
#[derive(Clone, Copy, Debug, PartialEq, Eq)]
pub enum Rules {
    /// The basic rules.
    Ber,
    /// The distinguished rules.
    Der,
}

/// A broken rule of DER as a fault of octets, with its own octet and path.
fn violation_error(alloc: Global, broken: Violation) -> Result<DecodeError, AllocError>
    ensures fault { IfOk result (λ u. u.fault ≡ not_strict) }
    ensures finding { (s : List Resolved) (t k : ℕ) (v : AbstractValue) (o : List ℕ)
        → Encodes s Basic t v k o
        → IsViolation s t v o broken.offset (string_bytes broken.found)
        → IfOk result (λ u. HasBrokenRule s t o u.offset u.finding) }
{
    let found = broken.found.as_str();
    let kind = broken.kind;
    let finding = Finding {
        found: format!(in alloc; "{found} ({kind})")?,
        expected: broken.expected,
    };
    Ok(DecodeError {
        fault: ReadFault::NotDer,
        offset: broken.offset,
        path: broken.path,
        finding: Some(finding),
    })
}

/// The first rule of DER that octets break which encode a value of the type by BER, as a fault of octets. None only if
/// they encode no value, or break none.
fn not_der(alloc: Global, ty: KitType<'_>, octets: &[u8]) -> Result<Option<DecodeError>, AllocError>
    ensures fault { IfOk result (λ o. IfSome o (λ u. u.fault ≡ not_strict)) }
    ensures finding { IsNotDer ty.entry.code.now ty.entry.id.index octets.now
        → IfOk result (λ o. IsSomeAnd o (λ u.
        HasBrokenRule ty.entry.code.now ty.entry.id.index octets.now u.offset u.finding)) }
{
    let read = match read_ber(alloc, ty.code, ty.id, octets) {
        Ok(read) => read,
        Err(ReadFault::Memory) => return Err(AllocError),
        Err(_) => return Ok(None),
    };
    let value = read.view.to_value(alloc)?;
    let encoded = Encoded {
        schema: ty.schema,
        code: ty.code,
        ty: ty.id,
        value: &value,
        octets,
    };
    match broken_rule(alloc, encoded, &read.view.top())? {
        Some(broken) => Ok(Some(violation_error(alloc, broken)?)),
        None => Ok(None),
    }
}

/// Where reading stops at a tag that is not expected: in contents octets if the tag is within as many headers as these.
/// Otherwise it is in a header of the part that was being read.
fn tag_site(octets: &[u8], part: &ErrorSite) -> Site {
    let levels = match part.levels {
        Some(levels) if levels <= depth(octets, part.offset) => Some(levels),
        _ => None,
    };
    Site {
        at: part.offset,
        levels,
    }
}

/// What was found where a tag or a form of it is not expected. At the first of the contents octets of a value whose
/// type has no values of constructed form, it is this form.
fn unexpected_at(
    alloc: Global,
    schema: &Schema,
    octets: &[u8],
    part: &ErrorSite,
) -> Result<Option<Finding>, AllocError> {
    if part.levels == Some(contents_depth(octets, part.offset)) {
        if let Some(finding) = constructed(alloc, schema, part.ty)? {
            return Ok(Some(finding));
        }
    }
    unexpected(alloc, schema, part.ty, octets, tag_site(octets, part))
}

/// A fault of octets at the octet and the path at which reading stops, and what was found there.
fn stop_error(
    alloc: Global,
    ty: KitType<'_>,
    octets: &[u8],
    fault: ReadFault,
) -> Result<DecodeError, AllocError>
    ensures fault { IfOk result (λ u. u.fault ≡ fault) }
    ensures place { IfOk result (λ u.
        IsErrorSite ty.entry.code.now ty.entry.id.index octets.now u.offset (string_bytes u.path)) }
{
    let part = stop_site(alloc, ty.schema, ty.code, ty.id, octets)?;
    let finding = match fault {
        ReadFault::Missing => {
            let site = Site {
                at: part.offset,
                levels: part.levels,
            };
            missing(alloc, ty.schema, part.ty, octets, site)?
        }
        ReadFault::UnexpectedTag => unexpected_at(alloc, ty.schema, octets, &part)?,
        _ => {
            let site = FaultSite {
                ty: part.ty,
                at: part.offset,
                fault,
            };
            finding(alloc, ty.schema, octets, site)?
        }
    };
    Ok(DecodeError {
        fault,
        offset: part.offset,
        path: part.path,
        finding,
    })
}

/// A fault of octets with the octet and the path at which it is, and what was found there. Of `NotDer` these are where
/// the first rule is broken, and of any other fault where reading stops.
pub(crate) fn locate_fault(
    alloc: Global,
    ty: KitType<'_>,
    octets: &[u8],
    fault: ReadFault,
) -> Result<DecodeError, AllocError>
    ensures fault { IfOk result (λ u. u.fault ≡ fault) }
    ensures place { (fault ≡ not_strict → ⊥) → IfOk result (λ u.
        IsErrorSite ty.entry.code.now ty.entry.id.index octets.now u.offset (string_bytes u.path)) }
    ensures finding { fault ≡ not_strict
        → IsNotDer ty.entry.code.now ty.entry.id.index octets.now
        → IfOk result (λ u. HasBrokenRule ty.entry.code.now ty.entry.id.index octets.now u.offset u.finding) }
{
    if fault == ReadFault::NotDer {
        if let Some(error) = not_der(alloc, ty, octets)? {
            return Ok(error);
        }
    }
    Ok(stop_error(alloc, ty, octets, fault)?)
}

/// A fault of octets, as a user sees it, with the octet and the path at which it is.
pub(crate) fn refusal(alloc: Global, ty: KitType<'_>, octets: &[u8], fault: ReadFault) -> Fault
    ensures valid { (r : Rules')
        → ((fault ≡ no_memory → ⊥) → IsReadFault ty.entry.code.now r ty.entry.id.index octets.now fault)
        → IsNotRead ty.entry.code.now r ty.entry.id.index octets.now result }
{
    if fault == ReadFault::Memory {
        return Fault::Memory;
    }
    match locate_fault(alloc, ty, octets, fault) {
        Ok(unread) => Fault::DecodeError(unread),
        Err(_) => Fault::Memory,
    }
}

/// The value of a type that octets encode by the basic rules, as a view.
fn read_basic<'a>(
    alloc: Global,
    code: &Code,
    id: TypeId,
    octets: &'a [u8],
) -> Result<Read<'a>, ReadFault>
    ensures read { IfOk result (IsReadBy code.now Basic id.index octets.now) }
    ensures refused { IfErr result (λ e. (e ≡ no_memory → ⊥) → IsReadFault code.now Basic id.index octets.now e) }
    ensures limit { 16777216 < length octets.now → result ≡ Err MessageLimit }
{
    match read_ber(alloc, code, id, octets) {
        Ok(read) => Ok(read),
        Err(fault) => Err(fault),
    }
}

/// The value of a type that octets encode by the distinguished rules, as a view.
fn read_strict<'a>(
    alloc: Global,
    code: &Code,
    id: TypeId,
    octets: &'a [u8],
) -> Result<Read<'a>, ReadFault>
    ensures read { IfOk result (IsReadBy code.now Distinguished id.index octets.now) }
    ensures refused { IfErr result (λ e. (e ≡ no_memory → ⊥) →
        IsReadFault code.now Distinguished id.index octets.now e) }
    ensures limit { 16777216 < length octets.now → result ≡ Err MessageLimit }
{
    match read_der(alloc, code, id, octets) {
        Ok(read) => Ok(read),
        Err(fault) => Err(fault),
    }
}

/// The value of a type that octets encode by the rules, as a view.
pub(crate) fn read_by<'a>(
    alloc: Global,
    code: &Code,
    id: TypeId,
    octets: &'a [u8],
    rules: Rules,
) -> Result<Read<'a>, ReadFault>
    ensures read { IfOk result (IsReadBy code.now (rules_of rules) id.index octets.now) }
    ensures refused { IfErr result (λ e. (e ≡ no_memory → ⊥)
        → IsReadFault code.now (rules_of rules) id.index octets.now e) }
    ensures limit { 16777216 < length octets.now → result ≡ Err MessageLimit }
{
    match rules {
        Rules::Ber => read_basic(alloc, code, id, octets),
        Rules::Der => read_strict(alloc, code, id, octets),
    }
}

/// The printed value of a type that octets encode by the rules, and the number of skipped additions. `DecodeError`: the
/// octets encode no value of the type; the fault has the place. `Memory`: an allocation failed.
fn read_text(
    alloc: Global,
    ty: KitType<'_>,
    octets: &[u8],
    rules: Rules,
) -> Result<(String, u64), Fault>
    ensures read { IfOk result (λ r.
        IsRead ty.entry.code.now (rules_of rules) ty.entry.id.index octets.now (string_bytes r.0) r.1) }
    ensures refused { IfErr result
        (IsNotRead ty.entry.code.now (rules_of rules) ty.entry.id.index octets.now) }
{
    let read = match read_by(alloc, ty.code, ty.id, octets, rules) {
        Ok(read) => read,
        Err(fault) => return Err(refusal(alloc, ty, octets, fault)),
    };
    let text = print_shown(alloc, ty.schema, ty.id, &read.view)?;
    Ok((text, read.skipped))
}

/// The printed value of the type that a text names. `NoType`: the text names no type. `DecodeError`: the octets encode
/// no value of the type by the rules. `Memory`: an allocation failed.
pub(crate) fn read_as(
    alloc: Global,
    types: KitTypes<'_>,
    ty: &str,
    octets: &[u8],
    rules: Rules,
) -> Result<(String, u64), Fault>
    ensures read { IfOk result (λ r. IsReadAs types.entry.modules.now types.entry.code.now (rules_of rules) ty.now
        octets.now (string_bytes r.0) r.1) }
    ensures refused { IfErr result
        (IsNotReadAs types.entry.modules.now types.entry.code.now (rules_of rules) ty.now octets.now) }
{
    let id = match named_type(alloc, types.modules, ty) {
        Ok(id) => id,
        Err(fault) => return Err(fault),
    };
    let found = KitType {
        schema: types.schema,
        code: types.code,
        id,
    };
    read_text(alloc, found, octets, rules)
}
