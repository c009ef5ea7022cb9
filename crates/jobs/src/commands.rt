//! What the commands of `asnc` print, in the program of opened texts.

ghost use Rattle.std.specs.Prelude.{◌≡◌, IfOk, IfErr, string_bytes};
ghost use Rattle.asnc.specs.Packing.{IsNotPacked};
ghost use Rattle.asnc.specs.Reading.{IsNotReadAs, rules_of};
ghost use Rattle.asnc.specs.type_listing.Listing.{IsTypeListing};
ghost use Rattle.asnc.specs.Unpacking.{IsNotUnpackedAs};
ghost use Rattle.asnc.specs.Writing.{IsNotEncoded};
ghost use Rattle.check_jobs.specs.Inputs.{given_in};
ghost use Rattle.command_line.specs.declared.request.Verb.TheVariants.{Check, Later, Show};
ghost use Rattle.jobs.specs.Outputs.{octets_or_line, rules_if, value_lines, Prints};
ghost use Rattle.jobs.specs.Outputs.{PrintsAccount, PrintsBer, PrintsDer, PrintsUnper, PrintsUper};
ghost use Rattle.jobs.specs.Refusals.{Refuses};
ghost use Rattle.asnc.specs.messages.declared.fault.Fault.TheVariants.{Memory};

use asnc::messages::Fault;
use asnc::{Kit, Rules};
use check_jobs::{hex_line, value_of, with_line_end};
use command_line::{Job, Verb};
use std::alloc::Global;

/// A printed value, and how many additions were skipped, a line each.
fn value_text(alloc: Global, mut text: String, skipped: u64) -> Result<Vec<u8>, Fault>
    ensures lines { IfOk result (λ v. v.items ≡ value_lines (string_bytes text) skipped) }
    ensures memory { IfErr result (λ e. e ≡ Memory) }
{
    let digits = skipped.to_string(alloc)?;
    text.push_str("\nskipped ")?;
    text.push_str(digits.as_str())?;
    with_line_end(text)
}

/// Octets as they are, or in a line of hexadecimal digits.
fn octets_text(alloc: Global, octets: Vec<u8>, raw: bool) -> Result<Vec<u8>, Fault>
    ensures text { IfOk result (λ v. v.items ≡ octets_or_line raw octets.items) }
    ensures memory { IfErr result (λ e. e ≡ Memory) }
{
    if raw {
        Ok(octets)
    } else {
        match hex_line(alloc, octets.as_slice()) {
            Ok(line) => Ok(line),
            Err(fault) => Err(fault),
        }
    }
}

/// What `der` prints.
fn der(alloc: Global, kit: &Kit, job: &Job) -> Result<Vec<u8>, Fault>
    ensures printed { IfOk result (λ v. PrintsDer kit.now.program kit.now.types job.now v.items) }
    ensures refused { IfErr result
        (IsNotEncoded kit.now.program kit.now.types (string_bytes job.now.ty) (given_in job.now.value)) }
{
    let (octets, _account) = match kit.der(alloc, job.ty.as_str(), value_of(job)) {
        Ok(written) => written,
        Err(fault) => return Err(fault),
    };
    match octets_text(alloc, octets, job.raw) {
        Ok(text) => Ok(text),
        Err(fault) => Err(fault),
    }
}

/// What `uper` prints.
fn uper(alloc: Global, kit: &Kit, job: &Job) -> Result<Vec<u8>, Fault>
    ensures printed { IfOk result (λ v. PrintsUper kit.now.program kit.now.types job.now v.items) }
    ensures refused { IfErr result
        (IsNotPacked kit.now.program kit.now.types (string_bytes job.now.ty) (given_in job.now.value)) }
{
    let octets = match kit.uper(alloc, job.ty.as_str(), value_of(job)) {
        Ok(octets) => octets,
        Err(fault) => return Err(fault),
    };
    match octets_text(alloc, octets, job.raw) {
        Ok(text) => Ok(text),
        Err(fault) => Err(fault),
    }
}

/// What `account` prints.
fn account(alloc: Global, kit: &Kit, job: &Job) -> Result<Vec<u8>, Fault>
    ensures printed { IfOk result (λ v. PrintsAccount kit.now.program kit.now.types job.now v.items) }
    ensures refused { IfErr result
        (IsNotEncoded kit.now.program kit.now.types (string_bytes job.now.ty) (given_in job.now.value)) }
{
    let text = match kit.account(alloc, job.ty.as_str(), value_of(job)) {
        Ok(text) => text,
        Err(fault) => return Err(fault),
    };
    match with_line_end(text) {
        Ok(line) => Ok(line),
        Err(fault) => Err(fault),
    }
}

/// The rules by which a job reads octets.
fn rules_in(job: &Job) -> Rules
    ensures { rules_of result ≡ rules_if job.now.strict }
{
    if job.strict { Rules::Der } else { Rules::Ber }
}

/// What `ber` prints.
fn ber(alloc: Global, kit: &Kit, job: &Job, octets: &[u8]) -> Result<Vec<u8>, Fault>
    ensures printed { IfOk result (λ v. PrintsBer kit.now.program kit.now.types job.now octets.now v.items) }
    ensures refused { IfErr result (IsNotReadAs kit.now.program kit.now.types
        (rules_if job.now.strict) (string_bytes job.now.ty) octets.now) }
{
    let (text, skipped) = match kit.ber(alloc, job.ty.as_str(), octets, rules_in(job)) {
        Ok(read) => read,
        Err(fault) => return Err(fault),
    };
    match value_text(alloc, text, skipped) {
        Ok(lines) => Ok(lines),
        Err(fault) => Err(fault),
    }
}

/// What `unper` prints.
fn unper(alloc: Global, kit: &Kit, job: &Job, octets: &[u8]) -> Result<Vec<u8>, Fault>
    ensures printed { IfOk result (λ v. PrintsUnper kit.now.program kit.now.types job.now octets.now v.items) }
    ensures refused { IfErr result
        (IsNotUnpackedAs kit.now.program kit.now.types (string_bytes job.now.ty) octets.now) }
{
    let (text, skipped) = match kit.unper(alloc, job.ty.as_str(), octets) {
        Ok(read) => read,
        Err(fault) => return Err(fault),
    };
    match value_text(alloc, text, skipped) {
        Ok(lines) => Ok(lines),
        Err(fault) => Err(fault),
    }
}

/// What `list` prints.
fn list(alloc: Global, kit: &Kit) -> Result<Vec<u8>, Fault>
    ensures listed { IfOk result (λ v. IsTypeListing kit.now.program kit.now.types v.items) }
    ensures memory { IfErr result (λ e. e ≡ Memory) }
{
    match kit.list(alloc) {
        Ok(text) => Ok(text.into_bytes()),
        Err(fault) => Err(fault),
    }
}

/// Returns what the command of a job prints in the program of a kit, without opening its texts. `octets` are those that
/// the job gives. The faults are those of the command's call of [`Kit`].
///
/// The job is none of octcheck, and its command is neither `later`, which needs two kits, nor `show`, which can say no.
pub fn command_output(alloc: Global, kit: &Kit, job: &Job, octets: &[u8]) -> Result<Vec<u8>, Fault>
    requires asnc { job.now.verb ≡ Check → ⊥ }
    requires one { job.now.verb ≡ Later → ⊥ }
    requires yes { job.now.verb ≡ Show → ⊥ }
    ensures printed { IfOk result (λ v.
        Prints job.now.verb kit.now.program kit.now.types job.now octets.now v.items) }
    ensures refused { IfErr result
        (Refuses job.now.verb kit.now.program kit.now.types job.now octets.now) }
{
    match job.verb {
        Verb::Der => der(alloc, kit, job),
        Verb::Ber => ber(alloc, kit, job, octets),
        Verb::Uper => uper(alloc, kit, job),
        Verb::Unper => unper(alloc, kit, job, octets),
        Verb::Account => account(alloc, kit, job),
        Verb::List => list(alloc, kit),
        Verb::Later => unreachable!(),
        Verb::Show => unreachable!(),
        Verb::Check => unreachable!(),
    }
}
