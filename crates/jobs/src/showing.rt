//! What `show` prints of octets.

ghost use Rattle.std.specs.Prelude.{◌≡◌, ◌⊎◌, IfOk, IfErr, map, string_bytes};
ghost use Rattle.asnc.specs.front_end.Accepted.{octets_of};
ghost use Rattle.asnc.specs.Kits.{IsNotOpened};
ghost use Rattle.asnc.specs.Showing.{IsNotShownAs};
ghost use Rattle.jobs.specs.Shown.{EndsInRefusal, IsRefusalLine, IsShownOutput, IsShowRefused, PrintsShown};
ghost use Rattle.asnc.specs.messages.declared.fault.Fault.TheVariants.{Memory};

use asnc::messages::{DecodeError, Fault};
use asnc::{Kit, Listing};
use check_jobs::{Inputs, Output, with_line_end};
use command_line::Job;
use diagnostics::report;
use std::alloc::Global;

/// Lines, and after them a line with the report of a refusal. The report needs no texts.
fn with_refusal(
    alloc: Global,
    job: &Job,
    mut lines: String,
    unread: DecodeError,
) -> Result<Vec<u8>, Fault>
    ensures printed { IfOk result (λ v. IsRefusalLine (string_bytes lines) unread v.items) }
    ensures memory { IfErr result (λ e. e ≡ Memory) }
{
    let line = report(alloc, job, &[], &[], &Fault::DecodeError(unread))?;
    lines.push_str(line.as_str())?;
    with_line_end(lines)
}

/// The output for a listing.
fn listing_output(alloc: Global, job: &Job, listing: Listing) -> Result<Output, Fault>
    ensures printed { IfOk result (λ o.
        EndsInRefusal (string_bytes listing.lines) listing.refusal o.yes o.octets.items) }
    ensures memory { IfErr result (λ e. e ≡ Memory) }
{
    let lines = listing.lines;
    match listing.refusal {
        Some(unread) => match with_refusal(alloc, job, lines, unread) {
            Ok(octets) => Ok(Output { octets, yes: false }),
            Err(fault) => Err(fault),
        },
        None => Ok(Output {
            octets: lines.into_bytes(),
            yes: true,
        }),
    }
}

/// What `show` prints of octets in the program of a kit.
fn shown(alloc: Global, kit: &Kit, job: &Job, octets: &[u8]) -> Result<Output, Fault>
    ensures printed { IfOk result (λ o. PrintsShown kit.now.program kit.now.types (string_bytes job.now.ty) octets.now
        o.yes o.octets.items) }
    ensures refused { IfErr result (IsNotShownAs kit.now.program (string_bytes job.now.ty)) }
{
    let listing = match kit.show(alloc, job.ty.as_str(), octets) {
        Ok(listing) => listing,
        Err(fault) => return Err(fault),
    };
    match listing_output(alloc, job, listing) {
        Ok(output) => Ok(output),
        Err(fault) => Err(fault),
    }
}

/// What `show` prints.
pub(crate) fn show_output(alloc: Global, job: &Job, inputs: &Inputs) -> Result<Output, Fault>
    ensures printed { IfOk result (λ o. IsShownOutput job.now inputs.now o.yes o.octets.items) }
    ensures refused { IfErr result (λ e.
        IsNotOpened (map octets_of inputs.now.files.items) e ⊎ IsShowRefused job.now inputs.now e) }
{
    let kit = match Kit::open(alloc, inputs.files.as_slice()) {
        Ok(kit) => kit,
        Err(fault) => return Err(fault),
    };
    match shown(alloc, &kit, job, inputs.octets_of(job)) {
        Ok(output) => Ok(output),
        Err(fault) => Err(fault),
    }
}
