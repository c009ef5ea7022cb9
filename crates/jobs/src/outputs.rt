//! A job, from its inputs to a sink.

ghost use Rattle.std.specs.Prelude.{◌≡◌, ◌<◌, ℕ, IfOk, IfErr};
ghost use Rattle.command_line.specs.declared.request.Verb.TheVariants.{Check, Later, Show};
ghost use Rattle.jobs.specs.Done.{IsDone, IsDoneInPart};
ghost use Rattle.jobs.specs.Outputs.{IsOutput};
ghost use Rattle.jobs.specs.Refusals.{IsNoOutput};
ghost use Rattle.asnc.specs.messages.declared.fault.Fault.TheVariants.{Device};
ghost use Rattle.sinks.specs.Sent.{state};

use crate::commands::command_output;
use crate::showing::show_output;
use crate::versions::later_output;
use asnc::Kit;
use asnc::messages::Fault;
use check_jobs::{Inputs, Output, check_output};
use command_line::{Job, Verb};
use sinks::{Sink, send_all};
use std::alloc::Global;

/// What a job of asnc prints, if it needs one program and can't say no.
fn asnc_output(alloc: Global, job: &Job, inputs: &Inputs) -> Result<Output, Fault>
    requires asnc { job.now.verb ≡ Check → ⊥ }
    requires one { job.now.verb ≡ Later → ⊥ }
    requires yes { job.now.verb ≡ Show → ⊥ }
    ensures printed { IfOk result (λ o. IsOutput job.now inputs.now o.yes o.octets.items) }
    ensures refused { IfErr result (IsNoOutput job.now inputs.now) }
{
    let kit = match Kit::open(alloc, inputs.files.as_slice()) {
        Ok(kit) => kit,
        Err(fault) => return Err(fault),
    };
    match command_output(alloc, &kit, job, inputs.octets_of(job)) {
        Ok(octets) => Ok(Output { octets, yes: true }),
        Err(fault) => Err(fault),
    }
}

/// Returns what a job prints: what the program `asnc` or `octcheck` writes to standard output.
///
/// - `der`, `uper`: octets in hexadecimal digits of upper case and a line end; with `--raw` the octets alone.
/// - `ber`, `unper`: the printed value, a line end, `skipped`, the number of skipped additions, and a line end.
/// - `account`: the text of the account and a line end. `list`: the listing.
/// - `show`: a line for each header of the octets. If the octets are refused, these are the headers before the octet of
///   the refusal, and the line of [`report`](diagnostics::report) and a line end follow.
/// - `later`: `yes`, or `no`, a colon, where the newer type is no later version and why, and a line end. `octcheck`:
///   `yes`, or `no` and the first reason, and a line end.
///
/// The faults are those of [`Kit::open`] for the texts, and then those of the command's call of [`Kit`]; for octcheck
/// they are those of [`judging::judge`]. Of `later` they are those of the older texts, then `Newer` for those of the
/// newer texts, then `NoType` or `NoNewerType` if the name finds no type in the older or in the newer ones. `Memory`
/// comes too if an allocation fails.
pub fn output(alloc: Global, job: &Job, inputs: &Inputs) -> Result<Output, Fault>
    // The output is exactly what the job asks for.
    ensures printed { IfOk result (λ o. IsOutput job.now inputs.now o.yes o.octets.items) }
    // A fault is true.
    ensures refused { IfErr result (IsNoOutput job.now inputs.now) }
{
    match job.verb {
        Verb::Check => match check_output(alloc, job, inputs) {
            Ok(output) => Ok(output),
            Err(fault) => Err(fault),
        },
        Verb::Later => match later_output(alloc, job, inputs) {
            Ok(answer) => Ok(answer),
            Err(fault) => Err(fault),
        },
        Verb::Show => match show_output(alloc, job, inputs) {
            Ok(shown) => Ok(shown),
            Err(fault) => Err(fault),
        },
        _ => asnc_output(alloc, job, inputs),
    }
}

/// Does a job: writes what [`output`] returns to a sink. Returns false if that is a `no`, or if `show` shows a refusal.
///
/// The faults are those of [`output`], before the first octet. `Device`: one call of the sink failed, which isn't tried
/// again; the fault has the number of octets that went out before.
pub fn work<S: Sink>(alloc: Global, job: &Job, inputs: &Inputs, sink: &mut S) -> Result<bool, Fault>
    requires room { S.failed sink.old < u64.MAX }
    // The sink took exactly what the job asks for, and no call failed.
    ensures done { IfOk result (λ yes. IsDone job.now inputs.now yes
        (state (S.taken sink.old) (S.failed sink.old))
        (state (S.taken sink.new) (S.failed sink.new))) }
    // The sink took exactly the first n octets of that, fewer than there are, and one call failed.
    ensures device { IfErr result (λ e. (n : ℕ) →
        e ≡ Device n →
        IsDoneInPart job.now inputs.now
        (state (S.taken sink.old) (S.failed sink.old))
        (state (S.taken sink.new) (S.failed sink.new))
        n) }
    // Any other fault is true, and no octet went out.
    ensures refused { IfErr result (λ e.
        ((n : ℕ) → e ≡ Device n → ⊥) →
        IsNoOutput job.now inputs.now e × (sink.new ≡ sink.old)) }
{
    let output = match output(alloc, job, inputs) {
        Ok(output) => output,
        Err(fault) => return Err(fault),
    };
    match send_all(sink, output.octets.as_slice()) {
        Ok(()) => Ok(output.yes),
        Err(sent) => Err(Fault::Device(sent)),
    }
}
