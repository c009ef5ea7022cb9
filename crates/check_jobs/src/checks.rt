//! The verdict on the claim of a job, as a line.

ghost use Rattle.std.specs.Prelude.{◌≡◌, ◌<◌, ℕ, IfOk, IfErr};
ghost use Rattle.check_jobs.specs.Checks.{is_yes, IsChecked, IsCheckedInPart, IsNotChecked, IsVerdictLine};
ghost use Rattle.check_jobs.specs.Inputs.{line_of};
ghost use Rattle.judging.specs.Judged.{answer_of};
ghost use Rattle.judging.specs.messages.declared.fault.Fault.TheVariants.{Device, Memory};
ghost use Rattle.sinks.specs.Sent.{state};

use crate::inputs::{Inputs, Output, value_of};
use crate::lines::with_line_end;
use command_line::Job;
use judging::messages::Fault;
use judging::{Verdict, answer, judge};
use sinks::{Sink, send_all};
use std::alloc::Global;

/// The line of a verdict.
fn line(alloc: Global, verdict: Verdict) -> Result<Output, Fault>
    ensures line { IfOk result (λ o. o.octets.items ≡ line_of (answer_of verdict)) }
    ensures yes { IfOk result (λ o. o.yes ≡ is_yes verdict) }
    ensures memory { IfErr result (λ e. e ≡ Memory) }
{
    let text = String::from_str(alloc, answer(verdict))?;
    let octets = with_line_end(text)?;
    let yes = match verdict {
        Verdict::Yes => true,
        Verdict::No(_) => false,
    };
    Ok(Output { octets, yes })
}

/// Judges the claim of a job: that its octets encode the value that it gives, as its account describes. The output is
/// `yes`, or `no` and the first reason, and a line end.
///
/// The faults are those of [`judge`]. `Memory` comes too if an allocation fails.
pub fn check_output(alloc: Global, job: &Job, inputs: &Inputs) -> Result<Output, Fault>
    ensures printed { IfOk result (λ o. IsVerdictLine job.now inputs.now o.yes o.octets.items) }
    ensures refused { IfErr result (IsNotChecked job.now inputs.now) }
{
    let verdict = match judge(
        alloc,
        inputs.files.as_slice(),
        job.ty.as_str(),
        value_of(job),
        inputs.octets_of(job),
        inputs.account(),
    ) {
        Ok(verdict) => verdict,
        Err(fault) => return Err(fault),
    };
    match line(alloc, verdict) {
        Ok(output) => Ok(output),
        Err(fault) => Err(fault),
    }
}

/// Does the job of octcheck: writes the line of [`check_output`] to a sink. Returns whether it is `yes`.
///
/// The faults are those of [`check_output`], before the first octet. `Device`: one call of the sink failed, which isn't
/// tried again; the fault has the number of octets that went out before.
pub fn check<S: Sink>(
    alloc: Global,
    job: &Job,
    inputs: &Inputs,
    sink: &mut S,
) -> Result<bool, Fault>
    requires room { S.failed sink.old < u64.MAX }
    // The sink took exactly the line of the verdict, and no call failed.
    ensures checked { IfOk result (λ yes. IsChecked job.now inputs.now yes
        (state (S.taken sink.old) (S.failed sink.old))
        (state (S.taken sink.new) (S.failed sink.new))) }
    // The sink took exactly the first n octets of the line, fewer than there are, and one call failed.
    ensures device { IfErr result (λ e. (n : ℕ) →
        e ≡ Device n →
        IsCheckedInPart job.now inputs.now
        (state (S.taken sink.old) (S.failed sink.old))
        (state (S.taken sink.new) (S.failed sink.new))
        n) }
    // Any other fault is true, and no octet went out.
    ensures refused { IfErr result (λ e.
        ((n : ℕ) → e ≡ Device n → ⊥) →
        IsNotChecked job.now inputs.now e × (sink.new ≡ sink.old)) }
{
    let output = check_output(alloc, job, inputs)?;
    match send_all(sink, output.octets.as_slice()) {
        Ok(()) => Ok(output.yes),
        Err(sent) => Err(Fault::Device(sent)),
    }
}
