//! A job that takes lines of standard input.

ghost use Rattle.std.specs.Prelude.{◌≡◌, ◌⊎◌, ◌<◌, ℕ, IfOk, IfErr, OnOk};
ghost use Rattle.asnc.specs.named_values.Meant.{IsNoType, NamesType};
ghost use Rattle.input_lines.specs.Remaining.{remaining_of};
ghost use Rattle.jobs.specs.Streams.{AreLinesDone, AreLinesDoneInPart, AreLinesStopped, IsNotBegun};
ghost use Rattle.asnc.specs.messages.declared.fault.Fault.TheVariants.{Device};
ghost use Rattle.sinks.specs.Sent.{state};

use crate::answers::Lines;
use crate::commands_of_lines::LineCommand;
use crate::streams::stream;
use asnc::Kit;
use asnc::messages::Fault;
use check_jobs::Inputs;
use command_line::Job;
use input_lines::InputLines;
use sinks::Sink;
use std::alloc::Global;
use std::io::Read;

/// A job that takes lines, and what it does with each.
#[derive(Clone, Copy)]
pub struct LineJob<'a> {
    pub job: &'a Job,
    pub inputs: &'a Inputs,
    pub command: LineCommand,
}

/// Checks that a name is that of a type. `NoType`: it isn't. `Memory`: an allocation failed.
fn check_type(alloc: Global, kit: &Kit, ty: &str) -> Result<(), Fault>
    ensures named { OnOk result (NamesType kit.now.program ty.now) }
    ensures unnamed { IfErr result (IsNoType kit.now.program ty.now) }
{
    match kit.type_named(ty) {
        Some(_) => Ok(()),
        None => Err(Fault::NoType(String::from_str(alloc, ty)?)),
    }
}

/// Does a job that takes lines: opens its modules once, and writes the answer to each line of the input to a sink, as
/// [`stream`] does. Returns false if a line was refused.
///
/// The faults of [`Kit::open`] come before the first line, and so does `NoType` if the job names no type. The others
/// are those of [`stream`].
pub fn work_lines<R: Read, S: Sink>(
    alloc: Global,
    asked: LineJob<'_>,
    input: &mut InputLines<R>,
    sink: &mut S,
) -> Result<bool, Fault>
    requires room { S.failed sink.old < u64.MAX }
    // The sink took exactly the answers to all lines, and no call failed.
    ensures done { IfOk result (λ yes. AreLinesDone asked.entry.job.now asked.entry.inputs.now asked.entry.command
        (remaining_of R.remaining input.old) yes
        (state (S.taken sink.old) (S.failed sink.old))
        (state (S.taken sink.new) (S.failed sink.new))) }
    // The sink took exactly the first n octets of the answers to the first lines, and one call failed.
    ensures device { IfErr result (λ e. (n : ℕ) →
        e ≡ Device n →
        AreLinesDoneInPart asked.entry.job.now asked.entry.inputs.now asked.entry.command
        (remaining_of R.remaining input.old) n
        (state (S.taken sink.old) (S.failed sink.old))
        (state (S.taken sink.new) (S.failed sink.new))) }
    // Any other fault is true and no octet went out, or exactly the answers to the first lines did.
    ensures refused { IfErr result (λ e.
        ((n : ℕ) → e ≡ Device n → ⊥) →
        (IsNotBegun asked.entry.job.now asked.entry.inputs.now e × (sink.new ≡ sink.old))
        ⊎ AreLinesStopped asked.entry.job.now asked.entry.inputs.now asked.entry.command
        (remaining_of R.remaining input.old)
        (state (S.taken sink.old) (S.failed sink.old))
        (state (S.taken sink.new) (S.failed sink.new))
        e) }
{
    let kit = match Kit::open(alloc, asked.inputs.files.as_slice()) {
        Ok(kit) => kit,
        Err(fault) => return Err(fault),
    };
    match check_type(alloc, &kit, asked.job.ty.as_str()) {
        Ok(()) => {}
        Err(fault) => return Err(fault),
    }
    let lines = Lines {
        kit: &kit,
        job: asked.job,
        texts: asked.inputs.files.as_slice(),
        command: asked.command,
    };
    match stream(alloc, &lines, input, sink) {
        Ok(yes) => Ok(yes),
        Err(fault) => Err(fault),
    }
}
