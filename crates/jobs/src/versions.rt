//! What `later` prints of older and newer texts.

ghost use Rattle.std.specs.Prelude.{◌≡◌, IfOk, IfErr, map, string_bytes};
ghost use Rattle.asnc.specs.Differences.{AreCompared};
ghost use Rattle.later_versions.specs.DifferenceText.{says_later as says_later'};
ghost use Rattle.check_jobs.specs.Inputs.{line_of};
ghost use Rattle.asnc.specs.front_end.Accepted.{Accepted, octets_of};
ghost use Rattle.jobs.specs.Outputs.{answer_text, IsAnswerLine};
ghost use Rattle.jobs.specs.Refusals.{IsNewerFault, IsNoAnswer, LacksType};
ghost use Rattle.asnc.specs.messages.declared.fault.Fault.TheVariants.{Memory};

use asnc::messages::Fault;
use asnc::{Explained, Kit};
use check_jobs::{Inputs, Output, with_line_end};
use command_line::Job;
use std::alloc::Global;

/// Whether the answer is that the newer type is a later version.
fn says_later(answer: &Explained) -> bool
    ensures { result ≡ says_later' answer.now }
{
    match answer {
        Explained::Later => true,
        Explained::Differs(_, _) => false,
    }
}

/// The line of an answer.
fn line(alloc: Global, answer: &Explained) -> Result<Vec<u8>, Fault>
    ensures line { IfOk result (λ v. v.items ≡ line_of (answer_text answer.now)) }
    ensures memory { IfErr result (λ e. e ≡ Memory) }
{
    match answer {
        Explained::Later => with_line_end(String::from_str(alloc, "yes")?),
        Explained::Differs(_, text) => {
            let mut line = String::from_str(alloc, "no: ")?;
            line.push_str(text.as_str())?;
            with_line_end(line)
        }
    }
}

/// The kit of the newer texts. Its faults are those of [`Kit::open`], as faults of the newer texts.
fn newer_kit(alloc: Global, texts: &[Vec<u8>]) -> Result<Kit, Fault>
    ensures opened { IfOk result (λ k. Accepted (map octets_of texts.now) k.program k.types) }
    ensures refused { IfErr result (IsNewerFault (map octets_of texts.now)) }
{
    match Kit::open(alloc, texts) {
        Ok(kit) => Ok(kit),
        Err(Fault::Front(fault)) => Err(Fault::Newer(fault)),
        Err(_) => Err(Fault::Memory),
    }
}

/// Whether the type of a name in the newer kit is a later version of that in the older one, or where it is none.
///
/// `NoType`: the older kit has no type of this name. `NoNewerType`: the older kit has one, and the newer kit has none.
/// `Memory`: an allocation failed.
fn compared(alloc: Global, older: &Kit, newer: &Kit, ty: &str) -> Result<Explained, Fault>
    ensures compared { IfOk result (AreCompared older.now.program older.now.types
        newer.now.program newer.now.types ty.now) }
    ensures lacks { IfErr result (LacksType older.now.program newer.now.program ty.now) }
{
    match Kit::compare(alloc, older, newer, ty) {
        Ok(answer) => Ok(answer),
        Err(Fault::NoType(name)) => match older.type_named(ty) {
            Some(_) => Err(Fault::NoNewerType(name)),
            None => Err(Fault::NoType(name)),
        },
        Err(_) => Err(Fault::Memory),
    }
}

/// What `later` prints.
pub(crate) fn later_output(alloc: Global, job: &Job, inputs: &Inputs) -> Result<Output, Fault>
    ensures printed { IfOk result (λ o. IsAnswerLine job.now inputs.now o.yes o.octets.items) }
    ensures refused { IfErr result (IsNoAnswer (map octets_of inputs.now.files.items)
        (map octets_of inputs.now.newer.items) (string_bytes job.now.ty)) }
{
    let older = match Kit::open(alloc, inputs.files.as_slice()) {
        Ok(kit) => kit,
        Err(fault) => return Err(fault),
    };
    let newer = match newer_kit(alloc, inputs.newer.as_slice()) {
        Ok(kit) => kit,
        Err(fault) => return Err(fault),
    };
    let answer = match compared(alloc, &older, &newer, job.ty.as_str()) {
        Ok(answer) => answer,
        Err(fault) => return Err(fault),
    };
    let yes = says_later(&answer);
    match line(alloc, &answer) {
        Ok(octets) => Ok(Output { octets, yes }),
        Err(fault) => Err(fault),
    }
}
