//! The answers to all lines of standard input.

ghost use Rattle.std.specs.Prelude.{◌≡◌, ◌<◌, ◌&&◌, ◌+◌, ℕ, List, IfOk, IfErr, MatchOption, OnOk, length, string_bytes};
ghost use Rattle.input_lines.specs.Remaining.{remaining_of};
ghost use Rattle.input_lines.specs.Lines.{HasNoLine, TakesLine};
ghost use Rattle.jobs.specs.Answers.{IsLineAnswer};
ghost use Rattle.jobs.specs.Streams.{stream_of, EndsStream, IsStopped, IsStreamed, IsStreamedInPart};
ghost use Rattle.asnc.specs.messages.declared.fault.Fault.TheVariants.{Device};
ghost use Rattle.sinks.specs.Sent.{SentAll, SentFront, state};

use crate::answers::{Lines, answer, too_long};
use asnc::messages::Fault;
use check_jobs::Output;
use input_lines::{InputLines, NextLine};
use sinks::{Sink, send_all};
use std::alloc::Global;
use std::io;
use std::io::{ErrorKind, Read};

/// The fault of standard input that can't be read further.
fn unread(alloc: Global) -> Fault
    ensures { EndsStream result }
{
    match String::from_str(alloc, "-") {
        Ok(name) => Fault::File(name),
        Err(_) => Fault::Memory,
    }
}

/// The fault for an error at standard input.
fn input_fault(alloc: Global, error: &io::Error) -> Fault
    ensures { EndsStream result }
{
    match error.kind() {
        ErrorKind::OutOfMemory => Fault::Memory,
        _ => unread(alloc),
    }
}

/// The answer to the next line of the input, or None if it has no further line. `line` is room for a line.
fn next_answer<R: Read>(
    alloc: Global,
    lines: &Lines<'_>,
    input: &mut InputLines<R>,
    line: &mut Vec<u8>,
) -> Result<Option<Output>, Fault>
    ensures answer { IfOk result (λ o. MatchOption o
        (HasNoLine (remaining_of R.remaining input.old))
        (λ x. (l : List ℕ) × TakesLine (remaining_of R.remaining input.old) (remaining_of R.remaining input.new) l
        × IsLineAnswer lines.now.command lines.now.kit.now.program lines.now.kit.now.types
        (string_bytes lines.now.job.now.ty) l x.yes x.octets.items)) }
    ensures ends { IfErr result EndsStream }
{
    match input.next(line) {
        Ok(NextLine::Line) => match answer(alloc, lines, line.as_slice()) {
            Ok(answer) => Ok(Some(answer)),
            Err(fault) => Err(fault),
        },
        Ok(NextLine::Long) => match too_long(alloc, lines) {
            Ok(answer) => Ok(Some(answer)),
            Err(fault) => Err(fault),
        },
        Ok(NextLine::End) => Ok(None),
        Err(error) => Err(input_fault(alloc, &error)),
    }
}

/// How far a stream is: how many octets of answers went out, and whether none of them was a refusal.
#[derive(Clone, Copy)]
struct Progress {
    sent: u64,
    yes: bool,
}

/// Sends one more answer. Returns how far the stream is then.
fn send_answer<S: Sink>(
    alloc: Global,
    sink: &mut S,
    progress: Progress,
    answer: &Output,
) -> Result<Progress, Fault>
    requires { S.failed sink.old < u64.MAX }
    ensures sent { OnOk result (SentAll
        (state (S.taken sink.old) (S.failed sink.old))
        (state (S.taken sink.new) (S.failed sink.new))
        answer.now.octets.items) }
    ensures count { IfOk result (λ p. p.sent ≡ progress.sent + length answer.now.octets.items) }
    ensures yes { IfOk result (λ p. p.yes ≡ (progress.yes && answer.now.yes)) }
    ensures device { IfErr result (λ e. (n : ℕ) → e ≡ Device n → (m : ℕ)
        × (n ≡ progress.sent + m)
        × SentFront (state (S.taken sink.old) (S.failed sink.old))
        (state (S.taken sink.new) (S.failed sink.new))
        answer.now.octets.items
        m) }
    ensures ends { IfErr result (λ e. ((n : ℕ) → e ≡ Device n → ⊥) → EndsStream e × (sink.new ≡ sink.old)) }
{
    let Some(sent) = progress.sent.checked_add(answer.octets.len() as u64) else {
        return Err(unread(alloc));
    };
    match send_all(sink, answer.octets.as_slice()) {
        Ok(()) => Ok(Progress {
            sent,
            yes: progress.yes && answer.yes,
        }),
        Err(part) => Err(Fault::Device(progress.sent + part)),
    }
}

/// Writes the answer to each line of the input to a sink, in order, each as soon as its line is read. Returns false if
/// a line was refused.
///
/// `Device`: one call of the sink failed, which isn't tried again; the fault has the number of octets of answers that
/// went out before. `File`: the input can't be read further, or there are 2^64 - 1 lines or octets of answers.
/// `Memory`: an allocation failed. Before each of the last two, exactly the answers to the lines so far went out.
pub fn stream<R: Read, S: Sink>(
    alloc: Global,
    lines: &Lines<'_>,
    input: &mut InputLines<R>,
    sink: &mut S,
) -> Result<bool, Fault>
    requires room { S.failed sink.old < u64.MAX }
    // The sink took exactly the answers to all lines, and no call failed.
    ensures done { IfOk result (λ yes. IsStreamed (stream_of lines.now) (remaining_of R.remaining input.old) yes
        (state (S.taken sink.old) (S.failed sink.old))
        (state (S.taken sink.new) (S.failed sink.new))) }
    // The sink took exactly the first n octets of the answers to the first lines, and one call failed.
    ensures device { IfErr result (λ e. (n : ℕ) →
        e ≡ Device n →
        IsStreamedInPart (stream_of lines.now) (remaining_of R.remaining input.old) n
        (state (S.taken sink.old) (S.failed sink.old))
        (state (S.taken sink.new) (S.failed sink.new))) }
    // After any other fault the sink took exactly the answers to the first lines.
    ensures stopped { IfErr result (λ e.
        ((n : ℕ) → e ≡ Device n → ⊥) →
        IsStopped (stream_of lines.now) (remaining_of R.remaining input.old)
        (state (S.taken sink.old) (S.failed sink.old))
        (state (S.taken sink.new) (S.failed sink.new))
        e) }
{
    let mut line = Vec::new(alloc);
    let mut progress = Progress { sent: 0, yes: true };
    for _ in 0..u64::MAX {
        let answer = match next_answer(alloc, lines, input, &mut line) {
            Ok(Some(answer)) => answer,
            Ok(None) => return Ok(progress.yes),
            Err(fault) => return Err(fault),
        };
        progress = match send_answer(alloc, sink, progress, &answer) {
            Ok(progress) => progress,
            Err(fault) => return Err(fault),
        };
    }
    Err(unread(alloc))
}
