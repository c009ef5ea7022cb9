//! The answer to a line of standard input.

ghost use Rattle.std.specs.Prelude.{◌≡◌, ◌↔◌, ◌⊎◌, ◌<◌, ◌≤◌, ◌++◌, ℕ, List, Ok, IfOk, IfErr, IsTrue, false, length};
ghost use Rattle.std.specs.Prelude.{codes, decimal, string_bytes};
ghost use Rattle.hex.specs.Hex.{decode_of, encode_upper};
ghost use Rattle.asn_base.specs.Types.{Resolved};
ghost use Rattle.asnc.specs.Packing.{IsNotPacked};
ghost use Rattle.asnc.specs.Reading.{rules_of};
ghost use Rattle.asnc.specs.Writing.{IsNotEncoded};
ghost use Rattle.asnc.specs.named_values.Given.{written};
ghost use Rattle.resolve.specs.Program.{Program};
ghost use Rattle.jobs.specs.Answers.{comment_of, digits_of, has_end, IsLineAnswer, IsBerText, IsDerText, IsLineRefused};
ghost use Rattle.jobs.specs.Answers.{IsNotBerLine, IsNotHexadecimal, IsNotUnperLine, IsAnswerText, IsUnperText};
ghost use Rattle.jobs.specs.Answers.{IsUperText, RefusesLine};
ghost use Rattle.jobs.specs.declared.commands_of_lines.LineCommand.{LineCommand as Command};
ghost use Rattle.jobs.specs.declared.refusals.LineFault.TheVariants.{Refused};
ghost use Rattle.asnc.specs.messages.declared.fault.Fault.TheVariants.{Memory};

use crate::commands_of_lines::LineCommand;
use crate::refusals::{LineFault, refusal_text};
use asnc::messages::Fault;
use asnc::{Kit, Rules, ValueGiven};
use check_jobs::Output;
use command_line::Job;
use hex::FromHexError;
use input_lines::MAX_LINE;
use source_text::shown;
use std::alloc::{AllocError, Global};

/// What the answers to lines depend on, besides the lines.
#[derive(Clone, Copy)]
pub struct Lines<'a> {
    /// The modules of the job's files.
    pub kit: &'a Kit,
    pub job: &'a Job,
    /// The texts of the job's files.
    pub texts: &'a [Vec<u8>],
    pub command: LineCommand,
}

/// The hexadecimal digits of a line: those before a carriage return at its end.
fn digits_in(line: &[u8]) -> &[u8]
    ensures { result.now ≡ digits_of line.now }
{
    let count = line.len();
    if count > 0 && line[count - 1] == b'\r' {
        &line[..count - 1]
    } else {
        line
    }
}

/// What is wrong with a line that is not the digits of octets.
fn complaint(alloc: Global, digits: &[u8]) -> Result<String, AllocError> {
    let found = match str::from_utf8(digits) {
        Ok(text) => shown(alloc, text)?,
        Err(_) => String::from_str(alloc, "octets that are no text")?,
    };
    format!(in alloc; "found {found}, expected two hexadecimal digits for each octet")
}

/// The octets of a line of hexadecimal digits, of either case. `BadWords`: it is not the digits of octets. `Memory`: an
/// allocation failed.
fn octets_in(alloc: Global, line: &[u8]) -> Result<Vec<u8>, Fault>
    ensures octets { IfOk result (λ v. decode_of (digits_of line.now) ≡ Ok v.items) }
    ensures none { IfErr result (IsNotHexadecimal line.now) }
{
    let digits = digits_in(line);
    match hex::decode(alloc, digits) {
        Ok(octets) => Ok(octets),
        Err(fault) => {
            if fault == FromHexError::OutOfMemory {
                return Err(Fault::Memory);
            }
            Err(Fault::BadWords(complaint(alloc, digits)?))
        }
    }
}

/// The hexadecimal digits of octets, of upper case.
fn hex_text(alloc: Global, octets: &[u8]) -> Result<Vec<u8>, Fault>
    ensures text { IfOk result (λ v. v.items ≡ encode_upper octets.now) }
    ensures memory { IfErr result (λ e. e ≡ Memory) }
{
    Ok(hex::encode_upper(alloc, octets)?.into_bytes())
}

/// A printed value, and a comment with the number of skipped additions.
fn with_comment(alloc: Global, mut text: String, skipped: u64) -> Result<Vec<u8>, Fault>
    ensures text { IfOk result (λ v. v.items ≡ string_bytes text ++ (codes " -- skipped " ++ decimal skipped)) }
    ensures memory { IfErr result (λ e. e ≡ Memory) }
{
    let digits = skipped.to_string(alloc)?;
    text.push_str(" -- skipped ")?;
    text.push_str(digits.as_str())?;
    Ok(text.into_bytes())
}

/// A printed value, and after it, if additions were skipped, a comment with their number.
fn value_text(alloc: Global, text: String, skipped: u64) -> Result<Vec<u8>, Fault>
    ensures text { IfOk result (λ v. v.items ≡ string_bytes text ++ comment_of skipped) }
    ensures memory { IfErr result (λ e. e ≡ Memory) }
{
    if skipped == 0 {
        return Ok(text.into_bytes());
    }
    with_comment(alloc, text, skipped)
}

/// What `der` prints of a line.
fn der_text(alloc: Global, kit: &Kit, ty: &str, line: &[u8]) -> Result<Vec<u8>, Fault>
    ensures text { IfOk result (λ v. IsDerText kit.now.program kit.now.types ty.now line.now v.items) }
    ensures refused { IfErr result (IsNotEncoded kit.now.program kit.now.types ty.now (written line.now)) }
{
    let (octets, _account) = match kit.der(alloc, ty, ValueGiven::Written(line)) {
        Ok(encoded) => encoded,
        Err(fault) => return Err(fault),
    };
    match hex_text(alloc, octets.as_slice()) {
        Ok(text) => Ok(text),
        Err(fault) => Err(fault),
    }
}

/// What `uper` prints of a line.
fn uper_text(alloc: Global, kit: &Kit, ty: &str, line: &[u8]) -> Result<Vec<u8>, Fault>
    ensures text { IfOk result (λ v. IsUperText kit.now.program kit.now.types ty.now line.now v.items) }
    ensures refused { IfErr result (IsNotPacked kit.now.program kit.now.types ty.now (written line.now)) }
{
    let octets = match kit.uper(alloc, ty, ValueGiven::Written(line)) {
        Ok(octets) => octets,
        Err(fault) => return Err(fault),
    };
    match hex_text(alloc, octets.as_slice()) {
        Ok(text) => Ok(text),
        Err(fault) => Err(fault),
    }
}

/// What `ber` prints of a line, read by these rules.
fn ber_text(alloc: Global, kit: &Kit, rules: Rules, ty: &str, line: &[u8]) -> Result<Vec<u8>, Fault>
    ensures text { IfOk result (λ v.
        IsBerText kit.now.program kit.now.types (rules_of rules) ty.now line.now v.items) }
    ensures refused { IfErr result (λ e. IsNotHexadecimal line.now e
        ⊎ IsNotBerLine kit.now.program kit.now.types (rules_of rules) ty.now line.now e) }
{
    let octets = match octets_in(alloc, line) {
        Ok(octets) => octets,
        Err(fault) => return Err(fault),
    };
    let (text, skipped) = match kit.ber(alloc, ty, octets.as_slice(), rules) {
        Ok(read) => read,
        Err(fault) => return Err(fault),
    };
    match value_text(alloc, text, skipped) {
        Ok(text) => Ok(text),
        Err(fault) => Err(fault),
    }
}

/// What `unper` prints of a line.
fn unper_text(alloc: Global, kit: &Kit, ty: &str, line: &[u8]) -> Result<Vec<u8>, Fault>
    ensures text { IfOk result (λ v. IsUnperText kit.now.program kit.now.types ty.now line.now v.items) }
    ensures refused { IfErr result (λ e. IsNotHexadecimal line.now e
        ⊎ IsNotUnperLine kit.now.program kit.now.types ty.now line.now e) }
{
    let octets = match octets_in(alloc, line) {
        Ok(octets) => octets,
        Err(fault) => return Err(fault),
    };
    let (text, skipped) = match kit.unper(alloc, ty, octets.as_slice()) {
        Ok(read) => read,
        Err(fault) => return Err(fault),
    };
    match value_text(alloc, text, skipped) {
        Ok(text) => Ok(text),
        Err(fault) => Err(fault),
    }
}

/// What the command prints of a line, without a line end.
fn text_of(alloc: Global, lines: &Lines<'_>, line: &[u8]) -> Result<Vec<u8>, Fault>
    ensures text { IfOk result (λ v. IsAnswerText lines.now.command lines.now.kit.now.program lines.now.kit.now.types
        (string_bytes lines.now.job.now.ty) line.now v.items) }
    ensures refused { IfErr result (RefusesLine lines.now.command lines.now.kit.now.program lines.now.kit.now.types
        (string_bytes lines.now.job.now.ty) line.now) }
{
    let (kit, ty) = (lines.kit, lines.job.ty.as_str());
    match lines.command {
        LineCommand::Der => der_text(alloc, kit, ty, line),
        LineCommand::Uper => uper_text(alloc, kit, ty, line),
        LineCommand::Ber(rules) => ber_text(alloc, kit, rules, ty, line),
        LineCommand::Unper => unper_text(alloc, kit, ty, line),
    }
}

/// Whether octets have a line end.
fn has_end(octets: &[u8]) -> bool
    ensures { result ≡ has_end octets.now }
{
    octets.contains(&b'\n')
}

/// What the command prints of a line, without a line end, or why the line is refused.
fn line_text(alloc: Global, lines: &Lines<'_>, line: &[u8]) -> Result<Vec<u8>, LineFault>
    ensures text { IfOk result (λ v. IsAnswerText lines.now.command lines.now.kit.now.program lines.now.kit.now.types
        (string_bytes lines.now.job.now.ty) line.now v.items) }
    ensures one_line { IfOk result (λ v. has_end v.items ≡ false) }
    ensures short { IfOk result (λ _. length line.now ≤ 33554432) }
    ensures refused { IfErr result (IsLineRefused lines.now.command lines.now.kit.now.program lines.now.kit.now.types
        (string_bytes lines.now.job.now.ty) line.now) }
{
    if line.len() > MAX_LINE {
        return Err(LineFault::Limit);
    }
    match text_of(alloc, lines, line) {
        Ok(text) => {
            if has_end(text.as_slice()) {
                Err(LineFault::LineEnd)
            } else {
                Ok(text)
            }
        }
        Err(fault) => Err(LineFault::Refused(fault)),
    }
}

/// Whether an allocation failed, which says nothing of the line.
fn is_memory(fault: &LineFault) -> bool
    ensures { IsTrue result ↔ (fault.now ≡ Refused Memory) }
{
    match fault {
        LineFault::Refused(fault) => match fault {
            Fault::Memory => true,
            _ => false,
        },
        LineFault::Limit => false,
        LineFault::LineEnd => false,
    }
}

/// The answer to a line that is refused for this fault.
fn refusal(
    alloc: Global,
    lines: &Lines<'_>,
    line: &[u8],
    fault: &LineFault,
) -> Result<Output, Fault>
    requires { fault.now ≡ Refused Memory → ⊥ }
    // It is the answer to each line for which the fault is true.
    ensures answer { IfOk result (λ o. (c : Command) (p : Program) (s : List Resolved) (ty l : List ℕ)
        → IsLineRefused c p s ty l fault.now
        → IsLineAnswer c p s ty l o.yes o.octets.items) }
    ensures memory { IfErr result (λ e. e ≡ Memory) }
{
    let mut octets = refusal_text(alloc, lines.job, lines.texts, line, fault)?;
    octets.push(b'\n')?;
    Ok(Output { octets, yes: false })
}

/// The answer to a line that is too long.
pub(crate) fn too_long(alloc: Global, lines: &Lines<'_>) -> Result<Output, Fault>
    ensures answer { IfOk result (λ o. (c : Command) (p : Program) (s : List Resolved) (ty l : List ℕ)
        → 33554432 < length l
        → IsLineAnswer c p s ty l o.yes o.octets.items) }
    ensures memory { IfErr result (λ e. e ≡ Memory) }
{
    match refusal(alloc, lines, &[], &LineFault::Limit) {
        Ok(answer) => Ok(answer),
        Err(fault) => Err(fault),
    }
}

/// Returns the answer to a line of standard input: one line of output. It has a line end, and `line` has none.
///
/// - `Der`, `Uper`: the octets that encode the value of the line's notation, in hexadecimal digits of upper case.
/// - `Ber`, `Unper`: the printed value of the octets whose hexadecimal digits the line is. If additions were skipped,
///   ` -- skipped ` and their number follow, which is a comment (X.680, clause 12.6). The digits may be of either case,
///   and may end with a carriage return.
/// - If the line is refused: `! ` and the line that [`report_line`](diagnostics::report_line) reports; `yes` is false
///   then. Beside the faults of the calls of [`Kit`] these are `BadWords` if the line is not the digits of octets,
///   `Limit(Line)` if it has more than 33,554,432 octets, and `LineEnd` if the text would have a line end.
///
/// The error is `Memory`: an allocation failed.
pub fn answer(alloc: Global, lines: &Lines<'_>, line: &[u8]) -> Result<Output, Fault>
    // The answer is exactly what the line asks for, or a refusal that is true.
    ensures answer { IfOk result (λ o.
        IsLineAnswer lines.now.command lines.now.kit.now.program lines.now.kit.now.types
        (string_bytes lines.now.job.now.ty) line.now o.yes o.octets.items) }
    ensures memory { IfErr result (λ e. e ≡ Memory) }
{
    let mut octets = match line_text(alloc, lines, line) {
        Ok(text) => text,
        Err(fault) => {
            if is_memory(&fault) {
                return Err(Fault::Memory);
            }
            return refusal(alloc, lines, line, &fault);
        }
    };
    octets.push(b'\n')?;
    Ok(Output { octets, yes: true })
}
