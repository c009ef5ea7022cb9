//! What a user reads about a fault.

ghost use Rattle.std.specs.Prelude.{IfOk, slice_get, string_bytes};
ghost use Rattle.diagnostics.specs.Heading.{heading_of, Begins};
ghost use Rattle.diagnostics.specs.Locations.{files_of, notation_of, texts_of};
ghost use Rattle.diagnostics.specs.Places.{text_at};
ghost use Rattle.diagnostics.specs.Reports.{IsReport, SaysInText, SaysInTexts, SaysPlace, SaysWords};

use crate::describe_names::describe_names;
use crate::describe_notations::describe_notation;
use crate::describe_readings::{describe_unread, describe_unread_bits};
use crate::describe_texts::{describe_octets, describe_tokens};
use crate::describe_types::{describe_additions, describe_bounds, describe_tags};
use crate::describe_values::describe_value;
use crate::finding::text_number;
use crate::heading::heading;
use crate::locations::{fault_left_out, fault_octet, fault_token, names_at, notation_in, texts_at};
use crate::placing::{Place, describe_place, file_of, text_at};
use crate::request::{describe_account, describe_file, describe_unknown_name};
use command_line::Job;
use messages::Fault;
use messages::front_end::CompileError;
use source_text::on_one_line;
use std::alloc::{AllocError, Global};

/// The words of a fault of the front end.
fn describe_front(
    alloc: Global,
    texts: &[Vec<u8>],
    text: &[u8],
    fault: &CompileError,
) -> Result<String, AllocError> {
    match fault {
        CompileError::Memory => String::from_str(alloc, "out of memory"),
        CompileError::Text(_, inner) => {
            describe_octets(alloc, text, inner, "; did you mean ::=?")
        }
        CompileError::Tree(_, inner) => describe_tokens(alloc, text, inner),
        CompileError::Name(inner) => describe_names(alloc, texts, text, inner),
        CompileError::Tag(inner) => describe_tags(alloc, text, inner),
        CompileError::Bound(inner) => describe_bounds(alloc, texts, text, inner),
        CompileError::Additions(inner) => describe_additions(alloc, text, inner),
        CompileError::Default(diagnostic) => describe_value(alloc, texts, text, diagnostic, ""),
        CompileError::Assigned(diagnostic) => describe_value(alloc, texts, text, diagnostic, ""),
    }
}

/// The words for the name of a type that the newer texts lack.
fn describe_newer_type(alloc: Global, texts: &[Vec<u8>], name: &str) -> Result<String, AllocError> {
    let words = describe_unknown_name(alloc, texts, name, false)?;
    format!(in alloc; "in the newer texts, {words}")
}

/// The words of a fault. There are none for faults of a notation, of octets, of bits and of an account, which have
/// their own.
fn sentence(
    alloc: Global,
    texts: &[Vec<u8>],
    text: &[u8],
    fault: &Fault,
) -> Result<String, AllocError> {
    let words = match fault {
        Fault::Front(inner) | Fault::Newer(inner) => {
            return describe_front(alloc, texts, text, inner);
        }
        Fault::Value(diagnostic) => {
            let under = ", under the type that was asked for";
            return describe_value(alloc, texts, text, diagnostic, under);
        }
        Fault::NoType(name) => return describe_unknown_name(alloc, texts, name.as_str(), false),
        Fault::NoNewerType(name) => return describe_newer_type(alloc, texts, name.as_str()),
        Fault::NoValue(name) => return describe_unknown_name(alloc, texts, name.as_str(), true),
        Fault::Device(sent) => {
            return format!(in alloc; "the output took {sent} octets and then no more");
        }
        Fault::File(name) => return describe_file(alloc, name.as_str(), "could not be read"),
        Fault::NoFile(name) => return describe_file(alloc, name.as_str(), "is missing"),
        Fault::Folder(name) => return describe_file(alloc, name.as_str(), "is a folder"),
        Fault::BadWords(words) | Fault::Help(words) => words.as_str(),
        Fault::TooLong =>
            "the octets are more than 16777216, or in PER the nodes and octets of character strings",
        Fault::MessageLimit => "a message has at most 16777216 octets",
        Fault::Memory => "out of memory",
        Fault::Notation(_) | Fault::NotAccount(_) => "",
        Fault::DecodeError(_) | Fault::BitDecodeError(_) => "",
    };
    String::from_str(alloc, words)
}

/// What a report is about, besides the fault. `texts` may have the fault; `hints` are searched for a name that was
/// meant; `notation` is the text that the job gives. `context`: the line with the fault is shown.
#[derive(Clone, Copy)]
pub(crate) struct Request<'a> {
    pub(crate) job: &'a Job,
    pub(crate) texts: &'a [Vec<u8>],
    pub(crate) hints: &'a [Vec<u8>],
    pub(crate) notation: &'a [u8],
    pub(crate) context: bool,
}

/// What follows the number and the name of a fault that is in the text with this number: its file, line and column, and
/// the words.
#[tactic(auto, using(crate::proofs::Reporting::in_text))]
fn describe_in_text(
    alloc: Global,
    request: Request<'_>,
    number: usize,
    fault: &Fault,
) -> Result<String, AllocError>
    ensures { IfOk result (λ s. SaysInText
        (slice_get (files_of request.entry.job.now fault.now) number)
        (text_at request.entry.texts.now number) fault.now (string_bytes s)) }
{
    let text = text_at(request.texts, number);
    let words = sentence(alloc, request.hints, text, fault)?;
    let file = file_of(alloc, names_at(request.job, fault), number)?;
    let place = Place {
        file: file.as_str(),
        text,
        left_out: fault_left_out(fault),
        token: fault_token(fault),
        octet: fault_octet(fault),
    };
    describe_place(alloc, place, words.as_str(), request.context)
}

/// What follows the number and the name of a fault that is in no text: the words.
#[tactic(auto, using(crate::proofs::Reporting::only_words))]
fn describe_words(alloc: Global, request: Request<'_>, fault: &Fault) -> Result<String, AllocError>
    ensures { IfOk result (λ s. SaysWords (string_bytes s)) }
{
    let words = sentence(alloc, request.hints, &[], fault)?;
    let words = on_one_line(alloc, words.as_str())?;
    format!(in alloc; ": {words}")
}

/// What follows the number and the name of a fault of a text, or of none.
#[tactic(auto, using(crate::proofs::Reporting::found_in, crate::proofs::Reporting::found_in_none))]
fn describe_in_texts(
    alloc: Global,
    request: Request<'_>,
    fault: &Fault,
) -> Result<String, AllocError>
    ensures { IfOk result (λ s. SaysInTexts (files_of request.entry.job.now fault.now)
        request.entry.texts.now fault.now (string_bytes s)) }
{
    match text_number(alloc, request.texts, fault)? {
        Some(number) => describe_in_text(alloc, request, number, fault),
        None => describe_words(alloc, request, fault),
    }
}

/// What follows the number and the name of a fault.
#[tactic(auto, using(crate::proofs::Reporting::of_notation, crate::proofs::Reporting::of_octets, crate::proofs::Reporting::of_bits, crate::proofs::Reporting::of_account, crate::proofs::Reporting::of_texts))]
fn after_heading(alloc: Global, request: Request<'_>, fault: &Fault) -> Result<String, AllocError>
    ensures { IfOk result (λ s. SaysPlace request.entry.job.now request.entry.texts.now
        request.entry.notation.now fault.now (string_bytes s)) }
{
    match fault {
        Fault::Notation(inner) => describe_notation(alloc, request, inner),
        Fault::DecodeError(unread) => describe_unread(alloc, unread),
        Fault::BitDecodeError(unread) => describe_unread_bits(alloc, unread),
        Fault::NotAccount(stop) => describe_account(alloc, request.job.account.as_str(), stop),
        _ => describe_in_texts(alloc, request, fault),
    }
}

/// The number and the name of a fault, and what follows them.
#[tactic(auto, using(crate::proofs::Reporting::reported))]
fn report_of(alloc: Global, request: Request<'_>, fault: &Fault) -> Result<String, AllocError>
    ensures { IfOk result (λ s. IsReport request.entry.job.now request.entry.texts.now
        request.entry.notation.now fault.now (string_bytes s)) }
{
    let heading = heading(alloc, fault)?;
    let line = after_heading(alloc, request, fault)?;
    format!(in alloc; "{heading}{line}")
}

/// One line that reports a fault that a job met in the texts of its files. `texts` are those of the job's `files`, and
/// `newer` those of its `newer` ones.
///
/// An example is `error 20 Unexpected: m.asn:3:14: found '}', expected a type`. The parts are the number and the name
/// of the fault, the file, the line and the column of the place, and what was found and expected there. Line and column
/// are counted from 1, the column in characters. For octets that can't be read the line has the place of the octet,
/// from 0, and the part of the value that was being read: `error 80 Truncated: at octet 17, in a.b[2].c: found ..`. For
/// bits that can't be read it has the place of the bit: `error 90 Truncated: at bit 17, in rows[3].id: found ..`. An
/// account's line has the file, and the octet and the row at which the text stops being an account, both from 0. A
/// fault in the text of a notation has `--notation` for the file: `error 20 Unexpected: --notation:1:7: found ..`.
///
/// If the job asks for the context and the fault is at an octet of a text, that line of the text and a line with a
/// caret follow. At most 60 characters of a text or a name are shown at once.
#[tactic(auto, using(crate::proofs::Reporting::begun, crate::proofs::Reporting::asked))]
pub fn report(
    alloc: Global,
    job: &Job,
    texts: &[Vec<u8>],
    newer: &[Vec<u8>],
    fault: &Fault,
) -> Result<String, AllocError>
    ensures begins { IfOk result (λ s. Begins (heading_of fault.now) (string_bytes s)) }
    ensures place { IfOk result (λ s. IsReport job.now (texts_of texts.now newer.now fault.now)
        (notation_of job.now.value) fault.now (string_bytes s)) }
{
    let texts = texts_at(texts, newer, fault);
    let request = Request {
        job,
        texts,
        hints: texts,
        notation: notation_in(job),
        context: job.context,
    };
    report_of(alloc, request, fault)
}

/// One line that reports a fault that a job met at a line of standard input, as [`report`] does for one that its words
/// give. If the job takes notations, `line` is the text of one. No line of a text follows. Names that may have been
/// meant are not looked for in the texts, which would be read once more for each such line.
#[tactic(auto, using(crate::proofs::Reporting::begun, crate::proofs::Reporting::asked))]
pub fn report_line(
    alloc: Global,
    job: &Job,
    texts: &[Vec<u8>],
    line: &[u8],
    fault: &Fault,
) -> Result<String, AllocError>
    ensures begins { IfOk result (λ s. Begins (heading_of fault.now) (string_bytes s)) }
    ensures place { IfOk result (λ s. IsReport job.now texts.now line.now fault.now (string_bytes s)) }
{
    let request = Request {
        job,
        texts,
        hints: &[],
        notation: line,
        context: false,
    };
    report_of(alloc, request, fault)
}
