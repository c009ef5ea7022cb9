//! Faults, without the texts that would have them, and their lines.

use account_text::Stop;
use additions::ExtFault;
use command_line::{Given, Job, ValueWords, Verb};
use constraints::BoundFault;
use decode_faults::{ReadFault, Refusal};
use diagnostics::front_end::CompileError;
use diagnostics::messages::{BitDecodeError, DecodeError, Fault, number, status};
use diagnostics::report;
use names::fault::source_location;
use names::{Limit, NameFault};
use notation::SyntaxFault;
use std::alloc::{AllocError, Global};
use tagging::TagFault;
use text::LexFault;
use trees::SourceLocation;
use value_diagnostics::{Reason, ValueDiagnostic};

/// The module in the file m.asn.
const TEXT: &str = "M DEFINITIONS ::= BEGIN T ::= INTEGER w T ::= 7 END";

/// The offset of the name w in the module.
const PLACE: usize = 38;

/// The faults that aren't those of a text, by their numbers in this table.
fn call_fault(number: usize, words: String) -> Option<Fault> {
    match number {
        0 => Some(Fault::Memory),
        1 => Some(Fault::File(words)),
        2 => Some(Fault::NoFile(words)),
        3 => Some(Fault::Folder(words)),
        4 => Some(Fault::BadWords(words)),
        5 => Some(Fault::Help(words)),
        6 => Some(Fault::NoType(words)),
        7 => Some(Fault::NoValue(words)),
        8 => Some(Fault::TooLong),
        9 => Some(Fault::Device(7)),
        10 => Some(Fault::Front(CompileError::Memory)),
        _ => None,
    }
}

/// The faults of a text's octets, by number.
fn text_fault(number: usize) -> Option<LexFault> {
    match number {
        11 => Some(LexFault::Memory),
        12 => Some(LexFault::Limit(text::Limit::Text, PLACE)),
        13 => Some(LexFault::Limit(text::Limit::Integer, PLACE)),
        14 => Some(LexFault::NotUtf8(PLACE)),
        15 => Some(LexFault::BadCharacter(PLACE)),
        16 => Some(LexFault::OpenComment(PLACE)),
        17 => Some(LexFault::OpenString(PLACE)),
        18 => Some(LexFault::BadNumber(PLACE)),
        19 => Some(LexFault::BadName(PLACE)),
        _ => None,
    }
}

/// The faults of a text's tokens, by number.
fn tree_fault(number: usize) -> Option<SyntaxFault> {
    match number {
        20 => Some(SyntaxFault::Memory),
        21 => Some(SyntaxFault::Limit(parser_combinators::Limit::Nesting, 7)),
        22 => Some(SyntaxFault::Limit(parser_combinators::Limit::Integer, 7)),
        23 => Some(SyntaxFault::Limit(parser_combinators::Limit::TagNumber, 7)),
        24 => Some(SyntaxFault::Unexpected(7)),
        25 => Some(SyntaxFault::OutOfProfile(7)),
        _ => None,
    }
}

/// The faults of names, by number.
fn name_fault(number: usize, source_location: SourceLocation) -> Option<NameFault> {
    match number {
        26 => Some(NameFault::Memory),
        27 => Some(NameFault::Limit(Limit::Modules, source_location)),
        28 => Some(NameFault::Limit(Limit::Types, source_location)),
        29 => Some(NameFault::Limit(Limit::Values, source_location)),
        30 => Some(NameFault::Limit(Limit::Members, source_location)),
        31 => Some(NameFault::Limit(Limit::Items, source_location)),
        32 => Some(NameFault::Limit(Limit::NamedBit, source_location)),
        33 => Some(NameFault::Limit(Limit::Integer, source_location)),
        34 => Some(NameFault::Twice(source_location)),
        35 => Some(NameFault::UnknownName(source_location)),
        36 => Some(NameFault::NotExported(source_location)),
        37 => Some(NameFault::Circular(source_location)),
        38 => Some(NameFault::UnknownModule(source_location)),
        _ => None,
    }
}

/// The faults of tags, by number.
fn tag_fault(number: usize, source_location: SourceLocation) -> Option<TagFault> {
    match number {
        39 => Some(TagFault::Memory),
        40 => Some(TagFault::Limit(tagging::Limit::Tags, source_location)),
        41 => Some(TagFault::Limit(tagging::Limit::TagNumber, source_location)),
        42 => Some(TagFault::TagClash(source_location)),
        43 => Some(TagFault::ImplicitChoice(source_location)),
        44 => Some(TagFault::UntaggedChoice(source_location)),
        45 => Some(TagFault::MixedAutomatic(source_location)),
        _ => None,
    }
}

/// The faults of constraints, by number.
fn bound_fault(number: usize, source_location: SourceLocation) -> Option<BoundFault> {
    match number {
        46 => Some(BoundFault::Memory),
        47 => Some(BoundFault::Circular(source_location)),
        48 => Some(BoundFault::Empty(source_location)),
        49 => Some(BoundFault::WrongKind(source_location)),
        50 => Some(BoundFault::Reconstrained(source_location)),
        51 => Some(BoundFault::LowerAboveUpper(source_location)),
        52 => Some(BoundFault::MarkerPlace(source_location)),
        _ => None,
    }
}

/// The faults of extension markers and additions, by number.
fn addition_fault(number: usize, source_location: SourceLocation) -> Option<ExtFault> {
    match number {
        53 => Some(ExtFault::Memory),
        54 => Some(ExtFault::MarkerPlace(source_location)),
        55 => Some(ExtFault::AdditionOrder(source_location)),
        56 => Some(ExtFault::DefaultAddition(source_location)),
        _ => None,
    }
}

/// The reasons why a notation isn't that of a value of its type, by number.
fn reason(number: usize) -> Option<Reason> {
    match number {
        57 => Some(Reason::Depth),
        58 => Some(Reason::Nodes),
        59 => Some(Reason::Oid),
        60 => Some(Reason::NoSuchName),
        61 => Some(Reason::NoSuchItem),
        62 => Some(Reason::Circular),
        63 => Some(Reason::NotOfType),
        64 => Some(Reason::UnknownBit),
        65 => Some(Reason::UnknownAlternative),
        66 => Some(Reason::UnknownField),
        67 => Some(Reason::Repeated),
        68 => Some(Reason::Missing),
        69 => Some(Reason::OutOfOrder),
        70 => Some(Reason::Outside),
        _ => None,
    }
}

/// The faults of octets, by number.
fn read_fault(number: usize) -> Option<ReadFault> {
    match number {
        73 => Some(ReadFault::Memory),
        74 => Some(ReadFault::MessageLimit),
        75 => Some(ReadFault::IntegerLimit),
        76 => Some(ReadFault::OidLimit),
        77 | 89 | 90 => Some(ReadFault::Truncated),
        78 => Some(ReadFault::Indefinite),
        79 => Some(ReadFault::BadLength),
        80 => Some(ReadFault::BadTag),
        81 => Some(ReadFault::UnexpectedTag),
        82 => Some(ReadFault::Missing),
        83 => Some(ReadFault::BadContents),
        84 => Some(ReadFault::EmptySegments),
        85 => Some(ReadFault::OutsideConstraint),
        86 => Some(ReadFault::Trailing),
        87 => Some(ReadFault::TooDeep),
        88 => Some(ReadFault::NotDer),
        _ => None,
    }
}

/// The faults of bits, by number; one of them is without a part.
fn bit_fault(number: usize) -> Option<Refusal> {
    match number {
        96 | 107 => Some(Refusal::Truncated),
        97 => Some(Refusal::NotCanonical),
        98 => Some(Refusal::Outside),
        99 => Some(Refusal::UnknownAlternative),
        100 => Some(Refusal::UnknownEnumeration),
        101 => Some(Refusal::Padding),
        102 => Some(Refusal::TooDeep),
        103 => Some(Refusal::TooManyAdditions),
        104 => Some(Refusal::IntegerLimit),
        105 => Some(Refusal::OidLimit),
        106 => Some(Refusal::NodesLimit),
        _ => None,
    }
}

/// The part of a value in a fault of octets: empty for one number, long for another, and short for the rest.
fn path_words(number: usize) -> &'static str {
    match number {
        89 | 107 => "",
        90 => "abcdefghijabcdefghijabcdefghijabcdefghijabcdefghijabcdefghijk.l",
        _ => "a.b[2].c",
    }
}

/// The place at which the text stops being that of an account, by number.
fn stop(number: usize) -> Option<Stop> {
    match number {
        91 => Some(Stop::NotText(7)),
        92 => Some(Stop::NotArray),
        93 => Some(Stop::NotRow { row: 2, offset: 41 }),
        94 => Some(Stop::Behind(41)),
        95 => Some(Stop::NotOne(3)),
        _ => None,
    }
}

/// The spot of the name w in the module.
fn sample_location(alloc: Global) -> Result<SourceLocation, AllocError> {
    source_location(alloc, "M", "w", PLACE)
}

/// The faults of a text or of its names, by number.
fn front_fault(alloc: Global, number: usize) -> Result<Option<CompileError>, AllocError> {
    if let Some(fault) = text_fault(number) {
        return Ok(Some(CompileError::Text(0, fault)));
    }
    if let Some(fault) = tree_fault(number) {
        return Ok(Some(CompileError::Tree(0, fault)));
    }
    if let Some(fault) = name_fault(number, sample_location(alloc)?) {
        return Ok(Some(CompileError::Name(fault)));
    }
    if let Some(fault) = tag_fault(number, sample_location(alloc)?) {
        return Ok(Some(CompileError::Tag(fault)));
    }
    if let Some(fault) = bound_fault(number, sample_location(alloc)?) {
        return Ok(Some(CompileError::Bound(fault)));
    }
    match addition_fault(number, sample_location(alloc)?) {
        Some(fault) => Ok(Some(CompileError::Additions(fault))),
        None => Ok(None),
    }
}

/// The faults of newer texts, by number.
fn newer_fault(alloc: Global, number: usize) -> Result<Option<Fault>, AllocError> {
    let fault = match number {
        109 => Fault::NoNewerType(String::from_str(alloc, "w\nx")?),
        110 => Fault::Newer(CompileError::Text(0, LexFault::NotUtf8(PLACE))),
        111 => Fault::Newer(CompileError::Tree(0, SyntaxFault::OutOfProfile(7))),
        112 => Fault::Newer(CompileError::Bound(BoundFault::Circular(sample_location(alloc)?))),
        _ => return Ok(None),
    };
    Ok(Some(fault))
}

/// The fault with a number below 113 in this table.
fn fault_of(alloc: Global, number: usize) -> Result<Fault, AllocError> {
    if let Some(fault) = newer_fault(alloc, number)? {
        return Ok(fault);
    }
    if let Some(stop) = stop(number) {
        return Ok(Fault::NotAccount(stop));
    }
    if let Some(fault) = read_fault(number) {
        let path = String::from_str(alloc, path_words(number))?;
        let offset = 17;
        return Ok(Fault::DecodeError(DecodeError {
            fault,
            offset,
            path,
            finding: None,
        }));
    }
    if let Some(refusal) = bit_fault(number) {
        let path = String::from_str(alloc, path_words(number))?;
        let bit = 17;
        return Ok(Fault::BitDecodeError(BitDecodeError {
            refusal,
            bit,
            path,
            allowed: None,
        }));
    }
    if number == 108 {
        return Ok(Fault::MessageLimit);
    }
    if let Some(fault) = call_fault(number, String::from_str(alloc, "w\nx")?) {
        return Ok(fault);
    }
    if let Some(fault) = front_fault(alloc, number)? {
        return Ok(Fault::Front(fault));
    }
    let diagnostic = ValueDiagnostic {
        reason: reason(number).unwrap_or(Reason::NotOfType),
        source_location: sample_location(alloc)?,
        expected: String::from_str(alloc, "components in braces, of a, b")?,
    };
    match number {
        71 => Ok(Fault::Front(CompileError::Default(diagnostic))),
        72 => Ok(Fault::Front(CompileError::Assigned(diagnostic))),
        _ => Ok(Fault::Value(diagnostic)),
    }
}

/// A job for the value w under the type T of the module M in the file m.asn, with an account.
fn job(alloc: Global) -> Result<Job, AllocError> {
    Ok(Job {
        verb: Verb::Der,
        ty: String::from_str(alloc, "M.T")?,
        value: ValueWords::Named(String::from_str(alloc, "M.w")?),
        account: String::from_str(alloc, "a\n.json")?,
        octets: Given::Nothing,
        raw: false,
        strict: false,
        context: false,
        files: vec![in alloc; String::from_str(alloc, "m.asn")?]?,
        newer: vec![in alloc; String::from_str(alloc, "n.asn")?]?,
    })
}

/// How many faults the table has.
const FAULTS: usize = 113;

/// The lines of the faults of this table, by number. Each has the number of the fault, the exit status, the line that
/// reports it, and the line that it prints itself.
pub fn fault_lines(alloc: Global) -> Result<String, AllocError> {
    let job = job(alloc)?;
    let texts = vec![in alloc; Vec::from_slice(alloc, TEXT.as_bytes())?]?;
    let mut lines = String::new(alloc);
    for index in 0..FAULTS {
        let fault = fault_of(alloc, index)?;
        let line = report(alloc, &job, texts.as_slice(), texts.as_slice(), &fault)?;
        let (number, status) = (number(&fault), status(&fault));
        write!(lines, "{number} {status} {line} | {fault}\n")?;
    }
    Ok(lines)
}
