//! The place of a fault, as the fault gives it.

ghost use Rattle.std.specs.Prelude.{◌≡◌, option_map};
ghost use Rattle.diagnostics.specs.Locations.{addition_location, bound_location, files_of, front_left_out};
ghost use Rattle.diagnostics.specs.Locations.{front_location, front_octet, front_text, front_token, is_module_again};
ghost use Rattle.diagnostics.specs.Locations.{is_name_again, is_newer, is_second_module, left_out_of, lex_octet};
ghost use Rattle.diagnostics.specs.Locations.{location_of, name_location, tag_location};
ghost use Rattle.diagnostics.specs.Locations.{notation_left_out, notation_octet, notation_of, notation_token, octet_of};
ghost use Rattle.diagnostics.specs.Locations.{text_of, texts_of, token_of, tree_left_out, tree_token};
ghost use Rattle.diagnostics.specs.Places.{or_first};

use additions::ExtFault;
use command_line::{Job, ValueWords};
use constraints::BoundFault;
use messages::front_end::CompileError;
use messages::{Fault, NotationFault};
use names::NameFault;
use notation::SyntaxFault;
use tagging::TagFault;
use text::LexFault;
use trees::SourceLocation;

fn name_fault_location(fault: &NameFault) -> Option<&SourceLocation>
    ensures { option_map (λ s. s.now) result ≡ name_location fault.now }
{
    match fault {
        NameFault::Memory => None,
        NameFault::Limit(_, source_location) | NameFault::Twice(source_location) => Some(
            source_location,
        ),
        NameFault::UnknownName(source_location) | NameFault::NotExported(source_location) => Some(
            source_location,
        ),
        NameFault::Circular(source_location) | NameFault::UnknownModule(source_location) => Some(
            source_location,
        ),
    }
}

pub(crate) fn tag_fault_location(fault: &TagFault) -> Option<&SourceLocation>
    ensures { option_map (λ s. s.now) result ≡ tag_location fault.now }
{
    match fault {
        TagFault::Memory => None,
        TagFault::Limit(_, source_location) | TagFault::TagClash(source_location) => Some(
            source_location,
        ),
        TagFault::ImplicitChoice(source_location) | TagFault::UntaggedChoice(source_location) =>
            Some(source_location),
        TagFault::MixedAutomatic(source_location) => Some(source_location),
    }
}

pub(crate) fn bound_fault_location(fault: &BoundFault) -> Option<&SourceLocation>
    ensures { option_map (λ s. s.now) result ≡ bound_location fault.now }
{
    match fault {
        BoundFault::Memory => None,
        BoundFault::Circular(source_location) | BoundFault::Empty(source_location) => Some(
            source_location,
        ),
        BoundFault::WrongKind(source_location) | BoundFault::Reconstrained(source_location) => Some(
            source_location,
        ),
        BoundFault::LowerAboveUpper(source_location) | BoundFault::MarkerPlace(source_location) =>
            Some(source_location),
    }
}

pub(crate) fn addition_fault_location(fault: &ExtFault) -> Option<&SourceLocation>
    ensures { option_map (λ s. s.now) result ≡ addition_location fault.now }
{
    match fault {
        ExtFault::Memory => None,
        ExtFault::MarkerPlace(source_location) | ExtFault::AdditionOrder(source_location) => Some(
            source_location,
        ),
        ExtFault::DefaultAddition(source_location) => Some(source_location),
    }
}

fn front_fault_location(fault: &CompileError) -> Option<&SourceLocation>
    ensures { option_map (λ s. s.now) result ≡ front_location fault.now }
{
    match fault {
        CompileError::Name(inner) => name_fault_location(inner),
        CompileError::Tag(inner) => tag_fault_location(inner),
        CompileError::Bound(inner) => bound_fault_location(inner),
        CompileError::Additions(inner) => addition_fault_location(inner),
        CompileError::Default(diagnostic) | CompileError::Assigned(diagnostic) => Some(
            &diagnostic.source_location,
        ),
        CompileError::Memory | CompileError::Text(_, _) | CompileError::Tree(_, _) => None,
    }
}

/// The module, the name and the place in a fault, if it has them.
pub(crate) fn source_location(fault: &Fault) -> Option<&SourceLocation>
    ensures { option_map (λ s. s.now) result ≡ location_of fault.now }
{
    match fault {
        Fault::Front(inner) | Fault::Newer(inner) => front_fault_location(inner),
        Fault::Value(diagnostic) => Some(&diagnostic.source_location),
        _ => None,
    }
}

/// Whether a fault is one of the newer texts, where versions are compared.
pub(crate) fn is_of_newer(fault: &Fault) -> bool
    ensures { result ≡ is_newer fault.now }
{
    match fault {
        Fault::Newer(_) | Fault::NoNewerType(_) => true,
        _ => false,
    }
}

/// The names of the files of the texts that have a fault: those of the newer modules, or the others.
pub(crate) fn names_at<'a>(job: &'a Job, fault: &Fault) -> &'a [String]
    ensures { result.now ≡ files_of job.now fault.now }
{
    if is_of_newer(fault) {
        job.newer.as_slice()
    } else {
        job.files.as_slice()
    }
}

/// The texts that have a fault: those of the newer modules, or the others.
pub(crate) fn texts_at<'a>(
    texts: &'a [Vec<u8>],
    newer: &'a [Vec<u8>],
    fault: &Fault,
) -> &'a [Vec<u8>]
    ensures { result.now ≡ texts_of texts.now newer.now fault.now }
{
    if is_of_newer(fault) { newer } else { texts }
}

fn text_in(fault: &CompileError) -> Option<usize>
    ensures { result ≡ front_text fault.now }
{
    match fault {
        CompileError::Text(number, _) => Some(*number),
        CompileError::Tree(number, _) => Some(*number),
        _ => None,
    }
}

/// The number of the text whose octets or tokens are at fault, among those of [`texts_at`].
pub(crate) fn fault_text(fault: &Fault) -> Option<usize>
    ensures { result ≡ text_of fault.now }
{
    match fault {
        Fault::Front(inner) | Fault::Newer(inner) => text_in(inner),
        _ => None,
    }
}

/// The octet at which a fault of the octets of a text is.
fn octet_of_lexing(fault: &LexFault) -> Option<usize>
    ensures { result ≡ lex_octet fault.now }
{
    match fault {
        LexFault::Memory => None,
        LexFault::Limit(_, at) | LexFault::NotUtf8(at) => Some(*at),
        LexFault::BadCharacter(at) | LexFault::OpenComment(at) => Some(*at),
        LexFault::OpenString(at) | LexFault::BadNumber(at) => Some(*at),
        LexFault::BadName(at) => Some(*at),
    }
}

/// The token at which a fault of the tokens of a text is.
fn token_of_parsing(fault: &SyntaxFault) -> Option<usize>
    ensures { result ≡ tree_token fault.now }
{
    match fault {
        SyntaxFault::Memory => None,
        SyntaxFault::Limit(_, place) | SyntaxFault::Unexpected(place) => Some(*place),
        SyntaxFault::OutOfProfile(place) => Some(*place),
    }
}

fn octet_at(fault: &CompileError) -> Option<usize>
    ensures { result ≡ front_octet fault.now }
{
    match fault {
        CompileError::Text(_, inner) => octet_of_lexing(inner),
        other => match front_fault_location(other) {
            Some(source_location) => Some(source_location.at),
            None => None,
        },
    }
}

/// The octet of its text, counted from 0, at which a fault of the octets or of the names is.
pub(crate) fn fault_octet(fault: &Fault) -> Option<usize>
    ensures { result ≡ octet_of fault.now }
{
    match fault {
        Fault::Front(inner) | Fault::Newer(inner) => octet_at(inner),
        Fault::Value(diagnostic) => Some(diagnostic.source_location.at),
        _ => None,
    }
}

fn token_at(fault: &CompileError) -> Option<usize>
    ensures { result ≡ front_token fault.now }
{
    match fault {
        CompileError::Tree(_, inner) => token_of_parsing(inner),
        _ => None,
    }
}

/// The token of its text, counted from 0, at which a fault of the tokens is.
pub(crate) fn fault_token(fault: &Fault) -> Option<usize>
    ensures { result ≡ token_of fault.now }
{
    match fault {
        Fault::Front(inner) | Fault::Newer(inner) => token_at(inner),
        _ => None,
    }
}

fn is_name_again(fault: &NameFault) -> bool
    ensures { result ≡ is_name_again fault.now }
{
    match fault {
        NameFault::Twice(at) => at.module.as_str() == at.name.as_str(),
        _ => false,
    }
}

fn is_module_again(fault: &CompileError) -> bool
    ensures { result ≡ is_module_again fault.now }
{
    match fault {
        CompileError::Name(inner) => is_name_again(inner),
        _ => false,
    }
}

/// Whether a fault is that the name of a module was given again: by a second module, or by an assignment in the module.
pub(crate) fn is_second_module(fault: &Fault) -> bool
    ensures { result ≡ is_second_module fault.now }
{
    match fault {
        Fault::Front(inner) | Fault::Newer(inner) => is_module_again(inner),
        _ => false,
    }
}

fn left_out_of_parsing(fault: &SyntaxFault) -> Option<usize>
    ensures { result ≡ tree_left_out fault.now }
{
    match fault {
        SyntaxFault::OutOfProfile(place) => Some(*place),
        _ => None,
    }
}

fn left_out_at(fault: &CompileError) -> Option<usize>
    ensures { result ≡ front_left_out fault.now }
{
    match fault {
        CompileError::Tree(_, inner) => left_out_of_parsing(inner),
        _ => None,
    }
}

/// The token, counted from 0, with which a construct begins that this compiler leaves out, if that is the fault.
pub(crate) fn fault_left_out(fault: &Fault) -> Option<usize>
    ensures { result ≡ left_out_of fault.now }
{
    match fault {
        Fault::Front(inner) | Fault::Newer(inner) => left_out_at(inner),
        _ => None,
    }
}

/// The place, or the first one.
pub(crate) fn or_first(place: Option<usize>) -> usize
    ensures { result ≡ or_first place }
{
    match place {
        Some(place) => place,
        None => 0,
    }
}

/// The octet of the text of a notation, counted from 0, at which a fault of its octets or of its value is.
pub(crate) fn notation_octet(fault: &NotationFault) -> Option<usize>
    ensures { result ≡ notation_octet fault.now }
{
    match fault {
        NotationFault::Octets(inner) => Some(or_first(octet_of_lexing(inner))),
        NotationFault::Tokens(_) => None,
        NotationFault::Value(diagnostic) => Some(diagnostic.source_location.at),
    }
}

/// The token of the text of a notation, counted from 0, at which a fault of its tokens is.
pub(crate) fn notation_token(fault: &NotationFault) -> Option<usize>
    ensures { result ≡ notation_token fault.now }
{
    match fault {
        NotationFault::Tokens(inner) => Some(or_first(token_of_parsing(inner))),
        NotationFault::Octets(_) | NotationFault::Value(_) => None,
    }
}

/// The token of the text of a notation with which a construct begins that this compiler leaves out, if that is the
/// fault.
pub(crate) fn notation_left_out(fault: &NotationFault) -> Option<usize>
    ensures { result ≡ notation_left_out fault.now }
{
    match fault {
        NotationFault::Tokens(inner) => left_out_of_parsing(inner),
        NotationFault::Octets(_) | NotationFault::Value(_) => None,
    }
}

/// The octets of the notation that a job gives; none if it gives no notation.
pub(crate) fn notation_in(job: &Job) -> &[u8]
    ensures { result.now ≡ notation_of job.now.value }
{
    match &job.value {
        ValueWords::Written(text) => text.as_bytes(),
        ValueWords::Nothing | ValueWords::Named(_) | ValueWords::Lines => &[],
    }
}
