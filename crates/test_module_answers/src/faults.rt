//! Faults of texts in words, with the text at their places.

use crate::places::place;
use additions::ExtFault;
use constraints::BoundFault;
use front_end::CompileError;
use std::alloc::{AllocError, Global};
use trees::SourceLocation;

/// The place of a fault of constraints.
fn location_of(fault: &BoundFault) -> Option<&SourceLocation> {
    match fault {
        BoundFault::Memory => None,
        BoundFault::Circular(source_location)
        | BoundFault::Empty(source_location)
        | BoundFault::WrongKind(source_location)
        | BoundFault::Reconstrained(source_location)
        | BoundFault::LowerAboveUpper(source_location)
        | BoundFault::MarkerPlace(source_location) => Some(source_location),
    }
}

/// The place of a fault of markers, DEFAULTs or values.
fn front_location_of(fault: &CompileError) -> Option<&SourceLocation> {
    match fault {
        CompileError::Additions(
            ExtFault::MarkerPlace(source_location)
            | ExtFault::AdditionOrder(source_location)
            | ExtFault::DefaultAddition(source_location),
        )
        | CompileError::Bound(BoundFault::MarkerPlace(source_location)) => Some(source_location),
        CompileError::Default(diagnostic) | CompileError::Assigned(diagnostic) => Some(
            &diagnostic.source_location,
        ),
        _ => None,
    }
}

/// Words, and after them the place, if there is one, with the text there up to a blank.
fn with_place(
    alloc: Global,
    texts: &[Vec<u8>],
    mut words: String,
    source_location: Option<&SourceLocation>,
) -> Result<String, AllocError> {
    if let Some(source_location) = source_location {
        let place = place(
            alloc,
            texts,
            source_location.module.as_str(),
            source_location.at,
        )?;
        words.push_str(place.as_str())?;
    }
    Ok(words)
}

/// The words for a fault of constraints.
pub fn unbound(alloc: Global, texts: &[Vec<u8>], fault: &BoundFault) -> Result<String, AllocError> {
    let words = format!(in alloc; "{fault}")?;
    with_place(alloc, texts, words, location_of(fault))
}

/// The words for a fault of texts. For the fault of a notation they begin with the kind of notation.
pub fn refused(
    alloc: Global,
    texts: &[Vec<u8>],
    fault: &CompileError,
) -> Result<String, AllocError> {
    let notation = match fault {
        CompileError::Default(_) => "DEFAULT ",
        CompileError::Assigned(_) => "value ",
        _ => "",
    };
    let words = format!(in alloc; "{notation}{fault}")?;
    with_place(alloc, texts, words, front_location_of(fault))
}
