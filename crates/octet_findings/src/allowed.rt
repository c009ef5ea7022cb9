//! Values that the constraints of their type don't allow (X.680, 51).

use crate::headers::{Contents, count};
use crate::words::{counted, digits, offset};
use asn_base::allowed::is_allowed;
use asn_base::constraint::Constraint;
use asn_base::schema::Core;
use encodings::LeafKind;
use messages::Finding;
use octets::Form;
use primitive_reader::{Leaf, read_leaf};
use std::alloc::{AllocError, Global};
use value_diagnostics::of_ranges;

/// What is counted in a value, against the ranges of its type's constraint.
enum Amount {
    Number(i128),
    /// A size, and the word for one of what is counted.
    Size(usize, &'static str),
}

/// The numbers or sizes that a constraint allows, in the notation of constraints. None if it allows all.
fn ranges_of(alloc: Global, constraint: &Constraint) -> Result<Option<String>, AllocError> {
    match &constraint.allowed {
        Some(ranges) => {
            let list = ranges.list(alloc)?;
            Ok(Some(of_ranges(alloc, list.as_slice())?))
        }
        None => Ok(None),
    }
}

/// Whether a constraint has a least and a greatest number or size, so that bits can say another one.
fn has_ends(constraint: &Constraint) -> bool {
    constraint.visible.least.is_some() && constraint.visible.greatest.is_some()
}

/// Returns what the constraints of a type allow where bits are outside of them, as `a number of (0..7)`. The result is
/// None if the bits of the type have no such bounds, and for strings of characters, whose contents can be wrong as
/// well. `AllocError`: an allocation failed.
pub fn allowed_in_bits(alloc: Global, core: &Core) -> Result<Option<String>, AllocError> {
    match core {
        Core::Integer(constraint) | Core::BitString(constraint) if has_ends(constraint) => {
            allowed_by(alloc, core)
        }
        Core::OctetString(constraint) if has_ends(constraint) => allowed_by(alloc, core),
        Core::SequenceOf(constraint, _) | Core::SetOf(constraint, _) if has_ends(constraint) => {
            allowed_by(alloc, core)
        }
        _ => Ok(None),
    }
}

/// What the numbers or sizes are that the constraints of a type allow, in words. None if they allow all.
fn allowed_by(alloc: Global, core: &Core) -> Result<Option<String>, AllocError> {
    let (constraint, word) = match core {
        Core::Integer(constraint) => (constraint, "a number"),
        Core::BitString(constraint) => (constraint, "a size"),
        Core::OctetString(constraint) => (constraint, "a size"),
        Core::Utf8String(constraint) => (constraint, "a size"),
        Core::RestrictedString(_, _, constraint) => (constraint, "a size"),
        Core::SequenceOf(constraint, _) => (constraint, "a size"),
        Core::SetOf(constraint, _) => (constraint, "a size"),
        _ => return Ok(None),
    };
    match ranges_of(alloc, constraint)? {
        Some(ranges) => Ok(Some(format!(in alloc; "{word} of ({ranges})")?)),
        None => Ok(None),
    }
}

/// The number of bits in octets of which the last has unused bits.
fn bit_count(unused: u8, octets: &[u8]) -> usize {
    octets
        .len()
        .saturating_mul(8)
        .saturating_sub(usize::from(unused))
}

/// What is counted in a value that was read.
fn amount_of_leaf(leaf: Leaf<'_>) -> Option<Amount> {
    match leaf {
        Leaf::Int(number) => Some(Amount::Number(number)),
        Leaf::Bits(unused, octets) => Some(Amount::Size(bit_count(unused, octets), "bit")),
        Leaf::Octets(octets) => Some(Amount::Size(octets.len(), "octet")),
        Leaf::Text(text) => Some(Amount::Size(text.chars().count(), "character")),
        _ => None,
    }
}

/// What is counted in a value of this kind that has these contents octets. None for contents in segments.
fn amount_as(kind: LeafKind, contents: Contents<'_>) -> Option<Amount> {
    if contents.form == Form::Constructed {
        return None;
    }
    match read_leaf(kind, contents.octets) {
        Ok(leaf) => amount_of_leaf(leaf),
        Err(_) => None,
    }
}

/// The constraint of a type, and what is counted in its value with these contents octets.
fn amount_in<'a>(core: &'a Core, contents: Contents<'_>) -> Option<(&'a Constraint, Amount)> {
    let (constraint, kind) = match core {
        Core::Integer(constraint) => (constraint, LeafKind::Integer),
        Core::BitString(constraint) => (constraint, LeafKind::BitString),
        Core::OctetString(constraint) => (constraint, LeafKind::OctetString),
        Core::Utf8String(constraint) => (constraint, LeafKind::Utf8String),
        Core::RestrictedString(kind, _, constraint) => {
            (constraint, LeafKind::RestrictedString(*kind))
        }
        Core::SequenceOf(constraint, _) | Core::SetOf(constraint, _) => {
            return Some((constraint, Amount::Size(count(contents), "element")));
        }
        _ => return None,
    };
    match amount_as(kind, contents) {
        Some(amount) => Some((constraint, amount)),
        None => None,
    }
}

/// The words for what was counted, if the constraint doesn't allow it.
fn excluded(
    alloc: Global,
    constraint: &Constraint,
    amount: Amount,
) -> Result<Option<String>, AllocError> {
    match amount {
        Amount::Number(number) => {
            if is_allowed(constraint, number) {
                return Ok(None);
            }
            Ok(Some(format!(in alloc; "the number {number}")?))
        }
        Amount::Size(size, word) => {
            if is_allowed(constraint, size as i128) {
                return Ok(None);
            }
            Ok(Some(counted(alloc, size, word)?))
        }
    }
}

/// The first character of a text that its type's alphabet lacks.
fn of_alphabet(
    alloc: Global,
    core: &Core,
    contents: Contents<'_>,
) -> Result<Option<Finding>, AllocError> {
    let Core::RestrictedString(_, alphabet, _) = core else {
        return Ok(None);
    };
    for place in 0..contents.octets.len() {
        let octet = contents.octets[place];
        if alphabet.binary_search(&octet).is_err() {
            let at = offset(contents.at, place);
            let octet = digits(alloc, octet)?;
            return Ok(Some(Finding {
                found: format!(in alloc; "the character {octet} at offset {at}")?,
                expected: String::from_str(alloc, "one of the type's alphabet")?,
            }));
        }
    }
    Ok(None)
}

/// Why the constraints of a type don't allow the value with these contents octets. None if the fault says it all.
pub(crate) fn of_value(
    alloc: Global,
    core: &Core,
    contents: Contents<'_>,
) -> Result<Option<Finding>, AllocError> {
    let Some((constraint, amount)) = amount_in(core, contents) else {
        return Ok(None);
    };
    let Some(found) = excluded(alloc, constraint, amount)? else {
        return of_alphabet(alloc, core, contents);
    };
    match allowed_by(alloc, core)? {
        Some(expected) => Ok(Some(Finding { found, expected })),
        None => Ok(None),
    }
}
