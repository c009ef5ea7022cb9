//! The words for faults of tags, of constraints and of what follows extension markers.

use crate::describe_values::found_at;
use crate::locations::{addition_fault_location, bound_fault_location, tag_fault_location};
use crate::request::hint;
use additions::ExtFault;
use constraints::BoundFault;
use source_text::{shown, word_at};
use std::alloc::{AllocError, Global};
use suggestions::is_small;
use tagging::{Limit, TagFault};
use trees::SourceLocation;

/// The words for a constraint that is no name and that the type doesn't take.
const WRONG_KIND: &str =
    "which the type does not take, expected a constraint of this kind of type: \
    numbers, sizes from 0 on, or single characters";

/// The words for what is at a source location, the assignment that contains it, and what was expected there. The only
/// fault without a source location is `Memory`.
fn describe_at(
    alloc: Global,
    text: &[u8],
    spot: Option<&SourceLocation>,
    words: &str,
) -> Result<String, AllocError> {
    let Some(source_location) = spot else {
        return String::from_str(alloc, "out of memory");
    };
    let name = shown(alloc, source_location.name.as_str())?;
    let found = found_at(alloc, text, source_location.at)?;
    format!(in alloc; "{found} in {name}, {words}")
}

/// The words for a fault of tags.
pub(crate) fn describe_tags(
    alloc: Global,
    text: &[u8],
    fault: &TagFault,
) -> Result<String, AllocError> {
    let words = match fault {
        TagFault::Memory => "",
        TagFault::Limit(Limit::Tags, _) =>
            "a type with more than four tags, expected at most four, with those of the types that it refers to",
        TagFault::Limit(Limit::TagNumber, _) =>
            "a type whose automatic tag is too great, expected a number below 2 to the 31",
        TagFault::TagClash(_) =>
            "whose first tag an earlier one can have too, expected another tag, as [0], or AUTOMATIC TAGS",
        TagFault::ImplicitChoice(_) =>
            "before an untagged CHOICE, expected EXPLICIT, or neither word",
        TagFault::UntaggedChoice(_) =>
            "an untagged CHOICE, which this compiler does not support here, expected a tag before it, as [0]",
        TagFault::MixedAutomatic(_) =>
            "a tag among the additions of a list whose root has none, under AUTOMATIC TAGS, \
            expected no tag, or one in the root too",
    };
    describe_at(alloc, text, tag_fault_location(fault), words)
}

/// The words for a constraint that the type doesn't take. If it begins with an identifier, that is the name of no
/// number.
fn describe_kind(
    alloc: Global,
    texts: &[Vec<u8>],
    text: &[u8],
    location: &SourceLocation,
) -> Result<String, AllocError> {
    let word = word_at(text, location.at);
    if !is_small(word) {
        return describe_at(alloc, text, Some(location), WRONG_KIND);
    }
    let hint = hint(alloc, texts, location.module.as_str(), word, true)?;
    let words = format!(in alloc;
        "which is the name of no number, expected a number or the name of one{hint}"
    )?;
    describe_at(alloc, text, Some(location), words.as_str())
}

/// The words for a fault of constraints.
pub(crate) fn describe_bounds(
    alloc: Global,
    texts: &[Vec<u8>],
    text: &[u8],
    fault: &BoundFault,
) -> Result<String, AllocError> {
    let words = match fault {
        BoundFault::Memory => "",
        BoundFault::Circular(_) =>
            "which leads back to itself and is the end of a range, expected a number",
        BoundFault::Empty(_) =>
            "whose constraints leave nothing, expected at least one number, size or character",
        BoundFault::WrongKind(location) => return describe_kind(alloc, texts, text, location),
        BoundFault::Reconstrained(_) =>
            "after a constraint with an extension marker, which this compiler does not support, \
            expected one constraint",
        BoundFault::LowerAboveUpper(_) =>
            "a lower end above the upper one, expected ends that ascend",
        BoundFault::MarkerPlace(_) =>
            "with an extension marker that this compiler does not support, \
            expected the marker after one value or range of an INTEGER, or after one SIZE that is not of characters",
    };
    describe_at(alloc, text, bound_fault_location(fault), words)
}

/// The words for a fault of what follows extension markers.
pub(crate) fn describe_additions(
    alloc: Global,
    text: &[u8],
    fault: &ExtFault,
) -> Result<String, AllocError> {
    let words = match fault {
        ExtFault::Memory => "",
        ExtFault::MarkerPlace(_) =>
            "which is not allowed at this place by the extension marker of its list, \
            expected additions after the marker, and the root before it",
        ExtFault::AdditionOrder(_) => "an addition that does not ascend, \
            expected ascending numbers in an enumeration, ascending tags in a CHOICE",
        ExtFault::DefaultAddition(_) =>
            "an addition with a DEFAULT, which this compiler does not support, expected OPTIONAL, or neither",
    };
    describe_at(alloc, text, addition_fault_location(fault), words)
}
