//! The words for octets that can't be read.

ghost use Rattle.std.specs.Prelude.{IfOk, codes, string_bytes};
ghost use Rattle.diagnostics.specs.Places.{SaysReading};

use decode_faults::{ReadFault, Refusal};
use messages::{BitDecodeError, DecodeError, Finding};
use source_text::{on_one_line, shown};
use std::alloc::{AllocError, Global};

/// What follows the name of a fault of octets or bits: `: at UNIT N, in PATH: ` and words. For an empty path it is
/// `: at UNIT N: ` and words.
fn at_unit(
    alloc: Global,
    unit: &str,
    place: usize,
    path: &str,
    words: &str,
) -> Result<String, AllocError>
    ensures { IfOk result (λ s. SaysReading unit.now place path.now (string_bytes s)) }
{
    let words = on_one_line(alloc, words)?;
    if path.is_empty() {
        return format!(in alloc; ": at {unit} {place}: {words}");
    }
    let path = shown(alloc, path)?;
    format!(in alloc; ": at {unit} {place}, in {path}: {words}")
}

/// What follows the name of the fault of octets that can't be read: the place of the octet from 0, the part of the
/// value, and why.
pub(crate) fn describe_unread(alloc: Global, unread: &DecodeError) -> Result<String, AllocError>
    ensures { IfOk result (λ s.
        SaysReading (codes "octet") unread.now.offset (string_bytes unread.now.path) (string_bytes s)) }
{
    let words = match &unread.finding {
        Some(finding) => describe_finding(alloc, finding)?,
        None => String::from_str(alloc, describe_reading(unread.fault))?,
    };
    at_unit(
        alloc,
        "octet",
        unread.offset,
        unread.path.as_str(),
        words.as_str(),
    )
}

/// What was found and what was expected in its place.
fn describe_finding(alloc: Global, finding: &Finding) -> Result<String, AllocError> {
    let found = finding.found.as_str();
    let expected = finding.expected.as_str();
    format!(in alloc; "found {found}, expected {expected}")
}

/// What follows the name of the fault of bits that can't be read: the place of the bit from 0, the part of the value,
/// and why.
pub(crate) fn describe_unread_bits(
    alloc: Global,
    unread: &BitDecodeError,
) -> Result<String, AllocError>
    ensures { IfOk result (λ s.
        SaysReading (codes "bit") unread.now.bit (string_bytes unread.now.path) (string_bytes s)) }
{
    let words = match &unread.allowed {
        Some(allowed) => format!(in alloc;
            "found what the constraints do not allow, expected {allowed}"
        )?,
        None => String::from_str(alloc, describe_bits(unread.refusal))?,
    };
    at_unit(
        alloc,
        "bit",
        unread.bit,
        unread.path.as_str(),
        words.as_str(),
    )
}

/// What was found in place of bits that say a value of the type, and what was expected.
fn describe_bits(refusal: Refusal) -> &'static str {
    match refusal {
        Refusal::Truncated => "found the end of the octets, expected more bits of the value",
        Refusal::NotCanonical =>
            "found bits that canonical PER does not have, expected the one form of a value",
        Refusal::Outside =>
            "found what the type does not allow, expected a number, a size, an index or contents within it",
        Refusal::UnknownAlternative =>
            "found an alternative after the extension marker that the type lacks, expected one of its own",
        Refusal::UnknownEnumeration =>
            "found an item after the extension marker that the type lacks, expected one of its own",
        Refusal::Padding =>
            "found bits after the value, expected zero bits up to the end of its last octet",
        Refusal::TooDeep => "found a value at level 65, expected at most 64 levels",
        Refusal::TooManyAdditions => "found more than 64 additions, expected at most 64",
        Refusal::IntegerLimit => "found another number, expected one from -2^127 to 2^127 - 1",
        Refusal::OidLimit =>
            "found other numbers of an object identifier, expected at most 64, each below 2^64",
        Refusal::NodesLimit =>
            "found more values and octets of character strings, expected at most 16777216 together",
    }
}

/// What was found in place of octets that encode a value of the type, and what was expected.
fn describe_reading(fault: ReadFault) -> &'static str {
    match fault {
        ReadFault::Memory => "out of memory",
        ReadFault::MessageLimit => "a message has at most 16777216 octets",
        ReadFault::IntegerLimit => "found another number, expected one from -2^127 to 2^127 - 1",
        ReadFault::OidLimit =>
            "found other numbers of an object identifier, expected at most 64, each below 2^64",
        ReadFault::Truncated =>
            "found the end of the octets, expected more octets of a header or of its contents",
        ReadFault::Indefinite =>
            "found a length in the indefinite form, expected one in a definite form",
        ReadFault::BadLength =>
            "found a length that begins with FF or is more than 16777216, expected one that a message can have",
        ReadFault::BadTag =>
            "found identifier octets of no tag, expected those of a tag in an allowed form",
        ReadFault::UnexpectedTag =>
            "found a tag or a form of it that is not allowed here, expected one of the type",
        ReadFault::Missing => "found the end of the contents, expected a mandatory component",
        ReadFault::BadContents =>
            "found contents octets of no value, expected those of a value of the type",
        ReadFault::EmptySegments =>
            "found a constructed BIT STRING without segments, expected at least one",
        ReadFault::OutsideConstraint =>
            "found a value that the constraints do not allow, expected one that they allow",
        ReadFault::Trailing =>
            "found octets after the whole value, expected the end of the message",
        ReadFault::TooDeep => "found more levels, expected at most 400 of headers and 64 of values",
        ReadFault::NotDer => "found a BER encoding that is not DER, expected the DER encoding",
    }
}
