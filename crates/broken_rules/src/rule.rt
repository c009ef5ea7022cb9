//! What the distinguished rules ask besides the basic ones (X.690, 10 and 11), in words.

ghost use Rattle.broken_rules.specs.Broken.{IsExpected, IsSize, SaysWhatBreaks};
ghost use Rattle.der_check.specs.declared.rule.RuleOfDer.TheVariants.{FewestLengthOctets, OrderOfTags};
ghost use Rattle.std.specs.Prelude.{◌≡◌, ◌∷◌, [], IfOk, string_bytes};
ghost use Rattle.value_text.specs.Print.{hex_digits};

use crate::site::Site;
use asn_base::tag::Tag;
use der_check::RuleOfDer;
use header_listing::{push_hex, push_tag};
use octets::octets_of;
use std::alloc::{AllocError, Global};

/// The most octets that words show, three characters for each.
const SHOWN: usize = 20;

/// Octets in hexadecimal digits, with spaces between them. Two dots say that there are more than 20.
fn listed(alloc: Global, octets: &[u8]) -> Result<String, AllocError> {
    let mut list = String::new(alloc);
    for place in 0..octets.len() {
        if place > 0 {
            list.push_str(" ")?;
        }
        if place == SHOWN {
            list.push_str("..")?;
            return Ok(list);
        }
        push_hex(&mut list, &[octets[place]])?;
    }
    Ok(list)
}

/// An octet in hexadecimal digits.
fn one(alloc: Global, octet: u8) -> Result<String, AllocError>
    ensures { IfOk result (λ t. string_bytes t ≡ hex_digits (octet ∷ [])) }
{
    let mut text = String::new(alloc);
    push_hex(&mut text, &[octet])?;
    Ok(text)
}

/// The fewest length octets, in hexadecimal digits.
#[tactic(auto, using(crate::proofs::Asked::short_size, crate::proofs::Asked::long_size))]
fn fewest(alloc: Global, contents: usize) -> Result<String, AllocError>
    ensures { IfOk result (λ t. IsSize contents (string_bytes t)) }
{
    if contents < 128 {
        return Ok(one(alloc, contents as u8)?);
    }
    let Ok(octets) = octets_of(alloc, contents as u128) else {
        return Err(AllocError);
    };
    let count = octets.len();
    let size = listed(alloc, octets.as_slice())?;
    Ok(format!(in alloc; "8{count} {size}")?)
}

/// A tag in notation.
fn tag_text(alloc: Global, tag: Tag) -> Result<String, AllocError> {
    let mut text = String::new(alloc);
    push_tag(&mut text, tag)?;
    Ok(text)
}

/// The words for a tag after another one.
fn tag_after(alloc: Global, last: Tag, tag: Tag) -> Result<String, AllocError>
    ensures { IfOk result (λ t. SaysWhatBreaks OrderOfTags (string_bytes t)) }
{
    let last = tag_text(alloc, last)?;
    let tag = tag_text(alloc, tag)?;
    format!(in alloc; "the tag {tag} after {last}")
}

/// The words for the tag of an encoding after that of an earlier one.
fn tags(alloc: Global, site: &Site<'_>) -> Result<String, AllocError>
    ensures { IfOk result (λ t. SaysWhatBreaks OrderOfTags (string_bytes t)) }
{
    match (site.earlier, site.encoding) {
        (Some(last), Some(encoding)) => tag_after(alloc, last, encoding.tag),
        _ => String::from_str(alloc, "the tag "),
    }
}

/// The words for the length octets of an encoding.
fn length_octets(alloc: Global, site: &Site<'_>) -> Result<String, AllocError>
    ensures { IfOk result (λ t. SaysWhatBreaks FewestLengthOctets (string_bytes t)) }
{
    let size = match site.encoding {
        Some(encoding) => listed(alloc, encoding.size)?,
        None => String::new(alloc),
    };
    format!(in alloc; "the length octets {size}")
}

/// The contents octets of an encoding, or none.
fn contents_of<'a>(site: &Site<'a>) -> &'a [u8] {
    match site.encoding {
        Some(encoding) => encoding.contents,
        None => &[],
    }
}

/// What was found that breaks the rule.
pub(crate) fn found(alloc: Global, rule: RuleOfDer, site: &Site<'_>) -> Result<String, AllocError>
    ensures { IfOk result (λ t. SaysWhatBreaks rule (string_bytes t)) }
{
    match rule {
        RuleOfDer::FewestLengthOctets => length_octets(alloc, site),
        RuleOfDer::PrimitiveString => String::from_str(alloc, "the constructed form"),
        RuleOfDer::OrderOfTags => tags(alloc, site),
        RuleOfDer::AllBitsOfTrue => {
            let octets = listed(alloc, contents_of(site))?;
            format!(in alloc; "the contents {octets}")
        }
        RuleOfDer::ZerosAsUnusedBits => String::from_str(alloc, "an unused bit that is one"),
        RuleOfDer::LastNamedBit => String::from_str(alloc, "a zero as the last bit"),
        RuleOfDer::NoDefault => String::from_str(alloc, "the DEFAULT value"),
        RuleOfDer::OrderOfElements => {
            String::from_str(alloc, "an element that is less than the one before it")
        }
    }
}

/// What was expected in its place.
#[tactic(auto, using(crate::proofs::Asked::size_asked))]
pub(crate) fn expected(
    alloc: Global,
    rule: RuleOfDer,
    site: &Site<'_>,
) -> Result<String, AllocError>
    ensures { IfOk result (λ t. IsExpected rule (string_bytes t)) }
{
    match rule {
        RuleOfDer::FewestLengthOctets => Ok(fewest(alloc, contents_of(site).len())?),
        RuleOfDer::PrimitiveString => String::from_str(alloc, "the primitive form"),
        RuleOfDer::OrderOfTags => {
            String::from_str(alloc, "the components of a SET in the order of their tags")
        }
        RuleOfDer::AllBitsOfTrue => String::from_str(alloc, "FF"),
        RuleOfDer::ZerosAsUnusedBits => String::from_str(alloc, "zeros"),
        RuleOfDer::LastNamedBit => String::from_str(alloc, "a one, or no bits"),
        RuleOfDer::NoDefault => String::from_str(alloc, "no encoding of it"),
        RuleOfDer::OrderOfElements => {
            String::from_str(alloc, "the elements of a SET OF in ascending order")
        }
    }
}
