//! The part of a value whose encoding has an octet at which a rule is broken, and that encoding.

use crate::broken::Encoded;
use crate::label::named;
use crate::parts::{EncodedPart, Inside, next_part, within};
use asn_base::schema::TypeId;
use asn_base::tag::Tag;
use der_check::{Breach, RuleOfDer};
use header_listing::{Encoding, first_encoding};
use octets::Form;
use std::alloc::{AllocError, Global};

/// The innermost part whose encoding has the octet: its path in the value, its type, and its encoding. The encoding of
/// a part with the earlier tag comes before this one in the same contents octets, if there is one.
#[derive(Drop)]
pub(crate) struct Site<'a> {
    pub path: String,
    pub ty: TypeId,
    pub encoding: Option<Encoding<'a>>,
    pub earlier: Option<Tag>,
}

/// What is searched: octets that encode a value, and a rule that they break.
#[derive(Clone, Copy)]
struct Search<'a> {
    encoded: Encoded<'a>,
    breach: Breach,
}

/// The octets that are left of contents, their offset, and what comes next in them. The tag is that of the part before
/// them in the same contents, if there is one.
#[derive(Clone, Copy)]
struct Point<'a> {
    left: &'a [u8],
    start: usize,
    inside: Inside<'a>,
    earlier: Option<Tag>,
}

/// The offset of what follows some octets.
fn past(start: usize, octets: &[u8]) -> usize {
    start.saturating_add(octets.len())
}

/// The offset of the contents octets of an encoding.
fn contents_start(start: usize, encoding: Encoding<'_>) -> usize {
    past(past(start, encoding.identifier), encoding.size)
}

/// A part as it is named: a component with its DEFAULT value as a whole, whatever alternative it has.
fn as_named<'a>(rule: RuleOfDer, part: EncodedPart<'a>) -> EncodedPart<'a> {
    let RuleOfDer::NoDefault = rule else {
        return part;
    };
    let Some(ty) = part.member else {
        return part;
    };
    let mut whole = part;
    whole.ty = ty;
    whole.label = named(part.label.name);
    whole
}

/// Notes that the octet is in the encoding of a part, at an offset. The result is the place in its contents octets, or
/// None if the octet isn't among these.
fn enter<'a>(
    alloc: Global,
    search: Search<'a>,
    site: &mut Site<'a>,
    point: Point<'a>,
    found: (EncodedPart<'a>, Encoding<'a>),
) -> Result<Option<Point<'a>>, AllocError> {
    let (part, encoding) = found;
    let start = contents_start(point.start, encoding);
    let is_header = search.breach.offset < start;
    let named = if is_header {
        as_named(search.breach.rule, part)
    } else {
        part
    };
    named.label.push_to(alloc, &mut site.path)?;
    site.ty = named.ty;
    site.encoding = Some(encoding);
    site.earlier = point.earlier;
    if is_header || encoding.form == Form::Primitive {
        return Ok(None);
    }
    Ok(Some(Point {
        left: encoding.contents,
        start,
        inside: within(search.encoded.schema, part),
        earlier: None,
    }))
}

/// The place after an encoding: in its contents octets if the octet is there, or else after it. None if the octet is
/// found.
fn next_point<'a>(
    alloc: Global,
    search: Search<'a>,
    site: &mut Site<'a>,
    point: Point<'a>,
    encoding: Encoding<'a>,
) -> Result<Option<Point<'a>>, AllocError> {
    let end = past(contents_start(point.start, encoding), encoding.contents);
    let Some((part, next)) = next_part(search.encoded.schema, point.inside, encoding.tag) else {
        return Ok(Some(Point {
            left: encoding.rest,
            start: end,
            inside: point.inside,
            earlier: point.earlier,
        }));
    };
    if search.breach.offset < end {
        return enter(alloc, search, site, point, (part, encoding));
    }
    Ok(Some(Point {
        left: encoding.rest,
        start: end,
        inside: next,
        earlier: Some(encoding.tag),
    }))
}

/// The part that breaks a rule, in octets that encode a value. Each turn reads a header, which has two octets at least.
pub(crate) fn find_site<'a>(
    alloc: Global,
    encoded: Encoded<'a>,
    breach: Breach,
) -> Result<Site<'a>, AllocError> {
    let search = Search { encoded, breach };
    let mut site = Site {
        path: String::new(alloc),
        ty: encoded.ty,
        encoding: None,
        earlier: None,
    };
    let mut point = Point {
        left: encoded.octets,
        start: 0,
        inside: Inside::Value(encoded.ty, encoded.value, ""),
        earlier: None,
    };
    for _ in 0..encoded.octets.len() {
        let Some(encoding) = first_encoding(point.left) else {
            return Ok(site);
        };
        match next_point(alloc, search, &mut site, point, encoding)? {
            Some(next) => point = next,
            None => return Ok(site),
        }
    }
    Ok(site)
}
