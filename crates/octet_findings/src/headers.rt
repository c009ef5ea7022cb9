//! The contents octets of a part of a message.

ghost use Rattle.asn_base.specs.declared.tag.Tag.{Tag as Tag'};
ghost use Rattle.octet_findings.specs.Places.{HasContentsDepth, HasDepth, HeaderFrom, IsLeafAt, PartFrom};
ghost use Rattle.octet_findings.specs.Tags.{HasNoHeader};
ghost use Rattle.octets.specs.Forms.{is_constructed};
ghost use Rattle.octets.specs.Fronts.{HeaderAt};
ghost use Rattle.std.specs.Prelude.{◌≡◌, ◌+◌, ◌<◌, ◌≤◌, ◌^◌, Bool, IfNone, IfSome, List, drop};
ghost use Rattle.std.specs.Prelude.{false, length, not, take, true, ℕ};

use asn_base::tag::{Tag, same_tag};
use octets::law::lemma_one_front;
use octets::{Form, Header, read_header};

/// Contents octets in a message, and the offset of the first of them; the tag and the form in the header before them.
#[derive(Clone, Copy)]
pub(crate) struct Contents<'a> {
    pub octets: &'a [u8],
    pub at: usize,
    pub tag: Tag,
    pub form: Form,
    ghost few: { at + length octets.now < 2 ^ 64 },
}

/// The header at an offset of a message, or None if there is none.
pub(crate) fn header_at(octets: &[u8], at: usize) -> Option<Header>
    ensures some { IfSome result (λ h.
        HeaderAt h.tag (is_constructed h.form) h.contents h.octets (drop at octets.now)) }
    ensures within { IfSome result (λ h. at + h.octets + h.contents ≤ length octets.now) }
    ensures few { IfSome result (λ h. at + h.octets + h.contents < 2 ^ 64) }
    ensures none { IfNone result (HasNoHeader (drop at octets.now)) }
{
    if at > octets.len() {
        return None;
    }
    match read_header(&octets[at..]) {
        Ok(header) => Some(header),
        Err(_) => None,
    }
}

/// The offset after the header of an encoding.
pub(crate) fn after_header(start: usize, header: Header) -> usize
    ensures { start + header.octets < 2 ^ 64 → result ≡ start + header.octets }
{
    start.saturating_add(header.octets)
}

/// The offset after an encoding.
pub(crate) fn after_contents(start: usize, header: Header) -> usize
    ensures { start + header.octets + header.contents < 2 ^ 64 → result ≡ start + header.octets + header.contents }
{
    after_header(start, header).saturating_add(header.contents)
}

/// The contents octets of the encoding that starts at an offset, where this header is.
fn contents_from(octets: &[u8], start: usize, header: Header) -> Contents<'_>
    requires within { start + header.octets + header.contents ≤ length octets.now }
    requires few { start + header.octets + header.contents < 2 ^ 64 }
    ensures at { result.at ≡ start + header.octets }
    ensures octets { result.octets.now ≡ take header.contents (drop result.at octets.now) }
    ensures tag { result.tag ≡ header.tag }
    ensures form { result.form ≡ header.form }
{
    let at = after_header(start, header);
    Contents {
        octets: &octets[at..after_contents(start, header)],
        at,
        tag: header.tag,
        form: header.form,
    }
}

/// Whether contents are a value's own octets.
fn is_primitive(form: Form) -> bool
    ensures { result ≡ not (is_constructed form) }
{
    match form {
        Form::Primitive => true,
        Form::Constructed => false,
    }
}

/// The start of the next header on the way to contents octets at an offset: the first one in this encoding if they can
/// be in it, and otherwise the one after it.
fn next_start(start: usize, header: Header, at: usize) -> usize
    ensures within { is_constructed header.form ≡ true
        → at ≤ start + header.octets + header.contents
        → start + header.octets + header.contents < 2 ^ 64
        → result ≡ start + header.octets }
    ensures after { start + header.octets + header.contents < at
        → start + header.octets + header.contents < 2 ^ 64
        → result ≡ start + header.octets + header.contents }
    ensures primitive { is_constructed header.form ≡ false
        → start + header.octets + header.contents < 2 ^ 64
        → result ≡ start + header.octets + header.contents }
    ensures later { start + header.octets + header.contents < 2 ^ 64 → start + header.octets ≤ result }
{
    if !is_primitive(header.form) && at <= after_contents(start, header) {
        after_header(start, header)
    } else {
        after_contents(start, header)
    }
}

/// The primitive contents octets that start at an offset of a message, or None if there are none.
#[tactic(auto, using(crate::proofs::Leaves::same_first, crate::proofs::Leaves::none_without, crate::proofs::Leaves::none_before, crate::proofs::Leaves::none_at_end, crate::proofs::Leaves::found_here, crate::proofs::Leaves::same_next))]
pub(crate) fn leaf_at(octets: &[u8], at: usize) -> Option<Contents<'_>>
    ensures some { IfSome result (λ c. IsLeafAt octets.now at c.tag c.octets.now) }
    ensures at { IfSome result (λ c. c.at ≡ at) }
    ensures form { IfSome result (λ c. is_constructed c.form ≡ false) }
    ensures none { IfNone result ((t : Tag') (x : List ℕ) → IsLeafAt octets.now at t x → ⊥) }
{
    lemma_one_front();
    let mut start = 0;
    for _ in 0..octets.len() {
        let Some(header) = header_at(octets, start) else {
            return None;
        };
        if is_primitive(header.form) && after_header(start, header) == at {
            return Some(contents_from(octets, start, header));
        }
        if start > at {
            return None;
        }
        start = next_start(start, header, at);
    }
    None
}

/// The contents octets of the part of a message whose first header is at an offset. `tags` are those of its type, of
/// which all but the last are explicit. The result is None if no such part is there.
#[tactic(auto, using(crate::proofs::Parts::way_first, crate::proofs::Parts::part_without, crate::proofs::Parts::part_other, crate::proofs::Parts::part_end, crate::proofs::Parts::part_found, crate::proofs::Parts::way_next))]
pub(crate) fn part_at<'a>(octets: &'a [u8], at: usize, tags: &[Tag]) -> Option<Contents<'a>>
    ensures some { IfSome result (λ c.
        PartFrom octets.now at tags.now (is_constructed c.form) c.at c.octets.now) }
    ensures none { IfNone result ((c : Bool) (a : ℕ) (x : List ℕ)
        → PartFrom octets.now at tags.now c a x
        → ⊥) }
{
    lemma_one_front();
    let mut start = at;
    for level in 0..tags.len() {
        let Some(header) = header_at(octets, start) else {
            return None;
        };
        if !same_tag(header.tag, tags[level]) {
            return None;
        }
        if level + 1 == tags.len() {
            return Some(contents_from(octets, start, header));
        }
        start = after_header(start, header);
    }
    None
}

/// A header of a message: the offsets of its first octet and of the one after its last octet, and the number of headers
/// that it is within.
#[derive(Clone, Copy)]
struct HeaderPlace {
    start: usize,
    end: usize,
    levels: usize,
}

/// The header that has the octet at an offset of a message, or None if that octet is in none. Contents octets of either
/// form are taken for encodings.
fn header_with(octets: &[u8], at: usize) -> Option<HeaderPlace>
    ensures some { IfSome result (λ h. HeaderFrom octets.now at h.start h.end 0 h.levels) }
    ensures few { IfSome result (λ h. h.levels < length octets.now) }
    ensures none { IfNone result ((h e d : ℕ) → HeaderFrom octets.now at h e 0 d → ⊥) }
{
    lemma_one_front();
    let mut start = 0;
    let mut levels = 0;
    for _ in 0..octets.len() {
        let Some(header) = header_at(octets, start) else {
            return None;
        };
        let first = after_header(start, header);
        if at < first {
            return Some(HeaderPlace {
                start,
                end: first,
                levels,
            });
        }
        let end = after_contents(start, header);
        if at < end {
            start = first;
            levels += 1;
        } else {
            start = end;
        }
    }
    None
}

/// Returns the number of headers that the header at an offset of a message is within, or 0 if no header is there.
pub fn depth(octets: &[u8], at: usize) -> usize
    ensures { HasDepth octets.now at result }
{
    lemma_one_front();
    match header_with(octets, at) {
        Some(header) if header.start == at => header.levels,
        _ => 0,
    }
}

/// Returns the number of headers around the contents octets that start at an offset of a message, with their own
/// header, or 0 if no contents octets start there. They may be empty.
pub fn contents_depth(octets: &[u8], at: usize) -> usize
    ensures { HasContentsDepth octets.now at result }
{
    lemma_one_front();
    if at == 0 {
        return 0;
    }
    match header_with(octets, at - 1) {
        Some(header) if header.end == at => header.levels + 1,
        _ => 0,
    }
}

/// The number of encodings in contents octets.
pub(crate) fn count(contents: Contents<'_>) -> usize {
    let mut start = 0;
    let mut found = 0usize;
    for _ in 0..contents.octets.len() {
        let Some(header) = header_at(contents.octets, start) else {
            return found;
        };
        start = after_contents(start, header);
        found = found.saturating_add(1);
    }
    found
}
