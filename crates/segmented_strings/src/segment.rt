//! The segment at the start of octets.

ghost use Rattle.octets.specs.Forms.{is_constructed};
ghost use Rattle.segmented_strings.specs.Failing.{NoSegment};
ghost use Rattle.segmented_strings.specs.Within.{SegmentAt};
ghost use Rattle.segmented_strings.specs.declared.fault.SegmentsFault.TheVariants.{Memory};
ghost use Rattle.std.specs.Int.Digits.{AllBelowBase};
ghost use Rattle.std.specs.Prelude.{◌≡◌, ◌≤◌, ◌++◌, IfErr, IfOk, OnOk, length};

use crate::fault::{SegmentError, SegmentsFault};
use asn_base::tag::{Tag, same_tag};
use octets::{Form, read_header};

/// A segment: its form, its contents, and what follows them.
#[derive(Clone, Copy, Drop)]
pub(crate) struct Segment<'a> {
    pub(crate) form: Form,
    pub(crate) contents: &'a [u8],
    pub(crate) following: &'a [u8],
}

/// The segment of this tag at the start of octets, within `room` levels of headers.
pub(crate) fn next_segment(
    tag: Tag,
    room: usize,
    octets: &[u8],
) -> Result<Segment<'_>, SegmentError>
    requires { 1 ≤ length octets.now }
    ensures room { IfOk result (λ r. 1 ≤ room) }
    ensures ok { IfOk result (λ r. SegmentAt tag (is_constructed r.form) r.contents.now r.following.now octets.now) }
    ensures err { IfErr result (λ e. NoSegment tag room octets.now e) }
{
    let header = match read_header(octets) {
        Ok(header) => header,
        Err(fault) => return Err(SegmentError::Header(fault)),
    };
    if room == 0 {
        return Err(SegmentError::TooDeep);
    }
    if !same_tag(header.tag, tag) {
        return Err(SegmentError::UnexpectedTag);
    }
    let (_, rest) = octets.split_at(header.octets);
    let (contents, following) = rest.split_at(header.contents);
    Ok(Segment {
        form: header.form,
        contents,
        following,
    })
}

/// Adds octets.
pub(crate) fn extend(out: &mut Vec<u8>, octets: &[u8]) -> Result<(), SegmentsFault>
    ensures ok { OnOk result (out.new.items ≡ out.old.items ++ octets.now) }
    ensures err { IfErr result (λ e. e ≡ Memory) }
{
    out.extend_from_slice(octets)?;
    Ok(())
}

/// Each item of a slice of octets is below 256.
pub(crate) fn are_octets(octets: &[u8])
    ensures { AllBelowBase 256 octets.now }
{}
