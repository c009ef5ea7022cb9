//! Bits of segments.

ghost use Rattle.encodings.specs.Strings.{bit_string_tag};
ghost use Rattle.segmented_strings.specs.Failing.{BitsFail};
ghost use Rattle.segmented_strings.specs.Refusing.{IsRefused, JoinsBits, JoinsOneBits};
ghost use Rattle.std.specs.Prelude.{◌≡◌, ◌≤◌, IfErr, IfOk, length};

use crate::fault::{SegmentError, SegmentsFault};
use crate::joined::moved;
use crate::segment::{extend, next_segment};
use asn_base::tag::{Class, Tag};
use octets::Form;
use primitive_reader::read_bits;

/// The tag of a BIT STRING's segments.
#[tactic(auto, using(crate::proofs::Tags::bit_tag))]
fn bit_string() -> Tag
    ensures { result ≡ bit_string_tag }
{
    Tag::of(Class::Universal, 3)
}

/// Adds the octets of segments' bits, within `room` levels of headers, and returns how many bits of the last one are
/// unused. A refused call may have added some octets.
#[cycle(bits)]
pub(crate) fn add_bits(out: &mut Vec<u8>, contents: &[u8], room: usize) -> Result<u8, SegmentsFault>
    requires { length contents.now ≤ 16777216 }
    ensures ok { IfOk result (λ u. JoinsBits room contents.now out.old.items out.new.items u) }
    ensures err { IfErr result (λ e. IsRefused (BitsFail room) e contents.now) }
{
    if contents.is_empty() {
        return Err(SegmentsFault::At(0, SegmentError::EmptySegments));
    }
    let mut rest = contents;
    loop {
        let before = contents.len() - rest.len();
        let (unused, following) = match add_bit_segment(out, rest, room) {
            Ok(added) => added,
            Err(fault) => return Err(moved(before, fault)),
        };
        if following.is_empty() {
            return Ok(unused);
        }
        if unused > 0 {
            return Err(SegmentsFault::At(before, SegmentError::BadContents));
        }
        rest = following;
    }
}

/// Adds the octets of the bits of the first segment, and returns how many bits of the last octet are unused, and what
/// follows the segment.
#[cycle(bits)]
fn add_bit_segment<'a>(
    out: &mut Vec<u8>,
    octets: &'a [u8],
    room: usize,
) -> Result<(u8, &'a [u8]), SegmentsFault>
    requires some { 1 ≤ length octets.now }
    requires short { length octets.now ≤ 16777216 }
    ensures ok { IfOk result (λ r. JoinsOneBits room octets.now r.1.now out.old.items out.new.items r.0) }
    ensures err { IfErr result (λ e. IsRefused (BitsFail room) e octets.now) }
{
    let segment = match next_segment(bit_string(), room, octets) {
        Ok(segment) => segment,
        Err(why) => return Err(SegmentsFault::At(0, why)),
    };
    match segment.form {
        Form::Primitive => match read_bits(segment.contents) {
            Some((unused, bits)) => match extend(out, bits) {
                Ok(()) => Ok((unused, segment.following)),
                Err(fault) => Err(fault),
            },
            None => Err(SegmentsFault::At(0, SegmentError::BadContents)),
        },
        Form::Constructed => {
            let before = octets.len() - segment.following.len() - segment.contents.len();
            match add_bits(out, segment.contents, room - 1) {
                Ok(unused) => Ok((unused, segment.following)),
                Err(fault) => Err(moved(before, fault)),
            }
        }
    }
}
