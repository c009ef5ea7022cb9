//! Octets of segments.

ghost use Rattle.encodings.specs.Header.{Octets};
ghost use Rattle.encodings.specs.Strings.{octet_string_tag};
ghost use Rattle.segmented_strings.specs.Failing.{OctetsFail};
ghost use Rattle.segmented_strings.specs.Within.{OctetsWithin, PiecesWithin, SegmentAt};
ghost use Rattle.segmented_strings.specs.Refusing.{IsRefused, Joins, JoinsOne, place_of, moved_by};
ghost use Rattle.std.specs.Prelude.{◌≡◌, ◌+◌, ◌<◌, ◌≤◌, ◌^◌, ◌++◌, IfErr, IfOk, OnOk, length};

use crate::fault::SegmentsFault;
use crate::segment::{are_octets, extend, next_segment};
use asn_base::tag::{Class, Tag};
use octets::Form;

/// The tag of an OCTET STRING's segments.
#[tactic(auto, using(crate::proofs::Tags::octet_tag))]
fn octet_string() -> Tag
    ensures { result ≡ octet_string_tag }
{
    Tag::of(Class::Universal, 4)
}

/// The same fault, with its place counted from `before` octets earlier.
pub(crate) fn moved(before: usize, fault: SegmentsFault) -> SegmentsFault
    requires { before + place_of fault < 2 ^ 64 }
    ensures { result ≡ moved_by before fault }
{
    match fault {
        SegmentsFault::Memory => SegmentsFault::Memory,
        SegmentsFault::At(at, why) => SegmentsFault::At(before + at, why),
    }
}

/// Adds the octets of segments, within `room` levels of headers. A refused call may have added some.
#[cycle(octets)]
pub(crate) fn add_octets(
    out: &mut Vec<u8>,
    contents: &[u8],
    room: usize,
) -> Result<(), SegmentsFault>
    requires { length contents.now ≤ 16777216 }
    ensures ok { OnOk result (Joins room contents.now out.old.items out.new.items) }
    ensures err { IfErr result (λ e. IsRefused (OctetsFail room) e contents.now) }
{
    let mut rest = contents;
    while !rest.is_empty() {
        let before = contents.len() - rest.len();
        rest = match add_segment(out, rest, room) {
            Ok(following) => following,
            Err(fault) => return Err(moved(before, fault)),
        };
    }
    Ok(())
}

/// Adds the octets of the first segment, and returns what follows it.
#[cycle(octets)]
fn add_segment<'a>(
    out: &mut Vec<u8>,
    octets: &'a [u8],
    room: usize,
) -> Result<&'a [u8], SegmentsFault>
    requires some { 1 ≤ length octets.now }
    requires short { length octets.now ≤ 16777216 }
    ensures ok { IfOk result (λ r. JoinsOne room octets.now r.now out.old.items out.new.items) }
    ensures err { IfErr result (λ e. IsRefused (OctetsFail room) e octets.now) }
{
    let segment = match next_segment(octet_string(), room, octets) {
        Ok(segment) => segment,
        Err(why) => return Err(SegmentsFault::At(0, why)),
    };
    match segment.form {
        Form::Primitive => {
            are_octets(segment.contents);
            match extend(out, segment.contents) {
                Ok(()) => Ok(segment.following),
                Err(fault) => Err(fault),
            }
        }
        Form::Constructed => {
            let before = octets.len() - segment.following.len() - segment.contents.len();
            match add_octets(out, segment.contents, room - 1) {
                Ok(()) => Ok(segment.following),
                Err(fault) => Err(moved(before, fault)),
            }
        }
    }
}
