//! Constructed contents octets of each kind of string.

ghost use Rattle.asn_base.specs.Abstract.{AbstractValue, text as text'};
ghost use Rattle.encodings.specs.declared.leaf_kind.LeafKind.TheVariants.{OctetString};
ghost use Rattle.segmented_strings.specs.Joining.{Fails, HasFewUnused, IsJoinedAs, ReadsContents, kind_of, some_bits, some_text};
ghost use Rattle.segmented_strings.specs.Refusing.{IsRefused};
ghost use Rattle.segmented_strings.specs.declared.fault.SegmentsFault.TheVariants.{At, Memory};
ghost use Rattle.segmented_strings.specs.declared.fault.SegmentError.{SegmentError as SegmentError'};
ghost use Rattle.std.specs.Prelude.{◌≡◌, ◌≤◌, ◌⊎◌, Err, IfErr, IfOk, length, ℕ};

use crate::bits::add_bits;
use crate::fault::{SegmentError, SegmentsFault};
use crate::joined::add_octets;
use crate::law::lemma_one_joining;
use crate::text::text_of;
use encodings::LeafKind;
use std::alloc::Global;

/// A string that was joined from segments.
#[derive(Debug, Drop)]
pub enum Reassembled {
    /// How many bits of the last octet are unused, and the octets.
    Bits(u8, Vec<u8>),
    Octets(Vec<u8>),
    Text(String),
}

/// Reads the contents octets of a constructed string of this kind by the basic rules, within `room` levels of headers
/// (X.690, 8.6.4, 8.7.3 and 8.23). Each segment is a BIT STRING, or else an OCTET STRING, which may be constructed
/// again. Only the last segment of a BIT STRING may have unused bits. Time and memory grow with the octets: a length in
/// a header is checked against the octets that are there before it is used.
///
/// The error is the first fault, with its place among the octets. Each header is checked in this order. `Header`: there
/// is no header, or its contents go on past those of the header around it. `TooDeep`: the header passes the limit.
/// `UnexpectedTag`: it has another tag.
///
/// `EmptySegments`: the first segment of a BIT STRING is missing. `BadContents`: a segment has contents of no bits, or
/// has unused bits and isn't the last. `BadContents` at 0: a joined string isn't UTF-8, or has a character that its
/// type doesn't have. `UnexpectedTag` at 0: the kind isn't a string, so it has no constructed form.
pub fn read_segments(
    alloc: Global,
    kind: LeafKind,
    contents: &[u8],
    room: usize,
) -> Result<Reassembled, SegmentsFault>
    requires { length contents.now ≤ 16777216 }
    ensures ok { IfOk result (λ j. ReadsContents kind room contents.now j) }
    ensures few_unused { IfOk result (λ j. HasFewUnused j) }
    ensures err { IfErr result (λ e. IsRefused (Fails kind room) e contents.now) }
    // Octets that are those of a value are read, and each fault that they have is the error, unless memory runs out.
    ensures only { (v : AbstractValue) → IsJoinedAs kind v room contents.now → IfErr result (λ e. e ≡ Memory) }
    ensures refused_if { (e : SegmentError') (i : ℕ) → Fails kind room e i contents.now
        → (result ≡ Err (At i e)) ⊎ (result ≡ Err Memory) }
{
    lemma_one_joining();
    read_kind(alloc, kind, contents, room)
}

/// The same as `read_segments`, by a function for each kind.
fn read_kind(
    alloc: Global,
    kind: LeafKind,
    contents: &[u8],
    room: usize,
) -> Result<Reassembled, SegmentsFault>
    requires { length contents.now ≤ 16777216 }
    ensures ok { IfOk result (λ j. ReadsContents kind room contents.now j) }
    ensures few_unused { IfOk result (λ j. HasFewUnused j) }
    ensures err { IfErr result (λ e. IsRefused (Fails kind room) e contents.now) }
{
    match kind {
        LeafKind::BitString => as_bits(alloc, kind, contents, room),
        LeafKind::NamedBits => as_bits(alloc, kind, contents, room),
        LeafKind::OctetString => as_octets(alloc, contents, room),
        LeafKind::Utf8String => as_text(alloc, kind, contents, room),
        LeafKind::RestrictedString(_) => as_text(alloc, kind, contents, room),
        LeafKind::Boolean => Err(SegmentsFault::At(0, SegmentError::UnexpectedTag)),
        LeafKind::Integer => Err(SegmentsFault::At(0, SegmentError::UnexpectedTag)),
        LeafKind::Enumerated => Err(SegmentsFault::At(0, SegmentError::UnexpectedTag)),
        LeafKind::Null => Err(SegmentsFault::At(0, SegmentError::UnexpectedTag)),
        LeafKind::ObjectIdentifier => Err(SegmentsFault::At(0, SegmentError::UnexpectedTag)),
        LeafKind::RelativeOid => Err(SegmentsFault::At(0, SegmentError::UnexpectedTag)),
    }
}

fn as_bits(
    alloc: Global,
    kind: LeafKind,
    contents: &[u8],
    room: usize,
) -> Result<Reassembled, SegmentsFault>
    requires kind { kind_of kind ≡ some_bits }
    requires short { length contents.now ≤ 16777216 }
    ensures ok { IfOk result (λ j. ReadsContents kind room contents.now j) }
    ensures few_unused { IfOk result (λ j. HasFewUnused j) }
    ensures err { IfErr result (λ e. IsRefused (Fails kind room) e contents.now) }
{
    let mut octets = Vec::new(alloc);
    match add_bits(&mut octets, contents, room) {
        Ok(unused) => Ok(Reassembled::Bits(unused, octets)),
        Err(fault) => Err(fault),
    }
}

fn as_octets(alloc: Global, contents: &[u8], room: usize) -> Result<Reassembled, SegmentsFault>
    requires { length contents.now ≤ 16777216 }
    ensures ok { IfOk result (λ j. ReadsContents OctetString room contents.now j) }
    ensures few_unused { IfOk result (λ j. HasFewUnused j) }
    ensures err { IfErr result (λ e. IsRefused (Fails OctetString room) e contents.now) }
{
    let mut octets = Vec::new(alloc);
    match add_octets(&mut octets, contents, room) {
        Ok(()) => Ok(Reassembled::Octets(octets)),
        Err(fault) => Err(fault),
    }
}

fn as_text(
    alloc: Global,
    kind: LeafKind,
    contents: &[u8],
    room: usize,
) -> Result<Reassembled, SegmentsFault>
    requires kind { kind_of kind ≡ some_text }
    requires short { length contents.now ≤ 16777216 }
    ensures ok { IfOk result (λ j. ReadsContents kind room contents.now j) }
    ensures few_unused { IfOk result (λ j. HasFewUnused j) }
    ensures err { IfErr result (λ e. IsRefused (Fails kind room) e contents.now) }
{
    let mut octets = Vec::new(alloc);
    match add_octets(&mut octets, contents, room) {
        Ok(()) => {}
        Err(fault) => return Err(fault),
    }
    match text_of(alloc, kind, octets.as_slice()) {
        Ok(text) => Ok(Reassembled::Text(text)),
        Err(fault) => Err(fault),
    }
}
