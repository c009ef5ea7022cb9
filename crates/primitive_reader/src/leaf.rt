//! The values as which contents octets are read.

ghost use Rattle.encodings.specs.declared.leaf_kind.LeafKind.TheVariants.{BitString, Boolean, Enumerated, Integer};
ghost use Rattle.encodings.specs.declared.leaf_kind.LeafKind.TheVariants.{NamedBits, Null, ObjectIdentifier};
ghost use Rattle.encodings.specs.declared.leaf_kind.LeafKind.TheVariants.{OctetString, RelativeOid, RestrictedString};
ghost use Rattle.encodings.specs.declared.leaf_kind.LeafKind.TheVariants.{Utf8String};
ghost use Rattle.asn_base.specs.Abstract.{AbstractValue};
ghost use Rattle.primitive_reader.specs.Leaves.{IsReadAs, ReadsContents};
ghost use Rattle.primitive_reader.specs.Refused.{IsRightFault};
ghost use Rattle.primitive_reader.specs.declared.fault.LeafFault.{LeafFault as Fault'};
ghost use Rattle.std.specs.Prelude.{◌≡◌, Err, IfErr, IfOk, IsOk};

use crate::arcs::{judge_object_identifier, judge_relative_oid};
use crate::bits::read_bits;
use crate::fault::LeafFault;
use crate::number::{are_octets, read_number};
use crate::text::{read_restricted, read_utf8};
use asn_base::strings::StringKind;
use encodings::LeafKind;

/// A value that holds no others, as it is read. It takes no memory, and its strings are slices of the octets that were
/// read.
#[derive(Clone, Copy, Debug, PartialEq, Eq)]
pub enum Leaf<'a> {
    Bool(bool),
    Int(i128),
    Enum(i128),
    /// The number of unused bits at the end of the last octet, and the octets after the initial octet.
    Bits(u8, &'a [u8]),
    Octets(&'a [u8]),
    Text(&'a str),
    Null,
    /// The contents octets: numbers in septets. The first of them is 40 times the first number, plus the second one.
    /// `read_arc` reads one number.
    Oid(&'a [u8]),
    /// The contents octets: each number in septets.
    RelativeOid(&'a [u8]),
}

/// Reads primitive contents octets of this kind by the basic rules (X.690, 8.2 to 8.8, 8.19, 8.20 and 8.23). The call
/// takes no memory. Constraints, and the numbers of an ENUMERATED's items, are not checked.
///
/// `BadContents`: the octets don't have the form of such contents. Examples are a number longer than its shortest form,
/// more than seven unused bits, and a text with a character that its type doesn't have. If the form is right,
/// `IntegerLimit`: a number doesn't fit in 16 octets; `OidLimit`: there are more than 64 numbers, or one is 2^64 or
/// greater.
#[inline(always)]
pub fn read_leaf(kind: LeafKind, contents: &[u8]) -> Result<Leaf<'_>, LeafFault>
    ensures ok { IfOk result (λ l. ReadsContents kind contents.now l) }
    ensures err { IfErr result (λ e. IsRightFault e kind contents.now) }
    // Octets that are those of a value are read, and each fault that they have is the error.
    ensures only { (v : AbstractValue) → IsReadAs kind v contents.now → IsOk result }
    ensures refused_if { (e : Fault') → IsRightFault e kind contents.now → result ≡ Err e }
{
    read_kind(kind, contents)
}

/// The same as `read_leaf`, by a function for each kind.
#[inline(always)]
fn read_kind(kind: LeafKind, contents: &[u8]) -> Result<Leaf<'_>, LeafFault>
    ensures ok { IfOk result (λ l. ReadsContents kind contents.now l) }
    ensures err { IfErr result (λ e. IsRightFault e kind contents.now) }
{
    match kind {
        LeafKind::Boolean => as_boolean(contents),
        LeafKind::Integer => as_integer(contents),
        LeafKind::Enumerated => as_enumerated(contents),
        LeafKind::BitString => as_bits(contents),
        LeafKind::NamedBits => as_named_bits(contents),
        LeafKind::OctetString => as_octets(contents),
        LeafKind::Null => as_null(contents),
        LeafKind::ObjectIdentifier => as_object_identifier(contents),
        LeafKind::RelativeOid => as_relative_oid(contents),
        LeafKind::Utf8String => as_utf8(contents),
        LeafKind::RestrictedString(kind) => as_restricted(kind, contents),
    }
}

/// Reads a BOOLEAN: FALSE has no bit set, and TRUE has some (8.2.2).
#[inline(always)]
fn as_boolean(contents: &[u8]) -> Result<Leaf<'_>, LeafFault>
    ensures ok { IfOk result (λ l. ReadsContents Boolean contents.now l) }
    ensures err { IfErr result (λ e. IsRightFault e Boolean contents.now) }
{
    let Some((octet, following)) = contents.split_first() else {
        return Err(LeafFault::BadContents);
    };
    if following.len() > 0 {
        return Err(LeafFault::BadContents);
    }
    are_octets(contents);
    if *octet == 0 {
        Ok(Leaf::Bool(false))
    } else {
        Ok(Leaf::Bool(true))
    }
}

#[inline(always)]
fn as_integer(contents: &[u8]) -> Result<Leaf<'_>, LeafFault>
    ensures ok { IfOk result (λ l. ReadsContents Integer contents.now l) }
    ensures err { IfErr result (λ e. IsRightFault e Integer contents.now) }
{
    match read_number(contents) {
        Ok(number) => Ok(Leaf::Int(number)),
        Err(fault) => Err(fault),
    }
}

fn as_enumerated(contents: &[u8]) -> Result<Leaf<'_>, LeafFault>
    ensures ok { IfOk result (λ l. ReadsContents Enumerated contents.now l) }
    ensures err { IfErr result (λ e. IsRightFault e Enumerated contents.now) }
{
    match read_number(contents) {
        Ok(number) => Ok(Leaf::Enum(number)),
        Err(fault) => Err(fault),
    }
}

fn as_bits(contents: &[u8]) -> Result<Leaf<'_>, LeafFault>
    ensures ok { IfOk result (λ l. ReadsContents BitString contents.now l) }
    ensures err { IfErr result (λ e. IsRightFault e BitString contents.now) }
{
    match read_bits(contents) {
        Some((unused, octets)) => Ok(Leaf::Bits(unused, octets)),
        None => Err(LeafFault::BadContents),
    }
}

fn as_named_bits(contents: &[u8]) -> Result<Leaf<'_>, LeafFault>
    ensures ok { IfOk result (λ l. ReadsContents NamedBits contents.now l) }
    ensures err { IfErr result (λ e. IsRightFault e NamedBits contents.now) }
{
    match read_bits(contents) {
        Some((unused, octets)) => Ok(Leaf::Bits(unused, octets)),
        None => Err(LeafFault::BadContents),
    }
}

fn as_octets(contents: &[u8]) -> Result<Leaf<'_>, LeafFault>
    ensures ok { IfOk result (λ l. ReadsContents OctetString contents.now l) }
    ensures err { IfErr result (λ e. IsRightFault e OctetString contents.now) }
{
    are_octets(contents);
    Ok(Leaf::Octets(contents))
}

fn as_null(contents: &[u8]) -> Result<Leaf<'_>, LeafFault>
    ensures ok { IfOk result (λ l. ReadsContents Null contents.now l) }
    ensures err { IfErr result (λ e. IsRightFault e Null contents.now) }
{
    if contents.len() == 0 {
        Ok(Leaf::Null)
    } else {
        Err(LeafFault::BadContents)
    }
}

fn as_object_identifier(contents: &[u8]) -> Result<Leaf<'_>, LeafFault>
    ensures ok { IfOk result (λ l. ReadsContents ObjectIdentifier contents.now l) }
    ensures err { IfErr result (λ e. IsRightFault e ObjectIdentifier contents.now) }
{
    match judge_object_identifier(contents) {
        Ok(()) => Ok(Leaf::Oid(contents)),
        Err(fault) => Err(fault),
    }
}

fn as_relative_oid(contents: &[u8]) -> Result<Leaf<'_>, LeafFault>
    ensures ok { IfOk result (λ l. ReadsContents RelativeOid contents.now l) }
    ensures err { IfErr result (λ e. IsRightFault e RelativeOid contents.now) }
{
    match judge_relative_oid(contents) {
        Ok(()) => Ok(Leaf::RelativeOid(contents)),
        Err(fault) => Err(fault),
    }
}

fn as_utf8(contents: &[u8]) -> Result<Leaf<'_>, LeafFault>
    ensures ok { IfOk result (λ l. ReadsContents Utf8String contents.now l) }
    ensures err { IfErr result (λ e. IsRightFault e Utf8String contents.now) }
{
    are_octets(contents);
    match read_utf8(contents) {
        Some(text) => Ok(Leaf::Text(text)),
        None => Err(LeafFault::BadContents),
    }
}

fn as_restricted(kind: StringKind, contents: &[u8]) -> Result<Leaf<'_>, LeafFault>
    ensures ok { IfOk result (λ l. ReadsContents (RestrictedString kind) contents.now l) }
    ensures err { IfErr result (λ e. IsRightFault e (RestrictedString kind) contents.now) }
{
    are_octets(contents);
    match read_restricted(kind, contents) {
        Some(text) => Ok(Leaf::Text(text)),
        None => Err(LeafFault::BadContents),
    }
}
