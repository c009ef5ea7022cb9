//! OBJECT IDENTIFIER and RELATIVE-OID (X.691, 24 and 25).

ghost use Rattle.asn_base.specs.Abstract.{oid, relative_oid};
ghost use Rattle.asn_base.specs.Typed.{IsObjectIdentifier, IsRelativeOid};
ghost use Rattle.bits.specs.Left.{bits_left};
ghost use Rattle.encodings.specs.Contents.{joined};
ghost use Rattle.encodings.specs.Header.{septets};
ghost use Rattle.packed_readings.specs.Code.{judge_oid, judge_relative};
ghost use Rattle.packed_readings.specs.Counts.{octets_from};
ghost use Rattle.packed_readings.specs.Outcome.{IsFault, bad, found, judging};
ghost use Rattle.std.specs.List.{AllByRecursion};
ghost use Rattle.std.specs.Prelude.{◌≡◌, ◌+◌, ◌*◌, ◌++◌, ◌^◌, ◌<◌, ◌≤◌, IfErr, IfOk, List, OnOk, flat_map, ℕ};

use crate::character::are_octets;
use crate::refusal::PackedFault;
use crate::strings::read_octets;
use bits::cursor::Bits;
use decode_faults::Refusal;
use encodings::LeafKind;
use primitive_reader::{LeafFault, read_arc, read_leaf};
use std::alloc::{AllocError, Global};

/// Adds numbers, each below 2^64.
fn push_arcs(arcs: &mut Vec<u64>, octets: &[u8]) -> Result<(), AllocError>
    requires { (ns : List ℕ) × AllByRecursion (λ n. n < 2 ^ 64) ns × (octets.now ≡ flat_map septets ns) }
    ensures { (ns : List ℕ)
        → AllByRecursion (λ n. n < 2 ^ 64) ns
        → octets.now ≡ flat_map septets ns
        → OnOk result (arcs.new.items ≡ arcs.old.items ++ ns) }
{
    let mut rest = octets;
    while !rest.is_empty() {
        match read_arc(rest) {
            Some((Some(number), following)) => {
                arcs.push(number as u64)?;
                rest = following;
            }
            Some((None, _)) => return Ok(()),
            None => return Ok(()),
        }
    }
    Ok(())
}

/// The numbers of a RELATIVE-OID with these contents octets.
fn relative_arcs(alloc: Global, octets: &[u8]) -> Result<Vec<u64>, AllocError>
    requires { (ns : List ℕ) × IsRelativeOid ns × (octets.now ≡ flat_map septets ns) }
    ensures { (ns : List ℕ)
        → IsRelativeOid ns
        → octets.now ≡ flat_map septets ns
        → IfOk result (λ v. v.items ≡ ns) }
{
    let mut arcs = Vec::new(alloc);
    push_arcs(&mut arcs, octets)?;
    Ok(arcs)
}

/// The numbers of an OBJECT IDENTIFIER with these contents octets, which encode the first two numbers as one.
fn object_arcs(alloc: Global, octets: &[u8]) -> Result<Vec<u64>, AllocError>
    requires { (ns : List ℕ) × IsObjectIdentifier ns × (octets.now ≡ flat_map septets (joined ns)) }
    ensures { (ns : List ℕ)
        → IsObjectIdentifier ns
        → octets.now ≡ flat_map septets (joined ns)
        → IfOk result (λ v. v.items ≡ ns) }
{
    let mut arcs = Vec::new(alloc);
    match read_arc(octets) {
        Some((Some(number), following)) => {
            let (first, second) = parted(number);
            arcs.push(first)?;
            arcs.push(second)?;
            push_arcs(&mut arcs, following)?;
            Ok(arcs)
        }
        Some((None, _)) => Ok(arcs),
        None => Ok(arcs),
    }
}

/// The two numbers that one encodes (8.19.4).
fn parted(number: u128) -> (u64, u64)
    requires { number < 2 ^ 64 + 80 }
    ensures { (x y : ℕ)
        → x ≤ 2
        → (x < 2 → y < 40)
        → y < 2 ^ 64
        → number ≡ 40 * x + y
        → (result.0 ≡ x) × (result.1 ≡ y) }
{
    if number < 40 {
        return (0, number as u64);
    }
    if number < 80 {
        return (1, (number - 40) as u64);
    }
    (2, (number - 80) as u64)
}

/// Checks that octets are those of an OBJECT IDENTIFIER.
#[tactic(auto, using(crate::proofs::Septets::oid_there, crate::proofs::Septets::oid_outside, crate::proofs::Septets::oid_limit, crate::proofs::Septets::oid_never))]
fn judge_object_identifier(octets: &[u8]) -> Result<(), Refusal>
    ensures ok { OnOk result ((ns : List ℕ) × IsObjectIdentifier ns × (octets.now ≡ flat_map septets (joined ns))) }
    ensures err { IfErr result (λ e. judge_oid octets.now ≡ bad e) }
{
    are_octets(octets);
    match read_leaf(LeafKind::ObjectIdentifier, octets) {
        Ok(_) => Ok(()),
        Err(LeafFault::BadContents) => Err(Refusal::Outside),
        Err(LeafFault::OidLimit) => Err(Refusal::OidLimit),
        Err(LeafFault::IntegerLimit) => Err(Refusal::OidLimit),
    }
}

/// Checks that octets are those of a RELATIVE-OID.
#[tactic(auto, using(crate::proofs::Septets::relative_there, crate::proofs::Septets::relative_outside, crate::proofs::Septets::relative_limit, crate::proofs::Septets::relative_never))]
fn judge_relative_oid(octets: &[u8]) -> Result<(), Refusal>
    ensures ok { OnOk result ((ns : List ℕ) × IsRelativeOid ns × (octets.now ≡ flat_map septets ns)) }
    ensures err { IfErr result (λ e. judge_relative octets.now ≡ bad e) }
{
    are_octets(octets);
    match read_leaf(LeafKind::RelativeOid, octets) {
        Ok(_) => Ok(()),
        Err(LeafFault::BadContents) => Err(Refusal::Outside),
        Err(LeafFault::OidLimit) => Err(Refusal::OidLimit),
        Err(LeafFault::IntegerLimit) => Err(Refusal::OidLimit),
    }
}

/// Takes an OBJECT IDENTIFIER (X.691, 24), and returns its numbers.
///
/// `Outside`: the octets are no numbers. `OidLimit`: there are more than 64 numbers, or one is 2^64 or greater, or the
/// one that encodes the first two is 2^64 + 80 or greater. Further faults are those of `read_octets`. The cursor is
/// then at the place of the fault. `Memory`: there is not enough memory; the cursor may have moved on.
pub fn read_object_identifier(alloc: Global, bits: &mut Bits<'_>) -> Result<Vec<u64>, PackedFault>
    ensures ok { IfOk result
        (λ v. judging judge_oid octets_from (bits_left bits.old) ≡ found (oid v.items) (bits_left bits.new)) }
    ensures err { IfErr result
        (λ e. IsFault (judging judge_oid octets_from (bits_left bits.old)) e (bits_left bits.new)) }
{
    let start = *bits;
    let octets = match read_octets(alloc, bits) {
        Ok(octets) => octets,
        Err(fault) => return Err(fault),
    };
    match judge_object_identifier(octets.as_slice()) {
        Ok(()) => {}
        Err(refusal) => {
            *bits = start;
            return Err(PackedFault::Refused(refusal));
        }
    }
    match object_arcs(alloc, octets.as_slice()) {
        Ok(numbers) => Ok(numbers),
        Err(_) => Err(PackedFault::Memory),
    }
}

/// Takes a RELATIVE-OID (X.691, 25), and returns its numbers. The faults are those of `read_object_identifier`.
pub fn read_relative_oid(alloc: Global, bits: &mut Bits<'_>) -> Result<Vec<u64>, PackedFault>
    ensures ok { IfOk result
        (λ v. judging judge_relative octets_from (bits_left bits.old)
        ≡ found (relative_oid v.items) (bits_left bits.new)) }
    ensures err { IfErr result
        (λ e. IsFault (judging judge_relative octets_from (bits_left bits.old)) e (bits_left bits.new)) }
{
    let start = *bits;
    let octets = match read_octets(alloc, bits) {
        Ok(octets) => octets,
        Err(fault) => return Err(fault),
    };
    match judge_relative_oid(octets.as_slice()) {
        Ok(()) => {}
        Err(refusal) => {
            *bits = start;
            return Err(PackedFault::Refused(refusal));
        }
    }
    match relative_arcs(alloc, octets.as_slice()) {
        Ok(numbers) => Ok(numbers),
        Err(_) => Err(PackedFault::Memory),
    }
}
