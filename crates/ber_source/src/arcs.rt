//! The numbers of OBJECT IDENTIFIER and RELATIVE-OID (X.690, 8.19 and 8.20).

ghost use Rattle.asn_base.specs.Typed.{IsObjectIdentifier, IsRelativeOid};
ghost use Rattle.encodings.specs.Contents.{joined};
ghost use Rattle.encodings.specs.Header.{septets};
ghost use Rattle.std.specs.List.{AllByRecursion};
ghost use Rattle.std.specs.Prelude.{◌≡◌, ◌+◌, ◌*◌, ◌++◌, ◌^◌, ◌<◌, ◌≤◌, List, OnOk, flat_map, length, vec_capacity, vec_len, ℕ};

use primitive_reader::read_arc;
use std::alloc::AllocError;

/// How many numbers a new list has room for. Few messages have more in their object identifiers.
const FIRST_ARCS: usize = 128;

/// Makes room for one number more than there are octets, and for many if the list is new. `AllocError` only if an
/// allocation fails.
#[inline(always)]
fn make_room(arcs: &mut Vec<u64>, octets: &[u8]) -> Result<(), AllocError>
    ensures room { OnOk result (vec_len arcs.new + (length octets.now + 1) ≤ vec_capacity arcs.new) }
    ensures items { OnOk result (arcs.new.items ≡ arcs.old.items) }
{
    if arcs.capacity() == 0 {
        arcs.reserve(FIRST_ARCS)?;
    }
    arcs.reserve(octets.len() + 1)?;
    Ok(())
}

/// Appends numbers, each below 2^64, for which there is room. Those of one septet are their octets.
#[inline(always)]
fn push_arcs(arcs: &mut Vec<u64>, octets: &[u8])
    requires room { vec_len arcs.old + length octets.now ≤ vec_capacity arcs.old }
    requires numbers { (ns : List ℕ) × AllByRecursion (λ n. n < 2 ^ 64) ns × (octets.now ≡ flat_map septets ns) }
    ensures { (ns : List ℕ)
        → AllByRecursion (λ n. n < 2 ^ 64) ns
        → octets.now ≡ flat_map septets ns
        → arcs.new.items ≡ arcs.old.items ++ ns }
{
    let mut rest = octets;
    while let Some((first, following)) = rest.split_first() {
        if *first < 128 {
            arcs.push_reserved(*first as u64);
            rest = following;
        } else {
            match read_arc(rest) {
                Some((Some(number), others)) => {
                    arcs.push_reserved(number as u64);
                    rest = others;
                }
                Some((None, _)) => return,
                None => return,
            }
        }
    }
}

/// Appends the numbers of a RELATIVE-OID with these contents octets.
pub(crate) fn relative_arcs(arcs: &mut Vec<u64>, octets: &[u8]) -> Result<(), AllocError>
    requires { (ns : List ℕ) × IsRelativeOid ns × (octets.now ≡ flat_map septets ns) }
    ensures { (ns : List ℕ)
        → IsRelativeOid ns
        → octets.now ≡ flat_map septets ns
        → OnOk result (arcs.new.items ≡ arcs.old.items ++ ns) }
{
    make_room(arcs, octets)?;
    push_arcs(arcs, octets);
    Ok(())
}

/// Appends the numbers of an OBJECT IDENTIFIER with these contents octets, whose first two are one number there.
pub(crate) fn object_arcs(arcs: &mut Vec<u64>, octets: &[u8]) -> Result<(), AllocError>
    requires { (ns : List ℕ) × IsObjectIdentifier ns × (octets.now ≡ flat_map septets (joined ns)) }
    ensures { (ns : List ℕ)
        → IsObjectIdentifier ns
        → octets.now ≡ flat_map septets (joined ns)
        → OnOk result (arcs.new.items ≡ arcs.old.items ++ ns) }
{
    match read_arc(octets) {
        Some((Some(number), following)) => {
            let (first, second) = first_two_arcs(number);
            make_room(arcs, octets)?;
            arcs.push_reserved(first);
            arcs.push_reserved(second);
            push_arcs(arcs, following);
            Ok(())
        }
        Some((None, _)) => Ok(()),
        None => Ok(()),
    }
}

/// The two numbers that were joined into one (8.19.4).
#[inline(always)]
fn first_two_arcs(number: u128) -> (u64, u64)
    requires { number < 2 ^ 64 + 80 }
    ensures { (x y : ℕ)
        → x ≤ 2
        → (x < 2 → y < 40)
        → y < 2 ^ 64
        → number ≡ 40 * x + y
        → (result.0 ≡ x) × (result.1 ≡ y) }
{
    if number < 40 {
        return (0, number as u64);
    }
    if number < 80 {
        return (1, (number - 40) as u64);
    }
    (2, (number - 80) as u64)
}
