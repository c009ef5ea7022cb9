//! INTEGER (X.691, 11.3 to 11.8 and 13).

ghost use Rattle.asn_base.specs.Abstract.{abstract, integer};
ghost use Rattle.asn_base.specs.Schemas.{AreBounds, IsNumber};
ghost use Rattle.asn_base.specs.Seen.{bounds_of, constraint_of};
ghost use Rattle.asn_base.specs.Typed.{IsPrimitive};
ghost use Rattle.asn_base.specs.Types.{an_integer};
ghost use Rattle.encodings.specs.declared.leaf_kind.LeafKind.TheVariants.{Integer as Integer'};
ghost use Rattle.primitive_writer.specs.Held.{HasSome};
ghost use Rattle.packed_counts.specs.Counts.{Adds};
ghost use Rattle.packed_encodings.specs.Computed.{leaf_bits};
ghost use Rattle.packed_encodings.specs.Lengths.{IsInRootBounds};
ghost use Rattle.packed_encodings.specs.Numbers.{Integer, IntegerInRoot};
ghost use Rattle.packed_leaves.specs.proving.Contents.{AddsNumber, AddsUnsigned};
ghost use Rattle.std.specs.Prelude.{◌≡◌, ◌++◌, ◌↔◌, ◌≤ℤ◌, IfSome, IsTrue, OnOk, false};

use crate::octets::push_contents;
use crate::value;
use arrayvec::ArrayVec;
use asn_base::constraint::{Bounds, Constraint};
use asn_base::value::Value;
use bits::buffer::BitBuf;
use encodings::{LeafKind, leaf_laws};
use packed_code::{fewest, span};
use packed_counts::{push_counted_octets, push_number};
use packed_encodings::function_laws;
use primitive_writer::push_digits;
use std::alloc::{AllocError, Global};

/// Whether the number is one of the root.
fn is_in_root(bounds: &Bounds, number: i128) -> bool
    ensures { IsTrue result ↔ IsInRootBounds (bounds_of bounds.now) number }
{
    match bounds.least {
        Some(least) => least <= number && is_at_most(bounds, number),
        None => is_at_most(bounds, number),
    }
}

fn is_at_most(bounds: &Bounds, number: i128) -> bool
    ensures { IsTrue result ↔ IfSome bounds.now.greatest (λ g. number ≤ℤ g) }
{
    match bounds.greatest {
        Some(greatest) => number <= greatest,
        None => true,
    }
}

/// Adds the fewest octets for a number in two's complement, after the number of these octets (11.8).
fn push_signed(
    alloc: Global,
    out: &mut BitBuf,
    value: &Value,
    number: i128,
) -> Result<(), AllocError>
    requires is { abstract value.now ≡ integer number }
    requires some { HasSome Integer' (abstract value.now) }
    ensures { OnOk result (AddsNumber number out.old out.new) }
{
    push_contents(alloc, out, LeafKind::Integer, value)?;
    Ok(())
}

/// Adds the fewest octets for a number that isn't negative, after the number of these octets (11.7).
fn push_unsigned(out: &mut BitBuf, number: u128) -> Result<(), AllocError>
    ensures { OnOk result (AddsUnsigned number out.old out.new) }
{
    function_laws();
    if number == 0 {
        push_counted_octets(out, &[0])?;
        return Ok(());
    }
    let mut digits = ArrayVec::new();
    push_digits(&mut digits, number);
    push_counted_octets(out, digits.as_slice())?;
    Ok(())
}

/// Adds a number of the root (13.2).
fn push_in_root(
    alloc: Global,
    out: &mut BitBuf,
    bounds: &Bounds,
    value: &Value,
    number: i128,
) -> Result<(), AllocError>
    requires is { abstract value.now ≡ integer number }
    requires some { HasSome Integer' (abstract value.now) }
    requires inside { IsInRootBounds (bounds_of bounds.now) number }
    ensures { OnOk result (Adds (IntegerInRoot (bounds_of bounds.now) number) out.old out.new) }
{
    let Some(least) = bounds.least else {
        push_signed(alloc, out, value, number)?;
        return Ok(());
    };
    let over = span(least, number);
    match bounds.greatest {
        Some(greatest) => {
            push_number(out, over, fewest(span(least, greatest)))?;
            Ok(())
        }
        None => {
            push_unsigned(out, over)?;
            Ok(())
        }
    }
}

/// Adds a number by its bounds (13.1).
fn push_bounded(
    alloc: Global,
    out: &mut BitBuf,
    bounds: &Bounds,
    value: &Value,
    number: i128,
) -> Result<(), AllocError>
    requires is { abstract value.now ≡ integer number }
    requires some { HasSome Integer' (abstract value.now) }
    requires allowed { bounds.now.extensible ≡ false → IsInRootBounds (bounds_of bounds.now) number }
    ensures { OnOk result (Adds (Integer (bounds_of bounds.now) number) out.old out.new) }
{
    if !bounds.extensible {
        push_in_root(alloc, out, bounds, value, number)?;
        return Ok(());
    }
    if is_in_root(bounds, number) {
        out.push(false)?;
        push_in_root(alloc, out, bounds, value, number)?;
        Ok(())
    } else {
        out.push(true)?;
        push_signed(alloc, out, value, number)?;
        Ok(())
    }
}

/// Adds the number of an INTEGER (13).
pub(crate) fn push_integer(
    alloc: Global,
    out: &mut BitBuf,
    constraint: &Constraint,
    value: &Value,
) -> Result<(), AllocError>
    requires bounds { AreBounds IsNumber (constraint_of constraint.now) }
    requires fits { IsPrimitive (an_integer (constraint_of constraint.now)) (abstract value.now) }
    ensures { OnOk result (out.new ≡ out.old
        ++ leaf_bits (an_integer (constraint_of constraint.now)) (abstract value.now)) }
{
    function_laws();
    leaf_laws();
    let number = value::number(value);
    push_bounded(alloc, out, &constraint.visible, value, number)?;
    Ok(())
}
