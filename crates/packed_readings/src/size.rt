//! Numbers of items in the form that SIZE gives them (X.691, 11.9.4, 16.6, 17.3 and 20.4).

ghost use Rattle.asn_base.specs.Schemas.{AreBounds, IsSize};
ghost use Rattle.asn_base.specs.Seen.{constraint_of};
ghost use Rattle.bits.specs.Left.{bits_left};
ghost use Rattle.packed_encodings.specs.Lengths.{fewest_bits};
ghost use Rattle.packed_readings.specs.Counts.{root_size, size_fault, size_from, size_of};
ghost use Rattle.packed_readings.specs.Outcome.{good, bad, judging, field_from, outcome};
ghost use Rattle.std.specs.Prelude.{◌≡◌, ◌-◌, ◌^◌, ◌<◌, ◌≤◌, IfErr, IfOk, Option, Some, pos};

use crate::field::{read_bit, read_field};
use crate::range::{is_allowed, is_in_root};
use asn_base::constraint::Constraint;
use bits::cursor::Bits;
use decode_faults::Refusal;
use packed_code::fewest;

/// How items follow their size: this many come at once; or they come after their number, and the truth value says
/// whether that number is outside the root of SIZE.
#[derive(Clone, Copy, Debug, PartialEq, Eq)]
pub enum Sizing {
    AtOnce(usize),
    Counted(bool),
}

/// Why `count` items are refused that are given as a number outside the root of SIZE, or as one of it; None if they
/// aren't refused. `NotCanonical`: the number is one of the root, and is given as outside. `Outside`: SIZE doesn't
/// allow it, or it is outside the root, and is given as one of it.
pub fn size_fault(constraint: &Constraint, outside: bool, count: u128) -> Option<Refusal>
    requires { count < 2 ^ 127 }
    ensures { result ≡ size_fault (constraint_of constraint.now) outside count }
{
    let size = as_signed(count);
    let allowed = is_allowed(constraint, size);
    if is_in_root(&constraint.visible, size) {
        if outside {
            return Some(Refusal::NotCanonical);
        }
        if allowed {
            return None;
        }
        return Some(Refusal::Outside);
    }
    if !outside {
        return Some(Refusal::Outside);
    }
    if allowed {
        return None;
    }
    Some(Refusal::Outside)
}

/// A number of items as a signed number.
pub(crate) fn as_signed(count: u128) -> i128
    requires { count < 2 ^ 127 }
    ensures { result ≡ pos count }
{
    count as i128
}

/// The size that is `over` above the least one, if `over` is at most `above`.
fn size_over(
    constraint: &Constraint,
    least: usize,
    above: usize,
    over: usize,
) -> Result<Sizing, Refusal>
    requires few { least < 65536 }
    requires some { above < 65536 }
    ensures ok { IfOk result (λ z. size_of (constraint_of constraint.now) least above over ≡ good z) }
    ensures err { IfErr result (λ e. size_of (constraint_of constraint.now) least above over ≡ bad e) }
{
    if above < over {
        return Err(Refusal::Outside);
    }
    let size = least + over;
    if is_allowed(constraint, as_signed(size as u128)) {
        Ok(Sizing::AtOnce(size))
    } else {
        Err(Refusal::Outside)
    }
}

/// Takes a number of items from `least` to `greatest`.
#[tactic(auto, using(crate::proofs::Widths::narrow))]
fn read_narrow(
    constraint: &Constraint,
    least: usize,
    greatest: usize,
    bits: &mut Bits<'_>,
) -> Result<Sizing, Refusal>
    requires order { least ≤ greatest }
    requires few { greatest < 65536 }
    ensures { judging (size_of (constraint_of constraint.now) least (greatest - least))
        (field_from (fewest_bits (greatest - least))) (bits_left bits.old)
        ≡ outcome result (bits_left bits.new) }
{
    let start = *bits;
    let above = greatest - least;
    let width = fewest(above as u128);
    let over = match read_field(bits, width) {
        Ok(over) => over as usize,
        Err(truncated) => return Err(truncated),
    };
    match size_over(constraint, least, above, over) {
        Ok(sizing) => Ok(sizing),
        Err(refusal) => {
            *bits = start;
            Err(refusal)
        }
    }
}

/// Takes the size of items of the root of SIZE, as far as it comes before the items.
fn read_root_size(constraint: &Constraint, bits: &mut Bits<'_>) -> Result<Sizing, Refusal>
    requires { AreBounds IsSize (constraint_of constraint.now) }
    ensures { root_size (constraint_of constraint.now)
        constraint.now.visible.least constraint.now.visible.greatest (bits_left bits.old)
        ≡ outcome result (bits_left bits.new) }
{
    let Some(least) = constraint.visible.least else {
        return Ok(Sizing::Counted(false));
    };
    let Some(greatest) = constraint.visible.greatest else {
        return Ok(Sizing::Counted(false));
    };
    if least < 0 || greatest < least || greatest >= 65536 {
        return Ok(Sizing::Counted(false));
    }
    read_narrow(constraint, least as usize, greatest as usize, bits)
}

/// Takes the size of items, as far as it comes before the items. The constraint must be one that a schema can have.
///
/// `Outside`: SIZE doesn't allow the number that is sent. No bit of it is taken then. `Truncated`: the bits end before.
pub fn read_size(constraint: &Constraint, bits: &mut Bits<'_>) -> Result<Sizing, Refusal>
    requires { AreBounds IsSize (constraint_of constraint.now) }
    ensures { size_from (constraint_of constraint.now) (bits_left bits.old) ≡ outcome result (bits_left bits.new) }
{
    if !constraint.visible.extensible {
        return read_root_size(constraint, bits);
    }
    match read_bit(bits) {
        Ok(true) => Ok(Sizing::Counted(true)),
        Ok(false) => read_root_size(constraint, bits),
        Err(truncated) => Err(truncated),
    }
}
