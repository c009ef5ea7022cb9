//! Whole numbers in the form that their constraint gives them (X.691, 13).

ghost use Rattle.asn_base.specs.Abstract.{integer};
ghost use Rattle.asn_base.specs.Seen.{constraint_of};
ghost use Rattle.bits.specs.Left.{bits_left};
ghost use Rattle.packed_encodings.specs.Lengths.{fewest_bits};
ghost use Rattle.packed_readings.specs.Code.{above_judge, judge_stated, outside_judge, root_judge};
ghost use Rattle.packed_readings.specs.Counts.{octets_from};
ghost use Rattle.packed_readings.specs.Leaves.{integer_from, is_within_limit, number_between, other_number, root_integer_from, root_number};
ghost use Rattle.packed_readings.specs.Outcome.{IsFault, bad, field_from, found, good, judging, outcome_by};
ghost use Rattle.std.specs.Prelude.{◌≡◌, ◌≤◌, ◌+ℤ◌, ◌-ℤ◌, nat_abs, pos, true, IfErr, IfOk};

use crate::field::{read_bit, read_wide};
use crate::number::{signed, unsigned};
use crate::range::{is_allowed, is_in_root};
use crate::refusal::PackedFault;
use crate::strings::read_octets;
use asn_base::constraint::Constraint;
use asn_base::law::lemma_integer_within_limit;
use bits::cursor::Bits;
use decode_faults::Refusal;
use packed_code::fewest;
use std::alloc::Global;

/// How octets encode a number: by its distance above this least one, as a number of the root, or as one outside it.
#[derive(Clone, Copy)]
pub(crate) enum Stated {
    Above(i128),
    Root,
    Outside,
}

/// The number is within the limit.
#[tactic(auto, using(crate::proofs::Shortest::limit_true))]
#[inline(always)]
fn within_limit(number: i128)
    ensures { is_within_limit number ≡ true }
{
    lemma_integer_within_limit(number);
}

/// The number, if it is one of the root and is allowed.
#[inline(always)]
fn in_root(constraint: &Constraint, number: i128) -> Result<i128, Refusal>
    ensures ok { IfOk result (λ z. root_number (constraint_of constraint.now) number ≡ good (integer z)) }
    ensures err { IfErr result (λ e. root_number (constraint_of constraint.now) number ≡ bad e) }
{
    within_limit(number);
    if !is_in_root(&constraint.visible, number) {
        return Err(Refusal::Outside);
    }
    if is_allowed(constraint, number) {
        return Ok(number);
    }
    Err(Refusal::Outside)
}

/// The number, if it is outside the root and is allowed.
fn outside_root(constraint: &Constraint, number: i128) -> Result<i128, Refusal>
    ensures ok { IfOk result (λ z. other_number (constraint_of constraint.now) number ≡ good (integer z)) }
    ensures err { IfErr result (λ e. other_number (constraint_of constraint.now) number ≡ bad e) }
{
    within_limit(number);
    if is_in_root(&constraint.visible, number) {
        return Err(Refusal::NotCanonical);
    }
    if is_allowed(constraint, number) {
        return Ok(number);
    }
    Err(Refusal::Outside)
}

/// The number that is `over` above the least one.
#[tactic(auto, using(crate::proofs::Judging::sum_past))]
#[inline(always)]
fn above(constraint: &Constraint, least: i128, over: u128) -> Result<i128, Refusal>
    ensures ok { IfOk result (λ z. root_number (constraint_of constraint.now) (least +ℤ pos over) ≡ good (integer z)) }
    ensures err { IfErr result (λ e. root_number (constraint_of constraint.now) (least +ℤ pos over) ≡ bad e) }
{
    match least.checked_add_unsigned(over) {
        Some(number) => in_root(constraint, number),
        None => Err(Refusal::IntegerLimit),
    }
}

/// The number that octets encode as one of the root.
#[tactic(auto, using(crate::proofs::Judging::root_read, crate::proofs::Judging::root_refused, crate::proofs::Judging::root_none))]
fn judge_root(constraint: &Constraint, octets: &[u8]) -> Result<i128, Refusal>
    ensures ok { IfOk result (λ z. root_judge (constraint_of constraint.now) octets.now ≡ good (integer z)) }
    ensures err { IfErr result (λ e. root_judge (constraint_of constraint.now) octets.now ≡ bad e) }
{
    match signed(octets) {
        Ok(number) => in_root(constraint, number),
        Err(refusal) => Err(refusal),
    }
}

/// The number that octets encode as one outside the root.
#[tactic(auto, using(crate::proofs::Judging::other_read, crate::proofs::Judging::other_refused, crate::proofs::Judging::other_none))]
fn judge_outside(constraint: &Constraint, octets: &[u8]) -> Result<i128, Refusal>
    ensures ok { IfOk result (λ z. outside_judge (constraint_of constraint.now) octets.now ≡ good (integer z)) }
    ensures err { IfErr result (λ e. outside_judge (constraint_of constraint.now) octets.now ≡ bad e) }
{
    match signed(octets) {
        Ok(number) => outside_root(constraint, number),
        Err(refusal) => Err(refusal),
    }
}

/// The number that octets encode by its distance above the least one.
#[tactic(auto, using(crate::proofs::Judging::above_read, crate::proofs::Judging::above_past, crate::proofs::Judging::above_none))]
fn judge_above(constraint: &Constraint, least: i128, octets: &[u8]) -> Result<i128, Refusal>
    ensures ok { IfOk result (λ z. above_judge (constraint_of constraint.now) least octets.now ≡ good (integer z)) }
    ensures err { IfErr result (λ e. above_judge (constraint_of constraint.now) least octets.now ≡ bad e) }
{
    match unsigned(octets) {
        Ok(Some(over)) => above(constraint, least, over),
        Ok(None) => Err(Refusal::IntegerLimit),
        Err(refusal) => Err(refusal),
    }
}

/// The number that octets encode in the way that `stated` gives.
fn judge(stated: Stated, constraint: &Constraint, octets: &[u8]) -> Result<i128, Refusal>
    ensures ok { IfOk result (λ z. judge_stated stated (constraint_of constraint.now) octets.now ≡ good (integer z)) }
    ensures err { IfErr result (λ e. judge_stated stated (constraint_of constraint.now) octets.now ≡ bad e) }
{
    match stated {
        Stated::Above(least) => judge_above(constraint, least, octets),
        Stated::Root => judge_root(constraint, octets),
        Stated::Outside => judge_outside(constraint, octets),
    }
}

/// Takes octets, after their number, that encode a number in the way that `stated` gives.
#[inline(never)]
fn read_stated(
    alloc: Global,
    stated: Stated,
    constraint: &Constraint,
    bits: &mut Bits<'_>,
) -> Result<i128, PackedFault>
    ensures ok { IfOk result
        (λ z. judging (judge_stated stated (constraint_of constraint.now)) octets_from (bits_left bits.old)
        ≡ found (integer z) (bits_left bits.new)) }
    ensures err { IfErr result
        (λ e. IsFault (judging (judge_stated stated (constraint_of constraint.now)) octets_from
        (bits_left bits.old)) e (bits_left bits.new)) }
{
    let start = *bits;
    let octets = match read_octets(alloc, bits) {
        Ok(octets) => octets,
        Err(fault) => return Err(fault),
    };
    match judge(stated, constraint, octets.as_slice()) {
        Ok(number) => Ok(number),
        Err(refusal) => {
            *bits = start;
            Err(PackedFault::Refused(refusal))
        }
    }
}

/// Takes a number between two numbers.
#[inline(always)]
fn read_between(
    constraint: &Constraint,
    least: i128,
    greatest: i128,
    bits: &mut Bits<'_>,
) -> Result<i128, Refusal>
    ensures { judging (number_between (constraint_of constraint.now) least (nat_abs (greatest -ℤ least)))
        (field_from (fewest_bits (nat_abs (greatest -ℤ least)))) (bits_left bits.old)
        ≡ outcome_by integer result (bits_left bits.new) }
{
    let start = *bits;
    let span = greatest.abs_diff(least);
    let width = fewest(span);
    let over = match read_wide(bits, width) {
        Ok(over) => over,
        Err(truncated) => return Err(truncated),
    };
    match between(constraint, least, span, over) {
        Ok(number) => Ok(number),
        Err(refusal) => {
            *bits = start;
            Err(refusal)
        }
    }
}

/// The number that is `over` above the least one, if `over` is at most `span`.
#[inline(always)]
fn between(constraint: &Constraint, least: i128, span: u128, over: u128) -> Result<i128, Refusal>
    ensures ok { IfOk result (λ z. number_between (constraint_of constraint.now) least span over ≡ good (integer z)) }
    ensures err { IfErr result (λ e. number_between (constraint_of constraint.now) least span over ≡ bad e) }
{
    if span < over {
        return Err(Refusal::Outside);
    }
    above(constraint, least, over)
}

/// Takes a number of the root.
#[inline(always)]
fn read_root_integer(
    alloc: Global,
    constraint: &Constraint,
    bits: &mut Bits<'_>,
) -> Result<i128, PackedFault>
    ensures ok { IfOk result
        (λ z. root_integer_from (constraint_of constraint.now)
        constraint.now.visible.least constraint.now.visible.greatest
        (bits_left bits.old) ≡ found (integer z) (bits_left bits.new)) }
    ensures err { IfErr result
        (λ e. IsFault (root_integer_from (constraint_of constraint.now)
        constraint.now.visible.least constraint.now.visible.greatest (bits_left bits.old)) e (bits_left bits.new)) }
{
    let Some(least) = constraint.visible.least else {
        return read_stated(alloc, Stated::Root, constraint, bits);
    };
    let Some(greatest) = constraint.visible.greatest else {
        return read_stated(alloc, Stated::Above(least), constraint, bits);
    };
    match read_between(constraint, least, greatest, bits) {
        Ok(number) => Ok(number),
        Err(refusal) => Err(PackedFault::Refused(refusal)),
    }
}

/// Takes an INTEGER in the form that its constraint gives it (X.691, 13).
///
/// `NotCanonical`: more octets than needed, or a number of the root that is given as one outside. `Outside`: the
/// constraint doesn't allow the number, or there are no octets. `IntegerLimit`: the number is outside the range from
/// -2^127 to 2^127 - 1. Further faults are those of `read_octets`. The cursor is then at the place of the fault.
/// `Memory`: there is not enough memory; the cursor may have moved on.
#[inline(always)]
pub fn read_integer(
    alloc: Global,
    constraint: &Constraint,
    bits: &mut Bits<'_>,
) -> Result<i128, PackedFault>
    ensures ok { IfOk result
        (λ z. integer_from (constraint_of constraint.now) (bits_left bits.old)
        ≡ found (integer z) (bits_left bits.new)) }
    ensures err { IfErr result
        (λ e. IsFault (integer_from (constraint_of constraint.now) (bits_left bits.old)) e (bits_left bits.new)) }
{
    if !constraint.visible.extensible {
        return read_root_integer(alloc, constraint, bits);
    }
    match read_bit(bits) {
        Ok(true) => read_stated(alloc, Stated::Outside, constraint, bits),
        Ok(false) => read_root_integer(alloc, constraint, bits),
        Err(truncated) => Err(PackedFault::Refused(truncated)),
    }
}
