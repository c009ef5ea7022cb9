//! Octets and characters after their number (X.691, 11.9).

ghost use Rattle.asn_base.specs.Schemas.{AreBounds, IsSize};
ghost use Rattle.asn_base.specs.Seen.{constraint_of};
ghost use Rattle.bits.specs.Left.{bits_left};
ghost use Rattle.packed_readings.specs.Code.{Gained, IsFew, IsStep, several_of, test_of};
ghost use Rattle.packed_readings.specs.Counts.{count_from, counted_from, octets_from, parts_from, several_octets, sized_from, total as total_of};
ghost use Rattle.packed_readings.specs.Outcome.{IsFault, bad, found, good, judging, outcome};
ghost use Rattle.std.specs.Prelude.{◌≡◌, ◌≤◌, ◌^◌, ◌<◌, ℕ, suc, IfErr, IfOk, OnOk};

use crate::character::{are_octets, read_characters};
use crate::count::{Count, read_count};
use crate::refusal::PackedFault;
use crate::size::{Sizing, read_size, size_fault};
use asn_base::constraint::Constraint;
use bits::cursor::Bits;
use decode_faults::Refusal;
use std::alloc::Global;

/// Items that are octets, or characters of an alphabet.
#[derive(Clone, Copy)]
pub(crate) enum Form<'a> {
    Octets,
    Characters(&'a [u8]),
}

/// Takes `count` octets.
fn read_block(count: usize, bits: &mut Bits<'_>, out: &mut Vec<u8>) -> Result<(), PackedFault>
    ensures ok { OnOk result
        (Gained (several_octets count (bits_left bits.old)) out.old.items out.new.items (bits_left bits.new)) }
    ensures err { IfErr result (λ e. IsFault (several_octets count (bits_left bits.old)) e (bits_left bits.new)) }
{
    if bits.len() / 8 < count {
        return Err(PackedFault::Refused(Refusal::Truncated));
    }
    match bits.take_octets(count, out) {
        Ok(()) => {
            are_octets(out.as_slice());
            Ok(())
        }
        Err(_) => Err(PackedFault::Memory),
    }
}

/// Takes `count` items.
fn read_items(
    form: &Form<'_>,
    count: usize,
    bits: &mut Bits<'_>,
    out: &mut Vec<u8>,
) -> Result<(), PackedFault>
    ensures ok { OnOk result
        (Gained (several_of form.now count (bits_left bits.old)) out.old.items out.new.items (bits_left bits.new)) }
    ensures err { IfErr result (λ e. IsFault (several_of form.now count (bits_left bits.old)) e (bits_left bits.new)) }
{
    match form {
        Form::Octets => read_block(count, bits, out),
        Form::Characters(alphabet) => read_characters(alphabet, count, bits, out),
    }
}

/// The test that the number of all items must pass. `Any`: every number passes. `Sized`: SIZE must allow the number;
/// the truth value says whether it is given as one outside the root.
#[derive(Clone, Copy)]
pub(crate) enum Total<'a> {
    Any,
    Sized(&'a Constraint, bool),
}

/// What follows the items of one number: nothing, or the items of a further number. `More` is true if that number may
/// be a part.
#[derive(Clone, Copy)]
enum Next {
    Nothing,
    More(bool),
}

/// Why `count` items are refused, or None.
fn total_fault(total: &Total<'_>, count: u128) -> Option<Refusal>
    requires { count < 2 ^ 127 }
    ensures { result ≡ test_of total.now count }
{
    match total {
        Total::Any => None,
        Total::Sized(constraint, outside) => size_fault(constraint, *outside, count),
    }
}

/// Takes the number of the next items, after `before` items.
pub(crate) fn read_total(
    total: &Total<'_>,
    before: u128,
    full: bool,
    bits: &mut Bits<'_>,
) -> Result<Count, Refusal>
    requires { before ≤ 2 ^ 100 }
    ensures few { IfOk result IsFew }
    ensures is { judging (total_of (test_of total.now) before) (count_from full) (bits_left bits.old)
        ≡ outcome result (bits_left bits.new) }
{
    let start = *bits;
    let count = match read_count(bits, full) {
        Ok(count) => count,
        Err(refusal) => return Err(refusal),
    };
    match judged(total, before, count) {
        Ok(count) => Ok(count),
        Err(refusal) => {
            *bits = start;
            Err(refusal)
        }
    }
}

/// The number, if that of all items passes the test.
fn judged(total: &Total<'_>, before: u128, count: Count) -> Result<Count, Refusal>
    requires before { before ≤ 2 ^ 100 }
    requires few { IsFew count }
    ensures few { IfOk result IsFew }
    ensures ok { IfOk result (λ c. total_of (test_of total.now) before count ≡ good c) }
    ensures err { IfErr result (λ e. total_of (test_of total.now) before count ≡ bad e) }
{
    match count {
        Count::Part(times) => Ok(Count::Part(times)),
        Count::Last(last) => match total_fault(total, before + last as u128) {
            Some(refusal) => Err(refusal),
            None => Ok(Count::Last(last)),
        },
    }
}

/// Takes the items of one number.
fn read_part(
    total: &Total<'_>,
    form: &Form<'_>,
    full: bool,
    bits: &mut Bits<'_>,
    out: &mut Vec<u8>,
) -> Result<Next, PackedFault>
    ensures ok { IfOk result
        (λ n. IsStep (test_of total.now) (several_of form.now) full
        out.old.items out.new.items n (bits_left bits.old) (bits_left bits.new)) }
    ensures err { IfErr result
        (λ e. (k : ℕ) → IsFault (parts_from (suc k) (test_of total.now) (several_of form.now) full
        out.old.items (bits_left bits.old)) e (bits_left bits.new)) }
{
    let before = out.as_slice().len() as u128;
    match read_total(total, before, full, bits) {
        Ok(Count::Last(count)) => match read_items(form, count, bits, out) {
            Ok(()) => Ok(Next::Nothing),
            Err(fault) => Err(fault),
        },
        Ok(Count::Part(times)) => match read_items(form, 16384 * times, bits, out) {
            Ok(()) => Ok(Next::More(times == 4)),
            Err(fault) => Err(fault),
        },
        Err(refusal) => Err(PackedFault::Refused(refusal)),
    }
}

/// Takes items after their number.
pub(crate) fn read_counted(
    alloc: Global,
    total: &Total<'_>,
    form: &Form<'_>,
    bits: &mut Bits<'_>,
) -> Result<Vec<u8>, PackedFault>
    ensures ok { IfOk result
        (λ v. counted_from (test_of total.now) (several_of form.now) (bits_left bits.old)
        ≡ found v.items (bits_left bits.new)) }
    ensures err { IfErr result
        (λ e. IsFault (counted_from (test_of total.now) (several_of form.now) (bits_left bits.old))
        e (bits_left bits.new)) }
{
    let mut out = Vec::new(alloc);
    let mut full = true;
    let mut more = true;
    while more {
        match read_part(total, form, full, bits, &mut out) {
            Ok(Next::Nothing) => more = false,
            Ok(Next::More(next)) => full = next,
            Err(fault) => return Err(fault),
        }
    }
    Ok(out)
}

/// Takes items whose number SIZE bounds.
pub(crate) fn read_sized(
    alloc: Global,
    constraint: &Constraint,
    form: &Form<'_>,
    bits: &mut Bits<'_>,
) -> Result<Vec<u8>, PackedFault>
    requires { AreBounds IsSize (constraint_of constraint.now) }
    ensures ok { IfOk result
        (λ v. sized_from (constraint_of constraint.now) (several_of form.now) (bits_left bits.old)
        ≡ found v.items (bits_left bits.new)) }
    ensures err { IfErr result
        (λ e. IsFault (sized_from (constraint_of constraint.now) (several_of form.now)
        (bits_left bits.old)) e (bits_left bits.new)) }
{
    match read_size(constraint, bits) {
        Ok(Sizing::AtOnce(count)) => {
            let mut out = Vec::new(alloc);
            match read_items(form, count, bits, &mut out) {
                Ok(()) => Ok(out),
                Err(fault) => Err(fault),
            }
        }
        Ok(Sizing::Counted(outside)) => {
            let total = Total::Sized(constraint, outside);
            read_counted(alloc, &total, form, bits)
        }
        Err(refusal) => Err(PackedFault::Refused(refusal)),
    }
}

/// Takes octets after their number (X.691, 11.9), such as those of an open type. Memory grows by as many octets as are
/// there.
///
/// The faults are those of `read_count`, and `Truncated` if there are fewer octets than the number promises. The cursor
/// is then at the place of the fault. `Memory`: there is not enough memory; the cursor may have moved on.
pub fn read_octets(alloc: Global, bits: &mut Bits<'_>) -> Result<Vec<u8>, PackedFault>
    ensures ok { IfOk result (λ v. octets_from (bits_left bits.old) ≡ found v.items (bits_left bits.new)) }
    ensures err { IfErr result (λ e. IsFault (octets_from (bits_left bits.old)) e (bits_left bits.new)) }
{
    read_counted(alloc, &Total::Any, &Form::Octets, bits)
}

/// Takes an OCTET STRING of as many octets as SIZE bounds (X.691, 17). The faults are those of `read_octets`,
/// `read_size` and `size_fault`.
pub fn read_octet_string(
    alloc: Global,
    constraint: &Constraint,
    bits: &mut Bits<'_>,
) -> Result<Vec<u8>, PackedFault>
    requires { AreBounds IsSize (constraint_of constraint.now) }
    ensures ok { IfOk result
        (λ v. sized_from (constraint_of constraint.now) several_octets (bits_left bits.old)
        ≡ found v.items (bits_left bits.new)) }
    ensures err { IfErr result
        (λ e. IsFault (sized_from (constraint_of constraint.now) several_octets (bits_left bits.old))
        e (bits_left bits.new)) }
{
    read_sized(alloc, constraint, &Form::Octets, bits)
}
