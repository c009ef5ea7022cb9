//! The alternative of a CHOICE that bits select (X.691, 23).

ghost use Rattle.bits.specs.Left.{bits_left};
ghost use Rattle.packed_reader.specs.Code.{HaveWidth, call_or, chosen_of};
ghost use Rattle.packed_reader.specs.Steps.{added_call, call_from, or_refused, ranked_call, root_call};
ghost use Rattle.packed_readings.specs.Outcome.{judging, outcome_by, small_from};
ghost use Rattle.decode_faults.specs.declared.refusal.Refusal.TheVariants.{UnknownAlternative};
ghost use Rattle.std.specs.Prelude.{◌≡◌, ◌≤◌};

use asn_base::schema::TypeId;
use bits::cursor::Bits;
use decode_faults::Refusal;
use packed_code::PackedStep;
use packed_readings::{read_bit, read_field, read_small};

/// An alternative: its number among those of the root and then the additions, its type, and whether it is an open type.
#[derive(Clone, Copy, PartialEq, Eq, Debug)]
pub struct Call {
    pub number: usize,
    pub ty: TypeId,
    pub open: bool,
}

/// The alternative of the root with this rank in the canonical order of tags, or None.
fn ranked(calls: &[PackedStep], rank: usize) -> Option<Call>
    ensures { call_or result ≡ ranked_call rank calls.now 0 }
{
    for i in 0..calls.len() {
        if let PackedStep::Root(call) = calls[i] {
            if call.rank == rank {
                return Some(Call {
                    number: i,
                    ty: call.ty,
                    open: false,
                });
            }
        }
    }
    None
}

/// The alternative after the marker with this number among those, or None.
fn numbered(calls: &[PackedStep], number: usize) -> Option<Call>
    ensures { call_or result ≡ added_call number calls.now 0 }
{
    for i in 0..calls.len() {
        if let PackedStep::More(place, ty) = calls[i] {
            if place == number {
                return Some(Call {
                    number: i,
                    ty,
                    open: true,
                });
            }
        }
    }
    None
}

/// Takes the bits that select an alternative of a CHOICE (X.691, 23). The calls are the steps of the CHOICE's routine
/// after `PackedStep::Pick`.
///
/// `Outside`: the root has no alternative with the encoded index. `UnknownAlternative`: there is no such addition, or
/// its number isn't in the small form. After either fault the bits of the index or of the number aren't taken.
/// `Truncated`: the bits end too soon.
pub fn read_call(bits: &mut Bits<'_>, calls: &[PackedStep]) -> Result<Call, Refusal>
    requires { HaveWidth calls.now }
    ensures { call_from calls.now (bits_left bits.old) ≡ outcome_by chosen_of result (bits_left bits.new) }
{
    if calls.is_empty() {
        return Err(Refusal::Outside);
    }
    let PackedStep::Root(first) = calls[0] else {
        return Err(Refusal::Outside);
    };
    if !first.extensible {
        return read_root_call(bits, first.width, calls);
    }
    match read_bit(bits) {
        Ok(true) => read_added_call(bits, calls),
        Ok(false) => read_root_call(bits, first.width, calls),
        Err(truncated) => Err(truncated),
    }
}

fn read_root_call(bits: &mut Bits<'_>, width: usize, calls: &[PackedStep]) -> Result<Call, Refusal>
    requires { width ≤ 64 }
    ensures { root_call width calls.now (bits_left bits.old) ≡ outcome_by chosen_of result (bits_left bits.new) }
{
    let start = *bits;
    let rank = match read_field(bits, width) {
        Ok(rank) => rank,
        Err(truncated) => return Err(truncated),
    };
    match ranked(calls, rank as usize) {
        Some(call) => Ok(call),
        None => {
            *bits = start;
            Err(Refusal::Outside)
        }
    }
}

fn read_added_call(bits: &mut Bits<'_>, calls: &[PackedStep]) -> Result<Call, Refusal>
    ensures { judging (λ j. or_refused UnknownAlternative (added_call j calls.now 0))
        (small_from UnknownAlternative) (bits_left bits.old)
        ≡ outcome_by chosen_of result (bits_left bits.new) }
{
    let start = *bits;
    let number = match read_small(bits, Refusal::UnknownAlternative) {
        Ok(number) => number,
        Err(refusal) => return Err(refusal),
    };
    match numbered(calls, number as usize) {
        Some(call) => Ok(call),
        None => {
            *bits = start;
            Err(Refusal::UnknownAlternative)
        }
    }
}
