//! Numbers of items (X.691, 11.9.3).

ghost use Rattle.bits.specs.Left.{bits_left};
ghost use Rattle.packed_readings.specs.Code.{IsFew};
ghost use Rattle.packed_readings.specs.Counts.{canonical_count, count_from, stated_count};
ghost use Rattle.packed_readings.specs.Outcome.{Judged, good, bad, outcome};
ghost use Rattle.packed_readings.specs.declared.count.StatedCount.TheVariants.{In7Bits, In14Bits, InParts};
ghost use Rattle.std.specs.Prelude.{◌≡◌, ◌∷◌, ◌<◌, true, IfErr, IfOk};

use crate::field::{read_bit, read_field};
use bits::cursor::Bits;
use decode_faults::Refusal;

/// How many items come next: this many, and none after them (`Last`); or this many times 16,384, and more after a
/// further number (`Part`).
#[derive(Clone, Copy, Debug, PartialEq, Eq)]
pub enum Count {
    Last(usize),
    Part(usize),
}

/// A number of items as it is sent, in its canonical form or not.
#[derive(Clone, Copy, Debug)]
pub(crate) enum StatedCount {
    In7Bits(usize),
    In14Bits(usize),
    InParts(usize),
}

/// Takes a number of items in any form.
fn read_stated(bits: &mut Bits<'_>) -> Result<StatedCount, Refusal>
    ensures { stated_count (bits_left bits.old) ≡ outcome result (bits_left bits.new) }
{
    match read_bit(bits) {
        Ok(false) => match read_field(bits, 7) {
            Ok(number) => Ok(StatedCount::In7Bits(number as usize)),
            Err(refusal) => Err(refusal),
        },
        Ok(true) => read_longer(bits),
        Err(refusal) => Err(refusal),
    }
}

/// Takes the rest of a number of items whose first bit is 1.
fn read_longer(bits: &mut Bits<'_>) -> Result<StatedCount, Refusal>
    ensures { stated_count (true ∷ bits_left bits.old) ≡ outcome result (bits_left bits.new) }
{
    match read_bit(bits) {
        Ok(false) => match read_field(bits, 14) {
            Ok(number) => Ok(StatedCount::In14Bits(number as usize)),
            Err(refusal) => Err(refusal),
        },
        Ok(true) => match read_field(bits, 6) {
            Ok(number) => Ok(StatedCount::InParts(number as usize)),
            Err(refusal) => Err(refusal),
        },
        Err(refusal) => Err(refusal),
    }
}

/// The number of items, if it is sent in its canonical form.
fn canonical(stated: StatedCount, full: bool) -> Result<Count, Refusal>
    ensures ok { IfOk result (λ c. canonical_count full stated ≡ good c) }
    ensures err { IfErr result (λ e. canonical_count full stated ≡ bad e) }
{
    match stated {
        StatedCount::In7Bits(count) => Ok(Count::Last(count)),
        StatedCount::In14Bits(count) => {
            if count < 128 {
                return Err(Refusal::NotCanonical);
            }
            Ok(Count::Last(count))
        }
        StatedCount::InParts(times) => {
            if full && (0 < times && times < 5) {
                return Ok(Count::Part(times));
            }
            Err(Refusal::NotCanonical)
        }
    }
}

/// Takes the number of the next items. The items may be a part, after which others follow, only if `full` is true:
/// before any item, and after a part of four times 16,384 items.
///
/// `NotCanonical`: eight bits would be enough; or there is a part where none may be, or one of no items or of more than
/// four times 16,384. No bit is taken then. `Truncated`: the bits end before.
pub fn read_count(bits: &mut Bits<'_>, full: bool) -> Result<Count, Refusal>
    ensures few { IfOk result IsFew }
    ensures is { count_from full (bits_left bits.old) ≡ outcome result (bits_left bits.new) }
{
    let start = *bits;
    let stated = match read_stated(bits) {
        Ok(stated) => stated,
        Err(refusal) => return Err(refusal),
    };
    match canonical(stated, full) {
        Ok(count) => Ok(count),
        Err(refusal) => {
            *bits = start;
            Err(refusal)
        }
    }
}
