//! How many characters a string of an alphabet of one code has. They take no bits, so their number alone is taken, and
//! no memory (X.691, 11.9 and 30.5).

ghost use Rattle.asn_base.specs.Schemas.{AreBounds, IsSize};
ghost use Rattle.asn_base.specs.Seen.{constraint_of};
ghost use Rattle.bits.specs.Left.{bits_left};
ghost use Rattle.packed_readings.specs.Code.{test_of};
ghost use Rattle.packed_readings.specs.Counts.{counted_from, sized_from};
ghost use Rattle.packed_readings.specs.Leaves.{character_from};
ghost use Rattle.packed_readings.specs.Outcome.{each_from, outcome_by};
ghost use Rattle.std.specs.Prelude.{◌≡◌, ◌∷◌, [], replicate, ℕ};

use crate::count::Count;
use crate::size::{Sizing, read_size};
use crate::strings::{Total, read_total};
use asn_base::constraint::Constraint;
use bits::cursor::Bits;
use decode_faults::Refusal;

/// Takes the numbers of all parts. The result is how many characters they promise together.
fn count_parts(total: &Total<'_>, bits: &mut Bits<'_>) -> Result<u128, Refusal>
    ensures { (x : ℕ) → counted_from (test_of total.now) (each_from (character_from (x ∷ []))) (bits_left bits.old)
        ≡ outcome_by (λ n. replicate n x) result (bits_left bits.new) }
{
    let _all = bits.len();
    let mut count: u128 = 0;
    let mut full = true;
    let mut more = true;
    while more {
        match read_total(total, count, full, bits) {
            Ok(Count::Last(last)) => {
                count += last as u128;
                more = false;
            }
            Ok(Count::Part(times)) => {
                count += 16384 * times as u128;
                full = times == 4;
            }
            Err(refusal) => return Err(refusal),
        }
    }
    Ok(count)
}

/// Takes the size of a string of an alphabet of one code. The faults are those of the string, at their places.
#[inline(never)]
pub(crate) fn count_characters(
    constraint: &Constraint,
    bits: &mut Bits<'_>,
) -> Result<u128, Refusal>
    requires { AreBounds IsSize (constraint_of constraint.now) }
    ensures { (x : ℕ) → sized_from (constraint_of constraint.now) (each_from (character_from (x ∷ [])))
        (bits_left bits.old)
        ≡ outcome_by (λ n. replicate n x) result (bits_left bits.new) }
{
    match read_size(constraint, bits) {
        Ok(Sizing::AtOnce(count)) => Ok(count as u128),
        Ok(Sizing::Counted(outside)) => count_parts(&Total::Sized(constraint, outside), bits),
        Err(refusal) => Err(refusal),
    }
}
