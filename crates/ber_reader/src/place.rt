//! The octet at which a message is refused.

ghost use Rattle.ber_reader.specs.Messages.{IsEncoding, IsMessage, IsRead, IsViewed, EncodesNoValue, budget_of};
ghost use Rattle.ber_reader.specs.Stops.{IsStop, IsStopBefore};
ghost use Rattle.ber_reader.specs.Judged.{IsBeforeWrong, piece};
ghost use Rattle.ber_reader.specs.Readings.{IsBeforeInnermost, IsErrorPosition};
ghost use Rattle.octet_answers.specs.States.{Token as Token'};
ghost use Rattle.std.specs.Prelude.{◌≡◌, ◌<◌, ◌≤◌, [], IfOk, length, List};

use crate::stop::{ErrorPosition, begun_before, is_memory, most_values, stop_before};
use crate::view::read_view;
use crate::wrong::path_to_wrong;
use asn_base::schema::TypeId;
use ber_source::Built;
use codec_code::Code;
use encodings::{message_laws, schema_laws};
use std::alloc::{AllocError, Global};

/// Returns where `read_ber` refuses a message: the offset of the octet, from 0, and the values that are open there.
/// They are in order, the outermost first, each with the part of it that was being read. `AllocError` comes only if an
/// allocation fails.
///
/// `Truncated`, `Indefinite`, `BadLength`, `BadTag`, `UnexpectedTag`: the header. `BadContents`, `IntegerLimit`,
/// `OidLimit`: the first contents octet. If a segment of a string is wrong, it is the header of this segment.
/// `EmptySegments`: the octet after the header that has no segments. `Missing`: the end of the contents. `TooDeep`: the
/// header that is one too many. `Trailing`: the first octet after the value. `MessageLimit`: the first octet after the
/// 16,777,216 that a message may have.
///
/// If all of a message was read, and its value isn't one of the type, the offset is that of a header. It is the header
/// of the innermost value that isn't one of its type, and this value is the part that was being read.
///
/// A message that `read_ber` doesn't refuse is read to its end. The offset is then its length, and no value is open.
pub fn locate_error(
    alloc: Global,
    code: &Code,
    id: TypeId,
    octets: &[u8],
) -> Result<ErrorPosition, AllocError>
    ensures is { IfOk result (λ w. IsErrorPosition code.now id octets.now w) }
    // If the message is read as a whole, the place is that of the wrong part; otherwise it is where reading stops.
    ensures judged { IsRead code.now id octets.now
        → id.index < length code.now
        → length octets.now ≤ 16777216
        → IfOk result (λ w. IsStopBefore code.now id octets.now w) }
    ensures first { ((ts : List Token') → IsMessage code.now id.index octets.now ts → ⊥)
        → length octets.now ≤ 16777216
        → IfOk result (λ w. IsStop code.now id octets.now (budget_of (length octets.now)) w) }
    ensures place { IfOk result (λ w. w.place ≤ length octets.now) }
    // If the message's value isn't one of the type, the place is that of the innermost value that isn't one of its
    // type.
    ensures innermost { (r : IsRead code.now id octets.now)
        → (n : EncodesNoValue code.now id.index octets.now)
        → IfOk result (IsBeforeInnermost code.now id octets.now r.last.emitted n.value) }
    // If the message is an encoding of a value of its type, the place is its end, and no value is open there.
    ensures whole { IsEncoding code.now id.index octets.now
        → IfOk result (λ w. (w.place ≡ length octets.now) × (w.values.items ≡ [])) }
{
    match read_view(alloc, code, id, octets) {
        Ok(built) => {
            let most = before_wrong(alloc, code, id, octets, built)?;
            let mut stop = stop_before(alloc, code, id, octets, most)?;
            stop.enter()?;
            Ok(stop)
        }
        Err(fault) => {
            if is_memory(fault) {
                return Err(AllocError);
            }
            stop_before(alloc, code, id, octets, most_values(octets))
        }
    }
}

/// The number of values that begin in the message before the innermost one that isn't a value of its type. If each is
/// one, it is the most that can begin. The view is that of the message, and its value isn't copied.
fn before_wrong(
    alloc: Global,
    code: &Code,
    id: TypeId,
    octets: &[u8],
    built: Built<'_>,
) -> Result<usize, AllocError>
    requires { IsViewed code.now id.index octets.now built }
    ensures wrong { (r : IsRead code.now id octets.now)
        → (n : EncodesNoValue code.now id.index octets.now)
        → IfOk result (IsBeforeWrong code.now (piece id.index n.value) r.last.emitted) }
    ensures right { IsEncoding code.now id.index octets.now → IfOk result (λ n. n ≡ budget_of (length octets.now)) }
{
    code.lemma_invariant();
    schema_laws();
    message_laws();
    let top = built.view.top();
    if code.is_shown_value(id, &top) {
        return Ok(most_values(octets));
    }
    let mut path = Vec::new(alloc);
    path_to_wrong(code, id, &top, &mut path)?;
    begun_before(alloc, code, id, octets, path.as_slice())
}
