//! Decodes messages as views of their values.

ghost use Rattle.asn_base.specs.Abstract.{AbstractValue};
ghost use Rattle.asn_base.specs.Typed.{IsValue, IsValueWithoutNodes, nodes};
ghost use Rattle.ber_reader.specs.Messages.{BeginsEncoding, EndsTooSoon, HasEncodingFirst, HasMessageFirst, IsEncoding, IsRead, EncodesNoValue};
ghost use Rattle.ber_reader.specs.Judged.{IsJudged};
ghost use Rattle.ber_reader.specs.Readings.{IsReading, IsRefused};
ghost use Rattle.codec_code.specs.ByLeaves.{IsByLeaves};
ghost use Rattle.decode_faults.specs.declared.read_fault.ReadFault.TheVariants.{Memory, MessageLimit, Missing};
ghost use Rattle.decode_faults.specs.declared.read_fault.ReadFault.TheVariants.{NotDer, OutsideConstraint, Trailing};
ghost use Rattle.decode_faults.specs.declared.read_fault.ReadFault.TheVariants.{Truncated};
ghost use Rattle.encodings.specs.Reading.{Encodes};
ghost use Rattle.encodings.specs.Rules.{Basic};
ghost use Rattle.std.specs.Prelude.{◌≡◌, ◌<◌, ◌≤◌, ◌⊎◌, Err, IfErr, IfOk, length, MatchResult, OnOk, true, ℕ};
ghost use Rattle.views.specs.Tree.{value_of};

use crate::view::read_view;
use crate::wrong::fault_of;
use asn_base::schema::TypeId;
use codec_code::Code;
use decode_faults::ReadFault;
use encodings::message_laws;
use std::alloc::Global;
use views::View;

/// A value that was decoded, and the number of skipped additions that its type lacks.
#[derive(Drop)]
pub struct Read<'a> {
    pub view: View<'a>,
    pub skipped: u64,
}

/// Decodes the value of the type that the octets encode by the basic rules (X.690, 8.1 to 8.14), exactly as they encode
/// it. Its strings are slices of the octets if they are primitive there, and joined copies if they are in segments.
///
/// `Memory`: an allocation failed. `MessageLimit`: there are more than 16,777,216 octets. `Trailing`: a value ends
/// before the octets do. Any other fault is the first one from the start of the octets. A type that the code lacks is
/// `UnexpectedTag`. What each other fault means is said at [`ReadFault`].
///
/// If all octets were read and their value isn't one of the type, the fault is that of the innermost value that isn't
/// one of its type. `BadContents`: an ENUMERATED lacks the number. `Missing`: a component of a group is missing,
/// although another one of the group is present. `TooDeep`: the DEFAULT of an absent component has too many levels.
/// `OutsideConstraint`: any other value.
pub fn read_ber<'a>(
    alloc: Global,
    code: &Code,
    id: TypeId,
    octets: &'a [u8],
) -> Result<Read<'a>, ReadFault>
    ensures ok { IfOk result (λ r. IsReading code.now id.index octets.now r) }
    // The octets exactly encode no other value, and have no other number of unknown additions.
    ensures only { IfOk result (λ r. (w : AbstractValue) (k : ℕ)
        → Encodes code.now Basic id.index w k octets.now
        → (w ≡ value_of r.view) × (k ≡ r.skipped)) }
    ensures limit { 16777216 < length octets.now → result ≡ Err MessageLimit }
    ensures long { result ≡ Err MessageLimit → 16777216 < length octets.now }
    ensures trailing { result ≡ Err Trailing → HasMessageFirst code.now id.index octets.now }
    // Octets that encode a value of the type are decoded, unless an allocation fails. `Trailing` if the octets start
    // with a complete encoding and go on; `Truncated` if they are the start of one.
    ensures read { IsEncoding code.now id.index octets.now → IfErr result (λ e. e ≡ Memory) }
    ensures more { HasEncodingFirst code.now id.index octets.now → (result ≡ Err Trailing) ⊎ (result ≡ Err Memory) }
    ensures truncated_value { BeginsEncoding code.now id.index octets.now → result ≡ Err Truncated }
    // `OutsideConstraint` only if the octets encode something that isn't a value of the type; `Missing` only then, or
    // at the end of contents.
    ensures outside { result ≡ Err OutsideConstraint → EncodesNoValue code.now id.index octets.now }
    ensures missing { result ≡ Err Missing
        → EndsTooSoon code.now id octets.now ⊎ EncodesNoValue code.now id.index octets.now }
    // If the type's routine reads the octets to their end, their value may still not be one of the type. Then the fault
    // is that of the innermost value that isn't one of its type, or `Memory`.
    ensures judged { IsRead code.now id octets.now
        → (n : EncodesNoValue code.now id.index octets.now)
        → MatchResult result (λ r. ⊥) (λ e. (e ≡ Memory) ⊎ IsJudged code.now id.index n.value e) }
    // Every fault except `Memory` is a true reason to refuse the octets. None is `NotDer`.
    ensures refused { IfErr result (λ e. (e ≡ Memory → ⊥) → IsRefused code.now id octets.now e) }
    ensures not_der { result ≡ Err NotDer → ⊥ }
{
    code.lemma_invariant();
    message_laws();
    let built = match read_view(alloc, code, id, octets) {
        Ok(built) => built,
        Err(fault) => return Err(fault),
    };
    match judge(code, id, built.fits, &built.view) {
        Ok(()) => {}
        Err(why) => return Err(why),
    }
    Ok(Read {
        view: built.view,
        skipped: built.skipped,
    })
}

/// Judges whether the value that a view shows is one of the type. If it fits, and values of the type are judged leaf by
/// leaf, it isn't looked at. The function takes no memory.
fn judge(code: &Code, id: TypeId, fits: bool, view: &View<'_>) -> Result<(), ReadFault>
    requires nodes { nodes (value_of view.now) ≤ 16777216 }
    requires fits { fits ≡ true
        → IsByLeaves code.now id.index
        → IsValueWithoutNodes code.now id.index (value_of view.now) }
    ensures ok { OnOk result (IsValueWithoutNodes code.now id.index (value_of view.now)) }
    ensures err { IfErr result (λ e. IsValue code.now id.index (value_of view.now) → ⊥) }
    ensures judged { IfErr result (λ e. IsJudged code.now id.index (value_of view.now) e) }
    ensures limit { result ≡ Err MessageLimit → ⊥ }
    ensures trailing { result ≡ Err Trailing → ⊥ }
{
    if fits && code.is_by_leaves(id) {
        return Ok(());
    }
    let top = view.top();
    if code.is_shown_value(id, &top) {
        return Ok(());
    }
    Err(fault_of(code, id, &top))
}
