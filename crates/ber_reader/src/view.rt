//! Whole messages as views.

ghost use Rattle.asn_base.specs.Abstract.{AbstractValue};
ghost use Rattle.asn_base.specs.Typed.{IsValueWithoutNodes};
ghost use Rattle.asn_base.specs.declared.tag.Tag.{Tag as Tag'};
ghost use Rattle.ber_reader.specs.Messages.{BeginsEncoding, EndsTooSoon, HasEncodingFirst, HasMessageFirst, IsEncoding, IsRead, IsViewed, Refuses};
ghost use Rattle.ber_source.specs.ViewSink.{GiveTree, IsBuiltOf};
ghost use Rattle.codec_code.specs.ByLeaves.{IsByLeaves};
ghost use Rattle.decode_faults.specs.declared.read_fault.ReadFault.TheVariants.{Memory, MessageLimit, Missing};
ghost use Rattle.decode_faults.specs.declared.read_fault.ReadFault.TheVariants.{NotDer, OutsideConstraint, Trailing};
ghost use Rattle.decode_faults.specs.declared.read_fault.ReadFault.TheVariants.{Truncated};
ghost use Rattle.encodings.specs.Encoding.{EncodesTo};
ghost use Rattle.encodings.specs.Rules.{Basic};
ghost use Rattle.octets.specs.Fronts.{EndsEarly, HeaderAt};
ghost use Rattle.std.specs.Int.Digits.{AllBelowBase};
ghost use Rattle.std.specs.Prelude.{◌≡◌, ◌<◌, ◌⊎◌, Bool, Err, IfErr, IfOk, length, true, ℕ};
ghost use Rattle.views.specs.Tree.{value_of};

use asn_base::law::{lemma_levels_grow, lemma_without_groups};
use asn_base::schema::TypeId;
use ber_source::{Built, Viewer};
use codec_code::Code;
use codec_source::read;
use decode_faults::ReadFault;
use encodings::schema_laws;
use laws_reading::law::{lemma_encoded_is_read, lemma_read_is_encoded};
use limits::{MAX_MESSAGE, MAX_OPEN};
use octets::law::lemma_one_front;
use octets::{HeaderFault, read_header};
use std::alloc::Global;

/// Reads a message of the type by the basic rules (X.690, 8.1 to 8.14), from its start. Returns the view of its value,
/// and the number of additions that were skipped. Strings are slices of the message. Constraints refuse no message; the
/// result says whether the values that hold no others meet them.
///
/// `MessageLimit`: the message has more than 16,777,216 octets. `Trailing`: a value ends before the octets do. Any
/// other fault is the first one from the start of the message. A type that the code lacks is `UnexpectedTag`.
pub fn read_view<'a>(
    alloc: Global,
    code: &Code,
    id: TypeId,
    octets: &'a [u8],
) -> Result<Built<'a>, ReadFault>
    ensures ok { IfOk result (λ b. IsViewed code.now id.index octets.now b) }
    // The octets exactly encode no other value, and have no other number of unknown additions.
    ensures only { IfOk result (λ b. (w : AbstractValue) (k : ℕ)
        → EncodesTo code.now Basic id.index w k octets.now
        → (w ≡ value_of b.view) × (k ≡ b.skipped)) }
    ensures limit { 16777216 < length octets.now → result ≡ Err MessageLimit }
    ensures long { result ≡ Err MessageLimit → 16777216 < length octets.now }
    ensures trailing { result ≡ Err Trailing → HasMessageFirst code.now id.index octets.now }
    // Octets that encode a value of the type are read, unless an allocation fails. `Trailing` if the octets start with
    // a complete encoding and go on; `Truncated` if they are the start of one.
    ensures read { IsEncoding code.now id.index octets.now → IfErr result (λ e. e ≡ Memory) }
    ensures more { HasEncodingFirst code.now id.index octets.now → (result ≡ Err Trailing) ⊎ (result ≡ Err Memory) }
    ensures truncated_value { BeginsEncoding code.now id.index octets.now → result ≡ Err Truncated }
    // `Missing` comes only at the end of contents. `OutsideConstraint` never comes: constraints aren't judged.
    ensures missing { result ≡ Err Missing → EndsTooSoon code.now id octets.now }
    ensures outside { result ≡ Err OutsideConstraint → ⊥ }
    // Any fault except `Memory` and `MessageLimit` means that the type's routine doesn't read the octets to their end.
    ensures err { IfErr result (λ e. (e ≡ Memory → ⊥)
        → (e ≡ MessageLimit → ⊥)
        → id.index < length code.now
        → IsRead code.now id octets.now
        → ⊥) }
    // Every fault except `Memory` is a true reason to refuse the octets. None is `NotDer`.
    ensures refused { IfErr result (λ e. (e ≡ Memory → ⊥) → Refuses code.now id octets.now e) }
    ensures not_der { result ≡ Err NotDer → ⊥ }
    // If the value fits, and values of the type are judged leaf by leaf, it is one of the type.
    ensures fits { IfOk result (λ b. b.fits ≡ true
        → IsByLeaves code.now id.index
        → IsValueWithoutNodes code.now id.index (value_of b.view)) }
{
    code.lemma_invariant();
    lemma_without_groups();
    lemma_levels_grow();
    schema_laws();
    lemma_read_is_encoded();
    lemma_encoded_is_read();
    are_octets(octets);
    if octets.len() > MAX_MESSAGE {
        return Err(ReadFault::MessageLimit);
    }
    if !code.has(id) {
        return Err(ReadFault::UnexpectedTag);
    }
    if ends_early(octets) {
        return Err(ReadFault::Truncated);
    }
    let mut viewer = match Viewer::new(alloc, code, octets, octets.len() * MAX_OPEN + MAX_OPEN) {
        Ok(viewer) => viewer,
        Err(fault) => return Err(fault),
    };
    match read(alloc, code, id, &mut viewer) {
        Ok(()) => {}
        Err(fault) => return Err(fault),
    }
    if !viewer.is_at_end() {
        return Err(ReadFault::Trailing);
    }
    finished(viewer)
}

/// What was read, as a view.
fn finished<'a>(viewer: Viewer<'_, 'a>) -> Result<Built<'a>, ReadFault>
    requires { GiveTree viewer.schema viewer.emitted }
    ensures ok { IfOk result (λ b. IsBuiltOf viewer.entry.schema viewer.entry.emitted b) }
    ensures err { IfErr result (λ e. e ≡ Memory) }
{
    match viewer.into_sink().finish() {
        Ok(built) => Ok(built),
        Err(_) => Err(ReadFault::Memory),
    }
}

/// Each octet is below 256.
fn are_octets(octets: &[u8])
    ensures { AllBelowBase 256 octets.now }
{}

/// Whether the octets end within the header at their start, or before the contents octets that it promises.
fn ends_early(octets: &[u8]) -> bool
    ensures early { result ≡ true → EndsEarly octets.now }
    ensures late { EndsEarly octets.now → result ≡ true }
    ensures none { result ≡ true → (g : Tag') (c : Bool) (n k : ℕ) → HeaderAt g c n k octets.now → ⊥ }
{
    lemma_one_front();
    match read_header(octets) {
        Ok(_) => false,
        Err(fault) => match fault {
            HeaderFault::Truncated => true,
            HeaderFault::Indefinite => false,
            HeaderFault::BadLength => false,
            HeaderFault::BadTag => false,
        },
    }
}
