//! A routine reads exactly what octets mean.

ghost use Rattle.asn_base.specs.Schemas.{IsSchema};
ghost use Rattle.asn_base.specs.declared.schema.TypeId.{TypeId};
ghost use Rattle.asn_base.specs.Abstract.{AbstractValue};
ghost use Rattle.asn_base.specs.Typed.{IsValueWithoutNodes};
ghost use Rattle.asn_base.specs.Types.{Resolved};
ghost use Rattle.encodings.specs.Encoding.{EncodesTo};
ghost use Rattle.encodings.specs.Levels.{levels};
ghost use Rattle.encodings.specs.Rules.{Basic};
ghost use Rattle.codec_code.specs.Routines.{routine_at};
ghost use Rattle.codec_source.specs.Reading.{Reads};
ghost use Rattle.codec_source.specs.Stopping.{StopsReading};
ghost use Rattle.decode_faults.specs.declared.read_fault.ReadFault.{ReadFault};
ghost use Rattle.octet_answers.specs.Answers.{Takes};
ghost use Rattle.octet_answers.specs.Unanswered.{Leaves};
ghost use Rattle.octet_answers.specs.States.{State, front};
ghost use Rattle.laws_reading.specs.Saying.{AreUnit, IsReadTo, StartsWithEncoding};
ghost use Rattle.laws_reading.specs.TokensShow.{AreSlicesOf, IsSliceAt};
ghost use Rattle.std.specs.Int.Digits.{AllBelowBase};
ghost use Rattle.std.specs.Prelude.{◌≡◌, ◌<◌, ◌≤◌, List, length, ℕ};

use encodings::message_laws;
use octet_answers::law::{lemma_one_answer, lemma_one_refusal};

/// What the routine of a type reads from the start of octets is what they mean by the basic rules. That is a value,
/// with some unknown additions, within 400 levels of headers. The octets that aren't read follow it, and the place in
/// the state is its end.
pub fn lemma_read_is_encoded()
    ensures { (s : List Resolved) (t : TypeId) (o : List ℕ) (budget : ℕ) (z : State)
        → IsSchema s
        → t.index < length s
        → AllBelowBase 256 o
        → Reads (λ u. routine_at s u) Takes t (front s o budget) z
        → StartsWithEncoding s t.index o z }
{}

/// The routine of a type reads every encoding of a value of the type by the basic rules, within 400 levels of headers,
/// whatever follows it. As many values may begin as there are octets.
pub fn lemma_encoded_is_read()
    ensures read { (s : List Resolved) (t : TypeId) (w : AbstractValue) (k : ℕ) (o rest : List ℕ) (budget : ℕ)
        (d : EncodesTo s Basic t.index w k o)
        → IsSchema s
        → IsValueWithoutNodes s t.index w
        → levels d ≤ 400
        → length o ≤ 16777216
        → length o ≤ budget
        → IsReadTo s t o rest budget }
    // An encoding is one header with its contents.
    ensures unit { (s : List Resolved) (t k : ℕ) (w : AbstractValue) (o : List ℕ)
        → IsSchema s
        → EncodesTo s Basic t w k o
        → AreUnit o }
{
    lemma_one_answer();
    message_laws();
}

/// If the routine of a type stops in octets, the octets that aren't read are at the place in the state. Contents octets
/// that were read are at their places.
pub fn lemma_stops_in_place()
    ensures stopped { (s : List Resolved) (t : TypeId) (o : List ℕ) (budget : ℕ) (z : State) (e : ReadFault)
        → StopsReading (λ u. routine_at s u) Takes (λ a q b. Leaves a q b e) t (front s o budget) z
        → IsSliceAt o z.here.at z.here.octets × AreSlicesOf o z.emitted }
    ensures read { (s : List Resolved) (t : TypeId) (o : List ℕ) (budget : ℕ) (z : State)
        → Reads (λ u. routine_at s u) Takes t (front s o budget) z
        → IsSliceAt o z.here.at z.here.octets }
{}

/// From the start of a message the routine of a type stops with at most one fault, at one place; if it stops, it reads
/// no value. If it reads a value, it does so in one way.
pub fn lemma_stops_once()
    ensures once { (s : List Resolved) (t : TypeId) (o : List ℕ) (budget : ℕ) (y z : State) (e f : ReadFault)
        → length o ≤ 16777216
        → StopsReading (λ u. routine_at s u) Takes (λ a q b. Leaves a q b e) t (front s o budget) y
        → StopsReading (λ u. routine_at s u) Takes (λ a q b. Leaves a q b f) t (front s o budget) z
        → (e ≡ f) × (y ≡ z) }
    ensures either { (s : List Resolved) (t : TypeId) (x y z : State) (e : ReadFault)
        → StopsReading (λ u. routine_at s u) Takes (λ a q b. Leaves a q b e) t x y
        → Reads (λ u. routine_at s u) Takes t x z
        → ⊥ }
    ensures reading { (s : List Resolved) (t : TypeId) (x y z : State)
        → Reads (λ u. routine_at s u) Takes t x y
        → Reads (λ u. routine_at s u) Takes t x z
        → y ≡ z }
{
    lemma_one_refusal();
}
