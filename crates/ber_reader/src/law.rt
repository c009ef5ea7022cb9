//! DER encodings are BER encodings that `read_ber` decodes; octets are refused for one reason, or they are decoded; and
//! what the fault of a value that isn't one of its type means.

ghost use Rattle.asn_base.specs.Abstract.{AbstractValue, Row, fields};
ghost use Rattle.asn_base.specs.declared.tag.Tag.{Tag};
ghost use Rattle.asn_base.specs.Same.{Same};
ghost use Rattle.asn_base.specs.Schemas.{IsSchema, components};
ghost use Rattle.asn_base.specs.Typed.{AreComponents, GroupsAreWhole, IsValue, ValueIn, nodes};
ghost use Rattle.asn_base.specs.Types.{Component, Is, Resolved, a_sequence, a_set};
ghost use Rattle.ber_reader.specs.Messages.{IsEncoding, IsRead, Refuses};
ghost use Rattle.ber_reader.specs.Paths.{on_path};
ghost use Rattle.ber_reader.specs.declared.open.OpenValue.{OpenValue};
ghost use Rattle.ber_reader.specs.Judged.{Innermost, IsJudged, IsOwn, Piece, component_pieces, kind_at};
ghost use Rattle.decode_faults.specs.declared.read_fault.ReadFault.TheVariants.{Missing, TooDeep};
ghost use Rattle.decode_faults.specs.declared.read_fault.ReadFault.{ReadFault};
ghost use Rattle.encodings.specs.Encoding.{Der};
ghost use Rattle.encodings.specs.Reading.{Encodes};
ghost use Rattle.encodings.specs.Rules.{Basic};
ghost use Rattle.asn_base.specs.declared.schema.TypeId.{TypeId};
ghost use Rattle.ber_reader.specs.Readings.{IsReading, IsRefused};
ghost use Rattle.ber_reader.specs.declared.read.Read.{Read};
ghost use Rattle.std.specs.Int.Digits.{AllBelowBase};
ghost use Rattle.std.specs.List.{AllByRecursion};
ghost use Rattle.std.specs.Prelude.{◌≡◌, ◌<◌, ◌≤◌, Bool, length, List, map, ℕ};

use encodings::{der_laws, level_laws, message_laws, reading_laws, schema_laws};
use laws_reading::law::{lemma_encoded_is_read, lemma_read_is_encoded, lemma_stops_once};
use octets::law::lemma_one_front;

/// A DER encoding of at most 16,777,216 octets is one that `read_ber` refuses only if an allocation fails. Whatever
/// value the octets encode by the basic rules is the same, without unknown additions. So what an encoder by the
/// distinguished rules returns is decoded again.
pub fn written_is_read()
    ensures read { (s : List Resolved) (t : ℕ) (v : AbstractValue) (o : List ℕ)
        → IsSchema s
        → Der s t v 0 o
        → length o ≤ 16777216
        → IsEncoding s t o }
    ensures same { (s : List Resolved) (t k : ℕ) (v w : AbstractValue) (o : List ℕ)
        → IsSchema s
        → Der s t v 0 o
        → Encodes s Basic t w k o
        → Same s t v w × (k ≡ 0) }
{
    der_laws();
    level_laws();
    message_laws();
    reading_laws();
}

/// A value that isn't one of its type has at most one fault.
pub fn lemma_judged_once()
    ensures { (s : List Resolved) (t : ℕ) (v : AbstractValue) (e f : ReadFault)
        → IsJudged s t v e
        → IsJudged s t v f
        → e ≡ f }
{}

/// There is only one innermost value that isn't one of its type. Only one way leads there, through values of the same
/// types, by the same parts.
pub fn lemma_one_path()
    ensures { (s : List Resolved) (p q r : Piece) (os ps : List OpenValue)
        → Innermost s p os q
        → Innermost s p ps r
        → (q ≡ r) × (map on_path os ≡ map on_path ps) }
{}

/// What the fault of components means that aren't a value of their type, with at most 16,777,216 nodes. `Missing`: if
/// each present component is a value of at most 63 levels, a group isn't whole. `TooDeep`: a component isn't a value of
/// its type with at most 63 levels, or may not be absent, or its DEFAULT, if it is absent, has more levels.
pub fn lemma_faults_of_components()
    ensures half_a_group { (s : List Resolved) (t : ℕ) (vs : Row)
        → IsOwn s t (fields vs) Missing
        → (IsValue s t (fields vs) → ⊥)
        → nodes (fields vs) ≤ 16777216
        → AllByRecursion (λ p. ValueIn s 63 p.piece.type p.piece.value)
        (component_pieces 0 (components (kind_at s t)) vs)
        → GroupsAreWhole (components (kind_at s t)) vs
        → ⊥ }
    ensures deep_sequence { (s : List Resolved) (t : ℕ) (tags : List Tag) (e : Bool) (cs : List Component) (vs : Row)
        → Is s t tags (a_sequence e cs)
        → IsOwn s t (fields vs) TooDeep
        → nodes (fields vs) ≤ 16777216
        → AreComponents s 63 cs vs
        → ⊥ }
    ensures deep_set { (s : List Resolved) (t : ℕ) (tags : List Tag) (e : Bool) (cs : List Component) (vs : Row)
        → Is s t tags (a_set e cs)
        → IsOwn s t (fields vs) TooDeep
        → nodes (fields vs) ≤ 16777216
        → AreComponents s 63 cs vs
        → ⊥ }
{}

/// Octets have at most one fault as a message of a type, apart from constraints. Octets that the type's routine reads
/// to their end have none.
pub fn lemma_one_refusal()
    ensures once { (s : List Resolved) (t : TypeId) (o : List ℕ) (e f : ReadFault)
        → Refuses s t o e
        → Refuses s t o f
        → e ≡ f }
    ensures either { (s : List Resolved) (t : TypeId) (o : List ℕ) (e : ReadFault)
        → IsSchema s
        → AllBelowBase 256 o
        → length o ≤ 16777216
        → t.index < length s
        → Refuses s t o e
        → IsRead s t o
        → ⊥ }
{
    lemma_one_front();
    lemma_read_is_encoded();
    lemma_encoded_is_read();
    lemma_stops_once();
}

/// A message has at most one fault, apart from `Memory`, and a message that is decoded has none.
pub fn lemma_refused_once()
    ensures once { (s : List Resolved) (t : TypeId) (o : List ℕ) (e f : ReadFault)
        → IsSchema s
        → AllBelowBase 256 o
        → IsRefused s t o e
        → IsRefused s t o f
        → e ≡ f }
    ensures either { (s : List Resolved) (t : TypeId) (o : List ℕ) (e : ReadFault) (r : Read)
        → IsSchema s
        → AllBelowBase 256 o
        → IsRefused s t o e
        → IsReading s t.index o r
        → ⊥ }
{
    lemma_one_refusal();
    schema_laws();
}
