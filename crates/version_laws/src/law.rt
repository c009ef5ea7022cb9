//! What is written of one version can be read by the other.

ghost use Rattle.asn_base.specs.Abstract.{AbstractValue};
ghost use Rattle.asn_base.specs.Same.{Same};
ghost use Rattle.asn_base.specs.Schemas.{IsSchema};
ghost use Rattle.asn_base.specs.Typed.{IsValue, IsValueWithoutNodes};
ghost use Rattle.asn_base.specs.Types.{Resolved};
ghost use Rattle.encodings.specs.Encoding.{Der, EncodesBy};
ghost use Rattle.encodings.specs.Reading.{Encodes};
ghost use Rattle.encodings.specs.Rules.{Rules};
ghost use Rattle.later_versions.specs.Projected.{projected, left_out};
ghost use Rattle.later_versions.specs.Later.{Later};
ghost use Rattle.std.specs.Int.Digits.{AllBelowBase};
ghost use Rattle.std.specs.Prelude.{◌≡◌, ◌<◌, List, length, ℕ};
ghost use Rattle.version_laws.specs.Versions.{IsKnown, IsReadAs, IsStrictlyReadAs};
ghost use Rattle.version_laws.specs.Lifted.{lifted};

use asn_base::law::{lemma_alike_values, lemma_sameness};
use encodings::schema_laws;

/// An encoding of a value of a later version by the distinguished rules is one by the basic rules of what the earlier
/// type keeps of the value. It has as many unknown additions as the earlier type leaves out. Unknown additions are not
/// inspected, so what they lack or contain isn't counted.
pub fn lemma_earlier_reads()
    ensures { (s s' : List Resolved) (t t' : ℕ) (v : AbstractValue) (o : List ℕ)
        → IsSchema s'
        → Later s t s' t'
        → IsKnown s t v
        → AllBelowBase 256 o
        → Der s' t' v 0 o
        → IsReadAs s t (projected s t v) (left_out s t v) o }
{
    lemma_sameness();
    lemma_alike_values();
    schema_laws();
}

/// A value of an earlier version is one of the later type, in which the components that were appended are absent.
/// Values that are the same in the earlier version are the same in the later one. The earlier type keeps the whole
/// value, and leaves nothing out.
pub fn lemma_lifting()
    ensures value { (s s' : List Resolved) (t t' : ℕ) (v : AbstractValue)
        → IsSchema s'
        → Later s t s' t'
        → t' < length s'
        → IsValueWithoutNodes s t v
        → IsValueWithoutNodes s' t' (lifted s' t' v) }
    // The same is true with the limit on nodes: the value has as many nodes.
    ensures few_nodes { (s s' : List Resolved) (t t' : ℕ) (v : AbstractValue)
        → IsSchema s'
        → Later s t s' t'
        → t' < length s'
        → IsValue s t v
        → IsValue s' t' (lifted s' t' v) }
    ensures same { (s s' : List Resolved) (t t' : ℕ) (v w : AbstractValue)
        → IsSchema s'
        → Later s t s' t'
        → t' < length s'
        → Same s t v w
        → Same s' t' (lifted s' t' v) (lifted s' t' w) }
    ensures back { (s s' : List Resolved) (t t' : ℕ) (v : AbstractValue)
        → IsSchema s'
        → Later s t s' t'
        → t' < length s'
        → IsValueWithoutNodes s t v
        → (projected s t (lifted s' t' v) ≡ v) × (left_out s t (lifted s' t' v) ≡ 0) }
{
    lemma_sameness();
    lemma_alike_values();
}

/// The encoding of a value of an earlier version encodes, by the same rules, what the value is under the later type,
/// with no unknown additions.
pub fn lemma_later_reads()
    ensures encodes { (s s' : List Resolved) (r : Rules) (t t' : ℕ) (v : AbstractValue) (o : List ℕ)
        → IsSchema s'
        → Later s t s' t'
        → t' < length s'
        → EncodesBy r s t v 0 o
        → EncodesBy r s' t' (lifted s' t' v) 0 o }
    // The same is true of the exact value.
    ensures is_so { (s s' : List Resolved) (r : Rules) (t t' : ℕ) (w : AbstractValue) (o : List ℕ)
        → IsSchema s'
        → Later s t s' t'
        → t' < length s'
        → Encodes s r t w 0 o
        → Encodes s' r t' (lifted s' t' w) 0 o }
    // The encoding has no more levels of headers under the later type: at most 400 if it had at most 400, and by the
    // distinguished rules always.
    ensures basic { (s s' : List Resolved) (t t' : ℕ) (v : AbstractValue) (o : List ℕ)
        → IsSchema s'
        → Later s t s' t'
        → t' < length s'
        → IsReadAs s t v 0 o
        → IsReadAs s' t' (lifted s' t' v) 0 o }
    ensures distinguished { (s s' : List Resolved) (t t' : ℕ) (v : AbstractValue) (o : List ℕ)
        → IsSchema s'
        → Later s t s' t'
        → t' < length s'
        → Der s t v 0 o
        → IsStrictlyReadAs s' t' (lifted s' t' v) 0 o }
{
    lemma_sameness();
    lemma_alike_values();
    schema_laws();
}
