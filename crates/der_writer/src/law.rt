//! Laws of encodings by the distinguished rules, which signatures and comparisons rely on.

ghost use Rattle.asn_base.specs.Abstract.{AbstractValue};
ghost use Rattle.asn_base.specs.Same.{Same};
ghost use Rattle.asn_base.specs.Schemas.{IsSchema};
ghost use Rattle.asn_base.specs.Types.{Resolved};
ghost use Rattle.encodings.specs.Encoding.{Der};
ghost use Rattle.asn_base.specs.Typed.{IsValue};
ghost use Rattle.der_writer.specs.Encoded.{IsEncoding};
ghost use Rattle.std.specs.Prelude.{◌≡◌, ◌≤◌, List, length, ℕ};

use asn_base::law::lemma_sameness;
use encodings::schema_laws;

/// A value has at most one encoding by the distinguished rules, and values that are the same have the same encoding.
pub fn lemma_one_encoding()
    ensures { (s : List Resolved) (t : ℕ) (v w : AbstractValue) (o p : List ℕ)
        → IsSchema s
        → Same s t v w
        → Der s t v 0 o
        → Der s t w 0 p
        → o ≡ p }
{
    schema_laws();
}

/// An encoding by the distinguished rules encodes only one value. So the octets of a value are those of no other value.
pub fn one_value()
    ensures { (s : List Resolved) (t : ℕ) (v w : AbstractValue) (o : List ℕ)
        → IsSchema s
        → Der s t v 0 o
        → Der s t w 0 o
        → Same s t v w }
{
    schema_laws();
}

/// If octets within the limit encode a value by the distinguished rules, they are its only encoding by these rules. No
/// encoding of the value by the basic rules is shorter.
pub fn lemma_encodings_of_values()
    ensures { (s : List Resolved) (t : ℕ) (v : AbstractValue) (o : List ℕ)
        → IsSchema s
        → IsValue s t v
        → Der s t v 0 o
        → length o ≤ 16777216
        → IsEncoding s t v o }
{
    schema_laws();
    lemma_sameness();
}
