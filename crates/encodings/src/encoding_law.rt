//! The laws of encodings (X.690, 8 to 11).

ghost use Rattle.std.specs.Prelude.{◌≡◌, ◌⊎◌, ℕ, false, ◌*◌, ◌^◌, ◌<◌, ◌≤◌, List, [], ◌++◌, length};
ghost use Rattle.asn_base.specs.Abstract.{AbstractValue};
ghost use Rattle.asn_base.specs.Accepted.{AllSimple};
ghost use Rattle.asn_base.specs.Schemas.{IsSchema, IsSound};
ghost use Rattle.asn_base.specs.Tags.{AllTagged, AllHaveDistinctTags, HasFewTags};
ghost use Rattle.asn_base.specs.Same.{AlikeBy, Same};
ghost use Rattle.asn_base.specs.Typed.{IsPrimitive, IsValue, IsValueWithoutNodes, ValueIn, nodes};
ghost use Rattle.asn_base.specs.Types.{Kind, Resolved};
ghost use Rattle.encodings.specs.Account.{Account, Describes};
ghost use Rattle.encodings.specs.Contents.{Contents};
ghost use Rattle.encodings.specs.Encoding.{Ber, Der, EncodesBy, EncodesTo, Shortest};
ghost use Rattle.encodings.specs.Reading.{Encodes};
ghost use Rattle.encodings.specs.Levels.{levels};
ghost use Rattle.encodings.specs.Weight.{weight};
ghost use Rattle.encodings.specs.Rules.{Rules, Basic, Unsorted, Distinguished};

use asn_base::law::{lemma_alike_values, lemma_sameness, lemma_simple_types_have_distinct_tags};

/// A value of a type has one encoding by the distinguished rules, and no encoding by the basic rules is shorter. This
/// holds for each kind of type, and for every definite form of length octets.
pub fn der_laws()
    // If octets encode exactly a value by the distinguished rules, they are a DER encoding of it, and also a BER
    // encoding.
    ensures der { (s : List Resolved) (t : ℕ) (v : AbstractValue) (o : List ℕ)
        → IsValueWithoutNodes s t v
        → EncodesTo s Distinguished t v 0 o
        → Der s t v 0 o }
    ensures ber { (s : List Resolved) (t k : ℕ) (v : AbstractValue) (o : List ℕ) → Der s t v k o → Ber s t v k o }
    // If octets encode exactly a value, they are an encoding of it, with the same number of unknown additions.
    ensures as_it_stands { (s : List Resolved) (t k : ℕ) (w : AbstractValue) (o : List ℕ)
        → Encodes s Basic t w k o
        → Ber s t w k o }
    // Values that are the same have one DER encoding, if only a CHOICE has no tag.
    ensures one { (s : List Resolved) (t : ℕ) (v w : AbstractValue) (o p : List ℕ)
        → AllTagged s
        → Same s t v w
        → Der s t v 0 o
        → Der s t w 0 p
        → p ≡ o }
    // A DER encoding follows the distinguished rules also without those about the order in sets.
    ensures unsorted { (s : List Resolved) (t k : ℕ) (v : AbstractValue) (o : List ℕ)
        → Der s t v k o
        → EncodesBy Unsorted s t v k o }
    ensures shortest { (s : List Resolved) (t : ℕ) (v : AbstractValue) (o : List ℕ) → Der s t v 0 o → Shortest s t v o }
{
    lemma_sameness();
    unsorted_laws();
}

/// Octets that follow the distinguished rules, except the order in SET and SET OF, are as few as any encoding's.
pub fn unsorted_laws()
    ensures ber { (s : List Resolved) (t k : ℕ) (v : AbstractValue) (o : List ℕ)
        → EncodesBy Unsorted s t v k o
        → Ber s t v k o }
    // If two values are the same, no encoding of the second by the basic rules has fewer octets.
    ensures none_shorter { (s : List Resolved) (t : ℕ) (v w : AbstractValue) (o p : List ℕ)
        → Same s t v w
        → EncodesBy Unsorted s t v 0 o
        → Ber s t w 0 p
        → length o ≤ length p }
    ensures shortest { (s : List Resolved) (t : ℕ) (v : AbstractValue) (o : List ℕ)
        → EncodesBy Unsorted s t v 0 o
        → Shortest s t v o }
{
    lemma_sameness();
}

/// The same laws for a writer, whose octets encode exactly a value by the distinguished rules. One encoding, and one
/// value, need an accepted schema.
pub fn writer_laws()
    ensures der { (s : List Resolved) (t : ℕ) (v : AbstractValue) (o : List ℕ)
        → IsValueWithoutNodes s t v
        → EncodesTo s Distinguished t v 0 o
        → Der s t v 0 o }
    ensures only { (s : List Resolved) (t : ℕ) (v : AbstractValue) (o : List ℕ)
        → AllSimple s
        → IsValueWithoutNodes s t v
        → EncodesTo s Distinguished t v 0 o
        → (p : List ℕ)
        → Der s t v 0 p
        → p ≡ o }
    ensures shortest { (s : List Resolved) (t : ℕ) (v : AbstractValue) (o : List ℕ)
        → IsValueWithoutNodes s t v
        → EncodesTo s Distinguished t v 0 o
        → Shortest s t v o }
    // If octets are a DER encoding of two values, these are the same.
    ensures one_value { (s : List Resolved) (t : ℕ) (v w : AbstractValue) (o : List ℕ)
        → AllSimple s
        → Der s t v 0 o
        → Der s t w 0 o
        → Same s t v w }
{
    lemma_sameness();
    lemma_simple_types_have_distinct_tags();
    der_laws();
    reading_laws();
}

/// Octets exactly encode at most one value, and no encoding starts another one. Only a CHOICE may have no tag, and
/// first tags must be distinct.
pub fn reading_laws()
    // Octets exactly encode at most one value, with one number of unknown additions.
    ensures one_value { (s : List Resolved) (r : Rules) (t j k : ℕ) (v w : AbstractValue) (o : List ℕ)
        → AllTagged s
        → AllHaveDistinctTags s
        → EncodesTo s r t v j o
        → EncodesTo s r t w k o
        → (v ≡ w) × (j ≡ k) }
    // If octets are an encoding of two values, these are the same, and the numbers of unknown additions are equal.
    ensures ber { (s : List Resolved) (t j k : ℕ) (v w : AbstractValue) (o : List ℕ)
        → AllTagged s
        → AllHaveDistinctTags s
        → Ber s t v j o
        → Ber s t w k o
        → Same s t v w × (j ≡ k) }
    ensures der { (s : List Resolved) (t j k : ℕ) (v w : AbstractValue) (o : List ℕ)
        → AllTagged s
        → AllHaveDistinctTags s
        → Der s t v j o
        → Der s t w k o
        → Same s t v w × (j ≡ k) }
    // No encoding starts another one, whatever octets follow, and of whatever types they are.
    ensures none_begins_another { (s : List Resolved) (q r : Rules) (t u j k : ℕ) (v w : AbstractValue)
        (o p x y : List ℕ)
        → AllTagged s
        → EncodesTo s q t v j o
        → EncodesTo s r u w k p
        → o ++ x ≡ p ++ y
        → (o ≡ p) × (x ≡ y) }
{
    lemma_sameness();
}

/// The number of levels of headers depends on the octets alone. A DER encoding has at most six levels of headers for
/// each level of its value, and so at most 400.
pub fn level_laws()
    // Two encodings of one type with the same octets have the same number of levels, whatever their rules and values.
    ensures one { (s : List Resolved) (q r : Rules) (t j k : ℕ) (v w : AbstractValue) (o : List ℕ)
        (d : EncodesTo s q t v j o) (e : EncodesTo s r t w k o)
        → AllTagged s
        → AllHaveDistinctTags s
        → levels d ≡ levels e }
    ensures few { (s : List Resolved) (n t : ℕ) (v : AbstractValue) (o : List ℕ) (d : EncodesTo s Distinguished t v 0 o)
        → HasFewTags s
        → ValueIn s n t v
        → levels d ≤ 6 * n }
    ensures within_limit { (s : List Resolved) (t : ℕ) (v : AbstractValue) (o : List ℕ)
        (d : EncodesTo s Distinguished t v 0 o)
        → HasFewTags s
        → IsValueWithoutNodes s t v
        → levels d ≤ 400 }
{}

/// Each value of a kind that holds no others has contents octets by the distinguished rules, and only one list of them.
/// They encode exactly the value, or for named bits the value without zeros at its end.
pub fn leaf_laws()
    ensures some { (s : List Resolved) (k : Kind) (v : AbstractValue)
        → IsSound s k
        → IsPrimitive k v
        → (w : AbstractValue) × (x : List ℕ) × AlikeBy s k v w × Contents Distinguished k w false x }
    ensures one { (s : List Resolved) (k : Kind) (v w : AbstractValue) (x y : List ℕ)
        → AlikeBy s k v w
        → Contents Distinguished k v false x
        → Contents Distinguished k w false y
        → y ≡ x }
{}

/// Each value of a type of a schema has an encoding by the distinguished rules, if its weight is below 256^126, the
/// limit of what length octets can express.
pub fn existence_laws()
    ensures { (s : List Resolved) (t : ℕ) (v : AbstractValue)
        → IsSchema s
        → IsValueWithoutNodes s t v
        → weight v < 256 ^ 126
        → (o : List ℕ) × Der s t v 0 o × (length o ≤ weight v) }
{
    lemma_sameness();
    lemma_alike_values();
}

/// Only its length can keep a value from having an encoding by the distinguished rules. Within any limit of octets a
/// value has a DER encoding exactly if it has any encoding.
pub fn length_laws()
    // A value with an encoding by the basic rules has a DER encoding, which is no longer.
    ensures least { (s : List Resolved) (t : ℕ) (v : AbstractValue) (p : List ℕ)
        → IsSchema s
        → Ber s t v 0 p
        → (o : List ℕ) × Der s t v 0 o × (length o ≤ length p) }
    // A value has a DER encoding of at most m octets, or each of its encodings has more than m.
    ensures within { (s : List Resolved) (t m : ℕ) (v : AbstractValue)
        → IsSchema s
        → IsValueWithoutNodes s t v
        → ((o : List ℕ) × Der s t v 0 o × (length o ≤ m)) ⊎ ((p : List ℕ) → Ber s t v 0 p → m < length p) }
{
    lemma_sameness();
    lemma_alike_values();
    der_laws();
}

/// The value that octets encode exactly has at most as many nodes as there are octets. So a value whose encoding is
/// within the limit of a message is within the limit on nodes too.
pub fn message_laws()
    ensures nodes { (s : List Resolved) (r : Rules) (t k : ℕ) (w : AbstractValue) (o : List ℕ)
        → IsSchema s
        → EncodesTo s r t w k o
        → nodes w ≤ length o }
    ensures value { (s : List Resolved) (r : Rules) (t k : ℕ) (w : AbstractValue) (o : List ℕ)
        → IsSchema s
        → IsValueWithoutNodes s t w
        → EncodesTo s r t w k o
        → length o ≤ 16777216
        → IsValue s t w }
{}

/// An account of an encoding determines its octets. Whatever the order in SET and SET OF, these are a shortest
/// encoding: no encoding by the basic rules has fewer octets. Each DER encoding has an account.
pub fn account_laws()
    // A type, a value and an account determine one list of octets.
    ensures one { (s : List Resolved) (t : ℕ) (v : AbstractValue) (o p : List ℕ) (a : Account)
        → Describes s t v o a
        → Describes s t v p a
        → p ≡ o }
    // These octets follow the distinguished rules, except those about the order in sets.
    ensures unsorted { (s : List Resolved) (t : ℕ) (v : AbstractValue) (o : List ℕ) (a : Account)
        → IsSchema s
        → IsValueWithoutNodes s t v
        → Describes s t v o a
        → EncodesBy Unsorted s t v 0 o }
    ensures shortest { (s : List Resolved) (t : ℕ) (v : AbstractValue) (o : List ℕ) (a : Account)
        → IsSchema s
        → IsValueWithoutNodes s t v
        → Describes s t v o a
        → Shortest s t v o }
    // Each encoding by the distinguished rules has an account.
    ensures exists { (s : List Resolved) (t : ℕ) (v : AbstractValue) (o : List ℕ)
        → IsSchema s
        → Der s t v 0 o
        → (a : Account) × Describes s t v o a }
{
    lemma_sameness();
    lemma_alike_values();
    unsorted_laws();
}

/// The laws together, for a schema with types of any kind.
pub fn schema_laws()
    // Values that are the same have one encoding by the distinguished rules.
    ensures one_der { (s : List Resolved) (t : ℕ) (v w : AbstractValue) (o p : List ℕ)
        → IsSchema s
        → Same s t v w
        → Der s t v 0 o
        → Der s t w 0 p
        → p ≡ o }
    // If octets are a DER encoding of two values, these are the same.
    ensures one_value { (s : List Resolved) (t j k : ℕ) (v w : AbstractValue) (o : List ℕ)
        → IsSchema s
        → Der s t v j o
        → Der s t w k o
        → Same s t v w × (j ≡ k) }
    // No encoding by the basic rules is shorter than a DER encoding.
    ensures shortest { (s : List Resolved) (t : ℕ) (v : AbstractValue) (o : List ℕ)
        → IsSchema s
        → Der s t v 0 o
        → Shortest s t v o }
    // By the basic rules octets exactly encode at most one value.
    ensures says_one { (s : List Resolved) (t j k : ℕ) (v w : AbstractValue) (o : List ℕ)
        → IsSchema s
        → EncodesTo s Basic t v j o
        → EncodesTo s Basic t w k o
        → (v ≡ w) × (j ≡ k) }
    // No encoding of a type is the start of a longer encoding of that type.
    ensures none_begins_another { (s : List Resolved) (t j k : ℕ) (v w : AbstractValue) (o p x : List ℕ)
        → IsSchema s
        → EncodesTo s Basic t v j o
        → EncodesTo s Basic t w k p
        → p ≡ o ++ x
        → x ≡ [] }
    // An encoding by the distinguished rules has at most 400 levels of headers.
    ensures levels { (s : List Resolved) (t : ℕ) (v : AbstractValue) (o : List ℕ)
        (d : EncodesTo s Distinguished t v 0 o)
        → IsSchema s
        → IsValueWithoutNodes s t v
        → levels d ≤ 400 }
{
    der_laws();
    reading_laws();
    level_laws();
}
