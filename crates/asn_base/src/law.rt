//! Laws of values and schemas, for the crates above.

ghost use Rattle.std.specs.Prelude.{◌≡◌, ◌≤◌, ◌⊎◌, ℕ, ℤ, List, [], ◌∷◌, ◌++◌, map, option_map, string_bytes, Bool as 𝔹, Option, Some, None, slice_get, Vec, String as String', Box};
ghost use Rattle.std.specs.List.{AllByRecursion};
ghost use Rattle.std.specs.declared.alloc.Global.{Global as Global'};
ghost use Rattle.asn_base.specs.declared.value.BitString.{BitString};
ghost use Rattle.asn_base.specs.declared.value.Value.{Value};
ghost use Rattle.asn_base.specs.declared.value.Value.TheVariants.{Bool, Int, Enum, Bits, Octets, Text, Null, Oid, RelativeOid, Fields, List as List', Alt};
ghost use Rattle.asn_base.specs.Abstract.{AbstractValue, Row, boolean, integer, enumerated, bits, bits_of, octets, text, null, oid, relative_oid, fields, list, alternative, abstract, row_of_options, row_of_list};
ghost use Rattle.asn_base.specs.Types.{Component, Resolved};
ghost use Rattle.asn_base.specs.Typed.{group_of, GroupsAreWhole, ValueIn, IsValueWithoutNodes, IsValue, IsWithinLimit, nodes};
ghost use Rattle.asn_base.specs.Same.{Alike, AlikeComponents, Same};
ghost use Rattle.asn_base.specs.Accepted.{AllSimple, IsSimpleType};
ghost use Rattle.asn_base.specs.Schemas.{IsSchema};
ghost use Rattle.asn_base.specs.Tags.{AllTagged, AllHaveDistinctTags};
ghost use Rattle.asn_base.specs.Rules.{AllKeep, IsFirstFault, Keeps};
ghost use Rattle.asn_base.specs.declared.rule.SchemaRule.{SchemaRule};
ghost use Rattle.asn_base.specs.declared.rule.SchemaFault.TheVariants.{Broken};

/// Gives the abstract value of each variant of a value.
pub fn lemma_abstract_values()
    ensures bool { (b : 𝔹) → abstract (Bool b) ≡ boolean b }
    ensures int { (z : ℤ) → abstract (Int z) ≡ integer z }
    ensures enum_ { (z : ℤ) → abstract (Enum z) ≡ enumerated z }
    ensures bits_ { (b : BitString) → abstract (Bits b) ≡ bits (bits_of b) }
    ensures octets_ { (v : Vec ℕ Global') → abstract (Octets v) ≡ octets v.items }
    ensures text_ { (v : String' Global') → abstract (Text v) ≡ text (string_bytes v) }
    ensures null_ { abstract Null ≡ null }
    ensures oid_ { (v : Vec ℕ Global') → abstract (Oid v) ≡ oid v.items }
    ensures relative_oid_ { (v : Vec ℕ Global') → abstract (RelativeOid v) ≡ relative_oid v.items }
    ensures fields_ { (v : Vec (Option Value) Global')
        → abstract (Fields v) ≡ fields (row_of_options (map (option_map abstract) v.items)) }
    ensures list_ { (v : Vec Value Global') → abstract (List' v) ≡ list (row_of_list (map abstract v.items)) }
    ensures alt { (i : ℕ) (b : Box Value Global') → abstract (Alt i b) ≡ alternative i (abstract b.value) }
{}

/// Every number of 128 bits is within the limit of INTEGER.
pub fn lemma_integer_within_limit(number: i128)
    ensures { IsWithinLimit number }
{}

/// Each type of a schema of simple types is an accepted one. The schema without types is accepted, and an accepted
/// schema stays accepted if an accepted type is added to it.
pub fn lemma_schemas_grow()
    ensures each { (s : List Resolved) (t : ℕ) (r : Resolved)
        → slice_get s t ≡ Some r
        → AllSimple s
        → IsSimpleType s r }
    ensures empty { AllSimple [] }
    ensures grows { (s : List Resolved) (r : Resolved)
        → AllSimple s
        → IsSimpleType s r
        → AllSimple (s ++ (r ∷ [])) }
{}

/// Each schema of simple types is a schema.
pub fn lemma_simple_schemas_are_schemas()
    ensures { (s : List Resolved) → AllSimple s → IsSchema s }
{}

/// Each type of an accepted schema, except a CHOICE, has a tag, and first tags are distinct where they must be.
pub fn lemma_simple_types_have_distinct_tags()
    ensures tagged { (s : List Resolved) → AllSimple s → AllTagged s }
    ensures distinct_tags { (s : List Resolved) → AllSimple s → AllHaveDistinctTags s }
{}

/// A value of an accepted schema is within the limit on nodes: it has at most 256 members, which hold no others.
pub fn few_nodes()
    ensures nodes { (s : List Resolved) (n t : ℕ) (v : AbstractValue) → AllSimple s → ValueIn s n t v → nodes v ≤ 257 }
    ensures value { (s : List Resolved) (t : ℕ) (v : AbstractValue)
        → AllSimple s
        → IsValueWithoutNodes s t v
        → IsValue s t v }
{}

/// If no component is written in version brackets, all groups are whole.
pub fn lemma_without_groups()
    ensures { (cs : List Component) (vs : Row)
        → AllByRecursion (λ c. group_of c.presence ≡ None) cs
        → GroupsAreWhole cs vs }
{}

/// Values that are alike have the same whole groups, and the same number of levels.
pub fn lemma_alike_values()
    ensures groups { (s : List Resolved) (cs : List Component) (vs ws : Row)
        → AlikeComponents s cs vs ws
        → GroupsAreWhole cs vs
        → GroupsAreWhole cs ws }
    ensures levels { (s : List Resolved) (m n t : ℕ) (v w : AbstractValue)
        → Alike s t v w
        → ValueIn s n t v
        → ValueIn s m t w
        → ValueIn s n t w }
    // It is decidable whether two values are alike.
    ensures decided { (s : List Resolved) (m n t : ℕ) (v w : AbstractValue)
        → ValueIn s n t v
        → ValueIn s m t w
        → Alike s t v w ⊎ (Alike s t v w → ⊥) }
{}

/// A value with at most m levels is also one with at most n levels, if m is at most n.
pub fn lemma_levels_grow()
    ensures { (s : List Resolved) (t m n : ℕ) (v : AbstractValue) → m ≤ n → ValueIn s m t v → ValueIn s n t v }
{}

/// Being the same is an equivalence relation on the values of a type; the limit on nodes doesn't matter.
pub fn lemma_sameness()
    ensures itself { (s : List Resolved) (t : ℕ) (v : AbstractValue) → IsValueWithoutNodes s t v → Same s t v v }
    ensures turned { (s : List Resolved) (t : ℕ) (v w : AbstractValue) → Same s t v w → Same s t w v }
    ensures joined { (s : List Resolved) (t : ℕ) (v w x : AbstractValue) → Same s t v w → Same s t w x → Same s t v x }
    ensures alike_turned { (s : List Resolved) (t : ℕ) (v w : AbstractValue) → Alike s t v w → Alike s t w v }
    ensures alike_joined { (s : List Resolved) (t : ℕ) (v w x : AbstractValue)
        → Alike s t v w
        → Alike s t w x
        → Alike s t v x }
{}

/// Types are a schema exactly if each type keeps each rule, and they have one first fault at most.
pub fn lemma_schema_rules()
    ensures schema { (s : List Resolved) → AllKeep s 15 → IsSchema s }
    ensures rules { (s : List Resolved) → IsSchema s → (rule : SchemaRule) (t : ℕ) → Keeps s rule t }
    ensures one_fault { (s : List Resolved) (p q : SchemaRule) (t u : ℕ)
        → IsFirstFault s (Broken p t)
        → IsFirstFault s (Broken q u)
        → (p ≡ q) × (t ≡ u) }
{}
