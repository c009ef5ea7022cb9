//! What holds of every rule that octets break.

ghost use Rattle.asn_base.specs.Abstract.{AbstractValue};
ghost use Rattle.asn_base.specs.Schemas.{IsSchema};
ghost use Rattle.asn_base.specs.Types.{Component, Resolved};
ghost use Rattle.der_check.specs.Broken.{Breaks, MemberBreaks};
ghost use Rattle.der_check.specs.Strict.{MemberBy};
ghost use Rattle.der_check.specs.declared.rule.RuleOfDer.{RuleOfDer as Rule'};
ghost use Rattle.encodings.specs.Encoding.{EncodesTo};
ghost use Rattle.encodings.specs.Rules.{Basic, Distinguished};
ghost use Rattle.std.specs.Prelude.{List, ℕ};

use encodings::{header_laws, reading_laws};

/// Octets that break a rule encode the value by the basic rules, and not by the distinguished ones.
pub fn lemma_broken()
    // Octets that break a rule encode the value by the basic rules.
    ensures basic { (s : List Resolved) (t n : ℕ) (v : AbstractValue) (o : List ℕ) (r : Rule')
        → Breaks s t v o r n
        → (k : ℕ) × EncodesTo s Basic t v k o }
    // They don't by the distinguished rules.
    ensures value { (s : List Resolved) (t j n : ℕ) (v : AbstractValue) (o : List ℕ) (r : Rule')
        → IsSchema s
        → Breaks s t v o r n
        → EncodesTo s Distinguished t v j o
        → ⊥ }
    // The same of a component, which must not be the same as its DEFAULT, unless additions were skipped within it.
    ensures member { (s : List Resolved) (c : Component) (v : AbstractValue) (o : List ℕ) (r : Rule') (j n : ℕ)
        → IsSchema s
        → MemberBreaks s c v o r n
        → MemberBy s c v o j
        → ⊥ }
{
    header_laws();
    reading_laws();
}
