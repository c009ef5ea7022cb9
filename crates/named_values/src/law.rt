//! What follows for names and for values that are given. A caller calls a law to know it; the call takes no memory and
//! no time.

ghost use Rattle.std.specs.Prelude.{◌≡◌, ℕ, List, String};
ghost use Rattle.std.specs.Global.{Global};
ghost use Rattle.asn_base.specs.Abstract.{AbstractValue};
ghost use Rattle.names.specs.declared.scope.Assigned.{Assigned};
ghost use Rattle.resolve.specs.Program.{Program};
ghost use Rattle.messages.specs.front_end.Accepted.{IsCheckedProgram};
ghost use Rattle.text.specs.declared.lex_fault.LexFault.{LexFault};
ghost use Rattle.notation.specs.declared.syntax_fault.SyntaxFault.{SyntaxFault};
ghost use Rattle.messages.specs.declared.fault.Fault.{Fault};
ghost use Rattle.messages.specs.declared.fault.Fault.TheVariants.{Memory, NoType, NoValue, Notation, Value};
ghost use Rattle.messages.specs.declared.fault.NotationFault.{NotationFault as NotationFault'};
ghost use Rattle.messages.specs.declared.fault.NotationFault.TheVariants.{Octets, Tokens};
ghost use Rattle.messages.specs.value_diagnostics.declared.value_diagnostic.ValueDiagnostic.{ValueDiagnostic};
ghost use Rattle.named_values.specs.Given.{Given};
ghost use Rattle.named_values.specs.Meant.{IsMeant, IsNotMeant, DenotesNoValue};
ghost use Rattle.named_values.specs.Named.{IsQualifiedName};

use messages::front_end::law::one_value;
use written_values::law::{lemma_one_fault, lemma_one_notation, lemma_wrong_texts_are_none};

/// A name of a type and a value that is given mean at most one value of one type. If they mean one, the only refusal is
/// `Memory`.
pub fn one_meaning()
    ensures one { (p : Program) (first : List ℕ) (second : Given) (t u : ℕ) (v w : AbstractValue) →
        IsCheckedProgram p →
        IsMeant p first second t v →
        IsMeant p first second u w →
        (t ≡ u) × (v ≡ w) }
    ensures refused { (p : Program) (first : List ℕ) (second : Given) (t : ℕ) (v : AbstractValue) (e : Fault) →
        IsCheckedProgram p →
        IsMeant p first second t v →
        IsNotMeant p first second e →
        e ≡ Memory }
{
    one_value();
    lemma_one_notation();
    lemma_wrong_texts_are_none();
}

/// A text names at most one type or value.
pub fn one_name()
    ensures { (p : Program) (text : List ℕ) (a b : Assigned) → IsCheckedProgram p → IsQualifiedName p text a →
        IsQualifiedName p text b → a ≡ b }
{}

/// Refusals come in one order: that of the type's name, then that of the value's name or of the text's octets and
/// tokens, then what is wrong with the notation. At most one of these kinds can be returned for the same texts.
pub fn one_refusal()
    ensures type_before_value { (p : Program) (first : List ℕ) (second : Given) (x y : String Global) →
        IsNotMeant p first second (NoType x) →
        IsNotMeant p first second (NoValue y) →
        ⊥ }
    ensures type_before_notation { (p : Program) (first : List ℕ) (second : Given) (x : String Global)
        (t : ValueDiagnostic) →
        IsNotMeant p first second (NoType x) →
        IsNotMeant p first second (Value t) →
        ⊥ }
    ensures value_before_notation { (p : Program) (first : List ℕ) (second : Given) (x : String Global)
        (t : ValueDiagnostic) →
        IsNotMeant p first second (NoValue x) →
        IsNotMeant p first second (Value t) →
        ⊥ }
    ensures type_before_text { (p : Program) (first : List ℕ) (second : Given) (x : String Global)
        (f : NotationFault') →
        IsNotMeant p first second (NoType x) →
        IsNotMeant p first second (Notation f) →
        ⊥ }
    // A name has no fault of a text.
    ensures name_or_text { (p : Program) (first : List ℕ) (second : Given) (x : String Global)
        (f : NotationFault') →
        IsNotMeant p first second (NoValue x) →
        IsNotMeant p first second (Notation f) →
        ⊥ }
    ensures octets_before_notation { (p : Program) (first : List ℕ) (second : Given) (f : LexFault)
        (t : ValueDiagnostic) →
        IsNotMeant p first second (Notation (Octets f)) →
        DenotesNoValue p first second t →
        ⊥ }
    ensures tokens_before_notation { (p : Program) (first : List ℕ) (second : Given) (f : SyntaxFault)
        (t : ValueDiagnostic) →
        IsNotMeant p first second (Notation (Tokens f)) →
        DenotesNoValue p first second t →
        ⊥ }
    // The text of a notation has one fault of its octets and tokens.
    ensures one_text { (p : Program) (first : List ℕ) (second : Given) (f g : LexFault) →
        IsNotMeant p first second (Notation (Octets f)) →
        IsNotMeant p first second (Notation (Octets g)) →
        f ≡ g }
    ensures one_tree { (p : Program) (first : List ℕ) (second : Given) (f g : SyntaxFault) →
        IsNotMeant p first second (Notation (Tokens f)) →
        IsNotMeant p first second (Notation (Tokens g)) →
        f ≡ g }
    ensures octets_before_tokens { (p : Program) (first : List ℕ) (second : Given) (f : LexFault) (g : SyntaxFault) →
        IsNotMeant p first second (Notation (Octets f)) →
        IsNotMeant p first second (Notation (Tokens g)) →
        ⊥ }
{
    lemma_one_fault();
    lemma_one_notation();
    lemma_wrong_texts_are_none();
}
