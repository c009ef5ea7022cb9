//! Laws on values and constraints in their notation.

ghost use Rattle.std.specs.Prelude.{◌≡◌, ◌≤◌, ℕ, Bool, true, List, length};
ghost use Rattle.text.specs.declared.token.Token.{Token};
ghost use Rattle.parser_combinators.specs.Given.{IsLexed, AreTokens};
ghost use Rattle.grammar.specs.Lexeme.{Lexeme};
ghost use Rattle.grammar.specs.Places.{any, bounded, free};
ghost use Rattle.notation.specs.Answer.{IsRightNotationFault};
ghost use Rattle.notation.specs.declared.syntax_fault.SyntaxFault.{SyntaxFault as Fault};
ghost use Rattle.notation.specs.declared.syntax_fault.SyntaxFault.TheVariants as faults;
ghost use Rattle.trees.specs.Values.{Tree};
ghost use Rattle.notation.specs.Value.{values};
ghost use Rattle.trees.specs.Constraints.{ConstraintTree};
ghost use Rattle.notation.specs.ConstraintGrammar.{constraint, size, flat};
ghost use Rattle.notation.specs.Laws.{ValueLaws};
ghost use Rattle.grammar.specs.Rules.{Ruled};
ghost use Rattle.notation.specs.ConstraintReading.{is_size, constraint_at, size_at};
ghost use Rattle.grammar.specs.Reading.{is_open};
ghost use Rattle.grammar.specs.Grows.{Grows};

/// A list of lexemes is one value at most.
pub fn lemma_one_value()
    ensures { (ts : List Lexeme) (v w : Tree)
        → (free values).Is v ts
        → (free values).Is w ts
        → v ≡ w }
{}

/// A list of lexemes is one constraint at most.
pub fn lemma_one_constraint()
    ensures { (ts : List Lexeme) (v w : ConstraintTree)
        → (constraint any).Is v ts
        → (constraint any).Is w ts
        → v ≡ w }
{}

/// A list of lexemes is one size at most.
pub fn lemma_one_size()
    ensures { (ts : List Lexeme) (v w : ConstraintTree)
        → (size any).Is v ts
        → (size any).Is w ts
        → v ≡ w }
{}

/// At most one fault is right where a value is read, apart from `Memory`.
pub fn lemma_one_value_fault()
    ensures { (ts : List Lexeme) (start n : ℕ) → start ≤ length ts → (f g : Fault)
        → (f ≡ faults.Memory → ⊥)
        → (g ≡ faults.Memory → ⊥)
        → IsRightNotationFault values ts start (bounded n) f
        → IsRightNotationFault values ts start (bounded n) g
        → f ≡ g }
{}

/// At most one fault is right where a constraint is read, apart from `Memory`.
pub fn lemma_one_constraint_fault()
    ensures { (ts : List Lexeme) (start : ℕ) → start ≤ length ts → (f g : Fault)
        → (f ≡ faults.Memory → ⊥)
        → (g ≡ faults.Memory → ⊥)
        → IsRightNotationFault (flat constraint) ts start (bounded 0) f
        → IsRightNotationFault (flat constraint) ts start (bounded 0) g
        → f ≡ g }
{}

/// At most one fault is right where a size is read, apart from `Memory`.
pub fn lemma_one_size_fault()
    ensures { (ts : List Lexeme) (start : ℕ) → start ≤ length ts → (f g : Fault)
        → (f ≡ faults.Memory → ⊥)
        → (g ≡ faults.Memory → ⊥)
        → IsRightNotationFault (flat size) ts start (bounded 0) f
        → IsRightNotationFault (flat size) ts start (bounded 0) g
        → f ≡ g }
{}

/// What is read as a constraint is one, each constraint is read, and a fault is the first one.
pub fn lemma_constraints_are_read()
    ensures read { Ruled constraint is_open constraint_at }
    ensures grows { (fits fits' : ℕ → Bool)
        → ((n : ℕ) → fits n ≡ true → fits' n ≡ true)
        → Grows (constraint fits) (constraint fits') }
{}

/// What is read as a size is one, each size is read, and a fault is the first one.
pub fn lemma_sizes_are_read()
    ensures read { Ruled size is_size size_at }
    ensures grows { (fits fits' : ℕ → Bool)
        → ((n : ℕ) → fits n ≡ true → fits' n ≡ true)
        → Grows (size fits) (size fits') }
{}

/// What is read as a value is one, each value is read, and a fault is the first one.
pub fn lemma_values_are_read()
    ensures { ValueLaws }
{}

/// What the lexer returns are tokens of its text: each is within the text, and no number passes the limit.
pub fn lemma_lexed_tokens()
    ensures { (x : List ℕ) (ts : List Token) → IsLexed x ts → AreTokens x ts }
{
    text::law::lemma_spans_within();
}
