//! Laws of printed values.

ghost use Rattle.asn_base.specs.Abstract.{AbstractValue};
ghost use Rattle.asn_base.specs.Schemas.{IsSchema};
ghost use Rattle.asn_base.specs.Types.{Resolved};
ghost use Rattle.asn_base.specs.Typed.{IsValueWithoutNodes};
ghost use Rattle.grammar.specs.Lexeme.{lexemes};
ghost use Rattle.grammar.specs.Places.{small};
ghost use Rattle.parser_combinators.specs.Given.{IsLexed};
ghost use Rattle.notation.specs.Reading.{value_at};
ghost use Rattle.laws_print.specs.Back.{tree_of};
ghost use Rattle.std.specs.Prelude.{◌≡◌, ◌≤◌, ℕ, List, [], length, IsUtf8, Ok};
ghost use Rattle.text.specs.declared.token.Token.{Token};
ghost use Rattle.text.specs.Text.{max_text};
ghost use Rattle.value_text.specs.Print.{print};

/// A printed text has tokens within the limits.
pub fn lemma_printed_has_tokens()
    ensures { (s : List Resolved) (t : ℕ) (v : AbstractValue)
        → IsSchema s
        → IsValueWithoutNodes s t v
        → IsUtf8 (print s t v)
        → length (print s t v) ≤ max_text
        → (ts : List Token) × IsLexed (print s t v) ts }
{}

/// The tokens of a printed text are read as the value's tree, and none are left over.
pub fn lemma_printed_is_read_back()
    ensures { (s : List Resolved) (t : ℕ) (v : AbstractValue) (ts : List Token)
        → IsSchema s
        → IsValueWithoutNodes s t v
        → IsLexed (print s t v) ts
        → value_at small 128 (lexemes (print s t v) ts) ≡ Ok (tree_of s t v, []) }
{
    notation::law::lemma_values_are_read();
    text::law::lemma_one_list_of_tokens();
}
